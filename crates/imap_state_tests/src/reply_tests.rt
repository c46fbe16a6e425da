//! Replies worked out by hand from the table of commands. The archive has three messages, and two
//! mailboxes of two numbers each.
use crate::client::Client;
use arch_model::Next;
use imap_states::StateCommand;
use imap_syntax::StatusItem;
use std::alloc::Global;

/// A command with the tag `a`, the words of its reply, and whether the session continues.
type Case = (StateCommand<'static>, &'static [u8], Next);

/// The reply to a command that isn't for the state of the session.
const BAD: &[u8] = b"a BAD syntax\r\n";

/// The reply to LOGIN.
const LOGGED_IN: &[u8] = b"a OK LOGIN done\r\n";

/// Commands before the login.
static BEFORE: [Case; 12] = [
    (
        StateCommand::Capability,
        b"* CAPABILITY IMAP4rev1 IDLE\r\na OK CAPABILITY done\r\n",
        Next::Go,
    ),
    (StateCommand::Noop, b"a OK NOOP done\r\n", Next::Go),
    (StateCommand::Authenticate, b"a NO not here\r\n", Next::Go),
    (StateCommand::Select(b"list.0"), BAD, Next::Go),
    (StateCommand::List(b"", b"*"), BAD, Next::Go),
    (
        StateCommand::Status(b"list.0", &[StatusItem::Recent]),
        BAD,
        Next::Go,
    ),
    (StateCommand::Change, BAD, Next::Go),
    (StateCommand::ChangeMessages, BAD, Next::Go),
    (StateCommand::Check, BAD, Next::Go),
    (StateCommand::Close, BAD, Next::Go),
    (StateCommand::Idle, BAD, Next::Go),
    (
        StateCommand::Logout,
        b"* BYE bye\r\na OK LOGOUT done\r\n",
        Next::Close,
    ),
];

/// Commands after the login.
static AFTER: [Case; 9] = [
    (StateCommand::Login, LOGGED_IN, Next::Go),
    (StateCommand::Login, BAD, Next::Go),
    (StateCommand::Authenticate, BAD, Next::Go),
    (StateCommand::Change, b"a NO read only\r\n", Next::Go),
    (StateCommand::ChangeMessages, BAD, Next::Go),
    (StateCommand::Check, BAD, Next::Go),
    (
        StateCommand::Select(b"list.2"),
        b"a NO no such mailbox\r\n",
        Next::Go,
    ),
    (
        StateCommand::Status(
            b"list.1",
            &[
                StatusItem::Messages,
                StatusItem::Recent,
                StatusItem::UidNext,
                StatusItem::UidValidity,
                StatusItem::Unseen,
            ],
        ),
        b"* STATUS list.1 (MESSAGES 1 RECENT 0 UIDNEXT 4 UIDVALIDITY 7 UNSEEN 1)\r\na OK STATUS done\r\n",
        Next::Go,
    ),
    (
        StateCommand::Status(b"list.2", &[StatusItem::Recent]),
        b"a NO no such mailbox\r\n",
        Next::Go,
    ),
];

/// The reply that shows both mailboxes.
const BOTH: &[u8] = b"* LIST () NIL list.0\r\n* LIST () NIL list.1\r\na OK LIST done\r\n";

/// Lists of mailboxes.
static LISTS: [Case; 9] = [
    (StateCommand::Login, LOGGED_IN, Next::Go),
    (StateCommand::List(b"", b"*"), BOTH, Next::Go),
    (StateCommand::List(b"", b"%"), BOTH, Next::Go),
    (StateCommand::List(b"li", b"st.*"), BOTH, Next::Go),
    (StateCommand::List(b"*", b"t%"), BOTH, Next::Go),
    (
        StateCommand::List(b"", b"*1"),
        b"* LIST () NIL list.1\r\na OK LIST done\r\n",
        Next::Go,
    ),
    (
        StateCommand::List(b"", b"LIST.*"),
        b"a OK LIST done\r\n",
        Next::Go,
    ),
    (
        StateCommand::Lsub(b"list.0", b""),
        b"* LSUB (\\Noselect) NIL \"\"\r\na OK LSUB done\r\n",
        Next::Go,
    ),
    (
        StateCommand::Lsub(b"list.", b"0"),
        b"* LSUB () NIL list.0\r\na OK LSUB done\r\n",
        Next::Go,
    ),
];

/// Selects the first mailbox.
static CHOSEN: [Case; 2] = [
    (StateCommand::Login, LOGGED_IN, Next::Go),
    (
        StateCommand::Examine(b"list.0"),
        b"* FLAGS ()\r\n* 2 EXISTS\r\n* 0 RECENT\r\n* OK [UIDVALIDITY 7] uidvalidity\r\n* OK [UIDNEXT 3] uidnext\r\n* OK [PERMANENTFLAGS ()] no flags\r\na OK [READ-ONLY] EXAMINE done\r\n",
        Next::Go,
    ),
];

/// Commands after the first message was removed.
static REMOVED: [Case; 4] = [
    (
        StateCommand::ChangeMessages,
        b"a NO read only\r\n",
        Next::Go,
    ),
    (
        StateCommand::Status(b"list.7", &[StatusItem::Recent]),
        b"a NO no such mailbox\r\n",
        Next::Go,
    ),
    (
        StateCommand::Noop,
        b"* 1 EXPUNGE\r\na OK NOOP done\r\n",
        Next::Go,
    ),
    (StateCommand::Check, b"a OK CHECK done\r\n", Next::Go),
];

/// Commands after the second message was removed, too.
static LEFT: [Case; 2] = [
    (StateCommand::Close, b"a OK CLOSE done\r\n", Next::Go),
    (StateCommand::Noop, b"a OK NOOP done\r\n", Next::Go),
];

/// Returns whether each command is answered as its case says.
fn are_answered(client: &mut Client, cases: &[Case]) -> bool {
    for (command, words, next) in cases {
        if !client.asks(*command, words, *next) {
            return false;
        }
    }
    true
}

/// Returns whether a new client is greeted, and its commands are answered as these cases say.
fn answers(alloc: Global, cases: &[Case]) -> Option<bool> {
    let mut client = Client::to_three(alloc)?;
    let greeted = client.was_told(b"* OK [CAPABILITY IMAP4rev1 IDLE] piv2 ready\r\n");
    Some(greeted && are_answered(&mut client, cases))
}

#[test]
fn commands_before_the_login(rt: HostRuntime) {
    assert!(rt; answers(rt.alloc(), &BEFORE) == Some(true));
}

#[test]
fn commands_after_the_login(rt: HostRuntime) {
    assert!(rt; answers(rt.alloc(), &AFTER) == Some(true));
}

#[test]
fn mailboxes_that_match(rt: HostRuntime) {
    assert!(rt; answers(rt.alloc(), &LISTS) == Some(true));
}

/// Returns whether a client with a mailbox is told of changes by commands that are done, and by no
/// others.
fn tells(alloc: Global) -> Option<bool> {
    let mut client = Client::to_three(alloc)?;
    let told = are_answered(&mut client, &CHOSEN)
        && client.remove(1)
        && are_answered(&mut client, &REMOVED);
    Some(told && client.remove(2) && are_answered(&mut client, &LEFT))
}

#[test]
fn commands_that_are_done_tell(rt: HostRuntime) {
    assert!(rt; tells(rt.alloc()) == Some(true));
}
