//! Answers a command that reads no messages.
//! Allocates.
ghost use Rattle.std.specs.Prelude.{◌≡◌, ◌++◌, ℕ, true, is_ok};
ghost use Rattle.arch_model.specs.Archives.{Archive};
ghost use Rattle.arch_model.specs.Next.{continues};
ghost use Rattle.edge_io.specs.Phrases.{SaysTo};
ghost use Rattle.line_door.specs.Acts.{Acts, held_if, at_sink};
ghost use Rattle.imap_states.specs.Notices.{done_line};
ghost use Rattle.imap_states.specs.Replies.{asked_said, list_reply, capability_reply, check_reply, completed, tagged_ways};
ghost use Rattle.imap_states.specs.States.{SuitsClient, change_lines};

use crate::commands::StateCommand;
use crate::lists::{Listed, say_list};
use crate::login::{
    refuse_logged_in, refuse_selected, say_authenticate, say_close, say_idle, say_login,
};
use crate::notice::{say_bad, say_logout, say_no_memory};
use crate::selecting::say_select;
use crate::state::ImapState;
use crate::status::say_status;
use crate::telling::{find_changes, finish_told};
use arch_model::{Next, Shelf};
use edge_io::{Sink, SinkFault};
use known_uids::Changes;
use std::alloc::Global;
use wire_replies::{Phrase, Waiting};

/// Answers a command with a tag, and returns whether the session continues. It closes after LOGOUT, and
/// if a send is lost.
///
/// Commands that tell of changes, SELECT, EXAMINE and IDLE say `NO out of memory` if an allocation fails;
/// the state stays.
pub fn answer<S: Shelf, O: Sink>(
    tag: &[u8],
    command: StateCommand<'_>,
    alloc: Global,
    state: &mut ImapState,
    shelf: &S,
    out: &mut O,
) -> Next
    requires { S.ready shelf.now ≡ true }
    ensures acts { (a : Archive) (disk : ℕ) → S.holds shelf.now a → SuitsClient a state.old
        → Acts (asked_said a state.old tag.now command.entry) (at_sink O.Sink out.old disk)
        (held_if (continues result) state.new) a (at_sink O.Sink out.new disk) }
    ensures sink { O.alike out.old out.new }
{
    match command {
        StateCommand::Logout => {
            let _ = say_logout(tag, out);
            Next::Close
        }
        StateCommand::Capability => Next::after(say_capability(tag, alloc, state, shelf, out)),
        StateCommand::Noop => Next::after(complete(tag, b"NOOP", b"", alloc, state, shelf, out)),
        StateCommand::Login => Next::after(say_login(tag, state, out)),
        StateCommand::Authenticate => Next::after(say_authenticate(tag, state, out)),
        StateCommand::Select(mailbox) => {
            Next::after(say_select(tag, b"SELECT", mailbox, alloc, state, shelf, out))
        }
        StateCommand::Examine(mailbox) => {
            Next::after(say_select(tag, b"EXAMINE", mailbox, alloc, state, shelf, out))
        }
        StateCommand::List(reference, pattern) => {
            Next::after(list(tag, b"LIST", reference, pattern, alloc, state, shelf, out))
        }
        StateCommand::Lsub(reference, pattern) => {
            Next::after(list(tag, b"LSUB", reference, pattern, alloc, state, shelf, out))
        }
        StateCommand::Status(mailbox, items) => {
            Next::after(say_status(tag, mailbox, items, alloc, state, shelf, out))
        }
        StateCommand::Change => Next::after(refuse_logged_in(tag, state, out)),
        StateCommand::ChangeMessages => Next::after(refuse_selected(tag, state, out)),
        StateCommand::Check => Next::after(say_check(tag, alloc, state, shelf, out)),
        StateCommand::Close => Next::after(say_close(tag, state, out)),
        StateCommand::Idle => Next::after(say_idle(tag, alloc, state, out)),
    }
}

/// Says which mailboxes a reference and a pattern match.
fn list<'a, S: Shelf, O: Sink>(
    tag: &'a [u8],
    name: &'a [u8],
    reference: &'a [u8],
    pattern: &'a [u8],
    alloc: Global,
    state: &mut ImapState,
    shelf: &S,
    out: &mut O,
) -> Result<(), SinkFault>
    requires { S.ready shelf.now ≡ true }
    ensures acts { (a : Archive) (disk : ℕ) → S.holds shelf.now a → SuitsClient a state.old
        → Acts (tagged_ways a state.old tag.now
        (list_reply a state.old tag.now name.now reference.now pattern.now))
        (at_sink O.Sink out.old disk) (held_if (is_ok result) state.new) a
        (at_sink O.Sink out.new disk) }
    ensures sink { O.alike out.old out.new }
{
    let listed = Listed {
        tag,
        name,
        reference,
        pattern,
    };
    say_list(&listed, alloc, state, shelf, out)
}

/// Says what the server can do, and tells the client of changes.
fn say_capability<S: Shelf, O: Sink>(
    tag: &[u8],
    alloc: Global,
    state: &mut ImapState,
    shelf: &S,
    out: &mut O,
) -> Result<(), SinkFault>
    requires { S.ready shelf.now ≡ true }
    ensures acts { (a : Archive) (disk : ℕ) → S.holds shelf.now a → SuitsClient a state.old
        → Acts (tagged_ways a state.old tag.now (capability_reply a state.old tag.now))
        (at_sink O.Sink out.old disk) (held_if (is_ok result) state.new) a
        (at_sink O.Sink out.new disk) }
    ensures sink { O.alike out.old out.new }
{
    complete(
        tag,
        b"CAPABILITY",
        b"* CAPABILITY IMAP4rev1 IDLE\r\n",
        alloc,
        state,
        shelf,
        out,
    )
}

/// Tells a client with a mailbox of changes.
fn say_check<S: Shelf, O: Sink>(
    tag: &[u8],
    alloc: Global,
    state: &mut ImapState,
    shelf: &S,
    out: &mut O,
) -> Result<(), SinkFault>
    requires { S.ready shelf.now ≡ true }
    ensures acts { (a : Archive) (disk : ℕ) → S.holds shelf.now a → SuitsClient a state.old
        → Acts (tagged_ways a state.old tag.now (check_reply a state.old tag.now))
        (at_sink O.Sink out.old disk) (held_if (is_ok result) state.new) a
        (at_sink O.Sink out.new disk) }
    ensures sink { O.alike out.old out.new }
{
    if !state.place.is_selected() {
        return say_bad(tag, out);
    }
    complete(tag, b"CHECK", b"", alloc, state, shelf, out)
}

/// Says a command's own line, tells the client of changes, and says that the command was carried out.
fn complete<'a, S: Shelf, O: Sink>(
    tag: &'a [u8],
    name: &'a [u8],
    own: &'a [u8],
    alloc: Global,
    state: &mut ImapState,
    shelf: &S,
    out: &mut O,
) -> Result<(), SinkFault>
    requires { S.ready shelf.now ≡ true }
    ensures acts { (a : Archive) (disk : ℕ) → S.holds shelf.now a → SuitsClient a state.old
        → Acts (tagged_ways a state.old tag.now
        (completed a state.old own.now tag.now name.now))
        (at_sink O.Sink out.old disk) (held_if (is_ok result) state.new) a
        (at_sink O.Sink out.new disk) }
    ensures sink { O.alike out.old out.new }
{
    match find_changes(&mut state.place, alloc, shelf) {
        Err(_) => say_no_memory(tag, out),
        Ok(changes) => say_completed(tag, name, own, &changes, out),
    }
}

/// Says a command's own line, changes, and that the command was carried out.
fn say_completed<'a, O: Sink>(
    tag: &'a [u8],
    name: &'a [u8],
    own: &'a [u8],
    changes: &Changes,
    out: &mut O,
) -> Result<(), SinkFault>
    ensures said { SaysTo O.Sink (own.now ++ (change_lines changes.now
        ++ done_line tag.now name.now)) out.old out.new result }
    ensures sink { O.alike out.old out.new }
{
    let mut reply = Waiting::new();
    reply.push(&[Phrase::Words(own)], out)?;
    finish_told(changes, tag, name, &mut reply, out)
}
