//! Commands that read no messages, in each state. The archive has three messages, and two mailboxes of
//! two numbers each.
use crate::client::{Case, archive_of, hears, hears_all, new_state};
use arch_model::Next;
use std::alloc::Global;

/// The messages of the archive.
const MESSAGES: [&[u8]; 3] = [
    b"Message-ID: <a@x>\n\n1\n",
    b"Message-ID: <b@x>\n\n2\n",
    b"Message-ID: <c@x>\n\n3\n",
];

/// Returns whether a new client's commands are answered by the lines of their cases.
fn answers(alloc: Global, cases: &[Case]) -> Option<bool> {
    let mut archive = archive_of(alloc, 2, &MESSAGES)?;
    let mut state = new_state();
    Some(hears_all(alloc, cases, &mut state, &mut archive))
}

/// Octets that are no command of the grammar.
static MISTAKEN: [Case; 12] = [
    (b"\r\n", &[b"* BAD syntax"]),
    (b" NOOP\r\n", &[b"* BAD syntax"]),
    (b"+ NOOP\r\n", &[b"* BAD syntax"]),
    (b"a\tNOOP\r\n", &[b"* BAD syntax"]),
    (b"a(b NOOP\r\n", &[b"* BAD syntax"]),
    (b"{2}\r\nxx\r\n", &[b"* BAD syntax"]),
    (b"a\r\n", &[b"a BAD syntax"]),
    (b"a \n", &[b"a BAD syntax"]),
    (b"]}[! XCOMMAND\r\n", &[b"]}[! BAD syntax"]),
    (b"a NOOP \r\n", &[b"a BAD syntax"]),
    (b"a NOOP{2}\r\nxx\r\n", &[b"a BAD syntax"]),
    (b"a UID NOOP\r\n", &[b"a BAD syntax"]),
];

#[test]
fn other_octets_are_bad(rt: HostRuntime) {
    assert!(rt; answers(rt.alloc(), &MISTAKEN) == Some(true));
}

/// Commands before the login.
static BEFORE: [Case; 13] = [
    (
        b"a CAPABILITY\r\n",
        &[b"* CAPABILITY IMAP4rev1 IDLE", b"a OK CAPABILITY done"],
    ),
    (b"A.1 noop\n", &[b"A.1 OK NOOP done"]),
    (b"a AUTHENTICATE PLAIN\r\n", &[b"a NO not here"]),
    (b"a SELECT list.0\r\n", &[b"a BAD syntax"]),
    (b"a LIST \"\" *\r\n", &[b"a BAD syntax"]),
    (b"a STATUS list.0 (RECENT)\r\n", &[b"a BAD syntax"]),
    (b"a CREATE x\r\n", &[b"a BAD syntax"]),
    (b"a CLOSE\r\n", &[b"a BAD syntax"]),
    (b"a IDLE\r\n", &[b"a BAD syntax"]),
    (b"a FETCH 1 UID\r\n", &[b"a BAD syntax"]),
    (b"a UID SEARCH ALL\r\n", &[b"a BAD syntax"]),
    (b"a1 LOGIN {1}\r\nu p\r\n", &[b"a1 OK LOGIN done"]),
    (b"a LOGIN u p\r\n", &[b"a BAD syntax"]),
];

#[test]
fn commands_before_the_login(rt: HostRuntime) {
    assert!(rt; answers(rt.alloc(), &BEFORE) == Some(true));
}

/// Commands that would change the archive.
static CHANGES: [Case; 12] = [
    (b"a LOGIN NIL \"\"\r\n", &[b"a OK LOGIN done"]),
    (b"a CREATE x\r\n", &[b"a NO read only"]),
    (b"a DELETE list.0\r\n", &[b"a NO read only"]),
    (b"a RENAME list.0 x\r\n", &[b"a NO read only"]),
    (b"a SUBSCRIBE list.0\r\n", &[b"a NO read only"]),
    (b"a UNSUBSCRIBE list.0\r\n", &[b"a NO read only"]),
    (
        b"a APPEND list.0 (\\Seen) \" 1-Feb-2024 10:00:00 +0000\" {2}\r\nhi\r\n",
        &[b"a NO read only"],
    ),
    (b"a EXPUNGE\r\n", &[b"a BAD syntax"]),
    (b"a STORE 1 FLAGS (\\Seen)\r\n", &[b"a BAD syntax"]),
    (b"a UID COPY 1 list.1\r\n", &[b"a BAD syntax"]),
    (b"a CHECK\r\n", &[b"a BAD syntax"]),
    (b"a UID FETCH 1 UID\r\n", &[b"a BAD syntax"]),
];

#[test]
fn commands_that_would_change_mailboxes(rt: HostRuntime) {
    assert!(rt; answers(rt.alloc(), &CHANGES) == Some(true));
}

/// Mailboxes are listed, told of and selected.
static MAILBOXES: [Case; 7] = [
    (b"a1 LOGIN u p\r\n", &[b"a1 OK LOGIN done"]),
    (
        b"a LIST \"\" %\r\n",
        &[
            b"* LIST () NIL list.0",
            b"* LIST () NIL list.1",
            b"a OK LIST done",
        ],
    ),
    (
        b"a LSUB list. 0\r\n",
        &[b"* LSUB () NIL list.0", b"a OK LSUB done"],
    ),
    (
        b"a STATUS list.1 (UIDNEXT MESSAGES)\r\n",
        &[
            b"* STATUS list.1 (UIDNEXT 4 MESSAGES 1)",
            b"a OK STATUS done",
        ],
    ),
    (
        b"a2 SELECT list.1\r\n",
        &[
            b"* FLAGS ()",
            b"* 1 EXISTS",
            b"* 0 RECENT",
            b"* OK [UIDVALIDITY 1] uidvalidity",
            b"* OK [UIDNEXT 4] uidnext",
            b"* OK [PERMANENTFLAGS ()] no flags",
            b"a2 OK [READ-ONLY] SELECT done",
        ],
    ),
    (b"a3 SELECT list.2\r\n", &[b"a3 NO no such mailbox"]),
    (b"a4 FETCH 1 (UID)\r\n", &[b"a4 BAD syntax"]),
];

#[test]
fn another_name_leaves_no_mailbox(rt: HostRuntime) {
    assert!(rt; answers(rt.alloc(), &MAILBOXES) == Some(true));
}

/// Commands that need a mailbox, and the last ones.
static SELECTED: [Case; 9] = [
    (b"a1 LOGIN u p\r\n", &[b"a1 OK LOGIN done"]),
    (
        b"a2 EXAMINE list.0\r\n",
        &[
            b"* FLAGS ()",
            b"* 2 EXISTS",
            b"* 0 RECENT",
            b"* OK [UIDVALIDITY 1] uidvalidity",
            b"* OK [UIDNEXT 3] uidnext",
            b"* OK [PERMANENTFLAGS ()] no flags",
            b"a2 OK [READ-ONLY] EXAMINE done",
        ],
    ),
    (b"a CHECK\r\n", &[b"a OK CHECK done"]),
    (b"a EXPUNGE\r\n", &[b"a NO read only"]),
    (b"a COPY 9 nowhere\r\n", &[b"a NO read only"]),
    (
        b"a UID STORE 9 -FLAGS.SILENT \\Seen\r\n",
        &[b"a NO read only"],
    ),
    (b"a CLOSE\r\n", &[b"a OK CLOSE done"]),
    (b"a CLOSE\r\n", &[b"a BAD syntax"]),
    (b"a IDLE\r\n", &[b"+ idling"]),
];

#[test]
fn commands_with_a_mailbox(rt: HostRuntime) {
    assert!(rt; answers(rt.alloc(), &SELECTED) == Some(true));
}

/// Returns whether LOGOUT closes the session.
fn logs_out(alloc: Global) -> Option<bool> {
    let mut archive = archive_of(alloc, 2, &MESSAGES)?;
    let mut state = new_state();
    let case: Case = (b"a LOGOUT\r\n", &[b"* BYE bye", b"a OK LOGOUT done"]);
    Some(hears(alloc, &case, Next::Close, &mut state, &mut archive))
}

#[test]
fn logout_closes_the_session(rt: HostRuntime) {
    assert!(rt; logs_out(rt.alloc()) == Some(true));
}
