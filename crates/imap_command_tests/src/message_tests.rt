//! FETCH and SEARCH, worked out by hand.
use crate::client::{Case, archive_of, hears_all, new_state, remove};
use std::alloc::Global;

/// The first mail, one without a date, and one of several parts.
const MESSAGES: [&[u8]; 3] = [
    b"From: Ann <ann@example.org>\nDate: Thu, 1 Feb 2024 10:00:00 +0000\nSubject: first\nMessage-ID: <a@x>\n\none\n",
    b"Subject: second\nMessage-ID: <b@x>\n\ntwo\n",
    b"Subject: w\nMessage-ID: <w@x>\nContent-Type: multipart/mixed; boundary=B\n\n--B\nContent-Type: text/plain\n\nhi\n--B--\n",
];

/// The mailbox of all messages is selected.
static CHOSEN: [Case; 2] = [
    (b"a1 LOGIN u p\r\n", &[b"a1 OK LOGIN done"]),
    (
        b"a2 SELECT list.0\r\n",
        &[
            b"* FLAGS ()",
            b"* 3 EXISTS",
            b"* 0 RECENT",
            b"* OK [UIDVALIDITY 1] uidvalidity",
            b"* OK [UIDNEXT 4] uidnext",
            b"* OK [PERMANENTFLAGS ()] no flags",
            b"a2 OK [READ-ONLY] SELECT done",
        ],
    ),
];

/// Returns whether a client with three messages hears the lines of these cases, after one with a
/// number was removed.
fn hears_after(alloc: Global, removed: u32, cases: &[Case]) -> Option<bool> {
    let mut archive = archive_of(alloc, 50_000, &MESSAGES)?;
    let mut state = new_state();
    let chosen = hears_all(alloc, &CHOSEN, &mut state, &mut archive);
    if removed > 0 && !remove(&mut archive, removed) {
        return None;
    }
    Some(chosen && hears_all(alloc, cases, &mut state, &mut archive))
}

/// Nothing is gone.
static WHOLE: [Case; 10] = [
    (
        b"b FETCH 1 FAST\r\n",
        &[
            b"* 1 FETCH (FLAGS () INTERNALDATE \" 1-Feb-2024 10:01:40 +0000\" RFC822.SIZE 109)",
            b"b OK FETCH done",
        ],
    ),
    (
        b"b FETCH 1 (BODY)\r\n",
        &[
            b"* 1 FETCH (BODY (\"text\" \"plain\" NIL NIL NIL \"7bit\" 5 1))",
            b"b OK FETCH done",
        ],
    ),
    (
        b"b FETCH 3 BODY[1]\r\n",
        &[b"* 3 FETCH (BODY[1] {2}", b"hi)", b"b OK FETCH done"],
    ),
    (
        b"b UID FETCH 9:* (UID)\r\n",
        &[b"* 3 FETCH (UID 3)", b"b OK UID FETCH done"],
    ),
    (b"b FETCH 4 UID\r\n", &[b"b BAD syntax"]),
    (
        b"b SEARCH CHARSET utf-8 TEXT {3}\r\ntwo\r\n",
        &[b"* SEARCH 2", b"b OK SEARCH done"],
    ),
    (
        b"b UID SEARCH NOT 1\r\n",
        &[b"* SEARCH 2 3", b"b OK UID SEARCH done"],
    ),
    (b"b SEARCH 4\r\n", &[b"b BAD syntax"]),
    (
        b"b SEARCH CHARSET x ALL\r\n",
        &[b"b NO [BADCHARSET (UTF-8 US-ASCII)] charset"],
    ),
    (b"b NOOP\r\n", &[b"b OK NOOP done"]),
];

#[test]
fn messages_are_told(rt: HostRuntime) {
    assert!(rt; hears_after(rt.alloc(), 0, &WHOLE) == Some(true));
}

/// The second message is gone.
static GONE: [Case; 7] = [
    (
        b"a3 FETCH 3 (UID)\r\n",
        &[b"* 3 FETCH (UID 3)", b"a3 OK FETCH done"],
    ),
    (b"a FETCH 2 UID\r\n", &[b"a NO some are gone"]),
    (b"a UID FETCH 2 FLAGS\r\n", &[b"a OK UID FETCH done"]),
    (b"a SEARCH ALL\r\n", &[b"* SEARCH 1 3", b"a OK SEARCH done"]),
    (b"a4 NOOP\r\n", &[b"* 2 EXPUNGE", b"a4 OK NOOP done"]),
    (
        b"a5 FETCH 2 (UID)\r\n",
        &[b"* 2 FETCH (UID 3)", b"a5 OK FETCH done"],
    ),
    (
        b"a UID SEARCH 2\r\n",
        &[b"* SEARCH 3", b"a OK UID SEARCH done"],
    ),
];

#[test]
fn numbers_change_when_the_client_is_told(rt: HostRuntime) {
    assert!(rt; hears_after(rt.alloc(), 2, &GONE) == Some(true));
}
