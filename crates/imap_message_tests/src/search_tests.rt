//! The numbers of SEARCH.
//! Allocates.
use crate::client::{Case, hears_after};

/// Searches of three messages.
static FOUND: [Case; 9] = [
    (
        b"a SEARCH NOT SUBJECT FIRST\r\n",
        &[b"* SEARCH 2 3", b"a OK SEARCH done"],
    ),
    (
        b"a SEARCH SENTON 1-Feb-2024\r\n",
        &[b"* SEARCH 1 2 3", b"a OK SEARCH done"],
    ),
    (b"a SEARCH SEEN\r\n", &[b"* SEARCH", b"a OK SEARCH done"]),
    (
        b"a SEARCH UNSEEN 2:3 TEXT TWO\r\n",
        &[b"* SEARCH 2", b"a OK SEARCH done"],
    ),
    (
        b"a SEARCH OR BODY one SUBJECT w NOT 3\r\n",
        &[b"* SEARCH 1", b"a OK SEARCH done"],
    ),
    (
        b"a SEARCH CHARSET utf-8 SUBJECT w\r\n",
        &[b"* SEARCH 3", b"a OK SEARCH done"],
    ),
    (
        b"a SEARCH CHARSET KOI8-R SUBJECT w\r\n",
        &[b"a NO [BADCHARSET (UTF-8 US-ASCII)] charset"],
    ),
    (b"a SEARCH CHARSET KOI8-R 4\r\n", &[b"a BAD syntax"]),
    (
        b"a UID SEARCH LARGER 108 UID 1:2\r\n",
        &[b"* SEARCH 1", b"a OK UID SEARCH done"],
    ),
];

#[test]
fn keys_find_messages(rt: HostRuntime) {
    for case in &FOUND {
        assert!(rt; hears_after(rt.alloc(), &[], case) == Some(true));
    }
}

/// Messages that are gone aren't found, and the others keep their numbers.
static LEFT: [Case; 3] = [
    (b"a SEARCH ALL\r\n", &[b"* SEARCH 2 3", b"a OK SEARCH done"]),
    (b"a SEARCH 1:2\r\n", &[b"* SEARCH 2", b"a OK SEARCH done"]),
    (
        b"a UID SEARCH TEXT w@x\r\n",
        &[b"* SEARCH 3", b"a OK UID SEARCH done"],
    ),
];

#[test]
fn gone_messages_are_not_found(rt: HostRuntime) {
    for case in &LEFT {
        assert!(rt; hears_after(rt.alloc(), &[1], case) == Some(true));
    }
}
