//! Sets of messages.
//! Allocates.
use crate::client::{Case, hears_after, hears_empty};

/// Each message once, by rising numbers. `*` is the greatest number that was told.
static SETS: [Case; 9] = [
    (
        b"a FETCH 3,1:2,3 UID\r\n",
        &[
            b"* 1 FETCH (UID 1)",
            b"* 2 FETCH (UID 2)",
            b"* 3 FETCH (UID 3)",
            b"a OK FETCH done",
        ],
    ),
    (
        b"a FETCH *:2 UID\r\n",
        &[
            b"* 2 FETCH (UID 2)",
            b"* 3 FETCH (UID 3)",
            b"a OK FETCH done",
        ],
    ),
    (
        b"a FETCH * UID\r\n",
        &[b"* 3 FETCH (UID 3)", b"a OK FETCH done"],
    ),
    (b"a FETCH 4 UID\r\n", &[b"a BAD syntax"]),
    (b"a FETCH 2:9 UID\r\n", &[b"a BAD syntax"]),
    (
        b"a UID FETCH 9:* (UID)\r\n",
        &[b"* 3 FETCH (UID 3)", b"a OK UID FETCH done"],
    ),
    (b"a UID FETCH 7 (UID)\r\n", &[b"a OK UID FETCH done"]),
    (b"a SEARCH NOT 2:4\r\n", &[b"a BAD syntax"]),
    (b"a UID SEARCH OR ALL 4\r\n", &[b"a BAD syntax"]),
];

#[test]
fn sets_name_messages_that_were_told(rt: HostRuntime) {
    for case in &SETS {
        assert!(rt; hears_after(rt.alloc(), &[], case) == Some(true));
    }
}

/// `*` is still the last message where that is gone.
static LAST_GONE: [Case; 3] = [
    (b"a UID FETCH * (UID)\r\n", &[b"a OK UID FETCH done"]),
    (b"a FETCH * (UID)\r\n", &[b"a NO some are gone"]),
    (b"a SEARCH UID *\r\n", &[b"* SEARCH", b"a OK SEARCH done"]),
];

#[test]
fn the_last_message_may_be_gone(rt: HostRuntime) {
    for case in &LAST_GONE {
        assert!(rt; hears_after(rt.alloc(), &[3], case) == Some(true));
    }
}

/// Without messages `*` is no sequence number.
static EMPTY: [Case; 5] = [
    (b"a FETCH 1:* UID\r\n", &[b"a BAD syntax"]),
    (b"a UID FETCH 1:* UID\r\n", &[b"a OK UID FETCH done"]),
    (b"a SEARCH 1:*\r\n", &[b"a BAD syntax"]),
    (b"a SEARCH UID 1:*\r\n", &[b"* SEARCH", b"a OK SEARCH done"]),
    (b"a SEARCH ALL\r\n", &[b"* SEARCH", b"a OK SEARCH done"]),
];

#[test]
fn a_mailbox_may_have_no_messages(rt: HostRuntime) {
    for case in &EMPTY {
        assert!(rt; hears_empty(rt.alloc(), case) == Some(true));
    }
}
