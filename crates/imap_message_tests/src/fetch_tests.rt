//! The lines of FETCH.
//! Allocates.
use crate::client::{Case, hears_after};

/// Items, in the order in which they are asked.
static ITEMS: [Case; 8] = [
    (
        b"b FETCH 1 FAST\r\n",
        &[
            b"* 1 FETCH (FLAGS () INTERNALDATE \" 1-Feb-2024 10:01:40 +0000\" RFC822.SIZE 109)",
            b"b OK FETCH done",
        ],
    ),
    (
        b"b FETCH 1 (ENVELOPE)\r\n",
        &[
            b"* 1 FETCH (ENVELOPE (\"Thu, 1 Feb 2024 10:00:00 +0000\" \"first\" ((\"Ann\" NIL \"ann\" \"example.org\")) ((\"Ann\" NIL \"ann\" \"example.org\")) ((\"Ann\" NIL \"ann\" \"example.org\")) NIL NIL NIL NIL \"<a@x>\"))",
            b"b OK FETCH done",
        ],
    ),
    (
        b"b FETCH 1 (BODY)\r\n",
        &[
            b"* 1 FETCH (BODY (\"text\" \"plain\" NIL NIL NIL \"7bit\" 5 1))",
            b"b OK FETCH done",
        ],
    ),
    (
        b"b FETCH 3 (UID UID BODY[1])\r\n",
        &[
            b"* 3 FETCH (UID 3 UID 3 BODY[1] {2}",
            b"hi)",
            b"b OK FETCH done",
        ],
    ),
    (
        b"b FETCH 3 BODY[TEXT]<40.10>\r\n",
        &[
            b"* 3 FETCH (BODY[TEXT]<40> {4}",
            b"--",
            b")",
            b"b OK FETCH done",
        ],
    ),
    (
        b"b UID FETCH 1 FLAGS\r\n",
        &[b"* 1 FETCH (UID 1 FLAGS ())", b"b OK UID FETCH done"],
    ),
    (
        b"b UID FETCH 1 (FLAGS UID)\r\n",
        &[b"* 1 FETCH (FLAGS () UID 1)", b"b OK UID FETCH done"],
    ),
    (
        b"b UID FETCH 3 (BODY BODY[1.MIME])\r\n",
        &[
            b"* 3 FETCH (UID 3 BODY ((\"text\" \"plain\" NIL NIL NIL \"7bit\" 2 0) \"mixed\") BODY[1.MIME] {28}",
            b"Content-Type: text/plain",
            b"",
            b")",
            b"b OK UID FETCH done",
        ],
    ),
];

#[test]
fn items_are_told_in_the_order_asked(rt: HostRuntime) {
    for case in &ITEMS {
        assert!(rt; hears_after(rt.alloc(), &[], case) == Some(true));
    }
}

/// A message that is gone has no line, and the others keep their numbers. FETCH says NO then, and
/// UID FETCH passes over it.
static GONE: [Case; 6] = [
    (
        b"a3 FETCH 3 (UID)\r\n",
        &[b"* 3 FETCH (UID 3)", b"a3 OK FETCH done"],
    ),
    (
        b"a FETCH 1:3 UID\r\n",
        &[
            b"* 1 FETCH (UID 1)",
            b"* 3 FETCH (UID 3)",
            b"a NO some are gone",
        ],
    ),
    (b"a FETCH 2 BODY[]\r\n", &[b"a NO some are gone"]),
    (
        b"a UID FETCH 1:* (FLAGS)\r\n",
        &[
            b"* 1 FETCH (UID 1 FLAGS ())",
            b"* 3 FETCH (UID 3 FLAGS ())",
            b"a OK UID FETCH done",
        ],
    ),
    (b"a UID FETCH 2 (FLAGS)\r\n", &[b"a OK UID FETCH done"]),
    (
        b"a FETCH 3 (UID)\r\n",
        &[b"* 3 FETCH (UID 3)", b"a OK FETCH done"],
    ),
];

#[test]
fn gone_messages_have_no_line(rt: HostRuntime) {
    for case in &GONE {
        assert!(rt; hears_after(rt.alloc(), &[2], case) == Some(true));
    }
}
