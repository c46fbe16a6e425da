//! Replies worked out by hand from the table of commands. The archive has four messages, of which the
//! second is gone, and two mailboxes of two numbers each.
use crate::connection::Connection;
use arch_model::Next;
use std::alloc::Global;

/// Commands that come before, a command, and the lines of its reply.
type Case = (&'static [u8], &'static [u8], &'static [&'static [u8]]);

/// Enters the second mailbox, which has the messages 3 and 4.
const ENTER: &[u8] = b"USER list.1\nPASS x\n";

/// Commands before the login, and lines that spell none.
static LOGIN: [Case; 49] = [
    (b"", b"USER list.0\n", &[b"+OK"]),
    (b"", b"uSeR list.1\n", &[b"+OK"]),
    (b"", b"USER list.2\n", &[b"-ERR no such maildrop"]),
    (b"", b"USER LIST.0\n", &[b"-ERR no such maildrop"]),
    (b"", b"USER list\n", &[b"-ERR no such maildrop"]),
    (b"", b"USER list.\n", &[b"-ERR no such maildrop"]),
    (b"", b"USER list.00\n", &[b"-ERR no such maildrop"]),
    (b"", b"USER list.01\n", &[b"-ERR no such maildrop"]),
    (b"", b"USER list.x\n", &[b"-ERR no such maildrop"]),
    (b"", b"USER list0\n", &[b"-ERR no such maildrop"]),
    (b"", b"USER list.0 x\n", &[b"-ERR no such maildrop"]),
    (b"", b"USER list.0 \n", &[b"-ERR no such maildrop"]),
    (b"", b"USER  list.0\n", &[b"-ERR no such maildrop"]),
    (b"", b"USER \n", &[b"-ERR no such maildrop"]),
    (b"", b"USER\n", &[b"-ERR syntax"]),
    (b"", b"USER\tlist.0\n", &[b"-ERR syntax"]),
    (
        b"",
        b"USER list.18446744073709551616\n",
        &[b"-ERR no such maildrop"],
    ),
    (
        b"",
        b"USER list.18446744073709551615\n",
        &[b"-ERR no such maildrop"],
    ),
    (b"", b"USER list.0\0\n", &[b"-ERR no such maildrop"]),
    (b"", b"PASS x\n", &[b"-ERR user first"]),
    (b"", b"PASS \n", &[b"-ERR user first"]),
    (b"", b"PASS\n", &[b"-ERR syntax"]),
    (b"USER list.1\n", b"PASS x\n", &[b"+OK 2 messages"]),
    (b"USER list.1\n", b"PASS \n", &[b"+OK 2 messages"]),
    (b"USER list.1\n", b"pass a  b c\n", &[b"+OK 2 messages"]),
    (b"USER list.0\n", b"PASS x\n", &[b"+OK 1 messages"]),
    (
        b"USER list.0\nUSER list.1\n",
        b"PASS x\n",
        &[b"+OK 2 messages"],
    ),
    (
        b"USER list.1\nUSER list.2\n",
        b"PASS x\n",
        &[b"-ERR user first"],
    ),
    (b"USER list.1\nUSER \n", b"PASS x\n", &[b"-ERR user first"]),
    (b"USER list.1\nSTAT\n", b"PASS x\n", &[b"+OK 2 messages"]),
    (b"USER list.1\nUSER\n", b"PASS x\n", &[b"+OK 2 messages"]),
    (b"USER list.1\nPASS\n", b"PASS x\n", &[b"+OK 2 messages"]),
    (b"USER list.1\nRETR 1\n", b"PASS x\n", &[b"+OK 2 messages"]),
    (b"", b"STAT\n", &[b"-ERR syntax"]),
    (b"", b"LIST\n", &[b"-ERR syntax"]),
    (b"", b"LIST 1\n", &[b"-ERR syntax"]),
    (b"", b"UIDL\n", &[b"-ERR syntax"]),
    (b"", b"RETR 1\n", &[b"-ERR syntax"]),
    (b"", b"TOP 1 0\n", &[b"-ERR syntax"]),
    (b"", b"DELE 1\n", &[b"-ERR syntax"]),
    (b"", b"NOOP\n", &[b"-ERR syntax"]),
    (b"", b"RSET\n", &[b"-ERR syntax"]),
    (b"", b"QUIT x\n", &[b"-ERR syntax"]),
    (b"", b"CAPA\n", &[b"-ERR syntax"]),
    (b"", b"APOP x y\n", &[b"-ERR syntax"]),
    (b"", b"STLS\n", &[b"-ERR syntax"]),
    (b"", b"AUTH\n", &[b"-ERR syntax"]),
    (b"", b"\n", &[b"-ERR syntax"]),
    (b"", b" USER list.0\n", &[b"-ERR syntax"]),
];

/// Commands on the maildrop that read no text.
static LISTS: [Case; 39] = [
    (ENTER, b"STAT\n", &[b"+OK 2 172"]),
    (ENTER, b"stat\n", &[b"+OK 2 172"]),
    (ENTER, b"STAT \n", &[b"-ERR syntax"]),
    (ENTER, b"STAT 1\n", &[b"-ERR syntax"]),
    (ENTER, b"STAT\r\r\n", &[b"-ERR syntax"]),
    (ENTER, b"LIST\n", &[b"+OK", b"1 124", b"2 48", b"."]),
    (ENTER, b"list\n", &[b"+OK", b"1 124", b"2 48", b"."]),
    (ENTER, b"LIST 1\n", &[b"+OK 1 124"]),
    (ENTER, b"LIST 2\n", &[b"+OK 2 48"]),
    (ENTER, b"LIST 3\n", &[b"-ERR no such message"]),
    (ENTER, b"LIST 0\n", &[b"-ERR no such message"]),
    (ENTER, b"LIST 01\n", &[b"-ERR syntax"]),
    (ENTER, b"LIST  1\n", &[b"-ERR syntax"]),
    (ENTER, b"LIST 1 \n", &[b"-ERR syntax"]),
    (ENTER, b"LIST \n", &[b"-ERR syntax"]),
    (ENTER, b"LIST\t1\n", &[b"-ERR syntax"]),
    (
        ENTER,
        b"LIST 18446744073709551615\n",
        &[b"-ERR no such message"],
    ),
    (ENTER, b"LIST 18446744073709551616\n", &[b"-ERR syntax"]),
    (ENTER, b"LIST -1\n", &[b"-ERR syntax"]),
    (ENTER, b"LIST 1 2\n", &[b"-ERR syntax"]),
    (
        ENTER,
        b"UIDL\n",
        &[b"+OK", b"1 1706780000.3", b"2 1706780000.4", b"."],
    ),
    (ENTER, b"UIDL 2\n", &[b"+OK 2 1706780000.4"]),
    (ENTER, b"uidl 1\n", &[b"+OK 1 1706780000.3"]),
    (ENTER, b"UIDL 3\n", &[b"-ERR no such message"]),
    (ENTER, b"UIDL x\n", &[b"-ERR syntax"]),
    (ENTER, b"DELE 1\n", &[b"-ERR read only"]),
    (ENTER, b"DELE 2\n", &[b"-ERR read only"]),
    (ENTER, b"DELE 3\n", &[b"-ERR no such message"]),
    (ENTER, b"DELE\n", &[b"-ERR syntax"]),
    (ENTER, b"DELE x\n", &[b"-ERR syntax"]),
    (ENTER, b"NOOP\n", &[b"+OK"]),
    (ENTER, b"noop\n", &[b"+OK"]),
    (ENTER, b"NOOP \n", &[b"-ERR syntax"]),
    (ENTER, b"RSET\n", &[b"+OK"]),
    (ENTER, b"RSET 1\n", &[b"-ERR syntax"]),
    (ENTER, b"USER list.0\n", &[b"-ERR syntax"]),
    (ENTER, b"PASS x\n", &[b"-ERR syntax"]),
    (ENTER, b"CAPA\n", &[b"-ERR syntax"]),
    (ENTER, b"LAST\n", &[b"-ERR syntax"]),
];

/// Commands that read a text.
static TEXTS: [Case; 28] = [
    (
        ENTER,
        b"RETR 1\n",
        &[
            b"+OK 124 octets",
            b"Subject: [PATCH 1/2] fix",
            b"\tthe build",
            b"From: Bo <bo@x>",
            b"Message-ID: <c@x>",
            b"References: <a@x>",
            b" <b@x>",
            b"..Odd: dot",
            b"",
            b"...",
            b"last",
            b".",
        ],
    ),
    (
        ENTER,
        b"retr 2\n",
        &[
            b"+OK 48 octets",
            b"Subject: four",
            b"Message-ID: <d@x>",
            b"",
            b"a",
            b"",
            b"b",
            b"..c",
            b".",
        ],
    ),
    (ENTER, b"RETR 3\n", &[b"-ERR no such message"]),
    (ENTER, b"RETR 0\n", &[b"-ERR no such message"]),
    (ENTER, b"RETR\n", &[b"-ERR syntax"]),
    (ENTER, b"RETR \n", &[b"-ERR syntax"]),
    (ENTER, b"RETR 1 1\n", &[b"-ERR syntax"]),
    (ENTER, b"RETR 1 \n", &[b"-ERR syntax"]),
    (ENTER, b"RETR\t1\n", &[b"-ERR syntax"]),
    (
        ENTER,
        b"TOP 1 0\n",
        &[
            b"+OK",
            b"Subject: [PATCH 1/2] fix",
            b"\tthe build",
            b"From: Bo <bo@x>",
            b"Message-ID: <c@x>",
            b"References: <a@x>",
            b" <b@x>",
            b"..Odd: dot",
            b"",
            b".",
        ],
    ),
    (
        ENTER,
        b"TOP 1 1\n",
        &[
            b"+OK",
            b"Subject: [PATCH 1/2] fix",
            b"\tthe build",
            b"From: Bo <bo@x>",
            b"Message-ID: <c@x>",
            b"References: <a@x>",
            b" <b@x>",
            b"..Odd: dot",
            b"",
            b"...",
            b".",
        ],
    ),
    (
        ENTER,
        b"TOP 1 2\n",
        &[
            b"+OK",
            b"Subject: [PATCH 1/2] fix",
            b"\tthe build",
            b"From: Bo <bo@x>",
            b"Message-ID: <c@x>",
            b"References: <a@x>",
            b" <b@x>",
            b"..Odd: dot",
            b"",
            b"...",
            b"last",
            b".",
        ],
    ),
    (
        ENTER,
        b"TOP 1 18446744073709551615\n",
        &[
            b"+OK",
            b"Subject: [PATCH 1/2] fix",
            b"\tthe build",
            b"From: Bo <bo@x>",
            b"Message-ID: <c@x>",
            b"References: <a@x>",
            b" <b@x>",
            b"..Odd: dot",
            b"",
            b"...",
            b"last",
            b".",
        ],
    ),
    (
        ENTER,
        b"top 2 2\n",
        &[
            b"+OK",
            b"Subject: four",
            b"Message-ID: <d@x>",
            b"",
            b"a",
            b"",
            b".",
        ],
    ),
    (
        ENTER,
        b"TOP 2 3\n",
        &[
            b"+OK",
            b"Subject: four",
            b"Message-ID: <d@x>",
            b"",
            b"a",
            b"",
            b"b",
            b".",
        ],
    ),
    (
        ENTER,
        b"TOP 2 4\n",
        &[
            b"+OK",
            b"Subject: four",
            b"Message-ID: <d@x>",
            b"",
            b"a",
            b"",
            b"b",
            b"..c",
            b".",
        ],
    ),
    (ENTER, b"TOP 3 1\n", &[b"-ERR no such message"]),
    (ENTER, b"TOP 0 1\n", &[b"-ERR no such message"]),
    (ENTER, b"TOP 3 x\n", &[b"-ERR syntax"]),
    (ENTER, b"TOP 1\n", &[b"-ERR syntax"]),
    (ENTER, b"TOP\n", &[b"-ERR syntax"]),
    (ENTER, b"TOP 1 \n", &[b"-ERR syntax"]),
    (ENTER, b"TOP 1 x\n", &[b"-ERR syntax"]),
    (ENTER, b"TOP 1 01\n", &[b"-ERR syntax"]),
    (ENTER, b"TOP 01 1\n", &[b"-ERR syntax"]),
    (ENTER, b"TOP 1  1\n", &[b"-ERR syntax"]),
    (ENTER, b"TOP 1 1 1\n", &[b"-ERR syntax"]),
    (ENTER, b"TOP 1 18446744073709551616\n", &[b"-ERR syntax"]),
];

/// Returns whether a command gets its reply.
fn is_answered(alloc: Global, case: &Case) -> Option<bool> {
    let mut connection = Connection::to_three(alloc)?;
    connection.hear(case.0);
    let before = connection.said();
    connection.hear(case.1);
    Some(connection.has_said(before, case.2, Next::Go))
}

#[test]
fn commands_before_the_login_are_answered(rt: HostRuntime) {
    for case in &LOGIN {
        assert!(rt;
            is_answered(rt.alloc(), case) == Some(true),
            "{:?} {:?}",
            case.0,
            case.1
        );
    }
}

#[test]
fn commands_on_the_maildrop_are_answered(rt: HostRuntime) {
    for case in &LISTS {
        assert!(rt; is_answered(rt.alloc(), case) == Some(true), "{:?}", case.1);
    }
}

#[test]
fn texts_are_shown(rt: HostRuntime) {
    for case in &TEXTS {
        assert!(rt; is_answered(rt.alloc(), case) == Some(true), "{:?}", case.1);
    }
}
