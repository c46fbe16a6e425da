//! Replies worked out by hand from the table of commands. The archive has the name `list`, and no
//! messages at first.
use crate::connection::Connection;
use arch_model::Next;
use archive_fixtures::in_memory;
use fixtures::{LIMIT, MAX};
use std::alloc::Global;

/// A stream, the lines that it gets after the greeting, and whether the connection then continues.
type Case = (&'static [u8], &'static [&'static [u8]], Next);

/// The lines of LHLO.
const H1: &[u8] = b"250-piv2";

const H2: &[u8] = b"250-PIPELINING";

const H3: &[u8] = b"250 8BITMIME";

/// Lines that spell commands or none, before LHLO.
static LINES: [Case; 44] = [
    (b"LHLO c\r\n", &[H1, H2, H3], Next::Go),
    (b"lhlo c\n", &[H1, H2, H3], Next::Go),
    (b"LHLO\r\n", &[b"501 syntax"], Next::Go),
    (b"LHLO \r\n", &[b"501 syntax"], Next::Go),
    (b"LHLO a b\r\n", &[b"501 syntax"], Next::Go),
    (b"LHLO  a\r\n", &[b"501 syntax"], Next::Go),
    (b"LHLO a\tb\r\n", &[H1, H2, H3], Next::Go),
    (b"LHLO \xff\r\n", &[H1, H2, H3], Next::Go),
    (b"HELO c\r\n", &[b"500 unknown"], Next::Go),
    (b"EHLO c\r\n", &[b"500 unknown"], Next::Go),
    (b"\r\n", &[b"500 unknown"], Next::Go),
    (b" \r\n", &[b"500 unknown"], Next::Go),
    (b" NOOP\r\n", &[b"500 unknown"], Next::Go),
    (b"NOOP\t\r\n", &[b"500 unknown"], Next::Go),
    (b"NOOP\r\r\n", &[b"500 unknown"], Next::Go),
    (b"NOOP\r\n", &[b"250 ok"], Next::Go),
    (b"NOOP x\r\n", &[b"501 syntax"], Next::Go),
    (b"NOOP \r\n", &[b"501 syntax"], Next::Go),
    (b"RSET\r\n", &[b"250 ok"], Next::Go),
    (b"RSET x\r\n", &[b"501 syntax"], Next::Go),
    (b"VRFY ann\r\n", &[b"252 cannot verify"], Next::Go),
    (b"VRFY\r\n", &[b"501 syntax"], Next::Go),
    (b"VRFY ann bo\r\n", &[b"501 syntax"], Next::Go),
    (b"DATA\r\n", &[b"503 no recipients"], Next::Go),
    (b"DATA x\r\n", &[b"501 syntax"], Next::Go),
    (b"MAIL FROM:<a@b>\r\n", &[b"503 bad sequence"], Next::Go),
    (b"MAIL\r\n", &[b"501 syntax"], Next::Go),
    (b"MAIL FROM: <a@b>\r\n", &[b"501 syntax"], Next::Go),
    (b"MAIL  FROM:<a@b>\r\n", &[b"501 syntax"], Next::Go),
    (b"MAIL FROM:<a@b\r\n", &[b"501 syntax"], Next::Go),
    (b"MAIL FROM:<a@b>x\r\n", &[b"501 syntax"], Next::Go),
    (b"MAIL FROM:a@b\r\n", &[b"501 syntax"], Next::Go),
    (b"MAIL from:<>\r\n", &[b"503 bad sequence"], Next::Go),
    (b"MAIL FROM:<a> \r\n", &[b"503 bad sequence"], Next::Go),
    (
        b"MAIL FROM:<a> SIZE=3>\r\n",
        &[b"503 bad sequence"],
        Next::Go,
    ),
    (b"MAIL FROM:<<\0>\r\n", &[b"503 bad sequence"], Next::Go),
    (b"RCPT TO:<list>\r\n", &[b"503 bad sequence"], Next::Go),
    (b"RCPT TO:<x>\r\n", &[b"503 bad sequence"], Next::Go),
    (b"RCPT TO:list\r\n", &[b"501 syntax"], Next::Go),
    (b"RCPT FROM:<list>\r\n", &[b"501 syntax"], Next::Go),
    (b"QUIT\r\nNOOP\r\n", &[b"221 bye"], Next::Close),
    (b"quit\nNOOP\n", &[b"221 bye"], Next::Close),
    (b"QUIT x\r\n", &[b"501 syntax"], Next::Go),
    (b"NOOPx\r\n", &[b"500 unknown"], Next::Go),
];

/// Lines after LHLO and MAIL.
static MAILS: [Case; 30] = [
    (b"MAIL FROM:<a@b>\r\n", &[b"503 bad sequence"], Next::Go),
    (b"RCPT TO:<list@h>\r\n", &[b"250 ok"], Next::Go),
    (b"RCPT TO:<LIST@h>\r\n", &[b"250 ok"], Next::Go),
    (b"rcpt to:<lIsT>\r\n", &[b"250 ok"], Next::Go),
    (b"RCPT TO:<list@>\r\n", &[b"250 ok"], Next::Go),
    (b"RCPT TO:<list@a@b>\r\n", &[b"550 no such list"], Next::Go),
    (b"RCPT TO:<>\r\n", &[b"550 no such list"], Next::Go),
    (b"RCPT TO:<@h>\r\n", &[b"550 no such list"], Next::Go),
    (b"RCPT TO:<@a:list@h>\r\n", &[b"550 no such list"], Next::Go),
    (
        b"RCPT TO:<\"list\"@h>\r\n",
        &[b"550 no such list"],
        Next::Go,
    ),
    (b"RCPT TO:<lists@h>\r\n", &[b"550 no such list"], Next::Go),
    (b"RCPT TO:<lis@h>\r\n", &[b"550 no such list"], Next::Go),
    (b"RCPT TO:<list @h>\r\n", &[b"550 no such list"], Next::Go),
    (b"RCPT TO:<list@h> NOTIFY=NEVER\r\n", &[b"250 ok"], Next::Go),
    (b"RCPT TO: <list@h>\r\n", &[b"501 syntax"], Next::Go),
    (b"DATA\r\n", &[b"503 no recipients"], Next::Go),
    (
        b"RCPT TO:<x>\r\nDATA\r\n",
        &[b"550 no such list", b"503 no recipients"],
        Next::Go,
    ),
    (
        b"RSET\r\nRCPT TO:<list>\r\n",
        &[b"250 ok", b"503 bad sequence"],
        Next::Go,
    ),
    (
        b"RSET\r\nMAIL FROM:<>\r\n",
        &[b"250 ok", b"250 ok"],
        Next::Go,
    ),
    (
        b"LHLO d\r\nRCPT TO:<list>\r\n",
        &[H1, H2, H3, b"503 bad sequence"],
        Next::Go,
    ),
    (
        b"LHLO\r\nRCPT TO:<list>\r\n",
        &[b"501 syntax", b"250 ok"],
        Next::Go,
    ),
    (
        b"NOOP\r\nRCPT TO:<list>\r\n",
        &[b"250 ok", b"250 ok"],
        Next::Go,
    ),
    (
        b"VRFY x\r\nRCPT TO:<list>\r\n",
        &[b"252 cannot verify", b"250 ok"],
        Next::Go,
    ),
    (
        b"x\r\nRCPT TO:<list>\r\n",
        &[b"500 unknown", b"250 ok"],
        Next::Go,
    ),
    (
        b"RCPT TO:<list>\r\nMAIL FROM:<>\r\n",
        &[b"250 ok", b"503 bad sequence"],
        Next::Go,
    ),
    (
        b"RCPT TO:<list>\r\nRSET\r\nDATA\r\n",
        &[b"250 ok", b"250 ok", b"503 no recipients"],
        Next::Go,
    ),
    (
        b"RCPT TO:<list>\r\nLHLO c\r\nDATA\r\n",
        &[b"250 ok", H1, H2, H3, b"503 no recipients"],
        Next::Go,
    ),
    (
        b"RCPT TO:<list>\r\nDATA x\r\nDATA\r\n",
        &[b"250 ok", b"501 syntax", b"354 go ahead"],
        Next::Go,
    ),
    (
        b"RCPT TO:<list>\r\nDATA\r\nQUIT\r\n",
        &[b"250 ok", b"354 go ahead"],
        Next::Go,
    ),
    (b"QUIT\r\n", &[b"221 bye"], Next::Close),
];

/// Returns whether a case is answered, after some lines whose replies are no part of it.
fn is_answered(alloc: Global, before: &[u8], case: &Case) -> Option<bool> {
    let mut connection = Connection::to_empty(alloc)?;
    connection.hear(before);
    let said = connection.said().len();
    connection.hear(case.0);
    Some(connection.has_said_after(said, case.1, case.2))
}

#[test]
fn lines_are_answered(rt: HostRuntime) {
    for case in &LINES {
        assert!(rt;
            is_answered(rt.alloc(), b"", case) == Some(true),
            "{:?}",
            case.0
        );
    }
}

#[test]
fn lines_in_a_transaction_are_answered(rt: HostRuntime) {
    for case in &MAILS {
        let before = b"LHLO c\r\nMAIL FROM:<x@y>\r\n";
        assert!(rt;
            is_answered(rt.alloc(), before, case) == Some(true),
            "{:?}",
            case.0
        );
    }
}

/// A transaction for one recipient up to its data.
const TO_ONE: &[u8] = b"LHLO c\r\nMAIL FROM:<x@y>\r\nRCPT TO:<list@h>\r\nDATA\r\n";

/// A transaction for two recipients up to its data.
const TO_TWO: &[u8] =
    b"LHLO c\r\nMAIL FROM:<x@y>\r\nRCPT TO:<list@h>\r\nRCPT TO:<LIST>\r\nDATA\r\n";

/// Data for one recipient, or for two, and its replies.
static DATA: [Case; 24] = [
    (b".\r\n", &[b"554 no fields"], Next::Go),
    (b"x\r\n.\r\n", &[b"554 no fields"], Next::Go),
    (b"Subject: a\r\n.\r\n", &[b"250 ok 1"], Next::Go),
    (b"Subject: a\r\n\r\nx\r\n.\r\n", &[b"250 ok 1"], Next::Go),
    (
        b"Subject: a\r\n.\r\nQUIT\r\n",
        &[b"250 ok 1", b"221 bye"],
        Next::Close,
    ),
    (
        b"Subject: a\r\n.\r\nDATA\r\n",
        &[b"250 ok 1", b"503 no recipients"],
        Next::Go,
    ),
    (
        b"Subject: a\r\n.\r\nRCPT TO:<list>\r\n",
        &[b"250 ok 1", b"503 bad sequence"],
        Next::Go,
    ),
    (
        b"Subject: a\r\n.\r\nMAIL FROM:<>\r\n",
        &[b"250 ok 1", b"250 ok"],
        Next::Go,
    ),
    (b"Subject: a\r\n.\n", &[], Next::Go),
    (b"Subject: a\n.\n", &[], Next::Go),
    (b"Subject: a\n.\r\n", &[], Next::Go),
    (b"Subject: a\r\n.\r\r\n", &[], Next::Go),
    (b"Subject: a\r.\r\n", &[], Next::Go),
    (b"Subject: a\r\n..\r\n", &[], Next::Go),
    (b"Subject: a\r\n. \r\n", &[], Next::Go),
    (b"Subject: a\r\n .\r\n", &[], Next::Go),
    (b"Subject: a\r\n.", &[], Next::Go),
    (b"Subject: a\r\n.\r", &[], Next::Go),
    (b"NOOP\r\nQUIT\r\n", &[], Next::Go),
    (b"", &[], Next::Go),
    (b"Subject: a\r\n..\r\n.\r\n", &[b"250 ok 1"], Next::Go),
    (
        b"Subject: a\r\n.\r\nx\r\n",
        &[b"250 ok 1", b"500 unknown"],
        Next::Go,
    ),
    (b".Subject: a\r\n.\r\n", &[b"250 ok 1"], Next::Go),
    (b"From x\r\nSubject: a\r\n.\r\n", &[b"250 ok 1"], Next::Go),
];

#[test]
fn data_is_answered(rt: HostRuntime) {
    for case in &DATA {
        assert!(rt;
            is_answered(rt.alloc(), TO_ONE, case) == Some(true),
            "{:?}",
            case.0
        );
    }
}

/// Data for two recipients, and its replies.
static PAIRS: [Case; 6] = [
    (b".\r\n", &[b"554 no fields", b"554 no fields"], Next::Go),
    (
        b"Subject: a\r\n.\r\n",
        &[b"250 ok 1", b"250 duplicate 1"],
        Next::Go,
    ),
    (
        b"Message-ID: <a@x>\r\n.\r\n",
        &[b"250 ok 1", b"250 duplicate 1"],
        Next::Go,
    ),
    (
        b"Message-ID: <a@x>\r\n.\r\nQUIT\r\n",
        &[b"250 ok 1", b"250 duplicate 1", b"221 bye"],
        Next::Close,
    ),
    (
        b"Message-ID: <a@x>\r\n.\r\nDATA\r\n",
        &[b"250 ok 1", b"250 duplicate 1", b"503 no recipients"],
        Next::Go,
    ),
    (b"Message-ID: <a@x>\r\n", &[], Next::Go),
];

#[test]
fn each_recipient_has_a_reply(rt: HostRuntime) {
    for case in &PAIRS {
        assert!(rt;
            is_answered(rt.alloc(), TO_TWO, case) == Some(true),
            "{:?}",
            case.0
        );
    }
}

/// Returns whether data is kept as this text.
fn is_kept(alloc: Global, data: &[u8], text: &[u8]) -> Option<bool> {
    let mut connection = Connection::to_empty(alloc)?;
    connection.hear(TO_ONE);
    connection.hear(data);
    Some(connection.text(1)? == text)
}

/// Data, and the text that is kept of it.
static TEXTS: [(&[u8], &[u8]); 8] = [
    (
        b"Message-ID: <a@x>\r\n\r\none\r\n.\r\n",
        b"Message-ID: <a@x>\n\none\n",
    ),
    (
        b"Message-ID: <a@x>\r\n\r\n..one\r\n.\r\n",
        b"Message-ID: <a@x>\n\n.one\n",
    ),
    (
        b"Message-ID: <a@x>\r\n\r\n...\r\n.\r\n",
        b"Message-ID: <a@x>\n\n..\n",
    ),
    (
        b"Message-ID: <a@x>\r\n\r\n.x\r\n.\r\n",
        b"Message-ID: <a@x>\n\nx\n",
    ),
    (b".Message-ID: <a@x>\r\n\r\n.\r\n", b"Message-ID: <a@x>\n\n"),
    (
        b"Message-ID: <a@x>\r\n\r\na\n.\nb\r\n.\r\n",
        b"Message-ID: <a@x>\n\na\n.\nb\n",
    ),
    (
        b"Message-ID: <a@x>\r\n\r\na\n..b\r\n.\r\n",
        b"Message-ID: <a@x>\n\na\n..b\n",
    ),
    (
        b"Message-ID: <a@x>\r\n\r\n\xe4\0\r\n.\r\n",
        b"Message-ID: <a@x>\n\n\xe4\0\n",
    ),
];

#[test]
fn dots_are_dropped_at_the_starts_of_lines(rt: HostRuntime) {
    for (data, text) in TEXTS {
        assert!(rt; is_kept(rt.alloc(), data, text) == Some(true), "{:?}", data);
    }
}

/// Returns whether an archive of three numbers is full for the fourth message.
fn is_full(alloc: Global) -> Option<bool> {
    let mut connection = Connection::to(alloc, in_memory(alloc, LIMIT, 3, false)?);
    for data in [
        b"Subject: a\r\n.\r\n",
        b"Subject: b\r\n.\r\n",
        b"Subject: c\r\n.\r\n",
    ] {
        connection.hear(TO_ONE);
        connection.hear(data);
    }
    connection.hear(TO_TWO);
    let said = connection.said().len();
    connection.hear(b"Subject: d\r\n.\r\n");
    Some(connection.has_said_after(said, &[b"452 full 3", b"452 full 3"], Next::Go))
}

#[test]
fn an_archive_may_be_full(rt: HostRuntime) {
    assert!(rt; is_full(rt.alloc()) == Some(true));
}

/// Returns whether a mirror takes no mail.
fn is_refused_by_a_mirror(alloc: Global) -> Option<bool> {
    let mut connection = Connection::to(alloc, in_memory(alloc, LIMIT, MAX, true)?);
    connection.hear(TO_TWO);
    let said = connection.said().len();
    connection.hear(b"Subject: a\r\n.\r\n");
    Some(connection.has_said_after(said, &[b"554 is mirror", b"554 is mirror"], Next::Go))
}

#[test]
fn a_mirror_takes_no_mail(rt: HostRuntime) {
    assert!(rt; is_refused_by_a_mirror(rt.alloc()) == Some(true));
}
