//! An archive without messages, and one that changes while a client holds its maildrop.
use crate::connection::Connection;
use arch_model::Next;
use std::alloc::Global;

/// The header of the third message, with its empty line, as TOP shows it.
const TOP: [&[u8]; 9] = [
    b"+OK",
    b"Subject: [PATCH 1/2] fix",
    b"\tthe build",
    b"From: Bo <bo@x>",
    b"Message-ID: <c@x>",
    b"References: <a@x>",
    b" <b@x>",
    b"..Odd: dot",
    b"",
];

/// Returns whether commands to an archive without messages get these lines, after the greeting.
fn empty_answers(alloc: Global, stream: &[u8], lines: &[&[u8]]) -> Option<bool> {
    let mut connection = Connection::to_empty(alloc)?;
    connection.hear(stream);
    Some(connection.has_said(0, lines, Next::Go))
}

#[test]
fn an_archive_without_messages_has_one_mailbox(rt: HostRuntime) {
    assert!(rt;
        empty_answers(
            rt.alloc(),
            b"USER list.1\nUSER list.0\nPASS x\nSTAT\nLIST\nUIDL\nLIST 1\nRETR 1\nTOP 1 1\nDELE 1\n",
            &[
                b"+OK piv2 ready",
                b"-ERR no such maildrop",
                b"+OK",
                b"+OK 0 messages",
                b"+OK 0 0",
                b"+OK",
                b".",
                b"+OK",
                b".",
                b"-ERR no such message",
                b"-ERR no such message",
                b"-ERR no such message",
                b"-ERR no such message",
            ],
        ) == Some(true)
    );
}

/// Returns whether a message that is removed after PASS is gone, while lists still have it.
fn is_gone(alloc: Global) -> Option<bool> {
    let mut connection = Connection::to_three(alloc)?;
    connection.hear(b"USER list.1\nPASS x\n");
    let removed = connection.remove(3);
    let before = connection.said();
    connection.hear(
        b"RETR 1\nTOP 1 0\nTOP 1 x\nDELE 1\nSTAT\nLIST\nUIDL\nLIST 1\nUIDL 1\nRETR 2\n",
    );
    let said = connection.has_said(
        before,
        &[
            b"-ERR gone",
            b"-ERR gone",
            b"-ERR syntax",
            b"-ERR read only",
            b"+OK 2 172",
            b"+OK",
            b"1 124",
            b"2 48",
            b".",
            b"+OK",
            b"1 1706780000.3",
            b"2 1706780000.4",
            b".",
            b"+OK 1 124",
            b"+OK 1 1706780000.3",
            b"+OK 48 octets",
            b"Subject: four",
            b"Message-ID: <d@x>",
            b"",
            b"a",
            b"",
            b"b",
            b"..c",
            b".",
        ],
        Next::Go,
    );
    Some(removed && said)
}

#[test]
fn a_removed_message_is_gone_and_keeps_its_place(rt: HostRuntime) {
    assert!(rt; is_gone(rt.alloc()) == Some(true));
}

/// Returns whether a maildrop stays as it was while a message comes, which the next one of its
/// mailbox has.
fn stays(alloc: Global) -> Option<bool> {
    let mut connection = Connection::to_three(alloc)?;
    connection.hear(b"USER list.2\nUSER list.1\nPASS x\n");
    let before = connection.said();
    let delivered = connection.deliver();
    connection.hear(b"STAT\nLIST 3\nTOP 1 0\n");
    let said = connection.has_said(
        before,
        &[
            b"+OK 2 172",
            b"-ERR no such message",
            TOP[0],
            TOP[1],
            TOP[2],
            TOP[3],
            TOP[4],
            TOP[5],
            TOP[6],
            TOP[7],
            TOP[8],
            b".",
        ],
        Next::Go,
    );
    Some(delivered && said)
}

#[test]
fn a_maildrop_stays_while_messages_come(rt: HostRuntime) {
    assert!(rt; stays(rt.alloc()) == Some(true));
}

/// Returns whether a mailbox that comes with a message is there afterwards.
fn comes(alloc: Global) -> Option<bool> {
    let mut connection = Connection::to_three(alloc)?;
    connection.hear(b"USER list.2\n");
    let delivered = connection.deliver();
    connection.hear(b"USER list.2\nPASS x\nUIDL\n");
    let said = connection.has_said(
        0,
        &[
            b"+OK piv2 ready",
            b"-ERR no such maildrop",
            b"+OK",
            b"+OK 1 messages",
            b"+OK",
            b"1 1706780000.5",
            b".",
        ],
        Next::Go,
    );
    Some(delivered && said)
}

#[test]
fn a_mailbox_comes_with_its_first_message(rt: HostRuntime) {
    assert!(rt; comes(rt.alloc()) == Some(true));
}
