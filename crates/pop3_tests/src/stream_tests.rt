//! Streams worked out by hand, each fed whole, byte by byte, and cut in two at every offset.
use crate::connection::Connection;
use arch_base::Bytes;
use arch_model::Next;
use pop3_reader::door_laws;
use std::alloc::Global;

/// A stream, the lines that it gets after the greeting, and whether the connection then continues.
type Stream = (&'static [u8], &'static [&'static [u8]], Next);

/// Streams of short lines.
static STREAMS: [Stream; 12] = [
    (b"", &[], Next::Go),
    (b"NOOP", &[], Next::Go),
    (
        b"\n\r\n\r\r\n",
        &[b"-ERR syntax", b"-ERR syntax", b"-ERR syntax"],
        Next::Go,
    ),
    (b"QUIT\r\n", &[b"+OK bye"], Next::Close),
    (b"QUIT\nUSER list.0\n", &[b"+OK bye"], Next::Close),
    (
        b"QUIT x\r\nquit\r\nSTAT\r\n",
        &[b"-ERR syntax", b"+OK bye"],
        Next::Close,
    ),
    (
        b"USER list.1\r\nPASS a b\r\nSTAT\r\nQUIT\r\n",
        &[b"+OK", b"+OK 2 messages", b"+OK 2 172", b"+OK bye"],
        Next::Close,
    ),
    (
        b"USER list.9\nPASS x\nUSER list.0\nPASS x\nLIST\nUIDL 1\n",
        &[
            b"-ERR no such maildrop",
            b"-ERR user first",
            b"+OK",
            b"+OK 1 messages",
            b"+OK",
            b"1 105",
            b".",
            b"+OK 1 1706780000.1",
        ],
        Next::Go,
    ),
    (
        b"USER list.0\r\nPASS x\r\nTOP 1 1\r\nRETR 1",
        &[
            b"+OK",
            b"+OK 1 messages",
            b"+OK",
            b"Subject: first",
            b"From: Ann <ann@x>",
            b"Date: Thu, 1 Feb 2024 09:50:00 +0000",
            b"Message-ID: <a@x>",
            b"",
            b"one",
            b".",
        ],
        Next::Go,
    ),
    (
        b"USER list.0\nPASS x\nRETR 1\nRETR 2\nDELE 1\n",
        &[
            b"+OK",
            b"+OK 1 messages",
            b"+OK 105 octets",
            b"Subject: first",
            b"From: Ann <ann@x>",
            b"Date: Thu, 1 Feb 2024 09:50:00 +0000",
            b"Message-ID: <a@x>",
            b"",
            b"one",
            b"..two",
            b".",
            b"-ERR no such message",
            b"-ERR read only",
        ],
        Next::Go,
    ),
    (
        b"USER list.1\nPASS x\nRETR 2\nQUIT\n",
        &[
            b"+OK",
            b"+OK 2 messages",
            b"+OK 48 octets",
            b"Subject: four",
            b"Message-ID: <d@x>",
            b"",
            b"a",
            b"",
            b"b",
            b"..c",
            b".",
            b"+OK bye",
        ],
        Next::Close,
    ),
    (
        b"USER list.1\nPASS x\nNOOP\r\nRSET\nUSER list.0\n",
        &[b"+OK", b"+OK 2 messages", b"+OK", b"+OK", b"-ERR syntax"],
        Next::Go,
    ),
];

/// The line of the greeting, with its end, in bytes.
const GREETING: usize = 16;

/// Returns whether the stream is answered when it is cut in two at an offset.
fn is_answered_cut(alloc: Global, stream: &Stream, at: usize) -> Option<bool> {
    let mut connection = Connection::to_three(alloc)?;
    let (front, back) = stream.0.split_at(at.min(stream.0.len()));
    connection.hear(front);
    connection.hear(back);
    Some(connection.has_said(GREETING, stream.1, stream.2))
}

/// Returns whether the stream is answered when it comes byte by byte.
fn is_answered_by_byte(alloc: Global, stream: &Stream) -> Option<bool> {
    let mut connection = Connection::to_three(alloc)?;
    for byte in stream.0 {
        connection.hear(&[*byte]);
    }
    Some(connection.has_said(GREETING, stream.1, stream.2))
}

/// Returns whether the stream is answered when it is cut in two at each offset.
fn is_answered_in_every_way(alloc: Global, stream: &Stream) -> bool {
    for at in 0..stream.0.len() + 1 {
        if is_answered_cut(alloc, stream, at) != Some(true) {
            return false;
        }
    }
    is_answered_by_byte(alloc, stream) == Some(true)
}

#[test]
fn streams_are_answered_however_they_are_cut(rt: HostRuntime) {
    for stream in &STREAMS {
        assert!(rt; is_answered_in_every_way(rt.alloc(), stream));
    }
}

/// Returns `PASS` with a password that makes its line `len` octets long with this end, and STAT
/// after it.
fn long_pass(alloc: Global, len: usize, end: &[u8]) -> Option<Bytes> {
    let mut stream = Bytes::new(alloc);
    stream.push_slice(b"PASS ").ok()?;
    for _ in 0..len.saturating_sub(5).saturating_sub(end.len()) {
        stream.push(b'a').ok()?;
    }
    stream.push_slice(end).ok()?;
    stream.push_slice(b"STAT\n").ok()?;
    Some(stream)
}

/// Returns whether a line of `len` octets with its end, cut in two at an offset, gets this line, and
/// STAT after it the next.
fn long_pass_is_answered(
    alloc: Global,
    len: usize,
    end: &[u8],
    at: usize,
    wanted: [&[u8]; 2],
) -> Option<bool> {
    let stream = long_pass(alloc, len, end)?;
    let mut connection = Connection::to_three(alloc)?;
    connection.hear(b"USER list.1\n");
    let before = connection.said();
    let bytes = stream.as_slice();
    let (front, back) = bytes.split_at(at.min(bytes.len()));
    connection.hear(front);
    connection.hear(back);
    Some(connection.has_said(before, &wanted, Next::Go))
}

/// What a password gets whose line is short enough.
const READ: [&[u8]; 2] = [b"+OK 2 messages", b"+OK 2 172"];

/// What one gets whose line is too long. It is no command.
const TOO_LONG: [&[u8]; 2] = [b"-ERR line too long", b"-ERR syntax"];

/// Returns whether lines up to the limit are read, and longer ones are skipped, cut at an offset.
fn long_lines_are_answered(alloc: Global, at: usize) -> bool {
    let longest = long_pass_is_answered(alloc, 255, b"\n", at, READ);
    let with_return = long_pass_is_answered(alloc, 255, b"\r\n", at, READ);
    let longer = long_pass_is_answered(alloc, 256, b"\r\n", at, TOO_LONG);
    let longest_of_all = long_pass_is_answered(alloc, 900, b"\n", at, TOO_LONG);
    longest == Some(true)
        && with_return == Some(true)
        && longer == Some(true)
        && longest_of_all == Some(true)
}

#[test]
fn lines_have_at_most_255_octets(rt: HostRuntime) {
    for at in [0, 1, 100, 253, 254, 255, 256, 257, 260, 899, 900, 901] {
        assert!(rt; long_lines_are_answered(rt.alloc(), at), "cut at {at}");
    }
}

#[test]
fn replies_are_the_same_however_bytes_are_cut(rt: HostRuntime) {
    door_laws();
    assert!(rt; true);
}
