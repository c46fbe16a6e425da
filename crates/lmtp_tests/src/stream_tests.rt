//! Streams worked out by hand, each fed whole, byte by byte, and cut in two at every offset.
use crate::connection::Connection;
use arch_base::Bytes;
use arch_model::Next;
use lmtp_door::door_laws;
use std::alloc::Global;

/// A stream, the lines that it gets after the greeting, and whether the connection then continues.
type Stream = (&'static [u8], &'static [&'static [u8]], Next);

/// Streams of short lines.
static STREAMS: [Stream; 8] = [
    (b"", &[], Next::Go),
    (b"NOOP", &[], Next::Go),
    (
        b"\n\r\n\r\r\n",
        &[b"500 unknown", b"500 unknown", b"500 unknown"],
        Next::Go,
    ),
    (b"QUIT\r\nNOOP\r\n", &[b"221 bye"], Next::Close),
    (
        b"LHLO c\r\nMAIL FROM:<x@y>\r\nRCPT TO:<list@h>\r\nRCPT TO:<other@h>\r\nDATA\r\nMessage-ID: <a@x>\r\n\r\n..one\r\n.\r\nQUIT\r\n",
        &[
            b"250-piv2",
            b"250-PIPELINING",
            b"250 8BITMIME",
            b"250 ok",
            b"250 ok",
            b"550 no such list",
            b"354 go ahead",
            b"250 ok 1",
            b"221 bye",
        ],
        Next::Close,
    ),
    (
        b"LHLO c\nMAIL FROM:<>\nRCPT TO:<LIST@h>\nRCPT TO:<list>\nDATA\nMessage-ID: <a@x>\r\n.\r\nMAIL FROM:<>\nRCPT TO:<list>\nDATA\nMessage-ID: <b@x>\r\n\r\n.\r.\n.\r\n.\r\nRSET\n",
        &[
            b"250-piv2",
            b"250-PIPELINING",
            b"250 8BITMIME",
            b"250 ok",
            b"250 ok",
            b"250 ok",
            b"354 go ahead",
            b"250 ok 1",
            b"250 duplicate 1",
            b"250 ok",
            b"250 ok",
            b"354 go ahead",
            b"250 ok 2",
            b"250 ok",
        ],
        Next::Go,
    ),
    (
        b"LHLO c\nMAIL FROM:<>\nRCPT TO:<list>\nDATA\n.\r\nDATA\n.\r\n",
        &[
            b"250-piv2",
            b"250-PIPELINING",
            b"250 8BITMIME",
            b"250 ok",
            b"250 ok",
            b"354 go ahead",
            b"554 no fields",
            b"503 no recipients",
            b"500 unknown",
        ],
        Next::Go,
    ),
    (
        b"LHLO c\nMAIL FROM:<>\nRCPT TO:<list>\nDATA\nSubject: a\r\n.\n.\r\r\n\r.\r\n.\r",
        &[
            b"250-piv2",
            b"250-PIPELINING",
            b"250 8BITMIME",
            b"250 ok",
            b"250 ok",
            b"354 go ahead",
        ],
        Next::Go,
    ),
];

/// Returns whether the stream is answered when it is cut in two at an offset.
fn is_answered_cut(alloc: Global, stream: &Stream, at: usize) -> Option<bool> {
    let mut connection = Connection::to_empty(alloc)?;
    let (front, back) = stream.0.split_at(at.min(stream.0.len()));
    connection.hear(front);
    connection.hear(back);
    Some(connection.has_said(stream.1, stream.2))
}

/// Returns whether the stream is answered when it comes byte by byte.
fn is_answered_by_byte(alloc: Global, stream: &Stream) -> Option<bool> {
    let mut connection = Connection::to_empty(alloc)?;
    for byte in stream.0 {
        connection.hear(&[*byte]);
    }
    Some(connection.has_said(stream.1, stream.2))
}

/// Returns whether the stream is answered when it is cut in two at each offset.
fn is_answered_in_every_way(alloc: Global, stream: &Stream) -> bool {
    for at in 0..stream.0.len() + 1 {
        if is_answered_cut(alloc, stream, at) != Some(true) {
            return false;
        }
    }
    is_answered_by_byte(alloc, stream) == Some(true)
}

#[test]
fn streams_are_answered_however_they_are_cut(rt: HostRuntime) {
    for stream in &STREAMS {
        assert!(rt;
            is_answered_in_every_way(rt.alloc(), stream),
            "{:?}",
            stream.0
        );
    }
}

/// Returns `VRFY` with a word that makes its line `len` octets long with this end, and NOOP after it.
fn long_line(alloc: Global, len: usize, end: &[u8]) -> Option<Bytes> {
    let mut stream = Bytes::new(alloc);
    stream.push_slice(b"VRFY ").ok()?;
    for _ in 0..len.saturating_sub(5).saturating_sub(end.len()) {
        stream.push(b'a').ok()?;
    }
    stream.push_slice(end).ok()?;
    stream.push_slice(b"NOOP\n").ok()?;
    Some(stream)
}

/// Returns whether a line of `len` octets with its end, cut in two at an offset, gets this line, and
/// NOOP after it its own.
fn long_line_is_answered(
    alloc: Global,
    len: usize,
    end: &[u8],
    at: usize,
    wanted: &[u8],
) -> Option<bool> {
    let stream = long_line(alloc, len, end)?;
    let mut connection = Connection::to_empty(alloc)?;
    let bytes = stream.as_slice();
    let (front, back) = bytes.split_at(at.min(bytes.len()));
    connection.hear(front);
    connection.hear(back);
    Some(connection.has_said(&[wanted, b"250 ok"], Next::Go))
}

/// Returns whether lines up to the limit are read, and longer ones are skipped, cut at an offset.
fn long_lines_are_answered(alloc: Global, at: usize) -> bool {
    let read = b"252 cannot verify";
    let long = b"500 line too long";
    let longest = long_line_is_answered(alloc, 512, b"\n", at, read);
    let with_return = long_line_is_answered(alloc, 512, b"\r\n", at, read);
    let longer = long_line_is_answered(alloc, 513, b"\r\n", at, long);
    let longest_of_all = long_line_is_answered(alloc, 1500, b"\n", at, long);
    longest == Some(true)
        && with_return == Some(true)
        && longer == Some(true)
        && longest_of_all == Some(true)
}

#[test]
fn lines_have_at_most_512_octets(rt: HostRuntime) {
    for at in [0, 1, 100, 510, 511, 512, 513, 514, 600, 1499, 1500, 1501] {
        assert!(rt; long_lines_are_answered(rt.alloc(), at), "cut at {at}");
    }
}

#[test]
fn replies_are_the_same_however_bytes_are_cut(rt: HostRuntime) {
    door_laws();
    assert!(rt; true);
}
