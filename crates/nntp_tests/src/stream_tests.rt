//! Streams worked out by hand, each fed whole, byte by byte, and cut in two at every offset.
use crate::connection::Connection;
use arch_base::Bytes;
use arch_model::Next;
use nntp_reader::cut_laws;
use std::alloc::Global;

/// A stream, the lines that it gets after the greeting, and whether the connection then continues.
type Stream = (&'static [u8], &'static [&'static [u8]], Next);

/// Streams of short lines.
static STREAMS: [Stream; 22] = [
    (b"", &[], Next::Go),
    (b"DATE", &[], Next::Go),
    (b"DATE\n", &[b"111 20240201100140"], Next::Go),
    (b"DATE\r\n", &[b"111 20240201100140"], Next::Go),
    (b"\n\n", &[b"500 unknown", b"500 unknown"], Next::Go),
    (b"\r\n", &[b"500 unknown"], Next::Go),
    (b"QUIT\r\n", &[b"205 bye"], Next::Close),
    (b"QUIT\r\nDATE\r\n", &[b"205 bye"], Next::Close),
    (
        b"QUIT x\r\nDATE\r\n",
        &[b"501 syntax", b"111 20240201100140"],
        Next::Go,
    ),
    (
        b"GROUP list\r\nSTAT\r\n",
        &[b"211 2 1 3 list", b"223 1 <a@x>"],
        Next::Go,
    ),
    (
        b"GROUP list\nNEXT\nNEXT\nLAST\nLAST\n",
        &[
            b"211 2 1 3 list",
            b"223 3 <c@x>",
            b"421 no next article",
            b"223 1 <a@x>",
            b"422 no previous article",
        ],
        Next::Go,
    ),
    (b"STAT 1\nGROUP list", &[b"412 no group selected"], Next::Go),
    (
        b"GROUP nope\nNEXT\n",
        &[b"411 no such group", b"412 no group selected"],
        Next::Go,
    ),
    (
        b"GROUP list\nBODY 3\nBODY\n",
        &[
            b"211 2 1 3 list",
            b"222 3 <c@x>",
            b"...",
            b"last",
            b".",
            b"222 3 <c@x>",
            b"...",
            b"last",
            b".",
        ],
        Next::Go,
    ),
    (
        b"GROUP list\nHDR subject 1-\nQUIT\n",
        &[
            b"211 2 1 3 list",
            b"225 headers follow",
            b"1 first",
            b"3 [PATCH 1/2] fix the build",
            b".",
            b"205 bye",
        ],
        Next::Close,
    ),
    (
        b"LISTGROUP list 3\nSTAT\n",
        &[b"211 2 1 3 list list follows", b"3", b".", b"223 1 <a@x>"],
        Next::Go,
    ),
    (
        b"STAT <c@x>\r\nSTAT <b@x>\r\n",
        &[b"223 0 <c@x>", b"430 no such article"],
        Next::Go,
    ),
    (
        b"MODE READER\r\nPOST\r\n",
        &[b"201 no posting", b"440 no posting"],
        Next::Go,
    ),
    (
        b"HELP\nHELP\n",
        &[
            b"100 help",
            b"see RFC 3977",
            b".",
            b"100 help",
            b"see RFC 3977",
            b".",
        ],
        Next::Go,
    ),
    (
        b"LIST\nNEWNEWS * 20240201 095001\n",
        &[
            b"215 list follows",
            b"list 3 1 n",
            b".",
            b"230 list follows",
            b"<c@x>",
            b".",
        ],
        Next::Go,
    ),
    (b" \t GROUP\t list \r\n", &[b"211 2 1 3 list"], Next::Go),
    (
        b"DATE\r\r\nDATE\n",
        &[b"500 unknown", b"111 20240201100140"],
        Next::Go,
    ),
];

/// The line of the greeting, with its end, in bytes.
const GREETING: usize = 17;

/// Returns whether the stream is answered when it is cut in two at an offset.
fn is_answered_cut(alloc: Global, stream: &Stream, at: usize) -> Option<bool> {
    let mut connection = Connection::to_two(alloc)?;
    let (front, back) = stream.0.split_at(at.min(stream.0.len()));
    connection.hear(front);
    connection.hear(back);
    Some(connection.has_said(GREETING, stream.1, stream.2))
}

/// Returns whether the stream is answered when it comes byte by byte.
fn is_answered_by_byte(alloc: Global, stream: &Stream) -> Option<bool> {
    let mut connection = Connection::to_two(alloc)?;
    for byte in stream.0 {
        connection.hear(&[*byte]);
    }
    Some(connection.has_said(GREETING, stream.1, stream.2))
}

/// Returns whether the stream is answered when it is cut in two at each offset.
fn is_answered_in_every_way(alloc: Global, stream: &Stream) -> bool {
    for at in 0..stream.0.len() + 1 {
        if is_answered_cut(alloc, stream, at) != Some(true) {
            return false;
        }
    }
    is_answered_by_byte(alloc, stream) == Some(true)
}

#[test]
fn streams_are_answered_however_they_are_cut(rt: HostRuntime) {
    for stream in &STREAMS {
        assert!(rt; is_answered_in_every_way(rt.alloc(), stream));
    }
}

/// Returns a line of `len` octets with its line feed, and DATE after it.
fn long_line(alloc: Global, len: usize) -> Option<Bytes> {
    let mut stream = Bytes::new(alloc);
    for _ in 1..len {
        stream.push(b'a').ok()?;
    }
    stream.push_slice(b"\nDATE\n").ok()?;
    Some(stream)
}

/// Returns whether a line of `len` octets with its line feed, cut in two at an offset, gets this
/// line, and DATE after it is answered.
fn long_line_is_answered(alloc: Global, len: usize, at: usize, wanted: &[u8]) -> Option<bool> {
    let stream = long_line(alloc, len)?;
    let mut connection = Connection::to_two(alloc)?;
    let bytes = stream.as_slice();
    let (front, back) = bytes.split_at(at.min(bytes.len()));
    connection.hear(front);
    connection.hear(back);
    Some(connection.has_said(GREETING, &[wanted, b"111 20240201100140"], Next::Go))
}

/// Returns whether lines up to the limit are read, and longer ones are skipped, cut at an offset.
fn long_lines_are_answered(alloc: Global, at: usize) -> bool {
    let shorter = long_line_is_answered(alloc, 511, at, b"500 unknown");
    let longest = long_line_is_answered(alloc, 512, at, b"500 unknown");
    let longer = long_line_is_answered(alloc, 513, at, b"501 syntax");
    let longest_of_all = long_line_is_answered(alloc, 1200, at, b"501 syntax");
    shorter == Some(true)
        && longest == Some(true)
        && longer == Some(true)
        && longest_of_all == Some(true)
}

#[test]
fn lines_have_at_most_512_octets(rt: HostRuntime) {
    for at in [0, 1, 300, 510, 511, 512, 513, 514, 520, 1199, 1200, 1201] {
        assert!(rt; long_lines_are_answered(rt.alloc(), at), "cut at {at}");
    }
}

#[test]
fn replies_are_the_same_however_bytes_are_cut(rt: HostRuntime) {
    cut_laws();
    assert!(rt; true);
}
