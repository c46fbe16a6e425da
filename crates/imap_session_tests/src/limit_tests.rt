//! Commands at the limit of 16,384 octets, and past it.
use crate::connection::Connection;
use arch_base::Bytes;
use arch_model::Next;
use std::alloc::Global;

/// Returns a line of so many spaces, and what follows it.
fn long_line(alloc: Global, spaces: usize, end: &[u8]) -> Option<Bytes> {
    let mut stream = Bytes::new(alloc);
    for _ in 0..spaces {
        stream.push(b' ').ok()?;
    }
    stream.push_slice(end).ok()?;
    Some(stream)
}

/// Returns whether so many spaces and what follows them, cut in two at an offset, get these lines after
/// LOGIN and other commands.
fn is_answered(
    alloc: Global,
    first: &[u8],
    spaces: usize,
    end: &[u8],
    at: usize,
    lines: &[&[u8]],
    next: Next,
) -> Option<bool> {
    let stream = long_line(alloc, spaces, end)?;
    let mut connection = Connection::to(alloc, 1000)?;
    connection.hear(b"a LOGIN u p\n");
    connection.hear(first);
    let before = connection.said();
    connection.hear_cut(stream.as_slice(), at);
    Some(connection.has_said(before, lines, next))
}

/// Returns whether a command is taken up to the limit, and closes the session as soon as it is longer.
fn commands_are_limited(alloc: Global, at: usize) -> bool {
    let bad: &[&[u8]] = &[b"* BAD syntax", b"b OK NOOP done"];
    let long: &[&[u8]] = &[b"* BYE command too long"];
    let longest = is_answered(alloc, b"", 16_383, b"\nb NOOP\n", at, bad, Next::Go);
    let longer = is_answered(alloc, b"", 16_384, b"\nb NOOP\n", at, long, Next::Close);
    let not_yet = is_answered(alloc, b"", 16_384, b"", at, &[], Next::Go);
    longest == Some(true) && longer == Some(true) && not_yet == Some(true)
}

/// Returns whether the same holds of a line while the session idles.
fn lines_are_limited(alloc: Global, at: usize) -> bool {
    let ended: &[&[u8]] = &[b"i BAD syntax", b"b OK NOOP done"];
    let long: &[&[u8]] = &[b"* BYE command too long"];
    let longest = is_answered(
        alloc,
        b"i IDLE\n",
        16_383,
        b"\nb NOOP\n",
        at,
        ended,
        Next::Go,
    );
    let longer = is_answered(alloc, b"i IDLE\n", 16_385, b"", at, long, Next::Close);
    longest == Some(true) && longer == Some(true)
}

#[test]
fn commands_have_at_most_16384_octets(rt: HostRuntime) {
    for at in [0, 1, 8_000, 16_382, 16_383, 16_384, 16_385, 16_386] {
        assert!(rt; commands_are_limited(rt.alloc(), at), "cut at {at}");
        assert!(rt; lines_are_limited(rt.alloc(), at), "cut at {at}");
    }
}
