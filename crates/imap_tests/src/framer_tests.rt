//! Streams of commands, cut everywhere, against the rules of RFC 3501, sections 2.2 and 4.3.
//! Allocates.
use arch_base::{Bytes, NoMemory};
use imap_framer::{Found, Framer, NextPart};
use std::alloc::Global;
use std::test::Fail;

/// The octets of a connection, and what is found in them: `<..>` is a command, `+` a part that
/// announces octets, and `!` a command that is too long, after which nothing is looked at.
type StreamCase = (&'static [u8], &'static [u8]);

/// Streams of lines and literals.
static STREAMS: [StreamCase; 34] = [
    (b"", b""),
    (b"a1 NOOP", b""),
    (b"a1 NOOP\r\n", b"<a1 NOOP\r\n>"),
    (b"a1 NOOP\n", b"<a1 NOOP\n>"),
    (b"\r\n", b"<\r\n>"),
    (b"\n\n", b"<\n><\n>"),
    (b"a NOOP\r\nb NOOP\r\nc", b"<a NOOP\r\n><b NOOP\r\n>"),
    (b"a1 LOGIN {1}\r\n", b"+"),
    (b"a1 LOGIN {1}\r\nx", b"+"),
    (b"a1 LOGIN {1}\r\nx {1}\r\n", b"++"),
    (
        b"a1 LOGIN {1}\r\nx {1}\r\ny\r\n",
        b"++<a1 LOGIN {1}\r\nx {1}\r\ny\r\n>",
    ),
    (b"a {3}\r\n\r\n\n\r\nb", b"+<a {3}\r\n\r\n\n\r\n>"),
    (b"a {4}\r\n{9}\n\r\n", b"+<a {4}\r\n{9}\n\r\n>"),
    (b"a {0}\r\n\r\n", b"+<a {0}\r\n\r\n>"),
    (b"a {0}\n{0}\n\n", b"++<a {0}\n{0}\n\n>"),
    (b"{2}\n\n\n\n", b"+<{2}\n\n\n\n>"),
    (b"a {0002}\r\nxy\r\n", b"+<a {0002}\r\nxy\r\n>"),
    (b"a {}\r\nb\r\n", b"<a {}\r\n><b\r\n>"),
    (b"a {+5}\r\nb\r\n", b"<a {+5}\r\n><b\r\n>"),
    (b"a {5+}\r\nb\r\n", b"<a {5+}\r\n><b\r\n>"),
    (b"a { 5}\r\nb\r\n", b"<a { 5}\r\n><b\r\n>"),
    (b"a {5} \r\nb\r\n", b"<a {5} \r\n><b\r\n>"),
    (b"a {5}\r\r\nb\r\n", b"<a {5}\r\r\n><b\r\n>"),
    (b"a 5}\r\n}\r\n", b"<a 5}\r\n><}\r\n>"),
    (b"a {x{2}\r\nxy\r\n", b"+<a {x{2}\r\nxy\r\n>"),
    (b"a {2}{\r\nxy\r\n", b"<a {2}{\r\n><xy\r\n>"),
    (b"a \"{2}\r\nxy\"\r\n", b"+<a \"{2}\r\nxy\"\r\n>"),
    (b"a {2}}\r\nb\r\n", b"<a {2}}\r\n><b\r\n>"),
    (b"a {1:}\r\nb\r\n", b"<a {1:}\r\n><b\r\n>"),
    (b"a {1/}\r\nb\r\n", b"<a {1/}\r\n><b\r\n>"),
    (b"a NOOP\r\nb {99999}\r\nc NOOP\r\n", b"<a NOOP\r\n>!"),
    (b"a {16378}\r\n", b"!"),
    (b"a {18446744073709551617}\r\n", b"!"),
    (
        b"a {000000000000000000000001}\r\nx\r\n",
        b"+<a {000000000000000000000001}\r\nx\r\n>",
    ),
];

/// Lines that are read while a session idles: none of them announces octets.
static IDLE_LINES: [StreamCase; 5] = [
    (b"DONE\r\n", b"<DONE\r\n>"),
    (b"DONE {5}\r\nb\r\n", b"<DONE {5}\r\n><b\r\n>"),
    (b"{99999}\n\n", b"<{99999}\n><\n>"),
    (b"done", b""),
    (b"\r\na", b"<\r\n>"),
];

/// Appends what is found, and returns whether more may be looked at.
fn note(found: &Found, into: &mut Bytes) -> Result<bool, NoMemory> {
    match found {
        Found::More => Ok(false),
        Found::Continue => {
            into.push(b'+')?;
            Ok(true)
        }
        Found::Command(command) => {
            note_command(command.as_slice(), into)?;
            Ok(true)
        }
        Found::TooLong => {
            into.push(b'!')?;
            Ok(false)
        }
        Found::NoMemory => Err(NoMemory),
    }
}

/// Appends a command.
pub(crate) fn note_command(command: &[u8], into: &mut Bytes) -> Result<(), NoMemory> {
    into.push(b'<')?;
    into.push_slice(command)?;
    into.push(b'>')
}

/// Returns the octets after the first `used`.
fn after(piece: &[u8], used: usize) -> &[u8] {
    match piece.get(used..) {
        Some(rest) => rest,
        None => &[],
    }
}

/// Feeds a piece, and appends what is found. Returns whether the connection goes on.
pub(crate) fn fed(
    framer: &mut Framer,
    piece: &[u8],
    literals: bool,
    into: &mut Bytes,
) -> Result<bool, NoMemory> {
    let mut rest = piece;
    for _index in 0..piece.len() {
        let framed = if literals {
            framer.feed(rest)
        } else {
            framer.feed_line(rest)
        };
        if !note(&framed.what, into)? {
            return Ok(is_going(&framed.what));
        }
        rest = after(rest, framed.used);
    }
    Ok(true)
}

/// Returns whether a connection goes on after this.
fn is_going(found: &Found) -> bool {
    !matches!(found, Found::TooLong)
}

/// Does what `feed` does by the calls below it, for all parts of a piece.
fn taken(framer: &mut Framer, piece: &[u8], into: &mut Bytes) -> Result<bool, NoMemory> {
    let mut rest = piece;
    for _index in 0..piece.len() {
        match framer.next(rest, true) {
            NextPart::Last(used) => {
                let command = framer.finish(rest.split_at(used).0)?;
                note_command(command.as_slice(), into)?;
                rest = after(rest, used);
            }
            NextPart::Literal(used, octets) => {
                framer.begin(rest.split_at(used).0, octets)?;
                into.push(b'+')?;
                rest = after(rest, used);
            }
            NextPart::TooLong(_used) => {
                framer.clear();
                into.push(b'!')?;
                return Ok(false);
            }
            NextPart::More => {
                framer.keep(rest)?;
                return Ok(true);
            }
        }
    }
    Ok(true)
}

/// Returns whether a stream that is cut in two gives just this.
fn cut_gives(
    alloc: Global,
    case: &StreamCase,
    cut: usize,
    literals: bool,
) -> Result<bool, NoMemory> {
    let mut framer = Framer::new(alloc);
    let mut found = Bytes::new(alloc);
    let (first, second) = case.0.split_at(case.0.len().min(cut));
    if fed(&mut framer, first, literals, &mut found)? {
        fed(&mut framer, second, literals, &mut found)?;
    }
    Ok(found.as_slice() == case.1)
}

/// Returns whether a stream gives just this, octet by octet.
fn octets_give(alloc: Global, case: &StreamCase, literals: bool) -> Result<bool, NoMemory> {
    let mut framer = Framer::new(alloc);
    let mut found = Bytes::new(alloc);
    for octet in case.0 {
        if !fed(&mut framer, &[*octet], literals, &mut found)? {
            return Ok(found.as_slice() == case.1);
        }
    }
    Ok(found.as_slice() == case.1)
}

/// Returns whether the calls below `feed` give the same, wherever the stream is cut in two.
fn parts_give(alloc: Global, case: &StreamCase, cut: usize) -> Result<bool, NoMemory> {
    let mut framer = Framer::new(alloc);
    let mut found = Bytes::new(alloc);
    let (first, second) = case.0.split_at(case.0.len().min(cut));
    if taken(&mut framer, first, &mut found)? {
        taken(&mut framer, second, &mut found)?;
    }
    Ok(found.as_slice() == case.1)
}

#[test]
fn streams_give_their_commands_however_they_are_cut(rt: HostRuntime) -> Result<(), Fail> {
    for case in &STREAMS {
        for cut in 0..case.0.len() + 1 {
            assert!(rt; cut_gives(rt.alloc(), case, cut, true)?);
        }
        assert!(rt; octets_give(rt.alloc(), case, true)?);
    }
    Ok(())
}

#[test]
fn calls_below_feed_give_the_same(rt: HostRuntime) -> Result<(), Fail> {
    for case in &STREAMS {
        for cut in 0..case.0.len() + 1 {
            assert!(rt; parts_give(rt.alloc(), case, cut)?);
        }
    }
    Ok(())
}

#[test]
fn idle_lines_announce_nothing(rt: HostRuntime) -> Result<(), Fail> {
    for case in &IDLE_LINES {
        for cut in 0..case.0.len() + 1 {
            assert!(rt; cut_gives(rt.alloc(), case, cut, false)?);
        }
        assert!(rt; octets_give(rt.alloc(), case, false)?);
    }
    Ok(())
}
