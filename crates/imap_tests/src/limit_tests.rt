//! Commands at the limit of 16,384 octets, and just past it.
//! Allocates.
use arch_base::{Bytes, NoMemory};
use imap_framer::{Found, Framer};
use std::alloc::Global;
use std::test::Fail;

/// What is found, without the octets of a command.
#[derive(Clone, Copy, Debug, PartialEq, Eq)]
enum Kind {
    More,
    Continue,
    Command,
    TooLong,
    NoMemory,
}

/// A start, so many octets `x` after it, and an end; what is found, with the octets that are used.
type LimitCase = (&'static [u8], usize, &'static [u8], Kind, usize);

/// One piece each, at the limit and past it.
static LIMITS: [LimitCase; 12] = [
    (b"", 16_383, b"\n", Kind::Command, 16_384),
    (b"", 16_382, b"\r\n", Kind::Command, 16_384),
    (b"", 16_384, b"", Kind::More, 16_384),
    (b"", 16_384, b"\n", Kind::TooLong, 16_385),
    (b"", 16_385, b"", Kind::TooLong, 16_385),
    (b"", 20_000, b"\n", Kind::TooLong, 16_385),
    (b"a {1}", 16_380, b"", Kind::TooLong, 16_385),
    (b"a ", 0, b"{16374}\r\n", Kind::TooLong, 11),
    (b"a ", 0, b"{16373}\r\nxx", Kind::Continue, 11),
    (b"a ", 16_000, b"{373}\r\n", Kind::Continue, 16_009),
    (b"a ", 16_000, b"{376}\r\n", Kind::TooLong, 16_009),
    (b"a ", 16_000, b"{375}\r\n", Kind::Continue, 16_009),
];

/// So many octets after a line of 14 octets that announces `{16370}`; what is found in them, the octets
/// that are used, and those that are held then.
type LiteralCase = (usize, Kind, usize, usize);

/// Literals of a command of the greatest length.
static LITERALS: [LiteralCase; 4] = [
    (0, Kind::More, 0, 14),
    (16_369, Kind::More, 16_369, 16_383),
    (16_370, Kind::More, 16_370, 16_384),
    (16_371, Kind::TooLong, 16_371, 0),
];

/// Returns the kind of what was found.
fn kind_of(found: &Found) -> Kind {
    match found {
        Found::More => Kind::More,
        Found::Continue => Kind::Continue,
        Found::Command(_) => Kind::Command,
        Found::TooLong => Kind::TooLong,
        Found::NoMemory => Kind::NoMemory,
    }
}

/// Returns a start, `count` octets `x` and an end.
fn filled(alloc: Global, start: &[u8], count: usize, end: &[u8]) -> Result<Bytes, NoMemory> {
    let mut octets = Bytes::new(alloc);
    octets.push_slice(start)?;
    for _index in 0..count {
        octets.push(b'x')?;
    }
    octets.push_slice(end)?;
    Ok(octets)
}

/// Returns whether a piece has what the case says.
fn has_limit(alloc: Global, case: &LimitCase) -> Result<bool, NoMemory> {
    let piece = filled(alloc, case.0, case.1, case.2)?;
    let mut framer = Framer::new(alloc);
    let framed = framer.feed(piece.as_slice());
    Ok(kind_of(&framed.what) == case.3 && framed.used == case.4)
}

/// Returns whether the octets of a literal have what the case says.
fn has_literal(alloc: Global, case: &LiteralCase) -> Result<bool, NoMemory> {
    let piece = filled(alloc, b"", case.0, b"")?;
    let mut framer = Framer::new(alloc);
    let asked = framer.feed(b"a1 X {16370}\r\n");
    let framed = framer.feed(piece.as_slice());
    let held = framer.octets().len();
    Ok(
        asked.used == 14
            && kind_of(&framed.what) == case.1
            && framed.used == case.2
            && held == case.3,
    )
}

#[test]
fn commands_have_at_most_the_limit(rt: HostRuntime) -> Result<(), Fail> {
    for case in &LIMITS {
        assert!(rt; has_limit(rt.alloc(), case)?);
    }
    Ok(())
}

#[test]
fn octets_after_the_greatest_literal_are_too_many(rt: HostRuntime) -> Result<(), Fail> {
    for case in &LITERALS {
        assert!(rt; has_literal(rt.alloc(), case)?);
    }
    Ok(())
}
