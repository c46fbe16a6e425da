//! The line at the front of a connection's bytes.
//! Pure.
//!
//! A line ends with a line feed, and one carriage return before it is dropped. The limit includes
//! the line's end, like the 512 octets of RFC 3977, section 3.1.
ghost use Rattle.std.specs.Prelude.{◌≡◌};
ghost use Rattle.line_door.specs.Lines.{front, content, Partial};
ghost use Rattle.line_door.specs.Ahead.{IsLineAhead};

use memchr::memchr;

/// How a piece continues a part of a line.
#[derive(Clone, Copy, Debug, PartialEq, Eq)]
pub enum Ahead {
    /// The line ends at the line feed at this offset of the piece.
    Line(usize),
    /// The line is longer than the limit.
    Long,
    /// The line does not end in the piece, and is not too long yet.
    More,
}

/// Finds out how `piece` continues `held`, which is a part of a line.
///
/// A line has at most `limit` octets with its line feed. Facts of the code, of which no clause
/// speaks: it reads no byte of `held`, and at most `limit` bytes of the piece.
pub fn next_in(held: &[u8], piece: &[u8], limit: usize) -> Ahead
    requires { front limit held.now ≡ Partial }
    ensures { IsLineAhead limit held.now piece.now result }
{
    let room = limit - held.len();
    if piece.len() < room {
        return match memchr(b'\n', piece) {
            Some(n) => Ahead::Line(n),
            None => Ahead::More,
        };
    }
    match memchr(b'\n', piece.split_at(room).0) {
        Some(n) => Ahead::Line(n),
        None => Ahead::Long,
    }
}

/// Removes one carriage return from the end of a line, which has no line feed.
pub fn line_content(line: &[u8]) -> &[u8]
    ensures { result.now ≡ content line.now }
{
    match line {
        [front @ .., b'\r'] => front,
        _ => line,
    }
}
