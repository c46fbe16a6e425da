//! The line at the front of a connection's bytes, where a line that is too long is skipped.
//! Pure.
//!
//! Such a line is answered once its line feed comes, and the bytes after it are read as ever. Of a
//! part of a line only the first `limit` bytes are held, since more can't change the answer.
ghost use Rattle.std.specs.Prelude.{◌≡◌, if◌then◌else◌, nat_lt};
ghost use Rattle.line_door.specs.Skipping.{skipping_front, Unended, IsPassage};

use memchr::memchr;

/// How a piece continues a part of a line that may be skipped.
#[derive(Clone, Copy, Debug, PartialEq, Eq)]
pub enum Passage {
    /// The line ends at the line feed at this offset of the piece.
    Line(usize),
    /// A line that is longer than the limit ends at the line feed at this offset of the piece.
    Skipped(usize),
    /// The line does not end in the piece.
    More,
}

/// Finds out how `piece` continues `held`, which is a part of a line.
///
/// A line has at most `limit` octets with its line feed. A fact of the code, of which no clause
/// speaks: it reads no byte of `held`.
pub fn next_passing(held: &[u8], piece: &[u8], limit: usize) -> Passage
    requires { skipping_front limit held.now ≡ Unended }
    ensures { IsPassage limit held.now piece.now result }
{
    match memchr(b'\n', piece) {
        Some(end) => ended(end, limit.saturating_sub(held.len())),
        None => Passage::More,
    }
}

/// Returns where a line ends that has room for `room` bytes of the piece, its line feed among them.
fn ended(end: usize, room: usize) -> Passage
    ensures { result ≡ (if nat_lt end room then Passage.Line end else Passage.Skipped end) }
{
    if end < room {
        Passage::Line(end)
    } else {
        Passage::Skipped(end)
    }
}
