//! Where the present part of a command ends in a piece.
//! Pure.
ghost use Rattle.std.specs.Prelude.{◌≡◌, ◌≤◌, ◌<◌, ◌+◌, ◌-◌, ◌++◌, if◌then◌else◌, length, drop, None};
ghost use Rattle.line_door.specs.Lines.{first_line};
ghost use Rattle.imap_framer.specs.Framing.{announced, most_octets};
ghost use Rattle.imap_framer.specs.Scanning.{IsLineEnd, framing_of, part_kind};
ghost use Rattle.imap_framer.specs.Feeding.{IsNextPart};

use crate::joined::{Joined, announced_in};
use memchr::memchr;

/// The greatest length of a command in octets, announced ones included.
pub(crate) const MOST_OCTETS: usize = 16_384;

/// How a piece goes on after the octets that are held of a command.
#[derive(Clone, Copy, Debug, PartialEq, Eq)]
pub enum NextPart {
    /// The last part of the command ends with so many octets of the piece.
    Last(usize),
    /// A part ends with so many octets of the piece, and announces so many.
    Literal(usize, usize),
    /// The command is too long at the end of so many octets of the piece.
    TooLong(usize),
    /// No part ends in the piece.
    More,
}

/// Finds how a piece goes on after the octets of a command, of which the first `held` are ended parts.
///
/// The last ended part announced `owed` octets. Of these and of the octets after them none ends a
/// line yet. `literals` says whether a line may announce octets.
#[tactic(auto, unfolding(crate::specs::Framing::most_octets))]
pub(crate) fn next_part(
    octets: &[u8],
    held: usize,
    owed: usize,
    piece: &[u8],
    literals: bool,
) -> NextPart
    requires held { held ≤ length octets.now }
    requires owed { held + owed ≤ most_octets }
    requires short { length octets.now ≤ most_octets }
    requires open { first_line (drop (held + owed) octets.now) ≡ None }
    ensures { IsNextPart literals (framing_of held owed octets.now) piece.now result }
{
    let start = held + owed;
    let skip = start.saturating_sub(octets.len());
    let room = MOST_OCTETS - octets.len();
    match line_end(skip, piece) {
        None => {
            if piece.len() <= room {
                NextPart::More
            } else {
                NextPart::TooLong(room + 1)
            }
        }
        Some(end) => {
            if end < room {
                let line = Joined {
                    front: octets.split_at(octets.len().min(start)).1,
                    back: piece.split_at(skip).1.split_at(end - skip).0,
                };
                ended(line, end + 1, room, literals)
            } else {
                NextPart::TooLong(room + 1)
            }
        }
    }
}

/// Finds the end of the line that starts after the first `skip` octets of a piece.
fn line_end(skip: usize, piece: &[u8]) -> Option<usize>
    requires { skip ≤ most_octets }
    ensures { IsLineEnd skip piece.now result }
{
    let start = piece.len().min(skip);
    match memchr(b'\n', piece.split_at(start).1) {
        Some(end) => Some(start + end),
        None => None,
    }
}

/// Returns what a part is whose line ends with the first `used` octets of a piece.
///
/// The command has room for `room` octets of the piece.
#[tactic(auto, unfolding(crate::specs::Framing::most_octets))]
fn ended(line: Joined<'_>, used: usize, room: usize, literals: bool) -> NextPart
    requires used { used ≤ room }
    requires room { room ≤ most_octets }
    ensures { result ≡ part_kind (room - used) used
        (if literals then announced (line.entry.front.now ++ line.entry.back.now) else None) }
{
    if !literals {
        return NextPart::Last(used);
    }
    match announced_in(line) {
        None => NextPart::Last(used),
        Some(octets) => {
            if octets <= room - used {
                NextPart::Literal(used, octets)
            } else {
                NextPart::TooLong(used)
            }
        }
    }
}
