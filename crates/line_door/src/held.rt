//! The part of a line that a connection holds between pieces, at a door that skips long lines.
//! Pure.
ghost use Rattle.std.specs.Prelude.{◌≡◌, ◌++◌};
ghost use Rattle.line_door.specs.Clipped.{longest_line};
ghost use Rattle.line_door.specs.Skipping.{skipping_front, Unended, held_of, IsPassage};

use crate::skipping::{Passage, next_passing};
use std::marker::Model;

/// The greatest length of a line with its line end, in octets.
const LONGEST_LINE: usize = 512;

/// A part of a line: at most its first 512 octets, since more can't change the answer.
///
/// A contract sees it as its bytes. Takes no memory beyond itself.
#[derive(Drop)]
pub struct HeldLine {
    bytes: [u8; LONGEST_LINE],
    len: usize,
}

impl Model for HeldLine {
    ghost use Rattle.std.specs.Prelude.{◌≡◌, ◌≤◌, List, ℕ, take};
    ghost use Rattle.line_door.specs.Clipped.{longest_line};
    ghost use Rattle.line_door.specs.Skipping.{skipping_front, Unended};

    ghost Value = { List ℕ };

    ghost view = { λ h. take h.len h.bytes };

    ghost invariant = { λ h. (h.len ≤ longest_line)
        × (skipping_front longest_line (take h.len h.bytes) ≡ Unended) };
}

impl HeldLine {
    ghost use Rattle.std.specs.Prelude.{◌≡◌, ◌≤◌, ◌++◌, [], length};

    /// Returns no bytes.
    pub fn new() -> HeldLine
        ensures { result ≡ [] }
    {
        HeldLine {
            bytes: [0; LONGEST_LINE],
            len: 0,
        }
    }

    /// Returns the bytes.
    pub fn as_slice(&self) -> &[u8]
        ensures value { result.now ≡ self.now }
        ensures part { skipping_front longest_line self.now ≡ Unended }
        ensures short { length self.now ≤ longest_line }
    {
        &self.bytes[..self.len]
    }

    /// Finds out how a piece continues the line.
    pub fn next(&self, piece: &[u8]) -> Passage
        ensures { IsPassage longest_line self.now piece.now result }
    {
        next_passing(self.as_slice(), piece, LONGEST_LINE)
    }

    /// Appends bytes that don't end the line. Only the first 512 octets of the line are kept.
    pub fn hold(&mut self, bytes: &[u8])
        requires { skipping_front longest_line (self.old ++ bytes.now) ≡ Unended }
        ensures { self.new ≡ held_of longest_line (self.old ++ bytes.now) }
    {
        let room = LONGEST_LINE - self.len;
        let (front, _) = bytes.split_at(bytes.len().min(room));
        let end = self.len + front.len();
        self.bytes[self.len..end].copy_from_slice(front);
        self.len = end;
    }

    /// Removes all bytes.
    pub fn clear(&mut self)
        ensures { self.new ≡ [] }
    {
        self.len = 0;
    }
}
