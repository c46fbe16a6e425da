//! The part of a line that a connection holds between pieces, at a door with a limit of its own.
//! Pure.
ghost use Rattle.std.specs.Prelude.{◌≡◌, ◌++◌};
ghost use Rattle.line_door.specs.Skipping.{skipping_front, Unended, held_of, IsPassage};

use crate::skipping::{Passage, next_passing};
use std::marker::Model;

/// A part of a line: at most its first `LIMIT` octets, since more can't change the answer.
///
/// `LIMIT` is the greatest length of a line with its line end. A contract sees the part as its
/// bytes. Takes no memory beyond itself.
#[derive(Drop)]
pub struct HeldPart<const LIMIT: usize> {
    bytes: [u8; LIMIT],
    len: usize,
}

impl<const LIMIT: usize> Model for HeldPart<LIMIT> {
    ghost use Rattle.std.specs.Prelude.{◌≡◌, ◌≤◌, List, ℕ, take};
    ghost use Rattle.line_door.specs.Skipping.{skipping_front, Unended};

    ghost Value = { List ℕ };

    ghost view = { λ h. take h.len h.bytes };

    ghost invariant = { λ h. (h.len ≤ LIMIT)
        × (skipping_front LIMIT (take h.len h.bytes) ≡ Unended) };
}

impl<const LIMIT: usize> HeldPart<LIMIT> {
    ghost use Rattle.std.specs.Prelude.{◌≡◌, ◌≤◌, ◌++◌, [], length};

    /// Returns no bytes.
    pub fn new() -> HeldPart<LIMIT>
        ensures { result ≡ [] }
    {
        HeldPart {
            bytes: [0; LIMIT],
            len: 0,
        }
    }

    /// Returns the bytes.
    pub fn as_slice(&self) -> &[u8]
        ensures value { result.now ≡ self.now }
        ensures part { skipping_front LIMIT self.now ≡ Unended }
        ensures short { length self.now ≤ LIMIT }
    {
        &self.bytes[..self.len]
    }

    /// Finds out how a piece continues the line.
    pub fn next(&self, piece: &[u8]) -> Passage
        ensures { IsPassage LIMIT self.now piece.now result }
    {
        next_passing(self.as_slice(), piece, LIMIT)
    }

    /// Appends bytes that don't end the line. Only the first `LIMIT` octets of the line are kept.
    pub fn hold(&mut self, bytes: &[u8])
        requires { skipping_front LIMIT (self.old ++ bytes.now) ≡ Unended }
        ensures { self.new ≡ held_of LIMIT (self.old ++ bytes.now) }
    {
        let room = LIMIT - self.len;
        let (front, _) = bytes.split_at(bytes.len().min(room));
        let end = self.len + front.len();
        let all = &mut self.bytes[..];
        all[self.len..end].copy_from_slice(front);
        self.len = end;
    }

    /// Removes all bytes.
    pub fn clear(&mut self)
        ensures { self.new ≡ [] }
    {
        self.len = 0;
    }
}
