//! Pieces of bytes, between the bytes of one value.
//! Pure.
ghost use Rattle.std.specs.Prelude.{◌≡◌, ◌∷◌};
ghost use Rattle.http_heads.specs.Pieces.{pieces_of, pieces_left};

use memchr::memchr;
use std::marker::Model;

/// The pieces of bytes between the bytes of one value, from first to last.
#[derive(Drop)]
pub struct Pieces<'a> {
    rest: Option<&'a [u8]>,
    stop: u8,
}

// A clause sees the remaining pieces.
impl<'a> Model for Pieces<'a> {
    ghost use Rattle.std.specs.Prelude.{List, ℕ};
    ghost use Rattle.http_heads.specs.Pieces.{pieces_left};

    ghost Value = { List (List ℕ) };

    ghost view = { λ p. pieces_left p.stop p.rest };
}

impl<'a> Pieces<'a> {
    /// Returns the pieces of bytes between the bytes `stop`.
    pub fn of(bytes: &'a [u8], stop: u8) -> Pieces<'a>
        ensures { result ≡ pieces_of stop bytes.now }
    {
        Pieces {
            rest: Some(bytes),
            stop,
        }
    }
}

impl<'a> Iterator for Pieces<'a> {
    type Item = &'a [u8];

    ghost use Rattle.std.specs.Iterator.{YieldsFirstRef, item_count};

    ghost next_gives = { YieldsFirstRef (λ rest. rest) };

    ghost remaining = { item_count (λ rest. rest) };

    fn next(&mut self) -> Option<&'a [u8]> {
        let (piece, rest) = split_piece(self.rest?, self.stop);
        self.rest = rest;
        Some(piece)
    }
}

/// Returns the first piece of bytes, and the bytes of the others, if there are others.
pub fn split_piece(bytes: &[u8], stop: u8) -> (&[u8], Option<&[u8]>)
    ensures { pieces_of stop bytes.now ≡ result.0.now ∷ pieces_left stop result.1 }
{
    match memchr(stop, bytes) {
        Some(end) => (bytes.split_at(end).0, Some(bytes.split_at(end + 1).1)),
        None => (bytes, None),
    }
}
