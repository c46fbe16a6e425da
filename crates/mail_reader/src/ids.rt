//! The ids in a value, as an iterator that borrows them.
//! Pure.
ghost use Rattle.std.specs.Prelude.{◌≡◌, ◌≤◌, [], length, MatchOption};
ghost use Rattle.mail_reader.specs.Ids.{ids_of, id_len, is_id_byte, ClosesId, OpensId, SplitsId};

use memchr::memchr;
use std::marker::Model;

/// The ids of a value (RFC 5322, section 3.6.4) in their brackets, from left to right.
#[derive(Debug, Drop)]
pub struct Ids<'a> {
    rest: &'a [u8],
}

// A clause sees the remaining ids.
impl<'a> Model for Ids<'a> {
    ghost use Rattle.std.specs.Prelude.{List, ℕ};
    ghost use Rattle.mail_reader.specs.Ids.{ids_of};

    ghost Value = { List (List ℕ) };

    ghost view = { λ ids. ids_of ids.rest.now };
}

impl<'a> Ids<'a> {
    /// Returns the ids of a value: its parts of 1 to 248 printable bytes other than brackets,
    /// between brackets.
    pub fn of(value: &'a [u8]) -> Ids<'a>
        ensures value { result ≡ ids_of value.now }
        ensures len { length result ≤ length value.now }
    {
        Ids { rest: value }
    }
}

impl<'a> Iterator for Ids<'a> {
    type Item = &'a [u8];

    ghost use Rattle.std.specs.Iterator.{YieldsFirstRef, item_count};

    ghost next_gives = { YieldsFirstRef (λ rest. rest) };

    ghost remaining = { item_count (λ rest. rest) };

    fn next(&mut self) -> Option<&'a [u8]> {
        let (id, rest) = split_id(self.rest);
        self.rest = rest;
        id
    }
}

/// Returns the first id of a value, and the bytes with the other ids.
fn split_id(value: &[u8]) -> (Option<&[u8]>, &[u8])
    ensures { SplitsId value.now result }
{
    let mut rest = value;
    while let Some(piece) = from_bracket(rest) {
        let inside = piece.split_at(1).1;
        if let Some(len) = closing_len(inside) {
            return (Some(&piece[..len + 2]), inside);
        }
        rest = inside;
    }
    (None, &[])
}

/// Returns the bytes from the first opening bracket on.
fn from_bracket(value: &[u8]) -> Option<&[u8]>
    ensures { MatchOption result (ids_of value.now ≡ []) (λ piece. OpensId value.now piece.now) }
{
    match memchr(b'<', value) {
        Some(at) => Some(value.split_at(at).1),
        None => None,
    }
}

/// Returns the length of an id if a closing bracket follows its bytes.
fn closing_len(inside: &[u8]) -> Option<usize>
    ensures { ClosesId inside.now result }
{
    let len = id_len(inside);
    if len >= 1 && len <= MAX_ID_LEN && len < inside.len() && inside[len] == b'>' {
        Some(len)
    } else {
        None
    }
}

/// The greatest length of an id without its brackets, in bytes.
const MAX_ID_LEN: usize = 248;

/// Returns the number of bytes of an id at the front.
fn id_len(bytes: &[u8]) -> usize
    ensures { result ≡ id_len bytes.now }
{
    bytes.iter().take_while(|byte| is_id_byte(**byte)).count()
}

/// Returns whether an id may have a byte between its brackets.
fn is_id_byte(byte: u8) -> bool
    ensures { result ≡ is_id_byte byte }
{
    byte.is_ascii_graphic() && byte != b'<' && byte != b'>'
}
