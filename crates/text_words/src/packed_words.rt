//! Words in order, in one piece of memory.
//! Allocates.
ghost use Rattle.std.specs.Prelude.{◌≡◌, ◌<◌, ◌≤◌, [], ◌∷◌, ◌++◌, length, slice_index_or, if◌then◌else◌, is_ok};
ghost use Rattle.std.specs.List.{between};
ghost use Rattle.std.specs.Str.{str_to_ascii_lowercase};
ghost use Rattle.text_words.specs.Packed.{start_at};

use arch_base::NoMemory;
use std::alloc::{AllocError, Global};
use std::marker::Model;

/// Words in order, one after the other in one piece of memory. A word may stand there twice.
///
/// A word costs its bytes and the place where it ends, and no allocation of its own.
#[derive(Debug, Drop)]
pub struct PackedWords {
    bytes: Vec<u8>,
    ends: Vec<usize>,
}

impl Model for PackedWords {
    ghost use Rattle.std.specs.Prelude.{ℕ, List, length};
    ghost use Rattle.text_words.specs.Packed.{cut_at, RisesTo};

    ghost Value = { List (List ℕ) };

    ghost view = { λ w. cut_at w.bytes.items 0 w.ends.items };

    ghost invariant = { λ w. RisesTo 0 w.ends.items (length w.bytes.items) };
}

impl PackedWords {
    /// Returns no words. Allocates nothing.
    pub fn new(alloc: Global) -> PackedWords
        ensures { result ≡ [] }
    {
        PackedWords {
            bytes: Vec::new(alloc),
            ends: Vec::new(alloc),
        }
    }

    /// Returns how many words there are.
    pub fn len(&self) -> usize
        ensures { result ≡ length self.now }
    {
        self.ends.len()
    }

    /// Returns the word with an index, counted from 0.
    pub fn get(&self, index: usize) -> &[u8]
        requires { index < length self.now }
        ensures { result.now ≡ slice_index_or self.now index [] }
    {
        word_at(self.bytes.as_slice(), self.ends.as_slice(), index)
    }

    /// Appends a word.
    ///
    /// `NoMemory` leaves the words unchanged.
    pub fn push(&mut self, word: &[u8]) -> Result<(), NoMemory>
        ensures { self.new ≡ (if is_ok result then self.old ++ word.now ∷ [] else self.old) }
    {
        self.ends.reserve(1)?;
        self.bytes.extend_from_slice(word)?;
        self.ends.push(self.bytes.len())?;
        Ok(())
    }

    /// Appends a word in ASCII lower case.
    ///
    /// `NoMemory` leaves the words unchanged.
    pub(crate) fn push_lower(&mut self, word: &[u8]) -> Result<(), NoMemory>
        ensures { self.new
            ≡ (if is_ok result then self.old ++ str_to_ascii_lowercase word.now ∷ [] else self.old) }
    {
        self.ends.reserve(1)?;
        push_lower(&mut self.bytes, word)?;
        self.ends.push(self.bytes.len())?;
        Ok(())
    }
}

/// Appends bytes in ASCII lower case. `AllocError` leaves the list unchanged.
fn push_lower(into: &mut Vec<u8>, bytes: &[u8]) -> Result<(), AllocError>
    ensures { into.new.items
        ≡ (if is_ok result then into.old.items ++ str_to_ascii_lowercase bytes.now else into.old.items) }
{
    let start = into.len();
    into.extend_from_slice(bytes)?;
    lower(&mut into.as_mut_slice()[start..]);
    Ok(())
}

/// Puts bytes into ASCII lower case.
fn lower(bytes: &mut [u8])
    ensures { bytes.new ≡ str_to_ascii_lowercase bytes.old }
{
    for byte in bytes.iter_mut() {
        byte.make_ascii_lowercase();
    }
}

/// Returns the word with an index among those that end at these places.
fn word_at<'a>(bytes: &'a [u8], ends: &[usize], index: usize) -> &'a [u8]
    requires known { index < length ends.now }
    requires rises { start_at ends.now index ≤ slice_index_or ends.now index 0 }
    requires within { slice_index_or ends.now index 0 ≤ length bytes.now }
    ensures { result.now ≡ between (start_at ends.now index) (slice_index_or ends.now index 0) bytes.now }
{
    let start = start_at(ends, index);
    let end = ends[index];
    &bytes[start..end]
}

/// Returns where the word with an index starts: at 0, or where the word before it ends.
fn start_at(ends: &[usize], index: usize) -> usize
    requires { index ≤ length ends.now }
    ensures { result ≡ start_at ends.now index }
{
    if index == 0 {
        return 0;
    }
    ends[index - 1]
}
