//! The words of a list in order, each once.
//! Allocates.
ghost use Rattle.std.specs.Prelude.{◌≡◌, map, IfOk};
ghost use Rattle.text_words.specs.Sets.{word_set, lent};

use crate::packed_words::PackedWords;
use arch_base::NoMemory;
use std::alloc::Global;

/// Returns some words, sorted by their bytes and without repeats.
///
/// `NoMemory` if an allocation fails.
pub fn word_set(alloc: Global, words: &PackedWords) -> Result<PackedWords, NoMemory>
    ensures { IfOk result (λ set. set ≡ word_set words.now) }
{
    let mut found = slices(alloc, words)?;
    found.sort_unstable();
    found.dedup();
    packed(alloc, found.as_slice())
}

/// Returns each word where it stands.
fn slices(alloc: Global, words: &PackedWords) -> Result<Vec<&[u8]>, NoMemory>
    ensures { IfOk result (λ found. map lent found.items ≡ words.now) }
{
    let mut found = Vec::with_capacity(alloc, words.len())?;
    for index in 0..words.len() {
        found.push(words.get(index))?;
    }
    Ok(found)
}

/// Returns a copy of some words.
fn packed(alloc: Global, words: &[&[u8]]) -> Result<PackedWords, NoMemory>
    ensures { IfOk result (λ made. made ≡ map lent words.now) }
{
    let mut made = PackedWords::new(alloc);
    for word in words {
        made.push(word)?;
    }
    Ok(made)
}
