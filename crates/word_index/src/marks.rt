//! The marks of words, by which they are found.
//! Pure.
ghost use Rattle.std.specs.Prelude.{◌≡◌};
ghost use Rattle.word_index.specs.Marks.{mark_of, mark_on};

/// Returns the mark of a word, a number that is mostly another one for another word.
pub fn mark_of(text: &[u8]) -> u64
    ensures { result ≡ mark_of text.now }
{
    let mut mark: u64 = 0;
    for byte in text {
        mark = mark_on(mark, *byte);
    }
    mark
}

/// Returns the mark of a word with one more byte.
fn mark_on(mark: u64, byte: u8) -> u64
    ensures { result ≡ mark_on mark byte }
{
    mark.wrapping_mul(257).wrapping_add(u64::from(byte))
}
