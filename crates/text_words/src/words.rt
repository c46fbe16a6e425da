//! Cuts a text into words.
//! Allocates.
ghost use Rattle.std.specs.Prelude.{◌≡◌, ◌<◌, ◌≤◌, ◌++◌, [], ◌∷◌, length, take, IfSome, OnOk, OnErr, MatchOption};
ghost use Rattle.std.specs.List.{prefix_len};
ghost use Rattle.text_words.specs.Runs.{fails, runs};
ghost use Rattle.text_words.specs.Words.{is_word_byte, words_of, AppendsSome};

use crate::packed_words::PackedWords;
use arch_base::NoMemory;

/// The greatest length of a word, in bytes.
pub const MAX_WORD_LEN: usize = 64;

/// Appends the words of a text to others, in order.
///
/// Words are the longest runs of ASCII letters, digits and bytes from 128 up, in ASCII lower case.
/// Of a run of more than 64 bytes the first 64 are the word, and the rest is dropped. A word that
/// stands in the text twice is appended twice.
///
/// `NoMemory` leaves some of the first of them appended.
pub fn push_words(text: &[u8], into: &mut PackedWords) -> Result<(), NoMemory>
    ensures ok { OnOk result (into.new ≡ into.old ++ words_of text.now) }
    ensures err { OnErr result (AppendsSome into.old (words_of text.now) into.new) }
{
    let mut rest = text;
    while let Some((run, others)) = first_run(rest) {
        into.push_lower(front(run))?;
        rest = others;
    }
    Ok(())
}

/// Returns the first run of bytes of words in a text, and the text after it.
fn first_run(text: &[u8]) -> Option<(&[u8], &[u8])>
    ensures runs { MatchOption result (runs is_word_byte text.now ≡ []) (λ found.
        runs is_word_byte text.now ≡ found.0.now ∷ runs is_word_byte found.1.now) }
    ensures shorter { IfSome result (λ found. length found.1.now < length text.now) }
{
    let body = text.split_at(gap_len(text)).1;
    let len = run_len(body);
    if len == 0 {
        return None;
    }
    Some(body.split_at(len))
}

/// Returns the number of bytes before the first byte of a word.
fn gap_len(text: &[u8]) -> usize
    ensures value { result ≡ prefix_len (fails is_word_byte) text.now }
    ensures bound { result ≤ length text.now }
{
    text.iter().take_while(|byte| !is_word_byte(**byte)).count()
}

/// Returns the number of bytes of words at the front of a text.
fn run_len(text: &[u8]) -> usize
    ensures value { result ≡ prefix_len is_word_byte text.now }
    ensures bound { result ≤ length text.now }
{
    text.iter().take_while(|byte| is_word_byte(**byte)).count()
}

/// Returns whether words consist of a byte: an ASCII letter or digit, or a byte from 128 up.
fn is_word_byte(byte: u8) -> bool
    ensures { result ≡ is_word_byte byte }
{
    byte.is_ascii_alphanumeric() || byte >= 128
}

/// Returns the first bytes of a run, as many as a word may have.
fn front(run: &[u8]) -> &[u8]
    ensures { result.now ≡ take 64 run.now }
{
    if run.len() <= MAX_WORD_LEN {
        return run;
    }
    run.split_at(MAX_WORD_LEN).0
}
