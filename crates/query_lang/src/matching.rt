//! Which messages match a query.
//! Pure.
ghost use Rattle.std.specs.Prelude.{◌≡◌};
ghost use Rattle.std.specs.List.{list_all};
ghost use Rattle.query_lang.specs.Matching.{has_word, has_in, is_between, in_ranges, matches};

use crate::query::Query;
use arch_base::Bytes;
use text_words::{PackedWords, WordLists};

/// Where a word is asked.
#[derive(Debug, Clone, Copy, PartialEq, Eq)]
pub enum Field {
    /// In any of the three fields.
    Any,
    /// In the subject.
    Subject,
    /// In the first From field.
    From,
    /// In the text leaves.
    Body,
}

/// Returns whether a message with these words, of this day, matches a query: it has each word in
/// the field in which the query asks it, and its day lies in each range.
///
/// The day is that of its date in UTC, counted from 0 for 1 January 1970.
pub fn matches(query: &Query, words: &WordLists, day: u64) -> bool
    ensures { result ≡ matches query.now words.now day }
{
    has_all(Field::Any, words, query.any.as_slice())
        && has_all(Field::Subject, words, query.subject.as_slice())
        && has_all(Field::From, words, query.from.as_slice())
        && has_all(Field::Body, words, query.body.as_slice())
        && in_ranges(query.days.as_slice(), day)
}

/// Returns whether a day lies in each range. Each two numbers are a first and a last day; a number
/// that is left over asks nothing.
pub fn in_ranges(days: &[u64], day: u64) -> bool
    ensures { result ≡ in_ranges days.now day }
{
    let mut rest = days;
    while rest.len() >= 2 {
        if !is_between(day, rest[0], rest[1]) {
            return false;
        }
        rest = rest.split_at(2).1;
    }
    true
}

/// Returns whether a day lies in a range.
fn is_between(day: u64, first: u64, last: u64) -> bool
    ensures { result ≡ is_between day first last }
{
    first <= day && day <= last
}

/// Returns whether each word is there.
fn has_all(field: Field, words: &WordLists, asked: &[Bytes]) -> bool
    ensures { result ≡ list_all (has_in field words.now) asked.now }
{
    asked
        .iter()
        .all(|word| has_in(field, words, word.as_slice()))
}

/// Returns whether a word is there.
fn has_in(field: Field, words: &WordLists, word: &[u8]) -> bool
    ensures { result ≡ has_in field words.now word.now }
{
    let (subject, from, body) = (&words.subject, &words.from, &words.body);
    match field {
        Field::Any => has_word(subject, word) || has_word(from, word) || has_word(body, word),
        Field::Subject => has_word(subject, word),
        Field::From => has_word(from, word),
        Field::Body => has_word(body, word),
    }
}

/// Returns whether a word is one of some words.
fn has_word(words: &PackedWords, word: &[u8]) -> bool
    ensures { result ≡ has_word words.now word.now }
{
    for index in 0..words.len() {
        if words.get(index) == word {
            return true;
        }
    }
    false
}
