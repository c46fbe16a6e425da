//! Reads sets of numbers (RFC 3501, section 9, sequence-set).
//! Allocates.
ghost use Rattle.std.specs.Prelude.{◌≡◌, ◌∷◌};
ghost use Rattle.imap_words.specs.Reading.{Obtains};
ghost use Rattle.imap_words.specs.Words.{words_at};
ghost use Rattle.imap_syntax.specs.Sets.{end_of, range_of_words, range_of, set_of, set_at, set_argument_at, SpellsSet};

use crate::sets::{SeqSet, SetEnd, SetRange};
use arch_base::Sequence;
use imap_words::{Cursor, Kind, Stop, read_nz_number, split};
use std::alloc::Global;

/// Takes a space and a set.
#[tactic(auto, unfolding(crate::specs::Sets::set_argument_at))]
pub(crate) fn set_argument(cursor: &mut Cursor<'_>) -> Result<SeqSet, Stop>
    ensures { Obtains cursor.new result (set_argument_at cursor.old) }
{
    cursor.byte(b' ')?;
    set(cursor)
}

/// Takes a set.
#[tactic(auto, unfolding(crate::specs::Sets::set_at))]
pub(crate) fn set(cursor: &mut Cursor<'_>) -> Result<SeqSet, Stop>
    ensures { Obtains cursor.new result (set_at cursor.old) }
{
    let word = cursor.run(Kind::Set)?;
    read_set(cursor.alloc(), word)
}

/// Returns the set that a word spells: ranges with commas between them.
#[tactic(auto, unfolding(crate::specs::Sets::set_of))]
fn read_set(alloc: Global, word: &[u8]) -> Result<SeqSet, Stop>
    ensures { SpellsSet result (set_of word.now) }
{
    let mut ranges = Sequence::new(alloc);
    let mut rest = word;
    loop {
        let (first, others) = split(b',', rest);
        match read_range(first) {
            None => return Err(Stop::Bad),
            Some(range) => ranges.push(range)?,
        }
        match others {
            None => return Ok(SeqSet::new(ranges)),
            Some(others) => rest = others,
        }
    }
}

/// Returns the range that a word spells: one end, or two with a colon between them.
#[tactic(auto, unfolding(crate::specs::Sets::range_of))]
fn read_range(word: &[u8]) -> Option<SetRange>
    ensures { result ≡ range_of word.now }
{
    let (first, rest) = split(b':', word);
    match rest {
        None => {
            let only = read_end(first)?;
            Some(SetRange {
                first: only,
                last: only,
            })
        }
        Some(rest) => two_ends(first, rest),
    }
}

/// Returns the range whose first end is a word, and whose other end is a text without colons.
fn two_ends(first: &[u8], text: &[u8]) -> Option<SetRange>
    ensures { result ≡ range_of_words (first.now ∷ words_at 58 text.now) }
{
    let (last, others) = split(b':', text);
    match others {
        Some(_) => None,
        None => {
            let first = read_end(first)?;
            let last = read_end(last)?;
            Some(SetRange { first, last })
        }
    }
}

/// Returns the end of a range that a word spells: `*`, or a number that doesn't start with a zero.
fn read_end(word: &[u8]) -> Option<SetEnd>
    ensures { result ≡ end_of word.now }
{
    match word {
        [] => None,
        [b'*'] => Some(SetEnd::Greatest),
        _ => {
            let n = read_nz_number(word)?;
            Some(SetEnd::Number(n))
        }
    }
}
