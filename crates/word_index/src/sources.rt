//! The smallest list of numbers in which all rows of an answer stand.
//! Allocates.
ghost use Rattle.std.specs.Prelude.{◌≡◌, ◌⊎◌, IfOk};
ghost use Rattle.word_index.specs.Kept.{keeps_at};
ghost use Rattle.word_index.specs.Postings.{IsListOf};
ghost use Rattle.word_index.specs.Tables.{IsWordIndex};
ghost use Rattle.word_index.specs.Sources.{passes, HasEachMatch, IsWordSource, IsDaySource};

use crate::asking::Asked;
use crate::reading::{all_rows, count_asked, count_days, numbers_on, numbers_with};
use crate::tables::Tables;
use arch_base::NoMemory;
use std::alloc::Global;

/// A list of numbers.
#[derive(Clone, Copy, Drop)]
pub enum Source<'a> {
    /// All rows.
    All,
    /// The rows of the days of a range.
    Days { first: u64, last: u64 },
    /// The rows that have a word where it is asked.
    Word(&'a Asked),
}

/// A list that may be read, and how many numbers it has.
#[derive(Clone, Copy, Drop)]
struct Choice<'a> {
    source: Source<'a>,
    size: usize,
}

impl<'a> Choice<'a> {
    /// Returns the smaller of two.
    fn or(self, other: Choice<'a>) -> Choice<'a>
        ensures { (result.source ≡ self.entry.source) ⊎ (result.source ≡ other.entry.source) }
    {
        if other.size < self.size { other } else { self }
    }
}

/// Returns the smallest list in which all rows stand that a query finds.
pub fn least_source<'a>(tables: &Tables, asked: &'a [Asked], days: &[u64]) -> Source<'a>
    ensures { HasEachMatch asked.now days.now result }
{
    least_choice(tables, asked, days).source
}

/// Returns how many numbers that list has at most.
pub fn least_size(tables: &Tables, asked: &[Asked], days: &[u64]) -> usize {
    least_choice(tables, asked, days).size
}

/// Returns the smallest list of those that a query names, and of all rows.
fn least_choice<'a>(tables: &Tables, asked: &'a [Asked], days: &[u64]) -> Choice<'a>
    ensures { HasEachMatch asked.now days.now result.source }
{
    let all = Choice {
        source: Source::All,
        size: tables.rows.len(),
    };
    let words = least_word(tables, asked, all);
    least_days(tables, days, words)
}

/// Returns the smallest of a list and those of the words that are asked.
fn least_word<'a>(tables: &Tables, asked: &'a [Asked], least: Choice<'a>) -> Choice<'a>
    ensures { (result.source ≡ least.entry.source) ⊎ IsWordSource asked.now result.source }
{
    let mut least = least;
    for word in asked {
        least = least.or(Choice {
            source: Source::Word(word),
            size: count_asked(tables, word),
        });
    }
    least
}

/// Returns the smallest of a list and those of the ranges of days that are asked.
fn least_days<'a>(tables: &Tables, days: &[u64], least: Choice<'a>) -> Choice<'a>
    ensures { (result.source ≡ least.entry.source) ⊎ IsDaySource days.now result.source }
{
    let mut least = least;
    let mut rest = days;
    while rest.len() >= 2 {
        least = with_days(tables, rest[0], rest[1], least);
        rest = rest.split_at(2).1;
    }
    least
}

/// Returns the smaller of a list and that of a range of days.
fn with_days<'a>(tables: &Tables, first: u64, last: u64, least: Choice<'a>) -> Choice<'a>
    ensures { (result.source ≡ least.entry.source) ⊎ (result.source ≡ Source.Days first last) }
{
    let size = count_days(tables, first, last, least.size);
    least.or(Choice {
        source: Source::Days { first, last },
        size,
    })
}

/// Returns the numbers of a list, rising.
pub fn read(alloc: Global, tables: &Tables, source: Source<'_>) -> Result<Vec<u32>, NoMemory>
    requires { IsWordIndex tables.now }
    ensures { IfOk result (λ found.
        IsListOf found.items (keeps_at (passes source.entry) tables.now.rows.entries)) }
{
    match source {
        Source::All => all_rows(alloc, tables),
        Source::Days { first, last } => numbers_on(alloc, tables, first, last),
        Source::Word(asked) => numbers_with(alloc, tables, asked),
    }
}
