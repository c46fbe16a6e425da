//! Reads numbers of rows from the tables of an index.
//! Allocates.
ghost use Rattle.std.specs.Prelude.{◌≡◌, ◌||◌, true, IfOk};
ghost use Rattle.std.specs.List.{list_any, list_all};
ghost use Rattle.std.specs.List.Sorted.{IsStrictlySortedBy};
ghost use Rattle.std.specs.Ordering.{nat_cmp};
ghost use Rattle.std.specs.BTreeMap.{is_at, keys};
ghost use Rattle.word_index.specs.Kept.{keeps_at};
ghost use Rattle.word_index.specs.Postings.{posted, IsListOf};
ghost use Rattle.word_index.specs.Tables.{IsWordIndex};
ghost use Rattle.word_index.specs.Asked.{listed_in, is_listed, matches_asked};
ghost use Rattle.word_index.specs.Days.{dated_cmp, is_within, numbers_between};

use crate::asking::Asked;
use crate::postings::Postings;
use crate::rows::Dated;
use crate::tables::Tables;
use arch_base::NoMemory;
use query_lang::{Field, in_ranges};
use std::alloc::{AllocError, Global};
use std::collections::BTreeSet;

/// Returns whether a row has a word where it is asked.
pub fn is_listed(tables: &Tables, asked: &Asked, n: u32) -> bool
    ensures { result ≡ is_listed tables.now asked.now n }
{
    match asked.word {
        Some(word) => is_listed_in(tables, asked.field, word, n),
        None => false,
    }
}

/// Returns whether a row has a word there.
fn is_listed_in(tables: &Tables, field: Field, word: u32, n: u32) -> bool
    ensures { result ≡ listed_in field tables.now word n }
{
    match field {
        Field::Any => {
            tables.subject.has(word, n) || tables.from.has(word, n) || tables.body.has(word, n)
        }
        Field::Subject => tables.subject.has(word, n),
        Field::From => tables.from.has(word, n),
        Field::Body => tables.body.has(word, n),
    }
}

/// Returns whether a row has all words that are asked, and is of a day that is.
pub fn is_match(tables: &Tables, asked: &[Asked], days: &[u64], n: u32) -> bool
    requires { IsWordIndex tables.now }
    ensures { result ≡ keeps_at (matches_asked asked.now days.now) tables.now.rows.entries n }
{
    match tables.rows.get(&n) {
        Some(row) => has_all(tables, asked, n) && in_ranges(days, row.day),
        None => false,
    }
}

/// Returns whether a row has all words that are asked.
fn has_all(tables: &Tables, asked: &[Asked], n: u32) -> bool
    ensures { result ≡ list_all (λ a. is_listed tables.now a n) asked.now }
{
    asked.iter().all(|asked| is_listed(tables, asked, n))
}

/// Returns how many rows have a word where it is asked. A row that has it in two fields counts
/// twice.
pub fn count_asked(tables: &Tables, asked: &Asked) -> usize {
    let Some(word) = asked.word else {
        return 0;
    };
    let subject = tables.subject.count(word);
    let from = tables.from.count(word);
    let body = tables.body.count(word);
    match asked.field {
        Field::Any => subject.saturating_add(from).saturating_add(body),
        Field::Subject => subject,
        Field::From => from,
        Field::Body => body,
    }
}

/// Returns how many rows are of the days of a range, or `limit` if there are as many or more.
pub fn count_days(tables: &Tables, first: u64, last: u64, limit: usize) -> usize {
    tables
        .days
        .range(first_of(first)..)
        .take_while(|at| at.day <= last)
        .take(limit)
        .count()
}

/// Returns the first value that a day may have.
fn first_of(day: u64) -> Dated
    ensures { result ≡ record { day = day; number = 0 } }
{
    Dated { day, number: 0 }
}

/// Returns the numbers of all rows, rising.
pub fn all_rows(alloc: Global, tables: &Tables) -> Result<Vec<u32>, NoMemory>
    requires { IsWordIndex tables.now }
    ensures { IfOk result (λ found.
        IsListOf found.items (keeps_at (λ row. true) tables.now.rows.entries)) }
{
    Ok(all_numbers(alloc, tables)?)
}

/// Returns the keys of the rows.
fn all_numbers(alloc: Global, tables: &Tables) -> Result<Vec<u32>, AllocError>
    ensures { IfOk result (λ found. found.items ≡ keys tables.now.rows) }
{
    tables.rows.keys().copied().collect(alloc)
}

/// Returns the numbers of the rows that are of the days of a range, rising.
pub fn numbers_on(
    alloc: Global,
    tables: &Tables,
    first: u64,
    last: u64,
) -> Result<Vec<u32>, NoMemory>
    requires { IsWordIndex tables.now }
    ensures { IfOk result (λ found.
        IsListOf found.items (keeps_at (is_within first last) tables.now.rows.entries)) }
{
    let dated = dated_between(alloc, &tables.days, first, last)?;
    Ok(sorted(dated))
}

/// Returns some numbers, rising and each once.
fn sorted(numbers: Vec<u32>) -> Vec<u32>
    ensures { IsListOf result.items (λ n. list_any (is_at (nat_cmp n)) numbers.items) }
{
    let mut numbers = numbers;
    numbers.sort_unstable();
    numbers.dedup();
    numbers
}

/// Returns the numbers of the rows that are of the days of a range, by their days.
fn dated_between(
    alloc: Global,
    days: &BTreeSet<Dated>,
    first: u64,
    last: u64,
) -> Result<Vec<u32>, AllocError>
    ensures numbers { IfOk result (λ found. found.items ≡ numbers_between days.now first last) }
    ensures ordered { IsStrictlySortedBy dated_cmp days.now.keys }
{
    days.range(first_of(first)..)
        .take_while(|dated| dated.day <= last)
        .map(|dated| dated.number)
        .collect(alloc)
}

/// Returns the numbers of the rows that have a word where it is asked, rising.
pub fn numbers_with(alloc: Global, tables: &Tables, asked: &Asked) -> Result<Vec<u32>, NoMemory>
    ensures { IfOk result (λ found. IsListOf found.items (is_listed tables.now asked.now)) }
{
    match asked.word {
        Some(word) => numbers_there(tables, asked.field, word),
        None => Ok(Vec::new(alloc)),
    }
}

/// Returns the numbers of the rows that have a word there, rising.
fn numbers_there(tables: &Tables, field: Field, word: u32) -> Result<Vec<u32>, NoMemory>
    ensures { IfOk result (λ found. IsListOf found.items (listed_in field tables.now word)) }
{
    match field {
        Field::Any => numbers_anywhere(tables, word),
        Field::Subject => numbers_in(&tables.subject, word),
        Field::From => numbers_in(&tables.from, word),
        Field::Body => numbers_in(&tables.body, word),
    }
}

/// Returns the numbers of the rows that have a word in one field, rising.
fn numbers_in(postings: &Postings, word: u32) -> Result<Vec<u32>, NoMemory>
    ensures { IfOk result (λ found. IsListOf found.items (posted postings.now word)) }
{
    Ok(postings.numbers(word)?)
}

/// Returns the numbers of the rows that have a word in any field, rising.
fn numbers_anywhere(tables: &Tables, word: u32) -> Result<Vec<u32>, NoMemory>
    ensures { IfOk result (λ found. IsListOf found.items (listed_in Field.Any tables.now word)) }
{
    let mut found = tables.subject.numbers(word)?;
    let from = tables.from.numbers(word)?;
    found.extend_from_slice(from.as_slice())?;
    let body = tables.body.numbers(word)?;
    found.extend_from_slice(body.as_slice())?;
    Ok(sorted(found))
}
