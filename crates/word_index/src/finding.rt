//! Finds the rows that match a query.
//! Allocates.
ghost use Rattle.std.specs.Prelude.{◌≡◌, ◌++◌, IfOk, OnOk};
ghost use Rattle.std.specs.List.{filter};
ghost use Rattle.word_index.specs.Rows.{found, matching};
ghost use Rattle.word_index.specs.Kept.{keeps_at};
ghost use Rattle.word_index.specs.Tables.{rows_of, IsWordIndex, HoldsWords};
ghost use Rattle.word_index.specs.Asked.{matches_asked};

use crate::asking::{Asked, asked_by};
use crate::reading::is_match;
use crate::sources::{least_size, least_source, read};
use crate::tables::Tables;
use arch_base::{MessageNumbers, NoMemory};
use query_lang::Query;
use std::alloc::Global;

/// Returns the numbers of the rows that match a query, rising.
///
/// Of the lists that the query's words and days name, only the smallest is read; each of its rows
/// is then looked up in the others.
pub fn find(alloc: Global, tables: &Tables, query: &Query) -> Result<MessageNumbers, NoMemory>
    requires index { IsWordIndex tables.now }
    requires spelled { HoldsWords tables.now }
    ensures { IfOk result (λ numbers. numbers ≡ found query.now (rows_of tables.now)) }
{
    let asked = asked_by(alloc, &tables.words, query)?;
    let days = query.days.as_slice();
    let source = least_source(tables, asked.as_slice(), days);
    let numbers = read(alloc, tables, source)?;
    let mut found = MessageNumbers::new(alloc);
    append_matching(
        tables,
        numbers.as_slice(),
        asked.as_slice(),
        days,
        &mut found,
    )?;
    Ok(found)
}

/// Appends those of some numbers whose rows match a query. `NoMemory` may leave some of them
/// appended.
pub fn append_matches(
    alloc: Global,
    tables: &Tables,
    query: &Query,
    numbers: &[u32],
    into: &mut MessageNumbers,
) -> Result<(), NoMemory>
    requires index { IsWordIndex tables.now }
    requires spelled { HoldsWords tables.now }
    ensures { OnOk result (into.new
        ≡ into.old ++ filter (matching query.now (rows_of tables.now)) numbers.now) }
{
    let asked = asked_by(alloc, &tables.words, query)?;
    append_matching(
        tables,
        numbers,
        asked.as_slice(),
        query.days.as_slice(),
        into,
    )
}

/// Returns how many numbers `find` reads for a query, at least as many as it finds.
pub fn most_found(alloc: Global, tables: &Tables, query: &Query) -> Result<usize, NoMemory> {
    let asked = asked_by(alloc, &tables.words, query)?;
    Ok(least_size(tables, asked.as_slice(), query.days.as_slice()))
}

/// Appends those of some numbers whose rows have the words and the days. `NoMemory` may leave some
/// of them appended.
fn append_matching(
    tables: &Tables,
    numbers: &[u32],
    asked: &[Asked],
    days: &[u64],
    into: &mut MessageNumbers,
) -> Result<(), NoMemory>
    requires { IsWordIndex tables.now }
    ensures { OnOk result (into.new ≡ into.old
        ++ filter (keeps_at (matches_asked asked.now days.now) tables.now.rows.entries) numbers.now) }
{
    for n in numbers {
        if is_match(tables, asked, days, *n) {
            into.push(*n)?;
        }
    }
    Ok(())
}
