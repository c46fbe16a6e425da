//! Threads found by rounds over all rows.
ghost use Rattle.std.specs.Prelude.{◌≡◌, ◌==◌, ◌++◌, ◌∷◌, [], map, not, IfOk, OnOk, if◌then◌else◌};
ghost use Rattle.std.specs.List.{filter, list_any};
ghost use Rattle.thread_model.specs.Members.{has};
ghost use Rattle.thread_model.specs.Threads.{KeyedRow, reached, round, shares};
ghost use Rattle.thread_index.specs.Index.{keys_of_row, members_of};

use arch_base::{Bytes, MessageNumbers, NoMemory, Texts};
use std::alloc::Global;
use std::marker::Model;

/// A row: its number, and its keys.
type PlainRow = (u32, Texts);

/// Rows in the order in which they were added.
///
/// Each call that asks for a thread goes over all rows, as many times as there are rows.
#[derive(Drop)]
pub struct PlainThreads {
    rows: Vec<PlainRow>,
}

impl Model for PlainThreads {
    ghost use Rattle.std.specs.Prelude.{ℕ, List};

    ghost Value = { List (ℕ × List (List ℕ)) };

    ghost view = { λ p. p.rows.items };
}

impl PlainThreads {
    /// Returns no rows. Allocates nothing.
    pub fn new(alloc: Global) -> Self
        ensures { result ≡ [] }
    {
        PlainThreads {
            rows: Vec::new(alloc),
        }
    }

    /// Adds a row.
    pub fn add(&mut self, n: u32, keys: &Texts) -> Result<(), NoMemory>
        ensures { OnOk result (self.new ≡ self.old ++ (n, keys.now) ∷ []) }
    {
        let row = (n, keys.copy()?);
        self.rows.push(row)?;
        Ok(())
    }

    /// Takes all rows of a number.
    pub fn take(&mut self, n: u32)
        ensures { self.new ≡ filter (λ (r : KeyedRow). not (r.0 == n)) self.old }
    {
        leave(&mut self.rows, n);
    }

    /// Returns the numbers of the rows in the thread of a row, in the order of the rows.
    pub fn members(&self, alloc: Global, n: u32) -> Result<MessageNumbers, NoMemory>
        ensures { IfOk result (λ numbers. numbers ≡ members_of self.now n) }
    {
        let rows = self.rows.as_slice();
        let keys = keys_of(alloc, rows, n)?;
        let all = reach(rows, &keys)?;
        numbers_with(alloc, rows, &all)
    }
}

/// Removes the rows of a number.
fn leave(rows: &mut Vec<PlainRow>, n: u32)
    ensures { rows.new.items ≡ filter (λ (r : KeyedRow). not (r.0 == n)) rows.old.items }
{
    rows.retain(|row| row.0 != n);
}

/// Returns the keys of the first row of a number; none if there is no such row.
fn keys_of(alloc: Global, rows: &[PlainRow], n: u32) -> Result<Texts, NoMemory>
    ensures { IfOk result (λ keys. keys ≡ keys_of_row rows.now n) }
{
    for row in rows {
        if row.0 == n {
            return row.1.copy();
        }
    }
    Ok(Texts::new(alloc))
}

/// Returns whether a key is one of some keys.
fn has_key(keys: &[Bytes], key: &[u8]) -> bool
    ensures { result ≡ has keys.now key.now }
{
    for k in keys {
        if k.as_slice() == key {
            return true;
        }
    }
    false
}

/// Returns whether a row has one of some keys.
fn shares_key(keys: &[Bytes], row: &[Bytes]) -> bool
    ensures { result ≡ list_any (has keys.now) row.now }
{
    for key in row {
        if has_key(keys, key.as_slice()) {
            return true;
        }
    }
    false
}

/// Appends keys.
fn push_all(keys: &mut Texts, more: &[Bytes]) -> Result<(), NoMemory>
    ensures { OnOk result (keys.new ≡ keys.old ++ more.now) }
{
    for key in more {
        keys.push(key.copy()?)?;
    }
    Ok(())
}

/// Appends the keys of a row, if it has one of some keys.
fn push_shared(next: &mut Texts, keys: &[Bytes], row: &[Bytes]) -> Result<(), NoMemory>
    ensures { OnOk result (next.new ≡ (if list_any (has keys.now) row.now then next.old ++ row.now
        else next.old)) }
{
    if !shares_key(keys, row) {
        return Ok(());
    }
    push_all(next, row)
}

/// Returns the keys after one round.
fn next_round(rows: &[PlainRow], keys: &Texts) -> Result<Texts, NoMemory>
    ensures { IfOk result (λ next. next ≡ round rows.now keys.now) }
{
    let mut next = keys.copy()?;
    for row in rows {
        push_shared(&mut next, keys.as_slice(), row.1.as_slice())?;
    }
    Ok(next)
}

/// Returns the keys that are reached from some keys.
fn reach(rows: &[PlainRow], keys: &Texts) -> Result<Texts, NoMemory>
    ensures { IfOk result (λ all. all ≡ reached rows.now keys.now) }
{
    let mut all = keys.copy()?;
    let mut made = 0;
    while made < rows.len() {
        all = next_round(rows, &all)?;
        made += 1;
    }
    Ok(all)
}

/// Appends the number of a row, if it has one of some keys.
fn push_number(numbers: &mut MessageNumbers, keys: &[Bytes], row: &PlainRow) -> Result<(), NoMemory>
    ensures { OnOk result (numbers.new ≡ (if shares keys.now row.now then numbers.old ++ row.now.0
        ∷ [] else numbers.old)) }
{
    if !shares_key(keys, row.1.as_slice()) {
        return Ok(());
    }
    numbers.push(row.0)
}

/// Returns the numbers of the rows that have one of some keys.
fn numbers_with(alloc: Global, rows: &[PlainRow], keys: &Texts) -> Result<MessageNumbers, NoMemory>
    ensures { IfOk result (λ numbers. numbers ≡ map (λ (r : KeyedRow). r.0)
        (filter (shares keys.now) rows.now)) }
{
    let mut numbers = MessageNumbers::new(alloc);
    for row in rows {
        push_number(&mut numbers, keys.as_slice(), row)?;
    }
    Ok(numbers)
}
