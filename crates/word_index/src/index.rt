//! The index.
//! Allocates.
ghost use Rattle.std.specs.List.{filter};
ghost use Rattle.std.specs.Prelude.{◌≡◌, ◌++◌, [], is_some, None, IfOk, OnOk, OnErr};
ghost use Rattle.std.specs.Ordering.{nat_cmp};
ghost use Rattle.std.specs.BTreeMap.{insert_entry, is_at};
ghost use Rattle.std.specs.Map.{remove_entry};
ghost use Rattle.word_index.specs.Rows.{row_at, found, matching};

use crate::finding::{append_matches, find, most_found};
use crate::tables::Tables;
use arch_base::{MessageNumbers, NoMemory};
use query_lang::Query;
use std::alloc::Global;
use std::marker::Model;
use text_words::WordLists;

/// An index of rows by their words and days.
///
/// A contract sees it as the list of its rows, by number: the words and the day of each.
#[derive(Drop)]
pub struct WordIndex {
    alloc: Global,
    tables: Tables,
}

impl Model for WordIndex {
    ghost use Rattle.std.specs.Prelude.{ℕ, List};
    ghost use Rattle.word_index.specs.Rows.{WordRow};
    ghost use Rattle.word_index.specs.Tables.{rows_of, IsWordIndex, HoldsWords};

    ghost Value = { List (ℕ × WordRow) };

    ghost view = { λ i. rows_of i.tables };

    ghost invariant = { λ i. IsWordIndex i.tables × HoldsWords i.tables };
}

impl WordIndex {
    /// Returns an index without rows. Allocates nothing.
    pub fn new(alloc: Global) -> WordIndex
        ensures { result ≡ [] }
    {
        WordIndex {
            alloc,
            tables: Tables::new(alloc),
        }
    }

    /// Returns whether a number has a row.
    pub fn contains(&self, n: u32) -> bool
        ensures { result ≡ is_some (row_at self.now n) }
    {
        self.tables.rows.contains_key(&n)
    }

    /// Adds a row: its words, and its day in UTC, counted from 0 for 1 January 1970.
    ///
    /// `NoMemory` leaves the index unchanged.
    pub fn add(&mut self, n: u32, words: &WordLists, day: u64) -> Result<(), NoMemory>
        requires { row_at self.old n ≡ None }
        ensures ok { OnOk result (self.new ≡ insert_entry nat_cmp self.old n
            (record { words = words.now; day = day })) }
        ensures err { OnErr result (self.new ≡ self.old) }
    {
        self.tables.add(n, words, day)
    }

    /// Removes a row, and returns whether it was there.
    pub fn take(&mut self, n: u32) -> bool
        ensures found { result ≡ is_some (row_at self.old n) }
        ensures taken { self.new ≡ remove_entry (is_at (nat_cmp n)) self.old }
    {
        self.tables.take(n)
    }

    /// Returns the numbers of the rows that match a query, rising. `NoMemory` if an allocation
    /// fails.
    pub fn find(&self, query: &Query) -> Result<MessageNumbers, NoMemory>
        ensures { IfOk result (λ numbers. numbers ≡ found query.now self.now) }
    {
        find(self.alloc, &self.tables, query)
    }

    /// Appends those of some numbers whose rows match a query, in their order. A look-up each for
    /// the row and each word.
    ///
    /// `NoMemory` if an allocation fails. It may leave some of them appended.
    pub fn append_matches(
        &self,
        query: &Query,
        numbers: &[u32],
        into: &mut MessageNumbers,
    ) -> Result<(), NoMemory>
        ensures { OnOk result (into.new
            ≡ into.old ++ filter (matching query.now self.now) numbers.now) }
    {
        append_matches(self.alloc, &self.tables, query, numbers, into)
    }

    /// Returns how many numbers `find` looks up for a query. It finds no more, but may find fewer.
    ///
    /// This says only what a search costs. `NoMemory` if an allocation fails.
    pub fn most_found(&self, query: &Query) -> Result<usize, NoMemory> {
        most_found(self.alloc, &self.tables, query)
    }
}
