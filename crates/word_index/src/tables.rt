//! The tables of an index: its rows, and by words and days their numbers.
//! Allocates.
ghost use Rattle.std.specs.Prelude.{◌≡◌, [], is_some, None, OnOk, OnErr};
ghost use Rattle.std.specs.Ordering.{nat_cmp};
ghost use Rattle.std.specs.BTreeMap.{insert_entry, is_at};
ghost use Rattle.std.specs.Map.{remove_entry};
ghost use Rattle.word_index.specs.Rows.{row_at};
ghost use Rattle.word_index.specs.Kept.{kept_at};
ghost use Rattle.word_index.specs.Tables.{rows_of, IsWordIndex, HoldsWords, IsPosted, IsPartlyPosted, Keeps, SameRows};

use crate::postings::Postings;
use crate::rows::{Dated, KeptRow};
use crate::vocabulary::Vocabulary;
use arch_base::NoMemory;
use std::alloc::Global;
use std::collections::{BTreeMap, BTreeSet};
use text_words::WordLists;

/// The rows of an index, and their numbers by words and by days.
#[derive(Drop)]
pub struct Tables {
    /// All words that a row has or had, so that each stands once.
    pub words: Vocabulary,
    /// The rows by the words of their subjects.
    pub subject: Postings,
    /// The rows by the words of their From fields.
    pub from: Postings,
    /// The rows by the words of their bodies.
    pub body: Postings,
    /// The rows by their days.
    pub days: BTreeSet<Dated>,
    /// The rows.
    pub rows: BTreeMap<u32, KeptRow>,
}

impl Tables {
    /// Returns tables without rows. Allocates nothing.
    pub fn new(alloc: Global) -> Tables
        ensures index { IsWordIndex result }
        ensures spelled { HoldsWords result }
        ensures rows { rows_of result ≡ [] }
    {
        Tables {
            words: Vocabulary::new(alloc),
            subject: Postings::new(alloc),
            from: Postings::new(alloc),
            body: Postings::new(alloc),
            days: BTreeSet::new(alloc),
            rows: BTreeMap::new(alloc),
        }
    }

    /// Adds a row. `NoMemory` leaves the rows as they were.
    pub fn add(&mut self, n: u32, words: &WordLists, day: u64) -> Result<(), NoMemory>
        requires index { IsWordIndex self.old }
        requires spelled { HoldsWords self.old }
        requires new { row_at (rows_of self.old) n ≡ None }
        ensures index { IsWordIndex self.new }
        ensures spelled { HoldsWords self.new }
        ensures ok { OnOk result (rows_of self.new ≡ insert_entry nat_cmp (rows_of self.old) n
            (record { words = words.now; day = day })) }
        ensures err { OnErr result (rows_of self.new ≡ rows_of self.old) }
    {
        let row = KeptRow::of(&mut self.words, words, day)?;
        if let Err(refused) = self.post(n, &row) {
            self.unpost(n, &row);
            return Err(refused);
        }
        self.keep(n, row)
    }

    /// Removes a row, and returns whether it was there.
    pub fn take(&mut self, n: u32) -> bool
        requires index { IsWordIndex self.old }
        requires spelled { HoldsWords self.old }
        ensures index { IsWordIndex self.new }
        ensures spelled { HoldsWords self.new }
        ensures found { result ≡ is_some (row_at (rows_of self.old) n) }
        ensures taken { rows_of self.new ≡ remove_entry (is_at (nat_cmp n)) (rows_of self.old) }
    {
        let Some(row) = self.rows.remove(&n) else {
            return false;
        };
        self.unpost(n, &row);
        true
    }

    /// Adds the number of a row to those of its words and of its day.
    ///
    /// `NoMemory` may leave it added to some of them.
    fn post(&mut self, n: u32, row: &KeptRow) -> Result<(), NoMemory>
        requires { IsWordIndex self.old }
        ensures ok { OnOk result (IsPosted self.new n row.now) }
        ensures err { OnErr result (IsPartlyPosted self.new n row.now) }
        ensures rows { SameRows self.old self.new }
    {
        self.subject.put_all(row.subject.as_slice(), n)?;
        self.from.put_all(row.from.as_slice(), n)?;
        self.body.put_all(row.body.as_slice(), n)?;
        self.days.insert(row.dated(n))?;
        Ok(())
    }

    /// Keeps a row whose number is posted.
    ///
    /// `NoMemory` removes its number again, and leaves the rows as they were.
    fn keep(&mut self, n: u32, row: KeptRow) -> Result<(), NoMemory>
        requires posted { IsPosted self.old n row }
        requires new { kept_at self.old.rows.entries n ≡ None }
        ensures index { IsWordIndex self.new }
        ensures ok { OnOk result (Keeps self.old self.new n row) }
        ensures err { OnErr result (self.new.rows.entries ≡ self.old.rows.entries) }
        ensures words { self.new.words ≡ self.old.words }
    {
        match self.rows.insert(n, row) {
            Ok(_) => Ok(()),
            Err(refused) => {
                let (_, row) = refused.value;
                self.unpost(n, &row);
                Err(NoMemory)
            }
        }
    }

    /// Removes the number of a row that isn't kept from those of its words and of its day.
    fn unpost(&mut self, n: u32, row: &KeptRow)
        requires posted { IsPartlyPosted self.old n row.now }
        requires new { kept_at self.old.rows.entries n ≡ None }
        ensures index { IsWordIndex self.new }
        ensures rows { SameRows self.old self.new }
    {
        self.subject.remove_all(row.subject.as_slice(), n);
        self.from.remove_all(row.from.as_slice(), n);
        self.body.remove_all(row.body.as_slice(), n);
        let _ = self.days.remove(&row.dated(n));
    }
}
