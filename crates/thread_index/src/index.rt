//! The index of threads.
//! Allocates.
use crate::tables::Tables;
use arch_base::{MessageNumbers, NoMemory, Texts};
use std::alloc::Global;
use std::marker::Model;
use std::sync::ledger::Ledger;
use thread_model::Steps;

/// Rows with their keys, by the threads that these make.
///
/// Contracts see the rows by number, and the table of labels. Out of memory, `add` and `take` leave
/// an index that isn't whole: only `is_whole` and `clear` may be called then.
#[derive(Drop)]
pub struct ThreadIndex {
    alloc: Global,
    tables: Tables,
    whole: bool,
}

impl Model for ThreadIndex {
    ghost use Rattle.std.specs.Prelude.{◌≡◌, true};
    ghost use Rattle.thread_index.specs.Index.{Threads};

    ghost Value = { Threads };

    ghost use Rattle.thread_index.specs.Tables.{AreTables};

    ghost view = { λ t. record { whole = t.whole; rows = t.tables.rows.entries; labels = t.tables.labels } };

    ghost invariant = { λ t. t.whole ≡ true → AreTables t.tables };
}

impl ThreadIndex {
    ghost use Rattle.std.specs.Prelude.{◌≡◌, ◌≤◌, true, is_ok, [], IfOk, OnOk};
    ghost use Rattle.std.specs.Map.{remove_entry};
    ghost use Rattle.std.specs.BTreeMap.{insert_entry, is_at};
    ghost use Rattle.std.specs.Ordering.{nat_cmp};
    ghost use Rattle.thread_model.specs.Members.{Rises};
    ghost use Rattle.thread_model.specs.Threads.{AreThreads};
    ghost use Rattle.thread_model.specs.Labelling.{label_in};
    ghost use Rattle.thread_index.specs.Index.{IsCostOfAdd, IsCostOfTake, IsLabelOf, IsNew, members_of};

    /// Returns an index without rows. Allocates nothing.
    pub fn new(alloc: Global) -> Self
        ensures whole { result.whole ≡ true }
        ensures rows { result.rows ≡ [] }
    {
        ThreadIndex {
            alloc,
            tables: Tables::new(alloc),
            whole: true,
        }
    }

    /// Returns whether the index stands for its rows: it isn't whole after a call that ran out of
    /// memory, until it is cleared.
    pub fn is_whole(&self) -> bool
        ensures { result ≡ self.now.whole }
    {
        self.whole
    }

    /// Removes all rows.
    pub fn clear(&mut self)
        ensures whole { self.new.whole ≡ true }
        ensures rows { self.new.rows ≡ [] }
    {
        self.tables = Tables::new(self.alloc);
        self.whole = true;
    }

    /// Adds a row of a new number.
    ///
    /// Counts at most one step for it, and one for each row of the threads that it joins but the
    /// largest of them. `NoMemory` leaves an index that isn't whole.
    pub fn add<L: Ledger>(
        &mut self,
        n: u32,
        keys: &Texts,
        steps: &mut Steps<L>,
    ) -> Result<(), NoMemory>
        requires whole { self.old.whole ≡ true }
        requires new { IsNew self.old.rows n }
        ensures whole { self.new.whole ≡ is_ok result }
        ensures rows { OnOk result (self.new.rows ≡ insert_entry nat_cmp self.old.rows n keys.now) }
        ensures steps { OnOk result (IsCostOfAdd self.old.rows keys.now steps.old steps.new) }
    {
        self.whole = false;
        self.tables.add_row(self.alloc, n, keys, steps)?;
        self.whole = true;
        Ok(())
    }

    /// Takes the row of a number, if there is one.
    ///
    /// Counts at most one step for each row that its thread had. `NoMemory` leaves an index that
    /// isn't whole.
    pub fn take<L: Ledger>(&mut self, n: u32, steps: &mut Steps<L>) -> Result<(), NoMemory>
        requires { self.old.whole ≡ true }
        ensures whole { self.new.whole ≡ is_ok result }
        ensures rows { OnOk result (self.new.rows ≡ remove_entry (is_at (nat_cmp n)) self.old.rows) }
        ensures steps { OnOk result (IsCostOfTake self.old.rows n steps.old steps.new) }
        ensures missing { IsNew self.old.rows n → (self.new ≡ self.old) × (steps.new ≡ steps.old) }
    {
        if !self.tables.has_row(n) {
            return Ok(());
        }
        self.whole = false;
        self.tables.take_row(self.alloc, n, steps)?;
        self.whole = true;
        Ok(())
    }

    /// Returns the label of a row. Two rows have one label exactly where they are in one thread.
    pub fn label_of(&self, n: u32) -> Option<u32>
        requires { self.now.whole ≡ true }
        ensures value { IsLabelOf self.now.rows self.now.labels n result }
        ensures threads { AreThreads self.now.rows (label_in self.now.labels) }
    {
        self.tables.label_of(n)
    }

    /// Returns the numbers of the rows in the thread of a row, rising; none if there is no row of
    /// the number.
    pub fn members(&self, n: u32) -> Result<MessageNumbers, NoMemory>
        requires { self.now.whole ≡ true }
        ensures members { IfOk result (λ numbers. numbers ≡ members_of self.now.rows n) }
        ensures rising { IfOk result (λ numbers. Rises numbers) }
    {
        self.tables.members(self.alloc, n)
    }
}
