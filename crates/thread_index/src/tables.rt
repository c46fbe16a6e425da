//! The tables of an index of threads, and what a new and a taken row change in them.
//! Allocates.
ghost use Rattle.std.specs.Prelude.{◌≡◌, [], IfOk, OnOk};
ghost use Rattle.std.specs.Bool.{MatchBool};
ghost use Rattle.std.specs.Map.{remove_entry};
ghost use Rattle.std.specs.BTreeMap.{insert_entry, is_at};
ghost use Rattle.std.specs.Ordering.{nat_cmp};

use crate::adding::{append, gather, hold, relabel, target_of};
use crate::dividing::{Rows, divide};
use crate::lists::{ListsByKey, ListsByNumber, list_of, list_of_key, take_list};
use crate::rising::in_order;
use crate::taking::{let_go, others};
use arch_base::{Bytes, MessageNumbers, NoMemory, Texts};
use std::alloc::Global;
use std::collections::BTreeMap;
use std::sync::ledger::Ledger;
use thread_model::{LabelTable, Steps};

/// The tables of an index.
#[derive(Drop)]
pub(crate) struct Tables {
    /// The keys of each row.
    pub(crate) rows: Rows,
    /// The label of each row.
    pub(crate) labels: LabelTable,
    /// The rows of each label.
    pub(crate) members: ListsByNumber,
    /// The rows that have each key.
    pub(crate) holders: ListsByKey,
}

impl Tables {
    ghost use Rattle.thread_model.specs.Members.{Rises};
    ghost use Rattle.thread_model.specs.Labelling.{IsTouched, label_in};
    ghost use Rattle.thread_index.specs.Adding.{NotesLabel};
    ghost use Rattle.thread_index.specs.Index.{IsCostOfAdd, IsCostOfTake, IsLabelOf, IsNew, ListsThread, members_of};
    ghost use Rattle.thread_index.specs.Tables.{AreTables, IsLabelOfKey};

    /// Returns tables without rows. Allocates nothing.
    pub(crate) fn new(alloc: Global) -> Self
        ensures rows { result.rows.entries ≡ [] }
        ensures index { AreTables result }
    {
        Tables {
            rows: BTreeMap::new(alloc),
            labels: LabelTable::new(alloc),
            members: BTreeMap::new(alloc),
            holders: BTreeMap::new(alloc),
        }
    }

    /// Returns whether there is a row of a number.
    pub(crate) fn has_row(&self, n: u32) -> bool
        ensures { MatchBool result (IsNew self.now.rows.entries n → ⊥)
            (IsNew self.now.rows.entries n) }
    {
        self.rows.contains_key(&n)
    }

    /// Returns the label of a row.
    pub(crate) fn label_of(&self, n: u32) -> Option<u32>
        requires { AreTables self.now }
        ensures { IsLabelOf self.now.rows.entries self.now.labels n result }
    {
        if !self.has_row(n) {
            return None;
        }
        self.labels.get(n)
    }

    /// Returns the rows in the thread of a row, in the order of its list; none if there is no row of
    /// the number, or if it has no keys.
    fn thread_list(&self, n: u32) -> &[u32]
        requires { AreTables self.now }
        ensures { ListsThread self.now.rows.entries n result.now }
    {
        let Some(keys) = self.rows.get(&n) else {
            return &[];
        };
        if keys.as_slice().is_empty() {
            return &[];
        }
        list_of(&self.members, self.labels.get(n).unwrap_or(0))
    }

    /// Returns the rows in the thread of a row, in rising order.
    pub(crate) fn members(&self, alloc: Global, n: u32) -> Result<MessageNumbers, NoMemory>
        requires { AreTables self.now }
        ensures members { IfOk result (λ numbers. numbers ≡ members_of self.now.rows.entries n) }
        ensures rising { IfOk result (λ numbers. Rises numbers) }
    {
        let _count = self.rows.len();
        in_order(alloc, self.thread_list(n))
    }

    /// Returns the label of the rows that have a key.
    fn label_of_key(&self, key: &[u8]) -> Option<u32>
        requires { AreTables self.now }
        ensures { IsLabelOfKey self.now.rows.entries self.now.labels key.now result }
    {
        let first = list_of_key(&self.holders, key).first()?;
        self.labels.get(*first)
    }

    /// Notes the label of the rows that have a key, if there are some.
    fn note_label(&self, found: &mut Vec<u32>, key: &[u8]) -> Result<(), NoMemory>
        requires { AreTables self.now }
        ensures { OnOk result (NotesLabel self.now.rows.entries self.now.labels key.now
            found.old.items found.new.items) }
    {
        let Some(label) = self.label_of_key(key) else {
            return Ok(());
        };
        found.push(label)?;
        Ok(())
    }

    /// Returns the labels of the rows that have one of some keys.
    fn touched(&self, alloc: Global, keys: &[Bytes]) -> Result<Vec<u32>, NoMemory>
        requires { AreTables self.now }
        ensures { IfOk result (λ found. IsTouched self.now.rows.entries (label_in self.now.labels)
            keys.now found.items) }
    {
        let mut found = Vec::new(alloc);
        for key in keys {
            self.note_label(&mut found, key.as_slice())?;
        }
        Ok(found)
    }

    /// Adds a row of a new number.
    ///
    /// The threads of its keys get the label of the one with the most rows. `NoMemory` may leave
    /// the tables without meaning.
    pub(crate) fn add_row<L: Ledger>(
        &mut self,
        alloc: Global,
        n: u32,
        keys: &Texts,
        steps: &mut Steps<L>,
    ) -> Result<(), NoMemory>
        requires index { AreTables self.old }
        requires new { IsNew self.old.rows.entries n }
        ensures index { OnOk result (AreTables self.new) }
        ensures rows { OnOk result (self.new.rows.entries ≡ insert_entry nat_cmp
            self.old.rows.entries n keys.now) }
        ensures steps { OnOk result (IsCostOfAdd self.old.rows.entries keys.now steps.old
            steps.new) }
    {
        let row = keys.copy()?;
        let touched = self.touched(alloc, keys.as_slice())?;
        let target = target_of(&self.members, touched.as_slice(), n);
        let mut moved = gather(alloc, &mut self.members, touched.as_slice(), target)?;
        moved.push(n)?;
        relabel(&mut self.labels, moved.as_slice(), target, steps)?;
        append(alloc, &mut self.members, target, moved.as_slice())?;
        hold(alloc, &mut self.holders, keys.as_slice(), n)?;
        self.rows.insert(n, row)?;
        Ok(())
    }

    /// Takes a row, if there is one of the number, and divides its thread again.
    ///
    /// `NoMemory` may leave the tables without meaning.
    pub(crate) fn take_row<L: Ledger>(
        &mut self,
        alloc: Global,
        n: u32,
        steps: &mut Steps<L>,
    ) -> Result<(), NoMemory>
        requires { AreTables self.old }
        ensures index { OnOk result (AreTables self.new) }
        ensures rows { OnOk result (self.new.rows.entries ≡ remove_entry (is_at (nat_cmp n))
            self.old.rows.entries) }
        ensures steps { OnOk result (IsCostOfTake self.old.rows.entries n steps.old steps.new) }
    {
        let Some(row) = self.rows.remove(&n) else {
            return Ok(());
        };
        let label = self.labels.get(n).unwrap_or(0);
        let list = take_list(alloc, &mut self.members, label);
        let pending = others(alloc, list.as_slice(), n)?;
        let_go(alloc, &mut self.holders, row.as_slice(), n)?;
        divide(
            alloc,
            &self.rows,
            &self.holders,
            &mut self.labels,
            &mut self.members,
            pending,
            steps,
        )?;
        Ok(())
    }
}
