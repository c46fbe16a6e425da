//! A table of labels of numbers.
//! Allocates.
ghost use Rattle.std.specs.Prelude.{◌≡◌, ◌+◌, [], OnOk, OnErr};
ghost use Rattle.thread_model.specs.Labelling.{Sets, label_at};

use crate::steps::Steps;
use arch_base::NoMemory;
use std::alloc::Global;
use std::collections::BTreeMap;
use std::marker::Model;
use std::sync::ledger::Ledger;

/// A table of labels of numbers. Contracts see it as its entries, by number.
#[derive(Drop)]
pub struct LabelTable {
    labels: BTreeMap<u32, u32>,
}

impl Model for LabelTable {
    ghost use Rattle.std.specs.Prelude.{ℕ, List};

    ghost Value = { List (ℕ × ℕ) };

    ghost view = { λ t. t.labels.entries };
}

impl LabelTable {
    /// Returns a table without labels. Allocates nothing.
    pub fn new(alloc: Global) -> Self
        ensures { result ≡ [] }
    {
        LabelTable {
            labels: BTreeMap::new(alloc),
        }
    }

    /// Returns the label of a number.
    pub fn get(&self, n: u32) -> Option<u32>
        ensures { result ≡ label_at self.now n }
    {
        self.labels.get(&n).copied()
    }

    /// Gives a number a label, in one step.
    ///
    /// `NoMemory` leaves the table unchanged, but the step is counted.
    pub fn set<L: Ledger>(
        &mut self,
        n: u32,
        label: u32,
        steps: &mut Steps<L>,
    ) -> Result<(), NoMemory>
        ensures set { OnOk result (Sets self.old self.new n label) }
        ensures err { OnErr result (self.new ≡ self.old) }
        ensures steps { steps.new ≡ steps.old + 1 }
    {
        steps.tick();
        self.labels.insert(n, label)?;
        Ok(())
    }
}
