//! What it costs to add a row that joins a thread of four rows with a row alone, and to take it
//! again.
ghost use Rattle.std.specs.Prelude.{◌≡◌, ◌+◌, ◌≤◌, true, is_ok, OnOk};
ghost use Rattle.thread_tests.specs.Sixth.{AddsInTwo, TakesInSix, five_rows, six_rows, sixth_keys};

use arch_base::{NoMemory, Texts};
use std::sync::ledger::Ledger;
use thread_index::ThreadIndex;
use thread_model::Steps;

/// Shows that the bounds of the index say so of these rows.
pub fn sixth_row_costs()
    ensures add { AddsInTwo }
    ensures take { TakesInSix }
{}

/// Adds the sixth row, in at most two steps.
pub fn add_sixth<L: Ledger>(
    index: &mut ThreadIndex,
    keys: &Texts,
    steps: &mut Steps<L>,
) -> Result<(), NoMemory>
    requires whole { index.old.whole ≡ true }
    requires rows { index.old.rows ≡ five_rows }
    requires keys { keys.now ≡ sixth_keys }
    ensures whole { index.new.whole ≡ is_ok result }
    ensures rows { OnOk result (index.new.rows ≡ six_rows) }
    ensures steps { OnOk result (steps.new ≤ steps.old + 2) }
{
    sixth_row_costs();
    index.add(6, keys, steps)
}

/// Takes the sixth row again, in at most six steps.
pub fn take_sixth<L: Ledger>(index: &mut ThreadIndex, steps: &mut Steps<L>) -> Result<(), NoMemory>
    requires whole { index.old.whole ≡ true }
    requires rows { index.old.rows ≡ six_rows }
    ensures whole { index.new.whole ≡ is_ok result }
    ensures rows { OnOk result (index.new.rows ≡ five_rows) }
    ensures steps { OnOk result (steps.new ≤ steps.old + 6) }
{
    sixth_row_costs();
    index.take(6, steps)
}
