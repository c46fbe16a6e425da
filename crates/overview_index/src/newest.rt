//! Orders rows by their dates.
//! Allocates.
ghost use Rattle.std.specs.Prelude.{◌≡◌, map, reverse, OnOk, IfOk, option_copied};
ghost use Rattle.overview_index.specs.Listings.{number_at, spots, with_spot, rows_numbered, listing};

use crate::held::{HeldRow, row_of};
use crate::spot::Spot;
use arch_base::{MessageNumbers, NoMemory};
use mail_forms::Row;
use std::alloc::Global;
use std::collections::{BTreeMap, BTreeSet};

/// Returns the numbers of these that have a row, newest first.
#[tactic(auto, unfolding(crate::specs::Listings::listing))]
pub(crate) fn newest_first(
    alloc: Global,
    rows: &BTreeMap<u32, HeldRow>,
    numbers: &[u32],
) -> Result<MessageNumbers, NoMemory>
    ensures { IfOk result (λ found. found ≡ listing (rows_numbered rows.now.entries numbers.now)) }
{
    numbers_falling(alloc, spots_of(alloc, rows, numbers)?)
}

/// Returns where the rows of these numbers stand.
fn spots_of(
    alloc: Global,
    rows: &BTreeMap<u32, HeldRow>,
    numbers: &[u32],
) -> Result<BTreeSet<Spot>, NoMemory>
    ensures { IfOk result (λ found.
        found.keys ≡ spots (rows_numbered rows.now.entries numbers.now)) }
{
    let mut found = BTreeSet::new(alloc);
    let mut i = numbers.len();
    while i > 0 {
        i -= 1;
        put_spot(row_of(rows, numbers[i]), &mut found)?;
    }
    Ok(found)
}

/// Puts where a row stands into a set, if there is a row.
fn put_spot(row: Option<&Row>, found: &mut BTreeSet<Spot>) -> Result<(), NoMemory>
    ensures { OnOk result (found.new.keys ≡ with_spot (option_copied row.entry) found.old.keys) }
{
    match row {
        Some(row) => {
            found.insert(Spot::of(row))?;
            Ok(())
        }
        None => Ok(()),
    }
}

/// Returns the numbers of a set, from the last one on.
fn numbers_falling(alloc: Global, spots: BTreeSet<Spot>) -> Result<MessageNumbers, NoMemory>
    ensures { IfOk result (λ numbers. numbers ≡ map number_at (reverse spots.keys)) }
{
    let mut spots = spots;
    let mut numbers = MessageNumbers::new(alloc);
    while let Some(spot) = spots.pop_last() {
        numbers.push(spot.number)?;
    }
    Ok(numbers)
}
