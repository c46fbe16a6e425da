//! The orders in which rows are found: by date and number, by number, and by id.
//! Allocates.
ghost use Rattle.std.specs.Prelude.{◌≡◌, [], false, OnOk, OnErr};
ghost use Rattle.std.specs.BTreeMap.{is_at};
ghost use Rattle.std.specs.List.{list_any};
ghost use Rattle.std.specs.List.Sorted.{IsStrictlySortedBy};
ghost use Rattle.std.specs.Ordering.{nat_cmp};
ghost use Rattle.overview_index.specs.Listings.{spot_cmp};
ghost use Rattle.overview_index.specs.Views.{AddsRow, AddsNumber, LosesRow, IsSame};

use crate::spot::Spot;
use arch_base::NoMemory;
use ranked_set::RankedSet;
use std::alloc::Global;
use std::collections::BTreeMap;

/// The orders in which rows are found: by date and number, by number, and by id.
#[derive(Drop)]
pub(crate) struct Views {
    /// Where the rows stand in the order of dates.
    pub(crate) dates: RankedSet<Spot>,
    /// The numbers of the rows.
    pub(crate) numbers: RankedSet<u64>,
    /// The numbers of the rows by their ids.
    pub(crate) ids: BTreeMap<Vec<u8>, u32>,
}

impl Views {
    /// Returns the orders of no rows. Allocates nothing.
    pub(crate) fn new(alloc: Global) -> Views
        ensures dates { result.dates ≡ [] }
        ensures numbers { result.numbers ≡ [] }
        ensures ids { result.ids.entries ≡ [] }
    {
        Views {
            dates: RankedSet::new(alloc),
            numbers: RankedSet::new(alloc),
            ids: BTreeMap::new(alloc),
        }
    }

    /// Adds a row with a new number and a new id.
    ///
    /// `NoMemory` leaves the same rows in each order.
    pub(crate) fn add(&mut self, id: Vec<u8>, spot: Spot) -> Result<(), NoMemory>
        requires new_spot { list_any (is_at (spot_cmp spot)) self.old.dates ≡ false }
        requires new_number { list_any (is_at (nat_cmp spot.number)) self.old.numbers ≡ false }
        ensures ok { OnOk result (AddsRow self.old self.new id.items spot) }
        ensures err { OnErr result (IsSame self.old self.new) }
    {
        self.dates.insert(spot)?;
        if let Err(refused) = self.add_number(id, spot.number) {
            self.dates.remove(&spot);
            return Err(refused);
        }
        Ok(())
    }

    /// Adds a row with a new number and a new id, but not to the order of dates.
    ///
    /// `NoMemory` leaves the same rows in each order.
    fn add_number(&mut self, id: Vec<u8>, number: u32) -> Result<(), NoMemory>
        requires { list_any (is_at (nat_cmp number)) self.old.numbers ≡ false }
        ensures ok { OnOk result (AddsNumber self.old self.new id.items number) }
        ensures err { OnErr result (IsSame self.old self.new) }
    {
        self.numbers.insert(u64::from(number))?;
        if let Err(refused) = self.ids.insert(id, number) {
            self.numbers.remove(&u64::from(number));
            return Err(refused.into());
        }
        Ok(())
    }

    /// Removes a row.
    pub(crate) fn remove(&mut self, id: &[u8], spot: Spot)
        ensures loses { LosesRow self.old self.new id.now spot }
        ensures sorted { IsStrictlySortedBy nat_cmp self.old.numbers }
    {
        self.dates.remove(&spot);
        self.numbers.remove(&u64::from(spot.number));
        let _ = self.ids.remove(id);
    }
}
