//! The rows of mails by number, by id, and by date and number.
//! Allocates.
ghost use Rattle.std.specs.Prelude.{◌≡◌, [], map, take, drop, None, IfOk, OnOk, OnErr, is_some, option_copied};
ghost use Rattle.overview_index.specs.Listings.{row_in, number_of, number_at, with_row, without, listing, rows_numbered, live_between, IsLeastFrom, IsGreatestTo};

use crate::held::{HeldRow, row_of};
use crate::newest::newest_first;
use crate::spot::Spot;
use crate::views::Views;
use arch_base::{MessageNumbers, NoMemory};
use mail_forms::Row;
use std::alloc::Global;
use std::collections::BTreeMap;
use std::marker::Model;

/// The rows of mails, found by number, by id, and by date and number.
///
/// With n rows each call takes a number of steps that grows with the logarithm of n, and `page` one
/// more for each number that it returns. Beside its row with its texts, a mail takes some 300 bytes
/// and its id once more.
#[derive(Drop)]
pub struct Overview {
    rows: BTreeMap<u32, HeldRow>,
    views: Views,
    alloc: Global,
}

// A clause sees the rows by their numbers, which rise.
impl Model for Overview {
    ghost use Rattle.std.specs.Prelude.{List, ℕ};
    ghost use Rattle.mail_forms.specs.declared.row.Row.{Row};
    ghost use Rattle.overview_index.specs.Views.{AreViews};

    ghost Value = { List (ℕ × Row) };

    ghost view = { λ o. o.rows.entries };

    ghost invariant = { λ o. AreViews o.rows.entries o.views };
}

impl Overview {
    /// Returns an overview without rows. Allocates nothing.
    pub fn new(alloc: Global) -> Self
        ensures { result ≡ [] }
    {
        Overview {
            rows: BTreeMap::new(alloc),
            views: Views::new(alloc),
            alloc,
        }
    }

    /// Adds a row, whose number and id no row has.
    ///
    /// `NoMemory` drops the row, and changes nothing else.
    pub fn add(&mut self, row: Row) -> Result<(), NoMemory>
        requires number { row_in self.old row.number ≡ None }
        requires id { number_of self.old row.id ≡ None }
        ensures ok { OnOk result (self.new ≡ with_row self.old row) }
        ensures err { OnErr result (self.new ≡ self.old) }
    {
        let (number, spot) = (row.number, Spot::of(&row));
        let id = row.id.copy()?.into_vec();
        self.rows.insert(number, HeldRow::new(self.alloc, row)?)?;
        if let Err(refused) = self.views.add(id, spot) {
            let _ = self.rows.remove(&number);
            return Err(refused);
        }
        Ok(())
    }

    /// Removes the row with a number, and returns whether there was one.
    pub fn take(&mut self, n: u32) -> bool
        ensures found { result ≡ is_some (row_in self.old n) }
        ensures rows { self.new ≡ without self.old n }
    {
        match self.rows.remove(&n) {
            Some(held) => {
                let row = held.row();
                self.views.remove(row.id.as_slice(), Spot::of(row));
                true
            }
            None => false,
        }
    }

    /// Returns the row with a number.
    pub fn get(&self, n: u32) -> Option<&Row>
        ensures { option_copied result ≡ row_in self.now n }
    {
        row_of(&self.rows, n)
    }

    /// Returns the number of the row with an id.
    pub fn by_id(&self, id: &[u8]) -> Option<u32>
        ensures { result ≡ number_of self.now id.now }
    {
        self.views.ids.get(id).copied()
    }

    /// Returns the least number of a row that is at least this one.
    pub fn live_from(&self, n: u32) -> Option<u32>
        ensures { IsLeastFrom self.now n result }
    {
        match self.rows.range(n..).next() {
            Some((found, _)) => Some(*found),
            None => None,
        }
    }

    /// Returns the greatest number of a row that is at most this one.
    pub fn live_to(&self, n: u32) -> Option<u32>
        ensures { IsGreatestTo self.now n result }
    {
        match self.rows.range(..=n).next_back() {
            Some((found, _)) => Some(*found),
            None => None,
        }
    }

    /// Returns how many rows have a number from `low` to `high`, both included.
    pub fn live_count(&self, low: u32, high: u32) -> u64
        ensures { result ≡ live_between self.now low high }
    {
        let below = self.views.numbers.rank(&u64::from(low));
        let up_to = self.views.numbers.rank(&(u64::from(high) + 1));
        up_to.saturating_sub(below) as u64
    }

    /// Returns the numbers of rows, newest first: by the seconds of their dates, and then by number,
    /// both falling. These are so many after so many that are skipped, or as many as there are.
    ///
    /// `NoMemory` if an allocation fails.
    pub fn page(&self, skip: u64, count: u64) -> Result<MessageNumbers, NoMemory>
        ensures { IfOk result (λ page. page ≡ take count (drop skip (listing self.now))) }
    {
        let spots = self.views.dates.page(skip as usize, count as usize)?;
        numbers_of(self.alloc, spots.as_slice())
    }

    /// Returns the numbers of these that have a row, newest first: by the seconds of their dates, and
    /// then by number, both falling. Each is returned once.
    ///
    /// With k numbers it takes k steps of the logarithm of n each. `NoMemory` if an allocation fails.
    pub fn newest_first(&self, numbers: &[u32]) -> Result<MessageNumbers, NoMemory>
        ensures { IfOk result (λ found. found ≡ listing (rows_numbered self.now numbers.now)) }
    {
        newest_first(self.alloc, &self.rows, numbers)
    }
}

/// Returns the numbers of rows, by where they stand.
fn numbers_of(alloc: Global, spots: &[Spot]) -> Result<MessageNumbers, NoMemory>
    ensures { IfOk result (λ numbers. numbers ≡ map number_at spots.now) }
{
    let numbers: Vec<u32> = spots.iter().map(|spot| spot.number).collect(alloc)?;
    Ok(MessageNumbers::from_vec(numbers))
}
