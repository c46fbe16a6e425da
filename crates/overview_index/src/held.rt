//! A row by itself on the heap.
//! Allocates.
ghost use Rattle.std.specs.Prelude.{◌≡◌, IfOk, option_copied};
ghost use Rattle.overview_index.specs.Listings.{row_in};

use arch_base::NoMemory;
use mail_forms::Row;
use std::alloc::Global;
use std::collections::BTreeMap;
use std::marker::Model;

/// A row by itself on the heap.
///
/// A map keeps room for more values than it has, and moves them as it grows. So it is to hold a row's
/// address, and not its 232 bytes.
#[derive(Drop)]
pub(crate) struct HeldRow {
    row: Box<Row>,
}

// A clause sees the row.
impl Model for HeldRow {
    ghost use Rattle.mail_forms.specs.declared.row.Row.{Row};

    ghost Value = { Row };

    ghost view = { λ h. h.row.value };
}

impl HeldRow {
    /// Puts a row on the heap. `NoMemory` drops it.
    pub(crate) fn new(alloc: Global, row: Row) -> Result<HeldRow, NoMemory>
        ensures { IfOk result (λ held. held ≡ row) }
    {
        Ok(HeldRow {
            row: Box::new(alloc, row)?,
        })
    }

    /// Returns the row.
    pub(crate) fn row(&self) -> &Row
        ensures { result.now ≡ self.now }
    {
        &self.row
    }
}

/// Returns the row of a number.
pub(crate) fn row_of(rows: &BTreeMap<u32, HeldRow>, n: u32) -> Option<&Row>
    ensures { option_copied result ≡ row_in rows.now.entries n }
{
    match rows.get(&n) {
        Some(held) => Some(held.row()),
        None => None,
    }
}
