//! Where a row stands in the order of dates.
//! Pure.
ghost use Rattle.std.specs.Prelude.{◌≡◌};
ghost use Rattle.overview_index.specs.Listings.{spot_of};

use mail_forms::Row;

/// Where a row stands in the order of dates: by the seconds of its date, and then by its number.
#[derive(Clone, Copy, Debug, PartialEq, Eq, PartialOrd, Ord, Drop)]
pub(crate) struct Spot {
    /// The seconds of its date, since 1970 in UTC.
    pub(crate) secs: u64,
    /// Its number.
    pub(crate) number: u32,
}

impl Spot {
    /// Returns where a row stands.
    pub(crate) fn of(row: &Row) -> Spot
        ensures { result ≡ spot_of row.now }
    {
        Spot {
            secs: row.date.secs,
            number: row.number,
        }
    }
}
