//! Days, and ranges of days.
//! Pure.
ghost use Rattle.std.specs.Prelude.{◌≡◌, ◌<◌, ◌≤◌, [], ◌∷◌, length, IsTrue, IfSome};
ghost use Rattle.mail_date.specs.Pieces.{year_of};
ghost use Rattle.query_lang.specs.Dates.{utc_day, from_1970, is_date, day_number, date_of, in_order, has_dots, range_of};

use jiff_core::civil::{Date, days_in_month};
use mail_date::{Moment, read_two_digits};

/// The seconds of a day.
const SECONDS_A_DAY: u64 = 86_400;

/// Returns the day of a moment in UTC, counted from 0 for 1 January 1970.
pub fn utc_day(moment: &Moment) -> u64
    ensures { result ≡ utc_day moment.now }
{
    moment.secs / SECONDS_A_DAY
}

/// Reads a range of days `YYYYMMDD..YYYYMMDD`, and returns its first and its last day.
///
/// `None` for any other text, for a day that the calendar doesn't have, for a day before 1970, and
/// if the first day is after the last.
pub fn range_of(text: &[u8]) -> Option<(u64, u64)>
    ensures { result ≡ range_of text.now }
{
    if !has_dots(text) {
        return None;
    }
    let first = date_of(text.split_at(8).0);
    let last = date_of(text.split_at(10).1);
    in_order(first, last)
}

/// Returns whether a text has two dots after its first 8 bytes, and 8 bytes after these.
fn has_dots(text: &[u8]) -> bool
    ensures value { result ≡ has_dots text.now }
    ensures len { IsTrue result → length text.now ≡ 18 }
{
    text.len() == 18 && text[8] == b'.' && text[9] == b'.'
}

/// Returns two days, if both are there and in order.
fn in_order(first: Option<u64>, last: Option<u64>) -> Option<(u64, u64)>
    ensures { result ≡ in_order first last }
{
    let first = first?;
    let last = last?;
    if first > last {
        return None;
    }
    Some((first, last))
}

/// Reads a date `YYYYMMDD`.
fn date_of(text: &[u8]) -> Option<u64>
    ensures { result ≡ date_of text.now }
{
    let [a, b, c, d, e, f, g, h] = text else {
        return None;
    };
    let year = year_of(*a, *b, *c, *d)?;
    let month = read_two_digits(*e, *f)?;
    let day = read_two_digits(*g, *h)?;
    day_number(year, month, day)
}

/// Returns the number that four digits spell.
fn year_of(a: u8, b: u8, c: u8, d: u8) -> Option<u16>
    ensures value { result ≡ year_of (a ∷ b ∷ c ∷ d ∷ []) }
    ensures bound { IfSome result (λ year. year ≤ 9999) }
{
    let century = read_two_digits(a, b)?;
    let year = read_two_digits(c, d)?;
    Some(century as u16 * 100 + year as u16)
}

/// Returns the number of a day, if the calendar has it and it isn't before 1970.
fn day_number(year: u16, month: u8, day: u8) -> Option<u64>
    requires { year ≤ 9999 }
    ensures { result ≡ day_number year month day }
{
    if !is_date(year, month, day) {
        return None;
    }
    let date = Date {
        year: year as i16,
        month,
        day,
    };
    from_1970(date.to_unix_epoch_day())
}

/// Returns whether the calendar has a day.
fn is_date(year: u16, month: u8, day: u8) -> bool
    requires { year ≤ 9999 }
    ensures { result ≡ is_date year month day }
{
    if month < 1 || month > 12 {
        return false;
    }
    day >= 1 && day <= days_in_month(year as i16, month)
}

/// Returns a day's number, if the day isn't before 1970.
fn from_1970(number: i32) -> Option<u64>
    ensures { result ≡ from_1970 number }
{
    if number < 0 {
        return None;
    }
    Some(number as u64)
}
