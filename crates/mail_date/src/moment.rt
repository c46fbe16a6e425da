//! Moments, and the dates that clocks show at them.
//! Pure.
ghost use Rattle.std.specs.Prelude.{◌≡◌, ◌<◌, ◌≤◌, ◌↔◌, IsTrue, IfSome, IfNone, pos, ◌≤ℤ◌};
ghost use Rattle.std.specs.Int.{IsInRange};
ghost use Rattle.jiff_core.specs.Calendar.{days_from_civil, IsEpochDay};
ghost use Rattle.jiff_core.specs.Date.{epoch_day};
ghost use Rattle.mail_date.specs.Pieces.{IsZone};
ghost use Rattle.mail_date.specs.Dates.{last_second, IsValid, IsValidDay, second_of_day, civil_seconds, seconds_of, IsMomentOf};
ghost use Rattle.mail_date.specs.Printed.{IsPrintable, IsDateAt, IsShownDate, utc};

use jiff_core::civil;
use jiff_core::civil::{Date, Time};

/// A moment, and the zone in which it was written.
#[derive(Debug, Clone, Copy, PartialEq, Eq)]
pub struct Moment {
    /// Seconds since 1970 in UTC, from 0 to 253,402,300,799.
    pub secs: u64,
    /// Minutes east of UTC, from -1,439 to 1,439.
    pub zone: i16,
}

/// A date and a time of day, as a calendar and a clock in a zone show them.
#[derive(Debug, Clone, Copy, PartialEq, Eq)]
pub struct CivilDate {
    /// The year, with four digits.
    pub year: u16,
    /// The month, from 1.
    pub month: u8,
    /// The day of the month, from 1.
    pub day: u8,
    /// The hour.
    pub hour: u8,
    /// The minute.
    pub minute: u8,
    /// The second, 60 in a leap second.
    pub second: u8,
    /// Minutes east of UTC.
    pub zone: i16,
}

/// The last second of the year 9999.
const LAST_SECOND: i64 = 253_402_300_799;

/// The days from -9999-01-01 to 1970-01-01.
const DAYS_BEFORE_1970: u32 = 4_371_587;

/// Returns the moment that a date names.
///
/// `None` if the calendar doesn't have the date, or the moment is outside the years 1970 to 9999 of
/// UTC.
pub fn moment_of(date: &CivilDate) -> Option<Moment>
    ensures spelled { IfSome result (IsMomentOf date.now) }
    ensures refused { IfNone result ((moment : Moment) → IsMomentOf date.now moment → ⊥) }
{
    if !is_valid(date) {
        return None;
    }
    let secs = seconds_of(date);
    if secs < 0 || secs > LAST_SECOND {
        return None;
    }
    Some(Moment {
        secs: secs as u64,
        zone: date.zone,
    })
}

/// Returns whether the calendar has the day, in a year from 1970 to 9999, and a clock shows the
/// time.
fn is_valid(date: &CivilDate) -> bool
    ensures { IsTrue result ↔ IsValid date.now }
{
    is_valid_day(date) && date.hour <= 23 && date.minute <= 59 && date.second <= 60
}

/// Returns whether the calendar has the day, in a year from 1970 to 9999.
fn is_valid_day(date: &CivilDate) -> bool
    ensures { IsTrue result ↔ IsValidDay date.now }
{
    let year = date.year;
    let month = date.month;
    if year < 1970 || year > 9999 || month < 1 || month > 12 {
        return false;
    }
    date.day >= 1 && date.day <= civil::days_in_month(year as i16, month)
}

/// Returns the day number. The first of January 1970 is 0.
fn day_number(date: &CivilDate) -> i64
    requires { IsValid date.now }
    ensures value { result ≡ days_from_civil (pos date.now.year) date.now.month date.now.day }
    ensures bound { IsEpochDay result }
{
    let day = Date {
        year: date.year as i16,
        month: date.month,
        day: date.day,
    };
    day.to_unix_epoch_day() as i64
}

/// Returns the second of the day. A second 60 counts as second 59.
fn second_of_day(date: &CivilDate) -> u32
    requires { IsValid date.now }
    ensures value { result ≡ second_of_day date.now }
    ensures bound { result < 86400 }
{
    date.hour as u32 * 3600 + date.minute as u32 * 60 + date.second.min(59) as u32
}

/// Returns the seconds since 1970 in UTC.
fn seconds_of(date: &CivilDate) -> i64
    requires { IsValid date.now }
    ensures { result ≡ seconds_of date.now }
{
    let zone = date.zone as i64;
    day_number(date) * 86_400 + second_of_day(date) as i64 - zone * 60
}

/// Returns the year of a day from 1970 on.
fn year_of(day: Date) -> u16
    requires { pos 0 ≤ℤ epoch_day day }
    ensures value { pos result ≡ day.year }
    ensures bound { IsInRange 1970 9999 result }
{
    day.year as u16
}

/// Returns the date that a clock shows. `seconds` is that date and time as seconds since 1970.
fn date_of_seconds(seconds: u64, zone: i16) -> CivilDate
    requires { seconds ≤ last_second }
    ensures valid { IsValid result }
    ensures second { result.second ≤ 59 }
    ensures value { civil_seconds result ≡ pos seconds }
    ensures zone { result.zone ≡ zone }
{
    let day = Date::from_days_since_min((seconds / 86_400) as u32 + DAYS_BEFORE_1970);
    let time = Time::from_second((seconds % 86_400) as u32, 0);
    CivilDate {
        year: year_of(day),
        month: day.month,
        day: day.day,
        hour: time.hour,
        minute: time.minute,
        second: time.second,
        zone,
    }
}

/// Returns the date that a clock in the moment's zone shows.
fn date_at(moment: &Moment) -> CivilDate
    requires bound { moment.now.secs ≤ last_second }
    requires printable { IsPrintable moment.now }
    ensures { IsDateAt moment.now result }
{
    let zone = moment.zone as i64;
    let seconds = moment.secs as i64 + zone * 60;
    date_of_seconds(seconds as u64, moment.zone)
}

/// Returns the date that a clock in UTC shows, so many seconds after the start of 1970.
pub fn utc_date(secs: u64) -> CivilDate
    requires { secs ≤ last_second }
    ensures { IsDateAt (utc secs) result }
{
    date_at(&Moment { secs, zone: 0 })
}

/// Returns the date that a clock in the moment's zone shows, or the date in UTC if the zone's clock
/// shows a year outside 1970 to 9999.
pub fn shown_date(moment: &Moment) -> CivilDate
    requires bound { moment.now.secs ≤ last_second }
    requires zone { IsZone moment.now.zone }
    ensures shown { IsShownDate moment.now result }
    ensures valid { IsValid result }
    ensures same_zone { IsZone result.zone }
{
    let zone = moment.zone as i64;
    let seconds = moment.secs as i64 + zone * 60;
    if seconds < 0 || seconds > LAST_SECOND {
        return utc_date(moment.secs);
    }
    date_at(moment)
}
