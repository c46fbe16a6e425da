//! Dates of commands (RFC 3501, section 9, date and date-time).
//! Pure.
ghost use Rattle.std.specs.Prelude.{◌≡◌};
ghost use Rattle.imap_words.specs.Reading.{Obtains};
ghost use Rattle.imap_syntax.specs.Dates.{month_of as month_named, month_at, date_behind, date_text_at, quoted_date_at, date_at, date_argument_at, time_at, zone_at, zone_digits_at, fixed_date_at, time_behind, date_time_at};

use crate::keys::Date;
use imap_words::{Cursor, Kind, Stop, is_keyword, read_day};

/// A moment as it is written, which the calendar may not have.
#[derive(Debug, Clone, Copy, PartialEq, Eq)]
pub struct DateTime {
    /// The day.
    pub date: Date,
    /// The time of the day.
    pub time: Time,
    /// The zone.
    pub zone: Zone,
}

/// A time of the day. Each number is from 0 to 99.
#[derive(Debug, Clone, Copy, PartialEq, Eq)]
pub struct Time {
    /// The hour.
    pub hour: u8,
    /// The minute.
    pub minute: u8,
    /// The second.
    pub second: u8,
}

/// A zone: its distance from UTC.
#[derive(Debug, Clone, Copy, PartialEq, Eq)]
pub struct Zone {
    /// True for a zone with the sign `-`.
    pub is_west: bool,
    /// The four digits after the sign: hours and minutes.
    pub digits: u16,
}

/// Takes a space and a date, in quotes or bare.
#[tactic(auto, unfolding(crate::specs::Dates::date_argument_at))]
pub(crate) fn date_argument(cursor: &mut Cursor<'_>) -> Result<Date, Stop>
    ensures { Obtains cursor.new result (date_argument_at cursor.old) }
{
    cursor.byte(b' ')?;
    one_date(cursor)
}

/// Takes a date, in quotes or bare.
#[tactic(auto, unfolding(crate::specs::Dates::date_at))]
fn one_date(cursor: &mut Cursor<'_>) -> Result<Date, Stop>
    ensures { Obtains cursor.new result (date_at cursor.old) }
{
    if cursor.has(b'"') {
        return quoted_date(cursor);
    }
    date_text(cursor)
}

/// Takes a date and the closing quote after it.
fn quoted_date(cursor: &mut Cursor<'_>) -> Result<Date, Stop>
    ensures { Obtains cursor.new result (quoted_date_at cursor.old) }
{
    let date = date_text(cursor)?;
    cursor.byte(b'"')?;
    Ok(date)
}

/// Takes a day of one digit or two, a month and a year.
#[tactic(auto, unfolding(crate::specs::Dates::date_text_at))]
fn date_text(cursor: &mut Cursor<'_>) -> Result<Date, Stop>
    ensures { Obtains cursor.new result (date_text_at cursor.old) }
{
    let word = cursor.run(Kind::Digit)?;
    match read_day(word) {
        Some(day) => rest_of_date(cursor, day),
        None => Err(Stop::Bad),
    }
}

/// Takes the month and the year of a date, each after a dash.
#[tactic(auto, unfolding(crate::specs::Dates::date_behind))]
fn rest_of_date(cursor: &mut Cursor<'_>, day: u8) -> Result<Date, Stop>
    ensures { Obtains cursor.new result (date_behind day cursor.old) }
{
    cursor.byte(b'-')?;
    let month = month(cursor)?;
    cursor.byte(b'-')?;
    let year = cursor.four()?;
    Ok(Date { year, month, day })
}

/// Takes the name of a month.
#[tactic(auto, unfolding(crate::specs::Dates::month_at))]
fn month(cursor: &mut Cursor<'_>) -> Result<u8, Stop>
    ensures { Obtains cursor.new result (month_at cursor.old) }
{
    let word = cursor.word();
    match month_of(word) {
        Some(month) => Ok(month),
        None => Err(Stop::Bad),
    }
}

/// Returns the month that a word names, in any case.
fn month_of(word: &[u8]) -> Option<u8>
    ensures { result ≡ month_named word.now }
{
    if is_keyword(b"JAN", word) {
        Some(1)
    } else if is_keyword(b"FEB", word) {
        Some(2)
    } else if is_keyword(b"MAR", word) {
        Some(3)
    } else if is_keyword(b"APR", word) {
        Some(4)
    } else if is_keyword(b"MAY", word) {
        Some(5)
    } else if is_keyword(b"JUN", word) {
        Some(6)
    } else if is_keyword(b"JUL", word) {
        Some(7)
    } else if is_keyword(b"AUG", word) {
        Some(8)
    } else if is_keyword(b"SEP", word) {
        Some(9)
    } else if is_keyword(b"OCT", word) {
        Some(10)
    } else if is_keyword(b"NOV", word) {
        Some(11)
    } else if is_keyword(b"DEC", word) {
        Some(12)
    } else {
        None
    }
}

/// Takes a date, a time and a zone in quotes.
#[tactic(auto, unfolding(crate::specs::Dates::date_time_at))]
pub(crate) fn moment(cursor: &mut Cursor<'_>) -> Result<DateTime, Stop>
    ensures { Obtains cursor.new result (date_time_at cursor.old) }
{
    cursor.byte(b'"')?;
    let date = fixed_date(cursor)?;
    rest_of_moment(cursor, date)
}

/// Takes a date whose day has two digits, or a space and a digit.
#[tactic(auto, unfolding(crate::specs::Dates::fixed_date_at))]
fn fixed_date(cursor: &mut Cursor<'_>) -> Result<Date, Stop>
    ensures { Obtains cursor.new result (fixed_date_at cursor.old) }
{
    let day = cursor.padded_pair()?;
    rest_of_date(cursor, day)
}

/// Takes a time and a zone, a space before each, and the closing quote.
#[tactic(auto, unfolding(crate::specs::Dates::time_behind))]
fn rest_of_moment(cursor: &mut Cursor<'_>, date: Date) -> Result<DateTime, Stop>
    ensures { Obtains cursor.new result (time_behind date cursor.old) }
{
    cursor.byte(b' ')?;
    let time = clock_time(cursor)?;
    cursor.byte(b' ')?;
    let zone = time_zone(cursor)?;
    cursor.byte(b'"')?;
    Ok(DateTime { date, time, zone })
}

/// Takes a time of the day.
#[tactic(auto, unfolding(crate::specs::Dates::time_at))]
fn clock_time(cursor: &mut Cursor<'_>) -> Result<Time, Stop>
    ensures { Obtains cursor.new result (time_at cursor.old) }
{
    let hour = cursor.pair()?;
    cursor.byte(b':')?;
    let minute = cursor.pair()?;
    cursor.byte(b':')?;
    let second = cursor.pair()?;
    Ok(Time {
        hour,
        minute,
        second,
    })
}

/// Takes a zone: a sign and four digits.
#[tactic(auto, unfolding(crate::specs::Dates::zone_at))]
fn time_zone(cursor: &mut Cursor<'_>) -> Result<Zone, Stop>
    ensures { Obtains cursor.new result (zone_at cursor.old) }
{
    if cursor.has(b'-') {
        return zone_digits(cursor, true);
    }
    cursor.byte(b'+')?;
    zone_digits(cursor, false)
}

/// Takes the four digits of a zone.
fn zone_digits(cursor: &mut Cursor<'_>, is_west: bool) -> Result<Zone, Stop>
    ensures { Obtains cursor.new result (zone_digits_at is_west cursor.old) }
{
    let digits = cursor.four()?;
    Ok(Zone { is_west, digits })
}
