//! Reads the value of a Date field.
//! Pure.
ghost use Rattle.std.specs.Prelude.{◌≡◌, ◌≤◌, IfSome, IfNone};
ghost use Rattle.mail_date.specs.Words.{words_of};
ghost use Rattle.mail_date.specs.Pieces.{day_of, month_of, year_of, clock_of, zone_of, IsZone};
ghost use Rattle.mail_date.specs.Dates.{joined, last_second};
ghost use Rattle.mail_date.specs.Reading.{is_comment, date_of, date_of_words, moment_in};
ghost use Rattle.mail_date.specs.Parts.{SpellsMoment};
ghost use Rattle.mail_date.specs.Laws.{GivesWrittenMoment};

use crate::moment::{CivilDate, Moment, moment_of};
use crate::pieces::{clock_of, day_of, month_of, year_of, zone_of};
use crate::words::{first_word, without_day};

/// Returns the moment that the value of a Date field spells, and its zone.
///
/// The value is `[Day,] D Mon YYYY hh:mm[:ss] zone`, then optionally white space and a comment (RFC
/// 5322, 3.3 and 4.3, without years of two digits and military zones). White space is space, tab,
/// carriage return and line feed. Names are read in any case, and the day's name isn't compared
/// with the date. A second 60 is read as 59.
///
/// `None` for any other value, for a day that the calendar doesn't have, and for a moment that in
/// UTC is before 1970 or after 9999. Each moment that is returned can be printed.
pub fn read(value: &[u8]) -> Option<Moment>
    ensures value { result ≡ moment_in value.now }
    ensures spelled { IfSome result (SpellsMoment value.now) }
    ensures refused { IfNone result ((moment : Moment) → SpellsMoment value.now moment → ⊥) }
    ensures again { GivesWrittenMoment value.now result }
    ensures valid { IfSome result (λ moment. (moment.secs ≤ last_second) × IsZone moment.zone) }
{
    let date = date_of(value)?;
    moment_of(&date)
}

/// Returns the date that a text spells.
fn date_of(text: &[u8]) -> Option<CivilDate>
    ensures value { result ≡ date_of text.now }
    ensures zone { IfSome result (λ date. IsZone date.zone) }
{
    date_of_words(without_day(text))
}

/// Returns the date that the words of a text spell.
fn date_of_words(text: &[u8]) -> Option<CivilDate>
    ensures value { result ≡ date_of_words (words_of text.now) }
    ensures zone { IfSome result (λ date. IsZone date.zone) }
{
    let (day, text) = first_word(text)?;
    let (month, text) = first_word(text)?;
    let (year, text) = first_word(text)?;
    let (clock, text) = first_word(text)?;
    let (zone, text) = first_word(text)?;
    if !is_comment(text) {
        return None;
    }
    joined(day, month, year, clock, zone)
}

/// Returns the date that its five words spell.
fn joined(day: &[u8], month: &[u8], year: &[u8], clock: &[u8], zone: &[u8]) -> Option<CivilDate>
    ensures value { result ≡ joined (day_of day.now) (month_of month.now) (year_of year.now)
        (clock_of clock.now) (zone_of zone.now) }
    ensures zone { IfSome result (λ date. IsZone date.zone) }
{
    let day = day_of(day)?;
    let month = month_of(month)?;
    let year = year_of(year)?;
    let clock = clock_of(clock)?;
    let zone = zone_of(zone)?;
    Some(CivilDate {
        year,
        month,
        day,
        hour: clock.hour,
        minute: clock.minute,
        second: clock.second,
        zone,
    })
}

/// Returns whether a text has no word, or its first word starts with a parenthesis.
fn is_comment(text: &[u8]) -> bool
    ensures { result ≡ is_comment (words_of text.now) }
{
    match first_word(text) {
        Some((word, _)) => word.first() == Some(&b'('),
        None => true,
    }
}
