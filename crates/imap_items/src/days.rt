//! The days of messages (RFC 3501, section 6.4.4), and the moments of their arrival.
//! Pure.
ghost use Rattle.std.specs.Prelude.{◌≡◌, ◌≤◌};
ghost use Rattle.arch_base.specs.Moments.{last_moment};
ghost use Rattle.web_text.specs.Days.{date_at};
ghost use Rattle.imap_items.specs.Days.{shown_seconds, arrival_day, day_shown, is_day_before, is_day};
ghost use Rattle.imap_items.specs.Items.{arrival_text};

use arch_base::LAST_MOMENT;
use imap_syntax::Date;
use mail_date::{CivilDate, Moment, print_imap, printed_date_is_one, utc_date};

/// Returns the moment of an arrival in UTC, as INTERNALDATE has it (RFC 3501, section 9, date-time).
pub(crate) fn arrival_bytes(secs: u64) -> [u8; 26]
    ensures { result ≡ arrival_text secs }
{
    printed_date_is_one();
    print_imap(&Moment {
        secs: secs.min(LAST_MOMENT),
        zone: 0,
    })
}

/// Returns the date that a clock in UTC shows.
fn date_of(secs: u64) -> CivilDate
    requires { secs ≤ last_moment }
    ensures { result ≡ date_at secs }
{
    printed_date_is_one();
    utc_date(secs)
}

/// Returns the day of an arrival in UTC.
pub(crate) fn arrival_day(secs: u64) -> CivilDate
    ensures { result ≡ arrival_day secs }
{
    date_of(secs.min(LAST_MOMENT))
}

/// Returns the day of a moment in its own zone, or in UTC if the zone's clock shows a year outside
/// 1970 to 9999.
pub(crate) fn day_shown(moment: &Moment) -> CivilDate
    ensures { result ≡ day_shown moment.now }
{
    date_of(shown_seconds(moment))
}

/// Returns what a clock in the moment's zone shows, as seconds since 1970.
fn shown_seconds(moment: &Moment) -> u64
    ensures value { result ≡ shown_seconds moment.now }
    ensures bound { result ≤ last_moment }
{
    let secs = moment.secs.min(LAST_MOMENT);
    let shown = secs as i64 + moment.zone as i64 * 60;
    if shown < 0 || shown > LAST_MOMENT as i64 {
        return secs;
    }
    shown as u64
}

/// Returns whether a day is before another.
pub(crate) fn is_day_before(day: &CivilDate, other: Date) -> bool
    ensures { result ≡ is_day_before day.now other }
{
    day.year < other.year
        || (day.year == other.year
            && (day.month < other.month || (day.month == other.month && day.day < other.day)))
}

/// Returns whether a day is the same as another.
pub(crate) fn is_day(day: &CivilDate, other: Date) -> bool
    ensures { result ≡ is_day day.now other }
{
    day.year == other.year && day.month == other.month && day.day == other.day
}
