//! Prints moments for IMAP, for RFC 3339 and for pages.
//! Pure.
ghost use Rattle.std.specs.Prelude.{◌≡◌, ◌≤◌, ◌<◌, ◌++◌, ◌∷◌};
ghost use Rattle.mail_date.specs.Pieces.{IsZone};
ghost use Rattle.mail_date.specs.Dates.{last_second, IsValid};
ghost use Rattle.mail_date.specs.Printed.{sign_of, tens_or_space, day_text, minute_text, imap_text, rfc3339_text, page_text, PrintsDate, PrintsUtc};

use crate::moment::{CivilDate, Moment, shown_date, utc_date};
use crate::pieces::MONTHS;

/// Prints `dd-Mon-yyyy hh:mm:ss +zzzz` (RFC 3501, 9), the day padded with a space to two
/// characters.
///
/// If the moment's seconds and its zone together are outside 0 to 253,402,300,799, the moment is
/// printed in zone `+0000`.
pub fn print_imap(moment: &Moment) -> [u8; 26]
    requires bound { moment.now.secs ≤ last_second }
    requires zone { IsZone moment.now.zone }
    ensures { PrintsDate imap_text moment.now result }
{
    let date = shown_date(moment);
    let [m0, m1, m2] = MONTHS[date.month as usize - 1];
    let (century, year) = ((date.year / 100) as u8, (date.year % 100) as u8);
    let offset = date.zone.unsigned_abs();
    let (hours, minutes) = ((offset / 60) as u8, (offset % 60) as u8);
    [
        tens_or_space(date.day),
        b'0' + date.day % 10,
        b'-',
        m0,
        m1,
        m2,
        b'-',
        b'0' + century / 10,
        b'0' + century % 10,
        b'0' + year / 10,
        b'0' + year % 10,
        b' ',
        b'0' + date.hour / 10,
        b'0' + date.hour % 10,
        b':',
        b'0' + date.minute / 10,
        b'0' + date.minute % 10,
        b':',
        b'0' + date.second / 10,
        b'0' + date.second % 10,
        b' ',
        sign_of(date.zone),
        b'0' + hours / 10,
        b'0' + hours % 10,
        b'0' + minutes / 10,
        b'0' + minutes % 10,
    ]
}

/// Returns the first of a number's two characters: its tens, or a space below 10.
fn tens_or_space(number: u8) -> u8
    requires { number < 100 }
    ensures { result ≡ tens_or_space number }
{
    if number < 10 {
        b' '
    } else {
        b'0' + number / 10
    }
}

/// Returns the sign of a zone.
fn sign_of(zone: i16) -> u8
    ensures { result ≡ sign_of zone }
{
    if zone < 0 { b'-' } else { b'+' }
}

/// Prints `YYYY-MM-DDThh:mm:ssZ` (RFC 3339, 5.6) in UTC.
///
/// `secs` counts seconds since 1970, from 0 to 253,402,300,799.
pub fn print_rfc3339(secs: u64) -> [u8; 20]
    requires { secs ≤ last_second }
    ensures { PrintsUtc rfc3339_text secs result }
{
    let date = utc_date(secs);
    let mut text = *b"YYYY-MM-DDThh:mm:ssZ";
    text[..16].copy_from_slice(&minute_of_day(&date, b'T'));
    text[17] = b'0' + date.second / 10;
    text[18] = b'0' + date.second % 10;
    text
}

/// Prints `YYYY-MM-DD hh:mm` in UTC.
///
/// `secs` counts seconds since 1970, from 0 to 253,402,300,799.
pub fn print_page(secs: u64) -> [u8; 16]
    requires { secs ≤ last_second }
    ensures { PrintsUtc page_text secs result }
{
    minute_of_day(&utc_date(secs), b' ')
}

/// Returns the day as `YYYY-MM-DD` and the time as `hh:mm`, with a byte between them.
fn minute_of_day(date: &CivilDate, separator: u8) -> [u8; 16]
    requires { IsValid date.now }
    ensures { result ≡ day_text date.now ++ (separator ∷ minute_text date.now) }
{
    let (century, year) = ((date.year / 100) as u8, (date.year % 100) as u8);
    [
        b'0' + century / 10,
        b'0' + century % 10,
        b'0' + year / 10,
        b'0' + year % 10,
        b'-',
        b'0' + date.month / 10,
        b'0' + date.month % 10,
        b'-',
        b'0' + date.day / 10,
        b'0' + date.day % 10,
        separator,
        b'0' + date.hour / 10,
        b'0' + date.hour % 10,
        b':',
        b'0' + date.minute / 10,
        b'0' + date.minute % 10,
    ]
}
