//! The meaning of each word of a date.
//! Pure.
ghost use Rattle.std.specs.Prelude.{◌≡◌, ◌<◌, IfSome};
ghost use Rattle.mail_date.specs.Pieces.{number_of, day_of, month_of, year_of, clock_at, clock_of, zone_of, offset_at, named_zone, IsZone};

use crate::words::{is_name, name_index};

/// A time of day, as its digits spell it.
#[derive(Debug, Clone, Copy, PartialEq, Eq)]
pub struct Clock {
    /// The hour, below 100.
    pub hour: u8,
    /// The minute, below 100.
    pub minute: u8,
    /// The second, below 100.
    pub second: u8,
}

/// The names of the months.
pub const MONTHS: [[u8; 3]; 12] = [
    *b"Jan", *b"Feb", *b"Mar", *b"Apr", *b"May", *b"Jun", *b"Jul", *b"Aug", *b"Sep", *b"Oct",
    *b"Nov", *b"Dec",
];

/// The names of the zones of North America.
const ZONES: [[u8; 3]; 8] = [
    *b"EST", *b"EDT", *b"CST", *b"CDT", *b"MST", *b"MDT", *b"PST", *b"PDT",
];

/// The minutes east of UTC of `ZONES`, in the same order.
const ZONE_MINUTES: [i16; 8] = [-300, -240, -360, -300, -420, -360, -480, -420];

/// Returns the number that two digits spell, or `None` if one of the two bytes is no digit.
pub fn read_two_digits(high: u8, low: u8) -> Option<u8>
    ensures value { result ≡ number_of high low }
    ensures bound { IfSome result (λ n. n < 100) }
{
    if !high.is_ascii_digit() || !low.is_ascii_digit() {
        return None;
    }
    Some((high - b'0') * 10 + (low - b'0'))
}

/// Reads a day of the month, of one or two digits.
pub fn day_of(word: &[u8]) -> Option<u8>
    ensures { result ≡ day_of word.now }
{
    match word {
        [low] => read_two_digits(b'0', *low),
        [high, low] => read_two_digits(*high, *low),
        _ => None,
    }
}

/// Reads the name of a month, in any case, and returns the month's number from 1.
pub fn month_of(word: &[u8]) -> Option<u8>
    ensures { result ≡ month_of word.now }
{
    let index = name_index(MONTHS.as_slice(), word)?;
    Some(index as u8 + 1)
}

/// Reads a year of four digits.
pub fn year_of(word: &[u8]) -> Option<u16>
    ensures { result ≡ year_of word.now }
{
    let [a, b, c, d] = word else {
        return None;
    };
    let century = read_two_digits(*a, *b)?;
    let year = read_two_digits(*c, *d)?;
    Some(century as u16 * 100 + year as u16)
}

/// Reads a time of day, with or without seconds.
pub fn clock_of(word: &[u8]) -> Option<Clock>
    ensures { result ≡ clock_of word.now }
{
    match word {
        [a, b, b':', c, d] => clock_at(read_two_digits(*a, *b), read_two_digits(*c, *d), Some(0)),
        [a, b, b':', c, d, b':', e, f] => {
            clock_at(
                read_two_digits(*a, *b),
                read_two_digits(*c, *d),
                read_two_digits(*e, *f),
            )
        }
        _ => None,
    }
}

/// Returns the time of day if all three numbers are there.
fn clock_at(hour: Option<u8>, minute: Option<u8>, second: Option<u8>) -> Option<Clock>
    ensures { result ≡ clock_at hour minute second }
{
    Some(Clock {
        hour: hour?,
        minute: minute?,
        second: second?,
    })
}

/// Reads a zone, and returns its minutes east of UTC.
pub fn zone_of(word: &[u8]) -> Option<i16>
    ensures value { result ≡ zone_of word.now }
    ensures bound { IfSome result IsZone }
{
    if let [sign, a, b, c, d] = word {
        offset_at(*sign, read_two_digits(*a, *b), read_two_digits(*c, *d))
    } else {
        named_zone(word)
    }
}

/// Returns the minutes east of UTC for a sign, hours up to 23 and minutes up to 59.
fn offset_at(sign: u8, hours: Option<u8>, minutes: Option<u8>) -> Option<i16>
    ensures value { result ≡ offset_at sign hours minutes }
    ensures bound { IfSome result IsZone }
{
    let (hours, minutes) = (hours?, minutes?);
    if hours > 23 || minutes > 59 {
        return None;
    }
    let offset = hours as i16 * 60 + minutes as i16;
    match sign {
        b'+' => Some(offset),
        b'-' => Some(-offset),
        _ => None,
    }
}

/// Returns the minutes east of UTC of a zone's name, in any case.
fn named_zone(word: &[u8]) -> Option<i16>
    ensures value { result ≡ named_zone word.now }
    ensures bound { IfSome result IsZone }
{
    if is_name(word, b"GMT") || is_name(word, b"UT") {
        return Some(0);
    }
    let index = name_index(ZONES.as_slice(), word)?;
    Some(ZONE_MINUTES[index])
}
