//! Dates and times of commands.
//! Pure.
ghost use Rattle.std.specs.Prelude.{◌≡◌, ◌≤◌, ◌<◌, IfSome};
ghost use Rattle.std.specs.Int.{IsInRange};
ghost use Rattle.nntp_words.specs.Moments.{four_digits, full_year, day_in, day_of, second_in, second_of, moment_of};

use jiff_core::civil;
use jiff_core::civil::Date;
use mail_date::read_two_digits;

/// Returns the moment that a date and a time spell, in seconds since 1970 UTC (RFC 3977, section
/// 7.3.2). It may be before 1970.
///
/// The date is `yymmdd` or `yyyymmdd`, a day of the calendar, and the time is `hhmmss`. A year of two
/// digits is of the century of `this_year` if it isn't after that, and else of the century before.
/// Second 60 counts as second 59.
///
/// `None` if they spell none.
pub fn read_moment(date: &[u8], time: &[u8], this_year: u16) -> Option<i64>
    requires { IsInRange 1970 9999 this_year }
    ensures { result ≡ moment_of date.now time.now this_year }
{
    let day = read_day(date, this_year)?;
    let second = read_second(time)?;
    Some(i64::from(day) * 86_400 + i64::from(second))
}

/// Returns the day that a date spells. The first of January 1970 is 0.
#[tactic(auto, unfolding(crate::specs::Moments::day_of))]
fn read_day(date: &[u8], this_year: u16) -> Option<i32>
    requires { IsInRange 1970 9999 this_year }
    ensures { result ≡ day_of date.now this_year }
{
    match date {
        [a, b, c, d, e, f] => day_in(
            full_year(read_two_digits(*a, *b), this_year),
            read_two_digits(*c, *d),
            read_two_digits(*e, *f),
        ),
        [a, b, c, d, e, f, g, h] => day_in(
            four_digits(read_two_digits(*a, *b), read_two_digits(*c, *d)),
            read_two_digits(*e, *f),
            read_two_digits(*g, *h),
        ),
        _ => None,
    }
}

/// Returns the number that four digits spell, by their first and last two.
fn four_digits(high: Option<u8>, low: Option<u8>) -> Option<u16>
    requires high { IfSome high (λ n. n < 100) }
    requires low { IfSome low (λ n. n < 100) }
    ensures value { result ≡ four_digits high low }
    ensures bound { IfSome result (λ n. n ≤ 9999) }
{
    Some(u16::from(high?) * 100 + u16::from(low?))
}

/// Returns the year with these last two digits that isn't after this year, of its century or the
/// one before.
fn full_year(digits: Option<u8>, this_year: u16) -> Option<u16>
    requires digits { IfSome digits (λ n. n < 100) }
    requires year { IsInRange 1970 9999 this_year }
    ensures value { result ≡ full_year digits this_year }
    ensures bound { IfSome result (λ n. n ≤ 9999) }
{
    let year = this_year / 100 * 100 + u16::from(digits?);
    if year <= this_year {
        Some(year)
    } else {
        Some(year - 100)
    }
}

/// Returns the day of these numbers, if they are there and the calendar has it.
fn day_in(year: Option<u16>, month: Option<u8>, day: Option<u8>) -> Option<i32>
    requires { IfSome year (λ n. n ≤ 9999) }
    ensures { result ≡ day_in year month day }
{
    let (year, month, day) = (year? as i16, month?, day?);
    if month < 1 || month > 12 || day < 1 || day > civil::days_in_month(year, month) {
        return None;
    }
    Some(Date { year, month, day }.to_unix_epoch_day())
}

/// Returns the second of the day that a time spells.
#[tactic(auto, unfolding(crate::specs::Moments::second_of))]
fn read_second(time: &[u8]) -> Option<u32>
    ensures value { result ≡ second_of time.now }
    ensures bound { IfSome result (λ n. n < 86400) }
{
    match time {
        [a, b, c, d, e, f] => {
            second_in(
                read_two_digits(*a, *b),
                read_two_digits(*c, *d),
                read_two_digits(*e, *f),
            )
        }
        _ => None,
    }
}

/// Returns the second of the day of these numbers, if they are there and a clock shows them.
fn second_in(hour: Option<u8>, minute: Option<u8>, second: Option<u8>) -> Option<u32>
    ensures value { result ≡ second_in hour minute second }
    ensures bound { IfSome result (λ n. n < 86400) }
{
    let (hour, minute, second) = (hour?, minute?, second?);
    if hour > 23 || minute > 59 || second > 60 {
        return None;
    }
    Some(u32::from(hour) * 3600 + u32::from(minute) * 60 + u32::from(second.min(59)))
}
