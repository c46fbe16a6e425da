//! The moment as DATE says it, and its year.
//! Pure.
ghost use Rattle.std.specs.Prelude.{◌≡◌, ◌≤◌, ◌-◌, min};
ghost use Rattle.std.specs.Int.{IsInRange};
ghost use Rattle.arch_base.specs.Moments.{last_moment};
ghost use Rattle.edge_io.specs.Phrases.{Says, SaysTo};
ghost use Rattle.nntp_reader.specs.Dates.{year_at, date_words};

use edge_io::{Sink, SinkFault, say};
use mail_date::{print_rfc3339, printed_date_is_one};

/// Says a moment, in seconds since 1970 UTC.
pub(crate) fn say_date<O: Sink>(moment: u64, out: &mut O) -> Result<(), SinkFault>
    requires { moment ≤ last_moment }
    ensures said { SaysTo O.Sink (date_words moment) out.old out.new result }
    ensures sink { O.alike out.old out.new }
{
    say(&date_line(moment), out)
}

/// Returns the line that says a moment.
fn date_line(moment: u64) -> [u8; 20]
    requires { moment ≤ last_moment }
    ensures { result ≡ date_words moment }
{
    printed_date_is_one();
    let text = print_rfc3339(moment);
    [
        b'1', b'1', b'1', b' ', text[0], text[1], text[2], text[3], text[5], text[6], text[8],
        text[9], text[11], text[12], text[14], text[15], text[17], text[18], b'\r', b'\n',
    ]
}

/// Returns the year of a moment, in UTC.
pub(crate) fn year_of(moment: u64) -> u16
    requires { moment ≤ last_moment }
    ensures value { result ≡ year_at moment }
    ensures bound { IsInRange 1970 9999 result }
{
    printed_date_is_one();
    let text = print_rfc3339(moment);
    let century = u16::from(digit(text[0])) * 10 + u16::from(digit(text[1]));
    let year = u16::from(digit(text[2])) * 10 + u16::from(digit(text[3]));
    century * 100 + year
}

/// Returns the value of a digit.
fn digit(byte: u8) -> u8
    ensures value { result ≡ min (byte - 48) 9 }
    ensures bound { result ≤ 9 }
{
    byte.saturating_sub(b'0').min(9)
}
