//! The dates of replies.
//! Pure.
ghost use Rattle.std.specs.Prelude.{◌≡◌};
ghost use Rattle.arch_base.specs.Moments.{IsMoment};
ghost use Rattle.http_heads.specs.Dates.{reply_date};

use httpdate::HttpDate;

/// Returns the date of a moment, in seconds since 1970 UTC, as the head of a reply has it.
pub fn date_at(moment: u64) -> [u8; 29]
    requires { IsMoment moment }
    ensures { result ≡ reply_date moment }
{
    let Ok(date) = HttpDate::from_unix_secs(moment) else {
        unreachable!()
    };
    date.to_bytes()
}
