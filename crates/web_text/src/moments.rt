//! Moments in feeds and pages.
//! Allocates.
ghost use Rattle.std.specs.Prelude.{◌≡◌, ◌++◌, OnOk, OnErr};
ghost use Rattle.arch_base.specs.Moments.{IsMoment};
ghost use Rattle.web_text.specs.Days.{moment_text, page_moment};

use arch_base::{Bytes, NoMemory};
use mail_date::{print_page, print_rfc3339, printed_date_is_one};

/// Appends a moment, in seconds since 1970 UTC, as a feed has it: `YYYY-MM-DDThh:mm:ssZ`.
///
/// `NoMemory` leaves the bytes unchanged.
pub fn push_moment(secs: u64, into: &mut Bytes) -> Result<(), NoMemory>
    requires { IsMoment secs }
    ensures ok { OnOk result (into.new ≡ into.old ++ moment_text secs) }
    ensures err { OnErr result (into.new ≡ into.old) }
{
    printed_date_is_one();
    into.push_slice(&print_rfc3339(secs))
}

/// Appends a moment, in seconds since 1970 UTC, as a page has it: `YYYY-MM-DD hh:mm`.
///
/// `NoMemory` leaves the bytes unchanged.
pub fn push_page_moment(secs: u64, into: &mut Bytes) -> Result<(), NoMemory>
    requires { IsMoment secs }
    ensures ok { OnOk result (into.new ≡ into.old ++ page_moment secs) }
    ensures err { OnErr result (into.new ≡ into.old) }
{
    printed_date_is_one();
    into.push_slice(&print_page(secs))
}
