//! The pieces of lines: the moment and the address of a mail.
//! Allocates.
ghost use Rattle.std.specs.Prelude.{◌≡◌, ◌++◌, OnOk};
ghost use Rattle.html_pages.specs.Pieces.{page_date, address};

use arch_base::{Bytes, LAST_MOMENT, Name, NoMemory, last_moment_is_defined};
use web_text::{push_address, push_page_moment};

/// Appends a moment as `YYYY-MM-DD hh:mm` in UTC.
///
/// `secs` counts seconds since 1970. A moment after the year 9999 is printed as the last minute of
/// that year. `NoMemory` leaves the bytes unchanged.
pub(crate) fn push_date(secs: u64, into: &mut Bytes) -> Result<(), NoMemory>
    ensures { OnOk result (into.new ≡ into.old ++ page_date secs) }
{
    last_moment_is_defined();
    push_page_moment(secs.min(LAST_MOMENT), into)
}

/// Appends the address of a message, `/NAME/ID/`, by the message's id in brackets.
///
/// `NoMemory` may leave a part of the address appended.
#[tactic(auto, unfolding(crate::specs::Pieces::address))]
pub(crate) fn push_place(name: &Name, id: &[u8], into: &mut Bytes) -> Result<(), NoMemory>
    ensures { OnOk result (into.new ≡ into.old ++ address name.now id.now) }
{
    into.push_slice(b"/")?;
    into.push_slice(name.as_slice())?;
    into.push_slice(b"/")?;
    push_address(id, into)?;
    into.push_slice(b"/")
}
