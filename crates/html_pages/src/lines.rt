//! What several pages share: their frame, and the line of a mail.
//! Allocates.
ghost use Rattle.std.specs.Prelude.{◌≡◌, ◌++◌, OnOk, codes};
ghost use Rattle.html_pages.specs.Lines.{row_line};

use crate::pieces::{push_date, push_place};
use arch_base::{Bytes, Name, NoMemory};
use mail_forms::Row;
use std::alloc::Global;
use web_text::{push_escaped, push_title};

/// Appends what a page has before its title.
///
/// `NoMemory` leaves the bytes unchanged.
pub(crate) fn open_page(into: &mut Bytes) -> Result<(), NoMemory>
    ensures { OnOk result (into.new ≡ into.old ++ codes "<html><head><title>") }
{
    into.push_slice(b"<html><head><title>")
}

/// Appends what a page has between its title and its lines.
///
/// `NoMemory` leaves the bytes unchanged.
pub(crate) fn end_title(into: &mut Bytes) -> Result<(), NoMemory>
    ensures { OnOk result (into.new ≡ into.old ++ codes "</title></head><body><pre>") }
{
    into.push_slice(b"</title></head><body><pre>")
}

/// Appends what a page has after its lines.
///
/// `NoMemory` leaves the bytes unchanged.
pub(crate) fn end_page(into: &mut Bytes) -> Result<(), NoMemory>
    ensures { OnOk result (into.new ≡ into.old ++ codes "</pre></body></html>\n") }
{
    into.push_slice(b"</pre></body></html>\n")
}

/// Appends the line of a mail: its date, its subject as a link to its page, and its author.
///
/// `NoMemory` may leave a part of the line appended.
#[tactic(auto, unfolding(crate::specs::Lines::row_line))]
pub(crate) fn push_row(
    alloc: Global,
    name: &Name,
    row: &Row,
    into: &mut Bytes,
) -> Result<(), NoMemory>
    ensures { OnOk result (into.new ≡ into.old ++ row_line name.now row.now) }
{
    push_date(row.date.secs, into)?;
    into.push_slice(b" <a href=\"")?;
    push_place(name, row.id.as_slice(), into)?;
    into.push_slice(b"\">")?;
    push_title(alloc, row.subject.as_slice(), into)?;
    into.push_slice(b"</a> ")?;
    push_escaped(alloc, row.from.as_slice(), into)?;
    into.push_slice(b"\n")
}
