//! The page of a listing.
//! Allocates.
ghost use Rattle.std.specs.Prelude.{◌≡◌, ◌++◌, ◌+◌, OnOk, IfOk, length, map, codes};
ghost use Rattle.std.specs.Fmt.{decimal};
ghost use Rattle.std.specs.List.{flat_map};
ghost use Rattle.html_pages.specs.Lines.{row_line, rows_shown, older_link};
ghost use Rattle.html_pages.specs.Pages.{listing_of};

use crate::lines::{end_page, end_title, open_page, push_row};
use arch_base::{Bytes, Name, NoMemory};
use itoa::Buffer;
use mail_forms::Row;
use std::alloc::Global;

/// How many rows a listing shows at once.
pub(crate) const ROWS_SHOWN: usize = 200;

/// Returns the page of a listing.
///
/// `rows` are the rows of the listing after the first `skip`, newest first. The page shows at most
/// 200 of them. If there are more, it has a link to the rest, so 201 rows say as much as all.
/// `NoMemory` if an allocation fails.
#[tactic(auto, unfolding(crate::specs::Pages::listing_of))]
pub fn listing_page(alloc: Global, name: &Name, rows: &[&Row], skip: u64) -> Result<Bytes, NoMemory>
    ensures { IfOk result (λ made. made
        ≡ listing_of name.now (map (λ row. row.now) rows.now) skip) }
{
    let (shown, older) = rows.split_at(rows.len().min(ROWS_SHOWN));
    let mut made = Bytes::new(alloc);
    open_page(&mut made)?;
    made.push_slice(name.as_slice())?;
    end_title(&mut made)?;
    push_rows(alloc, name, shown, &mut made)?;
    push_older(older, skip, &mut made)?;
    end_page(&mut made)?;
    Ok(made)
}

/// Appends the lines of mails.
pub(crate) fn push_rows(
    alloc: Global,
    name: &Name,
    rows: &[&Row],
    into: &mut Bytes,
) -> Result<(), NoMemory>
    ensures { OnOk result (into.new
        ≡ into.old ++ flat_map (λ row. row_line name.now row.now) rows.now) }
{
    for row in rows {
        push_row(alloc, name, *row, into)?;
    }
    Ok(())
}

/// Appends the link to the rows after those that are shown, if there are any.
fn push_older(older: &[&Row], skip: u64, into: &mut Bytes) -> Result<(), NoMemory>
    ensures { OnOk result (into.new ≡ into.old ++ older_link skip (length older.now)) }
{
    if older.is_empty() {
        Ok(())
    } else {
        push_older_link(skip, into)
    }
}

/// Appends the link to the rows after the first `skip` and those that are shown after them.
fn push_older_link(skip: u64, into: &mut Bytes) -> Result<(), NoMemory>
    ensures { OnOk result (into.new ≡ into.old
        ++ codes "<a href=\"?o=" ++ decimal (skip + rows_shown) ++ codes "\">older</a>\n") }
{
    let mut digits = Buffer::new();
    into.push_slice(b"<a href=\"?o=")?;
    into.push_slice(digits.format(skip as u128 + ROWS_SHOWN as u128).as_bytes())?;
    into.push_slice(b"\">older</a>\n")
}
