//! The page of a search.
//! Allocates.
ghost use Rattle.std.specs.Prelude.{◌≡◌, ◌++◌, ◌+◌, OnOk, IfOk, length, map, codes};
ghost use Rattle.std.specs.Fmt.{decimal};
ghost use Rattle.form_urlencoded.specs.Form.{byte_serialize as form_encoded};
ghost use Rattle.html_pages.specs.Lines.{rows_shown, older_found};
ghost use Rattle.html_pages.specs.Pages.{search_of};

use crate::lines::{end_page, end_title, open_page};
use crate::listing::{ROWS_SHOWN, push_rows};
use arch_base::{Bytes, Name, NoMemory};
use form_urlencoded::byte_serialize;
use itoa::Buffer;
use mail_forms::Row;
use std::alloc::Global;

/// Returns the page of a search for a text.
///
/// `rows` are the rows that were found after the first `skip`, newest first. The page shows at most
/// 200 of them. If there are more, it has a link to the rest, which searches for the same text, so
/// 201 rows say as much as all. `NoMemory` if an allocation fails.
#[tactic(auto, unfolding(crate::specs::Pages::search_of))]
pub fn search_page(
    alloc: Global,
    name: &Name,
    text: &[u8],
    rows: &[&Row],
    skip: u64,
) -> Result<Bytes, NoMemory>
    ensures { IfOk result (λ made. made
        ≡ search_of name.now text.now (map (λ row. row.now) rows.now) skip) }
{
    let (shown, older) = rows.split_at(rows.len().min(ROWS_SHOWN));
    let mut made = Bytes::new(alloc);
    open_page(&mut made)?;
    made.push_slice(name.as_slice())?;
    end_title(&mut made)?;
    push_rows(alloc, name, shown, &mut made)?;
    push_older(text, older, skip, &mut made)?;
    end_page(&mut made)?;
    Ok(made)
}

/// Appends the link to the rows after those that are shown, if there are any.
fn push_older(text: &[u8], older: &[&Row], skip: u64, into: &mut Bytes) -> Result<(), NoMemory>
    ensures { OnOk result (into.new ≡ into.old ++ older_found text.now skip (length older.now)) }
{
    if older.is_empty() {
        Ok(())
    } else {
        push_older_link(text, skip, into)
    }
}

/// Appends the link to the rows after the first `skip` and those that are shown after them.
fn push_older_link(text: &[u8], skip: u64, into: &mut Bytes) -> Result<(), NoMemory>
    ensures { OnOk result (into.new ≡ into.old ++ codes "<a href=\"?q=" ++ form_encoded text.now
        ++ codes "&amp;o=" ++ decimal (skip + rows_shown) ++ codes "\">older</a>\n") }
{
    let mut digits = Buffer::new();
    into.push_slice(b"<a href=\"?q=")?;
    push_encoded(text, into)?;
    into.push_slice(b"&amp;o=")?;
    into.push_slice(digits.format(skip as u128 + ROWS_SHOWN as u128).as_bytes())?;
    into.push_slice(b"\">older</a>\n")
}

/// Appends a text as a form has it (URL Standard, section 5.2).
///
/// `NoMemory` may leave a part of it appended.
fn push_encoded(text: &[u8], into: &mut Bytes) -> Result<(), NoMemory>
    ensures { OnOk result (into.new ≡ into.old ++ form_encoded text.now) }
{
    for piece in byte_serialize(text) {
        into.push_slice(piece.as_bytes())?;
    }
    Ok(())
}
