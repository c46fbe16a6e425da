//! The page and the text of a message.
//! Reads the disk.
ghost use Rattle.std.specs.Prelude.{◌≡◌, Some, true};
ghost use Rattle.arch_model.specs.OverShelf.{ShelfKept};
ghost use Rattle.arch_model.specs.Archives.{Archive};
ghost use Rattle.arch_model.specs.Shelves.{ReadCause, ReadsOnce};
ghost use Rattle.http_front.specs.Views.{shown_row, shown_text};
ghost use Rattle.http_front.specs.Asking.{message_found, text_found};
ghost use Rattle.http_front.specs.Sessions.{FindsIn, MakesPage};

use crate::found::FoundBody;
use arch_base::{Bytes, NoMemory};
use arch_model::{Shelf, TextRefusal, is_live};
use html_pages::message_page;
use http_heads::Body;
use mail_forms::Row;
use mime_parts::body_text;
use std::alloc::Global;

/// Returns the text of a number, if it is live. Reads one text.
pub(crate) fn text_at<S: Shelf>(
    alloc: Global,
    n: u32,
    shelf: &mut S,
) -> Result<FoundBody, TextRefusal>
    requires { S.ready shelf.old ≡ true }
    ensures found { FindsIn S.holds (λ a. text_found (shown_text a.entries n)) (λ a. true)
        shelf.old result }
    ensures shelf { ShelfKept S.Shelf shelf.old shelf.new }
    ensures cause { ReadCause (S.faults shelf.old) (S.faults shelf.new) result }
    ensures reads { ReadsOnce (S.reads shelf.old) (S.reads shelf.new) }
{
    if !is_live(n, shelf) {
        return Ok(FoundBody::Nothing);
    }
    let mut text = Bytes::new(alloc);
    match shelf.text(n, &mut text) {
        Ok(()) => Ok(FoundBody::Whole(Body::Text, text)),
        Err(refusal) => Err(refusal),
    }
}

/// Returns the page of a number, if it is live. Reads one text.
pub(crate) fn message_at<S: Shelf>(
    alloc: Global,
    n: u32,
    shelf: &mut S,
) -> Result<FoundBody, TextRefusal>
    requires { S.ready shelf.old ≡ true }
    ensures found { FindsIn S.holds
        (λ a. message_found a (shown_row a n) (shown_text a.entries n)) (λ a. true)
        shelf.old result }
    ensures shelf { ShelfKept S.Shelf shelf.old shelf.new }
    ensures cause { ReadCause (S.faults shelf.old) (S.faults shelf.new) result }
    ensures reads { ReadsOnce (S.reads shelf.old) (S.reads shelf.new) }
{
    if !is_live(n, shelf) {
        return Ok(FoundBody::Nothing);
    }
    let mut text = Bytes::new(alloc);
    match shelf.text(n, &mut text) {
        Ok(()) => match page_with(alloc, n, text.as_slice(), shelf) {
            Ok(held) => Ok(held),
            Err(NoMemory) => Err(TextRefusal::NoMemory),
        },
        Err(refusal) => Err(refusal),
    }
}

/// Returns the page of a number with this text, if it has a row.
fn page_with<S: Shelf>(alloc: Global, n: u32, text: &[u8], shelf: &S) -> Result<FoundBody, NoMemory>
    requires { S.ready shelf.now ≡ true }
    ensures { (a : Archive) → S.holds shelf.now a
        → MakesPage (message_found a (shown_row a n) (Some text.now)) result }
{
    match shelf.row(n) {
        Some(row) => page_of(alloc, row, text, shelf),
        None => Ok(FoundBody::Nothing),
    }
}

/// Returns the page of a row and its text.
fn page_of<S: Shelf>(
    alloc: Global,
    row: &Row,
    text: &[u8],
    shelf: &S,
) -> Result<FoundBody, NoMemory>
    requires { S.ready shelf.now ≡ true }
    ensures { (a : Archive) → S.holds shelf.now a
        → MakesPage (message_found a (Some row.now) (Some text.now)) result }
{
    let body = body_text(alloc, text)?;
    let page = message_page(alloc, &shelf.config().name, row, text, body.as_slice())?;
    Ok(FoundBody::Whole(Body::Page, page))
}
