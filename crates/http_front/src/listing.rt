//! The page of the listing, or of a search.
//! Allocates.
ghost use Rattle.std.specs.Prelude.{◌≡◌, ◌++◌, IfOk, OnOk, None, true, codes, map, option_copied};
ghost use Rattle.arch_model.specs.Archives.{Archive};
ghost use Rattle.http_heads.specs.Parameters.{parameter as parameter_of, skipped};
ghost use Rattle.http_front.specs.Views.{one_row, rows_at};
ghost use Rattle.http_front.specs.Asking.{Gives, listing_found};
ghost use Rattle.http_front.specs.Sessions.{MakesPage};

use crate::found::FoundBody;
use crate::search::search_at;
use arch_base::{Bytes, NoMemory};
use arch_model::Shelf;
use html_pages::listing_page;
use http_heads::{Body, parameter, skip_of};
use mail_forms::Row;
use std::alloc::Global;

/// The rows that a page needs: those that it shows, and one that says that there are more.
pub(crate) const ROWS_NEEDED: u64 = 201;

/// Returns the page of the listing, or of a search, by the parameters of its target. Reads no text.
pub(crate) fn listing_at<S: Shelf>(
    alloc: Global,
    query: &[u8],
    shelf: &S,
) -> Result<FoundBody, NoMemory>
    requires { S.ready shelf.now ≡ true }
    ensures { (a : Archive) → S.holds shelf.now a → MakesPage
        (listing_found a (parameter_of (codes "q") query.now) (skipped (parameter_of (codes "o") query.now)))
        result }
{
    let asked = parameter(alloc, query, b"q")?;
    let skip = skip_in(alloc, query)?;
    page_by(alloc, asked, skip, shelf)
}

/// Returns the page of a search for a text, or without one that of the listing.
fn page_by<S: Shelf>(
    alloc: Global,
    asked: Option<Bytes>,
    skip: u64,
    shelf: &S,
) -> Result<FoundBody, NoMemory>
    requires { S.ready shelf.now ≡ true }
    ensures { (a : Archive) → S.holds shelf.now a → MakesPage (listing_found a asked skip) result }
{
    match asked {
        Some(text) => search_at(alloc, text.as_slice(), skip, shelf),
        None => {
            let page = listing_from(alloc, skip, shelf)?;
            Ok(FoundBody::Whole(Body::Page, page))
        }
    }
}

/// Returns the page of the listing after the rows that are skipped.
fn listing_from<S: Shelf>(alloc: Global, skip: u64, shelf: &S) -> Result<Bytes, NoMemory>
    requires { S.ready shelf.now ≡ true }
    ensures { (a : Archive) → S.holds shelf.now a
        → IfOk result (λ page. listing_found a None skip ≡ Gives Body.Page page) }
{
    let numbers = shelf.order_page(skip, ROWS_NEEDED)?;
    let rows = rows_of(alloc, numbers.as_slice(), shelf)?;
    listing_page(alloc, &shelf.config().name, rows.as_slice(), skip)
}

/// Returns how many rows the parameters of a target skip.
fn skip_in(alloc: Global, query: &[u8]) -> Result<u64, NoMemory>
    ensures { IfOk result (λ skip. skip ≡ skipped (parameter_of (codes "o") query.now)) }
{
    match parameter(alloc, query, b"o")? {
        Some(value) => Ok(skip_of(Some(value.as_slice()))),
        None => Ok(0),
    }
}

/// Returns the rows of these numbers, in their order.
pub(crate) fn rows_of<'a, S: Shelf>(
    alloc: Global,
    numbers: &[u32],
    shelf: &'a S,
) -> Result<Vec<&'a Row>, NoMemory>
    requires { S.ready shelf.now ≡ true }
    ensures { (a : Archive) → S.holds shelf.now a → IfOk result (λ rows.
        map (λ row. row.now) rows.items ≡ rows_at a numbers.now) }
{
    let mut rows = Vec::new(alloc);
    for n in numbers {
        push_found(shelf.row(*n), &mut rows)?;
    }
    Ok(rows)
}

/// Appends a row, if there is one.
fn push_found<'a>(found: Option<&'a Row>, rows: &mut Vec<&'a Row>) -> Result<(), NoMemory>
    ensures { OnOk result (map (λ row. row.now) rows.new.items
        ≡ map (λ row. row.now) rows.old.items ++ one_row (option_copied found.entry)) }
{
    match found {
        Some(row) => {
            rows.push(row)?;
            Ok(())
        }
        None => Ok(()),
    }
}
