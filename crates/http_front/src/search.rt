//! The page of a search.
//! Allocates.
ghost use Rattle.std.specs.Prelude.{◌≡◌, Some, true};
ghost use Rattle.arch_model.specs.Archives.{Archive};
ghost use Rattle.query_lang.specs.Queries.{query_of};
ghost use Rattle.http_front.specs.Asking.{search_found};
ghost use Rattle.http_front.specs.Sessions.{MakesPage};

use crate::found::FoundBody;
use crate::listing::{ROWS_NEEDED, rows_of};
use arch_base::NoMemory;
use arch_model::Shelf;
use html_pages::search_page;
use http_heads::Body;
use query_lang::{Query, QueryRefusal, read};
use std::alloc::Global;

/// Returns the page of a search for a text after the first `skip` rows that are found, or that the text
/// is no query. Reads no text of a mail.
pub(crate) fn search_at<S: Shelf>(
    alloc: Global,
    text: &[u8],
    skip: u64,
    shelf: &S,
) -> Result<FoundBody, NoMemory>
    requires { S.ready shelf.now ≡ true }
    ensures { (a : Archive) → S.holds shelf.now a
        → MakesPage (search_found a text.now skip (query_of text.now)) result }
{
    match read(alloc, text) {
        Ok(query) => page_of(alloc, text, &query, skip, shelf),
        Err(QueryRefusal::BadRange) => Ok(FoundBody::BadRange),
        Err(QueryRefusal::NoMemory) => Err(NoMemory),
    }
}

/// Returns the page of what a query finds, after the first `skip` rows.
fn page_of<S: Shelf>(
    alloc: Global,
    text: &[u8],
    query: &Query,
    skip: u64,
    shelf: &S,
) -> Result<FoundBody, NoMemory>
    requires { S.ready shelf.now ≡ true }
    ensures { (a : Archive) → S.holds shelf.now a
        → MakesPage (search_found a text.now skip (Some query.now)) result }
{
    let found = shelf.search_page(query, skip, ROWS_NEEDED)?;
    let rows = rows_of(alloc, found.as_slice(), shelf)?;
    let page = search_page(alloc, &shelf.config().name, text, rows.as_slice(), skip)?;
    Ok(FoundBody::Whole(Body::Page, page))
}
