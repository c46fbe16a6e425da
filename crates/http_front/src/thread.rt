//! The thread of a mail: its mails by date, and its page.
//! Allocates.
ghost use Rattle.std.specs.Prelude.{◌≡◌, ◌++◌, IfOk, OnOk, Some, true, [], map, take, reverse};
ghost use Rattle.std.specs.BTreeSet.{insert_key};
ghost use Rattle.std.specs.List.{flat_map};
ghost use Rattle.arch_model.specs.Archives.{Archive};
ghost use Rattle.arch_model.specs.Listings.{date_cmp, number_beside};
ghost use Rattle.html_pages.specs.Lines.{thread_line};
ghost use Rattle.http_front.specs.Threads.{place_of, oldest_first, thread_rows, tree_line, IsThreadEntryOf};
ghost use Rattle.http_front.specs.Views.{shown_row};
ghost use Rattle.http_front.specs.Asking.{thread_found};
ghost use Rattle.http_front.specs.Sessions.{MakesPage};

use crate::found::FoundBody;
use crate::listing::rows_of;
use arch_base::{MessageNumbers, NoMemory};
use arch_model::Shelf;
use html_pages::{ThreadEntry, ThreadLine, thread_page};
use http_heads::Body;
use mail_forms::Row;
use shelf_trees::twigs_of;
use std::alloc::Global;
use std::collections::BTreeSet;
use thread_tree::{Line, Who};

/// A mail's place in the order of dates: the seconds of its date, and then its number.
type Place = (u64, u32);

/// Returns the numbers of the thread of a number, by date and then by number. Reads no text.
pub(crate) fn oldest_of<S: Shelf>(
    alloc: Global,
    n: u32,
    shelf: &S,
) -> Result<MessageNumbers, NoMemory>
    requires { S.ready shelf.now ≡ true }
    ensures { (a : Archive) → S.holds shelf.now a
        → IfOk result (λ numbers. numbers ≡ oldest_first (thread_rows a n)) }
{
    let mut places = places_of(alloc, n, shelf)?;
    let mut numbers = MessageNumbers::new(alloc);
    while let Some(place) = places.pop_first() {
        numbers.push(place.1)?;
    }
    Ok(numbers)
}

/// Returns the newest numbers of the thread of a number, at most so many, newest first. Reads no
/// text.
pub(crate) fn newest_of<S: Shelf>(
    alloc: Global,
    n: u32,
    count: usize,
    shelf: &S,
) -> Result<MessageNumbers, NoMemory>
    requires { S.ready shelf.now ≡ true }
    ensures { (a : Archive) → S.holds shelf.now a → IfOk result (λ numbers.
        numbers ≡ take count (reverse (oldest_first (thread_rows a n)))) }
{
    let mut numbers = oldest_of(alloc, n, shelf)?.into_vec();
    numbers.as_mut_slice().reverse();
    numbers.truncate(count);
    Ok(MessageNumbers::from_vec(numbers))
}

/// Returns the places of the mails in the thread of a number.
#[tactic(auto, unfolding(crate::specs::Threads::oldest_first))]
fn places_of<S: Shelf>(alloc: Global, n: u32, shelf: &S) -> Result<BTreeSet<Place>, NoMemory>
    requires { S.ready shelf.now ≡ true }
    ensures { (a : Archive) → S.holds shelf.now a
        → IfOk result (λ places. map number_beside places.keys ≡ oldest_first (thread_rows a n)) }
{
    let members = shelf.thread_of(n)?;
    let rows = rows_of(alloc, members.as_slice(), shelf)?;
    let mut places = BTreeSet::new(alloc);
    for row in rows.as_slice() {
        put_place(*row, &mut places)?;
    }
    Ok(places)
}

/// Puts the place of a row where it belongs.
fn put_place(row: &Row, places: &mut BTreeSet<Place>) -> Result<(), NoMemory>
    ensures { OnOk result (places.new.keys ≡ insert_key date_cmp places.old.keys (place_of row.now)) }
{
    places.insert((row.date.secs, row.number))?;
    Ok(())
}

/// Returns the page of the thread of a number, if it has a row. Reads no text.
pub(crate) fn thread_at<S: Shelf>(alloc: Global, n: u32, shelf: &S) -> Result<FoundBody, NoMemory>
    requires { S.ready shelf.now ≡ true }
    ensures { (a : Archive) → S.holds shelf.now a
        → MakesPage (thread_found a n (shown_row a n)) result }
{
    match shelf.row(n) {
        Some(row) => page_at(alloc, n, row, shelf),
        None => Ok(FoundBody::Nothing),
    }
}

/// Returns the page of the thread of a number with this row.
fn page_at<S: Shelf>(alloc: Global, n: u32, row: &Row, shelf: &S) -> Result<FoundBody, NoMemory>
    requires { S.ready shelf.now ≡ true }
    ensures { (a : Archive) → S.holds shelf.now a
        → MakesPage (thread_found a n (Some row.now)) result }
{
    let twigs = twigs_of(alloc, n, shelf)?;
    let tree = twigs.tree()?;
    let lines = lines_of(alloc, tree.as_slice(), shelf)?;
    let page = thread_page(alloc, &shelf.config().name, row, lines.as_slice())?;
    Ok(FoundBody::Whole(Body::Page, page))
}

/// Returns the lines of a page by those of a tree.
fn lines_of<'a, S: Shelf>(
    alloc: Global,
    tree: &'a [Line],
    shelf: &'a S,
) -> Result<Vec<ThreadLine<'a>>, NoMemory>
    requires { S.ready shelf.now ≡ true }
    ensures { (a : Archive) → S.holds shelf.now a → IfOk result (λ lines.
        flat_map (thread_line a.config.name) lines.items
        ≡ flat_map (tree_line a) tree.now) }
{
    let mut lines = Vec::new(alloc);
    for line in tree {
        push_line(line, shelf, &mut lines)?;
    }
    Ok(lines)
}

/// Appends the line of a page by a line of a tree, if there is one.
fn push_line<'a, S: Shelf>(
    line: &'a Line,
    shelf: &'a S,
    lines: &mut Vec<ThreadLine<'a>>,
) -> Result<(), NoMemory>
    requires { S.ready shelf.now ≡ true }
    ensures { (a : Archive) → S.holds shelf.now a → OnOk result (
        flat_map (thread_line a.config.name) lines.new.items
        ≡ flat_map (thread_line a.config.name) lines.old.items
        ++ tree_line a line.now) }
{
    match entry_of(&line.who, shelf) {
        Some(entry) => {
            let depth = line.depth;
            lines.push(ThreadLine { depth, entry })?;
            Ok(())
        }
        None => Ok(()),
    }
}

/// Returns what a line of a tree stands for, unless it is a number without a row.
fn entry_of<'a, S: Shelf>(who: &'a Who, shelf: &'a S) -> Option<ThreadEntry<'a>>
    requires { S.ready shelf.now ≡ true }
    ensures { (a : Archive) → S.holds shelf.now a
        → IsThreadEntryOf a who.now result }
{
    match who {
        Who::Live(n) => match shelf.row(*n) {
            Some(row) => Some(ThreadEntry::Mail(row)),
            None => None,
        },
        Who::Ghost(id) => Some(ThreadEntry::Missing(id.as_slice())),
    }
}
