//! Feeds.
//! Reads the disk.
ghost use Rattle.std.specs.Prelude.{◌≡◌, ◌++◌, length, OnOk, IfSome, Some, true, is_some};
ghost use Rattle.arch_base.specs.Moments.{IsMoment};
ghost use Rattle.arch_model.specs.OverShelf.{ShelfKept};
ghost use Rattle.arch_model.specs.Archives.{Archive, live, text_of};
ghost use Rattle.arch_model.specs.Shelves.{ReadCause, ReadsOnce, ReadsUpTo};
ghost use Rattle.atom_mbox.specs.Feeds.{feed_start, entries_of, updated_of};
ghost use Rattle.http_front.specs.Views.{shown_row, shown_text, shown_at, shown_all, shown_by};
ghost use Rattle.http_front.specs.Asking.{feed_found};
ghost use Rattle.http_front.specs.Feeding.{AppendsOrRefuses, arrival_of, later_of, latest_of};
ghost use Rattle.http_front.specs.Sessions.{FindsIn};

use crate::found::FoundBody;
use arch_base::{Bytes, LAST_MOMENT, Name, NoMemory, last_moment_is_defined};
use arch_model::{Shelf, TextRefusal, is_live};
use atom_mbox::{push_feed_end, push_feed_entry, push_feed_start};
use http_heads::Body;
use mail_forms::Row;
use mime_parts::body_text;
use std::alloc::Global;

/// Returns the feed of these numbers, in their order. Reads a text for each that is live.
pub(crate) fn feed_at<S: Shelf>(
    alloc: Global,
    numbers: &[u32],
    shelf: &mut S,
) -> Result<FoundBody, TextRefusal>
    requires { S.ready shelf.old ≡ true }
    ensures found { FindsIn S.holds (λ a. feed_found a numbers.now) (λ a. true) shelf.old
        result }
    ensures shelf { ShelfKept S.Shelf shelf.old shelf.new }
    ensures cause { ReadCause (S.faults shelf.old) (S.faults shelf.new) result }
    ensures reads { ReadsUpTo (length numbers.now) (S.reads shelf.old) (S.reads shelf.new) }
{
    let mut made = Bytes::new(alloc);
    match start_feed(numbers, shelf, &mut made) {
        Ok(()) => {}
        Err(NoMemory) => return Err(TextRefusal::NoMemory),
    }
    match push_mails(alloc, numbers, shelf, &mut made) {
        Ok(()) => {}
        Err(refusal) => return Err(refusal),
    }
    match push_feed_end(&mut made) {
        Ok(()) => Ok(FoundBody::Whole(Body::Feed, made)),
        Err(NoMemory) => Err(TextRefusal::NoMemory),
    }
}

/// Appends what is before the entries of the feed of these numbers.
fn start_feed<S: Shelf>(numbers: &[u32], shelf: &S, into: &mut Bytes) -> Result<(), NoMemory>
    requires { S.ready shelf.now ≡ true }
    ensures { (a : Archive) → S.holds shelf.now a → OnOk result (into.new ≡ into.old
        ++ feed_start a.config.name (updated_of a.config.born (shown_all a numbers.now))) }
{
    push_feed_start(&shelf.config().name, updated(numbers, shelf), into)
}

/// Returns when the feed of these numbers was updated: at the last of their arrivals, or when the
/// archive was created.
fn updated<S: Shelf>(numbers: &[u32], shelf: &S) -> u64
    requires { S.ready shelf.now ≡ true }
    ensures value { (a : Archive) → S.holds shelf.now a
        → result ≡ updated_of a.config.born (shown_all a numbers.now) }
    ensures moment { IsMoment result }
{
    match latest(numbers, shelf) {
        Some(last) => last,
        None => u64::from(shelf.config().born),
    }
}

/// Returns the last of the arrivals of these numbers, or `None` if none of them is live.
fn latest<S: Shelf>(numbers: &[u32], shelf: &S) -> Option<u64>
    requires { S.ready shelf.now ≡ true }
    ensures value { (a : Archive) → S.holds shelf.now a
        → result ≡ latest_of (shown_all a numbers.now) }
    ensures moment { IfSome result IsMoment }
{
    let mut last = None;
    for n in numbers {
        last = later(last, arrival(*n, shelf));
    }
    last
}

/// Returns when the mail of a number arrived, if it is live and arrived at a moment.
fn arrival<S: Shelf>(n: u32, shelf: &S) -> Option<u64>
    requires { S.ready shelf.now ≡ true }
    ensures value { (a : Archive) → S.holds shelf.now a → result ≡ latest_of (shown_at a n) }
    ensures moment { IfSome result IsMoment }
{
    match shelf.row(n) {
        Some(row) => moment_of(row),
        None => None,
    }
}

/// Returns when the mail of a row arrived, if that is a moment.
fn moment_of(row: &Row) -> Option<u64>
    ensures value { result ≡ arrival_of row.now }
    ensures moment { IfSome result IsMoment }
{
    last_moment_is_defined();
    if row.arrived <= LAST_MOMENT {
        Some(row.arrived)
    } else {
        None
    }
}

/// Returns the later of two moments that may be there.
fn later(first: Option<u64>, second: Option<u64>) -> Option<u64>
    ensures value { result ≡ later_of first second }
    ensures moment { IfSome first IsMoment → IfSome second IsMoment → IfSome result IsMoment }
{
    match (first, second) {
        (Some(a), Some(b)) => Some(a.max(b)),
        (Some(a), None) => Some(a),
        (None, b) => b,
    }
}

/// Appends the entries of these numbers.
///
/// A refusal may leave a part of them appended.
fn push_mails<S: Shelf>(
    alloc: Global,
    numbers: &[u32],
    shelf: &mut S,
    into: &mut Bytes,
) -> Result<(), TextRefusal>
    requires { S.ready shelf.old ≡ true }
    ensures entries { (a : Archive) → S.holds shelf.old a → AppendsOrRefuses
        (entries_of a.config.name (shown_all a numbers.now)) into.old into.new result }
    ensures shelf { ShelfKept S.Shelf shelf.old shelf.new }
    ensures cause { ReadCause (S.faults shelf.old) (S.faults shelf.new) result }
    ensures reads { ReadsUpTo (length numbers.now) (S.reads shelf.old) (S.reads shelf.new) }
{
    for n in numbers {
        match push_mail(alloc, *n, shelf, into) {
            Ok(()) => {}
            Err(refusal) => return Err(refusal),
        }
    }
    Ok(())
}

/// Appends the entry of a number, if it is live. Reads at most one text.
///
/// A refusal may leave a part of it appended.
fn push_mail<S: Shelf>(
    alloc: Global,
    n: u32,
    shelf: &mut S,
    into: &mut Bytes,
) -> Result<(), TextRefusal>
    requires { S.ready shelf.old ≡ true }
    ensures entry { (a : Archive) → S.holds shelf.old a → AppendsOrRefuses
        (entries_of a.config.name (shown_at a n)) into.old into.new result }
    ensures shelf { ShelfKept S.Shelf shelf.old shelf.new }
    ensures cause { ReadCause (S.faults shelf.old) (S.faults shelf.new) result }
    ensures reads { ReadsOnce (S.reads shelf.old) (S.reads shelf.new) }
{
    if is_live(n, shelf) {
        push_live(alloc, n, shelf, into)
    } else {
        Ok(())
    }
}

/// Appends the entry of a live number.
///
/// A refusal may leave a part of it appended.
fn push_live<S: Shelf>(
    alloc: Global,
    n: u32,
    shelf: &mut S,
    into: &mut Bytes,
) -> Result<(), TextRefusal>
    requires ready { S.ready shelf.old ≡ true }
    requires live { (a : Archive) → S.holds shelf.old a
        → is_some (text_of (live a.entries) n) ≡ true }
    ensures entry { (a : Archive) → S.holds shelf.old a → AppendsOrRefuses (entries_of a.config.name
        (shown_by (shown_row a n) (shown_text a.entries n))) into.old into.new result }
    ensures shelf { ShelfKept S.Shelf shelf.old shelf.new }
    ensures cause { ReadCause (S.faults shelf.old) (S.faults shelf.new) result }
    ensures reads { ReadsOnce (S.reads shelf.old) (S.reads shelf.new) }
{
    let mut text = Bytes::new(alloc);
    match shelf.text(n, &mut text) {
        Ok(()) => match push_read(alloc, n, text.as_slice(), shelf, into) {
            Ok(()) => Ok(()),
            Err(NoMemory) => Err(TextRefusal::NoMemory),
        },
        Err(refusal) => Err(refusal),
    }
}

/// Appends the entry of a number with this text, if it has a row.
fn push_read<S: Shelf>(
    alloc: Global,
    n: u32,
    text: &[u8],
    shelf: &S,
    into: &mut Bytes,
) -> Result<(), NoMemory>
    requires { S.ready shelf.now ≡ true }
    ensures { (a : Archive) → S.holds shelf.now a → OnOk result (into.new ≡ into.old
        ++ entries_of a.config.name (shown_by (shown_row a n) (Some text.now))) }
{
    match shelf.row(n) {
        Some(row) => push_entry(alloc, &shelf.config().name, row, text, into),
        None => Ok(()),
    }
}

/// Appends the entry of a row and its text, if the mail arrived at a moment.
fn push_entry(
    alloc: Global,
    name: &Name,
    row: &Row,
    text: &[u8],
    into: &mut Bytes,
) -> Result<(), NoMemory>
    ensures { OnOk result (into.new ≡ into.old
        ++ entries_of name.now (shown_by (Some row.now) (Some text.now))) }
{
    last_moment_is_defined();
    if row.arrived > LAST_MOMENT {
        return Ok(());
    }
    let body = body_text(alloc, text)?;
    push_feed_entry(alloc, name, row, body.as_slice(), into)
}
