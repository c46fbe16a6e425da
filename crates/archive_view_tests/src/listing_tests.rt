//! The rows of archives in memory and on disks: what each row says, how it is found, and the listing.
use arch_model::{Command, Keep, OpenRefusal, Shelf};
use archive_fixtures::{Check, accepted, answer, both_pass, on_disk, opened};
use disk_model::MemDisk;
use fixtures::{FIRST, FIRST_ID, LATER, MOMENT, SECOND};
use std::alloc::Global;
use std::test::Fail;

/// A mail of the day after the first one.
const NEXT_DAY: &[u8] =
    b"From: Bob <bob@example.org>\nDate: Fri, 2 Feb 2024 10:00:00 +0000\nSubject: next\nMessage-ID: <n@x>\n\ntwo\n";

/// A mail without a date, which is dated by its arrival.
const UNDATED: &[u8] = b"From: Eve <eve@example.org>\nSubject: none\nMessage-ID: <u@x>\n\nthree\n";

/// The overview line of the first mail.
const FIRST_OVER: &[u8] =
    b"first\tAnn <ann@example.org>\tThu, 1 Feb 2024 10:00:00 +0000\t<a@x>\t\t109\t1";

/// Delivers the first mail, the one of the next day, the first one with another id, and the one
/// without a date, 100 seconds later than the date of the first. Returns whether none left the keeper
/// stale.
fn takes_four<K: Keep>(keep: &mut K) -> Result<bool, OpenRefusal> {
    let mut ready = true;
    for mail in [FIRST, NEXT_DAY, SECOND, UNDATED] {
        let _ = answer(keep, &Command::Deliver(mail), MOMENT)?;
        ready = ready && !keep.is_stale();
    }
    Ok(ready)
}

/// Returns whether a part of the listing has these numbers.
fn page_is<K: Keep>(keep: &mut K, skip: u64, count: u64, wanted: &[u32]) -> Result<bool, Fail> {
    keep.fresh()?;
    let page = keep.order_page(skip, count)?;
    Ok(page.as_slice() == wanted)
}

/// Returns whether an id has this number.
fn id_is<K: Keep>(keep: &mut K, id: &[u8], wanted: Option<u32>) -> Result<bool, OpenRefusal> {
    keep.fresh()?;
    Ok(keep.by_id(id) == wanted)
}

/// Returns whether a number has a row.
fn has_row<K: Keep>(keep: &mut K, n: u32) -> Result<bool, OpenRefusal> {
    keep.fresh()?;
    Ok(keep.row(n).is_some())
}

/// Returns whether the row of the first mail says what the mail does.
fn first_row_is_right<K: Keep>(keep: &mut K) -> Result<bool, OpenRefusal> {
    keep.fresh()?;
    match keep.row(1) {
        None => Ok(false),
        Some(row) => {
            let names = row.subject.as_slice() == b"first".as_slice()
                && row.from.as_slice() == b"Ann".as_slice();
            let line = row.over.as_slice() == FIRST_OVER
                && row.id.as_slice() == b"<a@x>".as_slice();
            let dates = row.date.secs == 1_706_781_600 && row.arrived == MOMENT;
            let sizes = row.size == 103 && row.wire == 109 && row.mbox == 143 && row.lines == 1;
            Ok(names && line && dates && sizes && row.number == 1)
        }
    }
}

/// Returns whether the four mails are listed by date and number, newest first, in any part.
fn lists_four<K: Keep>(keep: &mut K) -> Result<bool, Fail> {
    let all = page_is(keep, 0, 200, &[2, 4, 3, 1])?;
    let part = page_is(keep, 1, 2, &[4, 3])?;
    let last = page_is(keep, 3, u64::MAX, &[1])?;
    let past = page_is(keep, 4, 1, &[])?;
    let none = page_is(keep, 0, 0, &[])?;
    Ok(all && part && last && past && none)
}

/// Delivers four mails, and returns whether they are listed, and found by their ids.
fn shows_four<K: Keep>(keep: &mut K) -> Result<bool, Fail> {
    let none = page_is(keep, 0, 9, &[])?;
    let taken = takes_four(keep)?;
    let first = first_row_is_right(keep)?;
    let listed = lists_four(keep)?;
    let found = id_is(keep, b"<n@x>", Some(2))? && id_is(keep, b"<z@x>", None)?;
    Ok(none && taken && first && listed && found)
}

/// Removes the first two mails and delivers the first again, and returns whether the rows follow.
fn follows_removals<K: Keep>(keep: &mut K) -> Result<bool, Fail> {
    let gone = answer(keep, &Command::Remove(1), LATER)?;
    let _ = answer(keep, &Command::Remove(2), LATER)?;
    let ready = !keep.is_stale();
    let rest = page_is(keep, 0, 9, &[4, 3])?;
    let lost = id_is(keep, b"<a@x>", None)? && !has_row(keep, 1)?;
    let again = answer(keep, &Command::Deliver(FIRST), LATER)?;
    let new = page_is(keep, 0, 9, &[4, 5, 3])? && id_is(keep, b"<a@x>", Some(5))?;
    let answered = Some(gone) == accepted(1, FIRST_ID) && Some(again) == accepted(5, FIRST_ID);
    Ok(ready && rest && lost && new && answered)
}

/// The four mails are listed, and found by their ids.
struct ShowsFour;

impl Check for ShowsFour {
    fn passes<K: Keep>(_alloc: Global, keep: &mut K) -> Result<bool, Fail> {
        shows_four(keep)
    }
}

#[test]
fn rows_are_listed_by_date_and_number(rt: HostRuntime) -> Result<(), Fail> {
    assert!(rt; both_pass::<ShowsFour>(rt.alloc(), 2000)?);
    Ok(())
}

/// The rows of the four mails follow removals.
pub(crate) struct FollowsRemovals;

impl Check for FollowsRemovals {
    fn passes<K: Keep>(_alloc: Global, keep: &mut K) -> Result<bool, Fail> {
        let shown = shows_four(keep)?;
        let follows = follows_removals(keep)?;
        Ok(shown && follows)
    }
}

#[test]
fn rows_follow_removals(rt: HostRuntime) -> Result<(), Fail> {
    assert!(rt; both_pass::<FollowsRemovals>(rt.alloc(), 2000)?);
    Ok(())
}

/// Makes an archive of four mails of which two were removed and one came again, and returns its disk.
fn disk_of_three(alloc: Global) -> Result<MemDisk, Fail> {
    let mut engine = on_disk(alloc, 400, false)?;
    let _ = FollowsRemovals::passes(alloc, &mut engine)?;
    Ok(engine.into_disk())
}

/// Returns whether the rows of these three mails are listed and found.
pub(crate) fn has_three<K: Keep>(keep: &mut K) -> Result<bool, Fail> {
    let listed = page_is(keep, 0, 9, &[4, 5, 3])?;
    let found = id_is(keep, b"<a@x>", Some(5))?;
    let gone = !has_row(keep, 2)?;
    let there = has_row(keep, 3)?;
    Ok(listed && found && gone && there)
}

/// Opens the archive on a disk, and returns whether it has those rows and no other.
fn opened_has_three(alloc: Global, disk: MemDisk) -> Result<bool, Fail> {
    let mut engine = opened(alloc, disk)?;
    let three = has_three(&mut engine)?;
    Ok(three && engine.message_count() == 3)
}

#[test]
fn rows_are_the_same_after_a_reopening(rt: HostRuntime) -> Result<(), Fail> {
    let disk = disk_of_three(rt.alloc())?;
    assert!(rt; opened_has_three(rt.alloc(), disk)?);
    Ok(())
}
