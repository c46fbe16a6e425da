//! An archive that owns its disk, by the trait of keepers: what it gives.
use arch_base::{Bytes, Form, id_of_hex};
use arch_model::{Answer, Command, EntryLine, Keep, OpenRefusal};
use archive_core::{Engine, NotMade, NotOpened};
use archive_fixtures::{
    Check, accepted, answer, are_alike, blob_is, both_pass, line, live_from, made, opened,
    put_blob, text_is, two_in_memory,
};
use disk_model::MemDisk;
use epoch_store::InitRefusal;
use fixtures::{FIRST, FIRST_ID, MOMENT, OTHER_ID, SECOND, SECOND_ID, empty_disk, settings};
use mem_archive::MemArchive;
use std::alloc::Global;
use std::test::Fail;

/// Delivers two messages to an archive without any, and returns whether each is answered as it
/// should be.
fn takes_two<K: Keep>(keep: &mut K) -> Result<bool, OpenRefusal> {
    let none = live_from(keep, 0)?;
    let first = answer(keep, &Command::Deliver(FIRST), MOMENT)?;
    let second = answer(keep, &Command::Deliver(SECOND), MOMENT)?;
    let answered = Some(first) == accepted(1, FIRST_ID) && Some(second) == accepted(2, SECOND_ID);
    Ok(answered && none == None)
}

/// Returns whether two messages are found by their numbers, and the first one by its text.
fn finds_two<K: Keep>(alloc: Global, keep: &mut K) -> Result<bool, Fail> {
    let one = live_from(keep, 0)?;
    let two = live_from(keep, 2)?;
    let text = text_is(alloc, keep, 1, FIRST)?;
    Ok(text && one == Some(1) && two == Some(2))
}

/// Two messages.
static TWO: [Command<'static>; 2] = [Command::Deliver(FIRST), Command::Deliver(SECOND)];

#[test]
fn an_engine_gives_what_the_archive_in_memory_does(rt: HostRuntime) -> Result<(), Fail> {
    assert!(rt; are_alike(rt.alloc(), 316, &TWO, 2)?);
    Ok(())
}

/// Returns whether a keeper of two messages counts and names them by their numbers.
fn counts_two<K: Keep>(keep: &mut K) -> Result<bool, OpenRefusal> {
    keep.fresh()?;
    let last = keep.live_to(9) == Some(2)
        && keep.live_to(1) == Some(1)
        && keep.live_to(0).is_none();
    let crash_between = keep.live_count(0, 9) == 2 && keep.live_count(2, 2) == 1;
    let none = keep.live_count(3, 9) == 0 && keep.live_count(2, 1) == 0;
    let settings = keep.config().limit == 316 && keep.next_number() == 3;
    Ok(last && crash_between && none && settings)
}

/// Returns whether an entry is a message of this number, epoch and blob id, with a text of this size.
fn is_line(entry: Option<EntryLine>, number: u32, epoch: u32, hex: &[u8], text: &[u8]) -> bool {
    let Some(line) = entry else {
        return false;
    };
    let placed = line.number == number && line.epoch == epoch && line.secs == MOMENT;
    placed && Some(line.blob) == id_of_hex(hex, Form::Sha1) && line.size == text.len() as u64
}

/// Returns whether a keeper has two messages as its entries, the second one in a second epoch, and
/// both with the ids that another keeper gives.
fn lists_two<K: Keep>(keep: &mut K, memory: &mut MemArchive) -> Result<bool, OpenRefusal> {
    let first = line(keep, 0)?;
    let second = line(keep, 1)?;
    let none = line(keep, 2)?.is_none();
    let same = line(memory, 0)? == first && line(memory, 1)? == second;
    let lines = is_line(first, 1, 0, FIRST_ID, FIRST) && is_line(second, 2, 1, SECOND_ID, SECOND);
    Ok(same && lines && none)
}

/// Returns whether a keeper gives two messages by their blob ids, and nothing for another one.
fn gives_blobs<K: Keep>(alloc: Global, keep: &mut K) -> Result<bool, Fail> {
    let first = blob_is(alloc, keep, FIRST_ID, FIRST)?;
    let second = blob_is(alloc, keep, SECOND_ID, SECOND)?;
    let mut none = Bytes::new(alloc);
    let other = put_blob(keep, OTHER_ID, &mut none)?;
    Ok(first && second && !other && none.as_slice().is_empty())
}

/// Returns whether a keeper lists two messages as an archive in memory does.
fn lists_as_memory<K: Keep>(alloc: Global, keep: &mut K) -> Result<bool, Fail> {
    let mut memory = two_in_memory(alloc, 316).ok_or("no settings")?;
    Ok(lists_two(keep, &mut memory)?)
}

/// Two messages that are delivered are found, counted, listed and given.
struct ShelfOfTwo;

impl Check for ShelfOfTwo {
    fn passes<K: Keep>(alloc: Global, keep: &mut K) -> Result<bool, Fail> {
        let taken = takes_two(keep)?;
        let found = finds_two(alloc, keep)?;
        let counted = counts_two(keep)?;
        let listed = lists_as_memory(alloc, keep)?;
        let given = gives_blobs(alloc, keep)?;
        Ok(taken && found && counted && listed && given)
    }
}

#[test]
fn an_engine_is_a_shelf_as_the_archive_in_memory_is(rt: HostRuntime) -> Result<(), Fail> {
    assert!(rt; both_pass::<ShelfOfTwo>(rt.alloc(), 316)?);
    Ok(())
}

/// Returns a disk on which no archive is opened, and why.
fn unopened(alloc: Global, disk: MemDisk) -> Option<(MemDisk, OpenRefusal)> {
    match Engine::open(alloc, disk) {
        Ok(_engine) => None,
        Err(NotOpened { disk, why }) => Some((disk, why)),
    }
}

/// Returns a disk on which no archive is made, and why.
fn unmade(alloc: Global, disk: MemDisk) -> Option<(MemDisk, InitRefusal)> {
    let config = settings(316, 10, false)?;
    match Engine::make(alloc, disk, &config) {
        Ok(_engine) => None,
        Err(NotMade { disk, why }) => Some((disk, why)),
    }
}

/// Returns the disk of which it was told that it has no archive.
fn without_archive(alloc: Global, disk: MemDisk) -> Option<MemDisk> {
    let (disk, why) = unopened(alloc, disk)?;
    (why == OpenRefusal::NoArchive).then_some(disk)
}

/// Returns the disk of which it was told that it has an archive.
fn with_archive(alloc: Global, disk: MemDisk) -> Option<MemDisk> {
    let (disk, why) = unmade(alloc, disk)?;
    (why == InitRefusal::Exists).then_some(disk)
}

/// Makes an archive on a disk and delivers a message to it, and returns the disk.
fn with_message(alloc: Global, disk: MemDisk) -> Result<MemDisk, Fail> {
    let mut engine = made(alloc, disk, 316, false)?;
    let _ = answer(&mut engine, &Command::Deliver(FIRST), MOMENT)?;
    Ok(engine.into_disk())
}

/// Returns whether the archive on a disk has that message, and no call of the disk failed.
fn has_message(alloc: Global, disk: MemDisk) -> Result<bool, Fail> {
    let mut engine = opened(alloc, disk)?;
    let again = answer(&mut engine, &Command::Deliver(FIRST), MOMENT)?;
    Ok(again == Answer::Duplicate(1) && engine.disk().failed() == 0)
}

#[test]
fn a_disk_on_which_nothing_is_opened_is_handed_back(rt: HostRuntime) -> Result<(), Fail> {
    let alloc = rt.alloc();
    let disk = without_archive(alloc, empty_disk(alloc)).ok_or("an archive")?;
    let made = with_message(alloc, disk)?;
    assert!(rt; has_message(alloc, made)?);
    Ok(())
}

#[test]
fn a_disk_on_which_nothing_is_made_is_handed_back(rt: HostRuntime) -> Result<(), Fail> {
    let alloc = rt.alloc();
    let made = with_message(alloc, empty_disk(alloc))?;
    let disk = with_archive(alloc, made).ok_or("no archive")?;
    assert!(rt; has_message(alloc, disk)?);
    Ok(())
}
