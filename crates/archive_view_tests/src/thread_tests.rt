//! The threads of archives in memory and on disks, as messages come and go, and after a reopening.
use arch_model::{Command, Keep, OpenRefusal};
use archive_fixtures::{Check, answer, both_pass, on_disk, opened_passes};
use disk_model::MemDisk;
use fixtures::{LATER, MOMENT};
use std::alloc::Global;
use std::test::Fail;

/// Two mails alone, and a third that answers both and one that isn't there.
const ALONE: &[u8] = b"Message-ID: <a@x>\n\none\n";

const OTHER: &[u8] = b"Message-ID: <b@x>\n\ntwo\n";

const LINK: &[u8] = b"Message-ID: <c@x>\nReferences: <g@x> <a@x> <b@x>\n\nthree\n";

/// Returns whether the thread of a number has these numbers.
fn thread_is<K: Keep>(keep: &mut K, n: u32, wanted: &[u32]) -> Result<bool, Fail> {
    keep.fresh()?;
    let found = keep.thread_of(n)?;
    Ok(found.as_slice() == wanted)
}

/// Carries out a command, and returns whether it left the keeper ready.
fn stays_ready<K: Keep>(
    keep: &mut K,
    command: &Command<'_>,
    moment: u64,
) -> Result<bool, OpenRefusal> {
    let _ = answer(keep, command, moment)?;
    Ok(!keep.is_stale())
}

/// Delivers the three mails, and returns whether they are in one thread then, and were in two before.
fn joins<K: Keep>(keep: &mut K) -> Result<bool, Fail> {
    let first = stays_ready(keep, &Command::Deliver(ALONE), MOMENT)?;
    let second = stays_ready(keep, &Command::Deliver(OTHER), MOMENT)?;
    let apart = thread_is(keep, 1, &[1])? && thread_is(keep, 2, &[2])?;
    let third = stays_ready(keep, &Command::Deliver(LINK), MOMENT)?;
    let joined = thread_is(keep, 1, &[1, 2, 3])? && thread_is(keep, 3, &[1, 2, 3])?;
    let none = thread_is(keep, 4, &[])? && thread_is(keep, 0, &[])?;
    Ok(first && second && apart && third && joined && none)
}

/// Removes the third mail, and returns whether the others are in two threads again.
fn parts<K: Keep>(keep: &mut K) -> Result<bool, Fail> {
    let ready = stays_ready(keep, &Command::Remove(3), LATER)?;
    let apart = thread_is(keep, 1, &[1])? && thread_is(keep, 2, &[2])?;
    let gone = thread_is(keep, 3, &[])?;
    Ok(ready && apart && gone)
}

/// Threads join and part.
struct JoinsAndParts;

impl Check for JoinsAndParts {
    fn passes<K: Keep>(_alloc: Global, keep: &mut K) -> Result<bool, Fail> {
        let joined = joins(keep)?;
        let parted = parts(keep)?;
        Ok(joined && parted)
    }
}

#[test]
fn threads_join_and_part(rt: HostRuntime) -> Result<(), Fail> {
    assert!(rt; both_pass::<JoinsAndParts>(rt.alloc(), 2000)?);
    Ok(())
}

/// Delivers the three mails and removes the first one.
pub(crate) fn joins_and_loses_one<K: Keep>(keep: &mut K) -> Result<(), Fail> {
    let _ = joins(keep)?;
    let _ = stays_ready(keep, &Command::Remove(1), LATER)?;
    Ok(())
}

/// Makes an archive of the three mails, the first of which was removed, and returns its disk.
fn disk_of_two(alloc: Global) -> Result<MemDisk, Fail> {
    let mut engine = on_disk(alloc, 400, false)?;
    joins_and_loses_one(&mut engine)?;
    Ok(engine.into_disk())
}

/// Returns whether the two mails that are left are in one thread.
pub(crate) fn holds_two<K: Keep>(keep: &mut K) -> Result<bool, Fail> {
    let gone = thread_is(keep, 1, &[])?;
    let both = thread_is(keep, 2, &[2, 3])?;
    Ok(gone && both)
}

/// The two mails that are left are in one thread, and the second is alone once the third is removed.
struct PartsAfter;

impl Check for PartsAfter {
    fn passes<K: Keep>(_alloc: Global, keep: &mut K) -> Result<bool, Fail> {
        let both = holds_two(keep)?;
        let ready = stays_ready(keep, &Command::Remove(3), LATER)?;
        let alone = thread_is(keep, 2, &[2])?;
        let none = thread_is(keep, 3, &[])?;
        Ok(both && ready && alone && none)
    }
}

#[test]
fn threads_are_the_same_after_a_reopening(rt: HostRuntime) -> Result<(), Fail> {
    let disk = disk_of_two(rt.alloc())?;
    assert!(rt; opened_passes::<PartsAfter>(rt.alloc(), disk)?);
    Ok(())
}
