//! Rebuilding what is kept beside the files: nothing changes but what a refusal leaves stale.
use crate::listing_tests::{FollowsRemovals, has_three};
use crate::thread_tests::{holds_two, joins_and_loses_one};
use arch_model::{Command, Keep, OpenRefusal};
use archive_core::Engine;
use archive_fixtures::{Check, accepted, answer, both_pass, give_alike, made, two_in_memory};
use disk_model::MemDisk;
use fixtures::{FIRST, FIRST_ID, MOMENT, SECOND, SECOND_ID, failing};
use std::alloc::Global;
use std::test::Fail;

/// Rebuilds what is kept beside the files, and returns whether so many messages are live and the
/// keeper is ready.
fn counts<K: Keep>(keep: &mut K, live: u32) -> bool {
    let counted = keep.reindex() == Ok(live);
    counted && !keep.is_stale()
}

/// Delivers two messages, and returns whether both are kept.
fn takes_two<K: Keep>(keep: &mut K) -> Result<bool, OpenRefusal> {
    let first = answer(keep, &Command::Deliver(FIRST), MOMENT)?;
    let second = answer(keep, &Command::Deliver(SECOND), MOMENT)?;
    Ok(Some(first) == accepted(1, FIRST_ID) && Some(second) == accepted(2, SECOND_ID))
}

/// Returns whether an archive gives the texts and epochs that one of these two in memory does.
fn gives_as_memory<K: Keep>(alloc: Global, keep: &mut K) -> Result<bool, Fail> {
    let mut memory = two_in_memory(alloc, 316).ok_or("settings")?;
    give_alike(alloc, keep, &mut memory)
}

/// An archive without messages has none after a rebuilding, and one of two gives the same texts and
/// epochs.
struct KeepsTexts;

impl Check for KeepsTexts {
    fn passes<K: Keep>(alloc: Global, keep: &mut K) -> Result<bool, Fail> {
        let none = counts(keep, 0);
        let taken = takes_two(keep)?;
        let two = counts(keep, 2) && counts(keep, 2);
        let same = gives_as_memory(alloc, keep)?;
        Ok(none && taken && two && same)
    }
}

#[test]
fn a_rebuilding_leaves_texts_and_epochs(rt: HostRuntime) -> Result<(), Fail> {
    assert!(rt; both_pass::<KeepsTexts>(rt.alloc(), 316)?);
    Ok(())
}

/// The rows of an archive of three mails out of five are the same.
struct KeepsRows;

impl Check for KeepsRows {
    fn passes<K: Keep>(alloc: Global, keep: &mut K) -> Result<bool, Fail> {
        let followed = FollowsRemovals::passes(alloc, keep)?;
        let three = counts(keep, 3);
        let same = has_three(keep)?;
        Ok(followed && three && same)
    }
}

#[test]
fn a_rebuilding_leaves_rows(rt: HostRuntime) -> Result<(), Fail> {
    assert!(rt; both_pass::<KeepsRows>(rt.alloc(), 2000)?);
    Ok(())
}

/// The threads of an archive of two mails out of three are the same.
struct KeepsThreads;

impl Check for KeepsThreads {
    fn passes<K: Keep>(_alloc: Global, keep: &mut K) -> Result<bool, Fail> {
        joins_and_loses_one(keep)?;
        let two = counts(keep, 2);
        let same = holds_two(keep)?;
        Ok(two && same)
    }
}

#[test]
fn a_rebuilding_leaves_threads(rt: HostRuntime) -> Result<(), Fail> {
    assert!(rt; both_pass::<KeepsThreads>(rt.alloc(), 2000)?);
    Ok(())
}

/// What a rebuilding does over a disk of which a call may fail.
#[derive(Clone, Copy, PartialEq)]
enum Ended {
    /// The disk failed before.
    Early,
    /// The disk failed in it, the archive was stale, and a second one found its message.
    Refused,
    /// It found the message.
    Done,
    /// Something else.
    Other,
}

/// Rebuilds what is kept of a ready archive of one message. Where the disk fails, does it again.
fn rebuilt(engine: &mut Engine<MemDisk>) -> Ended {
    match engine.reindex() {
        Ok(1) => {
            if engine.is_stale() {
                Ended::Other
            } else {
                Ended::Done
            }
        }
        Err(OpenRefusal::DiskFault) => {
            if engine.is_stale() && counts(engine, 1) {
                Ended::Refused
            } else {
                Ended::Other
            }
        }
        _other => Ended::Other,
    }
}

/// Delivers a message, and returns what a rebuilding does then.
fn ended_after_a_delivery(engine: &mut Engine<MemDisk>) -> Ended {
    let came = engine.command(&Command::Deliver(FIRST), MOMENT);
    if Some(came) == accepted(1, FIRST_ID) {
        rebuilt(engine)
    } else {
        Ended::Early
    }
}

/// Returns what a rebuilding does over a disk of which a call fails, by its ordinal from 1.
fn ended_over_failing(alloc: Global, ordinal: u64) -> Result<Ended, Fail> {
    let disk = failing(alloc, &[ordinal])?;
    match made(alloc, disk, 2000, false) {
        Ok(mut engine) => Ok(ended_after_a_delivery(&mut engine)),
        Err(_refusal) => Ok(Ended::Early),
    }
}

#[test]
fn a_refused_rebuilding_leaves_the_archive_to_the_next_one(rt: HostRuntime) -> Result<(), Fail> {
    let mut refused = false;
    let mut last = Ended::Early;
    for ordinal in 1..99 {
        last = ended_over_failing(rt.alloc(), ordinal)?;
        assert!(rt; last != Ended::Other);
        refused = refused || last == Ended::Refused;
    }
    assert!(rt; refused && last == Ended::Done);
    Ok(())
}
