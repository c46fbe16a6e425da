//! Commands in doubt: the disk failed in one, and the archive is reopened.
use arch_model::{Answer, Command, Keep, OpenRefusal, Shelf};
use archive_core::Engine;
use archive_fixtures::{accepted, answer, has_both, made};
use disk_model::{Disk, DiskFault, FileKind, FileName, MemDisk};
use epoch_store::InitRefusal;
use fixtures::{FIRST, FIRST_ID, LATER, MOMENT, failing};
use std::alloc::Global;
use std::process::Abort;
use std::test::Fail;

/// The file of the first epoch, which the second root names first.
const EPOCH: FileName = FileName {
    kind: FileKind::Epoch,
    number: 0,
    generation: 2,
};

/// The file of the map, which the first root names.
const MAP: FileName = FileName {
    kind: FileKind::Map,
    number: 0,
    generation: 1,
};

/// Delivers the first mail to an archive and removes it, and returns whether the disk failed in the
/// removal. Exactly after a command in which it failed the archive is stale.
fn fails_to_remove(engine: &mut Engine<MemDisk>) -> bool {
    let came = engine.command(&Command::Deliver(FIRST), MOMENT);
    let ready = !engine.is_stale();
    let went = engine.command(&Command::Remove(1), LATER);
    let told = engine.is_stale() == (went == Answer::DiskFault);
    ready && told && Some(came) == accepted(1, FIRST_ID) && went == Answer::DiskFault
}

/// Removes the mail of an archive of one mail, over a disk of which a call fails, by its ordinal from 1.
/// Returns the archive in doubt, or `None` if the disk fails before the removal or not at all.
fn in_doubt(alloc: Global, ordinal: u64) -> Result<Option<Engine<MemDisk>>, Fail> {
    let disk = failing(alloc, &[ordinal])?;
    match made(alloc, disk, 2000, false) {
        Ok(mut engine) => {
            let failed = fails_to_remove(&mut engine);
            Ok(failed.then_some(engine))
        }
        Err(_refusal) => Ok(None),
    }
}

/// Returns whether there are just a root, a map of one message and an epoch of this length.
fn are_exact(disk: &mut MemDisk, epoch: u64) -> Result<bool, DiskFault> {
    let mapped = disk.length(MAP)? == 28;
    let filled = disk.length(EPOCH)? == epoch;
    let no_other = disk.name_at(3)?.is_none();
    Ok(mapped && filled && no_other)
}

/// Reopens an archive in doubt, and returns how many entries it has: one, or two where the removal is
/// found. Returns `None` if these aren't the entries.
fn reopened_count(alloc: Global, engine: &mut Engine<MemDisk>) -> Result<Option<u64>, Fail> {
    engine.fresh()?;
    let count = engine.entry_count();
    let ready = !engine.is_stale();
    let gone = engine.live_from(0).is_none() == (count == 2);
    let both = has_both(alloc, engine)? == (count == 2);
    Ok((ready && gone && both).then_some(count))
}

/// Reopens an archive in doubt, and returns how many entries it has. Returns `None` if these aren't the
/// entries, or the files aren't exactly those of that archive.
fn entries_found(alloc: Global, engine: Engine<MemDisk>) -> Result<Option<u64>, Fail> {
    let mut engine = engine;
    let found = reopened_count(alloc, &mut engine)?;
    let mut disk = engine.into_disk();
    let exact = are_exact(&mut disk, if found == Some(2) { 672 } else { 316 })?;
    Ok(if exact { found } else { None })
}

/// What is found after a removal.
#[derive(Clone, Copy, PartialEq)]
enum Found {
    /// Nothing is in doubt.
    Sure,
    /// The removal was not done.
    Before,
    /// The removal was done.
    After,
    /// Something else.
    Other,
}

/// Returns what is found after a removal over a disk of which a call fails, by its ordinal from 1.
fn found_after(alloc: Global, ordinal: u64) -> Result<Found, Fail> {
    match in_doubt(alloc, ordinal)? {
        None => Ok(Found::Sure),
        Some(engine) => match entries_found(alloc, engine)? {
            Some(1) => Ok(Found::Before),
            Some(2) => Ok(Found::After),
            _other => Ok(Found::Other),
        },
    }
}

#[test]
fn a_removal_in_doubt_is_found_or_not(rt: HostRuntime) -> Result<(), Fail> {
    let mut before = false;
    let mut last = Found::Sure;
    for ordinal in 1..80 {
        let found = found_after(rt.alloc(), ordinal)?;
        assert!(rt; found != Found::Other);
        before = before || found == Found::Before;
        if found != Found::Sure {
            last = found;
        }
    }
    // The last call of a removal is a sync. When it fails, the next root was written before.
    assert!(rt; before && last == Found::After);
    Ok(())
}

/// Delivers a message, and returns whether the disk failed: exactly then the archive is stale.
fn is_in_doubt(rt: &impl Abort, engine: &mut Engine<MemDisk>) -> Result<bool, OpenRefusal> {
    let failed = answer(engine, &Command::Deliver(FIRST), MOMENT)? == Answer::DiskFault;
    assert!(rt; engine.is_stale() == failed);
    Ok(failed)
}

/// Reopens an archive whose delivery is in doubt, where the first try fails. Returns what is found then,
/// and what the message is answered.
fn found_by_delivery(
    rt: &impl Abort,
    engine: &mut Engine<MemDisk>,
) -> Result<(Option<u32>, Answer), OpenRefusal> {
    let refused = engine.fresh() == Err(OpenRefusal::DiskFault);
    assert!(rt; refused && engine.is_stale());
    engine.fresh()?;
    let found = engine.live_from(1);
    assert!(rt; !engine.is_stale());
    let told = answer(engine, &Command::Deliver(FIRST), MOMENT)?;
    Ok((found, told))
}

/// Delivers a message to an archive. Where its disk fails then, returns what is found after that,
/// and what the message is answered then.
fn found_if_in_doubt(
    rt: &impl Abort,
    engine: &mut Engine<MemDisk>,
) -> Result<Option<(Option<u32>, Answer)>, OpenRefusal> {
    if !is_in_doubt(rt, engine)? {
        return Ok(None);
    }
    let found = found_by_delivery(rt, engine)?;
    Ok(Some(found))
}

/// Makes an archive on a disk that fails, and delivers a message to it so. Returns `None` if the
/// making already fails.
fn found_over(
    rt: &impl Abort,
    alloc: Global,
    disk: MemDisk,
) -> Result<Option<(Option<u32>, Answer)>, OpenRefusal> {
    match made(alloc, disk, 316, false) {
        Ok(mut engine) => found_if_in_doubt(rt, &mut engine),
        Err(refusal) => {
            assert!(rt; refusal == InitRefusal::DiskFault);
            Ok(None)
        }
    }
}

/// Makes an archive and delivers a message to it, over a disk of which two calls in a row fail, by
/// the first one's ordinal from 1.
fn found_over_failing(
    rt: &impl Abort,
    alloc: Global,
    ordinal: u64,
) -> Result<Option<(Option<u32>, Answer)>, Fail> {
    let disk = failing(alloc, &[ordinal, ordinal.saturating_add(1)])?;
    Ok(found_over(rt, alloc, disk)?)
}

#[test]
fn a_delivery_in_doubt_is_found_or_not(rt: HostRuntime) -> Result<(), Fail> {
    let alloc = rt.alloc();
    let mut before = false;
    let mut after = false;
    for ordinal in 1..60 {
        match found_over_failing(&rt, alloc, ordinal)? {
            None => {}
            Some((None, answer)) => {
                assert!(rt; Some(answer) == accepted(1, FIRST_ID));
                before = true;
            }
            Some((Some(number), answer)) => {
                assert!(rt; number == 1 && answer == Answer::Duplicate(1));
                after = true;
            }
        }
    }
    assert!(rt; before && after);
    Ok(())
}
