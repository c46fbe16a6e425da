//! Archives on disks that are opened to be counted.
use arch_model::{Command, OpenRefusal};
use archive_core::{CountedArchive, Engine};
use archive_fixtures::{answer, on_disk};
use disk_model::MemDisk;
use fixtures::{FIRST, LATER, MOMENT, SECOND, empty_disk, failing};
use std::alloc::Global;
use std::test::Fail;

/// Delivers two mails and removes the first one.
fn fill(engine: &mut Engine<MemDisk>) -> Result<(), OpenRefusal> {
    let _ = answer(engine, &Command::Deliver(FIRST), MOMENT)?;
    let _ = answer(engine, &Command::Deliver(SECOND), MOMENT)?;
    let _ = answer(engine, &Command::Remove(1), LATER)?;
    Ok(())
}

/// Returns the disk of an archive of two mails of which the first was removed.
fn disk_of_one(alloc: Global) -> Result<MemDisk, Fail> {
    let mut engine = on_disk(alloc, 400, false)?;
    fill(&mut engine)?;
    Ok(engine.into_disk())
}

/// Returns how many entries and live messages an archive on a disk has, and the next number.
fn counts(alloc: Global, disk: &mut MemDisk) -> Result<(u64, u32, u32), OpenRefusal> {
    match CountedArchive::open(alloc, disk) {
        Ok(counted) => Ok((
            counted.entry_count(),
            counted.message_count(),
            counted.next_of_root(),
        )),
        Err(refusal) => Err(refusal),
    }
}

#[test]
fn an_archive_is_counted(rt: HostRuntime) -> Result<(), Fail> {
    let mut disk = disk_of_one(rt.alloc())?;
    assert!(rt; counts(rt.alloc(), &mut disk)? == (3, 1, 3));
    assert!(rt; counts(rt.alloc(), &mut disk)? == (3, 1, 3));
    Ok(())
}

#[test]
fn a_disk_without_an_archive_is_not_counted(rt: HostRuntime) {
    let mut disk = empty_disk(rt.alloc());
    assert!(rt; counts(rt.alloc(), &mut disk) == Err(OpenRefusal::NoArchive));
}

#[test]
fn a_disk_that_fails_is_not_counted(rt: HostRuntime) -> Result<(), Fail> {
    let mut disk = failing(rt.alloc(), &[1])?;
    assert!(rt; counts(rt.alloc(), &mut disk) == Err(OpenRefusal::DiskFault));
    Ok(())
}
