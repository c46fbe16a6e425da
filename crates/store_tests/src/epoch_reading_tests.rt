//! Epochs that are read whole, by disks in memory.
use crate::making_tests::fill;
use arch_base::{Bytes, NoMemory};
use arch_model::TextRefusal;
use archive_fixtures::{is_epoch_of, two_in_memory};
use disk_model::Disk;
use epoch_store::Store;
use fixtures::{empty_disk, failing};
use mem_archive::MemArchive;
use std::alloc::Global;
use std::process::Abort;
use std::test::Fail;

/// Returns whether an epoch has an entry, and its bytes after another byte, as the archive on a
/// disk has it.
fn on_disk<D: Disk>(
    alloc: Global,
    disk: &mut D,
    store: &Store,
    number: u32,
) -> Result<(bool, Bytes), TextRefusal> {
    let mut bytes = Bytes::new(alloc);
    bytes.push(b'>')?;
    let found = store.epoch(disk, number, &mut bytes)?;
    Ok((found, bytes))
}

/// Returns whether an epoch is read as the archive in memory has it: the first two have 316 bytes
/// each, and no other is there.
fn is_read_alike<D: Disk>(
    alloc: Global,
    disk: &mut D,
    store: &Store,
    archive: &MemArchive,
    number: u32,
) -> Result<bool, TextRefusal> {
    let (found, bytes) = on_disk(alloc, disk, store, number)?;
    let size = if found { 317 } else { 1 };
    let sized = found == (number < 2) && bytes.as_slice().len() == size;
    let alike = is_epoch_of(alloc, archive, number, found, bytes.as_slice())?;
    Ok(sized && alike)
}

/// Returns whether each epoch is read as the archive in memory has it.
fn are_read_alike<D: Disk>(
    alloc: Global,
    disk: &mut D,
    store: &Store,
) -> Result<bool, TextRefusal> {
    let Some(archive) = two_in_memory(alloc, 1) else {
        return Ok(false);
    };
    for number in 0..65 {
        if !is_read_alike(alloc, disk, store, &archive, number)? {
            return Ok(false);
        }
    }
    Ok(true)
}

/// Fills an archive of which each epoch has one message, and returns whether its epochs are read as
/// the archive in memory has them.
fn fill_and_read<D: Disk>(alloc: Global, disk: &mut D) -> Result<bool, Fail> {
    let store = fill(alloc, disk, 1)?;
    let alike = are_read_alike(alloc, disk, &store)?;
    Ok(alike && store.sequence() == 3)
}

#[test]
fn an_epoch_is_read_as_memory_has_it(rt: HostRuntime) -> Result<(), Fail> {
    let mut disk = empty_disk(rt.alloc());
    assert!(rt; fill_and_read(rt.alloc(), &mut disk)?);
    Ok(())
}

/// Appends the second epoch to another byte, and returns whether the disk failed, which leaves the
/// bytes unchanged.
fn read_fails<D: Disk>(
    rt: &impl Abort,
    alloc: Global,
    disk: &mut D,
    store: &Store,
) -> Result<bool, NoMemory> {
    let mut bytes = Bytes::new(alloc);
    bytes.push(b'>')?;
    match store.epoch(disk, 1, &mut bytes) {
        Ok(found) => {
            assert!(rt; found && bytes.as_slice().len() == 317);
            Ok(false)
        }
        Err(refusal) => {
            assert!(rt; refusal == TextRefusal::DiskFault && bytes.as_slice() == b">".as_slice());
            Ok(true)
        }
    }
}

/// Makes and fills an archive where one call of the disk fails, and returns whether that call read
/// the second epoch.
fn fails_at(rt: &impl Abort, alloc: Global, ordinal: u64) -> Result<bool, NoMemory> {
    let mut disk = failing(alloc, &[ordinal])?;
    match fill(alloc, &mut disk, 1) {
        Ok(store) => read_fails(rt, alloc, &mut disk, &store),
        Err(_) => Ok(false),
    }
}

#[test]
fn a_fault_at_the_read_of_an_epoch_leaves_the_bytes(rt: HostRuntime) -> Result<(), Fail> {
    let mut failed = false;
    for ordinal in 1..40 {
        if fails_at(&rt, rt.alloc(), ordinal)? {
            assert!(rt; !failed);
            failed = true;
        }
    }
    assert!(rt; failed);
    Ok(())
}
