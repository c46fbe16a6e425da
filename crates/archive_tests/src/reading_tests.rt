//! Messages and epochs that are read of archives on disks in memory.
use crate::core_tests::filled;
use arch_base::Bytes;
use arch_model::TextRefusal;
use archive_core::DiskArchive;
use archive_fixtures::{is_epoch_of, two_in_memory};
use disk_model::{Disk, MemDisk};
use fixtures::{FIRST, SECOND, empty_disk, failing};
use mem_archive::MemArchive;
use std::alloc::Global;
use std::test::Fail;

/// Returns a byte and after it the text of a number, if it is live.
fn text_from<D: Disk>(
    alloc: Global,
    archive: &DiskArchive,
    disk: &mut D,
    n: u32,
) -> Result<Bytes, TextRefusal> {
    let mut bytes = Bytes::new(alloc);
    bytes.push(b'>')?;
    if archive.has_text(n) {
        archive.text(disk, n, &mut bytes)?;
    }
    Ok(bytes)
}

/// Returns whether the text of a number is this one, and is appended.
fn text_is<D: Disk>(
    alloc: Global,
    archive: &DiskArchive,
    disk: &mut D,
    n: u32,
    wanted: &[u8],
) -> Result<bool, TextRefusal> {
    let bytes = text_from(alloc, archive, disk, n)?;
    Ok(bytes.as_slice().strip_prefix(b">".as_slice()) == Some(wanted))
}

/// Returns whether just two messages are found by their numbers, and there may be a third.
fn has_two(archive: &DiskArchive) -> bool {
    let both = archive.has_text(1) && archive.has_text(2);
    let no_other = !archive.has_text(0) && !archive.has_text(3);
    archive.has_next_root() && both && no_other
}

/// Returns whether the texts of an archive of two messages are found by their numbers.
fn reads_two<D: Disk>(
    alloc: Global,
    archive: &DiskArchive,
    disk: &mut D,
) -> Result<bool, TextRefusal> {
    let first = text_is(alloc, archive, disk, 1, FIRST)?;
    let second = text_is(alloc, archive, disk, 2, SECOND)?;
    let none = text_is(alloc, archive, disk, 3, b"")?;
    Ok(first && second && none)
}

/// Makes an archive of two messages, and returns whether they are found and read by their numbers.
fn new_has_and_reads_two<D: Disk>(alloc: Global, disk: &mut D) -> Result<bool, Fail> {
    let archive = filled(alloc, disk)?;
    let read = reads_two(alloc, &archive, disk)?;
    Ok(has_two(&archive) && read)
}

#[test]
fn messages_are_found_by_their_numbers(rt: HostRuntime) -> Result<(), Fail> {
    let alloc = rt.alloc();
    let mut disk = empty_disk(alloc);
    assert!(rt; new_has_and_reads_two(alloc, &mut disk)?);
    Ok(())
}

/// Returns whether an epoch is there, and its bytes after another byte.
fn epoch_from<D: Disk>(
    alloc: Global,
    archive: &DiskArchive,
    disk: &mut D,
    epoch: u32,
) -> Result<(bool, Bytes), TextRefusal> {
    let mut bytes = Bytes::new(alloc);
    bytes.push(b'>')?;
    let found = archive.epoch_bytes(disk, epoch, &mut bytes)?;
    Ok((found, bytes))
}

/// Returns whether an epoch is read as memory has it, and is there exactly if it is one of two.
fn epoch_is_same<D: Disk>(
    alloc: Global,
    archive: &DiskArchive,
    disk: &mut D,
    memory: &MemArchive,
    epoch: u32,
) -> Result<bool, TextRefusal> {
    let (found, bytes) = epoch_from(alloc, archive, disk, epoch)?;
    let same = is_epoch_of(alloc, memory, epoch, found, bytes.as_slice())?;
    Ok(same && found == (epoch < 2))
}

/// Returns whether each epoch is read as memory has it.
fn epochs_are_same<D: Disk>(
    alloc: Global,
    archive: &DiskArchive,
    disk: &mut D,
    memory: &MemArchive,
) -> Result<bool, TextRefusal> {
    let mut same = true;
    for epoch in 0..65 {
        match epoch_is_same(alloc, archive, disk, memory, epoch) {
            Ok(one) => same &= one,
            Err(refusal) => return Err(refusal),
        }
    }
    Ok(same)
}

/// Makes an archive of two messages, and returns whether its epochs are read as memory has them.
fn new_gives_the_same<D: Disk>(alloc: Global, disk: &mut D) -> Result<bool, Fail> {
    let archive = filled(alloc, disk)?;
    let memory = two_in_memory(alloc, 316).ok_or("no settings")?;
    let same = epochs_are_same(alloc, &archive, disk, &memory)?;
    Ok(same)
}

#[test]
fn epochs_are_read_as_memory_has_them(rt: HostRuntime) -> Result<(), Fail> {
    let alloc = rt.alloc();
    let mut disk = empty_disk(alloc);
    assert!(rt; new_gives_the_same(alloc, &mut disk)?);
    Ok(())
}

/// Makes an archive of two messages on a disk, and returns whether the second one is read right.
/// Returns `None` if the disk fails before the reading.
fn second_is_read(alloc: Global, disk: MemDisk) -> Option<Result<bool, TextRefusal>> {
    let mut disk = disk;
    match filled(alloc, &mut disk) {
        Ok(archive) => Some(text_is(alloc, &archive, &mut disk, 2, SECOND)),
        Err(_refusal) => None,
    }
}

#[test]
fn a_fault_at_the_read_of_a_text_is_answered(rt: HostRuntime) -> Result<(), Fail> {
    let alloc = rt.alloc();
    let mut failed = false;
    for ordinal in 1..40 {
        match second_is_read(alloc, failing(alloc, &[ordinal])?) {
            None => {}
            Some(Ok(right)) => assert!(rt; right),
            Some(Err(refusal)) => {
                assert!(rt; !failed && refusal == TextRefusal::DiskFault);
                failed = true;
            }
        }
    }
    assert!(rt; failed);
    Ok(())
}
