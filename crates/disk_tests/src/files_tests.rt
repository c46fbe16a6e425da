//! Files on a disk in memory: their names and removals, and what a crash leaves of them.
use crate::crashes::{Stopped, stop};
use crate::file_names::{A, B, M};
use arch_base::Numbers;
use disk_model::{Disk, DiskFault, FileKind, FileName, FuseDisk, MemDisk};
use std::alloc::Global;
use std::process::Abort;
use std::test::Fail;
use store_finding::{ReadRefusal, file_names, remove_files};

/// A cache.
const C: FileName = FileName {
    kind: FileKind::Cache,
    number: 0,
    generation: 0,
};

/// Puts three files onto a disk, and syncs.
fn put_three<D: Disk>(disk: &mut D) -> Result<(), DiskFault> {
    disk.write_at(C, 0, b"cc")?;
    disk.write_at(A, 0, b"abcdef")?;
    disk.write_at(B, 0, b"xyz")?;
    disk.sync()
}

/// Puts three files onto a disk. Some bytes of one aren't synced.
fn fill<D: Disk>(disk: &mut D) -> Result<(), DiskFault> {
    put_three(disk)?;
    if disk.length(A)? != 6 {
        return Err(DiskFault);
    }
    disk.write_at(A, 4, b"PQRS")
}

/// Creates a disk with three files.
fn filled(alloc: Global) -> Result<MemDisk, DiskFault> {
    let mut disk = MemDisk::new(alloc, Numbers::new(alloc));
    fill(&mut disk)?;
    Ok(disk)
}

/// Returns whether a file reads as these bytes.
fn reads_as(disk: &mut MemDisk, name: FileName, bytes: &[u8]) -> Result<bool, DiskFault> {
    let mut buffer = [0; 16];
    let count = disk.read(name, 0, &mut buffer)?;
    Ok(&buffer[..count] == bytes)
}

/// Returns whether a file begins with these bytes.
fn begins_with(disk: &mut MemDisk, name: FileName, bytes: &[u8]) -> Result<bool, DiskFault> {
    let mut buffer = [0; 16];
    let count = disk.read(name, 0, &mut buffer)?;
    Ok(buffer[..count].starts_with(bytes))
}

/// Returns whether a file reads as these bytes or as none.
fn reads_as_or_nothing(
    disk: &mut MemDisk,
    name: FileName,
    bytes: &[u8],
) -> Result<bool, DiskFault> {
    let whole = reads_as(disk, name, bytes)?;
    let nothing = reads_as(disk, name, b"")?;
    Ok(whole || nothing)
}

/// Returns whether a disk lists these names.
fn lists<D: Disk>(alloc: Global, disk: &mut D, names: &[FileName]) -> Result<bool, ReadRefusal> {
    Ok(file_names(alloc, disk)?.as_slice() == names)
}

/// Returns whether the names of three files are listed by four calls of the disk, and with fewer
/// the fault is answered.
fn lists_in_four_calls(alloc: Global, passes: u64) -> Result<bool, DiskFault> {
    let mut fuse = FuseDisk::new(filled(alloc)?, passes);
    // A look at each of three names, and one after them.
    match lists(alloc, &mut fuse, &[A, B, C]) {
        Ok(listed) => Ok(passes >= 4 && listed),
        Err(refusal) => Ok(passes < 4 && refusal == ReadRefusal::DiskFault),
    }
}

/// Returns whether no name is listed of a disk without files.
fn lists_nothing(alloc: Global) -> Result<bool, ReadRefusal> {
    let mut disk = MemDisk::new(alloc, Numbers::new(alloc));
    lists(alloc, &mut disk, &[])
}

#[test]
fn all_names_are_listed_in_order(rt: HostRuntime) -> Result<(), Fail> {
    assert!(rt; lists_nothing(rt.alloc())?);
    for passes in 0..6 {
        assert!(rt; lists_in_four_calls(rt.alloc(), passes)?, "{passes}");
    }
    Ok(())
}

/// Stops three removals after `passes` calls.
fn stop_removals(alloc: Global, passes: u64) -> Result<Stopped, DiskFault> {
    let disk = filled(alloc)?;
    Ok(stop(disk, passes, |fuse| remove_files(fuse, &[B, M, C])))
}

/// Returns whether each of two files is there or nothing of it, and of the third what was synced.
fn is_removed_or_whole(image: &mut MemDisk) -> Result<bool, DiskFault> {
    let first = begins_with(image, A, b"abcd")?;
    let second = reads_as_or_nothing(image, B, b"xyz")?;
    let third = reads_as_or_nothing(image, C, b"cc")?;
    Ok(first && second && third)
}

/// Returns whether one file of the three is left, whole.
fn has_one_file(alloc: Global, disk: &mut MemDisk) -> Result<bool, ReadRefusal> {
    let listed = lists(alloc, disk, &[A])?;
    let whole = reads_as(disk, A, b"abcdPQRS")?;
    Ok(listed && whole)
}

/// Checks each image since the removals began, and the disk itself if they are done.
fn look_at_removals(
    rt: &impl Abort,
    alloc: Global,
    stopped: &mut Stopped,
    done: bool,
) -> Result<(), Fail> {
    let bad = stopped.first_bad_image(|image, _done| Ok(is_removed_or_whole(image)?))?;
    assert_eq!(rt; (stopped.done, bad), (done, None));
    assert!(rt; !done || has_one_file(alloc, &mut stopped.disk)?);
    Ok(())
}

#[test]
fn each_file_is_removed_or_as_before(rt: HostRuntime) -> Result<(), Fail> {
    for passes in 0..5 {
        let mut stopped = stop_removals(rt.alloc(), passes)?;
        // Three removals.
        look_at_removals(&rt, rt.alloc(), &mut stopped, passes >= 3)?;
    }
    Ok(())
}
