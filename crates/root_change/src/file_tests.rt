//! Tidying a disk in memory, and copies of ranges of its files.
use crate::tests::{ROOT, Stopped, count_files, current, fill, has_map, is_old, starts};
use crate::{FileRange, Source, copy_range, epoch_file, map_file, put_sources, tidy};
use arch_base::Numbers;
use disk_model::{Disk, DiskFault, FileKind, FileName, FuseDisk, MemDisk};
use std::alloc::Global;
use std::process::Abort;
use std::test::Fail;

/// A file of 9,000 bytes.
const LONG: FileName = FileName {
    kind: FileKind::Epoch,
    number: 5,
    generation: 1,
};

/// A file that a range is copied to.
const COPY: FileName = FileName {
    kind: FileKind::Map,
    number: 0,
    generation: 9,
};

/// Writes a tail after the bytes of an epoch, and a file that the root doesn't name.
fn disturb(disk: &mut MemDisk) -> Result<(), DiskFault> {
    disk.write_at(epoch_file(0, 1), 0, b"abctorn")?;
    disk.write_at(epoch_file(7, 9), 0, b"lost")?;
    disk.sync()
}

/// Tidies a disk by its root.
fn tidy_all<D: Disk>(disk: &mut D) -> Result<(), DiskFault> {
    let (_slot, root) = current(disk)?;
    let names = [
        ROOT,
        map_file(1),
        epoch_file(0, 1),
        epoch_file(1, 2),
        epoch_file(7, 9),
    ];
    tidy(disk, &root, &names)
}

/// Returns whether a disk is exactly that of its archive.
fn is_tidy(disk: &mut MemDisk) -> Result<bool, DiskFault> {
    let map = has_map(disk, true)?;
    let first = starts(disk, epoch_file(0, 1), b"abc", true)?;
    let second = starts(disk, epoch_file(1, 2), b"de", true)?;
    let count = count_files(disk)?;
    Ok(map && first && second && count == 4)
}

/// Tidies a disk that stops after so many calls.
fn stop_tidying(alloc: Global, passes: u64) -> Result<Stopped, DiskFault> {
    let mut disk = MemDisk::new(alloc, Numbers::new(alloc));
    fill(&mut disk)?;
    disturb(&mut disk)?;
    let start = disk.moments();
    let mut fuse = FuseDisk::new(disk, passes);
    let done = tidy_all(&mut fuse).is_ok();
    Ok(Stopped {
        disk: fuse.into_inner(),
        start,
        done,
    })
}

/// Returns whether a crash at a moment leaves the archive.
fn leaves_archive(disk: &MemDisk, at: u64, pick: u64) -> Result<bool, Fail> {
    if at > disk.moments() || pick > 3 {
        return Ok(false);
    }
    let mut image = disk.image(at, pick)?;
    Ok(is_old(&mut image)?)
}

/// Checks each image since the disk began to be tidied.
fn look(rt: &impl Abort, stopped: &Stopped) -> Result<(), Fail> {
    for at in stopped.start..=stopped.disk.moments() {
        for pick in 0..4 {
            assert!(rt;
                leaves_archive(&stopped.disk, at, pick)?,
                "moment {at}, pick {pick}"
            );
        }
    }
    Ok(())
}

#[test]
fn tidying_keeps_all_bytes_that_count(rt: HostRuntime) -> Result<(), Fail> {
    // The calls are two for the root, three lengths, a cut, a removal, and a sync.
    for passes in 2..=8 {
        let mut stopped = stop_tidying(rt.alloc(), passes)?;
        assert_eq!(rt; stopped.done, passes == 8);
        look(&rt, &stopped)?;
        assert!(rt; !stopped.done || is_tidy(&mut stopped.disk)?);
    }
    Ok(())
}

/// Copies so many bytes of the long file, from offset 100 on.
fn copies(disk: &mut MemDisk, count: u32) -> Result<bool, DiskFault> {
    let range = FileRange {
        file: LONG,
        offset: 100,
        count: u64::from(count),
    };
    copy_range(disk, range, COPY, 0)
}

/// Returns whether a copy of 8,800 bytes has the bytes of the range, and a longer one is refused.
fn is_copied(disk: &mut MemDisk) -> Result<bool, DiskFault> {
    let mut bytes = [1; 9000];
    bytes[5000] = 2;
    disk.write_at(LONG, 0, &bytes)?;
    let whole = copies(disk, 8800)?;
    let size = disk.length(COPY)?;
    let mut read = [0; 2];
    disk.read(COPY, 4899, &mut read)?;
    let longer = copies(disk, 8901)?;
    Ok(whole && size == 8800 && read == [1, 2] && !longer)
}

#[test]
fn a_range_is_copied_by_windows(rt: HostRuntime) -> Result<(), Fail> {
    let mut disk = MemDisk::new(rt.alloc(), Numbers::new(rt.alloc()));
    assert!(rt; is_copied(&mut disk)?);
    Ok(())
}

/// Returns whether bytes, a range of a file and a byte are put after one another.
fn gathers(disk: &mut MemDisk) -> Result<bool, DiskFault> {
    disk.write_at(LONG, 0, b"0123456789")?;
    let sources = [
        Source::Bytes {
            offset: 1,
            count: 2,
        },
        Source::Range(FileRange {
            file: LONG,
            offset: 3,
            count: 4,
        }),
        Source::Bytes {
            offset: 0,
            count: 1,
        },
    ];
    let whole = put_sources(disk, b"abc", &sources, COPY, 0)?;
    Ok(whole && starts(disk, COPY, b"bc3456a", true)?)
}

#[test]
fn sources_are_put_after_one_another(rt: HostRuntime) -> Result<(), Fail> {
    let mut disk = MemDisk::new(rt.alloc(), Numbers::new(rt.alloc()));
    assert!(rt; gathers(&mut disk)?);
    Ok(())
}
