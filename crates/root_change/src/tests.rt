//! An archive on a disk in memory, and the files that its root names.
ghost use Rattle.std.specs.Prelude.{IfOk};
ghost use Rattle.root_slots.specs.Valid.{IsRoot};

use crate::{cache_file, epoch_file, is_named, map_file, place_at};
use arch_base::Numbers;
use disk_model::{Disk, DiskFault, FileKind, FileName, MemDisk};
use root_slots::{Root, Slot, read};
use std::test::Fail;

/// The root file.
pub(crate) const ROOT: FileName = FileName {
    kind: FileKind::Root,
    number: 0,
    generation: 0,
};

/// The bytes of the root file that aren't 0: a root of sequence 2 in slot 0, with the first number
/// taken, and bytes in the first two epochs. The offsets are those of the bytes.
const ROOT_BYTES: [(usize, u8); 17] = [
    (0, 1),
    (1031, 2),
    (1032, 1),
    (1034, 1),
    (1035, b'a'),
    (1106, 100),
    (1110, 1),
    (1114, 9),
    (1118, 1),
    (1122, 2),
    (1130, 1),
    (1138, 28),
    (1146, 1),
    (1154, 3),
    (1162, 2),
    (1170, 2),
    (4095, 0),
];

/// Writes an archive.
pub(crate) fn fill(disk: &mut MemDisk) -> Result<(), DiskFault> {
    let mut root = [0; 4096];
    for (at, byte) in &ROOT_BYTES {
        if *at < 4096 {
            root[*at] = *byte;
        }
    }
    disk.write_at(ROOT, 0, &root)?;
    disk.write_at(map_file(1), 0, &[1; 28])?;
    disk.write_at(epoch_file(0, 1), 0, b"abc")?;
    disk.write_at(epoch_file(1, 2), 0, b"de")?;
    disk.sync()
}

/// Returns the current root and its slot.
pub(crate) fn current<D: Disk>(disk: &mut D) -> Result<(Slot, Root), DiskFault>
    ensures { IfOk result (λ found. IsRoot found.1) }
{
    match read(disk) {
        Ok(Some(found)) => Ok(found),
        _ => Err(DiskFault),
    }
}

/// Returns whether a file starts with these bytes, and ends after them if that is asked.
pub(crate) fn starts(
    disk: &mut MemDisk,
    name: FileName,
    bytes: &[u8],
    ends: bool,
) -> Result<bool, DiskFault> {
    let mut buffer = [0; 64];
    let count = disk.read(name, 0, &mut buffer)?;
    Ok(buffer[..count].starts_with(bytes) && (!ends || count == bytes.len()))
}

/// Returns whether the map starts with its record, and ends after it if that is asked.
pub(crate) fn has_map(disk: &mut MemDisk, ends: bool) -> Result<bool, DiskFault> {
    starts(disk, map_file(1), &[1; 28], ends)
}

/// Returns whether files stand for the archive.
pub(crate) fn is_old(disk: &mut MemDisk) -> Result<bool, DiskFault> {
    let map = has_map(disk, false)?;
    let first = starts(disk, epoch_file(0, 1), b"abc", false)?;
    let second = starts(disk, epoch_file(1, 2), b"de", false)?;
    Ok(map && first && second)
}

/// Returns the number of files.
pub(crate) fn count_files<D: Disk>(disk: &mut D) -> Result<u64, DiskFault> {
    for index in 0..9 {
        if disk.name_at(index)?.is_none() {
            return Ok(index);
        }
    }
    Err(DiskFault)
}

/// A disk on which a call was stopped, its number of moments before the call, and whether the call
/// finished.
#[derive(Drop)]
pub(crate) struct Stopped {
    pub(crate) disk: MemDisk,
    pub(crate) start: u64,
    pub(crate) done: bool,
}

/// Returns whether the root names the files that it has bytes in.
fn names_its_files(disk: &mut MemDisk) -> Result<bool, DiskFault> {
    let (_, root) = current(disk)?;
    let named = [ROOT, map_file(1), epoch_file(0, 1), epoch_file(1, 2)];
    let others = [
        map_file(2),
        epoch_file(0, 2),
        epoch_file(2, 0),
        cache_file(0),
    ];
    let all = named.iter().all(|name| is_named(&root, *name));
    let any = others.iter().any(|name| is_named(&root, *name));
    Ok(all && !any && place_at(&root, FileKind::Map, 0).length == 28)
}

#[test]
fn files_with_bytes_are_named(rt: HostRuntime) -> Result<(), Fail> {
    let mut disk = MemDisk::new(rt.alloc(), Numbers::new(rt.alloc()));
    fill(&mut disk)?;
    assert!(rt; names_its_files(&mut disk)?);
    Ok(())
}
