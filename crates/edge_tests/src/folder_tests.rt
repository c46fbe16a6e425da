//! Tests of the disk over real folders.
ghost use Rattle.std.specs.Prelude.{◌≤◌, length};

use arch_base::NoMemory;
use disk_model::{Disk, DiskFault, FileKind, FileName};
use real_edges::{FolderDisk, Progress, name_of, path_in};
use std::alloc::Global;
use std::fs::{self, File, Permissions};
use std::io;
use std::os::unix::fs::{PermissionsExt, symlink};
use std::test::Fail;
use std::time::Duration;

const ROOT: FileName = FileName {
    kind: FileKind::Root,
    number: 0,
    generation: 0,
};

fn epoch(number: u32, generation: u64) -> FileName {
    FileName {
        kind: FileKind::Epoch,
        number,
        generation,
    }
}

/// Returns whether a read of the root from an offset returns `count` and leaves `wanted` in a
/// buffer of eight dots.
fn reads(
    disk: &mut FolderDisk,
    offset: u64,
    count: usize,
    wanted: &[u8; 8],
) -> Result<bool, DiskFault> {
    let mut into = *b"........";
    let found = disk.read(ROOT, offset, &mut into)?;
    Ok(found == count && into == *wanted)
}

/// Returns whether a disk has no file. A sync, a cut and a removal must not fail.
fn is_bare(disk: &mut FolderDisk) -> Result<bool, DiskFault> {
    let length = disk.length(ROOT)?;
    let nothing = reads(disk, 0, 0, b"........")?;
    let name = disk.name_at(0)?;
    disk.sync()?;
    disk.cut(ROOT, 0)?;
    disk.remove(ROOT)?;
    Ok(length == 0 && nothing && name.is_none())
}

/// Writes the root, and returns whether reads give what was written.
fn is_written(disk: &mut FolderDisk) -> Result<bool, DiskFault> {
    disk.write_at(ROOT, 0, b"abcdef")?;
    disk.write_at(ROOT, 4, b"EFG")?;
    let length = disk.length(ROOT)?;
    let middle = reads(disk, 1, 6, b"bcdEFG..")?;
    let end = reads(disk, 7, 0, b"........")?;
    let far = reads(disk, u64::MAX, 0, b"........")?;
    Ok(length == 7 && middle && end && far)
}

/// Cuts the root and creates an empty file, and returns whether both have their lengths and names.
fn is_cut(disk: &mut FolderDisk) -> Result<bool, DiskFault> {
    disk.cut(ROOT, 5)?;
    let length = disk.length(ROOT)?;
    disk.write_at(epoch(3, 9), 0, b"")?;
    let empty = disk.length(epoch(3, 9))?;
    let name = disk.name_at(1)?;
    disk.sync()?;
    Ok(length == 5 && empty == 0 && name == Some(epoch(3, 9)))
}

/// Returns the disk over a folder that has the root of an earlier run.
fn reopened(rt: &HostRuntime) -> Result<FolderDisk, Fail> {
    make_files(rt, "again", &[])?;
    fs::write(rt, "again/root", b"abcdE".as_slice())?;
    Ok(FolderDisk::open(rt, rt.alloc(), "again")?)
}

/// Returns whether that root has its bytes, and is gone once it is removed.
fn is_removed(rt: &HostRuntime, disk: &mut FolderDisk) -> Result<bool, Fail> {
    let kept = reads(disk, 0, 5, b"abcdE...")?;
    disk.remove(ROOT)?;
    let length = disk.length(ROOT)?;
    let name = disk.name_at(1)?;
    disk.sync()?;
    let gone = !fs::exists(rt, "again/root")?;
    Ok(kept && length == 0 && name.is_none() && gone)
}

/// Returns whether a file has these bytes.
fn holds(rt: &HostRuntime, path: &str, wanted: &[u8]) -> io::Result<bool> {
    Ok(fs::read(rt, path)?.as_slice() == wanted)
}

/// Returns whether a disk over the missing folder at a path keeps files.
fn keeps_files(rt: &HostRuntime, disk: &mut FolderDisk, path: &str) -> Result<bool, Fail> {
    let bare = is_bare(disk)?;
    // None of these calls creates the folder.
    let made = fs::exists(rt, path)?;
    let written = is_written(disk)?;
    let cut = is_cut(disk)?;
    Ok(bare && !made && written && cut)
}

#[test]
fn a_folder_keeps_files(rt: HostRuntime) -> Result<(), Fail> {
    let mut disk = FolderDisk::open(&rt, rt.alloc(), "kept")?;
    assert!(rt; keeps_files(&rt, &mut disk, "kept")?);
    Ok(())
}

#[test]
fn a_folder_keeps_files_where_progress_is_told(rt: HostRuntime) -> Result<(), Fail> {
    let progress = Progress::new(&rt);
    let mut disk = FolderDisk::open_telling(&rt, rt.alloc(), "told", &progress)?;
    assert!(rt; keeps_files(&rt, &mut disk, "told")?);
    Ok(())
}

#[test]
fn a_folder_is_reopened(rt: HostRuntime) -> Result<(), Fail> {
    let mut disk = reopened(&rt)?;
    assert!(rt; is_removed(&rt, &mut disk)?);
    Ok(())
}

/// Writes three pieces of an epoch, each at a multiple of 1,000,000 bytes, and three more bytes.
fn write_long(disk: &mut FolderDisk, piece: &[u8]) -> Result<(), DiskFault>
    requires { length piece.now ≤ 1000000 }
{
    for index in 0..3 {
        disk.write_at(epoch(0, 1), index * 1_000_000, piece)?;
    }
    disk.write_at(epoch(0, 1), 3_000_000, b"end")
}

/// Reads the long epoch into a buffer of dots, and returns whether all its bytes are there.
fn is_long(disk: &mut FolderDisk, into: &mut [u8]) -> Result<bool, DiskFault> {
    let count = disk.read(epoch(0, 1), 0, into)?;
    let written = into.iter().filter(|byte| **byte == b'x').count();
    let left = into.iter().filter(|byte| **byte == b'.').count();
    Ok(count == 3_000_003 && written == 3_000_000 && left == 999_997)
}

/// Writes the long epoch.
fn write_pieces(alloc: Global, disk: &mut FolderDisk) -> Result<(), Fail> {
    let piece = vec![in alloc; b'x'; 1_000_000]?;
    write_long(disk, &piece)?;
    Ok(())
}

/// Writes the long epoch and reads it, and returns whether all its bytes are there.
fn keeps_long(alloc: Global, disk: &mut FolderDisk) -> Result<bool, Fail> {
    write_pieces(alloc, disk)?;
    let mut into = vec![in alloc; b'.'; 4_000_000]?;
    Ok(is_long(disk, &mut into)?)
}

#[test]
fn a_long_file_is_read_whole(rt: HostRuntime) -> Result<(), Fail> {
    let mut disk = FolderDisk::open(&rt, rt.alloc(), "long")?;
    assert!(rt; keeps_long(rt.alloc(), &mut disk)?);
    Ok(())
}

/// Creates a folder with empty files of these names.
fn make_files(rt: &HostRuntime, folder: &str, names: &[&str]) -> io::Result<()> {
    fs::create_dir(rt, folder)?;
    for name in names {
        let path = format!(in rt.alloc(); "{folder}/{name}")?;
        fs::write(rt, path.as_str(), b"".as_slice())?;
    }
    Ok(())
}

/// Returns whether the name at an index is `wanted`, and reads again as its spelling.
fn is_named(
    rt: &HostRuntime,
    disk: &mut FolderDisk,
    index: u64,
    wanted: Option<FileName>,
) -> Result<bool, Fail> {
    let found = disk.name_at(index)?;
    let Some(name) = found else {
        return Ok(wanted.is_none());
    };
    let path = path_in(rt.alloc(), "names", name)?;
    let read = path.strip_prefix("names/").and_then(name_of);
    Ok(found == wanted && read == found)
}

/// Names of files of an archive, in any order, and names of no such file.
const SPELLED: [&str; 29] = [
    "cache.7",
    "epoch-10.2",
    "epoch-2.11",
    "epoch-2.3",
    "map.18446744073709551615",
    "map.2",
    "root",
    "root-1.0",
    "map-4.0",
    "cache-4294967295.1",
    "epoch-0.0",
    // Names of no file of an archive.
    "root.0",
    "root-0.0",
    "map",
    "map.",
    "map.01",
    "map.18446744073709551616",
    "map-0.1",
    "epoch.1",
    "epoch-.1",
    "epoch-1",
    "epoch-01.1",
    "epoch-1.2.3",
    "epoch-4294967296.1",
    "Root",
    "cache.1 ",
    "cache.x",
    "note.txt",
    ".root",
];

/// The files of an archive among them, in the order of names.
const ORDERED: [FileName; 11] = [
    ROOT,
    FileName {
        kind: FileKind::Root,
        number: 1,
        generation: 0,
    },
    FileName {
        kind: FileKind::Map,
        number: 0,
        generation: 2,
    },
    FileName {
        kind: FileKind::Map,
        number: 0,
        generation: u64::MAX,
    },
    FileName {
        kind: FileKind::Map,
        number: 4,
        generation: 0,
    },
    FileName {
        kind: FileKind::Epoch,
        number: 0,
        generation: 0,
    },
    FileName {
        kind: FileKind::Epoch,
        number: 2,
        generation: 3,
    },
    FileName {
        kind: FileKind::Epoch,
        number: 2,
        generation: 11,
    },
    FileName {
        kind: FileKind::Epoch,
        number: 10,
        generation: 2,
    },
    FileName {
        kind: FileKind::Cache,
        number: 0,
        generation: 7,
    },
    FileName {
        kind: FileKind::Cache,
        number: u32::MAX,
        generation: 1,
    },
];

/// Returns whether a disk has these names, in this order, and no others.
fn are_named(rt: &HostRuntime, disk: &mut FolderDisk, ordered: &[FileName]) -> Result<bool, Fail> {
    for (index, name) in ordered.iter().enumerate() {
        if !is_named(rt, disk, index as u64, Some(*name))? {
            return Ok(false);
        }
    }
    is_named(rt, disk, ordered.len() as u64, None)
}

#[test]
fn names_come_in_order(rt: HostRuntime) -> Result<(), Fail> {
    make_files(&rt, "names", &SPELLED)?;
    let mut disk = FolderDisk::open(&rt, rt.alloc(), "names")?;
    assert!(rt; are_named(&rt, &mut disk, &ORDERED)?);
    Ok(())
}

/// Writes a byte to each of ninety files, and returns whether reads give them.
fn keeps_many(disk: &mut FolderDisk) -> Result<bool, DiskFault> {
    for number in 0..90 {
        disk.write_at(epoch(number, 1), 0, &[b'a' + (number % 26) as u8])?;
    }
    for number in 0..90 {
        let mut into = *b".";
        disk.read(epoch(number, 1), 0, &mut into)?;
        if into != [b'a' + (number % 26) as u8] {
            return Ok(false);
        }
    }
    disk.sync()?;
    Ok(true)
}

#[test]
fn more_files_than_are_kept_open(rt: HostRuntime) -> Result<(), Fail> {
    let mut disk = FolderDisk::open(&rt, rt.alloc(), "many")?;
    assert!(rt; keeps_many(&mut disk)?);
    Ok(())
}

/// Returns whether every call of a disk fails.
fn all_fail(disk: &mut FolderDisk) -> bool {
    let read = disk.read(ROOT, 0, &mut [0]).is_err();
    let length = disk.length(ROOT).is_err();
    let write = disk.write_at(ROOT, 0, b"a").is_err();
    let cut = disk.cut(ROOT, 0).is_err();
    let remove = disk.remove(ROOT).is_err();
    let name = disk.name_at(0).is_err();
    let sync = disk.sync().is_err();
    read && length && write && cut && remove && name && sync
}

/// Returns the disk of another run, which waits for 20 milliseconds.
fn other(rt: &HostRuntime, path: &str) -> Result<FolderDisk<'static>, NoMemory> {
    FolderDisk::open_within(rt, rt.alloc(), path, Duration::from_millis(20))
}

/// Returns whether a cause has these words.
pub(crate) fn is_told(cause: Option<String>, words: &str) -> bool {
    match cause {
        Some(text) => text.as_str() == words,
        None => false,
    }
}

/// Returns whether every call of another run fails, with these words as its cause.
fn is_refused(rt: &HostRuntime, path: &str, words: &str) -> Result<bool, NoMemory> {
    let mut disk = other(rt, path)?;
    let failed = all_fail(&mut disk);
    Ok(failed && is_told(disk.cause()?, words))
}

/// Returns whether a write to a folder fails whose parent is missing, with its cause told.
fn is_refused_below(rt: &HostRuntime) -> Result<bool, NoMemory> {
    let mut disk = other(rt, "missing/refused")?;
    let failed = disk.write_at(ROOT, 0, b"a").is_err();
    Ok(failed && is_told(disk.cause()?, "missing/refused: No such file or directory"))
}

#[test]
fn what_the_system_refuses_is_a_fault(rt: HostRuntime) -> Result<(), Fail> {
    // One path has a file instead of a folder, and the other's parent is missing.
    fs::write(&rt, "refused", b"".as_slice())?;
    assert!(rt; is_refused(&rt, "refused", "refused: not a directory")?);
    assert!(rt; is_refused_below(&rt)?);
    Ok(())
}

/// Returns the length of the root for another run, or `None` if the call fails.
fn length_for_other(rt: &HostRuntime, path: &str) -> Result<Option<u64>, NoMemory> {
    Ok(other(rt, path)?.length(ROOT).ok())
}

/// Returns whether another run is refused after each of two calls.
fn keeps_out(rt: &HostRuntime, first: &mut FolderDisk) -> Result<bool, Fail> {
    let words = "locked is in use by another run";
    first.write_at(ROOT, 0, b"abc")?;
    let written = is_refused(rt, "locked", words)?;
    first.sync()?;
    let synced = is_refused(rt, "locked", words)?;
    Ok(written && synced)
}

/// Returns whether other runs are refused as long as a run holds the lock.
fn keeps_lock(rt: &HostRuntime) -> Result<bool, Fail> {
    let mut first = FolderDisk::open(rt, rt.alloc(), "locked")?;
    keeps_out(rt, &mut first)
}

// No contract can see the lock itself. That it is taken, and that no call releases it, shows in
// what another run gets between two calls and after the last. That each call asks for the folder
// first, and never asks anew, is in the clauses of the call that finds it.
#[test]
fn a_second_run_waits_and_gives_up(rt: HostRuntime) -> Result<(), Fail> {
    assert!(rt; keeps_lock(&rt)?);
    assert!(rt; length_for_other(&rt, "locked")? == Some(3));
    Ok(())
}

/// Returns whether a run that found the folder missing fails to write to it now that it has a root,
/// and still sees no file.
fn is_too_late(late: &mut FolderDisk) -> Result<bool, NoMemory> {
    let refused = late.write_at(ROOT, 0, b"x").is_err();
    let length = late.length(ROOT);
    let told = is_told(late.cause()?, "filled was made by another run meanwhile");
    Ok(refused && length == Ok(0) && told)
}

/// Puts a root into a folder that a run has found missing, and removes it. Returns whether the run
/// leaves the root alone, and accepts the folder without it.
fn spares_filled(rt: &HostRuntime, late: &mut FolderDisk) -> Result<bool, Fail> {
    let length = late.length(ROOT)?;
    make_files(rt, "filled", &["root"])?;
    let refused = is_too_late(late)?;
    let same = holds(rt, "filled/root", b"")?;
    fs::remove_file(rt, "filled/root")?;
    let accepted = late.write_at(ROOT, 0, b"x").is_ok();
    Ok(length == 0 && refused && same && accepted)
}

#[test]
fn a_folder_that_was_filled_meanwhile_is_refused(rt: HostRuntime) -> Result<(), Fail> {
    let mut late = other(&rt, "filled")?;
    assert!(rt; spares_filled(&rt, &mut late)?);
    Ok(())
}

/// Puts a device, which can't be synced, at the path of an epoch.
fn plant_device(rt: &HostRuntime, path: &str) -> io::Result<()> {
    symlink(rt, "/dev/null", path)
}

/// Makes a sync fail, and returns whether later syncs fail too, after the cause is gone.
fn fails_to_sync(rt: &HostRuntime, disk: &mut FolderDisk) -> io::Result<bool> {
    plant_device(rt, "failed/epoch-0.1")?;
    let failed = disk.length(epoch(0, 1)).is_err();
    fs::remove_file(rt, "failed/epoch-0.1")?;
    let opened = disk.length(epoch(0, 1)).is_ok();
    Ok(failed && opened && disk.sync().is_err())
}

/// Returns whether a failed sync is told, and leaves the mark.
fn tells_failed_sync(rt: &HostRuntime, disk: &mut FolderDisk) -> Result<bool, Fail> {
    disk.write_at(ROOT, 0, b"a")?;
    let failed = fails_to_sync(rt, disk)?;
    let told = is_told(disk.cause()?, "failed/epoch-0.1: Invalid argument");
    let marked = fs::exists(rt, "failed/sync-failed")?;
    Ok(failed && told && marked)
}

#[test]
fn after_a_failed_sync_none_is_answered(rt: HostRuntime) -> Result<(), Fail> {
    let mut disk = other(&rt, "failed")?;
    assert!(rt; tells_failed_sync(&rt, &mut disk)?);
    Ok(())
}

/// Creates the mark of a failed sync at a path.
fn plant_mark(rt: &HostRuntime, path: &str) -> io::Result<()> {
    fs::write(rt, path, b"".as_slice())
}

/// Plants the mark of a failed sync, and returns whether a run keeps the root's bytes and removes
/// the mark.
fn mends(rt: &HostRuntime) -> io::Result<bool> {
    plant_mark(rt, "marked/sync-failed")?;
    let before = fs::read(rt, "marked/root")?;
    let found = length_for_other(rt, "marked").ok().flatten();
    let same = holds(rt, "marked/root", before.as_slice())?;
    let gone = !fs::exists(rt, "marked/sync-failed")?;
    Ok(same && gone && found == Some(before.len() as u64))
}

/// Writes four bytes of the root in a run of its own, and returns whether it did.
fn writes(rt: &HostRuntime, offset: u32) -> Result<bool, NoMemory> {
    let mut disk = other(rt, "marked")?;
    Ok(disk.write_at(ROOT, u64::from(offset), b"tail").is_ok())
}

/// Offsets at which the root is written, in its pieces of 65,536 bytes and across their ends.
const OFFSETS: [u32; 5] = [0, 65_532, 65_533, 131_068, 200_000];

/// Returns whether a run mends the root after a write at each offset.
fn mends_each(rt: &HostRuntime) -> Result<bool, Fail> {
    for offset in &OFFSETS {
        let written = writes(rt, *offset)?;
        if !mends(rt)? || !written {
            return Ok(false);
        }
    }
    Ok(true)
}

#[test]
fn after_a_mark_all_is_written_again(rt: HostRuntime) -> Result<(), Fail> {
    make_files(&rt, "marked", &["root", "epoch-0.1"])?;
    assert!(rt; mends(&rt)?);
    assert!(rt; mends_each(&rt)?);
    Ok(())
}

/// Returns whether the mark is in the folder and a run's call fails, or neither, as `stays` says.
fn stays(rt: &HostRuntime, stays: bool) -> io::Result<bool> {
    let failed = length_for_other(rt, "stays").ok().flatten().is_none();
    let marked = fs::exists(rt, "stays/sync-failed")?;
    Ok(failed == stays && marked == stays)
}

/// Returns whether the mark stays as long as a device is there, and no longer.
fn stays_with_device(rt: &HostRuntime) -> io::Result<bool> {
    plant_device(rt, "stays/epoch-0.1")?;
    let with = stays(rt, true)?;
    fs::remove_file(rt, "stays/epoch-0.1")?;
    let without = stays(rt, false)?;
    Ok(with && without)
}

#[test]
fn a_mark_stays_where_a_file_cannot_be_synced(rt: HostRuntime) -> Result<(), Fail> {
    make_files(&rt, "stays", &["sync-failed"])?;
    assert!(rt; stays_with_device(&rt)?);
    Ok(())
}

/// Sets the mode of a folder.
fn permit(rt: &HostRuntime, path: &str, mode: u32) -> io::Result<()> {
    fs::set_permissions(rt, path, Permissions::from_mode(mode))
}

/// Returns whether the first write creates a folder while its parent may be read, and not before.
fn is_made_when_readable(rt: &HostRuntime, disk: &mut FolderDisk) -> io::Result<bool> {
    let refused = disk.write_at(ROOT, 0, b"a").is_err();
    let gone = !fs::exists(rt, "above/below")?;
    permit(rt, "above", 0o700)?;
    let made = disk.write_at(ROOT, 0, b"a").is_ok();
    let synced = disk.sync().is_ok();
    permit(rt, "above", 0o300)?;
    Ok(refused && gone && made && synced)
}

/// Returns whether a run creates the folder so, and tells why it couldn't at first.
fn is_made_below(rt: &HostRuntime) -> Result<bool, Fail> {
    let mut disk = other(rt, "above/below")?;
    let made = is_made_when_readable(rt, &mut disk)?;
    Ok(made && is_told(disk.cause()?, "above: Permission denied"))
}

/// Returns whether a folder below a parent that may be searched but not read is used, though it
/// can't be created there.
fn is_used_below(rt: &HostRuntime) -> Result<bool, Fail> {
    let made = is_made_below(rt)?;
    let synced = other(rt, "above/below")?.sync().is_ok();
    Ok(made && synced)
}

#[test]
fn a_folder_above_that_may_not_be_read(rt: HostRuntime) -> Result<(), Fail> {
    fs::create_dir(&rt, "above")?;
    permit(&rt, "above", 0o300)?;
    // A user who may read everything can't show this.
    let used = File::open(&rt, "above").is_ok() || is_used_below(&rt)?;
    permit(&rt, "above", 0o700)?;
    assert!(rt; used);
    Ok(())
}
