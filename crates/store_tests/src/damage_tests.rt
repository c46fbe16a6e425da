//! Tests of the disk of an archive of one message, damaged, with more than its root names, or with a
//! cache: what is found when it is opened.
use crate::making_tests::{FIRST_EPOCH, MAP, ROOT, SECOND_EPOCH, append, put};
use crate::opening_tests::{begin, listed_after, opened};
use arch_model::OpenRefusal;
use disk_model::{Disk, DiskFault, FileKind, FileName, MemDisk};
use epoch_store::Store;
use fixtures::{SECOND, cut, empty_disk, write};
use std::alloc::Global;
use std::process::Abort;
use std::test::Fail;
use store_finding::file_names;

/// A file: its name and its bytes.
#[derive(PartialEq, Eq, Drop)]
struct WholeFile {
    name: FileName,
    bytes: Vec<u8>,
}

/// Returns a file of a disk.
fn whole_file(alloc: Global, disk: &mut MemDisk, name: FileName) -> Result<WholeFile, Fail> {
    let length = disk.length(name)?;
    let mut bytes = vec![in alloc; 0; length as usize]?;
    disk.read(name, 0, bytes.as_mut_slice())?;
    Ok(WholeFile { name, bytes })
}

/// All files of a disk.
fn all_files(alloc: Global, disk: &mut MemDisk) -> Result<Vec<WholeFile>, Fail> {
    let names = file_names(alloc, disk)?;
    let mut files = Vec::new(alloc);
    for name in names.as_slice() {
        files.push(whole_file(alloc, disk, *name)?)?;
    }
    Ok(files)
}

/// Returns whether a disk has these files.
fn has_files(alloc: Global, disk: &mut MemDisk, files: &Vec<WholeFile>) -> Result<bool, Fail> {
    Ok(all_files(alloc, disk)? == *files)
}

/// Returns the disk of an archive of one message: a root file of 4,096 bytes, a map of 28, and an
/// epoch of 316.
fn one_message(alloc: Global) -> Result<MemDisk, Fail> {
    let mut disk = empty_disk(alloc);
    begin(alloc, &mut disk, 316, 2)?;
    Ok(disk)
}

/// Returns whether a disk isn't opened, for this cause.
fn is_refusal(alloc: Global, disk: &mut MemDisk, wanted: &OpenRefusal) -> bool {
    match Store::open(alloc, disk) {
        Ok(_) => false,
        Err(refusal) => refusal == *wanted,
    }
}

/// Opens a disk, and returns whether that is refused as it should be and leaves each file as it
/// was.
pub(crate) fn is_refused(
    alloc: Global,
    disk: &mut MemDisk,
    wanted: &OpenRefusal,
) -> Result<bool, Fail> {
    let before = all_files(alloc, disk)?;
    let refused = is_refusal(alloc, disk, wanted);
    let left = has_files(alloc, disk, &before)?;
    Ok(refused && left)
}

/// Bytes that are written over those of a file, and why the archive isn't opened then.
#[derive(Drop)]
struct Overwrite {
    file: FileName,
    at: u64,
    bytes: &'static [u8],
    refusal: OpenRefusal,
}

/// The body of the second slot is damaged.
const ROOT_DAMAGED: OpenRefusal = OpenRefusal::Damaged {
    file: ROOT,
    at: 2560,
};

/// The first record is damaged.
const MAP_DAMAGED: OpenRefusal = OpenRefusal::Damaged { file: MAP, at: 0 };

/// The first bytes of the epoch are damaged.
const MAGIC_DAMAGED: OpenRefusal = OpenRefusal::Damaged {
    file: FIRST_EPOCH,
    at: 0,
};

/// The first entry is damaged.
const ENTRY_DAMAGED: OpenRefusal = OpenRefusal::Damaged {
    file: FIRST_EPOCH,
    at: 8,
};

/// Damage of each file of an archive of one message.
static OVERWRITES: [Overwrite; 11] = [
    // Both slots are shut.
    Overwrite {
        file: ROOT,
        at: 0,
        bytes: b"\0\0",
        refusal: OpenRefusal::NoArchive,
    },
    // The name in the second slot, which is the newest one, has no byte.
    Overwrite {
        file: ROOT,
        at: 2570,
        bytes: b"\0",
        refusal: ROOT_DAMAGED,
    },
    // The second slot has the format of SHA-256 objects, whose map would have 40 bytes.
    Overwrite {
        file: ROOT,
        at: 2568,
        bytes: b"\x02",
        refusal: ROOT_DAMAGED,
    },
    // The file is longer than a root file.
    Overwrite {
        file: ROOT,
        at: 4096,
        bytes: b"\0",
        refusal: OpenRefusal::NoArchive,
    },
    // The first record has the number 2.
    Overwrite {
        file: MAP,
        at: 0,
        bytes: b"\0\0\0\x02",
        refusal: MAP_DAMAGED,
    },
    // It has the epoch 64, the epoch 1, and another blob.
    Overwrite {
        file: MAP,
        at: 7,
        bytes: b"\x40",
        refusal: MAP_DAMAGED,
    },
    Overwrite {
        file: MAP,
        at: 7,
        bytes: b"\x01",
        refusal: ENTRY_DAMAGED,
    },
    Overwrite {
        file: MAP,
        at: 8,
        bytes: b"\0\0",
        refusal: ENTRY_DAMAGED,
    },
    // The epoch's first byte is another one.
    Overwrite {
        file: FIRST_EPOCH,
        at: 0,
        bytes: b"p",
        refusal: MAGIC_DAMAGED,
    },
    // The epoch begins as one of SHA-256 objects.
    Overwrite {
        file: FIRST_EPOCH,
        at: 6,
        bytes: b"2",
        refusal: MAGIC_DAMAGED,
    },
    // The text's last byte is another one.
    Overwrite {
        file: FIRST_EPOCH,
        at: 119,
        bytes: b"!",
        refusal: ENTRY_DAMAGED,
    },
];

/// Writes over bytes of a file, and opens the disk.
fn is_refused_changed(alloc: Global, row: &Overwrite) -> Result<bool, Fail> {
    let mut disk = one_message(alloc)?;
    write(&mut disk, row.file, row.at, row.bytes)?;
    is_refused(alloc, &mut disk, &row.refusal)
}

#[test]
fn damage_is_found_at_its_first_offset_and_left(rt: HostRuntime) -> Result<(), Fail> {
    for (index, row) in OVERWRITES.iter().enumerate() {
        assert!(rt; is_refused_changed(rt.alloc(), row)?, "row {index}");
    }
    Ok(())
}

/// A length that a file is cut to, and why the archive isn't opened then.
#[derive(Drop)]
struct Cut {
    file: FileName,
    length: u64,
    refusal: OpenRefusal,
}

/// Each file of an archive of one message, cut short.
static CUTS: [Cut; 5] = [
    Cut {
        file: ROOT,
        length: 4095,
        refusal: OpenRefusal::NoArchive,
    },
    Cut {
        file: MAP,
        length: 27,
        refusal: MAP_DAMAGED,
    },
    Cut {
        file: FIRST_EPOCH,
        length: 315,
        refusal: ENTRY_DAMAGED,
    },
    Cut {
        file: FIRST_EPOCH,
        length: 8,
        refusal: ENTRY_DAMAGED,
    },
    Cut {
        file: FIRST_EPOCH,
        length: 7,
        refusal: MAGIC_DAMAGED,
    },
];

/// Cuts a file, and opens the disk.
fn is_refused_cut(alloc: Global, row: &Cut) -> Result<bool, Fail> {
    let mut disk = one_message(alloc)?;
    cut(&mut disk, row.file, row.length)?;
    is_refused(alloc, &mut disk, &row.refusal)
}

#[test]
fn a_file_cut_short_is_damage_at_its_first_offset(rt: HostRuntime) -> Result<(), Fail> {
    for (index, row) in CUTS.iter().enumerate() {
        assert!(rt; is_refused_cut(rt.alloc(), row)?, "row {index}");
    }
    Ok(())
}

/// Returns whether the archive on a disk is opened as that after this many calls.
fn is_opened(alloc: Global, disk: &mut MemDisk, calls: u64) -> Result<bool, Fail> {
    let archive = listed_after(alloc, 316, calls)?;
    Ok(opened(alloc, disk)? == archive)
}

/// Appends bytes to a file of an archive of one message, and returns whether its opening brings the
/// files back.
fn is_swept(
    alloc: Global,
    disk: &mut MemDisk,
    file: FileName,
    files: &Vec<WholeFile>,
) -> Result<bool, Fail> {
    append(disk, file)?;
    let appended = !has_files(alloc, disk, files)?;
    let opened = is_opened(alloc, disk, 2)?;
    let swept = has_files(alloc, disk, files)?;
    Ok(appended && opened && swept)
}

/// Appends bytes to a file of an archive of one message with these files, and returns whether its
/// opening brings them back.
fn one_is_swept(alloc: Global, file: FileName, files: &Vec<WholeFile>) -> Result<bool, Fail> {
    let mut disk = one_message(alloc)?;
    is_swept(alloc, &mut disk, file, files)
}

/// Files whose bytes an opening cuts or removes: tails of the epoch and of the map, an epoch of
/// another generation, and one that the archive has not reached.
static SWEPT: [FileName; 4] = [
    FIRST_EPOCH,
    MAP,
    FileName {
        kind: FileKind::Epoch,
        number: 0,
        generation: 9,
    },
    SECOND_EPOCH,
];

/// Appends bytes to each file that an opening looks at, one after the other.
fn sweep_each(rt: &impl Abort, alloc: Global, files: &Vec<WholeFile>) -> Result<(), Fail> {
    assert!(rt; files.len() == 3 && files[2].bytes.len() == 316);
    for file in &SWEPT {
        assert!(rt;
            one_is_swept(alloc, *file, files)?,
            "{} {}",
            file.number,
            file.generation
        );
    }
    Ok(())
}

#[test]
fn what_no_root_names_is_taken_away(rt: HostRuntime) -> Result<(), Fail> {
    let files = all_files(rt.alloc(), &mut one_message(rt.alloc())?)?;
    sweep_each(&rt, rt.alloc(), &files)
}

/// Returns whether the first slot is shut and the second is open, and both have one root.
fn has_one_root(disk: &mut MemDisk) -> Result<bool, DiskFault> {
    let mut root = [0; 4096];
    let count = disk.read(ROOT, 0, &mut root)?;
    let gates = root[0] == 0 && root[1] == 1;
    Ok(count == 4096 && gates && &root[1024..2560] == &root[2560..4096])
}

/// Appends the second message to the archive of one on a disk, and returns whether both are found.
fn goes_on(alloc: Global, disk: &mut MemDisk) -> Result<bool, Fail> {
    let (mut store, _index) = Store::open(alloc, disk)?;
    put(alloc, disk, &mut store, SECOND)?;
    is_opened(alloc, disk, 3)
}

/// Shuts the slot that isn't the current one in an archive of one message, and opens it.
fn open_shut(rt: &impl Abort, alloc: Global, disk: &mut MemDisk) -> Result<(), Fail> {
    write(disk, ROOT, 0, b"\0")?;
    assert!(rt; is_opened(alloc, disk, 2)?);
    assert!(rt; has_one_root(disk)?);
    // The archive goes on from there.
    assert!(rt; goes_on(alloc, disk)?);
    Ok(())
}

#[test]
fn a_slot_that_was_shut_gets_the_current_root(rt: HostRuntime) -> Result<(), Fail> {
    let mut disk = one_message(rt.alloc())?;
    open_shut(&rt, rt.alloc(), &mut disk)
}

/// The file of a cache that the second root of an archive may name.
const CACHE: FileName = FileName {
    kind: FileKind::Cache,
    number: 0,
    generation: 2,
};

/// Lets the current root of an archive of one message name the first five bytes of a cache, which
/// has two more.
fn name_cache(disk: &mut MemDisk) -> Result<(), DiskFault> {
    write(disk, CACHE, 0, b"cache..")?;
    // The generation and the length of the cache, in the second slot.
    write(disk, ROOT, 3699, b"\0\0\0\0\0\0\0\x02\0\0\0\0\0\0\0\x05")
}

/// Returns whether the cache has just the bytes that count.
fn has_cache(disk: &mut MemDisk) -> Result<bool, DiskFault> {
    let mut bytes = [0; 7];
    let count = disk.read(CACHE, 0, &mut bytes)?;
    Ok(count == 5 && &bytes[..5] == b"cache".as_slice())
}

/// Opens an archive of one message whose root names a cache, and appends the second message.
fn go_on_with_cache(rt: &impl Abort, alloc: Global, disk: &mut MemDisk) -> Result<(), Fail> {
    name_cache(disk)?;
    assert!(rt; is_opened(alloc, disk, 2)?);
    assert!(rt; has_cache(disk)?);
    assert!(rt; goes_on(alloc, disk)?);
    assert!(rt; has_cache(disk)?);
    assert!(rt; disk.length(SECOND_EPOCH)? == 316);
    Ok(())
}

#[test]
fn a_cache_that_the_root_names_stays(rt: HostRuntime) -> Result<(), Fail> {
    let mut disk = one_message(rt.alloc())?;
    go_on_with_cache(&rt, rt.alloc(), &mut disk)
}
