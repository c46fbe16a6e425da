//! Tests of a fixed list of calls on a disk in memory, and of the files that a crash leaves at each
//! moment.
use crate::file_names::{A, B, M};
use arch_base::{Bytes, NoMemory, Numbers};
use disk_model::{Disk, DiskFault, FileName, MemDisk, WalkRefusal};
use std::alloc::Global;
use std::process::Abort;
use std::test::Fail;

/// A call of a disk.
#[derive(Clone, Copy)]
enum Call {
    Write(FileName, u64, &'static [u8]),
    Cut(FileName, u64),
    Remove(FileName),
    Sync,
    Read(FileName),
    Length(FileName),
    NameAt(u64),
}

/// The calls, and whether each returns `Ok`. A write and a cut ask for the file's length first, so
/// each of them is two calls.
static CALLS: [(Call, bool); 30] = [
    (Call::Write(A, 0, b"abcdef"), true), // calls 1 and 2
    (Call::Write(B, 0, b"xy"), true), // 3, 4
    (Call::Sync, true), // 5
    (Call::Write(A, 2, b"PQ"), true), // 6, 7
    (Call::Write(A, 4, b"RSTU"), true), // 8, 9
    (Call::Read(A), true), // 10
    (Call::Cut(A, 3), true), // 11, 12
    (Call::Write(A, 3, b"ghi"), true), // 13, 14
    (Call::Sync, false), // 15
    (Call::Remove(B), true), // 16
    (Call::NameAt(1), true), // 17
    (Call::Sync, true), // 18
    (Call::Write(B, 0, b"new"), true), // 19, 20
    (Call::Write(M, 0, b""), true), // 21, 22
    (Call::Write(A, 0, b"ZZ"), false), // 23, 24
    (Call::Remove(A), true), // 25
    (Call::Write(A, 0, b"A2"), true), // 26, 27
    (Call::Cut(B, 1), true), // 28, 29
    (Call::Length(B), false), // 30
    (Call::Cut(A, 1), false), // 31, 32
    (Call::Write(A, 1, b"BC"), true), // 33, 34
    (Call::Sync, true), // 35
    (Call::Remove(M), false), // 36
    (Call::Remove(M), true), // 37
    (Call::Remove(M), true), // 38
    (Call::Cut(M, 0), true), // 39, 40
    (Call::Write(B, 1, b"ewer"), true), // 41, 42
    (Call::Read(A), false), // 43
    (Call::NameAt(0), false), // 44
    (Call::Sync, true), // 45
];

/// The ordinals of the calls that fail.
const FAULTS: [u64; 7] = [15, 24, 30, 32, 36, 43, 44];

/// The files that a crash leaves at each moment, with each of the four picks, by the rules.
static IMAGES: [[&[u8]; 4]; 22] = [
    // 0: before the first change
    [b"", b"", b"", b""],
    // 1: a is made
    [b"", b"a=abcdef;", b"a=\xff\xff\xff\xff\xff\xff;", b""],
    // 2: b is made
    [
        b"",
        b"a=abcdef;b=xy;",
        b"a=\xff\xff\xff\xff\xff\xff;b=\xff\xff;",
        b"a=abcdef;",
    ],
    // 3: a sync
    [
        b"a=abcdef;b=xy;",
        b"a=abcdef;b=xy;",
        b"a=abcdef;b=xy;",
        b"a=abcdef;b=xy;",
    ],
    // 4: over bytes of a
    [
        b"a=abcdef;b=xy;",
        b"a=abPQef;b=xy;",
        b"a=ab\xff\xffef;b=xy;",
        b"a=abcdef;b=xy;",
    ],
    // 5: over bytes of a and past its end
    [
        b"a=abcdef;b=xy;",
        b"a=abPQRSTU;b=xy;",
        b"a=ab\xff\xff\xff\xff\xff\xff;b=xy;",
        b"a=abPQef;b=xy;",
    ],
    // 6: a is cut
    [
        b"a=abcdef;b=xy;",
        b"a=abP;b=xy;",
        b"a=ab\xff;b=xy;",
        b"a=abPQef;b=xy;",
    ],
    // 7: at the end of a
    [
        b"a=abcdef;b=xy;",
        b"a=abPghi;b=xy;",
        b"a=ab\xff\xff\xff\xff;b=xy;",
        b"a=abPQRSTU;b=xy;",
    ],
    // 8: b is removed
    [
        b"a=abcdef;b=xy;",
        b"a=abPghi;",
        b"a=ab\xff\xff\xff\xff;",
        b"a=abPQRSTU;b=xy;",
    ],
    // 9: a sync
    [b"a=abPghi;", b"a=abPghi;", b"a=abPghi;", b"a=abPghi;"],
    // 10: b is made again
    [
        b"a=abPghi;",
        b"a=abPghi;b=new;",
        b"a=abPghi;b=\xff\xff\xff;",
        b"a=abPghi;",
    ],
    // 11: m is made without bytes
    [
        b"a=abPghi;",
        b"m=;a=abPghi;b=new;",
        b"m=;a=abPghi;b=\xff\xff\xff;",
        b"a=abPghi;b=new;",
    ],
    // 12: a is removed
    [
        b"a=abPghi;",
        b"m=;b=new;",
        b"m=;b=\xff\xff\xff;",
        b"a=abPghi;b=new;",
    ],
    // 13: a is made again
    [
        b"a=abPghi;",
        b"m=;a=A2;b=new;",
        b"m=;a=\xff\xff;b=\xff\xff\xff;",
        b"m=;a=abPghi;b=new;",
    ],
    // 14: b is cut
    [
        b"a=abPghi;",
        b"m=;a=A2;b=n;",
        b"m=;a=\xff\xff;b=\xff;",
        b"m=;a=abPghi;b=new;",
    ],
    // 15: over bytes of a and past its end
    [
        b"a=abPghi;",
        b"m=;a=ABC;b=n;",
        b"m=;a=\xff\xff\xff;b=\xff;",
        b"m=;b=new;",
    ],
    // 16: a sync
    [
        b"m=;a=ABC;b=n;",
        b"m=;a=ABC;b=n;",
        b"m=;a=ABC;b=n;",
        b"m=;a=ABC;b=n;",
    ],
    // 17: m is removed
    [
        b"m=;a=ABC;b=n;",
        b"a=ABC;b=n;",
        b"a=ABC;b=n;",
        b"m=;a=ABC;b=n;",
    ],
    // 18: m is removed where it is missing
    [
        b"m=;a=ABC;b=n;",
        b"a=ABC;b=n;",
        b"a=ABC;b=n;",
        b"a=ABC;b=n;",
    ],
    // 19: m is cut where it is missing
    [
        b"m=;a=ABC;b=n;",
        b"a=ABC;b=n;",
        b"a=ABC;b=n;",
        b"a=ABC;b=n;",
    ],
    // 20: at the end of b
    [
        b"m=;a=ABC;b=n;",
        b"a=ABC;b=newer;",
        b"a=ABC;b=n\xff\xff\xff\xff;",
        b"a=ABC;b=n;",
    ],
    // 21: a sync
    [
        b"a=ABC;b=newer;",
        b"a=ABC;b=newer;",
        b"a=ABC;b=newer;",
        b"a=ABC;b=newer;",
    ],
];

/// Makes a call. A write or a cut beyond the file's end only asks for the length.
fn make(disk: &mut MemDisk, call: &Call) -> Result<(), DiskFault> {
    match call {
        Call::Write(name, offset, bytes) => write(disk, *name, *offset, bytes),
        Call::Cut(name, length) => cut(disk, *name, *length),
        Call::Remove(name) => disk.remove(*name),
        Call::Sync => disk.sync(),
        Call::Read(name) => {
            let mut buffer = [0; 4];
            disk.read(*name, 1, &mut buffer)?;
            Ok(())
        }
        Call::Length(name) => {
            disk.length(*name)?;
            Ok(())
        }
        Call::NameAt(index) => {
            disk.name_at(*index)?;
            Ok(())
        }
    }
}

/// Writes bytes if the offset is in the file or at its end.
fn write<D: Disk>(
    disk: &mut D,
    name: FileName,
    offset: u64,
    bytes: &[u8],
) -> Result<(), DiskFault> {
    let length = disk.length(name)?;
    if offset > length || offset > 64 || bytes.len() > 64 {
        return Ok(());
    }
    disk.write_at(name, offset, bytes)
}

/// Cuts a file if it is at least as long as the new length.
fn cut<D: Disk>(disk: &mut D, name: FileName, to: u64) -> Result<(), DiskFault> {
    let length = disk.length(name)?;
    if to > length {
        return Ok(());
    }
    disk.cut(name, to)
}

/// Returns the letter of a file.
fn letter(name: FileName) -> u8 {
    if name == M {
        b'm'
    } else if name == A {
        b'a'
    } else {
        b'b'
    }
}

/// Appends a file to a text.
fn show(disk: &mut MemDisk, name: FileName, text: &mut Bytes) -> Result<(), WalkRefusal> {
    let mut buffer = [0; 16];
    let count = disk.read(name, 0, &mut buffer)?;
    text.push(letter(name))?;
    text.push(b'=')?;
    text.push_slice(&buffer[..count])?;
    text.push(b';')?;
    Ok(())
}

/// Returns all files as a text, in the order of their names.
fn shown(alloc: Global, disk: &mut MemDisk) -> Result<Bytes, WalkRefusal> {
    let mut text = Bytes::new(alloc);
    for index in 0..4 {
        match disk.name_at(index)? {
            Some(name) => show(disk, name, &mut text)?,
            None => return Ok(text),
        }
    }
    Ok(text)
}

/// Creates a disk whose listed calls fail.
fn failing(alloc: Global) -> Result<MemDisk, NoMemory> {
    let mut faults = Numbers::new(alloc);
    for ordinal in FAULTS {
        faults.push(ordinal)?;
    }
    Ok(MemDisk::new(alloc, faults))
}

/// Makes all calls, and returns whether each succeeds or fails as listed.
fn make_all(disk: &mut MemDisk) -> bool {
    for (step, works) in &CALLS {
        if make(disk, step).is_ok() != *works {
            return false;
        }
    }
    true
}

/// Returns whether the files that a crash leaves at a moment are shown as this text.
fn is_image(
    alloc: Global,
    disk: &MemDisk,
    at: u64,
    pick: u64,
    want: &[u8],
) -> Result<bool, WalkRefusal> {
    if at > disk.moments() || pick > 3 {
        return Ok(false);
    }
    let mut image = disk.image(at, pick)?;
    let text = shown(alloc, &mut image)?;
    Ok(text.as_slice() == want)
}

/// Returns the moment and the pick of the first image that isn't as listed.
fn first_other_image(alloc: Global, disk: &MemDisk) -> Result<Option<(usize, usize)>, WalkRefusal> {
    for (at, picks) in IMAGES.iter().enumerate() {
        for (pick, want) in picks.iter().enumerate() {
            if !is_image(alloc, disk, at as u64, pick as u64, want)? {
                return Ok(Some((at, pick)));
            }
        }
    }
    Ok(None)
}

/// Makes all calls on a disk, and looks at what a crash leaves.
fn look_at_images(rt: &impl Abort, alloc: Global, disk: &mut MemDisk) -> Result<(), WalkRefusal> {
    assert!(rt; make_all(disk));
    assert_eq!(rt; (disk.starved(), disk.moments()), (0, 21));
    assert_eq!(rt; first_other_image(alloc, disk)?, None);
    Ok(())
}

#[test]
fn every_image_is_that_of_the_rules(rt: HostRuntime) -> Result<(), Fail> {
    let mut disk = failing(rt.alloc())?;
    look_at_images(&rt, rt.alloc(), &mut disk)?;
    Ok(())
}
