//! Maps of both forms on a disk in memory: their bytes, what is read of them, and where they are damaged.
ghost use Rattle.std.specs.Prelude.{◌≤◌};

use crate::file_names::M;
use arch_base::{Form, NoMemory, Numbers, ObjectId};
use disk_model::{Disk, DiskFault, FileKind, FuseDisk, MemDisk, WalkRefusal, records_size};
use number_map::{Record, Records, append, law_of_records, push_records, walk};
use root_change::{PartPlan, Target};
use std::alloc::Global;
use std::process::Abort;
use std::test::Fail;

/// The forms of ids.
const FORMS: [Form; 2] = [Form::Sha1, Form::Sha256];

/// Three records: of the first epoch, of no message, and of the last epoch.
const LINES: [Record; 3] = [
    Record {
        number: 1,
        epoch: 0,
        blob: ObjectId::Sha1(*b"abcdefghijklmnopqrst"),
    },
    Record {
        number: 2,
        epoch: 4_294_967_295,
        blob: ObjectId::Sha1([0; 20]),
    },
    Record {
        number: 3,
        epoch: 63,
        blob: ObjectId::Sha1(*b"ABCDEFGHIJKLMNOPQRST"),
    },
];

/// Their bytes.
const BYTES: &[u8] = b"\x00\x00\x00\x01\x00\x00\x00\x00abcdefghijklmnopqrst\
    \x00\x00\x00\x02\xff\xff\xff\xff\x00\x00\x00\x00\x00\x00\x00\x00\x00\x00\x00\x00\x00\x00\x00\x00\x00\x00\x00\x00\
    \x00\x00\x00\x03\x00\x00\x00\x3fABCDEFGHIJKLMNOPQRST";

/// Three such records whose ids are SHA-256.
const LONG_LINES: [Record; 3] = [
    Record {
        number: 1,
        epoch: 0,
        blob: ObjectId::Sha256(*b"abcdefghijklmnopqrstuvwxyz012345"),
    },
    Record {
        number: 2,
        epoch: 4_294_967_295,
        blob: ObjectId::Sha256([0; 32]),
    },
    Record {
        number: 3,
        epoch: 63,
        blob: ObjectId::Sha256(*b"ABCDEFGHIJKLMNOPQRSTUVWXYZ678901"),
    },
];

/// Their bytes.
const LONG_BYTES: &[u8] = b"\x00\x00\x00\x01\x00\x00\x00\x00abcdefghijklmnopqrstuvwxyz012345\
    \x00\x00\x00\x02\xff\xff\xff\xff\x00\x00\x00\x00\x00\x00\x00\x00\x00\x00\x00\x00\x00\x00\x00\x00\
    \x00\x00\x00\x00\x00\x00\x00\x00\x00\x00\x00\x00\x00\x00\x00\x00\
    \x00\x00\x00\x03\x00\x00\x00\x3fABCDEFGHIJKLMNOPQRSTUVWXYZ678901";

/// Returns the three records of a form.
fn lines_of(form: Form) -> &'static [Record; 3] {
    match form {
        Form::Sha1 => &LINES,
        Form::Sha256 => &LONG_LINES,
    }
}

/// Returns their bytes.
fn bytes_of(form: Form) -> &'static [u8] {
    match form {
        Form::Sha1 => BYTES,
        Form::Sha256 => LONG_BYTES,
    }
}

/// Returns the length of so many records, up to 10,000.
fn length_of(form: Form, count: u32) -> u64
    ensures { result ≤ 400000 }
{
    records_size(count.min(10_000), form)
}

/// Bytes that are put over those of the three records.
struct Patch {
    /// Their offset.
    at: u64,
    bytes: &'static [u8],
    /// Where the map then is damaged.
    damage: Option<u64>,
}

/// Patches of the three records whose ids are SHA-1.
const PATCHES: [Patch; 15] = [
    Patch {
        at: 0,
        bytes: b"\x00\x00\x00\x02",
        damage: Some(0),
    },
    Patch {
        at: 3,
        bytes: b"\x00",
        damage: Some(0),
    },
    Patch {
        at: 0,
        bytes: b"\x01",
        damage: Some(0),
    },
    Patch {
        at: 28,
        bytes: b"\x00\x00\x00\x01",
        damage: Some(28),
    },
    Patch {
        at: 56,
        bytes: b"\x00\x00\x00\x04",
        damage: Some(56),
    },
    Patch {
        at: 4,
        bytes: b"\x00\x00\x00\x3f",
        damage: None,
    },
    Patch {
        at: 4,
        bytes: b"\x00\x00\x00\x40",
        damage: Some(0),
    },
    Patch {
        at: 60,
        bytes: b"\x00\x00\x01\x00",
        damage: Some(56),
    },
    Patch {
        at: 4,
        bytes: b"\xff\xff\xff\xff",
        damage: Some(0),
    },
    Patch {
        at: 32,
        bytes: b"\xff\xff\xff\xfe",
        damage: Some(28),
    },
    Patch {
        at: 32,
        bytes: b"\x00\x00\x00\x00",
        damage: None,
    },
    Patch {
        at: 36,
        bytes: b"\x80",
        damage: Some(28),
    },
    Patch {
        at: 55,
        bytes: b"\x01",
        damage: Some(28),
    },
    Patch {
        at: 8,
        bytes: b"\x00\x00",
        damage: None,
    },
    Patch {
        at: 84,
        bytes: b"\x00",
        damage: None,
    },
];

/// Patches of the three records whose ids are SHA-256.
const LONG_PATCHES: [Patch; 8] = [
    Patch {
        at: 0,
        bytes: b"\x00\x00\x00\x02",
        damage: Some(0),
    },
    Patch {
        at: 40,
        bytes: b"\x00\x00\x00\x01",
        damage: Some(40),
    },
    Patch {
        at: 80,
        bytes: b"\x00\x00\x00\x04",
        damage: Some(80),
    },
    Patch {
        at: 84,
        bytes: b"\x00\x00\x01\x00",
        damage: Some(80),
    },
    Patch {
        at: 48,
        bytes: b"\x80",
        damage: Some(40),
    },
    Patch {
        at: 79,
        bytes: b"\x01",
        damage: Some(40),
    },
    Patch {
        at: 8,
        bytes: b"\x00\x00",
        damage: None,
    },
    Patch {
        at: 120,
        bytes: b"\x00",
        damage: None,
    },
];

/// Returns the patches of the three records of a form.
fn patches_of(form: Form) -> &'static [Patch] {
    match form {
        Form::Sha1 => &PATCHES,
        Form::Sha256 => &LONG_PATCHES,
    }
}

/// Puts a record where the map reaches that far, after one look at that.
fn put<D: Disk>(disk: &mut D, at: u64, line: &Record) -> Result<(), DiskFault> {
    if at > disk.length(M)? || at > 1_000_000 {
        return Err(DiskFault);
    }
    append(disk, M, at, line)
}

/// Puts the three records of a form onto a disk.
fn put_three<D: Disk>(disk: &mut D, form: Form) -> Result<(), DiskFault> {
    let [first, second, third] = lines_of(form);
    put(disk, 0, first)?;
    put(disk, length_of(form, 1), second)?;
    put(disk, length_of(form, 2), third)
}

/// Writes into the map.
fn write<D: Disk>(disk: &mut D, offset: u64, bytes: &[u8]) -> Result<(), DiskFault> {
    if offset > disk.length(M)? || offset > 1_000_000 || bytes.len() > 1_000_000 {
        return Err(DiskFault);
    }
    disk.write_at(M, offset, bytes)
}

/// Cuts the map.
fn trim<D: Disk>(disk: &mut D, length: u64) -> Result<(), DiskFault> {
    if length > disk.length(M)? {
        return Err(DiskFault);
    }
    disk.cut(M, length)
}

/// Returns where the map of a form is damaged, or `None` if its records up to a number are read.
fn damage<D: Disk>(
    alloc: Global,
    disk: &mut D,
    form: Form,
    count: u32,
) -> Result<Option<u64>, WalkRefusal> {
    match walk(alloc, disk, M, count, form) {
        Ok(_) => Ok(None),
        Err(WalkRefusal::Damaged { at }) => Ok(Some(at)),
        Err(refusal) => Err(refusal),
    }
}

/// Returns whether no record is read of a map that isn't there.
fn has_no_record<D: Disk>(alloc: Global, disk: &mut D, form: Form) -> bool {
    let none = damage(alloc, disk, form, 0) == Ok(None);
    let one = damage(alloc, disk, form, 1) == Ok(Some(0));
    none && one
}

/// Returns whether the map has the bytes of the three records of a form.
fn has_bytes<D: Disk>(disk: &mut D, form: Form) -> Result<bool, DiskFault> {
    let length = disk.length(M)?;
    let mut bytes = [7; 121];
    let count = disk.read(M, 0, &mut bytes)?;
    Ok(length == length_of(form, 3) && &bytes[..count] == bytes_of(form))
}

/// Returns whether the three records of a form are read, and copied.
fn has_records<D: Disk>(alloc: Global, disk: &mut D, form: Form) -> Result<bool, WalkRefusal> {
    let lines: Records = walk(alloc, disk, M, 3, form)?;
    let copied = lines.copy()?;
    let wanted = lines_of(form).as_slice();
    Ok(lines.as_slice() == wanted && copied.as_slice() == wanted)
}

/// Puts the three records of a form onto a disk without files, and returns whether they are read.
fn are_read<D: Disk>(alloc: Global, disk: &mut D, form: Form) -> Result<bool, WalkRefusal> {
    let none = has_no_record(alloc, disk, form);
    put_three(disk, form)?;
    let bytes = has_bytes(disk, form)?;
    let records = has_records(alloc, disk, form)?;
    let end = damage(alloc, disk, form, 4) == Ok(Some(length_of(form, 3)));
    Ok(none && bytes && records && end)
}

#[test]
fn what_was_appended_is_read(rt: HostRuntime) -> Result<(), Fail> {
    law_of_records();
    for form in FORMS {
        let mut disk = MemDisk::new(rt.alloc(), Numbers::new(rt.alloc()));
        assert!(rt; are_read(rt.alloc(), &mut disk, form)?, "{form:?}");
    }
    Ok(())
}

/// Returns where the three records of a form are damaged when they are read as those of the other one.
fn damage_in_other(alloc: Global, form: Form) -> Result<Option<u64>, WalkRefusal> {
    let mut disk = MemDisk::new(alloc, Numbers::new(alloc));
    put_three(&mut disk, form)?;
    match form {
        Form::Sha1 => damage(alloc, &mut disk, Form::Sha256, 2),
        Form::Sha256 => damage(alloc, &mut disk, Form::Sha1, 2),
    }
}

#[test]
fn a_map_of_the_other_form_is_damaged_at_its_second_record(rt: HostRuntime) -> Result<(), Fail> {
    assert_eq!(rt; damage_in_other(rt.alloc(), Form::Sha1), Ok(Some(40)));
    assert_eq!(rt; damage_in_other(rt.alloc(), Form::Sha256), Ok(Some(28)));
    Ok(())
}

/// Returns where the three records of a form are damaged when bytes are put over theirs.
fn damage_of(alloc: Global, form: Form, patch: &Patch) -> Result<Option<u64>, WalkRefusal> {
    let mut disk = MemDisk::new(alloc, Numbers::new(alloc));
    put_three(&mut disk, form)?;
    write(&mut disk, patch.at, patch.bytes)?;
    damage(alloc, &mut disk, form, 3)
}

/// Puts each patch of a form over its three records, and reads them.
fn try_patches(rt: &impl Abort, alloc: Global, form: Form) {
    for patch in patches_of(form) {
        let damage = damage_of(alloc, form, patch);
        assert_eq!(rt; damage, Ok(patch.damage), "{form:?}, offset {}", patch.at);
    }
}

#[test]
fn damage_is_at_the_first_bad_record(rt: HostRuntime) -> Result<(), Fail> {
    for form in FORMS {
        try_patches(&rt, rt.alloc(), form);
    }
    Ok(())
}

/// Returns where a map of so many bytes is damaged when three records of a form are read of it.
fn last_record(form: Form, length: u64) -> u64 {
    if length < length_of(form, 1) {
        0
    } else if length < length_of(form, 2) {
        length_of(form, 1)
    } else {
        length_of(form, 2)
    }
}

/// Cuts a map of three records, and returns whether it is damaged at its last record.
fn is_damaged_at_last<D: Disk>(
    alloc: Global,
    disk: &mut D,
    form: Form,
    length: u64,
) -> Result<bool, DiskFault> {
    trim(disk, length)?;
    Ok(damage(alloc, disk, form, 3) == Ok(Some(last_record(form, length))))
}

/// Cuts a map of three records to each length below its own, from the greatest on, and reads it.
fn cut_and_read<D: Disk>(
    rt: &impl Abort,
    alloc: Global,
    disk: &mut D,
    form: Form,
) -> Result<(), DiskFault> {
    let end = length_of(form, 3);
    for cut in 1..=end {
        let length = end - cut;
        let damaged = is_damaged_at_last(alloc, disk, form, length)?;
        assert!(rt; damaged, "{form:?}, length {length}");
    }
    Ok(())
}

#[test]
fn a_map_cut_short_is_damaged_at_its_last_record(rt: HostRuntime) -> Result<(), Fail> {
    for form in FORMS {
        let mut disk = MemDisk::new(rt.alloc(), Numbers::new(rt.alloc()));
        put_three(&mut disk, form)?;
        cut_and_read(&rt, rt.alloc(), &mut disk, form)?;
    }
    Ok(())
}

/// Puts so many records of a form onto a disk.
fn put_many<D: Disk>(disk: &mut D, form: Form, count: u32) -> Result<(), DiskFault> {
    let [first, _, _] = lines_of(form);
    let blob = first.blob;
    for before in 0..count {
        let number = before.saturating_add(1);
        let line = Record {
            number,
            epoch: number % 64,
            blob,
        };
        put(disk, length_of(form, before), &line)?;
    }
    Ok(())
}

/// Returns whether so many records of a form are read, and the last of them is that of its number.
fn has_many<D: Disk>(
    alloc: Global,
    disk: &mut D,
    form: Form,
    count: u32,
) -> Result<bool, WalkRefusal> {
    let lines = walk(alloc, disk, M, count, form)?;
    let Some(last) = lines.as_slice().last() else {
        return Ok(false);
    };
    let placed = last.number == count && last.epoch == count % 64;
    Ok(placed && lines.as_slice().len() == count as usize)
}

/// Returns whether a number of the second piece that is another one is found, and not where it isn't read.
fn is_found_in_second<D: Disk>(alloc: Global, disk: &mut D, form: Form) -> bool {
    let before = damage(alloc, disk, form, 2_340) == Ok(None);
    let there = damage(alloc, disk, form, 4_681) == Ok(Some(length_of(form, 2_340)));
    before && there
}

/// Returns the first of these counts up to which a map isn't read.
fn first_unread<D: Disk>(
    alloc: Global,
    disk: &mut D,
    form: Form,
    counts: &[u32],
) -> Result<Option<u32>, WalkRefusal> {
    for count in counts {
        if !has_many(alloc, disk, form, *count)? {
            return Ok(Some(*count));
        }
    }
    Ok(None)
}

/// Reads a map of 4,681 records of a form up to the ends of its pieces, and damages the second one.
fn read_pieces<D: Disk>(
    rt: &impl Abort,
    alloc: Global,
    disk: &mut D,
    form: Form,
) -> Result<(), WalkRefusal> {
    let unread = first_unread(
        alloc,
        disk,
        form,
        &[2_339, 2_340, 2_341, 4_679, 4_680, 4_681],
    )?;
    assert_eq!(rt;
        (unread, damage(alloc, disk, form, 4_682)),
        (None, Ok(Some(length_of(form, 4_681))))
    );
    // The first number of the second piece.
    write(disk, length_of(form, 2_340) + 3, b"\x00")?;
    assert!(rt; is_found_in_second(alloc, disk, form));
    Ok(())
}

#[test]
fn a_map_of_many_pieces_is_read(rt: HostRuntime) -> Result<(), Fail> {
    for form in FORMS {
        let mut disk = MemDisk::new(rt.alloc(), Numbers::new(rt.alloc()));
        put_many(&mut disk, form, 4_681)?;
        read_pieces(&rt, rt.alloc(), &mut disk, form)?;
    }
    Ok(())
}

/// Returns whether a disk that stops after so many calls answers its fault, and with seven the map.
fn is_read_in_seven_calls(alloc: Global, passes: u64) -> bool {
    let mut fuse = FuseDisk::new(MemDisk::new(alloc, Numbers::new(alloc)), passes);
    // A look at the length and a write for each record, and one read.
    let put = put_three(&mut fuse, Form::Sha1).is_ok();
    let want = if passes >= 7 {
        Ok(None)
    } else {
        Err(WalkRefusal::DiskFault)
    };
    put == (passes >= 6) && damage(alloc, &mut fuse, Form::Sha1, 3) == want
}

#[test]
fn a_call_that_fails_is_no_answer(rt: HostRuntime) -> Result<(), Fail> {
    for passes in 0..8 {
        assert!(rt; is_read_in_seven_calls(rt.alloc(), passes), "{passes}");
    }
    Ok(())
}

/// Appends the three records of a form to a plan as one piece, and returns whether that has just their
/// bytes.
fn pushes_piece(alloc: Global, form: Form) -> Result<bool, NoMemory> {
    let mut plan = PartPlan::new(alloc, FileKind::Map, 0, Target::Anew);
    push_records(alloc, &mut plan, lines_of(form))?;
    Ok(plan.sources().len() == 1 && plan.bytes() == bytes_of(form))
}

#[test]
fn records_are_one_source_of_a_plan(rt: HostRuntime) -> Result<(), Fail> {
    for form in FORMS {
        assert!(rt; pushes_piece(rt.alloc(), form)?, "{form:?}");
    }
    Ok(())
}
