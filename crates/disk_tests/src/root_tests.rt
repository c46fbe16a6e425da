//! Roots on a disk in memory: their bytes, and what is read of a root file.
ghost use Rattle.root_slots.specs.Valid.{IsRoot};

use crate::roots::{ROOT, body_of, is_same, put, root_of, sample, slot_read, write};
use arch_base::{Config, Form, Name, Numbers};
use disk_model::{Disk, DiskFault, FuseDisk, MemDisk, record_size};
use root_slots::{Place, Root, RootRefusal, Slot, begin, law_of_spellings};
use std::alloc::Global;
use std::process::Abort;
use std::test::Fail;

/// Returns the sample of a form, of sequence 1 and largest number 7. Its fields differ from one another.
fn made(form: Form) -> Option<Root> {
    let name = Name::read(b"list-1.x")?;
    let mut epochs = [Place {
        generation: 0,
        length: 0,
    }; 64];
    epochs[0] = Place {
        generation: 1,
        length: 0x1234,
    };
    epochs[63].length = 9;
    Some(Root {
        config: Config {
            name,
            limit: 0x01_0203_0405,
            slice: 0x0a_0b0c,
            max: 7,
            mirror: true,
            born: 1_706_781_700,
            form,
        },
        sequence: 1,
        next: 3,
        map: Place {
            generation: 1,
            length: 2 * record_size(form) as u64,
        },
        epochs,
        cache: Place {
            generation: 1,
            length: 77,
        },
    })
}

/// Returns whether a body is read as the root of its form that was made.
fn is_read_as_made(form: Form, root: &Root) -> bool {
    match made(form) {
        Some(made) => is_same(root, &made),
        None => false,
    }
}

/// Creates a disk with a new root file.
fn begun(alloc: Global) -> Result<MemDisk, DiskFault> {
    let mut disk = MemDisk::new(alloc, Numbers::new(alloc));
    begin(&mut disk)?;
    Ok(disk)
}

/// Returns whether a root is written to the second slot as this body.
fn is_filled<D: Disk>(disk: &mut D, root: &Root, body: &[u8; 1536]) -> Result<bool, DiskFault>
    requires { IsRoot root.now }
{
    put(disk, Slot::Second, root, true)?;
    let mut written = [7; 1536];
    let count = disk.read(ROOT, 2560, &mut written)?;
    Ok(count == 1536 && written == *body)
}

/// Returns whether the sample of a form is read of its bytes, and written as them.
fn has_these_bytes(alloc: Global, form: Form) -> Result<bool, RootRefusal> {
    let body = body_of(form, 1, 7);
    let root = root_of(alloc, &body)?;
    let filled = is_filled(&mut begun(alloc)?, &root, &body)?;
    Ok(is_read_as_made(form, &root) && filled)
}

#[test]
fn a_root_of_each_form_has_these_bytes(rt: HostRuntime) -> Result<(), Fail> {
    law_of_spellings();
    for form in [Form::Sha1, Form::Sha256] {
        assert!(rt; has_these_bytes(rt.alloc(), form)?, "{form:?}");
    }
    Ok(())
}

/// Bytes that are written over the sample's body.
struct Patch {
    /// Their offset in the body.
    at: u64,
    bytes: &'static [u8],
    /// Whether the body is then still that of a root.
    stands: bool,
}

/// Patches of fields of the sample whose ids are SHA-1.
const PATCHES: [Patch; 39] = [
    Patch {
        at: 0,
        bytes: b"\x00\x00\x00\x00\x00\x00\x00\x00",
        stands: false,
    },
    Patch {
        at: 8,
        bytes: b"\x00",
        stands: false,
    },
    Patch {
        at: 8,
        bytes: b"\x02",
        stands: false,
    },
    Patch {
        at: 8,
        bytes: b"\x03",
        stands: false,
    },
    Patch {
        at: 9,
        bytes: b"\x00",
        stands: true,
    },
    Patch {
        at: 9,
        bytes: b"\x02",
        stands: false,
    },
    Patch {
        at: 10,
        bytes: b"\x00",
        stands: false,
    },
    Patch {
        at: 10,
        bytes: b"\x07",
        stands: false,
    },
    Patch {
        at: 10,
        bytes: b"\x41",
        stands: false,
    },
    Patch {
        at: 11,
        bytes: b"L",
        stands: false,
    },
    Patch {
        at: 11,
        bytes: b"-",
        stands: false,
    },
    Patch {
        at: 18,
        bytes: b".",
        stands: false,
    },
    Patch {
        at: 19,
        bytes: b"y",
        stands: false,
    },
    Patch {
        at: 74,
        bytes: b"\x01",
        stands: false,
    },
    Patch {
        at: 75,
        bytes: b"\x00\x00\x00\x00\x00\x00\x00\x00",
        stands: false,
    },
    Patch {
        at: 75,
        bytes: b"\x00\x00\x01\x00\x00\x00\x00\x00",
        stands: true,
    },
    Patch {
        at: 75,
        bytes: b"\x00\x00\x01\x00\x00\x00\x00\x01",
        stands: false,
    },
    Patch {
        at: 83,
        bytes: b"\x00\x00\x00\x00",
        stands: false,
    },
    Patch {
        at: 83,
        bytes: b"\x00\x0f\x42\x40",
        stands: true,
    },
    Patch {
        at: 83,
        bytes: b"\x00\x0f\x42\x41",
        stands: false,
    },
    Patch {
        at: 87,
        bytes: b"\x00\x00\x00\x00",
        stands: false,
    },
    Patch {
        at: 87,
        bytes: b"\x7f\xff\xff\xff",
        stands: true,
    },
    Patch {
        at: 87,
        bytes: b"\x80\x00\x00\x00",
        stands: false,
    },
    Patch {
        at: 91,
        bytes: b"\x00\x00\x00\x00",
        stands: false,
    },
    Patch {
        at: 91,
        bytes: b"\xff\xff\xff\xff",
        stands: true,
    },
    Patch {
        at: 95,
        bytes: b"\x00\x00\x00\x00",
        stands: false,
    },
    Patch {
        at: 95,
        bytes: b"\x80\x00\x00\x01\x00\x00\x00\x00\x00\x00\x00\x01\x00\x00\x00\x0e\x00\x00\x00\x00",
        stands: false,
    },
    Patch {
        at: 95,
        bytes: b"\x80\x00\x00\x00\x00\x00\x00\x00\x00\x00\x00\x01\x00\x00\x00\x0d\xff\xff\xff\xe4",
        stands: true,
    },
    Patch {
        at: 95,
        bytes: b"\x00\x00\x00\x00\x00\x00\x00\x00\x00\x00\x00\x01\x00\x00\x00\x00\x00\x00\x00\x00",
        stands: false,
    },
    Patch {
        at: 95,
        bytes: b"\x00\x00\x00\x01\x00\x00\x00\x00\x00\x00\x00\x01\x00\x00\x00\x00\x00\x00\x00\x00",
        stands: true,
    },
    Patch {
        at: 106,
        bytes: b"\x02",
        stands: false,
    },
    Patch {
        at: 114,
        bytes: b"\x39",
        stands: false,
    },
    Patch {
        at: 122,
        bytes: b"\x02",
        stands: false,
    },
    Patch {
        at: 131,
        bytes: b"\x00\x00\x00\x00\x00\x00\x00\x01",
        stands: false,
    },
    Patch {
        at: 1130,
        bytes: b"\x02",
        stands: false,
    },
    Patch {
        at: 1146,
        bytes: b"\x02",
        stands: false,
    },
    Patch {
        at: 1154,
        bytes: b"\x00",
        stands: false,
    },
    Patch {
        at: 1155,
        bytes: b"\x01",
        stands: false,
    },
    Patch {
        at: 1535,
        bytes: b"\x01",
        stands: false,
    },
];

/// Patches of fields of the sample whose ids are SHA-256.
const LONG_PATCHES: [Patch; 7] = [
    Patch {
        at: 8,
        bytes: b"\x00",
        stands: false,
    },
    Patch {
        at: 8,
        bytes: b"\x01",
        stands: false,
    },
    Patch {
        at: 8,
        bytes: b"\x03",
        stands: false,
    },
    Patch {
        at: 114,
        bytes: b"\x38",
        stands: false,
    },
    Patch {
        at: 114,
        bytes: b"\x51",
        stands: false,
    },
    Patch {
        at: 95,
        bytes: b"\x00\x00\x00\x02\x00\x00\x00\x00\x00\x00\x00\x01\x00\x00\x00\x00\x00\x00\x00\x28",
        stands: true,
    },
    Patch {
        at: 95,
        bytes: b"\x80\x00\x00\x00\x00\x00\x00\x00\x00\x00\x00\x01\x00\x00\x00\x13\xff\xff\xff\xd8",
        stands: true,
    },
];

/// Returns the patches of the sample of a form.
fn patches_of(form: Form) -> &'static [Patch] {
    match form {
        Form::Sha1 => &PATCHES,
        Form::Sha256 => &LONG_PATCHES,
    }
}

/// Writes a root to a slot and then bytes over its body.
///
/// Returns whether the root is read before those bytes, and after them is read if `stands` is set
/// and damaged otherwise.
fn is_field<D: Disk>(
    disk: &mut D,
    root: &Root,
    slot: Slot,
    patch: &Patch,
) -> Result<bool, DiskFault>
    requires { IsRoot root.now }
{
    let body = match slot {
        Slot::First => 1024,
        Slot::Second => 2560,
    };
    if patch.at >= 1536 {
        return Err(DiskFault);
    }
    put(disk, slot, root, true)?;
    let before = slot_read(disk) == Ok(Some(slot));
    write(disk, body + patch.at, patch.bytes)?;
    let want = if patch.stands {
        Ok(Some(slot))
    } else {
        Err(RootRefusal::Damaged { at: body })
    };
    Ok(before && slot_read(disk) == want)
}

/// Tries each field of a form in a slot.
fn try_fields(
    rt: &impl Abort,
    alloc: Global,
    form: Form,
    root: &Root,
    slot: Slot,
) -> Result<(), DiskFault>
    requires { IsRoot root.now }
{
    let mut disk = begun(alloc)?;
    for patch in patches_of(form) {
        let good = is_field(&mut disk, root, slot, patch)?;
        assert!(rt; good, "{form:?}, {slot:?}, offset {}", patch.at);
    }
    Ok(())
}

#[test]
fn each_field_out_of_its_range_is_damage(rt: HostRuntime) -> Result<(), Fail> {
    for form in [Form::Sha1, Form::Sha256] {
        let root = sample(rt.alloc(), form, 1, 7)?;
        for slot in [Slot::First, Slot::Second] {
            try_fields(&rt, rt.alloc(), form, &root, slot)?;
        }
    }
    Ok(())
}

/// Returns whether no root is read from a disk, before and after a root file is begun on it.
fn begins_without<D: Disk>(disk: &mut D) -> Result<bool, DiskFault> {
    let none = slot_read(disk) == Ok(None);
    begin(disk)?;
    Ok(none && slot_read(disk) == Ok(None))
}

/// The gates and the sequences of the two slots, and which of them is read.
struct Pair {
    gates: [u8; 2],
    sequences: [u64; 2],
    read: Option<Slot>,
}

/// Pairs of slots.
const PAIRS: [Pair; 9] = [
    Pair {
        gates: [0, 0],
        sequences: [1, 2],
        read: None,
    },
    Pair {
        gates: [2, 255],
        sequences: [1, 2],
        read: None,
    },
    Pair {
        gates: [1, 0],
        sequences: [1, 2],
        read: Some(Slot::First),
    },
    Pair {
        gates: [1, 3],
        sequences: [1, 2],
        read: Some(Slot::First),
    },
    Pair {
        gates: [0, 1],
        sequences: [2, 1],
        read: Some(Slot::Second),
    },
    Pair {
        gates: [1, 1],
        sequences: [1, 2],
        read: Some(Slot::Second),
    },
    Pair {
        gates: [1, 1],
        sequences: [2, 1],
        read: Some(Slot::First),
    },
    Pair {
        gates: [1, 1],
        sequences: [2, 2],
        read: Some(Slot::First),
    },
    Pair {
        gates: [1, 1],
        sequences: [255, 256],
        read: Some(Slot::Second),
    },
];

/// Writes two roots of these sequences, one of each form, to the slots and sets the gates, and returns
/// whether the wanted slot is read.
fn is_newest<D: Disk>(alloc: Global, disk: &mut D, pair: &Pair) -> Result<bool, RootRefusal> {
    put(
        disk,
        Slot::First,
        &sample(alloc, Form::Sha1, pair.sequences[0], 7)?,
        true,
    )?;
    put(
        disk,
        Slot::Second,
        &sample(alloc, Form::Sha256, pair.sequences[1], 8)?,
        false,
    )?;
    write(disk, 0, &pair.gates)?;
    Ok(slot_read(disk) == Ok(pair.read))
}

/// Returns whether the body of the second slot is damaged.
fn is_second_damaged<D: Disk>(disk: &mut D) -> bool {
    slot_read(disk) == Err(RootRefusal::Damaged { at: 2560 })
}

/// Cuts the root file.
fn trim<D: Disk>(disk: &mut D, length: u64) -> Result<(), DiskFault> {
    if length > disk.length(ROOT)? {
        return Err(DiskFault);
    }
    disk.cut(ROOT, length)
}

/// Returns whether no root is read if the root file is a byte longer or shorter, and the second slot is
/// damaged at its size.
fn has_one_size<D: Disk>(disk: &mut D) -> Result<bool, DiskFault> {
    write(disk, 4096, &[0])?;
    let more = slot_read(disk) == Ok(None);
    trim(disk, 4096)?;
    let same = is_second_damaged(disk);
    trim(disk, 4095)?;
    Ok(more && same && slot_read(disk) == Ok(None))
}

/// Breaks the open slot of greater sequence, and returns whether it is then damaged at its size.
fn is_broken<D: Disk>(disk: &mut D) -> Result<bool, DiskFault> {
    write(disk, 2568, &[9])?;
    let damaged = is_second_damaged(disk);
    let sized = has_one_size(disk)?;
    Ok(damaged && sized)
}

/// Returns the index of the first pair of slots of which another slot is read than the wanted one.
fn first_wrong_pair<D: Disk>(alloc: Global, disk: &mut D) -> Result<Option<usize>, RootRefusal> {
    for (index, pair) in PAIRS.iter().enumerate() {
        if !is_newest(alloc, disk, pair)? {
            return Ok(Some(index));
        }
    }
    Ok(None)
}

/// Looks at the roots of all pairs of slots, and at root files that are broken.
fn look_at_newest<D: Disk>(
    rt: &impl Abort,
    alloc: Global,
    disk: &mut D,
) -> Result<(), RootRefusal> {
    assert!(rt; begins_without(disk)?);
    assert_eq!(rt; first_wrong_pair(alloc, disk)?, None);
    assert!(rt; is_broken(disk)?);
    Ok(())
}

#[test]
fn the_open_slot_of_greater_sequence_is_read(rt: HostRuntime) -> Result<(), Fail> {
    let mut disk = MemDisk::new(rt.alloc(), Numbers::new(rt.alloc()));
    look_at_newest(&rt, rt.alloc(), &mut disk)?;
    Ok(())
}

/// Returns the slot that is read of a new root file, on a disk that stops after `passes` calls.
fn slot_read_stopped(alloc: Global, passes: u64) -> Result<Option<Slot>, RootRefusal> {
    slot_read(&mut FuseDisk::new(begun(alloc)?, passes))
}

#[test]
fn a_call_that_fails_is_no_answer(rt: HostRuntime) -> Result<(), Fail> {
    for passes in 0..3 {
        // The calls are a look at the length and a read.
        let want = if passes < 2 {
            Err(RootRefusal::DiskFault)
        } else {
            Ok(None)
        };
        assert_eq!(rt; slot_read_stopped(rt.alloc(), passes), want);
    }
    Ok(())
}
