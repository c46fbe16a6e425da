//! A map of two messages that is written without the first one, in either form.
ghost use Rattle.std.specs.Prelude.{◌≡◌, [], ◌∷◌, IfOk};

use arch_base::{Form, MessageNumbers, NoMemory, ObjectId};
use disk_model::{Disk, DiskFault, FileKind, FileName, WalkRefusal, record_size, records_size};
use fixtures::empty_disk;
use number_map::{Record, append, plan_without, push_record, rewrite};
use root_change::{PartPlan, Target};
use std::alloc::Global;
use std::test::Fail;

/// The map.
const MAP: FileName = FileName {
    kind: FileKind::Map,
    number: 0,
    generation: 1,
};

/// The file to which it is written anew.
const ANEW: FileName = FileName {
    kind: FileKind::Map,
    number: 0,
    generation: 4,
};

/// The records of two messages in the first epoch.
const LINES: [Record; 2] = [
    Record {
        number: 1,
        epoch: 0,
        blob: ObjectId::Sha1(*b"abcdefghijklmnopqrst"),
    },
    Record {
        number: 2,
        epoch: 0,
        blob: ObjectId::Sha1(*b"ABCDEFGHIJKLMNOPQRST"),
    },
];

/// The same with SHA-256 ids.
const LONG_LINES: [Record; 2] = [
    Record {
        number: 1,
        epoch: 0,
        blob: ObjectId::Sha256(*b"abcdefghijklmnopqrstuvwxyz012345"),
    },
    Record {
        number: 2,
        epoch: 0,
        blob: ObjectId::Sha256(*b"ABCDEFGHIJKLMNOPQRSTUVWXYZ678901"),
    },
];

/// The record of the number 1 without its message, with a SHA-1 id.
const GONE: Record = Record {
    number: 1,
    epoch: 4_294_967_295,
    blob: ObjectId::Sha1([0; 20]),
};

/// The same with a SHA-256 id.
const LONG_GONE: Record = Record {
    number: 1,
    epoch: 4_294_967_295,
    blob: ObjectId::Sha256([0; 32]),
};

/// The bytes of that record and of the second message's, with SHA-1 ids.
const BYTES: &[u8] =
    b"\x00\x00\x00\x01\xff\xff\xff\xff\x00\x00\x00\x00\x00\x00\x00\x00\x00\x00\x00\x00\x00\x00\x00\x00\x00\x00\x00\x00\
    \x00\x00\x00\x02\x00\x00\x00\x00ABCDEFGHIJKLMNOPQRST";

/// The same with SHA-256 ids.
const LONG_BYTES: &[u8] =
    b"\x00\x00\x00\x01\xff\xff\xff\xff\x00\x00\x00\x00\x00\x00\x00\x00\x00\x00\x00\x00\x00\x00\x00\x00\
    \x00\x00\x00\x00\x00\x00\x00\x00\x00\x00\x00\x00\x00\x00\x00\x00\
    \x00\x00\x00\x02\x00\x00\x00\x00ABCDEFGHIJKLMNOPQRSTUVWXYZ678901";

/// Returns the records of a form.
fn lines_of(form: Form) -> &'static [Record; 2] {
    match form {
        Form::Sha1 => &LINES,
        Form::Sha256 => &LONG_LINES,
    }
}

/// Returns the bytes of the map of a form without the first message.
fn bytes_of(form: Form) -> &'static [u8] {
    match form {
        Form::Sha1 => BYTES,
        Form::Sha256 => LONG_BYTES,
    }
}

/// Returns the bytes of the first of its two records.
pub(crate) fn first_bytes_of(form: Form) -> &'static [u8] {
    match form {
        Form::Sha1 => BYTES.split_at(28).0,
        Form::Sha256 => LONG_BYTES.split_at(40).0,
    }
}

/// Returns the record of a form of the number 1 without its message.
fn gone_of(form: Form) -> &'static Record {
    match form {
        Form::Sha1 => &GONE,
        Form::Sha256 => &LONG_GONE,
    }
}

/// Returns the number 1.
fn first(alloc: Global) -> Result<MessageNumbers, NoMemory>
    ensures { IfOk result (λ numbers. numbers ≡ 1 ∷ []) }
{
    let mut numbers = MessageNumbers::new(alloc);
    numbers.push(1)?;
    Ok(numbers)
}

/// Writes both records of a form to the map.
fn put_two<D: Disk>(disk: &mut D, form: Form) -> Result<(), DiskFault> {
    let [first, second] = lines_of(form);
    append(disk, MAP, 0, first)?;
    if disk.length(MAP)? < record_size(form) as u64 {
        return Err(DiskFault);
    }
    append(disk, MAP, record_size(form) as u64, second)
}

/// Returns whether a file has the records of a form of a purged message and of the other one.
fn has_bytes<D: Disk>(disk: &mut D, file: FileName, form: Form) -> Result<bool, DiskFault> {
    let mut bytes = [7; 81];
    let count = disk.read(file, 0, &mut bytes)?;
    Ok(&bytes[..count] == bytes_of(form))
}

/// Writes the map of two messages to a file anew, without the first one, and returns whether the file
/// has the bytes that are due.
fn is_rewritten<D: Disk>(alloc: Global, disk: &mut D, form: Form) -> Result<bool, WalkRefusal> {
    let gone = first(alloc)?;
    put_two(disk, form)?;
    rewrite(alloc, disk, MAP, 2, ANEW, &gone, form)?;
    Ok(has_bytes(disk, ANEW, form)?)
}

#[test]
fn a_map_is_written_without_a_message(rt: HostRuntime) -> Result<(), Fail> {
    for form in [Form::Sha1, Form::Sha256] {
        let mut disk = empty_disk(rt.alloc());
        assert!(rt; is_rewritten(rt.alloc(), &mut disk, form)?, "{form:?}");
    }
    Ok(())
}

/// Plans the map of two messages without the first one, and returns whether that is a map of two records
/// of a form, one of which is new.
fn plans_two(alloc: Global, form: Form) -> Result<bool, NoMemory> {
    let gone = first(alloc)?;
    let plan = plan_without(alloc, MAP, 2, &gone, form)?;
    let part = plan.kind() == FileKind::Map && plan.number() == 0 && plan.target() == Target::Anew;
    let count = plan.count() == records_size(2, form);
    Ok(part && count && plan.bytes() == first_bytes_of(form))
}

/// Appends the record of a form of a number without a message to a plan, and returns whether that has its
/// bytes.
fn pushes_one(alloc: Global, form: Form) -> Result<bool, NoMemory> {
    let mut plan = PartPlan::new(alloc, FileKind::Map, 0, Target::Behind);
    push_record(&mut plan, gone_of(form))?;
    Ok(plan.count() == record_size(form) as u64 && plan.bytes() == first_bytes_of(form))
}

#[test]
fn a_plan_has_the_record_of_a_number_without_a_message(rt: HostRuntime) -> Result<(), Fail> {
    for form in [Form::Sha1, Form::Sha256] {
        assert!(rt; plans_two(rt.alloc(), form)?, "{form:?}");
        assert!(rt; pushes_one(rt.alloc(), form)?, "{form:?}");
    }
    Ok(())
}
