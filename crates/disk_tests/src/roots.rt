//! A root of each form and its bytes, worked out by hand, and the root file that tests write them to.
ghost use Rattle.std.specs.Prelude.{IfOk};
ghost use Rattle.root_slots.specs.Valid.{IsRoot};

use arch_base::{Form, Numbers};
use disk_model::{Disk, DiskFault, FileKind, FileName, MemDisk};
use root_slots::{Root, RootRefusal, Slot, begin, fill, raise, read, shut};
use std::alloc::Global;

/// The root file.
pub const ROOT: FileName = FileName {
    kind: FileKind::Root,
    number: 0,
    generation: 0,
};

/// The fields of the sample of sequence 1 and largest number 7 that don't go by its form: their offsets
/// in the body and their bytes.
const LAYOUT: [(usize, &[u8]); 12] = [
    (0, b"\x00\x00\x00\x00\x00\x00\x00\x01"),
    (9, b"\x01"),
    (10, b"\x08list-1.x"),
    (75, b"\x00\x00\x00\x01\x02\x03\x04\x05"),
    (83, b"\x00\x0a\x0b\x0c"),
    (87, b"\x00\x00\x00\x07"),
    (91, b"\x65\xbb\x6c\x04"),
    (95, b"\x00\x00\x00\x03"),
    (
        115,
        b"\x00\x00\x00\x00\x00\x00\x00\x01\x00\x00\x00\x00\x00\x00\x12\x34",
    ),
    (
        131,
        b"\x00\x00\x00\x00\x00\x00\x00\x00\x00\x00\x00\x00\x00\x00\x00\x00",
    ),
    (
        1123,
        b"\x00\x00\x00\x00\x00\x00\x00\x00\x00\x00\x00\x00\x00\x00\x00\x09",
    ),
    (
        1139,
        b"\x00\x00\x00\x00\x00\x00\x00\x01\x00\x00\x00\x00\x00\x00\x00\x4d",
    ),
];

/// The format and the map of the sample whose ids are SHA-1: two records of 28 bytes.
const SHORT: [(usize, &[u8]); 2] = [
    (8, b"\x01"),
    (
        99,
        b"\x00\x00\x00\x00\x00\x00\x00\x01\x00\x00\x00\x00\x00\x00\x00\x38",
    ),
];

/// The format and the map of the sample whose ids are SHA-256: two records of 40 bytes.
const LONG: [(usize, &[u8]); 2] = [
    (8, b"\x02"),
    (
        99,
        b"\x00\x00\x00\x00\x00\x00\x00\x01\x00\x00\x00\x00\x00\x00\x00\x50",
    ),
];

/// Returns the fields of the sample that go by its form.
fn fields_of(form: Form) -> &'static [(usize, &'static [u8]); 2] {
    match form {
        Form::Sha1 => &SHORT,
        Form::Sha256 => &LONG,
    }
}

/// Returns the body of the sample of a form, a sequence and a largest number.
pub fn body_of(form: Form, sequence: u64, max: u32) -> [u8; 1536] {
    let mut body = [0; 1536];
    for (at, field) in LAYOUT.iter().chain(fields_of(form)) {
        put_field(&mut body, *at, field);
    }
    body[..8].copy_from_slice(&sequence.to_be_bytes());
    body[87..91].copy_from_slice(&max.to_be_bytes());
    body
}

/// Puts a field of at most 31 bytes into a body, at an offset below 1,200.
fn put_field(body: &mut [u8; 1536], at: usize, field: &[u8]) {
    if at < 1200 && field.len() < 32 {
        body[at..at + field.len()].copy_from_slice(field);
    }
}

/// Returns the root that is read of a body.
pub fn root_of(alloc: Global, body: &[u8; 1536]) -> Result<Root, RootRefusal>
    ensures { IfOk result (λ root. IsRoot root) }
{
    let mut disk = MemDisk::new(alloc, Numbers::new(alloc));
    begin(&mut disk)?;
    write(&mut disk, 1024, body)?;
    write(&mut disk, 0, &[1])?;
    match read(&mut disk)? {
        Some((_, root)) => Ok(root),
        None => Err(RootRefusal::DiskFault),
    }
}

/// Returns the root of the sample of a form, a sequence and a largest number.
pub fn sample(alloc: Global, form: Form, sequence: u64, max: u32) -> Result<Root, RootRefusal>
    ensures { IfOk result (λ root. IsRoot root) }
{
    root_of(alloc, &body_of(form, sequence, max))
}

/// Returns whether two roots are the same.
pub fn is_same(one: &Root, other: &Root) -> bool {
    let names = one.config.name.as_slice() == other.config.name.as_slice();
    let limits = one.config.limit == other.config.limit && one.config.slice == other.config.slice;
    let settings = one.config.max == other.config.max && one.config.mirror == other.config.mirror;
    let forms = one.config.form == other.config.form;
    let numbers = one.sequence == other.sequence && one.next == other.next;
    let places = one.map == other.map && one.cache == other.cache && one.epochs == other.epochs;
    names
        && limits
        && settings
        && forms
        && one.config.born == other.config.born
        && numbers
        && places
}

/// Writes bytes to the root file.
pub fn write<D: Disk>(disk: &mut D, at: u64, bytes: &[u8]) -> Result<(), DiskFault> {
    if at > disk.length(ROOT)? || at > 4096 || bytes.len() > 4097 {
        return Err(DiskFault);
    }
    disk.write_at(ROOT, at, bytes)
}

/// Writes a root to a slot, and opens or shuts the slot's gate.
pub fn put<D: Disk>(disk: &mut D, slot: Slot, root: &Root, open: bool) -> Result<(), DiskFault>
    requires { IsRoot root.now }
{
    if disk.length(ROOT)? != 4096 {
        return Err(DiskFault);
    }
    fill(disk, slot, root)?;
    if disk.length(ROOT)? != 4096 {
        return Err(DiskFault);
    }
    if open {
        raise(disk, slot)
    } else {
        shut(disk, slot)
    }
}

/// Returns the slot of the current root.
pub fn slot_read<D: Disk>(disk: &mut D) -> Result<Option<Slot>, RootRefusal> {
    match read(disk)? {
        Some((slot, _)) => Ok(Some(slot)),
        None => Ok(None),
    }
}
