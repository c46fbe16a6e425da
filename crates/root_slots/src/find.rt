//! Reads the current root of a root file.
//! Pure.
ghost use Rattle.std.specs.Prelude.{◌≡◌, ◌≢◌, ◌↔◌, ◌<◌, Ok, Err, Some, length, IsTrue, IfOk, IfSome, IfNone};
ghost use Rattle.arch_base.specs.Counts.{RoseIf, HasCause};
ghost use Rattle.arch_base.specs.Configs.{IsConfig};
ghost use Rattle.disk_model.specs.Disk.{Image, BothTold, WhereTold, Unchanged, bytes_of};
ghost use Rattle.disk_model.specs.Moments.{LeavesOnly};
ghost use Rattle.root_slots.specs.declared.root.Root.{Root};
ghost use Rattle.root_slots.specs.RootName.{root_name};
ghost use Rattle.root_slots.specs.Spelling.{body_size, spelling};
ghost use Rattle.root_slots.specs.Valid.{RootFits, PlaceIsValid, IsRoot};
ghost use Rattle.root_slots.specs.Slots.{root_size, slot_number, gate, body_at, sequence_of, Current, ReadsRootFile, ReadsBack, AreRootBytes};

use crate::body::spell;
use crate::parts::{number64, root_of};
use crate::refusal::RootRefusal;
use crate::root::{Place, Root};
use crate::slot::{BODY_SIZE, ROOT_SIZE, Slot};
use crate::slots::root_file;
use arch_base::Config;
use disk_model::{Disk, DiskFault, records_size};

/// Returns whether settings are in their ranges.
fn config_is_valid(config: &Config) -> bool
    ensures { IsTrue result ↔ IsConfig config.now }
{
    if config.limit < 1 || config.limit > 1_099_511_627_776 || config.born < 1 {
        return false;
    }
    if config.slice < 1 || config.slice > 1_000_000 {
        return false;
    }
    config.max >= 1 && config.max <= 2_147_483_647
}

/// Returns whether a root of a sequence may have this `Place`.
fn place_is_valid(place: &Place, sequence: u64) -> bool
    ensures { IsTrue result ↔ PlaceIsValid sequence place.now }
{
    place.generation <= sequence && (place.length != 0 || place.generation == 0)
}

/// Returns whether each field of a root is in its range.
pub fn is_valid(root: &Root) -> bool
    ensures { IsTrue result ↔ IsRoot root.now }
{
    let sequence = root.sequence;
    if !config_is_valid(&root.config) || root.next < 1 || root.next > 2_147_483_648 {
        return false;
    }
    if root.map.generation > sequence
        || root.map.length != records_size(root.next - 1, root.config.form)
    {
        return false;
    }
    if !place_is_valid(&root.cache, sequence) {
        return false;
    }
    root.epochs
        .iter()
        .all(|place| place_is_valid(place, sequence))
}

/// Returns the root that a body spells, if there is one.
fn parse(body: &[u8]) -> Option<Root>
    requires { length body.now ≡ body_size }
    ensures some { IfSome result (λ r. (body.now ≡ spelling r) × IsRoot r) }
    ensures none { IfNone result ((r : Root) → RootFits r → IsRoot r → body.now ≢ spelling r) }
    ensures same { (r : Root) → RootFits r → IsRoot r → body.now ≡ spelling r → result ≡ Some r }
{
    let root = root_of(body)?;
    if is_valid(&root) && spell(&root).as_slice() == body {
        return Some(root);
    }
    None
}

/// Returns the sequence in the body of a slot.
fn sequence(file: &[u8], slot: Slot) -> u64
    requires { length file.now ≡ root_size }
    ensures { result ≡ sequence_of (body_at file.now (slot_number slot)) }
{
    let start = slot.body();
    number64(&file[start..start + BODY_SIZE]).0
}

/// Returns the open slot, and of two open ones that of greater sequence.
///
/// Of equal sequences the first slot counts as the newer.
fn newest_slot(file: &[u8]) -> Option<Slot>
    requires { length file.now ≡ root_size }
    ensures some { IfSome result (λ s.
        Current (slot_number s) (body_at file.now (slot_number s)) file.now) }
    ensures none { IfNone result ((gate file.now 0 ≢ 1) × (gate file.now 1 ≢ 1)) }
{
    match (file[0] == 1, file[1] == 1) {
        (false, false) => None,
        (true, false) => Some(Slot::First),
        (false, true) => Some(Slot::Second),
        (true, true) => {
            if sequence(file, Slot::First) < sequence(file, Slot::Second) {
                Some(Slot::Second)
            } else {
                Some(Slot::First)
            }
        }
    }
}

/// Returns the current root of a root file, and its slot.
fn find(file: &[u8]) -> Result<Option<(Slot, Root)>, RootRefusal>
    requires { length file.now ≡ root_size }
    ensures exact { ReadsRootFile file.now result }
    ensures inverse { ReadsBack file.now result }
    ensures valid { IfOk result (λ found. IfSome found (λ one. IsRoot one.1)) }
    ensures no_fault { result ≢ Err RootRefusal.DiskFault }
{
    let Some(slot) = newest_slot(file) else {
        return Ok(None);
    };
    let start = slot.body();
    match parse(&file[start..start + BODY_SIZE]) {
        Some(root) => Ok(Some((slot, root))),
        None => Err(RootRefusal::Damaged { at: start as u64 }),
    }
}

/// Reads the root file, and returns whether it has its size. With another size nothing is read.
fn whole_file<D: Disk>(disk: &mut D, file: &mut [u8; ROOT_SIZE]) -> Result<bool, DiskFault>
    ensures whole { IfOk result (λ whole.
        WhereTold (AreRootBytes whole file.new) (D.content disk.old)) }
    ensures same { BothTold Unchanged (D.content disk.old) (D.content disk.new) }
    ensures crash { LeavesOnly D.Disk disk.old disk.new
        (Image (D.content disk.old)) }
    ensures cause { HasCause (D.faults disk.old) (D.faults disk.new) result }
{
    if disk.length(root_file())? != ROOT_SIZE as u64 {
        return Ok(false);
    }
    disk.read(root_file(), 0, file)?;
    Ok(true)
}

/// Returns the current root and its slot.
///
/// The current slot is the open one, and of two open ones that of greater sequence. Of equal
/// sequences it is the first slot.
///
/// The result is `None` exactly if no slot is open, and `Damaged` exactly if the body of the
/// current slot spells no root. A root file whose size isn't 4,096 bytes has no open slot.
pub fn read<D: Disk>(disk: &mut D) -> Result<Option<(Slot, Root)>, RootRefusal>
    ensures exact { WhereTold (λ k.
        ReadsRootFile (bytes_of (k root_name).seen) result) (D.content disk.old) }
    // A root that is spelled there is read back.
    ensures inverse { WhereTold (λ k.
        ReadsBack (bytes_of (k root_name).seen) result) (D.content disk.old) }
    // The result has each field in its range, whatever the disk tells.
    ensures valid { IfOk result (λ found. IfSome found (λ one. IsRoot one.1)) }
    ensures same { BothTold Unchanged (D.content disk.old) (D.content disk.new) }
    ensures crash { LeavesOnly D.Disk disk.old disk.new
        (Image (D.content disk.old)) }
    ensures cause { RoseIf (result ≡ Err RootRefusal.DiskFault) (D.faults disk.old) (D.faults disk.new) }
{
    let mut file = [0; ROOT_SIZE];
    match whole_file(disk, &mut file) {
        Err(DiskFault) => Err(RootRefusal::DiskFault),
        Ok(false) => Ok(None),
        Ok(true) => find(&file),
    }
}
