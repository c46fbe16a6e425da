//! The two slots, and the commit of a new root.
//! Writes the disk; syncs.
ghost use Rattle.std.specs.Prelude.{◌≡◌, ◌-◌, ◌<◌, ◌∷◌, [], ℕ, List, Some, length, OnOk, IfOk};
ghost use Rattle.arch_base.specs.Counts.{HasCause};
ghost use Rattle.disk_model.specs.Disk.{Image, BothTold, WhereTold, Unchanged};
ghost use Rattle.disk_model.specs.Moments.{LeavesOnly};
ghost use Rattle.disk_model.specs.Synced.{WritingLeaves, IsWritten};
ghost use Rattle.root_slots.specs.RootName.{root_name};
ghost use Rattle.root_slots.specs.OneRoot.{RunsOneRoot};
ghost use Rattle.root_slots.specs.Each.{EachRoot};
ghost use Rattle.root_slots.specs.Spelling.{body_size, spelling};
ghost use Rattle.root_slots.specs.Valid.{IsRoot};
ghost use Rattle.root_slots.specs.Slots.{slot_number, HasRootSize, IsGateOpen, body_offset, sequence_of, Current, Ready, OthersStayInImage, IsOldOrNew, HasNewRoot, IsCommitted, IsInCommit, ComesBy};

use crate::body::spell;
use crate::root::Root;
use crate::slot::Slot;
use disk_model::{Disk, DiskFault, FileKind, FileName, write_and_sync};

/// Returns the name of the root file.
pub fn root_file() -> FileName
    ensures { result ≡ root_name }
{
    FileName {
        kind: FileKind::Root,
        number: 0,
        generation: 0,
    }
}

/// Returns whether the gate of a slot is open. The gate isn't open if the root file ends before it.
pub fn is_open<D: Disk>(disk: &mut D, slot: Slot) -> Result<bool, DiskFault>
    ensures gate { IfOk result (λ open_.
        WhereTold (IsGateOpen (slot_number slot) open_) (D.content disk.old)) }
    ensures same { BothTold Unchanged (D.content disk.old) (D.content disk.new) }
    ensures crash { LeavesOnly D.Disk disk.old disk.new
        (Image (D.content disk.old)) }
    ensures cause { HasCause (D.faults disk.old) (D.faults disk.new) result }
{
    let mut gate = [0];
    disk.read(root_file(), slot.gate() as u64, &mut gate)?;
    Ok(gate[0] == 1)
}

/// Shuts the gate of a slot, and syncs.
pub fn shut<D: Disk>(disk: &mut D, slot: Slot) -> Result<(), DiskFault>
    requires size { WhereTold HasRootSize (D.content disk.old) }
    ensures crash { LeavesOnly D.Disk disk.old disk.new
        (WritingLeaves root_name (slot_number slot) 1 (D.content disk.old)) }
    ensures written { OnOk result (BothTold (IsWritten root_name (slot_number slot)
        (0 ∷ [])) (D.content disk.old) (D.content disk.new)) }
    ensures cause { HasCause (D.faults disk.old) (D.faults disk.new) result }
    ensures count { D.reads disk.new ≡ D.reads disk.old }
{
    write_and_sync(disk, root_file(), slot.gate() as u64, &[0])
}

/// Writes a root to the body of a slot, and syncs.
pub fn fill<D: Disk>(disk: &mut D, slot: Slot, root: &Root) -> Result<(), DiskFault>
    requires size { WhereTold HasRootSize (D.content disk.old) }
    requires root { IsRoot root.now }
    ensures crash { LeavesOnly D.Disk disk.old disk.new
        (WritingLeaves root_name (body_offset (slot_number slot)) body_size (D.content disk.old)) }
    ensures written { OnOk result (BothTold (IsWritten root_name (body_offset (slot_number slot))
        (spelling root.now)) (D.content disk.old) (D.content disk.new)) }
    ensures whole { length (spelling root.now) ≡ body_size }
    ensures cause { HasCause (D.faults disk.old) (D.faults disk.new) result }
    ensures count { D.reads disk.new ≡ D.reads disk.old }
{
    write_and_sync(disk, root_file(), slot.body() as u64, &spell(root))
}

/// Opens the gate of a slot, and syncs.
pub fn raise<D: Disk>(disk: &mut D, slot: Slot) -> Result<(), DiskFault>
    requires size { WhereTold HasRootSize (D.content disk.old) }
    ensures crash { LeavesOnly D.Disk disk.old disk.new
        (WritingLeaves root_name (slot_number slot) 1 (D.content disk.old)) }
    ensures written { OnOk result (BothTold (IsWritten root_name (slot_number slot)
        (1 ∷ [])) (D.content disk.old) (D.content disk.new)) }
    ensures cause { HasCause (D.faults disk.old) (D.faults disk.new) result }
    ensures count { D.reads disk.new ≡ D.reads disk.old }
{
    write_and_sync(disk, root_file(), slot.gate() as u64, &[1])
}

/// Writes a root to a slot: shuts its gate, writes its body and opens its gate, with a sync after
/// each.
fn write_slot<D: Disk>(disk: &mut D, slot: Slot, root: &Root) -> Result<(), DiskFault>
    requires size { WhereTold HasRootSize (D.content disk.old) }
    requires root { IsRoot root.now }
    ensures crash { LeavesOnly D.Disk disk.old disk.new (λ image.
        WhereTold (λ k. ComesBy (IsInCommit (slot_number slot) (spelling root.now)) k image)
        (D.content disk.old)) }
    ensures written { OnOk result (BothTold (HasNewRoot (slot_number slot) (spelling root.now))
        (D.content disk.old) (D.content disk.new)
        × BothTold IsCommitted (D.content disk.old) (D.content disk.new)
        × (length (spelling root.now) ≡ body_size)) }
    ensures cause { HasCause (D.faults disk.old) (D.faults disk.new) result }
    ensures count { D.reads disk.new ≡ D.reads disk.old }
{
    shut(disk, slot)?;
    fill(disk, slot, root)?;
    raise(disk, slot)
}

/// Replaces the current root by a new one, in the slot that isn't current.
///
/// Shuts the gate of that slot, writes its body and opens its gate, with a sync after each.
pub fn commit<D: Disk>(disk: &mut D, slot: Slot, root: &Root) -> Result<(), DiskFault>
    requires size { WhereTold HasRootSize (D.content disk.old) }
    requires root { IsRoot root.now }

    // At each moment a crash leaves the old root or the new one, and all other files as before.
    ensures crash { (old : List ℕ) → EachRoot (Ready (slot_number slot) old)
        (D.content disk.old) → sequence_of old < root.now.sequence
        → LeavesOnly D.Disk disk.old disk.new
        (IsOldOrNew old (spelling root.now) (D.content disk.old)) }
    // After `Ok` a crash leaves the new one.
    ensures done { (old : List ℕ) → EachRoot (Ready (slot_number slot) old) (D.content disk.old)
        → sequence_of old < root.now.sequence
        → OnOk result
        (EachRoot (Current (slot_number slot) (spelling root.now)) (D.content disk.new)) }
    // The slot of the old root is then ready for the next one.
    ensures again { (old : List ℕ) → EachRoot (Ready (slot_number slot) old) (D.content disk.old)
        → sequence_of old < root.now.sequence
        → OnOk result
        (EachRoot (Ready (1 - slot_number slot) (spelling root.now)) (D.content disk.new)) }
    // No other file changes, whatever the root file holds.
    ensures elsewhere { LeavesOnly D.Disk disk.old disk.new
        (OthersStayInImage (D.content disk.old)) }
    // After `Ok` the slot has the body and an open gate, and the rest of the root file is as it
    // was.
    ensures written { OnOk result (BothTold (HasNewRoot (slot_number slot) (spelling root.now))
        (D.content disk.old) (D.content disk.new)) }
    ensures whole { OnOk result (length (spelling root.now) ≡ body_size) }
    ensures committed { OnOk result (BothTold IsCommitted (D.content disk.old) (D.content disk.new)) }
    // At each moment, also after a fault, at most this slot of the root file is written, and no other
    // root comes into it. All other bytes of that file are as before.
    ensures crash_root { RunsOneRoot D.Disk (slot_number slot) (Some (spelling root.now)) disk.old disk.new }
    ensures cause { HasCause (D.faults disk.old) (D.faults disk.new) result }
    ensures count { D.reads disk.new ≡ D.reads disk.old }
{
    let _sequence = root.sequence; // brings the range of a field behind a `&` into the proof
    write_slot(disk, slot, root)
}
