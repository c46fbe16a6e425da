//! Settles the disk of an archive when it is opened.
//! Writes the disk; syncs.
ghost use Rattle.std.specs.Prelude.{◌-◌, None, OnOk};
ghost use Rattle.arch_base.specs.Counts.{HasCause};
ghost use Rattle.disk_model.specs.Disk.{BothTold, WhereTold};
ghost use Rattle.disk_model.specs.Moments.{LeavesOnly};
ghost use Rattle.disk_model.specs.Synced.{IsSettled};
ghost use Rattle.root_slots.specs.OneRoot.{RunsOneRoot, WentOneRoot};
ghost use Rattle.root_slots.specs.Slots.{slot_number, HasRootSize};
ghost use Rattle.root_slots.specs.Spelling.{spelling};
ghost use Rattle.root_slots.specs.Valid.{IsRoot};
ghost use Rattle.root_change.specs.Texts.{Texts, StandsFor, OnDisk};
ghost use Rattle.epoch_store.specs.Settling.{IsSettledRoot, RootIsSettled, StaysCurrent, IsReadied, ReadiesSlot, ToSettle, IsSwept};

use disk_model::{Disk, DiskFault, FileName};
use root_change::tidy;
use root_slots::{Root, Slot, fill, is_open};

/// Makes the slot that isn't the current one ready for the next root.
///
/// If its gate is shut, writes the current root to it and leaves the gate shut.
pub(crate) fn ready_other<D: Disk>(disk: &mut D, slot: Slot, root: &Root) -> Result<(), DiskFault>
    requires size { WhereTold HasRootSize (D.content disk.old) }
    requires root { IsRoot root.now }
    ensures crash { RootIsSettled (slot_number slot) (spelling root.now) (D.content disk.old)
        → LeavesOnly D.Disk disk.old disk.new
        (StaysCurrent (slot_number slot) (spelling root.now) (D.content disk.old)) }
    ensures done { RootIsSettled (slot_number slot) (spelling root.now) (D.content disk.old)
        → OnOk result (BothTold (IsReadied (slot_number slot) (spelling root.now)) (D.content disk.old)
        (D.content disk.new)) }
    // Whatever the root file holds, only the body of a shut slot is written.
    ensures readies { OnOk result (BothTold (ReadiesSlot (slot_number slot) (spelling root.now))
        (D.content disk.old) (D.content disk.new)) }
    // No root comes into the root file.
    ensures went { WhereTold (IsSettledRoot (slot_number slot) (spelling root.now)) (D.content disk.old)
        → OnOk result (BothTold (WentOneRoot (1 - slot_number slot) None) (D.content disk.old)
        (D.content disk.new)) }
    ensures crash_root { WhereTold (IsSettledRoot (slot_number slot) (spelling root.now))
        (D.content disk.old)
        → RunsOneRoot D.Disk (1 - slot_number slot) None disk.old disk.new }
    ensures cause { HasCause (D.faults disk.old) (D.faults disk.new) result }
{
    let other = slot.other();
    if is_open(disk, other)? {
        return Ok(());
    }
    fill(disk, other, root)
}

/// Settles the disk of an archive.
///
/// Makes the other slot ready for the next root, cuts the tails of the files that the root names,
/// removes all other files, and syncs. `names` are the names of all files.
pub(crate) fn sweep<D: Disk>(
    disk: &mut D,
    slot: Slot,
    root: &Root,
    names: &[FileName],
) -> Result<(), DiskFault>
    requires size { WhereTold HasRootSize (D.content disk.old) }
    requires root { IsRoot root.now }
    // At each moment a crash leaves files that stand for the same texts.
    ensures crash { (texts : Texts)
        → ToSettle root.now (slot_number slot) texts names.now (D.content disk.old)
        → LeavesOnly D.Disk disk.old disk.new (StandsFor root.now texts) }
    // After `Ok` the disk is exactly theirs.
    ensures done { (texts : Texts)
        → ToSettle root.now (slot_number slot) texts names.now (D.content disk.old)
        → OnOk result (OnDisk root.now (1 - slot_number slot) texts (D.content disk.new)) }
    ensures settled { OnOk result (WhereTold IsSettled (D.content disk.new)) }
    ensures swept { OnOk result (BothTold (IsSwept root.now (slot_number slot) names.now)
        (D.content disk.old) (D.content disk.new)) }
    ensures crash_root { WhereTold (IsSettledRoot (slot_number slot) (spelling root.now))
        (D.content disk.old)
        → RunsOneRoot D.Disk (1 - slot_number slot) None disk.old disk.new }
    ensures cause { HasCause (D.faults disk.old) (D.faults disk.new) result }
{
    ready_other(disk, slot, root)?;
    tidy(disk, root, names)
}
