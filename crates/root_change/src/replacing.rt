//! Replaces the current root, and removes the files that only the old one names.
//! Writes the disk; syncs.
ghost use Rattle.std.specs.Prelude.{◌≡◌, ◌-◌, ◌<◌, OnOk, Some};
ghost use Rattle.arch_base.specs.Counts.{HasCause};
ghost use Rattle.disk_model.specs.Disk.{BothTold, WhereTold};
ghost use Rattle.disk_model.specs.Moments.{LeavesOnly};
ghost use Rattle.disk_model.specs.Sizes.{epoch_count};
ghost use Rattle.disk_model.specs.Synced.{IsSettled};
ghost use Rattle.root_slots.specs.OneRoot.{RunsOneRoot};
ghost use Rattle.root_slots.specs.Slots.{slot_number, HasNewRoot, HasRootSize};
ghost use Rattle.root_slots.specs.Spelling.{spelling};
ghost use Rattle.root_slots.specs.Valid.{IsRoot};
ghost use Rattle.disk_model.specs.Beside.{RunsBeside};
ghost use Rattle.root_change.specs.Names.{bounds_of};
ghost use Rattle.root_change.specs.Texts.{Texts, OnDisk, KeepsNamed};
ghost use Rattle.root_change.specs.Replacing.{ToReplace, StandsForEither, drops, Dropped, IsDropped, IsOne, IsEpochBelow, IsAny};

use crate::names::{cache_file, epoch_file, epoch_place, is_named, map_file};
use disk_model::{Disk, DiskFault, EPOCHS, FileName};
use root_slots::{Root, Slot, commit};

/// Returns whether the old root names a file and the new one doesn't.
fn is_dropped(name: FileName, old: &Root, new: &Root) -> bool
    ensures { result ≡ drops old.now new.now name }
{
    is_named(old, name) && !is_named(new, name)
}

/// Removes a file if the old root names it and the new one doesn't.
fn drop_file<D: Disk>(disk: &mut D, name: FileName, old: &Root, new: &Root) -> Result<(), DiskFault>
    ensures crash_beside { RunsBeside D.Disk (bounds_of new.now)
        disk.old disk.new }
    ensures dropped { OnOk result (BothTold (Dropped (IsOne name) old.now new.now) (D.content disk.old)
        (D.content disk.new)) }
    ensures cause { HasCause (D.faults disk.old) (D.faults disk.new) result }
    ensures count { D.reads disk.new ≡ D.reads disk.old }
{
    if is_dropped(name, old, new) {
        return disk.remove(name);
    }
    Ok(())
}

/// Removes the files of the epochs that the old root names and the new one doesn't.
fn drop_epochs<D: Disk>(disk: &mut D, old: &Root, new: &Root) -> Result<(), DiskFault>
    ensures crash_beside { RunsBeside D.Disk (bounds_of new.now)
        disk.old disk.new }
    ensures dropped { OnOk result (BothTold (Dropped (IsEpochBelow epoch_count) old.now new.now)
        (D.content disk.old) (D.content disk.new)) }
    ensures cause { HasCause (D.faults disk.old) (D.faults disk.new) result }
    ensures count { D.reads disk.new ≡ D.reads disk.old }
{
    for epoch in 0..EPOCHS {
        let place = epoch_place(old, epoch);
        drop_file(disk, epoch_file(epoch, place.generation), old, new)?;
    }
    Ok(())
}

/// Removes the files that the old root names and the new one doesn't.
fn drop_files<D: Disk>(disk: &mut D, old: &Root, new: &Root) -> Result<(), DiskFault>
    ensures crash_beside { RunsBeside D.Disk (bounds_of new.now)
        disk.old disk.new }
    ensures dropped { OnOk result
        (BothTold (Dropped IsAny old.now new.now) (D.content disk.old) (D.content disk.new)) }
    ensures cause { HasCause (D.faults disk.old) (D.faults disk.new) result }
    ensures count { D.reads disk.new ≡ D.reads disk.old }
{
    drop_file(disk, map_file(old.map.generation), old, new)?;
    drop_file(disk, cache_file(old.cache.generation), old, new)?;
    drop_epochs(disk, old, new)
}

/// Removes the files that the old root names and the new one doesn't, and syncs.
fn drop_old<D: Disk>(disk: &mut D, old: &Root, new: &Root) -> Result<(), DiskFault>
    ensures crash_beside { RunsBeside D.Disk (bounds_of new.now)
        disk.old disk.new }
    ensures dropped { OnOk result
        (BothTold (IsDropped old.now new.now) (D.content disk.old) (D.content disk.new)) }
    ensures settled { OnOk result (WhereTold IsSettled (D.content disk.new)) }
    ensures cause { HasCause (D.faults disk.old) (D.faults disk.new) result }
    ensures count { D.reads disk.new ≡ D.reads disk.old }
{
    drop_files(disk, old, new)?;
    disk.sync()
}

/// Replaces the current root by a new one, whose files have been written.
///
/// Syncs, commits the new root to the slot that isn't current, removes the files that only the old
/// root names, and syncs again. Allocates nothing.
pub fn replace_root<D: Disk>(
    disk: &mut D,
    slot: Slot,
    old: &Root,
    new: &Root,
) -> Result<(), DiskFault>
    requires size { WhereTold HasRootSize (D.content disk.old) }
    requires root { IsRoot new.now }
    // At each moment a crash leaves files that stand for the old texts or for the next ones.
    ensures crash { (texts next : Texts)
        → ToReplace (slot_number slot) old.now texts new.now next (D.content disk.old)
        → LeavesOnly D.Disk disk.old disk.new
        (StandsForEither old.now texts new.now next) }
    // After `Ok` the disk is exactly that of the next ones.
    ensures done { (texts next : Texts)
        → ToReplace (slot_number slot) old.now texts new.now next (D.content disk.old)
        → OnOk result (OnDisk new.now (1 - slot_number slot) next (D.content disk.new)) }
    // Then all that reads give is on the disk, whatever it held before.
    ensures settled { OnOk result (WhereTold IsSettled (D.content disk.new)) }
    // The files that the new root names read as before, whatever the disk held.
    ensures kept { OnOk result
        (BothTold (KeepsNamed new.now) (D.content disk.old) (D.content disk.new)) }
    // The root file has the new root in the slot, whose gate is open, and is otherwise as it was.
    ensures rooted { OnOk result (BothTold (HasNewRoot (slot_number slot) (spelling new.now))
        (D.content disk.old) (D.content disk.new)) }
    // At each moment, also after a fault, at most that slot is written, and no other root comes into it.
    ensures crash_root { RunsOneRoot D.Disk (slot_number slot) (Some (spelling new.now)) disk.old disk.new }
    ensures cause { HasCause (D.faults disk.old) (D.faults disk.new) result }
    ensures count { D.reads disk.new ≡ D.reads disk.old }
{
    disk.sync()?;
    commit(disk, slot, new)?;
    drop_old(disk, old, new)
}
