//! Removes files.
//! Writes the disk; syncs.
ghost use Rattle.std.specs.Prelude.{◌≡◌, OnOk};
ghost use Rattle.std.specs.List.{Contains};
ghost use Rattle.arch_base.specs.Counts.{HasCause};
ghost use Rattle.disk_model.specs.declared.name.FileName.{FileName};
ghost use Rattle.disk_model.specs.Beside.{Bounds, RespectsBound, RunsBeside};
ghost use Rattle.disk_model.specs.Disk.{BothTold};
ghost use Rattle.disk_model.specs.Moments.{LeavesOnly};
ghost use Rattle.store_finding.specs.Removing.{AreRemoved, Fewer};

use disk_model::{Disk, DiskFault, FileName};

/// Removes files, in order. A missing file stays missing.
pub fn remove_files<D: Disk>(disk: &mut D, names: &[FileName]) -> Result<(), DiskFault>
    // At each moment a crash leaves each of them as before or not at all, and all others as before.
    ensures crash { LeavesOnly D.Disk disk.old disk.new (Fewer names.now (D.content disk.old)) }
    // Files may be removed beside all bounds that are 0 for them.
    ensures crash_beside { (bounds : Bounds)
        → ((name : FileName) → Contains names.now name → RespectsBound (bounds name) 0)
        → RunsBeside D.Disk bounds disk.old disk.new }
    // After `Ok` none of them is there, and the others are as they were.
    ensures done { OnOk result
        (BothTold (AreRemoved names.now) (D.content disk.old) (D.content disk.new)) }
    ensures cause { HasCause (D.faults disk.old) (D.faults disk.new) result }
    ensures count { D.reads disk.new ≡ D.reads disk.old }
{
    for name in names {
        disk.remove(*name)?;
    }
    Ok(())
}
