//! Creates a root file without an open slot.
//! Writes the disk; syncs.
ghost use Rattle.std.specs.Prelude.{◌≡◌, OnOk};
ghost use Rattle.arch_base.specs.Counts.{HasCause};
ghost use Rattle.disk_model.specs.Disk.{BothTold};
ghost use Rattle.disk_model.specs.Moments.{LeavesOnly};
ghost use Rattle.root_slots.specs.Slots.{EachShut, LeavesShut, OthersStayInImage, IsBegun, IsCleared, StillShut};

use crate::slot::ROOT_SIZE;
use crate::slots::root_file;
use disk_model::{Disk, DiskFault, write_and_sync};

/// Removes the root file, and syncs.
fn clear<D: Disk>(disk: &mut D) -> Result<(), DiskFault>
    ensures crash { LeavesOnly D.Disk disk.old disk.new
        (StillShut (D.content disk.old)) }
    ensures cleared { OnOk result (BothTold IsCleared (D.content disk.old) (D.content disk.new)) }
    ensures cause { HasCause (D.faults disk.old) (D.faults disk.new) result }
    ensures count { D.reads disk.new ≡ D.reads disk.old }
{
    disk.remove(root_file())?;
    disk.sync()
}

/// Replaces the root file by 4,096 zeros, with a sync after the first two.
fn make_zeros<D: Disk>(disk: &mut D) -> Result<(), DiskFault>
    ensures crash { LeavesOnly D.Disk disk.old disk.new
        (StillShut (D.content disk.old)) }
    ensures made { OnOk result (BothTold IsBegun (D.content disk.old) (D.content disk.new)) }
    ensures cause { HasCause (D.faults disk.old) (D.faults disk.new) result }
    ensures count { D.reads disk.new ≡ D.reads disk.old }
{
    clear(disk)?;
    write_and_sync(disk, root_file(), 0, &[0, 0])?;
    write_and_sync(disk, root_file(), 2, &[0; ROOT_SIZE - 2])
}

/// Replaces a root file without an open slot by 4,096 zeros, in which no slot is open.
///
/// Removes the file, writes two zeros and writes the others, with a sync after each.
pub fn begin<D: Disk>(disk: &mut D) -> Result<(), DiskFault>
    // If no crash leaves an open slot before, none does at any moment.
    ensures crash { EachShut (D.content disk.old)
        → LeavesOnly D.Disk disk.old disk.new (LeavesShut (D.content disk.old)) }
    // No other file changes, whatever the root file holds.
    ensures elsewhere { LeavesOnly D.Disk disk.old disk.new
        (OthersStayInImage (D.content disk.old)) }
    ensures made { OnOk result (BothTold IsBegun (D.content disk.old) (D.content disk.new)) }
    ensures cause { HasCause (D.faults disk.old) (D.faults disk.new) result }
    ensures count { D.reads disk.new ≡ D.reads disk.old }
{
    make_zeros(disk)
}
