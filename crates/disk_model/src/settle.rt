//! One range of a file, written and synced.
//! Writes the disk; syncs.
ghost use Rattle.std.specs.Prelude.{◌≡◌, ◌<◌, ◌+◌, ◌^◌, length, OnOk};
ghost use Rattle.arch_base.specs.Counts.{HasCause};
ghost use Rattle.disk_model.specs.Disk.{BothTold, WhereTold, IsAtMostLength};
ghost use Rattle.disk_model.specs.Moments.{LeavesOnly};
ghost use Rattle.disk_model.specs.Synced.{WritingLeaves, IsWritten};

use crate::{Disk, DiskFault, FileName};

/// Writes a range of a file and syncs. Creates a missing file.
///
/// At each moment a crash leaves the file as a crash inside this write may, and every other file as
/// before. After `Ok` the file has the bytes, and all that reads give is on the disk.
pub fn write_and_sync<D: Disk>(
    disk: &mut D,
    name: FileName,
    offset: u64,
    bytes: &[u8],
) -> Result<(), DiskFault>
    requires inside { WhereTold (IsAtMostLength name offset) (D.content disk.old) }
    requires end { offset + length bytes.now < 2 ^ 63 }
    ensures crash { LeavesOnly D.Disk disk.old disk.new
        (WritingLeaves name offset (length bytes.now) (D.content disk.old)) }
    ensures written { OnOk result
        (BothTold (IsWritten name offset bytes.now) (D.content disk.old) (D.content disk.new)) }
    ensures cause { HasCause (D.faults disk.old) (D.faults disk.new) result }
    ensures count { D.reads disk.new ≡ D.reads disk.old }
{
    disk.write_at(name, offset, bytes)?;
    disk.sync()
}
