//! Appends bytes to a file beside all that a root names.
//! Writes the disk; syncs.
ghost use Rattle.std.specs.Prelude.{◌≡◌, ◌≢◌, ◌+◌, ◌^◌, ◌<◌, OnOk, length};
ghost use Rattle.arch_base.specs.Counts.{HasCause};
ghost use Rattle.disk_model.specs.Disk.{BothTold, WhereTold, OneFile, Wrote};
ghost use Rattle.root_slots.specs.RootName.{root_name};
ghost use Rattle.disk_model.specs.Beside.{RunsBeside};
ghost use Rattle.root_change.specs.Names.{named_end, bounds_of};
ghost use Rattle.root_change.specs.Texts.{HasSizes};

use crate::names::{is_named, place_at};
use disk_model::{Disk, DiskFault, FileName};
use root_slots::Root;

/// Returns the number of bytes of a file that count by a root.
pub(crate) fn end_of(root: &Root, name: FileName) -> u64
    ensures { result ≡ named_end root.now name }
{
    if is_named(root, name) {
        return place_at(root, name.kind, name.number).length;
    }
    0
}

/// Appends bytes to those of a file that count by a root.
///
/// Creates a missing file. All that the root names stays, whatever the call returns.
pub fn append<D: Disk>(
    disk: &mut D,
    root: &Root,
    name: FileName,
    bytes: &[u8],
) -> Result<(), DiskFault>
    requires other { name ≢ root_name }
    requires sizes { WhereTold (HasSizes root.now) (D.content disk.old) }
    requires end { named_end root.now name + length bytes.now < 2 ^ 63 }
    ensures crash_beside { RunsBeside D.Disk (bounds_of root.now)
        disk.old disk.new }
    ensures wrote { OnOk result (BothTold (OneFile name (Wrote (named_end root.now name) bytes.now))
        (D.content disk.old) (D.content disk.new)) }
    ensures sizes { OnOk result (WhereTold (HasSizes root.now) (D.content disk.new)) }
    ensures cause { HasCause (D.faults disk.old) (D.faults disk.new) result }
    ensures count { D.reads disk.new ≡ D.reads disk.old }
{
    let end = end_of(root, name);
    disk.write_at(name, end, bytes)
}
