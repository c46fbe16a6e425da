//! Brings the files of a disk to what a root names.
//! Writes the disk; syncs.
ghost use Rattle.std.specs.Prelude.{◌≡◌, ℕ, OnOk};
ghost use Rattle.std.specs.List.{Contains};
ghost use Rattle.arch_base.specs.Counts.{HasCause};
ghost use Rattle.disk_model.specs.Beside.{Bounds, RespectsBound, RunsBeside};
ghost use Rattle.disk_model.specs.Disk.{BothTold, WhereTold, OneFile};
ghost use Rattle.disk_model.specs.Moments.{LeavesOnly};
ghost use Rattle.disk_model.specs.Synced.{IsSettled};
ghost use Rattle.root_change.specs.Names.{is_root_name, bounds_of};
ghost use Rattle.root_change.specs.Texts.{Texts, StandsFor, OnDisk};
ghost use Rattle.root_change.specs.Replacing.{IsOne};
ghost use Rattle.root_change.specs.Tidying.{Trimmed, Tidied, ToTidy};

use crate::appending::end_of;
use crate::names::is_named;
use disk_model::{Disk, DiskFault, FileKind, FileName};
use root_slots::Root;

/// Returns whether a name is that of the root file.
fn is_root(name: FileName) -> bool
    ensures { result ≡ is_root_name name }
{
    match name.kind {
        FileKind::Root => name.number == 0 && name.generation == 0,
        _ => false,
    }
}

/// Cuts a file to a length if it is longer, and otherwise leaves it alone.
fn trim<D: Disk>(disk: &mut D, name: FileName, length: u64) -> Result<(), DiskFault>
    ensures crash_beside { (bounds : Bounds) → RespectsBound (bounds name) length
        → RunsBeside D.Disk bounds disk.old disk.new }
    ensures trimmed { OnOk result
        (BothTold (OneFile name (Trimmed length)) (D.content disk.old) (D.content disk.new)) }
    ensures cause { HasCause (D.faults disk.old) (D.faults disk.new) result }
    ensures count { D.reads disk.new ≡ D.reads disk.old }
{
    let size = disk.length(name)?;
    if size <= length {
        return Ok(());
    }
    disk.cut(name, length)
}

/// Removes a file that a root doesn't name, and cuts any other to the bytes that count.
///
/// The root file stays as it is.
fn tidy_file<D: Disk>(disk: &mut D, root: &Root, name: FileName) -> Result<(), DiskFault>
    ensures crash_beside { RunsBeside D.Disk (bounds_of root.now)
        disk.old disk.new }
    ensures tidied { OnOk result
        (BothTold (Tidied (IsOne name) root.now) (D.content disk.old) (D.content disk.new)) }
    ensures cause { HasCause (D.faults disk.old) (D.faults disk.new) result }
    ensures count { D.reads disk.new ≡ D.reads disk.old }
{
    if !is_named(root, name) {
        return disk.remove(name);
    }
    if is_root(name) {
        return Ok(());
    }
    let end = end_of(root, name);
    trim(disk, name, end)
}

/// Removes the listed files that a root doesn't name, and cuts the others to the bytes that count.
fn tidy_files<D: Disk>(disk: &mut D, root: &Root, names: &[FileName]) -> Result<(), DiskFault>
    ensures crash_beside { RunsBeside D.Disk (bounds_of root.now)
        disk.old disk.new }
    ensures tidied { OnOk result (BothTold (Tidied (Contains names.now) root.now)
        (D.content disk.old) (D.content disk.new)) }
    ensures cause { HasCause (D.faults disk.old) (D.faults disk.new) result }
    ensures count { D.reads disk.new ≡ D.reads disk.old }
{
    for name in names {
        tidy_file(disk, root, *name)?;
    }
    Ok(())
}

/// Removes the files that a root doesn't name, cuts the tails of the others, and syncs.
///
/// `names` are the names of all files. Allocates nothing.
pub fn tidy<D: Disk>(disk: &mut D, root: &Root, names: &[FileName]) -> Result<(), DiskFault>
    // At each moment a crash leaves files that stand for the same texts.
    ensures crash { (free : ℕ) (texts : Texts)
        → ToTidy root.now free texts names.now (D.content disk.old)
        → LeavesOnly D.Disk disk.old disk.new (StandsFor root.now texts) }
    // After `Ok` the disk is exactly theirs.
    ensures done { (free : ℕ) (texts : Texts)
        → ToTidy root.now free texts names.now (D.content disk.old)
        → OnOk result (OnDisk root.now free texts (D.content disk.new)) }
    // Then all that reads give is on the disk, whatever it held before.
    ensures settled { OnOk result (WhereTold IsSettled (D.content disk.new)) }
    // And the listed files are tidied: all bytes that count stay.
    ensures tidied { OnOk result (BothTold (Tidied (Contains names.now) root.now)
        (D.content disk.old) (D.content disk.new)) }
    // At each moment the root file is as a crash before might have left it, and so are the bytes
    // that count.
    ensures crash_beside { RunsBeside D.Disk (bounds_of root.now)
        disk.old disk.new }
    ensures cause { HasCause (D.faults disk.old) (D.faults disk.new) result }
    ensures count { D.reads disk.new ≡ D.reads disk.old }
{
    tidy_files(disk, root, names)?;
    disk.sync()
}
