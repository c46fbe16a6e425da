//! Lists the names of all files.
//! Reads the disk.
ghost use Rattle.std.specs.Prelude.{◌≡◌, Err, IfOk};
ghost use Rattle.arch_base.specs.Counts.{RoseIf};
ghost use Rattle.disk_model.specs.Disk.{Image, BothTold, Unchanged, WhereTold};
ghost use Rattle.disk_model.specs.Moments.{LeavesOnly};
ghost use Rattle.store_finding.specs.declared.read_refusal.ReadRefusal.{ReadRefusal};
ghost use Rattle.store_finding.specs.Listing.{AreAllNames};

use crate::read_refusal::ReadRefusal;
use arch_base::Sequence;
use disk_model::{Disk, FileName};
use std::alloc::Global;

/// A list of names of files.
pub type FileNames = Sequence<FileName>;

/// Returns the names of all files, in order.
///
/// Nothing changes, and no file is read. `DiskFault` comes only if the disk's count of faults rose, and
/// `NoMemory` only if memory runs out.
pub fn file_names<D: Disk>(alloc: Global, disk: &mut D) -> Result<FileNames, ReadRefusal>
    ensures names { IfOk result (λ names. WhereTold (AreAllNames names) (D.content disk.old)) }
    ensures same { BothTold Unchanged (D.content disk.old) (D.content disk.new) }
    ensures crash { LeavesOnly D.Disk disk.old disk.new (Image (D.content disk.old)) }
    ensures cause { RoseIf (result ≡ Err ReadRefusal.DiskFault) (D.faults disk.old) (D.faults disk.new) }
    ensures count { D.reads disk.new ≡ D.reads disk.old }
{
    let mut names = FileNames::new(alloc);
    for index in 0..u64::MAX {
        match disk.name_at(index)? {
            Some(name) => names.push(name)?,
            None => return Ok(names),
        }
    }
    // No memory holds 2^64 - 1 names.
    Err(ReadRefusal::NoMemory)
}
