//! Reads bytes of a file into memory.
//! Reads the disk.
ghost use Rattle.std.specs.Prelude.{◌≡◌, ◌≤◌, ◌+◌, Err, IfOk, length};
ghost use Rattle.arch_base.specs.Counts.{RoseIf};
ghost use Rattle.disk_model.specs.Disk.{Image, BothTold, WhereTold, Unchanged, bytes_of};
ghost use Rattle.disk_model.specs.Moments.{LeavesOnly};
ghost use Rattle.store_finding.specs.declared.read_refusal.ReadRefusal.{ReadRefusal};
ghost use Rattle.store_finding.specs.Reading.{StandsAt};

use crate::read_refusal::ReadRefusal;
use arch_base::NoMemory;
use disk_model::{Disk, FileName};
use std::alloc::Global;

/// Allocates room for `size` bytes.
fn room_for(alloc: Global, size: u64) -> Result<Vec<u8>, NoMemory>
    ensures { IfOk result (λ room. length room.items ≡ size) }
{
    Ok(vec![in alloc; 0; size as usize]?)
}

/// Returns `size` bytes of a file, from an offset on.
///
/// If the file ends before, the rest may be anything. Reads the disk at most once, and changes nothing.
/// `DiskFault` comes only if the disk's count of faults rose, and `NoMemory` only if memory runs out.
pub fn read_text<D: Disk>(
    alloc: Global,
    disk: &mut D,
    file: FileName,
    offset: u64,
    size: u64,
) -> Result<Vec<u8>, ReadRefusal>
    ensures size { IfOk result (λ text. length text.items ≡ size) }
    ensures found { IfOk result (λ text. WhereTold (λ k.
        StandsAt (bytes_of (k file).seen) offset size text.items) (D.content disk.old)) }
    ensures same { BothTold Unchanged (D.content disk.old) (D.content disk.new) }
    ensures crash { LeavesOnly D.Disk disk.old disk.new (Image (D.content disk.old)) }
    ensures cause { RoseIf (result ≡ Err ReadRefusal.DiskFault) (D.faults disk.old) (D.faults disk.new) }
    ensures fewest { D.reads disk.old ≤ D.reads disk.new }
    ensures count { D.reads disk.new ≤ D.reads disk.old + 1 }
{
    let mut text = room_for(alloc, size)?;
    disk.read(file, offset, text.as_mut_slice())?;
    Ok(text)
}
