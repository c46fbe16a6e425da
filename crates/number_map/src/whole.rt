//! Reads a map from its front.
//! Reads the disk.
ghost use Rattle.std.specs.Prelude.{◌≡◌, ◌+◌, ◌*◌, ◌<◌, ◌^◌, [], Err, length, IfOk, OnOk};
ghost use Rattle.arch_base.specs.Counts.{RoseIf};
ghost use Rattle.disk_model.specs.Disk.{Image, BothTold, WhereTold, Unchanged, bytes_of};
ghost use Rattle.disk_model.specs.Moments.{LeavesOnly};
ghost use Rattle.disk_model.specs.Sizes.{record_size as size_of_record};
ghost use Rattle.number_map.specs.Records.{AreRecordsFrom};
ghost use Rattle.number_map.specs.Walks.{BeginsWithRecords, WalksMap};
ghost use Rattle.number_map.specs.Pieces.{ReadsRecords};

use crate::line::Records;
use crate::pieces::read_piece;
use arch_base::{Form, NoMemory};
use disk_model::{Disk, DiskFault, FileName, WalkRefusal, record_size, records_size};
use std::alloc::Global;

/// The number of records that are read at once.
const PIECE: u32 = 2340;

/// Allocates room for a piece: 65,520 or 93,600 bytes, for 2,340 records.
fn room(alloc: Global, form: Form) -> Result<Vec<u8>, NoMemory>
    ensures { IfOk result (λ made. length made.items ≡ size_of_record form * 2340) }
{
    Ok(vec![in alloc; 0u8; records_size(PIECE, form) as usize]?)
}

/// Reads `wanted` more records, as one piece of a map.
fn read_more<D: Disk>(
    disk: &mut D,
    file: FileName,
    wanted: u32,
    room: &mut [u8],
    lines: &mut Records,
    form: Form,
) -> Result<(), WalkRefusal>
    requires room { length room.old ≡ size_of_record form * wanted }
    requires count { length lines.old + wanted < 2 ^ 32 }
    ensures read { WhereTold (λ k. BeginsWithRecords form lines.old (bytes_of (k file).seen)
        → ReadsRecords form result (length lines.old + wanted) (bytes_of (k file).seen) lines.new)
        (D.content disk.old) }
    ensures size { OnOk result (length lines.new ≡ length lines.old + wanted) }
    ensures valid { AreRecordsFrom form 1 lines.old → OnOk result (AreRecordsFrom form 1 lines.new) }
    ensures same { BothTold Unchanged (D.content disk.old) (D.content disk.new) }
    ensures crash { LeavesOnly D.Disk disk.old disk.new (Image (D.content disk.old)) }
    ensures cause { RoseIf (result ≡ Err WalkRefusal.DiskFault) (D.faults disk.old) (D.faults disk.new) }
{
    let offset = records_size(lines.as_slice().len() as u32, form);
    match disk.read(file, offset, room) {
        Err(DiskFault) => Err(WalkRefusal::DiskFault),
        Ok(n) => read_piece(&room[..n], wanted, lines, form),
    }
}

/// Reads the first `count` records, piece by piece.
fn read_all<D: Disk>(
    disk: &mut D,
    file: FileName,
    count: u32,
    room: &mut [u8],
    lines: &mut Records,
    form: Form,
) -> Result<(), WalkRefusal>
    requires room { length room.old ≡ size_of_record form * 2340 }
    requires none { lines.old ≡ [] }
    ensures read { WhereTold (λ k.
        ReadsRecords form result count (bytes_of (k file).seen) lines.new) (D.content disk.old) }
    ensures valid { OnOk result (AreRecordsFrom form 1 lines.new) }
    ensures same { BothTold Unchanged (D.content disk.old) (D.content disk.new) }
    ensures crash { LeavesOnly D.Disk disk.old disk.new (Image (D.content disk.old)) }
    ensures cause { RoseIf (result ≡ Err WalkRefusal.DiskFault) (D.faults disk.old) (D.faults disk.new) }
{
    let mut done = 0;
    while done < count {
        let wanted = PIECE.min(count - done);
        let into = &mut room[..records_size(wanted, form) as usize];
        if let Err(refusal) = read_more(disk, file, wanted, into, lines, form) {
            return Err(refusal);
        }
        done += wanted;
    }
    Ok(())
}

/// Reads the first `count` records of a map, one for each number from 1 on.
///
/// The map is `Damaged` at the offset of the first of these records that isn't whole in the file or
/// isn't a valid one of its number. Bytes after the last record make no difference.
pub fn walk<D: Disk>(
    alloc: Global,
    disk: &mut D,
    file: FileName,
    count: u32,
    form: Form,
) -> Result<Records, WalkRefusal>
    ensures walked { WhereTold (λ k.
        WalksMap form count (bytes_of (k file).seen) result) (D.content disk.old) }
    // Also where the disk doesn't tell its content.
    ensures valid { IfOk result (AreRecordsFrom form 1) }
    ensures same { BothTold Unchanged (D.content disk.old) (D.content disk.new) }
    ensures crash { LeavesOnly D.Disk disk.old disk.new (Image (D.content disk.old)) }
    ensures cause { RoseIf (result ≡ Err WalkRefusal.DiskFault) (D.faults disk.old) (D.faults disk.new) }
{
    let mut room = room(alloc, form)?;
    let mut lines = Records::new(alloc);
    match read_all(disk, file, count, &mut room, &mut lines, form) {
        Ok(()) => Ok(lines),
        Err(refusal) => Err(refusal),
    }
}
