//! Appends a record to a map.
//! Writes the disk; syncs.
ghost use Rattle.std.specs.Prelude.{◌≡◌, ◌+◌, ◌<◌, ◌^◌, length, OnOk, OnErr};
ghost use Rattle.arch_base.specs.Counts.{HasCause};
ghost use Rattle.arch_base.specs.Ids.{form_of};
ghost use Rattle.disk_model.specs.Beside.{Bounds, RespectsBound, RunsBeside};
ghost use Rattle.disk_model.specs.Disk.{BothTold, WhereTold, OneFile, Wrote, Tore, IsAtMostLength, Elapses};
ghost use Rattle.disk_model.specs.Sizes.{record_size};
ghost use Rattle.number_map.specs.Records.{record_bytes};

use crate::line::Record;
use disk_model::{Disk, DiskFault, FileName};
use std::marker::Model;

/// The bytes of a record: 28 or 40, by the form of its id.
///
/// Contracts see them.
#[derive(Debug, Drop)]
pub struct RecordBytes {
    bytes: [u8; 40],
    len: u8,
}

impl Model for RecordBytes {
    ghost use Rattle.std.specs.Prelude.{◌≤◌, ℕ, List, take};

    ghost Value = { List ℕ };

    ghost view = { λ spelled. take spelled.len spelled.bytes };

    ghost invariant = { λ spelled. spelled.len ≤ 40 };
}

impl RecordBytes {
    /// Returns the bytes.
    pub fn as_slice(&self) -> &[u8]
        ensures { result.now ≡ self.now }
    {
        &self.bytes[..self.len as usize]
    }
}

/// Returns the bytes of a record.
pub fn spell(line: &Record) -> RecordBytes
    ensures bytes { result ≡ record_bytes line.now }
    ensures size { length (record_bytes line.now) ≡ record_size (form_of line.now.blob) }
{
    let id = line.blob.as_slice();
    let len = 8 + id.len();
    let mut bytes = [0u8; 40];
    bytes[..4].copy_from_slice(&line.number.to_be_bytes());
    bytes[4..8].copy_from_slice(&line.epoch.to_be_bytes());
    bytes[8..len].copy_from_slice(id);
    RecordBytes {
        bytes,
        len: len as u8,
    }
}

/// Writes a record of 28 or 40 bytes to a map, in one write, at an offset of at most its length.
///
/// Creates a missing file. Syncs nothing. After a fault the bytes of the record may hold anything.
pub fn append<D: Disk>(
    disk: &mut D,
    file: FileName,
    at: u64,
    line: &Record,
) -> Result<(), DiskFault>
    requires inside { WhereTold (IsAtMostLength file at) (D.content disk.old) }
    requires end { at + record_size (form_of line.now.blob) < 2 ^ 63 }
    ensures written { OnOk result (BothTold (OneFile file (Wrote at (record_bytes line.now)))
        (D.content disk.old) (D.content disk.new)) }
    ensures torn { OnErr result (BothTold (OneFile file (Tore at (record_size (form_of line.now.blob))))
        (D.content disk.old) (D.content disk.new)) }
    ensures size { length (record_bytes line.now) ≡ record_size (form_of line.now.blob) }
    // All that is before the offset stays at each moment.
    ensures crash_beside { (bounds : Bounds) → RespectsBound (bounds file) at
        → RunsBeside D.Disk bounds disk.old disk.new }
    ensures time { Elapses (D.moment disk.old) (D.moment disk.new) (D.left_since disk.old)
        (D.left_since disk.new) (D.content disk.new) }
    ensures cause { HasCause (D.faults disk.old) (D.faults disk.new) result }
    ensures count { D.reads disk.new ≡ D.reads disk.old }
{
    disk.write_at(file, at, spell(line).as_slice())
}
