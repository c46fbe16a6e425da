//! Replays recorded changes on a copy of files.
//! Allocates.
ghost use Rattle.std.specs.Prelude.{◌≡◌, Some, OnOk};
ghost use Rattle.disk_model.specs.declared.name.FileName.{FileName};
ghost use Rattle.disk_model.specs.Disk.{bytes_of, overlay};
ghost use Rattle.disk_model.specs.Record.{file_at, SetsFile};
ghost use Rattle.disk_model.specs.Applied.{IsLastSync, picked_count, filled, apply_file, applied};

use crate::FileName;
use crate::change::Change;
use crate::files::{Contents, drop_file, put, trim};
use std::alloc::{AllocError, Global};

/// Returns the number of changes up to and including the last sync, or 0 if there is none.
pub fn last_sync(changes: &[Change]) -> usize
    ensures { IsLastSync changes.now result }
{
    let mut end = changes.len();
    while end > 0 {
        if let Change::Sync = changes[end - 1] {
            return end;
        }
        end -= 1;
    }
    0
}

/// Returns how many of `count` changes since the last sync a pick applies.
///
/// Pick 0 applies none, pick 3 the first half, rounded down, and any other pick all.
pub fn kept(pick: u64, count: usize) -> usize
    ensures { result ≡ picked_count pick count }
{
    match pick {
        0 => 0,
        3 => count / 2,
        _ => count,
    }
}

/// Writes bytes to a file, or as many bytes of the value 255 if `fill` is set.
fn put_filled(
    alloc: Global,
    files: &mut Contents,
    name: FileName,
    offset: u64,
    bytes: &[u8],
    fill: bool,
) -> Result<(), AllocError>
    ensures { OnOk result (SetsFile files.old files.new name
        (Some (overlay offset (filled fill bytes.now) (bytes_of (file_at files.old name))))) }
{
    if fill {
        let ones = vec![in alloc; 255; bytes.len()]?;
        return put(alloc, files, name, offset, &ones);
    }
    put(alloc, files, name, offset, bytes)
}

/// Applies one change to files.
///
/// With `fill` a write puts bytes of the value 255 in place of its own.
fn apply(alloc: Global, files: &mut Contents, change: &Change, fill: bool) -> Result<(), AllocError>
    ensures { OnOk result ((name : FileName)
        → file_at files.new name ≡ apply_file fill name (file_at files.old name) change.now) }
{
    match change {
        Change::Write {
            name,
            offset,
            bytes,
        } => put_filled(alloc, files, *name, *offset, bytes, fill),
        Change::Cut { name, length } => {
            trim(files, *name, *length);
            Ok(())
        }
        Change::Remove { name } => {
            drop_file(files, *name);
            Ok(())
        }
        Change::Sync => Ok(()),
    }
}

/// Applies changes to files, in order.
///
/// With `fill` each write puts bytes of the value 255 in place of its own.
pub fn apply_all(
    alloc: Global,
    files: &mut Contents,
    changes: &[Change],
    fill: bool,
) -> Result<(), AllocError>
    ensures { OnOk result ((name : FileName)
        → file_at files.new name ≡ applied fill name (file_at files.old name) changes.now) }
{
    for change in changes {
        apply(alloc, files, change, fill)?;
    }
    Ok(())
}
