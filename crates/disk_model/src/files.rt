//! Files in memory, by their names.
//! Allocates.
ghost use Rattle.std.specs.Prelude.{◌≡◌, ◌+◌, ◌-◌, Some, None, min, take, drop, length, ◌++◌, slice_get, IfOk, OnOk, OnErr};
ghost use Rattle.std.specs.BTreeMap.{keys, IsOrdered};
ghost use Rattle.disk_model.specs.declared.name.FileName.{FileName};
ghost use Rattle.disk_model.specs.Disk.{bytes_of, overlay, cut_file};
ghost use Rattle.disk_model.specs.Record.{file_at, SetsFile, SameFiles};

use crate::FileName;
use std::alloc::{AllocError, Global};
use std::collections::BTreeMap;

/// The bytes of each file.
pub type Contents = BTreeMap<FileName, Vec<u8>>;

/// Writes bytes at an offset of a file, over the old ones and past its end.
///
/// The offset counts as the file's end if it is greater. An error leaves the file unchanged.
fn patch(file: &mut Vec<u8>, offset: u64, bytes: &[u8]) -> Result<(), AllocError>
    ensures ok { OnOk result (file.new.items ≡ overlay offset bytes.now file.old.items) }
    ensures err { OnErr result (file.new.items ≡ file.old.items) }
{
    let start = if offset < file.len() as u64 {
        offset as usize
    } else {
        file.len()
    };
    let end = start + bytes.len();
    if end > file.len() {
        file.resize(end, 0)?;
    }
    file[start..end].copy_from_slice(bytes);
    Ok(())
}

/// Writes bytes at an offset of the file with a name, and creates a missing file.
///
/// An error leaves every file unchanged.
pub fn put(
    alloc: Global,
    files: &mut Contents,
    name: FileName,
    offset: u64,
    bytes: &[u8],
) -> Result<(), AllocError>
    ensures ok { OnOk result (SetsFile files.old files.new name
        (Some (overlay offset bytes.now (bytes_of (file_at files.old name))))) }
    ensures err { OnErr result (SameFiles files.old files.new) }
{
    match files.get_mut(&name) {
        Some(file) => patch(file, offset, bytes),
        None => {
            let file = bytes.to_vec(alloc)?;
            files.insert(name, file)?;
            Ok(())
        }
    }
}

/// Cuts a file to a length. A missing file and one that isn't longer stay as they are.
pub fn trim(files: &mut Contents, name: FileName, length: u64)
    ensures { SetsFile files.old files.new name (cut_file length (file_at files.old name)) }
{
    if let Some(file) = files.get_mut(&name) {
        file.truncate(length as usize);
    }
}

/// Removes a file. A missing file stays missing.
pub fn drop_file(files: &mut Contents, name: FileName)
    ensures { SetsFile files.old files.new name None }
{
    files.remove(&name);
}

/// Returns the name at an index, from 0, in the order of names.
pub fn name_in_order(files: &Contents, index: u64) -> Option<FileName>
    ensures name { result ≡ slice_get (keys files.now) index }
    ensures ordered { IsOrdered ⟦<FileName as Ord>⟧.cmp files.now }
{
    files.keys().nth(index as usize).copied()
}

/// Copies the bytes from an offset on to the front of a buffer, and returns their number.
///
/// Copies as many bytes as the buffer takes, fewer if the file ends before, and none past its end.
pub fn copy_out(file: &[u8], offset: u64, into: &mut [u8]) -> usize
    ensures count { result ≡ min (length into.old) (length file.now - offset) }
    ensures bytes { into.new ≡ take result (drop offset file.now) ++ drop result into.old }
{
    if offset >= file.len() as u64 {
        return 0;
    }
    let rest = &file[offset as usize..];
    let count = rest.len().min(into.len());
    into[..count].copy_from_slice(&rest[..count]);
    count
}

/// Returns a copy of the files.
pub fn copy(files: &Contents) -> Result<Contents, AllocError>
    ensures { IfOk result (SameFiles files.now) }
{
    files.clone()
}
