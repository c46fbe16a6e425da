//! The mark that a failed sync leaves in a folder, and what the next run does about it.
//! Calls the system.
ghost use Rattle.std.specs.Prelude.{◌≡◌, IfOk, length};

use crate::cause::{Failure, Spot, mark_in};
use crate::names::path_in;
use disk_model::FileName;
use std::alloc::{AllocError, Global};
use std::collections::BTreeSet;
use std::fs::{self, File, OpenOptions};
use std::io;
use std::os::unix::fs::FileExt;

/// The number of bytes that are written again at once.
const PIECE: u64 = 65_536;

/// Creates the mark in a locked folder, and syncs the mark and the folder.
pub(crate) fn leave_mark(
    rt: &HostRuntime,
    alloc: Global,
    path: &str,
    folder: &File,
) -> io::Result<()> {
    let mark = mark_in(alloc, path)?;
    File::create(rt, mark.as_str())?.sync_all()?;
    folder.sync_all()
}

/// Writes these files of a locked folder again, syncs them and the folder, and removes the mark.
///
/// After a sync failed, the system may take what it couldn't write as written, and return `Ok` at
/// the next sync. So all bytes are written again first. On an error the mark stays, or is left
/// again if it can be.
pub(crate) fn write_again(
    rt: &HostRuntime,
    alloc: Global,
    path: &str,
    folder: &File,
    names: &BTreeSet<FileName>,
) -> Result<(), Failure> {
    write_files(rt, alloc, path, names)?;
    if let Err(refused) = folder.sync_all() {
        return Err(Failure::on(Spot::Folder, refused));
    }
    if let Err(refused) = remove_mark(rt, alloc, path, folder) {
        // The removal may not have reached the disk, or may have been undone there.
        let _ = leave_mark(rt, alloc, path, folder);
        return Err(Failure::on(Spot::Mark, refused));
    }
    Ok(())
}

/// Removes the mark, and syncs the folder.
fn remove_mark(rt: &HostRuntime, alloc: Global, path: &str, folder: &File) -> io::Result<()> {
    let mark = mark_in(alloc, path)?;
    fs::remove_file(rt, mark.as_str())?;
    folder.sync_all()
}

/// Writes all bytes of these files again, and syncs each file. The root, which says how much of the
/// others counts, comes last.
fn write_files(
    rt: &HostRuntime,
    alloc: Global,
    path: &str,
    names: &BTreeSet<FileName>,
) -> Result<(), Failure> {
    for name in names.iter().rev() {
        let file = path_in(alloc, path, *name)?;
        if let Err(refused) = write_file(rt, alloc, file.as_str()) {
            return Err(Failure::on(Spot::File(*name), refused));
        }
    }
    Ok(())
}

/// Writes all bytes of a file again, and syncs the file.
fn write_file(rt: &HostRuntime, alloc: Global, path: &str) -> io::Result<()> {
    let mut buffer = new_buffer(alloc)?;
    let file = OpenOptions::new().read(true).write(true).open(rt, path)?;
    write_pieces(&file, buffer.as_mut_slice())?;
    file.sync_all()
}

/// Writes all bytes of an open file again, each at its offset.
fn write_pieces(file: &File, buffer: &mut [u8]) -> io::Result<()> {
    let length = file.metadata()?.len();
    let mut offset = 0u64;
    for _ in 0..length / PIECE + 1 {
        write_piece(file, length, offset, buffer)?;
        offset = offset.saturating_add(PIECE);
    }
    Ok(())
}

/// Writes the bytes of a file of this length from an offset again, as many as the buffer holds.
fn write_piece(file: &File, length: u64, offset: u64, buffer: &mut [u8]) -> io::Result<()> {
    let count = length.saturating_sub(offset).min(buffer.len() as u64) as usize;
    let piece = &mut buffer[..count];
    file.read_exact_at(piece, offset)?;
    file.write_all_at(piece, offset)
}

/// Returns a buffer for a piece of a file.
fn new_buffer(alloc: Global) -> Result<Vec<u8>, AllocError>
    ensures { IfOk result (λ buffer. length buffer.items ≡ PIECE) }
{
    vec![in alloc; 0u8; PIECE as usize]
}
