//! Archives in memory, with which archives on a disk are compared.
ghost use Rattle.std.specs.Prelude.{◌≤◌};

use arch_base::{Bytes, NoMemory};
use arch_model::Command;
use fixtures::{FIRST, MOMENT, SECOND, settings};
use mem_archive::MemArchive;
use std::alloc::Global;

/// Creates an archive in memory, without messages.
pub fn in_memory(alloc: Global, limit: u64, max: u32, mirror: bool) -> Option<MemArchive>
    requires low { 1 ≤ limit }
    requires high { limit ≤ 1099511627776 }
    requires some { 1 ≤ max }
    requires few { max ≤ 2147483647 }
{
    Some(MemArchive::new(alloc, settings(limit, max, mirror)?))
}

/// Creates an archive in memory to which `FIRST` and `SECOND` were delivered.
pub fn two_in_memory(alloc: Global, limit: u64) -> Option<MemArchive>
    requires low { 1 ≤ limit }
    requires high { limit ≤ 1099511627776 }
{
    let mut archive = in_memory(alloc, limit, 10, false)?;
    let _ = archive.command(&Command::Deliver(FIRST), MOMENT);
    let _ = archive.command(&Command::Deliver(SECOND), MOMENT);
    Some(archive)
}

/// Returns whether an epoch of an archive in memory has an entry, and its bytes after another byte.
fn epoch_in_memory(
    alloc: Global,
    archive: &MemArchive,
    epoch: u32,
) -> Result<(bool, Bytes), NoMemory> {
    let mut bytes = Bytes::new(alloc);
    bytes.push(b'>')?;
    let found = archive.push_epoch(epoch, &mut bytes)?;
    Ok((found, bytes))
}

/// Returns whether an epoch that was read after another byte is that of an archive in memory: there
/// or not, and of these bytes.
pub fn is_epoch_of(
    alloc: Global,
    archive: &MemArchive,
    epoch: u32,
    found: bool,
    bytes: &[u8],
) -> Result<bool, NoMemory> {
    let (there, wanted) = epoch_in_memory(alloc, archive, epoch)?;
    Ok(there == found && wanted.as_slice() == bytes)
}
