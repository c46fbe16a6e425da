//! Checks that an archive in memory and one on a disk have to pass.
ghost use Rattle.std.specs.Prelude.{◌≤◌};

use crate::archives::{on_disk, opened};
use crate::memory::in_memory;
use arch_model::Keep;
use disk_model::MemDisk;
use std::alloc::Global;
use std::test::Fail;

/// A check of an archive, whatever keeps it.
pub trait Check {
    /// Returns whether the archive passes.
    fn passes<K: Keep>(alloc: Global, keep: &mut K) -> Result<bool, Fail>;
}

/// Returns whether a new archive in memory passes, with epochs of this least length.
fn memory_passes<C: Check>(alloc: Global, limit: u64) -> Result<bool, Fail>
    requires low { 1 ≤ limit }
    requires high { limit ≤ 1099511627776 }
{
    let mut memory = in_memory(alloc, limit, 10, false).ok_or("settings")?;
    C::passes(alloc, &mut memory)
}

/// Returns whether a new archive on a disk passes, with epochs of this least length.
fn engine_passes<C: Check>(alloc: Global, limit: u64) -> Result<bool, Fail>
    requires low { 1 ≤ limit }
    requires high { limit ≤ 1099511627776 }
{
    let mut engine = on_disk(alloc, limit, false)?;
    C::passes(alloc, &mut engine)
}

/// Returns whether both pass, each with epochs of this least length.
pub fn both_pass<C: Check>(alloc: Global, limit: u64) -> Result<bool, Fail>
    requires low { 1 ≤ limit }
    requires high { limit ≤ 1099511627776 }
{
    let memory = memory_passes::<C>(alloc, limit)?;
    let engine = engine_passes::<C>(alloc, limit)?;
    Ok(memory && engine)
}

/// Opens the archive on a disk, and returns whether it passes.
pub fn opened_passes<C: Check>(alloc: Global, disk: MemDisk) -> Result<bool, Fail> {
    let mut engine = opened(alloc, disk)?;
    C::passes(alloc, &mut engine)
}
