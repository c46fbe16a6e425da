//! Commands on an archive on a disk and on one in memory, which have to do the same.
ghost use Rattle.std.specs.Prelude.{◌≤◌};

use crate::archives::{answer, give_alike, line, on_disk, opened};
use crate::memory::in_memory;
use arch_model::{Command, Keep};
use disk_model::MemDisk;
use fixtures::MOMENT;
use std::alloc::Global;
use std::test::Fail;

/// Returns whether two archives have the same entries, up to ten, the same live texts and the same
/// epochs.
fn are_same<K: Keep, L: Keep>(alloc: Global, keep: &mut K, other: &mut L) -> Result<bool, Fail> {
    let mut same = give_alike(alloc, keep, other)?;
    for index in 0..10 {
        same = line(keep, index)? == line(other, index)? && same;
    }
    Ok(same)
}

/// Returns whether two archives answer commands at successive moments alike, and are the same after
/// each.
fn answer_alike<K: Keep, L: Keep>(
    alloc: Global,
    keep: &mut K,
    other: &mut L,
    commands: &[Command<'static>],
) -> Result<bool, Fail> {
    let mut alike = true;
    let mut moment = MOMENT;
    for command in commands {
        let found = answer(keep, command, moment)?;
        alike = found == answer(other, command, moment)? && alike;
        alike = are_same(alloc, keep, other)? && alike;
        moment = moment.saturating_add(100);
    }
    Ok(alike)
}

/// Makes an archive on a disk that answers commands as another one does, and returns the disk, or
/// `None` if it answers or gives something else.
fn alike_on_disk<K: Keep>(
    alloc: Global,
    limit: u64,
    other: &mut K,
    commands: &[Command<'static>],
) -> Result<Option<MemDisk>, Fail>
    requires low { 1 ≤ limit }
    requires high { limit ≤ 1099511627776 }
{
    let mut engine = on_disk(alloc, limit, false)?;
    let alike = answer_alike(alloc, &mut engine, other, commands)?;
    Ok(alike.then_some(engine.into_disk()))
}

/// Opens an archive on a disk, and returns whether it is the other one, of so many entries.
fn is_opened_alike<K: Keep>(
    alloc: Global,
    disk: MemDisk,
    other: &mut K,
    count: u64,
) -> Result<bool, Fail> {
    let mut engine = opened(alloc, disk)?;
    let same = are_same(alloc, &mut engine, other)?;
    Ok(same && engine.entry_count() == count)
}

/// Returns whether an archive on a disk answers commands as one in memory does, with epochs of this
/// least length, and then is that, of so many entries, also when it is reopened.
pub fn are_alike(
    alloc: Global,
    limit: u64,
    commands: &[Command<'static>],
    count: u64,
) -> Result<bool, Fail>
    requires low { 1 ≤ limit }
    requires high { limit ≤ 1099511627776 }
{
    let mut memory = in_memory(alloc, limit, 10, false).ok_or("settings")?;
    let disk = alike_on_disk(alloc, limit, &mut memory, commands)?.ok_or("not alike")?;
    is_opened_alike(alloc, disk, &mut memory, count)
}
