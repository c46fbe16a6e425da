//! Root files begun and roots committed on a disk in memory, stopped after each number of calls.
ghost use Rattle.root_slots.specs.Valid.{IsRoot};

use crate::crashes::{Stopped, stop};
use crate::roots::{ROOT, is_same, put, sample, slot_read, write};
use arch_base::{Form, Numbers};
use disk_model::{Disk, DiskFault, FileKind, FileName, MemDisk};
use root_slots::{Root, RootRefusal, Slot, begin, commit, read};
use std::alloc::Global;
use std::process::Abort;
use std::test::Fail;

/// Another file of the disk.
const OTHER: FileName = FileName {
    kind: FileKind::Epoch,
    number: 5,
    generation: 1,
};

/// Begins a root file in place of a file of 4,097 bytes, and stops after `passes` calls.
fn stop_begin(alloc: Global, passes: u64) -> Result<Stopped, DiskFault> {
    let mut disk = MemDisk::new(alloc, Numbers::new(alloc));
    write(&mut disk, 0, &[1; 4097])?;
    disk.sync()?;
    Ok(stop(disk, passes, |fuse| begin(fuse)))
}

/// Returns whether the root file has its size and all its bytes are 0.
fn has_zeros<D: Disk>(disk: &mut D) -> Result<bool, DiskFault> {
    let mut file = [7; 4096];
    let count = disk.read(ROOT, 0, &mut file)?;
    Ok(count == 4096 && file.iter().all(|byte| *byte == 0))
}

/// Checks each image since the root file was begun, and the disk itself if that is done.
fn look_at_begun(rt: &impl Abort, stopped: &mut Stopped, done: bool) -> Result<(), Fail> {
    let bad = stopped.first_bad_image(|image, _done| Ok(slot_read(image) == Ok(None)))?;
    assert_eq!(rt; (stopped.start, stopped.done, bad), (2, done, None));
    assert!(rt; !done || has_zeros(&mut stopped.disk)?);
    Ok(())
}

#[test]
fn a_stop_while_it_begins_opens_no_slot(rt: HostRuntime) -> Result<(), Fail> {
    for passes in 0..8 {
        let mut stopped = stop_begin(rt.alloc(), passes)?;
        // The calls are a removal and two writes, with a sync after each.
        look_at_begun(&rt, &mut stopped, passes >= 6)?;
    }
    Ok(())
}

/// Writes a current root to the first slot, its copy to the second slot with the gate shut if
/// `twin` is set, and another file.
fn settle(disk: &mut MemDisk, root: &Root, twin: bool) -> Result<(), DiskFault>
    requires { IsRoot root.now }
{
    begin(disk)?;
    put(disk, Slot::First, root, true)?;
    if twin {
        put(disk, Slot::Second, root, false)?;
    }
    if disk.length(OTHER)? != 0 {
        return Err(DiskFault);
    }
    disk.write_at(OTHER, 0, b"other")?;
    disk.sync()
}

/// Commits a root if the root file has its size, which one call looks up.
fn try_commit<D: Disk>(disk: &mut D, slot: Slot, root: &Root) -> Result<(), DiskFault>
    requires { IsRoot root.now }
{
    if disk.length(ROOT)? != 4096 {
        return Err(DiskFault);
    }
    commit(disk, slot, root)
}

/// Commits a root to the second slot after one in the first slot, and stops after `passes` calls.
fn stop_commit(alloc: Global, old: &Root, new: &Root, passes: u64) -> Result<Stopped, DiskFault>
    requires old { IsRoot old.now }
    requires new { IsRoot new.now }
{
    let mut disk = MemDisk::new(alloc, Numbers::new(alloc));
    settle(&mut disk, old, passes % 2 == 0)?;
    Ok(stop(disk, passes, |fuse| try_commit(fuse, Slot::Second, new)))
}

/// Returns whether the current root of a disk is this one, in this slot.
fn has_root(disk: &mut MemDisk, slot: Slot, root: &Root) -> Result<bool, RootRefusal> {
    match read(disk)? {
        Some((found, current)) => Ok(found == slot && is_same(&current, root)),
        None => Ok(false),
    }
}

/// Returns whether the other file of a disk is unchanged.
fn has_other(disk: &mut MemDisk) -> Result<bool, DiskFault> {
    let mut other = [0; 6];
    let count = disk.read(OTHER, 0, &mut other)?;
    Ok(count == 5 && &other == b"other\0")
}

/// Returns whether the other file is there, and the new root, or the old one if the commit isn't
/// done.
fn is_old_or_new(image: &mut MemDisk, old: &Root, new: &Root, done: bool) -> Result<bool, Fail> {
    let changed = has_root(image, Slot::Second, new)?;
    let left = has_root(image, Slot::First, old)?;
    let other = has_other(image)?;
    Ok(other && (changed || (left && !done)))
}

/// Checks each image since a commit began.
fn look_at_commit(
    rt: &impl Abort,
    stopped: &Stopped,
    old: &Root,
    new: &Root,
    done: bool,
) -> Result<(), Fail> {
    let bad = stopped.first_bad_image(|image, done| is_old_or_new(image, old, new, done))?;
    assert_eq!(rt; (stopped.done, bad), (done, None));
    Ok(())
}

#[test]
fn a_stop_leaves_the_old_root_or_the_new_one_of_the_other_form(
    rt: HostRuntime,
) -> Result<(), Fail> {
    let old = sample(rt.alloc(), Form::Sha1, 1, 7)?;
    let new = sample(rt.alloc(), Form::Sha256, 2, 8)?;
    for passes in 0..9 {
        let stopped = stop_commit(rt.alloc(), &old, &new, passes)?;
        // The calls are a look at the length and three writes, with a sync after each write.
        look_at_commit(&rt, &stopped, &old, &new, passes >= 7)?;
    }
    Ok(())
}
