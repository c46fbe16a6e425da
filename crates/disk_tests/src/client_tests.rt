//! The change of a text on a disk in memory, stopped after each number of calls.
use crate::change_text;
use crate::crashes::{Stopped, stop};
use crate::file_names::A;
use arch_base::Numbers;
use disk_model::{Disk, DiskFault, MemDisk};
use std::alloc::Global;
use std::process::Abort;
use std::test::Fail;

/// Changes the text of a file that has its size.
fn try_change<D: Disk>(disk: &mut D) -> Result<(), DiskFault> {
    if disk.length(A)? != 17 {
        return Err(DiskFault);
    }
    change_text(disk, A, b"new text")
}

/// Returns whether a file stands for a text.
fn stands_for(file: &[u8; 17], text: &[u8]) -> bool {
    if file[0] == 1 {
        &file[9..] == text
    } else {
        &file[1..9] == text
    }
}

/// Stops the change of a text after `passes` calls.
fn stop_change(alloc: Global, passes: u64) -> Result<Stopped, DiskFault> {
    let mut disk = MemDisk::new(alloc, Numbers::new(alloc));
    disk.write_at(A, 0, b"\x00old textqqqqqqqq")?;
    disk.sync()?;
    Ok(stop(disk, passes, |fuse| try_change(fuse)))
}

/// Returns whether an image has the new text, or the old one if the change isn't done.
fn has_text(image: &mut MemDisk, done: bool) -> Result<bool, Fail> {
    let mut file = [0; 17];
    let count = image.read(A, 0, &mut file)?;
    let old = !done && stands_for(&file, b"old text");
    Ok(count == 17 && (old || stands_for(&file, b"new text")))
}

/// Checks each image since the change began.
fn look_at_change(rt: &impl Abort, stopped: &Stopped, done: bool) -> Result<(), Fail> {
    let bad = stopped.first_bad_image(|image, done| has_text(image, done))?;
    assert_eq!(rt; (stopped.done, bad), (done, None));
    Ok(())
}

#[test]
fn a_stop_leaves_one_text_or_the_other(rt: HostRuntime) -> Result<(), Fail> {
    for passes in 0..7 {
        let stopped = stop_change(rt.alloc(), passes)?;
        // The calls are a look at the length, two writes and two syncs.
        look_at_change(&rt, &stopped, passes >= 5)?;
    }
    Ok(())
}
