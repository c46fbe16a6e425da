//! Tests of archives that are opened after a call of the disk failed, also a call of an opening
//! before.
ghost use Rattle.std.specs.Prelude.{◌≤◌};

use crate::making_tests::{FIRST_EPOCH, MAP, ROOT, append, epoch, make, put};
use crate::opening_tests::{Change, ENOUGH, Listing, open_since, opened};
use crate::removal_tests::remove_first;
use arch_model::OpenRefusal;
use disk_model::{Disk, DiskFault, MemDisk};
use epoch_file::StoreRefusal;
use fixtures::{FIRST, SECOND, failing, write};
use std::alloc::Global;
use std::process::Abort;
use std::test::Fail;

/// Makes an archive, appends both messages to it and removes the first one, up to the first refusal.
/// Returns how many of these four calls answered `Ok`.
fn advance<D: Disk>(alloc: Global, disk: &mut D, limit: u64) -> (u64, Result<(), StoreRefusal>)
    requires low { 1 ≤ limit }
    requires high { limit ≤ 1099511627776 }
{
    let mut store = match make(alloc, disk, limit) {
        Ok(store) => store,
        Err(refusal) => return (0, Err(refusal)),
    };
    if let Err(refusal) = put(alloc, disk, &mut store, FIRST) {
        return (1, Err(refusal));
    }
    if let Err(refusal) = put(alloc, disk, &mut store, SECOND) {
        return (2, Err(refusal));
    }
    match remove_first(alloc, disk, &mut store) {
        Ok(()) => (4, Ok(())),
        Err(refusal) => (3, Err(refusal)),
    }
}

/// Returns what is found on a disk of which one call at most is still to fail.
fn opened_at_last<D: Disk>(alloc: Global, disk: &mut D) -> Result<Option<Listing>, OpenRefusal> {
    match opened(alloc, disk) {
        Err(OpenRefusal::DiskFault) => opened(alloc, disk),
        answer => answer,
    }
}

/// Returns whether this many of the four calls answered `Ok`, and after fewer than four the disk
/// failed.
fn is_answer(calls: u64, answer: &Result<(), StoreRefusal>) -> bool {
    let done = answer.is_ok();
    let known = done || *answer == Err(StoreRefusal::DiskFault);
    known && calls <= 4 && done == (calls == 4)
}

/// Returns whether a disk of which one call at most is still to fail has the archive after one
/// count of calls or after another.
fn is_between<D: Disk>(
    alloc: Global,
    disk: &mut D,
    limit: u64,
    before: u64,
    after: u64,
) -> Result<bool, Fail>
    requires low { 1 ≤ limit }
    requires high { limit ≤ 1099511627776 }
{
    let found = opened_at_last(alloc, disk)?;
    let mut change = Change::crash_between(alloc, limit, before, after)?;
    Ok(change.finds(&found))
}

/// Makes and fills an archive where the call of the disk of an ordinal fails, and opens it. Returns
/// whether none of the calls that fill it failed.
fn fill_and_open<D: Disk>(
    rt: &impl Abort,
    alloc: Global,
    disk: &mut D,
    limit: u64,
    ordinal: u64,
) -> Result<bool, Fail>
    requires low { 1 ≤ limit }
    requires high { limit ≤ 1099511627776 }
{
    let (calls, answer) = advance(alloc, disk, limit);
    assert!(rt; is_answer(calls, &answer));
    let done = answer.is_ok();
    let after = calls.saturating_add(if done { 0 } else { 1 });
    assert!(rt;
        is_between(alloc, disk, limit, calls, after)?,
        "ordinal {ordinal}"
    );
    Ok(done)
}

/// Lets a call of the disk fail while an archive is made and filled, and opens it. Returns whether
/// none of those calls failed.
fn fail_at(rt: &impl Abort, alloc: Global, limit: u64, ordinal: u64) -> Result<bool, Fail>
    requires low { 1 ≤ limit }
    requires high { limit ≤ 1099511627776 }
{
    let mut disk = failing(alloc, &[ordinal])?;
    fill_and_open(rt, alloc, &mut disk, limit, ordinal)
}

/// Lets each call of the disk fail in turn while an archive is made and filled, up to the first run
/// in which none does.
fn fail_each(rt: &impl Abort, alloc: Global, limit: u64) -> Result<(), Fail>
    requires low { 1 ≤ limit }
    requires high { limit ≤ 1099511627776 }
{
    for ordinal in 1..ENOUGH {
        if fail_at(rt, alloc, limit, ordinal)? {
            assert!(rt; ordinal > 1);
            return Ok(());
        }
    }
    Ok(assert!(rt; false, "no run without a fault"))
}

#[test]
fn a_fault_leaves_the_archive_before_or_after(rt: HostRuntime) -> Result<(), Fail> {
    fail_each(&rt, rt.alloc(), 1_073_741_824)?;
    fail_each(&rt, rt.alloc(), 316)
}

/// Leaves work to an opening: the other slot is shut, two files have tails, and there are files
/// that no root names.
fn disturb(disk: &mut MemDisk) -> Result<(), DiskFault> {
    write(disk, ROOT, 0, b"\0")?;
    append(disk, MAP)?;
    append(disk, FIRST_EPOCH)?;
    append(disk, epoch(0, 9))?;
    append(disk, epoch(63, 1))
}

/// Where the call failed that was to fail while an archive is made and filled, disturbed and then
/// opened.
#[derive(Clone, Copy, PartialEq, Eq)]
enum Fault {
    /// Before it is opened.
    Before,
    /// In the opening.
    Opening,
    /// Nowhere.
    Nowhere,
}

/// Makes, fills and disturbs an archive, and returns whether no call of the disk failed.
fn prepare(alloc: Global, disk: &mut MemDisk) -> bool {
    let (_calls, answer) = advance(alloc, disk, 316);
    answer.is_ok() && disturb(disk).is_ok()
}

/// Opens an archive where a call of the disk may fail, and returns where it did. What is found is
/// the same archive.
fn open_failing(rt: &impl Abort, alloc: Global, disk: &mut MemDisk, same: &mut Change) -> Fault {
    match opened(alloc, disk) {
        Err(refusal) => {
            assert_eq!(rt; refusal, OpenRefusal::DiskFault);
            Fault::Opening
        }
        Ok(found) => {
            assert!(rt; same.finds(&found));
            Fault::Nowhere
        }
    }
}

/// Opens an archive where a call of the disk may fail, and each image of it, which has the same
/// archive.
fn open_images(
    rt: &impl Abort,
    alloc: Global,
    disk: &mut MemDisk,
    same: &mut Change,
) -> Result<Fault, Fail> {
    let start = disk.moments();
    let fault = open_failing(rt, alloc, disk, same);
    // A call that fails changes nothing of this disk: the moments before are those of the opening
    // without a fault.
    let first = if fault == Fault::Opening {
        disk.moments()
    } else {
        start
    };
    open_since(rt, alloc, disk, first, same, false)?;
    Ok(fault)
}

/// Returns whether the same archive is found on a disk of which one call at most is still to fail.
fn is_found<D: Disk>(alloc: Global, disk: &mut D, same: &mut Change) -> Result<bool, OpenRefusal> {
    let found = opened_at_last(alloc, disk)?;
    Ok(same.finds(&found))
}

/// Makes, fills and disturbs an archive where a call of the disk may fail, and opens it. The
/// opening, each image of it and a second opening have the same archive.
fn disturb_and_open(
    rt: &impl Abort,
    alloc: Global,
    disk: &mut MemDisk,
    same: &mut Change,
) -> Result<Fault, Fail> {
    if !prepare(alloc, disk) {
        return Ok(Fault::Before);
    }
    let fault = open_images(rt, alloc, disk, same)?;
    assert!(rt; is_found(alloc, disk, same)?);
    Ok(fault)
}

/// Lets a call of the disk fail while an archive is made and filled, disturbed and then opened, and
/// returns where it did.
fn fail_opening(
    rt: &impl Abort,
    alloc: Global,
    ordinal: u64,
    same: &mut Change,
) -> Result<Fault, Fail> {
    let mut disk = failing(alloc, &[ordinal])?;
    disturb_and_open(rt, alloc, &mut disk, same)
}

/// Lets each call of the disk fail in turn, up to the first run in which none does.
fn fail_each_opening(rt: &impl Abort, alloc: Global, same: &mut Change) -> Result<(), Fail> {
    let mut faults = 0;
    for ordinal in 1..ENOUGH {
        match fail_opening(rt, alloc, ordinal, same)? {
            Fault::Before => assert!(rt; faults == 0),
            Fault::Opening => faults = ordinal,
            Fault::Nowhere => {
                // Each call of the opening failed once.
                assert!(rt; faults.saturating_add(1) == ordinal && faults > 0);
                return Ok(());
            }
        }
    }
    Ok(assert!(rt; false, "no run without a fault"))
}

#[test]
fn an_opening_that_fails_leaves_the_archive(rt: HostRuntime) -> Result<(), Fail> {
    let mut same = Change::crash_between(rt.alloc(), 316, 4, 4)?;
    fail_each_opening(&rt, rt.alloc(), &mut same)
}
