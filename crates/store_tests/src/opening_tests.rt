//! Tests of archives that are opened after a stop of the call before, after a call of the disk
//! failed, and after an opening failed.
ghost use Rattle.std.specs.Prelude.{◌≤◌, IfSome, IfOk, OnOk};
ghost use Rattle.disk_model.specs.Disk.{WhereTold};
ghost use Rattle.epoch_store.specs.Commands.{StoreHasSizes};

use crate::making_tests::{make, put};
use crate::removal_tests::remove_first;
use arch_base::NoMemory;
use arch_model::{EntryLine, OpenRefusal};
use disk_model::{Disk, FuseDisk, MemDisk};
use epoch_file::StoreRefusal;
use epoch_store::Store;
use fixtures::{FIRST, SECOND, empty_disk};
use std::alloc::Global;
use std::process::Abort;
use std::test::Fail;

/// More calls than any test makes on a disk.
pub(crate) const ENOUGH: u64 = 1000;

/// What is asked of an archive: the number of the next message, and each entry.
#[derive(PartialEq, Eq, Drop)]
pub(crate) struct Listing {
    pub(crate) next: u32,
    pub(crate) entries: Vec<EntryLine>,
}

/// Returns what an archive has.
pub(crate) fn listed(alloc: Global, store: &Store) -> Result<Listing, NoMemory> {
    let mut entries = Vec::new(alloc);
    for index in 0..store.stored().len() {
        if let Some(line) = store.entry(index as u64) {
            entries.push(line)?;
        }
    }
    Ok(Listing {
        next: store.next_number(),
        entries,
    })
}

/// Returns what the archive has that is opened on a disk, or `None` if there is no archive.
pub(crate) fn opened<D: Disk>(alloc: Global, disk: &mut D) -> Result<Option<Listing>, OpenRefusal> {
    match Store::open(alloc, disk) {
        Ok((store, _index)) => Ok(Some(listed(alloc, &store)?)),
        Err(OpenRefusal::NoArchive) => Ok(None),
        Err(refusal) => Err(refusal),
    }
}

/// Appends the first message to an archive and, if more calls are asked for, the second one too, and
/// removes the first one.
fn put_first<D: Disk>(
    alloc: Global,
    disk: &mut D,
    store: &mut Store,
    calls: u64,
) -> Result<(), StoreRefusal>
    requires sizes { WhereTold (StoreHasSizes store.old) (D.content disk.old) }
    ensures sizes { OnOk result (WhereTold (StoreHasSizes store.new) (D.content disk.new)) }
{
    if calls == 1 {
        return Ok(());
    }
    put(alloc, disk, store, FIRST)?;
    if calls == 2 {
        return Ok(());
    }
    put(alloc, disk, store, SECOND)?;
    if calls == 3 {
        return Ok(());
    }
    remove_first(alloc, disk, store)
}

/// Makes the first of four calls, as many as are asked for: an archive is made, two messages are
/// appended to it, and the first one is removed.
pub(crate) fn begin<D: Disk>(
    alloc: Global,
    disk: &mut D,
    limit: u64,
    calls: u64,
) -> Result<Option<Store>, StoreRefusal>
    requires low { 1 ≤ limit }
    requires high { limit ≤ 1099511627776 }
    ensures sizes { IfOk result (λ begun.
        IfSome begun (λ store. WhereTold (StoreHasSizes store) (D.content disk.new))) }
{
    if calls == 0 {
        return Ok(None);
    }
    let mut store = make(alloc, disk, limit)?;
    put_first(alloc, disk, &mut store, calls)?;
    Ok(Some(store))
}

/// Makes the next of the four calls.
fn go_on<D: Disk>(
    alloc: Global,
    disk: &mut D,
    limit: u64,
    store: Option<Store>,
) -> Result<(), StoreRefusal>
    requires low { 1 ≤ limit }
    requires high { limit ≤ 1099511627776 }
    requires sizes { IfSome store (λ begun. WhereTold (StoreHasSizes begun) (D.content disk.old)) }
{
    let Some(store) = store else {
        make(alloc, disk, limit)?;
        return Ok(());
    };
    let mut store = store;
    match store.next_number() {
        1 => put(alloc, disk, &mut store, FIRST),
        2 => put(alloc, disk, &mut store, SECOND),
        _ => remove_first(alloc, disk, &mut store),
    }
}

/// Returns what the archive has after this many of the four calls.
pub(crate) fn listed_after(alloc: Global, limit: u64, calls: u64) -> Result<Option<Listing>, Fail>
    requires low { 1 ≤ limit }
    requires high { limit ≤ 1099511627776 }
{
    let mut disk = empty_disk(alloc);
    match begin(alloc, &mut disk, limit, calls)? {
        None => Ok(None),
        Some(store) => Ok(Some(listed(alloc, &store)?)),
    }
}

/// A call: what the archive has before it and after it, and whether either was found after a stop
/// of it.
#[derive(Drop)]
pub(crate) struct Change {
    before: Option<Listing>,
    after: Option<Listing>,
    found_before: bool,
    found_after: bool,
}

impl Change {
    /// Returns the call before which, and after which, the archive has this.
    pub(crate) fn of(before: Listing, after: Listing) -> Change {
        Change {
            before: Some(before),
            after: Some(after),
            found_before: false,
            found_after: false,
        }
    }

    /// Returns whether both were found after stops.
    pub(crate) fn found_both(&self) -> bool {
        self.found_before && self.found_after
    }

    /// Returns the call before which, and after which, the archive has this many of the four calls.
    pub(crate) fn crash_between(
        alloc: Global,
        limit: u64,
        before: u64,
        after: u64,
    ) -> Result<Change, Fail>
        requires low { 1 ≤ limit }
        requires high { limit ≤ 1099511627776 }
    {
        Ok(Change {
            before: listed_after(alloc, limit, before)?,
            after: listed_after(alloc, limit, after)?,
            found_before: false,
            found_after: false,
        })
    }

    /// Returns whether this was there before or after the call.
    pub(crate) fn finds(&mut self, found: &Option<Listing>) -> bool {
        let is_before = *found == self.before;
        let is_after = *found == self.after;
        self.found_before = self.found_before || is_before;
        self.found_after = self.found_after || is_after;
        is_before || is_after
    }
}

/// Opens an image that a crash at a moment may leave, and returns whether it is the archive before
/// a call or after it. If the call is done, it has to be the latter.
fn is_image(
    alloc: Global,
    disk: &MemDisk,
    (at, pick): (u64, u64),
    change: &mut Change,
    done: bool,
) -> Result<bool, Fail> {
    if at > disk.moments() || pick > 3 {
        return Ok(false);
    }
    let mut image = disk.image(at, pick)?;
    let found = opened(alloc, &mut image)?;
    let known = change.finds(&found);
    Ok(known && (!done || found == change.after))
}

/// Opens each image that a crash at a moment may leave. Each is the archive before a call or after
/// it; if the call is done, the latter.
fn open_moment(
    rt: &impl Abort,
    alloc: Global,
    disk: &MemDisk,
    at: u64,
    change: &mut Change,
    done: bool,
) -> Result<(), Fail> {
    for pick in 0..4 {
        assert!(rt;
            is_image(alloc, disk, (at, pick), change, done)?,
            "moment {at}, pick {pick}"
        );
    }
    Ok(())
}

/// Opens each image that a crash may leave at a moment or at a later one. At the last moment the
/// call may be done.
pub(crate) fn open_since(
    rt: &impl Abort,
    alloc: Global,
    disk: &MemDisk,
    start: u64,
    change: &mut Change,
    done: bool,
) -> Result<(), Fail> {
    let end = disk.moments();
    for at in start..=end {
        open_moment(rt, alloc, disk, at, change, done && at == end)?;
    }
    Ok(())
}

/// Opens each image that a crash now may leave after a call that was stopped. If it is done, opens each
/// since it began.
///
/// A change of the disk is one call of it, so each moment of the call is the last one of some stop.
pub(crate) fn open_stopped(
    rt: &impl Abort,
    alloc: Global,
    disk: &MemDisk,
    start: u64,
    change: &mut Change,
    done: bool,
) -> Result<(), Fail> {
    let first = if done { start } else { disk.moments() };
    open_since(rt, alloc, disk, first, change, done)
}

/// A disk after a call that was stopped: how many changes it had before the call, and what the call
/// answered.
#[derive(Drop)]
struct Stopped {
    disk: MemDisk,
    start: u64,
    answer: Result<(), StoreRefusal>,
}

/// Stops the call that follows this many others after this many calls of the disk.
fn stop(alloc: Global, limit: u64, calls: u64, passes: u64) -> Result<Stopped, StoreRefusal>
    requires low { 1 ≤ limit }
    requires high { limit ≤ 1099511627776 }
{
    let mut disk = empty_disk(alloc);
    let store = begin(alloc, &mut disk, limit, calls)?;
    let start = disk.moments();
    let mut fuse = FuseDisk::new(disk, passes);
    let answer = go_on(alloc, &mut fuse, limit, store);
    Ok(Stopped {
        disk: fuse.into_inner(),
        start,
        answer,
    })
}

/// Stops the call that follows this many others after this many calls of the disk, and opens what is
/// left. Returns whether there was no stop.
fn stop_after(
    rt: &impl Abort,
    alloc: Global,
    limit: u64,
    calls: u64,
    passes: u64,
    change: &mut Change,
) -> Result<bool, Fail>
    requires low { 1 ≤ limit }
    requires high { limit ≤ 1099511627776 }
{
    let stopped = stop(alloc, limit, calls, passes)?;
    let done = stopped.answer.is_ok();
    assert!(rt; done || stopped.answer == Err(StoreRefusal::DiskFault));
    open_stopped(rt, alloc, &stopped.disk, stopped.start, change, done)?;
    Ok(done)
}

/// Stops the call that follows this many others after 0, 1, 2 .. calls of the disk, up to the first
/// run without a stop.
fn stop_each(
    rt: &impl Abort,
    alloc: Global,
    limit: u64,
    calls: u64,
    change: &mut Change,
) -> Result<(), Fail>
    requires low { 1 ≤ limit }
    requires high { limit ≤ 1099511627776 }
{
    assert!(rt; change.before != change.after);
    for passes in 0..ENOUGH {
        if stop_after(rt, alloc, limit, calls, passes, change)? {
            assert!(rt; change.found_both() && passes > 0);
            return Ok(());
        }
    }
    Ok(assert!(rt; false, "no run without a stop"))
}

/// Stops the call that follows this many others after each call of the disk, with epochs of this
/// least length.
fn stop_call(rt: &impl Abort, alloc: Global, limit: u64, calls: u64) -> Result<(), Fail>
    requires low { 1 ≤ limit }
    requires high { limit ≤ 1099511627776 }
    requires calls { calls ≤ 3 }
{
    let mut change = Change::crash_between(alloc, limit, calls, calls + 1)?;
    stop_each(rt, alloc, limit, calls, &mut change)
}

#[test]
fn a_stop_leaves_the_archive_before_or_after(rt: HostRuntime) -> Result<(), Fail> {
    for calls in 0..4 {
        // All entries in one epoch, and each in its own.
        stop_call(&rt, rt.alloc(), 1_073_741_824, calls)?;
        stop_call(&rt, rt.alloc(), 316, calls)?;
    }
    Ok(())
}
