//! Archives that are converted to SHA-256 ids on disks in memory, against those that were made so.
use crate::form_tests::{fill, has_entries, reads_first, settings};
use crate::making_tests::{Length, ROOT, have_lengths};
use crate::opening_tests::{Change, ENOUGH, Listing, listed, open_stopped};
use arch_base::Form;
use disk_model::{Disk, FileKind, FileName, FuseDisk, MemDisk};
use epoch_store::{ConvertRefusal, InitRefusal, Store};
use fixtures::empty_disk;
use std::alloc::Global;
use std::process::Abort;
use std::test::Fail;

/// The generation of the files after a conversion as the fifth call.
const ANEW: u64 = 5;

/// The files of two messages and a removal then: a root, two records of 40 bytes, and three entries.
static FILES: [Length; 3] = [
    Length {
        file: ROOT,
        length: 4096,
    },
    Length {
        file: FileName {
            kind: FileKind::Map,
            number: 0,
            generation: ANEW,
        },
        length: 80,
    },
    Length {
        file: FileName {
            kind: FileKind::Epoch,
            number: 0,
            generation: ANEW,
        },
        length: 1184,
    },
];

/// Converts an archive of two messages and a removal. Returns its disk if it has the entries that git
/// names, in these files and no other, or `None`.
fn converted(alloc: Global) -> Result<Option<MemDisk>, Fail> {
    let mut disk = empty_disk(alloc);
    let mut store = fill(alloc, &mut disk, Form::Sha1)?;
    store.convert(alloc, &mut disk)?;
    let files = have_lengths(&mut disk, &FILES)? && disk.name_at(3)?.is_none();
    Ok((files && has_entries(&store)).then_some(disk))
}

#[test]
fn a_converted_archive_has_the_entries_that_git_names(rt: HostRuntime) -> Result<(), Fail> {
    let mut disk = converted(rt.alloc())?.ok_or("not converted")?;
    assert!(rt; reads_first(&rt, rt.alloc(), &mut disk)?);
    Ok(())
}

/// Returns the result of converting an archive with these settings and without entries.
fn converts(
    alloc: Global,
    form: Form,
    mirror: bool,
) -> Result<Result<(), ConvertRefusal>, InitRefusal> {
    let mut disk = empty_disk(alloc);
    let Some(config) = settings(form, mirror) else {
        return Err(InitRefusal::NoMemory);
    };
    let mut store = Store::init(alloc, &mut disk, &config)?;
    Ok(store.convert(alloc, &mut disk))
}

#[test]
fn mirrors_and_converted_archives_are_refused(rt: HostRuntime) -> Result<(), Fail> {
    let alloc = rt.alloc();
    assert!(rt; converts(alloc, Form::Sha1, false)? == Ok(()));
    assert!(rt; converts(alloc, Form::Sha256, false)? == Err(ConvertRefusal::Already));
    assert!(rt; converts(alloc, Form::Sha1, true)? == Err(ConvertRefusal::IsMirror));
    assert!(rt; converts(alloc, Form::Sha256, true)? == Err(ConvertRefusal::IsMirror));
    Ok(())
}

/// Returns what an archive of a form has after two messages and a removal.
fn listed_in(alloc: Global, form: Form) -> Result<Listing, Fail> {
    let mut disk = empty_disk(alloc);
    let store = fill(alloc, &mut disk, form)?;
    Ok(listed(alloc, &store)?)
}

/// A disk after a conversion that was stopped: how many changes it had before, and the answer.
#[derive(Drop)]
struct Stopped {
    disk: MemDisk,
    start: u64,
    answer: Result<(), ConvertRefusal>,
}

/// Stops a conversion after this many calls of the disk.
fn stop(alloc: Global, passes: u64) -> Result<Stopped, Fail> {
    let mut disk = empty_disk(alloc);
    let mut store = fill(alloc, &mut disk, Form::Sha1)?;
    let start = disk.moments();
    let mut fuse = FuseDisk::new(disk, passes);
    let answer = store.convert(alloc, &mut fuse);
    Ok(Stopped {
        disk: fuse.into_inner(),
        start,
        answer,
    })
}

/// Stops a conversion after this many calls of the disk, and opens what is left. Returns whether there
/// was no stop.
fn stop_after(
    rt: &impl Abort,
    alloc: Global,
    passes: u64,
    change: &mut Change,
) -> Result<bool, Fail> {
    let stopped = stop(alloc, passes)?;
    let done = stopped.answer.is_ok();
    assert!(rt; done || stopped.answer == Err(ConvertRefusal::DiskFault));
    open_stopped(rt, alloc, &stopped.disk, stopped.start, change, done)?;
    Ok(done)
}

#[test]
fn a_stop_leaves_the_old_form_or_the_new_one(rt: HostRuntime) -> Result<(), Fail> {
    let alloc = rt.alloc();
    let mut change = Change::of(
        listed_in(alloc, Form::Sha1)?,
        listed_in(alloc, Form::Sha256)?,
    );
    for passes in 0..ENOUGH {
        if stop_after(&rt, alloc, passes, &mut change)? {
            assert!(rt; change.found_both() && passes > 0);
            return Ok(());
        }
    }
    Ok(assert!(rt; false, "no run without a stop"))
}
