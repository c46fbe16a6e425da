//! Archives on disks that stop after each number of calls of a conversion to SHA-256 ids.
ghost use Rattle.std.specs.Prelude.{IfOk};
ghost use Rattle.disk_model.specs.Disk.{WhereTold};
ghost use Rattle.epoch_store.specs.Commands.{StoreHasSizes};

use crate::course::{is_answered, made};
use crate::course_tests::DELIVERIES;
use arch_base::Form;
use arch_model::{Keep, OpenRefusal, Shelf};
use archive_core::{DiskArchive, Engine};
use archive_fixtures::{on_disk, opened, text_is};
use disk_model::{Disk, DiskFault, FuseDisk, MemDisk};
use epoch_store::ConvertRefusal;
use fixtures::{FIRST, SECOND, empty_disk};
use std::alloc::Global;
use std::test::Fail;

/// More calls of the disk than a conversion makes.
const ENOUGH: u64 = 120;

/// Makes an archive of SHA-1 objects on a disk, with two messages in two epochs.
fn filled<D: Disk>(alloc: Global, disk: &mut D) -> Result<DiskArchive, DiskFault>
    ensures { IfOk result (λ archive. WhereTold (StoreHasSizes archive) (D.content disk.new)) }
{
    let Ok(mut archive) = made(alloc, disk, 316) else {
        return Err(DiskFault);
    };
    is_answered(&mut archive, disk, &DELIVERIES[0])?;
    is_answered(&mut archive, disk, &DELIVERIES[1])?;
    Ok(archive)
}

/// Converts such an archive on a disk that stops after this many calls. Returns the disk, as it is left,
/// and the result.
fn stop(alloc: Global, passes: u64) -> Result<(MemDisk, Result<(), ConvertRefusal>), DiskFault> {
    let mut disk = empty_disk(alloc);
    let mut archive = filled(alloc, &mut disk)?;
    let mut fuse = FuseDisk::new(disk, passes);
    let result = archive.convert(&mut fuse);
    Ok((fuse.into_inner(), result))
}

/// Returns the form of an archive's ids, or `None` if it has to be opened again.
fn form_of(engine: &Engine<MemDisk>) -> Option<Form> {
    if engine.is_stale() {
        return None;
    }
    Some(engine.config().form)
}

/// Returns the form of the archive on a disk, or `None` if it hasn't the two messages.
fn form_on(alloc: Global, disk: MemDisk) -> Result<Option<Form>, Fail> {
    let mut engine = opened(alloc, disk)?;
    let first = text_is(alloc, &mut engine, 1, FIRST)?;
    let second = text_is(alloc, &mut engine, 2, SECOND)?;
    let counted = engine.entry_count() == 2 && engine.next_of_root() == 3;
    if first && second && counted {
        Ok(form_of(&engine))
    } else {
        Ok(None)
    }
}

/// Which archives images of a disk have.
#[derive(Clone, Copy, Drop)]
struct Found {
    /// That of SHA-1 objects.
    old: bool,
    /// That of SHA-256 objects.
    new: bool,
    /// Another one.
    other: bool,
}

/// Nothing was found yet.
const NOTHING: Found = Found {
    old: false,
    new: false,
    other: false,
};

impl Found {
    /// Notes the form of an archive, or that it is another one.
    fn note(&mut self, form: Option<Form>) {
        match form {
            Some(Form::Sha1) => self.old = true,
            Some(Form::Sha256) => self.new = true,
            None => self.other = true,
        }
    }
}

/// Returns what a crash may leave of a disk now.
fn found_on(alloc: Global, disk: &MemDisk) -> Result<Found, Fail> {
    let mut found = NOTHING;
    for pick in 0..4 {
        let image = disk.image(disk.moments(), pick)?;
        found.note(form_on(alloc, image)?);
    }
    Ok(found)
}

/// Stops a conversion after this many calls of the disk. Returns what a crash may leave then, and whether
/// the conversion was done.
fn found_after(alloc: Global, passes: u64) -> Result<(Found, bool), Fail> {
    let (disk, result) = stop(alloc, passes)?;
    let mut found = found_on(alloc, &disk)?;
    found.other |= result.is_err() && result != Err(ConvertRefusal::DiskFault);
    Ok((found, result.is_ok()))
}

#[test]
fn a_stop_leaves_the_archive_or_the_converted_one(rt: HostRuntime) -> Result<(), Fail> {
    let mut either = NOTHING;
    for passes in 0..ENOUGH {
        let (found, done) = found_after(rt.alloc(), passes)?;
        assert!(rt; !found.other);
        if done {
            // Only the converted one is left then; a stop before left either.
            assert!(rt; found.new && !found.old);
            assert!(rt; either.old && either.new);
            return Ok(());
        }
        either.old |= found.old;
        either.new |= found.new;
    }
    Ok(assert!(rt; false, "no run without a stop"))
}

/// Opens the archive on a disk, and returns the result of its conversion.
fn converts(alloc: Global, disk: MemDisk) -> Result<Result<(), ConvertRefusal>, OpenRefusal> {
    let mut disk = disk;
    let mut archive = DiskArchive::open(alloc, &mut disk)?;
    Ok(archive.convert(&mut disk))
}

#[test]
fn a_converted_archive_is_refused(rt: HostRuntime) -> Result<(), Fail> {
    let (disk, result) = stop(rt.alloc(), u64::MAX)?;
    assert!(rt; result == Ok(()));
    assert!(rt; converts(rt.alloc(), disk)? == Err(ConvertRefusal::Already));
    Ok(())
}

#[test]
fn a_mirror_is_refused(rt: HostRuntime) -> Result<(), Fail> {
    let disk = on_disk(rt.alloc(), 2000, true)?.into_disk();
    assert!(rt; converts(rt.alloc(), disk)? == Err(ConvertRefusal::IsMirror));
    Ok(())
}
