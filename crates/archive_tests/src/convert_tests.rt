//! Archives that own their disks and are converted to SHA-256 ids, against those that were made so.
use crate::form_tests::{fills, is_filled, settings};
use arch_model::{Command, Keep};
use archive_core::Engine;
use archive_fixtures::{LAST, answer, give_alike, on_disk, opened};
use disk_model::MemDisk;
use epoch_store::ConvertRefusal;
use fixtures::{FIRST, LATER, MOMENT, SECOND, THIRD};
use mem_archive::MemArchive;
use query_lang::read;
use std::alloc::Global;
use std::test::Fail;

/// Two mails and the removal of the first one, with their moments.
static BEFORE: [(Command<'static>, u64); 3] = [
    (Command::Deliver(FIRST), MOMENT),
    (Command::Deliver(SECOND), MOMENT),
    (Command::Remove(1), LATER),
];

/// Makes an archive of SHA-1 objects with the two mails and the removal, and converts it.
fn converted(alloc: Global) -> Result<Engine<MemDisk>, Fail> {
    let mut engine = on_disk(alloc, 2000, false)?;
    for (command, moment) in &BEFORE {
        let _ = answer(&mut engine, command, *moment)?;
    }
    engine.convert()?;
    Ok(engine)
}

#[test]
fn a_converted_archive_names_its_objects_by_the_sha_256(rt: HostRuntime) -> Result<(), Fail> {
    let mut engine = converted(rt.alloc())?;
    assert!(rt; engine.is_stale());
    assert!(rt; is_filled(rt.alloc(), &mut engine)?);
    Ok(())
}

#[test]
fn it_is_opened_again(rt: HostRuntime) -> Result<(), Fail> {
    let disk = converted(rt.alloc())?.into_disk();
    let mut engine = opened(rt.alloc(), disk)?;
    assert!(rt; is_filled(rt.alloc(), &mut engine)?);
    Ok(())
}

/// What is done after the conversion.
static AFTER: [Command<'static>; 4] = [
    Command::Deliver(THIRD),
    Command::Remove(2),
    Command::Purge(1),
    Command::Edit(3, FIRST),
];

/// Returns whether two archives answer this alike, and give the same texts and epochs after each command.
fn go_on_alike<K: Keep, L: Keep>(alloc: Global, keep: &mut K, other: &mut L) -> Result<bool, Fail> {
    let mut alike = true;
    for command in &AFTER {
        let found = answer(keep, command, LAST)?;
        alike = found == answer(other, command, LAST)? && alike;
        alike = give_alike(alloc, keep, other)? && alike;
    }
    Ok(alike)
}

#[test]
fn it_goes_on_as_one_that_was_made_so(rt: HostRuntime) -> Result<(), Fail> {
    let mut engine = converted(rt.alloc())?;
    let mut memory = MemArchive::new(rt.alloc(), settings().ok_or("settings")?);
    assert!(rt; fills(&mut memory)?);
    assert!(rt; go_on_alike(rt.alloc(), &mut engine, &mut memory)?);
    Ok(())
}

/// Returns whether a search for a word of the subject finds the second mail alone.
fn finds_second<K: Keep>(alloc: Global, keep: &mut K) -> Result<bool, Fail> {
    keep.fresh()?;
    let query = read(alloc, b"s:first")?;
    let found = keep.search(&query)?;
    Ok(found.as_slice() == [2_u32].as_slice())
}

#[test]
fn its_live_mail_is_found(rt: HostRuntime) -> Result<(), Fail> {
    let mut engine = converted(rt.alloc())?;
    assert!(rt; finds_second(rt.alloc(), &mut engine)?);
    Ok(())
}

#[test]
fn it_is_not_converted_again(rt: HostRuntime) -> Result<(), Fail> {
    let mut engine = converted(rt.alloc())?;
    assert!(rt; engine.convert() == Err(ConvertRefusal::Already));
    assert!(rt; !engine.is_stale());
    assert!(rt; is_filled(rt.alloc(), &mut engine)?);
    Ok(())
}

#[test]
fn a_mirror_is_not_converted(rt: HostRuntime) -> Result<(), Fail> {
    let mut engine = on_disk(rt.alloc(), 2000, true)?;
    assert!(rt; engine.convert() == Err(ConvertRefusal::IsMirror));
    assert!(rt; !engine.is_stale());
    Ok(())
}
