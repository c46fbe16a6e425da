//! Archives of SHA-256 objects in memory and on a disk, against entries whose ids git worked out.
ghost use Rattle.std.specs.Prelude.{IfSome};
ghost use Rattle.arch_base.specs.Configs.{IsConfig};

use arch_base::{Bytes, Config, Form, Name};
use arch_model::{Command, Keep, OpenRefusal};
use archive_core::{Engine, NotMade};
use archive_fixtures::{
    accepted, answer, blob_is, is_entry_of, line, opened, put_blob, put_epoch, text_is,
};
use disk_model::MemDisk;
use epoch_store::InitRefusal;
use fixtures::{FIRST, FIRST_ID, LATER, MOMENT, SECOND, empty_disk};
use git_objects::EntryKind;
use mem_archive::MemArchive;
use std::alloc::Global;
use std::test::Fail;

/// The blob id of the first mail.
const BLOB: &[u8] = b"70b16dd75f8e20a6ef189426d439d7b42c747bf41f86ce4d7127c6e6fe19cd8f";

/// The blob id of the second mail.
const OTHER_BLOB: &[u8] = b"f656a0fc95d9c1eed5be5c178e0c92706c55b94331cd6750c8e82c7ac171039e";

/// The commit of the first mail, at `MOMENT`, as the first of its epoch.
const COMMIT: &[u8] = b"d19879bb23cab42831fe17e24121a2dafff4923380bb817515cd88dce7c2f63d";

/// The commit of the second mail, at `MOMENT`, after that of the first.
const OTHER_COMMIT: &[u8] = b"c6c396bf1ed2055ad13506b66dcb4100a8c755daa51ae0c27c020311e1c3c017";

/// The commit of the removal of the first mail at `LATER`, after that of the second.
const REMOVAL: &[u8] = b"dc16e2a70742fd93a58ead7bf540cca89aaa8485879d3c28c1365f62ac13b774";

/// Returns the settings of an archive of SHA-256 objects.
pub(crate) fn settings() -> Option<Config>
    ensures { IfSome result IsConfig }
{
    let name = Name::read(b"list")?;
    Some(Config {
        name,
        limit: 2000,
        slice: 50000,
        max: 10,
        mirror: false,
        born: 1,
        form: Form::Sha256,
    })
}

/// Makes an archive of SHA-256 objects on an empty disk.
fn made(alloc: Global) -> Result<Engine<MemDisk>, InitRefusal> {
    match settings() {
        None => Err(InitRefusal::NoMemory),
        Some(config) => match Engine::make(alloc, empty_disk(alloc), &config) {
            Ok(engine) => Ok(engine),
            Err(NotMade { disk: _, why }) => Err(why),
        },
    }
}

/// Delivers two mails and removes the first one, and returns whether the answers have their blob ids.
pub(crate) fn fills<K: Keep>(keep: &mut K) -> Result<bool, OpenRefusal> {
    let first = answer(keep, &Command::Deliver(FIRST), MOMENT)?;
    let second = answer(keep, &Command::Deliver(SECOND), MOMENT)?;
    let gone = answer(keep, &Command::Remove(1), LATER)?;
    let one = accepted(1, BLOB);
    Ok(Some(first) == one && Some(second) == accepted(2, OTHER_BLOB) && Some(gone) == one)
}

/// Returns whether the entries are those of the two mails and of the removal.
fn lists<K: Keep>(keep: &mut K) -> Result<bool, OpenRefusal> {
    let first = is_entry_of(line(keep, 0)?, EntryKind::Message, 1, BLOB, COMMIT);
    let second = is_entry_of(
        line(keep, 1)?,
        EntryKind::Message,
        2,
        OTHER_BLOB,
        OTHER_COMMIT,
    );
    let third = is_entry_of(line(keep, 2)?, EntryKind::Deletion, 1, BLOB, REMOVAL);
    Ok(first && second && third)
}

/// Returns whether the first epoch has the second format's first bytes, and 1,184 bytes in all.
fn has_epoch<K: Keep>(alloc: Global, keep: &mut K) -> Result<bool, Fail> {
    let mut bytes = Bytes::new(alloc);
    let found = put_epoch(keep, 0, &mut bytes)?;
    let all = bytes.as_slice();
    Ok(found && all.starts_with(b"PIV2EP2\n".as_slice()) && all.len() == 1184)
}

/// Returns whether texts are given by their numbers and blob ids, and none by an id of a SHA-1.
fn gives<K: Keep>(alloc: Global, keep: &mut K) -> Result<bool, Fail> {
    let second = text_is(alloc, keep, 1, SECOND)?;
    let first = blob_is(alloc, keep, BLOB, FIRST)?;
    let mut none = Bytes::new(alloc);
    let short = put_blob(keep, FIRST_ID, &mut none)?;
    Ok(second && first && !short)
}

/// Returns whether an archive is that of the two mails and of the removal.
pub(crate) fn is_filled<K: Keep>(alloc: Global, keep: &mut K) -> Result<bool, Fail> {
    let listed = lists(keep)?;
    let epoch = has_epoch(alloc, keep)?;
    let given = gives(alloc, keep)?;
    Ok(listed && epoch && given)
}

#[test]
fn an_archive_in_memory_names_its_objects_by_the_sha_256(rt: HostRuntime) -> Result<(), Fail> {
    let mut memory = MemArchive::new(rt.alloc(), settings().ok_or("settings")?);
    assert!(rt; fills(&mut memory)?);
    assert!(rt; is_filled(rt.alloc(), &mut memory)?);
    Ok(())
}

/// Returns the disk of an archive that answers so and is that, or `None`.
fn filled(alloc: Global) -> Result<Option<MemDisk>, Fail> {
    let mut engine = made(alloc)?;
    let answered = fills(&mut engine)?;
    let same = is_filled(alloc, &mut engine)?;
    Ok((answered && same).then_some(engine.into_disk()))
}

#[test]
fn an_engine_names_its_objects_by_the_sha_256(rt: HostRuntime) -> Result<(), Fail> {
    let disk = filled(rt.alloc())?.ok_or("not filled")?;
    let mut engine = opened(rt.alloc(), disk)?;
    assert!(rt; is_filled(rt.alloc(), &mut engine)?);
    Ok(())
}

/// Purges the first mail, and returns whether the second one is the only entry then, in 352 bytes.
fn purges<K: Keep>(alloc: Global, keep: &mut K) -> Result<bool, Fail> {
    let gone = Some(answer(keep, &Command::Purge(1), LATER)?) == accepted(1, BLOB);
    let mut bytes = Bytes::new(alloc);
    put_epoch(keep, 0, &mut bytes)?;
    let alone = line(keep, 0)?.is_some() && line(keep, 1)?.is_none();
    Ok(gone && alone && bytes.as_slice().len() == 352)
}

#[test]
fn a_purge_keeps_the_form_of_an_archive(rt: HostRuntime) -> Result<(), Fail> {
    let disk = filled(rt.alloc())?.ok_or("not filled")?;
    let mut engine = opened(rt.alloc(), disk)?;
    assert!(rt; purges(rt.alloc(), &mut engine)?);
    Ok(())
}
