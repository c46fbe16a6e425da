//! Archives in memory and on disks, as tests make and ask them.
ghost use Rattle.std.specs.Prelude.{◌≤◌};

use arch_base::{Bytes, Form, LAST_MOMENT, ObjectId, id_of_hex};
use arch_model::{Answer, Command, EntryLine, Keep, OpenRefusal};
use archive_core::{Engine, NotMade, NotOpened};
use disk_model::MemDisk;
use epoch_store::InitRefusal;
use fixtures::{FIRST_COMMIT, FIRST_ID, MOMENT, REMOVAL_COMMIT, empty_disk, settings};
use git_objects::EntryKind;
use std::alloc::Global;
use std::test::Fail;

/// A moment after `LATER`.
pub const LAST: u64 = MOMENT + 200;

/// The blob id of `OTHER`, as it is kept where its own id is free.
pub const UNCHANGED_ID: &[u8] = b"939be2d6981fbe2900b8283be5936e32bb962cef";

/// Makes an archive on a disk, with epochs of this least length.
pub fn made(
    alloc: Global,
    disk: MemDisk,
    limit: u64,
    mirror: bool,
) -> Result<Engine<MemDisk>, InitRefusal>
    requires low { 1 ≤ limit }
    requires high { limit ≤ 1099511627776 }
{
    match settings(limit, 10, mirror) {
        None => Err(InitRefusal::NoMemory),
        Some(config) => match Engine::make(alloc, disk, &config) {
            Ok(engine) => Ok(engine),
            Err(NotMade { disk: _, why }) => Err(why),
        },
    }
}

/// Makes an archive on an empty disk, with epochs of this least length.
pub fn on_disk(alloc: Global, limit: u64, mirror: bool) -> Result<Engine<MemDisk>, InitRefusal>
    requires low { 1 ≤ limit }
    requires high { limit ≤ 1099511627776 }
{
    made(alloc, empty_disk(alloc), limit, mirror)
}

/// Opens the archive on a disk.
pub fn opened(alloc: Global, disk: MemDisk) -> Result<Engine<MemDisk>, OpenRefusal> {
    match Engine::open(alloc, disk) {
        Ok(engine) => Ok(engine),
        Err(NotOpened { disk: _, why }) => Err(why),
    }
}

/// Returns the id with these digits, 40 of a SHA-1 or 64 of a SHA-256.
fn id_of(hex: &[u8]) -> Option<ObjectId> {
    match id_of_hex(hex, Form::Sha1) {
        Some(id) => Some(id),
        None => id_of_hex(hex, Form::Sha256),
    }
}

/// Returns the answer to what is kept under this number with this blob id.
pub fn accepted(number: u32, hex: &[u8]) -> Option<Answer> {
    let id = id_of(hex)?;
    Some(Answer::Ok { number, id })
}

/// Returns the answer to a command.
pub fn answer<K: Keep>(
    keep: &mut K,
    command: &Command<'_>,
    moment: u64,
) -> Result<Answer, OpenRefusal> {
    keep.fresh()?;
    Ok(keep.command(command, moment.min(LAST_MOMENT)))
}

/// Returns the least number with a message that is at least this one.
pub fn live_from<K: Keep>(keep: &mut K, n: u32) -> Result<Option<u32>, OpenRefusal> {
    keep.fresh()?;
    Ok(keep.live_from(n))
}

/// Returns the entry at an index, without its text.
pub fn line<K: Keep>(keep: &mut K, index: u64) -> Result<Option<EntryLine>, OpenRefusal> {
    keep.fresh()?;
    Ok(keep.entry(index))
}

/// Appends the text of the least number with a message that is at least this one, and returns whether
/// there is one.
pub fn put_text<K: Keep>(keep: &mut K, n: u32, into: &mut Bytes) -> Result<bool, Fail> {
    keep.fresh()?;
    match keep.live_from(n) {
        None => Ok(false),
        Some(number) => {
            keep.text(number, into)?;
            Ok(true)
        }
    }
}

/// Returns whether the text of the least number with a message that is at least this one is this text.
pub fn text_is<K: Keep>(alloc: Global, keep: &mut K, n: u32, wanted: &[u8]) -> Result<bool, Fail> {
    let mut text = Bytes::new(alloc);
    let found = put_text(keep, n, &mut text)?;
    Ok(found && text.as_slice() == wanted)
}

/// Appends the bytes of an epoch, and returns whether it has an entry.
pub fn put_epoch<K: Keep>(keep: &mut K, epoch: u32, into: &mut Bytes) -> Result<bool, Fail> {
    keep.fresh()?;
    Ok(keep.epoch_bytes(epoch, into)?)
}

/// Returns the length of an epoch in bytes, or `None` if it has no entry.
pub fn epoch_len<K: Keep>(alloc: Global, keep: &mut K, epoch: u32) -> Result<Option<usize>, Fail> {
    let mut bytes = Bytes::new(alloc);
    let found = put_epoch(keep, epoch, &mut bytes)?;
    Ok(found.then_some(bytes.as_slice().len()))
}

/// Appends the text of a blob id, and returns whether an entry has it.
pub fn put_blob<K: Keep>(keep: &mut K, hex: &[u8], into: &mut Bytes) -> Result<bool, Fail> {
    let id = id_of(hex).ok_or("no id")?;
    keep.fresh()?;
    Ok(keep.blob(&id, into)?)
}

/// Returns whether the text of a blob id is this one.
pub fn blob_is<K: Keep>(
    alloc: Global,
    keep: &mut K,
    hex: &[u8],
    wanted: &[u8],
) -> Result<bool, Fail> {
    let mut text = Bytes::new(alloc);
    let found = put_blob(keep, hex, &mut text)?;
    Ok(found && text.as_slice() == wanted)
}

/// Returns whether an entry has this kind, number, blob and commit.
pub fn is_entry_of(
    entry: Option<EntryLine>,
    kind: EntryKind,
    number: u32,
    blob: &[u8],
    commit: &[u8],
) -> bool {
    let Some(line) = entry else {
        return false;
    };
    let named = line.kind == kind && line.number == number;
    named && Some(line.blob) == id_of(blob) && Some(line.commit) == id_of(commit)
}

/// Returns whether an entry of the first mail has this kind, number and commit.
pub fn is_entry(entry: Option<EntryLine>, kind: EntryKind, number: u32, commit: &[u8]) -> bool {
    is_entry_of(entry, kind, number, FIRST_ID, commit)
}

/// Returns whether the first mail and its removal are the two entries, in an epoch of 672 bytes.
pub fn has_both<K: Keep>(alloc: Global, keep: &mut K) -> Result<bool, Fail> {
    let first = is_entry(line(keep, 0)?, EntryKind::Message, 1, FIRST_COMMIT);
    let second = is_entry(line(keep, 1)?, EntryKind::Deletion, 1, REMOVAL_COMMIT);
    let third = line(keep, 2)?.is_none();
    let is_long = epoch_len(alloc, keep, 0)? == Some(672);
    Ok(first && second && third && is_long)
}

/// Appends the texts of the live numbers below nine, and the bytes of the first nine epochs.
fn put_given<K: Keep>(keep: &mut K, into: &mut Bytes) -> Result<(), Fail> {
    for n in 0..9 {
        put_text(keep, n, into)?;
        put_epoch(keep, n, into)?;
    }
    Ok(())
}

/// Returns whether two archives give the same texts and epochs.
pub fn give_alike<K: Keep, L: Keep>(
    alloc: Global,
    keep: &mut K,
    other: &mut L,
) -> Result<bool, Fail> {
    let mut given = Bytes::new(alloc);
    let mut wanted = Bytes::new(alloc);
    put_given(keep, &mut given)?;
    put_given(other, &mut wanted)?;
    Ok(given.as_slice() == wanted.as_slice())
}
