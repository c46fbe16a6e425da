//! Stores on disks in memory: what is made, what is answered, and what is read of them.
ghost use Rattle.std.specs.Prelude.{◌≢◌, ◌≤◌, Some, IfOk, IsTrue, OnOk};
ghost use Rattle.arch_base.specs.Configs.{IsConfig};
ghost use Rattle.arch_base.specs.Ids.{form_of};
ghost use Rattle.disk_model.specs.Disk.{WhereTold};
ghost use Rattle.git_objects.specs.Objects.{blob_id_of};
ghost use Rattle.mail_reader.specs.Ids.{own_id as own_id_in};
ghost use Rattle.epoch_store.specs.Commands.{Accepts, StoreHasSizes};

use arch_base::{Bytes, Config, Form, NoMemory, id_of_hex};
use arch_model::TextRefusal;
use archive_fixtures::{is_epoch_of, two_in_memory};
use disk_model::{Disk, DiskFault, FileKind, FileName, FuseDisk, MemDisk};
use epoch_file::StoreRefusal;
use epoch_store::{InitRefusal, Store};
use fixtures::{
    FIRST, FIRST_ID, MOMENT, SECOND, SECOND_COMMIT, SECOND_ID, empty_disk, settings, write,
};
use git_objects::{EntryKind, blob_id};
use mail_commits::text_ids;
use mail_reader::{is_stored, own_id};
use std::alloc::Global;
use std::process::Abort;
use std::test::Fail;
use store_finding::StoredEntry;

/// The file of the root.
pub(crate) const ROOT: FileName = FileName {
    kind: FileKind::Root,
    number: 0,
    generation: 0,
};

/// The file of the first map.
pub(crate) const MAP: FileName = FileName {
    kind: FileKind::Map,
    number: 0,
    generation: 1,
};

/// The file of the first epoch of an archive that has a message.
pub(crate) const FIRST_EPOCH: FileName = FileName {
    kind: FileKind::Epoch,
    number: 0,
    generation: 2,
};

/// The file of the second epoch of an archive whose first one took one message.
pub(crate) const SECOND_EPOCH: FileName = FileName {
    kind: FileKind::Epoch,
    number: 1,
    generation: 3,
};

/// Returns the file of an epoch.
pub(crate) fn epoch(number: u32, generation: u64) -> FileName {
    FileName {
        kind: FileKind::Epoch,
        number,
        generation,
    }
}

/// Returns whether an archive of one message at most would accept a text.
fn accepts(store: &Store, text: &[u8]) -> bool
    ensures { IsTrue result → Accepts store.now text.now }
{
    let config = store.config();
    if config.mirror || store.next_number() > config.max || !is_stored(text) {
        return false;
    }
    match store.stored() {
        [] => true,
        [one] => is_apart(one, text),
        _ => false,
    }
}

/// Returns whether a text has another own id and another blob id than an entry.
fn is_apart(one: &StoredEntry, text: &[u8]) -> bool
    ensures id { IsTrue result → own_id_in text.now ≢ Some one.now.seen.id }
    ensures blob { IsTrue result
        → blob_id_of (form_of one.now.seen.blob) text.now ≢ one.now.seen.blob }
{
    let Some(id) = own_id(text) else {
        return false;
    };
    if id == one.seen.id.as_slice() {
        return false;
    }
    if blob_id(text, one.seen.blob.form()) == one.seen.blob {
        return false;
    }
    true
}

/// Appends a message to an archive of at most one.
pub(crate) fn put<D: Disk>(
    alloc: Global,
    disk: &mut D,
    store: &mut Store,
    text: &[u8],
) -> Result<(), StoreRefusal>
    requires sizes { WhereTold (StoreHasSizes store.old) (D.content disk.old) }
    ensures sizes { OnOk result (WhereTold (StoreHasSizes store.new) (D.content disk.new)) }
{
    if !accepts(store, text) {
        return Err(StoreRefusal::Damaged { file: ROOT, at: 0 });
    }
    let form = store.config().form;
    store.deliver_entry(alloc, disk, text, &text_ids(text, form), MOMENT)
}

/// Makes an archive.
pub(crate) fn make<D: Disk>(alloc: Global, disk: &mut D, limit: u64) -> Result<Store, StoreRefusal>
    requires low { 1 ≤ limit }
    requires high { limit ≤ 1099511627776 }
    ensures sizes { IfOk result (λ store. WhereTold (StoreHasSizes store) (D.content disk.new)) }
{
    match settings(limit, 10, false) {
        Some(config) => make_by(alloc, disk, &config),
        None => Err(StoreRefusal::Damaged { file: ROOT, at: 1 }),
    }
}

/// Makes an archive of these settings.
pub(crate) fn make_by<D: Disk>(
    alloc: Global,
    disk: &mut D,
    config: &Config,
) -> Result<Store, StoreRefusal>
    requires config { IsConfig config.now }
    ensures sizes { IfOk result (λ store. WhereTold (StoreHasSizes store) (D.content disk.new)) }
{
    match Store::init(alloc, disk, config) {
        Ok(store) => Ok(store),
        Err(InitRefusal::DiskFault) => Err(StoreRefusal::DiskFault),
        Err(InitRefusal::NoMemory) => Err(StoreRefusal::NoMemory),
        Err(InitRefusal::Exists) => Err(StoreRefusal::Damaged { file: ROOT, at: 2 }),
    }
}

/// Makes an archive and appends both messages to it.
pub(crate) fn fill<D: Disk>(alloc: Global, disk: &mut D, limit: u64) -> Result<Store, StoreRefusal>
    requires low { 1 ≤ limit }
    requires high { limit ≤ 1099511627776 }
{
    let mut store = make(alloc, disk, limit)?;
    put(alloc, disk, &mut store, FIRST)?;
    put(alloc, disk, &mut store, SECOND)?;
    Ok(store)
}

/// A file, and its length in bytes.
#[derive(Drop)]
pub(crate) struct Length {
    pub(crate) file: FileName,
    pub(crate) length: u64,
}

/// Returns whether files have these lengths.
pub(crate) fn have_lengths<D: Disk>(disk: &mut D, wanted: &[Length]) -> Result<bool, DiskFault> {
    for Length { file, length } in wanted {
        if disk.length(*file)? != *length {
            return Ok(false);
        }
    }
    Ok(true)
}

/// Returns whether an archive has two messages, the second of them at the front of an epoch of its
/// own.
fn has_two_epochs(store: &Store) -> bool {
    let next = store.next_number() == 3;
    let none = store.entry(2).is_none() && store.place(2).is_none();
    let place = store.place(1) == Some((SECOND_EPOCH, 8));
    next && none && place
}

/// The files of an archive of two epochs, each of one message.
static TWO_EPOCHS: [Length; 4] = [
    Length {
        file: ROOT,
        length: 4096,
    },
    Length {
        file: MAP,
        length: 56,
    },
    Length {
        file: FIRST_EPOCH,
        length: 316,
    },
    Length {
        file: SECOND_EPOCH,
        length: 316,
    },
];

/// Fills an archive of which each epoch is full with one message, and returns whether its files are
/// as long as they should be.
fn fill_two_epochs<D: Disk>(alloc: Global, disk: &mut D) -> Result<bool, StoreRefusal> {
    let store = fill(alloc, disk, 316)?;
    let are_long = have_lengths(disk, &TWO_EPOCHS)?;
    Ok(are_long && has_two_epochs(&store))
}

#[test]
fn a_full_epoch_is_followed_by_the_next(rt: HostRuntime) -> Result<(), Fail> {
    let mut disk = empty_disk(rt.alloc());
    assert!(rt; fill_two_epochs(rt.alloc(), &mut disk)?);
    Ok(())
}

/// Returns whether an archive has the second mail in its first epoch, as another program spells it.
fn has_second_entry(store: &Store) -> bool {
    let Some(line) = store.entry(1) else {
        return false;
    };
    let blob = Some(line.blob) == id_of_hex(SECOND_ID, Form::Sha1);
    let commit = Some(line.commit) == id_of_hex(SECOND_COMMIT, Form::Sha1);
    let place = store.place(1) == Some((FIRST_EPOCH, 316));
    let named = line.kind == EntryKind::Message && line.number == 2 && line.epoch == 0;
    let sized = line.secs == MOMENT && line.size == 103;
    blob && commit && place && named && sized
}

/// Fills an archive whose first epoch takes both messages, and returns whether that is as long as
/// it should be.
fn fill_one_epoch<D: Disk>(alloc: Global, disk: &mut D) -> Result<bool, StoreRefusal> {
    let store = fill(alloc, disk, 317)?;
    let is_long = disk.length(FIRST_EPOCH)? == 672;
    Ok(is_long && has_second_entry(&store))
}

#[test]
fn an_epoch_below_the_limit_takes_one_more(rt: HostRuntime) -> Result<(), Fail> {
    let mut disk = empty_disk(rt.alloc());
    assert!(rt; fill_one_epoch(rt.alloc(), &mut disk)?);
    Ok(())
}

/// Makes an archive whose epochs have at least 316 bytes. `Exists` if there is one.
fn init<D: Disk>(alloc: Global, disk: &mut D) -> Result<Store, InitRefusal> {
    let Some(config) = settings(316, 10, false) else {
        return Err(InitRefusal::NoMemory);
    };
    Store::init(alloc, disk, &config)
}

/// Makes an archive, and returns whether it has these settings and no message.
fn init_is_empty<D: Disk>(alloc: Global, disk: &mut D) -> Result<bool, InitRefusal> {
    let store = init(alloc, disk)?;
    Ok(store.config().limit == 316 && store.next_number() == 1 && store.entry(0).is_none())
}

/// Returns whether no archive is made since there is one.
fn init_is_refused<D: Disk>(alloc: Global, disk: &mut D) -> bool {
    match init(alloc, disk) {
        Ok(_) => false,
        Err(refusal) => refusal == InitRefusal::Exists,
    }
}

/// The files of an archive without messages.
static NO_EPOCH: [Length; 2] = [
    Length {
        file: ROOT,
        length: 4096,
    },
    Length {
        file: MAP,
        length: 0,
    },
];

/// Makes an archive twice, of which the first time alone is one.
fn init_twice<D: Disk>(rt: &impl Abort, alloc: Global, disk: &mut D) -> Result<(), Fail> {
    assert!(rt; init_is_empty(alloc, disk)?);
    assert!(rt; have_lengths(disk, &NO_EPOCH)?);
    assert!(rt; disk.name_at(1)?.is_none());
    assert!(rt; init_is_refused(alloc, disk));
    Ok(())
}

#[test]
fn an_archive_is_made_once(rt: HostRuntime) -> Result<(), Fail> {
    let mut disk = empty_disk(rt.alloc());
    init_twice(&rt, rt.alloc(), &mut disk)
}

/// Returns whether bytes, after another byte, are those of the first epoch of the archive in memory.
fn is_first_epoch(alloc: Global, limit: u64, bytes: &[u8]) -> Result<bool, NoMemory>
    requires low { 1 ≤ limit }
    requires high { limit ≤ 1099511627776 }
{
    match two_in_memory(alloc, limit) {
        None => Ok(false),
        Some(archive) => is_epoch_of(alloc, &archive, 0, true, bytes),
    }
}

/// Returns whether the file of the first epoch has the bytes of the archive in memory.
fn is_epoch_file<D: Disk>(alloc: Global, disk: &mut D) -> Result<bool, TextRefusal> {
    let mut file = [0; 673];
    let count = disk.read(FIRST_EPOCH, 0, &mut file)?;
    let mut bytes = Bytes::new(alloc);
    bytes.push(b'>')?;
    bytes.push_slice(file.split_at(672).0)?;
    let same = is_first_epoch(alloc, 317, bytes.as_slice())?;
    Ok(count == 672 && same)
}

#[test]
fn the_file_of_an_epoch_has_the_bytes_of_the_epoch(rt: HostRuntime) -> Result<(), Fail> {
    let alloc = rt.alloc();
    let mut disk = empty_disk(alloc);
    fill(alloc, &mut disk, 317)?;
    assert!(rt; is_epoch_file(alloc, &mut disk)?);
    Ok(())
}

/// Returns the text of an entry, after another byte.
pub(crate) fn text_of<D: Disk>(
    alloc: Global,
    disk: &mut D,
    store: &Store,
    index: u64,
) -> Result<Bytes, TextRefusal> {
    let mut bytes = Bytes::new(alloc);
    bytes.push(b'>')?;
    if index < store.stored().len() as u64 {
        store.text(disk, index, &mut bytes)?;
    }
    Ok(bytes)
}

/// Appends ten bytes to a file.
pub(crate) fn append(disk: &mut MemDisk, file: FileName) -> Result<(), DiskFault> {
    let end = disk.length(file)?;
    write(disk, file, end, b"0123456789")
}

/// Returns whether the text of an entry is the second mail.
fn is_second_text<D: Disk>(
    alloc: Global,
    disk: &mut D,
    store: &Store,
    index: u64,
) -> Result<bool, TextRefusal> {
    let bytes = text_of(alloc, disk, store, index)?;
    Ok(bytes.as_slice().len() == 104 && bytes.as_slice().ends_with(SECOND))
}

/// Returns whether the text of an entry isn't the first mail, whose id the entry has.
fn is_damaged<D: Disk>(alloc: Global, disk: &mut D, store: &Store, index: u64) -> bool {
    match text_of(alloc, disk, store, index) {
        Err(TextRefusal::Damaged { named, found }) => {
            let first = id_of_hex(FIRST_ID, Form::Sha1);
            Some(named) == first && named != found
        }
        _ => false,
    }
}

/// Reads both texts of an archive, of which the first is harmed.
fn read_texts(
    rt: &impl Abort,
    alloc: Global,
    disk: &mut MemDisk,
    store: &Store,
) -> Result<(), Fail> {
    assert!(rt; is_second_text(alloc, disk, store, 1)?);
    // The subject of the first text becomes another one.
    write(disk, FIRST_EPOCH, 91, b"F")?;
    assert!(rt; is_damaged(alloc, disk, store, 0));
    Ok(())
}

#[test]
fn a_text_is_read_where_it_stands_unharmed(rt: HostRuntime) -> Result<(), Fail> {
    let mut disk = empty_disk(rt.alloc());
    let store = fill(rt.alloc(), &mut disk, 316)?;
    read_texts(&rt, rt.alloc(), &mut disk, &store)
}

/// Makes an archive and appends both messages to it, on a disk that stops after this many calls.
fn fill_stopped(alloc: Global, passes: u64) -> Result<(), StoreRefusal> {
    let mut fuse = FuseDisk::new(empty_disk(alloc), passes);
    fill(alloc, &mut fuse, 316)?;
    Ok(())
}

#[test]
fn a_disk_that_fails_at_any_call_is_answered_by_its_fault(rt: HostRuntime) -> Result<(), Fail> {
    let mut done = false;
    for passes in 0..40 {
        match fill_stopped(rt.alloc(), passes) {
            Ok(()) => done = true,
            Err(refusal) => assert!(rt; !done && refusal == StoreRefusal::DiskFault),
        }
    }
    assert!(rt; done);
    Ok(())
}
