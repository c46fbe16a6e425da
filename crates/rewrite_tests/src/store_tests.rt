//! Purges and edits of an archive of either form that is written by hand, which is then opened again.
ghost use Rattle.std.specs.Prelude.{◌≡◌, ◌≢◌, Some, IsTrue};
ghost use Rattle.disk_model.specs.Disk.{WhereTold};
ghost use Rattle.git_objects.specs.declared.entry_kind.EntryKind.TheVariants.{Message};
ghost use Rattle.mail_reader.specs.Ids.{own_id as own_id_in};
ghost use Rattle.epoch_store.specs.Commands.{StoreHasSizes, MayEdit, MayPurge};

use crate::entries_tests::{alone_commit, alone_length, both_length, put_two, second_blob};
use crate::map_tests::first_bytes_of;
use crate::plan_tests::ROOT;
use arch_base::{Form, ObjectId};
use disk_model::{Disk, DiskFault, FileKind, FileName, MemDisk, records_size};
use epoch_file::StoreRefusal;
use epoch_store::Store;
use fixtures::{FIRST, LATER, MOMENT, SECOND, THIRD, empty_disk, write};
use git_objects::{EntryKind, blob_id};
use mail_commits::text_ids;
use mail_reader::{is_stored, own_id};
use number_map::{Record, append};
use std::alloc::Global;
use std::test::Fail;
use store_finding::StoredEntry;

/// The map.
const MAP: FileName = FileName {
    kind: FileKind::Map,
    number: 0,
    generation: 1,
};

/// The map after a purge or an edit.
const MAP_ANEW: FileName = FileName {
    kind: FileKind::Map,
    number: 0,
    generation: 4,
};

/// The bytes of the root file that aren't 0: a root of SHA-1 ids and sequence 3 in the first slot, with
/// two numbers taken, and an epoch of 672 bytes, which takes more.
const ROOT_BYTES: [(u64, u8); 15] = [
    (0, 1),
    (1031, 3),
    (1032, 1),
    (1034, 1),
    (1035, b'a'),
    (1105, 19),
    (1110, 50),
    (1114, 9),
    (1118, 1),
    (1122, 3),
    (1130, 1),
    (1138, 56),
    (1146, 2),
    (1153, 2),
    (1154, 160),
];

/// The bytes that differ in one of SHA-256 ids: its format is 2, the map has 80 bytes, and the epoch 768.
const LONG_ROOT_BYTES: [(u64, u8); 4] = [(1032, 2), (1138, 80), (1153, 3), (1154, 0)];

/// Writes these bytes over the root file.
fn put_bytes(disk: &mut MemDisk, bytes: &[(u64, u8)]) -> Result<(), DiskFault> {
    for (at, byte) in bytes {
        write(disk, ROOT, *at, &[*byte])?;
    }
    Ok(())
}

/// Writes the root file of an archive of a form.
fn put_root(disk: &mut MemDisk, form: Form) -> Result<(), DiskFault> {
    write(disk, ROOT, 0, &[0; 4096])?;
    put_bytes(disk, &ROOT_BYTES)?;
    match form {
        Form::Sha1 => Ok(()),
        Form::Sha256 => put_bytes(disk, &LONG_ROOT_BYTES),
    }
}

/// Appends the record of a message in the first epoch to the map.
fn add_record(disk: &mut MemDisk, number: u32, blob: ObjectId) -> Result<(), DiskFault> {
    let at = disk.length(MAP)?;
    if at > 1000 {
        return Err(DiskFault);
    }
    let line = Record {
        number,
        epoch: 0,
        blob,
    };
    append(disk, MAP, at, &line)
}

/// Returns the disk of an archive of a form of the first two mails, in one epoch.
fn filled(alloc: Global, form: Form) -> Result<MemDisk, StoreRefusal> {
    let mut disk = empty_disk(alloc);
    put_two(alloc, &mut disk, form)?;
    add_record(&mut disk, 1, blob_id(FIRST, form))?;
    add_record(&mut disk, 2, blob_id(SECOND, form))?;
    put_root(&mut disk, form)?;
    disk.sync()?;
    Ok(disk)
}

/// Returns the file of the first epoch of a generation.
fn first_epoch(generation: u64) -> FileName {
    FileName {
        kind: FileKind::Epoch,
        number: 0,
        generation,
    }
}

/// Returns whether a text has another own id than an entry.
fn is_apart(one: &StoredEntry, text: &[u8]) -> bool
    ensures { IsTrue result → own_id_in text.now ≢ Some one.now.seen.id }
{
    let Some(id) = own_id(text) else {
        return false;
    };
    if id == one.seen.id.as_slice() {
        return false;
    }
    true
}

/// Returns whether an entry is the message of number 1, with this blob id.
fn is_first(one: &StoredEntry, blob: &ObjectId) -> bool
    ensures kind { IsTrue result → one.now.seen.kind ≡ Message }
    ensures number { IsTrue result → one.now.number ≡ 1 }
    ensures blob { IsTrue result → one.now.seen.blob ≡ blob.now }
{
    let EntryKind::Message = one.seen.kind else {
        return false;
    };
    one.number == 1 && one.seen.blob == *blob
}

/// Returns whether an archive of two entries has a message of number 1 with this blob id first, and may
/// purge it.
fn may_purge(store: &Store, blob: &ObjectId) -> bool
    ensures { IsTrue result → MayPurge store.now 1 blob.now }
{
    if store.config().mirror {
        return false;
    }
    match store.stored() {
        [one, _] => is_first(one, blob),
        _ => false,
    }
}

/// Returns whether an archive of two entries may edit that message, to a text whose own id none of them
/// has.
fn may_edit(store: &Store, blob: &ObjectId, text: &[u8]) -> bool
    ensures { IsTrue result → MayEdit store.now 1 blob.now text.now }
{
    if !may_purge(store, blob) || store.next_number() > store.config().max || !is_stored(text) {
        return false;
    }
    match store.stored() {
        [one, other] => is_apart(one, text) && is_apart(other, text),
        _ => false,
    }
}

/// Purges the first of two messages.
fn purge_first<D: Disk>(alloc: Global, disk: &mut D, store: &mut Store) -> Result<(), StoreRefusal>
    requires sizes { WhereTold (StoreHasSizes store.old) (D.content disk.old) }
{
    let blob = blob_id(FIRST, store.config().form);
    if !may_purge(store, &blob) {
        return Err(StoreRefusal::Damaged { file: ROOT, at: 4 });
    }
    store.purge_text(alloc, disk, &blob)
}

/// Edits the first of two messages to the third mail.
fn edit_first<D: Disk>(alloc: Global, disk: &mut D, store: &mut Store) -> Result<(), StoreRefusal>
    requires sizes { WhereTold (StoreHasSizes store.old) (D.content disk.old) }
{
    let form = store.config().form;
    let blob = blob_id(FIRST, form);
    if !may_edit(store, &blob, THIRD) {
        return Err(StoreRefusal::Damaged { file: ROOT, at: 5 });
    }
    store.edit_text(alloc, disk, &blob, THIRD, &text_ids(THIRD, form), LATER)
}

/// Returns whether the first entry of an archive of a form is the second mail, with the commit that git
/// gives it without a parent, at the front of a new file.
fn has_second_first(store: &Store, form: Form) -> bool {
    let Some(line) = store.entry(0) else {
        return false;
    };
    let named = line.kind == EntryKind::Message && line.number == 2 && line.secs == MOMENT;
    let blob = Some(line.blob) == second_blob(form);
    let commit = Some(line.commit) == alone_commit(form);
    named && blob && commit && store.place(0) == Some((first_epoch(4), 8))
}

/// Returns whether an archive of a form has the second mail alone, and no number was given back.
fn has_second_alone(store: &Store, form: Form) -> bool {
    has_second_first(store, form) && store.entry(1).is_none() && store.next_number() == 3
}

/// Returns whether a root, the map and one epoch of these lengths are all files.
fn has_files<D: Disk>(disk: &mut D, map: u64, first: u64) -> Result<bool, DiskFault> {
    let lengths = disk.length(MAP_ANEW)? == map && disk.length(first_epoch(4))? == first;
    let last = disk.name_at(3)?.is_none();
    Ok(lengths && last)
}

/// Returns whether the new map begins with the record of a form of the number 1 without a message.
fn begins_without_first<D: Disk>(disk: &mut D, form: Form) -> Result<bool, DiskFault> {
    let mut record = [7; 80];
    let count = disk.read(MAP_ANEW, 0, &mut record)?;
    Ok(record[..count].starts_with(first_bytes_of(form)))
}

/// Purges the first of two messages of an archive of a form, and returns whether the second one is left,
/// in files of its own.
fn purges<D: Disk>(alloc: Global, disk: &mut D, form: Form) -> Result<bool, Fail> {
    let (mut store, _index) = Store::open(alloc, disk)?;
    purge_first(alloc, disk, &mut store)?;
    let files = has_files(disk, records_size(2, form), alone_length(form))?;
    let begins = begins_without_first(disk, form)?;
    Ok(files && begins && has_second_alone(&store, form))
}

/// Opens an archive, and returns whether it has the second mail alone.
fn opens_alone<D: Disk>(alloc: Global, disk: &mut D, form: Form) -> Result<bool, Fail> {
    let (store, _index) = Store::open(alloc, disk)?;
    Ok(has_second_alone(&store, form))
}

#[test]
fn a_purge_leaves_the_other_message(rt: HostRuntime) -> Result<(), Fail> {
    for form in [Form::Sha1, Form::Sha256] {
        let mut disk = filled(rt.alloc(), form)?;
        assert!(rt; purges(rt.alloc(), &mut disk, form)?, "{form:?}");
        assert!(rt; opens_alone(rt.alloc(), &mut disk, form)?, "{form:?}");
    }
    Ok(())
}

/// Returns whether the second entry of an archive of a form is the third mail, after the second one in its
/// epoch.
fn has_third_second(store: &Store, form: Form) -> bool {
    let Some(line) = store.entry(1) else {
        return false;
    };
    let named = line.kind == EntryKind::Message && line.number == 3 && line.secs == LATER;
    let place = store.place(1) == Some((first_epoch(4), alone_length(form)));
    named && line.blob == blob_id(THIRD, form) && line.epoch == 0 && place
}

/// Returns whether an archive of a form has the second mail and the third one.
fn has_second_and_third(store: &Store, form: Form) -> bool {
    let both = has_second_first(store, form) && has_third_second(store, form);
    both && store.entry(2).is_none() && store.next_number() == 4
}

/// Edits the first of two messages of an archive of a form, and returns whether the second one and the
/// new one are left, in files of their own.
fn edits<D: Disk>(alloc: Global, disk: &mut D, form: Form) -> Result<bool, Fail> {
    let (mut store, _index) = Store::open(alloc, disk)?;
    edit_first(alloc, disk, &mut store)?;
    let files = has_files(disk, records_size(3, form), both_length(form))?;
    Ok(files && has_second_and_third(&store, form))
}

/// Opens an archive, and returns whether it has the second mail and the third one.
fn opens_both<D: Disk>(alloc: Global, disk: &mut D, form: Form) -> Result<bool, Fail> {
    let (store, _index) = Store::open(alloc, disk)?;
    Ok(has_second_and_third(&store, form))
}

#[test]
fn an_edit_leaves_the_other_message_and_the_new_one(rt: HostRuntime) -> Result<(), Fail> {
    for form in [Form::Sha1, Form::Sha256] {
        let mut disk = filled(rt.alloc(), form)?;
        assert!(rt; edits(rt.alloc(), &mut disk, form)?, "{form:?}");
        assert!(rt; opens_both(rt.alloc(), &mut disk, form)?, "{form:?}");
    }
    Ok(())
}
