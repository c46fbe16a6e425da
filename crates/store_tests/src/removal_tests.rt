//! Removals on disks in memory, and what an opening makes of deletions.
ghost use Rattle.std.specs.Prelude.{◌≡◌, ◌≤◌, Some, IsTrue, OnOk};
ghost use Rattle.arch_base.specs.Ids.{form_of};
ghost use Rattle.disk_model.specs.Disk.{WhereTold};
ghost use Rattle.git_objects.specs.Objects.{blob_id_of};
ghost use Rattle.git_objects.specs.declared.entry_kind.EntryKind.TheVariants.{Message};
ghost use Rattle.mail_reader.specs.Ids.{own_id as own_id_in};
ghost use Rattle.epoch_store.specs.Commands.{StoreHasSizes, MayEnd};

use crate::damage_tests::is_refused;
use crate::joining_tests::{
    Case, Entry, Line, ONE, Outcome, Placed, is_opened_so, opens_with, written,
};
use crate::making_tests::{FIRST_EPOCH, MAP, ROOT, SECOND_EPOCH, epoch, make, put};
use arch_base::{Bytes, Form, NoMemory, id_of_hex};
use arch_model::{Command, OpenRefusal, TextRefusal};
use archive_fixtures::{in_memory, is_epoch_of};
use disk_model::{Disk, MemDisk};
use epoch_file::StoreRefusal;
use epoch_store::Store;
use fixtures::{FIRST, FIRST_ID, LATER, MOMENT, OTHER, REMOVAL_COMMIT, SECOND, THIRD, empty_disk};
use git_objects::{EntryKind, blob_id};
use mail_commits::text_ids;
use mail_reader::own_id;
use std::alloc::Global;
use std::test::Fail;
use store_finding::StoredEntry;

/// Returns whether an entry is the message with a number, and has the ids of a text.
fn is_message(one: &StoredEntry, number: u32, text: &[u8]) -> bool
    ensures kind { IsTrue result → one.now.seen.kind ≡ Message }
    ensures number { IsTrue result → one.now.number ≡ number }
    ensures id { IsTrue result → own_id_in text.now ≡ Some one.now.seen.id }
    ensures blob { IsTrue result
        → blob_id_of (form_of one.now.seen.blob) text.now ≡ one.now.seen.blob }
{
    let EntryKind::Message = one.seen.kind else {
        return false;
    };
    let Some(id) = own_id(text) else {
        return false;
    };
    id == one.seen.id.as_slice()
        && blob_id(text, one.seen.blob.form()) == one.seen.blob
        && one.number == number
}

/// Returns whether an entry is a message.
fn is_any_message(one: &StoredEntry) -> bool
    ensures { IsTrue result → one.now.seen.kind ≡ Message }
{
    match one.seen.kind {
        EntryKind::Message => true,
        EntryKind::Deletion => false,
    }
}

/// Returns whether an archive of one message or two has the first one under a number, with the ids of
/// a text, and may remove it.
fn may_end(store: &Store, number: u32, text: &[u8]) -> bool
    ensures { IsTrue result → MayEnd store.now number text.now }
{
    if store.config().mirror {
        return false;
    }
    match store.stored() {
        [one] => is_message(one, number, text),
        [one, other] => is_any_message(other) && is_message(one, number, text),
        _ => false,
    }
}

/// Removes the first message of an archive of one or two.
pub(crate) fn remove_first<D: Disk>(
    alloc: Global,
    disk: &mut D,
    store: &mut Store,
) -> Result<(), StoreRefusal>
    requires sizes { WhereTold (StoreHasSizes store.old) (D.content disk.old) }
    ensures sizes { OnOk result (WhereTold (StoreHasSizes store.new) (D.content disk.new)) }
{
    if !may_end(store, 1, FIRST) {
        return Err(StoreRefusal::Damaged { file: ROOT, at: 3 });
    }
    let form = store.config().form;
    store.remove_entry(alloc, disk, 1, FIRST, &text_ids(FIRST, form), LATER)
}

/// Makes an archive, appends the first message to it, and removes it.
fn removed<D: Disk>(alloc: Global, disk: &mut D, limit: u64) -> Result<Store, StoreRefusal>
    requires low { 1 ≤ limit }
    requires high { limit ≤ 1099511627776 }
{
    let mut store = make(alloc, disk, limit)?;
    put(alloc, disk, &mut store, FIRST)?;
    remove_first(alloc, disk, &mut store)?;
    Ok(store)
}

/// Returns whether the second entry of an archive is the removal of the first mail, as git spells it,
/// at an offset of its epoch's file.
fn has_removal(store: &Store, epoch: u32) -> bool {
    let Some(line) = store.entry(1) else {
        return false;
    };
    let named = line.kind == EntryKind::Deletion && line.number == 1 && line.epoch == epoch;
    let blob = Some(line.blob) == id_of_hex(FIRST_ID, Form::Sha1);
    let sized = line.secs == LATER && line.size == 103;
    named && blob && sized && store.entry(2).is_none() && store.next_number() == 2
}

/// Returns whether the removal of the first mail has the commit that git gives it, after that of the
/// mail.
fn has_commit(store: &Store) -> bool {
    let Some(line) = store.entry(1) else {
        return false;
    };
    let place = store.place(1) == Some((FIRST_EPOCH, 316));
    place && Some(line.commit) == id_of_hex(REMOVAL_COMMIT, Form::Sha1)
}

/// Removes a message whose epoch takes one more entry, and returns whether the removal is that, and
/// neither a number nor a record is taken.
fn remove_in_epoch<D: Disk>(alloc: Global, disk: &mut D) -> Result<bool, StoreRefusal> {
    let store = removed(alloc, disk, 1000)?;
    let is_long = disk.length(FIRST_EPOCH)? == 672 && disk.length(MAP)? == 28;
    Ok(is_long && has_removal(&store, 0) && has_commit(&store))
}

#[test]
fn a_removal_follows_the_message_in_its_epoch(rt: HostRuntime) -> Result<(), Fail> {
    let mut disk = empty_disk(rt.alloc());
    assert!(rt; remove_in_epoch(rt.alloc(), &mut disk)?);
    Ok(())
}

/// Removes a message whose epoch is full, and returns whether the removal begins the next one.
fn remove_after_epoch<D: Disk>(alloc: Global, disk: &mut D) -> Result<bool, StoreRefusal> {
    let store = removed(alloc, disk, 316)?;
    let is_long = disk.length(FIRST_EPOCH)? == 316 && disk.length(SECOND_EPOCH)? == 316;
    let place = store.place(1) == Some((SECOND_EPOCH, 8));
    Ok(is_long && has_removal(&store, 1) && place && disk.length(MAP)? == 28)
}

#[test]
fn a_removal_begins_an_epoch_where_the_last_is_full(rt: HostRuntime) -> Result<(), Fail> {
    let mut disk = empty_disk(rt.alloc());
    assert!(rt; remove_after_epoch(rt.alloc(), &mut disk)?);
    Ok(())
}

/// Returns whether bytes, after another byte, are those of the first epoch of an archive in memory
/// from which the first mail was removed.
fn is_epoch_in_memory(alloc: Global, bytes: &[u8]) -> Result<bool, NoMemory> {
    let Some(mut archive) = in_memory(alloc, 1000, 10, false) else {
        return Ok(false);
    };
    let _ = archive.command(&Command::Deliver(FIRST), MOMENT);
    let _ = archive.command(&Command::Remove(1), LATER);
    is_epoch_of(alloc, &archive, 0, true, bytes)
}

/// Removes a message, and returns whether the file of its epoch has the bytes of the archive in
/// memory.
fn is_epoch_file<D: Disk>(alloc: Global, disk: &mut D) -> Result<bool, TextRefusal> {
    let mut file = [0; 673];
    let count = disk.read(FIRST_EPOCH, 0, &mut file)?;
    let mut bytes = Bytes::new(alloc);
    bytes.push(b'>')?;
    bytes.push_slice(file.split_at(672).0)?;
    let same = is_epoch_in_memory(alloc, bytes.as_slice())?;
    Ok(count == 672 && same)
}

#[test]
fn the_file_of_a_removal_has_the_bytes_of_the_epoch(rt: HostRuntime) -> Result<(), Fail> {
    let mut disk = empty_disk(rt.alloc());
    removed(rt.alloc(), &mut disk, 1000)?;
    assert!(rt; is_epoch_file(rt.alloc(), &mut disk)?);
    Ok(())
}

/// The deletion of the first mail.
const GONE: Entry = Entry(EntryKind::Deletion, FIRST);

/// The first mail.
const CAME: Entry = Entry(EntryKind::Message, FIRST);

/// A mail that was removed and delivered again, and removed again in another epoch, after which its
/// id is another mail's.
static COMES_AGAIN: Case = Case {
    records: &[Line(0, FIRST), Line(0, FIRST), Line(1, OTHER)],
    first: &[CAME, GONE, CAME],
    second: &[GONE, Entry(EntryKind::Message, OTHER)],
    outcome: Outcome::Joined(5),
};

/// The entries of that mail and of the other one.
const PLACED: [Placed; 5] = [
    Placed {
        number: 1,
        epoch: 0,
        at: 8,
    },
    Placed {
        number: 1,
        epoch: 0,
        at: 316,
    },
    Placed {
        number: 2,
        epoch: 0,
        at: 672,
    },
    Placed {
        number: 2,
        epoch: 1,
        at: 8,
    },
    Placed {
        number: 3,
        epoch: 1,
        at: 316,
    },
];

#[test]
fn a_deletion_has_the_number_of_the_live_message(rt: HostRuntime) -> Result<(), Fail> {
    assert!(rt; is_opened_so(rt.alloc(), &COMES_AGAIN)?);
    assert!(rt; opens_with(rt.alloc(), &COMES_AGAIN, &PLACED)?);
    Ok(())
}

/// Archives with deletions, of which each entry belongs where it stands.
static WELL: [Case; 3] = [
    // The first of two messages is gone, and so is the second.
    Case {
        records: &[Line(0, FIRST), Line(0, SECOND)],
        first: &[CAME, Entry(EntryKind::Message, SECOND), GONE],
        second: &[Entry(EntryKind::Deletion, SECOND)],
        outcome: Outcome::Joined(4),
    },
    // One blob stands twice, in two epochs, with the same text.
    Case {
        records: &[Line(0, FIRST), Line(1, FIRST)],
        first: &[CAME, GONE],
        second: ONE,
        outcome: Outcome::Joined(3),
    },
    // A number without a message is between the two.
    Case {
        records: &[Line(0, FIRST), Line(4_294_967_295, b""), Line(0, FIRST)],
        first: &[CAME, GONE, CAME],
        second: &[],
        outcome: Outcome::Joined(3),
    },
];

#[test]
fn what_is_no_damage_is_opened(rt: HostRuntime) -> Result<(), Fail> {
    for (index, case) in WELL.iter().enumerate() {
        assert!(rt; is_opened_so(rt.alloc(), case)?, "row {index}");
    }
    Ok(())
}

/// Archives with an entry that doesn't belong where it stands.
static DAMAGED: [Case; 7] = [
    // Deletions without a live message: of a text that isn't there, of a text that comes later, of one
    // that was removed before, and of one that was removed in another epoch.
    Case {
        records: &[Line(0, FIRST)],
        first: &[CAME, Entry(EntryKind::Deletion, THIRD)],
        second: &[],
        outcome: Outcome::Damaged { epoch: 0, at: 316 },
    },
    Case {
        records: &[Line(1, FIRST)],
        first: &[GONE],
        second: ONE,
        outcome: Outcome::Damaged { epoch: 0, at: 8 },
    },
    Case {
        records: &[Line(0, FIRST), Line(1, SECOND)],
        first: &[CAME, GONE, GONE],
        second: &[Entry(EntryKind::Message, SECOND)],
        outcome: Outcome::Damaged { epoch: 0, at: 672 },
    },
    Case {
        records: &[Line(0, FIRST)],
        first: &[CAME, GONE],
        second: &[GONE],
        outcome: Outcome::Damaged { epoch: 1, at: 8 },
    },
    // A deletion of another text with the own id of the live message.
    Case {
        records: &[Line(0, FIRST)],
        first: &[CAME, Entry(EntryKind::Deletion, OTHER)],
        second: &[],
        outcome: Outcome::Damaged { epoch: 0, at: 316 },
    },
    // A message whose own id is that of a live one, which was delivered again: another text, and the
    // same one.
    Case {
        records: &[Line(0, FIRST), Line(0, FIRST), Line(0, OTHER)],
        first: &[CAME, GONE, CAME, Entry(EntryKind::Message, OTHER)],
        second: &[],
        outcome: Outcome::Damaged { epoch: 0, at: 1028 },
    },
    Case {
        records: &[Line(0, FIRST), Line(0, FIRST), Line(1, FIRST)],
        first: &[CAME, GONE, CAME],
        second: ONE,
        outcome: Outcome::Damaged { epoch: 1, at: 8 },
    },
];

/// Opens a disk that is damaged in an epoch of generation 1, and returns whether that is refused and
/// leaves each file as it was.
fn is_left(alloc: Global, disk: &mut MemDisk, case: &Case) -> Result<bool, Fail> {
    let Outcome::Damaged { epoch: number, at } = case.outcome else {
        return Ok(false);
    };
    let file = epoch(number, if at == 0 { 0 } else { 1 });
    is_refused(alloc, disk, &OpenRefusal::Damaged { file, at })
}

/// Writes an archive with an entry that doesn't belong where it stands, and opens it.
fn is_damage(alloc: Global, case: &Case) -> Result<bool, Fail> {
    let mut disk = written(alloc, case)?;
    is_left(alloc, &mut disk, case)
}

#[test]
fn the_first_wrong_deletion_or_message_is_found_and_left(rt: HostRuntime) -> Result<(), Fail> {
    for (index, case) in DAMAGED.iter().enumerate() {
        assert!(rt; is_damage(rt.alloc(), case)?, "row {index}");
    }
    Ok(())
}
