//! Archives whose map and two epochs are written by hand, and what their opening makes of them:
//! which entries belong to which records.
ghost use Rattle.std.specs.Prelude.{ℕ, false, Ok};
ghost use Rattle.epoch_file.specs.declared.entry.Seen.{Seen};
ghost use Rattle.store_finding.specs.Joined.{JoinedEntries, JoinsOne, OfJoined};

use crate::making_tests::{MAP, ROOT, epoch, make};
use arch_base::{Form, ObjectId};
use arch_model::OpenRefusal;
use disk_model::{Disk, DiskFault, FileKind, MemDisk};
use epoch_file::{NewEntry, StoreRefusal};
use epoch_store::Store;
use fixtures::{FIRST, MOMENT, OTHER, SECOND, THIRD, add_entry, empty_disk, write};
use git_objects::{EntryKind, blob_id};
use mail_commits::text_ids;
use number_map::{Record, append};
use std::alloc::Global;
use std::test::Fail;
use store_finding::StoredEntry;

/// The epoch of a number that has no message.
const NONE: u32 = 4_294_967_295;

/// A record: the epoch and the text of its message.
#[derive(Drop)]
pub(crate) struct Line(pub(crate) u32, pub(crate) &'static [u8]);

/// An entry: its kind and its text.
#[derive(Drop)]
pub(crate) struct Entry(pub(crate) EntryKind, pub(crate) &'static [u8]);

/// What an opening finds.
#[derive(PartialEq, Eq, Drop)]
pub(crate) enum Outcome {
    /// This many entries.
    Joined(usize),
    /// Damage at an offset in an epoch.
    Damaged { epoch: u32, at: u64 },
}

/// An archive, by its records and the entries of the epochs 0 and 1, and what its opening finds.
#[derive(Drop)]
pub(crate) struct Case {
    pub(crate) records: &'static [Line],
    pub(crate) first: &'static [Entry],
    pub(crate) second: &'static [Entry],
    pub(crate) outcome: Outcome,
}

/// Returns the record of a number.
fn record(number: u32, Line(epoch, text): &Line) -> Record {
    let blob = if *epoch == NONE {
        ObjectId::Sha1([0; 20])
    } else {
        blob_id(text, Form::Sha1)
    };
    Record {
        number,
        epoch: *epoch,
        blob,
    }
}

/// Appends a record to the map.
fn add_record(disk: &mut MemDisk, number: u32, line: &Line) -> Result<(), DiskFault> {
    let at = disk.length(MAP)?;
    if at > 1 << 40 {
        return Err(DiskFault);
    }
    append(disk, MAP, at, &record(number, line))
}

/// Appends the records of the numbers from 1 on to the map, and returns the next number.
fn add_records(disk: &mut MemDisk, lines: &[Line]) -> Result<u32, DiskFault> {
    let mut number = 1u32;
    for line in lines {
        add_record(disk, number, line)?;
        number = number.saturating_add(1);
    }
    Ok(number)
}

/// Writes the file of an epoch, of generation 1, and returns its length.
fn write_epoch(
    alloc: Global,
    disk: &mut MemDisk,
    number: u32,
    entries: &[Entry],
) -> Result<u64, StoreRefusal> {
    let mut end = 0;
    let mut parent = None;
    for Entry(kind, text) in entries {
        let new = NewEntry {
            kind: *kind,
            text,
            ids: text_ids(text, Form::Sha1),
            moment: MOMENT,
            parent,
            form: Form::Sha1,
        };
        let written = add_entry(alloc, disk, epoch(number, 1), end, &new)?;
        end = written.end;
        parent = Some(written.commit);
    }
    Ok(end)
}

/// The offsets in the root file of fields of the first slot: the next number, the length of the map, and
/// the generation and the length of the first two epochs.
const NEXT_AT: u64 = 1024 + 95;

const MAP_AT: u64 = 1024 + 107;

const FIRST_AT: u64 = 1024 + 115;

const SECOND_AT: u64 = 1024 + 131;

/// Has the root in the first slot name so many bytes of an epoch, whose fields are at this offset.
fn name_epoch(disk: &mut MemDisk, at: u64, length: u64) -> Result<(), DiskFault> {
    let generation = if length == 0 { 0u64 } else { 1u64 };
    write(disk, ROOT, at, &generation.to_be_bytes())?;
    write(disk, ROOT, at.saturating_add(8), &length.to_be_bytes())
}

/// Has the root in the first slot name the records below a number.
fn name_map(disk: &mut MemDisk, next: u32) -> Result<(), DiskFault> {
    let length = (next as u64).saturating_sub(1).saturating_mul(28);
    write(disk, ROOT, NEXT_AT, &next.to_be_bytes())?;
    write(disk, ROOT, MAP_AT, &length.to_be_bytes())
}

/// Returns the disk of an archive that is written by hand.
pub(crate) fn written(alloc: Global, case: &Case) -> Result<MemDisk, StoreRefusal> {
    let mut disk = empty_disk(alloc);
    make(alloc, &mut disk, 316)?;
    write_case(alloc, &mut disk, case)?;
    Ok(disk)
}

/// Writes the map and the epochs of an archive, and names them in its root, which named none.
fn write_case(alloc: Global, disk: &mut MemDisk, case: &Case) -> Result<(), StoreRefusal> {
    let next = add_records(disk, case.records)?;
    let first = write_epoch(alloc, disk, 0, case.first)?;
    let second = write_epoch(alloc, disk, 1, case.second)?;
    name_map(disk, next)?;
    name_epoch(disk, FIRST_AT, first)?;
    name_epoch(disk, SECOND_AT, second)?;
    Ok(())
}

/// Returns what the opening of a disk finds.
fn opened(alloc: Global, disk: &mut MemDisk) -> Result<Outcome, OpenRefusal> {
    match Store::open(alloc, disk) {
        Ok((store, _index)) => Ok(Outcome::Joined(store.stored().len())),
        Err(OpenRefusal::Damaged { file, at }) if file.kind == FileKind::Epoch => {
            Ok(Outcome::Damaged {
                epoch: file.number,
                at,
            })
        }
        Err(refusal) => Err(refusal),
    }
}

/// The number, the epoch and the offset of an entry.
#[derive(Drop)]
pub(crate) struct Placed {
    pub(crate) number: u32,
    pub(crate) epoch: u32,
    pub(crate) at: u64,
}

/// Returns whether entries have these numbers, epochs and offsets.
fn are_placed(entries: &[StoredEntry], wanted: &[Placed]) -> bool {
    if entries.len() != wanted.len() {
        return false;
    }
    for (entry, placed) in entries.iter().zip(wanted) {
        let there = entry.epoch == placed.epoch && entry.seen.at == placed.at;
        if entry.number != placed.number || !there {
            return false;
        }
    }
    true
}

/// Returns whether the opening of an archive finds entries with these numbers, epochs and offsets.
pub(crate) fn opens_with(alloc: Global, case: &Case, wanted: &[Placed]) -> Result<bool, Fail> {
    let mut disk = written(alloc, case)?;
    let (store, _index) = Store::open(alloc, &mut disk)?;
    Ok(are_placed(store.stored(), wanted))
}

/// An entry, alone and before another one.
pub(crate) const ONE: &[Entry] = &[Entry(EntryKind::Message, FIRST)];

const TWO: &[Entry] = &[
    Entry(EntryKind::Message, FIRST),
    Entry(EntryKind::Message, SECOND),
];

/// Records of three messages, with a number without a message after the first and after the last.
static WITH_GAPS: Case = Case {
    records: &[
        Line(0, FIRST),
        Line(NONE, b""),
        Line(0, SECOND),
        Line(1, THIRD),
        Line(NONE, b""),
    ],
    first: TWO,
    second: &[Entry(EntryKind::Message, THIRD)],
    outcome: Outcome::Joined(3),
};

/// The entries of those messages.
const PLACED: [Placed; 3] = [
    Placed {
        number: 1,
        epoch: 0,
        at: 8,
    },
    Placed {
        number: 3,
        epoch: 0,
        at: 316,
    },
    Placed {
        number: 4,
        epoch: 1,
        at: 8,
    },
];

#[test]
fn entries_get_the_numbers_of_the_records_that_have_a_message(rt: HostRuntime) -> Result<(), Fail> {
    assert!(rt; is_opened_so(rt.alloc(), &WITH_GAPS)?);
    assert!(rt; opens_with(rt.alloc(), &WITH_GAPS, &PLACED)?);
    Ok(())
}

/// Returns whether the opening of an archive finds what it should.
pub(crate) fn is_opened_so(alloc: Global, case: &Case) -> Result<bool, Fail> {
    let mut disk = written(alloc, case)?;
    let outcome = opened(alloc, &mut disk)?;
    Ok(outcome == case.outcome)
}

/// Archives whose entries should each be the next of the map.
static WANTED: [Case; 9] = [
    // All is well: no entry, and one in the epoch 1.
    Case {
        records: &[],
        first: &[],
        second: &[],
        outcome: Outcome::Joined(0),
    },
    Case {
        records: &[Line(NONE, b""), Line(1, FIRST)],
        first: &[],
        second: ONE,
        outcome: Outcome::Joined(1),
    },
    // Another epoch, another blob, a deletion, and no record.
    Case {
        records: &[Line(1, FIRST)],
        first: ONE,
        second: &[],
        outcome: Outcome::Damaged { epoch: 0, at: 8 },
    },
    Case {
        records: &[Line(0, FIRST)],
        first: &[],
        second: ONE,
        outcome: Outcome::Damaged { epoch: 1, at: 8 },
    },
    Case {
        records: &[Line(0, SECOND)],
        first: ONE,
        second: &[],
        outcome: Outcome::Damaged { epoch: 0, at: 8 },
    },
    Case {
        records: &[Line(0, FIRST)],
        first: &[Entry(EntryKind::Deletion, FIRST)],
        second: &[],
        outcome: Outcome::Damaged { epoch: 0, at: 8 },
    },
    Case {
        records: &[],
        first: ONE,
        second: &[],
        outcome: Outcome::Damaged { epoch: 0, at: 8 },
    },
    // The records in another order, and another record for the second entry.
    Case {
        records: &[Line(0, SECOND), Line(0, FIRST)],
        first: TWO,
        second: &[],
        outcome: Outcome::Damaged { epoch: 0, at: 8 },
    },
    Case {
        records: &[Line(0, FIRST), Line(0, THIRD)],
        first: TWO,
        second: &[],
        outcome: Outcome::Damaged { epoch: 0, at: 316 },
    },
];

#[test]
fn the_first_entry_that_does_not_belong_there_is_found(rt: HostRuntime) -> Result<(), Fail> {
    for (index, case) in WANTED.iter().enumerate() {
        assert!(rt; is_opened_so(rt.alloc(), case)?, "row {index}");
    }
    Ok(())
}

/// Archives whose entries should have ids of their own and be as many as the records.
static OWN: [Case; 7] = [
    // One live own id in two epochs and in one, one text in two, and none of these.
    Case {
        records: &[Line(0, FIRST), Line(1, OTHER)],
        first: ONE,
        second: &[Entry(EntryKind::Message, OTHER)],
        outcome: Outcome::Damaged { epoch: 1, at: 8 },
    },
    Case {
        records: &[Line(0, FIRST), Line(0, OTHER)],
        first: &[
            Entry(EntryKind::Message, FIRST),
            Entry(EntryKind::Message, OTHER),
        ],
        second: &[],
        outcome: Outcome::Damaged { epoch: 0, at: 316 },
    },
    Case {
        records: &[Line(0, FIRST), Line(1, FIRST)],
        first: ONE,
        second: ONE,
        outcome: Outcome::Damaged { epoch: 1, at: 8 },
    },
    Case {
        records: &[Line(0, FIRST), Line(1, SECOND)],
        first: ONE,
        second: &[Entry(EntryKind::Message, SECOND)],
        outcome: Outcome::Joined(2),
    },
    // A record more than there are entries: the damage is at the end of its epoch.
    Case {
        records: &[Line(0, FIRST), Line(1, SECOND)],
        first: ONE,
        second: &[],
        outcome: Outcome::Damaged { epoch: 1, at: 0 },
    },
    Case {
        records: &[Line(63, FIRST)],
        first: &[],
        second: &[],
        outcome: Outcome::Damaged { epoch: 63, at: 0 },
    },
    Case {
        records: &[Line(1, FIRST), Line(0, SECOND)],
        first: &[],
        second: ONE,
        outcome: Outcome::Damaged { epoch: 0, at: 0 },
    },
];

/// An entry with the blob id of an earlier one and another text isn't joined, whatever it is.
///
/// No file can show this, since no two texts of one blob id are known.
fn a_blob_id_has_one_text()
    ensures { (old new : JoinedEntries) (epoch : ℕ) (seen : Seen)
        → JoinsOne old epoch seen false (Ok new) → OfJoined old (λ of entries. ⊥) }
{}

#[test]
fn an_id_stands_once_and_each_message_has_an_entry(rt: HostRuntime) -> Result<(), Fail> {
    a_blob_id_has_one_text();
    for (index, case) in OWN.iter().enumerate() {
        assert!(rt; is_opened_so(rt.alloc(), case)?, "row {index}");
    }
    Ok(())
}
