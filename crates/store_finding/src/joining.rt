//! Joins the entries of the epochs to the records of the map.
//! Reads the disk.
ghost use Rattle.std.specs.Prelude.{◌≡◌, ◌≢◌, ◌+◌, ◌<◌, ◌≤◌, ℕ, List, [], true, Err, IfOk, IfErr, OnOk};
ghost use Rattle.arch_base.specs.Counts.{Rose};
ghost use Rattle.arch_base.specs.declared.ids.Form.{Form};
ghost use Rattle.disk_model.specs.Disk.{WhereTold, bytes_of};
ghost use Rattle.disk_model.specs.Sizes.{epoch_count, greatest_epoch};
ghost use Rattle.store_finding.specs.Damage.{messages, named_length};
ghost use Rattle.store_finding.specs.Extents.{AreNamed};
ghost use Rattle.git_objects.specs.declared.entry_kind.EntryKind.TheVariants.{Message, Deletion};
ghost use Rattle.number_map.specs.Records.{AreRecordsFrom};
ghost use Rattle.number_map.specs.declared.line.Record.{Record};
ghost use Rattle.epoch_file.specs.Forms.{HaveIdsOf};
ghost use Rattle.epoch_file.specs.Lying.{LieIn};
ghost use Rattle.epoch_file.specs.Runs.{OnlyReads};
ghost use Rattle.store_finding.specs.Files.{as_read, epoch_file_of};
ghost use Rattle.store_finding.specs.StoredIds.{AreOfForm};
ghost use Rattle.store_finding.specs.Joined.{OfJoined, Wants, IsGrown, IsMessageOf, IsRecorded, IsWantedRecord, EndedBy, JoinsOne, AreBefore, ComparesText, JoinsByText, TakesEpoch, FinishesJoin, TextIn, places_with, with_seen};
ghost use Rattle.store_finding.specs.declared.join_refusal.JoinRefusal.{JoinRefusal};

use crate::entries::StoredEntry;
use crate::indexing::{IndexedEntries, take_entry};
use crate::join_refusal::{JoinRefusal, Unmatched};
use crate::read_refusal::ReadRefusal;
use crate::reading::read_text;
use arch_base::NoMemory;
use arch_judge::Index;
use disk_model::{Disk, EPOCHS};
use epoch_file::{Seen, SeenList};
use git_objects::EntryKind;
use number_map::{Record, Records};
use root_change::epoch_file;
use root_slots::Root;
use std::alloc::{AllocError, Global};
use std::marker::Model;

/// The records of a map that have a message, and the entries so far.
///
/// If the disk tells what it holds, the messages among these are those of the first records, in
/// order, the own ids of live entries differ, each deletion ends a live entry, and each blob id has
/// one text. `index` is the index of such entries.
#[derive(Drop)]
pub(crate) struct Joining {
    records: Vec<Record>,
    entries: Vec<StoredEntry>,
    /// The index of the entry of each of the first records.
    places: Vec<usize>,
    index: Index,
}

impl Model for Joining {
    ghost use Rattle.std.specs.Prelude.{◌≡◌, length};
    ghost use Rattle.store_finding.specs.Indexes.{IndexesStored};
    ghost use Rattle.store_finding.specs.Joined.{JoinedEntries, HaveEpochs, IsJoining, message_count};

    ghost Value = { JoinedEntries };

    ghost view = { λ j. record { records = j.records.items; entries = j.entries.items } };

    ghost invariant = { λ j. IndexesStored j.entries.items j.index × HaveEpochs j.records.items
        × (length j.places.items ≡ message_count j.entries.items)
        × IsJoining (record { records = j.records.items; entries = j.entries.items })
        j.places.items j.index };
}

/// Returns the records that have a message.
fn with_message(alloc: Global, records: &[Record]) -> Result<Vec<Record>, AllocError>
    ensures { IfOk result (λ kept. kept.items ≡ messages records.now) }
{
    records
        .iter()
        .copied()
        .filter(|record| record.epoch < EPOCHS)
        .collect(alloc)
}

impl Joining {
    /// Starts with the records of a map, and no entry yet.
    pub(crate) fn new(alloc: Global, records: &Records) -> Result<Joining, NoMemory>
        requires valid { (form : Form) × AreRecordsFrom form 1 records.now }
        ensures records { IfOk result (λ joining. joining.records ≡ messages records.now) }
        ensures entries { IfOk result (λ joining. joining.entries ≡ []) }
    {
        let records = with_message(alloc, records.as_slice())?;
        Ok(Joining {
            records,
            entries: Vec::new(alloc),
            places: Vec::new(alloc),
            index: Index::new(alloc),
        })
    }

    /// Returns the number of the next record if an entry of an epoch is that record's message.
    fn wanted(&self, epoch: u32, seen: &Seen) -> Option<u32>
        ensures { Wants self.now epoch seen.now result }
    {
        let EntryKind::Message = seen.kind else {
            return None;
        };
        let record = self.records.get(self.places.len())?;
        if record.epoch != epoch {
            return None;
        }
        if record.blob != seen.blob {
            return None;
        }
        Some(record.number)
    }

    /// Returns the message of a number that has one among the entries.
    fn message(&self, number: u32) -> &StoredEntry
        requires { (line : Record) × IsRecorded self.now number line }
        ensures of { IsMessageOf self.now.entries number result.now }
        ensures blob { (line : Record) → IsRecorded self.now number line
            → result.now.seen.blob ≡ line.blob }
    {
        let at = self
            .records
            .partition_point(|record| record.number < number);
        let place = self.places[at];
        &self.entries[place]
    }

    /// Returns the number of the live message that a deletion ends, if there is one.
    ///
    /// It has the deletion's own id and its blob id.
    fn ended(&self, seen: &Seen) -> Option<u32>
        requires { seen.now.kind ≡ Deletion }
        ensures { OfJoined self.now (λ form all. EndedBy form all seen.now result) }
    {
        let Some(owner) = self.index.owner(seen.id.as_slice()) else {
            return None;
        };
        let message = self.message(owner.number);
        if message.seen.blob != seen.blob {
            return None;
        }
        Some(owner.number)
    }

    /// Appends an entry, with its message's number.
    fn with_entry(self, number: u32, epoch: u32, seen: Seen) -> Result<Joining, NoMemory>
        requires { seen.kind ≡ Message → IsWantedRecord self epoch seen number }
        ensures { IfOk result (λ joining. joining ≡ with_seen self number epoch seen) }
    {
        let Joining {
            records,
            mut entries,
            mut places,
            mut index,
        } = self;
        let entry = StoredEntry {
            number,
            epoch,
            seen,
        };
        take_entry(*entries.allocator(), &mut index, &entry)?;
        push_place(&mut places, &entry, entries.len())?;
        entries.push(entry)?;
        Ok(Joining {
            records,
            entries,
            places,
            index,
        })
    }

    /// Joins one more message.
    ///
    /// `Damaged` has the entry's offset if it isn't the next record's, or if its own id is live.
    fn take_message(self, epoch: u32, seen: Seen) -> Result<Joining, JoinRefusal>
        requires { seen.kind ≡ Message }
        ensures { JoinsOne self epoch seen true result }
    {
        let at = seen.at;
        let Some(number) = self.wanted(epoch, &seen) else {
            return Err(JoinRefusal::Damaged { at });
        };
        if self.index.owner(seen.id.as_slice()).is_some() {
            return Err(JoinRefusal::Damaged { at });
        }
        Ok(self.with_entry(number, epoch, seen)?)
    }

    /// Joins one more deletion.
    ///
    /// `Damaged` has the entry's offset if no live entry has its blob id.
    fn take_deletion(self, epoch: u32, seen: Seen) -> Result<Joining, JoinRefusal>
        requires { seen.kind ≡ Deletion }
        ensures { JoinsOne self epoch seen true result }
    {
        let at = seen.at;
        match self.ended(&seen) {
            Some(number) => Ok(self.with_entry(number, epoch, seen)?),
            None => Err(JoinRefusal::Damaged { at }),
        }
    }

    /// Joins one more entry, if an older one with its blob id has the same text.
    ///
    /// `Damaged` has the entry's offset if it hasn't, or if the entry can't be the next.
    fn take_one(self, epoch: u32, seen: Seen, same: bool) -> Result<Joining, JoinRefusal>
        ensures { JoinsOne self epoch seen same result }
    {
        if !same {
            return Err(JoinRefusal::Damaged { at: seen.at });
        }
        match seen.kind {
            EntryKind::Message => self.take_message(epoch, seen),
            EntryKind::Deletion => self.take_deletion(epoch, seen),
        }
    }

    /// Returns whether an older entry with the blob id of an entry, if there is one, has the same
    /// text. Both texts are read.
    fn has_same<D: Disk>(
        &self,
        alloc: Global,
        disk: &mut D,
        root: &Root,
        epoch: u32,
        seen: &Seen,
    ) -> Result<bool, JoinRefusal>
        requires small { epoch ≤ greatest_epoch }
        ensures compared { WhereTold (λ k.
            ComparesText root.now self.now epoch seen.now result (as_read k)) (D.content disk.old) }
        ensures reads { OnlyReads D.Disk disk.old disk.new }
        ensures fault { result ≡ Err JoinRefusal.DiskFault
            → Rose (D.faults disk.old) (D.faults disk.new) }
        ensures steady { result ≢ Err JoinRefusal.DiskFault → D.faults disk.new ≡ D.faults disk.old }
    {
        let Some(number) = self.index.number(&seen.blob) else {
            return Ok(true);
        };
        // The number of a blob id is that of a message that has it.
        let older = self.message(number);
        let old = seen_text(alloc, disk, root, older.epoch, &older.seen)?;
        let new = seen_text(alloc, disk, root, epoch, seen)?;
        Ok(old.as_slice() == new.as_slice())
    }

    /// Joins the next entry of an epoch's file.
    fn join_next<D: Disk>(
        self,
        alloc: Global,
        disk: &mut D,
        root: &Root,
        epoch: u32,
        seen: Seen,
    ) -> Result<Joining, JoinRefusal>
        requires small { epoch ≤ greatest_epoch }
        ensures joined { WhereTold (λ k.
            JoinsByText root.now self epoch seen result (as_read k)) (D.content disk.old) }
        ensures below { (most : ℕ) → AreBefore most self.entries → epoch < most
            → IfOk result (λ joining. AreBefore most joining.entries) }
        ensures grown { IfOk result (IsGrown self epoch seen) }
        ensures reads { OnlyReads D.Disk disk.old disk.new }
        ensures fault { result ≡ Err JoinRefusal.DiskFault
            → Rose (D.faults disk.old) (D.faults disk.new) }
        ensures steady { result ≢ Err JoinRefusal.DiskFault → D.faults disk.new ≡ D.faults disk.old }
    {
        match self.has_same(alloc, disk, root, epoch, &seen) {
            Ok(same) => self.take_one(epoch, seen, same),
            Err(refusal) => Err(refusal),
        }
    }

    /// Joins the entries of an epoch's file, in order.
    ///
    /// Epochs are taken one after the other, each at most once.
    ///
    /// `Damaged` comes exactly if an entry can't be the next: a message that isn't that of the map's
    /// next record or whose own id is live, a deletion of what isn't live, or another text of an
    /// older blob id. It has the offset of the first such entry. `DiskFault` comes only if the disk's
    /// count of faults rose, and `NoMemory` only if memory runs out. An error drops everything.
    pub(crate) fn take_epoch<D: Disk>(
        self,
        alloc: Global,
        disk: &mut D,
        root: &Root,
        epoch: u32,
        seen: SeenList,
    ) -> Result<Joining, JoinRefusal>
        requires small { epoch ≤ greatest_epoch }
        requires before { AreBefore epoch self.entries }
        ensures taken { WhereTold (λ k.
            TakesEpoch root.now self epoch seen result (as_read k)) (D.content disk.old) }
        ensures below { IfOk result (λ joining. AreBefore (epoch + 1) joining.entries) }
        ensures named { LieIn 0 (named_length root.now epoch) seen → AreNamed root.now self.entries
            → IfOk result (λ joining. AreNamed root.now joining.entries) }
        ensures ids { HaveIdsOf root.now.config.form seen → AreOfForm root.now.config.form self.entries
            → IfOk result (λ joining. AreOfForm root.now.config.form joining.entries) }
        ensures reads { OnlyReads D.Disk disk.old disk.new }
        ensures fault { result ≡ Err JoinRefusal.DiskFault
            → Rose (D.faults disk.old) (D.faults disk.new) }
        ensures steady { result ≢ Err JoinRefusal.DiskFault → D.faults disk.new ≡ D.faults disk.old }
    {
        let mut joining = self;
        for entry in seen.into_vec() {
            match joining.join_next(alloc, disk, root, epoch, entry) {
                Err(refusal) => return Err(refusal),
                Ok(next) => joining = next,
            }
        }
        Ok(joining)
    }

    /// Returns the entries if each record of the map that has a message has one.
    ///
    /// Otherwise returns the epoch of the first message without an entry.
    pub(crate) fn finish(self) -> Result<IndexedEntries, Unmatched>
        ensures finished { FinishesJoin self result }
        ensures kept { IfOk result (λ kept. kept ≡ self.entries) }
        ensures small { IfErr result (λ refusal. refusal.epoch < epoch_count) }
    {
        let Joining {
            records,
            entries,
            places,
            index,
        } = self;
        match records.get(places.len()) {
            None => Ok(IndexedEntries { entries, index }),
            Some(record) => Err(Unmatched {
                epoch: record.epoch,
            }),
        }
    }
}

/// Appends the index of an entry, if that is a message.
fn push_place(places: &mut Vec<usize>, entry: &StoredEntry, index: usize) -> Result<(), NoMemory>
    ensures { OnOk result (places.new.items
        ≡ places_with entry.now.seen.kind places.old.items index) }
{
    if let EntryKind::Message = entry.seen.kind {
        places.push(index)?;
    }
    Ok(())
}

/// Reads the text of an entry of an epoch.
fn seen_text<D: Disk>(
    alloc: Global,
    disk: &mut D,
    root: &Root,
    epoch: u32,
    seen: &Seen,
) -> Result<Vec<u8>, JoinRefusal>
    ensures text { IfOk result (λ text. WhereTold (λ k. (read : List ℕ)
        → TextIn (bytes_of (as_read k (epoch_file_of root.now epoch))) seen.now read
        → text.items ≡ read) (D.content disk.old)) }
    ensures never { (at : ℕ) → result ≢ Err (JoinRefusal.Damaged at) }
    ensures reads { OnlyReads D.Disk disk.old disk.new }
    ensures fault { result ≡ Err JoinRefusal.DiskFault
        → Rose (D.faults disk.old) (D.faults disk.new) }
    ensures steady { result ≢ Err JoinRefusal.DiskFault → D.faults disk.new ≡ D.faults disk.old }
{
    let generation = match root.epochs.get(epoch as usize) {
        Some(place) => place.generation,
        None => 0,
    };
    match read_text(
        alloc,
        disk,
        epoch_file(epoch, generation),
        seen.text_at,
        seen.size,
    ) {
        Ok(text) => Ok(text),
        Err(ReadRefusal::DiskFault) => Err(JoinRefusal::DiskFault),
        Err(ReadRefusal::NoMemory) => Err(JoinRefusal::NoMemory),
    }
}
