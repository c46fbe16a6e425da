//! The archive on a disk, as it is kept in memory.
//! Writes the disk; syncs.
ghost use Rattle.std.specs.Prelude.{◌≡◌, ◌≤◌, ◌<◌, ◌+◌, ◌-◌, ◌^◌, List, Err, Some, None, IsSome, IfOk, OnOk, ◌==◌, if◌then◌else◌, decimal, length};
ghost use Rattle.disk_model.specs.Disk.{BothTold, WhereTold};
ghost use Rattle.disk_model.specs.Sizes.{greatest_epoch};
ghost use Rattle.mail_reader.specs.Ids.{own_id as own_id_in};
ghost use Rattle.mail_reader.specs.Content.{content_id_of};
ghost use Rattle.git_objects.specs.Objects.{blob_id_of};
ghost use Rattle.mail_commits.specs.Ids.{text_ids_of};
ghost use Rattle.arch_model.specs.Archives.{Archive, Entry};
ghost use Rattle.arch_base.specs.Moments.{last_moment};
ghost use Rattle.epoch_file.specs.Appending.{written_of};
ghost use Rattle.epoch_file.specs.Lying.{EntryLiesIn};
ghost use Rattle.root_slots.specs.Valid.{IsRoot};
ghost use Rattle.arch_base.specs.Configs.{IsConfig};
ghost use Rattle.store_finding.specs.Extents.{AreUpToEpoch};
ghost use Rattle.epoch_store.specs.declared.refusal.InitRefusal.{InitRefusal};
ghost use Rattle.epoch_store.specs.Promises.{AddsMessage, Appends, ChangesStore, EndsMessage, MakesArchive};
ghost use Rattle.epoch_store.specs.Entering.{Enters, EntersEntry, numbers_by};
ghost use Rattle.store_finding.specs.Kept.{KeepsArchive, stored_at};
ghost use Rattle.store_planning.specs.Dropping.{IsStoreEnd};
ghost use Rattle.epoch_store.specs.Commands.{IsNextPlace, next_sequence, place_of, StoreHasSizes, Accepts, MayEnd, AddsEntry, EntriesEndAt, EndsEntry};

use crate::first::{all_names, first_root, make, no_archive};
use crate::refusal::InitRefusal;
use crate::writing::write_entry;
use arch_base::{Bytes, Config, NoMemory, ObjectId};
use disk_model::{Disk, LAST_EPOCH};
use epoch_file::{NewEntry, Seen, StoreRefusal, Written};
use git_objects::EntryKind;
use itoa::Buffer;
use mail_commits::TextIds;
use mail_reader::own_id;
use root_slots::{Root, Slot, root_fits};
use std::alloc::Global;
use std::marker::Model;
use store_finding::StoredEntry;
use store_planning::{End, NextPlace};

/// The length from which on a file takes no further entry. The result is then `NoMemory`.
pub(crate) const MOST: u64 = 1 << 62;

/// The archive on a disk.
///
/// Keeps the current root, and each entry without its text. Its contract view is what it keeps.
///
/// A call that writes needs files of at least the sizes that the root names, as every call leaves them
/// at which the disk didn't fail. What such a call promises of archives holds while the sequence of
/// the root is below 2^64 - 1. Each `Ok` raises it by one.
#[derive(Drop)]
pub struct Store {
    pub(crate) root: Root,
    pub(crate) slot: Slot,
    pub(crate) entries: Vec<StoredEntry>,
}

impl Model for Store {
    ghost use Rattle.root_slots.specs.Slots.{slot_number};
    ghost use Rattle.root_slots.specs.Valid.{IsRoot};
    ghost use Rattle.store_finding.specs.Extents.{AreNamed};
    ghost use Rattle.store_finding.specs.Kept.{StoreState, InEpochs};

    ghost Value = { StoreState };

    ghost view = { λ s.
        record { root = s.root; slot = slot_number s.slot; entries = s.entries.items } };

    ghost invariant = { λ s. IsRoot s.root × InEpochs s.entries.items
        × AreNamed s.root s.entries.items };
}

impl Store {
    /// Creates an archive without entries on a disk without an open slot.
    ///
    /// Removes all files and creates a root file with the first root, of sequence 1. At each moment
    /// a crash leaves what it might have left before; if no slot was open, it may also leave no
    /// open slot, or the archive.
    ///
    /// `Exists` comes exactly if a slot is open, and then nothing is written. `DiskFault` comes
    /// only if the disk's count of faults rose, and `NoMemory` only if memory runs out, before
    /// anything is written.
    pub fn init<D: Disk>(alloc: Global, disk: &mut D, config: &Config) -> Result<Store, InitRefusal>
        requires config { IsConfig config.now }
        ensures made { MakesArchive D.Disk disk.old disk.new
            config.now result }
    {
        no_archive(disk)?;
        let names = all_names(alloc, disk)?;
        let root = first_root(config);
        make(disk, names.as_slice(), &root)?;
        Ok(Store {
            root,
            slot: Slot::First,
            entries: Vec::new(alloc),
        })
    }

    /// Returns the last epoch that has an entry, and its last commit.
    fn end(&self) -> End
        ensures small { result.epoch ≤ greatest_epoch }
        ensures last { AreUpToEpoch result.epoch self.now.entries }
        ensures end { (a : Archive) → KeepsArchive self.now a → IsStoreEnd a result }
    {
        match self.entries.last() {
            None => End {
                epoch: 0,
                parent: None,
            },
            Some(entry) => End {
                epoch: entry.epoch,
                parent: Some(entry.seen.commit),
            },
        }
    }

    /// Returns where the next entry is written.
    fn next_place(&self) -> NextPlace
        ensures small { result.epoch ≤ greatest_epoch }
        ensures last { AreUpToEpoch result.epoch self.now.entries }
        ensures place { result ≡ place_of self.now.root result.epoch result.parent }
        ensures next { (a : Archive) → KeepsArchive self.now a
            → IsNextPlace self.now.root a (next_sequence self.now.root.sequence) result }
    {
        let end = self.end();
        let place = self.root.epochs[end.epoch as usize];
        if end.epoch == LAST_EPOCH || place.length < self.root.config.limit {
            return self.place_in(end.epoch, end.parent);
        }
        self.place_in(end.epoch + 1, None)
    }

    /// Returns where the next entry of an epoch with this last commit is written.
    fn place_in(&self, epoch: u32, parent: Option<ObjectId>) -> NextPlace
        requires { epoch ≤ greatest_epoch }
        ensures { result ≡ place_of self.now.root epoch parent }
    {
        let place = self.root.epochs[epoch as usize];
        let generation = if place.length == 0 {
            self.root.sequence.saturating_add(1)
        } else {
            place.generation
        };
        NextPlace {
            epoch,
            generation,
            length: place.length,
            parent,
        }
    }

    /// Returns what is kept of a new entry that was written.
    pub(crate) fn new_entry(
        &self,
        place: &NextPlace,
        number: u32,
        entry: &NewEntry<'_>,
        written: &Written,
        id: Bytes,
    ) -> StoredEntry
        requires written { written.now ≡ written_of place.now.length entry.now }
        requires short { place.now.length < 2 ^ 62 }
        requires parent { entry.now.parent ≡ place.now.parent }
        requires form { entry.now.form ≡ self.now.root.config.form }
        requires ids { entry.now.ids ≡ text_ids_of self.now.root.config.form entry.now.text.now }
        requires id { own_id_in entry.now.text.now ≡ Some id }
        ensures lies { EntryLiesIn place.now.length written.now.end result.seen }
        ensures epoch { result.epoch ≡ place.now.epoch }
        ensures number { result.number ≡ number }
        ensures kind { result.seen.kind ≡ entry.now.kind }
        ensures moment { result.seen.moment ≡ entry.now.moment }
        ensures id { result.seen.id ≡ id }
        ensures blob { result.seen.blob ≡ blob_id_of self.now.root.config.form entry.now.text.now }
        ensures content { result.seen.content ≡ content_id_of entry.now.text.now }
        ensures stored { (a : Archive) → KeepsArchive self.now a
            → IsNextPlace self.now.root a (next_sequence self.now.root.sequence) place.now
            → result ≡ stored_at a.config.form a.entries (record {
              kind = entry.now.kind;
              number = number;
              epoch = place.now.epoch;
              text = entry.now.text.now;
              moment = entry.now.moment;
            }) }
        // The same after any entries that end where it is written.
        ensures after { (before : List Entry) → EntriesEndAt self.now.root.config.form before place.now
            → result ≡ stored_at self.now.root.config.form before (record {
              kind = entry.now.kind;
              number = number;
              epoch = place.now.epoch;
              text = entry.now.text.now;
              moment = entry.now.moment;
            }) }
    {
        let at = entry_offset(place.length);
        StoredEntry {
            number,
            epoch: place.epoch,
            seen: Seen {
                kind: entry.kind,
                at,
                text_at: at + blob_front_len(entry.text.len()),
                size: entry.text.len() as u64,
                blob: written.blob,
                commit: written.commit,
                moment: entry.moment,
                id,
                content: entry.ids.content,
            },
        }
    }

    /// Writes a new entry and keeps it: a message with the next number, or the deletion of a number.
    fn enter<D: Disk>(
        &mut self,
        alloc: Global,
        disk: &mut D,
        kind: EntryKind,
        number: u32,
        text: &[u8],
        ids: &TextIds,
        moment: u64,
    ) -> Result<(), StoreRefusal>
        requires id { IsSome (own_id_in text.now) }
        requires left { self.old.root.next + numbers_by kind ≤ 2147483648 }
        requires ids { ids.now ≡ text_ids_of self.old.root.config.form text.now }
        requires moment { moment ≤ last_moment }
        requires sizes { WhereTold (StoreHasSizes self.old) (D.content disk.old) }
        ensures changes { ChangesStore D.Disk disk.old disk.new
            self.old self.new Appends (Enters kind number text.now moment) result }
        ensures entered { OnOk result (EntersEntry kind number text.now self.old self.new) }
    {
        let place = self.next_place();
        if place.length >= MOST {
            // No disk has so many bytes.
            return Err(StoreRefusal::NoMemory);
        }
        let id = own_id_of(alloc, text)?;
        let Ok(()) = self.entries.reserve(1) else {
            return Err(StoreRefusal::NoMemory);
        };
        let entry = NewEntry {
            kind,
            text,
            ids: *ids,
            moment,
            parent: place.parent,
            form: self.root.config.form,
        };
        root_fits(&self.root);
        let free = self.slot.other();
        let (root, written) = write_entry(alloc, disk, &self.root, free, &place, &entry)?;
        let stored = self.new_entry(&place, number, &entry, &written, id);
        // There is room for it.
        let _ = self.entries.push(stored);
        self.root = root;
        self.slot = free;
        Ok(())
    }

    /// Appends a message: its text, which has these ids, takes the next number, at a moment in seconds
    /// since 1970 UTC. What is said of archives here holds if no entry has another text with the same
    /// blob id.
    ///
    /// At each moment a crash leaves the archive before or the one with the message, and after `Ok`
    /// the latter. `DiskFault` comes only if the disk's count of faults rose: one of the two
    /// archives is then there, and the store has to be reopened. `NoMemory` comes only if memory
    /// runs out, or if the epoch's file has 2^62 bytes or more; then nothing was done.
    pub fn deliver_entry<D: Disk>(
        &mut self,
        alloc: Global,
        disk: &mut D,
        text: &[u8],
        ids: &TextIds,
        moment: u64,
    ) -> Result<(), StoreRefusal>
        requires accepts { Accepts self.old text.now }
        requires ids { ids.now ≡ text_ids_of self.old.root.config.form text.now }
        requires moment { moment ≤ last_moment }
        requires sizes { WhereTold (StoreHasSizes self.old) (D.content disk.old) }
        ensures changes { ChangesStore D.Disk disk.old disk.new
            self.old self.new Appends (AddsMessage text.now moment) result }
        ensures added { OnOk result (AddsEntry self.old self.new text.now) }
    {
        let number = self.root.next;
        self.enter(alloc, disk, EntryKind::Message, number, text, ids, moment)
    }

    /// Appends the deletion of a live message, which has this number and text, and these ids of the text,
    /// at a moment in seconds since 1970 UTC.
    ///
    /// No number is taken, and no record is written. At each moment a crash leaves the archive before
    /// or the one with the deletion, and after `Ok` the latter. `DiskFault` comes only if the disk's
    /// count of faults rose: one of the two archives is then there, and the store has to be reopened.
    /// `NoMemory` comes only if memory runs out, or if the epoch's file has 2^62 bytes or more; then
    /// nothing was done.
    pub fn remove_entry<D: Disk>(
        &mut self,
        alloc: Global,
        disk: &mut D,
        number: u32,
        text: &[u8],
        ids: &TextIds,
        moment: u64,
    ) -> Result<(), StoreRefusal>
        requires may { MayEnd self.old number text.now }
        requires ids { ids.now ≡ text_ids_of self.old.root.config.form text.now }
        requires moment { moment ≤ last_moment }
        requires sizes { WhereTold (StoreHasSizes self.old) (D.content disk.old) }
        ensures changes { ChangesStore D.Disk disk.old disk.new
            self.old self.new Appends (EndsMessage number text.now moment) result }
        ensures ended { OnOk result (EndsEntry self.old self.new number text.now) }
    {
        let _next = self.root.next; // brings the range of the next number into the proof
        self.enter(alloc, disk, EntryKind::Deletion, number, text, ids, moment)
    }
}

/// Returns the offset of a new entry in a file of a length.
///
/// A new file starts with eight other bytes.
fn entry_offset(length: u64) -> u64
    ensures { result ≡ (if length == 0 then 8 else length) }
{
    if length == 0 { 8 } else { length }
}

/// Returns the number of bytes before a text of this size in its blob.
fn blob_front_len(size: usize) -> u64
    ensures value { result ≡ 6 + length (decimal size) }
    ensures small { result ≤ 26 }
{
    let mut buffer = Buffer::new();
    6 + buffer.format(size).len() as u64
}

/// Returns a copy of the own id of a text that has one.
pub(crate) fn own_id_of(alloc: Global, text: &[u8]) -> Result<Bytes, NoMemory>
    requires { IsSome (own_id_in text.now) }
    ensures { IfOk result (λ id. own_id_in text.now ≡ Some id) }
{
    match own_id(text) {
        None => Ok(Bytes::new(alloc)),
        Some(id) => Ok(Bytes::from_vec(Vec::from_slice(alloc, id)?)),
    }
}
