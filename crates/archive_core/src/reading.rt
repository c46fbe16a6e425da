//! Reads an archive on a disk: its messages by their numbers, and its epochs.
//! Reads the disk.
ghost use Rattle.std.specs.Prelude.{◌≡◌, ◌≤◌, ◌<◌, ◌+◌, ◌^◌, ◌↔◌, ℕ, List, true, Err, IsTrue, IfSome, OnErr, is_some};
ghost use Rattle.arch_base.specs.Counts.{RoseIf};
ghost use Rattle.disk_model.specs.Disk.{Image, BothTold, Unchanged};
ghost use Rattle.disk_model.specs.Moments.{LeavesOnly};
ghost use Rattle.arch_model.specs.Archives.{Archive, live, messages, in_epoch, text_of, blob_number};
ghost use Rattle.arch_model.specs.Shelves.{line_at, GivesBlobIn, AppendsTo};
ghost use Rattle.arch_model.specs.Standing.{GivesTextIn, GivesEpochIn, KeepsUnlessFound};
ghost use Rattle.arch_model.specs.declared.text_refusal.TextRefusal.{TextRefusal};
ghost use Rattle.epoch_store.specs.Reads.{AnswersQuietly};
ghost use Rattle.store_finding.specs.Kept.{IsStoreWith, KeepsArchive};
ghost use Rattle.archive_core.specs.Numbers.{has_live, IsMessageAt, IsLiveAt, HasBlobAt, IsBlobIndex, GivesTextKept, GivesBlobKept, NamesId, TellsOther};

use crate::archive::DiskArchive;
use crate::placing::place_index;
use arch_base::{Bytes, ObjectId};
use arch_model::{EntryLine, TextRefusal};
use disk_model::Disk;

impl DiskArchive {
    /// Returns whether there can be another root: the current one's sequence isn't the last.
    pub fn has_next_root(&self) -> bool
        ensures { IsTrue result ↔ self.now.root.sequence + 1 < 2 ^ 64 }
    {
        self.store.sequence() < u64::MAX
    }

    /// Returns the index of the entry of a number's message, live or not, or `None` if there is none.
    pub(crate) fn message_index(&self, n: u32) -> Option<u64>
        ensures known { IfSome result (IsMessageAt self.now.entries n) }
        ensures message { (a : Archive) → KeepsArchive self.now a
            → is_some (text_of (messages a.entries) n) ≡ is_some result }
    {
        match place_index(self.places.as_slice(), n) {
            None => None,
            Some(at) => Some(self.places[at].entry as u64),
        }
    }

    /// Returns the index of the entry of a live message, or `None` if its number isn't live.
    pub(crate) fn live_index(&self, n: u32) -> Option<u64>
        ensures known { IfSome result (IsLiveAt self.now.entries n) }
        ensures found { is_some result ≡ has_live self.now.entries n }
        ensures live { (a : Archive) → KeepsArchive self.now a
            → is_some (text_of (live a.entries) n) ≡ is_some result }
    {
        match place_index(self.places.as_slice(), n) {
            None => None,
            Some(at) => {
                let place = self.places[at];
                if place.live {
                    Some(place.entry as u64)
                } else {
                    None
                }
            }
        }
    }

    /// Returns the entry at an index, from 0, without its text, or `None` if there are not so many.
    pub fn entry(&self, index: u64) -> Option<EntryLine>
        ensures { (a : Archive) → KeepsArchive self.now a
            → result ≡ line_at a.config.form a.entries index }
    {
        self.store.entry(index)
    }

    /// Returns whether a number is live.
    pub fn has_text(&self, n: u32) -> bool
        ensures known { result ≡ true → has_live self.now.entries n ≡ true }
        ensures text { (a : Archive) → KeepsArchive self.now a
            → is_some (text_of (live a.entries) n) ≡ result }
    {
        self.live_index(n).is_some()
    }

    /// Appends the text of the live message with a number to `into`.
    ///
    /// Reads the disk at most once, and changes nothing on it. `Damaged` comes if the bytes there
    /// have another blob id than the message, which never happens on the disk of an archive: `named`
    /// is the message's blob id, and `found` that of the bytes. `DiskFault` comes only if the disk's
    /// count of faults rose, and `NoMemory` only if memory runs out. An error leaves the bytes
    /// unchanged.
    pub fn text<D: Disk>(&self, disk: &mut D, n: u32, into: &mut Bytes) -> Result<(), TextRefusal>
        requires live { has_live self.now.entries n ≡ true }
        ensures text { (a : Archive) (cache : List ℕ)
            → IsStoreWith self.now cache a (D.content disk.old)
            → GivesTextIn (live a.entries) n into.old into.new result }
        ensures kept { GivesTextKept self.now (D.content disk.old) n into.old into.new result }
        ensures refused { OnErr result (into.new ≡ into.old) }
        ensures same { BothTold Unchanged (D.content disk.old) (D.content disk.new) }
        ensures crash { LeavesOnly D.Disk disk.old disk.new (Image (D.content disk.old)) }
        ensures cause { RoseIf (result ≡ Err TextRefusal.DiskFault) (D.faults disk.old)
            (D.faults disk.new) }
        ensures fewest { D.reads disk.old ≤ D.reads disk.new }
        ensures count { D.reads disk.new ≤ D.reads disk.old + 1 }
    {
        match self.live_index(n) {
            None => unreachable!(),
            Some(index) => self.store.text(disk, index, into),
        }
    }

    /// Appends the text of an entry with this blob id to `into`, and returns whether an entry has it.
    ///
    /// Reads the disk at most once, and changes nothing on it. The errors are those of `text`; the id
    /// that `Damaged` names is this one. Each of them, and a blob id that no entry has, leave the bytes
    /// unchanged.
    pub fn blob<D: Disk>(
        &self,
        disk: &mut D,
        id: &ObjectId,
        into: &mut Bytes,
    ) -> Result<bool, TextRefusal>
        ensures blob { (a : Archive) (cache : List ℕ)
            → IsStoreWith self.now cache a (D.content disk.old)
            → GivesBlobIn a.config.form a.entries id.now into.old into.new result }
        ensures read { GivesBlobKept self.now (D.content disk.old) id.now into.old into.new result }
        ensures named { NamesId id.now result }
        ensures other { TellsOther result }
        ensures kept { KeepsUnlessFound into.old into.new result }
        ensures appends { AppendsTo into.old into.new }
        ensures same { BothTold Unchanged (D.content disk.old) (D.content disk.new) }
        ensures crash { LeavesOnly D.Disk disk.old disk.new (Image (D.content disk.old)) }
        ensures cause { RoseIf (result ≡ Err TextRefusal.DiskFault) (D.faults disk.old)
            (D.faults disk.new) }
        ensures fewest { D.reads disk.old ≤ D.reads disk.new }
        ensures count { D.reads disk.new ≤ D.reads disk.old + 1 }
    {
        let Some(place) = self.blob_index(id) else {
            return Ok(false);
        };
        match self.store.text(disk, place, into) {
            Ok(()) => Ok(true),
            Err(refusal) => Err(refusal),
        }
    }

    /// Returns the index, from 0, of an entry with a blob id, or `None` if there is none.
    fn blob_index(&self, id: &ObjectId) -> Option<u64>
        ensures known { IfSome result (HasBlobAt self.now.entries id.now) }
        ensures index { (a : Archive) → KeepsArchive self.now a
            → IsBlobIndex a.config.form a.entries id.now result }
    {
        let Some(number) = self.number_of(id) else {
            return None;
        };
        let Some(index) = self.message_index(number) else {
            return None;
        };
        // No two messages have a number, so this one has the blob id.
        if !self.has_blob(index, id) {
            return None;
        }
        Some(index)
    }

    /// Returns whether the entry at an index has a blob id.
    fn has_blob(&self, index: u64, id: &ObjectId) -> bool
        ensures { IsTrue result ↔ HasBlobAt self.now.entries id.now index }
    {
        match self.store.entry(index) {
            None => false,
            Some(line) => line.blob == *id,
        }
    }

    /// Returns the number of the first entry with a blob id.
    fn number_of(&self, id: &ObjectId) -> Option<u32>
        ensures { (a : Archive) → KeepsArchive self.now a
            → result ≡ blob_number a.config.form a.entries id.now }
    {
        self.index.number(id)
    }

    /// Appends the bytes of an epoch to `into`, and returns whether the epoch has an entry.
    ///
    /// Reads the disk at most once, and changes nothing on it. An epoch without an entry leaves the
    /// bytes unchanged. `DiskFault` comes only if the disk's count of faults rose, and `NoMemory`
    /// only if memory runs out; `Damaged` never comes. An error leaves the bytes unchanged.
    pub fn epoch_bytes<D: Disk>(
        &self,
        disk: &mut D,
        epoch: u32,
        into: &mut Bytes,
    ) -> Result<bool, TextRefusal>
        ensures bytes { (a : Archive) (cache : List ℕ)
            → IsStoreWith self.now cache a (D.content disk.old)
            → GivesEpochIn a.config.form (in_epoch a.entries epoch) into.old into.new result }
        ensures kept { KeepsUnlessFound into.old into.new result }
        ensures appends { AppendsTo into.old into.new }
        ensures undamaged { AnswersQuietly result }
        ensures same { BothTold Unchanged (D.content disk.old) (D.content disk.new) }
        ensures crash { LeavesOnly D.Disk disk.old disk.new (Image (D.content disk.old)) }
        ensures cause { RoseIf (result ≡ Err TextRefusal.DiskFault) (D.faults disk.old)
            (D.faults disk.new) }
        ensures fewest { D.reads disk.old ≤ D.reads disk.new }
        ensures count { D.reads disk.new ≤ D.reads disk.old + 1 }
    {
        self.store.epoch(disk, epoch, into)
    }
}
