//! Purges and edits of an archive on a disk.
//! Writes the disk; syncs.
ghost use Rattle.std.specs.Prelude.{Some, None, ◌≡◌, ◌≤◌, ℕ, Ok, Err, IfErr, IfOk, OnOk, List};
ghost use Rattle.arch_base.specs.Counts.{RoseIf};
ghost use Rattle.arch_base.specs.Moments.{last_moment};
ghost use Rattle.disk_model.specs.Disk.{WhereTold};
ghost use Rattle.mail_reader.specs.Stored.{stored as stored_of};
ghost use Rattle.git_objects.specs.Objects.{blob_id_of};
ghost use Rattle.arch_model.specs.Archives.{Archive, live, messages, text_of, without_entries};
ghost use Rattle.arch_model.specs.Delivery.{delivered, edited, purged, unless_refused};
ghost use Rattle.epoch_store.specs.Promises.{ChangesStore, Drops, Renews, Replaces};
ghost use Rattle.epoch_store.specs.Commands.{EditsFiles, StoreHasSizes, KeepsFiles, MayPurge};
ghost use Rattle.store_finding.specs.Kept.{IsStoreWith, KeepsArchive};
ghost use Rattle.store_planning.specs.Dropping.{without_blob};
ghost use Rattle.archive_core.specs.Commands.{IfUnread, IsGone, IsLiveOf, KeepsText, KeepsTextFor, OnDone, OnlyLooks, TakesCommand, TellsText};
ghost use Rattle.archive_core.specs.DamageTold.{TellsEntry};
ghost use Rattle.archive_core.specs.Numbers.{IsLiveAt};
ghost use Rattle.archive_core.specs.Kept.{IndexesKept};
ghost use Rattle.archive_core.specs.Rewriting.{ComparesForm, EditsAs, IsUnformed, MayReplace, bare};
ghost use Rattle.arch_model.specs.declared.command.Command.TheVariants as command;

use crate::archive::{DiskArchive, answer_of};
use crate::entries::index_without;
use crate::placing::{MessagePlace, count_without, live_with, may_follow, places_without};
use crate::texts::{KeptText, put_text};
use arch_base::{Bytes, ObjectId};
use arch_judge::{Index, Verdict};
use arch_model::Answer;
use disk_model::Disk;
use epoch_file::StoreRefusal;
use epoch_store::law_of_stores;
use git_objects::blob_id;
use mail_commits::TextIds;
use mail_reader::{StoredRefusal, stored};

impl DiskArchive {
    /// Drops each entry with the text of a number, or refuses. `gone` is left with the live number that
    /// had the text, if there is one.
    pub(crate) fn purge<D: Disk>(
        &mut self,
        disk: &mut D,
        number: u32,
        gone: &mut Option<u32>,
    ) -> Answer
        requires none { gone.old ≡ None }
        requires sizes { WhereTold (StoreHasSizes self.old) (D.content disk.old) }
        ensures taken { TakesCommand D.Disk disk.old
            disk.new self.old self.new (command.Purge number) (λ a. purged a number) result }
        ensures gone { (a : Archive) (cache : List ℕ)
            → IsStoreWith self.old cache a (D.content disk.old)
            → OnDone result (IsGone a (command.Purge number) gone.new) }
    {
        law_of_stores();
        if self.config().mirror {
            return Answer::IsMirror;
        }
        let Some(index) = self.message_index(number) else {
            return Answer::NoText(number);
        };
        let blob = self.store.stored()[index as usize].seen.blob;
        match self.drop_text(disk, &blob) {
            Ok(live) => {
                *gone = live;
                Answer::Ok { number, id: blob }
            }
            Err(refusal) => answer_of(&refusal),
        }
    }

    /// Drops each entry with the blob id of a message. Returns the live number that had it, if there is
    /// one.
    ///
    /// What is kept in memory is made before the first write. An error leaves it unchanged.
    fn drop_text<D: Disk>(
        &mut self,
        disk: &mut D,
        blob: &ObjectId,
    ) -> Result<Option<u32>, StoreRefusal>
        requires may { (number : ℕ) × MayPurge self.old number blob.now }
        requires sizes { WhereTold (StoreHasSizes self.old) (D.content disk.old) }
        ensures changes { ChangesStore D.Disk disk.old disk.new
            self.old self.new Renews (Drops blob.now) (bare result) }
        ensures kept_files { OnOk result (KeepsFiles self.old self.new blob.now) }
        ensures lives { (number : ℕ) (a : Archive) (text : List ℕ) → KeepsArchive self.old a
            → text_of (messages a.entries) number ≡ Some text
            → blob_id_of a.config.form text ≡ blob.now
            → IfOk result (IsLiveOf (live a.entries) text) }
    {
        let Ok(index) = index_without(self.alloc, self.store.stored(), blob) else {
            return Err(StoreRefusal::NoMemory);
        };
        let Ok(places) = places_without(self.alloc, self.store.stored(), blob) else {
            return Err(StoreRefusal::NoMemory);
        };
        let live = live_with(self.places.as_slice(), self.store.stored(), blob);
        match self.store.purge_text(self.alloc, disk, blob) {
            Ok(()) => {
                self.index = index;
                self.places = places;
                Ok(live)
            }
            Err(refusal) => Err(refusal),
        }
    }

    /// Purges a live number and delivers a message in one step, or refuses. `kept` is left with the text
    /// that was kept, and `gone` with the number.
    pub(crate) fn edit<D: Disk>(
        &mut self,
        disk: &mut D,
        number: u32,
        bytes: &[u8],
        moment: u64,
        kept: &mut KeptText,
        gone: &mut Option<u32>,
    ) -> Answer
        requires none { gone.old ≡ None }
        requires moment { moment ≤ last_moment }
        requires sizes { WhereTold (StoreHasSizes self.old) (D.content disk.old) }
        ensures taken { TakesCommand D.Disk disk.old
            disk.new self.old self.new (command.Edit number bytes.entry)
            (λ a. edited a number bytes.now moment) result }
        ensures text { TellsText self.old.root.config.form result kept.new }
        ensures kept { (a : Archive) (cache : List ℕ)
            → IsStoreWith self.old cache a (D.content disk.old)
            → OnDone result (KeepsTextFor (command.Edit number bytes.entry) a
            (edited a number bytes.now moment) moment kept.new.text) }
        ensures gone { OnDone result (gone.new ≡ Some number) }
    {
        law_of_stores();
        if self.config().mirror {
            return Answer::IsMirror;
        }
        let Some(index) = self.live_index(number) else {
            return Answer::NotLive(number);
        };
        match self.is_same(disk, number, index, bytes) {
            Err(answer) => answer,
            Ok(true) => Answer::Duplicate(number),
            Ok(false) => {
                let blob = self.store.stored()[index as usize].seen.blob;
                self.replace(disk, number, &blob, bytes, moment, kept, gone)
            }
        }
    }

    /// Returns whether the storage form of bytes is the text of a live number, which has this index, or
    /// the answer if there is no such form or the text wasn't read.
    ///
    /// The text is read only if it has the blob id of the form.
    fn is_same<D: Disk>(
        &self,
        disk: &mut D,
        number: u32,
        index: u64,
        bytes: &[u8],
    ) -> Result<bool, Answer>
        requires live { IsLiveAt self.now.entries number index }
        ensures compared { (a : Archive) (cache : List ℕ)
            → IsStoreWith self.now cache a (D.content disk.old)
            → ComparesForm a number (stored_of bytes.now) result }
        ensures refused { IfErr result IsUnformed }
        ensures formed { IfOk result (λ same. (form : List ℕ) × (stored_of bytes.now ≡ Ok form)) }
        ensures damage { IfErr result (TellsEntry self.now (D.content disk.old)) }
        ensures looks { OnlyLooks D.Disk disk.old disk.new }
        ensures unmoved { IfErr result (λ reply. IfUnread reply (disk.new ≡ disk.old)) }
        ensures cause { RoseIf (result ≡ Err Answer.DiskFault) (D.faults disk.old) (D.faults disk.new) }
        ensures fewest { D.reads disk.old ≤ D.reads disk.new }
    {
        let wanted = match stored(self.alloc, bytes) {
            Err(StoredRefusal::NoFields) => return Err(Answer::NoFields),
            Err(StoredRefusal::TooLarge(len)) => return Err(Answer::TooLarge(len)),
            Err(StoredRefusal::NoMemory) => return Err(Answer::NoMemory),
            Ok(wanted) => wanted,
        };
        let blob = blob_id(wanted.as_slice(), self.store.config().form);
        if blob != self.store.stored()[index as usize].seen.blob {
            return Ok(false);
        }
        let mut text = Bytes::new(self.alloc);
        match self.store.text(disk, index, &mut text) {
            Ok(()) => Ok(wanted.as_slice() == text.as_slice()),
            Err(refusal) => Err(self.unread(index, &refusal)),
        }
    }

    /// Delivers a message that has a storage form on the archive without the entries with a blob id, in
    /// one step, or refuses.
    fn replace<D: Disk>(
        &mut self,
        disk: &mut D,
        number: u32,
        blob: &ObjectId,
        bytes: &[u8],
        moment: u64,
        kept: &mut KeptText,
        gone: &mut Option<u32>,
    ) -> Answer
        requires may { MayPurge self.old number blob.now }
        requires formed { (form : List ℕ) × (stored_of bytes.now ≡ Ok form) }
        requires moment { moment ≤ last_moment }
        requires sizes { WhereTold (StoreHasSizes self.old) (D.content disk.old) }
        ensures edits { EditsAs D.Disk disk.old disk.new self.old
            self.new number bytes.now moment result }
        ensures kept_files { OnDone result (EditsFiles self.old self.new blob.now) }
        ensures text { TellsText self.old.root.config.form result kept.new }
        ensures kept { (a : Archive) (cache gone : List ℕ)
            → IsStoreWith self.old cache a (D.content disk.old)
            → text_of (live a.entries) number ≡ Some gone
            → OnDone result (KeepsText (without_entries a gone)
            (unless_refused a (delivered (without_entries a gone) bytes.now moment)) moment kept.new.text) }
        ensures gone { OnDone result (gone.new ≡ Some number) }
        ensures fewest { D.reads disk.old ≤ D.reads disk.new }
    {
        law_of_stores();
        let Ok(index) = index_without(self.alloc, self.store.stored(), blob) else {
            return Answer::NoMemory;
        };
        match self.verdict(disk, &index, bytes) {
            Verdict::Refuse(answer) => answer,
            Verdict::Take {
                text,
                ids,
                number: new,
            } => match self.keep_instead(disk, blob, index, text.as_slice(), &ids, moment) {
                Ok(()) => {
                    *kept = KeptText {
                        text,
                        content: ids.content,
                    };
                    *gone = Some(number);
                    Answer::Ok {
                        number: new,
                        id: ids.blob,
                    }
                }
                Err(refusal) => answer_of(&refusal),
            },
        }
    }

    /// Drops each entry with a blob id and appends a message in one step: its text, which has these ids,
    /// takes the next number. `index` is that of the entries that stay.
    ///
    /// What is kept in memory is made before the first write. An error leaves it unchanged.
    fn keep_instead<D: Disk>(
        &mut self,
        disk: &mut D,
        old: &ObjectId,
        index: Index,
        text: &[u8],
        ids: &TextIds,
        moment: u64,
    ) -> Result<(), StoreRefusal>
        requires may { MayReplace self.old old.now text.now ids.now }
        requires index { IndexesKept (without_blob self.old.entries old.now) index }
        requires moment { moment ≤ last_moment }
        requires sizes { WhereTold (StoreHasSizes self.old) (D.content disk.old) }
        ensures changes { ChangesStore D.Disk disk.old disk.new
            self.old self.new Renews (Replaces old.now text.now moment) result }
        ensures kept_files { OnOk result (EditsFiles self.old self.new old.now) }
    {
        let new = self.store.next_number();
        let mut index = index;
        let Ok(()) = put_text(self.alloc, &mut index, text, ids, new) else {
            return Err(StoreRefusal::NoMemory);
        };
        let Ok(mut places) = places_without(self.alloc, self.store.stored(), old) else {
            return Err(StoreRefusal::NoMemory);
        };
        // The next number of an archive is above those of its messages. No clause of a store says
        // so of what it keeps.
        if !may_follow(places.as_slice(), new) {
            return Err(StoreRefusal::NoMemory);
        }
        let entry = count_without(self.store.stored(), old);
        let Ok(()) = places.push(MessagePlace {
            number: new,
            entry,
            live: true,
        }) else {
            return Err(StoreRefusal::NoMemory);
        };
        match self
            .store
            .edit_text(self.alloc, disk, old, text, ids, moment)
        {
            Ok(()) => {
                self.index = index;
                self.places = places;
                Ok(())
            }
            Err(refusal) => Err(refusal),
        }
    }
}
