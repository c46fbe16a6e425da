//! An archive on a disk that is handed in. Each of its commands has the result of the definition.
//! Writes the disk; syncs.
ghost use Rattle.std.specs.Prelude.{true, false, Some, None, ◌≡◌, ◌≤◌, ◌<◌, ◌+◌, ◌-◌, ◌^◌, ℕ, length, slice_get, Ok, Err, IfOk, IfErr, List, Option};
ghost use Rattle.arch_base.specs.Configs.{IsConfig};
ghost use Rattle.arch_base.specs.Counts.{RoseIf};
ghost use Rattle.arch_judge.specs.Indexes.{IsArchiveIndex};
ghost use Rattle.disk_model.specs.Disk.{BothTold, WhereTold};
ghost use Rattle.disk_model.specs.Moments.{LeavesOnly};
ghost use Rattle.disk_model.specs.Synced.{IsSettled};
ghost use Rattle.root_slots.specs.OneRoot.{BeginsRootIn};
ghost use Rattle.root_slots.specs.Slots.{HasNewRoot};
ghost use Rattle.root_slots.specs.Spelling.{spelling};
ghost use Rattle.arch_model.specs.Archives.{Archive, live, text_of};
ghost use Rattle.arch_model.specs.Delivery.{applied, delivered, removed};
ghost use Rattle.arch_model.specs.Keeping.{form_known, text_known};
ghost use Rattle.arch_model.specs.Shelves.{ReadsOnce};
ghost use Rattle.mail_reader.specs.Stored.{stored};
ghost use Rattle.archive_core.specs.Numbers.{IsLiveAt};
ghost use Rattle.archive_core.specs.Kept.{MayGoIn, TakesWhatMay};
ghost use Rattle.archive_core.specs.Rewriting.{RefusesLate};
ghost use Rattle.arch_model.specs.declared.answer.Answer.{Answer};
ghost use Rattle.arch_model.specs.declared.command.Command.TheVariants as command;
ghost use Rattle.arch_base.specs.Moments.{last_moment};
ghost use Rattle.archive_core.specs.Openings.{RefusesKindly};
ghost use Rattle.epoch_store.specs.Promises.{AddsMessage, Appends, ChangesStore, MakesArchive, OpensArchive};
ghost use Rattle.epoch_store.specs.Reads.{HasTexts};
ghost use Rattle.store_finding.specs.Kept.{IsStoreWith};
ghost use Rattle.epoch_store.specs.Commands.{StoreHasSizes, RecoversEitherWith, RootGoesOn};
ghost use Rattle.archive_core.specs.DamageTold.{RefusesVerdict, TellsDamage, TellsEntry};
ghost use Rattle.archive_core.specs.Commands.{DoneBy, OnDone, OnRefusal, UnlessFault, OnlyLooks, AnswersRemoval, IfUnread, IfRefusedUnread, IsFaultRead, JudgesOn, left_without, TakesCommand, refusal_answer, unread_answer, damaged_place, IsNamed, IsTextAt, ReadsMessage, IsTextUnread, is_delivery, IfDelivery, TellsText, KeepsText, KeepsTextFor, IsGone};

use crate::placing::{MessagePlace, are_rising, end_place, may_follow, places_of};
use crate::texts::{KeptText, end_text, put_text, take_text};
use arch_base::{Bytes, Config, NoMemory};
use arch_judge::{Index, Judgement, Verdict, compared, judge};
use arch_model::{Answer, Command, OpenRefusal, TextRefusal};
use disk_model::Disk;
use epoch_file::StoreRefusal;
use epoch_store::{InitRefusal, Store, law_of_stores};
use mail_commits::{TextIds, text_ids};
use mail_reader::own_id;
use std::alloc::Global;
use std::marker::Model;

/// An archive on a disk: its store, and an index of its messages by their ids and blob ids.
///
/// Its contract view is what the store keeps.
#[derive(Drop)]
pub struct DiskArchive {
    pub(crate) alloc: Global,
    pub(crate) store: Store,
    pub(crate) index: Index,
    pub(crate) places: Vec<MessagePlace>,
}

impl Model for DiskArchive {
    ghost use Rattle.store_finding.specs.Kept.{StoreState};
    ghost use Rattle.std.specs.Prelude.{◌≡◌};
    ghost use Rattle.store_finding.specs.Indexes.{IndexesStored};
    ghost use Rattle.archive_core.specs.Placing.{message_places, PlacesRise};

    ghost Value = { StoreState };

    ghost view = { λ s. s.store };

    ghost invariant = { λ s. IndexesStored s.store.entries s.index
        × (s.places.items ≡ message_places 0 s.store.entries) × PlacesRise s.places.items };
}

impl DiskArchive {
    /// Creates an archive without entries on a disk without an open slot.
    ///
    /// The promises and the errors are those of `Store::init`, which it calls.
    pub fn init<D: Disk>(
        alloc: Global,
        disk: &mut D,
        config: &Config,
    ) -> Result<DiskArchive, InitRefusal>
        requires config { IsConfig config.now }
        ensures made { MakesArchive D.Disk disk.old disk.new
            config.now result }
    {
        let store = Store::init(alloc, disk, config)?;
        Ok(DiskArchive {
            alloc,
            store,
            index: Index::new(alloc),
            places: Vec::new(alloc),
        })
    }

    /// Opens the archive on a disk.
    ///
    /// The promises and the errors are those of `Store::open`, which it calls. After `NoArchive` and
    /// `Damaged` all files read as before. `NoMemory` may also come once the disk is settled: the files
    /// still stand for the archive that they stood for, and where none can be opened, all files read as
    /// before.
    pub fn open<D: Disk>(alloc: Global, disk: &mut D) -> Result<DiskArchive, OpenRefusal>
        ensures opened { OpensArchive D.Disk disk.old disk.new
            result }
        ensures refused { RefusesKindly result (D.content disk.old) (D.content disk.new) }
        ensures texts { IfOk result (λ archive. WhereTold (HasTexts archive) (D.content disk.new)) }
    {
        law_of_stores();
        let (store, index) = match Store::open(alloc, disk) {
            Ok(opened) => opened,
            Err(refusal) => return Err(refusal),
        };
        let Ok(places) = places_of(alloc, store.stored()) else {
            return Err(OpenRefusal::NoMemory);
        };
        // The numbers of an archive's messages rise. No clause of a store says so of what it keeps.
        if !are_rising(places.as_slice()) {
            return Err(OpenRefusal::NoMemory);
        }
        Ok(DiskArchive {
            alloc,
            store,
            index,
            places,
        })
    }

    /// Takes a command at a moment, in seconds since 1970 UTC.
    ///
    /// As `command_keeping` does, but it isn't told which text was kept, nor which number is gone.
    pub fn command<D: Disk>(&mut self, disk: &mut D, command: &Command<'_>, moment: u64) -> Answer
        requires moment { moment ≤ last_moment }
        requires sizes { WhereTold (StoreHasSizes self.old) (D.content disk.old) }
        ensures taken { TakesCommand D.Disk disk.old
            disk.new self.old self.new command.now (λ a. applied a command.now moment) result }
        // A delivery whose blob id no entry has reads nothing.
        ensures unread { (a : Archive) (cache : List ℕ)
            → IsStoreWith self.old cache a (D.content disk.old) → text_known a command.now ≡ false
            → D.reads disk.new ≡ D.reads disk.old }
    {
        let mut kept = KeptText::none(self.alloc);
        let mut gone = None;
        self.command_keeping(disk, command, moment, &mut kept, &mut gone)
    }

    /// Takes a command at a moment, in seconds since 1970 UTC.
    ///
    /// Needs files of at least the sizes that the root names, as every call leaves them at which the
    /// disk didn't fail. What is said of archives here holds while `has_next_root` does.
    ///
    /// `Deliver`: the message takes the next number, or is refused by the first cause of these: a
    /// mirror, no field, too many bytes, the same message, another text with its blob id, and no
    /// number left. `Remove`: the message with a number is ended, or the archive is a mirror, or the
    /// number is not live. `Purge`: each entry with the text of a number is dropped, or the archive is a
    /// mirror, or the number has no message. `Edit`: a live number is purged and a message delivered in
    /// one step, or refused as both are. A refusal leaves all as it was.
    ///
    /// At each moment a crash leaves the archive before the command or the one after it, and after
    /// `Ok` the latter. `DiskFault` comes only if the disk's count of faults rose: one of the two
    /// archives is then there, and the archive has to be reopened. `NoMemory` comes only if memory
    /// runs out, or if the epoch's file has 2^62 bytes or more; then nothing was done. `Damaged` comes
    /// only if a text that is read isn't that of its entry, with the entry's file and offset, or if a file
    /// is shorter than the root says, with the number of bytes that should be there. Neither happens on
    /// the disk of an archive.
    ///
    /// `kept` is left with the text that an accepted delivery or edit kept and its content id, and `gone`
    /// with the live number that a purge or an edit took with its text, if there is one.
    pub fn command_keeping<D: Disk>(
        &mut self,
        disk: &mut D,
        command: &Command<'_>,
        moment: u64,
        kept: &mut KeptText,
        gone: &mut Option<u32>,
    ) -> Answer
        requires none { gone.old ≡ None }
        requires moment { moment ≤ last_moment }
        requires sizes { WhereTold (StoreHasSizes self.old) (D.content disk.old) }
        ensures taken { TakesCommand D.Disk disk.old
            disk.new self.old self.new command.now (λ a. applied a command.now moment) result }
        // A delivery whose blob id no entry has reads nothing.
        ensures unread { (a : Archive) (cache : List ℕ)
            → IsStoreWith self.old cache a (D.content disk.old) → text_known a command.now ≡ false
            → D.reads disk.new ≡ D.reads disk.old }
        ensures text { IfDelivery (is_delivery command.now)
            (TellsText self.old.root.config.form result kept.new) }
        ensures kept { (a : Archive) (cache : List ℕ)
            → IsStoreWith self.old cache a (D.content disk.old)
            → IfDelivery (is_delivery command.now)
            (OnDone result (KeepsTextFor command.now a (applied a command.now moment) moment kept.new.text)) }
        ensures gone { (a : Archive) (cache : List ℕ)
            → IsStoreWith self.old cache a (D.content disk.old)
            → OnDone result (IsGone a command.now gone.new) }
    {
        match command {
            Command::Deliver(bytes) => self.deliver(disk, bytes, moment, kept),
            Command::Remove(number) => self.remove(disk, *number, moment),
            Command::Purge(number) => self.purge(disk, *number, gone),
            Command::Edit(number, bytes) => self.edit(disk, *number, bytes, moment, kept, gone),
        }
    }

    /// Delivers a message, or refuses it. `kept` is left with the text that was kept.
    fn deliver<D: Disk>(
        &mut self,
        disk: &mut D,
        bytes: &[u8],
        moment: u64,
        kept: &mut KeptText,
    ) -> Answer
        requires moment { moment ≤ last_moment }
        requires sizes { WhereTold (StoreHasSizes self.old) (D.content disk.old) }
        ensures taken { TakesCommand D.Disk disk.old
            disk.new self.old self.new (command.Deliver bytes.entry)
            (λ a. delivered a bytes.now moment) result }
        ensures unread { (a : Archive) (cache : List ℕ)
            → IsStoreWith self.old cache a (D.content disk.old) → form_known a (stored bytes.now) ≡ false
            → D.reads disk.new ≡ D.reads disk.old }
        ensures text { TellsText self.old.root.config.form result kept.new }
        ensures kept { (a : Archive) (cache : List ℕ)
            → IsStoreWith self.old cache a (D.content disk.old)
            → OnDone result (KeepsText a (delivered a bytes.now moment) moment kept.new.text) }
    {
        law_of_stores();
        match self.verdict(disk, &self.index, bytes) {
            Verdict::Refuse(answer) => answer,
            Verdict::Take { text, ids, number } => {
                match self.keep(disk, text.as_slice(), &ids, moment) {
                    Ok(()) => {
                        *kept = KeptText {
                            text,
                            content: ids.content,
                        };
                        Answer::Ok {
                            number,
                            id: ids.blob,
                        }
                    }
                    Err(refusal) => answer_of(&refusal),
                }
            }
        }
    }

    /// Returns the verdict on the delivery of a message, by an index that has all entries or lacks those
    /// of a text. Texts are compared. Reads at most once.
    pub(crate) fn verdict<D: Disk>(&self, disk: &mut D, index: &Index, bytes: &[u8]) -> Verdict
        ensures judged { JudgesOn D.content disk.old self.now index.now bytes.now result }
        // For any index: a text that is taken may be kept.
        ensures taken { TakesWhatMay self.now index.now result }
        // For any index: a message with a form is refused for no want of one.
        ensures formed { (form : List ℕ) → self.now.root.config.mirror ≡ false
            → stored bytes.now ≡ Ok form → RefusesLate result }
        ensures looks { OnlyLooks D.Disk disk.old disk.new }
        ensures unmoved { IfRefusedUnread result (disk.new ≡ disk.old) }
        ensures cause { RoseIf (IsFaultRead result) (D.faults disk.old) (D.faults disk.new) }
        ensures damage { RefusesVerdict self.now (D.content disk.old) result }
        ensures count { ReadsOnce (D.reads disk.old) (D.reads disk.new) }
        ensures unread { (a : Archive) (cache : List ℕ) (gone : Option (List ℕ))
            → IsStoreWith self.now cache a (D.content disk.old)
            → IsArchiveIndex a.config.form (left_without a gone).entries index.now
            → form_known (left_without a gone) (stored bytes.now) ≡ false
            → D.reads disk.new ≡ D.reads disk.old }
    {
        let next = self.store.next_number();
        let config = self.store.config();
        match judge(self.alloc, config, index, next, bytes) {
            Judgement::Final(verdict) => verdict,
            Judgement::Compare { text, ids, number } => match self.message_text(disk, number) {
                Ok(kept) => compared(config, next, text, ids, number, kept.as_slice()),
                Err(answer) => Verdict::Refuse(answer),
            },
        }
    }

    /// Returns the text of the message with a number, live or not, or the answer if it wasn't read.
    pub(crate) fn message_text<D: Disk>(&self, disk: &mut D, number: u32) -> Result<Bytes, Answer>
        ensures text { (a : Archive) (cache : List ℕ)
            → IsStoreWith self.now cache a (D.content disk.old) → ReadsMessage a number result }
        ensures unread { IfErr result IsTextUnread }
        ensures damage { IfErr result (TellsEntry self.now (D.content disk.old)) }
        ensures looks { OnlyLooks D.Disk disk.old disk.new }
        ensures cause { RoseIf (result ≡ Err Answer.DiskFault) (D.faults disk.old) (D.faults disk.new) }
        ensures count { ReadsOnce (D.reads disk.old) (D.reads disk.new) }
    {
        let Some(index) = self.message_index(number) else {
            // In an archive it is a message's. No clause of a store says so of what it keeps.
            return Err(Answer::NoMemory);
        };
        let mut text = Bytes::new(self.alloc);
        match self.store.text(disk, index, &mut text) {
            Ok(()) => Ok(text),
            Err(refusal) => Err(self.unread(index, &refusal)),
        }
    }

    /// Returns the answer where the text of the entry at an index wasn't read.
    pub(crate) fn unread(&self, index: u64, refusal: &TextRefusal) -> Answer
        requires there { index < length self.now.entries }
        ensures { result ≡ unread_answer self.now index refusal.now }
    {
        match refusal {
            TextRefusal::DiskFault => Answer::DiskFault,
            TextRefusal::NoMemory => Answer::NoMemory,
            TextRefusal::Damaged { .. } => self.damaged(index),
        }
    }

    /// Returns the answer that the entry at an index is damaged.
    fn damaged(&self, index: u64) -> Answer
        requires there { index < length self.now.entries }
        ensures { result ≡ damaged_place self.now (slice_get self.now.entries index) }
    {
        match self.store.place(index) {
            None => unreachable!(),
            Some((file, at)) => Answer::Damaged { file, at },
        }
    }

    /// Returns whether the entry at an index has the own id of a text.
    fn is_named(&self, index: u64, text: &[u8]) -> bool
        requires there { index < length self.now.entries }
        ensures named { result ≡ true → IsNamed self.now.entries index text.now }
        ensures other { result ≡ false → IsNamed self.now.entries index text.now → ⊥ }
    {
        match own_id(text) {
            None => false,
            Some(id) => self.store.stored()[index as usize].seen.id.as_slice() == id,
        }
    }

    /// Removes a message, or refuses. Reads at most once.
    fn remove<D: Disk>(&mut self, disk: &mut D, number: u32, moment: u64) -> Answer
        requires moment { moment ≤ last_moment }
        requires sizes { WhereTold (StoreHasSizes self.old) (D.content disk.old) }
        ensures taken { TakesCommand D.Disk disk.old
            disk.new self.old self.new (command.Remove number) (λ a. removed a number moment) result }
    {
        law_of_stores();
        if self.config().mirror {
            return Answer::IsMirror;
        }
        let Some(index) = self.live_index(number) else {
            return Answer::NotLive(number);
        };
        let mut text = Bytes::new(self.alloc);
        match self.store.text(disk, index, &mut text) {
            Ok(()) => self.end_message(disk, number, index, text.as_slice(), moment),
            Err(refusal) => self.unread(index, &refusal),
        }
    }

    /// Ends the live message with a number, which has this index. This is its text, as it was read.
    ///
    /// `Damaged` if the text lacks the own id of the message, which never happens on the disk of an
    /// archive.
    fn end_message<D: Disk>(
        &mut self,
        disk: &mut D,
        number: u32,
        index: u64,
        text: &[u8],
        moment: u64,
    ) -> Answer
        requires moment { moment ≤ last_moment }
        requires writable { self.old.root.config.mirror ≡ false }
        requires live { IsLiveAt self.old.entries number index }
        requires text { IsTextAt self.old.entries index text.now }
        requires sizes { WhereTold (StoreHasSizes self.old) (D.content disk.old) }
        ensures crash { (a : Archive) (cache : List ℕ)
            → IsStoreWith self.old cache a (D.content disk.old)
            → self.old.root.sequence + 1 < 2 ^ 64
            → text_of (live a.entries) number ≡ Some text.now
            → LeavesOnly D.Disk disk.old disk.new
            (RecoversEitherWith cache a (removed a number moment).archive) }
        ensures done { (a : Archive) (cache : List ℕ)
            → IsStoreWith self.old cache a (D.content disk.old)
            → self.old.root.sequence + 1 < 2 ^ 64
            → text_of (live a.entries) number ≡ Some text.now
            → DoneBy self.new cache cache a (removed a number moment) result (D.content disk.new) }
        ensures settled { OnDone result (WhereTold IsSettled (D.content disk.new)) }
        ensures goes_on { OnDone result (RootGoesOn self.old.root self.new.root) }
        ensures slot { OnDone result (self.new.slot ≡ 1 - self.old.slot) }
        ensures same { OnRefusal result (self.new ≡ self.old) }
        ensures untouched { OnRefusal result (UnlessFault result (disk.new ≡ disk.old)) }
        // Its answers come after the text was read.
        ensures read { IfUnread result ⊥ }
        ensures sizes { UnlessFault result (WhereTold (StoreHasSizes self.new) (D.content disk.new)) }
        ensures cause { RoseIf (result ≡ Answer.DiskFault) (D.faults disk.old) (D.faults disk.new) }
        ensures for_command { AnswersRemoval number result }
        ensures damage { TellsDamage self.old (D.content disk.old) result }
        ensures count { D.reads disk.new ≡ D.reads disk.old }
        ensures rooted { OnDone result (BothTold (HasNewRoot self.new.slot (spelling self.new.root))
            (D.content disk.old) (D.content disk.new)) }
        ensures crash_root { BeginsRootIn D.Disk (1 - self.old.slot) disk.old disk.new }
    {
        if !self.is_named(index, text) {
            return self.damaged(index);
        }
        let ids = text_ids(text, self.config().form);
        match self
            .store
            .remove_entry(self.alloc, disk, number, text, &ids, moment)
        {
            Ok(()) => {
                end_text(&mut self.index, text);
                end_place(self.places.as_mut_slice(), number);
                Answer::Ok {
                    number,
                    id: ids.blob,
                }
            }
            Err(refusal) => answer_of(&refusal),
        }
    }

    /// Appends a message: its text, which has these ids, takes the next number, at a moment in seconds
    /// since 1970.
    ///
    /// An error changes nothing that is kept in memory.
    fn keep<D: Disk>(
        &mut self,
        disk: &mut D,
        text: &[u8],
        ids: &TextIds,
        moment: u64,
    ) -> Result<(), StoreRefusal>
        requires may { MayGoIn self.old text.now ids.now }
        requires moment { moment ≤ last_moment }
        requires sizes { WhereTold (StoreHasSizes self.old) (D.content disk.old) }
        ensures changes { ChangesStore D.Disk disk.old disk.new
            self.old self.new Appends (AddsMessage text.now moment) result }
    {
        let number = self.store.next_number();
        let entry = self.store.stored().len();
        let Ok(()) = self.places.reserve(1) else {
            return Err(StoreRefusal::NoMemory);
        };
        // The next number of an archive is above those of its messages. No clause of a store says
        // so of what it keeps.
        if !may_follow(self.places.as_slice(), number) {
            return Err(StoreRefusal::NoMemory);
        }
        let older = self.index.number(&ids.blob);
        put_text(self.alloc, &mut self.index, text, ids, number)?;
        if let Err(refusal) = self
            .store
            .deliver_entry(self.alloc, disk, text, ids, moment)
        {
            // The index is as it was before.
            take_text(&mut self.index, text, &ids.blob, number, older);
            return Err(refusal);
        }
        // There is room for it.
        let _ = self.places.push(MessagePlace {
            number,
            entry,
            live: true,
        });
        Ok(())
    }

    /// Returns the number of entries, deletions among them.
    pub fn entry_count(&self) -> u64
        ensures { result ≡ length self.now.entries }
    {
        self.store.stored().len() as u64
    }

    /// Returns the number of the next message.
    pub fn next_number(&self) -> u32
        ensures { result ≡ self.now.root.next }
    {
        self.store.next_number()
    }

    /// Returns the settings of the archive.
    pub fn config(&self) -> &Config
        ensures { result.now ≡ self.now.root.config }
    {
        self.store.config()
    }
}

/// Returns the answer for an error of the store.
pub(crate) fn answer_of(refusal: &StoreRefusal) -> Answer
    ensures { result ≡ refusal_answer refusal.now }
{
    match refusal {
        StoreRefusal::DiskFault => Answer::DiskFault,
        StoreRefusal::NoMemory => Answer::NoMemory,
        StoreRefusal::Damaged { file, at } => Answer::Damaged {
            file: *file,
            at: *at,
        },
    }
}
