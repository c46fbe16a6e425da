//! A plain archive in memory, which does what the definitions say, call by call.
//! Allocates.
ghost use Rattle.std.specs.Prelude.{◌≡◌, ◌+◌, ◌++◌, ◌≤◌, false, not, take, drop, length, option_copied, IfOk, OnOk, OnErr, IsSome, Some, None};
ghost use Rattle.std.specs.Str.{bytes_eq};
ghost use Rattle.arch_base.specs.Configs.{IsConfig};
ghost use Rattle.mail_reader.specs.Stored.{stored as stored_of};
ghost use Rattle.mail_reader.specs.Ids.{own_id as own_id_of};
ghost use Rattle.git_objects.specs.Objects.{blob_id_of};
ghost use Rattle.mail_commits.specs.Ids.{text_ids_of};
ghost use Rattle.arch_model.specs.Archives.{empty_archive, with_entry, with_deletion, without_entries, live, messages, text_of, in_epoch, IsFree, has_entry};
ghost use Rattle.arch_model.specs.Delivery.{Delivers, applied, delivered, removed, purged, edited, unless_refused, is_form, collision, new_epoch};
ghost use Rattle.arch_judge.specs.Judging.{Judges};
ghost use Rattle.arch_model.specs.Epochs.{epoch_bytes};
ghost use Rattle.mem_archive.specs.Memory.{GivesEpoch, BytesGrow, MayKeep, EntryMayFollow, IsEndAfter, entry_of, appended_as, numbered_to};
ghost use Rattle.arch_model.specs.Listings.{row_in, number_of_id, listing};
ghost use Rattle.arch_model.specs.Shelves.{IsGreatestLive, live_between, line_at, blob_text};
ghost use Rattle.arch_model.specs.Standing.{IsLeastLive, IsUntouched};
ghost use Rattle.arch_model.specs.Searching.{search};
ghost use Rattle.arch_model.specs.Threading.{thread_in};
ghost use Rattle.arch_model.specs.declared.answer.Answer.{Answer};
ghost use Rattle.git_objects.specs.declared.entry_kind.EntryKind.{EntryKind};

use crate::kept::{End, Kept, KeptPlace, push_after};
use crate::placing::{count_live, greatest_live, hide, least_live, once_at, place_of, shown_at};
use arch_base::{Bytes, Config, MessageNumbers, NoMemory, ObjectId};
use arch_judge::{Index, Judgement, Owner, Verdict, compared, judge};
use arch_model::{Answer, Command, EntryLine, Query, Row};
use git_objects::{EntryKind, blob_id};
use mail_commits::{EntryText, TextIds, text_ids};
use mail_reader::{StoredRefusal, own_id, stored};
use std::alloc::Global;
use std::marker::Model;
use view_set::{Views, add_if_stored};

/// An archive in memory. A contract sees it as the archive that it holds.
#[derive(Drop)]
pub struct MemArchive {
    alloc: Global,
    config: Config,
    kept: Vec<Kept>,
    places: Vec<Option<KeptPlace>>,
    index: Index,
    views: Views,
    end: End,
}

impl Model for MemArchive {
    ghost use Rattle.std.specs.Prelude.{◌≡◌};
    ghost use Rattle.arch_model.specs.Archives.{Archive, live};
    ghost use Rattle.mem_archive.specs.Memory.{archive_of, entries_of, IsKept};
    ghost use Rattle.view_set.specs.Viewed.{views_of};

    ghost Value = { Archive };

    ghost view = { λ m. archive_of m.config m.kept.items m.places.items };

    ghost invariant = { λ m. IsKept m.config m.kept.items m.places.items m.index m.end
        × (m.views ≡ views_of m.config.form (live (entries_of m.kept.items))) };
}

impl MemArchive {
    /// Returns an archive without entries.
    pub fn new(alloc: Global, config: Config) -> MemArchive
        requires { IsConfig config }
        ensures { result ≡ empty_archive config }
    {
        let room = config.limit;
        MemArchive {
            alloc,
            config,
            kept: Vec::new(alloc),
            places: Vec::new(alloc),
            index: Index::new(alloc),
            views: Views::new(alloc),
            end: End {
                epoch: 0,
                room,
                parent: None,
            },
        }
    }

    /// Returns the text of the live message with a number, or `None` if there is none.
    pub fn text(&self, number: u32) -> Option<&[u8]>
        ensures { option_copied result ≡ text_of (live self.now.entries) number }
    {
        let found = place_of(self.places.as_slice(), number);
        shown_at(self.kept.as_slice(), found)
    }

    /// Returns the text of the message with a number, live or not, or `None` if there is none.
    fn text_once(&self, number: u32) -> Option<&[u8]>
        ensures { option_copied result ≡ text_of (messages self.now.entries) number }
    {
        let found = place_of(self.places.as_slice(), number);
        once_at(self.kept.as_slice(), found)
    }

    /// Returns the least number of a live message that is at least this one, or `None` if there is
    /// none.
    pub fn number_from(&self, number: u32) -> Option<u32>
        ensures { IsLeastLive (live self.now.entries) number result }
    {
        least_live(self.places.as_slice(), number)
    }

    /// Returns the greatest number of a live message that is at most this one, or `None` if there is
    /// none.
    pub(crate) fn number_to(&self, number: u32) -> Option<u32>
        ensures { IsGreatestLive (live self.now.entries) number result }
    {
        greatest_live(self.places.as_slice(), number)
    }

    /// Returns how many live messages have a number from `low` to `high`.
    pub(crate) fn count_between(&self, low: u32, high: u32) -> u64
        ensures { result ≡ live_between (live self.now.entries) low high }
    {
        count_live(self.places.as_slice(), low, high)
    }

    /// Returns how many live messages there are.
    pub(crate) fn message_count(&self) -> u32
        ensures { result ≡ length (live self.now.entries) }
    {
        // There are no more messages than numbers.
        count_live(self.places.as_slice(), 0, u32::MAX).min(u64::from(u32::MAX)) as u32
    }

    /// Returns the row of a live message, or `None` if the number is not live.
    pub(crate) fn row_at(&self, number: u32) -> Option<&Row>
        ensures { option_copied result ≡ row_in self.now.config.form (live self.now.entries) number }
    {
        self.views.get(number)
    }

    /// Returns the number of the live message with an own id, or `None` if there is none.
    pub(crate) fn number_by_id(&self, id: &[u8]) -> Option<u32>
        ensures { result ≡ number_of_id (live self.now.entries) id.now }
    {
        match self.index.owner(id) {
            None => None,
            Some(owner) => Some(owner.number),
        }
    }

    /// Returns so many numbers of live messages, newest first, after so many that are skipped.
    pub(crate) fn page(&self, skip: u64, count: u64) -> Result<MessageNumbers, NoMemory>
        ensures { IfOk result (λ page.
            page ≡ take count (drop skip (listing (live self.now.entries)))) }
    {
        self.views.page(skip, count)
    }

    /// Returns the numbers in the thread of a live message, rising, or none if the number is not
    /// live.
    pub(crate) fn thread(&self, number: u32) -> Result<MessageNumbers, NoMemory>
        ensures { IfOk result (λ numbers. numbers ≡ thread_in (live self.now.entries) number) }
    {
        self.views.thread_of(number)
    }

    /// Returns the numbers of the live messages that match a query, newest first.
    pub(crate) fn matching(&self, query: &Query) -> Result<MessageNumbers, NoMemory>
        ensures { IfOk result (λ numbers. numbers ≡ search query.now (live self.now.entries)) }
    {
        self.views.search(query)
    }

    /// Returns so many of the numbers that `matching` gives, after so many that are skipped, or as many
    /// as there are.
    pub(crate) fn matching_page(
        &self,
        query: &Query,
        skip: u64,
        count: u64,
    ) -> Result<MessageNumbers, NoMemory>
        ensures { IfOk result (λ page. page
            ≡ take count (drop skip (search query.now (live self.now.entries)))) }
    {
        self.views.search_page(query, skip, count)
    }

    /// Returns the entry at an index, from 0, without its text, or `None` if there are not so many.
    pub(crate) fn line(&self, index: u64) -> Option<EntryLine>
        ensures { result ≡ line_at self.now.config.form self.now.entries index }
    {
        match self.kept.as_slice().get(index as usize) {
            None => None,
            Some(kept) => Some(kept.line(self.config.form)),
        }
    }

    /// Returns the text of the entries with this blob id, or `None` if there is none.
    pub(crate) fn text_of_blob(&self, blob: &ObjectId) -> Option<&[u8]>
        ensures { option_copied result
            ≡ blob_text self.now.config.form self.now.entries blob.now }
    {
        match self.index.number(blob) {
            None => None,
            Some(number) => self.text_once(number),
        }
    }

    /// Returns the settings of the archive.
    pub(crate) fn settings(&self) -> &Config
        ensures { result.now ≡ self.now.config }
    {
        &self.config
    }

    /// Appends the bytes of an epoch, and returns whether the epoch has an entry.
    ///
    /// `NoMemory` leaves the bytes unchanged.
    pub fn push_epoch(&self, epoch: u32, into: &mut Bytes) -> Result<bool, NoMemory>
        ensures { GivesEpoch self.now.config.form into.old into.new result
            (in_epoch self.now.entries epoch) }
    {
        let len = into.as_slice().len();
        match self.push_entries(epoch, into) {
            Ok(found) => Ok(found),
            Err(NoMemory) => {
                into.truncate(len);
                Err(NoMemory)
            }
        }
    }

    /// Appends the bytes of an epoch, and returns whether the epoch has an entry.
    ///
    /// `NoMemory` may leave a part appended.
    fn push_entries(&self, epoch: u32, into: &mut Bytes) -> Result<bool, NoMemory>
        ensures found { IfOk result (λ found. found ≡ has_entry (in_epoch self.now.entries epoch)) }
        ensures ok { OnOk result (into.new
            ≡ into.old ++ epoch_bytes self.now.config.form (in_epoch self.now.entries epoch)) }
        ensures err { OnErr result (BytesGrow into.old into.new) }
    {
        let mut parent = None;
        for kept in self.kept.as_slice() {
            if kept.epoch == epoch {
                let entry = EntryText {
                    form: self.config.form,
                    kind: kept.kind,
                    text: kept.text.as_slice(),
                    moment: kept.moment,
                };
                let blob = blob_id(entry.text, entry.form);
                parent = Some(push_after(self.alloc, &entry, &blob, parent, into)?);
            }
        }
        Ok(parent.is_some())
    }

    /// Carries out a command at a moment, in seconds since 1970 UTC.
    ///
    /// `Deliver` keeps the message under the next number, or refuses it. The first cause decides:
    /// the archive is a mirror, the message has no field, it has too many bytes, it is there
    /// already, another text has its blob id, no number is left. `Remove` ends the message with a
    /// number, or refuses: the archive is a mirror, or the number is not live. `Purge` drops each entry
    /// with the text of a number, or refuses: the archive is a mirror, or the number has no message.
    /// `Edit` purges a live number and delivers a message in its place, or refuses as a removal and a
    /// delivery do. A refusal, and `NoMemory`, leave the archive unchanged.
    pub fn command(&mut self, command: &Command<'_>, moment: u64) -> Answer
        ensures done { Delivers self.old result self.new (applied self.old command.now moment) }
        ensures untouched { IsUntouched result self.old self.new }
    {
        match command {
            Command::Deliver(bytes) => self.deliver(bytes, moment),
            Command::Remove(number) => self.remove(*number, moment),
            Command::Purge(number) => self.purge(*number),
            Command::Edit(number, bytes) => self.edit(*number, bytes, moment),
        }
    }

    /// Delivers a message, or refuses it.
    fn deliver(&mut self, bytes: &[u8], moment: u64) -> Answer
        ensures done { Delivers self.old result self.new (delivered self.old bytes.now moment) }
        ensures untouched { IsUntouched result self.old self.new }
    {
        match self.verdict(bytes) {
            Verdict::Refuse(answer) => answer,
            Verdict::Take { text, ids, number } => self.take(text, ids, number, moment),
        }
    }

    /// Returns the verdict on the delivery of a message, where texts are compared.
    fn verdict(&self, bytes: &[u8]) -> Verdict
        ensures judged { Judges self.now bytes.now result }
        ensures taken { MayKeep self.now result }
    {
        let next = self.next();
        match judge(self.alloc, &self.config, &self.index, next, bytes) {
            Judgement::Final(verdict) => verdict,
            Judgement::Compare { text, ids, number } => match self.text_once(number) {
                // The index names only numbers that have a message.
                None => unreachable!(),
                Some(kept) => compared(&self.config, next, text, ids, number, kept),
            },
        }
    }

    /// Keeps a message under the next number, and answers with that number.
    fn take(&mut self, text: Bytes, ids: TextIds, number: u32, moment: u64) -> Answer
        requires free { IsFree (live self.old.entries) text }
        requires ids { ids ≡ text_ids_of self.old.config.form text }
        requires alone { collision self.old.config.form self.old.entries text ≡ None }
        requires room { self.old.next ≤ self.old.config.max }
        ensures done { Delivers self.old result self.new (record {
          archive = with_entry self.old
              (new_epoch self.old) text moment;
          answer = Answer.Ok number ids.blob;
        }) }
        ensures untouched { IsUntouched result self.old self.new }
    {
        match self.keep(text, &ids, moment) {
            Ok(()) => {
                Answer::Ok {
                    number,
                    id: ids.blob,
                }
            }
            Err(NoMemory) => Answer::NoMemory,
        }
    }

    /// Removes a message, or refuses.
    fn remove(&mut self, number: u32, moment: u64) -> Answer
        ensures done { Delivers self.old result self.new (removed self.old number moment) }
        ensures untouched { IsUntouched result self.old self.new }
    {
        if self.config.mirror {
            return Answer::IsMirror;
        }
        match self.text_copy(number) {
            Err(NoMemory) => Answer::NoMemory,
            Ok(None) => Answer::NotLive(number),
            Ok(Some(text)) => self.end_message(number, text, moment),
        }
    }

    /// Returns a copy of the text of a live message, or `None` if the number is not live.
    fn text_copy(&self, number: u32) -> Result<Option<Bytes>, NoMemory>
        ensures { IfOk result (λ found. found ≡ text_of (live self.now.entries) number) }
    {
        match self.text(number) {
            None => Ok(None),
            Some(text) => {
                let mut copy = Bytes::new(self.alloc);
                copy.push_slice(text)?;
                Ok(Some(copy))
            }
        }
    }

    /// Ends the live message with a number and a text, and answers with the number.
    fn end_message(&mut self, number: u32, text: Bytes, moment: u64) -> Answer
        requires writable { self.old.config.mirror ≡ false }
        requires live { text_of (live self.old.entries) number ≡ Some text }
        ensures done { Delivers self.old result self.new (removed self.old number moment) }
        ensures untouched { IsUntouched result self.old self.new }
    {
        let id = blob_id(text.as_slice(), self.config.form);
        match self.push_deletion(number, text, &id, moment) {
            Ok(()) => Answer::Ok { number, id },
            Err(NoMemory) => Answer::NoMemory,
        }
    }

    /// Appends the deletion of a live message, whose text has this blob id.
    ///
    /// `NoMemory` leaves the archive unchanged.
    fn push_deletion(
        &mut self,
        number: u32,
        text: Bytes,
        blob: &ObjectId,
        moment: u64,
    ) -> Result<(), NoMemory>
        requires live { text_of (live self.old.entries) number ≡ Some text }
        requires blob { blob.now ≡ blob_id_of self.old.config.form text }
        ensures ok { OnOk result (self.new
            ≡ with_deletion self.old number (new_epoch self.old) text moment) }
        ensures err { OnErr result (self.new ≡ self.old) }
    {
        let kind = EntryKind::Deletion;
        let spelled = EntryText {
            form: self.config.form,
            kind,
            text: text.as_slice(),
            moment,
        };
        let end = self
            .end
            .with(self.alloc, self.config.limit, &spelled, blob)?;
        let commit = end.parent.unwrap();
        let entry = Kept {
            kind,
            number,
            epoch: end.epoch,
            text,
            moment,
            commit,
        };
        self.append_deletion(entry, end)
    }

    /// Drops each entry with the text of a number, or refuses.
    fn purge(&mut self, number: u32) -> Answer
        ensures done { Delivers self.old result self.new (purged self.old number) }
        ensures untouched { IsUntouched result self.old self.new }
    {
        if self.config.mirror {
            return Answer::IsMirror;
        }
        let Some(text) = self.text_once(number) else {
            return Answer::NoText(number);
        };
        let id = blob_id(text, self.config.form);
        match self.without_text(text) {
            Ok(without) => {
                *self = without;
                Answer::Ok { number, id }
            }
            Err(NoMemory) => Answer::NoMemory,
        }
    }

    /// Purges a live message and delivers another one in its place, or refuses.
    fn edit(&mut self, number: u32, bytes: &[u8], moment: u64) -> Answer
        ensures done { Delivers self.old result self.new (edited self.old number bytes.now moment) }
        ensures untouched { IsUntouched result self.old self.new }
    {
        if self.config.mirror {
            return Answer::IsMirror;
        }
        let Some(text) = self.text(number) else {
            return Answer::NotLive(number);
        };
        match stores_as(self.alloc, bytes, text) {
            Err(NoMemory) => Answer::NoMemory,
            Ok(true) => Answer::Duplicate(number),
            Ok(false) => match self.without_text(text) {
                Ok(without) => self.deliver_on(without, bytes, moment),
                Err(NoMemory) => Answer::NoMemory,
            },
        }
    }

    /// Delivers a message on another archive, and takes that in place of this one if the message was
    /// kept.
    fn deliver_on(&mut self, other: MemArchive, bytes: &[u8], moment: u64) -> Answer
        ensures done { Delivers self.old result self.new
            (unless_refused self.old (delivered other bytes.now moment)) }
        ensures untouched { IsUntouched result self.old self.new }
    {
        let mut other = other;
        match other.deliver(bytes, moment) {
            Answer::Ok { number, id } => {
                *self = other;
                Answer::Ok { number, id }
            }
            refusal => refusal,
        }
    }

    /// Returns the archive without the entries of a text.
    ///
    /// The other entries keep their epochs, numbers and moments. Commits change where one before them
    /// in their epoch is left out.
    fn without_text(&self, text: &[u8]) -> Result<MemArchive, NoMemory>
        ensures { IfOk result (λ made. made ≡ without_entries self.now text.now) }
    {
        let mut made = MemArchive::new(self.alloc, self.config.copy());
        for kept in self.kept.as_slice() {
            if has_other_text(kept, text) {
                made.append_again(kept)?;
            }
        }
        let next = self.next();
        made.number_to_next(next)?;
        Ok(made)
    }

    /// Appends an entry of another archive, in its own epoch and under its own number. Numbers that a
    /// message leaves out have no message.
    ///
    /// `NoMemory` may leave these numbers given.
    fn append_again(&mut self, kept: &Kept) -> Result<(), NoMemory>
        requires { EntryMayFollow self.old (entry_of kept.now) }
        ensures { OnOk result (self.new ≡ appended_as self.old (entry_of kept.now)) }
    {
        let begin = self.end.in_epoch(kept.epoch, self.config.limit);
        let spelled = EntryText {
            form: self.config.form,
            kind: kept.kind,
            text: kept.text.as_slice(),
            moment: kept.moment,
        };
        let ids = text_ids(spelled.text, spelled.form);
        let end = begin.after(self.alloc, &spelled, &ids.blob)?;
        let commit = end.parent.unwrap();
        let entry = kept.copy(self.alloc, commit)?;
        match kept.kind {
            EntryKind::Message => {
                self.number_to_next(kept.number)?;
                self.append_message(entry, &ids, end)
            }
            EntryKind::Deletion => self.append_deletion(entry, end),
        }
    }

    /// Appends a message with the next number, whose text has these ids.
    ///
    /// `NoMemory` leaves the archive unchanged.
    fn append_message(&mut self, entry: Kept, ids: &TextIds, end: End) -> Result<(), NoMemory>
        requires ids { ids.now ≡ text_ids_of self.old.config.form entry.text }
        requires follows { EntryMayFollow self.old (entry_of entry) }
        requires number { entry.number ≡ self.old.next }
        requires ends { IsEndAfter self.old (entry_of entry) entry.commit end }
        ensures ok { OnOk result (self.new ≡ appended_as self.old (entry_of entry)) }
        ensures err { OnErr result (self.new ≡ self.old) }
    {
        let id = own_id_bytes(self.alloc, entry.text.as_slice())?;
        let owner = self.owner_of(ids.content);
        let index = self.kept.len();
        self.places.reserve(1)?;
        self.kept.reserve(1)?;
        let number = owner.number;
        add_if_stored(
            self.alloc,
            &mut self.views,
            number,
            ids,
            entry.text.as_slice(),
            entry.moment,
        )?;
        if let Err(NoMemory) = self.index.insert(id, ids.blob, owner) {
            let _ = self.views.take(number);
            return Err(NoMemory);
        }
        self.kept.push(entry)?;
        self.places.push(Some(KeptPlace {
            entry: index,
            live: true,
        }))?;
        self.end = end;
        Ok(())
    }

    /// Appends the deletion of a live message.
    ///
    /// `NoMemory` leaves the archive unchanged.
    fn append_deletion(&mut self, entry: Kept, end: End) -> Result<(), NoMemory>
        requires follows { EntryMayFollow self.old (entry_of entry) }
        requires kind { entry.kind ≡ EntryKind.Deletion }
        requires ends { IsEndAfter self.old (entry_of entry) entry.commit end }
        ensures ok { OnOk result (self.new ≡ appended_as self.old (entry_of entry)) }
        ensures err { OnErr result (self.new ≡ self.old) }
    {
        let id = own_id_bytes(self.alloc, entry.text.as_slice())?;
        let number = entry.number;
        self.kept.push(entry)?;
        self.index.remove(id.as_slice());
        // The row and the words are taken, even if memory runs out for the threads.
        let _ = self.views.take(number);
        hide(&mut self.places, number as usize - 1);
        self.end = end;
        Ok(())
    }

    /// Gives the numbers from the next one on, up to the one before this, no message.
    ///
    /// `NoMemory` leaves the archive unchanged.
    fn number_to_next(&mut self, next: u32) -> Result<(), NoMemory>
        requires { next ≤ self.old.config.max + 1 }
        ensures ok { OnOk result (self.new ≡ numbered_to self.old next) }
        ensures err { OnErr result (self.new ≡ self.old) }
    {
        let now = self.next();
        if next <= now {
            return Ok(());
        }
        self.places.resize(next as usize - 1, None)?;
        Ok(())
    }

    /// Returns the number of the next message.
    pub(crate) fn next(&self) -> u32
        ensures { result ≡ self.now.next }
    {
        self.places.len() as u32 + 1
    }

    /// Returns the index entry of the next message, if this is its content id.
    fn owner_of(&self, content: [u8; 32]) -> Owner
        ensures { result ≡ record { number = self.now.next; content = content } }
    {
        Owner {
            number: self.next(),
            content,
        }
    }

    /// Appends a message, whose text has these ids.
    ///
    /// `NoMemory` leaves the archive unchanged.
    fn keep(&mut self, text: Bytes, ids: &TextIds, moment: u64) -> Result<(), NoMemory>
        requires ids { ids.now ≡ text_ids_of self.old.config.form text }
        requires free { IsFree (live self.old.entries) text }
        requires alone { collision self.old.config.form self.old.entries text ≡ None }
        requires room { self.old.next ≤ self.old.config.max }
        ensures ok { OnOk result (self.new ≡ with_entry self.old (new_epoch self.old) text moment) }
        ensures err { OnErr result (self.new ≡ self.old) }
    {
        let kind = EntryKind::Message;
        let spelled = EntryText {
            form: self.config.form,
            kind,
            text: text.as_slice(),
            moment,
        };
        let end = self
            .end
            .with(self.alloc, self.config.limit, &spelled, &ids.blob)?;
        let commit = end.parent.unwrap();
        let number = self.next();
        let entry = Kept {
            kind,
            number,
            epoch: end.epoch,
            text,
            moment,
            commit,
        };
        self.append_message(entry, ids, end)
    }
}

/// Returns whether the storage form of bytes is a text.
fn stores_as(alloc: Global, bytes: &[u8], text: &[u8]) -> Result<bool, NoMemory>
    ensures { IfOk result (λ same. same ≡ is_form text.now (stored_of bytes.now)) }
{
    match stored(alloc, bytes) {
        Ok(form) => Ok(form.as_slice() == text),
        Err(StoredRefusal::NoMemory) => Err(NoMemory),
        Err(_refused) => Ok(false),
    }
}

/// Returns whether an entry has another text than this.
fn has_other_text(kept: &Kept, text: &[u8]) -> bool
    ensures { result ≡ not (bytes_eq text.now kept.now.text) }
{
    text != kept.text.as_slice()
}

/// Returns a copy of the own id of a text that has one.
fn own_id_bytes(alloc: Global, text: &[u8]) -> Result<Vec<u8>, NoMemory>
    requires { IsSome (own_id_of text.now) }
    ensures { IfOk result (λ id. own_id_of text.now ≡ Some id.items) }
{
    match own_id(text) {
        None => Ok(Vec::new(alloc)),
        Some(id) => Ok(Vec::from_slice(alloc, id)?),
    }
}
