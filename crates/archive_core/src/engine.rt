//! An archive that owns its disk.
//! Writes the disk; syncs.
ghost use Rattle.std.specs.Prelude.{◌≡◌, ◌≤◌, true, false, IfOk, IfErr, OnErr, Err, List, [], None, not, ◌||◌, is_ok, is_some, length, ℕ};
ghost use Rattle.arch_base.specs.Configs.{IsConfig};
ghost use Rattle.arch_base.specs.Moments.{last_moment};
ghost use Rattle.disk_model.specs.Moments.{LeavesOnly};
ghost use Rattle.arch_model.specs.Archives.{Archive, live, text_of};
ghost use Rattle.arch_model.specs.Delivery.{applied};
ghost use Rattle.arch_model.specs.Keeping.{MatchesKnown, KeeperMoves, CommandGives, CommandTaken, CrashesLeaveOnly, FindsStanding, OpeningCause, Reopens, StaysReady, AnswerCause, ReadsFor, text_known};
ghost use Rattle.arch_model.specs.Shelves.{GivesBlobIn, AppendsTo, ShelfStays, ReadCause, ReadsOnce};
ghost use Rattle.arch_model.specs.Standing.{LastKnown, standing, GivesTextIn, KeepsUnlessFound};
ghost use Rattle.epoch_store.specs.Opens.{ReadsWith};
ghost use Rattle.epoch_store.specs.Promises.{MakesArchive, OpensArchive};
ghost use Rattle.store_finding.specs.Kept.{IsStoreWith};
ghost use Rattle.epoch_store.specs.Commands.{RecoversOneOf};
ghost use Rattle.archive_core.specs.Commands.{DoneBy, OnDone, IfUnreadFor, IfRemoval, cache_left, IsForCommand, is_delivery};
ghost use Rattle.archive_core.specs.Converting.{EngineAnswers, EngineConverts, needs_opening_then as needs_opening_by};
ghost use Rattle.archive_core.specs.DamageTold.{TellsDamage};
ghost use Rattle.archive_core.specs.Engines.{HoldsArchive, FilesAre, FindsArchive, IfRefused, Leaves, OnlyReadsOn, TakesAnew, TakesOn, is_ready, needs_opening as needs_opening_after, reading-same, reading-joined, store-left, holds-rest, now-left, reading-kept, engine_of, view_fresh};
ghost use Rattle.archive_core.specs.HandedBack.{disk_made, made_or_why, disk_opened, opened_or_why};
ghost use Rattle.archive_core.specs.Numbers.{GivesTextKept, GivesBlobKept, NamesId};
ghost use Rattle.archive_core.specs.Openings.{RefusesKindly};
ghost use Rattle.view_set.specs.Viewed.{no_mails, views_of};

use crate::archive::DiskArchive;
use crate::not_made::{NotMade, NotOpened};
use crate::opened::Opened;
use crate::rows::follow;
use crate::texts::KeptText;
use arch_base::{Bytes, Config, MessageNumbers, NoMemory, ObjectId};
use arch_model::{Answer, Command, EntryLine, Keep, OpenRefusal, Query, Row, Shelf, TextRefusal};
use disk_model::Disk;
use epoch_store::{ConvertRefusal, law_of_recovery};
use std::alloc::Global;
use std::marker::Model;
use view_set::Views;

/// An archive that owns its disk, and keeps the rows, threads and words of its live messages;
/// implements `Shelf` and `Keep`.
///
/// The archive is stale after a command whose answer is `DiskFault`: it isn't known whether the
/// command was done, and nothing else is answered until the archive is reopened. It is stale after
/// the answer `Damaged` too, which a command on an archive's own disk never gives, and after an `Ok`
/// for whose row, words or threads there was no memory, where nothing is in doubt.
#[derive(Drop)]
pub struct Engine<D: Disk> {
    alloc: Global,
    disk: D,
    archive: DiskArchive,
    views: Views,
    stale: bool,
}

impl<D: Disk> Model for Engine<D> {
    ghost use Rattle.archive_core.specs.Engines.{Owning, SizesUnless};

    ghost Value = { Owning D };

    ghost view = { λ e. record { disk = e.disk; view = e.archive; views = e.views; stale = e.stale } };

    ghost invariant = { λ e. SizesUnless e.stale e.archive (D.content e.disk) };
}

impl<D: Disk> Engine<D> {
    /// Creates an archive without entries on a disk without an open slot.
    ///
    /// The promises and the errors are those of `Store::init`. An error hands the disk back.
    pub fn make(alloc: Global, disk: D, config: &Config) -> Result<Engine<D>, NotMade<D>>
        requires config { IsConfig config.now }
        ensures made { MakesArchive D.Disk disk (disk_made result) config.now (made_or_why result) }
        ensures rows { IfOk result (λ made. made.views ≡ no_mails) }
        ensures ready { IfOk result (λ made. made.stale ≡ false) }
    {
        let mut disk = disk;
        match DiskArchive::init(alloc, &mut disk, config) {
            Ok(archive) => Ok(Engine {
                alloc,
                disk,
                archive,
                views: Views::new(alloc),
                stale: false,
            }),
            Err(why) => Err(NotMade { disk, why }),
        }
    }

    /// Opens the archive on a disk.
    ///
    /// The promises and the errors are those of `DiskArchive::open`. An error hands the disk back.
    pub fn open(alloc: Global, disk: D) -> Result<Engine<D>, NotOpened<D>>
        ensures opened { OpensArchive D.Disk disk (disk_opened result) (opened_or_why result) }
        ensures refused { RefusesKindly (opened_or_why result) (D.content disk)
            (D.content (disk_opened result)) }
        ensures rows { (a : Archive) (cache : List ℕ) → ReadsWith cache a (D.content disk)
            → IfOk result (λ opened. opened.views ≡ views_of a.config.form (live a.entries)) }
        ensures ready { IfOk result (λ opened. opened.stale ≡ false) }
    {
        let mut disk = disk;
        match Opened::open(alloc, &mut disk) {
            Ok(Opened { archive, views }) => Ok(Engine {
                alloc,
                disk,
                archive,
                views,
                stale: false,
            }),
            Err(why) => Err(NotOpened { disk, why }),
        }
    }

    /// Returns the disk, as the archive left it.
    pub fn into_disk(self) -> D
        ensures { result ≡ self.disk }
    {
        let Engine {
            alloc: _,
            disk,
            archive: _,
            views: _,
            stale: _,
        } = self;
        disk
    }

    /// Returns the disk.
    pub fn disk(&self) -> &D
        ensures { result.now ≡ self.now.disk }
    {
        &self.disk
    }
}

impl<D: Disk> Engine<D> {
    /// Returns the number of entries.
    pub fn entry_count(&self) -> u64
        ensures { result ≡ length self.now.view.entries }
    {
        self.archive.entry_count()
    }

    /// Returns the number of the next message, as the current root has it.
    pub fn next_of_root(&self) -> u32
        ensures { result ≡ self.now.view.root.next }
    {
        self.archive.next_number()
    }

    /// Returns the number of live messages.
    pub fn message_count(&self) -> u32
        ensures { (a : Archive) → HoldsArchive D.content self.now a → result ≡ length (live a.entries) }
    {
        // There are no more messages than numbers.
        self.views.live_count(0, u32::MAX).min(u64::from(u32::MAX)) as u32
    }

    /// Carries out a command at a moment, in seconds since 1970 UTC, on an archive that needn't be
    /// reopened. `command` says when it has to be afterwards.
    fn take(&mut self, command: &Command<'_>, moment: u64) -> Answer
        requires ready { self.old.stale ≡ false }
        requires moment { moment ≤ last_moment }
        // A crash in it leaves the archive before the command, or the one after it.
        ensures crash { (a : Archive) (cache : List ℕ)
            → IsStoreWith self.old.view cache a (D.content self.old.disk)
            → LeavesOnly D.Disk self.old.disk self.new.disk
            (RecoversOneOf cache a (cache_left command.now cache) (applied a command.now moment).archive) }
        ensures done { (a : Archive) (cache : List ℕ)
            → IsStoreWith self.old.view cache a (D.content self.old.disk)
            → DoneBy self.new.view cache (cache_left command.now cache) a
            (applied a command.now moment) result
            (D.content self.new.disk) }
        // As a keeper's.
        ensures stands { (a : Archive) → HoldsArchive D.content self.old a → (t : LastKnown)
            × KeeperMoves (engine_of D.Disk) self.old (standing a None) self.new t
            × CommandGives true (standing a None) (λ (b : Archive). applied b command.now moment) result t }
        ensures ready { StaysReady true result (is_ready self.new) }
        // After a removal or a purge that was done the archive after it is held, rows included, even if the
        // engine has to be reopened for its threads.
        ensures removed { IfRemoval (is_delivery command.now)
            ((a : Archive) → HoldsArchive D.content self.old a
            → OnDone result (HoldsArchive D.content self.new (applied a command.now moment).archive)) }
        // A refusal by the rules, and `NoMemory`, change nothing but what reading changes, and a
        // refusal before which no text is read changes nothing at all.
        ensures untouched { IfRefused result (OnlyReadsOn D.Disk self.old
            self.new) }
        ensures unmoved { IfUnreadFor command.now result (self.new ≡ self.old) }
        ensures for_command { IsForCommand command.now result }
        // All that an archive on a disk promises of it.
        ensures takes { TakesOn D.Disk self.old self.new command.now moment result }
        // `Damaged` has the place of an entry whose text isn't there, or a file that is too short.
        ensures damage { TellsDamage self.old.view (D.content self.old.disk) result }
        ensures later { D.faults self.old.disk ≤ D.faults self.new.disk }
        ensures cause { AnswerCause (D.faults self.old.disk) (D.faults self.new.disk) result }
        ensures reads { ReadsFor command.now (D.reads self.old.disk) (D.reads self.new.disk) }
        // A delivery whose blob id no entry has reads nothing.
        ensures unread { (a : Archive) (cache : List ℕ)
            → IsStoreWith self.old.view cache a (D.content self.old.disk)
            → text_known a command.now ≡ false
            → D.reads self.new.disk ≡ D.reads self.old.disk }
    {
        law_of_recovery();
        // After the last sequence of 64 bits nothing is done. No archive takes so many commands.
        if !self.archive.has_next_root() {
            return Answer::NoMemory;
        }
        let mut kept = KeptText::none(self.alloc);
        let mut gone = None;
        let answer = self
            .archive
            .command_keeping(&mut self.disk, command, moment, &mut kept, &mut gone);
        let followed = follow(
            self.alloc,
            &mut self.views,
            command,
            &answer,
            gone,
            &kept,
            moment,
        );
        self.stale = is_left_stale(&answer, &followed);
        answer
    }
}

impl<D: Disk> Engine<D> {
    /// Converts the archive to SHA-256 ids. A stale engine is reopened first.
    ///
    /// The promises and the errors are those of `Store::convert`; `Open` comes only if the archive had to
    /// be reopened and wasn't. After `Ok` the engine is stale, as its rows have the old ids: the next call
    /// opens the archive again. It is stale after `DiskFault` too, when the form is in doubt, and after
    /// `Damaged`.
    pub fn convert(&mut self) -> Result<(), ConvertRefusal>
        ensures answers { EngineAnswers D.Disk self.old self.new result }
        ensures later { D.faults self.old.disk ≤ D.faults self.new.disk }
    {
        match self.fresh() {
            Ok(()) => self.convert_ready(),
            Err(why) => Err(ConvertRefusal::Open(why)),
        }
    }

    /// Converts the archive of an engine that needn't be reopened.
    fn convert_ready(&mut self) -> Result<(), ConvertRefusal>
        requires { self.old.stale ≡ false }
        ensures converts { EngineConverts D.Disk self.old self.new result }
        ensures later { D.faults self.old.disk ≤ D.faults self.new.disk }
    {
        let result = self.archive.convert(&mut self.disk);
        self.stale = needs_opening_then(&result);
        result
    }
}

impl<D: Disk> Shelf for Engine<D> {
    ghost holds = { HoldsArchive D.content };

    ghost ready = { is_ready };

    ghost reads = { λ e. D.reads e.disk };

    ghost faults = { λ e. D.faults e.disk };

    ghost alike = { OnlyReadsOn D.Disk };

    fn config(&self) -> &Config {
        self.archive.config()
    }

    fn next_number(&self) -> u32 {
        self.archive.next_number()
    }

    fn row(&self, n: u32) -> Option<&Row> {
        self.views.get(n)
    }

    fn by_id(&self, id: &[u8]) -> Option<u32> {
        self.views.by_id(id)
    }

    fn live_from(&self, n: u32) -> Option<u32> {
        self.views.live_from(n)
    }

    fn live_to(&self, n: u32) -> Option<u32> {
        self.views.live_to(n)
    }

    fn live_count(&self, low: u32, high: u32) -> u64 {
        self.views.live_count(low, high)
    }

    fn order_page(&self, skip: u64, count: u64) -> Result<MessageNumbers, NoMemory> {
        self.views.page(skip, count)
    }

    fn thread_of(&self, n: u32) -> Result<MessageNumbers, NoMemory> {
        self.views.thread_of(n)
    }

    fn search(&self, query: &Query) -> Result<MessageNumbers, NoMemory> {
        self.views.search(query)
    }

    fn search_page(
        &self,
        query: &Query,
        skip: u64,
        count: u64,
    ) -> Result<MessageNumbers, NoMemory> {
        self.views.search_page(query, skip, count)
    }

    fn entry(&self, index: u64) -> Option<EntryLine> {
        self.archive.entry(index)
    }

    fn text(&mut self, n: u32, into: &mut Bytes) -> Result<(), TextRefusal>
        requires ready { is_ready self.old ≡ true }
        requires live { (a : Archive) → HoldsArchive D.content self.old a
            → is_some (text_of (live a.entries) n) ≡ true }
        ensures text { (a : Archive) → HoldsArchive D.content self.old a
            → GivesTextIn (live a.entries) n into.old into.new result }
        ensures refused { OnErr result (into.new ≡ into.old) }
        ensures appends { AppendsTo into.old into.new }
        ensures shelf { ShelfStays (HoldsArchive D.content) is_ready
            (OnlyReadsOn D.Disk)
            (λ e. D.faults e.disk) self.old self.new }
        ensures cause { ReadCause (D.faults self.old.disk) (D.faults self.new.disk) result }
        ensures reads { ReadsOnce (D.reads self.old.disk) (D.reads self.new.disk) }
        // Beyond any shelf: a damaged text is told by the blob id of its entry, and by that of the
        // bytes there.
        ensures ids { IfErr result (λ why.
            GivesTextKept self.old.view (D.content self.old.disk) n into.old into.new (Err why)) }
    {
        // A number without a text isn't asked for while an archive is held.
        if !self.archive.has_text(n) {
            return Ok(());
        }
        self.archive.text(&mut self.disk, n, into)
    }

    fn blob(&mut self, id: &ObjectId, into: &mut Bytes) -> Result<bool, TextRefusal>
        requires ready { is_ready self.old ≡ true }
        ensures blob { (a : Archive) → HoldsArchive D.content self.old a
            → GivesBlobIn a.config.form a.entries id.now into.old into.new result }
        ensures kept { KeepsUnlessFound into.old into.new result }
        ensures appends { AppendsTo into.old into.new }
        ensures shelf { ShelfStays (HoldsArchive D.content) is_ready
            (OnlyReadsOn D.Disk)
            (λ e. D.faults e.disk) self.old self.new }
        ensures cause { ReadCause (D.faults self.old.disk) (D.faults self.new.disk) result }
        ensures reads { ReadsOnce (D.reads self.old.disk) (D.reads self.new.disk) }
        // Beyond any shelf: a damaged text is told by this id, and by that of the bytes there.
        ensures named { NamesId id.now result }
        ensures ids { GivesBlobKept self.old.view (D.content self.old.disk) id.now into.old into.new
            result }
    {
        self.archive.blob(&mut self.disk, id, into)
    }

    ghost alike_same = { λ e. reading-same D.Disk.own D.counts_now D.only_now e };

    ghost alike_joined = { λ d e f first second.
        reading-joined D.Disk.own D.counts_now D.only_now d e f first second };
}

impl<D: Disk> Keep for Engine<D> {
    ghost files_are = { FilesAre D.content };

    ghost leaves = { Leaves D.Disk };

    ghost finds = { FindsArchive D.Disk };

    ghost takes = { TakesOn D.Disk };

    fn is_stale(&self) -> bool {
        self.stale
    }

    /// Reopens the archive if the engine is stale, and otherwise does nothing.
    ///
    /// The promises and the refusals are those of `DiskArchive::open`. Finds the archive as which the
    /// files read: the one before a command in doubt, or the one after it.
    fn fresh(&mut self) -> Result<(), OpenRefusal>
        ensures nothing { is_ready self.old ≡ true → (is_ok result ≡ true) × (self.new ≡ self.old) }
        ensures found { (s : LastKnown) → MatchesKnown (engine_of D.Disk) self.old s
            → (t : LastKnown) × KeeperMoves (engine_of D.Disk) self.old s self.new t
            × Reopens s result t
            × FindsStanding (engine_of D.Disk) self.old self.new result t }
        ensures crash { (s : LastKnown) → MatchesKnown (engine_of D.Disk) self.old s
            → CrashesLeaveOnly (Leaves D.Disk) self.old self.new [] }
        ensures ready { is_ready self.new ≡ is_ok result }
        ensures later { D.faults self.old.disk ≤ D.faults self.new.disk }
        ensures cause { OpeningCause (D.faults self.old.disk) (D.faults self.new.disk) result }
        // Beyond any keeper, whatever the disk holds: it is opened as an archive is on a disk.
        ensures opened { is_ready self.old ≡ false
            → OpensArchive D.Disk self.old.disk self.new.disk (view_fresh result self.new) }
        ensures refused { is_ready self.old ≡ false
            → RefusesKindly result (D.content self.old.disk) (D.content self.new.disk) }
    {
        law_of_recovery();
        if !self.stale {
            return Ok(());
        }
        match Opened::open(self.alloc, &mut self.disk) {
            Ok(Opened { archive, views }) => {
                self.archive = archive;
                self.views = views;
                self.stale = false;
                Ok(())
            }
            Err(refusal) => Err(refusal),
        }
    }

    fn reindex(&mut self) -> Result<u32, OpenRefusal> {
        // What is kept beside the files is out of use until they are read again.
        self.stale = true;
        match self.fresh() {
            Ok(()) => Ok(self.message_count()),
            Err(why) => Err(why),
        }
    }

    /// Carries out a command at a moment, in seconds since 1970 UTC. A stale engine is reopened first.
    ///
    /// The archive has to be reopened after the answers `DiskFault` and `Damaged`, and after an `Ok`
    /// for whose row, words or threads there was no memory: then nothing is in doubt. It needn't be after
    /// any other answer. After a removal and a purge the rows are right in any case, and memory may have
    /// run out for the threads alone. `Damaged` never comes while an archive is held.
    fn command(&mut self, command: &Command<'_>, moment: u64) -> Answer
        requires moment { moment ≤ last_moment }
        ensures done { (s : LastKnown)
            → MatchesKnown (engine_of D.Disk) self.old s
            → (t : LastKnown) × KeeperMoves (engine_of D.Disk) self.old s self.new t
            × CommandGives (is_ready self.old) s (λ (a : Archive). applied a command.now moment) result t
            × CommandTaken (engine_of D.Disk) self.old s command.now moment self.new result t }
        ensures ready { StaysReady (is_ready self.old) result (is_ready self.new) }
        ensures later { D.faults self.old.disk ≤ D.faults self.new.disk }
        ensures cause { AnswerCause (D.faults self.old.disk) (D.faults self.new.disk) result }
        ensures reads { is_ready self.old ≡ true
            → ReadsFor command.now (D.reads self.old.disk) (D.reads self.new.disk) }
        ensures unread { (a : Archive) → HoldsArchive D.content self.old a → is_ready self.old ≡ true
            → text_known a command.now ≡ false → D.reads self.new.disk ≡ D.reads self.old.disk }
        // Beyond any keeper. Each command gives only the answers of its kind.
        ensures for_command { IsForCommand command.now result }
        // On any disk, told or not: an engine that needn't be reopened takes a command as an archive on a
        // disk does. So a purge and an edit leave no cache, and the root file has one new root in its
        // other slot. One that has to be reopened was, and took it so from there; or that was refused.
        ensures takes { is_ready self.old ≡ true
            → TakesOn D.Disk self.old self.new command.now moment result }
        ensures anew { is_ready self.old ≡ false
            → TakesAnew D.Disk self.old self.new command.now moment result }
        // The rest is said of an archive that needn't be reopened. A crash leaves the archive before the
        // command, or the one after it, and the disk is then that of the one that the answer tells, both
        // with this cache.
        ensures crash { (a : Archive) (cache : List ℕ) → is_ready self.old ≡ true
            → IsStoreWith self.old.view cache a (D.content self.old.disk)
            → LeavesOnly D.Disk self.old.disk self.new.disk
            (RecoversOneOf cache a (cache_left command.now cache) (applied a command.now moment).archive) }
        ensures store { (a : Archive) (cache : List ℕ) → is_ready self.old ≡ true
            → IsStoreWith self.old.view cache a (D.content self.old.disk)
            → DoneBy self.new.view cache (cache_left command.now cache) a
            (applied a command.now moment) result (D.content self.new.disk) }
        // After a removal or a purge that was done the archive after it is held, rows included, even if the
        // engine has to be reopened for its threads.
        ensures removed { is_ready self.old ≡ true → IfRemoval (is_delivery command.now)
            ((a : Archive) → HoldsArchive D.content self.old a
            → OnDone result (HoldsArchive D.content self.new (applied a command.now moment).archive)) }
        // A refusal by the rules, and `NoMemory`, change nothing but what reading changes, and a
        // refusal before which no text is read changes nothing at all.
        ensures untouched { is_ready self.old ≡ true
            → IfRefused result (OnlyReadsOn D.Disk self.old self.new) }
        ensures unmoved { is_ready self.old ≡ true
            → IfUnreadFor command.now result (self.new ≡ self.old) }
        // `Damaged` has the place of an entry whose text isn't there, or a file that is too short.
        ensures damage { is_ready self.old ≡ true
            → TellsDamage self.old.view (D.content self.old.disk) result }
    {
        match self.fresh() {
            Ok(()) => self.take(command, moment),
            Err(refusal) => refusal.answer(),
        }
    }

    fn epoch_bytes(&mut self, epoch: u32, into: &mut Bytes) -> Result<bool, TextRefusal> {
        self.archive.epoch_bytes(&mut self.disk, epoch, into)
    }

    ghost holds_files_are = { λ e a store.
        holds-rest D.Disk.own D.counts_now D.only_now e a store };

    ghost holds_left = { λ e a may store has.
        store-left D.Disk.own D.counts_now D.only_now e a may (store.0, store.1) has };

    ghost leaves_now = { λ start e may left.
        now-left D.Disk.own D.counts_now D.only_now start e may left };

    ghost alike_kept = { λ d e read.
        reading-kept D.Disk.own D.counts_now D.only_now d e read };
}

/// Returns whether an archive has to be reopened after this answer.
///
/// It has to be if the disk failed, or a file is damaged.
fn needs_opening(answer: &Answer) -> bool
    ensures { result ≡ needs_opening_after answer.now }
{
    match answer {
        Answer::DiskFault => true,
        Answer::Damaged { file: _, at: _ } => true,
        _other => false,
    }
}

/// Returns whether an archive has to be reopened after this answer of a conversion.
fn needs_opening_then(answer: &Result<(), ConvertRefusal>) -> bool
    ensures { result ≡ needs_opening_by answer.now }
{
    matches!(
        answer,
        Ok(()) | Err(ConvertRefusal::DiskFault | ConvertRefusal::Damaged { .. })
    )
}

/// Returns whether an archive has to be reopened after this answer, whose rows were brought up or not.
fn is_left_stale(answer: &Answer, followed: &Result<(), NoMemory>) -> bool
    ensures { result ≡ (needs_opening_after answer.now || not (is_ok followed.now)) }
{
    needs_opening(answer) || followed.is_err()
}
