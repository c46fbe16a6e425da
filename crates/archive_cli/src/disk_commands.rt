//! The work of `init`, `reindex`, `check`, `convert` and a command on the archive on a disk.
//! Writes the disk; syncs.
//!
//! Each takes the disk, and hands it back.
ghost use Rattle.std.specs.Prelude.{◌≡◌, ◌≤◌, ◌-◌, ℕ, List};
ghost use Rattle.arch_base.specs.Configs.{IsConfig};
ghost use Rattle.arch_base.specs.Counts.{RoseIf};
ghost use Rattle.arch_base.specs.Moments.{last_moment};
ghost use Rattle.disk_model.specs.Disk.{WhereTold};
ghost use Rattle.disk_model.specs.Moments.{LeavesOnly};
ghost use Rattle.arch_model.specs.Archives.{Archive};
ghost use Rattle.arch_model.specs.Standing.{LastKnown};
ghost use Rattle.arch_model.specs.declared.answer.Answer.{Answer};
ghost use Rattle.store_finding.specs.Files.{as_read};
ghost use Rattle.epoch_store.specs.First.{MakingLeaves};
ghost use Rattle.epoch_store.specs.Opens.{ReadsWith, SyncsAtMost};
ghost use Rattle.epoch_store.specs.Promises.{GoesOnBy};
ghost use Rattle.store_finding.specs.Kept.{StoreState, IsStoreWith};
ghost use Rattle.epoch_store.specs.Commands.{StoreHasSizes};
ghost use Rattle.root_slots.specs.OneRoot.{BeginsRootIn, BeginsNoRoot, BeginsOneRoot};
ghost use Rattle.archive_core.specs.Commands.{DoneBy, FilesFor, IsForCommand, OnDone, OnRefusal, OnlyLooks, UnlessFault, cache_left, way_of};
ghost use Rattle.archive_cli.specs.DiskCommands.{MakesDisk, unmade, TakesTo, ReindexesTo, ChecksTo, ConvertsTo, ConvertsOpened, IsOpenedAs, IsReply, IsReindex, IsCheck, IsConversion, StandsAs, CommandTakes, ReindexesOn, ChecksOn, ConvertsOn, RunsOrStays, LeavesConverted, LeavesEither, IsFault, taking};
ghost use Rattle.archive_cli.specs.OpenedFiles.{CommitsIfConverted, CommitsIfDone, CommitsOne, LeavesFiles};

use crate::outcome::Outcome;
use arch_base::Config;
use arch_model::{Answer, Command};
use archive_core::{CountedArchive, DiskArchive, Engine, NotMade, NotOpened};
use convert_planning::law_of_collisions;
use disk_model::Disk;
use epoch_store::InitRefusal;
use std::alloc::Global;

/// Makes an archive with these settings on a disk that has none.
pub(crate) fn make<D: Disk>(alloc: Global, disk: D, config: &Config) -> (Outcome, D)
    requires config { IsConfig config.now }
    ensures crash { LeavesOnly D.Disk disk result.1
        (MakingLeaves config.now (D.content disk)) }
    ensures made { MakesDisk config.now result.0 (D.content disk) (D.content result.1) }
    ensures cause { RoseIf (IsFault result.0) (D.faults disk) (D.faults result.1) }
{
    match Engine::make(alloc, disk, config) {
        Ok(engine) => (Outcome::Made(config.name.copy()), engine.into_disk()),
        Err(NotMade { disk, why }) => (outcome_of(&why), disk),
    }
}

/// Returns how `init` ends if no archive is made.
fn outcome_of(why: &InitRefusal) -> Outcome
    ensures { result ≡ unmade why.now }
{
    match why {
        InitRefusal::Exists => Outcome::Exists,
        InitRefusal::DiskFault => Outcome::Answered(Answer::DiskFault),
        InitRefusal::NoMemory => Outcome::Answered(Answer::NoMemory),
    }
}

/// Carries out a command on the archive on a disk, at a moment in seconds since 1970 UTC.
pub(crate) fn take<D: Disk>(
    alloc: Global,
    disk: D,
    command: &Command<'_>,
    moment: u64,
) -> (Outcome, D)
    requires moment { moment ≤ last_moment }
    ensures crash { RunsOrStays D.Disk disk result.1
        (LeavesEither (way_of command.now) (taking command.now moment)) }
    ensures crash_root { BeginsOneRoot D.Disk disk result.1 }
    ensures stands { (s : LastKnown) (cache : List ℕ) → StandsAs cache s (D.content disk)
        → (t : LastKnown) × StandsAs cache t (D.content result.1)
        × CommandTakes s (D.content disk) (taking command.now moment) result.0 t }
    ensures done { (a : Archive) (cache : List ℕ) → ReadsWith cache a (D.content disk)
        → TakesTo (way_of command.now) cache a (taking command.now moment a) result.0
        (D.content result.1) }
    ensures answer { WhereTold (λ k. IsOpenedAs (as_read k) result.0) (D.content disk) }
    ensures files { LeavesFiles result.0 (D.content disk) (D.content result.1) }
    ensures commits { CommitsIfDone (way_of command.now) (FilesFor command.now) result.0
        (D.content disk) (D.content result.1) }
    ensures kind { IsReply (IsForCommand command.now) result.0 }
    ensures cause { RoseIf (IsFault result.0) (D.faults disk) (D.faults result.1) }
{
    let mut disk = disk;
    match DiskArchive::open(alloc, &mut disk) {
        Ok(archive) => {
            let answer = answered(archive, &mut disk, command, moment);
            (Outcome::Answered(answer), disk)
        }
        Err(why) => (Outcome::Unopened(why), disk),
    }
}

/// Takes a command on the archive that was opened on a disk, and returns its answer.
///
/// After the last root it is refused as out of memory. No archive takes so many commands.
fn answered<D: Disk>(
    archive: DiskArchive,
    disk: &mut D,
    command: &Command<'_>,
    moment: u64,
) -> Answer
    requires moment { moment ≤ last_moment }
    requires sizes { WhereTold (StoreHasSizes archive) (D.content disk.old) }
    ensures crash { (a : Archive) (cache : List ℕ)
        → IsStoreWith archive cache a (D.content disk.old)
        → LeavesOnly D.Disk disk.old disk.new
        (LeavesEither (way_of command.now) (taking command.now moment) cache a) }
    ensures done { (a : Archive) (cache : List ℕ)
        → IsStoreWith archive cache a (D.content disk.old) → (v : StoreState)
        × DoneBy v cache (cache_left command.now cache) a (taking command.now moment a) result
        (D.content disk.new) }
    ensures commits { OnDone result (CommitsOne (GoesOnBy (way_of command.now))
        (FilesFor command.now) archive (D.content disk.old) (D.content disk.new)) }
    ensures untouched { OnRefusal result (UnlessFault result
        (OnlyLooks D.Disk disk.old disk.new)) }
    ensures crash_root { BeginsRootIn D.Disk (1 - archive.slot) disk.old disk.new }
    ensures for_command { IsForCommand command.now result }
    ensures cause { RoseIf (result ≡ Answer.DiskFault) (D.faults disk.old) (D.faults disk.new) }
{
    // After the last sequence of 64 bits nothing is done. No archive takes so many commands.
    if !archive.has_next_root() {
        return Answer::NoMemory;
    }
    let mut archive = archive;
    archive.command(disk, command, moment)
}

/// Builds anew what is kept beside the files of the archive on a disk: the rows of its live messages,
/// their threads and their words. Counts the live messages.
///
/// Opening the archive rebuilds all of these from the number map and the epochs, and nothing of them
/// outlives a run, so it is opened and counted.
pub(crate) fn reindex<D: Disk>(alloc: Global, disk: D) -> (Outcome, D)
    ensures crash { SyncsAtMost D.Disk disk result.1 }
    ensures crash_root { BeginsNoRoot D.Disk disk result.1 }
    ensures stands { (s : LastKnown) (cache : List ℕ) → StandsAs cache s (D.content disk)
        → (t : LastKnown) × StandsAs cache t (D.content result.1)
        × ReindexesOn s (D.content disk) result.0 t }
    ensures done { (a : Archive) (cache : List ℕ) → ReadsWith cache a (D.content disk)
        → ReindexesTo cache a result.0 (D.content result.1) }
    ensures answer { WhereTold (λ k. IsOpenedAs (as_read k) result.0) (D.content disk) }
    ensures files { LeavesFiles result.0 (D.content disk) (D.content result.1) }
    ensures kind { IsReindex result.0 }
    ensures cause { RoseIf (IsFault result.0) (D.faults disk) (D.faults result.1) }
{
    match Engine::open(alloc, disk) {
        Ok(engine) => {
            let live = engine.message_count();
            (Outcome::Reindexed { live }, engine.into_disk())
        }
        Err(NotOpened { disk, why }) => (Outcome::Unopened(why), disk),
    }
}

/// Reads the whole archive on a disk, and counts its entries and live messages.
pub(crate) fn check<D: Disk>(alloc: Global, disk: D) -> (Outcome, D)
    ensures crash { SyncsAtMost D.Disk disk result.1 }
    ensures crash_root { BeginsNoRoot D.Disk disk result.1 }
    ensures stands { (s : LastKnown) (cache : List ℕ) → StandsAs cache s (D.content disk)
        → (t : LastKnown) × StandsAs cache t (D.content result.1)
        × ChecksOn s (D.content disk) result.0 t }
    ensures done { (a : Archive) (cache : List ℕ) → ReadsWith cache a (D.content disk)
        → ChecksTo cache a result.0 (D.content result.1) }
    ensures answer { WhereTold (λ k. IsOpenedAs (as_read k) result.0) (D.content disk) }
    ensures files { LeavesFiles result.0 (D.content disk) (D.content result.1) }
    ensures kind { IsCheck result.0 }
    ensures cause { RoseIf (IsFault result.0) (D.faults disk) (D.faults result.1) }
{
    let mut disk = disk;
    match CountedArchive::open(alloc, &mut disk) {
        Ok(counted) => {
            let counts = Outcome::Checked {
                entries: counted.entry_count(),
                live: counted.message_count(),
                next: counted.next_of_root(),
            };
            (counts, disk)
        }
        Err(why) => (Outcome::Unopened(why), disk),
    }
}

/// Converts the archive on a disk to SHA-256 ids, and counts its entries.
pub(crate) fn convert<D: Disk>(alloc: Global, disk: D) -> (Outcome, D)
    ensures crash { RunsOrStays D.Disk disk result.1 LeavesConverted }
    ensures crash_root { BeginsOneRoot D.Disk disk result.1 }
    ensures stands { (s : LastKnown) (cache : List ℕ) → StandsAs cache s (D.content disk)
        → (t : LastKnown) × StandsAs cache t (D.content result.1)
        × ConvertsOn s (D.content disk) result.0 t }
    ensures done { (a : Archive) (cache : List ℕ) → ReadsWith cache a (D.content disk)
        → ConvertsTo cache a result.0 (D.content result.1) }
    ensures answer { WhereTold (λ k. IsOpenedAs (as_read k) result.0) (D.content disk) }
    ensures files { LeavesFiles result.0 (D.content disk) (D.content result.1) }
    ensures commits { CommitsIfConverted result.0 (D.content disk) (D.content result.1) }
    ensures kind { IsConversion result.0 }
    ensures cause { RoseIf (IsFault result.0) (D.faults disk) (D.faults result.1) }
{
    law_of_collisions();
    let mut disk = disk;
    match CountedArchive::open(alloc, &mut disk) {
        Ok(counted) => {
            let outcome = converted(alloc, counted, &mut disk);
            (outcome, disk)
        }
        Err(why) => (Outcome::Unopened(why), disk),
    }
}

/// Converts the archive that was opened on a disk.
fn converted<D: Disk>(alloc: Global, counted: CountedArchive, disk: &mut D) -> Outcome
    requires sizes { WhereTold (StoreHasSizes counted) (D.content disk.old) }
    ensures { ConvertsOpened D.Disk counted disk.old disk.new result }
{
    let entries = counted.entry_count();
    match counted.convert(alloc, disk) {
        Ok(()) => Outcome::Converted { entries },
        Err(why) => Outcome::Unconverted(why),
    }
}
