//! Courses of commands on archives on disks in memory: what is left where the disk stops.
ghost use Rattle.std.specs.Prelude.{◌≤◌, IfOk, OnOk};
ghost use Rattle.disk_model.specs.Disk.{WhereTold};
ghost use Rattle.epoch_store.specs.Commands.{StoreHasSizes};

use arch_model::{Answer, Command, OpenRefusal};
use archive_core::DiskArchive;
use archive_fixtures::{accepted, opened};
use disk_model::{Disk, DiskFault, FuseDisk, MemDisk};
use epoch_store::InitRefusal;
use fixtures::{LATER, empty_disk, settings};
use std::alloc::Global;
use std::test::Fail;

/// The numbers of entries and of live messages, and the next number.
#[derive(Clone, Copy, PartialEq, Eq, Drop)]
pub(crate) struct Counts(pub(crate) u64, pub(crate) u32, pub(crate) u32);

/// What an archive without entries has, and none.
const NOTHING: Counts = Counts(0, 0, 1);

/// How a command is answered.
#[derive(Drop)]
pub(crate) enum Reply {
    /// It is done, with this number and blob id.
    Done(u32, &'static [u8]),
    /// It is refused.
    Refused(Answer),
}

impl Reply {
    /// Returns whether an answer is this one.
    fn matches(&self, answer: Answer) -> bool {
        match self {
            Reply::Done(number, hex) => accepted(*number, hex) == Some(answer),
            Reply::Refused(refusal) => answer == *refusal,
        }
    }
}

/// A command of a course.
#[derive(Drop)]
pub(crate) struct Step {
    /// The command.
    pub(crate) command: Command<'static>,
    /// How it is answered.
    pub(crate) reply: Reply,
    /// What the archive has after it.
    pub(crate) counts: Counts,
}

/// How far a course came on a disk.
#[derive(Clone, Copy, Drop)]
pub(crate) struct Reached {
    /// What the archive had before the command in which the disk failed, or at the end.
    before: Counts,
    /// What it has if that command was done, or at the end.
    after: Counts,
    /// Whether the disk failed.
    failed: bool,
    /// Whether each answer was the right one.
    right: bool,
}

impl Reached {
    /// Returns whether an archive may be left that has this.
    fn may_leave(&self, found: Counts) -> bool {
        found == self.before || found == self.after
    }
}

/// Makes an archive on a disk, with epochs of this least length.
pub(crate) fn made<D: Disk>(
    alloc: Global,
    disk: &mut D,
    limit: u64,
) -> Result<DiskArchive, InitRefusal>
    requires low { 1 ≤ limit }
    requires high { limit ≤ 1099511627776 }
    ensures { IfOk result (λ archive. WhereTold (StoreHasSizes archive) (D.content disk.new)) }
{
    match settings(limit, 10, false) {
        None => Err(InitRefusal::NoMemory),
        Some(config) => DiskArchive::init(alloc, disk, &config),
    }
}

/// Carries out a command, and returns whether it is answered so, or that the disk failed.
pub(crate) fn is_answered<D: Disk>(
    archive: &mut DiskArchive,
    disk: &mut D,
    step: &Step,
) -> Result<bool, DiskFault>
    requires sizes { WhereTold (StoreHasSizes archive.old) (D.content disk.old) }
    ensures sizes { OnOk result (WhereTold (StoreHasSizes archive.new) (D.content disk.new)) }
{
    match archive.command(disk, &step.command, LATER) {
        Answer::DiskFault => Err(DiskFault),
        answer => Ok(step.reply.matches(answer)),
    }
}

/// Carries out commands until the disk fails.
fn carry_out<D: Disk>(archive: &mut DiskArchive, disk: &mut D, steps: &[Step]) -> Reached
    requires sizes { WhereTold (StoreHasSizes archive.old) (D.content disk.old) }
{
    let mut right = true;
    let mut last = NOTHING;
    for step in steps {
        match is_answered(archive, disk, step) {
            Ok(one) => {
                right &= one;
                last = step.counts;
            }
            Err(DiskFault) => {
                return Reached {
                    before: last,
                    after: step.counts,
                    failed: true,
                    right,
                };
            }
        }
    }
    Reached {
        before: last,
        after: last,
        failed: false,
        right,
    }
}

/// Makes an archive on a disk, and carries out commands until the disk fails.
fn run<D: Disk>(alloc: Global, disk: &mut D, limit: u64, steps: &[Step]) -> Reached
    requires low { 1 ≤ limit }
    requires high { limit ≤ 1099511627776 }
{
    match made(alloc, disk, limit) {
        Ok(mut archive) => carry_out(&mut archive, disk, steps),
        Err(refusal) => Reached {
            before: NOTHING,
            after: NOTHING,
            failed: true,
            right: refusal == InitRefusal::DiskFault,
        },
    }
}

/// Runs a course on a disk that stops after this many calls, and returns the disk, as they left it.
pub(crate) fn stopped(alloc: Global, passes: u64, limit: u64, steps: &[Step]) -> (Reached, MemDisk)
    requires low { 1 ≤ limit }
    requires high { limit ≤ 1099511627776 }
{
    let mut fuse = FuseDisk::new(empty_disk(alloc), passes);
    let reached = run(alloc, &mut fuse, limit, steps);
    (reached, fuse.into_inner())
}

/// Opens the archive on a disk, and returns what it has. No archive has nothing.
fn opened_counts(alloc: Global, disk: MemDisk) -> Result<Counts, OpenRefusal> {
    match opened(alloc, disk) {
        Ok(engine) => Ok(Counts(
            engine.entry_count(),
            engine.message_count(),
            engine.next_of_root(),
        )),
        Err(OpenRefusal::NoArchive) => Ok(NOTHING),
        Err(refusal) => Err(refusal),
    }
}

/// Returns whether each image that a crash now may leave of a disk is the archive before the command in
/// which it stopped, or the one after it.
fn images_are_whole(alloc: Global, disk: &MemDisk, reached: &Reached) -> Result<bool, Fail> {
    let mut whole = true;
    for pick in 0..4 {
        let image = disk.image(disk.moments(), pick)?;
        whole = reached.may_leave(opened_counts(alloc, image)?) && whole;
    }
    Ok(whole)
}

/// Stops a course after this many calls of the disk. Returns whether the disk, and each image of it, is
/// the archive before the command in which it stopped or the one after it; and whether the disk failed.
fn stop_is_whole(
    alloc: Global,
    passes: u64,
    limit: u64,
    steps: &[Step],
) -> Result<(bool, bool), Fail>
    requires low { 1 ≤ limit }
    requires high { limit ≤ 1099511627776 }
{
    let (reached, disk) = stopped(alloc, passes, limit, steps);
    let images = images_are_whole(alloc, &disk, &reached)?;
    let left = reached.may_leave(opened_counts(alloc, disk)?);
    Ok((images && left && reached.right, reached.failed))
}

/// Returns whether a stop after each number of calls leaves the archive before a command or the one after
/// it, up to a number that is enough for the course, which is below `most`.
///
/// A change of the disk is one call, so each moment of the course is the last one of some stop.
pub(crate) fn stops_are_whole(
    alloc: Global,
    most: u64,
    limit: u64,
    steps: &[Step],
) -> Result<bool, Fail>
    requires low { 1 ≤ limit }
    requires high { limit ≤ 1099511627776 }
{
    let mut whole = true;
    for passes in 0..most {
        let (one, failed) = stop_is_whole(alloc, passes, limit, steps)?;
        whole = whole && one;
        if !failed {
            return Ok(whole);
        }
    }
    Ok(false)
}

/// Returns whether a crash after each command that was answered leaves the archive after it alone.
pub(crate) fn answers_last(alloc: Global, limit: u64, steps: &[Step]) -> Result<bool, Fail>
    requires low { 1 ≤ limit }
    requires high { limit ≤ 1099511627776 }
{
    let mut last = true;
    for count in 0..=steps.len() {
        let (one, failed) = stop_is_whole(alloc, u64::MAX, limit, steps.split_at(count).0)?;
        last = last && one && !failed;
    }
    Ok(last)
}
