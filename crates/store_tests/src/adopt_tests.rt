//! Mirrors on disks in memory that become the archives of their sources, which are archives in memory.
ghost use Rattle.std.specs.Prelude.{◌≤◌, IsSome, IsTrue, IfOk, OnOk};
ghost use Rattle.disk_model.specs.Disk.{WhereTold};
ghost use Rattle.disk_model.specs.Sizes.{greatest_epoch};
ghost use Rattle.mail_reader.specs.Ids.{own_id as own_id_in};
ghost use Rattle.store_finding.specs.Extents.{AreUpToEpoch};
ghost use Rattle.epoch_store.specs.Adopting.{IsAdoptionOf};
ghost use Rattle.epoch_store.specs.Commands.{StoreHasSizes};

use crate::making_tests::{ROOT, make_by};
use crate::opening_tests::{Change, ENOUGH, Listing, open_stopped};
use arch_base::{Bytes, Form, NoMemory};
use arch_model::{Command, EntryLine, Shelf};
use archive_fixtures::{in_memory, is_ok};
use disk_model::{Disk, DiskFault, FileKind, FileName, FuseDisk, LAST_EPOCH, MemDisk};
use epoch_file::StoreRefusal;
use epoch_store::{Adoption, Store};
use fixtures::{FIRST, LATER, OTHER, SECOND, THIRD, empty_disk, failing, settings};
use git_objects::EntryKind;
use mail_commits::text_ids;
use mail_reader::own_id;
use mem_archive::MemArchive;
use number_map::{Record, walk, without_message};
use std::alloc::Global;
use std::process::Abort;
use std::test::Fail;
use store_finding::StoredEntry;

/// The least length of an epoch: it takes three entries.
const LIMIT: u64 = 673;

/// More entries than any source has.
const MOST: u64 = 20;

/// What becomes of a source between two adoptions by its mirror, and the files of the mirror then.
#[derive(Drop)]
struct Case {
    /// The commands of the source before the first adoption.
    before: &'static [Command<'static>],
    /// Those before the second one.
    change: &'static [Command<'static>],
    /// The files of the mirror after that.
    files: &'static [FileName],
}

/// The file of the map after the second adoption, which is the third root.
const MAP: FileName = FileName {
    kind: FileKind::Map,
    number: 0,
    generation: 3,
};

/// The file of the first epoch, as the first adoption makes it.
const KEPT: FileName = FileName {
    kind: FileKind::Epoch,
    number: 0,
    generation: 2,
};

/// The files of the first two epochs, as the second adoption makes them.
const ANEW: FileName = FileName {
    kind: FileKind::Epoch,
    number: 0,
    generation: 3,
};

const NEXT_ANEW: FileName = FileName {
    kind: FileKind::Epoch,
    number: 1,
    generation: 3,
};

/// Sources that grow, or stay: no own entry is left out.
static GROWING: [Case; 4] = [
    // One more in the epoch of the others.
    Case {
        before: &[Command::Deliver(FIRST), Command::Deliver(SECOND)],
        change: &[Command::Deliver(THIRD)],
        files: &[ROOT, MAP, KEPT],
    },
    // One more in the next epoch.
    Case {
        before: &[
            Command::Deliver(FIRST),
            Command::Deliver(SECOND),
            Command::Deliver(THIRD),
        ],
        change: &[Command::Remove(2)],
        files: &[ROOT, MAP, KEPT, NEXT_ANEW],
    },
    // Nothing.
    Case {
        before: &[Command::Deliver(FIRST), Command::Deliver(SECOND)],
        change: &[],
        files: &[ROOT, MAP, KEPT],
    },
    // All.
    Case {
        before: &[],
        change: &[
            Command::Deliver(FIRST),
            Command::Deliver(SECOND),
            Command::Deliver(THIRD),
            Command::Remove(1),
        ],
        files: &[ROOT, MAP, ANEW, NEXT_ANEW],
    },
];

/// Sources that lose entries.
static LOSING: [Case; 2] = [
    // The middle one of three in each of two epochs.
    Case {
        before: &[
            Command::Deliver(FIRST),
            Command::Deliver(SECOND),
            Command::Deliver(THIRD),
            Command::Remove(1),
            Command::Remove(2),
            Command::Remove(3),
        ],
        change: &[Command::Purge(2)],
        files: &[ROOT, MAP, ANEW, NEXT_ANEW],
    },
    // All. The numbers stay given.
    Case {
        before: &[
            Command::Deliver(FIRST),
            Command::Deliver(SECOND),
            Command::Deliver(THIRD),
            Command::Remove(1),
        ],
        change: &[Command::Purge(1), Command::Purge(2), Command::Purge(3)],
        files: &[ROOT, MAP],
    },
];

/// Sources that have an entry in place of another one.
static REPLACING: [Case; 2] = [
    // An edit.
    Case {
        before: &[Command::Deliver(FIRST), Command::Deliver(SECOND)],
        change: &[Command::Edit(1, OTHER)],
        files: &[ROOT, MAP, ANEW],
    },
    // The same text under another number: the mirror's own entry of it is left out.
    Case {
        before: &[Command::Deliver(FIRST), Command::Deliver(SECOND)],
        change: &[Command::Purge(1), Command::Deliver(FIRST)],
        files: &[ROOT, MAP, ANEW],
    },
];

/// Returns whether an archive carries out commands.
fn carries_out(archive: &mut MemArchive, commands: &[Command<'static>]) -> bool {
    let mut done = true;
    for command in commands {
        done = is_ok(archive.command(command, LATER)) && done;
    }
    done
}

/// Returns the source of a case, before its change or after it.
fn source_of(alloc: Global, case: &Case, changed: bool) -> Result<MemArchive, StoreRefusal> {
    let Some(mut source) = in_memory(alloc, LIMIT, 10, false) else {
        return Err(StoreRefusal::NoMemory);
    };
    let begun = carries_out(&mut source, case.before);
    let done = !changed || carries_out(&mut source, case.change);
    if begun && done {
        Ok(source)
    } else {
        Err(StoreRefusal::Damaged { file: ROOT, at: 5 })
    }
}

/// Returns the entries of an archive, without their texts.
fn lines_of(alloc: Global, archive: &MemArchive) -> Result<Vec<EntryLine>, NoMemory> {
    let mut lines = Vec::new(alloc);
    for index in 0..MOST {
        if let Some(line) = archive.entry(index) {
            lines.push(line)?;
        }
    }
    Ok(lines)
}

/// Returns what the source of a case has, before its change or after it.
fn listed_in(alloc: Global, case: &Case, changed: bool) -> Result<Listing, StoreRefusal> {
    let source = source_of(alloc, case, changed)?;
    Ok(Listing {
        next: source.next_number(),
        entries: lines_of(alloc, &source)?,
    })
}

/// Returns the change of a case.
fn change_of(alloc: Global, case: &Case) -> Result<Change, StoreRefusal> {
    let before = listed_in(alloc, case, false)?;
    Ok(Change::of(before, listed_in(alloc, case, true)?))
}

/// Returns whether no entry is in a later epoch.
fn are_up_to(entries: &[StoredEntry], epoch: u32) -> bool
    ensures { IsTrue result → AreUpToEpoch epoch entries.now }
{
    for entry in entries {
        if entry.epoch > epoch {
            return false;
        }
    }
    true
}

/// Returns whether an adoption may add a text as the entry of a line.
fn may_add(adoption: &Adoption, line: &EntryLine, text: &[u8]) -> bool
    ensures id { IsTrue result → IsSome (own_id_in text.now) }
    ensures epoch { IsTrue result → line.now.epoch ≤ greatest_epoch }
    ensures later { IsTrue result → AreUpToEpoch line.now.epoch adoption.now.planned.entries }
{
    line.epoch <= LAST_EPOCH && own_id(text).is_some() && are_up_to(adoption.entries(), line.epoch)
}

/// Adds a text as the entry of a line.
fn add_line(
    alloc: Global,
    store: &Store,
    adoption: &mut Adoption,
    line: &EntryLine,
    text: &[u8],
) -> Result<(), StoreRefusal>
    requires of { IsAdoptionOf store.now adoption.old }
    ensures of { OnOk result (IsAdoptionOf store.now adoption.new) }
{
    if !may_add(adoption, line, text) {
        return Err(StoreRefusal::Damaged { file: ROOT, at: 6 });
    }
    let ids = text_ids(text, store.config().form);
    match adoption.add(alloc, store, line, text, &ids) {
        Ok(()) => Ok(()),
        Err(NoMemory) => Err(StoreRefusal::NoMemory),
    }
}

/// Adds the text that a source has for a line.
fn add_from(
    alloc: Global,
    store: &Store,
    adoption: &mut Adoption,
    line: &EntryLine,
    source: &mut MemArchive,
) -> Result<(), StoreRefusal>
    requires of { IsAdoptionOf store.now adoption.old }
    ensures of { OnOk result (IsAdoptionOf store.now adoption.new) }
{
    let mut text = Bytes::new(alloc);
    match source.blob(&line.blob, &mut text) {
        Ok(true) => add_line(alloc, store, adoption, line, text.as_slice()),
        _ => Err(StoreRefusal::Damaged { file: ROOT, at: 7 }),
    }
}

/// Keeps the mirror's own entry of a line, or adds the source's.
fn take_line<D: Disk>(
    alloc: Global,
    disk: &mut D,
    store: &Store,
    adoption: &mut Adoption,
    line: &EntryLine,
    source: &mut MemArchive,
) -> Result<(), StoreRefusal>
    requires of { IsAdoptionOf store.now adoption.old }
    requires sizes { WhereTold (StoreHasSizes store.now) (D.content disk.old) }
    ensures of { OnOk result (IsAdoptionOf store.now adoption.new) }
    ensures sizes { WhereTold (StoreHasSizes store.now) (D.content disk.new) }
{
    match adoption.keep(store, disk, line) {
        Ok(Some(_commit)) => Ok(()),
        Ok(None) => add_from(alloc, store, adoption, line, source),
        Err(refusal) => Err(refusal),
    }
}

/// Takes each line of a source.
fn take_lines<D: Disk>(
    alloc: Global,
    disk: &mut D,
    store: &Store,
    adoption: &mut Adoption,
    source: &mut MemArchive,
) -> Result<(), StoreRefusal>
    requires of { IsAdoptionOf store.now adoption.old }
    requires sizes { WhereTold (StoreHasSizes store.now) (D.content disk.old) }
    ensures of { OnOk result (IsAdoptionOf store.now adoption.new) }
    ensures sizes { WhereTold (StoreHasSizes store.now) (D.content disk.new) }
{
    for index in 0..MOST {
        let Some(line) = source.entry(index) else {
            return Ok(());
        };
        match take_line(alloc, disk, store, adoption, &line, source) {
            Ok(()) => {}
            Err(refusal) => return Err(refusal),
        }
    }
    Ok(())
}

/// Lets a store become the archive that an adoption plans, with a next number that may be one.
fn adopt_to<D: Disk>(
    alloc: Global,
    disk: &mut D,
    store: &mut Store,
    adoption: Adoption,
    next: u32,
) -> Result<(), StoreRefusal>
    requires of { IsAdoptionOf store.old adoption }
    requires sizes { WhereTold (StoreHasSizes store.old) (D.content disk.old) }
    ensures sizes { OnOk result (WhereTold (StoreHasSizes store.new) (D.content disk.new)) }
{
    if next == 0 || next > 2_147_483_648 {
        return Err(StoreRefusal::Damaged { file: ROOT, at: 8 });
    }
    store.adopt(alloc, disk, adoption, next)
}

/// Lets a mirror become the archive of a source.
fn follow<D: Disk>(
    alloc: Global,
    disk: &mut D,
    store: &mut Store,
    source: &mut MemArchive,
) -> Result<(), StoreRefusal>
    requires sizes { WhereTold (StoreHasSizes store.old) (D.content disk.old) }
    ensures sizes { OnOk result (WhereTold (StoreHasSizes store.new) (D.content disk.new)) }
{
    let mut adoption = Adoption::new(alloc, store);
    match take_lines(alloc, disk, store, &mut adoption, source) {
        Ok(()) => adopt_to(alloc, disk, store, adoption, source.next_number()),
        Err(refusal) => Err(refusal),
    }
}

/// Lets a mirror become the archive of the source of a case, before its change or after it.
fn follow_case<D: Disk>(
    alloc: Global,
    disk: &mut D,
    store: &mut Store,
    case: &Case,
    changed: bool,
) -> Result<(), StoreRefusal>
    requires sizes { WhereTold (StoreHasSizes store.old) (D.content disk.old) }
    ensures sizes { OnOk result (WhereTold (StoreHasSizes store.new) (D.content disk.new)) }
{
    let mut source = source_of(alloc, case, changed)?;
    follow(alloc, disk, store, &mut source)
}

/// Makes a mirror.
fn made<D: Disk>(alloc: Global, disk: &mut D) -> Result<Store, StoreRefusal>
    ensures sizes { IfOk result (λ store. WhereTold (StoreHasSizes store) (D.content disk.new)) }
{
    match settings(LIMIT, 10, true) {
        Some(config) => make_by(alloc, disk, &config),
        None => Err(StoreRefusal::Damaged { file: ROOT, at: 1 }),
    }
}

/// Makes a mirror of the source of a case before its change.
fn mirrored<D: Disk>(alloc: Global, disk: &mut D, case: &Case) -> Result<Store, StoreRefusal>
    ensures sizes { IfOk result (λ store. WhereTold (StoreHasSizes store) (D.content disk.new)) }
{
    let mut store = made(alloc, disk)?;
    follow_case(alloc, disk, &mut store, case, false)?;
    Ok(store)
}

/// Returns whether a file has these bytes, fewer than 2,000.
fn has_bytes(disk: &mut MemDisk, file: FileName, wanted: &[u8]) -> Result<bool, DiskFault> {
    let mut buffer = [0; 2000];
    let count = disk.read(file, 0, &mut buffer)?;
    Ok(count == wanted.len() && buffer.starts_with(wanted))
}

/// Returns whether a file has the bytes of an epoch of a source.
fn has_epoch(
    alloc: Global,
    disk: &mut MemDisk,
    file: FileName,
    source: &MemArchive,
) -> Result<bool, StoreRefusal> {
    let mut wanted = Bytes::new(alloc);
    let there = source.push_epoch(file.number, &mut wanted)?;
    let same = has_bytes(disk, file, wanted.as_slice())?;
    Ok(there && same)
}

/// Returns the record that a source has of a number.
fn record_in(source: &MemArchive, number: u32) -> Record {
    for index in 0..MOST {
        if let Some(line) = source.entry(index)
            && line.kind == EntryKind::Message
            && line.number == number
        {
            return Record {
                number,
                epoch: line.epoch,
                blob: line.blob,
            };
        }
    }
    without_message(number, Form::Sha1)
}

/// Returns whether a file has a record of each number of a source, and no other byte.
fn has_map(
    alloc: Global,
    disk: &mut MemDisk,
    file: FileName,
    source: &MemArchive,
) -> Result<bool, Fail> {
    let count = source.next_number().saturating_sub(1);
    let records = walk(alloc, disk, file, count, Form::Sha1)?;
    let length = disk.length(file)?;
    for record in records.as_slice() {
        if *record != record_in(source, record.number) {
            return Ok(false);
        }
    }
    Ok(length == u64::from(count).saturating_mul(28))
}

/// Returns whether a file is as it should be in a mirror of a source.
fn has_file(
    alloc: Global,
    disk: &mut MemDisk,
    file: FileName,
    source: &MemArchive,
) -> Result<bool, Fail> {
    match file.kind {
        FileKind::Root => Ok(disk.length(file)? == 4096),
        FileKind::Map => has_map(alloc, disk, file, source),
        FileKind::Epoch => Ok(has_epoch(alloc, disk, file, source)?),
        FileKind::Cache => Ok(false),
    }
}

/// Returns whether a disk has the files of a mirror of the source of a case after its change, and no
/// other.
fn has_files(alloc: Global, disk: &mut MemDisk, case: &Case) -> Result<bool, Fail> {
    let source = source_of(alloc, case, true)?;
    for file in case.files {
        if !has_file(alloc, disk, *file, &source)? {
            return Ok(false);
        }
    }
    Ok(disk.name_at(case.files.len() as u64)?.is_none())
}

/// Lets a mirror follow the source of a case twice, and returns whether its files are exactly those of
/// the rule then: the epochs of the source, byte for byte.
fn is_exact(alloc: Global, case: &Case) -> Result<bool, Fail> {
    let mut disk = empty_disk(alloc);
    let mut store = mirrored(alloc, &mut disk, case)?;
    follow_case(alloc, &mut disk, &mut store, case, true)?;
    has_files(alloc, &mut disk, case)
}

#[test]
fn a_mirror_that_grows_has_the_files_of_its_source(rt: HostRuntime) -> Result<(), Fail> {
    for (index, case) in GROWING.iter().enumerate() {
        assert!(rt; is_exact(rt.alloc(), case)?, "row {index}");
    }
    Ok(())
}

#[test]
fn a_mirror_that_loses_entries_has_the_files_of_its_source(rt: HostRuntime) -> Result<(), Fail> {
    for (index, case) in LOSING.iter().enumerate() {
        assert!(rt; is_exact(rt.alloc(), case)?, "row {index}");
    }
    Ok(())
}

#[test]
fn an_entry_of_an_own_text_is_left_out(rt: HostRuntime) -> Result<(), Fail> {
    for (index, case) in REPLACING.iter().enumerate() {
        assert!(rt; is_exact(rt.alloc(), case)?, "row {index}");
    }
    Ok(())
}

/// A disk after an adoption that was stopped: how many changes it had before, and the answer.
#[derive(Drop)]
struct Stopped {
    disk: MemDisk,
    start: u64,
    answer: Result<(), StoreRefusal>,
}

impl Stopped {
    /// Opens each image that a crash now may leave, or each since the adoption began if it wasn't stopped.
    /// Returns whether it wasn't.
    fn open_images(
        &self,
        rt: &impl Abort,
        alloc: Global,
        change: &mut Change,
    ) -> Result<bool, Fail> {
        let done = self.answer.is_ok();
        assert!(rt; done || self.answer == Err(StoreRefusal::DiskFault));
        open_stopped(rt, alloc, &self.disk, self.start, change, done)?;
        Ok(done)
    }
}

/// Stops the second adoption of a case after this many calls of the disk.
fn stop(alloc: Global, case: &Case, passes: u64) -> Result<Stopped, StoreRefusal> {
    let mut disk = empty_disk(alloc);
    let mut store = mirrored(alloc, &mut disk, case)?;
    let start = disk.moments();
    let mut fuse = FuseDisk::new(disk, passes);
    let answer = follow_case(alloc, &mut fuse, &mut store, case, true);
    Ok(Stopped {
        disk: fuse.into_inner(),
        start,
        answer,
    })
}

/// Stops the second adoption of a case after this many calls of the disk, and opens what is left.
/// Returns whether there was no stop.
fn stop_after(
    rt: &impl Abort,
    alloc: Global,
    case: &Case,
    passes: u64,
    change: &mut Change,
) -> Result<bool, Fail> {
    let stopped = stop(alloc, case, passes)?;
    stopped.open_images(rt, alloc, change)
}

/// Stops the second adoption of a case after 0, 1, 2 .. calls of the disk, up to the first run without
/// a stop.
fn stop_each(rt: &impl Abort, alloc: Global, case: &Case) -> Result<(), Fail> {
    let mut change = change_of(alloc, case)?;
    for passes in 0..ENOUGH {
        if stop_after(rt, alloc, case, passes, &mut change)? {
            assert!(rt; change.found_both() && passes > 0);
            return Ok(());
        }
    }
    Ok(assert!(rt; false, "no run without a stop"))
}

#[test]
fn a_stop_leaves_a_mirror_that_grows_whole(rt: HostRuntime) -> Result<(), Fail> {
    for case in &GROWING {
        stop_each(&rt, rt.alloc(), case)?;
    }
    Ok(())
}

#[test]
fn a_stop_leaves_a_mirror_that_loses_entries_whole(rt: HostRuntime) -> Result<(), Fail> {
    for case in &LOSING {
        stop_each(&rt, rt.alloc(), case)?;
    }
    Ok(())
}

#[test]
fn a_stop_leaves_a_mirror_that_replaces_an_entry_whole(rt: HostRuntime) -> Result<(), Fail> {
    for case in &REPLACING {
        stop_each(&rt, rt.alloc(), case)?;
    }
    Ok(())
}

/// Carries out both adoptions of a case over a disk of which a call fails, by its ordinal from 1.
/// Returns `None` if it failed before the second one.
fn fail(alloc: Global, case: &Case, ordinal: u64) -> Result<Option<Stopped>, NoMemory> {
    let mut disk = failing(alloc, &[ordinal])?;
    match mirrored(alloc, &mut disk, case) {
        Err(_refusal) => Ok(None),
        Ok(mut store) => {
            let start = disk.moments();
            let answer = follow_case(alloc, &mut disk, &mut store, case, true);
            Ok(Some(Stopped {
                disk,
                start,
                answer,
            }))
        }
    }
}

/// Lets a call of the disk fail in both adoptions of a case, and opens what is left if that was in the
/// second one. Returns whether none failed.
fn fail_at(
    rt: &impl Abort,
    alloc: Global,
    case: &Case,
    ordinal: u64,
    change: &mut Change,
) -> Result<bool, Fail> {
    match fail(alloc, case, ordinal)? {
        None => Ok(false),
        Some(stopped) => stopped.open_images(rt, alloc, change),
    }
}

/// Lets each call of the disk fail in turn, up to the first run in which none does.
fn fail_each(rt: &impl Abort, alloc: Global, case: &Case) -> Result<(), Fail> {
    let mut change = change_of(alloc, case)?;
    for ordinal in 1..ENOUGH {
        if fail_at(rt, alloc, case, ordinal, &mut change)? {
            assert!(rt; change.found_both() && ordinal > 1);
            return Ok(());
        }
    }
    Ok(assert!(rt; false, "no run without a fault"))
}

#[test]
fn a_fault_leaves_a_mirror_that_grows_whole(rt: HostRuntime) -> Result<(), Fail> {
    for case in &GROWING {
        fail_each(&rt, rt.alloc(), case)?;
    }
    Ok(())
}

#[test]
fn a_fault_leaves_a_mirror_that_loses_entries_whole(rt: HostRuntime) -> Result<(), Fail> {
    for case in &LOSING {
        fail_each(&rt, rt.alloc(), case)?;
    }
    Ok(())
}

#[test]
fn a_fault_leaves_a_mirror_that_replaces_an_entry_whole(rt: HostRuntime) -> Result<(), Fail> {
    for case in &REPLACING {
        fail_each(&rt, rt.alloc(), case)?;
    }
    Ok(())
}

/// Lets a new mirror adopt an archive without entries, with this next number. Returns whether it does
/// so and writes, or runs out of memory and writes nothing.
fn adopts_none(alloc: Global, next: u32, allowed: bool) -> Result<bool, StoreRefusal> {
    let mut disk = empty_disk(alloc);
    let mut store = made(alloc, &mut disk)?;
    let start = disk.moments();
    let adoption = Adoption::new(alloc, &store);
    let answer = adopt_to(alloc, &mut disk, &mut store, adoption, next);
    let wrote = disk.moments() > start;
    let named = store.next_number() == if allowed { next } else { 1 };
    if allowed {
        Ok(answer.is_ok() && wrote && named)
    } else {
        Ok(answer == Err(StoreRefusal::NoMemory) && !wrote && named)
    }
}

#[test]
fn a_next_number_far_above_the_entries_is_refused(rt: HostRuntime) -> Result<(), Fail> {
    for (next, allowed) in [
        (1, true),
        (5, true),
        (16_777_218, false),
        (2_147_483_648, false),
    ] {
        assert!(rt; adopts_none(rt.alloc(), next, allowed)?, "next {next}");
    }
    Ok(())
}
