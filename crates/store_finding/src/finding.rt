//! Reads an archive's files, from the root to the last epoch. Changes nothing.
//! Reads the disk.
ghost use Rattle.std.specs.Prelude.{◌≡◌, ◌≢◌, ◌+◌, ◌<◌, ◌≤◌, Err, IfOk, get_or};
ghost use Rattle.arch_base.specs.Counts.{Rose, RoseIf};
ghost use Rattle.disk_model.specs.Disk.{Image, BothTold, WhereTold, Unchanged};
ghost use Rattle.disk_model.specs.Moments.{LeavesOnly};
ghost use Rattle.disk_model.specs.Sizes.{epoch_count, greatest_epoch};
ghost use Rattle.arch_model.specs.declared.opening.OpenRefusal.{OpenRefusal};
ghost use Rattle.number_map.specs.Records.{AreRecordsFrom};
ghost use Rattle.epoch_file.specs.Forms.{HaveIdsOf};
ghost use Rattle.epoch_file.specs.Lying.{LieIn};
ghost use Rattle.epoch_file.specs.Runs.{OnlyReads};
ghost use Rattle.root_slots.specs.RootName.{root_name};
ghost use Rattle.root_slots.specs.Valid.{IsRoot, RootFits, no_place};
ghost use Rattle.store_finding.specs.Damage.{named_length};
ghost use Rattle.store_finding.specs.Extents.{AreNamed};
ghost use Rattle.store_finding.specs.Files.{as_read, epoch_file_of};
ghost use Rattle.store_finding.specs.Indexes.{IndexesStored};
ghost use Rattle.store_finding.specs.Joined.{AreBefore};
ghost use Rattle.store_finding.specs.StoredIds.{AreOfForm};
ghost use Rattle.store_finding.specs.Finding.{FindsStore, FindsRoot, FindsRecords, FindsEntries, KeepsBy, EndsWith, ReadsEach, ReadsEpoch, ReadsSeen, StopsEpoch, StopsSeen};

use crate::entries::StoredEntry;
use crate::indexing::IndexedEntries;
use crate::join_refusal::JoinRefusal;
use crate::joining::Joining;
use arch_judge::Index;
use arch_model::OpenRefusal;
use disk_model::{Disk, EPOCHS, FileKind, FileName, WalkRefusal};
use epoch_file::{SeenList, law_of_entries, law_of_epochs};
use number_map::Records;
use root_change::{epoch_file, map_file};
use root_slots::{Place, Root, RootRefusal, Slot, root_fits};
use std::alloc::Global;

/// An archive as found: its current root, the root's slot, its entries without texts, and their
/// index.
#[derive(Drop)]
pub struct Found {
    pub root: Root,
    pub slot: Slot,
    pub entries: Vec<StoredEntry>,
    pub index: Index,
}

/// Returns the name of the root file.
fn root_file() -> FileName
    ensures { result ≡ root_name }
{
    FileName {
        kind: FileKind::Root,
        number: 0,
        generation: 0,
    }
}

/// Returns the `Place` of an epoch that a root names.
///
/// It has length 0 and generation 0 if there is no such epoch.
fn named_place(root: &Root, epoch: u32) -> Place
    ensures { result ≡ get_or root.now.epochs epoch no_place }
{
    match root.epochs.get(epoch as usize) {
        Some(place) => *place,
        None => Place {
            generation: 0,
            length: 0,
        },
    }
}

/// Returns the file of an epoch that a root names.
fn named_file(root: &Root, epoch: u32) -> FileName
    ensures { result ≡ epoch_file_of root.now epoch }
{
    epoch_file(epoch, named_place(root, epoch).generation)
}

/// Reads the current root and its slot.
fn find_root<D: Disk>(disk: &mut D) -> Result<(Slot, Root), OpenRefusal>
    ensures found { WhereTold (λ k. FindsRoot (as_read k) result) (D.content disk.old) }
    ensures valid { IfOk result (λ found. IsRoot found.1) }
    ensures fits { IfOk result (λ found. RootFits found.1) }
    ensures reads { OnlyReads D.Disk disk.old disk.new }
    ensures fault { result ≡ Err OpenRefusal.DiskFault
        → Rose (D.faults disk.old) (D.faults disk.new) }
    ensures steady { result ≢ Err OpenRefusal.DiskFault → D.faults disk.new ≡ D.faults disk.old }
{
    match root_slots::read(disk) {
        Ok(Some((slot, root))) => {
            root_fits(&root);
            Ok((slot, root))
        }
        Ok(None) => Err(OpenRefusal::NoArchive),
        Err(RootRefusal::Damaged { at }) => Err(OpenRefusal::Damaged {
            file: root_file(),
            at,
        }),
        Err(RootRefusal::DiskFault) => Err(OpenRefusal::DiskFault),
    }
}

/// Reads the records of the map that a root names.
fn find_records<D: Disk>(alloc: Global, disk: &mut D, root: &Root) -> Result<Records, OpenRefusal>
    requires root { IsRoot root.now }
    ensures found { WhereTold (λ k. FindsRecords root.now (as_read k) result) (D.content disk.old) }
    ensures valid { IfOk result (AreRecordsFrom root.now.config.form 1) }
    ensures reads { OnlyReads D.Disk disk.old disk.new }
    ensures fault { result ≡ Err OpenRefusal.DiskFault
        → Rose (D.faults disk.old) (D.faults disk.new) }
    ensures steady { result ≢ Err OpenRefusal.DiskFault → D.faults disk.new ≡ D.faults disk.old }
{
    let file = map_file(root.map.generation);
    match number_map::walk(alloc, disk, file, root.next - 1, root.config.form) {
        Ok(records) => Ok(records),
        Err(WalkRefusal::Damaged { at }) => Err(OpenRefusal::Damaged { file, at }),
        Err(WalkRefusal::DiskFault) => Err(OpenRefusal::DiskFault),
        Err(WalkRefusal::NoMemory) => Err(OpenRefusal::NoMemory),
    }
}

/// Joins the entries of an epoch to others.
///
/// `Damaged` has the offset of the first entry that can't be joined.
fn take<D: Disk>(
    alloc: Global,
    disk: &mut D,
    root: &Root,
    epoch: u32,
    joining: Joining,
    seen: SeenList,
) -> Result<Joining, OpenRefusal>
    requires small { epoch ≤ greatest_epoch }
    requires before { AreBefore epoch joining.entries }
    ensures taken { WhereTold (λ k.
        ReadsSeen root.now epoch joining seen result (as_read k)) (D.content disk.old) }
    ensures below { IfOk result (λ joined. AreBefore (epoch + 1) joined.entries) }
    ensures named { LieIn 0 (named_length root.now epoch) seen → AreNamed root.now joining.entries
        → IfOk result (λ joined. AreNamed root.now joined.entries) }
    ensures ids { HaveIdsOf root.now.config.form seen → AreOfForm root.now.config.form joining.entries
        → IfOk result (λ joined. AreOfForm root.now.config.form joined.entries) }
    ensures reads { OnlyReads D.Disk disk.old disk.new }
    ensures fault { result ≡ Err OpenRefusal.DiskFault
        → Rose (D.faults disk.old) (D.faults disk.new) }
    ensures steady { result ≢ Err OpenRefusal.DiskFault → D.faults disk.new ≡ D.faults disk.old }
{
    law_of_entries();
    match joining.take_epoch(alloc, disk, root, epoch, seen) {
        Ok(next) => Ok(next),
        Err(JoinRefusal::DiskFault) => Err(OpenRefusal::DiskFault),
        Err(JoinRefusal::NoMemory) => Err(OpenRefusal::NoMemory),
        Err(JoinRefusal::Damaged { at }) => Err(OpenRefusal::Damaged {
            file: named_file(root, epoch),
            at,
        }),
    }
}

/// Returns why an epoch isn't read whose entries, up to the offset `at`, are these.
///
/// `Damaged` has the offset of the first of these entries that can't be joined to others, or `at`
/// if all can.
fn stop_in<D: Disk>(
    alloc: Global,
    disk: &mut D,
    root: &Root,
    epoch: u32,
    joining: Joining,
    at: u64,
    seen: SeenList,
) -> OpenRefusal
    requires small { epoch ≤ greatest_epoch }
    requires past { 8 < at }
    requires before { AreBefore epoch joining.entries }
    ensures stops { WhereTold (λ k.
        StopsSeen root.now epoch joining at seen result (as_read k)) (D.content disk.old) }
    ensures reads { OnlyReads D.Disk disk.old disk.new }
    ensures fault { result ≡ OpenRefusal.DiskFault → Rose (D.faults disk.old) (D.faults disk.new) }
    ensures steady { result ≢ OpenRefusal.DiskFault → D.faults disk.new ≡ D.faults disk.old }
{
    law_of_entries();
    law_of_epochs();
    let file = named_file(root, epoch);
    match joining.take_epoch(alloc, disk, root, epoch, seen) {
        Ok(_joined) => return OpenRefusal::Damaged { file, at },
        Err(JoinRefusal::DiskFault) => return OpenRefusal::DiskFault,
        Err(JoinRefusal::NoMemory) => return OpenRefusal::NoMemory,
        Err(JoinRefusal::Damaged { at: first }) => return OpenRefusal::Damaged { file, at: first },
    }
}

/// Returns why an epoch isn't read whose file has no entry at the offset `at`.
///
/// `Damaged` has the offset of the first entry before it that can't be joined to others, or `at` if
/// all can.
fn stop_at<D: Disk>(
    alloc: Global,
    disk: &mut D,
    root: &Root,
    epoch: u32,
    joining: Joining,
    at: u64,
) -> OpenRefusal
    requires small { epoch ≤ greatest_epoch }
    requires before { AreBefore epoch joining.entries }
    ensures stops { WhereTold (λ k.
        StopsEpoch root.now epoch joining at result (as_read k)) (D.content disk.old) }
    ensures reads { OnlyReads D.Disk disk.old disk.new }
    ensures fault { result ≡ OpenRefusal.DiskFault → Rose (D.faults disk.old) (D.faults disk.new) }
    ensures steady { result ≢ OpenRefusal.DiskFault → D.faults disk.new ≡ D.faults disk.old }
{
    law_of_entries();
    let file = named_file(root, epoch);
    if at <= 8 {
        return OpenRefusal::Damaged { file, at };
    }
    match epoch_file::walk(alloc, disk, file, at, root.config.form) {
        Ok(seen) => stop_in(alloc, disk, root, epoch, joining, at, seen),
        // The bytes before the offset are an epoch.
        Err(WalkRefusal::Damaged { at: _ }) => OpenRefusal::Damaged { file, at },
        Err(WalkRefusal::DiskFault) => OpenRefusal::DiskFault,
        Err(WalkRefusal::NoMemory) => OpenRefusal::NoMemory,
    }
}

/// Reads the entries of an epoch that a root names, and joins them to others.
///
/// An epoch of length 0 has none.
fn join_epoch<D: Disk>(
    alloc: Global,
    disk: &mut D,
    root: &Root,
    epoch: u32,
    joining: Joining,
) -> Result<Joining, OpenRefusal>
    requires small { epoch ≤ greatest_epoch }
    requires before { AreBefore epoch joining.entries }
    ensures joined { WhereTold (λ k.
        ReadsEpoch root.now epoch joining result (as_read k)) (D.content disk.old) }
    ensures below { IfOk result (λ joined. AreBefore (epoch + 1) joined.entries) }
    ensures named { AreNamed root.now joining.entries
        → IfOk result (λ joined. AreNamed root.now joined.entries) }
    ensures ids { AreOfForm root.now.config.form joining.entries
        → IfOk result (λ joined. AreOfForm root.now.config.form joined.entries) }
    ensures reads { OnlyReads D.Disk disk.old disk.new }
    ensures fault { result ≡ Err OpenRefusal.DiskFault
        → Rose (D.faults disk.old) (D.faults disk.new) }
    ensures steady { result ≢ Err OpenRefusal.DiskFault → D.faults disk.new ≡ D.faults disk.old }
{
    let length = named_place(root, epoch).length;
    if length == 0 {
        return Ok(joining);
    }
    let file = named_file(root, epoch);
    match epoch_file::walk(alloc, disk, file, length, root.config.form) {
        Ok(seen) => take(alloc, disk, root, epoch, joining, seen),
        Err(WalkRefusal::Damaged { at }) => Err(stop_at(alloc, disk, root, epoch, joining, at)),
        Err(WalkRefusal::DiskFault) => Err(OpenRefusal::DiskFault),
        Err(WalkRefusal::NoMemory) => Err(OpenRefusal::NoMemory),
    }
}

/// Reads the entries of all epochs that a root names, and joins them to the records of the map.
fn join_all<D: Disk>(
    alloc: Global,
    disk: &mut D,
    root: &Root,
    joining: Joining,
) -> Result<Joining, OpenRefusal>
    requires before { AreBefore 0 joining.entries }
    ensures joined { WhereTold (λ k.
        ReadsEach root.now joining result (as_read k)) (D.content disk.old) }
    ensures below { IfOk result (λ joined. AreBefore epoch_count joined.entries) }
    ensures named { AreNamed root.now joining.entries
        → IfOk result (λ joined. AreNamed root.now joined.entries) }
    ensures ids { AreOfForm root.now.config.form joining.entries
        → IfOk result (λ joined. AreOfForm root.now.config.form joined.entries) }
    ensures reads { OnlyReads D.Disk disk.old disk.new }
    ensures fault { result ≡ Err OpenRefusal.DiskFault
        → Rose (D.faults disk.old) (D.faults disk.new) }
    ensures steady { result ≢ Err OpenRefusal.DiskFault → D.faults disk.new ≡ D.faults disk.old }
{
    let mut joining = joining;
    for epoch in 0..EPOCHS {
        match join_epoch(alloc, disk, root, epoch, joining) {
            Ok(next) => joining = next,
            Err(refusal) => return Err(refusal),
        }
    }
    Ok(joining)
}

/// Returns the entries if each record of the map that has a message has one.
///
/// Otherwise the epoch of the first record without an entry is `Damaged`, at its end.
fn finish(root: &Root, joining: Joining) -> Result<IndexedEntries, OpenRefusal>
    ensures ends { EndsWith root.now joining result }
    ensures kept { IfOk result (λ kept. kept ≡ joining.entries) }
    ensures no_fault { result ≢ Err OpenRefusal.DiskFault }
{
    match joining.finish() {
        Ok(entries) => Ok(entries),
        Err(unmatched) => Err(OpenRefusal::Damaged {
            file: named_file(root, unmatched.epoch),
            at: named_place(root, unmatched.epoch).length,
        }),
    }
}

/// Reads the entries of all epochs that a root names, whose map has these records.
fn read_epochs<D: Disk>(
    alloc: Global,
    disk: &mut D,
    root: &Root,
    records: &Records,
) -> Result<IndexedEntries, OpenRefusal>
    requires valid { AreRecordsFrom root.now.config.form 1 records.now }
    ensures kept { WhereTold (λ k.
        KeepsBy root.now records.now result (as_read k)) (D.content disk.old) }
    ensures small { IfOk result (λ kept. AreBefore epoch_count kept) }
    ensures named { IfOk result (AreNamed root.now) }
    ensures ids { IfOk result (AreOfForm root.now.config.form) }
    ensures reads { OnlyReads D.Disk disk.old disk.new }
    ensures fault { result ≡ Err OpenRefusal.DiskFault
        → Rose (D.faults disk.old) (D.faults disk.new) }
    ensures steady { result ≢ Err OpenRefusal.DiskFault → D.faults disk.new ≡ D.faults disk.old }
{
    let Ok(joining) = Joining::new(alloc, records) else {
        return Err(OpenRefusal::NoMemory);
    };
    match join_all(alloc, disk, root, joining) {
        Ok(joined) => finish(root, joined),
        Err(refusal) => Err(refusal),
    }
}

/// Reads the entries that a root names.
fn find_entries<D: Disk>(
    alloc: Global,
    disk: &mut D,
    root: &Root,
) -> Result<IndexedEntries, OpenRefusal>
    requires root { IsRoot root.now }
    requires fits { RootFits root.now }
    ensures found { WhereTold (λ k. FindsEntries root.now (as_read k) result) (D.content disk.old) }
    ensures small { IfOk result (λ kept. AreBefore epoch_count kept) }
    ensures named { IfOk result (AreNamed root.now) }
    ensures ids { IfOk result (AreOfForm root.now.config.form) }
    ensures reads { OnlyReads D.Disk disk.old disk.new }
    ensures fault { result ≡ Err OpenRefusal.DiskFault
        → Rose (D.faults disk.old) (D.faults disk.new) }
    ensures steady { result ≢ Err OpenRefusal.DiskFault → D.faults disk.new ≡ D.faults disk.old }
{
    match find_records(alloc, disk, root) {
        Ok(records) => read_epochs(alloc, disk, root, &records),
        Err(refusal) => Err(refusal),
    }
}

/// Reads an archive on a disk: all that its root names, checked against the map.
///
/// The disk stays as it is.
///
/// `NoArchive` comes only if no slot of the root is open. `Damaged` comes only if a file that the
/// root names isn't in its form; it has the first such offset, in the root, then the map, then the
/// epochs in order. `DiskFault` comes only if the disk's count of faults rose, and `NoMemory` only
/// if memory runs out.
pub fn find<D: Disk>(alloc: Global, disk: &mut D) -> Result<Found, OpenRefusal>
    ensures found { WhereTold (λ k. FindsStore (as_read k) result) (D.content disk.old) }
    // Whatever the disk tells, the result has a root, and entries of epochs 0 to 63 in the bytes
    // that it names, with ids of its form.
    ensures root { IfOk result (λ found. IsRoot found.root) }
    ensures epochs { IfOk result (λ found. AreBefore epoch_count found.entries.items) }
    ensures named { IfOk result (λ found. AreNamed found.root found.entries.items) }
    ensures ids { IfOk result (λ found. AreOfForm found.root.config.form found.entries.items) }
    ensures indexed { IfOk result (λ found. IndexesStored found.entries.items found.index) }
    ensures same { BothTold Unchanged (D.content disk.old) (D.content disk.new) }
    ensures crash { LeavesOnly D.Disk disk.old disk.new (Image (D.content disk.old)) }
    ensures cause { RoseIf (result ≡ Err OpenRefusal.DiskFault) (D.faults disk.old) (D.faults disk.new) }
{
    match find_root(disk) {
        Ok((slot, root)) => match find_entries(alloc, disk, &root) {
            Ok(indexed) => {
                let IndexedEntries { entries, index } = indexed;
                Ok(Found {
                    root,
                    slot,
                    entries,
                    index,
                })
            }
            Err(refusal) => Err(refusal),
        },
        Err(refusal) => Err(refusal),
    }
}
