//! Opens an archive: syncs, reads its files, and settles the disk.
//! Writes the disk; syncs.
ghost use Rattle.std.specs.Prelude.{◌≡◌, ◌≢◌, ◌-◌, Err, IfOk, None, OnOk};
ghost use Rattle.arch_base.specs.Counts.{Rose, RoseIf};
ghost use Rattle.disk_model.specs.Disk.{Image, BothTold, WhereTold, Unchanged};
ghost use Rattle.disk_model.specs.Moments.{LeavesOnly};
ghost use Rattle.disk_model.specs.Sizes.{epoch_count};
ghost use Rattle.disk_model.specs.Synced.{IsSettled};
ghost use Rattle.arch_model.specs.Archives.{Archive};
ghost use Rattle.arch_model.specs.declared.opening.OpenRefusal.{OpenRefusal};
ghost use Rattle.epoch_file.specs.Runs.{OnlyReads};
ghost use Rattle.root_slots.specs.OneRoot.{RunsOneRoot};
ghost use Rattle.root_slots.specs.Slots.{slot_number, HasRootSize};
ghost use Rattle.root_slots.specs.Spelling.{spelling};
ghost use Rattle.root_slots.specs.Valid.{IsRoot};
ghost use Rattle.store_finding.specs.Listing.{AreAllNames};
ghost use Rattle.root_change.specs.Texts.{Texts, StandsFor, OnDisk};
ghost use Rattle.store_finding.specs.Extents.{AreNamed};
ghost use Rattle.store_finding.specs.Files.{as_read};
ghost use Rattle.store_finding.specs.Finding.{FindsStore};
ghost use Rattle.store_finding.specs.Indexes.{IndexesStored};
ghost use Rattle.store_finding.specs.Joined.{AreBefore};
ghost use Rattle.epoch_store.specs.Promises.{OpensArchive};
ghost use Rattle.epoch_store.specs.Settling.{FoundOn, IsSettledBy, IsSettledRoot};
ghost use Rattle.epoch_store.specs.Reads.{HasTexts};
ghost use Rattle.epoch_store.specs.Opens.{store_of, OpensFiles, OpensWell, SyncsBy, RefusesBefore};

use crate::laws::law_of_recovery;
use crate::settling::sweep;
use crate::store::Store;
use arch_judge::Index;
use arch_model::OpenRefusal;
use disk_model::Disk;
use root_slots::{Root, Slot, law_of_spellings};
use std::alloc::Global;
use store_finding::{
    FileNames, Found, ReadRefusal, file_names, find, law_of_opening, law_of_undamaged_files,
};

/// Syncs, and reads the archive on a disk. A crash leaves what a crash before might have left.
fn find_synced<D: Disk>(alloc: Global, disk: &mut D) -> Result<Found, OpenRefusal>
    ensures found { WhereTold (λ k. FindsStore (as_read k) result) (D.content disk.old) }
    ensures synced { SyncsBy result (D.content disk.old) (D.content disk.new) }
    ensures root { IfOk result (λ found. IsRoot found.root) }
    ensures epochs { IfOk result (λ found. AreBefore epoch_count found.entries.items) }
    ensures named { IfOk result (λ found. AreNamed found.root found.entries.items) }
    ensures indexed { IfOk result (λ found. IndexesStored found.entries.items found.index) }
    ensures crash { LeavesOnly D.Disk disk.old disk.new (Image (D.content disk.old)) }
    ensures cause { RoseIf (result ≡ Err OpenRefusal.DiskFault) (D.faults disk.old) (D.faults disk.new) }
{
    disk.sync()?;
    find(alloc, disk)
}

/// Returns the names of all files, in order. Nothing changes.
fn present_files<D: Disk>(alloc: Global, disk: &mut D) -> Result<FileNames, OpenRefusal>
    ensures names { IfOk result (λ names. WhereTold (AreAllNames names) (D.content disk.old)) }
    ensures reads { OnlyReads D.Disk disk.old disk.new }
    ensures well { OpensWell result }
    ensures fault { result ≡ Err OpenRefusal.DiskFault
        → Rose (D.faults disk.old) (D.faults disk.new) }
    ensures steady { result ≢ Err OpenRefusal.DiskFault → D.faults disk.new ≡ D.faults disk.old }
{
    match file_names(alloc, disk) {
        Ok(names) => Ok(names),
        Err(ReadRefusal::DiskFault) => Err(OpenRefusal::DiskFault),
        Err(ReadRefusal::NoMemory) => Err(OpenRefusal::NoMemory),
    }
}

/// Settles the disk of an archive that was found. `NoMemory` leaves the disk unchanged.
fn settle<D: Disk>(alloc: Global, disk: &mut D, slot: Slot, root: &Root) -> Result<(), OpenRefusal>
    requires size { WhereTold HasRootSize (D.content disk.old) }
    requires root { IsRoot root.now }
    ensures crash { (texts : Texts)
        → FoundOn root.now (slot_number slot) texts (D.content disk.old)
        → LeavesOnly D.Disk disk.old disk.new (StandsFor root.now texts) }
    ensures done { (texts : Texts) → FoundOn root.now (slot_number slot) texts (D.content disk.old)
        → OnOk result (OnDisk root.now (1 - slot_number slot) texts (D.content disk.new)) }
    ensures settled { OnOk result (WhereTold IsSettled (D.content disk.new)) }
    ensures kept { OnOk result (BothTold (IsSettledBy root.now (slot_number slot)) (D.content disk.old)
        (D.content disk.new)) }
    ensures crash_root { WhereTold (IsSettledRoot (slot_number slot) (spelling root.now))
        (D.content disk.old)
        → RunsOneRoot D.Disk (1 - slot_number slot) None disk.old disk.new }
    ensures well { OpensWell result }
    ensures unchanged { result ≡ Err OpenRefusal.NoMemory
        → BothTold Unchanged (D.content disk.old) (D.content disk.new) }
    ensures cause { RoseIf (result ≡ Err OpenRefusal.DiskFault) (D.faults disk.old) (D.faults disk.new) }
{
    match present_files(alloc, disk) {
        Ok(names) => match sweep(disk, slot, root, names.as_slice()) {
            Ok(()) => Ok(()),
            Err(_fault) => Err(OpenRefusal::DiskFault),
        },
        Err(refusal) => Err(refusal),
    }
}

impl Store {
    /// Opens the archive on a disk, and returns its store and the index of its entries.
    ///
    /// Syncs first, reads all that the current root names, and only then changes the disk: writes
    /// the current root to the other slot if that is shut, and leaves it shut; cuts tails; and
    /// removes the files that the root doesn't name. At each moment a crash leaves files that stand
    /// for an archive that they might have stood for before.
    ///
    /// `NoArchive` comes only if no slot is open. `Damaged` comes only if a file that the root
    /// names isn't in its form; it has the first such offset, in the root, then the map, then the
    /// epochs in order. Neither comes if the files stand for an archive. `DiskFault` comes only if
    /// the disk's count of faults rose, and `NoMemory` only if memory runs out. Every error but
    /// `DiskFault` leaves all files as they read.
    pub fn open<D: Disk>(alloc: Global, disk: &mut D) -> Result<(Store, Index), OpenRefusal>
        ensures opened { OpensArchive D.Disk disk.old disk.new (store_of result) }
        ensures indexed { IfOk result (λ opened. IndexesStored opened.0.entries opened.1) }
        ensures refused { RefusesBefore result (D.content disk.old) (D.content disk.new) }
        // Each text that was read when it was opened is in its place.
        ensures texts { IfOk result (λ opened. WhereTold (HasTexts opened.0) (D.content disk.new)) }
    {
        law_of_recovery();
        law_of_opening();
        law_of_undamaged_files();
        law_of_spellings();
        let found = match find_synced(alloc, disk) {
            Ok(found) => found,
            Err(refusal) => return Err(refusal),
        };
        match settle(alloc, disk, found.slot, &found.root) {
            Ok(()) => {
                let store = Store {
                    root: found.root,
                    slot: found.slot,
                    entries: found.entries,
                };
                Ok((store, found.index))
            }
            Err(refusal) => Err(refusal),
        }
    }
}
