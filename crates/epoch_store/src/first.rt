//! The first root of an archive.
//! Writes the disk; syncs.
ghost use Rattle.std.specs.Prelude.{◌≡◌, ◌≢◌, ◌<◌, ◌≤◌, Err, IfOk, OnOk};
ghost use Rattle.arch_base.specs.Counts.{RoseIf, HasCause};
ghost use Rattle.disk_model.specs.Disk.{Image, BothTold, WhereTold, Unchanged, Synced};
ghost use Rattle.disk_model.specs.Moments.{LeavesOnly};
ghost use Rattle.root_slots.specs.Each.{EachRoot};
ghost use Rattle.root_slots.specs.Slots.{HasNewRoot, HasRootSize, Ready, IsCommitted};
ghost use Rattle.root_slots.specs.Spelling.{spelling};
ghost use Rattle.root_slots.specs.Valid.{IsRoot};
ghost use Rattle.root_slots.specs.Slots.{EachShut};
ghost use Rattle.arch_base.specs.Configs.{IsConfig};
ghost use Rattle.arch_base.specs.Names.{IsArchiveName};
ghost use Rattle.store_finding.specs.Listing.{AreAllNames};
ghost use Rattle.epoch_store.specs.First.{AreZeros, ShutOrFirst, MakesRoot, HasOnly, MakingAnswers, RefusesToMake, first_root_of};
ghost use Rattle.arch_base.specs.Counts.{RoseIf};
ghost use Rattle.epoch_store.specs.declared.refusal.InitRefusal.{InitRefusal};

use crate::refusal::InitRefusal;
use arch_base::Config;
use disk_model::{Disk, DiskFault, EPOCHS, FileName};
use root_slots::{Place, Root, RootRefusal, Slot, begin, fill, raise, read};
use std::alloc::Global;
use store_finding::{FileNames, ReadRefusal, file_names, remove_files};

/// Returns the root of an archive without entries.
pub fn first_root(config: &Config) -> Root
    requires { IsConfig config.now }
    ensures root { result ≡ first_root_of config.now }
    ensures valid { IsRoot result }
    ensures name { IsArchiveName config.now.name }
{
    // The slice brings into the proof that the name is valid.
    let _name = config.name.as_slice();
    Root {
        config: config.copy(),
        sequence: 1,
        next: 1,
        map: Place {
            generation: 1,
            length: 0,
        },
        epochs: [Place {
            generation: 0,
            length: 0,
        }; EPOCHS as usize],
        cache: Place {
            generation: 0,
            length: 0,
        },
    }
}

/// Removes all files, and creates a root file with the first root.
pub fn make<D: Disk>(disk: &mut D, names: &[FileName], root: &Root) -> Result<(), DiskFault>
    requires root { IsRoot root.now }
    // If no crash leaves an open slot before, at each moment a crash leaves none, or the root.
    ensures crash { EachShut (D.content disk.old) → LeavesOnly D.Disk disk.old
        disk.new (MakesRoot (spelling root.now) (D.content disk.old)) }
    // After `Ok` a crash leaves the root, the other slot is ready, and there is no other file.
    ensures done { WhereTold (AreAllNames names.now) (D.content disk.old) → 0 < root.now.sequence
        → OnOk result (WhereTold (HasOnly (spelling root.now)) (D.content disk.new)) }
    ensures told { OnOk result
        (BothTold (λ old new. Unit {0}) (D.content disk.old) (D.content disk.new)) }
    ensures cause { HasCause (D.faults disk.old) (D.faults disk.new) result }
    ensures count { D.reads disk.new ≡ D.reads disk.old }
{
    let _sequence = root.sequence;
    remove_files(disk, names)?;
    begin(disk)?;
    raise_first(disk, root)
}

/// Writes the first root to the first slot of a root file of zeros, and opens its gate.
pub fn raise_first<D: Disk>(disk: &mut D, root: &Root) -> Result<(), DiskFault>
    requires size { WhereTold HasRootSize (D.content disk.old) }
    requires root { IsRoot root.now }
    ensures crash { EachRoot AreZeros (D.content disk.old) → LeavesOnly D.Disk
        disk.old disk.new (ShutOrFirst (spelling root.now) (D.content disk.old)) }
    ensures time { D.moment disk.old ≤ D.moment disk.new }
    ensures done { EachRoot AreZeros (D.content disk.old) → 0 < root.now.sequence
        → OnOk result (EachRoot (Ready 1 (spelling root.now)) (D.content disk.new)) }
    ensures committed { OnOk result (BothTold IsCommitted (D.content disk.old) (D.content disk.new)) }
    ensures written { OnOk result (BothTold (HasNewRoot 0 (spelling root.now))
        (D.content disk.old) (D.content disk.new)) }
    ensures cause { HasCause (D.faults disk.old) (D.faults disk.new) result }
    ensures count { D.reads disk.new ≡ D.reads disk.old }
{
    let _sequence = root.sequence; // brings the range of a field behind a `&` into the proof
    fill(disk, Slot::First, root)?;
    raise(disk, Slot::First)
}

/// Syncs, and checks that there is no archive: no slot of the root is open.
///
/// `Exists` comes exactly if a slot is open. Nothing is done but the sync.
pub fn no_archive<D: Disk>(disk: &mut D) -> Result<(), InitRefusal>
    ensures crash { LeavesOnly D.Disk disk.old disk.new (Image (D.content disk.old)) }
    ensures answer { WhereTold (MakingAnswers result) (D.content disk.old) }
    ensures synced { OnOk result (BothTold Synced (D.content disk.old) (D.content disk.new)) }
    ensures refused { RefusesToMake result (D.content disk.old) (D.content disk.new) }
    ensures cause { RoseIf (result ≡ Err InitRefusal.DiskFault) (D.faults disk.old) (D.faults disk.new) }
{
    disk.sync()?;
    match read(disk) {
        Ok(None) => Ok(()),
        Ok(Some(_)) => Err(InitRefusal::Exists),
        Err(RootRefusal::Damaged { at: _ }) => Err(InitRefusal::Exists),
        Err(RootRefusal::DiskFault) => Err(InitRefusal::DiskFault),
    }
}

/// Returns the names of all files, in order.
pub fn all_names<D: Disk>(alloc: Global, disk: &mut D) -> Result<FileNames, InitRefusal>
    ensures names { IfOk result (λ names. WhereTold (AreAllNames names) (D.content disk.old)) }
    ensures same { BothTold Unchanged (D.content disk.old) (D.content disk.new) }
    ensures crash { LeavesOnly D.Disk disk.old disk.new (Image (D.content disk.old)) }
    ensures cause { RoseIf (result ≡ Err InitRefusal.DiskFault) (D.faults disk.old) (D.faults disk.new) }
    ensures none { result ≢ Err InitRefusal.Exists }
{
    match file_names(alloc, disk) {
        Ok(names) => Ok(names),
        Err(ReadRefusal::DiskFault) => Err(InitRefusal::DiskFault),
        Err(ReadRefusal::NoMemory) => Err(InitRefusal::NoMemory),
    }
}
