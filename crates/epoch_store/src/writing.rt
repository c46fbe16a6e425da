//! Writes an entry to its files, and replaces the root by the one that names it.
//! Writes the disk; syncs.
ghost use Rattle.std.specs.Prelude.{◌≡◌, ◌≤◌, ◌<◌, ◌+◌, ◌-◌, ◌^◌, Err, IfOk, OnOk, length};
ghost use Rattle.arch_base.specs.Counts.{HasCause, RoseIf};
ghost use Rattle.arch_base.specs.Moments.{last_moment};
ghost use Rattle.disk_model.specs.Beside.{RunsBeside};
ghost use Rattle.disk_model.specs.Disk.{BothTold, WhereTold, IsAtMostLength};
ghost use Rattle.disk_model.specs.Moments.{LeavesOnly};
ghost use Rattle.disk_model.specs.Sizes.{greatest_epoch};
ghost use Rattle.disk_model.specs.Synced.{IsSettled};
ghost use Rattle.mail_commits.specs.Ids.{text_ids_of};
ghost use Rattle.epoch_file.specs.Appending.{written_of};
ghost use Rattle.root_slots.specs.OneRoot.{BeginsRootIn};
ghost use Rattle.root_slots.specs.Slots.{slot_number, HasNewRoot};
ghost use Rattle.root_slots.specs.Spelling.{spelling};
ghost use Rattle.root_slots.specs.Valid.{IsRoot};
ghost use Rattle.root_change.specs.Copying.{Added};
ghost use Rattle.root_change.specs.Names.{bounds_of};
ghost use Rattle.root_change.specs.Parts.{Parts, IsOwnOfParts};
ghost use Rattle.root_change.specs.Texts.{HasPartSizes};
ghost use Rattle.epoch_store.specs.Entering.{Entered, RecoversEntered, line_by, numbers_by, parts_with, root_after, root_with};
ghost use Rattle.store_finding.specs.Files.{map_file_of};
ghost use Rattle.epoch_store.specs.Commands.{RootGoesOn, place_of};
ghost use Rattle.store_planning.specs.Dropping.{SeesNoDamage};

use arch_base::ObjectId;
use disk_model::{Disk, DiskFault, records_size};
use epoch_file::{NewEntry, StoreRefusal, Written, append_entry};
use git_objects::EntryKind;
use number_map::{Record, append};
use root_change::{epoch_file, map_file, replace_root};
use root_slots::{Place, Root, Slot, root_fits};
use std::alloc::Global;
use store_planning::NextPlace;

/// Returns how many numbers an entry takes: a message the next one, a deletion none.
fn numbers_of(kind: EntryKind) -> u32
    ensures count { result ≡ numbers_by kind }
    ensures small { result ≤ 1 }
{
    match kind {
        EntryKind::Message => 1,
        EntryKind::Deletion => 0,
    }
}

/// Returns the root after one more entry; the file of the entry's epoch then ends at `end`.
fn next_root(root: &Root, place: &NextPlace, kind: EntryKind, end: u64) -> Root
    requires root { IsRoot root.now }
    requires small { place.now.epoch ≤ greatest_epoch }
    requires place { place.now ≡ place_of root.now place.now.epoch place.now.parent }
    requires left { root.now.next + numbers_by kind ≤ 2147483648 }
    requires some { 0 < end }
    ensures root { result ≡ root_after root.now kind place.now end }
    ensures valid { IsRoot result }
    ensures goes_on { RootGoesOn root.now result }
{
    root_fits(root);
    let numbers = numbers_of(kind);
    let mut next = root.copy();
    next.sequence = next.sequence.saturating_add(1);
    next.next += numbers;
    next.map.length += records_size(numbers, root.config.form);
    next.epochs[place.epoch as usize] = Place {
        generation: place.generation,
        length: end,
    };
    next
}

/// Appends the record of a new message to the map of a root. A deletion has none.
fn write_record<D: Disk>(
    disk: &mut D,
    root: &Root,
    kind: EntryKind,
    epoch: u32,
    blob: ObjectId,
) -> Result<(), DiskFault>
    requires root { IsRoot root.now }
    requires inside { WhereTold (IsAtMostLength (map_file_of root.now) root.now.map.length)
        (D.content disk.old) }
    ensures crash_beside { RunsBeside D.Disk (bounds_of root.now)
        disk.old disk.new }
    ensures added { OnOk result (BothTold (Added (line_by kind root.now.next epoch blob)
        (map_file_of root.now) root.now.map.length) (D.content disk.old) (D.content disk.new)) }
    ensures cause { HasCause (D.faults disk.old) (D.faults disk.new) result }
    ensures count { D.reads disk.new ≡ D.reads disk.old }
{
    match kind {
        EntryKind::Deletion => Ok(()),
        EntryKind::Message => {
            let line = Record {
                number: root.next,
                epoch,
                blob,
            };
            let map = map_file(root.map.generation);
            append(disk, map, root.map.length, &line)
        }
    }
}

/// Appends an entry to the file of its epoch, and the record of a message to the map, beside all that
/// the root names.
fn write_files<D: Disk>(
    alloc: Global,
    disk: &mut D,
    root: &Root,
    place: &NextPlace,
    entry: &NewEntry<'_>,
) -> Result<Written, StoreRefusal>
    requires root { IsRoot root.now }
    requires small { place.now.epoch ≤ greatest_epoch }
    requires place { place.now ≡ place_of root.now place.now.epoch place.now.parent }
    requires short { place.now.length < 2 ^ 62 }
    requires sizes { WhereTold (HasPartSizes root.now) (D.content disk.old) }
    requires ids { entry.now.ids ≡ text_ids_of entry.now.form entry.now.text.now }
    requires moment { entry.now.moment ≤ last_moment }
    ensures crash_beside { RunsBeside D.Disk (bounds_of root.now)
        disk.old disk.new }
    ensures entered { OnOk result (BothTold (Entered root.now place.now entry.now) (D.content disk.old)
        (D.content disk.new)) }
    ensures written { IfOk result (λ written. written ≡ written_of place.now.length entry.now) }
    ensures refused { result ≡ Err StoreRefusal.NoMemory → disk.new ≡ disk.old }
    ensures undamaged { SeesNoDamage result }
    ensures cause { RoseIf (result ≡ Err StoreRefusal.DiskFault) (D.faults disk.old)
        (D.faults disk.new) }
    ensures count { D.reads disk.new ≡ D.reads disk.old }
{
    let epoch = epoch_file(place.epoch, place.generation);
    let written = append_entry(alloc, disk, epoch, place.length, entry)?;
    write_record(disk, root, entry.kind, place.epoch, written.blob)?;
    Ok(written)
}

/// Appends an entry, and replaces the root by the one that names it, in the slot that is free.
///
/// Returns that root, and what was written.
pub(crate) fn write_entry<D: Disk>(
    alloc: Global,
    disk: &mut D,
    root: &Root,
    free: Slot,
    place: &NextPlace,
    entry: &NewEntry<'_>,
) -> Result<(Root, Written), StoreRefusal>
    requires root { IsRoot root.now }
    requires small { place.now.epoch ≤ greatest_epoch }
    requires place { place.now ≡ place_of root.now place.now.epoch place.now.parent }
    requires short { place.now.length < 2 ^ 62 }
    requires form { entry.now.form ≡ root.now.config.form }
    requires left { root.now.next + numbers_by entry.now.kind ≤ 2147483648 }
    requires sizes { WhereTold (HasPartSizes root.now) (D.content disk.old) }
    requires ids { entry.now.ids ≡ text_ids_of entry.now.form entry.now.text.now }
    requires moment { entry.now.moment ≤ last_moment }
    // At each moment a crash leaves files that stand for the parts before, or for those with the entry.
    ensures crash { (parts : Parts)
        → IsOwnOfParts root.now (slot_number free) parts (D.content disk.old)
        → root.now.sequence + 1 < 2 ^ 64 → LeavesOnly D.Disk disk.old disk.new
        (RecoversEntered root.now place.now entry.now parts) }
    // After `Ok` the disk is exactly that of the latter.
    ensures done { (parts : Parts)
        → IsOwnOfParts root.now (slot_number free) parts (D.content disk.old)
        → root.now.sequence + 1 < 2 ^ 64 → IfOk result (λ made. IsOwnOfParts made.0 (1 - slot_number free)
        (parts_with root.now place.now entry.now parts) (D.content disk.new)) }
    ensures settled { OnOk result (WhereTold IsSettled (D.content disk.new)) }
    ensures sizes { IfOk result (λ made. WhereTold (HasPartSizes made.0) (D.content disk.new)) }
    ensures root { IfOk result (λ made. made.0 ≡ root_with root.now place.now entry.now) }
    ensures written { IfOk result (λ made. made.1 ≡ written_of place.now.length entry.now) }
    ensures valid { IfOk result (λ made. IsRoot made.0) }
    ensures goes_on { IfOk result (λ made. RootGoesOn root.now made.0) }
    ensures refused { result ≡ Err StoreRefusal.NoMemory → disk.new ≡ disk.old }
    ensures undamaged { SeesNoDamage result }
    ensures cause { RoseIf (result ≡ Err StoreRefusal.DiskFault) (D.faults disk.old)
        (D.faults disk.new) }
    ensures count { D.reads disk.new ≡ D.reads disk.old }
    ensures rooted { IfOk result (λ made. BothTold (HasNewRoot (slot_number free) (spelling made.0))
        (D.content disk.old) (D.content disk.new)) }
    ensures crash_root { BeginsRootIn D.Disk (slot_number free) disk.old disk.new }
{
    root_fits(root);
    let written = write_files(alloc, disk, root, place, entry)?;
    let next = next_root(root, place, entry.kind, written.end);
    root_fits(&next);
    replace_root(disk, free, root, &next)?;
    Ok((next, written))
}
