//! Plans a whole archive in another form.
//! Reads the disk.
ghost use Rattle.std.specs.Prelude.{◌≡◌, ◌≤◌, [], ℕ, Err, IfOk, OnOk};
ghost use Rattle.arch_base.specs.Counts.{RoseIf};
ghost use Rattle.disk_model.specs.Disk.{WhereTold};
ghost use Rattle.epoch_file.specs.Runs.{OnlyReads};
ghost use Rattle.root_slots.specs.Valid.{IsRoot};
ghost use Rattle.store_finding.specs.Extents.{AreNamed};
ghost use Rattle.store_finding.specs.Kept.{InEpochs};
ghost use Rattle.store_planning.specs.DamagedTexts.{IfDamaged, IsDamagedEntry};
ghost use Rattle.store_planning.specs.Planning.{PlansUndamaged};
ghost use Rattle.convert_planning.specs.Converting.{ConvertsOwn, PlansConversion, kept_store};
ghost use Rattle.convert_planning.specs.ConvertSteps.{ConvertsAll, HasTaken, StartsPlans};

use crate::converting::Converter;
use arch_base::Form;
use disk_model::Disk;
use epoch_file::StoreRefusal;
use root_change::epoch_file;
use root_slots::{Root, root_fits};
use std::alloc::Global;
use store_finding::StoredEntry;
use store_planning::plan_map;

/// Lets a planner take each entry of a root.
fn take_all<D: Disk>(
    disk: &mut D,
    root: &Root,
    entries: &[StoredEntry],
    planned: &mut Converter,
) -> Result<(), StoreRefusal>
    requires root { IsRoot root.now }
    requires epochs { InEpochs entries.now }
    requires named { AreNamed root.now entries.now }
    requires plans { StartsPlans planned.old.plans }
    requires none { planned.old.entries ≡ [] }
    ensures taken { OnOk result (HasTaken root.now planned.old.form entries.now planned.new) }
    ensures all { OnOk result (WhereTold (ConvertsAll root.now planned.old.form entries.now planned.new)
        (D.content disk.old)) }
    ensures undamaged { (slot : ℕ) → PlansUndamaged (kept_store root.now slot entries.now) result
        (D.content disk.old) }
    ensures damage { IfDamaged result (λ file at. (slot : ℕ)
        → IsDamagedEntry (kept_store root.now slot entries.now) file at (D.content disk.old)) }
    ensures reads { OnlyReads D.Disk disk.old disk.new }
    ensures fewest { D.reads disk.old ≤ D.reads disk.new }
    ensures cause { RoseIf (result ≡ Err StoreRefusal.DiskFault) (D.faults disk.old)
        (D.faults disk.new) }
{
    for entry in entries {
        let file = epoch_file(entry.epoch, root.epochs[entry.epoch as usize].generation);
        match planned.take(disk, file, entry) {
            Ok(()) => {}
            Err(refusal) => return Err(refusal),
        }
    }
    Ok(())
}

/// Plans an archive in another form: each epoch and the map are to be written anew. The entries are
/// those that a store keeps with this root.
///
/// Reads one text at a time. Takes memory for the entries, and for the trees, the commits and the map
/// in the new form; of the texts, only ranges of the old files are planned.
///
/// `Damaged` comes if a text isn't that of its entry, with the entry's file and offset, which never
/// happens on the disk of an archive. `NoMemory` if an allocation fails, a file would have 2^62 bytes or
/// more, or the entries aren't those of an archive. `DiskFault` if the disk failed, and the count of
/// faults rose. Nothing changes on the disk.
pub fn plan_conversion<D: Disk>(
    alloc: Global,
    disk: &mut D,
    root: &Root,
    entries: &[StoredEntry],
    form: Form,
) -> Result<Converter, StoreRefusal>
    requires root { IsRoot root.now }
    requires epochs { InEpochs entries.now }
    requires named { AreNamed root.now entries.now }
    // Whatever the disk holds.
    ensures planned { IfOk result (λ p. PlansConversion root.now form entries.now p) }
    ensures own { IfOk result (λ p. ConvertsOwn root.now form entries.now p (D.content disk.old)) }
    ensures undamaged { (slot : ℕ) → PlansUndamaged (kept_store root.now slot entries.now) result
        (D.content disk.old) }
    ensures damage { IfDamaged result (λ file at. (slot : ℕ)
        → IsDamagedEntry (kept_store root.now slot entries.now) file at (D.content disk.old)) }
    ensures reads { OnlyReads D.Disk disk.old disk.new }
    ensures fewest { D.reads disk.old ≤ D.reads disk.new }
    ensures cause { RoseIf (result ≡ Err StoreRefusal.DiskFault) (D.faults disk.old)
        (D.faults disk.new) }
{
    root_fits(root);
    let mut planned = Converter::new(alloc, form)?;
    match take_all(disk, root, entries, &mut planned) {
        Ok(()) => {}
        Err(refusal) => return Err(refusal),
    }
    let map = plan_map(alloc, planned.entries(), root.next, form)?;
    planned.push(map)?;
    Ok(planned)
}
