//! Carries out plans, and replaces the root by the one that names what they wrote.
//! Writes the disk; syncs.
ghost use Rattle.std.specs.Prelude.{◌≡◌, ◌+◌, ◌^◌, ◌<◌, ◌≤◌, IfOk, OnOk, length};
ghost use Rattle.arch_base.specs.Counts.{RoseIf};
ghost use Rattle.disk_model.specs.Beside.{RunsBeside};
ghost use Rattle.disk_model.specs.Disk.{BothTold, WhereTold};
ghost use Rattle.disk_model.specs.Sizes.{epoch_count};
ghost use Rattle.root_slots.specs.Slots.{slot_number};
ghost use Rattle.root_slots.specs.Valid.{IsRoot};
ghost use Rattle.root_change.specs.Names.{bounds_of, place_of};
ghost use Rattle.root_change.specs.Texts.{HasPartSizes};
ghost use Rattle.root_change.specs.Rewriting.{CarriesOut, IfShort, IsFailed, IsPartOfPlan, IsPartToPlan, IsPlannedPart, IsRootAfter, IsShort, MapFits, MayCarryAll, file_by, map_by, place_by, plan_count};
ghost use Rattle.root_change.specs.declared.plan.Target.{Target};
ghost use Rattle.root_change.specs.Writing.{HasPlan, MayWrite, MayWriteAll, SetsPlace, WritesAlone, WritesPlans};

use crate::appending::end_of;
use crate::names::place_at;
use crate::plan::{PartPlan, Target};
use crate::replacing::replace_root;
use crate::sources::put_sources;
use arch_base::Form;
use disk_model::{Disk, DiskFault, FileKind, FileName};
use root_slots::{Place, Root, Slot, root_fits};
use thiserror::Error;

/// Why plans were not carried out.
#[derive(Clone, Copy, Debug, PartialEq, Eq, Drop, Error)]
pub enum RewriteRefusal {
    /// A call of the disk failed.
    #[error("the disk failed")]
    DiskFault,
    /// A range isn't whole in its file.
    #[error("a file is shorter than {at}")]
    Short {
        /// The name of the file.
        file: FileName,
        /// The number of bytes that count there by the root.
        at: u64,
    },
}

impl From<DiskFault> for RewriteRefusal {
    ghost use Rattle.std.specs.Prelude.{◌≡◌};
    ghost use Rattle.root_change.specs.declared.rewriting.RewriteRefusal.{RewriteRefusal};

    ghost from_gives = { λ _ e. e ≡ RewriteRefusal.DiskFault };

    fn from(_fault: DiskFault) -> RewriteRefusal {
        RewriteRefusal::DiskFault
    }
}

/// Returns the `Place` of an epoch after a plan with this target and so many bytes.
fn epoch_after(place: Place, target: Target, count: u64, next: u64) -> Place
    requires { target ≡ Target.Behind → place.length + count < 2 ^ 64 }
    ensures { result ≡ place_by next target place count }
{
    match target {
        Target::Behind if place.length > 0 => Place {
            generation: place.generation,
            length: place.length + count,
        },
        _ if count == 0 => Place {
            generation: 0,
            length: 0,
        },
        _ => Place {
            generation: next,
            length: count,
        },
    }
}

/// Returns the `Place` of the map after a plan with this target and so many bytes.
fn map_after(place: Place, target: Target, count: u64, next: u64) -> Place
    requires { target ≡ Target.Behind → place.length + count < 2 ^ 64 }
    ensures { result ≡ map_by next target place count }
{
    match target {
        Target::Anew => Place {
            generation: next,
            length: count,
        },
        Target::Behind => Place {
            generation: place.generation,
            length: place.length + count,
        },
    }
}

/// Gives a root the `Place` of the part of a plan.
fn set_place(root: &mut Root, plan: &PartPlan, next: u64)
    requires part { IsPartToPlan plan.now.kind plan.now.number }
    requires count { length root.old.epochs ≡ epoch_count }
    requires room { plan.now.target ≡ Target.Behind → (place_of root.old plan.now.kind
        plan.now.number).length + plan_count plan.now < 2 ^ 64 }
    ensures { SetsPlace root.old plan.now next root.new }
{
    let (target, count) = (plan.target(), plan.count());
    match plan.kind() {
        FileKind::Map => root.map = map_after(root.map, target, count, next),
        FileKind::Epoch => {
            let at = plan.number() as usize;
            root.epochs[at] = epoch_after(root.epochs[at], target, count, next);
        }
        // No plan has another part.
        FileKind::Root | FileKind::Cache => {}
    }
}

/// Returns the root after plans, with this next number and objects of this form.
fn root_after(old: &Root, plans: &[PartPlan], number: u32, form: Form) -> Root
    requires root { IsRoot old.now }
    requires later { old.now.sequence + 1 < 2 ^ 64 }
    requires plans { MayCarryAll old.now plans.now }
    requires number { (1 ≤ number) × (number ≤ 2147483648) }
    requires map { MapFits old.now plans.now number form }
    ensures root { IsRootAfter old.now plans.now number form result }
    ensures valid { IsRoot result }
{
    root_fits(old);
    let next = old.sequence + 1;
    let mut new = old.copy();
    new.config.form = form;
    new.sequence = next;
    new.next = number;
    new.cache = Place {
        generation: 0,
        length: 0,
    };
    for plan in plans {
        set_place(&mut new, plan, next);
    }
    new
}

/// Returns the file of a part that a root names.
fn file_of(root: &Root, kind: FileKind, number: u32) -> FileName
    ensures { result ≡ file_by root.now kind number }
{
    FileName {
        kind,
        number,
        generation: place_at(root, kind, number).generation,
    }
}

/// Writes the bytes of a plan to a file, after those that count there by a root.
///
/// All that the root names stays, whatever the call returns. `Short` if a range isn't whole in its
/// file, with that file.
fn write_plan<D: Disk>(
    disk: &mut D,
    root: &Root,
    plan: &PartPlan,
    to: FileName,
) -> Result<(), RewriteRefusal>
    requires to { MayWrite root.now plan.now to }
    requires sizes { WhereTold (HasPartSizes root.now) (D.content disk.old) }
    ensures crash_beside { RunsBeside D.Disk (bounds_of root.now)
        disk.old disk.new }
    ensures written { OnOk result
        (BothTold (WritesAlone root.now plan.now to) (D.content disk.old) (D.content disk.new)) }
    ensures sizes { OnOk result (WhereTold (HasPartSizes root.now) (D.content disk.new)) }
    ensures whole { HasPlan (D.content disk.old) plan.now → IsShort result → ⊥ }
    ensures short { IfShort result (IsPartOfPlan root.now plan.now) }
    ensures fewest { D.reads disk.old ≤ D.reads disk.new }
    ensures cause { RoseIf (IsFailed result) (D.faults disk.old) (D.faults disk.new) }
{
    if plan.count() == 0 {
        return Ok(());
    }
    let end = end_of(root, to);
    let whole = put_sources(disk, plan.bytes(), plan.sources(), to, end)?;
    if !whole {
        let kind = plan.kind();
        let number = plan.number();
        return Err(RewriteRefusal::Short {
            file: file_of(root, kind, number),
            at: place_at(root, kind, number).length,
        });
    }
    Ok(())
}

/// Carries out plans beside all that the old root names: writes the bytes of each to its part's file
/// by the new root.
fn write_plans<D: Disk>(
    disk: &mut D,
    old: &Root,
    new: &Root,
    plans: &[PartPlan],
) -> Result<(), RewriteRefusal>
    requires plans { MayCarryAll old.now plans.now }
    requires files { MayWriteAll old.now new.now plans.now }
    requires sizes { WhereTold (HasPartSizes old.now) (D.content disk.old) }
    ensures crash_beside { RunsBeside D.Disk (bounds_of old.now)
        disk.old disk.new }
    ensures written { OnOk result
        (BothTold (WritesPlans old.now new.now plans.now) (D.content disk.old) (D.content disk.new)) }
    ensures sizes { OnOk result (WhereTold (HasPartSizes old.now) (D.content disk.new)) }
    ensures whole { WhereTold (λ k. IsShort result → ⊥) (D.content disk.old) }
    ensures short { IfShort result (IsPlannedPart old.now plans.now) }
    ensures fewest { D.reads disk.old ≤ D.reads disk.new }
    ensures cause { RoseIf (IsFailed result) (D.faults disk.old) (D.faults disk.new) }
{
    for plan in plans {
        let to = file_of(new, plan.kind(), plan.number());
        write_plan(disk, old, plan, to)?;
    }
    Ok(())
}

/// Carries out plans of parts of an archive, and replaces the root by the one that names what they
/// wrote, with this next number, objects of this form and without a cache.
///
/// After `Ok` the files that only the old root names are gone. Returns the new root. Allocates
/// nothing.
///
/// `DiskFault` comes only if the count of faults rose. `Short` comes if a range isn't whole in its
/// file, which never happens on a disk that tells its content: it has the file, of a planned part by the
/// old root, and the number of bytes that count there. That is found while bytes are copied, so some may
/// be written by then, beside all that the old root names, which stays.
pub fn rewrite<D: Disk>(
    disk: &mut D,
    slot: Slot,
    old: &Root,
    plans: &[PartPlan],
    number: u32,
    form: Form,
) -> Result<Root, RewriteRefusal>
    requires root { IsRoot old.now }
    requires later { old.now.sequence + 1 < 2 ^ 64 }
    requires plans { MayCarryAll old.now plans.now }
    requires number { (1 ≤ number) × (number ≤ 2147483648) }
    requires map { MapFits old.now plans.now number form }
    requires sizes { WhereTold (HasPartSizes old.now) (D.content disk.old) }
    ensures carried { CarriesOut D.Disk disk.old disk.new old.now
        (slot_number slot) plans.now number form result }
    ensures fewest { D.reads disk.old ≤ D.reads disk.new }
{
    root_fits(old);
    let new = root_after(old, plans, number, form);
    root_fits(&new);
    write_plans(disk, old, &new, plans)?;
    replace_root(disk, slot, old, &new)?;
    Ok(new)
}
