//! Writes an epoch's file anew, without some of its entries.
//! Writes the disk; syncs.
ghost use Rattle.std.specs.Prelude.{◌≡◌, ◌≢◌, Err, IfOk};
ghost use Rattle.arch_base.specs.Counts.{RoseIf};
ghost use Rattle.disk_model.specs.Beside.{Bounds, RespectsBound, RunsBeside};
ghost use Rattle.disk_model.specs.Disk.{Image, BothTold, WhereTold, Unchanged};
ghost use Rattle.disk_model.specs.Moments.{LeavesOnly};
ghost use Rattle.disk_model.specs.declared.name.FileKind.TheVariants as kind;
ghost use Rattle.root_change.specs.declared.plan.Target.TheVariants as target;
ghost use Rattle.root_change.specs.Copying.{OtherFilesStay};
ghost use Rattle.root_change.specs.Rewriting.{no_plan, with_range};
ghost use Rattle.epoch_file.specs.Planning.{is_among as among, IsAnewOf, IsOfEpoch, PlansFile, PlansWhole, RewritesEpoch, TakesNext};

use crate::entry::{Seen, SeenList};
use crate::planning::EpochPlan;
use crate::walking::walk;
use arch_base::{Form, NoMemory, Numbers};
use disk_model::{Disk, FileKind, FileName, WalkRefusal};
use root_change::{PartPlan, Target, put_sources};
use std::alloc::Global;

/// Returns whether an index is one of these.
fn is_among(gone: &Numbers, index: u64) -> bool
    ensures { result ≡ among gone.now index }
{
    gone.as_slice().contains(&index)
}

/// Keeps the next entry of an epoch's file, or leaves it out.
fn take_entry<D: Disk>(
    alloc: Global,
    disk: &mut D,
    plan: &mut EpochPlan,
    entry: &Seen,
    leaves: bool,
) -> Result<(), WalkRefusal>
    ensures taken { WhereTold (TakesNext plan.old entry.now leaves plan.new result)
        (D.content disk.old) }
    ensures file { plan.new.file ≡ plan.old.file }
    ensures form { plan.new.form ≡ plan.old.form }
    ensures same { BothTold Unchanged (D.content disk.old) (D.content disk.new) }
    ensures crash { LeavesOnly D.Disk disk.old disk.new (Image (D.content disk.old)) }
    ensures cause { RoseIf (result ≡ Err WalkRefusal.DiskFault) (D.faults disk.old)
        (D.faults disk.new) }
{
    if leaves {
        plan.leave_out(alloc, entry)?;
        return Ok(());
    }
    plan.keep(alloc, disk, entry)?;
    Ok(())
}

/// Plans the file of an epoch of a form without the entries that have these indexes.
fn plan_entries<D: Disk>(
    alloc: Global,
    disk: &mut D,
    from: FileName,
    seen: &SeenList,
    gone: &Numbers,
    form: Form,
) -> Result<Option<PartPlan>, WalkRefusal>
    ensures of { IfOk result (IsOfEpoch from) }
    ensures planned { WhereTold (PlansWhole form from seen.now gone.now result) (D.content disk.old) }
    ensures same { BothTold Unchanged (D.content disk.old) (D.content disk.new) }
    ensures crash { LeavesOnly D.Disk disk.old disk.new (Image (D.content disk.old)) }
    ensures cause { RoseIf (result ≡ Err WalkRefusal.DiskFault) (D.faults disk.old)
        (D.faults disk.new) }
{
    let mut plan = EpochPlan::new(from, form);
    let mut index = 0;
    for entry in seen.as_slice() {
        let leaves = is_among(gone, index);
        if let Err(refusal) = take_entry(alloc, disk, &mut plan, entry, leaves) {
            return Err(refusal);
        }
        index += 1;
    }
    Ok(plan.finish(alloc))
}

/// Returns the plan of a whole copy of a file of so many bytes.
fn whole_copy(alloc: Global, from: FileName, count: u64) -> Result<PartPlan, NoMemory>
    ensures copy { IfOk result (λ plan. plan
        ≡ with_range (no_plan kind.Epoch from.number target.Anew) from 0 count) }
    ensures anew { IfOk result (IsAnewOf from) }
{
    let mut plan = PartPlan::new(alloc, FileKind::Epoch, from.number, Target::Anew);
    plan.push_range(from, 0, count)?;
    Ok(plan)
}

/// Plans a copy of the first `count` bytes of the file of an epoch of a form without the entries that
/// have these indexes.
fn plan_file<D: Disk>(
    alloc: Global,
    disk: &mut D,
    from: FileName,
    count: u64,
    seen: &SeenList,
    gone: &Numbers,
    form: Form,
) -> Result<PartPlan, WalkRefusal>
    ensures anew { IfOk result (IsAnewOf from) }
    ensures planned { WhereTold (PlansFile form from count seen.now gone.now result)
        (D.content disk.old) }
    ensures same { BothTold Unchanged (D.content disk.old) (D.content disk.new) }
    ensures crash { LeavesOnly D.Disk disk.old disk.new (Image (D.content disk.old)) }
    ensures cause { RoseIf (result ≡ Err WalkRefusal.DiskFault) (D.faults disk.old)
        (D.faults disk.new) }
{
    match plan_entries(alloc, disk, from, seen, gone, form) {
        Err(refusal) => Err(refusal),
        Ok(Some(plan)) => Ok(plan),
        Ok(None) => Ok(whole_copy(alloc, from, count)?),
    }
}

/// Copies the first `count` bytes of the file of an epoch of a form to another file, without the entries
/// that have these indexes, which rise. Returns the number of bytes there.
///
/// The commits after the first entry that is left out are made anew. The other file isn't there
/// before; it isn't made if no entry stays. Reads the epoch first: it is `Damaged` where `walk` says
/// so. `Damaged` and `NoMemory` leave all files. `DiskFault` comes only if the count of faults rose.
///
/// An epoch that gets shorter while it is copied is `Damaged` at its end. The other file may then have
/// some of its bytes.
pub fn rewrite<D: Disk>(
    alloc: Global,
    disk: &mut D,
    from: FileName,
    count: u64,
    to: FileName,
    gone: &Numbers,
    form: Form,
) -> Result<u64, WalkRefusal>
    requires apart { from ≢ to }
    ensures rewritten { BothTold (λ k m. RewritesEpoch form from count to gone.now k m result)
        (D.content disk.old) (D.content disk.new) }
    ensures others { BothTold (OtherFilesStay to) (D.content disk.old) (D.content disk.new) }
    ensures crash_beside { (bounds : Bounds) → RespectsBound (bounds to) 0
        → RunsBeside D.Disk bounds disk.old disk.new }
    ensures cause { RoseIf (result ≡ Err WalkRefusal.DiskFault) (D.faults disk.old) (D.faults disk.new) }
{
    let seen = walk(alloc, disk, from, count, form)?;
    let plan = plan_file(alloc, disk, from, count, &seen, gone, form)?;
    let whole = put_sources(disk, plan.bytes(), plan.sources(), to, 0)?;
    if !whole {
        // The file got shorter after its entries were read.
        return Err(WalkRefusal::Damaged { at: count });
    }
    Ok(plan.count())
}
