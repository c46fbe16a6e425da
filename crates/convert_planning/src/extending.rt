//! Adds an entry to the plan of an epoch of another form.
//! Allocates.
ghost use Rattle.std.specs.Prelude.{◌≡◌, ◌+◌, IfOk, OnOk};
ghost use Rattle.root_change.specs.Rewriting.{IsPlan};
ghost use Rattle.convert_planning.specs.ConvertSteps.{Extends, begun};

use arch_base::{Form, NoMemory};
use disk_model::FileName;
use epoch_file::Seen;
use mail_commits::magic;
use root_change::PartPlan;

/// Appends the magic of a form to a plan that writes nothing yet.
fn begin(plan: &mut PartPlan, form: Form) -> Result<(), NoMemory>
    ensures begun { OnOk result (plan.new ≡ begun form plan.old) }
    ensures valid { OnOk result (IsPlan plan.new) }
{
    if plan.count() == 0 {
        return plan.push_bytes(magic(form).as_slice());
    }
    Ok(())
}

/// Appends an entry to the plan of its epoch: its blob, which is copied from a file, and these bytes of
/// its other objects, as one piece. Returns its offset in the new file.
///
/// `NoMemory` if an allocation fails, the plan would have 2^62 bytes or more, or the text ends before
/// its entry begins, which that of an entry doesn't.
pub(crate) fn extend(
    plan: &mut PartPlan,
    file: FileName,
    seen: &Seen,
    form: Form,
    objects: &[u8],
) -> Result<u64, NoMemory>
    ensures { IfOk result (λ at. Extends form file seen.now objects.now plan.old plan.new at) }
{
    let count = blob_size(seen)?;
    begin(plan, form)?;
    let at = plan.count();
    plan.push_range(file, seen.at, count)?;
    plan.push_bytes(objects)?;
    Ok(at)
}

/// Returns the number of bytes of an entry's blob.
///
/// `NoMemory` if that is no number of 64 bits, which no entry has.
fn blob_size(seen: &Seen) -> Result<u64, NoMemory>
    ensures { IfOk result (λ count. seen.now.at + count ≡ seen.now.text_at + seen.now.size) }
{
    let Some(front) = seen.text_at.checked_sub(seen.at) else {
        return Err(NoMemory);
    };
    match front.checked_add(seen.size) {
        Some(count) => Ok(count),
        None => Err(NoMemory),
    }
}
