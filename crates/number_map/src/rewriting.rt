//! Writes a map anew, without the messages of some numbers.
//! Writes the disk; syncs.
ghost use Rattle.std.specs.Prelude.{◌≡◌, ◌≢◌, ◌+◌, ◌*◌, ◌<◌, Err, length, IfOk, OnOk, OnErr};
ghost use Rattle.std.specs.List.{flat_map, sum_by};
ghost use Rattle.arch_base.specs.Counts.{RoseIf};
ghost use Rattle.disk_model.specs.Beside.{Bounds, RespectsBound, RunsBeside};
ghost use Rattle.disk_model.specs.Disk.{BothTold};
ghost use Rattle.root_change.specs.Copying.{OtherFilesStay};
ghost use Rattle.root_change.specs.Rewriting.{IsPlan, PushesBytes};
ghost use Rattle.number_map.specs.Records.{record_bytes, size_of_line};
ghost use Rattle.number_map.specs.Rewriting.{PlansMap, PushesGone, RewritesMap, RisesUpTo, none_record};

use crate::line::{NO_EPOCH, Record, no_blob};
use crate::whole::walk;
use crate::writing::spell;
use arch_base::{Bytes, Form, MessageNumbers, NoMemory};
use disk_model::{Disk, FileKind, FileName, WalkRefusal, records_size};
use root_change::{PartPlan, Target, put_sources};
use std::alloc::Global;

/// Returns the record of a number without a message, in a form.
pub fn without_message(number: u32, form: Form) -> Record
    ensures none { result ≡ none_record form number }
{
    Record {
        number,
        epoch: NO_EPOCH,
        blob: no_blob(form),
    }
}

/// Appends a record to a plan.
pub fn push_record(plan: &mut PartPlan, line: &Record) -> Result<(), NoMemory>
    ensures ok { OnOk result (PushesBytes plan.old (record_bytes line.now) plan.new) }
    ensures valid { OnOk result (IsPlan plan.new) }
    ensures err { OnErr result (plan.new ≡ plan.old) }
{
    plan.push_bytes(spell(line).as_slice())
}

/// Returns the bytes of records, one after the other.
fn spell_all(alloc: Global, lines: &[Record]) -> Result<Bytes, NoMemory>
    ensures bytes { IfOk result (λ bytes. bytes ≡ flat_map record_bytes lines.now) }
    ensures size { IfOk result (λ bytes. length bytes ≡ sum_by size_of_line lines.now) }
{
    let mut bytes = Bytes::new(alloc);
    for line in lines {
        bytes.push_slice(spell(line).as_slice())?;
    }
    Ok(bytes)
}

/// Appends records to a plan, as one piece.
///
/// The plan gets a single source for all of them. Allocates room for their bytes, and frees it. So a
/// map of many records is best planned in pieces of some thousand each. `NoMemory` if an allocation
/// fails, or if the plan would have 2^62 bytes or more. The plan is then unchanged.
pub fn push_records(alloc: Global, plan: &mut PartPlan, lines: &[Record]) -> Result<(), NoMemory>
    ensures ok { OnOk result (PushesBytes plan.old (flat_map record_bytes lines.now) plan.new) }
    ensures size { OnOk result (length (flat_map record_bytes lines.now) ≡ sum_by size_of_line lines.now) }
    ensures valid { OnOk result (IsPlan plan.new) }
    ensures err { OnErr result (plan.new ≡ plan.old) }
{
    let bytes = spell_all(alloc, lines)?;
    plan.push_bytes(bytes.as_slice())
}

/// Appends the records after the first `done` ones, up to that of a number, to a plan, and then that
/// of the number without its message.
fn push_gone(
    plan: &mut PartPlan,
    file: FileName,
    done: u32,
    number: u32,
    form: Form,
) -> Result<(), NoMemory>
    requires { done < number }
    ensures { OnOk result (PushesGone form file done number plan.old plan.new) }
{
    let kept = number - done - 1;
    plan.push_range(file, records_size(done, form), records_size(kept, form))?;
    push_record(plan, &without_message(number, form))
}

/// Plans the first `count` records of a map, where some numbers, which rise, have no message.
///
/// The plan takes ranges of the old file, and a record for each of these numbers. `NoMemory` comes only
/// if an allocation fails.
pub fn plan_without(
    alloc: Global,
    file: FileName,
    count: u32,
    gone: &MessageNumbers,
    form: Form,
) -> Result<PartPlan, NoMemory>
    requires gone { RisesUpTo 1 count gone.now }
    ensures { IfOk result (PlansMap form file count gone.now) }
{
    let mut plan = PartPlan::new(alloc, FileKind::Map, 0, Target::Anew);
    let mut done = 0;
    for number in gone.as_slice() {
        let number = *number;
        push_gone(&mut plan, file, done, number, form)?;
        done = number;
    }
    plan.push_range(
        file,
        records_size(done, form),
        records_size(count - done, form),
    )?;
    Ok(plan)
}

/// Copies the first `count` records of a map to another file, where some numbers, which rise, have no
/// message.
///
/// The other file isn't there before. Reads the records first: the map is `Damaged` at the offset of
/// the first of them that isn't whole in the file or isn't a valid one of its number. `Damaged` and
/// `NoMemory` leave all files. `DiskFault` comes only if the count of faults rose.
///
/// A map that gets shorter while it is copied is `Damaged` at the end of its records. The other file
/// may then have some of them.
pub fn rewrite<D: Disk>(
    alloc: Global,
    disk: &mut D,
    from: FileName,
    count: u32,
    to: FileName,
    gone: &MessageNumbers,
    form: Form,
) -> Result<(), WalkRefusal>
    requires apart { from ≢ to }
    requires gone { RisesUpTo 1 count gone.now }
    ensures rewritten { BothTold (λ k m. RewritesMap form from count to gone.now k m result)
        (D.content disk.old) (D.content disk.new) }
    ensures others { BothTold (OtherFilesStay to) (D.content disk.old) (D.content disk.new) }
    ensures crash_beside { (bounds : Bounds) → RespectsBound (bounds to) 0
        → RunsBeside D.Disk bounds disk.old disk.new }
    ensures cause { RoseIf (result ≡ Err WalkRefusal.DiskFault) (D.faults disk.old) (D.faults disk.new) }
{
    walk(alloc, disk, from, count, form)?;
    let plan = plan_without(alloc, from, count, gone, form)?;
    let whole = put_sources(disk, plan.bytes(), plan.sources(), to, 0)?;
    if !whole {
        // The file got shorter after its records were read.
        return Err(WalkRefusal::Damaged {
            at: records_size(count, form),
        });
    }
    Ok(())
}
