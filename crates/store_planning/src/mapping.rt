//! Plans the map of an archive by the entries that are kept.
//! Allocates.
ghost use Rattle.std.specs.Prelude.{◌≡◌, ◌≤◌, ◌-◌, ◌++◌, [], IfOk, OnOk};
ghost use Rattle.store_finding.specs.Recovery.{records_from};
ghost use Rattle.store_planning.specs.Epochs.{PlansMapOf};
ghost use Rattle.store_planning.specs.Mapping.{AddsByKind, AddsRecord, AreAllRecords};

use arch_base::{Form, NoMemory};
use disk_model::FileKind;
use git_objects::EntryKind;
use number_map::{Record, Records, push_records, without_message};
use root_change::{PartPlan, Target};
use std::alloc::Global;
use store_finding::StoredEntry;

/// Appends the records of numbers without a message, from one up to another.
fn push_none(lines: &mut Records, from: u32, to: u32, form: Form) -> Result<(), NoMemory>
    requires { from ≤ to }
    ensures { OnOk result (lines.new ≡ lines.old ++ records_from form [] from (to - from)) }
{
    for number in from..to {
        lines.push(without_message(number, form))?;
    }
    Ok(())
}

/// Appends the records up to that of a message, and returns the number after its own.
///
/// `NoMemory` also stands for a message that isn't of an archive with this next number, whose numbers
/// rise.
fn push_message(
    lines: &mut Records,
    from: u32,
    entry: &StoredEntry,
    next: u32,
    form: Form,
) -> Result<u32, NoMemory>
    ensures { IfOk result (AddsRecord form next from entry.now lines.old lines.new) }
{
    if entry.number < from || entry.number >= next {
        // Not of an archive.
        return Err(NoMemory);
    }
    if entry.seen.blob.form() != form {
        // Nor is this.
        return Err(NoMemory);
    }
    push_none(lines, from, entry.number, form)?;
    let line = Record {
        number: entry.number,
        epoch: entry.epoch,
        blob: entry.seen.blob,
    };
    lines.push(line)?;
    Ok(entry.number + 1)
}

/// Appends the records up to that of an entry, if it is a message, and returns the number after the
/// last one.
fn push_kept(
    lines: &mut Records,
    from: u32,
    entry: &StoredEntry,
    next: u32,
    form: Form,
) -> Result<u32, NoMemory>
    ensures { IfOk result
        (AddsByKind entry.now.seen.kind form next from entry.now lines.old lines.new) }
{
    match entry.seen.kind {
        EntryKind::Deletion => Ok(from),
        EntryKind::Message => push_message(lines, from, entry, next, form),
    }
}

/// Appends the records of the messages among entries, and of the numbers between them. Returns the
/// number after the last one.
fn push_entries(
    lines: &mut Records,
    entries: &[StoredEntry],
    next: u32,
    form: Form,
) -> Result<u32, NoMemory>
    requires none { lines.old ≡ [] }
    requires next { 1 ≤ next }
    ensures { IfOk result (AreAllRecords form entries.now next lines.new) }
{
    let mut number = 1;
    for entry in entries {
        number = push_kept(lines, number, entry, next, form)?;
    }
    Ok(number)
}

/// Plans the map of a form with a record for each number below the next one: that of its message, if
/// one of the entries that are kept is that.
///
/// The plan takes bytes alone. `NoMemory` if an allocation fails, or if the entries aren't those of an
/// archive with this next number.
pub fn plan_map(
    alloc: Global,
    entries: &[StoredEntry],
    next: u32,
    form: Form,
) -> Result<PartPlan, NoMemory>
    requires next { 1 ≤ next }
    ensures planned { IfOk result (PlansMapOf form entries.now next) }
{
    let mut lines = Records::new(alloc);
    let number = push_entries(&mut lines, entries, next, form)?;
    push_none(&mut lines, number, next, form)?;
    let mut plan = PartPlan::new(alloc, FileKind::Map, 0, Target::Anew);
    push_records(alloc, &mut plan, lines.as_slice())?;
    Ok(plan)
}
