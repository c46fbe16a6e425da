//! The steps of adding a row: which label its threads get, and which rows get it.
//! Allocates.
ghost use Rattle.std.specs.Prelude.{◌≡◌, ◌+◌, ◌++◌, ◌∷◌, [], length, IfOk, OnOk};
ghost use Rattle.thread_index.specs.Adding.{Gathers, GiveLabel, HeldBy, IsLonger, IsTarget, MovesList};
ghost use Rattle.thread_index.specs.Lists.{PutsList, list_at, list_at_key};

use crate::lists::{ListsByKey, ListsByNumber, list_of, put_key, put_list, take_key, take_list};
use arch_base::{Bytes, NoMemory};
use std::alloc::Global;
use std::sync::ledger::Ledger;
use thread_model::{LabelTable, Steps};

/// Returns the label of two that has more rows.
fn longer(members: &ListsByNumber, a: u32, b: u32) -> u32
    ensures { IsLonger (list_at members.now) a b result }
{
    if list_of(members, a).len() < list_of(members, b).len() {
        return b;
    }
    a
}

/// Returns the label with the most rows, or the number of the new row if there is none.
pub(crate) fn target_of(members: &ListsByNumber, touched: &[u32], n: u32) -> u32
    ensures { IsTarget (list_at members.now) touched.now n result }
{
    let Some(first) = touched.first() else {
        return n;
    };
    let mut target = *first;
    for label in touched {
        target = longer(members, target, *label);
    }
    target
}

/// Moves the list of a label to the end of others, if the label isn't the target.
fn gather_one(
    alloc: Global,
    members: &mut ListsByNumber,
    moved: &mut Vec<u32>,
    label: u32,
    target: u32,
) -> Result<(), NoMemory>
    ensures { OnOk result (MovesList (list_at members.old) (list_at members.new) label target
        moved.old.items moved.new.items) }
{
    if label == target {
        return Ok(());
    }
    let list = take_list(alloc, members, label);
    moved.extend_from_slice(list.as_slice())?;
    Ok(())
}

/// Removes the lists of labels but the target, and returns their rows.
pub(crate) fn gather(
    alloc: Global,
    members: &mut ListsByNumber,
    touched: &[u32],
    target: u32,
) -> Result<Vec<u32>, NoMemory>
    ensures { IfOk result (λ moved. Gathers (list_at members.old) (list_at members.new) touched.now
        target moved.items) }
{
    let mut moved = Vec::new(alloc);
    for label in touched {
        gather_one(alloc, members, &mut moved, *label, target)?;
    }
    Ok(moved)
}

/// Gives some rows a label, in one step for each.
pub(crate) fn relabel<L: Ledger>(
    labels: &mut LabelTable,
    ns: &[u32],
    label: u32,
    steps: &mut Steps<L>,
) -> Result<(), NoMemory>
    ensures labels { OnOk result (GiveLabel labels.old labels.new ns.now label) }
    ensures steps { OnOk result (steps.new ≡ steps.old + length ns.now) }
{
    for n in ns {
        labels.set(*n, label, steps)?;
    }
    Ok(())
}

/// Appends rows to the list of a label.
pub(crate) fn append(
    alloc: Global,
    members: &mut ListsByNumber,
    label: u32,
    rows: &[u32],
) -> Result<(), NoMemory>
    ensures { OnOk result (PutsList (list_at members.old) (list_at members.new) label
        (list_at members.old label ++ rows.now)) }
{
    let mut list = take_list(alloc, members, label);
    list.extend_from_slice(rows)?;
    put_list(members, label, list)?;
    Ok(())
}

/// Appends a number to the list of a key.
fn hold_one(alloc: Global, holders: &mut ListsByKey, key: &[u8], n: u32) -> Result<(), NoMemory>
    ensures { OnOk result (HeldBy (list_at_key holders.old) (list_at_key holders.new)
        (key.now ∷ []) n) }
{
    let mut list = take_key(alloc, holders, key);
    list.push(n)?;
    put_key(alloc, holders, key, list)?;
    Ok(())
}

/// Appends a number to the list of each key.
pub(crate) fn hold(
    alloc: Global,
    holders: &mut ListsByKey,
    keys: &[Bytes],
    n: u32,
) -> Result<(), NoMemory>
    ensures { OnOk result (HeldBy (list_at_key holders.old) (list_at_key holders.new) keys.now n) }
{
    for key in keys {
        hold_one(alloc, holders, key.as_slice(), n)?;
    }
    Ok(())
}
