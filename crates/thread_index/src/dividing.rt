//! A thread whose rows have lost their label is divided: each part that keys still join gets one.
//! Allocates.
ghost use Rattle.std.specs.Prelude.{◌≡◌, ◌+◌, ◌∷◌, [], length, IfOk, OnOk};
ghost use Rattle.thread_index.specs.Lists.{list_at, list_at_key};
ghost use Rattle.thread_index.specs.Tables.{AreHolders};
ghost use Rattle.thread_index.specs.Taking.{AreSeen, HoldsOne, IsThreadPart, IsPartial, MovesPending, SharesKey};
ghost use Rattle.thread_model.specs.Members.{Among, Once};

use crate::adding::relabel;
use crate::lists::{ListsByKey, ListsByNumber, list_of_key, put_list};
use arch_base::{Bytes, NoMemory, Texts};
use std::alloc::Global;
use std::collections::{BTreeMap, BTreeSet};
use std::sync::ledger::Ledger;
use thread_model::{LabelTable, Steps};

/// Rows by number: the keys of each.
pub(crate) type Rows = BTreeMap<u32, Texts>;

/// Keys that a walk has seen.
type SeenKeys = BTreeSet<Vec<u8>>;

/// Moves a number to the end of a part, if it is pending.
fn move_one(pending: &mut BTreeSet<u32>, part: &mut Vec<u32>, n: u32) -> Result<(), NoMemory>
    requires { Once pending.old.keys }
    ensures { OnOk result (MovesPending (Among (n ∷ [])) pending.old.keys pending.new.keys part.old.items
        part.new.items) }
{
    if !pending.remove(&n) {
        return Ok(());
    }
    part.push(n)?;
    Ok(())
}

/// Moves the pending ones of some numbers to the end of a part.
fn move_all(pending: &mut BTreeSet<u32>, part: &mut Vec<u32>, ns: &[u32]) -> Result<(), NoMemory>
    requires { Once pending.old.keys }
    ensures { OnOk result (MovesPending (Among ns.now) pending.old.keys pending.new.keys part.old.items
        part.new.items) }
{
    for n in ns {
        move_one(pending, part, *n)?;
    }
    Ok(())
}

/// Moves the pending rows that have a key to the end of a part, and notes the key as seen.
fn visit_key(
    alloc: Global,
    holders: &ListsByKey,
    seen: &mut SeenKeys,
    pending: &mut BTreeSet<u32>,
    part: &mut Vec<u32>,
    key: &[u8],
) -> Result<(), NoMemory>
    requires once { Once pending.old.keys }
    requires seen { AreSeen seen.old (list_at_key holders.now) pending.old.keys }
    ensures moves { OnOk result (MovesPending (Among (list_at_key holders.now key.now)) pending.old.keys
        pending.new.keys part.old.items part.new.items) }
    ensures seen { OnOk result (AreSeen seen.new (list_at_key holders.now) pending.new.keys) }
{
    if seen.contains(key) {
        return Ok(());
    }
    move_all(pending, part, list_of_key(holders, key))?;
    let key = key.to_vec(alloc)?;
    seen.insert(key)?;
    Ok(())
}

/// Moves the pending rows that have one of some keys to the end of a part.
fn visit_keys(
    alloc: Global,
    holders: &ListsByKey,
    seen: &mut SeenKeys,
    pending: &mut BTreeSet<u32>,
    part: &mut Vec<u32>,
    keys: &[Bytes],
) -> Result<(), NoMemory>
    requires once { Once pending.old.keys }
    requires seen { AreSeen seen.old (list_at_key holders.now) pending.old.keys }
    ensures moves { OnOk result (MovesPending (HoldsOne (list_at_key holders.now) keys.now)
        pending.old.keys pending.new.keys part.old.items part.new.items) }
    ensures seen { OnOk result (AreSeen seen.new (list_at_key holders.now) pending.new.keys) }
{
    for key in keys {
        visit_key(alloc, holders, seen, pending, part, key.as_slice())?;
    }
    Ok(())
}

/// Moves the pending rows that share a key with a row to the end of a part.
fn visit(
    alloc: Global,
    rows: &Rows,
    holders: &ListsByKey,
    seen: &mut SeenKeys,
    pending: &mut BTreeSet<u32>,
    part: &mut Vec<u32>,
    n: u32,
) -> Result<(), NoMemory>
    requires once { Once pending.old.keys }
    requires seen { AreSeen seen.old (list_at_key holders.now) pending.old.keys }
    requires held { AreHolders rows.now.entries (list_at_key holders.now) }
    ensures moves { OnOk result (MovesPending (SharesKey rows.now.entries (list_at_key holders.now) n)
        pending.old.keys pending.new.keys part.old.items part.new.items) }
    ensures seen { OnOk result (AreSeen seen.new (list_at_key holders.now) pending.new.keys) }
{
    let Some(keys) = rows.get(&n) else {
        return Ok(());
    };
    visit_keys(alloc, holders, seen, pending, part, keys.as_slice())?;
    Ok(())
}

/// Returns the part of a thread that a row reaches over pending rows, which then aren't pending.
fn walk(
    alloc: Global,
    rows: &Rows,
    holders: &ListsByKey,
    pending: &mut BTreeSet<u32>,
    seed: u32,
) -> Result<Vec<u32>, NoMemory>
    requires once { Once pending.old.keys }
    requires held { AreHolders rows.now.entries (list_at_key holders.now) }
    requires seed { Among pending.old.keys seed → ⊥ }
    ensures { IfOk result (λ part. IsThreadPart rows.now.entries (list_at_key holders.now)
        pending.old.keys pending.new.keys seed part.items (length part.items)) }
{
    let mut part = Vec::new(alloc);
    part.push(seed)?;
    let mut seen = BTreeSet::new(alloc);
    let mut i = 0;
    while i < part.len() {
        let n = part[i];
        visit(alloc, rows, holders, &mut seen, pending, &mut part, n)?;
        i += 1;
    }
    Ok(part)
}

/// Labels the pending rows, each part with the number of one of its rows.
///
/// It takes one step for each pending row.
pub(crate) fn divide<L: Ledger>(
    alloc: Global,
    rows: &Rows,
    holders: &ListsByKey,
    labels: &mut LabelTable,
    members: &mut ListsByNumber,
    mut pending: BTreeSet<u32>,
    steps: &mut Steps<L>,
) -> Result<(), NoMemory>
    requires { IsPartial rows.now.entries pending.keys labels.old (list_at members.old)
        (list_at_key holders.now) }
    ensures index { OnOk result (IsPartial rows.now.entries [] labels.new (list_at members.new)
        (list_at_key holders.now)) }
    ensures steps { OnOk result (steps.new ≡ steps.old + length pending.keys) }
{
    while let Some(seed) = pending.pop_first() {
        let part = walk(alloc, rows, holders, &mut pending, seed)?;
        relabel(labels, part.as_slice(), seed, steps)?;
        put_list(members, seed, part)?;
    }
    Ok(())
}
