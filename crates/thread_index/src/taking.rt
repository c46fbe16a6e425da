//! The steps of taking a row: the other rows of its thread, and its keys.
//! Allocates.
ghost use Rattle.std.specs.Prelude.{◌≡◌, ◌∷◌, [], IfOk, OnOk};
ghost use Rattle.thread_index.specs.Lists.{list_at_key};
ghost use Rattle.thread_index.specs.Taking.{AreOthers, LetGo, PutsOther, all_but};

use crate::lists::{ListsByKey, put_key, take_key};
use arch_base::{Bytes, NoMemory};
use std::alloc::Global;
use std::collections::BTreeSet;

/// Puts a number into a set, if it isn't a certain one.
fn put_other(others: &mut BTreeSet<u32>, m: u32, n: u32) -> Result<(), NoMemory>
    ensures { OnOk result (PutsOther others.old.keys others.new.keys m n) }
{
    if m == n {
        return Ok(());
    }
    others.insert(m)?;
    Ok(())
}

/// Returns the set of some numbers without one.
pub(crate) fn others(alloc: Global, ns: &[u32], n: u32) -> Result<BTreeSet<u32>, NoMemory>
    ensures { IfOk result (λ others. AreOthers ns.now n others.keys) }
{
    let mut found = BTreeSet::new(alloc);
    for m in ns {
        put_other(&mut found, *m, n)?;
    }
    Ok(found)
}

/// Removes a number from a list.
fn leave(list: &mut Vec<u32>, n: u32)
    ensures { list.new.items ≡ all_but n list.old.items }
{
    list.retain(|m| *m != n);
}

/// Removes a number from the list of a key.
fn let_go_one(alloc: Global, holders: &mut ListsByKey, key: &[u8], n: u32) -> Result<(), NoMemory>
    ensures { OnOk result (LetGo (list_at_key holders.old) (list_at_key holders.new) (key.now ∷ [])
        n) }
{
    let mut list = take_key(alloc, holders, key);
    leave(&mut list, n);
    put_key(alloc, holders, key, list)?;
    Ok(())
}

/// Removes a number from the list of each key.
pub(crate) fn let_go(
    alloc: Global,
    holders: &mut ListsByKey,
    keys: &[Bytes],
    n: u32,
) -> Result<(), NoMemory>
    ensures { OnOk result (LetGo (list_at_key holders.old) (list_at_key holders.new) keys.now n) }
{
    for key in keys {
        let_go_one(alloc, holders, key.as_slice(), n)?;
    }
    Ok(())
}
