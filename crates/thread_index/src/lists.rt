//! Maps whose values are lists of numbers. A list that isn't there is an empty one.
//! Allocates.
ghost use Rattle.std.specs.Prelude.{◌≡◌, [], OnOk};
ghost use Rattle.thread_index.specs.Lists.{PutsKey, PutsList, list_at, list_at_key};

use arch_base::NoMemory;
use std::alloc::Global;
use std::collections::BTreeMap;

/// Lists by numbers.
pub(crate) type ListsByNumber = BTreeMap<u32, Vec<u32>>;

/// Lists by keys.
pub(crate) type ListsByKey = BTreeMap<Vec<u8>, Vec<u32>>;

/// Returns the list of a number.
pub(crate) fn list_of(lists: &ListsByNumber, n: u32) -> &[u32]
    ensures { result.now ≡ list_at lists.now n }
{
    match lists.get(&n) {
        Some(list) => list.as_slice(),
        None => &[],
    }
}

/// Returns the list of a key.
pub(crate) fn list_of_key<'a>(lists: &'a ListsByKey, key: &[u8]) -> &'a [u32]
    ensures { result.now ≡ list_at_key lists.now key.now }
{
    match lists.get(key) {
        Some(list) => list.as_slice(),
        None => &[],
    }
}

/// Removes the list of a number, and returns it.
pub(crate) fn take_list(alloc: Global, lists: &mut ListsByNumber, n: u32) -> Vec<u32>
    ensures list { result.items ≡ list_at lists.old n }
    ensures rest { PutsList (list_at lists.old) (list_at lists.new) n [] }
{
    lists.remove(&n).unwrap_or(Vec::new(alloc))
}

/// Removes the list of a key, and returns it.
pub(crate) fn take_key(alloc: Global, lists: &mut ListsByKey, key: &[u8]) -> Vec<u32>
    ensures list { result.items ≡ list_at_key lists.old key.now }
    ensures rest { PutsKey (list_at_key lists.old) (list_at_key lists.new) key.now [] }
{
    lists.remove(key).unwrap_or(Vec::new(alloc))
}

/// Gives a number a list. An empty one takes no entry.
pub(crate) fn put_list(lists: &mut ListsByNumber, n: u32, list: Vec<u32>) -> Result<(), NoMemory>
    ensures { OnOk result (PutsList (list_at lists.old) (list_at lists.new) n list.items) }
{
    if list.is_empty() {
        let _ = lists.remove(&n);
        return Ok(());
    }
    lists.insert(n, list)?;
    Ok(())
}

/// Gives a key a list. An empty one takes no entry.
pub(crate) fn put_key(
    alloc: Global,
    lists: &mut ListsByKey,
    key: &[u8],
    list: Vec<u32>,
) -> Result<(), NoMemory>
    ensures { OnOk result (PutsKey (list_at_key lists.old) (list_at_key lists.new) key.now
        list.items) }
{
    if list.is_empty() {
        let _ = lists.remove(key);
        return Ok(());
    }
    let key = key.to_vec(alloc)?;
    lists.insert(key, list)?;
    Ok(())
}
