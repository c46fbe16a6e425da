//! Ranked sets beside plain lists.
use arch_base::NoMemory;
use ranked_set::RankedSet;
use std::alloc::Global;

/// Returns the set of some keys, inserted in this order.
fn set_of(alloc: Global, keys: &[u64]) -> Result<RankedSet<u64>, NoMemory> {
    let mut set = RankedSet::new(alloc);
    for key in keys {
        set.insert(*key)?;
    }
    Ok(set)
}

/// Returns whether a set has these keys in order, by each of its calls.
fn has_keys(set: &RankedSet<u64>, keys: &[u64]) -> Result<bool, NoMemory> {
    let mut same = set.len() == keys.len() && set.get(keys.len()).is_none();
    for (index, key) in keys.iter().enumerate() {
        same = same && set.get(index) == Some(*key);
        same = same && set.rank(key) == index && set.contains(key);
    }
    let mut page = set.page(0, keys.len())?;
    page.reverse();
    Ok(same && page.as_slice() == keys)
}

/// Returns whether keys that are inserted in an order come out in theirs.
fn comes_out(alloc: Global, inserted: &[u64], wanted: &[u64]) -> Result<bool, NoMemory> {
    has_keys(&set_of(alloc, inserted)?, wanted)
}

#[test]
fn keys_come_out_in_order(rt: HostRuntime) {
    let rising = [1, 2, 3, 4, 5, 6, 7, 8];
    assert!(rt; matches!(comes_out(rt.alloc(), &rising, &rising), Ok(true)));
    let falling = [8, 7, 6, 5, 4, 3, 2, 1];
    assert!(rt; matches!(comes_out(rt.alloc(), &falling, &rising), Ok(true)));
    let mixed = [5, 1, 5, 8, 3, 2, 8, 7, 6, 4, 1];
    assert!(rt; matches!(comes_out(rt.alloc(), &mixed, &rising), Ok(true)));
    assert!(rt; matches!(comes_out(rt.alloc(), &[], &[]), Ok(true)));
}

/// Returns whether each removal leaves the other keys, whichever key of seven goes first.
fn each_is_removed(alloc: Global) -> Result<bool, NoMemory> {
    let keys = [10, 20, 30, 40, 50, 60, 70];
    let mut same = true;
    for gone in 0..7 {
        let mut set = set_of(alloc, &keys)?;
        set.remove(&keys[gone]);
        set.remove(&35);
        same = same && set.len() == 6 && !set.contains(&keys[gone]);
        same = same && set.rank(&keys[gone]) == gone && set.rank(&71) == 6;
    }
    Ok(same)
}

#[test]
fn a_removed_key_is_gone_and_the_others_stay(rt: HostRuntime) {
    assert!(rt; matches!(each_is_removed(rt.alloc()), Ok(true)));
}

/// Returns a page of ten keys.
fn page_of_ten(alloc: Global, skip: usize, count: usize) -> Result<Vec<u64>, NoMemory> {
    let set = set_of(alloc, &[3, 1, 4, 0, 5, 9, 2, 6, 8, 7])?;
    set.page(skip, count)
}

/// A part of the keys from 9 down to 0.
#[derive(Drop)]
struct Page {
    skip: usize,
    count: usize,
    keys: &'static [u64],
}

/// Parts at both ends, in the middle and beyond.
static PAGES: [Page; 8] = [
    Page {
        skip: 0,
        count: 0,
        keys: &[],
    },
    Page {
        skip: 0,
        count: 3,
        keys: &[9, 8, 7],
    },
    Page {
        skip: 4,
        count: 2,
        keys: &[5, 4],
    },
    Page {
        skip: 9,
        count: 5,
        keys: &[0],
    },
    Page {
        skip: 10,
        count: 1,
        keys: &[],
    },
    Page {
        skip: 7,
        count: 18_446_744_073_709_551_615,
        keys: &[2, 1, 0],
    },
    Page {
        skip: 18_446_744_073_709_551_615,
        count: 18_446_744_073_709_551_615,
        keys: &[],
    },
    Page {
        skip: 1,
        count: 8,
        keys: &[8, 7, 6, 5, 4, 3, 2, 1],
    },
];

/// Returns whether a page of ten keys has these.
fn has_page(alloc: Global, page: &Page) -> bool {
    match page_of_ten(alloc, page.skip, page.count) {
        Ok(keys) => keys.as_slice() == page.keys,
        Err(NoMemory) => false,
    }
}

#[test]
fn pages_go_from_the_greatest_key_down(rt: HostRuntime) {
    for page in &PAGES {
        assert!(rt; has_page(rt.alloc(), page));
    }
}

/// Removes the even ones of 200,000 keys.
fn remove_even(set: &mut RankedSet<u32>) {
    for key in 0..200_000u32 {
        if key % 2 == 0 {
            set.remove(&key);
        }
    }
}

/// Returns whether the odd ones of 200,000 keys have the ranks of a set of their own.
fn are_odd(set: &RankedSet<u32>) -> bool {
    let mut same = set.len() == 100_000;
    for key in 0..200_000u32 {
        same = same && (key % 2 == 0 || set.rank(&key) == key as usize / 2);
    }
    same
}

/// Returns whether 200,000 rising keys, of which the even ones are removed again, keep their ranks.
/// A tree that isn't balanced takes too long for a test.
fn many_keep_their_ranks(alloc: Global) -> Result<bool, NoMemory> {
    let mut set = RankedSet::new(alloc);
    for key in 0..200_000u32 {
        set.insert(key)?;
    }
    remove_even(&mut set);
    Ok(are_odd(&set))
}

#[test]
fn a_great_set_is_quick(rt: HostRuntime) {
    assert!(rt; matches!(many_keep_their_ranks(rt.alloc()), Ok(true)));
}
