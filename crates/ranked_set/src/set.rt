//! An ordered set that knows the rank of each key.
//! Allocates.
ghost use Rattle.std.specs.Prelude.{◌≡◌, ◌≤◌, [], length, reverse, take, drop, slice_get, IfOk, OnOk, OnErr};
ghost use Rattle.std.specs.BTreeMap.{is_at};
ghost use Rattle.std.specs.BTreeSet.{insert_key};
ghost use Rattle.std.specs.List.{list_any};
ghost use Rattle.std.specs.List.Sorted.{IsStrictlySortedBy};
ghost use Rattle.std.specs.Set.{remove_key};
ghost use Rattle.ranked_set.specs.Ranks.{rank_of, has_key};

use crate::tree::Tree;
use crate::window::Window;
use arch_base::NoMemory;
use std::alloc::Global;
use std::marker::Model;

/// The greatest number of keys, which no memory holds.
const MAX_LEN: usize = 4_611_686_018_427_387_904;

/// A set of keys in order, which knows how many keys are less than any.
///
/// Its calls take a number of steps that grows with the logarithm of the number of keys; `page` takes
/// one more for each key that it returns.
#[derive(Drop)]
pub struct RankedSet<K: Ord> {
    tree: Tree<K>,
    alloc: Global,
}

// A clause sees the keys in order.
impl<K: Ord> Model for RankedSet<K> {
    ghost use Rattle.std.specs.Prelude.{List};
    ghost use Rattle.std.specs.List.Sorted.{IsStrictlySortedBy};

    ghost Value = { List K };

    ghost view = { λ s. s.tree };

    ghost invariant = { λ s. IsStrictlySortedBy K.cmp s.tree };
}

impl<K: Ord + Copy> RankedSet<K> {
    /// Returns an empty set. Allocates nothing.
    pub fn new(alloc: Global) -> Self
        ensures { result ≡ [] }
    {
        RankedSet {
            tree: Tree::new(),
            alloc,
        }
    }

    /// Returns the number of keys.
    pub fn len(&self) -> usize
        ensures len { result ≡ length self.now }
        ensures ordered { IsStrictlySortedBy K.cmp self.now }
    {
        self.tree.len()
    }

    /// Returns whether a key is in the set.
    pub fn contains(&self, key: &K) -> bool
        ensures { result ≡ list_any (is_at (K.cmp key.now)) self.now }
    {
        self.is_at(self.tree.rank(key), key)
    }

    /// Returns how many keys are less than this one.
    pub fn rank(&self, key: &K) -> usize
        ensures value { result ≡ rank_of K.cmp self.now key.now }
        ensures within { result ≤ length self.now }
    {
        self.tree.rank(key)
    }

    /// Returns the key at an index in the order, or `None` past the end.
    pub fn get(&self, index: usize) -> Option<K>
        ensures { result ≡ slice_get self.now index }
    {
        self.tree.get(index)
    }

    /// Inserts a key, unless an equal one is in the set.
    ///
    /// `NoMemory` if an allocation fails, or the set has 2^62 keys; the set is unchanged.
    pub fn insert(&mut self, key: K) -> Result<(), NoMemory>
        ensures ordered { IsStrictlySortedBy K.cmp self.old }
        ensures ok { OnOk result (self.new ≡ insert_key K.cmp self.old key) }
        ensures err { OnErr result (self.new ≡ self.old) }
    {
        let index = self.tree.rank(&key);
        if self.is_at(index, &key) {
            return Ok(());
        }
        if self.tree.len() >= MAX_LEN {
            return Err(NoMemory);
        }
        self.tree.insert(self.alloc, index, key)
    }

    /// Removes a key, if it is in the set.
    pub fn remove(&mut self, key: &K)
        ensures ordered { IsStrictlySortedBy K.cmp self.old }
        ensures keys { self.new ≡ remove_key (is_at (K.cmp key.now)) self.old }
    {
        let index = self.tree.rank(key);
        if self.is_at(index, key) {
            self.tree.remove(index);
        }
    }

    /// Returns whether the key at an index equals a key.
    fn is_at(&self, index: usize, key: &K) -> bool
        ensures value { result ≡ has_key K.cmp key.now (slice_get self.now index) }
        ensures ordered { IsStrictlySortedBy K.cmp self.now }
    {
        match self.tree.get(index) {
            Some(found) => found.cmp(key).is_eq(),
            None => false,
        }
    }

    /// Returns the keys from the greatest on: so many after so many that are skipped, or as many as
    /// there are.
    ///
    /// `NoMemory` if an allocation fails.
    pub fn page(&self, skip: usize, count: usize) -> Result<Vec<K>, NoMemory>
        ensures { IfOk result (λ keys. keys.items ≡ take count (drop skip (reverse self.now))) }
    {
        let mut keys = Vec::new(self.alloc);
        self.tree.push_last(Window { skip, count }, &mut keys)?;
        Ok(keys)
    }
}
