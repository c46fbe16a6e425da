//! Sets of the numbers of rows.
//! Allocates.
ghost use Rattle.std.specs.Prelude.{◌≡◌, ℕ, [], cond, true, false, IsTrue, IfOk, OnOk, OnErr};
ghost use Rattle.std.specs.Ordering.{nat_cmp};
ghost use Rattle.std.specs.BTreeMap.{is_at};
ghost use Rattle.std.specs.BTreeSet.{contains};
ghost use Rattle.word_index.specs.Postings.{IsListOf, IsPlaceOf, EndsBelow};

use arch_base::NoMemory;
use std::alloc::{AllocError, Global};
use std::marker::Model;

/// Numbers of rows, rising in one piece of memory: four bytes each, and at most an eighth more.
///
/// A number greater than all others, which is what a new row mostly has, is put at the end without a
/// search.
#[derive(Drop)]
pub struct NumberSet {
    numbers: Vec<u32>,
}

impl Model for NumberSet {
    ghost use Rattle.std.specs.Prelude.{ℕ};
    ghost use Rattle.std.specs.Ordering.{nat_cmp};
    ghost use Rattle.std.specs.List.Sorted.{IsStrictlySortedBy};
    ghost use Rattle.std.specs.BTreeSet.{BTreeSet};

    ghost Value = { BTreeSet ℕ };

    ghost view = { λ s. record { keys = s.numbers.items } };

    ghost invariant = { λ s. IsStrictlySortedBy nat_cmp s.numbers.items };
}

impl NumberSet {
    /// Returns a set without numbers. Allocates nothing.
    pub fn new(alloc: Global) -> NumberSet
        ensures { result.keys ≡ [] }
    {
        NumberSet {
            numbers: Vec::new(alloc),
        }
    }

    /// Returns how many numbers there are.
    pub fn len(&self) -> usize {
        self.numbers.len()
    }

    /// Returns whether there are no numbers.
    pub fn is_empty(&self) -> bool
        ensures { IsTrue result → self.now.keys ≡ [] }
    {
        self.numbers.is_empty()
    }

    /// Returns whether a number is there.
    pub fn contains(&self, n: u32) -> bool
        ensures { result ≡ contains nat_cmp self.now n }
    {
        self.place(n).is_ok()
    }

    /// Adds a number. `NoMemory` changes nothing.
    pub fn insert(&mut self, n: u32) -> Result<(), NoMemory>
        ensures ok { OnOk result ((m : ℕ) → contains nat_cmp self.new m
            ≡ cond (is_at (nat_cmp n) m) true (contains nat_cmp self.old m)) }
        ensures err { OnErr result (self.new.keys ≡ self.old.keys) }
    {
        match self.place(n) {
            Ok(_) => Ok(()),
            Err(place) => {
                self.make_room()?;
                self.numbers.insert(place, n)?;
                Ok(())
            }
        }
    }

    /// Removes a number. A set without numbers holds no memory.
    pub fn remove(&mut self, n: u32)
        ensures { (m : ℕ) → contains nat_cmp self.new m
            ≡ cond (is_at (nat_cmp n) m) false (contains nat_cmp self.old m) }
    {
        if let Ok(place) = self.place(n) {
            self.numbers.remove(place);
            self.give_back();
        }
    }

    /// Gives the memory of an empty set back.
    fn give_back(&mut self)
        ensures { self.new.keys ≡ self.old.keys }
    {
        if self.numbers.is_empty() {
            self.numbers.shrink_to_fit();
        }
    }

    /// Returns the numbers, rising.
    pub fn listed(&self, alloc: Global) -> Result<Vec<u32>, AllocError>
        ensures { IfOk result (λ found. IsListOf found.items (contains nat_cmp self.now)) }
    {
        Vec::from_slice(alloc, self.numbers.as_slice())
    }

    /// Returns where a number stands, or where it belongs.
    fn place(&self, n: u32) -> Result<usize, usize>
        ensures { IsPlaceOf self.now.keys n result }
    {
        let numbers = self.numbers.as_slice();
        if ends_below(numbers, n) {
            return Err(numbers.len());
        }
        numbers.binary_search(&n)
    }

    /// Makes room for one number more. A full list grows by an eighth.
    fn make_room(&mut self) -> Result<(), NoMemory>
        ensures { self.new.keys ≡ self.old.keys }
    {
        let len = self.numbers.len();
        if len == self.numbers.capacity() {
            self.numbers.reserve_exact(len / 8 + 4)?;
        }
        Ok(())
    }
}

/// Returns whether the last of some numbers is less than a number, or there is none.
fn ends_below(numbers: &[u32], n: u32) -> bool
    ensures { IsTrue result → EndsBelow numbers.now n }
{
    match numbers.last() {
        Some(last) => *last < n,
        None => true,
    }
}
