//! The numbers of the rows that have each word in one field.
//! Allocates.
ghost use Rattle.std.specs.Prelude.{◌≡◌, ◌<◌, ◌^◌, [], length, IfOk, OnOk, OnErr};
ghost use Rattle.word_index.specs.Postings.{posted, IsListOf, WordGains, WordLoses, SamePosted, PutsAll, LosesAll, MayPut};

use crate::number_sets::NumberSet;
use arch_base::NoMemory;
use std::alloc::{AllocError, Global};
use std::marker::Model;

/// The numbers of rows, by the numbers of the words that they have in one field.
///
/// The set of a word stands at the number of the word, so that it is found without a search. A word
/// whose last number is removed keeps its place.
#[derive(Drop)]
pub struct Postings {
    alloc: Global,
    sets: Vec<NumberSet>,
}

impl Model for Postings {
    ghost use Rattle.std.specs.Prelude.{ℕ, List};
    ghost use Rattle.std.specs.BTreeSet.{BTreeSet};

    ghost Value = { List (BTreeSet ℕ) };

    ghost view = { λ p. p.sets.items };
}

impl Postings {
    /// Returns no numbers. Allocates nothing.
    pub fn new(alloc: Global) -> Postings
        ensures { result ≡ [] }
    {
        Postings {
            alloc,
            sets: Vec::new(alloc),
        }
    }

    /// Adds a number to those of each word.
    ///
    /// `NoMemory` may leave it added to those of some words.
    pub fn put_all(&mut self, words: &[u32], n: u32) -> Result<(), NoMemory>
        ensures ok { OnOk result (PutsAll self.old self.new words.now n) }
        ensures err { OnErr result (MayPut self.old self.new words.now n) }
    {
        for word in words {
            self.put(*word, n)?;
        }
        Ok(())
    }

    /// Removes a number from those of each word.
    pub fn remove_all(&mut self, words: &[u32], n: u32)
        ensures { LosesAll self.old self.new words.now n }
    {
        for word in words {
            self.remove(*word, n);
        }
    }

    /// Returns whether a row has a word.
    pub fn has(&self, word: u32, n: u32) -> bool
        ensures { result ≡ posted self.now word n }
    {
        match self.sets.as_slice().get(word as usize) {
            Some(numbers) => numbers.contains(n),
            None => false,
        }
    }

    /// Returns how many rows have a word.
    pub fn count(&self, word: u32) -> usize {
        match self.sets.as_slice().get(word as usize) {
            Some(numbers) => numbers.len(),
            None => 0,
        }
    }

    /// Returns the numbers of the rows that have a word, rising.
    pub fn numbers(&self, word: u32) -> Result<Vec<u32>, AllocError>
        ensures { IfOk result (λ found. IsListOf found.items (posted self.now word)) }
    {
        match self.sets.as_slice().get(word as usize) {
            Some(numbers) => numbers.listed(self.alloc),
            None => Ok(Vec::new(self.alloc)),
        }
    }

    /// Adds a number to those of a word. `NoMemory` changes nothing.
    fn put(&mut self, word: u32, n: u32) -> Result<(), NoMemory>
        ensures ok { OnOk result (WordGains self.old self.new word n) }
        ensures err { OnErr result (SamePosted self.old self.new) }
    {
        reach(self.alloc, &mut self.sets, word as usize)?;
        insert(&mut self.sets, word as usize, n)
    }

    /// Removes a number from those of a word.
    fn remove(&mut self, word: u32, n: u32)
        ensures { WordLoses self.old self.new word n }
    {
        if (word as usize) < self.sets.len() {
            strike(&mut self.sets, word as usize, n);
        }
    }
}

/// Adds empty sets until there is one at a place.
///
/// `NoMemory` leaves the sets unchanged: their memory is taken first, for all of them and an eighth
/// more.
fn reach(alloc: Global, sets: &mut Vec<NumberSet>, place: usize) -> Result<(), NoMemory>
    requires { place < 2 ^ 32 }
    ensures ok { OnOk result (place < length sets.new.items) }
    ensures same { SamePosted sets.old.items sets.new.items }
{
    let len = sets.len();
    if place < len {
        return Ok(());
    }
    let more = place - len + 1;
    if len + more > sets.capacity() {
        sets.reserve_exact(more + place / 8)?;
    }
    fill(alloc, sets, place)
}

/// Adds empty sets until there is one at a place.
fn fill(alloc: Global, sets: &mut Vec<NumberSet>, place: usize) -> Result<(), NoMemory>
    ensures ok { OnOk result (place < length sets.new.items) }
    ensures same { SamePosted sets.old.items sets.new.items }
{
    while sets.len() <= place {
        sets.push(NumberSet::new(alloc))?;
    }
    Ok(())
}

/// Adds a number to the set at a place. `NoMemory` changes nothing.
fn insert(sets: &mut Vec<NumberSet>, place: usize, n: u32) -> Result<(), NoMemory>
    requires { place < length sets.old.items }
    ensures ok { OnOk result (WordGains sets.old.items sets.new.items place n) }
    ensures err { OnErr result (SamePosted sets.old.items sets.new.items) }
{
    sets[place].insert(n)
}

/// Removes a number from the set at a place.
fn strike(sets: &mut Vec<NumberSet>, place: usize, n: u32)
    requires { place < length sets.old.items }
    ensures { WordLoses sets.old.items sets.new.items place n }
{
    sets[place].remove(n);
}
