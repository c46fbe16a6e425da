//! The words of an index, each once, and their numbers.
//! Allocates.
ghost use Rattle.std.specs.Prelude.{◌≡◌, ℕ, List, [], ◌∷◌, ◌++◌, cond, length, IsSome, Some, None, IfOk, OnOk, OnErr};
ghost use Rattle.std.specs.Str.{bytes_eq};
ghost use Rattle.std.specs.Ordering.{nat_cmp};
ghost use Rattle.std.specs.BTreeMap.{get_by, is_at};
ghost use Rattle.word_index.specs.Vocabulary.{first_with, other_at, looks};

use crate::marks::mark_of;
use arch_base::NoMemory;
use std::alloc::Global;
use std::collections::BTreeMap;
use std::marker::Model;
use text_words::PackedWords;

/// The number of the first word with each mark. A mark may be there before a word with it is.
type FirstWords = BTreeMap<u64, Option<u32>>;

/// The numbers of words whose mark an earlier word has. A key may be there before its word is.
type OtherWords = BTreeMap<Vec<u8>, Option<u32>>;

/// Words, each at the number that it got when it was added. None is removed.
///
/// A contract sees it as the list of the words. A tree finds the first word with a mark, and a
/// second one, by their bytes, the words whose mark an earlier word has. So a look-up allocates
/// nothing, and mostly takes one search for a number and compares one word. Whatever the words are,
/// it takes at most two searches, each of some comparisons for each doubling of the words.
#[derive(Drop)]
pub struct Vocabulary {
    alloc: Global,
    words: PackedWords,
    first: FirstWords,
    others: OtherWords,
}

impl Model for Vocabulary {
    ghost use Rattle.std.specs.Prelude.{ℕ, List};
    ghost use Rattle.word_index.specs.Vocabulary.{IsNumbering};

    ghost Value = { List (List ℕ) };

    ghost view = { λ v. v.words };

    ghost invariant = { λ v. IsNumbering v.words v.first v.others };
}

impl Vocabulary {
    ghost use Rattle.word_index.specs.Marks.{mark_of};
    ghost use Rattle.word_index.specs.Vocabulary.{IsNumberOf, IsNumberFor, AreNumbersOf, KeepsWords};

    /// Returns no words. Allocates nothing.
    pub fn new(alloc: Global) -> Vocabulary
        ensures { result ≡ [] }
    {
        Vocabulary {
            alloc,
            words: PackedWords::new(alloc),
            first: BTreeMap::new(alloc),
            others: BTreeMap::new(alloc),
        }
    }

    /// Returns the number of a word, if it is there.
    pub fn number_of(&self, text: &[u8]) -> Option<u32>
        ensures { IsNumberOf self.now text.now result }
    {
        self.known(mark_of(text), text)
    }

    /// Returns the numbers of words, those of new ones too, which are added.
    ///
    /// `NoMemory` may leave some of them added.
    pub fn number_all(&mut self, texts: &PackedWords) -> Result<Vec<u32>, NoMemory>
        ensures ok { IfOk result (λ numbers. AreNumbersOf self.new texts.now numbers.items) }
        ensures keeps { KeepsWords self.old self.new }
    {
        let mut numbers = Vec::with_capacity(self.alloc, texts.len())?;
        for index in 0..texts.len() {
            numbers.push(self.number(texts.get(index))?)?;
        }
        Ok(numbers)
    }

    /// Returns the number of a word, which is added if it is new. `NoMemory` changes nothing.
    fn number(&mut self, text: &[u8]) -> Result<u32, NoMemory>
        ensures ok { IfOk result (λ number. IsNumberFor self.new text.now number) }
        ensures keeps { KeepsWords self.old self.new }
    {
        let mark = mark_of(text);
        match self.known(mark, text) {
            Some(number) => Ok(number),
            None => self.add(mark, text),
        }
    }

    /// Returns the number of a word with this mark, if it is there.
    fn known(&self, mark: u64, text: &[u8]) -> Option<u32>
        requires { mark ≡ mark_of text.now }
        ensures { IsNumberOf self.now text.now result }
    {
        let Some(number) = first_with(&self.first, mark) else {
            return None;
        };
        if self.words.get(number as usize) == text {
            return Some(number);
        }
        other_at(&self.others, text)
    }

    /// Adds a new word with its mark, and returns its number. `NoMemory` changes nothing.
    fn add(&mut self, mark: u64, text: &[u8]) -> Result<u32, NoMemory>
        requires new { IsNumberOf self.old text.now None }
        requires mark { mark ≡ mark_of text.now }
        ensures ok { IfOk result (λ number. number ≡ length self.old) }
        ensures added { OnOk result (self.new ≡ self.old ++ text.now ∷ []) }
        ensures err { OnErr result (self.new ≡ self.old) }
    {
        match first_with(&self.first, mark) {
            None => add_first(&mut self.words, &mut self.first, mark, text),
            Some(_) => add_other(self.alloc, &mut self.words, &mut self.others, text),
        }
    }
}

/// Returns the number of the next word. `NoMemory` if no more words have a place in memory.
fn next_number(words: &PackedWords) -> Result<u32, NoMemory>
    ensures { IfOk result (λ number. number ≡ length words.now) }
{
    let Ok(number) = u32::try_from(words.len()) else {
        return Err(NoMemory);
    };
    Ok(number)
}

/// Returns the number of the first word with a mark, if there is one.
fn first_with(first: &FirstWords, mark: u64) -> Option<u32>
    ensures { result ≡ first_with first.now mark }
{
    match first.get(&mark) {
        Some(number) => *number,
        None => None,
    }
}

/// Returns the number of a word whose mark an earlier word has, if it is there.
fn other_at(others: &OtherWords, text: &[u8]) -> Option<u32>
    ensures { result ≡ other_at others.now text.now }
{
    match others.get(text) {
        Some(number) => *number,
        None => None,
    }
}

/// Appends a word that is the first one with its mark, and returns its number. `NoMemory` changes
/// nothing.
fn add_first(
    words: &mut PackedWords,
    first: &mut FirstWords,
    mark: u64,
    text: &[u8],
) -> Result<u32, NoMemory>
    ensures ok { IfOk result (λ number. number ≡ length words.old) }
    ensures added { OnOk result (words.new ≡ words.old ++ text.now ∷ []) }
    ensures err { OnErr result (words.new ≡ words.old) }
    ensures set { OnOk result ((m : ℕ) → first_with first.new m
        ≡ cond (is_at (nat_cmp mark) m) (Some (length words.old)) (first_with first.old m)) }
    ensures same { OnErr result ((m : ℕ) → first_with first.new m ≡ first_with first.old m) }
{
    let number = next_number(words)?;
    hold_mark(first, mark)?;
    words.push(text)?;
    set_first(first, mark, number);
    Ok(number)
}

/// Makes room for a mark. `NoMemory` changes nothing.
fn hold_mark(first: &mut FirstWords, mark: u64) -> Result<(), NoMemory>
    ensures room { OnOk result (IsSome (get_by (nat_cmp mark) first.new)) }
    ensures same { (m : ℕ) → first_with first.new m ≡ first_with first.old m }
{
    if first.contains_key(&mark) {
        return Ok(());
    }
    first.insert(mark, None)?;
    Ok(())
}

/// Makes a word the first one with a mark, for which there is room.
fn set_first(first: &mut FirstWords, mark: u64, number: u32)
    requires { IsSome (get_by (nat_cmp mark) first.old) }
    ensures { (m : ℕ) → first_with first.new m
        ≡ cond (is_at (nat_cmp mark) m) (Some number) (first_with first.old m) }
{
    let _ = first.insert(mark, Some(number));
}

/// Appends a word whose mark an earlier word has, and returns its number. `NoMemory` changes
/// nothing.
fn add_other(
    alloc: Global,
    words: &mut PackedWords,
    others: &mut OtherWords,
    text: &[u8],
) -> Result<u32, NoMemory>
    ensures ok { IfOk result (λ number. number ≡ length words.old) }
    ensures added { OnOk result (words.new ≡ words.old ++ text.now ∷ []) }
    ensures err { OnErr result (words.new ≡ words.old) }
    ensures set { OnOk result ((w : List ℕ) → other_at others.new w
        ≡ cond (bytes_eq text.now w) (Some (length words.old)) (other_at others.old w)) }
    ensures same { OnErr result ((w : List ℕ) → other_at others.new w ≡ other_at others.old w) }
{
    let number = next_number(words)?;
    hold_word(alloc, others, text)?;
    words.push(text)?;
    set_other(others, text, number);
    Ok(number)
}

/// Makes room for a word. `NoMemory` changes nothing.
fn hold_word(alloc: Global, others: &mut OtherWords, text: &[u8]) -> Result<(), NoMemory>
    ensures room { OnOk result (IsSome (get_by (looks text.now) others.new)) }
    ensures same { (w : List ℕ) → other_at others.new w ≡ other_at others.old w }
{
    if others.contains_key(text) {
        return Ok(());
    }
    let key = text.to_vec(alloc)?;
    others.insert(key, None)?;
    Ok(())
}

/// Sets the number of a word, for which there is room.
fn set_other(others: &mut OtherWords, text: &[u8], number: u32)
    requires { IsSome (get_by (looks text.now) others.old) }
    ensures { (w : List ℕ) → other_at others.new w
        ≡ cond (bytes_eq text.now w) (Some number) (other_at others.old w) }
{
    if let Some(slot) = others.get_mut(text) {
        *slot = Some(number);
    }
}
