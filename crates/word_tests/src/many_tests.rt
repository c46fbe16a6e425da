//! Many messages: beside a plain list of them, and twenty rounds of searches over 5,000.
ghost use Rattle.std.specs.Prelude.{◌<◌};

use crate::rows::words_of;
use arch_base::{Bytes, MessageNumbers, NoMemory, decimal};
use query_lang::{Query, matches, read};
use std::alloc::Global;
use std::test::Fail;
use text_words::WordLists;
use word_index::WordIndex;

/// Numbers that follow one another as if by chance.
#[derive(Drop)]
struct Chance(u64);

impl Chance {
    /// Returns a number below a bound.
    fn below(&mut self, bound: u64) -> u64
        requires { 0 < bound }
        ensures { result < bound }
    {
        let next = self.0.wrapping_mul(6_364_136_223_846_793_005);
        self.0 = next.wrapping_add(1_442_695_040_888_963_407);
        (self.0 >> 33) % bound
    }

    /// Returns one of the texts.
    fn text(&mut self) -> &'static [u8] {
        TEXTS[self.below(8) as usize]
    }
}

/// Texts of fields.
static TEXTS: [&[u8]; 8] = [
    b"",
    b"one",
    b"two one",
    b"Three, two",
    b"four.four",
    b"one five",
    b"six two three",
    b"5 6 one",
];

/// Queries that are asked of both.
static ASKED: [&[u8]; 12] = [
    b"",
    b"one",
    b"s:one",
    b"f:two b:one",
    b"three four",
    b"five d:19700101..19700104",
    b"d:19700102..19700103",
    b"s:four f:six",
    b"b:5 two",
    b"seven",
    b"one d:19700101..19700102 d:19700102..19700105",
    b"d:19700103..19700103 s:three",
];

/// A message of the plain list: its number, its words and its day.
#[derive(Drop)]
struct Plain {
    number: u32,
    words: WordLists,
    day: u64,
}

/// How many numbers there are.
const NUMBERS: usize = 40;

/// Messages at their numbers, and an index of the same messages.
#[derive(Drop)]
struct Both {
    plain: Vec<Option<Plain>>,
    index: WordIndex,
}

impl Both {
    /// Returns both without messages.
    fn new(alloc: Global) -> Result<Both, NoMemory> {
        let mut plain = Vec::new(alloc);
        for _ in 0..NUMBERS {
            plain.push(None)?;
        }
        Ok(Both {
            plain,
            index: WordIndex::new(alloc),
        })
    }

    /// Adds a message where there is none, and takes it where there is one. Returns whether both
    /// told the same of it.
    fn turn(&mut self, alloc: Global, chance: &mut Chance) -> Result<bool, NoMemory> {
        let number = chance.below(NUMBERS as u64) as u32;
        if self.index.contains(number) {
            return Ok(self.index.take(number) && self.forget(number));
        }
        let (subject, from, body) = (chance.text(), chance.text(), chance.text());
        let day = chance.below(6);
        let words = words_of(alloc, subject, from, body)?;
        self.index.add(number, &words, day)?;
        Ok(self.remember(Plain { number, words, day }))
    }

    /// Puts a message into the plain list, and returns whether there was none.
    fn remember(&mut self, message: Plain) -> bool {
        match self.plain.get_mut(message.number as usize) {
            Some(slot) => {
                let free = slot.is_none();
                *slot = Some(message);
                free
            }
            None => false,
        }
    }

    /// Removes a message from the plain list, and returns whether there was one.
    fn forget(&mut self, n: u32) -> bool {
        match self.plain.get_mut(n as usize) {
            Some(slot) => slot.take().is_some(),
            None => false,
        }
    }

    /// Returns whether both find the same by a query.
    fn agree(&self, alloc: Global, query: &Query) -> Result<bool, NoMemory> {
        let found = self.index.find(query)?;
        let wanted = matching(alloc, self.plain.as_slice(), query)?;
        Ok(found.as_slice() == wanted.as_slice())
    }
}

/// Returns the numbers of the messages that match.
fn matching(
    alloc: Global,
    messages: &[Option<Plain>],
    query: &Query,
) -> Result<MessageNumbers, NoMemory> {
    let mut found = MessageNumbers::new(alloc);
    for slot in messages {
        if let Some(message) = slot {
            if matches(query, &message.words, message.day) {
                found.push(message.number)?;
            }
        }
    }
    Ok(found)
}

/// Returns whether both agree on all queries.
fn agree_on_all(alloc: Global, both: &Both) -> Result<bool, Fail> {
    let mut agree = true;
    for text in &ASKED {
        let query = read(alloc, text)?;
        agree = both.agree(alloc, &query)? && agree;
    }
    Ok(agree)
}

#[test]
fn an_index_finds_what_a_plain_list_does(rt: HostRuntime) -> Result<(), Fail> {
    let mut both = Both::new(rt.alloc())?;
    let mut chance = Chance(7);
    for _ in 0..2000 {
        assert!(rt; both.turn(rt.alloc(), &mut chance)?);
        assert!(rt; agree_on_all(rt.alloc(), &both)?);
    }
    Ok(())
}

/// How many messages are searched, and how many words stand in their bodies.
const MESSAGES: u32 = 5000;

const BODIES: u64 = 1009;

/// Returns an index of messages each with one word as its body.
fn index_of_many(alloc: Global) -> Result<WordIndex, NoMemory> {
    let mut index = WordIndex::new(alloc);
    let mut chance = Chance(7);
    for n in 0..MESSAGES {
        let body = decimal(alloc, chance.below(BODIES))?;
        let words = words_of(
            alloc,
            b"load topic",
            b"User <u@load.invalid>",
            body.as_slice(),
        )?;
        if !index.contains(n) {
            index.add(n, &words, u64::from(n) / 100)?;
        }
    }
    Ok(index)
}

/// Returns how many messages have a word in their bodies.
fn count_found(alloc: Global, index: &WordIndex, word: u64) -> Result<u64, Fail> {
    let mut text = Bytes::new(alloc);
    text.push_slice(b"b:")?;
    text.push_slice(decimal(alloc, word)?.as_slice())?;
    let query = read(alloc, text.as_slice())?;
    Ok(index.find(&query)?.as_slice().len() as u64)
}

/// Returns how many messages the searches for all words find together.
fn count_all(alloc: Global, index: &WordIndex) -> Result<u64, Fail> {
    let mut all: u64 = 0;
    for word in 0..BODIES {
        all = all.saturating_add(count_found(alloc, index, word)?);
    }
    Ok(all)
}

#[test]
fn each_of_many_messages_is_found_by_its_word(rt: HostRuntime) -> Result<(), Fail> {
    let index = index_of_many(rt.alloc())?;
    for _ in 0..20 {
        assert_eq!(rt; count_all(rt.alloc(), &index)?, 5000);
    }
    Ok(())
}
