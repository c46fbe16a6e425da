//! What is kept of a row.
//! Allocates.
ghost use Rattle.std.specs.Prelude.{◌≡◌, IfOk};
ghost use Rattle.word_index.specs.Vocabulary.{KeepsWords};
ghost use Rattle.word_index.specs.Kept.{IsKeptOf};

use crate::vocabulary::Vocabulary;
use arch_base::NoMemory;
use text_words::WordLists;

/// What is kept of a row: the numbers of its words, by field, and its day.
#[derive(Drop)]
pub struct KeptRow {
    pub subject: Vec<u32>,
    pub from: Vec<u32>,
    pub body: Vec<u32>,
    pub day: u64,
}

/// A day, and the number of a row of that day.
#[derive(Clone, Copy, Debug, PartialEq, Eq, PartialOrd, Ord)]
pub struct Dated {
    pub day: u64,
    pub number: u32,
}

impl KeptRow {
    /// Returns a row with these words, of which new ones are added to those that are held.
    ///
    /// `NoMemory` may leave some of them added.
    pub fn of(held: &mut Vocabulary, words: &WordLists, day: u64) -> Result<KeptRow, NoMemory>
        ensures ok { IfOk result (λ row. IsKeptOf held.new words.now day row) }
        ensures keeps { KeepsWords held.old held.new }
    {
        let subject = held.number_all(&words.subject)?;
        let from = held.number_all(&words.from)?;
        let body = held.number_all(&words.body)?;
        Ok(KeptRow {
            subject,
            from,
            body,
            day,
        })
    }

    /// Returns the row's day, with a number.
    pub fn dated(&self, number: u32) -> Dated
        ensures { result ≡ record { day = self.now.day; number = number } }
    {
        Dated {
            day: self.day,
            number,
        }
    }
}
