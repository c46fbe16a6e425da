//! Reads queries.
//! Allocates.
//!
//! A query is cut at spaces. A term `s:TEXT`, `f:TEXT` or `b:TEXT` asks the words of TEXT in the
//! subject, the first From field or the text leaves, and a term `d:YYYYMMDD..YYYYMMDD` asks a day
//! from the first to the last. Any other term asks its words in any field. A term without words
//! asks nothing.
ghost use Rattle.std.specs.Prelude.{◌≡◌, ◌++◌, OnOk, IfErr};
ghost use Rattle.text_words.specs.Words.{words_of};
ghost use Rattle.query_lang.specs.Queries.{query_of, GivesQuery};
ghost use Rattle.query_lang.specs.Asking.{AddsTerm, AsksDays};

use crate::dates::range_of;
use crate::query::{Query, QueryRefusal};
use crate::terms::{after, first_term};
use arch_base::{Bytes, NoMemory, Numbers, Texts};
use std::alloc::Global;
use text_words::{PackedWords, push_words};

/// Reads a query. Any bytes are one, unless a term that begins with `d:` is no range of days.
///
/// Prefixes are read in lower case alone, and once: `S:first` asks two words in any field, and
/// `s:b:one` two words in the subject. A date is a day of the calendar, from 1970 on. An empty
/// query asks nothing. `NoMemory` if an allocation fails.
pub fn read(alloc: Global, text: &[u8]) -> Result<Query, QueryRefusal>
    ensures { GivesQuery result (query_of text.now) }
{
    let mut query = Query::new(alloc);
    let mut rest = text;
    while let Some((term, others)) = first_term(rest) {
        match ask(alloc, &mut query, term) {
            Ok(()) => rest = others,
            Err(refusal) => return Err(refusal),
        }
    }
    Ok(query)
}

/// Adds to a query what a term asks. An error may leave some of that added.
fn ask(alloc: Global, query: &mut Query, term: &[u8]) -> Result<(), QueryRefusal>
    ensures { AddsTerm query.old term.now result query.new }
{
    if let Some(text) = after(b's', term) {
        return ask_words(alloc, &mut query.subject, text);
    }
    if let Some(text) = after(b'f', term) {
        return ask_words(alloc, &mut query.from, text);
    }
    if let Some(text) = after(b'b', term) {
        return ask_words(alloc, &mut query.body, text);
    }
    if let Some(text) = after(b'd', term) {
        return ask_days(&mut query.days, text);
    }
    ask_words(alloc, &mut query.any, term)
}

/// Appends the words of a text to words that are asked. An error may leave some of them appended.
fn ask_words(alloc: Global, asked: &mut Texts, text: &[u8]) -> Result<(), QueryRefusal>
    ensures ok { OnOk result (asked.new ≡ asked.old ++ words_of text.now) }
    ensures err { IfErr result (λ refusal. refusal ≡ QueryRefusal.NoMemory) }
{
    let mut words = PackedWords::new(alloc);
    push_words(text, &mut words)?;
    push_copies(alloc, &words, asked)?;
    Ok(())
}

/// Appends a copy of each word to words that are asked.
fn push_copies(alloc: Global, words: &PackedWords, asked: &mut Texts) -> Result<(), NoMemory>
    ensures { OnOk result (asked.new ≡ asked.old ++ words.now) }
{
    for index in 0..words.len() {
        let bytes = Vec::from_slice(alloc, words.get(index))?;
        asked.push(Bytes::from_vec(bytes))?;
    }
    Ok(())
}

/// Appends the days of a range to days that are asked. An error may leave the first one appended.
fn ask_days(asked: &mut Numbers, text: &[u8]) -> Result<(), QueryRefusal>
    ensures { AsksDays asked.old text.now result asked.new }
{
    let Some((first, last)) = range_of(text) else {
        return Err(QueryRefusal::BadRange);
    };
    asked.push(first)?;
    asked.push(last)?;
    Ok(())
}
