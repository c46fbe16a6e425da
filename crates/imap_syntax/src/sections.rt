//! Reads sections (RFC 3501, section 9, section and partial).
//! Allocates.
ghost use Rattle.std.specs.Prelude.{◌≡◌, false, [], ◌∷◌};
ghost use Rattle.imap_words.specs.Reading.{Obtains};
ghost use Rattle.imap_syntax.specs.Items.{section_name_of, fields_of, not_of, section_word_of, parts_of, names_at, section_text_at, section_at, partial_at, partial_inside, SpellsSection};
ghost use Rattle.imap_words.specs.Words.{words_at};

use crate::items::{Partial, Section, SectionText};
use arch_base::{Sequence, Texts};
use imap_words::{Cursor, Stop, is_keyword, read_nz_number, split};
use std::alloc::Global;

/// What a section's keyword names.
#[derive(Clone, Copy)]
pub(crate) enum SectionName {
    /// No keyword: all of the part.
    Whole,
    /// `HEADER`
    Header,
    /// `HEADER.FIELDS`
    Fields,
    /// `HEADER.FIELDS.NOT`
    FieldsNot,
    /// `TEXT`
    Text,
    /// `MIME`
    Mime,
}

/// The numbers of a part, and the name of its text.
#[derive(Drop)]
pub(crate) struct SectionWord {
    /// The numbers.
    part: Sequence<u32>,
    /// The name.
    name: SectionName,
}

/// Takes a section in brackets.
#[tactic(auto, unfolding(crate::specs::Items::section_at))]
pub(crate) fn section(cursor: &mut Cursor<'_>) -> Result<Section, Stop>
    ensures { Obtains cursor.new result (section_at cursor.old) }
{
    cursor.byte(b'[')?;
    let word = cursor.word();
    let SectionWord { part, name } = read_section_word(cursor.alloc(), word)?;
    let text = section_text(cursor, name)?;
    cursor.byte(b']')?;
    Ok(Section { part, text })
}

/// Takes what follows a section's keyword: the names of fields, for two of them.
fn section_text(cursor: &mut Cursor<'_>, name: SectionName) -> Result<SectionText, Stop>
    ensures { Obtains cursor.new result (section_text_at name cursor.old) }
{
    match name {
        SectionName::Whole => Ok(SectionText::Whole),
        SectionName::Header => Ok(SectionText::Header),
        SectionName::Text => Ok(SectionText::Text),
        SectionName::Mime => Ok(SectionText::Mime),
        SectionName::Fields => Ok(SectionText::Fields(names(cursor)?)),
        SectionName::FieldsNot => Ok(SectionText::FieldsNot(names(cursor)?)),
    }
}

/// Takes a space, and the names of fields in parentheses.
#[tactic(auto, unfolding(crate::specs::Items::names_at))]
fn names(cursor: &mut Cursor<'_>) -> Result<Texts, Stop>
    ensures { Obtains cursor.new result (names_at cursor.old) }
{
    cursor.byte(b' ')?;
    cursor.byte(b'(')?;
    let names = cursor.astrings()?;
    cursor.byte(b')')?;
    Ok(names)
}

/// Returns the part and the text that the word of a section names. No word names the whole message.
#[tactic(auto, unfolding(crate::specs::Items::section_word_of))]
fn read_section_word(alloc: Global, word: &[u8]) -> Result<SectionWord, Stop>
    ensures { SpellsSection result (section_word_of word.now) }
{
    if word.is_empty() {
        return Ok(SectionWord {
            part: Sequence::new(alloc),
            name: SectionName::Whole,
        });
    }
    read_parts(alloc, word)
}

/// Returns the part and the text that a word names: numbers, and then a keyword or nothing.
fn read_parts(alloc: Global, word: &[u8]) -> Result<SectionWord, Stop>
    ensures { SpellsSection result (parts_of false (words_at 46 word.now)) }
{
    let mut part = Sequence::new(alloc);
    let mut numbered = false;
    let mut rest = word;
    loop {
        let (first, others) = split(b'.', rest);
        match read_nz_number(first) {
            None => {
                return match section_name(numbered, rest) {
                    Some(name) => Ok(SectionWord { part, name }),
                    None => Err(Stop::Bad),
                };
            }
            Some(n) => part.push(n)?,
        }
        numbered = true;
        match others {
            None => {
                return Ok(SectionWord {
                    part,
                    name: SectionName::Whole,
                });
            }
            Some(others) => rest = others,
        }
    }
}

/// Returns what a keyword names. `MIME` stands after a part's number alone.
fn section_name(numbered: bool, keyword: &[u8]) -> Option<SectionName>
    ensures { result ≡ section_name_of numbered (words_at 46 keyword.now) }
{
    let (word, rest) = split(b'.', keyword);
    match rest {
        None => single_name(numbered, word),
        Some(rest) => fields_name(word, rest),
    }
}

/// Returns what a keyword without dots names.
fn single_name(numbered: bool, word: &[u8]) -> Option<SectionName>
    ensures { result ≡ section_name_of numbered (word.now ∷ []) }
{
    if is_keyword(b"HEADER", word) {
        Some(SectionName::Header)
    } else if is_keyword(b"TEXT", word) {
        Some(SectionName::Text)
    } else if numbered && is_keyword(b"MIME", word) {
        Some(SectionName::Mime)
    } else {
        None
    }
}

/// Returns what a keyword names, by its first word and the text of the others.
fn fields_name(word: &[u8], text: &[u8]) -> Option<SectionName>
    ensures { result ≡ fields_of word.now (words_at 46 text.now) }
{
    let (other, rest) = split(b'.', text);
    match rest {
        None => {
            if is_keyword(b"HEADER", word) && is_keyword(b"FIELDS", other) {
                Some(SectionName::Fields)
            } else {
                None
            }
        }
        Some(rest) => not_name(word, other, rest),
    }
}

/// Returns what a keyword names, by its first two words and the text of the others.
fn not_name(word: &[u8], other: &[u8], text: &[u8]) -> Option<SectionName>
    ensures { result ≡ not_of word.now other.now (words_at 46 text.now) }
{
    let (third, rest) = split(b'.', text);
    match rest {
        None => {
            if is_keyword(b"HEADER", word)
                && is_keyword(b"FIELDS", other)
                && is_keyword(b"NOT", third)
            {
                Some(SectionName::FieldsNot)
            } else {
                None
            }
        }
        Some(_) => None,
    }
}

/// Takes `<offset.count>`, if `<` comes next.
#[tactic(auto, unfolding(crate::specs::Items::partial_at))]
pub(crate) fn partial(cursor: &mut Cursor<'_>) -> Result<Option<Partial>, Stop>
    ensures { Obtains cursor.new result (partial_at cursor.old) }
{
    if !cursor.has(b'<') {
        return Ok(None);
    }
    Ok(Some(partial_inside(cursor)?))
}

/// Takes an offset and a count with a dot between them, and `>`.
#[tactic(auto, unfolding(crate::specs::Items::partial_inside))]
fn partial_inside(cursor: &mut Cursor<'_>) -> Result<Partial, Stop>
    ensures { Obtains cursor.new result (partial_inside cursor.old) }
{
    let offset = cursor.number()?;
    cursor.byte(b'.')?;
    let count = cursor.nz_number()?;
    cursor.byte(b'>')?;
    Ok(Partial { offset, count })
}
