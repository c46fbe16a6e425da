//! Reads what FETCH asks for (RFC 3501, section 9, fetch and fetch-att).
//! Allocates.
ghost use Rattle.std.specs.Prelude.{◌≡◌, length, IfOk};
ghost use Rattle.imap_words.specs.Reading.{Obtains, many_at};
ghost use Rattle.imap_syntax.specs.Items.{body_at, plain_item_of, item_by, item_at, item_list_at, items_at, one_item_by, macro_or_item_at, macro_of, items_of_macro};

use crate::items::Item;
use crate::sections::{partial, section};
use arch_base::{NoMemory, Sequence};
use imap_words::{Cursor, Stop, is_keyword};
use std::alloc::Global;

/// A keyword that stands for several items.
#[derive(Clone, Copy)]
pub(crate) enum Macro {
    /// `ALL`
    All,
    /// `FULL`
    Full,
    /// `FAST`
    Fast,
}

/// Takes items in parentheses, a macro, or one item.
#[tactic(auto, unfolding(crate::specs::Items::items_at))]
pub(crate) fn items(cursor: &mut Cursor<'_>) -> Result<Sequence<Item>, Stop>
    ensures { Obtains cursor.new result (items_at cursor.old) }
{
    if cursor.first() == b'(' {
        return item_list(cursor);
    }
    macro_or_item(cursor)
}

/// Takes items in parentheses.
fn item_list(cursor: &mut Cursor<'_>) -> Result<Sequence<Item>, Stop>
    ensures { Obtains cursor.new result (item_list_at cursor.old) }
{
    cursor.byte(b'(')?;
    let items = spaced_items(cursor)?;
    cursor.byte(b')')?;
    Ok(items)
}

/// Takes one or more items with single spaces between them.
fn spaced_items(cursor: &mut Cursor<'_>) -> Result<Sequence<Item>, Stop>
    ensures { Obtains cursor.new result (many_at item_at (length cursor.old) cursor.old) }
{
    let mut items = Sequence::new(cursor.alloc());
    for _index in 0..cursor.rest().len() {
        match item(cursor) {
            Err(stop) => return Err(stop),
            Ok(item) => items.push(item)?,
        }
        if !cursor.has(b' ') {
            return Ok(items);
        }
    }
    Err(Stop::Bad)
}

/// Takes an item.
#[tactic(auto, unfolding(crate::specs::Items::item_at))]
fn item(cursor: &mut Cursor<'_>) -> Result<Item, Stop>
    ensures { Obtains cursor.new result (item_at cursor.old) }
{
    let word = cursor.word();
    item_named(cursor, word)
}

/// Takes what follows the keyword of an item. `BODY` without a section is an item of its own.
fn item_named(cursor: &mut Cursor<'_>, word: &[u8]) -> Result<Item, Stop>
    ensures { Obtains cursor.new result (item_by word.now cursor.old) }
{
    if is_keyword(b"BODY.PEEK", word) {
        return body(cursor);
    }
    if is_keyword(b"BODY", word) {
        if cursor.first() == b'[' {
            return body(cursor);
        }
        return Ok(Item::Body);
    }
    match plain_item(word) {
        Some(item) => Ok(item),
        None => Err(Stop::Bad),
    }
}

/// Takes a section, and the octets of it that are asked for.
#[tactic(auto, unfolding(crate::specs::Items::body_at))]
fn body(cursor: &mut Cursor<'_>) -> Result<Item, Stop>
    ensures { Obtains cursor.new result (body_at cursor.old) }
{
    let section = section(cursor)?;
    let partial = partial(cursor)?;
    Ok(Item::Section(section, partial))
}

/// Returns the item that a keyword other than `BODY` names, in any case.
fn plain_item(word: &[u8]) -> Option<Item>
    ensures { result ≡ plain_item_of word.now }
{
    if is_keyword(b"FLAGS", word) {
        Some(Item::Flags)
    } else if is_keyword(b"UID", word) {
        Some(Item::Uid)
    } else if is_keyword(b"RFC822.SIZE", word) {
        Some(Item::Size)
    } else if is_keyword(b"INTERNALDATE", word) {
        Some(Item::InternalDate)
    } else if is_keyword(b"ENVELOPE", word) {
        Some(Item::Envelope)
    } else if is_keyword(b"BODYSTRUCTURE", word) {
        Some(Item::BodyStructure)
    } else if is_keyword(b"RFC822", word) {
        Some(Item::Rfc822)
    } else if is_keyword(b"RFC822.HEADER", word) {
        Some(Item::Rfc822Header)
    } else if is_keyword(b"RFC822.TEXT", word) {
        Some(Item::Rfc822Text)
    } else {
        None
    }
}

/// Takes a macro, or else one item.
#[tactic(auto, unfolding(crate::specs::Items::macro_or_item_at))]
fn macro_or_item(cursor: &mut Cursor<'_>) -> Result<Sequence<Item>, Stop>
    ensures { Obtains cursor.new result (macro_or_item_at cursor.old) }
{
    let word = cursor.word();
    match macro_named(word) {
        Some(found) => Ok(macro_items(cursor.alloc(), found)?),
        None => one_item(cursor, word),
    }
}

/// Returns the macro that a keyword names, in any case.
fn macro_named(word: &[u8]) -> Option<Macro>
    ensures { result ≡ macro_of word.now }
{
    if is_keyword(b"ALL", word) {
        Some(Macro::All)
    } else if is_keyword(b"FULL", word) {
        Some(Macro::Full)
    } else if is_keyword(b"FAST", word) {
        Some(Macro::Fast)
    } else {
        None
    }
}

/// Returns the items that a macro stands for.
fn macro_items(alloc: Global, found: Macro) -> Result<Sequence<Item>, NoMemory>
    ensures { IfOk result (λ made. made ≡ items_of_macro found) }
{
    let mut items = Sequence::new(alloc);
    items.push(Item::Flags)?;
    items.push(Item::InternalDate)?;
    items.push(Item::Size)?;
    match found {
        Macro::Fast => Ok(items),
        Macro::All => {
            items.push(Item::Envelope)?;
            Ok(items)
        }
        Macro::Full => {
            items.push(Item::Envelope)?;
            items.push(Item::Body)?;
            Ok(items)
        }
    }
}

/// Takes what follows the keyword of one item, and returns the item alone.
fn one_item(cursor: &mut Cursor<'_>, word: &[u8]) -> Result<Sequence<Item>, Stop>
    ensures { Obtains cursor.new result (one_item_by word.now cursor.old) }
{
    let item = item_named(cursor, word)?;
    let mut items = Sequence::new(cursor.alloc());
    items.push(item)?;
    Ok(items)
}
