//! Reads search keys (RFC 3501, section 9, search-key).
//! Allocates.
ghost use Rattle.imap_syntax.specs.Keys.{single_at, opposite_at, either_at, named_at, numbers_at, key_list_at, key_at, keys_at, ObtainsKey, ObtainsKeys};

use crate::dates::date_argument;
use crate::key_names::{KeyName, key_name};
use crate::keys::Key;
use crate::set_reading::{set, set_argument};
use imap_words::{Cursor, Kind, Stop};

/// Takes one or more keys with single spaces between them. Keys are nested at most `depth` deep in
/// each, itself included.
#[cycle(nested)]
pub(crate) fn keys(cursor: &mut Cursor<'_>, depth: u8) -> Result<Vec<Key>, Stop>
    ensures { ObtainsKeys cursor.new result (keys_at depth cursor.old) }
{
    let mut keys = Vec::new(cursor.alloc());
    for _index in 0..cursor.rest().len() {
        match key(cursor, depth) {
            Err(stop) => return Err(stop),
            Ok(key) => keys.push(key)?,
        }
        if !cursor.has(b' ') {
            return Ok(keys);
        }
    }
    Err(Stop::Bad)
}

/// Takes a key in which keys are nested at most `depth` deep, itself included.
#[cycle(nested)]
#[tactic(auto, unfolding(crate::specs::Keys::key_by))]
fn key(cursor: &mut Cursor<'_>, depth: u8) -> Result<Key, Stop>
    ensures { ObtainsKey cursor.new result (key_at depth cursor.old) }
{
    if depth == 0 {
        return Err(Stop::Bad);
    }
    let first = cursor.first();
    if Kind::Digit.has(first) || first == b'*' {
        return numbers(cursor);
    }
    if first == b'(' {
        return key_list(cursor, depth - 1);
    }
    named(cursor, depth - 1)
}

/// Takes keys in parentheses.
#[cycle(nested)]
fn key_list(cursor: &mut Cursor<'_>, depth: u8) -> Result<Key, Stop>
    ensures { ObtainsKey cursor.new result (key_list_at (key_at depth) cursor.old) }
{
    cursor.byte(b'(')?;
    let keys = keys(cursor, depth)?;
    cursor.byte(b')')?;
    Ok(Key::Each(keys))
}

/// Takes a key that begins with a keyword.
#[cycle(nested)]
#[tactic(auto, unfolding(crate::specs::Keys::key_name_at))]
fn named(cursor: &mut Cursor<'_>, depth: u8) -> Result<Key, Stop>
    ensures { ObtainsKey cursor.new result (named_at (key_at depth) cursor.old) }
{
    let word = cursor.word();
    match key_name(word) {
        None => Err(Stop::Bad),
        Some(KeyName::Not) => opposite(cursor, depth),
        Some(KeyName::Or) => either(cursor, depth),
        Some(name) => test(cursor, name),
    }
}

/// Takes the key of which `NOT` is the opposite.
#[cycle(nested)]
fn opposite(cursor: &mut Cursor<'_>, depth: u8) -> Result<Key, Stop>
    ensures { ObtainsKey cursor.new result (opposite_at (key_at depth) cursor.old) }
{
    cursor.byte(b' ')?;
    let inner = key(cursor, depth)?;
    Ok(Key::Not(Box::new(cursor.alloc(), inner)?))
}

/// Takes the two keys of `OR`.
#[cycle(nested)]
fn either(cursor: &mut Cursor<'_>, depth: u8) -> Result<Key, Stop>
    ensures { ObtainsKey cursor.new result (either_at (key_at depth) cursor.old) }
{
    cursor.byte(b' ')?;
    let first = key(cursor, depth)?;
    cursor.byte(b' ')?;
    let second = key(cursor, depth)?;
    let first = Box::new(cursor.alloc(), first)?;
    let second = Box::new(cursor.alloc(), second)?;
    Ok(Key::Or(first, second))
}

/// Takes a set of sequence numbers.
fn numbers(cursor: &mut Cursor<'_>) -> Result<Key, Stop>
    ensures { ObtainsKey cursor.new result (numbers_at cursor.old) }
{
    Ok(Key::Numbers(set(cursor)?))
}

/// Takes the arguments of a key that has no keys within it.
#[tactic(auto, unfolding(crate::specs::Keys::test_at))]
fn test(cursor: &mut Cursor<'_>, name: KeyName) -> Result<Key, Stop>
    ensures { ObtainsKey cursor.new result (single_at name cursor.old) }
{
    match name {
        KeyName::Plain(key) => Ok(key.key()),
        KeyName::Text(key) => Ok(key.key(cursor.argument()?)),
        KeyName::Header => {
            let field = cursor.argument()?;
            let text = cursor.argument()?;
            Ok(Key::Header(field, text))
        }
        KeyName::Flag(key) => Ok(key.key(cursor.atom_argument()?)),
        KeyName::Day(key) => Ok(key.key(date_argument(cursor)?)),
        KeyName::Size(key) => {
            cursor.byte(b' ')?;
            Ok(key.key(cursor.number()?))
        }
        KeyName::Uid => Ok(Key::Uid(set_argument(cursor)?)),
        KeyName::Not | KeyName::Or => Err(Stop::Bad),
    }
}
