//! Flags of commands (RFC 3501, section 9, flag, flag-list and store-att-flags).
//! Allocates.
ghost use Rattle.std.specs.Prelude.{◌≡◌};
ghost use Rattle.std.specs.List.{list_all};
ghost use Rattle.imap_words.specs.Kinds.{is_atom_byte};
ghost use Rattle.imap_words.specs.Reading.{Obtains};
ghost use Rattle.imap_syntax.specs.Flags.{is_flag as flag_is, is_atom as atom_is, flag_at, flags_at, flags_inside, flag_list_at, stored_flags_at, silence_of as silence_named, store_item_by, store_item_at};

use arch_base::{Bytes, Texts};
use imap_words::{Cursor, Kind, Stop, is_keyword};

/// What STORE does with the flags that it names.
#[derive(Debug, Clone, Copy, PartialEq, Eq)]
pub enum FlagChange {
    /// A message has these flags alone.
    Replace,
    /// It has these flags too.
    Add,
    /// It has none of these flags.
    Remove,
}

/// The change that STORE asks for: `FLAGS` with its sign.
#[derive(Debug, Clone, Copy, PartialEq, Eq)]
pub struct StoreItem {
    /// What is done with the flags.
    pub change: FlagChange,
    /// True for `FLAGS.SILENT`.
    pub is_silent: bool,
}

/// Takes flags in parentheses, or none.
#[tactic(auto, unfolding(crate::specs::Flags::flag_list_at))]
pub(crate) fn flag_list(cursor: &mut Cursor<'_>) -> Result<Texts, Stop>
    ensures { Obtains cursor.new result (flag_list_at cursor.old) }
{
    cursor.byte(b'(')?;
    if cursor.has(b')') {
        return Ok(Texts::new(cursor.alloc()));
    }
    flags_inside(cursor)
}

/// Takes flags and the closing parenthesis after them.
fn flags_inside(cursor: &mut Cursor<'_>) -> Result<Texts, Stop>
    ensures { Obtains cursor.new result (flags_inside cursor.old) }
{
    let flags = flags(cursor)?;
    cursor.byte(b')')?;
    Ok(flags)
}

/// Takes flags in parentheses, or bare.
#[tactic(auto, unfolding(crate::specs::Flags::stored_flags_at))]
pub(crate) fn stored_flags(cursor: &mut Cursor<'_>) -> Result<Texts, Stop>
    ensures { Obtains cursor.new result (stored_flags_at cursor.old) }
{
    if cursor.first() == b'(' {
        return flag_list(cursor);
    }
    flags(cursor)
}

/// Takes one or more flags with single spaces between them.
fn flags(cursor: &mut Cursor<'_>) -> Result<Texts, Stop>
    ensures { Obtains cursor.new result (flags_at cursor.old) }
{
    let mut flags = Texts::new(cursor.alloc());
    for _index in 0..cursor.rest().len() {
        match flag(cursor) {
            Err(stop) => return Err(stop),
            Ok(flag) => flags.push(flag)?,
        }
        if !cursor.has(b' ') {
            return Ok(flags);
        }
    }
    Err(Stop::Bad)
}

/// Takes a flag.
#[tactic(auto, unfolding(crate::specs::Flags::flag_at))]
fn flag(cursor: &mut Cursor<'_>) -> Result<Bytes, Stop>
    ensures { Obtains cursor.new result (flag_at cursor.old) }
{
    let word = cursor.run(Kind::Flag)?;
    if !is_flag(word) {
        return Err(Stop::Bad);
    }
    cursor.copy(word)
}

/// Returns whether a word is a flag: an atom, before which a backslash may stand. `\Recent` is none.
fn is_flag(word: &[u8]) -> bool
    ensures { result ≡ flag_is word.now }
{
    match word {
        [b'\\', name @ ..] => is_atom(name) && !is_keyword(b"RECENT", name),
        _ => is_atom(word),
    }
}

/// Returns whether a word is an atom.
fn is_atom(word: &[u8]) -> bool
    ensures { result ≡ atom_is word.now }
{
    !word.is_empty() && are_atom_bytes(word)
}

/// Returns whether all octets may stand in an atom.
fn are_atom_bytes(octets: &[u8]) -> bool
    ensures { result ≡ list_all is_atom_byte octets.now }
{
    octets.iter().all(|byte| Kind::Atom.has(*byte))
}

/// Takes the name of a change of flags, with its sign.
#[tactic(auto, unfolding(crate::specs::Flags::store_item_at))]
pub(crate) fn store_item(cursor: &mut Cursor<'_>) -> Result<StoreItem, Stop>
    ensures { Obtains cursor.new result (store_item_at cursor.old) }
{
    if cursor.has(b'+') {
        return store_item_by(cursor, FlagChange::Add);
    }
    if cursor.has(b'-') {
        return store_item_by(cursor, FlagChange::Remove);
    }
    store_item_by(cursor, FlagChange::Replace)
}

/// Takes the name of a change of flags after its sign.
fn store_item_by(cursor: &mut Cursor<'_>, change: FlagChange) -> Result<StoreItem, Stop>
    ensures { Obtains cursor.new result (store_item_by change cursor.old) }
{
    let word = cursor.word();
    match silence_of(word) {
        Some(is_silent) => Ok(StoreItem { change, is_silent }),
        None => Err(Stop::Bad),
    }
}

/// Returns whether the reply to a change of flags is silent, by the change's name.
fn silence_of(word: &[u8]) -> Option<bool>
    ensures { result ≡ silence_named word.now }
{
    if is_keyword(b"FLAGS", word) {
        Some(false)
    } else if is_keyword(b"FLAGS.SILENT", word) {
        Some(true)
    } else {
        None
    }
}
