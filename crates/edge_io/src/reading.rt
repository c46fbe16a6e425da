//! Reads a script from bytes.
//! Allocates.
//!
//! An event is a line `T o C DOOR`, `T b C LEN`, `T e C`, `T q` or `T s`. The line of a `b` is
//! followed by LEN bytes and a line feed. T is a moment and C a connection. Numbers are decimals
//! without leading zeros.
ghost use Rattle.std.specs.Prelude.{◌<◌};
ghost use Rattle.std.specs.Fmt.{decimal};
ghost use Rattle.arch_base.specs.Moments.{IsMoment};
ghost use Rattle.edge_io.specs.Events.{IsConnection, IsDoor, IsPieceLen, IsWhat, IsScriptLine, door_word, words_of, line_of};
ghost use Rattle.edge_io.specs.Scripts.{IsScriptReading, ReadInOneWay};
ghost use Rattle.edge_io.specs.Parsing.{Divides, Spells, HasPiece, IsFirstEvent, IsScriptOpening, opening_words, IsSending, sending_words};

use crate::events::{Door, Event, What};
use crate::scripts::{Script, ScriptRefusal};
use arch_base::{LAST_MOMENT, read_decimal};
use memchr::memchr;
use std::alloc::Global;

/// The greatest length of a piece, in bytes.
const MAX_PIECE_LEN: u64 = 1048576;

/// The number of connections that a script may have: those from 0 to 65,535.
const CONNECTIONS: u64 = 65536;

/// Reads a script.
///
/// `Bad` gives the number, from 1, of the first event that is malformed or incomplete. `NoMemory`
/// if an allocation fails.
pub fn script(alloc: Global, bytes: &[u8]) -> Result<Script, ScriptRefusal>
    ensures { IsScriptReading bytes.now result }
{
    let mut made = Script::new(alloc, bytes.len())?;
    let mut rest = bytes;
    while !rest.is_empty() {
        let Some(first) = first_event(rest) else {
            let event = made.count() + 1;
            return Err(ScriptRefusal::Bad { event });
        };
        made.push(first.event, first.piece)?;
        rest = first.rest;
    }
    Ok(made)
}

/// Shows that bytes are read in one way.
///
/// They are the script of at most one list of events, they are bad at no more than one event, and
/// never both.
pub fn read_in_one_way()
    ensures { ReadInOneWay }
{}

/// The first event of some bytes, its piece, and the remaining bytes.
#[derive(Clone, Copy, Drop)]
pub struct First<'a> {
    pub event: Event,
    pub piece: &'a [u8],
    pub rest: &'a [u8],
}

/// The parts of a text before and after a separator.
#[derive(Clone, Copy, Drop)]
pub struct Parts<'a> {
    pub before: &'a [u8],
    pub after: &'a [u8],
}

/// Reads the first event of some bytes, or returns `None` if they start with none.
fn first_event(bytes: &[u8]) -> Option<First<'_>>
    ensures { IsFirstEvent bytes.now result }
{
    let line = divide(b'\n', bytes)?;
    let event = read_line(line.before)?;
    if let What::Bytes { len, .. } = event.what {
        let parts = split_piece(len, line.after)?;
        return Some(First {
            event,
            piece: parts.before,
            rest: parts.after,
        });
    }
    Some(First {
        event,
        piece: &[],
        rest: line.after,
    })
}

/// Splits a text at the first such byte, or returns `None` if it has none.
fn divide(byte: u8, text: &[u8]) -> Option<Parts<'_>>
    ensures { Divides byte text.now result }
{
    let offset = memchr(byte, text)?;
    Some(Parts {
        before: &text[..offset],
        after: &text[offset + 1..],
    })
}

/// Splits off a piece of `len` bytes and the line feed after it.
///
/// `None` if the text does not start with such a piece and a line feed.
fn split_piece(len: usize, text: &[u8]) -> Option<Parts<'_>>
    ensures { HasPiece len text.now result }
{
    if text.len() <= len || text[len] != b'\n' {
        return None;
    }
    Some(Parts {
        before: &text[..len],
        after: &text[len + 1..],
    })
}

/// Reads the event that a line spells, or returns `None` if it spells none.
fn read_line(line: &[u8]) -> Option<Event>
    ensures { Spells IsScriptLine line_of line.now result }
{
    let parts = divide(b' ', line)?;
    let moment = read_moment(parts.before)?;
    let what = read_what(parts.after)?;
    Some(Event { moment, what })
}

/// Reads what happened from the words after the moment, or returns `None` if they spell nothing.
fn read_what(words: &[u8]) -> Option<What>
    ensures { Spells IsWhat words_of words.now result }
{
    if words == b"q".as_slice() {
        return Some(What::Quiet);
    }
    if words == b"s".as_slice() {
        return Some(What::Stop);
    }
    if let Some(rest) = words.strip_prefix(b"o ") {
        let (conn, door) = read_opening(rest)?;
        return Some(What::Opened { conn, door });
    }
    if let Some(rest) = words.strip_prefix(b"b ") {
        let (conn, len) = read_sending(rest)?;
        return Some(What::Bytes { conn, len });
    }
    let rest = words.strip_prefix(b"e ")?;
    let conn = read_connection(rest)?;
    Some(What::Ended { conn })
}

/// Reads a connection and a door, or returns `None` if the words don't spell them.
fn read_opening(words: &[u8]) -> Option<(u32, Door)>
    ensures { Spells IsScriptOpening opening_words words.now result }
{
    let parts = divide(b' ', words)?;
    let conn = read_connection(parts.before)?;
    let door = read_door(parts.after)?;
    Some((conn, door))
}

/// Reads a connection and the length of its piece, or returns `None` if the words don't spell them.
fn read_sending(words: &[u8]) -> Option<(u32, usize)>
    ensures { Spells IsSending sending_words words.now result }
{
    let parts = divide(b' ', words)?;
    let conn = read_connection(parts.before)?;
    let len = read_piece_len(parts.after)?;
    Some((conn, len))
}

/// Reads a moment, or returns `None` if the text spells none.
fn read_moment(text: &[u8]) -> Option<u64>
    ensures { Spells IsMoment decimal text.now result }
{
    let moment = read_decimal(text)?;
    if moment <= LAST_MOMENT {
        Some(moment)
    } else {
        None
    }
}

/// Reads a connection below 65,536, or returns `None` if the text spells none.
fn read_connection(text: &[u8]) -> Option<u32>
    ensures { Spells IsConnection decimal text.now result }
{
    let conn = read_decimal(text)?;
    if conn < CONNECTIONS {
        Some(conn as u32)
    } else {
        None
    }
}

/// Reads the name of a door, or returns `None` for any other word.
#[tactic(auto, using(crate::proofs::Lines::no_door))]
fn read_door(word: &[u8]) -> Option<Door>
    ensures { Spells IsDoor door_word word.now result }
{
    if word == b"control".as_slice() {
        return Some(Door::Control);
    }
    if word == b"http".as_slice() {
        return Some(Door::Http);
    }
    if word == b"nntp".as_slice() {
        return Some(Door::Nntp);
    }
    if word == b"pop3".as_slice() {
        return Some(Door::Pop3);
    }
    if word == b"imap".as_slice() {
        return Some(Door::Imap);
    }
    if word == b"lmtp".as_slice() {
        return Some(Door::Lmtp);
    }
    None
}

/// Reads the length of a piece, or returns `None` if the text spells none in 1 to 1,048,576.
fn read_piece_len(text: &[u8]) -> Option<usize>
    ensures { Spells IsPieceLen decimal text.now result }
{
    let len = read_decimal(text)?;
    if len >= 1 && len <= MAX_PIECE_LEN {
        Some(len as usize)
    } else {
        None
    }
}
