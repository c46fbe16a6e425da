//! Keys by which messages are found.
//! Allocates.
use crate::mails::{ONE_PART, PLAIN, bytes, row};
use arch_base::{Bytes, NoMemory, Sequence};
use imap_items::{matches, reads_text};
use imap_syntax::{Date, Key, SeqSet, SetEnd, SetRange};
use std::alloc::Global;

/// Returns whether a message with the number 4, the third of three, matches a key.
fn is_found(alloc: Global, text: &[u8], key: Key) -> bool {
    matches!(
        matches(alloc, text, &row(alloc, 4, 109), 3, 3, 4, &key),
        Ok(true)
    )
}

/// Returns whether a message is known not to match a key.
fn is_missed(alloc: Global, text: &[u8], key: Key) -> bool {
    matches!(
        matches(alloc, text, &row(alloc, 4, 109), 3, 3, 4, &key),
        Ok(false)
    )
}

/// Returns whether two keys at once find a message: of each text that is kept, the second is asked
/// again.
fn both(alloc: Global, first: Key, second: Key) -> Result<Key, NoMemory> {
    let mut keys = Vec::new(alloc);
    keys.push(first)?;
    keys.push(second)?;
    Ok(Key::Each(keys))
}

/// Returns the key that another doesn't match.
fn not(alloc: Global, key: Key) -> Result<Key, NoMemory> {
    Ok(Key::Not(Box::new(alloc, key)?))
}

/// Returns the key that finds a text in the subject.
fn subject(alloc: Global, piece: &[u8]) -> Result<Key, NoMemory> {
    Ok(Key::Subject(bytes(alloc, piece)?))
}

/// Returns the key that finds a text in the header as it is sent or in the body.
fn text(alloc: Global, piece: &[u8]) -> Result<Key, NoMemory> {
    Ok(Key::Text(bytes(alloc, piece)?))
}

/// Returns the key that finds a text in a field with a name.
fn header(alloc: Global, name: &[u8], piece: &[u8]) -> Result<Key, NoMemory> {
    let name = bytes(alloc, name)?;
    Ok(Key::Header(name, bytes(alloc, piece)?))
}

/// Returns whether a key is there, and finds the plain message.
fn finds(alloc: Global, key: Result<Key, NoMemory>) -> bool {
    match key {
        Ok(key) => is_found(alloc, PLAIN, key),
        Err(NoMemory) => false,
    }
}

/// Returns whether a key is there, and misses the plain message.
fn misses(alloc: Global, key: Result<Key, NoMemory>) -> bool {
    match key {
        Ok(key) => is_missed(alloc, PLAIN, key),
        Err(NoMemory) => false,
    }
}

/// Returns NOT SUBJECT FIRST.
fn not_first(alloc: Global) -> Result<Key, NoMemory> {
    not(alloc, subject(alloc, b"FIRST")?)
}

/// Returns the keys of two texts, of which the second is looked for in what is kept.
fn two_texts(alloc: Global) -> Result<Key, NoMemory> {
    let first = text(alloc, b"ID: <a@X>\r\n")?;
    both(alloc, first, text(alloc, b"One\n")?)
}

/// Returns the keys of two texts in one field.
fn two_pieces(alloc: Global) -> Result<Key, NoMemory> {
    let first = header(alloc, b"from", b"ann")?;
    both(alloc, first, header(alloc, b"from", b"EXAMPLE")?)
}

#[test]
fn texts_of_a_message_are_found(rt: HostRuntime) {
    let alloc = rt.alloc();
    assert!(rt; misses(alloc, not_first(alloc)));
    assert!(rt; finds(alloc, two_texts(alloc)));
    assert!(rt; misses(alloc, text(alloc, b"\r\n\r\n")));
}

#[test]
fn fields_of_a_message_are_found(rt: HostRuntime) {
    let alloc = rt.alloc();
    assert!(rt; finds(alloc, two_pieces(alloc)));
    assert!(rt; misses(alloc, header(alloc, b"X-None", b"")));
}

/// Returns the first of February 2024.
fn day() -> Date {
    Date {
        year: 2024,
        month: 2,
        day: 1,
    }
}

#[test]
fn days_are_compared(rt: HostRuntime) {
    let alloc = rt.alloc();
    assert!(rt; is_found(alloc, PLAIN, Key::SentOn(day())));
    assert!(rt; is_found(alloc, PLAIN, Key::Since(day())));
    assert!(rt; is_missed(alloc, PLAIN, Key::Before(day())));
    assert!(rt; is_missed(alloc, ONE_PART, Key::SentBefore(day())));
}

/// Returns the set of the UIDs from 9 to the greatest.
fn from_nine(alloc: Global) -> Result<SeqSet, NoMemory> {
    let mut ranges = Sequence::new(alloc);
    ranges.push(SetRange {
        first: SetEnd::Number(9),
        last: SetEnd::Greatest,
    })?;
    Ok(SeqSet::new(ranges))
}

/// Returns the key of these UIDs.
fn uids(alloc: Global) -> Result<Key, NoMemory> {
    Ok(Key::Uid(from_nine(alloc)?))
}

/// Returns whether a key reads the text of a message.
fn reads(key: Result<Key, NoMemory>) -> bool {
    match key {
        Ok(key) => reads_text(&key),
        Err(NoMemory) => false,
    }
}

#[test]
fn rows_are_asked_without_a_text(rt: HostRuntime) {
    let alloc = rt.alloc();
    assert!(rt; finds(alloc, uids(alloc)));
    assert!(rt; is_found(alloc, b"", Key::Larger(108)));
    assert!(rt; is_missed(alloc, b"", Key::Larger(109)));
}

#[test]
fn keys_that_read_a_text_are_known(rt: HostRuntime) {
    let alloc = rt.alloc();
    assert!(rt; reads(not_first(alloc)));
    assert!(rt; !reads(uids(alloc)));
}
