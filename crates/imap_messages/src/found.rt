//! The messages that SEARCH finds.
//! Reads the disk.
ghost use Rattle.std.specs.Prelude.{◌≡◌, ◌++◌, ℕ, nat_lt, Bool, List, [], ◌∷◌, Ok, true, is_some, map, if◌then◌else◌, IfOk, IfErr, OnOk};
ghost use Rattle.std.specs.List.{list_all, list_any};
ghost use Rattle.arch_model.specs.Archives.{Archive, live, text_of};
ghost use Rattle.arch_model.specs.Listings.{row_in};
ghost use Rattle.arch_model.specs.OverShelf.{ShelfKept};
ghost use Rattle.arch_model.specs.Shelves.{ReadCause, ReadsUpTo, ReadsIn};
ghost use Rattle.imap_syntax.specs.Trees.{tree_of, trees};
ghost use Rattle.imap_items.specs.Keys.{tree_matches, tree_reads};
ghost use Rattle.imap_messages.specs.Picking.{messages_from, number_by};
ghost use Rattle.imap_messages.specs.Wanted.{tree_is_told, trees_are_told};
ghost use Rattle.imap_messages.specs.Seeking.{asked_search, is_sought, row_keys, looks_of};
ghost use Rattle.imap_messages.specs.FetchActs.{IsWhy, GivesTextIf};
ghost use Rattle.imap_messages.specs.SearchActs.{message_at, IsPlaceAmong, text_at, keys_by, look_of, TellsMatch, Appends, Finds};

use crate::lines::text_if;
use crate::numbering::{Numbering, greatest_uid, set_is_told};
use crate::search::SearchCommand;
use arch_base::{MessageNumbers, NoMemory};
use arch_model::{Shelf, TextRefusal};
use imap_items::{matches, reads_text, unread_texts_are_alike};
use imap_syntax::Key;
use known_uids::KnownUids;
use mail_forms::Row;
use std::alloc::Global;

/// The place of a message among those that a client was told.
#[derive(Clone, Copy, Drop)]
pub(crate) struct Place {
    sequence: u32,
    uid: u32,
    /// The greatest sequence number.
    count: u32,
    /// The greatest UID.
    greatest: u32,
}

/// Returns whether all sequence numbers of a key are told.
#[cycle(told)]
#[tactic(auto, unfolding(crate::specs::Wanted::tree_is_told))]
fn is_told(key: &Key, count: u32) -> bool
    ensures { result ≡ tree_is_told count (tree_of key.now) }
{
    match key {
        Key::Numbers(set) => set_is_told(set, count),
        Key::Not(key) => is_told(key, count),
        Key::Or(first, second) => is_told(first, count) && is_told(second, count),
        Key::Each(keys) => keys_are_told(keys.as_slice(), count),
        Key::All
        | Key::Answered
        | Key::Deleted
        | Key::Draft
        | Key::Flagged
        | Key::New
        | Key::Old
        | Key::Recent
        | Key::Seen
        | Key::Unanswered
        | Key::Undeleted
        | Key::Undraft
        | Key::Unflagged
        | Key::Unseen
        | Key::Bcc(_)
        | Key::Body(_)
        | Key::Cc(_)
        | Key::From(_)
        | Key::Subject(_)
        | Key::Text(_)
        | Key::To(_)
        | Key::Header(_, _)
        | Key::Keyword(_)
        | Key::Unkeyword(_)
        | Key::Before(_)
        | Key::On(_)
        | Key::Since(_)
        | Key::SentBefore(_)
        | Key::SentOn(_)
        | Key::SentSince(_)
        | Key::Larger(_)
        | Key::Smaller(_)
        | Key::Uid(_) => true,
    }
}

/// Returns whether all sequence numbers of each of these keys are told.
#[cycle(told)]
#[tactic(auto, unfolding(crate::specs::Wanted::tree_is_told))]
pub(crate) fn keys_are_told(keys: &[Key], count: u32) -> bool
    ensures { result ≡ trees_are_told count (trees (map tree_of keys.now)) }
{
    for key in keys {
        if !is_told(key, count) {
            return false;
        }
    }
    true
}

/// Returns the numbers of the live messages that match all keys, of those that a client was told; or
/// why that isn't known.
pub(crate) fn numbers_of<S: Shelf>(
    command: &SearchCommand<'_>,
    told: &KnownUids,
    alloc: Global,
    shelf: &mut S,
) -> Result<MessageNumbers, TextRefusal>
    requires { S.ready shelf.old ≡ true }
    ensures found { (a : Archive) → S.holds shelf.old a
        → Finds a (asked_search command.now) told.now.uids result }
    ensures shelf { ShelfKept S.Shelf shelf.old shelf.new }
    ensures reads { ReadsIn S.holds (λ a. looks_of a told.now.uids (asked_search command.now)
        (messages_from 1 told.now.uids)) shelf.old (S.reads shelf.old) (S.reads shelf.new) }
    ensures cause { ReadCause (S.faults shelf.old) (S.faults shelf.new) result }
{
    let uids = told.uids();
    let count = told.count();
    let greatest = greatest_uid(uids);
    let mut numbers = MessageNumbers::new(alloc);
    let mut index = 0;
    while index < count {
        let place = Place {
            sequence: index + 1,
            uid: uids[index as usize],
            count,
            greatest,
        };
        match push_found(command, place, alloc, shelf, &mut numbers) {
            Ok(()) => index += 1,
            Err(refusal) => return Err(refusal),
        }
    }
    Ok(numbers)
}

/// Appends the number of a message, if it is live and matches all keys.
fn push_found<S: Shelf>(
    command: &SearchCommand<'_>,
    place: Place,
    alloc: Global,
    shelf: &mut S,
    numbers: &mut MessageNumbers,
) -> Result<(), TextRefusal>
    requires { S.ready shelf.old ≡ true }
    ensures found { (a : Archive) (told : List ℕ) → S.holds shelf.old a → IsPlaceAmong told place
        → Appends a (asked_search command.now) told (message_at place) numbers.old result numbers.new }
    ensures shelf { ShelfKept S.Shelf shelf.old shelf.new }
    ensures reads { (a : Archive) (told : List ℕ) → S.holds shelf.old a → IsPlaceAmong told place
        → ReadsUpTo (looks_of a told (asked_search command.now) (message_at place ∷ []))
        (S.reads shelf.old) (S.reads shelf.new) }
    ensures cause { ReadCause (S.faults shelf.old) (S.faults shelf.new) result }
{
    match is_found(command.keys, place, alloc, shelf) {
        Ok(true) => push(numbers, number_of(command.numbering, place)),
        Ok(false) => Ok(()),
        Err(refusal) => Err(refusal),
    }
}

/// Returns the number of a message that a command gives.
fn number_of(numbering: Numbering, place: Place) -> u32
    ensures { result ≡ number_by numbering (message_at place) }
{
    match numbering {
        Numbering::Sequence => place.sequence,
        Numbering::Uid => place.uid,
    }
}

/// Appends a number.
fn push(numbers: &mut MessageNumbers, number: u32) -> Result<(), TextRefusal>
    ensures ok { OnOk result (numbers.new ≡ numbers.old ++ number ∷ []) }
    ensures why { (needed : Bool) → IfErr result (IsWhy needed) }
    ensures cause { (n : ℕ) → ReadCause n n result }
{
    match numbers.push(number) {
        Ok(()) => Ok(()),
        Err(NoMemory) => Err(TextRefusal::NoMemory),
    }
}

/// Returns whether a message is live and matches all keys, or why that isn't known. Its text is read
/// only where a key needs it, and all keys match that don't.
fn is_found<S: Shelf>(
    keys: &[Key],
    place: Place,
    alloc: Global,
    shelf: &mut S,
) -> Result<bool, TextRefusal>
    requires { S.ready shelf.old ≡ true }
    ensures found { (a : Archive) (told : List ℕ) → S.holds shelf.old a → IsPlaceAmong told place
        → TellsMatch (nat_lt 0 (look_of a told (map tree_of keys.now) (message_at place)))
        (is_sought a told (map tree_of keys.now) (message_at place)) result }
    ensures shelf { ShelfKept S.Shelf shelf.old shelf.new }
    ensures reads { (a : Archive) (told : List ℕ) → S.holds shelf.old a → IsPlaceAmong told place
        → ReadsUpTo (look_of a told (map tree_of keys.now) (message_at place))
        (S.reads shelf.old) (S.reads shelf.new) }
    ensures cause { ReadCause (S.faults shelf.old) (S.faults shelf.new) result }
{
    match row_matches(keys, place, alloc, shelf) {
        Ok(true) => text_matches(keys, place, alloc, shelf),
        Ok(false) => Ok(false),
        Err(NoMemory) => Err(TextRefusal::NoMemory),
    }
}

/// Returns whether a message is live and matches all keys that read no text. Reads none.
fn row_matches<S: Shelf>(
    keys: &[Key],
    place: Place,
    alloc: Global,
    shelf: &S,
) -> Result<bool, NoMemory>
    requires { S.ready shelf.now ≡ true }
    ensures found { (a : Archive) (told : List ℕ) → S.holds shelf.now a → IsPlaceAmong told place
        → IfOk result (λ found.
        found ≡ is_sought a told (row_keys (map tree_of keys.now)) (message_at place)) }
    ensures live { (a : Archive) → S.holds shelf.now a → IfOk result (λ found.
        found ≡ true → is_some (text_of (live a.entries) place.uid) ≡ true) }
{
    unread_texts_are_alike();
    match shelf.row(place.uid) {
        None => Ok(false),
        Some(row) => keys_match(alloc, false, b"", row, place, keys),
    }
}

/// Returns whether a live message that matches all other keys matches those that read texts, or why
/// that isn't known.
fn text_matches<S: Shelf>(
    keys: &[Key],
    place: Place,
    alloc: Global,
    shelf: &mut S,
) -> Result<bool, TextRefusal>
    requires ready { S.ready shelf.old ≡ true }
    requires live { (a : Archive) → S.holds shelf.old a
        → is_some (text_of (live a.entries) place.uid) ≡ true }
    ensures found { (a : Archive) (told : List ℕ) → S.holds shelf.old a → IsPlaceAmong told place
        → is_sought a told (row_keys (map tree_of keys.now)) (message_at place) ≡ true
        → TellsMatch (list_any tree_reads (map tree_of keys.now))
        (is_sought a told (map tree_of keys.now) (message_at place)) result }
    ensures shelf { ShelfKept S.Shelf shelf.old shelf.new }
    ensures reads { ReadsUpTo (if list_any tree_reads (map tree_of keys.now) then 1 else 0)
        (S.reads shelf.old) (S.reads shelf.new) }
    ensures cause { ReadCause (S.faults shelf.old) (S.faults shelf.new) result }
{
    match text_if(read_texts(keys), place.uid, alloc, shelf) {
        Ok(text) => match_in(keys, place, text.as_slice(), alloc, shelf),
        Err(refusal) => Err(refusal),
    }
}

/// Returns whether a message with a text, which may be any where no key needs it, matches the keys
/// that read texts.
fn match_in<S: Shelf>(
    keys: &[Key],
    place: Place,
    text: &[u8],
    alloc: Global,
    shelf: &S,
) -> Result<bool, TextRefusal>
    requires { S.ready shelf.now ≡ true }
    ensures found { (a : Archive) (told : List ℕ) → S.holds shelf.now a → IsPlaceAmong told place
        → is_sought a told (row_keys (map tree_of keys.now)) (message_at place) ≡ true
        → GivesTextIf (list_any tree_reads (map tree_of keys.now))
        (text_of (live a.entries) place.uid) (Ok text.now)
        → TellsMatch (list_any tree_reads (map tree_of keys.now))
        (is_sought a told (map tree_of keys.now) (message_at place)) result }
    ensures cause { (n : ℕ) → ReadCause n n result }
{
    match shelf.row(place.uid) {
        None => Ok(false),
        Some(row) => match keys_match(alloc, true, text, row, place, keys) {
            Ok(found) => Ok(found),
            Err(NoMemory) => Err(TextRefusal::NoMemory),
        },
    }
}

/// Returns whether one of these keys reads texts.
fn read_texts(keys: &[Key]) -> bool
    ensures { result ≡ list_any tree_reads (map tree_of keys.now) }
{
    for key in keys {
        if reads_text(key) {
            return true;
        }
    }
    false
}

/// Returns whether a message with a text and a row matches all keys that read texts, or all that
/// don't. For these the text may be any.
fn keys_match(
    alloc: Global,
    reading: bool,
    text: &[u8],
    row: &Row,
    place: Place,
    keys: &[Key],
) -> Result<bool, NoMemory>
    ensures { IfOk result (λ found. found ≡ list_all (tree_matches (text_at place text.now row.now))
        (keys_by reading (map tree_of keys.now))) }
{
    for key in keys {
        if !key_matches(alloc, reading, text, row, place, key)? {
            return Ok(false);
        }
    }
    Ok(true)
}

/// Returns whether a message matches a key, or the key is one of the others.
fn key_matches(
    alloc: Global,
    reading: bool,
    text: &[u8],
    row: &Row,
    place: Place,
    key: &Key,
) -> Result<bool, NoMemory>
    ensures { IfOk result (λ found. found ≡ list_all (tree_matches (text_at place text.now row.now))
        (keys_by reading (tree_of key.now ∷ []))) }
{
    if reads_text(key) != reading {
        return Ok(true);
    }
    matches(
        alloc,
        text,
        row,
        place.sequence,
        place.count,
        place.greatest,
        key,
    )
}
