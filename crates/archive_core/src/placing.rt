//! Where the messages of an archive on a disk are, by their numbers.
//! Allocates.
ghost use Rattle.std.specs.Prelude.{◌≡◌, true, IfOk, OnOk, length};
ghost use Rattle.archive_core.specs.Placing.{message_places, PlacesBy, PlacesRise, PlaceMayFollow, IsPlaceOfNumber, IsLiveWith, ends_place, has_blob_at};
ghost use Rattle.store_planning.specs.Dropping.{without_blob};

use arch_base::{NoMemory, ObjectId};
use git_objects::EntryKind;
use std::alloc::Global;
use std::collections::BTreeSet;
use store_finding::StoredEntry;

/// Where the message of a number is.
#[derive(Clone, Copy, Drop)]
pub(crate) struct MessagePlace {
    /// Its number.
    pub(crate) number: u32,
    /// The index of its entry.
    pub(crate) entry: usize,
    /// Whether it is live.
    pub(crate) live: bool,
}

/// Returns the places of the messages among entries.
pub(crate) fn places_of(
    alloc: Global,
    entries: &[StoredEntry],
) -> Result<Vec<MessagePlace>, NoMemory>
    ensures { IfOk result (λ places. places.items ≡ message_places 0 entries.now) }
{
    let mut places = Vec::new(alloc);
    let mut ended = BTreeSet::new(alloc);
    // From the last to the first, so that it is known of each message whether a later entry ends it.
    for index in (0..entries.len()).rev() {
        place_entry(&mut places, &mut ended, &entries[index], index)?;
    }
    places.reverse();
    Ok(places)
}

/// Returns the number of the entries without a blob id.
pub(crate) fn count_without(entries: &[StoredEntry], blob: &ObjectId) -> usize
    ensures { result ≡ length (without_blob entries.now blob.now) }
{
    entries
        .iter()
        .filter(|entry| entry.seen.blob != *blob)
        .count()
}

/// Returns the places of the messages among the entries but those with a blob id, by their indexes
/// among these.
pub(crate) fn places_without(
    alloc: Global,
    entries: &[StoredEntry],
    blob: &ObjectId,
) -> Result<Vec<MessagePlace>, NoMemory>
    ensures { IfOk result (λ places.
        places.items ≡ message_places 0 (without_blob entries.now blob.now)) }
{
    let mut places = Vec::new(alloc);
    let mut ended = BTreeSet::new(alloc);
    let mut left = count_without(entries, blob);
    for index in (0..entries.len()).rev() {
        let entry = &entries[index];
        if entry.seen.blob != *blob {
            left -= 1;
            place_entry(&mut places, &mut ended, entry, left)?;
        }
    }
    places.reverse();
    Ok(places)
}

/// Returns the number of the live place whose entry has a blob id, if there is one.
pub(crate) fn live_with(
    places: &[MessagePlace],
    entries: &[StoredEntry],
    blob: &ObjectId,
) -> Option<u32>
    ensures { IsLiveWith places.now entries.now blob.now result }
{
    for place in places {
        if place.live && has_blob(entries, place.entry, blob) {
            return Some(place.number);
        }
    }
    None
}

/// Returns whether the entry at an index has a blob id.
fn has_blob(entries: &[StoredEntry], index: usize, blob: &ObjectId) -> bool
    ensures { result ≡ has_blob_at entries.now index blob.now }
{
    match entries.get(index) {
        None => false,
        Some(entry) => entry.seen.blob == *blob,
    }
}

/// Adds the place of a message to those of later ones, or the number that a deletion ends.
fn place_entry(
    places: &mut Vec<MessagePlace>,
    ended: &mut BTreeSet<u32>,
    entry: &StoredEntry,
    index: usize,
) -> Result<(), NoMemory>
    ensures { OnOk result (PlacesBy entry.now.seen.kind places.old.items places.new.items ended.old
        ended.new entry.now index) }
{
    match entry.seen.kind {
        EntryKind::Message => {
            let live = !ended.contains(&entry.number);
            places.push(MessagePlace {
                number: entry.number,
                entry: index,
                live,
            })?;
            Ok(())
        }
        EntryKind::Deletion => {
            ended.insert(entry.number)?;
            Ok(())
        }
    }
}

/// Returns whether numbers rise from one place to the next.
pub(crate) fn are_rising(places: &[MessagePlace]) -> bool
    ensures { result ≡ true → PlacesRise places.now }
{
    let mut least: u64 = 0;
    for place in places {
        if u64::from(place.number) < least {
            return false;
        }
        least = u64::from(place.number) + 1;
    }
    true
}

/// Returns whether a number is above those of all places, which rise.
pub(crate) fn may_follow(places: &[MessagePlace], number: u32) -> bool
    ensures { result ≡ true → PlaceMayFollow places.now number }
{
    match places.last() {
        None => true,
        Some(last) => last.number < number,
    }
}

/// Makes the place of a number no longer live, by one search.
pub(crate) fn end_place(places: &mut [MessagePlace], number: u32)
    ensures { PlacesRise places.old → places.new ≡ ends_place number places.old }
{
    if let Some(index) = place_index(places, number) {
        places[index].live = false;
    }
}

/// Returns the index of a place of a number, or `None` if there is none.
pub(crate) fn place_index(places: &[MessagePlace], number: u32) -> Option<usize>
    ensures { IsPlaceOfNumber places.now number result }
{
    let index = places.partition_point(|place| place.number < number);
    match places.get(index) {
        None => None,
        Some(place) => {
            if place.number != number {
                return None;
            }
            Some(index)
        }
    }
}
