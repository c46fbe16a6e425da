//! Places of numbers, and what they tell.
//! Pure.
ghost use Rattle.std.specs.Prelude.{◌≡◌, ◌≤◌, ◌&&◌, nat_le, length, option_copied, if◌then◌else◌};
ghost use Rattle.mem_archive.specs.Memory.{place_in, text_in, shown_in, once_in, live_at, is_live_place, IsLeastAt, IsGreatestAt, count_from, Hides, hidden_place};

use crate::kept::{Kept, KeptPlace};

/// Returns the place of a number, or `None` if it has no message.
pub(crate) fn place_of(places: &[Option<KeptPlace>], number: u32) -> Option<KeptPlace>
    ensures { result ≡ place_in places.now number }
{
    if number == 0 {
        return None;
    }
    match places.get(number as usize - 1) {
        None => None,
        Some(found) => *found,
    }
}

/// Returns the text of the entry at an index, or `None` if there are not so many.
fn text_at(kept: &[Kept], entry: usize) -> Option<&[u8]>
    ensures { option_copied result ≡ text_in kept.now entry }
{
    match kept.get(entry) {
        None => None,
        Some(kept) => Some(kept.text.as_slice()),
    }
}

/// Returns the text at a place, or `None` if it is not live.
pub(crate) fn shown_at(kept: &[Kept], found: Option<KeptPlace>) -> Option<&[u8]>
    ensures { option_copied result ≡ shown_in kept.now found }
{
    match found {
        None => None,
        Some(place) => {
            if place.live {
                text_at(kept, place.entry)
            } else {
                None
            }
        }
    }
}

/// Returns the text at a place, live or not.
pub(crate) fn once_at(kept: &[Kept], found: Option<KeptPlace>) -> Option<&[u8]>
    ensures { option_copied result ≡ once_in kept.now found }
{
    match found {
        None => None,
        Some(place) => text_at(kept, place.entry),
    }
}

/// Returns whether the place of a number is live.
fn is_live_at(places: &[Option<KeptPlace>], number: u32) -> bool
    ensures { result ≡ live_at places.now number }
{
    is_live(place_of(places, number))
}

/// Returns the least number from this one on whose place is live, or `None` if there is none.
pub(crate) fn least_live(places: &[Option<KeptPlace>], number: u32) -> Option<u32>
    requires few { length places.now ≤ 2147483647 }
    ensures { IsLeastAt places.now number result }
{
    let end = places.len() as u32 + 1;
    for least in number.max(1)..end {
        if is_live_at(places, least) {
            return Some(least);
        }
    }
    None
}

/// Returns the greatest number up to this one whose place is live, or `None` if there is none.
pub(crate) fn greatest_live(places: &[Option<KeptPlace>], number: u32) -> Option<u32>
    requires few { length places.now ≤ 2147483647 }
    ensures { IsGreatestAt places.now number result }
{
    let most = number.min(places.len() as u32);
    for below in 0..most {
        if is_live_at(places, most - below) {
            return Some(most - below);
        }
    }
    None
}

/// Returns how many places of the numbers from `low` to `high` are live.
pub(crate) fn count_live(places: &[Option<KeptPlace>], low: u32, high: u32) -> u64
    requires few { length places.now ≤ 2147483647 }
    ensures { result ≡ count_from 1 low high places.now }
{
    let mut count = 0;
    let mut number = 1;
    for found in places {
        count += one_if(*found, number, low, high);
        number += 1;
    }
    count
}

/// Returns whether there is a place, and it is live.
fn is_live(found: Option<KeptPlace>) -> bool
    ensures { result ≡ is_live_place found }
{
    match found {
        None => false,
        Some(place) => place.live,
    }
}

/// Returns 1 if the place of a number is live and the number is between two others, otherwise 0.
fn one_if(found: Option<KeptPlace>, number: u32, low: u32, high: u32) -> u64
    ensures { result ≡ (if is_live_place found && (nat_le low number && nat_le number high) then 1
        else 0) }
{
    if is_live(found) && low <= number && number <= high {
        1
    } else {
        0
    }
}

/// Makes the place at an index no longer live.
pub(crate) fn hide(places: &mut Vec<Option<KeptPlace>>, at: usize)
    ensures { Hides places.old.items places.new.items at }
{
    if let Some(found) = places.get_mut(at) {
        *found = hidden(*found);
    }
}

/// Returns a place that is no longer live, if there is one.
fn hidden(found: Option<KeptPlace>) -> Option<KeptPlace>
    ensures { result ≡ hidden_place found }
{
    match found {
        None => None,
        Some(place) => Some(KeptPlace {
            entry: place.entry,
            live: false,
        }),
    }
}
