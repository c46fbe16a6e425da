//! The live numbers of a mailbox.
//! Allocates.
ghost use Rattle.std.specs.Prelude.{◌≡◌, ◌+◌, ◌<◌, ◌≤◌, [], ◌∷◌, IfOk, IfSome, MatchOption, MatchBool, ◌≢◌, true};
ghost use Rattle.arch_model.specs.Archives.{Archive};
ghost use Rattle.known_uids.specs.Told.{live_in, RisesBelow};

use arch_base::NoMemory;
use arch_model::Shelf;
use std::alloc::Global;

/// Returns the live numbers from `first` to `last`, rising. Asks the shelf once for each, and once
/// more.
pub(crate) fn live_numbers<S: Shelf>(
    alloc: Global,
    first: u32,
    last: u32,
    shelf: &S,
) -> Result<Vec<u32>, NoMemory>
    requires ready { S.ready shelf.now ≡ true }
    requires order { first ≤ last + 1 }
    requires high { last < 4294967295 }
    ensures numbers { (a : Archive) → S.holds shelf.now a
        → IfOk result (λ numbers. numbers.items ≡ live_in a first last) }
    ensures rising { IfOk result (λ numbers. RisesBelow first numbers.items (last + 1)) }
{
    let mut numbers = Vec::new(alloc);
    let mut at = first;
    while let Some(found) = least_within(at, last, shelf) {
        numbers.push(found)?;
        at = found + 1;
    }
    Ok(numbers)
}

/// Returns the least live number from `first` to `last`, if there is one.
fn least_within<S: Shelf>(first: u32, last: u32, shelf: &S) -> Option<u32>
    requires { S.ready shelf.now ≡ true }
    ensures numbers { (a : Archive) → S.holds shelf.now a → MatchOption result
        (live_in a first last ≡ []) (λ found. live_in a first last ≡ found ∷ live_in a (found + 1) last) }
    ensures within { IfSome result (λ found. (first ≤ found) × (found ≤ last)) }
{
    match shelf.live_from(first) {
        Some(found) if first <= found && found <= last => Some(found),
        _ => None,
    }
}

/// Returns whether no number from `first` to `last` is live.
pub(crate) fn none_live<S: Shelf>(first: u32, last: u32, shelf: &S) -> bool
    requires { S.ready shelf.now ≡ true }
    ensures { (a : Archive) → S.holds shelf.now a → MatchBool result
        (live_in a first last ≡ []) (live_in a first last ≢ []) }
{
    least_within(first, last, shelf).is_none()
}
