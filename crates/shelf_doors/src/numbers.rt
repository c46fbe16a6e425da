//! Walks over the live numbers of a range.
//! Pure.
ghost use Rattle.std.specs.Prelude.{◌≡◌, ◌+◌, ◌<◌, ◌≤◌, true, IfSome, is_some};
ghost use Rattle.arch_model.specs.Archives.{Archive, live, text_of};
ghost use Rattle.shelf_doors.specs.Numbers.{live_in, first_of, greatest_below};

use arch_model::Shelf;

/// Returns the least live number from `first` to `last`, or `None` if there is none.
pub fn live_within<S: Shelf>(first: u32, last: u32, shelf: &S) -> Option<u32>
    requires ready { S.ready shelf.now ≡ true }
    ensures number { (a : Archive) → S.holds shelf.now a
        → result ≡ first_of (live_in (live a.entries) first last) }
    ensures live { (a : Archive) → S.holds shelf.now a
        → IfSome result (λ n. is_some (text_of (live a.entries) n) ≡ true) }
    ensures within { IfSome result (λ n. (first ≤ n) × (n ≤ last)) }
{
    let found = shelf.live_from(first)?;
    if found < first || found > last {
        return None;
    }
    Some(found)
}

/// Returns the least live number after `n`, up to `last`, or `None` if there is none.
pub fn live_after<S: Shelf>(n: u32, last: u32, shelf: &S) -> Option<u32>
    requires ready { S.ready shelf.now ≡ true }
    ensures number { (a : Archive) → S.holds shelf.now a
        → result ≡ first_of (live_in (live a.entries) (n + 1) last) }
    ensures live { (a : Archive) → S.holds shelf.now a
        → IfSome result (λ m. is_some (text_of (live a.entries) m) ≡ true) }
    ensures within { IfSome result (λ m. (n < m) × (m ≤ last)) }
{
    if n >= last {
        return None;
    }
    live_within(n + 1, last, shelf)
}

/// Returns the greatest live number before `n`, or `None` if there is none.
pub fn live_before<S: Shelf>(n: u32, shelf: &S) -> Option<u32>
    requires { S.ready shelf.now ≡ true }
    ensures { (a : Archive) → S.holds shelf.now a
        → result ≡ greatest_below (live a.entries) n }
{
    if n == 0 {
        return None;
    }
    shelf.live_to(n - 1)
}
