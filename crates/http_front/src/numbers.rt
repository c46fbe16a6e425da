//! The live numbers of a shelf.
//! Pure.
ghost use Rattle.std.specs.Prelude.{◌≡◌, ◌≤◌, ◌<◌, true, IfSome};
ghost use Rattle.arch_model.specs.Archives.{Archive};
ghost use Rattle.http_front.specs.Views.{IsNextLive};

use arch_model::Shelf;

/// Returns the least live number that is at least `low`, or `None` if there is none.
pub(crate) fn live_from<S: Shelf>(low: u64, shelf: &S) -> Option<u32>
    requires { S.ready shelf.now ≡ true }
    ensures next { (a : Archive) → S.holds shelf.now a → IsNextLive a.entries low result }
    ensures later { IfSome result (λ n. (low ≤ n) × (n < 4294967296)) }
{
    if low > u64::from(u32::MAX) {
        return None;
    }
    match shelf.live_from(low as u32) {
        Some(n) if u64::from(n) >= low => Some(n),
        _ => None,
    }
}
