//! Told UIDs that are gone.
//! Allocates.
ghost use Rattle.std.specs.Prelude.{◌≡◌, ◌+◌, ◌<◌, ◌≤◌, ◌^◌, ◌++◌, ℕ, length, OnOk, true, MatchBool};
ghost use Rattle.std.specs.Bool.{OnFalse};
ghost use Rattle.std.specs.List.{All, filter};
ghost use Rattle.arch_model.specs.Archives.{Archive};
ghost use Rattle.arch_model.specs.Validity.{IsArchive};
ghost use Rattle.known_uids.specs.Told.{is_live, RisesBelow, NoneBack};
ghost use Rattle.known_uids.specs.Gone.{gone_by, AllLive, IsSequence, struck, is_there};

use arch_base::{MessageNumbers, NoMemory};
use arch_model::Shelf;

/// Returns whether all of these UIDs are live. Asks the shelf once, however many they are.
pub(crate) fn are_live<S: Shelf>(uids: &[u32], shelf: &S) -> bool
    requires { S.ready shelf.now ≡ true }
    ensures some { OnFalse result (0 < length uids.now) }
    ensures live { (a : Archive) (first bound : ℕ) → S.holds shelf.now a → IsArchive a
        → RisesBelow first uids.now bound → NoneBack (is_live a) first uids.now
        → MatchBool result (AllLive (is_live a) uids.now) (AllLive (is_live a) uids.now → ⊥) }
{
    match uids {
        [] => true,
        [first, ..] => {
            let last = uids[uids.len() - 1];
            shelf.live_count(*first, last) == uids.len() as u64
        }
    }
}

/// Appends the sequence numbers of the UIDs that are gone, the greatest first. `before` others stand
/// before these.
///
/// It asks the shelf once for each half that it looks at, and it looks at no half in which all are
/// live. So it asks at most about twice the logarithm of their number for each that is gone.
#[cycle(gone)]
pub(crate) fn push_gone<S: Shelf>(
    uids: &[u32],
    before: u32,
    shelf: &S,
    gone: &mut MessageNumbers,
) -> Result<(), NoMemory>
    requires ready { S.ready shelf.now ≡ true }
    requires few { before + length uids.now < 2 ^ 32 }
    ensures ok { (a : Archive) (first bound : ℕ) → S.holds shelf.now a → IsArchive a
        → RisesBelow first uids.now bound → NoneBack (is_live a) first uids.now
        → OnOk result (gone.new ≡ gone.old ++ gone_by (is_live a) (before + 1) uids.now) }
    ensures places { (count : ℕ) → before + length uids.now ≤ count
        → All (IsSequence count) gone.old → All (IsSequence count) gone.new }
{
    if are_live(uids, shelf) {
        return Ok(());
    }
    if uids.len() == 1 {
        return gone.push(before + 1);
    }
    let (front, back) = uids.split_at(uids.len() / 2);
    push_gone(back, before + front.len() as u32, shelf, gone)?;
    push_gone(front, before, shelf, gone)
}

/// Takes out the UIDs with these sequence numbers. If there are none, it goes over no UID.
pub(crate) fn take_out(uids: &mut Vec<u32>, gone: &[u32])
    requires gone { All (IsSequence (length uids.old.items)) gone.now }
    requires there { filter is_there uids.old.items ≡ uids.old.items }
    ensures { uids.new.items ≡ filter is_there (struck uids.old.items gone.now) }
{
    if gone.is_empty() {
        return;
    }
    mark(uids.as_mut_slice(), gone);
    uids.retain(|uid| *uid != 0);
}

/// Puts 0 in the place of the UIDs with these sequence numbers.
fn mark(uids: &mut [u32], gone: &[u32])
    requires { All (IsSequence (length uids.old)) gone.now }
    ensures { uids.new ≡ struck uids.old gone.now }
{
    for sequence in gone {
        uids[*sequence as usize - 1] = 0;
    }
}
