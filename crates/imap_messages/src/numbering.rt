//! How a command names messages, and which of them its set has.
//! Pure.
ghost use Rattle.std.specs.Prelude.{◌≡◌};
ghost use Rattle.imap_messages.specs.Picking.{told_message, greatest_uid, star_of, picks, range_is_told, set_is_told, is_outside};

use imap_syntax::{SeqSet, SetRange};
use known_uids::KnownUids;

/// How a command names messages, and which numbers it gives (RFC 3501, section 2.3.1).
#[derive(Clone, Copy, Debug, PartialEq, Eq)]
pub enum Numbering {
    /// By sequence numbers: the places among the UIDs that the client was told, from 1 on.
    Sequence,
    /// By UIDs, as a command after the word UID does.
    Uid,
}

/// Returns the greatest of rising UIDs, or 0 if there is none.
pub(crate) fn greatest_uid(uids: &[u32]) -> u32
    ensures { result ≡ greatest_uid uids.now }
{
    match uids {
        [] => 0,
        [.., last] => *last,
    }
}

/// Returns the number that `*` means.
pub(crate) fn star(numbering: Numbering, told: &KnownUids) -> u32
    ensures { result ≡ star_of numbering told.now.uids }
{
    match numbering {
        Numbering::Sequence => told.count(),
        Numbering::Uid => greatest_uid(told.uids()),
    }
}

/// Returns whether a set has a message with a sequence number and a UID, where `star` is what `*`
/// means.
pub(crate) fn picks(numbering: Numbering, set: &SeqSet, star: u32, sequence: u32, uid: u32) -> bool
    ensures { result ≡ picks numbering set.now star (told_message sequence uid) }
{
    match numbering {
        Numbering::Sequence => set.contains(sequence, star),
        Numbering::Uid => set.contains(uid, star),
    }
}

/// Returns whether a set of sequence numbers names one that isn't told. UIDs may be any.
pub(crate) fn is_outside(numbering: Numbering, set: &SeqSet, told: &KnownUids) -> bool
    ensures { result ≡ is_outside numbering set.now told.now.uids }
{
    match numbering {
        Numbering::Sequence => !set_is_told(set, told.count()),
        Numbering::Uid => false,
    }
}

/// Returns whether all ends of a set are among so many sequence numbers.
pub(crate) fn set_is_told(set: &SeqSet, count: u32) -> bool
    ensures { result ≡ set_is_told count set.now }
{
    set.ranges()
        .iter()
        .all(|range| range_is_told(*range, count))
}

/// Returns whether both ends of a range are among so many sequence numbers.
fn range_is_told(range: SetRange, count: u32) -> bool
    ensures { result ≡ range_is_told count range }
{
    let first = range.first.number(count);
    let last = range.last.number(count);
    1 <= first && first <= count && 1 <= last && last <= count
}
