//! The mailboxes of an archive, by their names and by their indexes.
//! Pure.
ghost use Rattle.std.specs.Prelude.{◌≡◌, ◌+◌, ◌*◌, ◌-◌, ◌/◌, ◌≤◌, min, true, Some, option_copied};
ghost use Rattle.arch_model.specs.Archives.{Archive};
ghost use Rattle.shelf_doors.specs.Mailboxes.{behind_prefix, decimal_after_dot, mailbox_at, mailbox_named as mailbox_named_in, range_if};
ghost use Rattle.shelf_doors.specs.Numbers.{last_number};

use arch_base::read_decimal;
use arch_model::Shelf;

/// The numbers that a mailbox may have: from `first` to `last`.
#[derive(Clone, Copy, Debug, PartialEq, Eq, Drop)]
pub struct MailboxRange {
    /// The first of them.
    pub first: u32,
    /// The last of them.
    pub last: u32,
}

/// Returns the index of the mailbox with a name, or `None` if there is none.
///
/// The name is that of the archive, a dot and the index as a decimal. The indexes go from 0 to the
/// quotient of the next number less 2 by the count of numbers in a mailbox.
#[tactic(auto, unfolding(crate::specs::Mailboxes::mailbox_named))]
pub fn mailbox_named<S: Shelf>(name: &[u8], shelf: &S) -> Option<u64>
    requires { S.ready shelf.now ≡ true }
    ensures { (a : Archive) → S.holds shelf.now a → result ≡ mailbox_named_in a name.now }
{
    let index = index_in(name, shelf.config().name.as_slice())?;
    if index > last_index(shelf.next_number(), shelf.config().slice) {
        return None;
    }
    Some(index)
}

/// Returns the numbers of the mailbox with an index, or `None` if there is no such mailbox.
pub fn mailbox_range<S: Shelf>(index: u64, shelf: &S) -> Option<MailboxRange>
    requires { S.ready shelf.now ≡ true }
    ensures { (a : Archive) → S.holds shelf.now a → result ≡ range_if a (mailbox_at a (Some index)) }
{
    let next = shelf.next_number();
    let slice = shelf.config().slice;
    if index > last_index(next, slice) {
        return None;
    }
    Some(range_at(index, next, slice))
}

/// Returns the index in a mailbox's name, or `None` if the name is not formed so.
fn index_in(name: &[u8], archive: &[u8]) -> Option<u64>
    ensures { result ≡ decimal_after_dot (behind_prefix archive.now name.now) }
{
    match after_prefix(name, archive)? {
        [b'.', digits @ ..] => read_decimal(digits),
        _ => None,
    }
}

/// Returns what follows a prefix, or `None` if the bytes don't start with it.
fn after_prefix<'a>(bytes: &'a [u8], prefix: &[u8]) -> Option<&'a [u8]>
    ensures { option_copied result ≡ behind_prefix prefix.now bytes.now }
{
    bytes.strip_prefix(prefix)
}

/// Returns the index of the last mailbox.
fn last_index(next: u32, slice: u32) -> u64
    ensures { result ≡ (next - 2) / slice }
{
    if slice == 0 {
        return 0;
    }
    u64::from(next.saturating_sub(2) / slice)
}

/// Returns the numbers of the mailbox with an index, which is at most that of the last one.
fn range_at(index: u64, next: u32, slice: u32) -> MailboxRange
    requires { index ≤ (next - 2) / slice }
    ensures first { result.first ≡ index * slice + 1 }
    ensures last { result.last ≡ min ((index + 1) * slice) last_number }
{
    let before = index * u64::from(slice);
    let last = before + u64::from(slice);
    MailboxRange {
        first: before as u32 + 1,
        last: last.min(u64::from(u32::MAX)) as u32,
    }
}
