//! The mailbox with a name, and what is told of it.
//! Pure.
ghost use Rattle.std.specs.Prelude.{◌≡◌, ◌≤◌, ◌<◌, ◌+◌, true, None, Some, MatchOption, MatchBool, IfSome};
ghost use Rattle.arch_model.specs.Archives.{Archive};
ghost use Rattle.arch_model.specs.Validity.{IsArchive};
ghost use Rattle.shelf_doors.specs.Mailboxes.{mailbox_named as mailbox_named_in};
ghost use Rattle.shelf_doors.specs.declared.mailbox.MailboxRange.{MailboxRange as MailboxRangeIn};
ghost use Rattle.imap_states.specs.Boxes.{IsMailbox, IsRange, mailbox_of, box_count as box_count_in, uid_next as uid_next_in};

use arch_model::Shelf;
use shelf_doors::{MailboxRange, mailbox_named, mailbox_range};

/// A mailbox: its index, and the numbers that it may have.
#[derive(Clone, Copy, Drop)]
pub(crate) struct Mailbox {
    /// Its index among the mailboxes.
    pub(crate) index: u64,
    /// The numbers that it may have.
    pub(crate) range: MailboxRange,
}

/// Returns the mailbox with a name, or `None` if there is none.
pub(crate) fn find_mailbox<S: Shelf>(name: &[u8], shelf: &S) -> Option<Mailbox>
    requires { S.ready shelf.now ≡ true }
    ensures found { (a : Archive) → S.holds shelf.now a → IsArchive a
        → MatchOption result (mailbox_named_in a name.now ≡ None) (λ m. IsMailbox a name.now m) }
    ensures bounds { IfSome result (λ m. (1 ≤ m.range.first) × (m.range.first ≤ m.range.last + 1)
        × (m.range.last < 4294967295)) }
{
    let index = mailbox_named(name, shelf)?;
    checked(index, mailbox_range(index, shelf))
}

/// Returns the mailbox with an index and these numbers, if a mailbox can have them.
fn checked(index: u64, range: Option<MailboxRange>) -> Option<Mailbox>
    ensures found { (right : MailboxRangeIn) → range ≡ Some right → IsRange right
        → result ≡ Some (mailbox_of index right) }
    ensures bounds { IfSome result (λ m. (1 ≤ m.range.first) × (m.range.first ≤ m.range.last + 1)
        × (m.range.last < 4294967295)) }
{
    match range {
        None => None,
        Some(range) => {
            if is_no_range(range) {
                None
            } else {
                Some(Mailbox { index, range })
            }
        }
    }
}

/// Returns whether a mailbox can't have these numbers.
fn is_no_range(range: MailboxRange) -> bool
    ensures { MatchBool result
        ((1 ≤ range.first) → (range.first ≤ range.last + 1) → (range.last < 4294967295) → ⊥)
        ((1 ≤ range.first) × (range.first ≤ range.last + 1) × (range.last < 4294967295)) }
{
    range.first == 0 || range.last == u32::MAX || range.first > range.last + 1
}

/// Returns how many live messages a mailbox has.
pub(crate) fn box_count<S: Shelf>(range: MailboxRange, shelf: &S) -> u64
    requires ready { S.ready shelf.now ≡ true }
    ensures { (a : Archive) → S.holds shelf.now a → IsArchive a → range.first ≤ range.last + 1
        → result ≡ box_count_in a range }
{
    shelf.live_count(range.first, range.last)
}

/// Returns the next UID of a mailbox.
pub(crate) fn uid_next<S: Shelf>(range: MailboxRange, shelf: &S) -> u64
    requires { S.ready shelf.now ≡ true }
    ensures { (a : Archive) → S.holds shelf.now a → result ≡ uid_next_in a range }
{
    let next = u64::from(shelf.next_number().max(range.first));
    (u64::from(range.last) + 1).min(next)
}
