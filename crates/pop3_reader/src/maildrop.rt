//! The state of a session, and the maildrop that PASS takes.
//! Allocates.
ghost use Rattle.std.specs.Prelude.{◌≡◌, ◌+◌, ◌++◌, true, IfOk, OnOk, option_copied};
ghost use Rattle.arch_model.specs.Archives.{Archive, live};
ghost use Rattle.arch_model.specs.Listings.{row_in};
ghost use Rattle.shelf_doors.specs.Mailboxes.{mailbox_range};
ghost use Rattle.shelf_doors.specs.Numbers.{live_in};
ghost use Rattle.pop3_reader.specs.Maildrops.{wire_octets as wire_octets_of, size_of as size_in, sizes_within, maildrop_of, mail_at as mail_at_in, total_octets as total_octets_of};

use arch_base::{NoMemory, Sequence};
use arch_model::{Row, Shelf};
use shelf_doors::{MailboxRange, live_after, live_within};
use std::alloc::Global;

/// A message as a client knows it.
#[derive(Clone, Copy, Debug, PartialEq, Eq, Drop)]
pub struct MailSize {
    /// Its number.
    pub number: u32,
    /// The length of its wire form.
    pub octets: u64,
}

/// The messages of a mailbox as they were at PASS.
#[derive(Debug, Drop)]
pub struct Maildrop {
    /// When the archive was made, in seconds since 1970 UTC.
    pub born: u32,
    /// The messages, by number. The client calls the first one 1.
    pub mails: Sequence<MailSize>,
}

/// The state of a session.
#[derive(Debug, Drop)]
pub enum PopState {
    /// Before the login. USER accepted the mailbox with this index, or none.
    Before(Option<u64>),
    /// After the login, with the maildrop that PASS took.
    Entered(Maildrop),
}

/// Takes the maildrop of the mailbox with these numbers. Reads no text.
///
/// `NoMemory` if an allocation fails.
pub(crate) fn take_maildrop<S: Shelf>(
    alloc: Global,
    range: MailboxRange,
    shelf: &S,
) -> Result<Maildrop, NoMemory>
    requires { S.ready shelf.now ≡ true }
    ensures { (a : Archive) → S.holds shelf.now a → IfOk result (λ d. (d.born ≡ a.config.born)
        × (d.mails ≡ sizes_within a range.first range.last)) }
{
    let mut mails = Sequence::new(alloc);
    push_mails(range, shelf, &mut mails)?;
    Ok(Maildrop {
        born: shelf.config().born,
        mails,
    })
}

/// Appends the live messages with numbers in a range, in order.
fn push_mails<S: Shelf>(
    range: MailboxRange,
    shelf: &S,
    mails: &mut Sequence<MailSize>,
) -> Result<(), NoMemory>
    requires { S.ready shelf.now ≡ true }
    ensures { (a : Archive) → S.holds shelf.now a → OnOk result (mails.new
        ≡ mails.old ++ sizes_within a range.first range.last) }
{
    let mut next = live_within(range.first, range.last, shelf);
    while let Some(number) = next {
        match mails.push(mail_size(number, shelf)) {
            Ok(()) => next = live_after(number, range.last, shelf),
            Err(refused) => return Err(refused),
        }
    }
    Ok(())
}

/// Returns a live message as a client knows it.
fn mail_size<S: Shelf>(number: u32, shelf: &S) -> MailSize
    requires { S.ready shelf.now ≡ true }
    ensures { (a : Archive) → S.holds shelf.now a → result ≡ size_in a number }
{
    MailSize {
        number,
        octets: wire_octets(shelf.row(number)),
    }
}

/// Returns the length of the wire form of a row's text, or 0 without one.
fn wire_octets(row: Option<&Row>) -> u64
    ensures { result ≡ wire_octets_of (option_copied row.entry) }
{
    match row {
        Some(row) => row.wire,
        None => 0,
    }
}

impl Maildrop {
    ghost use Rattle.std.specs.Prelude.{◌≡◌, length, option_copied};

    /// Returns how many messages there are.
    pub(crate) fn count(&self) -> u64
        ensures { result ≡ length self.now.mails }
    {
        self.mails.as_slice().len() as u64
    }

    /// Returns the message that the client calls `k`, from 1 on, or `None` if there is none.
    pub(crate) fn mail(&self, k: u64) -> Option<MailSize>
        ensures { result ≡ mail_at_in self.now.mails k }
    {
        if k == 0 {
            return None;
        }
        self.mails.as_slice().get((k - 1) as usize).copied()
    }

    /// Returns the octets of all messages, or 2^64 - 1 if they are more.
    pub(crate) fn total_octets(&self) -> u64
        ensures { result ≡ total_octets_of self.now.mails }
    {
        let mails = self.mails.as_slice();
        let mut total: u64 = 0;
        for mail in mails {
            total = total.saturating_add(mail.octets);
        }
        total
    }
}
