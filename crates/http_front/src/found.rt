//! Finds what stands under the target of a request.
//! Reads the disk.
ghost use Rattle.std.specs.Prelude.{◌≡◌, IfOk, Some, true, take};
ghost use Rattle.arch_model.specs.OverShelf.{ShelfKept};
ghost use Rattle.arch_model.specs.Archives.{Archive, live};
ghost use Rattle.arch_model.specs.Listings.{listing};
ghost use Rattle.arch_model.specs.Shelves.{ReadCause, ReadsIn};
ghost use Rattle.http_heads.specs.Addresses.{shown};
ghost use Rattle.http_front.specs.Views.{number_named};
ghost use Rattle.http_front.specs.Asking.{named_found, target_found, feed_found, found_of, feed_len, reads_texts, target_reads, texts_for, target_texts};
ghost use Rattle.http_front.specs.Counting.{texts_said, target_said};
ghost use Rattle.http_front.specs.Sessions.{FindsIn, LeavesUnreadIn, form_found, form_reads, form_texts, form_said};

use crate::feed::feed_at;
use crate::listing::listing_at;
use crate::message::{message_at, text_at};
use crate::mirrors::{blob_at, entries_at};
use crate::thread::{newest_of, oldest_of, thread_at};
use arch_base::{Bytes, MessageNumbers, NoMemory};
use arch_model::{Shelf, TextRefusal};
use http_heads::{Address, Body, address_of, segments, split_target};
use std::alloc::Global;

/// What stands under a target.
#[derive(Drop)]
pub(crate) enum FoundBody {
    /// A body, all of which is at hand.
    Whole(Body, Bytes),
    /// The mailbox file of all mails.
    EveryMail,
    /// The mailbox file of these numbers.
    Mails(MessageNumbers),
    /// Nothing.
    Nothing,
    /// That the text to search for is no query.
    BadRange,
}

/// The form in which a mail is asked for.
#[derive(Clone, Copy, Debug, PartialEq, Eq, Drop)]
pub(crate) enum Form {
    /// Its page.
    Message,
    /// Its text.
    Text,
    /// The page of its thread.
    Thread,
    /// The feed of its thread.
    Feed,
    /// The mailbox file of its thread.
    Mailbox,
}

/// The number of mails in a feed.
const FEED_LEN: usize = 25;

/// Finds what stands under a target.
///
/// `NoMemory` if an allocation fails. A mailbox file is only named here, so its texts are not read
/// yet.
pub(crate) fn find_target<S: Shelf>(
    alloc: Global,
    target: &[u8],
    shelf: &mut S,
) -> Result<FoundBody, TextRefusal>
    requires { S.ready shelf.old ≡ true }
    ensures found { FindsIn S.holds (λ a. target_found a target.now)
        (λ a. target_reads a target.now) shelf.old result }
    ensures shelf { ShelfKept S.Shelf shelf.old shelf.new }
    ensures cause { ReadCause (S.faults shelf.old) (S.faults shelf.new) result }
    ensures reads { ReadsIn S.holds (λ a. target_texts a target.now) shelf.old (S.reads shelf.old)
        (S.reads shelf.new) }
    ensures left { LeavesUnreadIn S.holds (λ a. target_said a target.now) shelf.old result }
{
    let (path, query) = split_target(target);
    match segments(alloc, path) {
        Ok(parts) => match address_of(shelf.config().name.as_slice(), parts.as_slice()) {
            Some(address) => find_address(alloc, address, query, shelf),
            None => Ok(FoundBody::Nothing),
        },
        Err(NoMemory) => Err(TextRefusal::NoMemory),
    }
}

/// Finds what an address names, with the parameters of its target.
fn find_address<S: Shelf>(
    alloc: Global,
    address: Address<'_>,
    query: &[u8],
    shelf: &mut S,
) -> Result<FoundBody, TextRefusal>
    requires { S.ready shelf.old ≡ true }
    ensures found { FindsIn S.holds (λ a. named_found a query.now (shown address.entry))
        (λ a. reads_texts (shown address.entry)) shelf.old result }
    ensures shelf { ShelfKept S.Shelf shelf.old shelf.new }
    ensures cause { ReadCause (S.faults shelf.old) (S.faults shelf.new) result }
    ensures reads { ReadsIn S.holds (λ a. texts_for (shown address.entry)) shelf.old (S.reads shelf.old)
        (S.reads shelf.new) }
    ensures left { LeavesUnreadIn S.holds (λ a. texts_said a (shown address.entry)) shelf.old result }
{
    match address {
        Address::Listing => match listing_at(alloc, query, shelf) {
            Ok(held) => Ok(held),
            Err(NoMemory) => Err(TextRefusal::NoMemory),
        },
        Address::Feed => find_newest(alloc, shelf),
        Address::Mailbox => Ok(FoundBody::EveryMail),
        Address::Message(id) => find_mail(alloc, id, Form::Message, shelf),
        Address::Text(id) => find_mail(alloc, id, Form::Text, shelf),
        Address::Thread(id) => find_mail(alloc, id, Form::Thread, shelf),
        Address::ThreadFeed(id) => find_mail(alloc, id, Form::Feed, shelf),
        Address::ThreadMailbox(id) => find_mail(alloc, id, Form::Mailbox, shelf),
        Address::Entries => match entries_at(alloc, shelf) {
            Ok(held) => Ok(held),
            Err(NoMemory) => Err(TextRefusal::NoMemory),
        },
        Address::Blob(digits) => blob_at(alloc, digits, shelf),
    }
}

/// Makes the feed of the newest mails.
fn find_newest<S: Shelf>(alloc: Global, shelf: &mut S) -> Result<FoundBody, TextRefusal>
    requires { S.ready shelf.old ≡ true }
    ensures found { FindsIn S.holds (λ a. feed_found a (take feed_len (listing (live a.entries))))
        (λ a. true) shelf.old result }
    ensures shelf { ShelfKept S.Shelf shelf.old shelf.new }
    ensures cause { ReadCause (S.faults shelf.old) (S.faults shelf.new) result }
    ensures reads { ReadsIn S.holds (λ a. feed_len) shelf.old (S.reads shelf.old)
        (S.reads shelf.new) }
    ensures left { LeavesUnreadIn S.holds (λ a. 0) shelf.old result }
{
    match shelf.order_page(0, FEED_LEN as u64) {
        Ok(numbers) => feed_at(alloc, numbers.as_slice(), shelf),
        Err(NoMemory) => Err(TextRefusal::NoMemory),
    }
}

/// Finds the mail with an id, which has no brackets, in a form.
fn find_mail<S: Shelf>(
    alloc: Global,
    id: &[u8],
    form: Form,
    shelf: &mut S,
) -> Result<FoundBody, TextRefusal>
    requires { S.ready shelf.old ≡ true }
    ensures found { FindsIn S.holds
        (λ a. found_of (number_named a.entries id.now) (form_found a form))
        (λ a. form_reads form) shelf.old result }
    ensures shelf { ShelfKept S.Shelf shelf.old shelf.new }
    ensures cause { ReadCause (S.faults shelf.old) (S.faults shelf.new) result }
    ensures reads { ReadsIn S.holds (λ a. form_texts form) shelf.old (S.reads shelf.old)
        (S.reads shelf.new) }
    ensures left { LeavesUnreadIn S.holds
        (λ a. form_said a form (number_named a.entries id.now)) shelf.old result }
{
    match number_of(alloc, id, shelf) {
        Ok(Some(n)) => find_number(alloc, n, form, shelf),
        Ok(None) => Ok(FoundBody::Nothing),
        Err(NoMemory) => Err(TextRefusal::NoMemory),
    }
}

/// Returns the live number of an id without its brackets.
fn number_of<S: Shelf>(alloc: Global, id: &[u8], shelf: &S) -> Result<Option<u32>, NoMemory>
    requires { S.ready shelf.now ≡ true }
    ensures { (a : Archive) → S.holds shelf.now a
        → IfOk result (λ found. found ≡ number_named a.entries id.now) }
{
    let mut bracketed = Bytes::new(alloc);
    bracketed.push_slice(b"<")?;
    bracketed.push_slice(id)?;
    bracketed.push_slice(b">")?;
    Ok(shelf.by_id(bracketed.as_slice()))
}

/// Finds the mail with a number in a form.
fn find_number<S: Shelf>(
    alloc: Global,
    n: u32,
    form: Form,
    shelf: &mut S,
) -> Result<FoundBody, TextRefusal>
    requires { S.ready shelf.old ≡ true }
    ensures found { FindsIn S.holds (λ a. form_found a form n) (λ a. form_reads form)
        shelf.old result }
    ensures shelf { ShelfKept S.Shelf shelf.old shelf.new }
    ensures cause { ReadCause (S.faults shelf.old) (S.faults shelf.new) result }
    ensures reads { ReadsIn S.holds (λ a. form_texts form) shelf.old (S.reads shelf.old)
        (S.reads shelf.new) }
    ensures left { LeavesUnreadIn S.holds (λ a. form_said a form (Some n)) shelf.old result }
{
    match form {
        Form::Message => message_at(alloc, n, shelf),
        Form::Text => text_at(alloc, n, shelf),
        Form::Thread => match thread_at(alloc, n, shelf) {
            Ok(held) => Ok(held),
            Err(NoMemory) => Err(TextRefusal::NoMemory),
        },
        Form::Feed => match newest_of(alloc, n, FEED_LEN, shelf) {
            Ok(numbers) => feed_at(alloc, numbers.as_slice(), shelf),
            Err(NoMemory) => Err(TextRefusal::NoMemory),
        },
        Form::Mailbox => match oldest_of(alloc, n, shelf) {
            Ok(numbers) => Ok(FoundBody::Mails(numbers)),
            Err(NoMemory) => Err(TextRefusal::NoMemory),
        },
    }
}
