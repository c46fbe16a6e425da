//! What a path names.
//! Allocates.
ghost use Rattle.std.specs.Prelude.{◌≡◌, IfOk, map, option_map};
ghost use Rattle.percent_encoding.specs.Percent.{percent_decode as decoded};
ghost use Rattle.http_heads.specs.Addresses.{segments_of, shown, is_ours as ours, one_segment as one, thread_form, two_segments as two, three_segments as three, named_by};

use crate::pieces::Pieces;
use arch_base::{Bytes, NoMemory, Texts};
use percent_encoding::percent_decode;
use std::alloc::Global;

/// What a path names. The bytes are those of a message's id without its brackets, or the digits of a
/// blob's id.
#[derive(Clone, Copy, Drop)]
pub enum Address<'a> {
    /// The page of the listing.
    Listing,
    /// The text of a message.
    Text(&'a [u8]),
    /// The page of a thread.
    Thread(&'a [u8]),
    /// The page of a message.
    Message(&'a [u8]),
    /// The feed of the newest messages.
    Feed,
    /// The mailbox file of all messages.
    Mailbox,
    /// The feed of a thread.
    ThreadFeed(&'a [u8]),
    /// The mailbox file of a thread.
    ThreadMailbox(&'a [u8]),
    /// The list of all entries, which a mirror reads.
    Entries,
    /// The text of a blob.
    Blob(&'a [u8]),
}

/// Returns the segments of a path: its pieces between slashes, each with its escapes decoded.
///
/// `NoMemory` if an allocation fails.
pub fn segments(alloc: Global, path: &[u8]) -> Result<Texts, NoMemory>
    ensures { IfOk result (λ made. made ≡ segments_of path.now) }
{
    let mut made = Texts::new(alloc);
    for piece in Pieces::of(path, b'/') {
        made.push(decoded_piece(alloc, piece)?)?;
    }
    Ok(made)
}

/// Returns bytes with their escapes decoded. What is no escape stays.
fn decoded_piece(alloc: Global, piece: &[u8]) -> Result<Bytes, NoMemory>
    ensures { IfOk result (λ made. made ≡ decoded piece.now) }
{
    let mut made = Vec::new(alloc);
    percent_decode(piece).append_to(&mut made)?;
    Ok(Bytes::from_vec(made))
}

/// Returns what a path of an archive with this name names, by its segments, or `None` if it names
/// nothing.
pub fn address_of<'a>(name: &[u8], segments: &'a [Bytes]) -> Option<Address<'a>>
    ensures { option_map shown result ≡ named_by name.now segments.now }
{
    match segments {
        [first, second, a] if is_ours(name, first, second) => one_segment(a.as_slice()),
        [first, second, a, b] if is_ours(name, first, second) => {
            two_segments(a.as_slice(), b.as_slice())
        }
        [first, second, a, b, c] if is_ours(name, first, second) => {
            three_segments(a.as_slice(), b.as_slice(), c.as_slice())
        }
        _ => None,
    }
}

/// Returns whether a path starts with a slash and the name of the archive, by its first segments.
fn is_ours(name: &[u8], first: &Bytes, second: &Bytes) -> bool
    ensures { result ≡ ours name.now first.now second.now }
{
    first.as_slice().is_empty() && second.as_slice() == name
}

/// Returns what a path with one segment after the name names.
fn one_segment(a: &[u8]) -> Option<Address<'_>>
    ensures { option_map shown result ≡ one a.now }
{
    if a.is_empty() {
        Some(Address::Listing)
    } else if a == b"new.atom".as_slice() {
        Some(Address::Feed)
    } else if a == b"all.mbox".as_slice() {
        Some(Address::Mailbox)
    } else {
        Some(Address::Message(a))
    }
}

/// Returns what a path with two segments after the name names.
fn two_segments<'a>(a: &'a [u8], b: &[u8]) -> Option<Address<'a>>
    ensures { option_map shown result ≡ two a.now b.now }
{
    if a == b"_".as_slice() && b == b"list".as_slice() {
        Some(Address::Entries)
    } else if b.is_empty() {
        Some(Address::Message(a))
    } else if b == b"raw".as_slice() {
        Some(Address::Text(a))
    } else {
        of_thread(a, b)
    }
}

/// Returns what of a thread a path with two segments after the name names, by the second.
fn of_thread<'a>(a: &'a [u8], b: &[u8]) -> Option<Address<'a>>
    ensures { option_map shown result ≡ thread_form a.now b.now }
{
    if b == b"t.atom".as_slice() {
        Some(Address::ThreadFeed(a))
    } else if b == b"t.mbox".as_slice() {
        Some(Address::ThreadMailbox(a))
    } else {
        None
    }
}

/// Returns what a path with three segments after the name names.
fn three_segments<'a>(a: &'a [u8], b: &[u8], c: &'a [u8]) -> Option<Address<'a>>
    ensures { option_map shown result ≡ three a.now b.now c.now }
{
    if a == b"_".as_slice() && b == b"blob".as_slice() {
        Some(Address::Blob(c))
    } else if b == b"t".as_slice() && c.is_empty() {
        Some(Address::Thread(a))
    } else {
        None
    }
}
