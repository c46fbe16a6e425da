//! The pieces of a feed: what is before its entries, an entry, and what is after them.
//! Allocates.
ghost use Rattle.std.specs.Prelude.{◌≡◌, ◌++◌, length, take, OnOk, OnErr};
ghost use Rattle.arch_base.specs.Moments.{IsMoment};
ghost use Rattle.web_text.specs.Addresses.{address_of};
ghost use Rattle.web_text.specs.Days.{moment_text};
ghost use Rattle.web_text.specs.Escapes.{escaped, title_of};
ghost use Rattle.atom_mbox.specs.Feeds.{feed_start, feed_end, entry_of, entry_author, entry_place, entry_body};

use arch_base::{Bytes, Name, NoMemory};
use mail_forms::Row;
use std::alloc::Global;
use web_text::{push_address, push_escaped, push_moment, push_title};

/// Appends what is before the entries of a feed: its title and its id by the name of the archive,
/// and when it was updated, in seconds since 1970 UTC.
///
/// The only error is `NoMemory`. It may leave a part appended, after what stood there.
#[tactic(auto, unfolding(crate::specs::Feeds::feed_start))]
pub fn push_feed_start(name: &Name, updated: u64, into: &mut Bytes) -> Result<(), NoMemory>
    requires { IsMoment updated }
    ensures ok { OnOk result (into.new ≡ into.old ++ feed_start name.now updated) }
    ensures kept { take (length into.old) into.new ≡ into.old }
{
    into.push_slice(b"<?xml version=\"1.0\" encoding=\"utf-8\"?>\n")?;
    into.push_slice(b"<feed xmlns=\"http://www.w3.org/2005/Atom\">\n<title>")?;
    into.push_slice(name.as_slice())?;
    into.push_slice(b"</title>\n<id>mid:")?;
    into.push_slice(name.as_slice())?;
    into.push_slice(b"@piv2.invalid</id>\n<updated>")?;
    push_moment(updated, into)?;
    into.push_slice(b"</updated>\n")
}

/// Appends what is after the entries of a feed.
///
/// `NoMemory` leaves the bytes unchanged.
#[tactic(auto, unfolding(crate::specs::Feeds::feed_end))]
pub fn push_feed_end(into: &mut Bytes) -> Result<(), NoMemory>
    ensures ok { OnOk result (into.new ≡ into.old ++ feed_end) }
    ensures err { OnErr result (into.new ≡ into.old) }
{
    into.push_slice(b"</feed>\n")
}

/// Appends the entry of a mail, by its row and the text of its body, in the feed of the archive
/// with a name.
///
/// The text is UTF-8, and bytes that aren't become U+FFFD. The only error is `NoMemory`. It may
/// leave a part of the entry appended, after what stood there.
pub fn push_feed_entry(
    alloc: Global,
    name: &Name,
    row: &Row,
    body: &[u8],
    into: &mut Bytes,
) -> Result<(), NoMemory>
    requires { IsMoment row.now.arrived }
    ensures ok { OnOk result (into.new ≡ into.old ++ entry_of name.now row.now body.now) }
    ensures kept { take (length into.old) into.new ≡ into.old }
{
    push_author(alloc, row, into)?;
    push_place(name, row, into)?;
    push_body(alloc, body, into)
}

/// Appends the start of an entry: the author and the title.
#[tactic(auto, unfolding(crate::specs::Feeds::entry_author))]
fn push_author(alloc: Global, row: &Row, into: &mut Bytes) -> Result<(), NoMemory>
    ensures ok { OnOk result (into.new ≡ into.old ++ entry_author row.now) }
    ensures kept { take (length into.old) into.new ≡ into.old }
{
    into.push_slice(b"<entry><author><name>")?;
    push_escaped(alloc, row.from.as_slice(), into)?;
    into.push_slice(b"</name></author><title>")?;
    push_title(alloc, row.subject.as_slice(), into)?;
    into.push_slice(b"</title>")
}

/// Appends the middle of an entry: its id, when it arrived, and where its page is.
#[tactic(auto, unfolding(crate::specs::Feeds::entry_place))]
fn push_place(name: &Name, row: &Row, into: &mut Bytes) -> Result<(), NoMemory>
    requires { IsMoment row.now.arrived }
    ensures ok { OnOk result (into.new ≡ into.old ++ entry_place name.now row.now) }
    ensures kept { take (length into.old) into.new ≡ into.old }
{
    into.push_slice(b"<id>mid:")?;
    push_address(row.id.as_slice(), into)?;
    into.push_slice(b"</id><updated>")?;
    push_moment(row.arrived, into)?;
    into.push_slice(b"</updated><link href=\"/")?;
    into.push_slice(name.as_slice())?;
    into.push_slice(b"/")?;
    push_address(row.id.as_slice(), into)?;
    into.push_slice(b"/\"/>")
}

/// Appends the end of an entry: the text of the body.
#[tactic(auto, unfolding(crate::specs::Feeds::entry_body))]
fn push_body(alloc: Global, body: &[u8], into: &mut Bytes) -> Result<(), NoMemory>
    ensures ok { OnOk result (into.new ≡ into.old ++ entry_body body.now) }
    ensures kept { take (length into.old) into.new ≡ into.old }
{
    into.push_slice(b"<content type=\"text\">")?;
    push_escaped(alloc, body, into)?;
    into.push_slice(b"</content></entry>\n")
}
