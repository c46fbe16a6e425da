//! The line of FETCH for one message.
//! Reads the disk.
ghost use Rattle.std.specs.Prelude.{◌≡◌, ℕ, true, false, is_some, Ok, if◌then◌else◌};
ghost use Rattle.arch_model.specs.Archives.{Archive, live, text_of};
ghost use Rattle.arch_model.specs.Listings.{row_in};
ghost use Rattle.arch_model.specs.OverShelf.{ShelfKept};
ghost use Rattle.arch_model.specs.Shelves.{ReadCause, ReadsUpTo};
ghost use Rattle.line_door.specs.Acts.{at_sink};
ghost use Rattle.wire_replies.specs.Waits.{Waits};
ghost use Rattle.shelf_doors.specs.Refusals.{unread_line};
ghost use Rattle.shelf_doors.specs.Streams.{StreamsNext};
ghost use Rattle.imap_messages.specs.Picking.{told_message};
ghost use Rattle.imap_messages.specs.Tagged.{no_code};
ghost use Rattle.imap_messages.specs.Fetching.{asked_fetch, shown_items, message_line, reads_texts, line_with};
ghost use Rattle.imap_messages.specs.FetchActs.{GivesTextIf, MakesItems};

use crate::fetch::FetchCommand;
use crate::items::{items_of, need_text};
use crate::refusals::say_unread;
use arch_base::{Bytes, NoMemory};
use arch_model::{Shelf, TextRefusal};
use edge_io::{Sink, SinkFault};
use shelf_doors::StreamStop;
use std::alloc::Global;
use wire_replies::{Phrase, Waiting};

/// Appends the line of a live message to a reply that has begun or not, or says why it isn't made.
pub(crate) fn push_message<S: Shelf, O: Sink>(
    command: &FetchCommand<'_>,
    sequence: u32,
    uid: u32,
    begun: bool,
    alloc: Global,
    shelf: &mut S,
    reply: &mut Waiting,
    out: &mut O,
) -> Result<(), StreamStop>
    requires ready { S.ready shelf.old ≡ true }
    requires live { (a : Archive) → S.holds shelf.old a
        → is_some (text_of (live a.entries) uid) ≡ true }
    ensures line { (a : Archive) → S.holds shelf.old a
        → StreamsNext (unread_line (no_code command.now.tag.now)) (reads_texts (asked_fetch command.now))
        (message_line a (shown_items command.now.numbering command.now.items.now)
        (told_message sequence uid)) begun reply.old (at_sink O.Sink out.old (S.faults shelf.old))
        result reply.new (at_sink O.Sink out.new (S.faults shelf.new)) }
    ensures shelf { ShelfKept S.Shelf shelf.old shelf.new }
    ensures reads { ReadsUpTo (if reads_texts (asked_fetch command.now) then 1 else 0)
        (S.reads shelf.old) (S.reads shelf.new) }
    ensures spared { (a : Archive) → S.holds shelf.old a
        → reads_texts (asked_fetch command.now) ≡ false → S.faults shelf.new ≡ S.faults shelf.old }
    ensures sink { O.alike out.old out.new }
{
    match made_items(command, uid, alloc, shelf) {
        Ok(items) => StreamStop::after(push_line(sequence, items.as_slice(), reply, out)),
        Err(refusal) => {
            if begun {
                return Err(StreamStop::Short);
            }
            Err(StreamStop::Unread(say_unread(command.tag, refusal, out)))
        }
    }
}

/// Appends the line of a message with these items.
fn push_line<O: Sink>(
    sequence: u32,
    items: &[u8],
    reply: &mut Waiting,
    out: &mut O,
) -> Result<(), SinkFault>
    ensures said { Waits (line_with sequence items.now) reply.old (O.taken out.old) (O.faults out.old)
        reply.new (O.taken out.new) (O.faults out.new) result }
    ensures sink { O.alike out.old out.new }
{
    reply.push(
        &[
            Phrase::Words(b"* "),
            Phrase::Number(u64::from(sequence)),
            Phrase::Words(b" FETCH ("),
            Phrase::Words(items),
            Phrase::Words(b")\r\n"),
        ],
        out,
    )
}

/// Returns the items of a live message, or why they can't be made. The text is read if one of them
/// needs it.
fn made_items<S: Shelf>(
    command: &FetchCommand<'_>,
    uid: u32,
    alloc: Global,
    shelf: &mut S,
) -> Result<Bytes, TextRefusal>
    requires ready { S.ready shelf.old ≡ true }
    requires live { (a : Archive) → S.holds shelf.old a
        → is_some (text_of (live a.entries) uid) ≡ true }
    ensures items { (a : Archive) → S.holds shelf.old a → MakesItems (asked_fetch command.now)
        (text_of (live a.entries) uid) (row_in a.config.form (live a.entries) uid) result }
    ensures shelf { ShelfKept S.Shelf shelf.old shelf.new }
    ensures reads { ReadsUpTo (if reads_texts (asked_fetch command.now) then 1 else 0)
        (S.reads shelf.old) (S.reads shelf.new) }
    ensures cause { ReadCause (S.faults shelf.old) (S.faults shelf.new) result }
{
    match text_if(need_text(command.items), uid, alloc, shelf) {
        Ok(text) => row_items(command, text.as_slice(), uid, alloc, shelf),
        Err(refusal) => Err(refusal),
    }
}

/// Returns the items of a live message with a text, which may be any where none of them needs it.
fn row_items<S: Shelf>(
    command: &FetchCommand<'_>,
    text: &[u8],
    uid: u32,
    alloc: Global,
    shelf: &S,
) -> Result<Bytes, TextRefusal>
    requires ready { S.ready shelf.now ≡ true }
    ensures items { (a : Archive) → S.holds shelf.now a
        → GivesTextIf (reads_texts (asked_fetch command.now)) (text_of (live a.entries) uid) (Ok text.now)
        → MakesItems (asked_fetch command.now)
        (text_of (live a.entries) uid) (row_in a.config.form (live a.entries) uid) result }
    ensures cause { (n : ℕ) → ReadCause n n result }
{
    match shelf.row(uid) {
        None => Ok(Bytes::new(alloc)),
        Some(row) => match items_of(alloc, command.numbering, command.items, text, row) {
            Ok(made) => Ok(made),
            Err(NoMemory) => Err(TextRefusal::NoMemory),
        },
    }
}

/// Returns the text of a live message if it is needed, and else nothing.
pub(crate) fn text_if<S: Shelf>(
    needed: bool,
    uid: u32,
    alloc: Global,
    shelf: &mut S,
) -> Result<Bytes, TextRefusal>
    requires ready { S.ready shelf.old ≡ true }
    requires live { (a : Archive) → S.holds shelf.old a
        → is_some (text_of (live a.entries) uid) ≡ true }
    ensures text { (a : Archive) → S.holds shelf.old a
        → GivesTextIf needed (text_of (live a.entries) uid) result }
    ensures shelf { ShelfKept S.Shelf shelf.old shelf.new }
    ensures reads { ReadsUpTo (if needed then 1 else 0) (S.reads shelf.old) (S.reads shelf.new) }
    ensures cause { ReadCause (S.faults shelf.old) (S.faults shelf.new) result }
{
    let mut text = Bytes::new(alloc);
    if !needed {
        return Ok(text);
    }
    match shelf.text(uid, &mut text) {
        Ok(()) => Ok(text),
        Err(refusal) => Err(refusal),
    }
}
