//! What SEARCH says.
//! Reads the disk.
ghost use Rattle.std.specs.Prelude.{◌≡◌, ◌++◌, ℕ, List, [], Option, Some, true, is_ok, OnErr};
ghost use Rattle.std.specs.List.{flat_map};
ghost use Rattle.arch_model.specs.Archives.{Archive};
ghost use Rattle.arch_model.specs.Next.{continues};
ghost use Rattle.arch_model.specs.OverShelf.{ShelfKept};
ghost use Rattle.arch_model.specs.Shelves.{ReadsIn};
ghost use Rattle.edge_io.specs.Phrases.{SaysTo};
ghost use Rattle.line_door.specs.Acts.{Acts, held_if, at_sink};
ghost use Rattle.wire_replies.specs.Waits.{Waits};
ghost use Rattle.imap_messages.specs.Sparing.{SparedIn};
ghost use Rattle.imap_messages.specs.Seeking.{asked_search, search_said, search_texts, is_known_charset, charset_line, search_end, numbers_words, spaced_number};

use crate::found::{keys_are_told, numbers_of};
use crate::numbering::Numbering;
use crate::refusals::{say_bad, say_unread};
use arch_model::{Next, Shelf};
use edge_io::{Sink, SinkFault};
use imap_syntax::Key;
use known_uids::KnownUids;
use std::alloc::Global;
use wire_replies::{Phrase, Waiting, send};

/// A SEARCH or UID SEARCH, as it was read.
#[derive(Clone, Copy, Drop)]
pub struct SearchCommand<'a> {
    /// The tag of the command.
    pub tag: &'a [u8],
    /// Whether sequence numbers or UIDs are given.
    pub numbering: Numbering,
    /// The charset of the texts in the keys, if it is told.
    pub charset: Option<&'a [u8]>,
    /// The keys, which are all asked.
    pub keys: &'a [Key],
}

/// Says the numbers of the live messages that match all keys of a SEARCH, of those that a client was
/// told, and returns whether the session continues. It doesn't only where a write failed.
///
/// A sequence number in a key that wasn't told is refused as bad, and then a charset other than UTF-8
/// and US-ASCII. Keys that read no text are asked first, and a text is read only where these match.
/// The reply isn't streamed: where a text isn't read, or memory runs out, it says why after the tag.
pub fn say_search<S: Shelf, O: Sink>(
    command: &SearchCommand<'_>,
    told: &KnownUids,
    alloc: Global,
    shelf: &mut S,
    out: &mut O,
) -> Next
    requires { S.ready shelf.old ≡ true }
    ensures acts { (a : Archive) → S.holds shelf.old a
        → Acts (search_said a told.now (asked_search command.now))
        (at_sink O.Sink out.old (S.faults shelf.old)) (held_if (continues result) told.now) a
        (at_sink O.Sink out.new (S.faults shelf.new)) }
    ensures shelf { ShelfKept S.Shelf shelf.old shelf.new }
    ensures reads { ReadsIn S.holds (λ a. search_texts a told.now (asked_search command.now))
        shelf.old (S.reads shelf.old) (S.reads shelf.new) }
    ensures spared { SparedIn S.holds (λ a. search_texts a told.now (asked_search command.now))
        shelf.old (S.faults shelf.old) (S.faults shelf.new) }
    ensures sink { O.alike out.old out.new }
{
    Next::after(say_answer(command, told, alloc, shelf, out))
}

/// Says what a SEARCH finds, or why it isn't searched.
fn say_answer<S: Shelf, O: Sink>(
    command: &SearchCommand<'_>,
    told: &KnownUids,
    alloc: Global,
    shelf: &mut S,
    out: &mut O,
) -> Result<(), SinkFault>
    requires { S.ready shelf.old ≡ true }
    ensures acts { (a : Archive) → S.holds shelf.old a
        → Acts (search_said a told.now (asked_search command.now))
        (at_sink O.Sink out.old (S.faults shelf.old)) (held_if (is_ok result) told.now) a
        (at_sink O.Sink out.new (S.faults shelf.new)) }
    ensures shelf { ShelfKept S.Shelf shelf.old shelf.new }
    ensures reads { ReadsIn S.holds (λ a. search_texts a told.now (asked_search command.now))
        shelf.old (S.reads shelf.old) (S.reads shelf.new) }
    ensures spared { SparedIn S.holds (λ a. search_texts a told.now (asked_search command.now))
        shelf.old (S.faults shelf.old) (S.faults shelf.new) }
    ensures sink { O.alike out.old out.new }
{
    if !keys_are_told(command.keys, told.count()) {
        return say_bad(command.tag, out);
    }
    if !has_known_charset(command) {
        return say_charset(command.tag, out);
    }
    match numbers_of(command, told, alloc, shelf) {
        Ok(numbers) => say_numbers(command.tag, command.numbering, numbers.as_slice(), out),
        Err(refusal) => say_unread(command.tag, refusal, out),
    }
}

/// Returns whether texts are searched in a command's charset: in UTF-8 and US-ASCII, or where none is
/// told.
fn has_known_charset(command: &SearchCommand<'_>) -> bool
    ensures { result ≡ is_known_charset (asked_search command.now).charset }
{
    match command.charset {
        None => true,
        Some(name) => {
            name.eq_ignore_ascii_case(b"UTF-8") || name.eq_ignore_ascii_case(b"US-ASCII")
        }
    }
}

/// Writes that a charset isn't known.
fn say_charset<O: Sink>(tag: &[u8], out: &mut O) -> Result<(), SinkFault>
    ensures said { SaysTo O.Sink (charset_line tag.now) out.old out.new result }
    ensures sink { O.alike out.old out.new }
{
    send(
        &[
            Phrase::Words(tag),
            Phrase::Words(b" NO [BADCHARSET (UTF-8 US-ASCII)] charset\r\n"),
        ],
        out,
    )
}

/// Says these numbers, and the end of the reply.
fn say_numbers<O: Sink>(
    tag: &[u8],
    numbering: Numbering,
    numbers: &[u32],
    out: &mut O,
) -> Result<(), SinkFault>
    ensures said { SaysTo O.Sink (numbers_words tag.now numbering numbers.now)
        out.old out.new result }
    ensures sink { O.alike out.old out.new }
{
    let mut reply = Waiting::new();
    reply.push(&[Phrase::Words(b"* SEARCH")], out)?;
    push_numbers(numbers, &mut reply, out)?;
    reply.finish(
        &[
            Phrase::Words(b"\r\n"),
            Phrase::Words(tag),
            Phrase::Words(b" "),
            Phrase::Words(search_end(numbering)),
            Phrase::Words(b"\r\n"),
        ],
        out,
    )
}

/// Appends numbers, each after a space.
fn push_numbers<O: Sink>(numbers: &[u32], reply: &mut Waiting, out: &mut O) -> Result<(), SinkFault>
    ensures said { Waits (flat_map spaced_number numbers.now) reply.old (O.taken out.old)
        (O.faults out.old) reply.new (O.taken out.new) (O.faults out.new) result }
    ensures empty { OnErr result (reply.new ≡ []) }
    ensures sink { O.alike out.old out.new }
{
    for number in numbers {
        match push_number(*number, reply, out) {
            Ok(()) => {}
            Err(fault) => return Err(fault),
        }
    }
    Ok(())
}

/// Appends a number after a space.
fn push_number<O: Sink>(number: u32, reply: &mut Waiting, out: &mut O) -> Result<(), SinkFault>
    ensures said { Waits (spaced_number number) reply.old (O.taken out.old) (O.faults out.old)
        reply.new (O.taken out.new) (O.faults out.new) result }
    ensures empty { OnErr result (reply.new ≡ []) }
    ensures sink { O.alike out.old out.new }
{
    reply.push(
        &[
            Phrase::Words(b" "),
            Phrase::Number(u64::from(number)),
            Phrase::Words(b""),
        ],
        out,
    )
}

/// Returns the words after the tag.
fn search_end(numbering: Numbering) -> &'static [u8]
    ensures { result.now ≡ search_end numbering }
{
    match numbering {
        Numbering::Sequence => b"OK SEARCH done",
        Numbering::Uid => b"OK UID SEARCH done",
    }
}
