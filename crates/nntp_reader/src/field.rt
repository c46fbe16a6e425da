//! What HDR says of a field of texts.
//! Reads the disk.
ghost use Rattle.std.specs.Prelude.{◌≡◌, ◌++◌, ℕ, List, length, true, false, not, is_some, Ok, if◌then◌else◌};
ghost use Rattle.line_door.specs.Acts.{Acts, held_if, at_sink};
ghost use Rattle.line_door.specs.Readers.{as_said, line_reader};
ghost use Rattle.arch_model.specs.OverShelf.{ShelfKept};
ghost use Rattle.arch_model.specs.Archives.{Archive, live, text_of};
ghost use Rattle.arch_model.specs.Next.{continues};
ghost use Rattle.arch_model.specs.Shelves.{ReadCause, ReadsOnce, ReadsIn};
ghost use Rattle.edge_io.specs.Phrases.{Says, SaysTo};
ghost use Rattle.wire_replies.specs.Blocks.{block_end};
ghost use Rattle.wire_replies.specs.Waits.{Waits};
ghost use Rattle.nntp_reader.specs.Choices.{range_start as range_start_of};
ghost use Rattle.nntp_reader.specs.Commands as commands;
ghost use Rattle.nntp_reader.specs.Counting.{field_texts};
ghost use Rattle.nntp_reader.specs.Facts.{header_line};
ghost use Rattle.nntp_reader.specs.Headers.{header_start, field_line};
ghost use Rattle.nntp_reader.specs.Notices.{refused_code};
ghost use Rattle.nntp_reader.specs.Replies.{in_way, field_reads};
ghost use Rattle.nntp_reader.specs.Sessions.{articles_of, start_if as start_if_of, ReadsValue, SaysOrNot};
ghost use Rattle.shelf_doors.specs.Numbers.{live_in};
ghost use Rattle.shelf_doors.specs.Refusals.{unread_line};
ghost use Rattle.shelf_doors.specs.Streams.{StreamsNext};

use crate::choice::{Chosen, choose, range_start};
use crate::group::Group;
use crate::notice::say_notice;
use crate::order::Span;
use crate::refusals::REFUSED;
use arch_base::{Bytes, NoMemory};
use arch_model::{Next, Shelf, TextRefusal};
use edge_io::{Sink, SinkFault};
use mail_forms::flat_first;
use nntp_words::Range;
use shelf_doors::{StreamStop, live_after, live_within, say_unread};
use std::alloc::Global;
use wire_replies::{Phrase, Waiting, send};

/// Says a field of the named articles, or why there are none, and returns whether the session
/// continues.
///
/// Over a range the reply is streamed: if a text isn't read after others were, it stops and the
/// session is closed. If the first one isn't read, the reply says why, and the session continues.
pub(crate) fn say_field<S: Shelf, O: Sink>(
    name: &[u8],
    articles: Span<'_>,
    alloc: Global,
    group: Group,
    shelf: &mut S,
    out: &mut O,
) -> Next
    requires { S.ready shelf.old ≡ true }
    ensures acts { (moment : ℕ) (a : Archive) (rest : List ℕ) → S.holds shelf.old a
        → Acts (λ way. as_said rest (in_way moment a group
        (commands.Headers (commands.Field name.now) (articles_of articles.entry)) way))
        (at_sink O.Sink out.old (S.faults shelf.old))
        (held_if (continues result) (line_reader group rest)) a
        (at_sink O.Sink out.new (S.faults shelf.new)) }
    ensures unused { (a : Archive) → S.holds shelf.old a
        → field_reads a group (articles_of articles.entry) ≡ false
        → S.faults shelf.new ≡ S.faults shelf.old }
    ensures shelf { ShelfKept S.Shelf shelf.old shelf.new }
    ensures reads { ReadsIn S.holds (λ a. field_texts a (articles_of articles.entry)) shelf.old
        (S.reads shelf.old) (S.reads shelf.new) }
    ensures sink { O.alike out.old out.new }
{
    match articles {
        Span::Single(article) => match choose(group, article, shelf) {
            Ok(chosen) => Next::after(say_single(name, chosen, alloc, group, shelf, out)),
            Err(refusal) => Next::after(say_notice(refusal, out)),
        },
        Span::Within(range) => match range_start(group, range, shelf) {
            Ok(_) => say_range(name, range, alloc, group, shelf, out),
            Err(refusal) => Next::after(say_notice(refusal, out)),
        },
    }
}

/// Says a field of a live message, or why its text was not read.
fn say_single<S: Shelf, O: Sink>(
    name: &[u8],
    chosen: Chosen,
    alloc: Global,
    group: Group,
    shelf: &mut S,
    out: &mut O,
) -> Result<(), SinkFault>
    requires ready { S.ready shelf.old ≡ true }
    requires live { (a : Archive) → S.holds shelf.old a
        → is_some (text_of (live a.entries) chosen.number) ≡ true }
    ensures said { (a : Archive) → S.holds shelf.old a → SaysOrNot (header_start
        ++ (field_line name.now chosen.shown (text_of (live a.entries) chosen.number) ++ block_end))
        group group (at_sink O.Sink out.old (S.faults shelf.old)) result group
        (at_sink O.Sink out.new (S.faults shelf.new)) }
    ensures shelf { ShelfKept S.Shelf shelf.old shelf.new }
    ensures reads { ReadsOnce (S.reads shelf.old) (S.reads shelf.new) }
    ensures sink { O.alike out.old out.new }
{
    match read_value(name, chosen.number, alloc, shelf) {
        Ok(value) => say_block(chosen.shown, value.as_slice(), out),
        Err(refusal) => say_unread(REFUSED, refusal, out),
    }
}

/// Says one value as a block.
fn say_block<O: Sink>(shown: u32, value: &[u8], out: &mut O) -> Result<(), SinkFault>
    ensures said { SaysTo O.Sink (header_start ++ (header_line shown value.now ++ block_end))
        out.old out.new result }
    ensures sink { O.alike out.old out.new }
{
    send(
        &[
            Phrase::Words(b"225 headers follow\r\n"),
            Phrase::Number(u64::from(shown)),
            Phrase::Words(b" "),
            Phrase::Words(value),
            Phrase::Words(b"\r\n.\r\n"),
        ],
        out,
    )
}

/// Says a field of the live messages in a range of which one is live, and returns whether the
/// session continues.
fn say_range<S: Shelf, O: Sink>(
    name: &[u8],
    range: Range,
    alloc: Global,
    group: Group,
    shelf: &mut S,
    out: &mut O,
) -> Next
    requires ready { S.ready shelf.old ≡ true }
    ensures acts { (moment : ℕ) (a : Archive) (rest : List ℕ) (n : ℕ) → S.holds shelf.old a
        → range_start_of a group range ≡ Ok n
        → Acts (λ way. as_said rest (in_way moment a group
        (commands.Headers (commands.Field name.now) (commands.Within range)) way))
        (at_sink O.Sink out.old (S.faults shelf.old))
        (held_if (continues result) (line_reader group rest)) a
        (at_sink O.Sink out.new (S.faults shelf.new)) }
    ensures shelf { ShelfKept S.Shelf shelf.old shelf.new }
    ensures reads { ReadsIn S.holds (λ a. length (live_in (live a.entries) range.first range.last))
        shelf.old (S.reads shelf.old) (S.reads shelf.new) }
    ensures sink { O.alike out.old out.new }
{
    let mut reply = Waiting::new();
    let mut begun = false;
    let mut next = live_within(range.first, range.last, shelf);
    while let Some(number) = next {
        match push_field(name, number, begun, alloc, shelf, &mut reply, out) {
            Ok(()) => {
                begun = true;
                next = live_after(number, range.last, shelf);
            }
            Err(stop) => return stop.end(&mut reply, out),
        }
    }
    let last = [Phrase::Words(start_if(!begun)), Phrase::Words(b".\r\n")];
    Next::after(reply.finish(&last, out))
}

/// Appends the value of one message to a reply that has begun or not, or says why it isn't read.
fn push_field<S: Shelf, O: Sink>(
    name: &[u8],
    number: u32,
    begun: bool,
    alloc: Global,
    shelf: &mut S,
    reply: &mut Waiting,
    out: &mut O,
) -> Result<(), StreamStop>
    requires ready { S.ready shelf.old ≡ true }
    requires live { (a : Archive) → S.holds shelf.old a
        → is_some (text_of (live a.entries) number) ≡ true }
    ensures value { (a : Archive) → S.holds shelf.old a
        → StreamsNext (unread_line refused_code) true (start_if_of (not begun)
        ++ field_line name.now number (text_of (live a.entries) number)) begun reply.old
        (at_sink O.Sink out.old (S.faults shelf.old)) result reply.new
        (at_sink O.Sink out.new (S.faults shelf.new)) }
    ensures shelf { ShelfKept S.Shelf shelf.old shelf.new }
    ensures reads { ReadsOnce (S.reads shelf.old) (S.reads shelf.new) }
    ensures sink { O.alike out.old out.new }
{
    match read_value(name, number, alloc, shelf) {
        Ok(value) => StreamStop::after(push_started(begun, number, value.as_slice(), reply, out)),
        Err(refusal) => {
            if begun {
                return Err(StreamStop::Short);
            }
            Err(StreamStop::Unread(say_unread(REFUSED, refusal, out)))
        }
    }
}

/// Appends a value, after the first line of the reply if that hasn't begun.
fn push_started<O: Sink>(
    begun: bool,
    shown: u32,
    value: &[u8],
    reply: &mut Waiting,
    out: &mut O,
) -> Result<(), SinkFault>
    ensures said { Waits (start_if_of (not begun) ++ header_line shown value.now) reply.old
        (O.taken out.old) (O.faults out.old) reply.new (O.taken out.new) (O.faults out.new) result }
    ensures sink { O.alike out.old out.new }
{
    reply.push(
        &[
            Phrase::Words(start_if(!begun)),
            Phrase::Number(u64::from(shown)),
            Phrase::Words(b" "),
            Phrase::Words(value),
            Phrase::Words(b"\r\n"),
        ],
        out,
    )
}

/// Returns the first line of the reply if it is wanted, and else nothing.
fn start_if(wanted: bool) -> &'static [u8]
    ensures { result.now ≡ start_if_of wanted }
{
    if wanted {
        b"225 headers follow\r\n"
    } else {
        b""
    }
}

/// Reads the value of a field of a live message: the flat one of the first field with the name, or
/// an empty one.
fn read_value<S: Shelf>(
    name: &[u8],
    number: u32,
    alloc: Global,
    shelf: &mut S,
) -> Result<Bytes, TextRefusal>
    requires ready { S.ready shelf.old ≡ true }
    requires live { (a : Archive) → S.holds shelf.old a
        → is_some (text_of (live a.entries) number) ≡ true }
    ensures value { (a : Archive) → S.holds shelf.old a
        → ReadsValue name.now (text_of (live a.entries) number) result }
    ensures shelf { ShelfKept S.Shelf shelf.old shelf.new }
    ensures reads { ReadsOnce (S.reads shelf.old) (S.reads shelf.new) }
    ensures cause { ReadCause (S.faults shelf.old) (S.faults shelf.new) result }
{
    let mut text = Bytes::new(alloc);
    match shelf.text(number, &mut text) {
        Ok(()) => match flat_first(alloc, text.as_slice(), name) {
            Ok(value) => Ok(value),
            Err(NoMemory) => Err(TextRefusal::NoMemory),
        },
        Err(refusal) => Err(refusal),
    }
}
