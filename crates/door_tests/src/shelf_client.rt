//! A reader's request over any shelf: the texts of some numbers, as a streamed reply.
//!
//! Out of memory, or if the disk fails, the first text's place has a word for that. After a text the
//! reply stops, and the connection is closed.
ghost use Rattle.std.specs.Prelude.{◌≡◌, ◌+◌, ◌<◌, ◌^◌, ℕ, List, true, is_ok, if◌then◌else◌};
ghost use Rattle.line_door.specs.Acts.{held_if, Acts, at_sink};
ghost use Rattle.arch_model.specs.OverShelf.{ShelfKept};
ghost use Rattle.arch_model.specs.Archives.{Archive, live, text_of};
ghost use Rattle.door_tests.specs.Streams.{TellsPart, texts_said};

use answer_lines::say_unread;
use arch_base::Bytes;
use arch_model::{Shelf, is_live};
use edge_io::{Sink, SinkFault, say_line};
use std::alloc::Global;

/// What became of one number.
#[derive(Clone, Copy, Drop)]
pub(crate) enum Part {
    /// It has no text.
    Absent,
    /// Its text was said.
    Given,
    /// Its text wasn't read, and none was said before; the word for that was taken or lost.
    Unread(Result<(), SinkFault>),
    /// Its text wasn't read, after another one was said.
    Short,
    /// Its text was lost.
    Lost,
}

/// Says the text of one number.
fn say_part<S: Shelf, O: Sink>(
    alloc: Global,
    n: u32,
    begun: bool,
    shelf: &mut S,
    out: &mut O,
) -> Part
    requires { S.ready shelf.old ≡ true }
    ensures part { (a : Archive) → S.holds shelf.old a → TellsPart begun (text_of (live a.entries) n)
        (at_sink O.Sink out.old (S.faults shelf.old)) result
        (at_sink O.Sink out.new (S.faults shelf.new)) }
    ensures shelf { ShelfKept S.Shelf shelf.old shelf.new }
    ensures sink { O.alike out.old out.new }
{
    if !is_live(n, shelf) {
        return Part::Absent;
    }
    let mut text = Bytes::new(alloc);
    match shelf.text(n, &mut text) {
        Ok(()) => given(say_line(text.as_slice(), out)),
        Err(refusal) => {
            if begun {
                return Part::Short;
            }
            Part::Unread(say_unread(refusal, out))
        }
    }
}

/// Returns what became of a text that was sent.
fn given(sent: Result<(), SinkFault>) -> Part
    ensures { result ≡ (if is_ok sent then Part.Given else Part.Lost) }
{
    match sent {
        Ok(()) => Part::Given,
        Err(SinkFault) => Part::Lost,
    }
}

/// Says the texts of so many numbers from `low` on, and returns whether the session continues.
pub fn say_texts<S: Shelf, O: Sink>(
    alloc: Global,
    low: u32,
    count: u32,
    shelf: &mut S,
    out: &mut O,
) -> bool
    requires ready { S.ready shelf.old ≡ true }
    requires numbers { low + count < 2 ^ 32 }
    ensures acts { (a : Archive) (h : List ℕ) → S.holds shelf.old a
        → Acts (texts_said a low count h)
        (at_sink O.Sink out.old (S.faults shelf.old)) (held_if result h) a
        (at_sink O.Sink out.new (S.faults shelf.new)) }
    ensures shelf { ShelfKept S.Shelf shelf.old shelf.new }
    ensures sink { O.alike out.old out.new }
{
    let mut at: u32 = 0;
    let mut begun = false;
    while at < count {
        match say_part(alloc, low + at, begun, shelf, out) {
            Part::Absent => at += 1,
            Part::Given => {
                begun = true;
                at += 1;
            }
            Part::Unread(sent) => return sent.is_ok(),
            Part::Short => return false,
            Part::Lost => return false,
        }
    }
    say_line(b"end", out).is_ok()
}
