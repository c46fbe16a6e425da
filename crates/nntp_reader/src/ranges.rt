//! The lines of the live messages in a range.
//! Pure.
ghost use Rattle.std.specs.Prelude.{◌≡◌, ◌++◌, true};
ghost use Rattle.arch_model.specs.Archives.{Archive, live};
ghost use Rattle.edge_io.specs.Phrases.{Says, SaysTo};
ghost use Rattle.wire_replies.specs.Blocks.{block_end};
ghost use Rattle.wire_replies.specs.Phrases.{words_of};
ghost use Rattle.wire_replies.specs.Waits.{Waits};
ghost use Rattle.nntp_reader.specs.Facts.{fact_lines};

use crate::fact::{Fact, push_fact};
use arch_model::Shelf;
use edge_io::{Sink, SinkFault};
use nntp_words::Range;
use shelf_doors::{live_after, live_within};
use wire_replies::{Phrase, Waiting};

/// Says a first line, the lines of the live messages in a range in order, and the end of the block.
///
/// Reads no text.
pub(crate) fn say_lines<S: Shelf, O: Sink>(
    start: &[Phrase<'_>],
    fact: Fact,
    range: Range,
    shelf: &S,
    out: &mut O,
) -> Result<(), SinkFault>
    requires { S.ready shelf.now ≡ true }
    ensures said { (a : Archive) → S.holds shelf.now a → SaysTo O.Sink (words_of start.now
        ++ (fact_lines fact a range.first range.last ++ block_end)) out.old out.new
        result }
    ensures sink { O.alike out.old out.new }
{
    let mut reply = Waiting::new();
    reply.push(start, out)?;
    push_lines(fact, range, shelf, &mut reply, out)?;
    reply.finish(&[Phrase::Words(b".\r\n")], out)
}

/// Appends the lines of the live messages with numbers in a range, in order.
fn push_lines<S: Shelf, O: Sink>(
    fact: Fact,
    range: Range,
    shelf: &S,
    reply: &mut Waiting,
    out: &mut O,
) -> Result<(), SinkFault>
    requires { S.ready shelf.now ≡ true }
    ensures said { (a : Archive) → S.holds shelf.now a
        → Waits (fact_lines fact a range.first range.last) reply.old
        (O.taken out.old) (O.faults out.old) reply.new (O.taken out.new) (O.faults out.new) result }
    ensures sink { O.alike out.old out.new }
{
    let mut next = live_within(range.first, range.last, shelf);
    while let Some(number) = next {
        match push_fact(fact, number, number, shelf, reply, out) {
            Ok(()) => next = live_after(number, range.last, shelf),
            Err(fault) => return Err(fault),
        }
    }
    Ok(())
}
