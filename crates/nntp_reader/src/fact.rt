//! The lines that are made of rows.
//! Pure.
ghost use Rattle.std.specs.Prelude.{◌≡◌, ◌++◌, ◌∷◌, true, Some, decimal};
ghost use Rattle.arch_model.specs.Archives.{Archive, live};
ghost use Rattle.arch_model.specs.Listings.{row_in};
ghost use Rattle.wire_replies.specs.Blocks.{crlf_line};
ghost use Rattle.wire_replies.specs.Waits.{Waits};
ghost use Rattle.nntp_reader.specs.Facts.{header_line, new_line, fact_line};

use arch_model::{Row, Shelf};
use edge_io::{Sink, SinkFault};
use wire_replies::{Phrase, Waiting};

/// What is said of a message by its row.
#[derive(Clone, Copy, Debug, PartialEq, Eq, Drop)]
pub(crate) enum Fact {
    /// Its number.
    Number,
    /// Its number, and its overview line.
    Overview,
    /// Its number, and the length of its wire form in bytes.
    Bytes,
    /// Its number, and the number of line feeds in its body.
    Lines,
    /// Its id, if it arrived at this moment or later, in seconds since 1970 UTC.
    ArrivedSince(u64),
}

/// Appends the line of a message, for which a number is shown.
pub(crate) fn push_fact<S: Shelf, O: Sink>(
    fact: Fact,
    shown: u32,
    number: u32,
    shelf: &S,
    reply: &mut Waiting,
    out: &mut O,
) -> Result<(), SinkFault>
    requires { S.ready shelf.now ≡ true }
    ensures said { (a : Archive) → S.holds shelf.now a
        → Waits (fact_line fact shown (row_in a.config.form (live a.entries) number)) reply.old
        (O.taken out.old) (O.faults out.old) reply.new (O.taken out.new) (O.faults out.new) result }
    ensures sink { O.alike out.old out.new }
{
    if let Fact::Number = fact {
        return push_number(shown, reply, out);
    }
    match shelf.row(number) {
        None => Ok(()),
        Some(row) => push_row(fact, shown, row, reply, out),
    }
}

/// Appends a number as a line.
fn push_number<O: Sink>(shown: u32, reply: &mut Waiting, out: &mut O) -> Result<(), SinkFault>
    ensures said { Waits (crlf_line (decimal shown)) reply.old (O.taken out.old) (O.faults out.old)
        reply.new (O.taken out.new) (O.faults out.new) result }
    ensures sink { O.alike out.old out.new }
{
    reply.push(
        &[Phrase::Number(u64::from(shown)), Phrase::Words(b"\r\n")],
        out,
    )
}

/// Appends the line of a row.
fn push_row<O: Sink>(
    fact: Fact,
    shown: u32,
    row: &Row,
    reply: &mut Waiting,
    out: &mut O,
) -> Result<(), SinkFault>
    ensures said { Waits (fact_line fact shown (Some row.now)) reply.old (O.taken out.old)
        (O.faults out.old) reply.new (O.taken out.new) (O.faults out.new) result }
    ensures sink { O.alike out.old out.new }
{
    match fact {
        Fact::Number => push_number(shown, reply, out),
        Fact::Overview => push_over(shown, row.over.as_slice(), reply, out),
        Fact::Bytes => push_count(shown, row.wire, reply, out),
        Fact::Lines => push_count(shown, row.lines, reply, out),
        Fact::ArrivedSince(moment) => push_new(moment, row, reply, out),
    }
}

/// Appends a number that is shown, and an overview line.
fn push_over<O: Sink>(
    shown: u32,
    over: &[u8],
    reply: &mut Waiting,
    out: &mut O,
) -> Result<(), SinkFault>
    ensures said { Waits (decimal shown ++ 9 ∷ crlf_line over.now) reply.old (O.taken out.old)
        (O.faults out.old) reply.new (O.taken out.new) (O.faults out.new) result }
    ensures sink { O.alike out.old out.new }
{
    reply.push(
        &[
            Phrase::Number(u64::from(shown)),
            Phrase::Words(b"\t"),
            Phrase::Words(over),
            Phrase::Words(b"\r\n"),
        ],
        out,
    )
}

/// Appends a number that is shown, and a count.
fn push_count<O: Sink>(
    shown: u32,
    count: u64,
    reply: &mut Waiting,
    out: &mut O,
) -> Result<(), SinkFault>
    ensures said { Waits (header_line shown (decimal count)) reply.old (O.taken out.old)
        (O.faults out.old) reply.new (O.taken out.new) (O.faults out.new) result }
    ensures sink { O.alike out.old out.new }
{
    reply.push(
        &[
            Phrase::Number(u64::from(shown)),
            Phrase::Words(b" "),
            Phrase::Number(count),
            Phrase::Words(b"\r\n"),
        ],
        out,
    )
}

/// Appends the id of a row that arrived at a moment or later.
fn push_new<O: Sink>(
    moment: u64,
    row: &Row,
    reply: &mut Waiting,
    out: &mut O,
) -> Result<(), SinkFault>
    ensures said { Waits (new_line moment row.now) reply.old (O.taken out.old) (O.faults out.old)
        reply.new (O.taken out.new) (O.faults out.new) result }
    ensures sink { O.alike out.old out.new }
{
    if row.arrived < moment {
        return Ok(());
    }
    reply.push(
        &[Phrase::Words(row.id.as_slice()), Phrase::Words(b"\r\n")],
        out,
    )
}
