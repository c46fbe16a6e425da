//! What USER and PASS say.
//! Allocates.
ghost use Rattle.std.specs.Prelude.{◌≡◌, ℕ, List, true, is_ok};
ghost use Rattle.arch_model.specs.Archives.{Archive};
ghost use Rattle.edge_io.specs.Phrases.{SaysTo};
ghost use Rattle.line_door.specs.Acts.{Acts, held_if, at_sink};
ghost use Rattle.line_door.specs.Readers.{as_said, line_reader};
ghost use Rattle.pop3_reader.specs.Commands as commands;
ghost use Rattle.pop3_reader.specs.Replies.{in_way, user_reply};
ghost use Rattle.pop3_reader.specs.Texts.{entered_words};

use crate::maildrop::{Maildrop, PopState, take_maildrop};
use crate::notice::{PopNotice, say_notice};
use crate::refusals::REFUSED;
use arch_model::Shelf;
use edge_io::{Sink, SinkFault};
use shelf_doors::{mailbox_named, mailbox_range, say_memory};
use std::alloc::Global;
use wire_replies::{Phrase, send};

/// Accepts the mailbox with a name, and says so; or accepts none, if there is none.
pub(crate) fn say_user<S: Shelf, O: Sink>(
    name: &[u8],
    state: &mut PopState,
    shelf: &S,
    out: &mut O,
) -> Result<(), SinkFault>
    requires { S.ready shelf.now ≡ true }
    ensures acts { (a : Archive) (rest : List ℕ) (disk : ℕ) → S.holds shelf.now a
        → Acts (λ way. as_said rest (in_way a state.old (commands.User name.now) way))
        (at_sink O.Sink out.old disk)
        (held_if (is_ok result) (line_reader state.new rest)) a
        (at_sink O.Sink out.new disk) }
    ensures sink { O.alike out.old out.new }
{
    match *state {
        PopState::Entered(_) => say_notice(PopNotice::Syntax, out),
        PopState::Before(_) => {
            let index = mailbox_named(name, shelf);
            *state = PopState::Before(index);
            say_accepted(index, out)
        }
    }
}

/// Says whether a mailbox was accepted.
fn say_accepted<O: Sink>(index: Option<u64>, out: &mut O) -> Result<(), SinkFault>
    ensures said { SaysTo O.Sink (user_reply index).words out.old out.new result }
    ensures sink { O.alike out.old out.new }
{
    match index {
        None => say_notice(PopNotice::NoMaildrop, out),
        Some(_) => say_notice(PopNotice::Done, out),
    }
}

/// Takes the maildrop of the mailbox that was accepted, and says how many messages it has; or says why
/// there is none. Reads no text.
pub(crate) fn say_pass<S: Shelf, O: Sink>(
    alloc: Global,
    state: &mut PopState,
    shelf: &S,
    out: &mut O,
) -> Result<(), SinkFault>
    requires { S.ready shelf.now ≡ true }
    ensures acts { (a : Archive) (rest : List ℕ) (disk : ℕ) → S.holds shelf.now a
        → Acts (λ way. as_said rest (in_way a state.old commands.Pass way))
        (at_sink O.Sink out.old disk)
        (held_if (is_ok result) (line_reader state.new rest)) a
        (at_sink O.Sink out.new disk) }
    ensures sink { O.alike out.old out.new }
{
    match *state {
        PopState::Entered(_) => say_notice(PopNotice::Syntax, out),
        PopState::Before(None) => say_notice(PopNotice::UserFirst, out),
        PopState::Before(Some(index)) => enter(index, alloc, state, shelf, out),
    }
}

/// Takes the maildrop of a mailbox, if it is there.
fn enter<S: Shelf, O: Sink>(
    index: u64,
    alloc: Global,
    state: &mut PopState,
    shelf: &S,
    out: &mut O,
) -> Result<(), SinkFault>
    requires ready { S.ready shelf.now ≡ true }
    requires before { state.old ≡ PopState.Before (Some index) }
    ensures acts { (a : Archive) (rest : List ℕ) (disk : ℕ) → S.holds shelf.now a
        → Acts (λ way. as_said rest (in_way a (PopState.Before (Some index)) commands.Pass way))
        (at_sink O.Sink out.old disk)
        (held_if (is_ok result) (line_reader state.new rest)) a
        (at_sink O.Sink out.new disk) }
    ensures sink { O.alike out.old out.new }
{
    let Some(range) = mailbox_range(index, shelf) else {
        return say_notice(PopNotice::NoMaildrop, out);
    };
    match take_maildrop(alloc, range, shelf) {
        Ok(maildrop) => {
            let said = say_entered(&maildrop, out);
            *state = PopState::Entered(maildrop);
            said
        }
        Err(_) => say_memory(REFUSED, out),
    }
}

/// Says how many messages a maildrop has.
fn say_entered<O: Sink>(maildrop: &Maildrop, out: &mut O) -> Result<(), SinkFault>
    ensures said { SaysTo O.Sink (entered_words maildrop.now) out.old out.new result }
    ensures sink { O.alike out.old out.new }
{
    send(
        &[
            Phrase::Words(b"+OK "),
            Phrase::Number(maildrop.count()),
            Phrase::Words(b" messages\r\n"),
        ],
        out,
    )
}
