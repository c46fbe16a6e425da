//! Answers a command.
//! Reads the disk.
ghost use Rattle.std.specs.Prelude.{◌≡◌, ◌≤◌, ℕ, List, true, false, is_ok};
ghost use Rattle.arch_model.specs.OverShelf.{ShelfKept};
ghost use Rattle.arch_model.specs.Archives.{Archive};
ghost use Rattle.arch_model.specs.Next.{continues};
ghost use Rattle.arch_model.specs.Shelves.{ReadsUpTo};
ghost use Rattle.line_door.specs.Acts.{Acts, held_if, at_sink};
ghost use Rattle.line_door.specs.Readers.{as_said, line_reader};
ghost use Rattle.pop3_reader.specs.Replies.{in_way, reads_text, command_texts};
ghost use Rattle.pop3_reader.specs.Commands.{Asks};
ghost use Rattle.pop3_reader.specs.Sessions.{meant};

use crate::listing::{say_dele, say_listing, say_stat};
use crate::login::{say_pass, say_user};
use crate::maildrop::{Maildrop, PopState};
use crate::notice::{PopNotice, say_notice};
use crate::order::{MailOrder, PopOrder};
use crate::texts::say_mail;
use arch_model::{Next, Shelf};
use edge_io::{Sink, SinkFault};
use std::alloc::Global;

/// Answers a command, and returns whether the session continues.
///
/// It closes after QUIT, and if a send is lost.
pub(crate) fn say_order<S: Shelf, O: Sink>(
    order: PopOrder<'_>,
    alloc: Global,
    state: &mut PopState,
    shelf: &mut S,
    out: &mut O,
) -> Next
    requires { S.ready shelf.old ≡ true }
    ensures acts { (a : Archive) (rest : List ℕ) → S.holds shelf.old a
        → Acts (λ way. as_said rest (in_way a state.old (meant order.entry) way))
        (at_sink O.Sink out.old (S.faults shelf.old))
        (held_if (continues result) (line_reader state.new rest)) a
        (at_sink O.Sink out.new (S.faults shelf.new)) }
    ensures unused { (a : Archive) → S.holds shelf.old a
        → reads_text a state.old (meant order.entry) ≡ false
        → S.faults shelf.new ≡ S.faults shelf.old }
    ensures shelf { ShelfKept S.Shelf shelf.old shelf.new }
    ensures reads { ReadsUpTo (command_texts (meant order.entry)) (S.reads shelf.old)
        (S.reads shelf.new) }
    ensures sink { O.alike out.old out.new }
{
    match order {
        PopOrder::User(name) => Next::after(say_user(name, state, shelf, out)),
        PopOrder::Pass => Next::after(say_pass(alloc, state, shelf, out)),
        PopOrder::Quit => {
            let _ = say_notice(PopNotice::Bye, out);
            Next::Close
        }
        PopOrder::Asks(asked) => Next::after(say_asked(asked, alloc, state, shelf, out)),
        PopOrder::Mistaken => Next::after(say_notice(PopNotice::Syntax, out)),
    }
}

/// Answers a command on a maildrop, if the session has one.
fn say_asked<S: Shelf, O: Sink>(
    asked: MailOrder,
    alloc: Global,
    state: &PopState,
    shelf: &mut S,
    out: &mut O,
) -> Result<(), SinkFault>
    requires { S.ready shelf.old ≡ true }
    ensures acts { (a : Archive) (rest : List ℕ) → S.holds shelf.old a
        → Acts (λ way. as_said rest (in_way a state.now (Asks asked) way))
        (at_sink O.Sink out.old (S.faults shelf.old))
        (held_if (is_ok result) (line_reader state.now rest)) a
        (at_sink O.Sink out.new (S.faults shelf.new)) }
    ensures unused { (a : Archive) → S.holds shelf.old a → reads_text a state.now (Asks asked) ≡ false
        → S.faults shelf.new ≡ S.faults shelf.old }
    ensures shelf { ShelfKept S.Shelf shelf.old shelf.new }
    ensures reads { ReadsUpTo (command_texts (Asks asked)) (S.reads shelf.old) (S.reads shelf.new) }
    ensures sink { O.alike out.old out.new }
{
    match state {
        PopState::Before(_) => say_notice(PopNotice::Syntax, out),
        PopState::Entered(maildrop) => say_shown(asked, alloc, maildrop, shelf, out),
    }
}

/// Answers a command on a maildrop.
fn say_shown<S: Shelf, O: Sink>(
    asked: MailOrder,
    alloc: Global,
    maildrop: &Maildrop,
    shelf: &mut S,
    out: &mut O,
) -> Result<(), SinkFault>
    requires { S.ready shelf.old ≡ true }
    ensures acts { (a : Archive) (rest : List ℕ) → S.holds shelf.old a
        → Acts (λ way. as_said rest (in_way a (PopState.Entered maildrop.now) (Asks asked) way))
        (at_sink O.Sink out.old (S.faults shelf.old))
        (held_if (is_ok result) (line_reader (PopState.Entered maildrop.now) rest)) a
        (at_sink O.Sink out.new (S.faults shelf.new)) }
    ensures unused { (a : Archive) → S.holds shelf.old a
        → reads_text a (PopState.Entered maildrop.now) (Asks asked) ≡ false
        → S.faults shelf.new ≡ S.faults shelf.old }
    ensures shelf { ShelfKept S.Shelf shelf.old shelf.new }
    ensures reads { ReadsUpTo (command_texts (Asks asked)) (S.reads shelf.old) (S.reads shelf.new) }
    ensures sink { O.alike out.old out.new }
{
    match asked {
        MailOrder::Stat => say_stat(maildrop, out),
        MailOrder::List(listing, k) => say_listing(listing, k, maildrop, out),
        MailOrder::Read(part, k) => say_mail(part, k, alloc, maildrop, shelf, out),
        MailOrder::Dele(k) => say_dele(k, maildrop, out),
        MailOrder::Noop => say_notice(PopNotice::Done, out),
        MailOrder::Rset => say_notice(PopNotice::Done, out),
    }
}
