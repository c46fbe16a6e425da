//! Answers a whole command.
//! Reads the disk.
ghost use Rattle.std.specs.Prelude.{◌≡◌, true, false};
ghost use Rattle.arch_model.specs.Archives.{Archive};
ghost use Rattle.arch_model.specs.Next.{continues};
ghost use Rattle.arch_model.specs.OverShelf.{ShelfKept};
ghost use Rattle.arch_model.specs.Shelves.{ReadsIn};
ghost use Rattle.line_door.specs.Acts.{Acts, held_if, at_sink};
ghost use Rattle.imap_states.specs.States.{SuitsClient};
ghost use Rattle.imap_commands.specs.Orders.{order_said, order_texts};
ghost use Rattle.imap_commands.specs.Replies.{command_said};
ghost use Rattle.imap_commands.specs.Texts.{command_texts, command_uses};

use crate::messages::{say_fetched, say_sought};
use crate::orders::{Order, order_of};
use crate::starving::say_starved;
use arch_model::{Next, Shelf};
use edge_io::Sink;
use imap_states::{ImapState, say_bad, say_untagged};
use imap_syntax::{AskRefusal, read};
use std::alloc::Global;

/// Answers the octets of a whole command, its literals and line ends among them, and returns whether
/// the session continues.
///
/// Octets without a readable tag are answered by `* BAD syntax`, and others that aren't of the grammar
/// by `BAD syntax` after their tag. FETCH and SEARCH need a mailbox, leave the state, and tell of no
/// changes.
///
/// The session closes:
///
/// * after LOGOUT;
/// * if an allocation fails where no tag can be read, after `* BYE out of memory`;
/// * if FETCH stops after some lines, because memory ran out or the disk failed;
/// * if a send is lost. A prefix of the words was taken, and the sink's count of faults rose.
///
/// The contract then says nothing of the state. Where a tag can be read, a failed allocation is
/// answered by `NO out of memory` after it, and the state stays. FETCH and SEARCH say `NO disk fault` if
/// the disk fails, and the shelf's count of faults rose exactly then; other commands read no text.
pub fn answer<S: Shelf, O: Sink>(
    octets: &[u8],
    alloc: Global,
    state: &mut ImapState,
    shelf: &mut S,
    out: &mut O,
) -> Next
    requires { S.ready shelf.old ≡ true }
    ensures acts { (a : Archive) → S.holds shelf.old a → SuitsClient a state.old
        → Acts (command_said a state.old octets.now)
        (at_sink O.Sink out.old (S.faults shelf.old)) (held_if (continues result) state.new) a
        (at_sink O.Sink out.new (S.faults shelf.new)) }
    ensures unused { (a : Archive) → S.holds shelf.old a
        → command_uses a state.old octets.now ≡ false
        → S.faults shelf.new ≡ S.faults shelf.old }
    ensures shelf { ShelfKept S.Shelf shelf.old shelf.new }
    ensures reads { ReadsIn S.holds (λ a. command_texts a state.old octets.now)
        shelf.old (S.reads shelf.old) (S.reads shelf.new) }
    ensures sink { O.alike out.old out.new }
{
    match read(alloc, octets) {
        Ok(ask) => say_order(order_of(&ask), alloc, state, shelf, out),
        Err(AskRefusal::NoTag) => Next::after(say_untagged(out)),
        Err(AskRefusal::Bad { tag }) => Next::after(say_bad(tag.as_slice(), out)),
        Err(AskRefusal::NoMemory) => say_starved(octets, alloc, state, out),
    }
}

/// Answers a command of the grammar, and returns whether the session continues.
fn say_order<S: Shelf, O: Sink>(
    order: Order<'_>,
    alloc: Global,
    state: &mut ImapState,
    shelf: &mut S,
    out: &mut O,
) -> Next
    requires { S.ready shelf.old ≡ true }
    ensures acts { (a : Archive) → S.holds shelf.old a → SuitsClient a state.old
        → Acts (order_said a state.old order.entry)
        (at_sink O.Sink out.old (S.faults shelf.old)) (held_if (continues result) state.new) a
        (at_sink O.Sink out.new (S.faults shelf.new)) }
    ensures unused { (a : Archive) → S.holds shelf.old a
        → order_texts a state.old order.entry ≡ 0
        → S.faults shelf.new ≡ S.faults shelf.old }
    ensures shelf { ShelfKept S.Shelf shelf.old shelf.new }
    ensures reads { ReadsIn S.holds (λ a. order_texts a state.old order.entry)
        shelf.old (S.reads shelf.old) (S.reads shelf.new) }
    ensures sink { O.alike out.old out.new }
{
    match order {
        Order::State(tag, command) => {
            imap_states::answer(tag, command, alloc, state, shelf, out)
        }
        Order::Fetch(command) => say_fetched(&command, alloc, state, shelf, out),
        Order::Search(command) => say_sought(&command, alloc, state, shelf, out),
    }
}
