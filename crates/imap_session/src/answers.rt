//! Answers the octets of a whole command.
//! Reads the disk.
ghost use Rattle.std.specs.Prelude.{◌≡◌, true, false};
ghost use Rattle.arch_model.specs.Archives.{Archive};
ghost use Rattle.arch_model.specs.Next.{continues};
ghost use Rattle.arch_model.specs.OverShelf.{ShelfKept};
ghost use Rattle.arch_model.specs.Shelves.{ReadsIn};
ghost use Rattle.line_door.specs.Acts.{Acts, held_if, at_sink};
ghost use Rattle.imap_states.specs.States.{SuitsClient};
ghost use Rattle.imap_session.specs.Counting.{answer_texts};
ghost use Rattle.imap_session.specs.Door as door;
ghost use Rattle.imap_session.specs.Door.{answered, answer_uses};

use arch_model::{Next, Shelf};
use edge_io::Sink;
use imap_commands::answer;
use imap_states::{ImapState, end_idling};
use line_door::line_content;
use std::alloc::Global;

/// Answers the octets of a whole command, or a line while the session idles. Returns whether the
/// session continues.
pub(crate) fn answer_octets<S: Shelf, O: Sink>(
    octets: &[u8],
    alloc: Global,
    state: &mut ImapState,
    shelf: &mut S,
    out: &mut O,
) -> Next
    requires { S.ready shelf.old ≡ true }
    ensures acts { (a : Archive) → S.holds shelf.old a → SuitsClient a state.old
        → Acts (answered a state.old octets.now) (at_sink O.Sink out.old (S.faults shelf.old))
        (held_if (continues result) state.new) a (at_sink O.Sink out.new (S.faults shelf.new)) }
    ensures unused { (a : Archive) → S.holds shelf.old a
        → answer_uses a state.old octets.now ≡ false → S.faults shelf.new ≡ S.faults shelf.old }
    ensures shelf { ShelfKept S.Shelf shelf.old shelf.new }
    ensures reads { ReadsIn S.holds (λ a. answer_texts a state.old octets.now) shelf.old
        (S.reads shelf.old) (S.reads shelf.new) }
    ensures sink { O.alike out.old out.new }
{
    match state.idle.take() {
        None => answer(octets, alloc, state, shelf, out),
        Some(tag) => end_idling(&tag, is_done(octets), alloc, state, shelf, out),
    }
}

/// Returns whether a line, with its line end, is `DONE` in any case.
fn is_done(octets: &[u8]) -> bool
    ensures { result ≡ door.is_done octets.now }
{
    let line = octets.split_at(octets.len().saturating_sub(1)).0;
    line_content(line).eq_ignore_ascii_case(b"DONE")
}
