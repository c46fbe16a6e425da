//! What a session says while it idles (RFC 2177).
//! Allocates.
ghost use Rattle.std.specs.Prelude.{◌≡◌, ◌++◌, ℕ, List, true, None};
ghost use Rattle.arch_model.specs.Archives.{Archive};
ghost use Rattle.arch_model.specs.Next.{continues};
ghost use Rattle.edge_io.specs.Phrases.{SaysTo};
ghost use Rattle.line_door.specs.Acts.{Acts, held_if, at_sink};
ghost use Rattle.imap_states.specs.Replies.{update_said, end_said, excess_said, end_line};
ghost use Rattle.imap_states.specs.States.{SuitsClient, change_lines};

use crate::notice::say_bye_memory;
use crate::state::ImapState;
use crate::telling::{find_changes, push_changes};
use arch_base::Bytes;
use arch_model::{Next, Shelf};
use edge_io::{Sink, SinkFault, say};
use known_uids::Changes;
use std::alloc::Global;
use wire_replies::{Phrase, Waiting};

/// Tells the client of a session of changes, and returns whether the session continues.
///
/// It closes if an allocation fails, after `* BYE out of memory`, and if a send is lost. The tag under
/// which the session idles stays.
pub fn tell<S: Shelf, O: Sink>(alloc: Global, state: &mut ImapState, shelf: &S, out: &mut O) -> Next
    requires { S.ready shelf.now ≡ true }
    ensures acts { (a : Archive) (disk : ℕ) → S.holds shelf.now a → SuitsClient a state.old
        → Acts (update_said a state.old) (at_sink O.Sink out.old disk)
        (held_if (continues result) state.new) a (at_sink O.Sink out.new disk) }
    ensures idle { state.new.idle ≡ state.old.idle }
    ensures sink { O.alike out.old out.new }
{
    match find_changes(&mut state.place, alloc, shelf) {
        Err(_) => {
            let _ = say_bye_memory(out);
            Next::Close
        }
        Ok(changes) => Next::after(say_changes(&changes, b"", out)),
    }
}

/// Ends the idling under a tag by a line, and returns whether the session continues. `done` says
/// whether the line is `DONE`.
///
/// The client is told of changes first. It closes if an allocation fails, after
/// `* BYE out of memory`, and if a send is lost.
pub fn end_idling<S: Shelf, O: Sink>(
    tag: &Bytes,
    done: bool,
    alloc: Global,
    state: &mut ImapState,
    shelf: &S,
    out: &mut O,
) -> Next
    requires { S.ready shelf.now ≡ true }
    ensures acts { (a : Archive) (disk : ℕ) → S.holds shelf.now a → SuitsClient a state.old
        → Acts (end_said a state.old tag.now done) (at_sink O.Sink out.old disk)
        (held_if (continues result) state.new) a (at_sink O.Sink out.new disk) }
    ensures sink { O.alike out.old out.new }
{
    match find_changes(&mut state.place, alloc, shelf) {
        Err(_) => {
            let _ = say_bye_memory(out);
            Next::Close
        }
        Ok(changes) => {
            state.idle = None;
            Next::after(say_ended(tag.as_slice(), done, &changes, out))
        }
    }
}

/// Says that a command is too long, and tells the client of changes first if the session idles. The
/// session is closed then.
pub fn say_too_long<S: Shelf, O: Sink>(alloc: Global, state: &mut ImapState, shelf: &S, out: &mut O)
    requires { S.ready shelf.now ≡ true }
    ensures acts { (a : Archive) (disk : ℕ) → S.holds shelf.now a → SuitsClient a state.old
        → Acts (excess_said a state.old) (at_sink O.Sink out.old disk) None a
        (at_sink O.Sink out.new disk) }
    ensures sink { O.alike out.old out.new }
{
    if !state.is_idle() {
        let _ = say(b"* BYE command too long\r\n", out);
        return;
    }
    match find_changes(&mut state.place, alloc, shelf) {
        Err(_) => {
            let _ = say_bye_memory(out);
        }
        Ok(changes) => {
            let _ = say_changes(&changes, b"* BYE command too long\r\n", out);
        }
    }
}

/// Writes changes, and then other words.
fn say_changes<'a, O: Sink>(changes: &Changes, last: &'a [u8], out: &mut O) -> Result<(), SinkFault>
    ensures said { SaysTo O.Sink (change_lines changes.now ++ last.now) out.old out.new result }
    ensures sink { O.alike out.old out.new }
{
    let mut reply = Waiting::new();
    push_changes(changes, &mut reply, out)?;
    reply.finish(&[Phrase::Words(last)], out)
}

/// Writes changes, and then how the idling under a tag ended.
fn say_ended<'a, O: Sink>(
    tag: &'a [u8],
    done: bool,
    changes: &Changes,
    out: &mut O,
) -> Result<(), SinkFault>
    ensures said { SaysTo O.Sink (change_lines changes.now ++ end_line tag.now done) out.old out.new
        result }
    ensures sink { O.alike out.old out.new }
{
    let mut reply = Waiting::new();
    push_changes(changes, &mut reply, out)?;
    reply.finish(&[Phrase::Words(tag), Phrase::Words(end_words(done))], out)
}

/// Returns how the tagged line at the end of idling goes on.
fn end_words(done: bool) -> &'static [u8]
    ensures { (tag : List ℕ) → tag ++ result.now ≡ end_line tag done }
{
    if done {
        b" OK IDLE done\r\n"
    } else {
        b" BAD syntax\r\n"
    }
}
