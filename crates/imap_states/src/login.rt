//! Commands that only look at the state, or change it.
//! Allocates.
ghost use Rattle.std.specs.Prelude.{◌≡◌, ℕ, is_ok, IfOk};
ghost use Rattle.arch_model.specs.Archives.{Archive};
ghost use Rattle.line_door.specs.Acts.{Acts, held_if, at_sink};
ghost use Rattle.imap_states.specs.Replies.{login_reply, authenticate_reply, close_reply, idle_reply, change_reply, change_messages_reply, tagged_ways};

use crate::notice::{say_bad, say_done, say_idling, say_no_memory, say_not_here, say_read_only};
use crate::state::{ImapPlace, ImapState};
use arch_base::{Bytes, NoMemory};
use edge_io::{Sink, SinkFault};
use std::alloc::Global;

/// Logs any user in.
pub(crate) fn say_login<O: Sink>(
    tag: &[u8],
    state: &mut ImapState,
    out: &mut O,
) -> Result<(), SinkFault>
    ensures acts { (a : Archive) (disk : ℕ)
        → Acts (tagged_ways a state.old tag.now (login_reply a state.old tag.now))
        (at_sink O.Sink out.old disk) (held_if (is_ok result) state.new) a
        (at_sink O.Sink out.new disk) }
    ensures sink { O.alike out.old out.new }
{
    if !state.place.is_logged_out() {
        return say_bad(tag, out);
    }
    state.place = ImapPlace::LoggedIn;
    say_done(tag, b"LOGIN", out)
}

/// Says that there is no login of another form.
pub(crate) fn say_authenticate<O: Sink>(
    tag: &[u8],
    state: &ImapState,
    out: &mut O,
) -> Result<(), SinkFault>
    ensures acts { (a : Archive) (disk : ℕ)
        → Acts (tagged_ways a state.now tag.now (authenticate_reply a state.now tag.now))
        (at_sink O.Sink out.old disk) (held_if (is_ok result) state.now) a
        (at_sink O.Sink out.new disk) }
    ensures sink { O.alike out.old out.new }
{
    if !state.place.is_logged_out() {
        return say_bad(tag, out);
    }
    say_not_here(tag, out)
}

/// Leaves the mailbox. Its client is told of no changes.
pub(crate) fn say_close<O: Sink>(
    tag: &[u8],
    state: &mut ImapState,
    out: &mut O,
) -> Result<(), SinkFault>
    ensures acts { (a : Archive) (disk : ℕ)
        → Acts (tagged_ways a state.old tag.now (close_reply a state.old tag.now))
        (at_sink O.Sink out.old disk) (held_if (is_ok result) state.new) a
        (at_sink O.Sink out.new disk) }
    ensures sink { O.alike out.old out.new }
{
    if !state.place.is_selected() {
        return say_bad(tag, out);
    }
    state.place = ImapPlace::LoggedIn;
    say_done(tag, b"CLOSE", out)
}

/// Idles under a tag.
///
/// The tag is kept. If an allocation fails, that is said, and the state is unchanged.
pub(crate) fn say_idle<O: Sink>(
    tag: &[u8],
    alloc: Global,
    state: &mut ImapState,
    out: &mut O,
) -> Result<(), SinkFault>
    ensures acts { (a : Archive) (disk : ℕ)
        → Acts (tagged_ways a state.old tag.now (idle_reply a state.old tag.now))
        (at_sink O.Sink out.old disk) (held_if (is_ok result) state.new) a
        (at_sink O.Sink out.new disk) }
    ensures sink { O.alike out.old out.new }
{
    if state.place.is_logged_out() {
        return say_bad(tag, out);
    }
    match copy(tag, alloc) {
        Err(_) => say_no_memory(tag, out),
        Ok(tag) => {
            state.idle = Some(tag);
            say_idling(out)
        }
    }
}

/// Returns a copy of bytes.
fn copy(bytes: &[u8], alloc: Global) -> Result<Bytes, NoMemory>
    ensures { IfOk result (λ made. made ≡ bytes.now) }
{
    let mut made = Bytes::new(alloc);
    made.push_slice(bytes)?;
    Ok(made)
}

/// Says after the login that the archive is only read.
pub(crate) fn refuse_logged_in<O: Sink>(
    tag: &[u8],
    state: &ImapState,
    out: &mut O,
) -> Result<(), SinkFault>
    ensures acts { (a : Archive) (disk : ℕ) → Acts (tagged_ways a state.now tag.now
        (change_reply a state.now tag.now))
        (at_sink O.Sink out.old disk) (held_if (is_ok result) state.now) a
        (at_sink O.Sink out.new disk) }
    ensures sink { O.alike out.old out.new }
{
    if state.place.is_logged_out() {
        return say_bad(tag, out);
    }
    say_read_only(tag, out)
}

/// Says of a mailbox that is selected that the archive is only read.
pub(crate) fn refuse_selected<O: Sink>(
    tag: &[u8],
    state: &ImapState,
    out: &mut O,
) -> Result<(), SinkFault>
    ensures acts { (a : Archive) (disk : ℕ) → Acts (tagged_ways a state.now tag.now
        (change_messages_reply a state.now tag.now))
        (at_sink O.Sink out.old disk) (held_if (is_ok result) state.now) a
        (at_sink O.Sink out.new disk) }
    ensures sink { O.alike out.old out.new }
{
    if !state.place.is_selected() {
        return say_bad(tag, out);
    }
    say_read_only(tag, out)
}
