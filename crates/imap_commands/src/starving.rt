//! Says that memory ran out.
//! Allocates.
ghost use Rattle.std.specs.Prelude.{◌≡◌, ℕ, option_copied};
ghost use Rattle.arch_model.specs.Archives.{Archive};
ghost use Rattle.arch_model.specs.Next.{continues};
ghost use Rattle.line_door.specs.Acts.{Acts, held_if, at_sink};
ghost use Rattle.imap_commands.specs.Laws.{readable_tag};
ghost use Rattle.imap_commands.specs.Replies.{command_said};

use arch_model::Next;
use edge_io::Sink;
use imap_states::{ImapState, say_bye_memory, say_no_memory};
use imap_words::{Cursor, Kind};
use std::alloc::Global;

/// Says that memory ran out while a command was read, and returns whether the session continues. It
/// closes if no tag can be read.
pub(crate) fn say_starved<O: Sink>(
    octets: &[u8],
    alloc: Global,
    state: &ImapState,
    out: &mut O,
) -> Next
    ensures acts { (a : Archive) (disk : ℕ) → Acts (command_said a state.now octets.now)
        (at_sink O.Sink out.old disk) (held_if (continues result) state.now) a
        (at_sink O.Sink out.new disk) }
    ensures sink { O.alike out.old out.new }
{
    match tag_of(alloc, octets) {
        Some(tag) => Next::after(say_no_memory(tag, out)),
        None => {
            let _ = say_bye_memory(out);
            Next::Close
        }
    }
}

/// Returns the tag of a command, if it has a readable one. Allocates nothing.
fn tag_of(alloc: Global, octets: &[u8]) -> Option<&[u8]>
    ensures { option_copied result ≡ readable_tag octets.now }
{
    let mut cursor = Cursor::new(alloc, octets);
    let len = cursor.run_len(Kind::Tag);
    if len == 0 {
        return None;
    }
    let tag = cursor.take(len);
    if cursor.has(b' ') || cursor.is_at_line_end() {
        Some(tag)
    } else {
        None
    }
}
