//! What LIST and LSUB say.
//! Allocates.
ghost use Rattle.std.specs.Prelude.{◌≡◌, ◌+◌, ◌++◌, ◌/◌, ◌-◌, [], ℕ, true, is_ok, OnErr};
ghost use Rattle.arch_model.specs.Archives.{Archive};
ghost use Rattle.edge_io.specs.Phrases.{SaysTo};
ghost use Rattle.line_door.specs.Acts.{Acts, held_if, at_sink};
ghost use Rattle.shelf_doors.specs.Mailboxes.{last_index};
ghost use Rattle.wire_replies.specs.Waits.{Waits};
ghost use Rattle.imap_states.specs.Lists.{root_line, list_line, list_lines, list_line_if, listing};
ghost use Rattle.imap_states.specs.Replies.{list_reply, tagged_ways};
ghost use Rattle.imap_states.specs.Boxes.{box_name};
ghost use Rattle.imap_states.specs.Notices.{done_line};
ghost use Rattle.imap_states.specs.Patterns.{matches_name};
ghost use Rattle.imap_states.specs.States.{SuitsClient, change_lines};

use crate::notice::{say_bad, say_no_memory};
use crate::patterns::is_match;
use crate::state::ImapState;
use crate::telling::{find_changes, finish_told};
use arch_model::Shelf;
use edge_io::{Sink, SinkFault};
use itoa::Buffer;
use known_uids::Changes;
use std::alloc::Global;
use wire_replies::{Phrase, Waiting};

/// What LIST and LSUB ask.
#[derive(Clone, Copy, Drop)]
pub(crate) struct Listed<'a> {
    /// The tag of the command.
    pub(crate) tag: &'a [u8],
    /// The name of the command.
    pub(crate) name: &'a [u8],
    /// The reference.
    pub(crate) reference: &'a [u8],
    /// The pattern.
    pub(crate) pattern: &'a [u8],
}

/// Says which mailboxes a reference and a pattern match.
pub(crate) fn say_list<S: Shelf, O: Sink>(
    listed: &Listed<'_>,
    alloc: Global,
    state: &mut ImapState,
    shelf: &S,
    out: &mut O,
) -> Result<(), SinkFault>
    requires { S.ready shelf.now ≡ true }
    ensures acts { (a : Archive) (disk : ℕ) → S.holds shelf.now a → SuitsClient a state.old
        → Acts (tagged_ways a state.old listed.now.tag.now (list_reply a state.old
        listed.now.tag.now listed.now.name.now listed.now.reference.now listed.now.pattern.now))
        (at_sink O.Sink out.old disk) (held_if (is_ok result) state.new) a
        (at_sink O.Sink out.new disk) }
    ensures sink { O.alike out.old out.new }
{
    if state.place.is_logged_out() {
        return say_bad(listed.tag, out);
    }
    match find_changes(&mut state.place, alloc, shelf) {
        Err(_) => say_no_memory(listed.tag, out),
        Ok(changes) => say_listing(listed, &changes, shelf, out),
    }
}

/// Says which mailboxes match, and tells the client of changes.
fn say_listing<S: Shelf, O: Sink>(
    listed: &Listed<'_>,
    changes: &Changes,
    shelf: &S,
    out: &mut O,
) -> Result<(), SinkFault>
    requires { S.ready shelf.now ≡ true }
    ensures said { (a : Archive) → S.holds shelf.now a → SaysTo O.Sink
        (listing a listed.now.name.now listed.now.reference.now listed.now.pattern.now
        ++ (change_lines changes.now ++ done_line listed.now.tag.now listed.now.name.now)) out.old
        out.new result }
    ensures sink { O.alike out.old out.new }
{
    let mut reply = Waiting::new();
    push_listing(listed, shelf, &mut reply, out)?;
    finish_told(changes, listed.tag, listed.name, &mut reply, out)
}

/// Appends the line of each mailbox that a reference and a pattern match. An empty pattern asks for the
/// delimiter of names.
fn push_listing<S: Shelf, O: Sink>(
    listed: &Listed<'_>,
    shelf: &S,
    reply: &mut Waiting,
    out: &mut O,
) -> Result<(), SinkFault>
    requires { S.ready shelf.now ≡ true }
    ensures said { (a : Archive) → S.holds shelf.now a
        → Waits (listing a listed.now.name.now listed.now.reference.now listed.now.pattern.now)
        reply.old (O.taken out.old) (O.faults out.old) reply.new (O.taken out.new) (O.faults out.new)
        result }
    ensures empty { OnErr result (reply.new ≡ []) }
    ensures sink { O.alike out.old out.new }
{
    match listed.pattern {
        [] => push_root(listed.name, reply, out),
        [_, ..] => push_names(listed, box_total(shelf), shelf, reply, out),
    }
}

/// Appends the answer to an empty pattern.
fn push_root<'a, O: Sink>(name: &'a [u8], reply: &mut Waiting, out: &mut O) -> Result<(), SinkFault>
    ensures said { Waits (root_line name.now) reply.old (O.taken out.old) (O.faults out.old) reply.new
        (O.taken out.new) (O.faults out.new) result }
    ensures empty { OnErr result (reply.new ≡ []) }
    ensures sink { O.alike out.old out.new }
{
    reply.push(
        &[
            Phrase::Words(b"* "),
            Phrase::Words(name),
            Phrase::Words(b" (\\Noselect) NIL \"\"\r\n"),
        ],
        out,
    )
}

/// Returns how many mailboxes there are.
fn box_total<S: Shelf>(shelf: &S) -> u64
    requires { S.ready shelf.now ≡ true }
    ensures { (a : Archive) → S.holds shelf.now a → result ≡ last_index a + 1 }
{
    u64::from(quotient(shelf.next_number().saturating_sub(2), shelf.config().slice)) + 1
}

/// Returns a quotient, or 0 if the divisor is 0.
fn quotient(n: u32, divisor: u32) -> u32
    ensures { result ≡ n / divisor }
{
    if divisor == 0 {
        return 0;
    }
    n / divisor
}

/// Appends the lines of the first mailboxes, so many, that a reference and a pattern match.
fn push_names<S: Shelf, O: Sink>(
    listed: &Listed<'_>,
    count: u64,
    shelf: &S,
    reply: &mut Waiting,
    out: &mut O,
) -> Result<(), SinkFault>
    requires { S.ready shelf.now ≡ true }
    ensures said { (a : Archive) → S.holds shelf.now a
        → Waits (list_lines a listed.now.name.now (listed.now.reference.now ++ listed.now.pattern.now)
        0 count)
        reply.old (O.taken out.old) (O.faults out.old) reply.new (O.taken out.new) (O.faults out.new)
        result }
    ensures empty { OnErr result (reply.new ≡ []) }
    ensures sink { O.alike out.old out.new }
{
    let mut index: u64 = 0;
    while index < count {
        match push_name(listed, index, shelf, reply, out) {
            Ok(()) => index += 1,
            Err(fault) => return Err(fault),
        }
    }
    Ok(())
}

/// Appends the line of a mailbox, if a reference and a pattern match its name.
fn push_name<S: Shelf, O: Sink>(
    listed: &Listed<'_>,
    index: u64,
    shelf: &S,
    reply: &mut Waiting,
    out: &mut O,
) -> Result<(), SinkFault>
    requires { S.ready shelf.now ≡ true }
    ensures said { (a : Archive) → S.holds shelf.now a
        → Waits (list_line_if a listed.now.name.now
        (listed.now.reference.now ++ listed.now.pattern.now) index)
        reply.old (O.taken out.old) (O.faults out.old) reply.new (O.taken out.new) (O.faults out.new)
        result }
    ensures empty { OnErr result (reply.new ≡ []) }
    ensures sink { O.alike out.old out.new }
{
    if !is_named(listed.reference, listed.pattern, index, shelf) {
        return reply.push(&[], out);
    }
    push_line(
        listed.name,
        index,
        shelf.config().name.as_slice(),
        reply,
        out,
    )
}

/// Returns whether a reference and a pattern match the name of the mailbox with an index.
fn is_named<S: Shelf>(reference: &[u8], pattern: &[u8], index: u64, shelf: &S) -> bool
    requires { S.ready shelf.now ≡ true }
    ensures { (a : Archive) → S.holds shelf.now a
        → result ≡ matches_name (reference.now ++ pattern.now) (box_name a index) }
{
    let mut buffer = Buffer::new();
    let digits = buffer.format(index).as_bytes();
    is_match(reference, pattern, shelf.config().name.as_slice(), digits)
}

/// Appends the line of the mailbox with an index, where the archive has a name.
fn push_line<'a, O: Sink>(
    command: &'a [u8],
    index: u64,
    name: &'a [u8],
    reply: &mut Waiting,
    out: &mut O,
) -> Result<(), SinkFault>
    ensures said { (a : Archive) → name.now ≡ a.config.name → Waits (list_line a command.now index)
        reply.old (O.taken out.old) (O.faults out.old) reply.new (O.taken out.new) (O.faults out.new)
        result }
    ensures empty { OnErr result (reply.new ≡ []) }
    ensures sink { O.alike out.old out.new }
{
    reply.push(
        &[
            Phrase::Words(b"* "),
            Phrase::Words(command),
            Phrase::Words(b" () NIL "),
            Phrase::Words(name),
            Phrase::Words(b"."),
            Phrase::Number(index),
            Phrase::Words(b"\r\n"),
        ],
        out,
    )
}
