//! What a client is told of changes.
//! Allocates.
ghost use Rattle.std.specs.Prelude.{◌≡◌, ◌++◌, [], true, IfOk, OnOk, OnErr};
ghost use Rattle.std.specs.List.{flat_map};
ghost use Rattle.arch_model.specs.Archives.{Archive};
ghost use Rattle.edge_io.specs.Phrases.{SaysTo};
ghost use Rattle.wire_replies.specs.Waits.{Waits};
ghost use Rattle.imap_states.specs.Notices.{done_line};
ghost use Rattle.imap_states.specs.States.{expunge_line, exists_if, change_lines, place_lines, place_now, SuitsPlace};

use crate::state::ImapPlace;
use arch_base::{MessageNumbers, NoMemory};
use arch_model::Shelf;
use edge_io::{Sink, SinkFault};
use known_uids::Changes;
use std::alloc::Global;
use wire_replies::{Phrase, Waiting};

/// Returns what a client at a place is told of changes. It knows the messages that are there then.
///
/// `NoMemory` if an allocation fails, and the place is unchanged.
pub(crate) fn find_changes<S: Shelf>(
    place: &mut ImapPlace,
    alloc: Global,
    shelf: &S,
) -> Result<Changes, NoMemory>
    requires { S.ready shelf.now ≡ true }
    ensures told { (a : Archive) → S.holds shelf.now a → SuitsPlace a place.old
        → IfOk result (λ told. change_lines told ≡ place_lines a place.old) }
    ensures now { (a : Archive) → S.holds shelf.now a → SuitsPlace a place.old
        → OnOk result (place.new ≡ place_now a place.old) }
    ensures err { OnErr result (place.new ≡ place.old) }
{
    match place {
        ImapPlace::Selected(told) => told.tell(alloc, shelf),
        ImapPlace::LoggedOut => Ok(no_changes(alloc)),
        ImapPlace::LoggedIn => Ok(no_changes(alloc)),
    }
}

/// Returns no changes.
fn no_changes(alloc: Global) -> Changes
    ensures { change_lines result ≡ [] }
{
    Changes {
        gone: MessageNumbers::new(alloc),
        exists: None,
    }
}

/// Appends the lines that tell a client of changes.
///
/// `SinkFault` if a write failed. A prefix of what waited and of these lines was taken, and the sink's
/// count of faults rose. None wait then.
pub(crate) fn push_changes<O: Sink>(
    changes: &Changes,
    reply: &mut Waiting,
    out: &mut O,
) -> Result<(), SinkFault>
    ensures said { Waits (change_lines changes.now) reply.old (O.taken out.old) (O.faults out.old)
        reply.new (O.taken out.new) (O.faults out.new) result }
    ensures empty { OnErr result (reply.new ≡ []) }
    ensures sink { O.alike out.old out.new }
{
    push_gone(changes.gone.as_slice(), reply, out)?;
    push_exists(changes.exists, reply, out)
}

/// Appends a line for each sequence number of a message that is gone.
fn push_gone<O: Sink>(gone: &[u32], reply: &mut Waiting, out: &mut O) -> Result<(), SinkFault>
    ensures said { Waits (flat_map expunge_line gone.now) reply.old (O.taken out.old)
        (O.faults out.old) reply.new (O.taken out.new) (O.faults out.new) result }
    ensures empty { OnErr result (reply.new ≡ []) }
    ensures sink { O.alike out.old out.new }
{
    for sequence in gone {
        match push_expunge(*sequence, reply, out) {
            Ok(()) => {}
            Err(fault) => return Err(fault),
        }
    }
    Ok(())
}

/// Appends the line of a message that is gone.
fn push_expunge<O: Sink>(sequence: u32, reply: &mut Waiting, out: &mut O) -> Result<(), SinkFault>
    ensures said { Waits (expunge_line sequence) reply.old (O.taken out.old) (O.faults out.old)
        reply.new (O.taken out.new) (O.faults out.new) result }
    ensures empty { OnErr result (reply.new ≡ []) }
    ensures sink { O.alike out.old out.new }
{
    reply.push(
        &[
            Phrase::Words(b"* "),
            Phrase::Number(u64::from(sequence)),
            Phrase::Words(b" EXPUNGE\r\n"),
        ],
        out,
    )
}

/// Appends how many messages there are, if there are new ones.
fn push_exists<O: Sink>(
    exists: Option<u32>,
    reply: &mut Waiting,
    out: &mut O,
) -> Result<(), SinkFault>
    ensures said { Waits (exists_if exists) reply.old (O.taken out.old) (O.faults out.old) reply.new
        (O.taken out.new) (O.faults out.new) result }
    ensures empty { OnErr result (reply.new ≡ []) }
    ensures sink { O.alike out.old out.new }
{
    match exists {
        None => reply.push(&[], out),
        Some(count) => reply.push(
            &[
                Phrase::Words(b"* "),
                Phrase::Number(u64::from(count)),
                Phrase::Words(b" EXISTS\r\n"),
            ],
            out,
        ),
    }
}

/// Tells a client of changes after what waits, and says that a command was carried out.
pub(crate) fn finish_told<'a, O: Sink>(
    changes: &Changes,
    tag: &'a [u8],
    name: &'a [u8],
    reply: &mut Waiting,
    out: &mut O,
) -> Result<(), SinkFault>
    ensures said { SaysTo O.Sink (reply.old ++ (change_lines changes.now
        ++ done_line tag.now name.now)) out.old out.new result }
    ensures sink { O.alike out.old out.new }
{
    push_changes(changes, reply, out)?;
    reply.finish(
        &[
            Phrase::Words(tag),
            Phrase::Words(b" OK "),
            Phrase::Words(name),
            Phrase::Words(b" done\r\n"),
        ],
        out,
    )
}
