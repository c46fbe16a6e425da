//! Answers the requests of a control connection from a keeper.
//! Writes the disk; syncs.
ghost use Rattle.std.specs.Prelude.{◌≡◌, ◌≤◌, ◌++◌, ℕ, List, length, drop, None, true, false, is_ok};
ghost use Rattle.line_door.specs.Acts.{Acts, held_if, at_sink};
ghost use Rattle.arch_model.specs.OverShelf.{ShelfKept};
ghost use Rattle.arch_model.specs.Archives.{Archive, live, text_of};
ghost use Rattle.arch_base.specs.Moments.{last_moment};
ghost use Rattle.arch_model.specs.Next.{continues};
ghost use Rattle.arch_model.specs.Shelves.{ReadsOnce, ReadsUpTo};
ghost use Rattle.arch_model.specs.Standing.{standing};
ghost use Rattle.control_door.specs.Counting.{Meets, request_asks, closes_session};
ghost use Rattle.control_door.specs.Door.{waiting, said_to};
ghost use Rattle.disk_model.specs.Sizes.{epoch_count};
ghost use Rattle.control_door.specs.Requests.{Shows, Threads, Lists, Reindexes};
ghost use Rattle.control_door.specs.Sessions.{request_of, request_for, request_with, StartsWithin, AnswersRequest, ReopensForCommand};

use crate::epochs::epochs_of;
use crate::front::{Aim, Requested};
use crate::replies::{say_bad, say_not_live, say_reindexed, say_text};
use crate::thread::thread_words;
use answer_lines::{say_answer, say_memory, say_unopened, say_unread};
use arch_base::{Bytes, NoMemory};
use arch_model::{Command, Keep, Next, Shelf, is_live};
use edge_io::{Sink, SinkFault, say};
use std::alloc::Global;

/// Reopens the archive. The session continues if it is open.
///
/// Does nothing if no command is in doubt. Writes the reason if reopening fails.
pub(crate) fn reopen<K: Keep, O: Sink>(keep: &mut K, out: &mut O) -> Next
    ensures acts { ReopensForCommand K.Keep keep.old
        (at_sink O.Sink out.old (K.faults keep.old))
        (continues result) keep.new
        (at_sink O.Sink out.new (K.faults keep.new)) }
    ensures ready { continues result ≡ true → K.ready keep.new ≡ true }
    ensures nothing { K.ready keep.old ≡ true
        → (continues result ≡ true) × (keep.new ≡ keep.old) }
    ensures later { K.faults keep.old ≤ K.faults keep.new }
    ensures sink { O.alike out.old out.new }
{
    match keep.fresh() {
        Ok(()) => Next::Go,
        Err(refusal) => {
            let _ = say_unopened(refusal, out);
            Next::Close
        }
    }
}

/// Answers a whole request, and returns whether the session continues.
///
/// It closes if a send is lost. May change what is held.
pub(crate) fn say_requested<K: Keep, O: Sink>(
    request: Requested<'_>,
    alloc: Global,
    held: &mut Bytes,
    moment: u64,
    keep: &mut K,
    out: &mut O,
) -> Next
    requires ready { K.ready keep.old ≡ true }
    requires moment { moment ≤ last_moment }
    requires starts { StartsWithin held.old request }
    ensures acts { AnswersRequest K.Keep moment (request_of held.old request.entry) keep.old
        (at_sink O.Sink out.old (K.faults keep.old))
        (continues result) keep.new
        (at_sink O.Sink out.new (K.faults keep.new)) }
    ensures later { K.faults keep.old ≤ K.faults keep.new }
    ensures reads { Meets (request_asks (request_of held.old request.entry)) (K.ready keep.new)
        (K.reads keep.old) (K.reads keep.new) }
    ensures closes { closes_session (request_of held.old request.entry) ≡ true
        → continues result ≡ false }
    ensures sink { O.alike out.old out.new }
{
    match request {
        Requested::Message(aim, message) => {
            Next::after(say_commanded(&command_of(aim, message), moment, keep, out))
        }
        Requested::Joined(aim, start, last) => {
            Next::after(say_joined(held, aim, start, last, moment, keep, out))
        }
        Requested::Text(number) => Next::after(say_message(alloc, number, keep, out)),
        Requested::Removal(number) => {
            Next::after(say_commanded(&Command::Remove(number), moment, keep, out))
        }
        Requested::Purge(number) => {
            Next::after(say_commanded(&Command::Purge(number), moment, keep, out))
        }
        Requested::Thread(number) => Next::after(say_thread(alloc, number, keep, out)),
        Requested::Epochs => Next::after(say_epochs(alloc, keep, out)),
        Requested::Reindexing => Next::after(say_reindexing(keep, out)),
        Requested::Quit => Next::Close,
        Requested::Mistake => Next::after(say_bad(out)),
        Requested::Excess => {
            let _ = say_bad(out);
            Next::Close
        }
    }
}

/// Returns the command of a message with an aim.
fn command_of(aim: Aim, message: &[u8]) -> Command<'_>
    ensures { request_for result ≡ request_with aim message.now }
{
    match aim {
        Aim::New => Command::Deliver(message),
        Aim::InPlaceOf(number) => Command::Edit(number, message),
    }
}

/// Carries out a command and writes the answer.
fn say_commanded<K: Keep, O: Sink>(
    command: &Command<'_>,
    moment: u64,
    keep: &mut K,
    out: &mut O,
) -> Result<(), SinkFault>
    requires ready { K.ready keep.old ≡ true }
    requires moment { moment ≤ last_moment }
    ensures acts { AnswersRequest K.Keep moment (request_for command.now) keep.old
        (at_sink O.Sink out.old (K.faults keep.old))
        (is_ok result) keep.new
        (at_sink O.Sink out.new (K.faults keep.new)) }
    ensures later { K.faults keep.old ≤ K.faults keep.new }
    ensures reads { Meets (request_asks (request_for command.now)) (K.ready keep.new)
        (K.reads keep.old) (K.reads keep.new) }
    ensures sink { O.alike out.old out.new }
{
    let answer = keep.command(command, moment);
    say_answer(answer, out)
}

/// Delivers a message that starts at an offset of what is held and ends with `last`, and writes the
/// answer.
///
/// Out of memory, writes `12 no memory` and delivers nothing.
fn say_joined<K: Keep, O: Sink>(
    held: &mut Bytes,
    aim: Aim,
    start: usize,
    last: &[u8],
    moment: u64,
    keep: &mut K,
    out: &mut O,
) -> Result<(), SinkFault>
    requires ready { K.ready keep.old ≡ true }
    requires moment { moment ≤ last_moment }
    requires starts { start ≤ length held.old }
    ensures acts { AnswersRequest K.Keep moment
        (request_with aim (drop start (held.old ++ last.now))) keep.old
        (at_sink O.Sink out.old (K.faults keep.old))
        (is_ok result) keep.new
        (at_sink O.Sink out.new (K.faults keep.new)) }
    ensures later { K.faults keep.old ≤ K.faults keep.new }
    ensures reads { Meets (request_asks (request_with aim (drop start (held.old ++ last.now))))
        (K.ready keep.new) (K.reads keep.old) (K.reads keep.new) }
    ensures sink { O.alike out.old out.new }
{
    if held.push_slice(last).is_err() {
        return say_memory(out);
    }
    let message = held.as_slice().split_at(start).1;
    say_commanded(&command_of(aim, message), moment, keep, out)
}

/// Writes the text of a number, or why there is none to write.
fn say_message<S: Shelf, O: Sink>(
    alloc: Global,
    number: u32,
    shelf: &mut S,
    out: &mut O,
) -> Result<(), SinkFault>
    requires { S.ready shelf.old ≡ true }
    ensures acts { (moment : ℕ) (a : Archive) (rest : List ℕ) → S.holds shelf.old a
        → Acts (said_to moment (standing a None) (Shows number) rest)
        (at_sink O.Sink out.old (S.faults shelf.old))
        (held_if (is_ok result) (waiting rest false)) (standing a None)
        (at_sink O.Sink out.new (S.faults shelf.new)) }
    ensures unused { (a : Archive) → S.holds shelf.old a → text_of (live a.entries) number ≡ None
        → S.faults shelf.new ≡ S.faults shelf.old }
    ensures shelf { ShelfKept S.Shelf shelf.old shelf.new }
    ensures reads { ReadsOnce (S.reads shelf.old) (S.reads shelf.new) }
    ensures sink { O.alike out.old out.new }
{
    if !is_live(number, shelf) {
        return say_not_live(number, out);
    }
    let mut text = Bytes::new(alloc);
    match shelf.text(number, &mut text) {
        Ok(()) => say_text(text.as_slice(), out),
        Err(refusal) => say_unread(refusal, out),
    }
}

/// Writes the tree of the thread of a number, or that it isn't live.
///
/// Out of memory, writes `12 no memory` and nothing of the tree. Reads nothing.
fn say_thread<S: Shelf, O: Sink>(
    alloc: Global,
    number: u32,
    shelf: &S,
    out: &mut O,
) -> Result<(), SinkFault>
    requires { S.ready shelf.now ≡ true }
    ensures acts { (moment : ℕ) (a : Archive) (rest : List ℕ) → S.holds shelf.now a
        → Acts (said_to moment (standing a None) (Threads number) rest)
        (at_sink O.Sink out.old (S.faults shelf.now))
        (held_if (is_ok result) (waiting rest false)) (standing a None)
        (at_sink O.Sink out.new (S.faults shelf.now)) }
    ensures sink { O.alike out.old out.new }
{
    if !is_live(number, shelf) {
        return say_not_live(number, out);
    }
    match thread_words(alloc, number, shelf) {
        Ok(words) => say(words.as_slice(), out),
        Err(NoMemory) => say_memory(out),
    }
}

/// Writes the list of epochs, or why it can't be read.
fn say_epochs<K: Keep, O: Sink>(alloc: Global, keep: &mut K, out: &mut O) -> Result<(), SinkFault>
    requires { K.ready keep.old ≡ true }
    ensures acts { (moment : ℕ) (a : Archive) (rest : List ℕ) → K.holds keep.old a
        → Acts (said_to moment (standing a None) Lists rest)
        (at_sink O.Sink out.old (K.faults keep.old))
        (held_if (is_ok result) (waiting rest false)) (standing a None)
        (at_sink O.Sink out.new (K.faults keep.new)) }
    ensures shelf { ShelfKept K.Shelf keep.old keep.new }
    ensures reads { ReadsUpTo epoch_count (K.reads keep.old) (K.reads keep.new) }
    ensures sink { O.alike out.old out.new }
{
    match epochs_of(alloc, keep) {
        Ok(words) => say(words.as_slice(), out),
        Err(refusal) => say_unread(refusal, out),
    }
}

/// Reindexes the archive, and writes the number of live messages, or why that was refused.
///
/// A refusal leaves the keeper stale.
fn say_reindexing<K: Keep, O: Sink>(keep: &mut K, out: &mut O) -> Result<(), SinkFault>
    requires { K.ready keep.old ≡ true }
    ensures acts { (moment : ℕ) → AnswersRequest K.Keep moment
        Reindexes keep.old
        (at_sink O.Sink out.old (K.faults keep.old))
        (is_ok result) keep.new
        (at_sink O.Sink out.new (K.faults keep.new)) }
    ensures later { K.faults keep.old ≤ K.faults keep.new }
    ensures sink { O.alike out.old out.new }
{
    match keep.reindex() {
        Ok(live) => say_reindexed(live, out),
        Err(refusal) => say_unopened(refusal, out),
    }
}
