//! Mailbox files, as streamed replies whose length is said first.
//! Reads the disk.
ghost use Rattle.std.specs.Prelude.{◌≡◌, ◌++◌, ◌<◌, ◌^◌, ℕ, length, true, false, is_some, IfOk, OnErr, Result};
ghost use Rattle.line_door.specs.Acts.{at_sink};
ghost use Rattle.arch_base.specs.Moments.{IsMoment};
ghost use Rattle.arch_model.specs.OverShelf.{ShelfKept};
ghost use Rattle.arch_model.specs.Archives.{Archive, live, text_of};
ghost use Rattle.arch_model.specs.Next.{continues};
ghost use Rattle.arch_model.specs.Shelves.{ReadCause, ReadsOnce, ReadsUpTo, ReadsIn};
ghost use Rattle.edge_io.specs.Phrases.{Says, SaysTo};
ghost use Rattle.edge_io.specs.declared.sink.SinkFault.{SinkFault};
ghost use Rattle.http_heads.specs.Replies.{reply_head};
ghost use Rattle.http_front.specs.Views.{shown_text};
ghost use Rattle.http_front.specs.Mailboxes.{piece_by, piece_at, mailbox_at, whole_mailbox};
ghost use Rattle.http_front.specs.Counting.{body_texts};
ghost use Rattle.http_front.specs.Feeding.{AppendsOrRefuses};
ghost use Rattle.http_front.specs.Replies.{word};
ghost use Rattle.http_front.specs.Sessions.{SaysThen, ServesMailbox, StreamsOn};
ghost use Rattle.http_front.specs.Streaming.{StreamsPart};

use crate::answer::next_after;
use crate::numbers::live_from;
use crate::replies::{PART_LEN, say_status, say_unread};
use arch_base::{Bytes, NoMemory};
use arch_model::{Next, Shelf, TextRefusal, is_live};
use atom_mbox::mbox_piece;
use edge_io::{Sink, SinkFault, say};
use http_heads::{Body, Status, push_reply_head};
use shelf_doors::StreamStop;
use std::alloc::Global;

/// How a reply is said.
#[derive(Clone, Copy, Drop)]
pub(crate) struct Manner {
    /// The moment of the reply.
    pub(crate) moment: u64,
    /// Whether the connection ends with the reply.
    pub(crate) closes: bool,
}

/// Writes the mailbox file of all mails, by number, and returns whether the session continues.
///
/// One text is in memory at a time.
pub(crate) fn say_every_mail<S: Shelf, O: Sink>(
    alloc: Global,
    moment: u64,
    sends: bool,
    closes: bool,
    shelf: &mut S,
    out: &mut O,
) -> Next
    requires ready { S.ready shelf.old ≡ true }
    requires moment { IsMoment moment }
    ensures acts { ServesMailbox S.holds (λ a. whole_mailbox a.entries) moment sends closes shelf.old
        (at_sink O.Sink out.old (S.faults shelf.old)) (continues result)
        (at_sink O.Sink out.new (S.faults shelf.new)) }
    ensures reads { ReadsIn S.holds (λ a. body_texts sends (length (live a.entries))) shelf.old
        (S.reads shelf.old) (S.reads shelf.new) }
    ensures shelf { ShelfKept S.Shelf shelf.old shelf.new }
    ensures sink { O.alike out.old out.new }
{
    let len = every_len(shelf);
    match head_of(alloc, len, moment, closes) {
        Ok(head) => {
            if sends {
                say_every_piece(alloc, Manner { moment, closes }, head, shelf, out)
            } else {
                say_rest(head, closes, out)
            }
        }
        Err(NoMemory) => end_without_memory(moment, sends, out),
    }
}

/// Writes the mailbox file of these numbers, and returns whether the session continues.
///
/// One text is in memory at a time.
pub(crate) fn say_mails<S: Shelf, O: Sink>(
    alloc: Global,
    numbers: &[u32],
    moment: u64,
    sends: bool,
    closes: bool,
    shelf: &mut S,
    out: &mut O,
) -> Next
    requires ready { S.ready shelf.old ≡ true }
    requires moment { IsMoment moment }
    ensures acts { ServesMailbox S.holds (λ a. mailbox_at a.entries numbers.now) moment sends closes
        shelf.old (at_sink O.Sink out.old (S.faults shelf.old))
        (continues result)
        (at_sink O.Sink out.new (S.faults shelf.new)) }
    ensures reads { ReadsUpTo (body_texts sends (length numbers.now)) (S.reads shelf.old)
        (S.reads shelf.new) }
    ensures shelf { ShelfKept S.Shelf shelf.old shelf.new }
    ensures sink { O.alike out.old out.new }
{
    let len = len_of(numbers, shelf);
    match head_of(alloc, len, moment, closes) {
        Ok(head) => {
            if sends {
                say_pieces(alloc, numbers, Manner { moment, closes }, head, shelf, out)
            } else {
                say_rest(head, closes, out)
            }
        }
        Err(NoMemory) => end_without_memory(moment, sends, out),
    }
}

/// Returns the head of a reply with a mailbox file of this length.
fn head_of(alloc: Global, len: u128, moment: u64, closes: bool) -> Result<Bytes, NoMemory>
    requires { IsMoment moment }
    ensures { IfOk result (λ head. head ≡ reply_head Status.Done moment Body.Mailbox len closes) }
{
    let mut head = Bytes::new(alloc);
    push_reply_head(Status::Done, moment, Body::Mailbox, len, closes, &mut head)?;
    Ok(head)
}

/// Writes that memory ran out, in place of a reply, and ends the session.
fn end_without_memory<O: Sink>(moment: u64, sends: bool, out: &mut O) -> Next
    requires { IsMoment moment }
    ensures said { (sent : Result Unit SinkFault) × SaysTo O.Sink
        (word Status.Unavailable moment sends true) out.old out.new sent }
    ensures next { continues result ≡ false }
    ensures sink { O.alike out.old out.new }
{
    let _ = say_status(Status::Unavailable, moment, sends, true, out);
    Next::Close
}

/// Returns the length of the mailbox file of all mails, in bytes.
fn every_len<S: Shelf>(shelf: &S) -> u128
    requires { S.ready shelf.now ≡ true }
    ensures { (a : Archive) → S.holds shelf.now a → result ≡ length (whole_mailbox a.entries) }
{
    let mut len: u128 = 0;
    let mut low: u64 = 0;
    while let Some(n) = live_from(low, shelf) {
        len += piece_len(n, shelf);
        low = u64::from(n) + 1;
    }
    len
}

/// Returns the length of the mailbox file of these numbers, in bytes.
fn len_of<S: Shelf>(numbers: &[u32], shelf: &S) -> u128
    requires { S.ready shelf.now ≡ true }
    ensures { (a : Archive) → S.holds shelf.now a
        → result ≡ length (mailbox_at a.entries numbers.now) }
{
    let mut len: u128 = 0;
    for n in numbers {
        len += piece_len(*n, shelf);
    }
    len
}

/// Returns the length of the piece of a number, as its row tells it.
fn piece_len<S: Shelf>(n: u32, shelf: &S) -> u128
    requires { S.ready shelf.now ≡ true }
    ensures value { (a : Archive) → S.holds shelf.now a → result ≡ length (piece_at a.entries n) }
    ensures small { result < 2 ^ 64 }
{
    match shelf.row(n) {
        Some(row) => widened(row.mbox),
        None => 0,
    }
}

/// Returns a length as a number of more bits, in which lengths are added.
fn widened(len: u64) -> u128
    ensures value { result ≡ len }
    ensures small { result < 2 ^ 64 }
{
    u128::from(len)
}

/// Writes what is to be said and then the pieces of all mails, by number.
fn say_every_piece<S: Shelf, O: Sink>(
    alloc: Global,
    manner: Manner,
    mut unsaid: Bytes,
    shelf: &mut S,
    out: &mut O,
) -> Next
    requires ready { S.ready shelf.old ≡ true }
    requires moment { IsMoment manner.moment }
    ensures acts { StreamsOn S.holds (λ a. unsaid ++ whole_mailbox a.entries) manner.moment
        manner.closes shelf.old
        (at_sink O.Sink out.old (S.faults shelf.old)) (continues result)
        (at_sink O.Sink out.new (S.faults shelf.new)) }
    ensures reads { ReadsIn S.holds (λ a. length (live a.entries)) shelf.old (S.reads shelf.old)
        (S.reads shelf.new) }
    ensures shelf { ShelfKept S.Shelf shelf.old shelf.new }
    ensures sink { O.alike out.old out.new }
{
    let mut begun = false;
    let mut low: u64 = 0;
    while let Some(n) = live_from(low, shelf) {
        match say_part(alloc, n, begun, manner.moment, &mut unsaid, shelf, out) {
            Ok(said) => {
                begun = said;
                low = u64::from(n) + 1;
            }
            Err(_) => return Next::Close,
        }
    }
    say_rest(unsaid, manner.closes, out)
}

/// Writes what is to be said and then the pieces of these numbers.
fn say_pieces<S: Shelf, O: Sink>(
    alloc: Global,
    numbers: &[u32],
    manner: Manner,
    mut unsaid: Bytes,
    shelf: &mut S,
    out: &mut O,
) -> Next
    requires ready { S.ready shelf.old ≡ true }
    requires moment { IsMoment manner.moment }
    ensures acts { StreamsOn S.holds (λ a. unsaid ++ mailbox_at a.entries numbers.now) manner.moment
        manner.closes shelf.old
        (at_sink O.Sink out.old (S.faults shelf.old)) (continues result)
        (at_sink O.Sink out.new (S.faults shelf.new)) }
    ensures reads { ReadsUpTo (length numbers.now) (S.reads shelf.old) (S.reads shelf.new) }
    ensures shelf { ShelfKept S.Shelf shelf.old shelf.new }
    ensures sink { O.alike out.old out.new }
{
    let mut begun = false;
    for n in numbers {
        match say_part(alloc, *n, begun, manner.moment, &mut unsaid, shelf, out) {
            Ok(said) => begun = said,
            Err(_) => return Next::Close,
        }
    }
    say_rest(unsaid, manner.closes, out)
}

/// Puts the piece of a number after what is to be said, and says that if it is long.
///
/// Returns whether any words of the reply were said so far. A text that isn't read stops the reply; if
/// nothing was said of it, that is said instead.
fn say_part<S: Shelf, O: Sink>(
    alloc: Global,
    n: u32,
    begun: bool,
    moment: u64,
    unsaid: &mut Bytes,
    shelf: &mut S,
    out: &mut O,
) -> Result<bool, StreamStop>
    requires ready { S.ready shelf.old ≡ true }
    requires moment { IsMoment moment }
    ensures part { (a : Archive) → S.holds shelf.old a
        → StreamsPart moment (unsaid.old ++ piece_at a.entries n) begun
        (at_sink O.Sink out.old (S.faults shelf.old)) result unsaid.new
        (at_sink O.Sink out.new (S.faults shelf.new)) }
    ensures reads { ReadsOnce (S.reads shelf.old) (S.reads shelf.new) }
    ensures shelf { ShelfKept S.Shelf shelf.old shelf.new }
    ensures sink { O.alike out.old out.new }
{
    if is_live(n, shelf) {
        say_piece(alloc, n, begun, moment, unsaid, shelf, out)
    } else {
        Ok(begun)
    }
}

/// Puts the piece of a live number after what is to be said, and says that if it is long.
fn say_piece<S: Shelf, O: Sink>(
    alloc: Global,
    n: u32,
    begun: bool,
    moment: u64,
    unsaid: &mut Bytes,
    shelf: &mut S,
    out: &mut O,
) -> Result<bool, StreamStop>
    requires ready { S.ready shelf.old ≡ true }
    requires moment { IsMoment moment }
    requires live { (a : Archive) → S.holds shelf.old a
        → is_some (text_of (live a.entries) n) ≡ true }
    ensures part { (a : Archive) → S.holds shelf.old a
        → StreamsPart moment (unsaid.old ++ piece_at a.entries n) begun
        (at_sink O.Sink out.old (S.faults shelf.old)) result unsaid.new
        (at_sink O.Sink out.new (S.faults shelf.new)) }
    ensures reads { ReadsOnce (S.reads shelf.old) (S.reads shelf.new) }
    ensures shelf { ShelfKept S.Shelf shelf.old shelf.new }
    ensures sink { O.alike out.old out.new }
{
    match push_piece(alloc, n, unsaid, shelf) {
        Ok(()) => say_long(begun, unsaid, out),
        Err(refusal) => {
            if begun {
                return Err(StreamStop::Short);
            }
            let sent = say_unread(alloc, refusal, moment, true, out);
            Err(StreamStop::Unread(sent))
        }
    }
}

/// Says what is to be said if it is long, and returns whether any words of the reply were said so far.
fn say_long<O: Sink>(begun: bool, unsaid: &mut Bytes, out: &mut O) -> Result<bool, StreamStop>
    ensures part { (moment disk : ℕ) → StreamsPart moment unsaid.old begun
        (at_sink O.Sink out.old disk) result unsaid.new
        (at_sink O.Sink out.new disk) }
    ensures sink { O.alike out.old out.new }
{
    if unsaid.as_slice().len() < PART_LEN {
        return Ok(begun);
    }
    match say(unsaid.as_slice(), out) {
        Ok(()) => {
            unsaid.truncate(0);
            Ok(true)
        }
        Err(SinkFault) => Err(StreamStop::Lost),
    }
}

/// Appends the piece of a live number.
///
/// A refusal leaves the bytes unchanged.
fn push_piece<S: Shelf>(
    alloc: Global,
    n: u32,
    into: &mut Bytes,
    shelf: &mut S,
) -> Result<(), TextRefusal>
    requires ready { S.ready shelf.old ≡ true }
    requires live { (a : Archive) → S.holds shelf.old a
        → is_some (text_of (live a.entries) n) ≡ true }
    ensures piece { (a : Archive) → S.holds shelf.old a
        → AppendsOrRefuses (piece_by (shown_text a.entries n)) into.old into.new result }
    ensures refused { OnErr result (into.new ≡ into.old) }
    ensures reads { ReadsOnce (S.reads shelf.old) (S.reads shelf.new) }
    ensures shelf { ShelfKept S.Shelf shelf.old shelf.new }
    ensures cause { ReadCause (S.faults shelf.old) (S.faults shelf.new) result }
{
    let mut text = Bytes::new(alloc);
    match shelf.text(n, &mut text) {
        Ok(()) => match mbox_piece(text.as_slice(), into) {
            Ok(()) => Ok(()),
            Err(NoMemory) => Err(TextRefusal::NoMemory),
        },
        Err(refusal) => Err(refusal),
    }
}

/// Writes the last words of a reply, and returns whether the session continues.
fn say_rest<O: Sink>(unsaid: Bytes, closes: bool, out: &mut O) -> Next
    ensures said { SaysThen unsaid closes (O.taken out.old) (O.faults out.old) (O.taken out.new)
        (O.faults out.new) (continues result) }
    ensures sink { O.alike out.old out.new }
{
    let said = say(unsaid.as_slice(), out);
    next_after(said.is_ok(), closes)
}
