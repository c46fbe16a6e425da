//! Answers whole heads from a shelf.
//! Reads the disk.
ghost use Rattle.std.specs.Prelude.{◌≡◌, ◌&&◌, not, true};
ghost use Rattle.line_door.specs.Acts.{at_sink};
ghost use Rattle.arch_base.specs.Moments.{IsMoment};
ghost use Rattle.arch_model.specs.OverShelf.{ShelfKept};
ghost use Rattle.arch_model.specs.Next.{continues};
ghost use Rattle.arch_model.specs.Shelves.{ReadsIn};
ghost use Rattle.http_heads.specs.Heads.{shown};
ghost use Rattle.http_front.specs.Asking.{target_reads};
ghost use Rattle.http_front.specs.Counting.{served_texts};
ghost use Rattle.http_front.specs.Door.{head_uses};
ghost use Rattle.http_front.specs.Reading.{asked_in};
ghost use Rattle.http_front.specs.Sessions.{AnswersHead, ReadsHead, Serves, SparesIn, SaysWhole};

use crate::found::{FoundBody, find_target};
use crate::mailbox::{say_every_mail, say_mails};
use crate::replies::{PART_LEN, push_front, say_parts, say_status, say_unread, say_words, sent};
use arch_base::{Bytes, NoMemory};
use arch_model::{Next, Shelf};
use edge_io::Sink;
use http_heads::{Body, Request, Status, Verdict, judge, read_head};
use std::alloc::Global;

/// What is said of a text to search for that is no query.
const BAD_RANGE: &[u8] = b"bad range\n";

/// Answers a whole head, and returns whether the session continues.
pub(crate) fn answer_head<S: Shelf, O: Sink>(
    alloc: Global,
    head: &[u8],
    moment: u64,
    shelf: &mut S,
    out: &mut O,
) -> Next
    requires ready { S.ready shelf.old ≡ true }
    requires moment { IsMoment moment }
    ensures acts { AnswersHead S.holds moment head.now shelf.old
        (at_sink O.Sink out.old (S.faults shelf.old)) (continues result)
        (at_sink O.Sink out.new (S.faults shelf.new)) }
    ensures reads { ReadsHead S.holds head.now shelf.old (S.reads shelf.old) (S.reads shelf.new) }
    ensures unused { SparesIn S.holds (λ a. head_uses a (asked_in head.now)) shelf.old
        (S.faults shelf.old) (S.faults shelf.new) }
    ensures shelf { ShelfKept S.Shelf shelf.old shelf.new }
    ensures sink { O.alike out.old out.new }
{
    match read_head(head) {
        Some(request) => match judge(Some(request)) {
            Verdict::Serve(sends) => serve(alloc, &request, sends, moment, shelf, out),
            Verdict::Refuse(status, sends) => {
                let _ = say_status(status, moment, sends, true, out);
                Next::Close
            }
        },
        None => {
            let _ = say_status(Status::BadRequest, moment, true, true, out);
            Next::Close
        }
    }
}

/// Serves a request, with a body or without one, and returns whether the session continues.
fn serve<S: Shelf, O: Sink>(
    alloc: Global,
    request: &Request<'_>,
    sends: bool,
    moment: u64,
    shelf: &mut S,
    out: &mut O,
) -> Next
    requires ready { S.ready shelf.old ≡ true }
    requires moment { IsMoment moment }
    ensures acts { Serves S.holds moment (shown request.now) sends shelf.old
        (at_sink O.Sink out.old (S.faults shelf.old)) (continues result)
        (at_sink O.Sink out.new (S.faults shelf.new)) }
    ensures reads { ReadsIn S.holds (λ a. served_texts a request.now.target.now sends) shelf.old
        (S.reads shelf.old) (S.reads shelf.new) }
    ensures unused { SparesIn S.holds (λ a. target_reads a request.now.target.now) shelf.old
        (S.faults shelf.old) (S.faults shelf.new) }
    ensures shelf { ShelfKept S.Shelf shelf.old shelf.new }
    ensures sink { O.alike out.old out.new }
{
    let closes = request.closes;
    match find_target(alloc, request.target, shelf) {
        Ok(FoundBody::Whole(body, bytes)) => {
            say_whole(alloc, body, bytes.as_slice(), moment, sends, closes, out)
        }
        Ok(FoundBody::EveryMail) => say_every_mail(alloc, moment, sends, closes, shelf, out),
        Ok(FoundBody::Mails(numbers)) => {
            say_mails(alloc, numbers.as_slice(), moment, sends, closes, shelf, out)
        }
        Ok(FoundBody::Nothing) => {
            let said = say_status(Status::NotFound, moment, sends, closes, out);
            next_after(said.is_ok(), closes)
        }
        Ok(FoundBody::BadRange) => {
            let said = say_words(Status::BadRequest, BAD_RANGE, moment, sends, closes, out);
            next_after(said.is_ok(), closes)
        }
        Err(refusal) => {
            let _ = say_unread(alloc, refusal, moment, sends, out);
            Next::Close
        }
    }
}

/// Writes a reply with a body, and returns whether the session continues.
///
/// A long body is written in parts, without a copy of it all. Out of memory, none of it was written.
fn say_whole<O: Sink>(
    alloc: Global,
    body: Body,
    bytes: &[u8],
    moment: u64,
    sends: bool,
    closes: bool,
    out: &mut O,
) -> Next
    requires moment { IsMoment moment }
    ensures said { SaysWhole body bytes.now moment sends closes (O.taken out.old) (O.faults out.old)
        (O.taken out.new) (O.faults out.new) (continues result) }
    ensures sink { O.alike out.old out.new }
{
    let words = sent(bytes, sends);
    let (first, rest) = words.split_at(words.len().min(PART_LEN));
    let mut front = Bytes::new(alloc);
    match push_front(moment, body, bytes.len() as u128, first, closes, &mut front) {
        Ok(()) => {
            let said = say_parts(front.as_slice(), rest, out);
            next_after(said.is_ok(), closes)
        }
        Err(NoMemory) => {
            let _ = say_status(Status::Unavailable, moment, sends, true, out);
            Next::Close
        }
    }
}

/// Continues after a reply that was sent, unless it says that the connection is closed.
pub(crate) fn next_after(sent: bool, closes: bool) -> Next
    ensures { continues result ≡ sent && not closes }
{
    if sent && !closes {
        Next::Go
    } else {
        Next::Close
    }
}
