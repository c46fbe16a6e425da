//! A control connection: the bytes that are not answered yet, and the answer to a piece.
//! Writes the disk; syncs.
ghost use Rattle.std.specs.Prelude.{◌≡◌, ◌⊎◌, ◌+◌, ◌<◌, ◌≤◌, ℕ, [], ◌++◌, length, take, drop, Bool, true, false, if◌then◌else◌};
ghost use Rattle.line_door.specs.Lines.{front, Whole, content};
ghost use Rattle.line_door.specs.Acts.{at_sink};
ghost use Rattle.arch_base.specs.Moments.{last_moment};
ghost use Rattle.arch_model.specs.Next.{continues};
ghost use Rattle.arch_model.specs.Standing.{LastKnown};
ghost use Rattle.control_door.specs.Counting.{Meets, ControlActReads, IsRest, asks_for};
ghost use Rattle.control_door.specs.Orders.{order_of};
ghost use Rattle.control_door.specs.Requests.{is_request, line_limit};

use crate::answers::{reopen, say_requested};
use crate::front::{Aim, Front, Payload, Requested};
use crate::order::{Order, read_order};
use answer_lines::say_memory;
use arch_base::Bytes;
use arch_model::{Keep, Next};
use edge_io::Sink;
use line_door::{Ahead, line_content, next_in};
use std::alloc::Global;
use std::marker::Model;

/// The greatest length of a line with its line end, in octets.
const LINE_LIMIT: usize = 512;

/// The result of one act on the bytes at the front.
#[derive(Clone, Copy, Drop)]
pub(crate) enum Act {
    /// The archive was reopened, or nothing was in doubt.
    Opened,
    /// A request that took this many bytes of the piece was answered, and the session continues.
    Went(usize),
    /// The piece was appended to what is held.
    Kept,
    /// The session is closed.
    Closed,
}

/// A session of a control connection.
///
/// A contract sees it as the bytes that are not answered yet.
#[derive(Drop)]
pub struct Session {
    alloc: Global,
    held: Bytes,
    payload: Option<Payload>,
}

impl Model for Session {
    ghost use Rattle.std.specs.Prelude.{List, ℕ};
    ghost use Rattle.control_door.specs.Sessions.{IsHeldRequest};

    ghost Value = { List ℕ };

    ghost view = { λ s. s.held };

    ghost invariant = { λ s. IsHeldRequest s.held s.payload };
}

impl Session {
    ghost use Rattle.control_door.specs.Sessions.{IsControlAct, IsHeldRequest, IsPayload, order_with, IsRequestFront, ControlActs, TakesRequest, AnswersCommands};

    /// Returns a session without bytes. The control door has no greeting.
    pub fn open(alloc: Global) -> Session
        ensures { result ≡ [] }
    {
        Session {
            alloc,
            held: Bytes::new(alloc),
            payload: None,
        }
    }

    /// Answers the whole requests of a piece in order, and keeps the rest. Returns whether the
    /// session continues.
    ///
    /// `moment` is in seconds since 1970 UTC. The keeper is ready at first. It is reopened before
    /// each further request, which changes nothing of a ready one, and says nothing then. After each
    /// act the keeper matches what stands then: so before the next request is answered its files are
    /// exactly those of the archive, where nothing is in doubt.
    ///
    /// The session ends, and the remaining bytes are dropped:
    ///
    /// * at `quit`, which writes nothing;
    /// * at a line of more than 512 octets with its line end, and at `deliver` and `edit` with a SIZE
    ///   above 9,000,000, which write `13 bad line`;
    /// * if out of memory for a rest that isn't empty, which writes `12 no memory`;
    /// * if reopening fails, which writes `12 no memory` or `10 disk fault`. It writes `11 damaged`
    ///   and a file only if the keeper keeps no archive;
    /// * if a send is lost. A prefix of the words was taken, the sink's count of faults rose, and
    ///   what the request changed stays.
    ///
    /// The contract then says nothing of what the session holds.
    ///
    /// A crash since the call began leaves an archive that stood between two of these acts, or one
    /// that was in doubt there.
    ///
    /// A command, a text, a thread, a list of epochs or a reindexing that runs out of memory writes
    /// `12 no memory`, and the archive is unchanged. If the disk fails at one, it writes
    /// `10 disk fault`, and the keeper's count of faults rose in that act. It stays at each other one of
    /// them. The session continues in both cases. After a fault, only reopening the archive shows
    /// whether a command was carried out.
    ///
    /// The keeper reads no more than the requests that are answered ask for: one text for `show`, 64
    /// for `epochs`, none for `thread`, after which it is ready; and one for a `deliver` or a `remove`
    /// that no other request follows. Nothing bounds what is read for `purge`, `edit` and `reindex`,
    /// nor for a request after a command, before which the archive may have to be reopened.
    pub fn feed<K: Keep, O: Sink>(
        &mut self,
        piece: &[u8],
        moment: u64,
        keep: &mut K,
        out: &mut O,
    ) -> Next
        requires ready { K.ready keep.old ≡ true }
        requires moment { moment ≤ last_moment }
        ensures fed { AnswersCommands K.Keep moment (self.old ++ piece.now) keep.old
            (at_sink O.Sink out.old (K.faults keep.old))
            (continues result) self.new keep.new
            (at_sink O.Sink out.new (K.faults keep.new)) }
        ensures later { K.faults keep.old ≤ K.faults keep.new }
        ensures reads { Meets (asks_for (self.old ++ piece.now)) (K.ready keep.new)
            (K.reads keep.old) (K.reads keep.new) }
        ensures sink { O.alike out.old out.new }
    {
        let mut rest = piece;
        let mut opened = true;
        loop {
            match self.act(rest, opened, moment, keep, out) {
                Act::Opened => opened = true,
                Act::Went(taken) => {
                    rest = rest.split_at(taken).1;
                    opened = false;
                }
                Act::Kept => return Next::Go,
                Act::Closed => return Next::Close,
            }
        }
    }

    /// Does one act on the bytes at the front.
    ///
    /// A whole request is answered only if the archive was reopened right before.
    fn act<K: Keep, O: Sink>(
        &mut self,
        piece: &[u8],
        opened: bool,
        moment: u64,
        keep: &mut K,
        out: &mut O,
    ) -> Act
        requires ready { opened ≡ true → K.ready keep.old ≡ true }
        requires moment { moment ≤ last_moment }
        ensures turn { ControlActs K.Keep moment opened self.old
            piece.now keep.old
            (at_sink O.Sink out.old (K.faults keep.old))
            result self.new keep.new
            (at_sink O.Sink out.new (K.faults keep.new)) }
        ensures takes { TakesRequest opened piece.now result }
        ensures ready { result ≡ Act.Opened → K.ready keep.new ≡ true }
        ensures held { result ≡ Act.Opened → self.new ≡ self.old }
        ensures reads { K.ready keep.old ≡ true → ControlActReads self.old piece.now result self.new
            (K.ready keep.new) (K.reads keep.old) (K.reads keep.new) }
        ensures rest { is_request (self.old ++ piece.now) ≡ false
            → IsRest result (K.reads keep.old) (K.reads keep.new) }
        ensures later { K.faults keep.old ≤ K.faults keep.new }
        ensures sink { O.alike out.old out.new }
    {
        match self.front(piece) {
            Front::Rest(payload) => self.hold(piece, payload, out),
            Front::Whole(request, taken) => {
                if !opened {
                    return reopened(reopen(keep, out));
                }
                let next = say_requested(request, self.alloc, &mut self.held, moment, keep, out);
                self.held.truncate(0);
                self.payload = None;
                went(taken, next)
            }
        }
    }

    /// Keeps a piece that doesn't end a request. An empty piece needs no memory.
    fn hold<O: Sink>(&mut self, piece: &[u8], payload: Option<Payload>, out: &mut O) -> Act
        requires { IsHeldRequest (self.old ++ piece.now) payload }
        ensures turn { (moment disk : ℕ) (opened : Bool) (s : LastKnown)
            → IsControlAct moment opened s self.old piece.now
            (at_sink O.Sink out.old disk)
            result s self.new
            (at_sink O.Sink out.new disk) }
        ensures ends { (result ≡ Act.Kept) ⊎ (result ≡ Act.Closed) }
        ensures sink { O.alike out.old out.new }
    {
        if piece.is_empty() {
            self.payload = payload;
            return Act::Kept;
        }
        if self.held.push_slice(piece).is_err() {
            let _ = say_memory(out);
            return Act::Closed;
        }
        self.payload = payload;
        Act::Kept
    }

    /// Returns the front of what is held and a piece.
    fn front<'a>(&self, piece: &'a [u8]) -> Front<'a>
        ensures { IsRequestFront self.now piece.now result }
    {
        if let Some(payload) = self.payload {
            return self.joined(payload, piece);
        }
        match next_in(self.held.as_slice(), piece, LINE_LIMIT) {
            Ahead::More => Front::Rest(None),
            Ahead::Long => Front::Whole(Requested::Excess, piece.len()),
            Ahead::Line(len) => self.line(len, piece),
        }
    }

    /// Returns the front, if the beginning of a delivery or an edit is held.
    fn joined<'a>(&self, payload: Payload, piece: &'a [u8]) -> Front<'a>
        requires { IsPayload self.now payload.aim payload.start payload.end }
        ensures { IsRequestFront self.now piece.now result }
    {
        let missing = payload.end - self.held.as_slice().len();
        if piece.len() < missing {
            return Front::Rest(Some(payload));
        }
        let last = piece.split_at(missing).0;
        Front::Whole(Requested::Joined(payload.aim, payload.start, last), missing)
    }

    /// Returns the front, if a line ends at this offset of the piece.
    fn line<'a>(&self, len: usize, piece: &'a [u8]) -> Front<'a>
        requires within { len < length piece.now }
        requires short { length self.now + len < line_limit }
        requires line { front line_limit (self.now ++ piece.now)
            ≡ Whole (self.now ++ take len piece.now) (drop (len + 1) piece.now) }
        ensures { IsRequestFront self.now piece.now result }
    {
        match line_order(self.held.as_slice(), &piece[..len]) {
            Order::Deliver(size) => self.message(Aim::New, size, len, piece),
            Order::Edit(number, size) => self.message(Aim::InPlaceOf(number), size, len, piece),
            Order::TooMuch => Front::Whole(Requested::Excess, len + 1),
            Order::Show(number) => Front::Whole(Requested::Text(number), len + 1),
            Order::Remove(number) => Front::Whole(Requested::Removal(number), len + 1),
            Order::Purge(number) => Front::Whole(Requested::Purge(number), len + 1),
            Order::Thread(number) => Front::Whole(Requested::Thread(number), len + 1),
            Order::Epochs => Front::Whole(Requested::Epochs, len + 1),
            Order::Reindex => Front::Whole(Requested::Reindexing, len + 1),
            Order::Quit => Front::Whole(Requested::Quit, len + 1),
            Order::Bad => Front::Whole(Requested::Mistake, len + 1),
        }
    }

    /// Returns the front, if the line that ends at this offset of the piece announces a message.
    fn message<'a>(&self, aim: Aim, size: u32, len: usize, piece: &'a [u8]) -> Front<'a>
        requires within { len < length piece.now }
        requires short { length self.now + len < line_limit }
        requires line { front line_limit (self.now ++ piece.now)
            ≡ Whole (self.now ++ take len piece.now) (drop (len + 1) piece.now) }
        requires order { order_of (content (self.now ++ take len piece.now)) ≡ order_with aim size }
        ensures { IsRequestFront self.now piece.now result }
    {
        let size = size as usize;
        let (_line, after) = piece.split_at(len + 1);
        if size <= after.len() {
            let message = after.split_at(size).0;
            return Front::Whole(Requested::Message(aim, message), len + 1 + size);
        }
        let start = self.held.as_slice().len() + len + 1;
        let end = start + size;
        Front::Rest(Some(Payload { aim, start, end }))
    }
}

/// Continues if reopening succeeded, otherwise closes.
fn reopened(next: Next) -> Act
    ensures { result ≡ (if continues next then Act.Opened else Act.Closed) }
{
    match next {
        Next::Go => Act::Opened,
        Next::Close => Act::Closed,
    }
}

/// Continues after a request that took `taken` bytes of the piece, or closes.
fn went(taken: usize, next: Next) -> Act
    ensures { result ≡ (if continues next then Act.Went taken else Act.Closed) }
{
    match next {
        Next::Go => Act::Went(taken),
        Next::Close => Act::Closed,
    }
}

/// Reads the order of a line, the first part of which is held.
fn line_order(held: &[u8], line: &[u8]) -> Order
    requires { length held.now + length line.now < line_limit }
    ensures { result ≡ order_of (content (held.now ++ line.now)) }
{
    if held.is_empty() {
        return read_order(line_content(line));
    }
    let mut whole = [0u8; LINE_LIMIT];
    join(&mut whole, held, line);
    read_order(line_content(&whole[..held.len() + line.len()]))
}

/// Copies two slices, one after the other, to the front of a buffer.
fn join(buffer: &mut [u8], first: &[u8], second: &[u8])
    requires { length first.now + length second.now ≤ length buffer.old }
    ensures { take (length first.now + length second.now) buffer.new ≡ first.now ++ second.now }
{
    let (front, back) = buffer.split_at_mut(first.len());
    front.copy_from_slice(first);
    let (middle, _) = back.split_at_mut(second.len());
    middle.copy_from_slice(second);
}
