//! A connection for pages: the bytes that are not answered yet, and the answer to a piece.
//! Reads the disk.
ghost use Rattle.std.specs.Prelude.{◌≡◌, ◌⊎◌, ◌≤◌, ◌+◌, ◌++◌, ℕ, [], length, true, if◌then◌else◌};
ghost use Rattle.line_door.specs.Acts.{at_sink};
ghost use Rattle.arch_base.specs.Moments.{IsMoment};
ghost use Rattle.arch_model.specs.OverShelf.{ShelfKept};
ghost use Rattle.arch_model.specs.Archives.{Archive};
ghost use Rattle.arch_model.specs.Next.{continues};
ghost use Rattle.http_front.specs.Door.{uses_disk, head_uses};
ghost use Rattle.http_front.specs.Fronts.{head_limit};
ghost use Rattle.http_front.specs.Reading.{asked_in};

use crate::answer::answer_head;
use crate::held::HeldHead;
use crate::replies::say_status;
use crate::scan::{Ahead, Seen, head_in};
use arch_base::NoMemory;
use arch_model::{Next, Shelf};
use edge_io::Sink;
use http_heads::Status;
use std::alloc::Global;
use std::marker::Model;

/// The result of one act on the bytes at the front.
#[derive(Clone, Copy, Drop)]
pub(crate) enum Act {
    /// A request that took this many bytes of the piece was answered, and the session continues.
    Went(usize),
    /// The piece was appended to what is held.
    Kept,
    /// The session is closed.
    Closed,
}

/// A session of a connection for pages.
///
/// A contract sees it as the bytes that are not answered yet.
#[derive(Drop)]
pub struct HttpSession {
    alloc: Global,
    held: HeldHead,
    seen: Seen,
}

impl Model for HttpSession {
    ghost use Rattle.std.specs.Prelude.{List, ℕ};
    ghost use Rattle.http_front.specs.Door.{uses_disk, head_uses};
    ghost use Rattle.http_front.specs.Fronts.{head_limit};
    ghost use Rattle.http_front.specs.Reading.{asked_in};
    ghost use Rattle.http_front.specs.Scans.{IsHeldHead};

    ghost Value = { List ℕ };

    ghost view = { λ s. s.held };

    ghost invariant = { λ s. IsHeldHead head_limit s.held s.seen };
}

impl HttpSession {
    ghost use Rattle.http_front.specs.Scans.{IsHeldHead};
    ghost use Rattle.http_front.specs.Sessions.{IsPageAct, TakesHead, AnswersHead, PageActs, AnswersPages, ReadsHead, ReadsTurn, ReadsBytes, ReadsNothing, SparesIn};

    /// Returns a session without bytes. Nothing is said before the first request. Allocates nothing.
    pub fn open(alloc: Global) -> HttpSession
        ensures { result ≡ [] }
    {
        HttpSession {
            alloc,
            held: HeldHead::new(alloc),
            seen: Seen::Nothing,
        }
    }

    /// Answers the whole requests of a piece in order, and keeps the rest. Returns whether the
    /// session continues.
    ///
    /// A request is a head up to its empty line. `moment` is in seconds since 1970 UTC, and is the
    /// date of each reply. The archive stays, and the shelf is ready after the call as before it.
    ///
    /// The session ends, and the remaining bytes are dropped:
    ///
    /// * after the reply, if the head asks for that or its version is 1.0;
    /// * after a status of 400, 405 or 431: at what is no head, at a head that says that a body
    ///   follows, at another method than `GET` and `HEAD`, and as soon as 16,384 bytes hold no empty
    ///   line;
    /// * if out of memory, for a request or for a rest that isn't empty, which writes a status of
    ///   503;
    /// * if a text can't be read, which writes a status of 500, and the shelf's count of faults rose.
    ///   It names a damaged text only if the shelf holds no archive. A mailbox file of which a part
    ///   was written stops instead;
    /// * if a send is lost. A prefix of the reply was taken, and the sink's count of faults rose.
    ///
    /// The contract then says nothing of what the session holds.
    ///
    /// No more texts are read than the answered heads ask for: one for the page of a message, for a
    /// text or for a blob, 25 for a feed, those of a mailbox file, and none for a listing, a search,
    /// a thread or the list of entries.
    pub fn feed<S: Shelf, O: Sink>(
        &mut self,
        piece: &[u8],
        moment: u64,
        shelf: &mut S,
        out: &mut O,
    ) -> Next
        requires ready { S.ready shelf.old ≡ true }
        requires moment { IsMoment moment }
        ensures fed { AnswersPages S.Shelf moment (self.old ++ piece.now) shelf.old
            (at_sink O.Sink out.old (S.faults shelf.old))
            (continues result) self.new shelf.new
            (at_sink O.Sink out.new (S.faults shelf.new)) }
        ensures reads { ReadsBytes S.holds (self.old ++ piece.now) shelf.old (S.reads shelf.old)
            (S.reads shelf.new) }
        ensures unread { ReadsNothing S.holds (self.old ++ piece.now) shelf.old (S.reads shelf.old)
            (S.reads shelf.new) }
        ensures shelf { ShelfKept S.Shelf shelf.old shelf.new }
        ensures sink { O.alike out.old out.new }
    {
        let mut rest = piece;
        loop {
            match self.act(rest, moment, shelf, out) {
                Act::Went(taken) => rest = rest.split_at(taken).1,
                Act::Kept => return Next::Go,
                Act::Closed => return Next::Close,
            }
        }
    }

    /// Does one act on the bytes at the front.
    fn act<S: Shelf, O: Sink>(
        &mut self,
        piece: &[u8],
        moment: u64,
        shelf: &mut S,
        out: &mut O,
    ) -> Act
        requires ready { S.ready shelf.old ≡ true }
        requires moment { IsMoment moment }
        ensures turn { PageActs S.holds moment self.old piece.now shelf.old
            (at_sink O.Sink out.old (S.faults shelf.old)) result self.new
            (at_sink O.Sink out.new (S.faults shelf.new)) }
        ensures takes { TakesHead piece.now result }
        ensures reads { ReadsTurn S.holds self.old piece.now shelf.old result self.new
            (S.reads shelf.old) (S.reads shelf.new) }
        ensures unused { SparesIn S.holds (λ a. uses_disk a (self.old ++ piece.now)) shelf.old
            (S.faults shelf.old) (S.faults shelf.new) }
        ensures shelf { ShelfKept S.Shelf shelf.old shelf.new }
        ensures sink { O.alike out.old out.new }
    {
        match head_in(self.held.as_slice(), self.seen, piece) {
            Ahead::More(seen) => self.hold(piece, seen, moment, out),
            Ahead::Long => {
                let _ = say_status(Status::HeadTooLarge, moment, true, true, out);
                Act::Closed
            }
            Ahead::Head(taken) => {
                let last = piece.split_at(taken).0;
                went(taken, self.answer(last, moment, shelf, out))
            }
        }
    }

    /// Answers the head that ends with these bytes, and drops it.
    fn answer<S: Shelf, O: Sink>(
        &mut self,
        last: &[u8],
        moment: u64,
        shelf: &mut S,
        out: &mut O,
    ) -> Next
        requires ready { S.ready shelf.old ≡ true }
        requires moment { IsMoment moment }
        requires room { length self.old + length last.now ≤ head_limit }
        ensures acts { AnswersHead S.holds moment (self.old ++ last.now) shelf.old
            (at_sink O.Sink out.old (S.faults shelf.old))
            (continues result)
            (at_sink O.Sink out.new (S.faults shelf.new)) }
        ensures empty { self.new ≡ [] }
        ensures reads { ReadsHead S.holds (self.old ++ last.now) shelf.old (S.reads shelf.old)
            (S.reads shelf.new) }
        ensures unused { SparesIn S.holds (λ a. head_uses a (asked_in (self.old ++ last.now))) shelf.old
            (S.faults shelf.old) (S.faults shelf.new) }
        ensures shelf { ShelfKept S.Shelf shelf.old shelf.new }
        ensures sink { O.alike out.old out.new }
    {
        if self.held.len() == 0 {
            self.seen = Seen::Nothing;
            return answer_head(self.alloc, last, moment, shelf, out);
        }
        self.held.join(last);
        let next = answer_head(self.alloc, self.held.as_slice(), moment, shelf, out);
        self.held.clear();
        self.seen = Seen::Nothing;
        next
    }

    /// Keeps a piece that doesn't end a head. An empty piece needs no memory.
    fn hold<O: Sink>(&mut self, piece: &[u8], seen: Seen, moment: u64, out: &mut O) -> Act
        requires held { IsHeldHead head_limit (self.old ++ piece.now) seen }
        requires moment { IsMoment moment }
        ensures turn { (a : Archive) (disk : ℕ)
            → IsPageAct moment a self.old piece.now
            (at_sink O.Sink out.old disk) result self.new
            (at_sink O.Sink out.new disk) }
        ensures ends { (result ≡ Act.Kept) ⊎ (result ≡ Act.Closed) }
        ensures sink { O.alike out.old out.new }
    {
        if piece.is_empty() {
            self.seen = seen;
            return Act::Kept;
        }
        match self.held.keep(piece) {
            Ok(()) => {
                self.seen = seen;
                Act::Kept
            }
            Err(NoMemory) => {
                let _ = say_status(Status::Unavailable, moment, true, true, out);
                Act::Closed
            }
        }
    }
}

/// Continues after a request that took `taken` bytes of the piece, or closes.
fn went(taken: usize, next: Next) -> Act
    ensures { result ≡ (if continues next then Act.Went taken else Act.Closed) }
{
    match next {
        Next::Go => Act::Went(taken),
        Next::Close => Act::Closed,
    }
}
