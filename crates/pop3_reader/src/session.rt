//! A client's connection: its state, the bytes not answered yet, and the answer to a piece.
//! Reads the disk.
ghost use Rattle.std.specs.Prelude.{◌≡◌, ◌≤◌, ◌+◌, ◌<◌, ◌++◌, ℕ, List, [], length, Some, true, false};
ghost use Rattle.arch_model.specs.OverShelf.{ShelfKept};
ghost use Rattle.arch_model.specs.Archives.{Archive};
ghost use Rattle.arch_model.specs.Next.{continues};
ghost use Rattle.arch_model.specs.Shelves.{ReadsUpTo};
ghost use Rattle.line_door.specs.Acts.{Acts, held_if, at_sink};
ghost use Rattle.line_door.specs.Costs.{lines_cost};
ghost use Rattle.keep_course.specs.Courses.{ShelfRun};
ghost use Rattle.line_door.specs.Course.{talk};
ghost use Rattle.line_door.specs.Lines.{content};
ghost use Rattle.line_door.specs.Readers.{as_said, line_reader, has_request, with_piece};
ghost use Rattle.line_door.specs.Skipping.{skipping_front, Unended};
ghost use Rattle.pop3_reader.specs.Door.{line_limit, line_uses, pop_door, new_client, greeting};
ghost use Rattle.pop3_reader.specs.Replies.{line_answered, line_texts};

use crate::answers::say_order;
use crate::grammar::read_order;
use crate::maildrop::PopState;
use crate::notice::{PopNotice, say_notice};
use arch_model::{Next, Shelf};
use edge_io::Sink;
use line_door::{HeldPart, LineAct, Passage, line_content};
use shelf_doors::went;
use std::alloc::Global;
use std::marker::Model;

/// The greatest length of a line with its line end, in octets.
const LINE_LIMIT: usize = 255;

/// A session of a client that fetches mail.
///
/// A contract sees it as its state and the bytes that are not answered yet. Of a line that has not
/// ended it holds the first 255 octets, since a line with more is too long whatever follows.
#[derive(Drop)]
pub struct Pop3Session {
    alloc: Global,
    state: PopState,
    held: HeldPart<LINE_LIMIT>,
}

impl Model for Pop3Session {
    ghost use Rattle.line_door.specs.Readers.{line_reader};
    ghost use Rattle.pop3_reader.specs.Door.{PopClient};

    ghost Value = { PopClient };

    ghost view = { λ s. line_reader s.state s.held };
}

impl Pop3Session {
    ghost use Rattle.line_door.specs.Turns.{TakesBytes};
    ghost use Rattle.shelf_doors.specs.Reads.{LineActReads};
    ghost use Rattle.pop3_reader.specs.Sessions.{IsPopAct};

    /// Opens a session before its login, and says the greeting. Returns whether the session
    /// continues.
    ///
    /// Allocates nothing. The session is closed if the greeting is lost.
    pub fn open<O: Sink>(alloc: Global, out: &mut O) -> (Pop3Session, Next)
        ensures greeted { (a : Archive) (disk : ℕ) → Acts (greeting a)
            (at_sink O.Sink out.old disk)
            (held_if (continues result.1) result.0) a
            (at_sink O.Sink out.new disk) }
        ensures session { result.0 ≡ new_client }
        ensures sink { O.alike out.old out.new }
    {
        let session = Pop3Session {
            alloc,
            state: PopState::Before(None),
            held: HeldPart::new(),
        };
        let next = Next::after(say_notice(PopNotice::Welcome, out));
        (session, next)
    }

    /// Answers the whole lines of a piece in order, and keeps the rest. Returns whether the session
    /// continues.
    ///
    /// The moment of the piece changes no reply. The archive stays, and the shelf is ready after the
    /// call as before it. A line ends with a line feed, and one carriage return before it is dropped.
    /// A line of more than 255 octets with its end is answered by `-ERR line too long` when it ends.
    ///
    /// The session ends, and the remaining bytes are dropped:
    ///
    /// * at QUIT, which says `+OK bye`;
    /// * if a send is lost. A prefix of the words was taken, and the sink's count of faults rose.
    ///
    /// The contract then says nothing of what the session holds.
    ///
    /// PASS of an accepted mailbox, and RETR and TOP of a live message, say `-ERR out of memory` if an
    /// allocation fails. RETR and TOP of a live message say `-ERR disk fault` if the disk fails; the
    /// shelf's count of faults rose exactly then. They say `-ERR damaged` only if the shelf holds no
    /// archive. The state stays, and the session continues. Other commands need neither memory nor
    /// the disk.
    ///
    /// One text is read at most for each line of RETR and TOP, and none for any other.
    pub fn feed<S: Shelf, O: Sink>(
        &mut self,
        piece: &[u8],
        _moment: u64,
        shelf: &mut S,
        out: &mut O,
    ) -> Next
        requires ready { S.ready shelf.old ≡ true }
        ensures fed { (a : Archive) → S.holds shelf.old a → ShelfRun S.Shelf pop_door
            shelf.old shelf.new
            (talk (Some (with_piece line_limit piece.now self.old)) a
            (at_sink O.Sink out.old (S.faults shelf.old)))
            (talk (held_if (continues result) self.new) a
            (at_sink O.Sink out.new (S.faults shelf.new))) }
        ensures rest { continues result ≡ true → has_request line_limit self.new ≡ false }
        ensures shelf { ShelfKept S.Shelf shelf.old shelf.new }
        ensures reads { ReadsUpTo (lines_cost line_limit line_texts (self.old.bytes ++ piece.now))
            (S.reads shelf.old) (S.reads shelf.new) }
        ensures sink { O.alike out.old out.new }
    {
        let mut rest = piece;
        loop {
            match self.act(rest, shelf, out) {
                LineAct::Went(taken) => rest = rest.split_at(taken).1,
                LineAct::Kept => return Next::Go,
                LineAct::Closed => return Next::Close,
            }
        }
    }

    /// Does one act on the bytes at the front.
    fn act<S: Shelf, O: Sink>(&mut self, piece: &[u8], shelf: &mut S, out: &mut O) -> LineAct
        requires ready { S.ready shelf.old ≡ true }
        ensures turn { (a : Archive) → S.holds shelf.old a → IsPopAct a self.old piece.now
            (at_sink O.Sink out.old (S.faults shelf.old)) result self.new
            (at_sink O.Sink out.new (S.faults shelf.new)) }
        ensures takes { TakesBytes line_limit piece.now result self.new }
        ensures unused { (a : Archive) → S.holds shelf.old a
            → pop_door.uses_disk a (with_piece line_limit piece.now self.old) ≡ false
            → S.faults shelf.new ≡ S.faults shelf.old }
        ensures shelf { ShelfKept S.Shelf shelf.old shelf.new }
        ensures reads { LineActReads line_limit line_texts self.old piece.now result self.new
            (S.reads shelf.old) (S.reads shelf.new) }
        ensures sink { O.alike out.old out.new }
    {
        match self.held.next(piece) {
            Passage::Line(end) => {
                let line = piece.split_at(end).0;
                went(end + 1, self.answer(line, shelf, out))
            }
            Passage::Skipped(end) => {
                self.held.clear();
                went(end + 1, Next::after(say_notice(PopNotice::TooLong, out)))
            }
            Passage::More => {
                self.held.hold(piece);
                LineAct::Kept
            }
        }
    }

    /// Answers a line, the first part of which is held, and holds no bytes after it.
    fn answer<S: Shelf, O: Sink>(&mut self, line: &[u8], shelf: &mut S, out: &mut O) -> Next
        requires ready { S.ready shelf.old ≡ true }
        requires part { skipping_front line_limit (self.old.bytes ++ line.now) ≡ Unended }
        requires short { length self.old.bytes + length line.now < line_limit }
        ensures acts { (a : Archive) (rest : List ℕ) → S.holds shelf.old a
            → Acts (λ way. as_said rest (line_answered a self.old.state
            (content (self.old.bytes ++ line.now)) way))
            (at_sink O.Sink out.old (S.faults shelf.old))
            (held_if (continues result) (line_reader self.new.state rest)) a
            (at_sink O.Sink out.new (S.faults shelf.new)) }
        ensures unused { (a : Archive) → S.holds shelf.old a
            → line_uses a self.old.state (content (self.old.bytes ++ line.now)) ≡ false
            → S.faults shelf.new ≡ S.faults shelf.old }
        ensures empty { self.new.bytes ≡ [] }
        ensures shelf { ShelfKept S.Shelf shelf.old shelf.new }
        ensures reads { ReadsUpTo (line_texts (content (self.old.bytes ++ line.now)))
            (S.reads shelf.old) (S.reads shelf.new) }
        ensures sink { O.alike out.old out.new }
    {
        self.held.hold(line);
        let order = read_order(line_content(self.held.as_slice()));
        let next = say_order(order, self.alloc, &mut self.state, shelf, out);
        self.held.clear();
        next
    }
}
