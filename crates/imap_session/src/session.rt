//! A client's connection: its state, the octets not answered yet, and the answer to a piece.
//! Reads the disk.
ghost use Rattle.std.specs.Prelude.{◌≡◌, ◌≤◌, ◌+◌, ◌++◌, ℕ, List, length, Some, true, false};
ghost use Rattle.arch_model.specs.Archives.{Archive};
ghost use Rattle.arch_model.specs.Next.{continues};
ghost use Rattle.arch_model.specs.OverShelf.{ShelfKept};
ghost use Rattle.arch_model.specs.Shelves.{ReadsUpTo, ReadsIn};
ghost use Rattle.line_door.specs.Acts.{Acts, held_if, at_sink};
ghost use Rattle.line_door.specs.Course.{talk};
ghost use Rattle.keep_course.specs.Courses.{ShelfRun};
ghost use Rattle.imap_framer.specs.Doors.{framed_more, only_rest, beside};
ghost use Rattle.imap_framer.specs.Feeding.{IsOpen, holding, command_of};
ghost use Rattle.imap_framer.specs.Framing.{most_octets, fresh, with_octets};
ghost use Rattle.imap_states.specs.States.{SuitsClient, idles};
ghost use Rattle.imap_session.specs.Counting.{answer_texts, texts_ahead};
ghost use Rattle.imap_session.specs.Door.{answered, answer_uses, has_request, uses_disk, imap_door, new_client, greeting, go_on};
ghost use Rattle.imap_session.specs.Idling.{said_update};

use crate::answers::answer_octets;
use crate::starved::say_starved;
use arch_model::{Next, Shelf};
use edge_io::Sink;
use imap_framer::{Framer, NextPart};
use imap_states::{ImapPlace, ImapState, say_bye_memory, say_go, say_too_long, say_welcome, tell};
use line_door::LineAct;
use shelf_doors::went;
use std::alloc::Global;
use std::marker::Model;

/// A session of a client of IMAP.
///
/// A contract sees it as its state and the octets that it holds of a command that has not ended.
#[derive(Drop)]
pub struct ImapSession {
    alloc: Global,
    state: ImapState,
    framer: Framer,
}

impl Model for ImapSession {
    ghost use Rattle.imap_session.specs.Door.{ImapClient};

    ghost Value = { ImapClient };

    ghost view = { λ s. (s.state, s.framer) };
}

impl ImapSession {
    ghost use Rattle.imap_session.specs.Sessions.{IsImapAct, TakesPart, PartActReads};

    /// Opens a session before its login, and says the greeting. Returns whether the session
    /// continues.
    ///
    /// Allocates nothing. The session is closed if the greeting is lost.
    pub fn open<O: Sink>(alloc: Global, out: &mut O) -> (ImapSession, Next)
        ensures greeted { (a : Archive) (disk : ℕ) → Acts (greeting a)
            (at_sink O.Sink out.old disk)
            (held_if (continues result.1) result.0) a
            (at_sink O.Sink out.new disk) }
        ensures session { result.0 ≡ new_client }
        ensures sink { O.alike out.old out.new }
    {
        let session = ImapSession {
            alloc,
            state: ImapState {
                place: ImapPlace::LoggedOut,
                idle: None,
            },
            framer: Framer::new(alloc),
        };
        let next = Next::after(say_welcome(out));
        (session, next)
    }

    /// Returns whether the session idles (RFC 2177).
    pub fn is_idle(&self) -> bool
        ensures { result ≡ idles self.now.0 }
    {
        self.state.is_idle()
    }

    /// Tells the client of a session that idles what changed, and returns whether the session continues.
    ///
    /// A session that doesn't idle is left alone. The session is closed if an allocation fails, after
    /// `* BYE out of memory`, and if a send is lost. The contract then says nothing of what it knows. It
    /// idles after the call if it did before. No text is read.
    pub fn update<S: Shelf, O: Sink>(&mut self, shelf: &S, out: &mut O) -> Next
        requires ready { S.ready shelf.now ≡ true }
        ensures told { (a : Archive) (disk : ℕ) → S.holds shelf.now a → SuitsClient a self.old.0
            → Acts (said_update a self.old) (at_sink O.Sink out.old disk)
            (held_if (continues result) self.new) a (at_sink O.Sink out.new disk) }
        ensures suits { (a : Archive) → S.holds shelf.now a → SuitsClient a self.old.0
            → continues result ≡ true → SuitsClient a self.new.0 }
        ensures alone { idles self.old.0 ≡ false → self.new ≡ self.old }
        ensures idle { idles self.new.0 ≡ idles self.old.0 }
        ensures octets { self.new.1 ≡ self.old.1 }
        ensures sink { O.alike out.old out.new }
    {
        if !self.state.is_idle() {
            return Next::Go;
        }
        tell(self.alloc, &mut self.state, shelf, out)
    }

    /// Answers the ended parts of a piece in order, and keeps the rest. Returns whether the session
    /// continues.
    ///
    /// A part is the octets that the part before announced, and then a line. One that announces octets
    /// is answered by `+ go`, and the last part of a command by the reply to the command. While the
    /// session idles a part is a line, which ends that. The moment of the piece changes no reply. The
    /// archive stays, and the shelf is ready after the call as before it.
    ///
    /// The session ends, and the remaining octets are dropped:
    ///
    /// * at LOGOUT;
    /// * at a command, or a line while the session idles, of more than 16,384 octets, announced ones
    ///   included, which is answered by `* BYE command too long`;
    /// * if memory runs out where no tag is read, after `* BYE out of memory`: for the octets of a command
    ///   that has not ended, for one without a readable tag, and while the session idles;
    /// * if a FETCH stops after some lines, because memory ran out or the disk failed;
    /// * if a send is lost. A prefix of the words was taken, and the sink's count of faults rose.
    ///
    /// The contract then says nothing of what the session holds.
    ///
    /// A command that finds no memory is answered by `NO out of memory` after its tag, and one for which
    /// the disk fails by `NO disk fault`; the shelf's count of faults rose exactly then. The state stays,
    /// and the session continues. Only FETCH and SEARCH of what needs texts use the disk.
    ///
    /// No more texts are read than the commands ask for, whichever way each of them goes.
    pub fn feed<S: Shelf, O: Sink>(
        &mut self,
        piece: &[u8],
        _moment: u64,
        shelf: &mut S,
        out: &mut O,
    ) -> Next
        requires ready { S.ready shelf.old ≡ true }
        ensures fed { (a : Archive) → S.holds shelf.old a → SuitsClient a self.old.0
            → ShelfRun S.Shelf imap_door shelf.old shelf.new
            (talk (Some (framed_more piece.now self.old)) a
            (at_sink O.Sink out.old (S.faults shelf.old)))
            (talk (held_if (continues result) self.new) a
            (at_sink O.Sink out.new (S.faults shelf.new))) }
        ensures suits { (a : Archive) → S.holds shelf.old a → SuitsClient a self.old.0
            → continues result ≡ true → SuitsClient a self.new.0 }
        ensures rest { continues result ≡ true → has_request self.new ≡ false }
        ensures shelf { ShelfKept S.Shelf shelf.old shelf.new }
        ensures reads { (a : Archive) → S.holds shelf.old a → SuitsClient a self.old.0
            → ReadsUpTo (texts_ahead a (framed_more piece.now self.old)) (S.reads shelf.old)
            (S.reads shelf.new) }
        ensures sink { O.alike out.old out.new }
    {
        let mut rest = piece;
        loop {
            match self.act(rest, shelf, out) {
                LineAct::Went(taken) => rest = rest.split_at(taken).1,
                LineAct::Kept => return Next::Go,
                LineAct::Closed => return Next::Close,
            }
        }
    }

    /// Does one act on the octets at the front.
    fn act<S: Shelf, O: Sink>(&mut self, piece: &[u8], shelf: &mut S, out: &mut O) -> LineAct
        requires ready { S.ready shelf.old ≡ true }
        ensures turn { (a : Archive) → S.holds shelf.old a → SuitsClient a self.old.0
            → IsImapAct a self.old piece.now (at_sink O.Sink out.old (S.faults shelf.old)) result
            self.new (at_sink O.Sink out.new (S.faults shelf.new)) }
        ensures takes { TakesPart piece.now result self.new }
        ensures unused { (a : Archive) → S.holds shelf.old a
            → uses_disk a (framed_more piece.now self.old) ≡ false
            → S.faults shelf.new ≡ S.faults shelf.old }
        ensures shelf { ShelfKept S.Shelf shelf.old shelf.new }
        ensures reads { (a : Archive) → S.holds shelf.old a → SuitsClient a self.old.0
            → PartActReads a self.old piece.now result self.new (S.reads shelf.old)
            (S.reads shelf.new) }
        ensures sink { O.alike out.old out.new }
    {
        match self.framer.next(piece, !self.state.is_idle()) {
            NextPart::Last(used) => {
                let last = piece.split_at(used).0;
                went(used, self.answer(last, shelf, out))
            }
            NextPart::Literal(used, octets) => {
                let part = piece.split_at(used).0;
                went(used, self.begin(part, octets, out))
            }
            NextPart::TooLong(_) => {
                say_too_long(self.alloc, &mut self.state, shelf, out);
                LineAct::Closed
            }
            NextPart::More => self.keep(piece, out),
        }
    }

    /// Answers the command that ends with these octets, and drops it.
    fn answer<S: Shelf, O: Sink>(&mut self, last: &[u8], shelf: &mut S, out: &mut O) -> Next
        requires ready { S.ready shelf.old ≡ true }
        ensures acts { (a : Archive) → S.holds shelf.old a → SuitsClient a self.old.0
            → Acts (answered a self.old.0 (command_of self.old.1 last.now))
            (at_sink O.Sink out.old (S.faults shelf.old)) (held_if (continues result) self.new.0) a
            (at_sink O.Sink out.new (S.faults shelf.new)) }
        ensures dropped { self.new.1 ≡ fresh }
        ensures unused { (a : Archive) → S.holds shelf.old a
            → answer_uses a self.old.0 (command_of self.old.1 last.now) ≡ false
            → S.faults shelf.new ≡ S.faults shelf.old }
        ensures shelf { ShelfKept S.Shelf shelf.old shelf.new }
        ensures reads { ReadsIn S.holds
            (λ a. answer_texts a self.old.0 (command_of self.old.1 last.now)) shelf.old
            (S.reads shelf.old) (S.reads shelf.new) }
        ensures sink { O.alike out.old out.new }
    {
        if self.framer.octets().is_empty() {
            self.framer.clear();
            return answer_octets(last, self.alloc, &mut self.state, shelf, out);
        }
        match self.framer.finish(last) {
            Ok(command) => {
                let octets = command.as_slice();
                answer_octets(octets, self.alloc, &mut self.state, shelf, out)
            }
            Err(_) => self.starve(last, out),
        }
    }

    /// Says that no memory is left for the command that ends with these octets, and drops it. Returns
    /// whether the session continues.
    fn starve<O: Sink>(&mut self, last: &[u8], out: &mut O) -> Next
        ensures acts { (a : Archive) (disk : ℕ)
            → Acts (answered a self.old.0 (command_of self.old.1 last.now))
            (at_sink O.Sink out.old disk) (held_if (continues result) self.new.0) a
            (at_sink O.Sink out.new disk) }
        ensures dropped { self.new.1 ≡ fresh }
        ensures sink { O.alike out.old out.new }
    {
        let next = self.refuse(last, out);
        self.framer.clear();
        next
    }

    /// Says that no memory is left for the command that ends with these octets. Returns whether the
    /// session continues. While it idles no tag counts as read.
    fn refuse<O: Sink>(&self, last: &[u8], out: &mut O) -> Next
        ensures acts { (a : Archive) (disk : ℕ)
            → Acts (answered a self.now.0 (command_of self.now.1 last.now))
            (at_sink O.Sink out.old disk) (held_if (continues result) self.now.0) a
            (at_sink O.Sink out.new disk) }
        ensures sink { O.alike out.old out.new }
    {
        if self.state.is_idle() {
            let _ = say_bye_memory(out);
            return Next::Close;
        }
        say_starved(self.alloc, self.framer.octets(), last, out)
    }

    /// Holds octets that end a part, which announces more octets, and asks for these. Returns whether
    /// the session continues.
    fn begin<O: Sink>(&mut self, part: &[u8], octets: usize, out: &mut O) -> Next
        requires fits { length self.old.1.held + (length self.old.1.part + length part.now) + octets
            ≤ most_octets }
        ensures acts { (a : Archive) (disk : ℕ) → Acts (go_on a self.old.0)
            (at_sink O.Sink out.old disk) (held_if (continues result) self.new.0) a
            (at_sink O.Sink out.new disk) }
        ensures held { continues result ≡ true → self.new.1 ≡ holding self.old.1 part.now octets }
        ensures sink { O.alike out.old out.new }
    {
        match self.framer.begin(part, octets) {
            Ok(()) => Next::after(say_go(out)),
            Err(_) => {
                let _ = say_bye_memory(out);
                Next::Close
            }
        }
    }

    /// Holds a piece that ends no part.
    fn keep<O: Sink>(&mut self, piece: &[u8], out: &mut O) -> LineAct
        requires open { IsOpen (with_octets self.old.1 piece.now) }
        ensures turn { (a : Archive) (disk : ℕ)
            → IsImapAct a self.old piece.now (at_sink O.Sink out.old disk) result self.new
            (at_sink O.Sink out.new disk) }
        ensures takes { TakesPart piece.now result self.new }
        ensures reads { (a : Archive) (reads : ℕ)
            → PartActReads a self.old piece.now result self.new reads reads }
        ensures sink { O.alike out.old out.new }
    {
        match self.framer.keep(piece) {
            Ok(()) => LineAct::Kept,
            Err(_) => {
                let _ = say_bye_memory(out);
                LineAct::Closed
            }
        }
    }
}
