//! A reader's connection: its group, the bytes not answered yet, and the answer to a piece.
//! Reads the disk.
ghost use Rattle.std.specs.Prelude.{◌≡◌, ◌≤◌, ◌+◌, ◌<◌, ◌++◌, ℕ, List, [], length, Some, true, false};
ghost use Rattle.arch_base.specs.Moments.{last_moment};
ghost use Rattle.line_door.specs.Acts.{Acts, held_if, at_sink};
ghost use Rattle.line_door.specs.Clipped.{longest_line};
ghost use Rattle.line_door.specs.Course.{talk};
ghost use Rattle.line_door.specs.Lines.{content};
ghost use Rattle.line_door.specs.Readers.{as_said, line_reader, has_request, with_piece};
ghost use Rattle.line_door.specs.Skipping.{skipping_front, Unended};
ghost use Rattle.keep_course.specs.Courses.{ShelfRun};
ghost use Rattle.arch_model.specs.OverShelf.{ShelfKept};
ghost use Rattle.arch_model.specs.Archives.{Archive};
ghost use Rattle.arch_model.specs.Next.{continues};
ghost use Rattle.arch_model.specs.Shelves.{ReadsIn};
ghost use Rattle.nntp_reader.specs.Counting.{ReadsLines, line_texts};
ghost use Rattle.nntp_reader.specs.Door.{new_reader, greeting, line_uses, news_at};
ghost use Rattle.nntp_reader.specs.Replies.{line_answered};

use crate::answers::say_order;
use crate::grammar::read_order;
use crate::group::Group;
use crate::moments::year_of;
use crate::notice::{Notice, say_notice};
use arch_model::{Next, Shelf};
use edge_io::Sink;
use line_door::{HeldLine, LineAct, Passage, line_content};
use shelf_doors::went;
use std::alloc::Global;
use std::marker::Model;

/// A session of a reader.
///
/// A contract sees it as its group and the bytes that are not answered yet. Of a line that has not
/// ended it holds the first 512 octets, since a line with more is too long whatever follows.
#[derive(Drop)]
pub struct NntpSession {
    alloc: Global,
    group: Group,
    held: HeldLine,
}

impl Model for NntpSession {
    ghost use Rattle.line_door.specs.Readers.{line_reader};
    ghost use Rattle.nntp_reader.specs.Door.{Reader};

    ghost Value = { Reader };

    ghost view = { λ s. line_reader s.group s.held };
}

impl NntpSession {
    ghost use Rattle.line_door.specs.Turns.{TakesBytes};
    ghost use Rattle.shelf_doors.specs.Reads.{LineActReads};
    ghost use Rattle.nntp_reader.specs.Sessions.{IsNewsAct};

    /// Opens a session without a group, and says the greeting. Returns whether the session
    /// continues.
    ///
    /// Allocates nothing. The session is closed if the greeting is lost.
    pub fn open<O: Sink>(alloc: Global, out: &mut O) -> (NntpSession, Next)
        ensures greeted { (a : Archive) (disk : ℕ) → Acts (greeting a)
            (at_sink O.Sink out.old disk)
            (held_if (continues result.1) result.0) a
            (at_sink O.Sink out.new disk) }
        ensures session { result.0 ≡ new_reader }
        ensures sink { O.alike out.old out.new }
    {
        let session = NntpSession {
            alloc,
            group: Group::Unselected,
            held: HeldLine::new(),
        };
        let next = Next::after(say_notice(Notice::Welcome, out));
        (session, next)
    }

    /// Answers the whole lines of a piece in order, and keeps the rest. Returns whether the session
    /// continues.
    ///
    /// `moment` is in seconds since 1970 UTC. The archive stays, and the shelf is ready after the
    /// call as before it. A line ends with a line feed, and one carriage return before it is
    /// dropped. A line of more than 512 octets with its end is answered by `501 syntax` when it
    /// ends.
    ///
    /// The session ends, and the remaining bytes are dropped:
    ///
    /// * at QUIT, which says `205 bye`;
    /// * if HDR of a field over a range stops after some values, because memory ran out or the disk
    ///   failed;
    /// * if a send is lost. A prefix of the words was taken, and the sink's count of faults rose.
    ///
    /// The contract then says nothing of what the session holds.
    ///
    /// ARTICLE, HEAD, BODY and HDR of a field say `403 out of memory` if an allocation fails, and
    /// `403 disk fault` if the disk fails; the shelf's count of faults rose exactly then. They say
    /// `403 damaged` only if the shelf holds no archive. The group stays, and the session continues.
    /// Other commands read no text, and need neither.
    ///
    /// No more texts are read than the lines that are answered ask for: one for ARTICLE, HEAD and BODY,
    /// one for each live message of HDR of a field, and none for any other.
    pub fn feed<S: Shelf, O: Sink>(
        &mut self,
        piece: &[u8],
        moment: u64,
        shelf: &mut S,
        out: &mut O,
    ) -> Next
        requires ready { S.ready shelf.old ≡ true }
        requires moment { moment ≤ last_moment }
        ensures fed { (a : Archive) → S.holds shelf.old a → ShelfRun S.Shelf (news_at moment)
            shelf.old shelf.new
            (talk (Some (with_piece longest_line piece.now self.old)) a
            (at_sink O.Sink out.old (S.faults shelf.old)))
            (talk (held_if (continues result) self.new) a
            (at_sink O.Sink out.new (S.faults shelf.new))) }
        ensures rest { continues result ≡ true → has_request longest_line self.new ≡ false }
        ensures shelf { ShelfKept S.Shelf shelf.old shelf.new }
        ensures reads { ReadsLines S.holds moment (self.old.bytes ++ piece.now) shelf.old
            (S.reads shelf.old) (S.reads shelf.new) }
        ensures sink { O.alike out.old out.new }
    {
        let mut rest = piece;
        loop {
            match self.act(rest, moment, shelf, out) {
                LineAct::Went(taken) => rest = rest.split_at(taken).1,
                LineAct::Kept => return Next::Go,
                LineAct::Closed => return Next::Close,
            }
        }
    }

    /// Does one act on the bytes at the front.
    fn act<S: Shelf, O: Sink>(
        &mut self,
        piece: &[u8],
        moment: u64,
        shelf: &mut S,
        out: &mut O,
    ) -> LineAct
        requires ready { S.ready shelf.old ≡ true }
        requires moment { moment ≤ last_moment }
        ensures turn { (a : Archive) → S.holds shelf.old a → IsNewsAct moment a self.old piece.now
            (at_sink O.Sink out.old (S.faults shelf.old)) result self.new
            (at_sink O.Sink out.new (S.faults shelf.new)) }
        ensures takes { TakesBytes longest_line piece.now result self.new }
        ensures unused { (a : Archive) → S.holds shelf.old a
            → (news_at moment).uses_disk a (with_piece longest_line piece.now self.old) ≡ false
            → S.faults shelf.new ≡ S.faults shelf.old }
        ensures shelf { ShelfKept S.Shelf shelf.old shelf.new }
        ensures reads { (a : Archive) → S.holds shelf.old a → LineActReads longest_line
            (line_texts moment a) self.old piece.now result self.new (S.reads shelf.old)
            (S.reads shelf.new) }
        ensures sink { O.alike out.old out.new }
    {
        match self.held.next(piece) {
            Passage::Line(end) => {
                let line = piece.split_at(end).0;
                went(end + 1, self.answer(line, moment, shelf, out))
            }
            Passage::Skipped(end) => {
                self.held.clear();
                went(end + 1, Next::after(say_notice(Notice::Syntax, out)))
            }
            Passage::More => {
                self.held.hold(piece);
                LineAct::Kept
            }
        }
    }

    /// Answers a line, the first part of which is held, and holds no bytes after it.
    fn answer<S: Shelf, O: Sink>(
        &mut self,
        line: &[u8],
        moment: u64,
        shelf: &mut S,
        out: &mut O,
    ) -> Next
        requires ready { S.ready shelf.old ≡ true }
        requires moment { moment ≤ last_moment }
        requires part { skipping_front longest_line (self.old.bytes ++ line.now) ≡ Unended }
        requires short { length self.old.bytes + length line.now < longest_line }
        ensures acts { (a : Archive) (rest : List ℕ) → S.holds shelf.old a
            → Acts (λ way. as_said rest (line_answered moment a self.old.state
            (content (self.old.bytes ++ line.now)) way))
            (at_sink O.Sink out.old (S.faults shelf.old))
            (held_if (continues result) (line_reader self.new.state rest)) a
            (at_sink O.Sink out.new (S.faults shelf.new)) }
        ensures unused { (a : Archive) → S.holds shelf.old a
            → line_uses moment a self.old.state (content (self.old.bytes ++ line.now)) ≡ false
            → S.faults shelf.new ≡ S.faults shelf.old }
        ensures empty { self.new.bytes ≡ [] }
        ensures shelf { ShelfKept S.Shelf shelf.old shelf.new }
        ensures reads { ReadsIn S.holds
            (λ a. line_texts moment a (content (self.old.bytes ++ line.now))) shelf.old
            (S.reads shelf.old) (S.reads shelf.new) }
        ensures sink { O.alike out.old out.new }
    {
        self.held.hold(line);
        let order = read_order(year_of(moment), line_content(self.held.as_slice()));
        let next = say_order(order, moment, self.alloc, &mut self.group, shelf, out);
        self.held.clear();
        next
    }
}
