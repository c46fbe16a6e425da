//! A mail system's connection: where it stands, the bytes not answered yet, and the answer to a piece.
//! Writes the disk; syncs.
ghost use Rattle.std.specs.Prelude.{◌≡◌, ◌≤◌, ◌+◌, ◌<◌, ◌++◌, ℕ, [], length, nat_lt, true, false, if◌then◌else◌};
ghost use Rattle.arch_base.specs.Moments.{last_moment};
ghost use Rattle.arch_model.specs.Next.{continues};
ghost use Rattle.arch_model.specs.Standing.{LastKnown};
ghost use Rattle.line_door.specs.Acts.{Acts, held_if, at_sink};
ghost use Rattle.line_door.specs.Clipped.{longest_line};
ghost use Rattle.line_door.specs.Lines.{content};
ghost use Rattle.line_door.specs.Skipping.{skipping_front, Unended};
ghost use Rattle.lmtp_data.specs.Readings.{data_limit};
ghost use Rattle.lmtp_door.specs.Door.{new_guest, greeting, recipients};
ghost use Rattle.lmtp_door.specs.Notices.{is_bye};
ghost use Rattle.lmtp_door.specs.Sessions.{count_in, went_or_kept};

use crate::grammar::read_order;
use crate::notice::{LmtpNotice, say_notice};
use crate::refusals::say_unopened;
use crate::replies::say_reply;
use crate::stage::{LmtpStage, LmtpWork, turn};
use arch_base::Name;
use arch_model::{Answer, Command, Keep, Next};
use edge_io::Sink;
use line_door::{HeldLine, Passage, line_content};
use std::alloc::Global;
use std::marker::Model;

/// The result of one act on the bytes at the front.
#[derive(Clone, Copy, Drop)]
pub(crate) enum LmtpAct {
    /// The archive was reopened before a recipient, or nothing was in doubt.
    Opened,
    /// A line or data that took this many bytes of the piece was answered, and the session continues.
    Went(usize),
    /// A recipient was answered, and the session continues.
    Gave,
    /// The piece was kept.
    Kept,
    /// The session is closed.
    Closed,
}

/// A session of a mail system that hands over mail.
///
/// A contract sees it as where it stands and the bytes that are not answered yet. Of a line that has
/// not ended it holds the first 512 octets, since a line with more is too long whatever follows, and of
/// data no bytes beside what was read of it.
#[derive(Drop)]
pub struct LmtpSession {
    alloc: Global,
    stage: LmtpStage,
    held: HeldLine,
}

impl Model for LmtpSession {
    ghost use Rattle.std.specs.Prelude.{false};
    ghost use Rattle.lmtp_door.specs.Door.{Guest, guest};
    ghost use Rattle.lmtp_door.specs.Sessions.{phase_of, work_in, HoldsFor};

    ghost Value = { Guest };

    ghost view = { λ s. guest (phase_of s.stage) s.held false };

    ghost invariant = { λ s. HoldsFor (work_in (phase_of s.stage)) s.held };
}

impl LmtpSession {
    ghost use Rattle.std.specs.Prelude.{Bool, List};
    ghost use Rattle.line_door.specs.Acts.{ConnectionState};
    ghost use Rattle.lmtp_door.specs.Courses.{AnswersMail};
    ghost use Rattle.lmtp_door.specs.Sessions.{work_in, LmtpActs, IsLmtpAct, IsLineReply, TakesWork, StaysReadyAfter};

    /// Opens a session before LHLO, and says the greeting. Returns whether the session continues.
    ///
    /// Allocates nothing. The session is closed if the greeting is lost.
    pub fn open<O: Sink>(alloc: Global, out: &mut O) -> (LmtpSession, Next)
        ensures greeted { (s : LastKnown) (disk : ℕ) → Acts (greeting s)
            (at_sink O.Sink out.old disk)
            (held_if (continues result.1) result.0) s
            (at_sink O.Sink out.new disk) }
        ensures session { result.0 ≡ new_guest }
        ensures sink { O.alike out.old out.new }
    {
        let session = LmtpSession {
            alloc,
            stage: LmtpStage::Ungreeted,
            held: HeldLine::new(),
        };
        let next = Next::after(say_notice(LmtpNotice::Welcome, out));
        (session, next)
    }

    /// Answers the whole requests of a piece in order, and keeps the rest. Returns whether the session
    /// continues.
    ///
    /// `moment` is in seconds since 1970 UTC. The keeper is ready at first. A command line ends with a
    /// line feed, and one carriage return before it is dropped. One of more than 512 octets with its end
    /// is answered by `500 line too long` when it ends. The lines of the data end with a carriage return
    /// and a line feed alone.
    ///
    /// Data that has ended is delivered to each accepted recipient in order, at this moment. Each
    /// delivery is an act of its own with a reply of its own, which is that of the answer to it: so
    /// `250 ok` and `250 duplicate` are written only after the message is kept, whatever crash comes.
    /// Before each further recipient of a piece the archive is reopened, which changes nothing of a
    /// ready keeper and says nothing; where that is refused, the refusal is the recipient's reply. Data
    /// of more than 9,000,000 octets is delivered to none. After the data the transaction is dropped,
    /// whatever was answered. A session that ends amid the data delivers nothing.
    ///
    /// The session ends, and the remaining bytes are dropped:
    ///
    /// * at QUIT, which says `221 bye`;
    /// * if a send is lost. A prefix of the words was taken, the sink's count of faults rose, and what
    ///   the request changed stays.
    ///
    /// The contract then says nothing of what the session holds.
    ///
    /// A crash since the call began leaves an archive that stood between two of these acts, or one that
    /// was in doubt there.
    ///
    /// DATA says `451 no memory` if the allocation fails, and the session stays where it was. A
    /// recipient is answered so if the delivery runs out of memory, and nothing is delivered. If the disk
    /// fails, it is answered `451 disk fault`, and the keeper's count of faults rose in that act; it
    /// stays in each other one.
    pub fn feed<K: Keep, O: Sink>(
        &mut self,
        piece: &[u8],
        moment: u64,
        keep: &mut K,
        out: &mut O,
    ) -> Next
        requires ready { K.ready keep.old ≡ true }
        requires moment { moment ≤ last_moment }
        ensures fed { AnswersMail K.Keep moment self.old piece.now keep.old
            (at_sink O.Sink out.old (K.faults keep.old))
            (continues result) self.new keep.new
            (at_sink O.Sink out.new (K.faults keep.new)) }
        ensures later { K.faults keep.old ≤ K.faults keep.new }
        ensures sink { O.alike out.old out.new }
    {
        let name = keep.config().name.copy();
        let mut rest = piece;
        let mut opened = true;
        loop {
            match self.act(rest, opened, &name, moment, keep, out) {
                LmtpAct::Opened => opened = true,
                LmtpAct::Went(taken) => rest = rest.split_at(taken).1,
                LmtpAct::Gave => opened = false,
                LmtpAct::Kept => return Next::Go,
                LmtpAct::Closed => return Next::Close,
            }
        }
    }

    /// Does one act on the bytes at the front.
    ///
    /// Data is delivered only if the archive was reopened right before.
    fn act<K: Keep, O: Sink>(
        &mut self,
        piece: &[u8],
        opened: bool,
        name: &Name,
        moment: u64,
        keep: &mut K,
        out: &mut O,
    ) -> LmtpAct
        requires ready { opened ≡ true → K.ready keep.old ≡ true }
        requires moment { moment ≤ last_moment }
        ensures turn { LmtpActs K.Keep moment name.now opened self.old piece.now keep.old
            (at_sink O.Sink out.old (K.faults keep.old))
            result self.new keep.new
            (at_sink O.Sink out.new (K.faults keep.new)) }
        ensures takes { TakesWork opened self.old piece.now result self.new }
        ensures ready { StaysReadyAfter result (K.ready keep.old) (K.ready keep.new) }
        ensures later { K.faults keep.old ≤ K.faults keep.new }
        ensures sink { O.alike out.old out.new }
    {
        match self.stage.work() {
            LmtpWork::ReadsLines => self.read_line(piece, name, out),
            LmtpWork::ReadsData => self.read_data(piece),
            LmtpWork::AnswersRecipient => self.answer_recipient(opened, moment, keep, out),
        }
    }

    /// Answers the line at the front, or keeps the piece.
    fn read_line<O: Sink>(&mut self, piece: &[u8], name: &Name, out: &mut O) -> LmtpAct
        requires lines { work_in self.old.phase ≡ LmtpWork.ReadsLines }
        ensures turn { (moment disk : ℕ) (opened : Bool) (s : LastKnown)
            → s.archive.config.name ≡ name.now → IsLmtpAct moment opened s self.old piece.now
            (at_sink O.Sink out.old disk) result s self.new
            (at_sink O.Sink out.new disk) }
        ensures takes { (opened : Bool) → TakesWork opened self.old piece.now result self.new }
        ensures ready { (ready : Bool) → StaysReadyAfter result ready ready }
        ensures sink { O.alike out.old out.new }
    {
        match self.held.next(piece) {
            Passage::Line(end) => {
                let line = piece.split_at(end).0;
                went(end + 1, self.answer_line(line, name, out))
            }
            Passage::Skipped(end) => {
                self.held.clear();
                went(
                    end + 1,
                    Next::after(say_notice(LmtpNotice::LineTooLong, out)),
                )
            }
            Passage::More => {
                self.held.hold(piece);
                LmtpAct::Kept
            }
        }
    }

    /// Answers a line, the first part of which is held, and holds no bytes after it.
    fn answer_line<O: Sink>(&mut self, line: &[u8], name: &Name, out: &mut O) -> Next
        requires lines { work_in self.old.phase ≡ LmtpWork.ReadsLines }
        requires part { skipping_front longest_line (self.old.bytes ++ line.now) ≡ Unended }
        requires short { length self.old.bytes + length line.now < longest_line }
        ensures acts { (disk : ℕ) (opened : Bool) (s : LastKnown) (rest : List ℕ) → IsLineReply s
            name.now self.old.phase opened (content (self.old.bytes ++ line.now)) rest
            (at_sink O.Sink out.old disk) (continues result) self.new.phase
            (at_sink O.Sink out.new disk) }
        ensures empty { self.new.bytes ≡ [] }
        ensures few { recipients self.new.phase ≤ recipients self.old.phase + 1 }
        ensures sink { O.alike out.old out.new }
    {
        self.held.hold(line);
        let order = read_order(name.as_slice(), line_content(self.held.as_slice()));
        self.held.clear();
        let notice = turn(order, self.alloc, &mut self.stage);
        after_notice(notice, Next::after(say_notice(notice, out)))
    }

    /// Reads the data in a piece.
    fn read_data(&mut self, piece: &[u8]) -> LmtpAct
        requires data { work_in self.old.phase ≡ LmtpWork.ReadsData }
        ensures turn { (moment : ℕ) (opened : Bool) (s : LastKnown) (i : ConnectionState)
            → IsLmtpAct moment opened s self.old piece.now i result s self.new i }
        ensures takes { (opened : Bool) → TakesWork opened self.old piece.now result self.new }
        ensures ready { (ready : Bool) → StaysReadyAfter result ready ready }
    {
        taken(self.stage.read(piece))
    }

    /// Answers a recipient of data that has ended, or reopens the archive before that.
    fn answer_recipient<K: Keep, O: Sink>(
        &mut self,
        opened: bool,
        moment: u64,
        keep: &mut K,
        out: &mut O,
    ) -> LmtpAct
        requires data { work_in self.old.phase ≡ LmtpWork.AnswersRecipient }
        requires ready { opened ≡ true → K.ready keep.old ≡ true }
        requires moment { moment ≤ last_moment }
        ensures turn { (name piece : List ℕ) → LmtpActs K.Keep moment name opened self.old piece
            keep.old
            (at_sink O.Sink out.old (K.faults keep.old))
            result self.new keep.new
            (at_sink O.Sink out.new (K.faults keep.new)) }
        ensures takes { (piece : List ℕ) → TakesWork opened self.old piece result self.new }
        ensures ready { StaysReadyAfter result (K.ready keep.old) (K.ready keep.new) }
        ensures later { K.faults keep.old ≤ K.faults keep.new }
        ensures sink { O.alike out.old out.new }
    {
        if self.stage.is_too_long() {
            let said = say_reply(Answer::TooLarge(self.stage.count()), out);
            self.stage.pass_on();
            return gave(Next::after(said));
        }
        if !opened {
            return self.reopen(keep, out);
        }
        let answer = keep.command(&Command::Deliver(self.stage.text()), moment);
        let said = say_reply(answer, out);
        self.stage.pass_on();
        gave(Next::after(said))
    }

    /// Reopens the archive before a recipient. A refusal is the recipient's reply.
    fn reopen<K: Keep, O: Sink>(&mut self, keep: &mut K, out: &mut O) -> LmtpAct
        requires data { work_in self.old.phase ≡ LmtpWork.AnswersRecipient }
        requires short { nat_lt data_limit (count_in self.old.phase) ≡ false }
        ensures turn { (moment : ℕ) (name piece : List ℕ) → LmtpActs K.Keep moment name false self.old
            piece keep.old
            (at_sink O.Sink out.old (K.faults keep.old))
            result self.new keep.new
            (at_sink O.Sink out.new (K.faults keep.new)) }
        ensures takes { (piece : List ℕ) → TakesWork false self.old piece result self.new }
        ensures ready { StaysReadyAfter result (K.ready keep.old) (K.ready keep.new) }
        ensures later { K.faults keep.old ≤ K.faults keep.new }
        ensures sink { O.alike out.old out.new }
    {
        match keep.fresh() {
            Ok(()) => LmtpAct::Opened,
            Err(refusal) => {
                let said = say_unopened(refusal, out);
                self.stage.pass_on();
                gave(Next::after(said))
            }
        }
    }
}

/// Continues after data that ended after so many bytes of the piece, or keeps the piece.
fn taken(used: Option<usize>) -> LmtpAct
    ensures { result ≡ went_or_kept used }
{
    match used {
        Some(taken) => LmtpAct::Went(taken),
        None => LmtpAct::Kept,
    }
}

/// Continues after a line that took `taken` bytes of the piece, or closes.
fn went(taken: usize, next: Next) -> LmtpAct
    ensures { result ≡ (if continues next then LmtpAct.Went taken else LmtpAct.Closed) }
{
    match next {
        Next::Go => LmtpAct::Went(taken),
        Next::Close => LmtpAct::Closed,
    }
}

/// Continues after the reply to a recipient, or closes.
fn gave(next: Next) -> LmtpAct
    ensures { result ≡ (if continues next then LmtpAct.Gave else LmtpAct.Closed) }
{
    match next {
        Next::Go => LmtpAct::Gave,
        Next::Close => LmtpAct::Closed,
    }
}

/// Closes after the notice for that, and otherwise continues if the notice was sent.
fn after_notice(notice: LmtpNotice, next: Next) -> Next
    ensures { continues result ≡ (if is_bye notice then false else continues next) }
{
    match notice {
        LmtpNotice::Bye => Next::Close,
        _ => next,
    }
}
