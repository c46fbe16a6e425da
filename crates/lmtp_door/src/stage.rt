//! Where a session stands, and what its commands do to that.
//! Allocates.
ghost use Rattle.std.specs.Prelude.{◌≡◌, ◌≤◌, ◌<◌, [], length, true, false, nat_lt};
ghost use Rattle.lmtp_data.specs.Readings.{data_limit};
ghost use Rattle.lmtp_door.specs.Door.{recipients};
ghost use Rattle.lmtp_door.specs.Phases.{mail_reply, rcpt_reply, data_reply, starved_data, reset_phase, replies};
ghost use Rattle.lmtp_door.specs.Sessions.{phase_of, work_in, IsTurn, IsDataTurn, ReadsPhase, phase_after, giving_to, left_in, text_in, count_in};
ghost use Rattle.lmtp_door.specs.declared.notice.LmtpNotice.TheVariants as notice;

use crate::notice::LmtpNotice;
use crate::order::LmtpOrder;
use lmtp_data::DataReader;
use std::alloc::Global;

/// The most recipients of a transaction.
const RECIPIENT_LIMIT: u8 = 100;

/// The most octets of data that is delivered.
const DATA_LIMIT: u64 = 9_000_000;

/// Data that comes, or that has ended and is given to its recipients.
#[derive(Drop)]
pub(crate) struct MailTransfer {
    /// How many recipients there are after the next one.
    left: u8,
    /// Whether the data has ended.
    ended: bool,
    /// The data.
    reader: DataReader,
}

/// Where a session stands.
#[derive(Drop)]
pub(crate) enum LmtpStage {
    /// Before LHLO.
    Ungreeted,
    /// Between transactions.
    Greeted,
    /// In a transaction, with this many recipients accepted.
    Mailing(u8),
    /// In the data of a transaction.
    Transferring(MailTransfer),
}

/// What a session does with the bytes that come next.
#[derive(Clone, Copy, Debug, PartialEq, Eq, Drop)]
pub(crate) enum LmtpWork {
    /// They are lines.
    ReadsLines,
    /// They are data.
    ReadsData,
    /// None before a recipient that is left is answered.
    AnswersRecipient,
}

/// Answers a command with a notice, and goes where the session stands after it.
pub(crate) fn turn(order: LmtpOrder, alloc: Global, stage: &mut LmtpStage) -> LmtpNotice
    ensures turn { IsTurn (phase_of stage.old) order result (phase_of stage.new) }
{
    match order {
        LmtpOrder::Hello => {
            *stage = LmtpStage::Greeted;
            LmtpNotice::Extensions
        }
        LmtpOrder::Mail => begin(stage),
        LmtpOrder::Recipient(ours) => accept(ours, stage),
        LmtpOrder::Data => begin_data(alloc, stage),
        LmtpOrder::Reset => {
            reset(stage);
            LmtpNotice::Done
        }
        LmtpOrder::Noop => LmtpNotice::Done,
        LmtpOrder::Verify => LmtpNotice::CannotVerify,
        LmtpOrder::Quit => LmtpNotice::Bye,
        LmtpOrder::Mistaken => LmtpNotice::Syntax,
        LmtpOrder::Unknown => LmtpNotice::Unknown,
    }
}

/// Begins a transaction, unless one is under way or the client hasn't greeted.
fn begin(stage: &mut LmtpStage) -> LmtpNotice
    ensures { mail_reply (phase_of stage.old) ≡ replies result (phase_of stage.new) }
{
    match *stage {
        LmtpStage::Greeted => {
            *stage = LmtpStage::Mailing(0);
            LmtpNotice::Done
        }
        _ => LmtpNotice::BadSequence,
    }
}

/// Accepts the list as a recipient, if the path names it and the transaction has room for one more.
fn accept(ours: bool, stage: &mut LmtpStage) -> LmtpNotice
    ensures { rcpt_reply ours (phase_of stage.old) ≡ replies result (phase_of stage.new) }
{
    match *stage {
        LmtpStage::Mailing(accepted) => {
            if accepted >= RECIPIENT_LIMIT {
                return LmtpNotice::TooMany;
            }
            if !ours {
                return LmtpNotice::NoSuchList;
            }
            *stage = LmtpStage::Mailing(accepted + 1);
            LmtpNotice::Done
        }
        _ => LmtpNotice::BadSequence,
    }
}

/// Begins the data, if a recipient was accepted. Takes all memory for it.
///
/// Out of memory, the session stays where it stands.
fn begin_data(alloc: Global, stage: &mut LmtpStage) -> LmtpNotice
    ensures { IsDataTurn (phase_of stage.old) result (phase_of stage.new) }
{
    match *stage {
        LmtpStage::Mailing(accepted) => {
            if accepted == 0 {
                return LmtpNotice::NoRecipients;
            }
            let Ok(reader) = DataReader::new(alloc) else {
                return LmtpNotice::NoMemory;
            };
            *stage = LmtpStage::Transferring(MailTransfer {
                left: accepted - 1,
                ended: false,
                reader,
            });
            LmtpNotice::GoAhead
        }
        _ => LmtpNotice::NoRecipients,
    }
}

/// Drops the transaction.
fn reset(stage: &mut LmtpStage)
    ensures { phase_of stage.new ≡ reset_phase (phase_of stage.old) }
{
    match *stage {
        LmtpStage::Ungreeted => {}
        _ => *stage = LmtpStage::Greeted,
    }
}

impl MailTransfer {
    /// Reads the data in a piece. Returns how many bytes of the piece belong to it if it ends there.
    fn read(&mut self, piece: &[u8]) -> Option<usize>
        requires { self.old.ended ≡ false }
        ensures { ReadsPhase (phase_of (LmtpStage.Transferring self.old)) piece.now result
            (phase_of (LmtpStage.Transferring self.new)) }
    {
        let used = self.reader.read(piece);
        self.ended = used.is_some();
        used
    }
}

impl LmtpStage {
    /// Returns what the session does with the bytes that come next.
    pub(crate) fn work(&self) -> LmtpWork
        ensures { result ≡ work_in (phase_of self.now) }
    {
        match self {
            LmtpStage::Transferring(transfer) => {
                if transfer.ended {
                    LmtpWork::AnswersRecipient
                } else {
                    LmtpWork::ReadsData
                }
            }
            _ => LmtpWork::ReadsLines,
        }
    }

    /// Reads the data in a piece. Returns how many bytes of the piece belong to it if it ends there.
    pub(crate) fn read(&mut self, piece: &[u8]) -> Option<usize>
        requires { work_in (phase_of self.old) ≡ LmtpWork.ReadsData }
        ensures { ReadsPhase (phase_of self.old) piece.now result (phase_of self.new) }
    {
        match self {
            LmtpStage::Transferring(transfer) => transfer.read(piece),
            _ => None,
        }
    }

    /// Returns how many octets data that has ended has.
    pub(crate) fn count(&self) -> u64
        requires { work_in (phase_of self.now) ≡ LmtpWork.AnswersRecipient }
        ensures { result ≡ count_in (phase_of self.now) }
    {
        match self {
            LmtpStage::Transferring(transfer) => transfer.reader.count(),
            _ => 0,
        }
    }

    /// Returns whether data that has ended is too long to be delivered.
    pub(crate) fn is_too_long(&self) -> bool
        requires { work_in (phase_of self.now) ≡ LmtpWork.AnswersRecipient }
        ensures { result ≡ nat_lt data_limit (count_in (phase_of self.now)) }
    {
        self.count() > DATA_LIMIT
    }

    /// Returns the octets that are kept of data that has ended.
    pub(crate) fn text(&self) -> &[u8]
        requires { work_in (phase_of self.now) ≡ LmtpWork.AnswersRecipient }
        ensures { result.now ≡ text_in (phase_of self.now) }
    {
        match self {
            LmtpStage::Transferring(transfer) => transfer.reader.text(),
            _ => &[],
        }
    }

    /// Goes on after a recipient was answered: to the next one, or out of the transaction.
    pub(crate) fn pass_on(&mut self)
        requires { work_in (phase_of self.old) ≡ LmtpWork.AnswersRecipient }
        ensures phase { phase_of self.new ≡ phase_after (phase_of self.old) }
        ensures fewer { recipients (phase_of self.new) < recipients (phase_of self.old) }
    {
        let left = self.left();
        if left == 0 {
            *self = LmtpStage::Greeted;
            return;
        }
        self.set_left(left - 1);
    }

    /// Returns how many recipients there are after the next one.
    fn left(&self) -> u8
        requires { work_in (phase_of self.now) ≡ LmtpWork.AnswersRecipient }
        ensures { result ≡ left_in (phase_of self.now) }
    {
        match self {
            LmtpStage::Transferring(transfer) => transfer.left,
            _ => 0,
        }
    }

    /// Changes how many recipients there are after the next one.
    fn set_left(&mut self, left: u8)
        requires { work_in (phase_of self.old) ≡ LmtpWork.AnswersRecipient }
        ensures { phase_of self.new ≡ giving_to left (phase_of self.old) }
    {
        match self {
            LmtpStage::Transferring(transfer) => transfer.left = left,
            _ => {}
        }
    }
}
