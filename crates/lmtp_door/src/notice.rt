//! The replies of fixed words.
//! Pure.
ghost use Rattle.edge_io.specs.Phrases.{SaysTo};
ghost use Rattle.lmtp_door.specs.Notices.{notice_line};

use edge_io::{Sink, SinkFault, say};

/// A reply of fixed words.
#[derive(Clone, Copy, Debug, PartialEq, Eq, Drop)]
pub(crate) enum LmtpNotice {
    /// The greeting.
    Welcome,
    /// The answer to LHLO, with what the server extends.
    Extensions,
    /// The command was done, and there is nothing else to say.
    Done,
    /// The path names no list.
    NoSuchList,
    /// The transaction has as many recipients as it may have.
    TooMany,
    /// The command belongs to another state.
    BadSequence,
    /// DATA came before a recipient was accepted.
    NoRecipients,
    /// The data may come.
    GoAhead,
    /// The answer to VRFY.
    CannotVerify,
    /// The answer to QUIT.
    Bye,
    /// A known word has another argument.
    Syntax,
    /// The word is unknown.
    Unknown,
    /// The line is too long.
    LineTooLong,
    /// Memory ran out.
    NoMemory,
    /// As many sessions are open as there may be.
    Busy,
}

/// Writes the line of a notice.
pub(crate) fn say_notice<O: Sink>(notice: LmtpNotice, out: &mut O) -> Result<(), SinkFault>
    ensures said { SaysTo O.Sink (notice_line notice) out.old out.new result }
    ensures sink { O.alike out.old out.new }
{
    match notice {
        LmtpNotice::Welcome => say(b"220 piv2 LMTP\r\n", out),
        LmtpNotice::Extensions => say(b"250-piv2\r\n250-PIPELINING\r\n250 8BITMIME\r\n", out),
        LmtpNotice::Done => say(b"250 ok\r\n", out),
        LmtpNotice::NoSuchList => say(b"550 no such list\r\n", out),
        LmtpNotice::TooMany => say(b"452 too many recipients\r\n", out),
        LmtpNotice::BadSequence => say(b"503 bad sequence\r\n", out),
        LmtpNotice::NoRecipients => say(b"503 no recipients\r\n", out),
        LmtpNotice::GoAhead => say(b"354 go ahead\r\n", out),
        LmtpNotice::CannotVerify => say(b"252 cannot verify\r\n", out),
        LmtpNotice::Bye => say(b"221 bye\r\n", out),
        LmtpNotice::Syntax => say(b"501 syntax\r\n", out),
        LmtpNotice::Unknown => say(b"500 unknown\r\n", out),
        LmtpNotice::LineTooLong => say(b"500 line too long\r\n", out),
        LmtpNotice::NoMemory => say(b"451 no memory\r\n", out),
        LmtpNotice::Busy => say(b"421 busy\r\n", out),
    }
}
