//! The replies that are one line of fixed words.
//! Pure.
ghost use Rattle.edge_io.specs.Phrases.{SaysTo};
ghost use Rattle.pop3_reader.specs.Notices.{notice_line};

use edge_io::{Sink, SinkFault, say};

/// A reply of fixed words.
#[derive(Clone, Copy, Debug, PartialEq, Eq, Drop)]
pub(crate) enum PopNotice {
    /// The greeting.
    Welcome,
    /// The command was done, and there is nothing else to say.
    Done,
    /// The answer to QUIT.
    Bye,
    /// No mailbox has the name.
    NoMaildrop,
    /// PASS came before a mailbox was accepted.
    UserFirst,
    /// The maildrop has no message with the number.
    NoMessage,
    /// The message isn't live any more.
    Gone,
    /// No message can be removed.
    ReadOnly,
    /// The line is too long.
    TooLong,
    /// The line spells no command, or one of another state.
    Syntax,
}

/// Writes the line of a notice.
pub(crate) fn say_notice<O: Sink>(notice: PopNotice, out: &mut O) -> Result<(), SinkFault>
    ensures said { SaysTo O.Sink (notice_line notice) out.old out.new result }
    ensures sink { O.alike out.old out.new }
{
    match notice {
        PopNotice::Welcome => say(b"+OK piv2 ready\r\n", out),
        PopNotice::Done => say(b"+OK\r\n", out),
        PopNotice::Bye => say(b"+OK bye\r\n", out),
        PopNotice::NoMaildrop => say(b"-ERR no such maildrop\r\n", out),
        PopNotice::UserFirst => say(b"-ERR user first\r\n", out),
        PopNotice::NoMessage => say(b"-ERR no such message\r\n", out),
        PopNotice::Gone => say(b"-ERR gone\r\n", out),
        PopNotice::ReadOnly => say(b"-ERR read only\r\n", out),
        PopNotice::TooLong => say(b"-ERR line too long\r\n", out),
        PopNotice::Syntax => say(b"-ERR syntax\r\n", out),
    }
}
