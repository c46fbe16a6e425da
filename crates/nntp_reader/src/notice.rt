//! The replies that are one line of fixed words.
//! Pure.
ghost use Rattle.edge_io.specs.Phrases.{SaysTo};
ghost use Rattle.nntp_reader.specs.Notices.{notice_line};

use edge_io::{Sink, SinkFault, say};

/// A reply of fixed words.
#[derive(Clone, Copy, Debug, PartialEq, Eq, Drop)]
pub(crate) enum Notice {
    /// The greeting.
    Welcome,
    /// The answer to MODE READER.
    ReadOnly,
    /// The answer to QUIT.
    Bye,
    /// The archive has another name.
    NoSuchGroup,
    /// No group is selected.
    NoGroup,
    /// There is no current article, or it is gone.
    NoCurrent,
    /// No live number is greater.
    NoNext,
    /// No live number is less.
    NoPrevious,
    /// The number is not live, or none of a range is.
    NoNumber,
    /// No live message has the id.
    NoArticle,
    /// Nothing can be posted.
    NoPosting,
    /// The command is unknown.
    Unknown,
    /// The arguments are wrong, or the line is too long.
    Syntax,
}

/// Writes the line of a notice.
pub(crate) fn say_notice<O: Sink>(notice: Notice, out: &mut O) -> Result<(), SinkFault>
    ensures said { SaysTo O.Sink (notice_line notice) out.old out.new result }
    ensures sink { O.alike out.old out.new }
{
    match notice {
        Notice::Welcome => say(b"201 piv2 reader\r\n", out),
        Notice::ReadOnly => say(b"201 no posting\r\n", out),
        Notice::Bye => say(b"205 bye\r\n", out),
        Notice::NoSuchGroup => say(b"411 no such group\r\n", out),
        Notice::NoGroup => say(b"412 no group selected\r\n", out),
        Notice::NoCurrent => say(b"420 no current article\r\n", out),
        Notice::NoNext => say(b"421 no next article\r\n", out),
        Notice::NoPrevious => say(b"422 no previous article\r\n", out),
        Notice::NoNumber => say(b"423 no such number\r\n", out),
        Notice::NoArticle => say(b"430 no such article\r\n", out),
        Notice::NoPosting => say(b"440 no posting\r\n", out),
        Notice::Unknown => say(b"500 unknown\r\n", out),
        Notice::Syntax => say(b"501 syntax\r\n", out),
    }
}
