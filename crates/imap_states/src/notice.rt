//! The replies that are one line of fixed words.
//! Pure.
ghost use Rattle.std.specs.Prelude.{codes, ◌++◌};
ghost use Rattle.edge_io.specs.Phrases.{SaysTo};
ghost use Rattle.imap_states.specs.Notices.{bye_memory_line, untagged_line, go_line, welcome_line, idling_line, bye_line, bad_line, no_memory_line, read_only_line, not_here_line, no_mailbox_line, done_line, tagged};

use edge_io::{Sink, SinkFault, say};
use wire_replies::{Phrase, send};

/// Writes the greeting of a new session.
///
/// `SinkFault` if a write failed. A prefix of the line was taken, and the sink's count of faults rose.
pub fn say_welcome<O: Sink>(out: &mut O) -> Result<(), SinkFault>
    ensures said { SaysTo O.Sink welcome_line out.old out.new result }
    ensures sink { O.alike out.old out.new }
{
    say(b"* OK [CAPABILITY IMAP4rev1 IDLE] piv2 ready\r\n", out)
}

/// Writes that memory ran out, where no tag was read. The connection is to be closed.
///
/// `SinkFault` if a write failed. A prefix of the line was taken, and the sink's count of faults rose.
pub fn say_bye_memory<O: Sink>(out: &mut O) -> Result<(), SinkFault>
    ensures said { SaysTo O.Sink bye_memory_line out.old out.new result }
    ensures sink { O.alike out.old out.new }
{
    say(b"* BYE out of memory\r\n", out)
}

/// Writes that a command has no readable tag.
///
/// `SinkFault` if a write failed. A prefix of the line was taken, and the sink's count of faults rose.
pub fn say_untagged<O: Sink>(out: &mut O) -> Result<(), SinkFault>
    ensures said { SaysTo O.Sink untagged_line out.old out.new result }
    ensures sink { O.alike out.old out.new }
{
    say(b"* BAD syntax\r\n", out)
}

/// Writes that the octets that a client announced may come.
///
/// `SinkFault` if a write failed. A prefix of the line was taken, and the sink's count of faults rose.
pub fn say_go<O: Sink>(out: &mut O) -> Result<(), SinkFault>
    ensures said { SaysTo O.Sink go_line out.old out.new result }
    ensures sink { O.alike out.old out.new }
{
    say(b"+ go\r\n", out)
}

/// Writes that the session idles.
pub(crate) fn say_idling<O: Sink>(out: &mut O) -> Result<(), SinkFault>
    ensures said { SaysTo O.Sink idling_line out.old out.new result }
    ensures sink { O.alike out.old out.new }
{
    say(b"+ idling\r\n", out)
}

/// Writes words after the tag of a command.
fn say_tagged<'a, O: Sink>(tag: &'a [u8], words: &'a [u8], out: &mut O) -> Result<(), SinkFault>
    ensures said { SaysTo O.Sink (tagged tag.now words.now) out.old out.new result }
    ensures sink { O.alike out.old out.new }
{
    send(
        &[
            Phrase::Words(tag),
            Phrase::Words(b" "),
            Phrase::Words(words),
            Phrase::Words(b"\r\n"),
        ],
        out,
    )
}

/// Writes that a command isn't of the grammar, or of another state.
///
/// `SinkFault` if a write failed. A prefix of the line was taken, and the sink's count of faults rose.
pub fn say_bad<O: Sink>(tag: &[u8], out: &mut O) -> Result<(), SinkFault>
    ensures said { SaysTo O.Sink (bad_line tag.now) out.old out.new result }
    ensures sink { O.alike out.old out.new }
{
    say_tagged(tag, b"BAD syntax", out)
}

/// Writes after a tag that memory ran out.
///
/// `SinkFault` if a write failed. A prefix of the line was taken, and the sink's count of faults rose.
pub fn say_no_memory<O: Sink>(tag: &[u8], out: &mut O) -> Result<(), SinkFault>
    ensures said { SaysTo O.Sink (no_memory_line tag.now) out.old out.new result }
    ensures sink { O.alike out.old out.new }
{
    send(
        &[Phrase::Words(tag), Phrase::Words(b" NO out of memory\r\n")],
        out,
    )
}

/// Writes that the archive is only read.
pub(crate) fn say_read_only<O: Sink>(tag: &[u8], out: &mut O) -> Result<(), SinkFault>
    ensures said { SaysTo O.Sink (read_only_line tag.now) out.old out.new result }
    ensures sink { O.alike out.old out.new }
{
    say_tagged(tag, b"NO read only", out)
}

/// Writes that there is no login of another form.
pub(crate) fn say_not_here<O: Sink>(tag: &[u8], out: &mut O) -> Result<(), SinkFault>
    ensures said { SaysTo O.Sink (not_here_line tag.now) out.old out.new result }
    ensures sink { O.alike out.old out.new }
{
    say_tagged(tag, b"NO not here", out)
}

/// Writes that no mailbox has the name.
pub(crate) fn say_no_mailbox<O: Sink>(tag: &[u8], out: &mut O) -> Result<(), SinkFault>
    ensures said { SaysTo O.Sink (no_mailbox_line tag.now) out.old out.new result }
    ensures sink { O.alike out.old out.new }
{
    say_tagged(tag, b"NO no such mailbox", out)
}

/// Writes that a command was carried out, by its name.
pub(crate) fn say_done<'a, O: Sink>(
    tag: &'a [u8],
    name: &'a [u8],
    out: &mut O,
) -> Result<(), SinkFault>
    ensures said { SaysTo O.Sink (done_line tag.now name.now) out.old out.new result }
    ensures sink { O.alike out.old out.new }
{
    send(
        &[
            Phrase::Words(tag),
            Phrase::Words(b" OK "),
            Phrase::Words(name),
            Phrase::Words(b" done\r\n"),
        ],
        out,
    )
}

/// Writes the answer to LOGOUT.
pub(crate) fn say_logout<O: Sink>(tag: &[u8], out: &mut O) -> Result<(), SinkFault>
    ensures said { SaysTo O.Sink (bye_line ++ done_line tag.now (codes "LOGOUT")) out.old out.new
        result }
    ensures sink { O.alike out.old out.new }
{
    send(
        &[
            Phrase::Words(b"* BYE bye\r\n"),
            Phrase::Words(tag),
            Phrase::Words(b" OK LOGOUT done\r\n"),
        ],
        out,
    )
}
