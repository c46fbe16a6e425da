//! What stands after a tag where a command is refused.
//! Pure.
ghost use Rattle.std.specs.Prelude.{◌++◌, ◌∷◌, codes};
ghost use Rattle.edge_io.specs.Phrases.{SaysTo};
ghost use Rattle.wire_replies.specs.Blocks.{crlf_line};
ghost use Rattle.shelf_doors.specs.Refusals.{unread_line};
ghost use Rattle.imap_messages.specs.Tagged.{bad_line, no_code};

use arch_base::hex_of;
use arch_model::TextRefusal;
use edge_io::{Sink, SinkFault};
use wire_replies::{Phrase, send};

/// Writes that a command isn't of the grammar, or that it names what isn't there.
///
/// `SinkFault` if a write failed. A prefix of the line was taken, and the sink's count of faults rose.
pub(crate) fn say_bad<O: Sink>(tag: &[u8], out: &mut O) -> Result<(), SinkFault>
    ensures said { SaysTo O.Sink (bad_line tag.now) out.old out.new result }
    ensures sink { O.alike out.old out.new }
{
    send(
        &[Phrase::Words(tag), Phrase::Words(b" BAD syntax\r\n")],
        out,
    )
}

/// Writes after a tag why a text was not read, or that memory ran out.
///
/// `SinkFault` if a write failed. A prefix of the line was taken, and the sink's count of faults rose.
pub(crate) fn say_unread<'a, O: Sink>(
    tag: &'a [u8],
    refusal: TextRefusal,
    out: &mut O,
) -> Result<(), SinkFault>
    ensures said { SaysTo O.Sink (unread_line (no_code tag.now) refusal) out.old out.new result }
    ensures sink { O.alike out.old out.new }
{
    match refusal {
        TextRefusal::DiskFault => say_no(tag, b"disk fault", out),
        TextRefusal::Damaged { named, found } => {
            say_damaged(
                tag,
                hex_of(&named).as_slice(),
                hex_of(&found).as_slice(),
                out,
            )
        }
        TextRefusal::NoMemory => say_no(tag, b"out of memory", out),
    }
}

/// Writes a reason after a tag.
fn say_no<'a, O: Sink>(tag: &'a [u8], reason: &'a [u8], out: &mut O) -> Result<(), SinkFault>
    ensures said { SaysTo O.Sink (no_code tag.now ++ crlf_line reason.now) out.old out.new result }
    ensures sink { O.alike out.old out.new }
{
    send(
        &[
            Phrase::Words(tag),
            Phrase::Words(b" NO "),
            Phrase::Words(reason),
            Phrase::Words(b"\r\n"),
        ],
        out,
    )
}

/// Writes after a tag that a text is damaged: its id, and the id of the bytes found in its place, in
/// hex.
fn say_damaged<'a, O: Sink>(
    tag: &'a [u8],
    named: &'a [u8],
    found: &'a [u8],
    out: &mut O,
) -> Result<(), SinkFault>
    ensures said { SaysTo O.Sink (no_code tag.now ++ (codes "damaged "
        ++ (named.now ++ (32 ∷ crlf_line found.now)))) out.old out.new result }
    ensures sink { O.alike out.old out.new }
{
    send(
        &[
            Phrase::Words(tag),
            Phrase::Words(b" NO damaged "),
            Phrase::Words(named),
            Phrase::Words(b" "),
            Phrase::Words(found),
            Phrase::Words(b"\r\n"),
        ],
        out,
    )
}
