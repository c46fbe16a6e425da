//! The reply to a recipient of data that has ended.
//! Pure.
ghost use Rattle.edge_io.specs.Phrases.{SaysTo};
ghost use Rattle.lmtp_door.specs.Notices.{numbered_line, reply_line};

use crate::refusals::{say_no_memory, say_unopened};
use arch_model::{Answer, OpenRefusal};
use edge_io::{Sink, SinkFault, say};
use wire_replies::{Phrase, send};

/// Writes the reply of an answer.
///
/// `SinkFault` if a write failed. A prefix of the line was taken, and the sink's count of faults rose.
pub(crate) fn say_reply<O: Sink>(answer: Answer, out: &mut O) -> Result<(), SinkFault>
    ensures said { SaysTo O.Sink (reply_line answer) out.old out.new result }
    ensures sink { O.alike out.old out.new }
{
    match answer {
        Answer::Ok { number, .. } => say_numbered(b"250 ok ", u64::from(number), out),
        Answer::Duplicate(number) => say_numbered(b"250 duplicate ", u64::from(number), out),
        Answer::NoFields => say(b"554 no fields\r\n", out),
        Answer::TooLarge(len) => say_numbered(b"552 too large ", len, out),
        Answer::Full(max) => say_numbered(b"452 full ", u64::from(max), out),
        Answer::Collision(number) => say_numbered(b"554 collision ", u64::from(number), out),
        Answer::IsMirror => say(b"554 is mirror\r\n", out),
        Answer::DiskFault => say_unopened(OpenRefusal::DiskFault, out),
        Answer::Damaged { file, at } => say_unopened(OpenRefusal::Damaged { file, at }, out),
        Answer::NoMemory => say_no_memory(out),
        Answer::NotLive(number) => say_numbered(b"554 not live ", u64::from(number), out),
        Answer::NoText(number) => say_numbered(b"554 no text ", u64::from(number), out),
    }
}

/// Writes words before a number, as a line.
fn say_numbered<'a, O: Sink>(words: &'a [u8], number: u64, out: &mut O) -> Result<(), SinkFault>
    ensures said { SaysTo O.Sink (numbered_line words.now number) out.old out.new result }
    ensures sink { O.alike out.old out.new }
{
    send(
        &[
            Phrase::Words(words),
            Phrase::Number(number),
            Phrase::Words(b"\r\n"),
        ],
        out,
    )
}
