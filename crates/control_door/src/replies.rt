//! Writes the replies that only the control door has.
//! Pure.
ghost use Rattle.std.specs.Prelude.{Some, None};
ghost use Rattle.edge_io.specs.Phrases.{SaysTo};
ghost use Rattle.control_door.specs.Door.{bad_word, refusal_words, shown, reindexed_words};

use answer_lines::{say_memory, say_number, say_unopened};
use edge_io::{Sink, SinkFault, say, say_line};
use keep_course::Refusal;

/// Writes that a line is not an order.
pub(crate) fn say_bad<O: Sink>(out: &mut O) -> Result<(), SinkFault>
    ensures said { SaysTo O.Sink bad_word out.old out.new result }
    ensures sink { O.alike out.old out.new }
{
    say_line(b"13 bad line", out)
}

/// Writes why a connection is refused.
///
/// `SinkFault` if a write failed. A prefix of the line was taken, and the sink's count of faults rose.
pub fn say_refusal<O: Sink>(refusal: Refusal, out: &mut O) -> Result<(), SinkFault>
    ensures said { SaysTo O.Sink (refusal_words refusal) out.old out.new result }
    ensures sink { O.alike out.old out.new }
{
    match refusal {
        Refusal::Busy => say_line(b"14 busy", out),
        Refusal::NoMemory => say_memory(out),
        Refusal::Unopened(why) => say_unopened(why, out),
    }
}

/// Writes that a number has no text.
pub(crate) fn say_not_live<O: Sink>(number: u32, out: &mut O) -> Result<(), SinkFault>
    ensures said { SaysTo O.Sink (shown number None) out.old out.new result }
    ensures sink { O.alike out.old out.new }
{
    say_number(b"7 not live ", u64::from(number), out)
}

/// Writes a line with the length of a text, and then the text.
pub(crate) fn say_text<O: Sink>(text: &[u8], out: &mut O) -> Result<(), SinkFault>
    ensures said { SaysTo O.Sink (shown 0 (Some text.now)) out.old out.new result }
    ensures sink { O.alike out.old out.new }
{
    say_number(b"text ", text.len() as u64, out)?;
    say(text, out)
}

/// Writes how many messages are live after a reindexing.
pub(crate) fn say_reindexed<O: Sink>(live: u32, out: &mut O) -> Result<(), SinkFault>
    ensures said { SaysTo O.Sink (reindexed_words live) out.old out.new result }
    ensures sink { O.alike out.old out.new }
{
    say_number(b"reindexed ", u64::from(live), out)
}
