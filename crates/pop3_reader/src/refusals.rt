//! The refusals of a server that has no session to speak for it, or no open archive.
//! Pure.
ghost use Rattle.edge_io.specs.Phrases.{SaysTo};
ghost use Rattle.pop3_reader.specs.Notices.{refusal_words};

use edge_io::{Sink, SinkFault};
use keep_course::Refusal;

/// What stands before the words of each refusal.
pub(crate) const REFUSED: &[u8] = b"-ERR ";

/// Writes why a connection is refused. If there is no archive, its root is called damaged.
///
/// `SinkFault` if a write failed. A prefix of the line was taken, and the sink's count of faults rose.
pub fn say_refusal<O: Sink>(refusal: Refusal, out: &mut O) -> Result<(), SinkFault>
    ensures said { SaysTo O.Sink (refusal_words refusal) out.old out.new result }
    ensures sink { O.alike out.old out.new }
{
    shelf_doors::say_refusal(b"-ERR busy\r\n", REFUSED, refusal, out)
}
