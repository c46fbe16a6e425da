//! The refusals of a server that has no session to speak for it, or no open archive.
//! Allocates.
ghost use Rattle.edge_io.specs.Phrases.{SaysTo};
ghost use Rattle.lmtp_door.specs.Notices.{memory_line, unopened_line, refusal_words};

use crate::notice::{LmtpNotice, say_notice};
use arch_model::OpenRefusal;
use edge_io::{Sink, SinkFault};
use keep_course::Refusal;

/// What stands before the words of a fault of the disk, and of damage.
const FAULT_CODE: &[u8] = b"451 ";

/// Writes why a connection is refused. If there is no archive, its root is called damaged.
///
/// `SinkFault` if a write failed. A prefix of the line was taken, and the sink's count of faults rose.
pub fn say_refusal<O: Sink>(refusal: Refusal, out: &mut O) -> Result<(), SinkFault>
    ensures said { SaysTo O.Sink (refusal_words refusal) out.old out.new result }
    ensures sink { O.alike out.old out.new }
{
    match refusal {
        Refusal::Busy => say_notice(LmtpNotice::Busy, out),
        Refusal::NoMemory => say_no_memory(out),
        Refusal::Unopened(why) => say_unopened(why, out),
    }
}

/// Writes that memory ran out.
pub(crate) fn say_no_memory<O: Sink>(out: &mut O) -> Result<(), SinkFault>
    ensures said { SaysTo O.Sink memory_line out.old out.new result }
    ensures sink { O.alike out.old out.new }
{
    say_notice(LmtpNotice::NoMemory, out)
}

/// Writes why the archive was not opened. If there is none, its root is called damaged.
pub(crate) fn say_unopened<O: Sink>(refusal: OpenRefusal, out: &mut O) -> Result<(), SinkFault>
    ensures said { SaysTo O.Sink (unopened_line refusal) out.old out.new result }
    ensures sink { O.alike out.old out.new }
{
    match refusal {
        OpenRefusal::NoMemory => say_no_memory(out),
        OpenRefusal::DiskFault => shelf_doors::say_unopened(FAULT_CODE, refusal, out),
        OpenRefusal::NoArchive => shelf_doors::say_unopened(FAULT_CODE, refusal, out),
        OpenRefusal::Damaged { .. } => shelf_doors::say_unopened(FAULT_CODE, refusal, out),
    }
}
