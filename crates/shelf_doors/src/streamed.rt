//! Where a streamed reply stops, and how it ends there.
//! Pure.
ghost use Rattle.std.specs.Prelude.{◌≡◌, ℕ, Ok, Err, is_ok, if◌then◌else◌};
ghost use Rattle.line_door.specs.Acts.{at_sink};
ghost use Rattle.shelf_doors.specs.Streams.{EndsAt};

use arch_model::Next;
use edge_io::{Sink, SinkFault};
use wire_replies::Waiting;

/// Why a streamed reply that is under way stops at a part.
#[derive(Clone, Copy, Debug, Drop)]
pub enum StreamStop {
    /// Its text wasn't read, and nothing was said before. The word for that was taken or lost.
    Unread(Result<(), SinkFault>),
    /// Its text wasn't read, after something was said.
    Short,
    /// A write failed.
    Lost,
}

impl StreamStop {
    /// Goes on after a part that was appended, and stops at a write that failed.
    pub fn after(sent: Result<(), SinkFault>) -> Result<(), StreamStop>
        ensures { result ≡ (if is_ok sent then Ok tt else Err StreamStop.Lost) }
    {
        match sent {
            Ok(()) => Ok(()),
            Err(SinkFault) => Err(StreamStop::Lost),
        }
    }

    /// Ends the reply, and returns whether the session continues. Words that wait are written where
    /// others were said before.
    pub fn end<O: Sink>(self, reply: &mut Waiting, out: &mut O) -> Next
        ensures ends { (disk : ℕ) → EndsAt self reply.old (at_sink O.Sink out.old disk) result
            (at_sink O.Sink out.new disk) }
        ensures sink { O.alike out.old out.new }
    {
        match self {
            StreamStop::Unread(sent) => Next::after(sent),
            StreamStop::Short => {
                let _ = reply.flush(out);
                Next::Close
            }
            StreamStop::Lost => Next::Close,
        }
    }
}
