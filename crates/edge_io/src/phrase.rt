//! Writes words to a sink.
//! Pure.
ghost use Rattle.std.specs.Prelude.{◌++◌, ◌∷◌, []};
ghost use Rattle.edge_io.specs.Phrases.{SaysTo};

use crate::{Sink, SinkFault};

/// Writes words.
///
/// `SinkFault` if a prefix of them was taken. The sink's count of faults rose, and a session closes
/// then.
pub fn say<O: Sink>(words: &[u8], out: &mut O) -> Result<(), SinkFault>
    ensures said { SaysTo O.Sink words.now out.old out.new result }
    ensures sink { O.alike out.old out.new }
{
    out.write(words)
}

/// Writes words and a line feed.
///
/// `SinkFault` if a prefix of them was taken. The sink's count of faults rose.
pub fn say_line<O: Sink>(words: &[u8], out: &mut O) -> Result<(), SinkFault>
    ensures said { SaysTo O.Sink (words.now ++ 10 ∷ []) out.old out.new result }
    ensures sink { O.alike out.old out.new }
{
    say(words, out)?;
    say(b"\n", out)
}
