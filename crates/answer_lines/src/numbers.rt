//! Writes the ends of lines: numbers and ids.
//! Pure.
ghost use Rattle.std.specs.Prelude.{◌++◌, ◌∷◌, [], decimal};
ghost use Rattle.hex.specs.Hex.{encode_lower};
ghost use Rattle.arch_base.specs.Ids.{id_bytes};
ghost use Rattle.edge_io.specs.Phrases.{SaysTo};

use arch_base::{ObjectId, hex_of};
use edge_io::{Sink, SinkFault, say, say_line};
use itoa::Buffer;

/// Writes words, a number in decimal and a line feed.
pub fn say_number<O: Sink>(words: &[u8], number: u64, out: &mut O) -> Result<(), SinkFault>
    ensures said { SaysTo O.Sink (words.now ++ decimal number ++ 10 ∷ []) out.old out.new result }
    ensures sink { O.alike out.old out.new }
{
    let mut buffer = Buffer::new();
    say(words, out)?;
    say_line(buffer.format(number).as_bytes(), out)
}

/// Writes a space, an id in hexadecimal and a line feed.
pub(crate) fn say_id<O: Sink>(id: &ObjectId, out: &mut O) -> Result<(), SinkFault>
    ensures said { SaysTo O.Sink (32 ∷ (encode_lower (id_bytes id.now) ++ 10 ∷ [])) out.old out.new result }
    ensures sink { O.alike out.old out.new }
{
    say(b" ", out)?;
    say_line(hex_of(id).as_slice(), out)
}
