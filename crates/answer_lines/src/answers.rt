//! Writes the answers to commands.
//! Pure.
ghost use Rattle.std.specs.Prelude.{◌++◌, ◌∷◌, codes, decimal};
ghost use Rattle.hex.specs.Hex.{encode_lower};
ghost use Rattle.arch_base.specs.Ids.{id_bytes};
ghost use Rattle.edge_io.specs.Phrases.{SaysTo};
ghost use Rattle.arch_model.specs.Delivery.{answer_line};
ghost use Rattle.answer_lines.specs.Lines.{whole_line};

use crate::damage::say_damaged;
use crate::numbers::{say_id, say_number};
use crate::refusals::{say_disk, say_memory};
use arch_base::ObjectId;
use arch_model::Answer;
use edge_io::{Sink, SinkFault, say, say_line};
use itoa::Buffer;

/// Writes the line of an answer.
pub fn say_answer<O: Sink>(answer: Answer, out: &mut O) -> Result<(), SinkFault>
    ensures said { SaysTo O.Sink (whole_line (answer_line answer)) out.old out.new result }
    ensures sink { O.alike out.old out.new }
{
    match answer {
        Answer::Ok { number, id } => say_accepted(number, &id, out),
        Answer::Duplicate(number) => say_number(b"2 duplicate ", u64::from(number), out),
        Answer::NoFields => say_line(b"3 no fields", out),
        Answer::TooLarge(len) => say_number(b"4 too large ", len, out),
        Answer::Full(max) => say_number(b"5 full ", u64::from(max), out),
        Answer::Collision(number) => say_number(b"6 collision ", u64::from(number), out),
        Answer::NotLive(number) => say_number(b"7 not live ", u64::from(number), out),
        Answer::NoText(number) => say_number(b"8 no text ", u64::from(number), out),
        Answer::IsMirror => say_line(b"9 is mirror", out),
        Answer::DiskFault => say_disk(out),
        Answer::Damaged { file, at } => say_damaged(file, at, out),
        Answer::NoMemory => say_memory(out),
    }
}

/// Writes that a message was accepted: its number, and the id of its text in hexadecimal.
fn say_accepted<O: Sink>(number: u32, id: &ObjectId, out: &mut O) -> Result<(), SinkFault>
    ensures said { SaysTo O.Sink (whole_line (codes "1 ok "
        ++ (decimal number ++ 32 ∷ encode_lower (id_bytes id.now)))) out.old out.new result }
    ensures sink { O.alike out.old out.new }
{
    let mut buffer = Buffer::new();
    say(b"1 ok ", out)?;
    say(buffer.format(number).as_bytes(), out)?;
    say_id(id, out)
}
