//! Writes refusals.
//! Pure.
ghost use Rattle.std.specs.Prelude.{◌++◌, ◌∷◌, codes};
ghost use Rattle.hex.specs.Hex.{encode_lower};
ghost use Rattle.arch_base.specs.Ids.{id_bytes};
ghost use Rattle.edge_io.specs.Phrases.{SaysTo};
ghost use Rattle.answer_lines.specs.Lines.{whole_line, memory_word, disk_word, unread_words, unopened_words};

use crate::damage::say_damaged;
use crate::numbers::say_id;
use arch_base::{ObjectId, hex_of};
use arch_model::{OpenRefusal, TextRefusal};
use edge_io::{Sink, SinkFault, say, say_line};

/// Writes that memory ran out.
pub fn say_memory<O: Sink>(out: &mut O) -> Result<(), SinkFault>
    ensures said { SaysTo O.Sink memory_word out.old out.new result }
    ensures sink { O.alike out.old out.new }
{
    say_line(b"12 no memory", out)
}

/// Writes that the disk failed.
pub(crate) fn say_disk<O: Sink>(out: &mut O) -> Result<(), SinkFault>
    ensures said { SaysTo O.Sink disk_word out.old out.new result }
    ensures sink { O.alike out.old out.new }
{
    say_line(b"10 disk fault", out)
}

/// Writes why a text, or an epoch, was not read.
pub fn say_unread<O: Sink>(refusal: TextRefusal, out: &mut O) -> Result<(), SinkFault>
    ensures said { SaysTo O.Sink (unread_words refusal) out.old out.new result }
    ensures sink { O.alike out.old out.new }
{
    match refusal {
        TextRefusal::DiskFault => say_disk(out),
        TextRefusal::Damaged { named, found } => say_other_text(&named, &found, out),
        TextRefusal::NoMemory => say_memory(out),
    }
}

/// Writes that a text is damaged: its id, and the id of the bytes found in its place.
fn say_other_text<O: Sink>(named: &ObjectId, found: &ObjectId, out: &mut O) -> Result<(), SinkFault>
    ensures said { SaysTo O.Sink (whole_line (codes "11 damaged "
        ++ (encode_lower (id_bytes named.now) ++ 32 ∷ encode_lower (id_bytes found.now))))
        out.old out.new result }
    ensures sink { O.alike out.old out.new }
{
    say(b"11 damaged ", out)?;
    say(hex_of(named).as_slice(), out)?;
    say_id(found, out)
}

/// Writes why an archive was not opened.
pub fn say_unopened<O: Sink>(refusal: OpenRefusal, out: &mut O) -> Result<(), SinkFault>
    ensures said { SaysTo O.Sink (unopened_words refusal) out.old out.new result }
    ensures sink { O.alike out.old out.new }
{
    match refusal {
        OpenRefusal::NoArchive => say_line(b"11 damaged root 0", out),
        OpenRefusal::Damaged { file, at } => say_damaged(file, at, out),
        OpenRefusal::DiskFault => say_disk(out),
        OpenRefusal::NoMemory => say_memory(out),
    }
}
