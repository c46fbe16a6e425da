//! Writes the lines of damaged files.
//! Pure.
ghost use Rattle.std.specs.Prelude.{◌++◌, ◌∷◌, codes, decimal};
ghost use Rattle.edge_io.specs.Phrases.{SaysTo};
ghost use Rattle.arch_model.specs.Delivery.{file_words};
ghost use Rattle.answer_lines.specs.Lines.{whole_line};

use crate::numbers::say_number;
use disk_model::{FileKind, FileName};
use edge_io::{Sink, SinkFault, say};
use itoa::Buffer;

/// Writes the line of the answer that a file is damaged.
pub(crate) fn say_damaged<O: Sink>(file: FileName, at: u64, out: &mut O) -> Result<(), SinkFault>
    ensures said { SaysTo O.Sink (whole_line (codes "11 damaged "
        ++ (file_words file ++ 32 ∷ decimal at))) out.old out.new result }
    ensures sink { O.alike out.old out.new }
{
    say(b"11 ", out)?;
    say_damage(file, at, out)
}

/// Writes a line that names a damaged file of an archive and the offset of the damage.
pub fn say_damage<O: Sink>(file: FileName, at: u64, out: &mut O) -> Result<(), SinkFault>
    ensures said { SaysTo O.Sink (whole_line (codes "damaged "
        ++ (file_words file ++ 32 ∷ decimal at))) out.old out.new result }
    ensures sink { O.alike out.old out.new }
{
    say(b"damaged ", out)?;
    say_file(file, out)?;
    say_number(b" ", at, out)
}

/// Writes the words for a file of an archive.
fn say_file<O: Sink>(file: FileName, out: &mut O) -> Result<(), SinkFault>
    ensures said { SaysTo O.Sink (file_words file) out.old out.new result }
    ensures sink { O.alike out.old out.new }
{
    match file.kind {
        FileKind::Root => say(b"root", out),
        FileKind::Map => say(b"map", out),
        FileKind::Epoch => say_epoch(file.number, out),
        FileKind::Cache => say(b"cache", out),
    }
}

/// Writes the word for an epoch, and its number.
fn say_epoch<O: Sink>(number: u32, out: &mut O) -> Result<(), SinkFault>
    ensures said { SaysTo O.Sink (codes "epoch " ++ decimal number) out.old out.new result }
    ensures sink { O.alike out.old out.new }
{
    let mut buffer = Buffer::new();
    say(b"epoch ", out)?;
    say(buffer.format(number).as_bytes(), out)
}
