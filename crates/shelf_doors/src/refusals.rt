//! Says after a door's code why a text is not read, or why the archive is not opened.
//! Pure.
ghost use Rattle.std.specs.Prelude.{◌++◌, ◌∷◌, codes, decimal};
ghost use Rattle.arch_model.specs.Delivery.{file_words};
ghost use Rattle.edge_io.specs.Phrases.{SaysTo};
ghost use Rattle.wire_replies.specs.Blocks.{crlf_line};
ghost use Rattle.shelf_doors.specs.Refusals.{refusal_words, memory_line, disk_line, unread_line, unopened_line};

use arch_base::hex_of;
use arch_model::{OpenRefusal, TextRefusal};
use disk_model::{FileKind, FileName};
use edge_io::{Sink, SinkFault, say};
use keep_course::Refusal;
use wire_replies::{Phrase, send};

/// Writes why a connection is refused: a door's line for a server that is full, or why after its code.
///
/// `SinkFault` if a write failed. A prefix of the line was taken, and the sink's count of faults rose.
pub fn say_refusal<O: Sink>(
    busy: &[u8],
    code: &[u8],
    refusal: Refusal,
    out: &mut O,
) -> Result<(), SinkFault>
    ensures said { SaysTo O.Sink (refusal_words busy.now code.now refusal) out.old out.new result }
    ensures sink { O.alike out.old out.new }
{
    match refusal {
        Refusal::Busy => say(busy, out),
        Refusal::NoMemory => say_memory(code, out),
        Refusal::Unopened(why) => say_unopened(code, why, out),
    }
}

/// Writes that memory ran out.
///
/// `SinkFault` if a write failed. A prefix of the line was taken, and the sink's count of faults rose.
pub fn say_memory<'a, O: Sink>(code: &'a [u8], out: &mut O) -> Result<(), SinkFault>
    ensures said { SaysTo O.Sink (memory_line code.now) out.old out.new result }
    ensures sink { O.alike out.old out.new }
{
    send(
        &[Phrase::Words(code), Phrase::Words(b"out of memory\r\n")],
        out,
    )
}

/// Writes that the disk failed.
fn say_disk_fault<'a, O: Sink>(code: &'a [u8], out: &mut O) -> Result<(), SinkFault>
    ensures said { SaysTo O.Sink (disk_line code.now) out.old out.new result }
    ensures sink { O.alike out.old out.new }
{
    send(
        &[Phrase::Words(code), Phrase::Words(b"disk fault\r\n")],
        out,
    )
}

/// Writes why a text was not read. If it is damaged, its id is said, and the id of what was found.
///
/// `SinkFault` if a write failed. A prefix of the line was taken, and the sink's count of faults rose.
pub fn say_unread<'a, O: Sink>(
    code: &'a [u8],
    refusal: TextRefusal,
    out: &mut O,
) -> Result<(), SinkFault>
    ensures said { SaysTo O.Sink (unread_line code.now refusal) out.old out.new result }
    ensures sink { O.alike out.old out.new }
{
    match refusal {
        TextRefusal::DiskFault => say_disk_fault(code, out),
        TextRefusal::Damaged { named, found } => {
            say_damaged(
                code,
                hex_of(&named).as_slice(),
                hex_of(&found).as_slice(),
                out,
            )
        }
        TextRefusal::NoMemory => say_memory(code, out),
    }
}

/// Writes that a text is damaged: its id, and the id of the bytes found in its place, in hex.
fn say_damaged<'a, O: Sink>(
    code: &'a [u8],
    named: &'a [u8],
    found: &'a [u8],
    out: &mut O,
) -> Result<(), SinkFault>
    ensures said { SaysTo O.Sink (code.now ++ (codes "damaged "
        ++ (named.now ++ (32 ∷ crlf_line found.now)))) out.old out.new result }
    ensures sink { O.alike out.old out.new }
{
    send(
        &[
            Phrase::Words(code),
            Phrase::Words(b"damaged "),
            Phrase::Words(named),
            Phrase::Words(b" "),
            Phrase::Words(found),
            Phrase::Words(b"\r\n"),
        ],
        out,
    )
}

/// Writes why the archive was not opened. If there is none, its root is called damaged.
///
/// `SinkFault` if a write failed. A prefix of the line was taken, and the sink's count of faults rose.
pub fn say_unopened<'a, O: Sink>(
    code: &'a [u8],
    refusal: OpenRefusal,
    out: &mut O,
) -> Result<(), SinkFault>
    ensures said { SaysTo O.Sink (unopened_line code.now refusal) out.old out.new result }
    ensures sink { O.alike out.old out.new }
{
    match refusal {
        OpenRefusal::NoArchive => say_no_archive(code, out),
        OpenRefusal::Damaged { file, at } => say_damaged_file(code, file, at, out),
        OpenRefusal::DiskFault => say_disk_fault(code, out),
        OpenRefusal::NoMemory => say_memory(code, out),
    }
}

/// Writes that there is no archive.
fn say_no_archive<'a, O: Sink>(code: &'a [u8], out: &mut O) -> Result<(), SinkFault>
    ensures said { SaysTo O.Sink (code.now ++ crlf_line (codes "damaged root 0")) out.old out.new
        result }
    ensures sink { O.alike out.old out.new }
{
    send(
        &[Phrase::Words(code), Phrase::Words(b"damaged root 0\r\n")],
        out,
    )
}

/// Writes that a file of the archive is damaged, and at which offset.
fn say_damaged_file<'a, O: Sink>(
    code: &'a [u8],
    file: FileName,
    at: u64,
    out: &mut O,
) -> Result<(), SinkFault>
    ensures said { SaysTo O.Sink (code.now ++ (codes "damaged "
        ++ (file_words file ++ (32 ∷ crlf_line (decimal at))))) out.old out.new result }
    ensures sink { O.alike out.old out.new }
{
    match file.kind {
        FileKind::Root => say_damaged_at(code, b"root", at, out),
        FileKind::Map => say_damaged_at(code, b"map", at, out),
        FileKind::Epoch => say_damaged_epoch(code, file.number, at, out),
        FileKind::Cache => say_damaged_at(code, b"cache", at, out),
    }
}

/// Writes that a file that a word names is damaged, and at which offset.
fn say_damaged_at<'a, O: Sink>(
    code: &'a [u8],
    word: &'a [u8],
    at: u64,
    out: &mut O,
) -> Result<(), SinkFault>
    ensures said { SaysTo O.Sink (code.now ++ (codes "damaged "
        ++ (word.now ++ (32 ∷ crlf_line (decimal at))))) out.old out.new result }
    ensures sink { O.alike out.old out.new }
{
    send(
        &[
            Phrase::Words(code),
            Phrase::Words(b"damaged "),
            Phrase::Words(word),
            Phrase::Words(b" "),
            Phrase::Number(at),
            Phrase::Words(b"\r\n"),
        ],
        out,
    )
}

/// Writes that an epoch is damaged, and at which offset.
fn say_damaged_epoch<'a, O: Sink>(
    code: &'a [u8],
    number: u32,
    at: u64,
    out: &mut O,
) -> Result<(), SinkFault>
    ensures said { SaysTo O.Sink (code.now ++ (codes "damaged "
        ++ ((codes "epoch " ++ decimal number) ++ (32 ∷ crlf_line (decimal at))))) out.old out.new
        result }
    ensures sink { O.alike out.old out.new }
{
    send(
        &[
            Phrase::Words(code),
            Phrase::Words(b"damaged epoch "),
            Phrase::Number(u64::from(number)),
            Phrase::Words(b" "),
            Phrase::Number(at),
            Phrase::Words(b"\r\n"),
        ],
        out,
    )
}
