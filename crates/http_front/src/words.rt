//! The words of the door of pages for what no session of it answers.
//! Pure.
//!
//! Each of them closes the connection.
ghost use Rattle.std.specs.Prelude.{◌++◌, true, codes, decimal};
ghost use Rattle.arch_base.specs.Moments.{IsMoment};
ghost use Rattle.arch_model.specs.Delivery.{file_words};
ghost use Rattle.edge_io.specs.Phrases.{SaysTo};
ghost use Rattle.http_front.specs.Replies.{word_of, file_line, unopened_word, refusal_words};

use crate::replies::{say_damaged_file, say_status};
use arch_model::OpenRefusal;
use disk_model::{FileKind, FileName};
use edge_io::{Sink, SinkFault};
use http_heads::Status;
use itoa::Buffer;
use keep_course::Refusal;

/// Writes why a connection is refused, in a reply that closes it. If there is no archive, its root is
/// called damaged. `moment` is the date of the reply, in seconds since 1970 UTC.
///
/// `SinkFault` if a write failed. A prefix of the reply was taken, and the sink's count of faults rose.
pub fn say_refusal<O: Sink>(refusal: Refusal, moment: u64, out: &mut O) -> Result<(), SinkFault>
    requires { IsMoment moment }
    ensures said { SaysTo O.Sink (refusal_words moment refusal) out.old out.new result }
    ensures sink { O.alike out.old out.new }
{
    match refusal {
        Refusal::Busy => say_status(Status::TooManyRequests, moment, true, true, out),
        Refusal::NoMemory => say_status(Status::Unavailable, moment, true, true, out),
        Refusal::Unopened(why) => say_unopened(why, moment, out),
    }
}

/// Writes why an archive was not opened.
fn say_unopened<O: Sink>(refusal: OpenRefusal, moment: u64, out: &mut O) -> Result<(), SinkFault>
    requires { IsMoment moment }
    ensures said { SaysTo O.Sink (unopened_word refusal moment) out.old out.new result }
    ensures sink { O.alike out.old out.new }
{
    match refusal {
        OpenRefusal::NoArchive => say_damaged_file(b"root", b"", 0, moment, out),
        OpenRefusal::DiskFault => say_status(Status::ServerError, moment, true, true, out),
        OpenRefusal::NoMemory => say_status(Status::Unavailable, moment, true, true, out),
        OpenRefusal::Damaged { file, at } => say_damaged(file, at, moment, out),
    }
}

/// Writes that a file of the archive is damaged, and at which offset.
fn say_damaged<O: Sink>(file: FileName, at: u64, moment: u64, out: &mut O) -> Result<(), SinkFault>
    requires { IsMoment moment }
    ensures said { SaysTo O.Sink (word_of Status.ServerError
        (file_line (file_words file) at) moment true true) out.old out.new result }
    ensures sink { O.alike out.old out.new }
{
    match file.kind {
        FileKind::Root => say_damaged_file(b"root", b"", at, moment, out),
        FileKind::Map => say_damaged_file(b"map", b"", at, moment, out),
        FileKind::Epoch => say_damaged_epoch(file.number, at, moment, out),
        FileKind::Cache => say_damaged_file(b"cache", b"", at, moment, out),
    }
}

/// Writes that an epoch is damaged, and at which offset.
fn say_damaged_epoch<O: Sink>(
    number: u32,
    at: u64,
    moment: u64,
    out: &mut O,
) -> Result<(), SinkFault>
    requires { IsMoment moment }
    ensures said { SaysTo O.Sink (word_of Status.ServerError
        (file_line (codes "epoch " ++ decimal number) at) moment true true) out.old out.new result }
    ensures sink { O.alike out.old out.new }
{
    let mut digits = Buffer::new();
    say_damaged_file(b"epoch ", digits.format(number).as_bytes(), at, moment, out)
}
