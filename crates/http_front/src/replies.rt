//! Writes whole replies, and the words of statuses other than 200.
//! Allocates.
ghost use Rattle.std.specs.Prelude.{◌≡◌, ◌≤◌, ◌+◌, ◌++◌, ℕ, length, decimal, IfOk, OnOk, true};
ghost use Rattle.arch_base.specs.Moments.{IsMoment};
ghost use Rattle.arch_base.specs.Ids.{id_bytes};
ghost use Rattle.edge_io.specs.Phrases.{SaysTo};
ghost use Rattle.http_front.specs.Sessions.{PageSaysUnread};
ghost use Rattle.http_heads.specs.Dates.{reply_date};
ghost use Rattle.http_heads.specs.Replies.{reply_head, allow_line as allow, close_line as close};
ghost use Rattle.http_front.specs.Replies.{sent_body, word, word_of, status_line as line_of, damaged_line as damaged, file_line};

use arch_base::{Bytes, NoMemory, ObjectId, hex_of};
use arch_model::TextRefusal;
use edge_io::{Sink, SinkFault, say};
use http_heads::{Body, Status, date_at, push_reply_head};
use itoa::Buffer;
use std::alloc::Global;
use wire_replies::{Phrase, send};

/// The number of bytes that are written at once, of a reply that is longer.
pub(crate) const PART_LEN: usize = 65_536;

/// Appends the front of a reply with a body of this length: its head, and the first bytes of the body.
///
/// `NoMemory` may leave a part of it appended.
pub(crate) fn push_front(
    moment: u64,
    body: Body,
    len: u128,
    first: &[u8],
    closes: bool,
    into: &mut Bytes,
) -> Result<(), NoMemory>
    requires { IsMoment moment }
    ensures { OnOk result (into.new
        ≡ into.old ++ reply_head Status.Done moment body len closes ++ first.now) }
{
    push_reply_head(Status::Done, moment, body, len, closes, into)?;
    into.push_slice(first)
}

/// Writes the front of a reply, and then the rest in parts.
pub(crate) fn say_parts<O: Sink>(front: &[u8], rest: &[u8], out: &mut O) -> Result<(), SinkFault>
    ensures said { SaysTo O.Sink (front.now ++ rest.now) out.old out.new result }
    ensures sink { O.alike out.old out.new }
{
    say(front, out)?;
    say_in_parts(rest, out)
}

/// Writes words in parts, or nothing if there are none.
fn say_in_parts<O: Sink>(words: &[u8], out: &mut O) -> Result<(), SinkFault>
    ensures said { SaysTo O.Sink words.now out.old out.new result }
    ensures sink { O.alike out.old out.new }
{
    let mut rest = words;
    while !rest.is_empty() {
        let (part, after) = rest.split_at(rest.len().min(PART_LEN));
        match say(part, out) {
            Ok(()) => rest = after,
            Err(fault) => return Err(fault),
        }
    }
    Ok(())
}

/// Returns the bytes of a body, or none in the reply to the method `HEAD`.
pub(crate) fn sent(bytes: &[u8], sends: bool) -> &[u8]
    ensures { result.now ≡ sent_body sends bytes.now }
{
    if sends { bytes } else { b"" }
}

/// Writes a status with its words, in one piece.
pub(crate) fn say_status<O: Sink>(
    status: Status,
    moment: u64,
    sends: bool,
    closes: bool,
    out: &mut O,
) -> Result<(), SinkFault>
    requires { IsMoment moment }
    ensures said { SaysTo O.Sink (word status moment sends closes) out.old out.new result }
    ensures sink { O.alike out.old out.new }
{
    say_words(status, status_line(status), moment, sends, closes, out)
}

/// Writes words with a status, in one piece if there are at most 3,000 of them.
pub(crate) fn say_words<O: Sink>(
    status: Status,
    words: &[u8],
    moment: u64,
    sends: bool,
    closes: bool,
    out: &mut O,
) -> Result<(), SinkFault>
    requires { IsMoment moment }
    ensures said { SaysTo O.Sink (word_of status words.now moment sends closes) out.old out.new
        result }
    ensures sink { O.alike out.old out.new }
{
    say_dated(status, words, &date_at(moment), sends, closes, out)
}

/// Writes words with a status and the date of a moment.
fn say_dated<'a, O: Sink>(
    status: Status,
    words: &'a [u8],
    date: &'a [u8],
    sends: bool,
    closes: bool,
    out: &mut O,
) -> Result<(), SinkFault>
    ensures said { (moment : ℕ) → date.now ≡ reply_date moment
        → SaysTo O.Sink (word_of status words.now moment sends closes) out.old out.new result }
    ensures sink { O.alike out.old out.new }
{
    send(
        &[
            Phrase::Words(b"HTTP/1.1 "),
            Phrase::Words(status.words()),
            Phrase::Words(b"\r\nDate: "),
            Phrase::Words(date),
            Phrase::Words(b"\r\nContent-Type: "),
            Phrase::Words(Body::Words.media_type()),
            Phrase::Words(b"\r\nContent-Length: "),
            Phrase::Number(words.len() as u64),
            Phrase::Words(b"\r\n"),
            Phrase::Words(allow_line(status)),
            Phrase::Words(close_line(closes)),
            Phrase::Words(b"\r\n"),
            Phrase::Words(sent(words, sends)),
        ],
        out,
    )
}

/// Writes that a file of the archive is damaged, and at which offset. `name` and `number` are the words
/// for the file. The connection is closed.
pub(crate) fn say_damaged_file<'a, O: Sink>(
    name: &'a [u8],
    number: &'a [u8],
    at: u64,
    moment: u64,
    out: &mut O,
) -> Result<(), SinkFault>
    requires moment { IsMoment moment }
    requires short { length name.now + length number.now ≤ 64 }
    ensures said { SaysTo O.Sink (word_of Status.ServerError
        (file_line (name.now ++ number.now) at) moment
        true true) out.old out.new result }
    ensures sink { O.alike out.old out.new }
{
    let mut digits = Buffer::new();
    let offset = digits.format(at).as_bytes();
    let len = name.len() + number.len() + offset.len() + 10;
    say_file_line(name, number, offset, len as u64, &date_at(moment), out)
}

/// Writes the reply with the line of a damaged file, whose length is given, and the date of a moment.
fn say_file_line<'a, O: Sink>(
    name: &'a [u8],
    number: &'a [u8],
    offset: &'a [u8],
    len: u64,
    date: &'a [u8],
    out: &mut O,
) -> Result<(), SinkFault>
    requires { len ≡ length name.now + length number.now + length offset.now + 10 }
    ensures said { (moment at : ℕ) → date.now ≡ reply_date moment → offset.now ≡ decimal at
        → SaysTo O.Sink (word_of Status.ServerError
        (file_line (name.now ++ number.now) at) moment true true) out.old out.new result }
    ensures sink { O.alike out.old out.new }
{
    let status = Status::ServerError;
    send(
        &[
            Phrase::Words(b"HTTP/1.1 "),
            Phrase::Words(status.words()),
            Phrase::Words(b"\r\nDate: "),
            Phrase::Words(date),
            Phrase::Words(b"\r\nContent-Type: "),
            Phrase::Words(Body::Words.media_type()),
            Phrase::Words(b"\r\nContent-Length: "),
            Phrase::Number(len),
            Phrase::Words(b"\r\n"),
            Phrase::Words(allow_line(status)),
            Phrase::Words(close_line(true)),
            Phrase::Words(b"\r\n"),
            Phrase::Words(b"damaged "),
            Phrase::Words(name),
            Phrase::Words(number),
            Phrase::Words(b" "),
            Phrase::Words(offset),
            Phrase::Words(b"\n"),
        ],
        out,
    )
}

/// Returns the line that names the allowed methods, if the status refuses another one.
fn allow_line(status: Status) -> &'static [u8]
    ensures { result.now ≡ allow status }
{
    match status {
        Status::MethodNotAllowed => b"Allow: GET, HEAD\r\n",
        _ => b"",
    }
}

/// Returns the line that says that the connection is closed, if it is.
fn close_line(closes: bool) -> &'static [u8]
    ensures { result.now ≡ close closes }
{
    if closes {
        b"Connection: close\r\n"
    } else {
        b""
    }
}

/// Returns the words of a status.
fn status_line(status: Status) -> &'static [u8]
    ensures { result.now ≡ line_of status }
{
    match status {
        Status::Done => b"",
        Status::BadRequest => b"bad request\n",
        Status::NotFound => b"not found\n",
        Status::MethodNotAllowed => b"method not allowed\n",
        Status::TooManyRequests => b"busy\n",
        Status::HeadTooLarge => b"head too large\n",
        Status::ServerError => b"disk fault\n",
        Status::Unavailable => b"out of memory\n",
    }
}

/// Writes why a text was not read.
pub(crate) fn say_unread<O: Sink>(
    alloc: Global,
    refusal: TextRefusal,
    moment: u64,
    sends: bool,
    out: &mut O,
) -> Result<(), SinkFault>
    requires { IsMoment moment }
    ensures said { PageSaysUnread refusal moment sends (O.taken out.old) (O.faults out.old)
        (O.taken out.new) (O.faults out.new) result }
    ensures sink { O.alike out.old out.new }
{
    match refusal {
        TextRefusal::DiskFault => say_status(Status::ServerError, moment, sends, true, out),
        TextRefusal::NoMemory => say_status(Status::Unavailable, moment, sends, true, out),
        TextRefusal::Damaged { named, found } => match damaged_line(alloc, &named, &found) {
            Ok(line) => {
                let status = Status::ServerError;
                say_words(status, line.as_slice(), moment, sends, true, out)
            }
            Err(NoMemory) => say_status(Status::Unavailable, moment, sends, true, out),
        },
    }
}

/// Returns the line of a damaged text: its id, and the id of the bytes found in its place.
fn damaged_line(alloc: Global, named: &ObjectId, found: &ObjectId) -> Result<Bytes, NoMemory>
    ensures { IfOk result (λ made. made ≡ damaged (id_bytes named.now) (id_bytes found.now)) }
{
    let mut made = Bytes::new(alloc);
    made.push_slice(b"damaged ")?;
    made.push_slice(hex_of(named).as_slice())?;
    made.push_slice(b" ")?;
    made.push_slice(hex_of(found).as_slice())?;
    made.push_slice(b"\n")?;
    Ok(made)
}
