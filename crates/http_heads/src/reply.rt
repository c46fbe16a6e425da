//! What becomes of a head, and the head of a reply.
//! Allocates.
ghost use Rattle.std.specs.Prelude.{◌≡◌, ◌++◌, length, take, OnOk, Some, option_map};
ghost use Rattle.arch_base.specs.Moments.{IsMoment};
ghost use Rattle.http_heads.specs.Heads.{shown};
ghost use Rattle.http_heads.specs.Replies.{status_words, media_type, status_lines, body_lines, allow_line, close_line, reply_head, verdict_of};

use crate::dates::date_at;
use crate::head::Request;
use arch_base::{Bytes, NoMemory};
use itoa::Buffer;

/// The status of a reply.
#[derive(Debug, Clone, Copy, PartialEq, Eq)]
pub enum Status {
    /// The reply has what was asked.
    Done,
    /// The head, or what it asks, is not understood.
    BadRequest,
    /// Nothing has the address.
    NotFound,
    /// The method is another one than `GET` and `HEAD`.
    MethodNotAllowed,
    /// Too many connections are open.
    TooManyRequests,
    /// The head is too long.
    HeadTooLarge,
    /// The disk failed, or holds another text.
    ServerError,
    /// An allocation failed.
    Unavailable,
}

/// What the body of a reply is.
#[derive(Debug, Clone, Copy, PartialEq, Eq)]
pub enum Body {
    /// A page.
    Page,
    /// The text of a message.
    Text,
    /// Words on a status other than 200.
    Words,
    /// A feed.
    Feed,
    /// A mailbox file.
    Mailbox,
    /// The list of an archive's entries.
    Entries,
    /// The text of a blob.
    Blob,
}

/// What becomes of a head.
#[derive(Debug, Clone, Copy, PartialEq, Eq)]
pub enum Verdict {
    /// What it asks is answered, with a body or without one.
    Serve(bool),
    /// It is refused with a status, with a body or without one, and the connection is closed.
    Refuse(Status, bool),
}

/// Returns what becomes of a head that was read, or that couldn't be.
pub fn judge(request: Option<Request<'_>>) -> Verdict
    ensures { result ≡ verdict_of (option_map shown request.entry) }
{
    match request {
        None => Verdict::Refuse(Status::BadRequest, true),
        Some(request) => judge_request(&request),
    }
}

/// Returns what becomes of a head that was read.
fn judge_request(request: &Request<'_>) -> Verdict
    ensures { result ≡ verdict_of (Some (shown request.now)) }
{
    let is_head = request.method == b"HEAD".as_slice();
    if request.has_body {
        Verdict::Refuse(Status::BadRequest, !is_head)
    } else if request.method == b"GET".as_slice() {
        Verdict::Serve(true)
    } else if is_head {
        Verdict::Serve(false)
    } else {
        Verdict::Refuse(Status::MethodNotAllowed, true)
    }
}

impl Status {
    /// Returns the code and the reason.
    pub fn words(self) -> &'static [u8]
        ensures { result.now ≡ status_words self }
    {
        match self {
            Status::Done => b"200 OK",
            Status::BadRequest => b"400 Bad Request",
            Status::NotFound => b"404 Not Found",
            Status::MethodNotAllowed => b"405 Method Not Allowed",
            Status::TooManyRequests => b"429 Too Many Requests",
            Status::HeadTooLarge => b"431 Request Header Fields Too Large",
            Status::ServerError => b"500 Internal Server Error",
            Status::Unavailable => b"503 Service Unavailable",
        }
    }
}

impl Body {
    /// Returns the media type.
    pub fn media_type(self) -> &'static [u8]
        ensures { result.now ≡ media_type self }
    {
        match self {
            Body::Page => b"text/html; charset=utf-8",
            Body::Text => b"text/plain",
            Body::Words => b"text/plain; charset=utf-8",
            Body::Feed => b"application/atom+xml; charset=utf-8",
            Body::Mailbox => b"application/mbox",
            Body::Entries => b"text/plain",
            Body::Blob => b"application/octet-stream",
        }
    }
}

/// Appends the head of a reply, with the date of a moment, and the type and the length of its body.
///
/// The moment is in seconds since 1970 UTC. `NoMemory` may leave a part of the head appended, after
/// what stood there.
pub fn push_reply_head(
    status: Status,
    moment: u64,
    body: Body,
    len: u128,
    closes: bool,
    into: &mut Bytes,
) -> Result<(), NoMemory>
    requires { IsMoment moment }
    ensures ok { OnOk result (into.new ≡ into.old ++ reply_head status moment body len closes) }
    ensures kept { take (length into.old) into.new ≡ into.old }
{
    push_status(status, moment, into)?;
    push_body(body, len, into)?;
    push_allow(status, into)?;
    push_close(closes, into)?;
    into.push_slice(b"\r\n")
}

/// Appends the line of a status, and the line of a moment's date.
fn push_status(status: Status, moment: u64, into: &mut Bytes) -> Result<(), NoMemory>
    requires { IsMoment moment }
    ensures ok { OnOk result (into.new ≡ into.old ++ status_lines status moment) }
    ensures kept { take (length into.old) into.new ≡ into.old }
{
    into.push_slice(b"HTTP/1.1 ")?;
    into.push_slice(status.words())?;
    into.push_slice(b"\r\nDate: ")?;
    into.push_slice(&date_at(moment))?;
    into.push_slice(b"\r\n")
}

/// Appends the lines of the type and the length of a body.
fn push_body(body: Body, len: u128, into: &mut Bytes) -> Result<(), NoMemory>
    ensures ok { OnOk result (into.new ≡ into.old ++ body_lines body len) }
    ensures kept { take (length into.old) into.new ≡ into.old }
{
    let mut digits = Buffer::new();
    into.push_slice(b"Content-Type: ")?;
    into.push_slice(body.media_type())?;
    into.push_slice(b"\r\nContent-Length: ")?;
    into.push_slice(digits.format(len).as_bytes())?;
    into.push_slice(b"\r\n")
}

/// Appends the line that names the allowed methods, if the status refuses another one.
fn push_allow(status: Status, into: &mut Bytes) -> Result<(), NoMemory>
    ensures ok { OnOk result (into.new ≡ into.old ++ allow_line status) }
    ensures kept { take (length into.old) into.new ≡ into.old }
{
    match status {
        Status::MethodNotAllowed => into.push_slice(b"Allow: GET, HEAD\r\n"),
        _ => Ok(()),
    }
}

/// Appends the line that says that the connection is closed, if it is.
fn push_close(closes: bool, into: &mut Bytes) -> Result<(), NoMemory>
    ensures ok { OnOk result (into.new ≡ into.old ++ close_line closes) }
    ensures kept { take (length into.old) into.new ≡ into.old }
{
    if closes {
        into.push_slice(b"Connection: close\r\n")
    } else {
        Ok(())
    }
}
