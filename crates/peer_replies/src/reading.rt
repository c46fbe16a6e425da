//! Reads a reply of a web server.
//! Pure.
//!
//! A reply is read anew each time that bytes come, from its first byte on. How the bytes were cut
//! doesn't matter.
ghost use Rattle.std.specs.Prelude.{◌≡◌, ◌<◌, ◌+◌, ◌^◌, IfOk, length, map};
ghost use Rattle.std.specs.List.{All};
ghost use Rattle.httparse.specs.Grammar.{ResponseHead, print_response, status_code};
ghost use Rattle.httparse.specs.Spans.{IsHeaderWithin, header_bytes, name_and_value};
ghost use Rattle.peer_replies.specs.Bodies.{body_length as length_by};
ghost use Rattle.peer_replies.specs.Fronts.{Front, IsFront};
ghost use Rattle.peer_replies.specs.Refusing.{refusal_of};
ghost use Rattle.peer_replies.specs.Readings.{IsInside, reading_of, reading_by, unfinished as left_open, KeepsReading, ReadsOneWay};

use crate::fields::{body_length, stays_open};
use httparse::Status;
use httparse::spans::{EMPTY_HEADER_SPAN, HeaderSpan, ResponseSpans, parse_response};
use thiserror::Error;

/// The greatest length of a head, in bytes.
const MAX_HEAD: usize = 16_384;

/// The greatest number of fields in a head.
const MAX_FIELDS: usize = 128;

/// The greatest length of a body, in bytes.
pub(crate) const MAX_BODY: usize = 268_435_456;

/// What the bytes that came give so far.
#[derive(Clone, Copy, Debug, Drop, PartialEq, Eq)]
pub enum Reading {
    /// Nothing whole. More bytes are needed.
    More,
    /// A reply.
    Whole(WholeReply),
}

/// A reply at the front of bytes.
#[derive(Clone, Copy, Debug, Drop, PartialEq, Eq)]
pub struct WholeReply {
    /// The status code.
    pub status: u16,
    /// The offset of the body.
    pub start: usize,
    /// The offset after the body.
    pub end: usize,
    /// Whether the server keeps the connection open after the reply.
    pub stays: bool,
}

/// The reason why bytes can't be read as a reply.
#[derive(Clone, Copy, Debug, Drop, PartialEq, Eq, Error)]
pub enum Unreadable {
    /// They start with no head of a reply.
    #[error("the reply is none of HTTP/1.0 or HTTP/1.1")]
    NotHttp,
    /// The head is longer than 16,384 bytes.
    #[error("the head of the reply is longer than 16,384 bytes")]
    LongHead,
    /// The head has more than 128 fields.
    #[error("the head of the reply has more than 128 fields")]
    ManyFields,
    /// The body is in a transfer coding, such as chunks.
    #[error("the body of the reply is in a transfer coding")]
    Coded,
    /// The head has a `Content-Length` that is no number, or several.
    #[error("the reply has no valid Content-Length")]
    BadLength,
    /// The body is longer than 268,435,456 bytes.
    #[error("the body of the reply is longer than 268,435,456 bytes")]
    LongBody,
    /// The connection ended within the reply.
    #[error("the connection ended within the reply")]
    CutOff,
}

/// Reads the reply at the front of the bytes that came so far over a connection, which has ended or
/// not.
///
/// A reply stays what it is, and bytes that can't be read stay so, whatever comes after them. An
/// interim reply (a status from 100 to 199, without a body) is read as any other: the one that
/// follows it starts at its end. Bytes that come after another reply were not asked for.
pub fn read_reply(bytes: &[u8], ended: bool) -> Result<Reading, Unreadable>
    ensures exact { (front : Front) × IsFront bytes.now front × (result ≡ reading_of front ended) }
    ensures inside { IfOk result (IsInside (length bytes.now)) }
{
    let mut headers = [EMPTY_HEADER_SPAN; MAX_FIELDS];
    let front = &bytes[..bytes.len().min(MAX_HEAD)];
    match parse_response(front, &mut headers) {
        Ok(Status::Complete(spans)) => {
            let fields = &headers[..spans.headers];
            let got = bytes.len() - spans.len;
            read_body(front, fields, &spans, got, ended)
        }
        Ok(Status::Partial) if front.len() == MAX_HEAD => Err(Unreadable::LongHead),
        Ok(Status::Partial) => unfinished(ended),
        Err(refused) => Err(refusal(refused)),
    }
}

/// Shows that bytes that follow a reply, or that follow what can't be read, change nothing, and that
/// bytes start with one reply at most.
pub fn law_of_replies()
    ensures keeps { KeepsReading }
    ensures one { ReadsOneWay }
{}

/// Returns the reason why bytes have no head that is short enough.
fn refusal(refused: httparse::Error) -> Unreadable
    ensures { result ≡ refusal_of refused }
{
    match refused {
        httparse::Error::TooManyHeaders => Unreadable::ManyFields,
        _ => Unreadable::NotHttp,
    }
}

/// Reads what comes after a head with these fields, if so many bytes of it came.
fn read_body(
    front: &[u8],
    fields: &[HeaderSpan],
    spans: &ResponseSpans,
    got: usize,
    ended: bool,
) -> Result<Reading, Unreadable>
    requires fields { All (IsHeaderWithin (length front.now)) fields.now }
    requires fits { spans.now.len + got < 2 ^ 63 }
    ensures exact { (head : ResponseHead)
        → map (header_bytes front.now) fields.now ≡ map name_and_value head.fields
        → spans.now.version ≡ head.minor → spans.now.code ≡ status_code head
        → spans.now.len ≡ length (print_response head)
        → result ≡ reading_by (length_by head) head got ended }
    ensures inside { IfOk result (IsInside (spans.now.len + got)) }
{
    match body_length(front, fields, spans.code)? {
        Some(len) if len <= got => Ok(Reading::Whole(WholeReply {
            status: spans.code,
            start: spans.len,
            end: spans.len + len,
            stays: spans.version == 1 && stays_open(front, fields),
        })),
        Some(_) => unfinished(ended),
        None if got > MAX_BODY => Err(Unreadable::LongBody),
        None if ended => Ok(Reading::Whole(WholeReply {
            status: spans.code,
            start: spans.len,
            end: spans.len + got,
            stays: false,
        })),
        None => Ok(Reading::More),
    }
}

/// Returns what a part of a reply gives, by whether the connection has ended.
fn unfinished(ended: bool) -> Result<Reading, Unreadable>
    ensures { result ≡ left_open ended }
{
    if ended {
        Err(Unreadable::CutOff)
    } else {
        Ok(Reading::More)
    }
}
