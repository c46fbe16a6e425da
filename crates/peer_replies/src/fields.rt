//! What the fields of a head say of the body and of the connection.
//! Pure.
ghost use Rattle.std.specs.Prelude.{◌≡◌, length, map, not, codes};
ghost use Rattle.std.specs.List.{All, list_any};
ghost use Rattle.std.specs.Str.{str_eq_ignore_ascii_case};
ghost use Rattle.httparse.specs.Spans.{IsHeaderWithin, header_bytes};
ghost use Rattle.peer_replies.specs.Bodies.{is_bodiless as bodiless, is_coding as codes_body, may_close as closing, length_of, length_said as said_by, lengths_in, framed};

use crate::reading::{MAX_BODY, Unreadable};
use httparse::spans::HeaderSpan;

/// Returns the length of the body after a head with a status and these fields, or `None` if the body
/// lasts to the end of the connection.
pub(crate) fn body_length(
    front: &[u8],
    fields: &[HeaderSpan],
    status: u16,
) -> Result<Option<usize>, Unreadable>
    requires { All (IsHeaderWithin (length front.now)) fields.now }
    ensures exact { result ≡ framed status (map (header_bytes front.now) fields.now) }
{
    if is_bodiless(status) {
        return Ok(Some(0));
    }
    if has_coding(front, fields) {
        return Err(Unreadable::Coded);
    }
    length_said(front, fields)
}

/// Returns whether replies with a status never have a body.
fn is_bodiless(status: u16) -> bool
    ensures { result ≡ bodiless status }
{
    (100 <= status && status < 200) || status == 204 || status == 304
}

/// Returns whether one of these fields says that the body is in a transfer coding.
fn has_coding(front: &[u8], fields: &[HeaderSpan]) -> bool
    requires { All (IsHeaderWithin (length front.now)) fields.now }
    ensures { result ≡ list_any codes_body (map (header_bytes front.now) fields.now) }
{
    for field in fields {
        if is_coding(field.name.of(front)) {
            return true;
        }
    }
    false
}

/// Returns whether a field with this name says that the body is in a transfer coding.
fn is_coding(name: &[u8]) -> bool
    ensures { result ≡ str_eq_ignore_ascii_case name.now (codes "Transfer-Encoding") }
{
    name.eq_ignore_ascii_case(b"Transfer-Encoding")
}

/// Returns whether none of these fields has an option of the connection other than `keep-alive`.
pub(crate) fn stays_open(front: &[u8], fields: &[HeaderSpan]) -> bool
    requires { All (IsHeaderWithin (length front.now)) fields.now }
    ensures { result ≡ not (list_any closing (map (header_bytes front.now) fields.now)) }
{
    for field in fields {
        if may_close(field.name.of(front), field.value.of(front)) {
            return false;
        }
    }
    true
}

/// Returns whether a field, by its name and value, has an option of the connection other than
/// `keep-alive`.
fn may_close(name: &[u8], value: &[u8]) -> bool
    ensures { result ≡ closing (name.now, value.now) }
{
    name.eq_ignore_ascii_case(b"Connection") && !value.eq_ignore_ascii_case(b"keep-alive")
}

/// Returns the length that these fields give the body, or `None` if they give none.
fn length_said(front: &[u8], fields: &[HeaderSpan]) -> Result<Option<usize>, Unreadable>
    requires { All (IsHeaderWithin (length front.now)) fields.now }
    ensures { result ≡ said_by (lengths_in (map (header_bytes front.now) fields.now)) }
{
    let mut said: Option<&[u8]> = None;
    for field in fields {
        if is_length(field.name.of(front)) {
            if said.is_some() {
                return Err(Unreadable::BadLength);
            }
            said = Some(field.value.of(front));
        }
    }
    match said {
        Some(value) => Ok(Some(read_length(value)?)),
        None => Ok(None),
    }
}

/// Returns whether a field with this name gives a length of the body.
fn is_length(name: &[u8]) -> bool
    ensures { result ≡ str_eq_ignore_ascii_case name.now (codes "Content-Length") }
{
    name.eq_ignore_ascii_case(b"Content-Length")
}

/// Returns the length that digits spell, with leading zeros or without.
fn read_length(value: &[u8]) -> Result<usize, Unreadable>
    ensures { result ≡ length_of value.now }
{
    if value.is_empty() {
        return Err(Unreadable::BadLength);
    }
    let mut len = 0;
    for byte in value {
        if !byte.is_ascii_digit() {
            return Err(Unreadable::BadLength);
        }
        len = (10 * len + usize::from(*byte - b'0')).min(MAX_BODY + 1);
    }
    if len > MAX_BODY {
        return Err(Unreadable::LongBody);
    }
    Ok(len)
}
