//! Decodes quoted-printable (RFC 2045, section 6.7).
//! Allocates.
ghost use Rattle.std.specs.Prelude.{◌≡◌, ◌<◌, ◌∷◌, ◌++◌, length, IfOk, OnOk};
ghost use Rattle.mime_parts.specs.QuotedPrintable.{unquoted, line_bytes, content_bytes, decoded_escapes, trimmed};

use crate::delimiters::split_line;
use arch_base::{Bytes, NoMemory};
use mime_words::escaped_byte;
use std::alloc::Global;

/// Returns the bytes that a text in quoted-printable encodes.
///
/// `=` and two hexadecimal digits, in either case, are a byte. Spaces and tabs before a line feed
/// are dropped, and a `=` before them joins the line to the next one. Any other `=` stays. The only
/// error is `NoMemory`.
#[tactic(auto, unfolding(crate::specs::QuotedPrintable::unquoted))]
pub(crate) fn unquoted(alloc: Global, text: &[u8]) -> Result<Bytes, NoMemory>
    ensures { IfOk result (λ bytes. bytes ≡ unquoted text.now) }
{
    let mut bytes = Bytes::new(alloc);
    let mut rest = text;
    while !rest.is_empty() {
        let (line, after) = split_line(rest);
        push_line(line, &mut bytes)?;
        rest = after;
    }
    Ok(bytes)
}

/// Appends the bytes that a line encodes.
fn push_line(line: &[u8], into: &mut Bytes) -> Result<(), NoMemory>
    ensures { OnOk result (into.new ≡ into.old ++ line_bytes line.now) }
{
    match line {
        [content @ .., b'\n'] => push_content(trimmed(content), into),
        _ => push_escapes(line, into),
    }
}

/// Appends the bytes of a line without its line feed and the blanks before it.
fn push_content(content: &[u8], into: &mut Bytes) -> Result<(), NoMemory>
    ensures { OnOk result (into.new ≡ into.old ++ content_bytes content.now) }
{
    match content {
        [joined @ .., b'='] => push_escapes(joined, into),
        _ => {
            push_escapes(content, into)?;
            into.push(b'\n')
        }
    }
}

/// Returns bytes without the spaces and tabs at their end.
fn trimmed(bytes: &[u8]) -> &[u8]
    ensures { result.now ≡ trimmed bytes.now }
{
    let mut rest = bytes;
    while let [front @ .., b' ' | b'\t'] = rest {
        rest = front;
    }
    rest
}

/// Appends bytes in which `=` and two digits are a byte.
fn push_escapes(text: &[u8], into: &mut Bytes) -> Result<(), NoMemory>
    ensures { OnOk result (into.new ≡ into.old ++ decoded_escapes text.now) }
{
    let mut rest = text;
    while !rest.is_empty() {
        let (byte, after) = split_byte(rest);
        into.push(byte)?;
        rest = after;
    }
    Ok(())
}

/// Returns the first byte that a text encodes, and the rest of the text.
fn split_byte(text: &[u8]) -> (u8, &[u8])
    requires { 0 < length text.now }
    ensures bytes { decoded_escapes text.now ≡ result.0 ∷ decoded_escapes result.1.now }
    ensures shorter { length result.1.now < length text.now }
{
    match escaped_byte(text) {
        Some(byte) => (byte, &text[3..]),
        None => (text[0], &text[1..]),
    }
}
