//! Decodes parts, and shows the body of a mail as text.
//! Allocates.
ghost use Rattle.std.specs.Prelude.{◌≡◌, ◌++◌, IfOk, OnOk, string_bytes};
ghost use Rattle.std.specs.Str.{encode_utf8_all};
ghost use Rattle.std.specs.Str.Lossy.{utf8_lossy};
ghost use Rattle.mime_parts.specs.Trees.{IsIn, IsPartOf};
ghost use Rattle.mime_parts.specs.Texts.{decoded_by, decoded_part, read_in, is_shown, part_line, leaf_text, part_text, with_feed, body_text_of};

use crate::params::{copied, param};
use crate::part::{Encoding, Part, Shape};
use crate::quoted::unquoted;
use crate::visiting::{bytes_at, tree};
use arch_base::{Bytes, NoMemory, decimal};
use mime_words::unbase64;
use std::alloc::Global;

/// Returns the decoded bytes of a part's body (RFC 2045, section 6).
///
/// `part` is a part of `text`, as [`tree`] returns it. The only error is `NoMemory`.
#[tactic(auto, unfolding(crate::specs::Texts::decoded_part))]
pub fn decode_part(alloc: Global, text: &[u8], part: &Part) -> Result<Bytes, NoMemory>
    requires { IsIn text.now part.now.body }
    ensures { IfOk result (λ bytes. bytes ≡ decoded_part text.now part.now) }
{
    decode(alloc, part.encoding, bytes_at(text, part.body))
}

/// Returns the bytes that a body encodes.
fn decode(alloc: Global, encoding: Encoding, bytes: &[u8]) -> Result<Bytes, NoMemory>
    ensures { IfOk result (λ decoded. decoded ≡ decoded_by encoding bytes.now) }
{
    match encoding {
        Encoding::Plain => copied(alloc, bytes),
        Encoding::Base64 => unbase64(alloc, bytes),
        Encoding::Quoted => unquoted(alloc, bytes),
    }
}

/// Returns the text of a mail's body, in UTF-8.
///
/// It is the text of each leaf of type `text` that isn't an attachment, with a line feed at its
/// end, and for each other leaf the line `[-- TYPE/SUBTYPE, N bytes --]`, where N is the number of
/// its decoded bytes. Bytes of `iso-8859-1` are the characters with these numbers. All others are
/// read as UTF-8, with U+FFFD for bytes that aren't. The only error is `NoMemory`.
#[tactic(auto, unfolding(crate::specs::Texts::body_text_of))]
pub fn body_text(alloc: Global, text: &[u8]) -> Result<Bytes, NoMemory>
    ensures { IfOk result (λ shown. shown ≡ body_text_of text.now) }
{
    let parts = tree(alloc, text)?;
    let mut shown = Bytes::new(alloc);
    for part in parts.as_slice() {
        push_part(alloc, text, part, &mut shown)?;
    }
    Ok(shown)
}

/// Appends the text of a part.
fn push_part(alloc: Global, text: &[u8], part: &Part, into: &mut Bytes) -> Result<(), NoMemory>
    requires { IsPartOf text.now part.now }
    ensures { OnOk result (into.new ≡ into.old ++ part_text text.now part.now) }
{
    match part.shape {
        Shape::Leaf => {
            let bytes = decode_part(alloc, text, part)?;
            push_leaf(alloc, part, bytes.as_slice(), into)
        }
        Shape::Message | Shape::Multipart => Ok(()),
    }
}

/// Appends the text of a leaf with these decoded bytes.
fn push_leaf(alloc: Global, part: &Part, bytes: &[u8], into: &mut Bytes) -> Result<(), NoMemory>
    ensures { OnOk result (into.new ≡ into.old ++ leaf_text part.now bytes.now) }
{
    if is_shown(part) {
        let charset = param(part.params.as_slice(), b"charset");
        let text = read_in(alloc, charset, bytes)?;
        push_ended(text.as_bytes(), into)
    } else {
        let line = part_line(alloc, part, bytes.len())?;
        into.push_slice(line.as_slice())
    }
}

/// Returns whether a leaf is shown as text.
pub(crate) fn is_shown(part: &Part) -> bool
    ensures { result ≡ is_shown part.now }
{
    part.major.as_slice().eq_ignore_ascii_case(b"text") && !part.attached
}

/// Returns the text of bytes in a charset.
pub(crate) fn read_in(alloc: Global, charset: &[u8], bytes: &[u8]) -> Result<String, NoMemory>
    ensures { IfOk result (λ text. string_bytes text ≡ read_in charset.now bytes.now) }
{
    if charset.eq_ignore_ascii_case(b"iso-8859-1") {
        latin1(alloc, bytes)
    } else {
        Ok(String::from_utf8_lossy(alloc, bytes)?)
    }
}

/// Returns the text of bytes in ISO-8859-1.
fn latin1(alloc: Global, bytes: &[u8]) -> Result<String, NoMemory>
    ensures { IfOk result (λ text. string_bytes text ≡ encode_utf8_all bytes.now) }
{
    let mut text = String::new(alloc);
    for byte in bytes {
        text.push(char::from(*byte))?;
    }
    Ok(text)
}

/// Appends a text, with a line feed at its end.
fn push_ended(text: &[u8], into: &mut Bytes) -> Result<(), NoMemory>
    ensures { OnOk result (into.new ≡ into.old ++ with_feed text.now) }
{
    into.push_slice(text)?;
    match text {
        [.., b'\n'] => Ok(()),
        _ => into.push(b'\n'),
    }
}

/// Returns the line that stands for a part with so many decoded bytes.
fn part_line(alloc: Global, part: &Part, len: usize) -> Result<Bytes, NoMemory>
    ensures { IfOk result (λ line. line ≡ part_line part.now len) }
{
    let digits = decimal(alloc, len as u64)?;
    let mut line = Bytes::new(alloc);
    line.push_slice(b"[-- ")?;
    line.push_slice(part.major.as_slice())?;
    line.push_slice(b"/")?;
    line.push_slice(part.minor.as_slice())?;
    line.push_slice(b", ")?;
    line.push_slice(digits.as_slice())?;
    line.push_slice(b" bytes --]\n")?;
    Ok(line)
}
