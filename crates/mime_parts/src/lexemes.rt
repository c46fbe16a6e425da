//! Splits a structured field's value into lexemes.
//! Allocates.
ghost use Rattle.std.specs.Prelude.{◌≡◌, ◌≤◌, ◌<◌, ◌∷◌, ◌&&◌, ◌==◌, not, false, length, slice_index, IfOk};
ghost use Rattle.std.specs.List.{prefix_len};
ghost use Rattle.mime_parts.specs.Lexemes.{lexemes_of, is_token_byte, is_special, is_gap, mark_of, unescaped};
ghost use Rattle.mime_parts.specs.Reading.{shown, IsFirstLexeme, IsQuoted, IsFirstSaid};

use arch_base::{Bytes, NoMemory};
use mail_address::Place;
use std::alloc::Global;

/// A byte that is a lexeme by itself.
#[derive(Clone, Copy, Drop)]
pub(crate) enum Mark {
    Semicolon,
    Slash,
    Equals,
    /// Any other byte.
    Other,
}

/// A lexeme of a structured field's value (RFC 2045, section 5.1).
#[derive(Clone, Copy, Drop)]
pub(crate) enum Lexeme<'a> {
    /// A token.
    Token(&'a [u8]),
    /// The inside of a quoted string, as it is written.
    Quoted(&'a [u8]),
    /// A byte that is neither.
    Mark(Mark),
}

/// Returns the first lexeme of a flat value, and the bytes after it.
///
/// `None` if the value has no lexeme.
pub(crate) fn first_lexeme(value: &[u8]) -> Option<(Lexeme<'_>, &[u8])>
    ensures { IsFirstLexeme value.now result }
{
    let rest = after_gap(value);
    if rest.is_empty() {
        return None;
    }
    Some(split_lexeme(rest))
}

/// Returns a value without the spaces and comments at its front.
fn after_gap(value: &[u8]) -> &[u8]
    ensures lexemes { lexemes_of result.now ≡ lexemes_of value.now }
    ensures front { 0 < length result.now → is_gap Place.Outside (slice_index result.now 0) ≡ false }
    ensures len { length result.now ≤ length value.now }
{
    let mut place = Place::Outside;
    for (at, byte) in value.iter().enumerate() {
        if !is_gap(place, *byte) {
            return value.split_at(at).1;
        }
        place = place.next(*byte);
    }
    &[]
}

/// Returns whether a byte outside of quoted strings is a space or a byte of a comment.
fn is_gap(place: Place, byte: u8) -> bool
    ensures { result ≡ is_gap place byte }
{
    match place {
        Place::Outside => byte == b' ' || byte == b'(',
        Place::Comment(_) | Place::CommentPair(_) => true,
        Place::Pair | Place::Quoted | Place::QuotedPair => false,
    }
}

/// Returns the lexeme at the front of a value, and the bytes after it.
fn split_lexeme(value: &[u8]) -> (Lexeme<'_>, &[u8])
    requires some { 0 < length value.now }
    requires front { is_gap Place.Outside (slice_index value.now 0) ≡ false }
    ensures lexemes { lexemes_of value.now ≡ shown result.0 ∷ lexemes_of result.1.now }
    ensures shorter { length result.1.now < length value.now }
{
    let byte = value[0];
    if is_token_byte(byte) {
        let (token, rest) = value.split_at(token_len(value));
        return (Lexeme::Token(token), rest);
    }
    let rest = value.split_at(1).1;
    if byte == b'"' {
        let (inside, after) = split_quoted(rest);
        return (Lexeme::Quoted(inside), after);
    }
    (Lexeme::Mark(mark_of(byte)), rest)
}

/// Returns the length of the token at the front of a value.
fn token_len(value: &[u8]) -> usize
    ensures value { result ≡ prefix_len is_token_byte value.now }
    ensures within { result ≤ length value.now }
{
    value
        .iter()
        .take_while(|byte| is_token_byte(**byte))
        .count()
}

/// Returns whether a token may have a byte.
fn is_token_byte(byte: u8) -> bool
    ensures { result ≡ is_token_byte byte }
{
    byte.is_ascii_graphic() && !is_special(byte)
}

/// Returns whether a byte is one of those that are printable and in no token.
fn is_special(byte: u8) -> bool
    ensures { result ≡ is_special byte }
{
    matches!(
        byte,
        b'"' | b'(' | b')' | b',' | b'/' | b':'..=b'@' | b'['..=b']'
    )
}

/// Returns the mark that a byte is.
fn mark_of(byte: u8) -> Mark
    ensures { result ≡ mark_of byte }
{
    match byte {
        b';' => Mark::Semicolon,
        b'/' => Mark::Slash,
        b'=' => Mark::Equals,
        _ => Mark::Other,
    }
}

/// Returns the inside of a quoted string, and the bytes after it. `bytes` are those after the quote
/// that opens it.
fn split_quoted(bytes: &[u8]) -> (&[u8], &[u8])
    ensures quoted { IsQuoted bytes.now result.0.now result.1.now }
    ensures len { length result.1.now ≤ length bytes.now }
{
    let mut escaped = false;
    for (at, byte) in bytes.iter().enumerate() {
        if is_quote(escaped, *byte) {
            return (bytes.split_at(at).0, bytes.split_at(at + 1).1);
        }
        escaped = is_escape(escaped, *byte);
    }
    (bytes, &[])
}

/// Returns whether a byte ends a quoted string. `escaped` says whether a backslash takes it along.
fn is_quote(escaped: bool, byte: u8) -> bool
    ensures { result ≡ (byte == 34 && not escaped) }
{
    byte == b'"' && !escaped
}

/// Returns whether a byte of a quoted string takes the next one along. `escaped` says whether a
/// backslash takes it along.
fn is_escape(escaped: bool, byte: u8) -> bool
    ensures { result ≡ (byte == 92 && not escaped) }
{
    byte == b'\\' && !escaped
}

/// Returns the text that the inside of a quoted string says.
///
/// The only error is `NoMemory`.
pub(crate) fn unescape(alloc: Global, inside: &[u8]) -> Result<Bytes, NoMemory>
    ensures { IfOk result (λ text. text ≡ unescaped inside.now) }
{
    let mut text = Bytes::new(alloc);
    let mut rest = inside;
    while let Some((byte, after)) = first_said(rest) {
        text.push(byte)?;
        rest = after;
    }
    Ok(text)
}

/// Returns the first byte that the inside of a quoted string says, and the bytes after it.
///
/// `None` if it says nothing.
fn first_said(inside: &[u8]) -> Option<(u8, &[u8])>
    ensures { IsFirstSaid inside.now result }
{
    match inside {
        [] | [b'\\'] => None,
        [b'\\', byte, ..] => Some((*byte, inside.split_at(2).1)),
        [byte, ..] => Some((*byte, inside.split_at(1).1)),
    }
}
