//! The fields of a text, as an iterator that borrows them.
//! Pure.
ghost use Rattle.std.specs.Prelude.{◌≡◌, ◌<◌, ◌≤◌, MatchOption, length, ◌∷◌, take, drop};
ghost use Rattle.std.specs.List.{prefix_len};
ghost use Rattle.mail_reader.specs.Lines.{lines_of, is_name_byte};
ghost use Rattle.mail_reader.specs.Fields.{fields_of, field_of, without_feed};
ghost use Rattle.mail_reader.specs.Reading.{shown, Continues, IsFirstField, HasNoField};

use crate::lines::{is_continuation, is_field_line, name_len};
use memchr::memchr;
use std::marker::Model;

/// A field of a header (RFC 5322, section 2.2), borrowed from its text.
#[derive(Debug, Clone, Copy, Drop)]
pub struct Field<'a> {
    /// The bytes before its colon.
    pub name: &'a [u8],
    /// The bytes after its colon, including folds, without the last line feed.
    pub value: &'a [u8],
    /// All its bytes, including its continuation lines.
    pub whole: &'a [u8],
}

/// The fields of a text, from first to last.
#[derive(Debug, Drop)]
pub struct Fields<'a> {
    rest: &'a [u8],
}

// A clause sees the remaining fields.
impl<'a> Model for Fields<'a> {
    ghost use Rattle.std.specs.Prelude.{List};
    ghost use Rattle.mail_reader.specs.Fields.{FieldText, fields_of};

    ghost Value = { List FieldText };

    ghost view = { λ f. fields_of f.rest.now };
}

impl<'a> Fields<'a> {
    /// Returns the fields of a text's header.
    pub(crate) fn of(text: &'a [u8]) -> Fields<'a>
        ensures value { result ≡ fields_of text.now }
        ensures len { length result ≤ length text.now }
    {
        Fields { rest: text }
    }
}

impl<'a> Iterator for Fields<'a> {
    type Item = Field<'a>;

    ghost use Rattle.std.specs.Iterator.{YieldsFirstBy, item_count};
    ghost use Rattle.mail_reader.specs.Reading.{shown};

    ghost next_gives = { YieldsFirstBy shown (λ rest. rest) };

    ghost remaining = { item_count (λ rest. rest) };

    fn next(&mut self) -> Option<Field<'a>> {
        let text = self.rest;
        let (whole, rest) = text.split_at(field_len(text)?);
        self.rest = rest;
        Some(split_field(whole))
    }
}

/// Returns the length of the field at the front of a text.
pub(crate) fn field_len(text: &[u8]) -> Option<usize>
    ensures { MatchOption result (HasNoField text.now) (λ len. IsFirstField text.now len) }
{
    if text.is_empty() {
        return None;
    }
    let first = line_len(text);
    if !is_field_line(&text[..first]) {
        return None;
    }
    Some(first + continuation_len(&text[first..]))
}

/// Returns the length of the first line of a text that isn't empty, with its line feed.
pub fn line_len(text: &[u8]) -> usize
    requires { 0 < length text.now }
    ensures some { 0 < result }
    ensures within { result ≤ length text.now }
    ensures lines { lines_of text.now ≡ take result text.now ∷ lines_of (drop result text.now) }
{
    match memchr(b'\n', text) {
        Some(end) => end + 1,
        None => text.len(),
    }
}

/// Returns the length of the continuation lines at the front.
fn continuation_len(bytes: &[u8]) -> usize
    ensures { Continues bytes.now result }
{
    let mut len = 0;
    while len < bytes.len() {
        let rest = &bytes[len..];
        if !is_continuation(rest) {
            return len;
        }
        len += line_len(rest);
    }
    len
}

/// Returns the field that consists of these bytes.
fn split_field(whole: &[u8]) -> Field<'_>
    requires { prefix_len is_name_byte whole.now < length whole.now }
    ensures { shown result ≡ field_of whole.now }
{
    let len = name_len(whole);
    Field {
        name: &whole[..len],
        value: without_feed(&whole[len + 1..]),
        whole,
    }
}

/// Returns the bytes without the line feed at their end.
fn without_feed(bytes: &[u8]) -> &[u8]
    ensures { result.now ≡ without_feed bytes.now }
{
    match bytes {
        [front @ .., b'\n'] => front,
        _ => bytes,
    }
}
