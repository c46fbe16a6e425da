//! Reads the fields, the body and the own id of a text.
//! Pure.
ghost use Rattle.std.specs.Prelude.{◌≡◌, ◌≤◌, length, option_copied, option_map};
ghost use Rattle.std.specs.Str.{str_eq_ignore_ascii_case};
ghost use Rattle.mail_reader.specs.Fields.{FieldText, fields_of, first_named};
ghost use Rattle.mail_reader.specs.Lines.{lines_of, after_header};
ghost use Rattle.mail_reader.specs.Bodies.{body_of};
ghost use Rattle.mail_reader.specs.Ids.{own_id};

use crate::header::{Fields, field_len};
use crate::ids::Ids;

/// Returns the fields of a text's header, from first to last.
///
/// The header is the longest run of field lines and continuation lines from the start whose first
/// line is a field line (RFC 5322, section 2.2).
pub fn fields(text: &[u8]) -> Fields<'_>
    ensures value { result ≡ fields_of text.now }
    ensures len { length result ≤ length text.now }
{
    Fields::of(text)
}

/// Returns the body of a text: the bytes after the header and after the empty line that follows it
/// (RFC 5322, section 2.3).
pub fn body(text: &[u8]) -> &[u8]
    ensures { result.now ≡ body_of text.now }
{
    match after_header(text) {
        [b'\n', rest @ ..] => rest,
        rest => rest,
    }
}

/// Returns the rest of a text after its header.
fn after_header(text: &[u8]) -> &[u8]
    ensures { lines_of result.now ≡ after_header (lines_of text.now) }
{
    let mut rest = text;
    while let Some(len) = field_len(rest) {
        rest = rest.split_at(len).1;
    }
    rest
}

/// Returns the value of the first field with a name. Names are compared ignoring case (RFC 5322,
/// section 1.2.2).
///
/// `None` if the text has no such field.
pub fn first_value<'a>(text: &'a [u8], name: &[u8]) -> Option<&'a [u8]>
    ensures { option_copied result ≡ option_map (λ (field : FieldText).
        field.value) (first_named name.now (fields_of text.now)) }
{
    for field in Fields::of(text) {
        if is_same_name(field.name, name) {
            return Some(field.value);
        }
    }
    None
}

/// Returns the own id of a text: the first id of its first Message-ID field (RFC 5322, section
/// 3.6.4), in its brackets.
///
/// `None` if the text has no such field, or the first one has no id.
pub fn own_id(text: &[u8]) -> Option<&[u8]>
    ensures { option_copied result ≡ own_id text.now }
{
    for field in Fields::of(text) {
        if is_same_name(field.name, b"Message-ID") {
            return Ids::of(field.value).next();
        }
    }
    None
}

/// Returns whether two field names are equal, ignoring the case of ASCII letters (RFC 5322, section
/// 1.2.2).
pub fn is_same_name(name: &[u8], other: &[u8]) -> bool
    ensures { result ≡ str_eq_ignore_ascii_case name.now other.now }
{
    name.eq_ignore_ascii_case(other)
}
