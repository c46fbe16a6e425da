//! Reads the lines of a text.
//! Pure.
ghost use Rattle.std.specs.Prelude.{◌≡◌, ◌<◌, ◌++◌, ◌∷◌, [], length};
ghost use Rattle.std.specs.List.{prefix_len};
ghost use Rattle.mail_reader.specs.Lines.{is_name_byte, is_field_line, is_continuation};
ghost use Rattle.mail_reader.specs.Stored.{clean_lines, content_of};

use memchr::memchr;

/// A line without its end, and the bytes after it.
#[derive(Clone, Copy, Drop)]
pub struct Line<'a> {
    pub content: &'a [u8],
    pub rest: &'a [u8],
}

/// Returns the first line of bytes that aren't empty.
pub fn first_line(bytes: &[u8]) -> Line<'_>
    requires { 0 < length bytes.now }
    ensures lines { clean_lines bytes.now
        ≡ (result.content.now ++ 10 ∷ []) ∷ clean_lines result.rest.now }
    ensures shorter { length result.rest.now < length bytes.now }
{
    match memchr(b'\n', bytes) {
        Some(end) => Line {
            content: without_returns(&bytes[..end]),
            rest: &bytes[end + 1..],
        },
        None => Line {
            content: without_returns(bytes),
            rest: &[],
        },
    }
}

/// Returns a line without the carriage returns at its end.
fn without_returns(line: &[u8]) -> &[u8]
    ensures { result.now ≡ content_of line.now }
{
    let mut content = line;
    while let [front @ .., b'\r'] = content {
        content = front;
    }
    content
}

/// Returns the number of bytes of a field's name at the front of a line.
pub fn name_len(line: &[u8]) -> usize
    ensures { result ≡ prefix_len is_name_byte line.now }
{
    line.iter().take_while(|byte| is_name_byte(**byte)).count()
}

/// Returns whether a field's name may have a byte.
fn is_name_byte(byte: u8) -> bool
    ensures { result ≡ is_name_byte byte }
{
    byte.is_ascii_graphic() && byte != b':'
}

/// Returns whether a line starts a field, with or without its line feed.
pub fn is_field_line(content: &[u8]) -> bool
    ensures value { result ≡ is_field_line content.now }
    ensures ended { result ≡ is_field_line (content.now ++ 10 ∷ []) }
{
    let len = name_len(content);
    len > 0 && len < content.len() && content[len] == b':'
}

/// Returns whether a line continues a field, with or without its line feed.
pub fn is_continuation(content: &[u8]) -> bool
    ensures value { result ≡ is_continuation content.now }
    ensures ended { result ≡ is_continuation (content.now ++ 10 ∷ []) }
{
    matches!(content, [b' ' | b'\t', ..])
}
