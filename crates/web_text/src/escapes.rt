//! Text between the tags of a page or a feed, and in quoted attributes.
//! Allocates.
ghost use Rattle.std.specs.Prelude.{◌≡◌, ◌++◌, length, take, OnOk};
ghost use Rattle.std.specs.Char.{encode_utf8};
ghost use Rattle.web_text.specs.Escapes.{escaped, escaped_chars, spelled, shown, is_excluded as excluded, title_of};

use arch_base::{Bytes, NoMemory};
use std::alloc::Global;

/// Appends a text in UTF-8 as a page or a feed has it between tags and in quoted attributes.
///
/// `&`, `<`, `>` and `"` are appended by their names. Control characters, other than tabs and line
/// feeds, U+FFFE, U+FFFF and bytes that aren't UTF-8 become U+FFFD. The only error is `NoMemory`. It
/// may leave a part of the text appended, after what stood there.
pub fn push_escaped(alloc: Global, text: &[u8], into: &mut Bytes) -> Result<(), NoMemory>
    ensures ok { OnOk result (into.new ≡ into.old ++ escaped text.now) }
    ensures kept { take (length into.old) into.new ≡ into.old }
{
    let read = String::from_utf8_lossy(alloc, text)?;
    push_chars(read.as_str(), into)
}

/// Appends the title of a mail: its subject as [`push_escaped`] appends it, or `(no subject)` if it is
/// empty.
///
/// The only error is `NoMemory`. It may leave a part of the title appended, after what stood there.
pub fn push_title(alloc: Global, subject: &[u8], into: &mut Bytes) -> Result<(), NoMemory>
    ensures ok { OnOk result (into.new ≡ into.old ++ title_of subject.now) }
    ensures kept { take (length into.old) into.new ≡ into.old }
{
    if subject.is_empty() {
        into.push_slice(b"(no subject)")
    } else {
        push_escaped(alloc, subject, into)
    }
}

/// Appends the characters of a text as a page has them.
fn push_chars(text: &str, into: &mut Bytes) -> Result<(), NoMemory>
    ensures ok { OnOk result (into.new ≡ into.old ++ escaped_chars text.now) }
    ensures kept { take (length into.old) into.new ≡ into.old }
{
    for c in text.chars() {
        push_char(c, into)?;
    }
    Ok(())
}

/// Appends a character as a page has it.
fn push_char(c: char, into: &mut Bytes) -> Result<(), NoMemory>
    ensures ok { OnOk result (into.new ≡ into.old ++ spelled c) }
    ensures kept { take (length into.old) into.new ≡ into.old }
{
    match c {
        '&' => into.push_slice(b"&amp;"),
        '<' => into.push_slice(b"&lt;"),
        '>' => into.push_slice(b"&gt;"),
        '"' => into.push_slice(b"&quot;"),
        _ => push_utf8(shown(c), into),
    }
}

/// Returns the character, or U+FFFD for one that a page or a feed can't have.
fn shown(c: char) -> char
    ensures { result ≡ shown c }
{
    if is_excluded(c) { '\u{FFFD}' } else { c }
}

/// Returns whether a page or a feed can't have a character.
fn is_excluded(c: char) -> bool
    ensures { result ≡ excluded c }
{
    (c < ' ' && c != '\t' && c != '\n') || c == '\u{7F}' || c == '\u{FFFE}' || c == '\u{FFFF}'
}

/// Appends the UTF-8 of a character.
fn push_utf8(c: char, into: &mut Bytes) -> Result<(), NoMemory>
    ensures ok { OnOk result (into.new ≡ into.old ++ encode_utf8 c) }
    ensures kept { take (length into.old) into.new ≡ into.old }
{
    let mut room = [0u8; 4];
    let spelled = c.encode_utf8(&mut room);
    into.push_slice(spelled.as_bytes())
}
