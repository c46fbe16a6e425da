//! Finds encoded words in a value (RFC 2047, section 2).
//! Pure.
ghost use Rattle.std.specs.Prelude.{◌≡◌, ◌≤◌, ◌<◌, ◌+◌, length, IfSome, option_copied};
ghost use Rattle.std.specs.List.{prefix_len};
ghost use Rattle.mime_words.specs.Words.{is_charset_byte, is_text_byte, after_opening, encoding_at, is_closing, closed_word, opened_word, word_at};
ghost use Rattle.mime_words.specs.Writing.{IsWordFront, FindsWord, IsWordOf};

use crate::charset::{Charset, charset_of};
use crate::encoding::{Encoding, encoding_of};

/// A word of a charset that is decoded: its charset, its encoding and its encoded text.
#[derive(Clone, Copy, Drop)]
pub struct Word<'a> {
    pub charset: Charset,
    pub encoding: Encoding,
    pub text: &'a [u8],
}

/// The first word of a value that is decoded, with the text before it and the bytes after it.
#[derive(Clone, Copy, Drop)]
pub struct Found<'a> {
    pub before: &'a [u8],
    pub word: Word<'a>,
    pub rest: &'a [u8],
}

/// The front of some bytes: text of a length, or a word that is decoded, with the word's length.
#[derive(Clone, Copy, Drop)]
pub enum Front<'a> {
    Text(usize),
    Decoded(Word<'a>, usize),
}

/// Returns the first word of a value that is decoded, or `None` if the whole value is text.
pub fn first_word(value: &[u8]) -> Option<Found<'_>>
    ensures { FindsWord value.now result }
{
    let mut at = 0;
    while at < value.len() {
        match read_front(&value[at..]) {
            Front::Text(len) => at += len,
            Front::Decoded(word, len) => {
                return Some(Found {
                    before: &value[..at],
                    word,
                    rest: &value[at + len..],
                });
            }
        }
    }
    None
}

/// Reads the front of some bytes.
fn read_front(bytes: &[u8]) -> Front<'_>
    requires { 0 < length bytes.now }
    ensures { IsWordFront bytes.now result }
{
    let Some(word) = word_at(bytes) else {
        return Front::Text(1);
    };
    let len = word.charset.len() + word.text.len() + 7;
    match charset_of(word.charset) {
        None => Front::Text(len),
        Some(charset) => Front::Decoded(
            Word {
                charset,
                encoding: word.encoding,
                text: word.text,
            },
            len,
        ),
    }
}

/// An encoded word: the name of its charset, its encoding and its encoded text.
#[derive(Clone, Copy, Drop)]
pub struct EncodedWord<'a> {
    pub charset: &'a [u8],
    pub encoding: Encoding,
    pub text: &'a [u8],
}

/// Returns the encoded word at the front of some bytes.
fn word_at(bytes: &[u8]) -> Option<EncodedWord<'_>>
    ensures { IsWordOf (word_at bytes.now) (length bytes.now) result }
{
    opened_word(after_opening(bytes)?)
}

/// Returns the encoded word whose `=?` is directly before these bytes.
fn opened_word(inside: &[u8]) -> Option<EncodedWord<'_>>
    ensures { IsWordOf (opened_word inside.now) (length inside.now + 2) result }
{
    let len = charset_len(inside);
    if len == 0 {
        return None;
    }
    let (charset, after) = inside.split_at(len);
    let encoding = encoding_at(after)?;
    closed_word(charset, &after[3..], encoding)
}

/// Returns the encoded word of a charset's name and an encoding, if the bytes start with an encoded
/// text and `?=`.
fn closed_word<'a>(
    charset: &'a [u8],
    after: &'a [u8],
    encoding: Encoding,
) -> Option<EncodedWord<'a>>
    ensures { IsWordOf (closed_word charset.now after.now encoding)
        (length charset.now + length after.now + 5) result }
{
    let (text, end) = after.split_at(text_len(after));
    if !is_closing(end) {
        return None;
    }
    Some(EncodedWord {
        charset,
        encoding,
        text,
    })
}

/// Returns the bytes after `=?` at the front.
fn after_opening(bytes: &[u8]) -> Option<&[u8]>
    ensures { option_copied result ≡ after_opening bytes.now }
{
    match bytes {
        [b'=', b'?', inside @ ..] => Some(inside),
        _ => None,
    }
}

/// Returns the encoding whose letter is between two `?` at the front.
fn encoding_at(bytes: &[u8]) -> Option<Encoding>
    ensures value { result ≡ encoding_at bytes.now }
    ensures long { IfSome result (λ _. 3 ≤ length bytes.now) }
{
    match bytes {
        [b'?', letter, b'?', ..] => encoding_of(*letter),
        _ => None,
    }
}

/// Returns whether the bytes start with `?=`.
fn is_closing(bytes: &[u8]) -> bool
    ensures { result ≡ is_closing bytes.now }
{
    matches!(bytes, [b'?', b'=', ..])
}

/// Returns the length of the charset's name at the front.
fn charset_len(bytes: &[u8]) -> usize
    ensures value { result ≡ prefix_len is_charset_byte bytes.now }
    ensures within { result ≤ length bytes.now }
{
    bytes
        .iter()
        .take_while(|byte| is_charset_byte(**byte))
        .count()
}

/// Returns the length of the encoded text at the front.
fn text_len(bytes: &[u8]) -> usize
    ensures value { result ≡ prefix_len is_text_byte bytes.now }
    ensures within { result ≤ length bytes.now }
{
    bytes.iter().take_while(|byte| is_text_byte(**byte)).count()
}

/// Returns whether a charset's name may have a byte.
fn is_charset_byte(byte: u8) -> bool
    ensures { result ≡ is_charset_byte byte }
{
    byte != b'?' && byte != b' '
}

/// Returns whether an encoded text may have a byte.
fn is_text_byte(byte: u8) -> bool
    ensures { result ≡ is_text_byte byte }
{
    byte.is_ascii_graphic() && byte != b'?'
}
