//! Decodes a value with encoded words into text.
//! Allocates.
ghost use Rattle.std.specs.Prelude.{◌≡◌, ◌++◌, IfOk, OnOk, Some, string_bytes};
ghost use Rattle.std.specs.Str.{IsUtf8, encode_utf8_all};
ghost use Rattle.std.specs.Str.Lossy.{utf8_lossy};
ghost use Rattle.mime_words.specs.Decoding.{decoded, read_as, is_blank};
ghost use Rattle.mime_words.specs.Writing.{empty, finished, turned, with_text, with_text_before, with_piece, piece_of};

use crate::charset::{Charset, is_same};
use crate::encoding::Encoding;
use crate::quoted::push_unquoted;
use crate::symbols::push_unbase64;
use crate::words::{Word, first_word};
use arch_base::{Bytes, NoMemory};
use std::alloc::Global;
use std::marker::Model;

/// Returns the text of a field's value in UTF-8 (RFC 2047).
///
/// Words of `utf-8`, `us-ascii` and `iso-8859-1` are decoded, and words of any other charset stay
/// as they are written. Spaces between two decoded words are dropped. Neighbouring words of one
/// charset are joined before their bytes are read. Bytes that aren't UTF-8, in words and outside,
/// become U+FFFD.
pub fn decode(alloc: Global, value: &[u8]) -> Result<Bytes, NoMemory>
    ensures value { IfOk result (λ text. text ≡ decoded value.now) }
    ensures utf8 { IfOk result (λ text. IsUtf8 text) }
{
    let text = decode_text(alloc, value)?;
    Ok(Bytes::from_vec(text.into_bytes()))
}

/// Returns the text of a field's value.
fn decode_text(alloc: Global, value: &[u8]) -> Result<String, NoMemory>
    ensures { IfOk result (λ text. string_bytes text ≡ decoded value.now) }
{
    let mut decoding = Decoding::new(alloc);
    let mut rest = value;
    while let Some(found) = first_word(rest) {
        decoding.push_text_before(alloc, found.before)?;
        decoding.push_word(alloc, found.word)?;
        rest = found.rest;
    }
    decoding.push_text(alloc, rest)?;
    decoding.finish(alloc)
}

/// The finished text, and bytes of one charset, or of none, that wait for more of it.
#[derive(Drop)]
struct Decoding {
    text: String,
    charset: Option<Charset>,
    held: Bytes,
}

impl Model for Decoding {
    ghost use Rattle.std.specs.Prelude.{string_bytes};
    ghost use Rattle.mime_words.specs.Writing.{Written};

    ghost Value = { Written };

    ghost view = { λ d. record { text = string_bytes d.text; charset = d.charset; held = d.held } };
}

impl Decoding {
    /// Starts with an empty text.
    fn new(alloc: Global) -> Self
        ensures { result ≡ empty }
    {
        Decoding {
            text: String::new(alloc),
            charset: None,
            held: Bytes::new(alloc),
        }
    }

    /// Prepares for bytes of a charset: the bytes that wait for another charset are read.
    fn turn(&mut self, alloc: Global, charset: Option<Charset>) -> Result<(), NoMemory>
        ensures { OnOk result (self.new ≡ turned self.old charset) }
    {
        if is_same(self.charset, charset) {
            return Ok(());
        }
        push_read(alloc, &mut self.text, self.charset, self.held.as_slice())?;
        self.held.truncate(0);
        self.charset = charset;
        Ok(())
    }

    /// Appends text from outside of words.
    fn push_text(&mut self, alloc: Global, text: &[u8]) -> Result<(), NoMemory>
        ensures { OnOk result (self.new ≡ with_text self.old text.now) }
    {
        if text.is_empty() {
            return Ok(());
        }
        self.turn(alloc, None)?;
        self.held.push_slice(text)
    }

    /// Appends the text before a word, unless it is only spaces after another word.
    fn push_text_before(&mut self, alloc: Global, text: &[u8]) -> Result<(), NoMemory>
        ensures { OnOk result (self.new ≡ with_text_before self.old text.now) }
    {
        if self.charset.is_some() && is_blank(text) {
            return Ok(());
        }
        self.push_text(alloc, text)
    }

    /// Appends the bytes of a word.
    fn push_word(&mut self, alloc: Global, word: Word<'_>) -> Result<(), NoMemory>
        ensures { OnOk result (self.new ≡ with_piece self.old (piece_of word.entry)) }
    {
        self.turn(alloc, Some(word.charset))?;
        match word.encoding {
            Encoding::Base64 => push_unbase64(alloc, word.text, &mut self.held),
            Encoding::Quoted => push_unquoted(word.text, &mut self.held),
        }
    }

    /// Reads the bytes that still wait, and returns the whole text.
    fn finish(self, alloc: Global) -> Result<String, NoMemory>
        ensures { IfOk result (λ text. string_bytes text ≡ finished self) }
    {
        let Decoding {
            mut text,
            charset,
            held,
        } = self;
        push_read(alloc, &mut text, charset, held.as_slice())?;
        Ok(text)
    }
}

/// Returns whether all bytes are spaces.
fn is_blank(bytes: &[u8]) -> bool
    ensures { result ≡ is_blank bytes.now }
{
    bytes.iter().all(|byte| *byte == b' ')
}

/// Appends the characters of bytes in a charset to a text.
fn push_read(
    alloc: Global,
    text: &mut String,
    charset: Option<Charset>,
    bytes: &[u8],
) -> Result<(), NoMemory>
    ensures { OnOk result (string_bytes text.new
        ≡ string_bytes text.old ++ read_as charset bytes.now) }
{
    match charset {
        Some(Charset::Latin1) => push_latin1(text, bytes),
        Some(Charset::Utf8) | Some(Charset::UsAscii) | None => push_lossy(alloc, text, bytes),
    }
}

/// Appends UTF-8 to a text, with U+FFFD for bytes that aren't UTF-8.
fn push_lossy(alloc: Global, text: &mut String, bytes: &[u8]) -> Result<(), NoMemory>
    ensures { OnOk result (string_bytes text.new ≡ string_bytes text.old ++ utf8_lossy bytes.now) }
{
    let more = String::from_utf8_lossy(alloc, bytes)?;
    text.push_str(more.as_str())?;
    Ok(())
}

/// Appends the characters of ISO-8859-1 to a text.
fn push_latin1(text: &mut String, bytes: &[u8]) -> Result<(), NoMemory>
    ensures { OnOk result (string_bytes text.new
        ≡ string_bytes text.old ++ encode_utf8_all bytes.now) }
{
    for byte in bytes {
        text.push(char::from(*byte))?;
    }
    Ok(())
}
