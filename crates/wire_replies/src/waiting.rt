//! Words that wait to be written to a sink.
//! Pure.
ghost use Rattle.std.specs.Prelude.{◌≡◌, ◌+◌, ◌≤◌, ◌++◌, [], length, drop, decimal, OnErr};
ghost use Rattle.std.specs.List.{prefix_len};
ghost use Rattle.edge_io.specs.Phrases.{SaysTo};
ghost use Rattle.mail_forms.specs.WireForms.{wire_of};
ghost use Rattle.wire_replies.specs.Blocks.{block_line, block_lines};
ghost use Rattle.wire_replies.specs.Changed.{is_unchanged as unchanged, first_sent as first_sent_of, dot_before};
ghost use Rattle.wire_replies.specs.Phrases.{words_in, words_of};
ghost use Rattle.wire_replies.specs.Waits.{Waits, piece_limit};

use crate::phrase::Phrase;
use edge_io::{Sink, SinkFault};
use itoa::Buffer;
use mail_reader::line_len;
use std::marker::Model;

/// The greatest length of a piece that is written, in bytes.
const PIECE_LIMIT: usize = 4096;

/// Words that wait to be written to a sink.
///
/// A contract sees them as their bytes. Takes no memory beyond itself.
#[derive(Drop)]
pub struct Waiting {
    bytes: [u8; PIECE_LIMIT],
    len: usize,
}

impl Model for Waiting {
    ghost use Rattle.std.specs.Prelude.{◌≤◌, List, ℕ, take};
    ghost use Rattle.wire_replies.specs.Waits.{piece_limit};

    ghost Value = { List ℕ };

    ghost view = { λ w. take w.len w.bytes };

    ghost invariant = { λ w. w.len ≤ piece_limit };
}

impl Waiting {
    /// Returns no words.
    pub fn new() -> Waiting
        ensures { result ≡ [] }
    {
        Waiting {
            bytes: [0; PIECE_LIMIT],
            len: 0,
        }
    }

    /// Appends phrases. Words that wait are written when there is no more room for them.
    ///
    /// `SinkFault` if a write failed. A prefix of what waited and of these phrases was taken, and the
    /// sink's count of faults rose. None wait then.
    pub fn push<O: Sink>(&mut self, phrases: &[Phrase<'_>], out: &mut O) -> Result<(), SinkFault>
        ensures said { Waits (words_of phrases.now) self.old (O.taken out.old) (O.faults out.old)
            self.new (O.taken out.new) (O.faults out.new) result }
        ensures empty { OnErr result (self.new ≡ []) }
        ensures sink { O.alike out.old out.new }
    {
        for phrase in phrases {
            match self.push_phrase(phrase, out) {
                Ok(()) => {}
                Err(fault) => return Err(fault),
            }
        }
        Ok(())
    }

    /// Appends a phrase.
    fn push_phrase<O: Sink>(&mut self, phrase: &Phrase<'_>, out: &mut O) -> Result<(), SinkFault>
        ensures said { Waits (words_in phrase.now) self.old (O.taken out.old) (O.faults out.old)
            self.new (O.taken out.new) (O.faults out.new) result }
        ensures empty { OnErr result (self.new ≡ []) }
        ensures sink { O.alike out.old out.new }
    {
        match *phrase {
            Phrase::Words(words) => self.say(words, out),
            Phrase::Number(number) => self.number(number, out),
            Phrase::Block(text) => self.block(text, out),
        }
    }

    /// Appends words. Words that wait are written when there is no more room for them.
    ///
    /// `SinkFault` if a write failed. A prefix of what waited and of these words was taken, and the
    /// sink's count of faults rose.
    fn say<O: Sink>(&mut self, words: &[u8], out: &mut O) -> Result<(), SinkFault>
        ensures said { Waits words.now self.old (O.taken out.old) (O.faults out.old) self.new
            (O.taken out.new) (O.faults out.new) result }
        ensures empty { OnErr result (self.new ≡ []) }
        ensures sink { O.alike out.old out.new }
    {
        let mut rest = words;
        while rest.len() > PIECE_LIMIT - self.len {
            let (front, back) = rest.split_at(PIECE_LIMIT - self.len);
            match self.fill(front, out) {
                Ok(()) => rest = back,
                Err(fault) => return Err(fault),
            }
        }
        self.put(rest);
        Ok(())
    }

    /// Appends words for which there is room, and writes all that wait.
    fn fill<O: Sink>(&mut self, words: &[u8], out: &mut O) -> Result<(), SinkFault>
        requires { length self.old + length words.now ≤ piece_limit }
        ensures said { Waits words.now self.old (O.taken out.old) (O.faults out.old) self.new
            (O.taken out.new) (O.faults out.new) result }
        ensures empty { self.new ≡ [] }
        ensures sink { O.alike out.old out.new }
    {
        self.put(words);
        self.flush(out)
    }

    /// Appends words for which there is room.
    fn put(&mut self, words: &[u8])
        requires { length self.old + length words.now ≤ piece_limit }
        ensures { self.new ≡ self.old ++ words.now }
    {
        let end = self.len + words.len();
        self.bytes[self.len..end].copy_from_slice(words);
        self.len = end;
    }

    /// Writes the words that wait.
    ///
    /// `SinkFault` if the write failed. A prefix of them was taken, and the sink's count of faults
    /// rose. None wait after either.
    pub fn flush<O: Sink>(&mut self, out: &mut O) -> Result<(), SinkFault>
        ensures said { SaysTo O.Sink self.old out.old out.new result }
        ensures empty { self.new ≡ [] }
        ensures sink { O.alike out.old out.new }
    {
        let len = self.len;
        self.len = 0;
        out.write(&self.bytes[..len])
    }

    /// Appends phrases, and writes all that wait.
    pub fn finish<O: Sink>(&mut self, phrases: &[Phrase<'_>], out: &mut O) -> Result<(), SinkFault>
        ensures said { SaysTo O.Sink (self.old ++ words_of phrases.now) out.old out.new result }
        ensures sink { O.alike out.old out.new }
    {
        self.push(phrases, out)?;
        self.flush(out)
    }

    /// Appends a number in decimal.
    fn number<O: Sink>(&mut self, number: u64, out: &mut O) -> Result<(), SinkFault>
        ensures said { Waits (decimal number) self.old (O.taken out.old) (O.faults out.old) self.new
            (O.taken out.new) (O.faults out.new) result }
        ensures empty { OnErr result (self.new ≡ []) }
        ensures sink { O.alike out.old out.new }
    {
        let mut buffer = Buffer::new();
        self.say(buffer.format(number).as_bytes(), out)
    }

    /// Appends the lines of a text as a block has them: in their wire form, and with one more dot
    /// before each that starts with one.
    #[tactic(auto, unfolding(crate::specs::Blocks::block_lines))]
    fn block<O: Sink>(&mut self, text: &[u8], out: &mut O) -> Result<(), SinkFault>
        ensures said { Waits (block_lines text.now) self.old (O.taken out.old) (O.faults out.old)
            self.new (O.taken out.new) (O.faults out.new) result }
        ensures empty { OnErr result (self.new ≡ []) }
        ensures sink { O.alike out.old out.new }
    {
        let mut rest = text;
        while !rest.is_empty() {
            let (line, after) = rest.split_at(line_len(rest));
            match self.line(line, out) {
                Ok(()) => rest = after,
                Err(fault) => return Err(fault),
            }
        }
        Ok(())
    }

    /// Appends a line of a text as a block has it.
    fn line<O: Sink>(&mut self, line: &[u8], out: &mut O) -> Result<(), SinkFault>
        ensures said { Waits (block_line line.now) self.old (O.taken out.old) (O.faults out.old)
            self.new (O.taken out.new) (O.faults out.new) result }
        ensures empty { OnErr result (self.new ≡ []) }
        ensures sink { O.alike out.old out.new }
    {
        self.dot(line, out)?;
        self.wire(line, out)
    }

    /// Appends a dot if a line starts with one.
    fn dot<O: Sink>(&mut self, line: &[u8], out: &mut O) -> Result<(), SinkFault>
        ensures said { Waits (dot_before line.now) self.old (O.taken out.old) (O.faults out.old)
            self.new (O.taken out.new) (O.faults out.new) result }
        ensures empty { OnErr result (self.new ≡ []) }
        ensures sink { O.alike out.old out.new }
    {
        match line {
            [b'.', ..] => self.say(b".", out),
            _ => Ok(()),
        }
    }

    /// Appends the wire form of bytes.
    fn wire<O: Sink>(&mut self, bytes: &[u8], out: &mut O) -> Result<(), SinkFault>
        ensures said { Waits (wire_of bytes.now) self.old (O.taken out.old) (O.faults out.old)
            self.new (O.taken out.new) (O.faults out.new) result }
        ensures empty { OnErr result (self.new ≡ []) }
        ensures sink { O.alike out.old out.new }
    {
        let mut rest = bytes;
        while !rest.is_empty() {
            let (front, back) = rest.split_at(unchanged_len(rest));
            match self.wire_part(front, back, out) {
                Ok(()) => rest = without_first(back),
                Err(fault) => return Err(fault),
            }
        }
        Ok(())
    }

    /// Appends bytes that are sent unchanged, and what is sent for the first of the others, if there
    /// is one.
    fn wire_part<O: Sink>(
        &mut self,
        front: &[u8],
        back: &[u8],
        out: &mut O,
    ) -> Result<(), SinkFault>
        ensures said { Waits (front.now ++ first_sent_of back.now) self.old (O.taken out.old)
            (O.faults out.old) self.new (O.taken out.new) (O.faults out.new) result }
        ensures empty { OnErr result (self.new ≡ []) }
        ensures sink { O.alike out.old out.new }
    {
        self.say(front, out)?;
        self.say(first_sent(back), out)
    }
}

/// Writes a reply of these phrases.
///
/// `SinkFault` if a write failed. A prefix of the reply was taken, and the sink's count of faults
/// rose.
pub fn send<O: Sink>(phrases: &[Phrase<'_>], out: &mut O) -> Result<(), SinkFault>
    ensures said { SaysTo O.Sink (words_of phrases.now) out.old out.new result }
    ensures sink { O.alike out.old out.new }
{
    let mut reply = Waiting::new();
    reply.finish(phrases, out)
}

/// Returns the number of bytes at the front that are sent unchanged.
fn unchanged_len(bytes: &[u8]) -> usize
    ensures value { result ≡ prefix_len unchanged bytes.now }
    ensures within { result ≤ length bytes.now }
{
    bytes.iter().take_while(|byte| is_unchanged(**byte)).count()
}

/// Returns whether a byte is sent unchanged.
fn is_unchanged(byte: u8) -> bool
    ensures { result ≡ unchanged byte }
{
    !(byte == b'\n' || byte == b'\r' || byte == 0)
}

/// Returns what is sent for the first of some bytes, or nothing if there is none.
fn first_sent(bytes: &[u8]) -> &[u8]
    ensures { result.now ≡ first_sent_of bytes.now }
{
    match bytes {
        [] => bytes,
        [b'\n', ..] => b"\r\n",
        [b'\r' | 0, ..] => b" ",
        [_, ..] => bytes.split_at(1).0,
    }
}

/// Returns the bytes without the first, if there is one.
fn without_first(bytes: &[u8]) -> &[u8]
    ensures { result.now ≡ drop 1 bytes.now }
{
    match bytes {
        [] => bytes,
        [_, rest @ ..] => rest,
    }
}
