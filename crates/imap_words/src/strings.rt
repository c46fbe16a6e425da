//! Texts of commands (RFC 3501, sections 4.3 and 9, string and astring).
//! Allocates.
ghost use Rattle.std.specs.Prelude.{◌≡◌, false};
ghost use Rattle.std.specs.List.{list_all};
ghost use Rattle.imap_words.specs.Kinds.{is_of, is_octet};
ghost use Rattle.imap_words.specs.Reading.{Obtains, run_at};
ghost use Rattle.imap_words.specs.Strings.{quoting_of as quoting_of_byte, quoted_at, quoted_from, octets_at, literal_at, string_at, astring_at, astrings_at, argument_at, atom_argument_at};

use crate::cursor::Cursor;
use crate::kinds::Kind;
use crate::stop::Stop;
use arch_base::{Bytes, Texts};

/// What an octet is within quotes.
#[derive(Clone, Copy)]
pub enum Quoting {
    /// The closing quote.
    End,
    /// A backslash before an octet of the text.
    Escape,
    /// An octet of the text.
    Text,
    /// An octet that may not stand there.
    Wrong,
}

/// Returns what an octet is within quotes, after a backslash or not.
fn quoting_of(escaped: bool, byte: u8) -> Quoting
    ensures { result ≡ quoting_of_byte escaped byte }
{
    if escaped {
        if byte == b'"' || byte == b'\\' {
            return Quoting::Text;
        }
        return Quoting::Wrong;
    }
    if byte == b'"' {
        Quoting::End
    } else if byte == b'\\' {
        Quoting::Escape
    } else if byte == 0 || byte == b'\n' || byte == b'\r' || byte > 127 {
        Quoting::Wrong
    } else {
        Quoting::Text
    }
}

/// Returns whether no octet is NUL.
fn are_octets(octets: &[u8]) -> bool
    ensures { result ≡ list_all is_octet octets.now }
{
    octets.iter().all(|byte| !(*byte == 0))
}

impl<'a> Cursor<'a> {
    /// Takes a text in quotes (RFC 3501, section 9, quoted).
    #[tactic(auto, unfolding(crate::specs::Strings::quoted_at))]
    pub fn quoted(&mut self) -> Result<Bytes, Stop>
        ensures { Obtains self.new result (quoted_at self.old) }
    {
        self.byte(b'"')?;
        self.quoted_text()
    }

    /// Takes a text up to the closing quote.
    fn quoted_text(&mut self) -> Result<Bytes, Stop>
        ensures { Obtains self.new result (quoted_from false self.old) }
    {
        let mut text = Bytes::new(self.alloc());
        let mut escaped = false;
        while let Some(byte) = self.next() {
            match quoting_of(escaped, byte) {
                Quoting::End => return Ok(text),
                Quoting::Escape => escaped = true,
                Quoting::Text => {
                    text.push(byte)?;
                    escaped = false;
                }
                Quoting::Wrong => return Err(Stop::Bad),
            }
        }
        Err(Stop::Bad)
    }

    /// Takes a text whose number of octets is announced (literal).
    #[tactic(auto, unfolding(crate::specs::Strings::literal_at))]
    pub fn literal(&mut self) -> Result<Bytes, Stop>
        ensures { Obtains self.new result (literal_at self.old) }
    {
        self.byte(b'{')?;
        let len = self.number()?;
        self.byte(b'}')?;
        self.line_end()?;
        self.octets(len as usize)
    }

    /// Takes so many octets, none of which is NUL.
    fn octets(&mut self, len: usize) -> Result<Bytes, Stop>
        ensures { Obtains self.new result (octets_at len self.old) }
    {
        if len > self.rest.len() {
            return Err(Stop::Bad);
        }
        let octets = self.take(len);
        if !are_octets(octets) {
            return Err(Stop::Bad);
        }
        self.copy(octets)
    }

    /// Takes a run of octets of a kind, as a text.
    pub fn bare(&mut self, kind: Kind) -> Result<Bytes, Stop>
        ensures { Obtains self.new result (run_at (is_of kind) self.old) }
    {
        let text = self.run(kind)?;
        self.copy(text)
    }

    /// Takes a text in quotes, an announced one, or a run of octets of a kind.
    #[tactic(auto, unfolding(crate::specs::Strings::string_at))]
    pub fn string(&mut self, kind: Kind) -> Result<Bytes, Stop>
        ensures { Obtains self.new result (string_at (is_of kind) self.old) }
    {
        match self.first() {
            b'"' => self.quoted(),
            b'{' => self.literal(),
            _ => self.bare(kind),
        }
    }

    /// Takes a text whose bare form has the octets of a bare text (astring).
    pub fn astring(&mut self) -> Result<Bytes, Stop>
        ensures { Obtains self.new result (astring_at self.old) }
    {
        self.string(Kind::Astring)
    }

    /// Takes one or more such texts with single spaces between them.
    pub fn astrings(&mut self) -> Result<Texts, Stop>
        ensures { Obtains self.new result (astrings_at self.old) }
    {
        let mut texts = Texts::new(self.alloc());
        for _index in 0..self.rest.len() {
            match self.astring() {
                Err(stop) => return Err(stop),
                Ok(text) => texts.push(text)?,
            }
            if !self.has(b' ') {
                return Ok(texts);
            }
        }
        Err(Stop::Bad)
    }

    /// Takes a space and such a text.
    #[tactic(auto, unfolding(crate::specs::Strings::argument_at))]
    pub fn argument(&mut self) -> Result<Bytes, Stop>
        ensures { Obtains self.new result (argument_at self.old) }
    {
        self.byte(b' ')?;
        self.astring()
    }

    /// Takes a space and an atom.
    #[tactic(auto, unfolding(crate::specs::Strings::atom_argument_at))]
    pub fn atom_argument(&mut self) -> Result<Bytes, Stop>
        ensures { Obtains self.new result (atom_argument_at self.old) }
    {
        self.byte(b' ')?;
        self.bare(Kind::Atom)
    }
}
