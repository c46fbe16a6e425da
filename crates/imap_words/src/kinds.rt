//! The kinds of octets of which commands consist (RFC 3501, section 9).
//! Pure.
ghost use Rattle.std.specs.Prelude.{◌≡◌, ◌≤◌, length};
ghost use Rattle.std.specs.List.{prefix_len};
ghost use Rattle.imap_words.specs.Kinds.{is_digit as digit, is_letter as letter, is_atom_byte as atom_byte, is_astring_byte as astring_byte, is_word_byte as word_byte, is_set_byte as set_byte, is_pattern_byte as pattern_byte, is_tag_byte as tag_byte, is_flag_byte as flag_byte, is_of};

/// A kind of octets.
#[derive(Clone, Copy)]
pub enum Kind {
    /// Of a number: digits.
    Digit,
    /// Of an atom.
    Atom,
    /// Of a bare text.
    Astring,
    /// Of a bare pattern of names.
    Pattern,
    /// Of a tag.
    Tag,
    /// Of a flag.
    Flag,
    /// Of a set of numbers.
    Set,
    /// Of a keyword: letters, digits and dots.
    Word,
}

impl Kind {
    /// Returns whether an octet is of the kind.
    pub fn has(self, byte: u8) -> bool
        ensures { result ≡ is_of self byte }
    {
        match self {
            Kind::Digit => is_digit(byte),
            Kind::Atom => is_atom_byte(byte),
            Kind::Astring => is_astring_byte(byte),
            Kind::Pattern => is_astring_byte(byte) || byte == b'%' || byte == b'*',
            Kind::Tag => is_astring_byte(byte) && byte != b'+',
            Kind::Flag => is_atom_byte(byte) || byte == b'\\',
            Kind::Set => is_digit(byte) || byte == b'*' || byte == b',' || byte == b':',
            Kind::Word => is_digit(byte) || byte == b'.' || is_letter(byte),
        }
    }
}

/// Returns the number of octets of a kind at the front.
pub fn run_len(kind: Kind, octets: &[u8]) -> usize
    ensures value { result ≡ prefix_len (is_of kind) octets.now }
    ensures within { result ≤ length octets.now }
{
    octets.iter().take_while(|byte| kind.has(**byte)).count()
}

/// Returns whether an octet is a digit.
pub fn is_digit(byte: u8) -> bool
    ensures { result ≡ digit byte }
{
    b'0' <= byte && byte <= b'9'
}

/// Returns whether an octet is a letter.
fn is_letter(byte: u8) -> bool
    ensures { result ≡ letter byte }
{
    (b'A' <= byte && byte <= b'Z') || (b'a' <= byte && byte <= b'z')
}

/// Returns whether an octet may stand in an atom.
fn is_atom_byte(byte: u8) -> bool
    ensures { result ≡ atom_byte byte }
{
    33 <= byte
        && byte <= 126
        && !(byte == b'"'
            || byte == b'%'
            || byte == b'('
            || byte == b')'
            || byte == b'*'
            || byte == b'\\'
            || byte == b']'
            || byte == b'{')
}

/// Returns whether an octet may stand in a bare text.
fn is_astring_byte(byte: u8) -> bool
    ensures { result ≡ astring_byte byte }
{
    is_atom_byte(byte) || byte == b']'
}
