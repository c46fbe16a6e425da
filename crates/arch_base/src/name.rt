//! Names of archives.
//! Pure.
ghost use Rattle.std.specs.Prelude.{◌≡◌, ◌↔◌, IfSome, IfNone, IsTrue};
ghost use Rattle.arch_base.specs.Names.{IsArchiveName, is_letter_or_digit as letter_or_digit, is_name_byte as name_byte};

use std::marker::Model;

/// The name of an archive.
///
/// It has 1 to 64 bytes: lower-case ASCII letters, digits, `-`, `_` and `.`. The first byte is a
/// letter or a digit, and the last is not a dot.
#[derive(Debug, Drop)]
pub struct Name {
    bytes: [u8; 64],
    len: u8,
}

impl Model for Name {
    ghost use Rattle.std.specs.Prelude.{List, ℕ, take, ◌≤◌};
    ghost use Rattle.arch_base.specs.Names.{IsArchiveName};

    ghost Value = { List ℕ };

    ghost view = { λ n. take n.len n.bytes };

    ghost invariant = { λ n. (n.len ≤ 64) × IsArchiveName (take n.len n.bytes) };
}

impl Name {
    /// Returns a text as a name, or `None` if it is not a valid name.
    pub fn read(text: &[u8]) -> Option<Name>
        ensures found { IfSome result (λ name. (name ≡ text.now) × IsArchiveName text.now) }
        ensures none { IfNone result (IsArchiveName text.now → ⊥) }
    {
        if !is_name(text) {
            return None;
        }
        let mut bytes = [0u8; 64];
        bytes[..text.len()].copy_from_slice(text);
        Some(Name {
            bytes,
            len: text.len() as u8,
        })
    }

    /// Returns a copy. Allocates nothing.
    pub fn copy(&self) -> Name
        ensures { result ≡ self.now }
    {
        Name {
            bytes: self.bytes,
            len: self.len,
        }
    }

    /// Returns the bytes of the name.
    pub fn as_slice(&self) -> &[u8]
        ensures value { result.now ≡ self.now }
        ensures valid { IsArchiveName self.now }
    {
        &self.bytes[..self.len as usize]
    }
}

/// Returns whether a byte is allowed in a name.
fn is_name_byte(byte: u8) -> bool
    ensures { result ≡ name_byte byte }
{
    is_letter_or_digit(byte) || byte == b'-' || byte == b'_' || byte == b'.'
}

/// Returns whether a byte is a lower-case ASCII letter or a digit.
fn is_letter_or_digit(byte: u8) -> bool
    ensures { result ≡ letter_or_digit byte }
{
    byte.is_ascii_lowercase() || byte.is_ascii_digit()
}

/// Returns whether a text is a valid name.
fn is_name(text: &[u8]) -> bool
    ensures { IsTrue result ↔ IsArchiveName text.now }
{
    match text {
        [first, .., last] => {
            text.len() <= 64
                && is_letter_or_digit(*first)
                && *last != b'.'
                && text.iter().all(|byte| is_name_byte(*byte))
        }
        [only] => is_letter_or_digit(*only),
        [] => false,
    }
}
