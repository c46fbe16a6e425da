//! Reads from the front of bytes: words, numbers, ids, and bytes up to the first of a kind.
//! Pure.
ghost use Rattle.std.specs.Prelude.{◌≡◌, ◌≢◌, ◌<◌, ◌++◌, ◌∷◌, ℕ, List, MatchOption};
ghost use Rattle.git_objects.specs.Fronts.{Lacks, Begins, NoByte};
ghost use Rattle.arch_base.specs.Ids.{IsObjectId};
ghost use Rattle.git_objects.specs.Commits.{IsNumber, number_part, hex_part};

use arch_base::{Form, ObjectId, id_of_hex, read_decimal};
use memchr::memchr;

/// Returns the bytes after a word that they start with.
pub fn after<'a>(word: &[u8], bytes: &'a [u8]) -> Option<&'a [u8]>
    ensures { MatchOption result ((rest : List ℕ)
        → bytes.now ≢ word.now ++ rest) (λ rest. bytes.now ≡ word.now ++ rest.now) }
{
    bytes.strip_prefix(word)
}

/// Returns the bytes before a word that they end with.
pub(crate) fn before<'a>(word: &[u8], bytes: &'a [u8]) -> Option<&'a [u8]>
    ensures { MatchOption result ((front : List ℕ)
        → bytes.now ≢ front ++ word.now) (λ front. bytes.now ≡ front.now ++ word.now) }
{
    bytes.strip_suffix(word)
}

/// Returns the bytes before and after the first occurrence of a byte.
pub fn parted_at(byte: u8, bytes: &[u8]) -> Option<(&[u8], &[u8])>
    ensures { MatchOption result (NoByte byte bytes.now)
        (λ found. NoByte byte found.0.now × (bytes.now ≡ found.0.now ++ byte ∷ found.1.now)) }
{
    let at = memchr(byte, bytes)?;
    Some((&bytes[..at], &bytes[at + 1..]))
}

/// Reads a number in digits up to the byte `end`.
///
/// Returns the number and the bytes after that byte.
pub fn read_number(end: u8, bytes: &[u8]) -> Option<(u64, &[u8])>
    requires { end < 48 }
    ensures { MatchOption result (Lacks IsNumber (number_part end) bytes.now)
        (λ found. Begins IsNumber (number_part end) bytes.now found.0 found.1.now) }
{
    let (digits, rest) = parted_at(end, bytes)?;
    Some((read_decimal(digits)?, rest))
}

/// Reads an id of a form in lower-case digits up to the byte `end`.
///
/// Returns the id and the bytes after that byte.
pub fn read_id(end: u8, bytes: &[u8], form: Form) -> Option<(ObjectId, &[u8])>
    requires least { 0 < end }
    requires most { end < 48 }
    ensures { MatchOption result (Lacks (IsObjectId form) (hex_part end) bytes.now)
        (λ found. Begins (IsObjectId form) (hex_part end) bytes.now found.0 found.1.now) }
{
    let (digits, rest) = parted_at(end, bytes)?;
    let id = id_of_hex(digits, form)?;
    Some((id, rest))
}
