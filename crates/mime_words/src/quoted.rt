//! Decodes the encoding Q (RFC 2047, section 4.2).
//! Allocates.
ghost use Rattle.std.specs.Prelude.{◌≡◌, ◌<◌, ◌∷◌, ◌++◌, OnOk, length};
ghost use Rattle.mime_words.specs.Quoted.{escape, plain_byte, unquoted};

use arch_base::{Bytes, NoMemory};
use hex::FromHex;

/// Decodes a text in Q, and appends its bytes.
///
/// `=` and two hexadecimal digits are a byte, an underscore is a space, and any other byte is
/// itself.
pub fn push_unquoted(text: &[u8], into: &mut Bytes) -> Result<(), NoMemory>
    ensures { OnOk result (into.new ≡ into.old ++ unquoted text.now) }
{
    let mut rest = text;
    while !rest.is_empty() {
        let (byte, after) = split_byte(rest);
        into.push(byte)?;
        rest = after;
    }
    Ok(())
}

/// Returns the first byte that a text encodes, and the rest of the text.
fn split_byte(text: &[u8]) -> (u8, &[u8])
    requires { 0 < length text.now }
    ensures bytes { unquoted text.now ≡ result.0 ∷ unquoted result.1.now }
    ensures shorter { length result.1.now < length text.now }
{
    match escaped_byte(text) {
        Some(byte) => (byte, &text[3..]),
        None => (plain_byte(text[0]), &text[1..]),
    }
}

/// Returns the byte that a byte outside of an escape encodes.
fn plain_byte(byte: u8) -> u8
    ensures { result ≡ plain_byte byte }
{
    if byte == b'_' { b' ' } else { byte }
}

/// Returns the byte that `=` and two hexadecimal digits at the front of a text encode, in either case
/// (RFC 2045, section 6.7, rule 1; RFC 2047, section 4.2).
///
/// `None` if the text starts with anything else.
pub fn escaped_byte(text: &[u8]) -> Option<u8>
    ensures { result ≡ escape text.now }
{
    let [b'=', high, low, ..] = text else {
        return None;
    };
    let [byte] = <[u8; 1]>::from_hex([*high, *low]).ok()?;
    Some(byte)
}
