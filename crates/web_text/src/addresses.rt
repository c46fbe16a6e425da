//! Ids of messages in addresses.
//! Allocates.
ghost use Rattle.std.specs.Prelude.{◌≡◌, ◌++◌, length, take, OnOk};
ghost use Rattle.web_text.specs.Addresses.{address_of, escaped_bytes, inside as inside_of};

use arch_base::{Bytes, NoMemory};
use percent_encoding::{AsciiSet, NON_ALPHANUMERIC, ascii_set, percent_encode};

/// The ASCII bytes that don't stand for themselves in an address: all but letters, digits and `-._~@`.
const ESCAPED: AsciiSet = ascii_set!(
    NON_ALPHANUMERIC
        .remove(b'-')
        .remove(b'.')
        .remove(b'_')
        .remove(b'~')
        .remove(b'@')
);

/// Appends the id of a message as an address has it (RFC 3986, section 2.1).
///
/// The first and the last byte, which are its brackets, are left out. Each byte but ASCII letters,
/// digits and `-._~@` becomes `%` and two upper-case hexadecimal digits. The only error is
/// `NoMemory`. It may leave a part of the id appended, after what stood there.
pub fn push_address(id: &[u8], into: &mut Bytes) -> Result<(), NoMemory>
    ensures ok { OnOk result (into.new ≡ into.old ++ address_of id.now) }
    ensures kept { take (length into.old) into.new ≡ into.old }
{
    push_bytes(inside(id), into)
}

/// Returns the bytes between the first and the last one.
fn inside(id: &[u8]) -> &[u8]
    ensures { result.now ≡ inside_of id.now }
{
    if id.len() < 2 {
        return &[];
    }
    &id[1..id.len() - 1]
}

/// Appends bytes as an address has them.
fn push_bytes(bytes: &[u8], into: &mut Bytes) -> Result<(), NoMemory>
    ensures ok { OnOk result (into.new ≡ into.old ++ escaped_bytes bytes.now) }
    ensures kept { take (length into.old) into.new ≡ into.old }
{
    for piece in percent_encode(bytes, ESCAPED) {
        into.push_slice(piece.as_bytes())?;
    }
    Ok(())
}
