//! The wire form of a text, and its length.
//! Allocates.
ghost use Rattle.std.specs.Prelude.{◌-◌, min, ◌≡◌, ◌++◌, ◌<◌, ◌≤◌, ◌^◌, length, take, OnOk, OnErr};
ghost use Rattle.mail_forms.specs.WireForms.{sent, wire_of, feeds_of};

use arch_base::{Bytes, NoMemory};

/// Appends the wire form of a text: each line feed as a carriage return and a line feed, and each
/// other carriage return and each NUL as a space.
///
/// `NoMemory` if an allocation fails, and the bytes are unchanged.
pub fn wire(text: &[u8], into: &mut Bytes) -> Result<(), NoMemory>
    ensures ok { OnOk result (into.new ≡ into.old ++ wire_of text.now) }
    ensures err { OnErr result (into.new ≡ into.old) }
{
    let len = into.as_slice().len();
    let pushed = push_all(text, into);
    if pushed.is_err() {
        into.truncate(len);
    }
    pushed
}

/// Appends the wire form of a text.
///
/// `NoMemory` may leave a part of it appended.
fn push_all(text: &[u8], into: &mut Bytes) -> Result<(), NoMemory>
    ensures ok { OnOk result (into.new ≡ into.old ++ wire_of text.now) }
    ensures err { take (length into.old) into.new ≡ into.old }
{
    for byte in text {
        push_sent(*byte, into)?;
    }
    Ok(())
}

/// Appends what is sent for a byte.
///
/// `NoMemory` leaves the bytes unchanged.
fn push_sent(byte: u8, into: &mut Bytes) -> Result<(), NoMemory>
    ensures ok { OnOk result (into.new ≡ into.old ++ sent byte) }
    ensures err { OnErr result (into.new ≡ into.old) }
{
    match byte {
        b'\n' => into.push_slice(b"\r\n"),
        b'\r' | 0 => into.push(b' '),
        _ => into.push(byte),
    }
}

/// Returns the length of the wire form of a text, in bytes.
///
/// If it doesn't fit in a `u64`, which no text in memory reaches, this is the greatest `u64`.
pub fn wire_len(text: &[u8]) -> u64
    ensures value { length text.now < 2 ^ 63 → result ≡ length (wire_of text.now) }
    ensures most { result ≡ min (length (wire_of text.now)) (2 ^ 64 - 1) }
{
    (text.len() as u64).saturating_add(line_feeds(text))
}

/// Returns the number of line feeds of a text.
pub fn line_feeds(text: &[u8]) -> u64
    ensures value { result ≡ feeds_of text.now }
    ensures few { result ≤ length text.now }
{
    text.iter().filter(|byte| **byte == b'\n').count() as u64
}
