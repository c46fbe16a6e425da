//! Strings in replies (RFC 3501, section 4.3).
//! Allocates.
ghost use Rattle.std.specs.Prelude.{◌≡◌, ◌++◌, IfOk, OnOk, option_copied};
ghost use Rattle.std.specs.List.{flat_map, list_all};
ghost use Rattle.imap_structure.specs.Strings.{is_quotable, literal_head, literal, in_quotes, string_of, nstring_of, spaced_string, strings_of};

use crate::numbers::push_number;
use arch_base::{Bytes, NoMemory};
use std::alloc::Global;

/// Appends bytes as a string: in quotes if each of them is a space or printable ASCII other than `"`
/// and `\`, or else as a literal.
///
/// `NoMemory` if an allocation fails. It may leave a part of the string appended.
#[tactic(auto, unfolding(crate::specs::Strings::string_of))]
pub fn push_string(alloc: Global, bytes: &[u8], into: &mut Bytes) -> Result<(), NoMemory>
    ensures { OnOk result (into.new ≡ into.old ++ string_of bytes.now) }
{
    if are_quotable(bytes) {
        push_quoted(bytes, into)
    } else {
        push_literal(alloc, bytes, into)
    }
}

/// Returns whether each of these bytes may stand in quotes.
fn are_quotable(bytes: &[u8]) -> bool
    ensures { result ≡ list_all is_quotable bytes.now }
{
    bytes.iter().all(|byte| is_quotable(*byte))
}

/// Returns whether a byte may stand in quotes.
fn is_quotable(byte: u8) -> bool
    ensures { result ≡ is_quotable byte }
{
    byte >= b' ' && byte <= b'~' && !(byte == b'"' || byte == b'\\')
}

/// Appends bytes in quotes.
fn push_quoted(bytes: &[u8], into: &mut Bytes) -> Result<(), NoMemory>
    ensures { OnOk result (into.new ≡ into.old ++ in_quotes bytes.now) }
{
    into.push(b'"')?;
    into.push_slice(bytes)?;
    into.push(b'"')
}

/// Appends octets as a literal.
#[tactic(auto, unfolding(crate::specs::Strings::literal))]
fn push_literal(alloc: Global, octets: &[u8], into: &mut Bytes) -> Result<(), NoMemory>
    ensures { OnOk result (into.new ≡ into.old ++ literal octets.now) }
{
    let head = literal_head(alloc, octets.len() as u64)?;
    into.push_slice(head.as_slice())?;
    into.push_slice(octets)
}

/// Returns what stands before the octets of a literal: their number in braces, and a line end.
///
/// `NoMemory` if an allocation fails.
pub fn literal_head(alloc: Global, len: u64) -> Result<Bytes, NoMemory>
    ensures { IfOk result (λ head. head ≡ literal_head len) }
{
    let mut head = Bytes::new(alloc);
    head.push(b'{')?;
    push_number(alloc, len, &mut head)?;
    head.push_slice(b"}\r\n")?;
    Ok(head)
}

/// Appends a string, or `NIL` without one.
pub(crate) fn push_nstring(
    alloc: Global,
    bytes: Option<&[u8]>,
    into: &mut Bytes,
) -> Result<(), NoMemory>
    ensures { OnOk result (into.new ≡ into.old ++ nstring_of (option_copied bytes.entry)) }
{
    match bytes {
        Some(bytes) => push_string(alloc, bytes, into),
        None => into.push_slice(b"NIL"),
    }
}

/// Appends strings in parentheses with spaces between them, or `NIL` without any.
pub(crate) fn push_strings(
    alloc: Global,
    strings: &[Bytes],
    into: &mut Bytes,
) -> Result<(), NoMemory>
    ensures { OnOk result (into.new ≡ into.old ++ strings_of strings.now) }
{
    match strings {
        [] => into.push_slice(b"NIL"),
        [first, others @ ..] => {
            into.push(b'(')?;
            push_string(alloc, first.as_slice(), into)?;
            push_others(alloc, others, into)?;
            into.push(b')')
        }
    }
}

/// Appends strings, each after a space.
fn push_others(alloc: Global, strings: &[Bytes], into: &mut Bytes) -> Result<(), NoMemory>
    ensures { OnOk result (into.new ≡ into.old ++ flat_map spaced_string strings.now) }
{
    for string in strings {
        push_spaced(alloc, string.as_slice(), into)?;
    }
    Ok(())
}

/// Appends a string after a space.
fn push_spaced(alloc: Global, bytes: &[u8], into: &mut Bytes) -> Result<(), NoMemory>
    ensures { OnOk result (into.new ≡ into.old ++ spaced_string bytes.now) }
{
    into.push(b' ')?;
    push_string(alloc, bytes, into)
}
