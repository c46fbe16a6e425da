//! Reads the texts of names and of addresses.
//! Allocates.
ghost use Rattle.std.specs.Prelude.{◌≡◌, ◌++◌, ◌∷◌, [], IfOk, OnOk, if◌then◌else◌};
ghost use Rattle.mail_address.specs.Words.{stays_in_name as stays_in_name_at, stays_in_address as stays_in_address_at, name_text as name_text_of, address_text as address_text_of};
ghost use Rattle.mail_address.specs.Gaps.{given, gap_after, PutsOfName};

use crate::place::Place;
use arch_base::{Bytes, NoMemory};
use std::alloc::Global;

/// What precedes the next byte of a name.
#[derive(Clone, Copy, Drop)]
pub(crate) enum Gap {
    /// Nothing yet.
    Start,
    /// A byte of a word.
    Word,
    /// A word, and spaces that aren't written yet.
    Space,
}

/// Returns the name that bytes spell.
///
/// Quotes, comments and backslashes are removed, each run of spaces becomes one space, and the ends
/// are trimmed. The only error is `NoMemory`.
pub(crate) fn name_text(alloc: Global, bytes: &[u8]) -> Result<Bytes, NoMemory>
    ensures { IfOk result (λ text. text ≡ name_text_of bytes.now) }
{
    let mut text = Bytes::new(alloc);
    let mut place = Place::Outside;
    let mut gap = Gap::Start;
    for byte in bytes {
        gap = push_of_name(&mut text, gap, place, *byte)?;
        place = place.next_in_name(*byte);
    }
    Ok(text)
}

/// Appends a byte of a name to its text if the byte stays, and returns what precedes the next byte.
fn push_of_name(text: &mut Bytes, gap: Gap, place: Place, byte: u8) -> Result<Gap, NoMemory>
    ensures { IfOk result (PutsOfName text.old text.new gap place byte) }
{
    if !stays_in_name(place, byte) {
        return Ok(gap);
    }
    push_spaced(text, gap, byte)
}

/// Appends a byte to a name's text. A space waits until the next word.
fn push_spaced(text: &mut Bytes, gap: Gap, byte: u8) -> Result<Gap, NoMemory>
    ensures text { OnOk result (text.new ≡ text.old ++ given gap byte) }
    ensures gap { IfOk result (λ after. after ≡ gap_after gap byte) }
{
    if byte == b' ' {
        return Ok(match gap {
            Gap::Start => Gap::Start,
            Gap::Word | Gap::Space => Gap::Space,
        });
    }
    if matches!(gap, Gap::Space) {
        text.push_slice(&[b' ', byte])?;
    } else {
        text.push(byte)?;
    }
    Ok(Gap::Word)
}

/// Returns whether a byte of a name stays.
fn stays_in_name(place: Place, byte: u8) -> bool
    ensures { result ≡ stays_in_name_at place byte }
{
    match place {
        Place::Outside => byte != b'"' && byte != b'(' && byte != b'\\',
        Place::Quoted => byte != b'"' && byte != b'\\',
        Place::Pair | Place::QuotedPair => true,
        Place::Comment(_) | Place::CommentPair(_) => false,
    }
}

/// Returns the address that bytes spell.
///
/// Comments are removed, and so are spaces outside of quoted strings. The only error is `NoMemory`.
pub(crate) fn address_text(alloc: Global, bytes: &[u8]) -> Result<Bytes, NoMemory>
    ensures { IfOk result (λ text. text ≡ address_text_of bytes.now) }
{
    let mut text = Bytes::new(alloc);
    let mut place = Place::Outside;
    for byte in bytes {
        push_of_address(&mut text, place, *byte)?;
        place = place.next(*byte);
    }
    Ok(text)
}

/// Appends a byte of an address to its text if the byte stays.
fn push_of_address(text: &mut Bytes, place: Place, byte: u8) -> Result<(), NoMemory>
    ensures { OnOk result (text.new
        ≡ (if stays_in_address_at place byte then text.old ++ byte ∷ [] else text.old)) }
{
    if stays_in_address(place, byte) {
        text.push(byte)
    } else {
        Ok(())
    }
}

/// Returns whether a byte of an address stays.
fn stays_in_address(place: Place, byte: u8) -> bool
    ensures { result ≡ stays_in_address_at place byte }
{
    match place {
        Place::Outside => byte != b'(' && byte != b' ',
        Place::Pair | Place::Quoted | Place::QuotedPair => true,
        Place::Comment(_) | Place::CommentPair(_) => false,
    }
}
