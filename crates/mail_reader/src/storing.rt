//! Brings a message into storage form, the form in which it is kept, or refuses it.
//! Allocates.
ghost use Rattle.std.specs.Prelude.{◌≡◌, ◌++◌, ◌∷◌, [], IfOk, OnOk, true};
ghost use Rattle.std.specs.List.{concat};
ghost use Rattle.mail_reader.specs.Lines.{is_field_line, after_header, after_empty};
ghost use Rattle.mail_reader.specs.Stored.{GivesStored, stored, clean_lines, kept_fields, after_mailbox_line, is_mailbox_line, is_dropped};
ghost use Rattle.mail_reader.specs.Keeping.{next_place};

use crate::lines::{first_line, is_continuation, is_field_line, name_len};
use crate::reading::is_same_name;
use arch_base::{Bytes, NoMemory};
use std::alloc::Global;
use thiserror::Error;

/// The reason why a message isn't kept.
#[derive(Debug, Drop, PartialEq, Eq, Error)]
pub enum StoredRefusal {
    /// No field of the header stays.
    #[error("no field is left")]
    NoFields,
    /// The message has this number of bytes, which is more than 8,388,608.
    #[error("{0} bytes are too many")]
    TooLarge(u64),
    /// Out of memory.
    #[error("out of memory")]
    NoMemory,
}

impl From<NoMemory> for StoredRefusal {
    ghost use Rattle.std.specs.Prelude.{◌≡◌};
    ghost use Rattle.mail_reader.specs.declared.storing.StoredRefusal.TheVariants.{NoMemory};

    ghost from_gives = { λ _ e. e ≡ NoMemory };

    fn from(_refused: NoMemory) -> StoredRefusal {
        StoredRefusal::NoMemory
    }
}

/// The greatest length of a message that is accepted, in bytes.
const MAX_LEN: usize = 8_388_608;

/// Returns the storage form of a message.
///
/// Every line ends with a line feed, and has no carriage return before it. A mailbox's `From ` line
/// at the front is dropped, and so are the fields `Bytes`, `Lines`, `Content-Length` and `Status`.
/// An empty line separates the header (RFC 5322, section 2.2) from the body.
///
/// `NoFields` if no field stays. `TooLarge`, with the number of bytes, if a field stays and there
/// are more than 8,388,608 bytes. `NoMemory` comes only when out of memory.
pub fn stored(alloc: Global, bytes: &[u8]) -> Result<Bytes, StoredRefusal>
    ensures { GivesStored result (stored bytes.now) }
{
    let mut text = Bytes::new(alloc);
    let rest = keep_fields(&mut text, after_mailbox_line(bytes))?;
    if text.as_slice().is_empty() {
        return Err(StoredRefusal::NoFields);
    }
    if bytes.len() > MAX_LEN {
        return Err(StoredRefusal::TooLarge(bytes.len() as u64));
    }
    text.push(b'\n')?;
    push_lines(&mut text, after_empty_line(rest))?;
    Ok(text)
}

/// Returns the bytes after the line that a mailbox has before a message, if they start with one.
pub(crate) fn after_mailbox_line(bytes: &[u8]) -> &[u8]
    ensures { clean_lines result.now ≡ after_mailbox_line (clean_lines bytes.now) }
{
    if bytes.is_empty() {
        return bytes;
    }
    let line = first_line(bytes);
    if is_mailbox_line(line.content) {
        line.rest
    } else {
        bytes
    }
}

/// Returns whether a line is one that a mailbox has between messages.
fn is_mailbox_line(content: &[u8]) -> bool
    ensures { result ≡ is_mailbox_line (content.now ++ 10 ∷ []) }
{
    content.starts_with(b"From ")
}

/// Where a line of a header is: before the first field, in a field that is kept, or in one that is
/// dropped.
#[derive(Clone, Copy, Drop)]
pub(crate) enum Place {
    Start,
    Kept,
    Dropped,
}

impl Place {
    /// Returns the place of the next line, after a line at this place. `None` if that line is after
    /// the header.
    pub(crate) fn next(self, content: &[u8]) -> Option<Place>
        ensures { result ≡ next_place self (content.now ++ 10 ∷ []) }
    {
        if is_field_line(content) {
            if is_dropped(content) {
                Some(Place::Dropped)
            } else {
                Some(Place::Kept)
            }
        } else if is_continuation(content) {
            match self {
                Place::Start => None,
                Place::Kept | Place::Dropped => Some(self),
            }
        } else {
            None
        }
    }
}

/// Returns whether a field line starts a field that is dropped.
fn is_dropped(content: &[u8]) -> bool
    requires { is_field_line content.now ≡ true }
    ensures { result ≡ is_dropped (content.now ++ 10 ∷ []) }
{
    let name = &content[..name_len(content)];
    is_same_name(name, b"Bytes")
        || is_same_name(name, b"Lines")
        || is_same_name(name, b"Content-Length")
        || is_same_name(name, b"Status")
}

/// Appends the fields that stay to a text, and returns the bytes after the header.
fn keep_fields<'a>(text: &mut Bytes, bytes: &'a [u8]) -> Result<&'a [u8], NoMemory>
    ensures fields { OnOk result (text.new
        ≡ text.old ++ concat (kept_fields (clean_lines bytes.now))) }
    ensures rest { IfOk result (λ rest. clean_lines rest.now ≡ after_header (clean_lines bytes.now)) }
{
    let mut rest = bytes;
    let mut place = Place::Start;
    while !rest.is_empty() {
        let line = first_line(rest);
        match place.next(line.content) {
            None => return Ok(rest),
            Some(next) => place = next,
        }
        if matches!(place, Place::Kept) {
            push_line(text, line.content)?;
        }
        rest = line.rest;
    }
    Ok(rest)
}

/// Appends a line to a text.
fn push_line(text: &mut Bytes, content: &[u8]) -> Result<(), NoMemory>
    ensures { OnOk result (text.new ≡ text.old ++ (content.now ++ 10 ∷ [])) }
{
    text.push_slice(content)?;
    text.push(b'\n')
}

/// Returns the bytes after an empty line, if the first line is empty.
pub(crate) fn after_empty_line(bytes: &[u8]) -> &[u8]
    ensures { clean_lines result.now ≡ after_empty (clean_lines bytes.now) }
{
    if bytes.is_empty() {
        return bytes;
    }
    let line = first_line(bytes);
    if line.content.is_empty() {
        line.rest
    } else {
        bytes
    }
}

/// Appends the lines of a message to a text.
fn push_lines(text: &mut Bytes, bytes: &[u8]) -> Result<(), NoMemory>
    ensures { OnOk result (text.new ≡ text.old ++ concat (clean_lines bytes.now)) }
{
    let mut rest = bytes;
    while !rest.is_empty() {
        let line = first_line(rest);
        push_line(text, line.content)?;
        rest = line.rest;
    }
    Ok(())
}
