//! Reads the type that a Content-Type field names.
//! Allocates.
ghost use Rattle.std.specs.Prelude.{◌≡◌, ◌<◌, length, IfOk};
ghost use Rattle.mime_parts.specs.Lexemes.{lexemes_of};
ghost use Rattle.mime_parts.specs.ContentTypes.{type_in, type_after, is_type, default_type, opaque_type};
ghost use Rattle.mime_parts.specs.Reading.{IsFirstToken, IsAfterSlash, IsTypeFront, shown_front};

use crate::lexemes::{Lexeme, Mark, first_lexeme};
use crate::params::{copied, lower, read_params};
use arch_base::{Bytes, NoMemory, Texts};
use std::alloc::Global;

/// The type of an entity (RFC 2045, section 5). Its names are in lower case.
#[derive(Drop)]
pub(crate) struct ContentType {
    pub(crate) major: Bytes,
    pub(crate) minor: Bytes,
    /// Name, value, name, value.
    pub(crate) params: Texts,
}

impl ContentType {
    /// Returns whether the type is this one, ignoring case.
    pub(crate) fn is(&self, major: &[u8], minor: &[u8]) -> bool
        ensures { result ≡ is_type self.now major.now minor.now }
    {
        self.major.as_slice().eq_ignore_ascii_case(major)
            && self.minor.as_slice().eq_ignore_ascii_case(minor)
    }

    /// Returns the type of an entity that names none that can be read.
    ///
    /// `digest` says whether the entity is a direct part of a digest.
    pub(crate) fn default_for(alloc: Global, digest: bool) -> Result<ContentType, NoMemory>
        ensures { IfOk result (λ made. made ≡ default_type digest) }
    {
        if digest {
            named(alloc, b"message", b"rfc822", Texts::new(alloc))
        } else {
            named(alloc, b"text", b"plain", Texts::new(alloc))
        }
    }

    /// Returns the type of an entity of this type that isn't divided further.
    pub(crate) fn opaque(self, alloc: Global) -> Result<ContentType, NoMemory>
        ensures { IfOk result (λ made. made ≡ opaque_type self) }
    {
        let ContentType {
            major: _major,
            minor: _minor,
            params,
        } = self;
        named(alloc, b"application", b"octet-stream", params)
    }
}

/// Returns the type with these names and parameters.
fn named(alloc: Global, major: &[u8], minor: &[u8], params: Texts) -> Result<ContentType, NoMemory>
    ensures { IfOk result (λ made.
        made ≡ record { major = major.now; minor = minor.now; params = params }) }
{
    Ok(ContentType {
        major: copied(alloc, major)?,
        minor: copied(alloc, minor)?,
        params,
    })
}

/// The front of a value: the names of a type, and the bytes after them.
#[derive(Clone, Copy, Drop)]
pub(crate) struct Front<'a> {
    pub(crate) major: &'a [u8],
    pub(crate) minor: &'a [u8],
    pub(crate) rest: &'a [u8],
}

/// Returns the type that a flat value names (RFC 2045, section 5.1).
///
/// `None` if the value is anything else than a type and its parameters. The only error is
/// `NoMemory`.
pub(crate) fn read_type(alloc: Global, value: &[u8]) -> Result<Option<ContentType>, NoMemory>
    ensures { IfOk result (λ found. found ≡ type_in value.now) }
{
    match split_front(value) {
        Some(front) => read_front(alloc, front),
        None => Ok(None),
    }
}

/// Returns the type with this front.
fn read_front(alloc: Global, front: Front<'_>) -> Result<Option<ContentType>, NoMemory>
    ensures { IfOk result (λ found. found ≡ type_after (shown_front front.entry)) }
{
    match read_params(alloc, front.rest)? {
        Some(params) => Ok(Some(ContentType {
            major: lower(alloc, front.major)?,
            minor: lower(alloc, front.minor)?,
            params,
        })),
        None => Ok(None),
    }
}

/// Returns the names of the type at the front of a value, and the bytes after them.
fn split_front(value: &[u8]) -> Option<Front<'_>>
    ensures { IsTypeFront value.now result }
{
    let (major, rest) = split_token(value)?;
    let rest = after_slash(rest)?;
    let (minor, rest) = split_token(rest)?;
    Some(Front { major, minor, rest })
}

/// Returns the token at the front of a value, and the bytes after it.
pub(crate) fn split_token(value: &[u8]) -> Option<(&[u8], &[u8])>
    ensures { IsFirstToken value.now result }
{
    match first_lexeme(value) {
        Some((Lexeme::Token(token), rest)) => Some((token, rest)),
        _ => None,
    }
}

/// Returns the bytes after the slash at the front of a value.
fn after_slash(value: &[u8]) -> Option<&[u8]>
    ensures { IsAfterSlash value.now result }
{
    match first_lexeme(value) {
        Some((Lexeme::Mark(Mark::Slash), rest)) => Some(rest),
        _ => None,
    }
}
