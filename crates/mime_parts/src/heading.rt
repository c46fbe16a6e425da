//! Reads what the header of an entity says of its body.
//! Allocates.
ghost use Rattle.std.specs.Prelude.{◌≡◌, length, take, codes, IfOk, option_and_then};
ghost use Rattle.std.specs.Str.{str_eq_ignore_ascii_case};
ghost use Rattle.mail_reader.specs.Fields.{fields_of};
ghost use Rattle.mail_reader.specs.Reading.{shown};
ghost use Rattle.mime_parts.specs.Headings.{heading_of, flat_first, lower_token, type_of, encoding_name_of, encoding_of, is_attachment, shape_of, is_identity, is_digest, opaque_heading};
ghost use Rattle.std.specs.List.{list_any};
ghost use Rattle.mime_parts.specs.ContentTypes.{type_in};

use crate::content_type::{ContentType, read_type, split_token};
use crate::params::{copied, is_same_name, lower};
use crate::part::{Encoding, Shape};
use arch_base::{Bytes, NoMemory};
use mail_reader::{Field, fields, first_value, flat};
use std::alloc::Global;

/// What the header of an entity says of its body.
#[derive(Drop)]
pub(crate) struct Heading {
    pub(crate) content_type: ContentType,
    /// The name of its encoding, in lower case.
    pub(crate) encoding_name: Bytes,
    /// Whether it is an attachment.
    pub(crate) attached: bool,
}

impl Heading {
    /// Reads the heading of an entity with these bytes.
    ///
    /// `digest` says whether the entity is a direct part of a digest. The only error is `NoMemory`.
    #[tactic(auto, unfolding(crate::specs::Headings::heading_of))]
    pub(crate) fn read(alloc: Global, digest: bool, bytes: &[u8]) -> Result<Heading, NoMemory>
        ensures { IfOk result (λ heading. heading ≡ heading_of digest bytes.now) }
    {
        Ok(Heading {
            content_type: type_of(alloc, digest, bytes)?,
            encoding_name: encoding_name_of(alloc, bytes)?,
            attached: is_attached(alloc, bytes)?,
        })
    }

    /// Returns what the entity is, if it is divided.
    pub(crate) fn shape(&self) -> Shape
        ensures { result ≡ shape_of self.now }
    {
        if self
            .content_type
            .major
            .as_slice()
            .eq_ignore_ascii_case(b"multipart")
        {
            Shape::Multipart
        } else if self.content_type.is(b"message", b"rfc822")
            && is_identity(self.encoding_name.as_slice())
        {
            Shape::Message
        } else {
            Shape::Leaf
        }
    }

    /// Returns whether the entity is a digest.
    pub(crate) fn is_digest(&self) -> bool
        ensures { result ≡ is_digest self.now }
    {
        self.content_type.is(b"multipart", b"digest")
    }

    /// Returns the heading if the entity isn't divided further.
    pub(crate) fn opaque(self, alloc: Global) -> Result<Heading, NoMemory>
        ensures { IfOk result (λ made. made ≡ opaque_heading self) }
    {
        let Heading {
            content_type,
            encoding_name,
            attached,
        } = self;
        Ok(Heading {
            content_type: content_type.opaque(alloc)?,
            encoding_name,
            attached,
        })
    }
}

/// Returns the encoding with a name.
pub(crate) fn encoding_of(name: &[u8]) -> Encoding
    ensures { result ≡ encoding_of name.now }
{
    if name.eq_ignore_ascii_case(b"base64") {
        Encoding::Base64
    } else if name.eq_ignore_ascii_case(b"quoted-printable") {
        Encoding::Quoted
    } else {
        Encoding::Plain
    }
}

/// Returns whether an encoding leaves the bytes as they are.
fn is_identity(name: &[u8]) -> bool
    ensures { result ≡ is_identity name.now }
{
    name.eq_ignore_ascii_case(b"7bit")
        || name.eq_ignore_ascii_case(b"8bit")
        || name.eq_ignore_ascii_case(b"binary")
}

/// Returns the type of an entity, which is the default if its header names none that can be read.
fn type_of(alloc: Global, digest: bool, bytes: &[u8]) -> Result<ContentType, NoMemory>
    ensures { IfOk result (λ made. made ≡ type_of digest bytes.now) }
{
    match named_type(alloc, bytes)? {
        Some(named) => Ok(named),
        None => ContentType::default_for(alloc, digest),
    }
}

/// Returns the type that the header of an entity names.
fn named_type(alloc: Global, bytes: &[u8]) -> Result<Option<ContentType>, NoMemory>
    ensures { IfOk result (λ found.
        found ≡ option_and_then type_in (flat_first (codes "Content-Type") bytes.now)) }
{
    match first_value(bytes, b"Content-Type") {
        Some(value) => {
            let flat_value = flat(alloc, value)?;
            read_type(alloc, flat_value.as_slice())
        }
        None => Ok(None),
    }
}

/// Returns the name of an entity's encoding, which is `7bit` if its header names none.
fn encoding_name_of(alloc: Global, bytes: &[u8]) -> Result<Bytes, NoMemory>
    ensures { IfOk result (λ name. name ≡ encoding_name_of bytes.now) }
{
    match named_encoding(alloc, bytes)? {
        Some(name) => Ok(name),
        None => copied(alloc, b"7bit"),
    }
}

/// Returns the name of the encoding that the header of an entity names.
fn named_encoding(alloc: Global, bytes: &[u8]) -> Result<Option<Bytes>, NoMemory>
    ensures { IfOk result (λ found. found
        ≡ option_and_then lower_token (flat_first (codes "Content-Transfer-Encoding") bytes.now)) }
{
    match first_value(bytes, b"Content-Transfer-Encoding") {
        Some(value) => {
            let flat_value = flat(alloc, value)?;
            lower_token(alloc, flat_value.as_slice())
        }
        None => Ok(None),
    }
}

/// Returns the token at the front of a flat value, in lower case.
fn lower_token(alloc: Global, value: &[u8]) -> Result<Option<Bytes>, NoMemory>
    ensures { IfOk result (λ found. found ≡ lower_token value.now) }
{
    match split_token(value) {
        Some((token, _)) => Ok(Some(lower(alloc, token)?)),
        None => Ok(None),
    }
}

/// Returns whether an entity is an attachment by its header.
fn is_attached(alloc: Global, bytes: &[u8]) -> Result<bool, NoMemory>
    ensures { IfOk result (λ attached. attached ≡ list_any is_attachment (fields_of bytes.now)) }
{
    for field in fields(bytes) {
        if is_attachment(alloc, field)? {
            return Ok(true);
        }
    }
    Ok(false)
}

/// Returns whether a field says that its entity is an attachment.
fn is_attachment(alloc: Global, field: Field<'_>) -> Result<bool, NoMemory>
    ensures { IfOk result (λ attached. attached ≡ is_attachment (shown field.entry)) }
{
    if !is_same_name(field.name, b"Content-Disposition") {
        return Ok(false);
    }
    let value = flat(alloc, field.value)?;
    Ok(begins_with(value.as_slice(), b"attachment"))
}

/// Returns whether bytes begin with a word, ignoring case.
fn begins_with(bytes: &[u8], word: &[u8]) -> bool
    ensures { result ≡ str_eq_ignore_ascii_case (take (length word.now) bytes.now) word.now }
{
    let len = word.len().min(bytes.len());
    is_same_name(bytes.split_at(len).0, word)
}
