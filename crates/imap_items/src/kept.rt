//! What is kept of a message's text while the keys of a command are asked of it.
//! Allocates.
ghost use Rattle.std.specs.Prelude.{◌≡◌, IfOk, IfSome, OnOk};
ghost use Rattle.std.specs.List.{All, list_any};
ghost use Rattle.mail_reader.specs.Values.{flat_of};
ghost use Rattle.imap_items.specs.Searching.{has_piece};
ghost use Rattle.imap_items.specs.Keys.{in_field, in_body, in_text, found_in_header};
ghost use Rattle.imap_items.specs.Kept.{lower_decoded, lower_values, lower_header, lower_body, IsKeptText, IsNamedField};

use crate::searching::{has_piece, into_lower, lower};
use arch_base::{Bytes, NoMemory, Texts};
use mail_forms::{header, wire};
use mail_reader::{fields, flat, is_same_name};
use mime_parts::body_text;
use mime_words::decode;
use std::alloc::Global;

/// Texts of a message in lower case, each made when a key first asks for it.
#[derive(Drop)]
pub(crate) struct Kept {
    /// The header as it is sent.
    header: Option<Bytes>,
    /// The body's text.
    body: Option<Bytes>,
    /// The decoded values of fields, by the names that were asked for.
    fields: Vec<NamedValues>,
}

/// The decoded values of the fields with a name, in lower case.
#[derive(Drop)]
struct NamedValues {
    name: Bytes,
    values: Texts,
}

impl Kept {
    /// Returns a keeper of nothing.
    pub(crate) fn new(alloc: Global, text: &[u8]) -> Kept
        ensures { IsKeptText text.now result }
    {
        Kept {
            header: None,
            body: None,
            fields: Vec::new(alloc),
        }
    }

    /// Returns whether a text is found in the body's text.
    pub(crate) fn in_body(
        &mut self,
        alloc: Global,
        text: &[u8],
        piece: &[u8],
    ) -> Result<bool, NoMemory>
        requires { IsKeptText text.now self.old }
        ensures found { IfOk result (λ found. found ≡ in_body piece.now text.now) }
        ensures kept { OnOk result (IsKeptText text.now self.new) }
    {
        let piece = lower(alloc, piece)?;
        if let Some(body) = &self.body {
            return Ok(has_piece(piece.as_slice(), body.as_slice()));
        }
        let body = lower_body(alloc, text)?;
        let found = has_piece(piece.as_slice(), body.as_slice());
        self.body = Some(body);
        Ok(found)
    }

    /// Returns whether a text is found in the header as it is sent.
    fn in_header(&mut self, alloc: Global, text: &[u8], piece: &[u8]) -> Result<bool, NoMemory>
        requires { IsKeptText text.now self.old }
        ensures found { IfOk result (λ found. found ≡ found_in_header piece.now text.now) }
        ensures kept { OnOk result (IsKeptText text.now self.new) }
    {
        let piece = lower(alloc, piece)?;
        if let Some(header) = &self.header {
            return Ok(has_piece(piece.as_slice(), header.as_slice()));
        }
        let header = lower_header(alloc, text)?;
        let found = has_piece(piece.as_slice(), header.as_slice());
        self.header = Some(header);
        Ok(found)
    }

    /// Returns whether a text is found in the header as it is sent, or in the body's text.
    pub(crate) fn in_text(
        &mut self,
        alloc: Global,
        text: &[u8],
        piece: &[u8],
    ) -> Result<bool, NoMemory>
        requires { IsKeptText text.now self.old }
        ensures found { IfOk result (λ found. found ≡ in_text piece.now text.now) }
        ensures kept { OnOk result (IsKeptText text.now self.new) }
    {
        if self.in_header(alloc, text, piece)? {
            return Ok(true);
        }
        self.in_body(alloc, text, piece)
    }

    /// Returns whether a text is found in one of the fields with a name, unfolded and decoded.
    pub(crate) fn in_field(
        &mut self,
        alloc: Global,
        text: &[u8],
        name: &[u8],
        piece: &[u8],
    ) -> Result<bool, NoMemory>
        requires { IsKeptText text.now self.old }
        ensures found { IfOk result (λ found. found ≡ in_field name.now piece.now text.now) }
        ensures kept { OnOk result (IsKeptText text.now self.new) }
    {
        let piece = lower(alloc, piece)?;
        if let Some(values) = values_of(self.fields.as_slice(), text, name) {
            return Ok(is_in_one(piece.as_slice(), values));
        }
        let named = NamedValues {
            name: copied(alloc, name)?,
            values: lower_values(alloc, text, name)?,
        };
        let found = is_in_one(piece.as_slice(), named.values.as_slice());
        self.fields.push(named)?;
        Ok(found)
    }
}

/// Returns the values that are kept of a name, if it was asked for before.
fn values_of<'a>(kept: &'a [NamedValues], text: &[u8], name: &[u8]) -> Option<&'a [Bytes]>
    requires { All (IsNamedField text.now) kept.now }
    ensures { IfSome result (λ values. values.now ≡ lower_values name.now text.now) }
{
    for named in kept {
        if named.name.as_slice() == name {
            return Some(named.values.as_slice());
        }
    }
    None
}

/// Returns whether one of these values has a text in it.
fn is_in_one(piece: &[u8], values: &[Bytes]) -> bool
    ensures { result ≡ list_any (has_piece piece.now) values.now }
{
    values
        .iter()
        .any(|value| has_piece(piece, value.as_slice()))
}

/// Returns the values of the fields with a name, decoded and in lower case.
fn lower_values(alloc: Global, text: &[u8], name: &[u8]) -> Result<Texts, NoMemory>
    ensures { IfOk result (λ values. values ≡ lower_values name.now text.now) }
{
    let mut values = Texts::new(alloc);
    for field in fields(text) {
        if is_same_name(field.name, name) {
            values.push(lower_value(alloc, field.value)?)?;
        }
    }
    Ok(values)
}

/// Returns the value of a field, unfolded, decoded and in lower case.
fn lower_value(alloc: Global, value: &[u8]) -> Result<Bytes, NoMemory>
    ensures { IfOk result (λ made. made ≡ lower_decoded (flat_of value.now)) }
{
    let value = flat(alloc, value)?;
    let value = decode(alloc, value.as_slice())?;
    Ok(into_lower(value))
}

/// Returns the header as it is sent, in lower case.
fn lower_header(alloc: Global, text: &[u8]) -> Result<Bytes, NoMemory>
    ensures { IfOk result (λ made. made ≡ lower_header text.now) }
{
    let mut made = Bytes::new(alloc);
    wire(header(text), &mut made)?;
    Ok(into_lower(made))
}

/// Returns the body's text in lower case.
fn lower_body(alloc: Global, text: &[u8]) -> Result<Bytes, NoMemory>
    ensures { IfOk result (λ made. made ≡ lower_body text.now) }
{
    let body = body_text(alloc, text)?;
    Ok(into_lower(body))
}

/// Returns a copy of bytes.
fn copied(alloc: Global, bytes: &[u8]) -> Result<Bytes, NoMemory>
    ensures { IfOk result (λ made. made ≡ bytes.now) }
{
    let mut made = Bytes::new(alloc);
    made.push_slice(bytes)?;
    Ok(made)
}
