//! The octets of sections (RFC 3501, section 6.4.5).
//! Allocates.
ghost use Rattle.std.specs.Prelude.{◌≡◌, ◌++◌, length, take, OnOk, true, option_map};
ghost use Rattle.mime_parts.specs.Trees.{tree_of};
ghost use Rattle.imap_structure.specs.Forests.{forest_of, split_at};
ghost use Rattle.imap_items.specs.Sections.{source_in, source_of, section_value, place_at, mail_with, whole_mail, of_message};
ghost use Rattle.imap_items.specs.Items.{is_some_number};
ghost use Rattle.imap_items.specs.Finding.{shown_place};

use crate::header_fields::{picked_fields, whole_header, with_line};
use crate::octets::push_octets;
use crate::places::{Place, place_at};
use arch_base::{Bytes, NoMemory};
use imap_syntax::{Partial, Section, SectionText};
use mail_reader::body;
use mime_parts::{Part, Shape, parts_are_a_tree};
use std::alloc::Global;

/// Appends what a section has of a mail, of which these are the parts if the section has numbers.
///
/// `NoMemory` may leave a part of it appended, after what stood there.
pub(crate) fn push_section(
    alloc: Global,
    text: &[u8],
    parts: &[Part],
    section: &Section,
    partial: Option<Partial>,
    into: &mut Bytes,
) -> Result<(), NoMemory>
    requires { is_some_number section.now.part ≡ true → parts.now ≡ tree_of text.now }
    ensures ok { OnOk result
        (into.new ≡ into.old ++ section_value partial (source_of text.now section.now)) }
    ensures kept { take (length into.old) into.new ≡ into.old }
{
    let numbers = section.part.as_slice();
    if numbers.is_empty() {
        return push_whole(alloc, text, &section.text, partial, into);
    }
    push_numbered(alloc, text, parts, section, partial, into)
}

/// Appends what a section has of the part of a mail to which its numbers lead.
fn push_numbered(
    alloc: Global,
    text: &[u8],
    parts: &[Part],
    section: &Section,
    partial: Option<Partial>,
    into: &mut Bytes,
) -> Result<(), NoMemory>
    requires { parts.now ≡ tree_of text.now }
    ensures ok { OnOk result
        (into.new ≡ into.old ++ section_value partial (source_of text.now section.now)) }
    ensures kept { take (length into.old) into.new ≡ into.old }
{
    match numbered(text, parts, section.part.as_slice()) {
        Some(place) => push_at(alloc, place, &section.text, partial, into),
        None => into.push_slice(b"NIL"),
    }
}

/// Returns the part of a mail to which numbers lead.
fn numbered<'a>(text: &'a [u8], parts: &'a [Part], numbers: &[u32]) -> Option<Place<'a>>
    requires { parts.now ≡ tree_of text.now }
    ensures { option_map shown_place result ≡ place_at text.now numbers.now (whole_mail text.now) }
{
    parts_are_a_tree();
    place_at(text, numbers, whole_mail(text, parts))
}

/// Returns a mail with these parts, as the body of a message part without a header.
fn whole_mail<'a>(text: &'a [u8], parts: &'a [Part]) -> Place<'a>
    ensures place { shown_place result
        ≡ mail_with text.now (split_at 0 (forest_of parts.now)).deeper }
    ensures after { result.after.now ≡ parts.now }
{
    Place {
        shape: Shape::Message,
        header: &[],
        body: text,
        depth: 0,
        after: parts,
    }
}

/// Appends what a section without numbers has of a mail.
///
/// `NoMemory` may leave a part of it appended, after what stood there.
pub(crate) fn push_whole(
    alloc: Global,
    text: &[u8],
    what: &SectionText,
    partial: Option<Partial>,
    into: &mut Bytes,
) -> Result<(), NoMemory>
    ensures ok { OnOk result (into.new
        ≡ into.old ++ section_value partial (source_in what.now (whole_mail text.now))) }
    ensures kept { take (length into.old) into.new ≡ into.old }
{
    push_at(alloc, whole_mail(text, &[]), what, partial, into)
}

/// Appends what a section has of a place.
fn push_at(
    alloc: Global,
    place: Place<'_>,
    what: &SectionText,
    partial: Option<Partial>,
    into: &mut Bytes,
) -> Result<(), NoMemory>
    ensures ok { OnOk result (into.new
        ≡ into.old ++ section_value partial (source_in what.now (shown_place place.entry))) }
    ensures kept { take (length into.old) into.new ≡ into.old }
{
    match what {
        SectionText::Whole => push_octets(alloc, place.body, partial, into),
        SectionText::Header => {
            let bytes = whole_header(alloc, place.body)?;
            push_of_message(alloc, place.shape, bytes.as_slice(), partial, into)
        }
        SectionText::Fields(names) => {
            let bytes = picked_fields(alloc, names.as_slice(), true, place.body)?;
            push_of_message(alloc, place.shape, bytes.as_slice(), partial, into)
        }
        SectionText::FieldsNot(names) => {
            let bytes = picked_fields(alloc, names.as_slice(), false, place.body)?;
            push_of_message(alloc, place.shape, bytes.as_slice(), partial, into)
        }
        SectionText::Text => push_of_message(alloc, place.shape, body(place.body), partial, into),
        SectionText::Mime => {
            let bytes = with_line(alloc, place.header)?;
            push_octets(alloc, bytes.as_slice(), partial, into)
        }
    }
}

/// Appends the octets of bytes of a message, or `NIL` if the shape is another.
fn push_of_message(
    alloc: Global,
    shape: Shape,
    bytes: &[u8],
    partial: Option<Partial>,
    into: &mut Bytes,
) -> Result<(), NoMemory>
    ensures ok { OnOk result
        (into.new ≡ into.old ++ section_value partial (of_message shape bytes.now)) }
    ensures kept { take (length into.old) into.new ≡ into.old }
{
    match shape {
        Shape::Message => push_octets(alloc, bytes, partial, into),
        Shape::Leaf | Shape::Multipart => into.push_slice(b"NIL"),
    }
}
