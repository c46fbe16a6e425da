//! The items of messages that FETCH asks for (RFC 3501, section 7.4.2).
//! Allocates.
ghost use Rattle.std.specs.Prelude.{◌≡◌, ◌++◌, length, take, true, codes, IfOk, OnOk, OnErr};
ghost use Rattle.std.specs.Fmt.{decimal};
ghost use Rattle.mime_parts.specs.Trees.{tree_of};
ghost use Rattle.imap_structure.specs.Envelopes.{envelope_of};
ghost use Rattle.imap_structure.specs.Structures.{structure_of};
ghost use Rattle.imap_items.specs.Sections.{source_of, section_value};
ghost use Rattle.imap_items.specs.Items.{is_some_number, label_of, arrival_text, fact_of, named_whole, item_of, divides};

use crate::days::arrival_bytes;
use crate::labels::label;
use crate::sections::{push_section, push_whole};
use arch_base::{Bytes, NoMemory};
use imap_structure::{push_envelope, push_number, push_structure};
use imap_syntax::{Item, Partial, Section, SectionText};
use mail_forms::Row;
use mime_parts::{Part, Parts, tree};
use std::alloc::Global;

/// Appends an item of a message: its name, a space, and its value. `row` is the row of the text.
///
/// The message is divided into its parts if the item is read off them. Who asks for several items of
/// a message divides it once, and calls [`item_of_parts`]. `NoMemory` if an allocation fails, and the
/// bytes are unchanged.
pub fn item(
    alloc: Global,
    text: &[u8],
    row: &Row,
    item: &Item,
    into: &mut Bytes,
) -> Result<(), NoMemory>
    ensures ok { OnOk result (into.new ≡ into.old ++ item_of text.now row.now item.now) }
    ensures err { OnErr result (into.new ≡ into.old) }
{
    let parts = parts_for(alloc, text, item)?;
    item_of_parts(alloc, text, parts.as_slice(), row, item, into)
}

/// Appends an item of a message whose parts are at hand, as [`item`] does.
///
/// The parts are those that `mime_parts::tree` returns of the text. Where [`divides`] says that the
/// item isn't read off them, they may be any. `NoMemory` if an allocation fails, and the bytes are
/// unchanged.
pub fn item_of_parts(
    alloc: Global,
    text: &[u8],
    parts: &[Part],
    row: &Row,
    item: &Item,
    into: &mut Bytes,
) -> Result<(), NoMemory>
    requires { divides item.now ≡ true → parts.now ≡ tree_of text.now }
    ensures ok { OnOk result (into.new ≡ into.old ++ item_of text.now row.now item.now) }
    ensures err { OnErr result (into.new ≡ into.old) }
{
    let len = into.as_slice().len();
    let pushed = push_item(alloc, text, parts, row, item, into);
    if pushed.is_err() {
        into.truncate(len);
    }
    pushed
}

/// Returns whether an item is read off the parts of a message: its structure, or a section with the
/// number of a part.
pub fn divides(item: &Item) -> bool
    ensures { result ≡ divides item.now }
{
    match item {
        Item::Body | Item::BodyStructure => true,
        Item::Section(section, _) => !section.part.as_slice().is_empty(),
        Item::Flags
        | Item::Uid
        | Item::Size
        | Item::InternalDate
        | Item::Envelope
        | Item::Rfc822
        | Item::Rfc822Header
        | Item::Rfc822Text => false,
    }
}

/// Returns the parts of a text, if an item is read off them.
fn parts_for(alloc: Global, text: &[u8], item: &Item) -> Result<Parts, NoMemory>
    ensures { IfOk result (λ parts. divides item.now ≡ true → parts ≡ tree_of text.now) }
{
    if divides(item) {
        return tree(alloc, text);
    }
    Ok(Parts::new(alloc))
}

/// Appends an item.
///
/// `NoMemory` may leave a part of it appended, after what stood there.
#[tactic(auto, unfolding(crate::specs::Items::item_of))]
fn push_item(
    alloc: Global,
    text: &[u8],
    parts: &[Part],
    row: &Row,
    item: &Item,
    into: &mut Bytes,
) -> Result<(), NoMemory>
    requires { divides item.now ≡ true → parts.now ≡ tree_of text.now }
    ensures ok { OnOk result (into.new ≡ into.old ++ item_of text.now row.now item.now) }
    ensures kept { take (length into.old) into.new ≡ into.old }
{
    match item {
        Item::Flags
        | Item::Uid
        | Item::Size
        | Item::InternalDate
        | Item::Envelope
        | Item::Body
        | Item::BodyStructure => push_fact(alloc, text, parts, row, item, into),
        Item::Rfc822 => push_named(alloc, b"RFC822 ", text, &SectionText::Whole, into),
        Item::Rfc822Header => push_named(
            alloc,
            b"RFC822.HEADER ",
            text,
            &SectionText::Header,
            into,
        ),
        Item::Rfc822Text => push_named(alloc, b"RFC822.TEXT ", text, &SectionText::Text, into),
        Item::Section(section, partial) => {
            push_labelled(alloc, text, parts, section, *partial, into)
        }
    }
}

/// Appends a name, and what a section has of a mail as a whole.
fn push_named(
    alloc: Global,
    name: &[u8],
    text: &[u8],
    what: &SectionText,
    into: &mut Bytes,
) -> Result<(), NoMemory>
    ensures ok { OnOk result (into.new ≡ into.old ++ named_whole name.now text.now what.now) }
    ensures kept { take (length into.old) into.new ≡ into.old }
{
    into.push_slice(name)?;
    push_whole(alloc, text, what, None, into)
}

/// Appends a section with its name.
fn push_labelled(
    alloc: Global,
    text: &[u8],
    parts: &[Part],
    section: &Section,
    partial: Option<Partial>,
    into: &mut Bytes,
) -> Result<(), NoMemory>
    requires { is_some_number section.now.part ≡ true → parts.now ≡ tree_of text.now }
    ensures ok { OnOk result (into.new ≡ into.old ++ (label_of section.now partial
        ++ section_value partial (source_of text.now section.now))) }
    ensures kept { take (length into.old) into.new ≡ into.old }
{
    let name = label(alloc, section, partial)?;
    into.push_slice(name.as_slice())?;
    push_section(alloc, text, parts, section, partial, into)
}

/// Appends an item that has no octets of the message.
fn push_fact(
    alloc: Global,
    text: &[u8],
    parts: &[Part],
    row: &Row,
    item: &Item,
    into: &mut Bytes,
) -> Result<(), NoMemory>
    requires { divides item.now ≡ true → parts.now ≡ tree_of text.now }
    ensures ok { OnOk result (into.new ≡ into.old ++ fact_of text.now row.now item.now) }
    ensures kept { take (length into.old) into.new ≡ into.old }
{
    let made = fact(alloc, text, parts, row, item)?;
    into.push_slice(made.as_slice())
}

/// Returns an item that has no octets of the message, or nothing for any other.
fn fact(
    alloc: Global,
    text: &[u8],
    parts: &[Part],
    row: &Row,
    item: &Item,
) -> Result<Bytes, NoMemory>
    requires { divides item.now ≡ true → parts.now ≡ tree_of text.now }
    ensures { IfOk result (λ made. made ≡ fact_of text.now row.now item.now) }
{
    match item {
        Item::Flags => text_of(alloc, b"FLAGS ()"),
        Item::Uid => numbered(alloc, b"UID ", row.number as u64),
        Item::Size => numbered(alloc, b"RFC822.SIZE ", row.wire),
        Item::InternalDate => arrival(alloc, row.arrived),
        Item::Envelope => envelope(alloc, text),
        Item::Body => structure(alloc, b"BODY ", text, parts),
        Item::BodyStructure => structure(alloc, b"BODYSTRUCTURE ", text, parts),
        Item::Rfc822 | Item::Rfc822Header | Item::Rfc822Text | Item::Section(_, _) => {
            Ok(Bytes::new(alloc))
        }
    }
}

/// Returns bytes in a list of their own.
fn text_of(alloc: Global, bytes: &[u8]) -> Result<Bytes, NoMemory>
    ensures { IfOk result (λ made. made ≡ bytes.now) }
{
    let mut made = Bytes::new(alloc);
    made.push_slice(bytes)?;
    Ok(made)
}

/// Returns a name and a number.
fn numbered(alloc: Global, name: &[u8], number: u64) -> Result<Bytes, NoMemory>
    ensures { IfOk result (λ made. made ≡ name.now ++ decimal number) }
{
    let mut made = text_of(alloc, name)?;
    push_number(alloc, number, &mut made)?;
    Ok(made)
}

/// Returns the arrival of a message.
fn arrival(alloc: Global, secs: u64) -> Result<Bytes, NoMemory>
    ensures { IfOk result (λ made.
        made ≡ codes "INTERNALDATE \"" ++ arrival_text secs ++ codes "\"") }
{
    let mut made = text_of(alloc, b"INTERNALDATE \"")?;
    made.push_slice(&arrival_bytes(secs))?;
    made.push(b'"')?;
    Ok(made)
}

/// Returns the envelope of a message.
fn envelope(alloc: Global, text: &[u8]) -> Result<Bytes, NoMemory>
    ensures { IfOk result (λ made. made ≡ codes "ENVELOPE " ++ envelope_of text.now) }
{
    let mut made = text_of(alloc, b"ENVELOPE ")?;
    push_envelope(alloc, text, &mut made)?;
    Ok(made)
}

/// Returns the structure of a message after a name.
fn structure(alloc: Global, name: &[u8], text: &[u8], parts: &[Part]) -> Result<Bytes, NoMemory>
    requires { parts.now ≡ tree_of text.now }
    ensures { IfOk result (λ made. made ≡ name.now ++ structure_of text.now) }
{
    let mut made = text_of(alloc, name)?;
    push_structure(alloc, text, parts, &mut made)?;
    Ok(made)
}
