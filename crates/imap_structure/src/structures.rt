//! The structure of a mail's parts (RFC 3501, section 7.4.2, BODY).
//! Allocates.
ghost use Rattle.std.specs.Prelude.{◌≡◌, ◌++◌, OnOk};
ghost use Rattle.std.specs.Borrow.{Bor};
ghost use Rattle.std.specs.List.{All};
ghost use Rattle.std.specs.Str.{str_eq_ignore_ascii_case};
ghost use Rattle.mime_parts.specs.declared.part.Part.{Part as PartText};
ghost use Rattle.mime_parts.specs.declared.part.Shape.TheVariants.{Leaf, Message, Multipart};
ghost use Rattle.mime_parts.specs.Trees.{IsIn, IsPartOf, bytes_at, tree_of};
ghost use Rattle.imap_structure.specs.Forests.{forest_of};
ghost use Rattle.imap_structure.specs.Structures.{is_mail, told_major, told_minor, type_facts, name_facts, size_facts, facts_of, lines_text, leaf_lines, opening_by, opening_of, closing_of, structure, structure_of};
ghost use Rattle.imap_structure.specs.Opened.{open_parts, PartsClosed, PartOpened};

use crate::envelopes::{push_envelope, push_field_text};
use crate::numbers::push_number;
use crate::strings::{push_string, push_strings};
use arch_base::{Bytes, NoMemory};
use mail_forms::{line_feeds, wire_len};
use mime_parts::{Part, Shape, Span, parts_are_a_tree};
use std::alloc::Global;

/// Appends the structure of a mail, of which these are the parts.
///
/// Of a multipart it tells its parts and its subtype, of any other part its type with its parameters,
/// its id, its description, its encoding and the number of octets of its body as it is sent. After
/// that come the number of lines of a text, and of a message its envelope, its own structure and the
/// number of its lines. A message that is encoded is told as `application/octet-stream`. Each part is
/// looked at once, and nothing is called by itself. `NoMemory` if an allocation fails. It may leave
/// a part of the structure appended.
#[tactic(auto, unfolding(crate::specs::Structures::structure_of))]
pub fn push_structure(
    alloc: Global,
    text: &[u8],
    parts: &[Part],
    into: &mut Bytes,
) -> Result<(), NoMemory>
    requires { parts.now ≡ tree_of text.now }
    ensures { OnOk result (into.new ≡ into.old ++ structure_of text.now) }
{
    parts_are_a_tree();
    push_parts(alloc, text, parts, into)
}

/// Appends the structure of parts, one after another.
fn push_parts(alloc: Global, text: &[u8], parts: &[Part], into: &mut Bytes) -> Result<(), NoMemory>
    requires { All (IsPartOf text.now) parts.now }
    ensures { OnOk result (into.new ≡ into.old ++ structure text.now (forest_of parts.now)) }
{
    let mut opened = Vec::new(alloc);
    for part in parts {
        open_part(alloc, text, part, &mut opened, into)?;
    }
    close_parts(alloc, text, 0, &mut opened, into)
}

/// Opens a part, after those that end before it are closed.
fn open_part<'a>(
    alloc: Global,
    text: &[u8],
    part: &'a Part,
    opened: &mut Vec<&'a Part>,
    into: &mut Bytes,
) -> Result<(), NoMemory>
    requires within { IsPartOf text.now part.now }
    requires others { All (λ (p : Bor PartText). IsPartOf text.now p.now) opened.old.items }
    ensures ok { OnOk result (PartOpened text.now part.now
        (open_parts opened.old.items) into.old (open_parts opened.new.items) into.new) }
    ensures others { OnOk result
        (All (λ (p : Bor PartText). IsPartOf text.now p.now) opened.new.items) }
{
    close_parts(alloc, text, part.depth, opened, into)?;
    push_opening(alloc, text, part, into)?;
    opened.push(part)?;
    Ok(())
}

/// Closes the parts that end before a part at a depth.
fn close_parts(
    alloc: Global,
    text: &[u8],
    depth: u8,
    opened: &mut Vec<&Part>,
    into: &mut Bytes,
) -> Result<(), NoMemory>
    requires { All (λ (p : Bor PartText). IsPartOf text.now p.now) opened.old.items }
    ensures ok { OnOk result (PartsClosed text.now depth
        (open_parts opened.old.items) into.old (open_parts opened.new.items) into.new) }
    ensures others { OnOk result
        (All (λ (p : Bor PartText). IsPartOf text.now p.now) opened.new.items) }
{
    while let Some(part) = opened.pop() {
        if part.depth < depth {
            opened.push(part)?;
            return Ok(());
        }
        push_closing(alloc, text, part, into)?;
    }
    Ok(())
}

/// Appends what stands before the parts of a part.
fn push_opening(alloc: Global, text: &[u8], part: &Part, into: &mut Bytes) -> Result<(), NoMemory>
    requires { IsPartOf text.now part.now }
    ensures { OnOk result (into.new ≡ into.old ++ opening_of text.now part.now) }
{
    match part.shape {
        Shape::Leaf => push_leaf(alloc, text, part, into),
        Shape::Message => push_message(alloc, text, part, into),
        Shape::Multipart => into.push(b'('),
    }
}

/// Appends what is told of a leaf.
fn push_leaf(alloc: Global, text: &[u8], part: &Part, into: &mut Bytes) -> Result<(), NoMemory>
    requires { IsPartOf text.now part.now }
    ensures { OnOk result (into.new ≡ into.old ++ opening_by Leaf text.now part.now) }
{
    push_leaf_facts(alloc, text, part, into)?;
    push_leaf_lines(alloc, text, part, into)?;
    into.push(b')')
}

/// Appends what is told of a leaf, as of each part that isn't a multipart.
fn push_leaf_facts(
    alloc: Global,
    text: &[u8],
    part: &Part,
    into: &mut Bytes,
) -> Result<(), NoMemory>
    requires { IsPartOf text.now part.now }
    ensures { OnOk result (into.new ≡ into.old
        ++ facts_of (told_major part.now) (told_minor part.now) text.now part.now) }
{
    if is_mail(part) {
        return push_facts(alloc, b"application", b"octet-stream", text, part, into);
    }
    push_facts(
        alloc,
        part.major.as_slice(),
        part.minor.as_slice(),
        text,
        part,
        into,
    )
}

/// Appends what is told of a message before its own structure.
fn push_message(alloc: Global, text: &[u8], part: &Part, into: &mut Bytes) -> Result<(), NoMemory>
    requires { IsPartOf text.now part.now }
    ensures { OnOk result (into.new ≡ into.old ++ opening_by Message text.now part.now) }
{
    push_facts(
        alloc,
        part.major.as_slice(),
        part.minor.as_slice(),
        text,
        part,
        into,
    )?;
    into.push(b' ')?;
    push_envelope(alloc, bytes_at(text, part.body), into)?;
    into.push(b' ')
}

/// Appends what stands after the parts of a part.
fn push_closing(alloc: Global, text: &[u8], part: &Part, into: &mut Bytes) -> Result<(), NoMemory>
    requires { IsPartOf text.now part.now }
    ensures { OnOk result (into.new ≡ into.old ++ closing_of text.now part.now) }
{
    match part.shape {
        Shape::Leaf => Ok(()),
        Shape::Message => {
            push_lines(alloc, text, part, into)?;
            into.push(b')')
        }
        Shape::Multipart => {
            into.push(b' ')?;
            push_string(alloc, part.minor.as_slice(), into)?;
            into.push(b')')
        }
    }
}

/// Returns whether a part is of type `message/rfc822`.
fn is_mail(part: &Part) -> bool
    ensures { result ≡ is_mail part.now }
{
    part.major.as_slice().eq_ignore_ascii_case(b"message")
        && part.minor.as_slice().eq_ignore_ascii_case(b"rfc822")
}

/// Appends what is told of each part that isn't a multipart.
fn push_facts(
    alloc: Global,
    major: &[u8],
    minor: &[u8],
    text: &[u8],
    part: &Part,
    into: &mut Bytes,
) -> Result<(), NoMemory>
    requires { IsPartOf text.now part.now }
    ensures { OnOk result (into.new ≡ into.old ++ facts_of major.now minor.now text.now part.now) }
{
    into.push(b'(')?;
    push_type(alloc, major, minor, part, into)?;
    into.push(b' ')?;
    push_names(alloc, text, part, into)?;
    into.push(b' ')?;
    push_size(alloc, text, part, into)
}

/// Appends a type with the parameters of a part.
#[tactic(auto, unfolding(crate::specs::Structures::type_facts))]
fn push_type(
    alloc: Global,
    major: &[u8],
    minor: &[u8],
    part: &Part,
    into: &mut Bytes,
) -> Result<(), NoMemory>
    ensures { OnOk result (into.new ≡ into.old ++ type_facts major.now minor.now part.now) }
{
    push_string(alloc, major, into)?;
    into.push(b' ')?;
    push_string(alloc, minor, into)?;
    into.push(b' ')?;
    push_strings(alloc, part.params.as_slice(), into)
}

/// Appends the id and the description of a part.
#[tactic(auto, unfolding(crate::specs::Structures::name_facts))]
fn push_names(alloc: Global, text: &[u8], part: &Part, into: &mut Bytes) -> Result<(), NoMemory>
    requires { IsPartOf text.now part.now }
    ensures { OnOk result (into.new ≡ into.old ++ name_facts text.now part.now) }
{
    let header = bytes_at(text, part.header);
    push_field_text(alloc, header, b"Content-ID", into)?;
    into.push(b' ')?;
    push_field_text(alloc, header, b"Content-Description", into)
}

/// Appends the encoding of a part, and the number of octets of its body as it is sent.
#[tactic(auto, unfolding(crate::specs::Structures::size_facts))]
fn push_size(alloc: Global, text: &[u8], part: &Part, into: &mut Bytes) -> Result<(), NoMemory>
    requires { IsPartOf text.now part.now }
    ensures { OnOk result (into.new ≡ into.old ++ size_facts text.now part.now) }
{
    push_string(alloc, part.encoding_name.as_slice(), into)?;
    into.push(b' ')?;
    push_number(alloc, wire_len(bytes_at(text, part.body)), into)
}

/// Appends the number of lines of a part's body, after a space.
fn push_lines(alloc: Global, text: &[u8], part: &Part, into: &mut Bytes) -> Result<(), NoMemory>
    requires { IsPartOf text.now part.now }
    ensures { OnOk result (into.new ≡ into.old ++ lines_text text.now part.now) }
{
    into.push(b' ')?;
    push_number(alloc, line_feeds(bytes_at(text, part.body)), into)
}

/// Appends the number of lines of a leaf, if it is text.
fn push_leaf_lines(
    alloc: Global,
    text: &[u8],
    part: &Part,
    into: &mut Bytes,
) -> Result<(), NoMemory>
    requires { IsPartOf text.now part.now }
    ensures { OnOk result (into.new ≡ into.old ++ leaf_lines text.now part.now) }
{
    if part.major.as_slice().eq_ignore_ascii_case(b"text") {
        push_lines(alloc, text, part, into)
    } else {
        Ok(())
    }
}

/// Returns the bytes of a span.
fn bytes_at(text: &[u8], span: Span) -> &[u8]
    requires { IsIn text.now span }
    ensures { result.now ≡ bytes_at text.now span }
{
    &text[span.start as usize..span.end as usize]
}
