//! Visits the entities of a mail, each before its parts.
//! Allocates.
ghost use Rattle.std.specs.Prelude.{◌≡◌, ◌+◌, ◌-◌, ◌<◌, ◌≤◌, ◌++◌, ◌∷◌, [], false, map, reverse, length, vec_len, IfOk, OnOk};
ghost use Rattle.std.specs.List.{All};
ghost use Rattle.mail_reader.specs.Fields.{fields_of};
ghost use Rattle.mail_reader.specs.Laws.{wholes};
ghost use Rattle.mime_parts.specs.Headings.{shape_of};
ghost use Rattle.mime_parts.specs.Dividing.{at_most};
ghost use Rattle.mime_parts.specs.Delimiters.{span_of};
ghost use Rattle.mime_parts.specs.Trees.{max_count, IsIn, IsPartOf, bytes_at, header_span, body_span, divided, part_with, part_by, is_opaque, tree_of};
ghost use Rattle.mime_parts.specs.Visiting.{known, Visits, entity_at, found_below};

use crate::content_type::ContentType;
use crate::delimiters::{Spans, divide};
use crate::heading::{Heading, encoding_of};
use crate::params::param;
use crate::part::{Part, Parts, Shape, Span};
use arch_base::NoMemory;
use mail_reader::{body, fields, fields_are_front};
use std::alloc::Global;

/// The greatest depth of an entity. The message has depth 1.
const MAX_DEPTH: u8 = 20;

/// The greatest number of entities that are visited.
const MAX_COUNT: usize = 1000;

/// The greatest length of a boundary, in bytes (RFC 2046, section 5.1.1).
const MAX_BOUNDARY_LEN: usize = 70;

/// An entity that is to be visited.
#[derive(Clone, Copy, Drop)]
pub(crate) struct Entity {
    /// Where it is in the text.
    span: Span,
    /// How many levels may be below it.
    levels: u8,
    /// Whether it is a direct part of a digest.
    digest: bool,
}

/// Returns the entities of a mail, each before its parts: the message itself, and the parts of each
/// multipart and of each message in it (RFC 2045, section 2.4, and RFC 2046, section 5).
///
/// At most 1,000 entities are returned, at depths up to 20. An entity that would have more parts,
/// or is at depth 20, is a leaf of type `application/octet-stream`. So is a multipart without a
/// boundary of 1 to 70 bytes, or without parts. The only error is `NoMemory`.
pub fn tree(alloc: Global, text: &[u8]) -> Result<Parts, NoMemory>
    ensures value { IfOk result (λ parts. parts ≡ tree_of text.now) }
    ensures within { IfOk result (λ parts. All (IsPartOf text.now) parts) }
{
    let mut parts = Parts::new(alloc);
    let mut pending = Vec::new(alloc);
    pending.push(whole(text))?;
    while let Some(entity) = pending.pop() {
        visit(alloc, text, entity, &mut parts, &mut pending)?;
    }
    Ok(parts)
}

/// Returns a mail as the entity that is visited first.
fn whole(text: &[u8]) -> Entity
    ensures { result ≡ entity_at 19 false (span_of 0 (length text.now)) }
{
    Entity {
        span: Span {
            start: 0,
            end: text.len() as u64,
        },
        levels: MAX_DEPTH - 1,
        digest: false,
    }
}

/// Visits an entity: it is appended to the parts, and its own parts are put before the entities
/// that are still to be visited.
fn visit(
    alloc: Global,
    text: &[u8],
    entity: Entity,
    parts: &mut Parts,
    pending: &mut Vec<Entity>,
) -> Result<(), NoMemory>
    requires within { IsIn text.now entity.span }
    requires levels { entity.levels < 20 }
    requires count { length parts.old + vec_len pending.old < 1000 }
    ensures { OnOk result
        (Visits text.now entity parts.old pending.old.items parts.new pending.new.items) }
{
    let heading = Heading::read(alloc, entity.digest, bytes_at(text, entity.span))?;
    let room = room_left(parts, pending.as_slice());
    let found = parts_below(alloc, text, entity, &heading, room)?;
    let digest = heading.is_digest();
    let is_empty = found.as_slice().is_empty();
    parts.push(part_of(alloc, text, entity, heading, is_empty)?)?;
    put_before(pending, found, entity.levels.saturating_sub(1), digest)
}

/// Returns how many more entities may be known while one is visited. `parts` and `pending` are the
/// others that are known.
fn room_left(parts: &Parts, pending: &[Entity]) -> usize
    requires { length parts.now + length pending.now < 1000 }
    ensures { result ≡ max_count - known parts.now pending.now }
{
    MAX_COUNT - (parts.as_slice().len() + pending.len() + 1)
}

/// Returns the bytes of a span.
pub(crate) fn bytes_at(text: &[u8], span: Span) -> &[u8]
    requires { IsIn text.now span }
    ensures { result.now ≡ bytes_at text.now span }
{
    &text[span.start as usize..span.end as usize]
}

/// Returns the direct parts of an entity that are visited, or none if there are more than `room`.
fn parts_below(
    alloc: Global,
    text: &[u8],
    entity: Entity,
    heading: &Heading,
    room: usize,
) -> Result<Spans, NoMemory>
    requires within { IsIn text.now entity.span }
    ensures { IfOk result (λ found.
        found ≡ found_below text.now entity.levels heading.now room entity.span) }
{
    if entity.levels == 0 {
        return Ok(Spans::new(alloc));
    }
    let body = body_span(text, entity.span);
    match heading.shape() {
        Shape::Leaf => Ok(Spans::new(alloc)),
        Shape::Message => alone(alloc, body, room),
        Shape::Multipart => {
            let boundary = param(heading.content_type.params.as_slice(), b"boundary");
            divided(alloc, boundary, text, body, room)
        }
    }
}

/// Returns the parts of a body that a boundary divides, or none if there are more than `room`.
fn divided(
    alloc: Global,
    boundary: &[u8],
    text: &[u8],
    body: Span,
    room: usize,
) -> Result<Spans, NoMemory>
    requires { IsIn text.now body }
    ensures { IfOk result (λ found. found ≡ at_most room (divided boundary.now text.now body)) }
{
    if boundary.is_empty() || boundary.len() > MAX_BOUNDARY_LEN {
        return Ok(Spans::new(alloc));
    }
    divide(alloc, boundary, bytes_at(text, body), body.start, room)
}

/// Returns the one part of a message, or none if there is no room.
fn alone(alloc: Global, body: Span, room: usize) -> Result<Spans, NoMemory>
    ensures { IfOk result (λ found. found ≡ at_most room (body ∷ [])) }
{
    let mut found = Spans::new(alloc);
    if room > 0 {
        found.push(body)?;
    }
    Ok(found)
}

/// Returns the part that an entity is. `is_empty` says that no part of it is visited.
fn part_of(
    alloc: Global,
    text: &[u8],
    entity: Entity,
    heading: Heading,
    is_empty: bool,
) -> Result<Part, NoMemory>
    requires within { IsIn text.now entity.span }
    requires levels { entity.levels < 20 }
    ensures { IfOk result (λ part. part ≡ part_by (is_opaque entity.levels (shape_of heading) is_empty)
        heading (header_span text.now entity.span) (body_span text.now entity.span)
        (20 - entity.levels)) }
{
    let header = header_span(text, entity.span);
    let body = body_span(text, entity.span);
    let depth = MAX_DEPTH - entity.levels;
    let shape = heading.shape();
    if is_opaque(entity.levels, shape, is_empty) {
        let heading = heading.opaque(alloc)?;
        return Ok(part_with(heading, Shape::Leaf, header, body, depth));
    }
    Ok(part_with(heading, shape, header, body, depth))
}

/// Returns whether an entity of this shape is opaque. `is_empty` says that no part of it is
/// visited.
fn is_opaque(levels: u8, shape: Shape, is_empty: bool) -> bool
    ensures { result ≡ is_opaque levels shape is_empty }
{
    match shape {
        Shape::Leaf => levels == 0,
        Shape::Message | Shape::Multipart => levels == 0 || is_empty,
    }
}

/// Returns the part with a heading, of a shape, with its header and its body at these spans.
fn part_with(heading: Heading, shape: Shape, header: Span, body: Span, depth: u8) -> Part
    ensures { result ≡ part_with heading shape header body depth }
{
    let Heading {
        content_type,
        encoding_name,
        attached,
    } = heading;
    let ContentType {
        major,
        minor,
        params,
    } = content_type;
    let encoding = encoding_of(encoding_name.as_slice());
    Part {
        major,
        minor,
        params,
        encoding,
        encoding_name,
        attached,
        header,
        body,
        shape,
        depth,
    }
}

/// Returns where the header of an entity is.
fn header_span(text: &[u8], span: Span) -> Span
    requires { IsIn text.now span }
    ensures { result ≡ header_span text.now span }
{
    let len = header_len(bytes_at(text, span));
    Span {
        start: span.start,
        end: span.start + len as u64,
    }
}

/// Returns the length of the header of an entity.
fn header_len(bytes: &[u8]) -> usize
    ensures value { result ≡ length (wholes (fields_of bytes.now)) }
    ensures within { result ≤ length bytes.now }
{
    fields_are_front();
    let mut len = 0;
    for field in fields(bytes) {
        len += field.whole.len();
    }
    len
}

/// Returns where the body of an entity is.
fn body_span(text: &[u8], span: Span) -> Span
    requires { IsIn text.now span }
    ensures value { result ≡ body_span text.now span }
    ensures within { IsIn text.now result }
{
    let inside = body(bytes_at(text, span));
    Span {
        start: span.end - inside.len() as u64,
        end: span.end,
    }
}

/// Puts parts before the entities that are to be visited, the last of which is the next one.
fn put_before(
    pending: &mut Vec<Entity>,
    found: Spans,
    levels: u8,
    digest: bool,
) -> Result<(), NoMemory>
    ensures { OnOk result
        (pending.new.items ≡ pending.old.items ++ reverse (map (entity_at levels digest) found)) }
{
    let mut rest = found.into_vec();
    while let Some(span) = rest.pop() {
        pending.push(Entity {
            span,
            levels,
            digest,
        })?;
    }
    Ok(())
}
