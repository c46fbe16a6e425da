//! The entities of a mail as text.
use arch_base::{Bytes, NoMemory, decimal};
use mime_parts::{Encoding, Part, Shape, Span, tree};
use std::alloc::Global;

/// Returns a line for each entity: its depth, its shape, its type, and where its header and its
/// body are.
pub(crate) fn entities(alloc: Global, text: &[u8]) -> Result<Bytes, NoMemory> {
    let parts = tree(alloc, text)?;
    let mut shown = Bytes::new(alloc);
    for part in parts.as_slice() {
        push_entity(alloc, &mut shown, part)?;
    }
    Ok(shown)
}

/// Appends the line of an entity.
fn push_entity(alloc: Global, shown: &mut Bytes, part: &Part) -> Result<(), NoMemory> {
    push_number(alloc, shown, u64::from(part.depth))?;
    shown.push_slice(shape_word(part.shape))?;
    shown.push_slice(part.major.as_slice())?;
    shown.push(b'/')?;
    shown.push_slice(part.minor.as_slice())?;
    push_span(alloc, shown, part.header)?;
    push_span(alloc, shown, part.body)?;
    shown.push(b'\n')
}

/// Returns the word for a shape.
fn shape_word(shape: Shape) -> &'static [u8] {
    match shape {
        Shape::Leaf => b" leaf ",
        Shape::Message => b" message ",
        Shape::Multipart => b" multipart ",
    }
}

/// Appends a span.
fn push_span(alloc: Global, shown: &mut Bytes, span: Span) -> Result<(), NoMemory> {
    shown.push(b' ')?;
    push_number(alloc, shown, span.start)?;
    shown.push(b'-')?;
    push_number(alloc, shown, span.end)
}

/// Appends a number.
fn push_number(alloc: Global, shown: &mut Bytes, number: u64) -> Result<(), NoMemory> {
    let digits = decimal(alloc, number)?;
    shown.push_slice(digits.as_slice())
}

/// Returns the entities below a mail, each as its depth and `[HEADER|BODY]`.
pub(crate) fn pieces(alloc: Global, text: &[u8]) -> Result<Bytes, NoMemory> {
    let parts = tree(alloc, text)?;
    let mut shown = Bytes::new(alloc);
    for part in parts.as_slice() {
        if part.depth > 1 {
            push_piece(alloc, &mut shown, text, part)?;
        }
    }
    Ok(shown)
}

/// Appends an entity as its depth and `[HEADER|BODY]`.
fn push_piece(alloc: Global, shown: &mut Bytes, text: &[u8], part: &Part) -> Result<(), NoMemory> {
    push_number(alloc, shown, u64::from(part.depth))?;
    shown.push(b'[')?;
    shown.push_slice(bytes_at(text, part.header))?;
    shown.push(b'|')?;
    shown.push_slice(bytes_at(text, part.body))?;
    shown.push(b']')
}

/// Returns the bytes of a span, or `?` if it isn't in the text.
fn bytes_at(text: &[u8], span: Span) -> &[u8] {
    match text.get(span.start as usize..span.end as usize) {
        Some(bytes) => bytes,
        None => b"?",
    }
}

/// Returns the heading of a mail: its type, the parameters, the encoding and its name, and whether
/// it is attached.
pub(crate) fn heading(alloc: Global, text: &[u8]) -> Result<Bytes, NoMemory> {
    let parts = tree(alloc, text)?;
    let mut shown = Bytes::new(alloc);
    if let Some(part) = parts.as_slice().first() {
        push_heading(&mut shown, part)?;
    }
    Ok(shown)
}

/// Appends the heading of an entity.
fn push_heading(shown: &mut Bytes, part: &Part) -> Result<(), NoMemory> {
    shown.push_slice(part.major.as_slice())?;
    shown.push(b'/')?;
    shown.push_slice(part.minor.as_slice())?;
    for text in part.params.as_slice() {
        shown.push(b'|')?;
        shown.push_slice(text.as_slice())?;
    }
    shown.push_slice(encoding_word(part.encoding))?;
    shown.push_slice(part.encoding_name.as_slice())?;
    if part.attached {
        shown.push_slice(b" attached")?;
    }
    Ok(())
}

/// Returns the word for an encoding.
fn encoding_word(encoding: Encoding) -> &'static [u8] {
    match encoding {
        Encoding::Plain => b" plain ",
        Encoding::Base64 => b" base64 ",
        Encoding::Quoted => b" quoted ",
    }
}
