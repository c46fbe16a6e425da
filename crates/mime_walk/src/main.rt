//! Prints the entities of a mail: `tests/parts` compares them with those of another reader, and
//! `tests/bench` times the program.
//!
//! Each entity is a line `DEPTH TYPE/SUBTYPE LENGTH`. After the line of a leaf come its decoded
//! bytes, LENGTH of them, and a line feed. The length of any other entity is `-`.
#![tactic(auto)]

ghost use Rattle.mime_parts.specs.Trees.{IsPartOf};

use arch_base::{Bytes, NoMemory, decimal};
use mime_parts::{Part, Shape, decode_part, tree};
use std::alloc::Global;
use std::io::{self, Input, Read, Write};

/// Reads a mail from the standard input, and prints its entities, each before its parts.
fn main(rt: HostRuntime) -> anyhow::Result<()> {
    let alloc = rt.alloc();
    let mut text = Vec::new(alloc);
    rt.reader().read_to_end(&mut text)?;
    let shown = entities(alloc, text.as_slice())?;
    io::writer(&rt).write_all(shown.as_slice())?;
    Ok(())
}

/// Returns the lines of the entities of a mail.
fn entities(alloc: Global, text: &[u8]) -> Result<Bytes, NoMemory> {
    let parts = tree(alloc, text)?;
    let mut shown = Bytes::new(alloc);
    for part in parts.as_slice() {
        push_entity(alloc, text, part, &mut shown)?;
    }
    Ok(shown)
}

/// Appends the line of an entity, with its decoded bytes if it is a leaf.
fn push_entity(alloc: Global, text: &[u8], part: &Part, shown: &mut Bytes) -> Result<(), NoMemory>
    requires { IsPartOf text.now part.now }
{
    push_type(alloc, part, shown)?;
    match part.shape {
        Shape::Leaf => push_bytes(alloc, decode_part(alloc, text, part)?.as_slice(), shown),
        Shape::Message | Shape::Multipart => shown.push_slice(b"-\n"),
    }
}

/// Appends the depth and the type of an entity.
fn push_type(alloc: Global, part: &Part, shown: &mut Bytes) -> Result<(), NoMemory> {
    shown.push_slice(decimal(alloc, u64::from(part.depth))?.as_slice())?;
    shown.push(b' ')?;
    shown.push_slice(part.major.as_slice())?;
    shown.push(b'/')?;
    shown.push_slice(part.minor.as_slice())?;
    shown.push(b' ')
}

/// Appends the length of bytes, a line feed, the bytes, and another line feed.
fn push_bytes(alloc: Global, bytes: &[u8], shown: &mut Bytes) -> Result<(), NoMemory> {
    shown.push_slice(decimal(alloc, bytes.len() as u64)?.as_slice())?;
    shown.push(b'\n')?;
    shown.push_slice(bytes)?;
    shown.push(b'\n')
}
