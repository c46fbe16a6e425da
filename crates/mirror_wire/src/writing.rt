//! Writes the list of an archive.
//! Allocates.
ghost use Rattle.std.specs.Prelude.{◌≡◌, true, [], IfOk, OnOk};
ghost use Rattle.git_objects.specs.Fronts.{AppendsPiece};
ghost use Rattle.git_objects.specs.Commits.{number_part, hex_part};
ghost use Rattle.arch_model.specs.Archives.{Archive};
ghost use Rattle.arch_model.specs.Shelves.{lines_after};
ghost use Rattle.mirror_wire.specs.Lists.{entry_part, list_text, list_of};
ghost use Rattle.mirror_wire.specs.Parts.{letter_part, head_part, entries_part};

use crate::line_reading::first_line;
use arch_base::{Bytes, Config, NoMemory, ObjectId, hex_of};
use arch_model::{EntryLine, Shelf};
use git_objects::EntryKind;
use itoa::Buffer;
use std::alloc::Global;

/// Returns the text of the list of a shelf's archive, in the form of its ids.
///
/// Goes over the entries once, and reads no text of them. The list takes about 110 bytes for each
/// entry, or about 160 in the form SHA-256, and up to three times as many while it grows.
///
/// `NoMemory` if an allocation fails.
pub fn write<S: Shelf>(alloc: Global, shelf: &S) -> Result<Bytes, NoMemory>
    requires ready { S.ready shelf.now ≡ true }
    ensures text { (a : Archive) → S.holds shelf.now a
        → IfOk result (λ text. text ≡ list_text a.config.form (list_of a)) }
{
    let mut text = Bytes::new(alloc);
    push_head(shelf.config(), shelf.next_number(), &mut text)?;
    push_entries(shelf, &mut text)?;
    text.push_slice(b"end\n")?;
    Ok(text)
}

/// Appends the lines before those of the entries.
fn push_head(config: &Config, next: u32, into: &mut Bytes) -> Result<(), NoMemory>
    ensures { OnOk result (AppendsPiece into.old into.new (head_part config.now.form config.now.name next)) }
{
    into.push_slice(first_line(config.form))?;
    into.push_slice(config.name.as_slice())?;
    into.push(b'\n')?;
    push_number(u64::from(next), b'\n', into)
}

/// Appends the lines of the entries.
fn push_entries<S: Shelf>(shelf: &S, into: &mut Bytes) -> Result<(), NoMemory>
    requires { S.ready shelf.now ≡ true }
    ensures { (a : Archive) → S.holds shelf.now a → OnOk result (AppendsPiece into.old into.new
        (entries_part (lines_after a.config.form [] a.entries))) }
{
    for index in 0..u64::MAX {
        let Some(line) = shelf.entry(index) else {
            return Ok(());
        };
        push_line(&line, into)?;
    }
    // Never comes: no memory holds so many lines.
    Err(NoMemory)
}

/// Appends the line of an entry.
fn push_line(line: &EntryLine, into: &mut Bytes) -> Result<(), NoMemory>
    ensures { OnOk result (AppendsPiece into.old into.new (entry_part line.now)) }
{
    push_kind(line.kind, into)?;
    push_number(u64::from(line.number), b' ', into)?;
    push_number(u64::from(line.epoch), b' ', into)?;
    push_number(line.secs, b' ', into)?;
    push_id(&line.blob, b' ', into)?;
    push_number(line.size, b' ', into)?;
    push_id(&line.commit, b'\n', into)
}

/// Appends the letter of a kind, and a space.
fn push_kind(kind: EntryKind, into: &mut Bytes) -> Result<(), NoMemory>
    ensures { OnOk result (AppendsPiece into.old into.new (letter_part kind)) }
{
    match kind {
        EntryKind::Message => into.push_slice(b"m "),
        EntryKind::Deletion => into.push_slice(b"d "),
    }
}

/// Appends the digits of a number, then a byte.
fn push_number(number: u64, end: u8, into: &mut Bytes) -> Result<(), NoMemory>
    ensures { OnOk result (AppendsPiece into.old into.new (number_part end number)) }
{
    let mut digits = Buffer::new();
    into.push_slice(digits.format(number).as_bytes())?;
    into.push(end)
}

/// Appends the digits of an id, then a byte.
fn push_id(id: &ObjectId, end: u8, into: &mut Bytes) -> Result<(), NoMemory>
    ensures { OnOk result (AppendsPiece into.old into.new (hex_part end id.now)) }
{
    into.push_slice(hex_of(id).as_slice())?;
    into.push(end)
}
