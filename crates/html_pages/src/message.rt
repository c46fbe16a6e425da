//! The page of a message.
//! Allocates.
ghost use Rattle.std.specs.Prelude.{◌≡◌, ◌++◌, OnOk, IfOk, codes};
ghost use Rattle.std.specs.List.{flat_map};
ghost use Rattle.mail_reader.specs.Values.{flat_of};
ghost use Rattle.mime_words.specs.Decoding.{decoded};
ghost use Rattle.web_text.specs.Escapes.{escaped};
ghost use Rattle.html_pages.specs.Lines.{header_line, links_line};
ghost use Rattle.html_pages.specs.Pages.{shown_fields, message_lines, message_of};

use crate::lines::{end_page, end_title, open_page};
use crate::pieces::push_place;
use arch_base::{Bytes, Name, NoMemory};
use mail_forms::Row;
use mail_reader::{first_value, flat};
use mime_words::decode;
use std::alloc::Global;
use web_text::{push_escaped, push_title};

/// Returns the page of a message.
///
/// `row` is the row of its text, and `body` the text of its body. `NoMemory` if an allocation fails.
#[tactic(auto, unfolding(crate::specs::Pages::message_of))]
pub fn message_page(
    alloc: Global,
    name: &Name,
    row: &Row,
    text: &[u8],
    body: &[u8],
) -> Result<Bytes, NoMemory>
    ensures { IfOk result (λ made. made ≡ message_of name.now row.now text.now body.now) }
{
    let mut made = Bytes::new(alloc);
    open_page(&mut made)?;
    push_title(alloc, row.subject.as_slice(), &mut made)?;
    end_title(&mut made)?;
    push_message(alloc, name, row, text, body, &mut made)?;
    end_page(&mut made)?;
    Ok(made)
}

/// Appends what the page of a message shows.
fn push_message(
    alloc: Global,
    name: &Name,
    row: &Row,
    text: &[u8],
    body: &[u8],
    into: &mut Bytes,
) -> Result<(), NoMemory>
    ensures { OnOk result (into.new
        ≡ into.old ++ message_lines name.now row.now text.now body.now) }
{
    push_fields(alloc, text, into)?;
    into.push_slice(b"\n")?;
    push_escaped(alloc, body, into)?;
    into.push_slice(b"\n")?;
    push_links(name, row.id.as_slice(), into)
}

/// Appends the lines of the fields that the page of a message shows.
fn push_fields(alloc: Global, text: &[u8], into: &mut Bytes) -> Result<(), NoMemory>
    ensures { OnOk result (into.new
        ≡ into.old ++ flat_map (header_line text.now) shown_fields) }
{
    push_field(alloc, text, b"From", into)?;
    push_field(alloc, text, b"To", into)?;
    push_field(alloc, text, b"Cc", into)?;
    push_field(alloc, text, b"Subject", into)?;
    push_field(alloc, text, b"Date", into)?;
    push_field(alloc, text, b"Message-ID", into)
}

/// Appends the line of the first field with a name, if the text has one.
fn push_field(alloc: Global, text: &[u8], name: &[u8], into: &mut Bytes) -> Result<(), NoMemory>
    ensures { OnOk result (into.new ≡ into.old ++ header_line text.now name.now) }
{
    match first_value(text, name) {
        Some(value) => push_value(alloc, name, value, into),
        None => Ok(()),
    }
}

/// Appends the line of a field with a name and a value.
fn push_value(alloc: Global, name: &[u8], value: &[u8], into: &mut Bytes) -> Result<(), NoMemory>
    ensures { OnOk result (into.new
        ≡ into.old ++ name.now ++ codes ": " ++ escaped (decoded (flat_of value.now)) ++ codes "\n") }
{
    let value = flat(alloc, value)?;
    let value = decode(alloc, value.as_slice())?;
    into.push_slice(name)?;
    into.push_slice(b": ")?;
    push_escaped(alloc, value.as_slice(), into)?;
    into.push_slice(b"\n")
}

/// Appends the links to the text of a message and to its thread.
#[tactic(auto, unfolding(crate::specs::Lines::links_line))]
fn push_links(name: &Name, id: &[u8], into: &mut Bytes) -> Result<(), NoMemory>
    ensures { OnOk result (into.new ≡ into.old ++ links_line name.now id.now) }
{
    into.push_slice(b"<a href=\"")?;
    push_place(name, id, into)?;
    into.push_slice(b"raw\">raw</a> <a href=\"")?;
    push_place(name, id, into)?;
    into.push_slice(b"t/\">thread</a>\n")
}
