//! Prints a mailbox file and a feed of mails, for other readers: `tests/feeds` compares what they
//! find with the texts, which are printed first.
//!
//! Each mail of the standard input comes after a line with its length. Mails that have no storage
//! form or no id are skipped. Printed are the line `text LEN` and the text for each of the others,
//! then the line `mbox LEN` and the mailbox file, and the line `feed LEN` and the feed.
#![tactic(auto)]

ghost use Rattle.std.specs.Prelude.{◌<◌, length, IfSome};

use arch_base::{Bytes, Form, Name, NoMemory, decimal, read_decimal};
use atom_mbox::{mbox_piece, push_feed_end, push_feed_entry, push_feed_start};
use mail_commits::text_ids;
use mail_reader::{StoredRefusal, body, is_stored, stored};
use mail_rows::row_of;
use memchr::memchr;
use std::alloc::Global;
use std::io::{self, Input, Read, Write};

/// When each mail arrived, in seconds since 1970 UTC.
const ARRIVED: u64 = 1_706_781_700;

/// Reads mails from the standard input, and prints their texts, a mailbox file and a feed.
fn main(rt: HostRuntime) -> anyhow::Result<()> {
    let alloc = rt.alloc();
    let mut input = Vec::new(alloc);
    rt.reader().read_to_end(&mut input)?;
    if let Some(name) = Name::read(b"list") {
        let printed = walk(alloc, &name, input.as_slice())?;
        io::writer(&rt).write_all(printed.as_slice())?;
    }
    Ok(())
}

/// What is printed of the mails so far.
#[derive(Drop)]
struct Printed {
    texts: Bytes,
    mbox: Bytes,
    feed: Bytes,
}

/// Returns what is printed of the mails of an input.
fn walk(alloc: Global, name: &Name, input: &[u8]) -> Result<Bytes, NoMemory> {
    let mut printed = Printed {
        texts: Bytes::new(alloc),
        mbox: Bytes::new(alloc),
        feed: Bytes::new(alloc),
    };
    push_feed_start(name, ARRIVED, &mut printed.feed)?;
    add_all(alloc, name, input, &mut printed)?;
    push_feed_end(&mut printed.feed)?;
    join(alloc, printed)
}

/// Adds the mails of an input.
fn add_all(
    alloc: Global,
    name: &Name,
    input: &[u8],
    printed: &mut Printed,
) -> Result<(), NoMemory> {
    let mut left = input;
    while let Some((mail, rest)) = next_mail(left) {
        add_mail(alloc, name, mail, printed)?;
        left = rest;
    }
    Ok(())
}

/// Returns the mail at the front of an input and the rest, or `None` if there is none.
fn next_mail(input: &[u8]) -> Option<(&[u8], &[u8])>
    ensures { IfSome result (λ found. length found.1.now < length input.now) }
{
    let end = memchr(b'\n', input)?;
    let len = read_decimal(&input[..end])?;
    let rest = &input[end + 1..];
    if len > rest.len() as u64 {
        return None;
    }
    Some(rest.split_at(len as usize))
}

/// Adds a mail, if it has a storage form.
fn add_mail(
    alloc: Global,
    name: &Name,
    mail: &[u8],
    printed: &mut Printed,
) -> Result<(), NoMemory> {
    match stored(alloc, mail) {
        Ok(text) => add_text(alloc, name, text.as_slice(), printed),
        Err(StoredRefusal::NoMemory) => Err(NoMemory),
        Err(_) => Ok(()),
    }
}

/// Adds a text, if it has an id.
fn add_text(
    alloc: Global,
    name: &Name,
    text: &[u8],
    printed: &mut Printed,
) -> Result<(), NoMemory> {
    if !is_stored(text) {
        return Ok(());
    }
    let row = row_of(alloc, 1, &text_ids(text, Form::Sha1), text, ARRIVED)?;
    push_part(alloc, b"text ", text, &mut printed.texts)?;
    mbox_piece(text, &mut printed.mbox)?;
    if row.arrived == ARRIVED {
        push_feed_entry(alloc, name, &row, body(text), &mut printed.feed)?;
    }
    Ok(())
}

/// Returns all that is printed.
fn join(alloc: Global, printed: Printed) -> Result<Bytes, NoMemory> {
    let mut all = printed.texts;
    push_part(alloc, b"mbox ", printed.mbox.as_slice(), &mut all)?;
    push_part(alloc, b"feed ", printed.feed.as_slice(), &mut all)?;
    Ok(all)
}

/// Appends a word, a length, a line feed, and bytes of that length.
fn push_part(alloc: Global, word: &[u8], bytes: &[u8], into: &mut Bytes) -> Result<(), NoMemory> {
    into.push_slice(word)?;
    into.push_slice(decimal(alloc, bytes.len() as u64)?.as_slice())?;
    into.push(b'\n')?;
    into.push_slice(bytes)
}
