//! Mails, their rows, and items of them.
//! Allocates.
use arch_base::{Bytes, NoMemory, ObjectId, Texts};
use imap_items::{divides, item, item_of_parts};
use imap_syntax::Item;
use mail_date::Moment;
use mail_forms::Row;
use mime_parts::tree;
use std::alloc::Global;

/// A plain message.
pub(crate) const PLAIN: &[u8] =
    b"From: Ann <ann@example.org>\nDate: Thu, 1 Feb 2024 10:00:00 +0000\nSubject: first\nMessage-ID: <a@x>\n\none\n";

/// A multipart with one part.
pub(crate) const ONE_PART: &[u8] =
    b"Subject: w\nMessage-ID: <w@x>\nContent-Type: multipart/mixed; boundary=B\n\n--B\nContent-Type: text/plain\n\nhi\n--B--\n";

/// A message in a message, with a group and bytes that can't stand in quotes.
pub(crate) const NESTED: &[u8] =
    b"Content-Type: message/rfc822\n\nTo: g: \"B \\\"q\" <b@x>, c@y;\nSubject: a\"b\n\nin\n";

/// A message that is encoded.
pub(crate) const SEALED: &[u8] =
    b"Content-Type: message/rfc822\nContent-Transfer-Encoding: base64\n\nQTogYg==";

/// Returns the row of a message that arrived at 10:01:40 on the first of February 2024.
pub(crate) fn row(alloc: Global, number: u32, wire: u64) -> Row {
    Row {
        number,
        blob: ObjectId::Sha1([0; 20]),
        id: Bytes::new(alloc),
        refs: Texts::new(alloc),
        subject: Bytes::new(alloc),
        from: Bytes::new(alloc),
        date: Moment {
            secs: 1_706_781_600,
            zone: 0,
        },
        arrived: 1_706_781_700,
        size: 103,
        wire,
        mbox: 0,
        lines: 1,
        over: Bytes::new(alloc),
        content: [0; 32],
    }
}

/// Returns an item of a message, after other bytes.
fn shown(alloc: Global, text: &[u8], asked: &Item) -> Result<Bytes, NoMemory> {
    let mut into = Bytes::new(alloc);
    into.push_slice(b"> ")?;
    item(alloc, text, &row(alloc, 4, 109), asked, &mut into)?;
    Ok(into)
}

/// Returns the same by the parts of the message.
fn shown_by_parts(alloc: Global, text: &[u8], asked: &Item) -> Result<Bytes, NoMemory> {
    let parts = tree(alloc, text)?;
    let mut into = Bytes::new(alloc);
    into.push_slice(b"> ")?;
    item_of_parts(
        alloc,
        text,
        parts.as_slice(),
        &row(alloc, 4, 109),
        asked,
        &mut into,
    )?;
    Ok(into)
}

/// Returns whether both calls give this item of a message, with ample memory.
pub(crate) fn is_item(alloc: Global, text: &[u8], asked: Item, wanted: &[u8]) -> bool {
    is_shown(alloc, text, &asked, wanted) && is_shown_by_parts(alloc, text, &asked, wanted)
}

/// Returns whether the call that divides the message gives this item.
fn is_shown(alloc: Global, text: &[u8], asked: &Item, wanted: &[u8]) -> bool {
    is_text(&shown(alloc, text, asked), wanted)
}

/// Returns whether the call over its parts gives this item.
fn is_shown_by_parts(alloc: Global, text: &[u8], asked: &Item, wanted: &[u8]) -> bool {
    is_text(&shown_by_parts(alloc, text, asked), wanted)
}

/// Returns whether a result is this text, after the bytes that were there.
fn is_text(made: &Result<Bytes, NoMemory>, wanted: &[u8]) -> bool {
    match made {
        Ok(bytes) => bytes.as_slice().strip_prefix(b"> ") == Some(wanted),
        Err(NoMemory) => false,
    }
}

/// Returns whether an item is read off the parts of a message.
pub(crate) fn is_divided(asked: Item) -> bool {
    divides(&asked)
}

/// Returns bytes in a list of their own.
pub(crate) fn bytes(alloc: Global, text: &[u8]) -> Result<Bytes, NoMemory> {
    let mut made = Bytes::new(alloc);
    made.push_slice(text)?;
    Ok(made)
}
