//! The items of one message, as FETCH has them.
//! Allocates.
ghost use Rattle.std.specs.Prelude.{◌≡◌, ◌++◌, true, false, IfOk, OnOk, if◌then◌else◌};
ghost use Rattle.std.specs.List.{flat_map, list_any};
ghost use Rattle.mime_parts.specs.Trees.{tree_of};
ghost use Rattle.imap_items.specs.Items.{divides};
ghost use Rattle.imap_messages.specs.Fetching.{needs_text, is_uid, shown_items, spaced_item, items_words};

use crate::numbering::Numbering;
use arch_base::{Bytes, NoMemory};
use imap_items::{divides, item, item_of_parts};
use imap_syntax::Item;
use mail_forms::Row;
use mime_parts::{Part, Parts, tree};
use std::alloc::Global;

/// Returns whether one of these items is told from the text.
pub(crate) fn need_text(items: &[Item]) -> bool
    ensures { result ≡ list_any needs_text items.now }
{
    items.iter().any(|item| needs_text(item))
}

/// Returns whether an item is told from the text.
fn needs_text(item: &Item) -> bool
    ensures { result ≡ needs_text item.now }
{
    match item {
        Item::Flags | Item::Uid | Item::Size | Item::InternalDate => false,
        Item::Envelope
        | Item::Body
        | Item::BodyStructure
        | Item::Rfc822
        | Item::Rfc822Header
        | Item::Rfc822Text
        | Item::Section(_, _) => true,
    }
}

/// Returns whether one of these items is read off the parts of a message.
fn divide(items: &[Item]) -> bool
    ensures { result ≡ list_any divides items.now }
{
    items.iter().any(|item| divides(item))
}

/// Returns whether one of these items is the UID.
fn ask_uid(items: &[Item]) -> bool
    ensures { result ≡ list_any is_uid items.now }
{
    items.iter().any(|item| is_uid(item))
}

/// Returns whether an item is the UID.
fn is_uid(item: &Item) -> bool
    ensures { result ≡ is_uid item.now }
{
    match item {
        Item::Uid => true,
        Item::Flags
        | Item::Size
        | Item::InternalDate
        | Item::Envelope
        | Item::Body
        | Item::BodyStructure
        | Item::Rfc822
        | Item::Rfc822Header
        | Item::Rfc822Text
        | Item::Section(_, _) => false,
    }
}

/// Returns the items of a message with a text and a row, with spaces between them. The UID comes
/// first for a command that names UIDs, where it isn't asked for.
///
/// The message is divided into its parts once, if an item is read off them.
pub(crate) fn items_of(
    alloc: Global,
    numbering: Numbering,
    items: &[Item],
    text: &[u8],
    row: &Row,
) -> Result<Bytes, NoMemory>
    ensures { IfOk result (λ made.
        made ≡ items_words text.now row.now (shown_items numbering items.now)) }
{
    let parts = parts_for(alloc, text, items)?;
    match numbering {
        Numbering::Sequence => asked_items(alloc, text, parts.as_slice(), row, items),
        Numbering::Uid => uid_items(alloc, text, parts.as_slice(), row, items),
    }
}

/// Returns the items of a message, of which the UID is one.
fn uid_items(
    alloc: Global,
    text: &[u8],
    parts: &[Part],
    row: &Row,
    items: &[Item],
) -> Result<Bytes, NoMemory>
    requires { list_any divides items.now ≡ true → parts.now ≡ tree_of text.now }
    ensures { IfOk result (λ made.
        made ≡ items_words text.now row.now (shown_items Numbering.Uid items.now)) }
{
    if ask_uid(items) {
        return asked_items(alloc, text, parts, row, items);
    }
    let mut made = Bytes::new(alloc);
    item(alloc, text, row, &Item::Uid, &mut made)?;
    push_others(alloc, text, parts, row, items, &mut made)?;
    Ok(made)
}

/// Returns the items of a message, as they are asked.
fn asked_items(
    alloc: Global,
    text: &[u8],
    parts: &[Part],
    row: &Row,
    items: &[Item],
) -> Result<Bytes, NoMemory>
    requires { list_any divides items.now ≡ true → parts.now ≡ tree_of text.now }
    ensures { IfOk result (λ made. made ≡ items_words text.now row.now items.now) }
{
    let mut made = Bytes::new(alloc);
    match items {
        [] => Ok(made),
        [first, others @ ..] => {
            item_of_parts(alloc, text, parts, row, first, &mut made)?;
            push_others(alloc, text, parts, row, others, &mut made)?;
            Ok(made)
        }
    }
}

/// Returns the parts of a text, if one of these items is read off them.
fn parts_for(alloc: Global, text: &[u8], items: &[Item]) -> Result<Parts, NoMemory>
    ensures { IfOk result (λ parts. list_any divides items.now ≡ true → parts ≡ tree_of text.now) }
{
    if !divide(items) {
        return Ok(Parts::new(alloc));
    }
    tree(alloc, text)
}

/// Appends items of a message, each after a space.
fn push_others(
    alloc: Global,
    text: &[u8],
    parts: &[Part],
    row: &Row,
    items: &[Item],
    into: &mut Bytes,
) -> Result<(), NoMemory>
    requires { list_any divides items.now ≡ true → parts.now ≡ tree_of text.now }
    ensures { OnOk result (into.new ≡ into.old ++ flat_map (spaced_item text.now row.now) items.now) }
{
    for item in items {
        push_other(alloc, text, parts, row, item, into)?;
    }
    Ok(())
}

/// Appends an item of a message after a space.
fn push_other(
    alloc: Global,
    text: &[u8],
    parts: &[Part],
    row: &Row,
    item: &Item,
    into: &mut Bytes,
) -> Result<(), NoMemory>
    requires { divides item.now ≡ true → parts.now ≡ tree_of text.now }
    ensures { OnOk result (into.new ≡ into.old ++ spaced_item text.now row.now item.now) }
{
    into.push(b' ')?;
    item_of_parts(alloc, text, parts, row, item, into)
}
