//! Makes the row of a mail.
//! Allocates.
ghost use Rattle.std.specs.Prelude.{◌≡◌, length, IfOk};
ghost use Rattle.arch_base.specs.declared.ids.Form.{Form};
ghost use Rattle.mail_commits.specs.Commits.{written_at};
ghost use Rattle.mail_commits.specs.Ids.{text_ids_of};
ghost use Rattle.mail_commits.specs.Facts.{from_fact, subject_fact, date_fact};
ghost use Rattle.mail_forms.specs.Mailboxes.{mbox_of};
ghost use Rattle.mail_forms.specs.WireForms.{wire_of, feeds_of};
ghost use Rattle.mail_reader.specs.Bodies.{body_of};
ghost use Rattle.mail_reader.specs.References.{refs_of as refs_in};
ghost use Rattle.mail_reader.specs.StorageTexts.{IsStorageText};
ghost use Rattle.mail_reader.specs.Values.{flat_of};
ghost use Rattle.mime_words.specs.Decoding.{decoded};
ghost use Rattle.arch_model.specs.Overviews.{id_fact};
ghost use Rattle.arch_model.specs.Rows.{row_of as row_fact};

use crate::overview::overview_line;
use arch_base::{Bytes, NoMemory, ObjectId, Texts};
use mail_commits::{TextIds, entry_commit};
use mail_date::Moment;
use mail_forms::{Row, line_feeds, mbox_len, wire_len};
use mail_reader::{body, first_value, flat, own_id, refs_of};
use mime_words::decode;
use std::alloc::Global;

/// Returns the row of a storage text with this number and these ids, which arrived at this moment, in
/// seconds since 1970 UTC. The ids may be of any form.
///
/// `NoMemory` if an allocation fails.
pub fn row_of(
    alloc: Global,
    number: u32,
    ids: &TextIds,
    text: &[u8],
    arrived: u64,
) -> Result<Row, NoMemory>
    requires text { IsStorageText text.now }
    ensures { (form : Form) → ids.now ≡ text_ids_of form text.now
        → IfOk result (λ row. row ≡ row_fact form number text.now arrived) }
{
    let heading = heading_of(alloc, text, &ids.blob, arrived)?;
    let links = links_of(alloc, text)?;
    let lengths = lengths_of(text);
    let over = overview_line(
        alloc,
        text,
        links.id.as_slice(),
        lengths.wire,
        lengths.lines,
    )?;
    Ok(Row {
        number,
        blob: ids.blob,
        id: links.id,
        refs: links.refs,
        subject: heading.subject,
        from: heading.from,
        date: heading.date,
        arrived,
        size: lengths.size,
        wire: lengths.wire,
        mbox: lengths.mbox,
        lines: lengths.lines,
        over,
        content: ids.content,
    })
}

/// What a text says of its author, its date and its subject.
#[derive(Drop)]
struct Heading {
    from: Bytes,
    date: Moment,
    subject: Bytes,
}

/// Returns what a text says of its author, its date and its subject.
///
/// The author and the date are those of the commit that keeps the text.
fn heading_of(
    alloc: Global,
    text: &[u8],
    blob: &ObjectId,
    arrived: u64,
) -> Result<Heading, NoMemory>
    ensures from { IfOk result (λ made. made.from ≡ from_fact text.now) }
    ensures date { IfOk result (λ made. made.date ≡ written_at (date_fact text.now) arrived) }
    ensures subject { IfOk result (λ made. made.subject ≡ subject_fact text.now) }
{
    let commit = entry_commit(alloc, text, blob, None, arrived)?;
    let subject = subject(alloc, text)?;
    Ok(Heading {
        from: commit.author,
        date: Moment {
            secs: commit.secs,
            zone: commit.zone,
        },
        subject,
    })
}

/// Returns the subject of a text, its encoded words decoded. Without a Subject field it is empty.
fn subject(alloc: Global, text: &[u8]) -> Result<Bytes, NoMemory>
    ensures { IfOk result (λ made. made ≡ subject_fact text.now) }
{
    match first_value(text, b"Subject") {
        Some(value) => decoded_flat(alloc, value),
        None => Ok(Bytes::new(alloc)),
    }
}

/// Returns the flat value of a field's value, its encoded words decoded.
fn decoded_flat(alloc: Global, value: &[u8]) -> Result<Bytes, NoMemory>
    ensures { IfOk result (λ made. made ≡ decoded (flat_of value.now)) }
{
    let value = flat(alloc, value)?;
    decode(alloc, value.as_slice())
}

/// The own id of a text, and the ids of the messages that it answers.
#[derive(Drop)]
struct Links {
    id: Bytes,
    refs: Texts,
}

/// Returns the own id of a text, and the ids of the messages that it answers.
fn links_of(alloc: Global, text: &[u8]) -> Result<Links, NoMemory>
    ensures id { IfOk result (λ made. made.id ≡ id_fact text.now) }
    ensures refs { IfOk result (λ made. made.refs ≡ refs_in text.now) }
{
    let id = id_of(alloc, text)?;
    let refs = refs_of(alloc, text)?;
    Ok(Links { id, refs })
}

/// Returns the own id of a text, or nothing if it has none.
fn id_of(alloc: Global, text: &[u8]) -> Result<Bytes, NoMemory>
    ensures { IfOk result (λ made. made ≡ id_fact text.now) }
{
    let mut made = Bytes::new(alloc);
    match own_id(text) {
        Some(id) => {
            made.push_slice(id)?;
            Ok(made)
        }
        None => Ok(made),
    }
}

/// The lengths of a text and of the forms in which it is sent, and the lines of its body.
#[derive(Clone, Copy, Drop)]
struct Lengths {
    size: u64,
    wire: u64,
    mbox: u64,
    lines: u64,
}

/// Returns the lengths of a text and of the forms in which it is sent, and the lines of its body.
fn lengths_of(text: &[u8]) -> Lengths
    requires { IsStorageText text.now }
    ensures size { result.size ≡ length text.now }
    ensures wire { result.wire ≡ length (wire_of text.now) }
    ensures mbox { result.mbox ≡ length (mbox_of text.now) }
    ensures lines { result.lines ≡ feeds_of (body_of text.now) }
{
    Lengths {
        size: text.len() as u64,
        wire: wire_len(text),
        mbox: mbox_len(text),
        lines: line_feeds(body(text)),
    }
}
