//! The envelope of a message (RFC 3501, section 7.4.2, ENVELOPE).
//! Allocates.
ghost use Rattle.std.specs.Prelude.{◌≡◌, ◌++◌, IfOk, OnOk, codes};
ghost use Rattle.std.specs.List.{flat_map};
ghost use Rattle.mail_address.specs.declared.address.AddressKind.TheVariants.{Mailbox};
ghost use Rattle.imap_structure.specs.Envelopes.{addresses_in, name_text, address_by, address_text, addresses_text, field_text, field_addresses, field_or_from, envelope_texts, envelope_senders, envelope_recipients, envelope_ids, envelope_front, envelope_of};
ghost use Rattle.imap_structure.specs.Gathered.{text_or};

use crate::strings::{push_nstring, push_string};
use arch_base::{Bytes, NoMemory};
use mail_address::{Address, AddressKind, Addresses, list};
use mail_forms::listed_values;
use mail_reader::{first_value, flat};
use std::alloc::Global;

/// Appends the envelope of a message, of which these are the bytes.
///
/// Its values are the date, the subject, the authors, the sender, whom an answer is sent to, the
/// three kinds of recipients, what the message answers, and its id. Texts are the flat values of the
/// first field of their name, not decoded. Addresses are those of all fields of their name. Where
/// there is no sender, or nobody whom an answer is sent to, the authors stand there. The body isn't
/// looked at. `NoMemory` if an allocation fails. It may leave a part of the envelope appended.
pub fn push_envelope(alloc: Global, bytes: &[u8], into: &mut Bytes) -> Result<(), NoMemory>
    ensures { OnOk result (into.new ≡ into.old ++ envelope_of bytes.now) }
{
    push_front(alloc, bytes, into)?;
    push_recipients(alloc, bytes, into)?;
    into.push(b' ')?;
    push_ids(alloc, bytes, into)?;
    into.push(b')')
}

/// Appends the front of an envelope, up to the space before the recipients.
fn push_front(alloc: Global, bytes: &[u8], into: &mut Bytes) -> Result<(), NoMemory>
    ensures { OnOk result (into.new ≡ into.old ++ envelope_front bytes.now) }
{
    into.push(b'(')?;
    push_texts(alloc, bytes, into)?;
    into.push(b' ')?;
    push_senders(alloc, bytes, into)?;
    into.push(b' ')
}

/// Appends the date and the subject.
#[tactic(auto, unfolding(crate::specs::Envelopes::envelope_texts))]
fn push_texts(alloc: Global, bytes: &[u8], into: &mut Bytes) -> Result<(), NoMemory>
    ensures { OnOk result (into.new ≡ into.old ++ envelope_texts bytes.now) }
{
    push_field_text(alloc, bytes, b"Date", into)?;
    into.push(b' ')?;
    push_field_text(alloc, bytes, b"Subject", into)
}

/// Appends the authors, the sender, and whom an answer is sent to. The authors are read once.
#[tactic(auto, unfolding(crate::specs::Envelopes::envelope_senders))]
fn push_senders(alloc: Global, bytes: &[u8], into: &mut Bytes) -> Result<(), NoMemory>
    ensures { OnOk result (into.new ≡ into.old ++ envelope_senders bytes.now) }
{
    let authors = authors_text(alloc, bytes)?;
    into.push_slice(authors.as_slice())?;
    into.push(b' ')?;
    push_field_or_from(alloc, bytes, b"Sender", authors.as_slice(), into)?;
    into.push(b' ')?;
    push_field_or_from(alloc, bytes, b"Reply-To", authors.as_slice(), into)
}

/// Returns what an envelope has of the authors.
fn authors_text(alloc: Global, bytes: &[u8]) -> Result<Bytes, NoMemory>
    ensures { IfOk result (λ made. made ≡ field_addresses (codes "From") bytes.now) }
{
    let mut made = Bytes::new(alloc);
    push_field_addresses(alloc, bytes, b"From", &mut made)?;
    Ok(made)
}

/// Appends the recipients.
#[tactic(auto, unfolding(crate::specs::Envelopes::envelope_recipients))]
fn push_recipients(alloc: Global, bytes: &[u8], into: &mut Bytes) -> Result<(), NoMemory>
    ensures { OnOk result (into.new ≡ into.old ++ envelope_recipients bytes.now) }
{
    push_field_addresses(alloc, bytes, b"To", into)?;
    into.push(b' ')?;
    push_field_addresses(alloc, bytes, b"Cc", into)?;
    into.push(b' ')?;
    push_field_addresses(alloc, bytes, b"Bcc", into)
}

/// Appends what the message answers, and its id.
#[tactic(auto, unfolding(crate::specs::Envelopes::envelope_ids))]
fn push_ids(alloc: Global, bytes: &[u8], into: &mut Bytes) -> Result<(), NoMemory>
    ensures { OnOk result (into.new ≡ into.old ++ envelope_ids bytes.now) }
{
    push_field_text(alloc, bytes, b"In-Reply-To", into)?;
    into.push(b' ')?;
    push_field_text(alloc, bytes, b"Message-ID", into)
}

/// Appends the flat value of the first field with a name, or `NIL` without such a field.
pub(crate) fn push_field_text(
    alloc: Global,
    bytes: &[u8],
    name: &[u8],
    into: &mut Bytes,
) -> Result<(), NoMemory>
    ensures { OnOk result (into.new ≡ into.old ++ field_text name.now bytes.now) }
{
    match first_value(bytes, name) {
        Some(value) => {
            let value = flat(alloc, value)?;
            push_nstring(alloc, Some(value.as_slice()), into)
        }
        None => push_nstring(alloc, None, into),
    }
}

/// Appends the addresses of the fields with a name.
fn push_field_addresses(
    alloc: Global,
    bytes: &[u8],
    name: &[u8],
    into: &mut Bytes,
) -> Result<(), NoMemory>
    ensures { OnOk result (into.new ≡ into.old ++ field_addresses name.now bytes.now) }
{
    let addresses = addresses_in(alloc, bytes, name)?;
    push_addresses(alloc, addresses.as_slice(), into)
}

/// Appends the addresses of the fields with a name, or the text of the authors if there are none.
#[tactic(auto, using(crate::proofs::Authors::text_or_is))]
fn push_field_or_from(
    alloc: Global,
    bytes: &[u8],
    name: &[u8],
    authors: &[u8],
    into: &mut Bytes,
) -> Result<(), NoMemory>
    requires { authors.now ≡ field_addresses (codes "From") bytes.now }
    ensures { OnOk result (into.new ≡ into.old ++ field_or_from name.now bytes.now) }
{
    let addresses = addresses_in(alloc, bytes, name)?;
    push_or_from(alloc, addresses.as_slice(), authors, into)
}

/// Appends addresses, or the text of the authors if there are none.
fn push_or_from(
    alloc: Global,
    addresses: &[Address],
    authors: &[u8],
    into: &mut Bytes,
) -> Result<(), NoMemory>
    ensures { OnOk result (into.new ≡ into.old ++ text_or authors.now addresses.now) }
{
    match addresses {
        [] => into.push_slice(authors),
        _ => push_addresses(alloc, addresses, into),
    }
}

/// Returns the addresses of the fields with a name, whose values are read as one list.
#[tactic(auto, unfolding(crate::specs::Envelopes::addresses_in))]
fn addresses_in(alloc: Global, bytes: &[u8], name: &[u8]) -> Result<Addresses, NoMemory>
    ensures { IfOk result (λ found. found ≡ addresses_in name.now bytes.now) }
{
    let values = listed_values(alloc, bytes, name)?;
    list(alloc, values.as_slice())
}

/// Appends addresses in parentheses, or `NIL` without any.
#[tactic(auto, unfolding(crate::specs::Envelopes::addresses_text))]
fn push_addresses(alloc: Global, addresses: &[Address], into: &mut Bytes) -> Result<(), NoMemory>
    ensures { OnOk result (into.new ≡ into.old ++ addresses_text addresses.now) }
{
    if addresses.is_empty() {
        return into.push_slice(b"NIL");
    }
    into.push(b'(')?;
    push_all(alloc, addresses, into)?;
    into.push(b')')
}

/// Appends addresses, one after another.
fn push_all(alloc: Global, addresses: &[Address], into: &mut Bytes) -> Result<(), NoMemory>
    ensures { OnOk result (into.new ≡ into.old ++ flat_map address_text addresses.now) }
{
    for address in addresses {
        push_address(alloc, address, into)?;
    }
    Ok(())
}

/// Appends an address.
fn push_address(alloc: Global, address: &Address, into: &mut Bytes) -> Result<(), NoMemory>
    ensures { OnOk result (into.new ≡ into.old ++ address_text address.now) }
{
    match address.kind {
        AddressKind::Mailbox => push_mailbox(alloc, address, into),
        AddressKind::GroupStart => {
            into.push_slice(b"(NIL NIL ")?;
            push_string(alloc, address.name.as_slice(), into)?;
            into.push_slice(b" NIL)")
        }
        AddressKind::GroupEnd => into.push_slice(b"(NIL NIL NIL NIL)"),
    }
}

/// Appends a mailbox: its name, no route, and the two parts of its address.
fn push_mailbox(alloc: Global, address: &Address, into: &mut Bytes) -> Result<(), NoMemory>
    ensures { OnOk result (into.new ≡ into.old ++ address_by Mailbox address.now) }
{
    into.push(b'(')?;
    push_name(alloc, address.name.as_slice(), into)?;
    into.push_slice(b" NIL ")?;
    push_string(alloc, address.mailbox.as_slice(), into)?;
    into.push(b' ')?;
    push_string(alloc, address.host.as_slice(), into)?;
    into.push(b')')
}

/// Appends the name of a mailbox, or `NIL` for an empty one.
fn push_name(alloc: Global, name: &[u8], into: &mut Bytes) -> Result<(), NoMemory>
    ensures { OnOk result (into.new ≡ into.old ++ name_text name.now) }
{
    if name.is_empty() {
        into.push_slice(b"NIL")
    } else {
        push_string(alloc, name, into)
    }
}
