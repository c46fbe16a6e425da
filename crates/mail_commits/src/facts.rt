//! What a mail says of itself: its author, its subject and its date.
//! Allocates.
ghost use Rattle.std.specs.Prelude.{◌≡◌, ◌++◌, ◌≤◌, length, drop, IfOk, IfSome, OnOk, codes, option_copied, Some};
ghost use Rattle.std.specs.List.{filter, flat_map, prefix_len, suffix_len};
ghost use Rattle.std.specs.Str.{str_eq_ignore_ascii_case};
ghost use Rattle.git_objects.specs.CleanText.{IsCleanText, is_clean_byte as clean_byte, clean as clean_of, trimmed as trimmed_of, is_space as space};
ghost use Rattle.git_objects.specs.Commits.{IsCommitZone};
ghost use Rattle.mail_address.specs.Addresses.{addresses_of};
ghost use Rattle.mail_reader.specs.Fields.{fields_of};
ghost use Rattle.mail_reader.specs.Values.{flat_of};
ghost use Rattle.mime_words.specs.Decoding.{decoded};
ghost use Rattle.mail_commits.specs.Commits.{written_at as written_of};
ghost use Rattle.mail_commits.specs.Facts.{from_list, after_comma, values_of, first_mailbox_of, clean_address as clean_address_of, from_of, email_of, from_fact, email_fact, subject_fact, date_fact};

use arch_base::{Bytes, NoMemory};
use mail_address::{Address, AddressKind, Addresses, list};
use mail_date::{Moment, read};
use mail_reader::{fields, first_value, flat};
use mime_words::decode;
use std::alloc::{AllocError, Global};

/// The name and the address by which a commit names its author.
#[derive(Drop)]
pub(crate) struct Signature {
    /// The name, which is clean and never empty.
    pub(crate) name: Bytes,
    /// The address, which is clean and may be empty.
    pub(crate) email: Bytes,
}

/// Returns the author of a text: the first mailbox of its From fields (RFC 5322, section 3.6.2).
///
/// Without a mailbox the name is `unknown`, and the address is empty.
pub(crate) fn author(alloc: Global, text: &[u8]) -> Result<Signature, NoMemory>
    ensures name { IfOk result (λ made. made.name ≡ from_fact text.now) }
    ensures email { IfOk result (λ made. made.email ≡ email_fact text.now) }
    ensures clean_name { IfOk result (λ made. IsCleanText made.name) }
    ensures clean_email { IfOk result (λ made. IsCleanText made.email) }
{
    let addresses = from_addresses(alloc, text)?;
    match first_mailbox(&addresses) {
        Some(mailbox) => author_of(alloc, mailbox),
        None => Ok(Signature {
            name: copied(alloc, b"unknown")?,
            email: Bytes::new(alloc),
        }),
    }
}

/// Returns the author that a mailbox names. The address stands for an empty name.
fn author_of(alloc: Global, mailbox: &Address) -> Result<Signature, NoMemory>
    ensures name { IfOk result (λ made. made.name ≡ from_of (Some mailbox.now)) }
    ensures email { IfOk result (λ made. made.email ≡ email_of (Some mailbox.now)) }
    ensures clean_name { IfOk result (λ made. IsCleanText made.name) }
    ensures clean_email { IfOk result (λ made. IsCleanText made.email) }
{
    let email = clean_address(alloc, mailbox)?;
    let name = clean_words(alloc, mailbox.name.as_slice())?;
    if name.as_slice().is_empty() {
        return Ok(Signature {
            name: copied(alloc, email.as_slice())?,
            email,
        });
    }
    Ok(Signature { name, email })
}

/// Returns the addresses of all From fields of a text.
fn from_addresses(alloc: Global, text: &[u8]) -> Result<Addresses, NoMemory>
    ensures { IfOk result (λ found. found ≡ addresses_of (from_list text.now)) }
{
    let values = from_values(alloc, text)?;
    list(alloc, without_comma(values.as_slice()))
}

/// Returns the flat values of all From fields of a text, each after a comma and a space.
fn from_values(alloc: Global, text: &[u8]) -> Result<Bytes, NoMemory>
    ensures { IfOk result (λ made.
        made ≡ flat_map after_comma (values_of (codes "From") (fields_of text.now))) }
{
    let mut values = Bytes::new(alloc);
    for field in fields(text) {
        if is_same_name(field.name, b"From") {
            push_value(alloc, &mut values, field.value)?;
        }
    }
    Ok(values)
}

/// Returns whether two field names are equal, ignoring the case of ASCII letters.
fn is_same_name(name: &[u8], other: &[u8]) -> bool
    ensures { result ≡ str_eq_ignore_ascii_case name.now other.now }
{
    name.eq_ignore_ascii_case(other)
}

/// Appends a comma, a space and the flat value of a field.
fn push_value(alloc: Global, into: &mut Bytes, value: &[u8]) -> Result<(), NoMemory>
    ensures { OnOk result (into.new ≡ into.old ++ after_comma (flat_of value.now)) }
{
    let value = flat(alloc, value)?;
    into.push_slice(b", ")?;
    into.push_slice(value.as_slice())
}

/// Returns the bytes without the first two.
fn without_comma(bytes: &[u8]) -> &[u8]
    ensures { result.now ≡ drop 2 bytes.now }
{
    if bytes.len() < 2 {
        return &[];
    }
    bytes.split_at(2).1
}

/// Returns the first mailbox of a list of addresses, in a group or not.
fn first_mailbox(addresses: &Addresses) -> Option<&Address>
    ensures { option_copied result ≡ first_mailbox_of addresses.now }
{
    addresses
        .as_slice()
        .iter()
        .find(|address| matches!(address.kind, AddressKind::Mailbox))
}

/// Returns the clean address of a mailbox.
fn clean_address(alloc: Global, mailbox: &Address) -> Result<Bytes, NoMemory>
    ensures value { IfOk result (λ made. made ≡ clean_address_of mailbox.now) }
    ensures clean { IfOk result IsCleanText }
{
    let mut address = Bytes::new(alloc);
    address.push_slice(mailbox.mailbox.as_slice())?;
    address.push(b'@')?;
    address.push_slice(mailbox.host.as_slice())?;
    clean(alloc, address.as_slice())
}

/// Decodes the encoded words of a value, and returns the clean result.
fn clean_words(alloc: Global, value: &[u8]) -> Result<Bytes, NoMemory>
    ensures value { IfOk result (λ made. made ≡ clean_of (decoded value.now)) }
    ensures clean { IfOk result IsCleanText }
{
    let text = decode(alloc, value)?;
    clean(alloc, text.as_slice())
}

/// Returns a clean text: without bytes below 32, 127, `<` and `>`, and then without the spaces at
/// its two ends.
fn clean(alloc: Global, text: &[u8]) -> Result<Bytes, NoMemory>
    ensures value { IfOk result (λ made. made ≡ clean_of text.now) }
    ensures clean { IfOk result IsCleanText }
{
    let kept = clean_bytes(alloc, text)?;
    copied(alloc, trimmed(kept.as_slice()))
}

/// Returns the bytes of a text that a clean text may have.
fn clean_bytes(alloc: Global, text: &[u8]) -> Result<Vec<u8>, AllocError>
    ensures { IfOk result (λ made. made.items ≡ filter clean_byte text.now) }
{
    text.iter()
        .filter(|byte| is_clean_byte(**byte))
        .map(|byte| *byte)
        .collect(alloc)
}

/// Returns whether a clean text may have a byte.
fn is_clean_byte(byte: u8) -> bool
    ensures { result ≡ clean_byte byte }
{
    byte >= 32 && byte != 127 && byte != b'<' && byte != b'>'
}

/// Returns a text without the spaces at its two ends.
fn trimmed(text: &[u8]) -> &[u8]
    ensures { result.now ≡ trimmed_of text.now }
{
    let start = spaces_before(text);
    let front = text.split_at(text.len() - trailing_spaces(text)).0;
    if front.len() < start {
        return &[];
    }
    front.split_at(start).1
}

/// Returns the count of spaces at the front of a text.
fn spaces_before(text: &[u8]) -> usize
    ensures { result ≡ prefix_len space text.now }
{
    text.iter().take_while(|byte| is_space(**byte)).count()
}

/// Returns the count of spaces at the end of a text.
fn trailing_spaces(text: &[u8]) -> usize
    ensures value { result ≡ suffix_len space text.now }
    ensures within { result ≤ length text.now }
{
    text.iter()
        .rev()
        .take_while(|byte| is_space(**byte))
        .count()
}

/// Returns whether a byte is a space.
fn is_space(byte: u8) -> bool
    ensures { result ≡ space byte }
{
    byte == b' '
}

/// Copies bytes.
fn copied(alloc: Global, bytes: &[u8]) -> Result<Bytes, NoMemory>
    ensures { IfOk result (λ made. made ≡ bytes.now) }
{
    let mut made = Bytes::new(alloc);
    made.push_slice(bytes)?;
    Ok(made)
}

/// Returns the clean subject of a text, which is empty without a Subject field (RFC 5322, section
/// 3.6.5).
pub(crate) fn subject(alloc: Global, text: &[u8]) -> Result<Bytes, NoMemory>
    ensures value { IfOk result (λ made. made ≡ clean_of (subject_fact text.now)) }
    ensures clean { IfOk result IsCleanText }
{
    match first_value(text, b"Subject") {
        Some(value) => clean_flat(alloc, value),
        None => Ok(Bytes::new(alloc)),
    }
}

/// Flattens a field's value and decodes its encoded words, and returns the clean result.
fn clean_flat(alloc: Global, value: &[u8]) -> Result<Bytes, NoMemory>
    ensures value { IfOk result (λ made. made ≡ clean_of (decoded (flat_of value.now))) }
    ensures clean { IfOk result IsCleanText }
{
    let value = flat(alloc, value)?;
    clean_words(alloc, value.as_slice())
}

/// Returns when a text was written, and in which zone, by its first Date field (RFC 5322, section
/// 3.6.1).
fn date(text: &[u8]) -> Option<Moment>
    ensures value { result ≡ date_fact text.now }
    ensures zone { IfSome result (λ written. IsCommitZone written.zone) }
{
    let value = first_value(text, b"Date")?;
    read(value)
}

/// Returns when a text was written.
///
/// If its Date field spells no moment, this is the moment at which the text was taken, in UTC.
pub(crate) fn written_at(text: &[u8], moment: u64) -> Moment
    ensures value { result ≡ written_of (date_fact text.now) moment }
    ensures zone { IsCommitZone result.zone }
{
    match date(text) {
        Some(written) => written,
        None => Moment {
            secs: moment,
            zone: 0,
        },
    }
}
