//! The names of sections, as they are asked for (RFC 3501, section 7.4.2).
//! Allocates.
ghost use Rattle.std.specs.Prelude.{◌≡◌, ◌++◌, IfOk, OnOk};
ghost use Rattle.std.specs.List.{flat_map, list_all};
ghost use Rattle.imap_items.specs.Items.{is_bare, is_bare_name, astring_of, spaced_name, names_text, keyword_of, dotted, dotted_number, after_numbers, origin_of, label_of};

use arch_base::{Bytes, NoMemory, Texts};
use imap_structure::{push_number, push_string};
use imap_syntax::{Partial, Section, SectionText};
use std::alloc::Global;

/// Returns the name of a section, with the offset of a part of it, and a space.
#[tactic(auto, unfolding(crate::specs::Items::label_of))]
pub(crate) fn label(
    alloc: Global,
    section: &Section,
    partial: Option<Partial>,
) -> Result<Bytes, NoMemory>
    ensures { IfOk result (λ made. made ≡ label_of section.now partial) }
{
    let words = keyword(alloc, &section.text)?;
    let mut made = Bytes::new(alloc);
    made.push_slice(b"BODY[")?;
    push_numbers(alloc, section.part.as_slice(), words.as_slice(), &mut made)?;
    made.push(b']')?;
    push_origin(alloc, partial, &mut made)?;
    made.push(b' ')?;
    Ok(made)
}

/// Returns the words for what of a part is asked for.
fn keyword(alloc: Global, what: &SectionText) -> Result<Bytes, NoMemory>
    ensures { IfOk result (λ made. made ≡ keyword_of what.now) }
{
    let mut made = Bytes::new(alloc);
    push_keyword(alloc, what, &mut made)?;
    Ok(made)
}

/// Appends the words for what of a part is asked for.
fn push_keyword(alloc: Global, what: &SectionText, into: &mut Bytes) -> Result<(), NoMemory>
    ensures { OnOk result (into.new ≡ into.old ++ keyword_of what.now) }
{
    match what {
        SectionText::Whole => Ok(()),
        SectionText::Header => into.push_slice(b"HEADER"),
        SectionText::Fields(names) => { push_listed(alloc, b"HEADER.FIELDS ", names, into) }
        SectionText::FieldsNot(names) => { push_listed(alloc, b"HEADER.FIELDS.NOT ", names, into) }
        SectionText::Text => into.push_slice(b"TEXT"),
        SectionText::Mime => into.push_slice(b"MIME"),
    }
}

/// Appends words and names of fields in parentheses.
fn push_listed(alloc: Global, words: &[u8], names: &Texts, into: &mut Bytes) -> Result<(), NoMemory>
    ensures { OnOk result (into.new ≡ into.old ++ (words.now ++ names_text names.now)) }
{
    into.push_slice(words)?;
    push_names(alloc, names.as_slice(), into)
}

/// Appends names of fields in parentheses.
fn push_names(alloc: Global, names: &[Bytes], into: &mut Bytes) -> Result<(), NoMemory>
    ensures { OnOk result (into.new ≡ into.old ++ names_text names.now) }
{
    match names {
        [] => into.push_slice(b"()"),
        [first, others @ ..] => {
            into.push(b'(')?;
            push_astring(alloc, first.as_slice(), into)?;
            push_other_names(alloc, others, into)?;
            into.push(b')')
        }
    }
}

/// Appends names of fields, each after a space.
fn push_other_names(alloc: Global, names: &[Bytes], into: &mut Bytes) -> Result<(), NoMemory>
    ensures { OnOk result (into.new ≡ into.old ++ flat_map spaced_name names.now) }
{
    for name in names {
        push_spaced_name(alloc, name.as_slice(), into)?;
    }
    Ok(())
}

/// Appends the name of a field after a space.
fn push_spaced_name(alloc: Global, name: &[u8], into: &mut Bytes) -> Result<(), NoMemory>
    ensures { OnOk result (into.new ≡ into.old ++ spaced_name name.now) }
{
    into.push(b' ')?;
    push_astring(alloc, name, into)
}

/// Appends the name of a field: bare, or as a string where it can't stand so.
fn push_astring(alloc: Global, name: &[u8], into: &mut Bytes) -> Result<(), NoMemory>
    ensures { OnOk result (into.new ≡ into.old ++ astring_of name.now) }
{
    if is_bare_name(name) {
        into.push_slice(name)
    } else {
        push_string(alloc, name, into)
    }
}

/// Returns whether a name may stand without quotes.
fn is_bare_name(name: &[u8]) -> bool
    ensures { result ≡ is_bare_name name.now }
{
    !name.is_empty() && are_bare(name)
}

/// Returns whether a name may have each of these bytes without quotes.
fn are_bare(bytes: &[u8]) -> bool
    ensures { result ≡ list_all is_bare bytes.now }
{
    bytes.iter().all(|byte| is_bare(*byte))
}

/// Returns whether a name may have a byte without quotes.
fn is_bare(byte: u8) -> bool
    ensures { result ≡ is_bare byte }
{
    byte >= b'!'
        && byte <= b'~'
        && !(byte == b'"'
            || byte == b'%'
            || byte == b'('
            || byte == b')'
            || byte == b'*'
            || byte == b'\\'
            || byte == b'{')
}

/// Appends the numbers of a part and words, with dots between them.
fn push_numbers(
    alloc: Global,
    numbers: &[u32],
    words: &[u8],
    into: &mut Bytes,
) -> Result<(), NoMemory>
    ensures { OnOk result (into.new ≡ into.old ++ after_numbers numbers.now words.now) }
{
    match numbers {
        [] => into.push_slice(words),
        [first, others @ ..] => {
            push_number(alloc, *first as u64, into)?;
            push_other_numbers(alloc, others, into)?;
            push_dotted(words, into)
        }
    }
}

/// Appends numbers, each after a dot.
fn push_other_numbers(alloc: Global, numbers: &[u32], into: &mut Bytes) -> Result<(), NoMemory>
    ensures { OnOk result (into.new ≡ into.old ++ flat_map dotted_number numbers.now) }
{
    for number in numbers {
        push_dotted_number(alloc, *number, into)?;
    }
    Ok(())
}

/// Appends a number after a dot.
fn push_dotted_number(alloc: Global, number: u32, into: &mut Bytes) -> Result<(), NoMemory>
    ensures { OnOk result (into.new ≡ into.old ++ dotted_number number) }
{
    into.push(b'.')?;
    push_number(alloc, number as u64, into)
}

/// Appends words after a dot, if there are any.
fn push_dotted(words: &[u8], into: &mut Bytes) -> Result<(), NoMemory>
    ensures { OnOk result (into.new ≡ into.old ++ dotted words.now) }
{
    if words.is_empty() {
        return Ok(());
    }
    into.push(b'.')?;
    into.push_slice(words)
}

/// Appends the offset at which a partial starts.
fn push_origin(alloc: Global, partial: Option<Partial>, into: &mut Bytes) -> Result<(), NoMemory>
    ensures { OnOk result (into.new ≡ into.old ++ origin_of partial) }
{
    match partial {
        None => Ok(()),
        Some(partial) => {
            into.push(b'<')?;
            push_number(alloc, partial.offset as u64, into)?;
            into.push(b'>')
        }
    }
}
