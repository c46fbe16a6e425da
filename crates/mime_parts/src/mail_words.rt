//! The words of a mail, by which it is searched.
//! Allocates.
ghost use Rattle.std.specs.Prelude.{◌≡◌, ◌++◌, IfOk, OnOk};
ghost use Rattle.mime_parts.specs.Trees.{IsPartOf};
ghost use Rattle.mime_parts.specs.Words.{mail_words, field_words, leaf_words, part_words, body_words};
ghost use Rattle.text_words.specs.Sets.{word_set as set_of};

use crate::decoding::{decode_part, is_shown, read_in};
use crate::params::param;
use crate::part::{Part, Shape};
use crate::visiting::tree;
use arch_base::NoMemory;
use mail_reader::{first_value, flat};
use mime_words::decode;
use std::alloc::Global;
use text_words::{PackedWords, WordLists, push_words, word_set};

/// Returns the words of a mail: those of its subject, of its first From field, and of its text.
///
/// The words of a field are those of its flat value, whose encoded words are decoded. Those of the
/// text are the words of each leaf of type `text` that isn't an attachment, as `body_text` shows it;
/// the lines that stand for other leaves have none. Each list is sorted, without repeats. The only
/// error is `NoMemory`.
#[tactic(auto, unfolding(crate::specs::Words::mail_words))]
pub fn words(alloc: Global, text: &[u8]) -> Result<WordLists, NoMemory>
    ensures { IfOk result (λ words. words ≡ mail_words text.now) }
{
    Ok(WordLists {
        subject: field_words(alloc, text, b"Subject")?,
        from: field_words(alloc, text, b"From")?,
        body: body_words(alloc, text)?,
    })
}

/// Returns the words of the first field with a name, sorted and without repeats.
fn field_words(alloc: Global, text: &[u8], name: &[u8]) -> Result<PackedWords, NoMemory>
    ensures { IfOk result (λ words. words ≡ set_of (field_words name.now text.now)) }
{
    let mut words = PackedWords::new(alloc);
    push_field_words(alloc, text, name, &mut words)?;
    word_set(alloc, &words)
}

/// Appends the words of the first field with a name, if the mail has one.
fn push_field_words(
    alloc: Global,
    text: &[u8],
    name: &[u8],
    into: &mut PackedWords,
) -> Result<(), NoMemory>
    ensures { OnOk result (into.new ≡ into.old ++ field_words name.now text.now) }
{
    match first_value(text, name) {
        Some(value) => {
            let value = flat(alloc, value)?;
            let value = decode(alloc, value.as_slice())?;
            push_words(value.as_slice(), into)
        }
        None => Ok(()),
    }
}

/// Returns the words of a mail's text, sorted and without repeats.
fn body_words(alloc: Global, text: &[u8]) -> Result<PackedWords, NoMemory>
    ensures { IfOk result (λ words. words ≡ set_of (body_words text.now)) }
{
    let words = leaf_words_of(alloc, text)?;
    word_set(alloc, &words)
}

/// Returns the words of all leaves of a mail that are shown as text, in order.
fn leaf_words_of(alloc: Global, text: &[u8]) -> Result<PackedWords, NoMemory>
    ensures { IfOk result (λ words. words ≡ body_words text.now) }
{
    let parts = tree(alloc, text)?;
    let mut words = PackedWords::new(alloc);
    for part in parts.as_slice() {
        push_part_words(alloc, text, part, &mut words)?;
    }
    Ok(words)
}

/// Appends the words of a part.
fn push_part_words(
    alloc: Global,
    text: &[u8],
    part: &Part,
    into: &mut PackedWords,
) -> Result<(), NoMemory>
    requires { IsPartOf text.now part.now }
    ensures { OnOk result (into.new ≡ into.old ++ part_words text.now part.now) }
{
    match part.shape {
        Shape::Leaf => {
            let bytes = decode_part(alloc, text, part)?;
            push_leaf_words(alloc, part, bytes.as_slice(), into)
        }
        Shape::Message | Shape::Multipart => Ok(()),
    }
}

/// Appends the words of a leaf with these decoded bytes, if it is shown as text.
fn push_leaf_words(
    alloc: Global,
    part: &Part,
    bytes: &[u8],
    into: &mut PackedWords,
) -> Result<(), NoMemory>
    ensures { OnOk result (into.new ≡ into.old ++ leaf_words part.now bytes.now) }
{
    if is_shown(part) {
        let charset = param(part.params.as_slice(), b"charset");
        let text = read_in(alloc, charset, bytes)?;
        push_words(text.as_bytes(), into)
    } else {
        Ok(())
    }
}
