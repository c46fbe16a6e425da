//! Finds the messages that a message answers.
//! Allocates.
ghost use Rattle.std.specs.Prelude.{◌≡◌, [], IfOk, OnOk};
ghost use Rattle.std.specs.List.{fold};
ghost use Rattle.mail_reader.specs.Fields.{fields_of};
ghost use Rattle.mail_reader.specs.Ids.{ids_of};
ghost use Rattle.mail_reader.specs.References.{refs_of, ids_in, last, put_new, shown_all};

use crate::header::Fields;
use crate::ids::Ids;
use crate::reading::is_same_name;
use arch_base::{Bytes, NoMemory, Texts};
use std::alloc::Global;
use std::collections::BTreeSet;
use std::marker::Model;

/// The greatest number of references that are returned.
const MAX_REFS: usize = 200;

/// Returns the ids of the messages that a message answers (RFC 5322, section 3.6.4).
///
/// These are the ids of every References field, then of every In-Reply-To field. Of equal ids only
/// the first counts, and of these the last 200 are returned. The only error is `NoMemory`.
pub fn refs_of(alloc: Global, text: &[u8]) -> Result<Texts, NoMemory>
    ensures { IfOk result (λ refs. refs ≡ refs_of text.now) }
{
    let mut found = Distinct::new(alloc);
    push_named(&mut found, text, b"References")?;
    push_named(&mut found, text, b"In-Reply-To")?;
    found.last(alloc, MAX_REFS)
}

/// Appends the ids of the fields with a name.
fn push_named<'a>(found: &mut Distinct<'a>, text: &'a [u8], name: &[u8]) -> Result<(), NoMemory>
    ensures { OnOk result (found.new
        ≡ fold put_new found.old (ids_in name.now (fields_of text.now))) }
{
    for field in Fields::of(text) {
        if is_same_name(field.name, name) {
            push_ids(found, field.value)?;
        }
    }
    Ok(())
}

/// Appends the ids of a value.
fn push_ids<'a>(found: &mut Distinct<'a>, value: &'a [u8]) -> Result<(), NoMemory>
    ensures { OnOk result (found.new ≡ fold put_new found.old (ids_of value.now)) }
{
    for id in Ids::of(value) {
        found.push(id)?;
    }
    Ok(())
}

/// Different ids, in the order in which each came first.
#[derive(Drop)]
struct Distinct<'a> {
    ids: Vec<&'a [u8]>,
    seen: BTreeSet<&'a [u8]>,
}

// A clause sees the ids in order. The set has the same ids.
impl<'a> Model for Distinct<'a> {
    ghost use Rattle.std.specs.Prelude.{List, ℕ};
    ghost use Rattle.mail_reader.specs.References.{shown_all, HasSeen};

    ghost Value = { List (List ℕ) };

    ghost view = { λ d. shown_all d.ids.items };

    ghost invariant = { λ d. HasSeen d.ids.items d.seen };
}

impl<'a> Distinct<'a> {
    /// Returns an empty list of ids.
    fn new(alloc: Global) -> Self
        ensures { result ≡ [] }
    {
        Distinct {
            ids: Vec::new(alloc),
            seen: BTreeSet::new(alloc),
        }
    }

    /// Returns the last `n` ids, or all if there are fewer.
    fn last(&self, alloc: Global, n: usize) -> Result<Texts, NoMemory>
        ensures { IfOk result (λ ids. ids ≡ last n self.now) }
    {
        copy_all(alloc, &self.ids[self.ids.len().saturating_sub(n)..])
    }

    /// Appends an id, unless it is there already.
    fn push(&mut self, id: &'a [u8]) -> Result<(), NoMemory>
        ensures { OnOk result (self.new ≡ put_new self.old id.now) }
    {
        if !self.seen.contains(&id) {
            self.ids.push(id)?;
            if let Err(refused) = self.seen.insert(id) {
                self.ids.pop();
                return Err(refused.into());
            }
        }
        Ok(())
    }
}

/// Copies the texts of slices.
fn copy_all(alloc: Global, slices: &[&[u8]]) -> Result<Texts, NoMemory>
    ensures { IfOk result (λ texts. texts ≡ shown_all slices.now) }
{
    let mut texts = Texts::new(alloc);
    for slice in slices {
        texts.push(copied(alloc, slice)?)?;
    }
    Ok(texts)
}

/// Copies the text of a slice.
fn copied(alloc: Global, slice: &[u8]) -> Result<Bytes, NoMemory>
    ensures { IfOk result (λ text. text ≡ slice.now) }
{
    let mut text = Bytes::new(alloc);
    text.push_slice(slice)?;
    Ok(text)
}
