//! The fields of a header that a section has (RFC 3501, section 6.4.5, HEADER.FIELDS).
//! Allocates.
ghost use Rattle.std.specs.Prelude.{◌≡◌, ◌++◌, ◌∷◌, [], IfOk, OnOk};
ghost use Rattle.std.specs.List.{filter};
ghost use Rattle.mail_reader.specs.Fields.{fields_of};
ghost use Rattle.mail_reader.specs.Laws.{wholes};
ghost use Rattle.mail_reader.specs.Reading.{shown};
ghost use Rattle.imap_syntax.specs.declared.items.SectionText.TheVariants as asked;
ghost use Rattle.imap_items.specs.Sections.{header_bytes};
ghost use Rattle.imap_items.specs.NameSets.{is_one_of, is_picked, picked, IsNameSet};

use crate::searching::lower;
use arch_base::{Bytes, NoMemory};
use mail_forms::header;
use mail_reader::{Field, fields};
use std::alloc::Global;
use std::collections::BTreeSet;
use std::marker::Model;

/// Returns the bytes of all fields of a message and an empty line.
pub(crate) fn whole_header(alloc: Global, message: &[u8]) -> Result<Bytes, NoMemory>
    ensures { IfOk result (λ bytes. bytes ≡ header_bytes asked.Header message.now) }
{
    with_line(alloc, header(message))
}

/// Returns bytes and an empty line.
pub(crate) fn with_line(alloc: Global, bytes: &[u8]) -> Result<Bytes, NoMemory>
    ensures { IfOk result (λ made. made ≡ bytes.now ++ 10 ∷ []) }
{
    let mut made = Bytes::new(alloc);
    made.push_slice(bytes)?;
    made.push(b'\n')?;
    Ok(made)
}

/// Returns the bytes of the fields of a message that have one of these names, or of all others, and an
/// empty line.
pub(crate) fn picked_fields(
    alloc: Global,
    names: &[Bytes],
    wanted: bool,
    message: &[u8],
) -> Result<Bytes, NoMemory>
    ensures { IfOk result (λ bytes. bytes
        ≡ wholes (filter (is_picked names.now wanted) (fields_of message.now)) ++ 10 ∷ []) }
{
    let mut bytes = all_picked(alloc, names, wanted, message)?;
    bytes.push(b'\n')?;
    Ok(bytes)
}

/// Returns the bytes of the fields of a message that have one of these names, or of all others.
fn all_picked(
    alloc: Global,
    names: &[Bytes],
    wanted: bool,
    message: &[u8],
) -> Result<Bytes, NoMemory>
    ensures { IfOk result (λ bytes.
        bytes ≡ wholes (filter (is_picked names.now wanted) (fields_of message.now))) }
{
    let names = NameSet::of(alloc, names)?;
    let mut bytes = Bytes::new(alloc);
    for field in fields(message) {
        push_picked(alloc, &names, wanted, field, &mut bytes)?;
    }
    Ok(bytes)
}

/// Appends the bytes of a field, if it has one of these names, or if it doesn't.
fn push_picked(
    alloc: Global,
    names: &NameSet<'_>,
    wanted: bool,
    field: Field<'_>,
    into: &mut Bytes,
) -> Result<(), NoMemory>
    ensures { OnOk result
        (into.new ≡ into.old ++ picked names.now wanted (shown field.entry)) }
{
    if names.has(alloc, field.name)? == wanted {
        return into.push_slice(field.whole);
    }
    Ok(())
}

/// Names of fields, in any case, among which a name is found without looking at each.
#[derive(Drop)]
struct NameSet<'a> {
    names: &'a [Bytes],
    set: BTreeSet<Vec<u8>>,
}

// A clause sees the names as they are asked for. The set has them in lower case.
impl<'a> Model for NameSet<'a> {
    ghost use Rattle.std.specs.Prelude.{List, ℕ};
    ghost use Rattle.imap_items.specs.NameSets.{IsNameSet};

    ghost Value = { List (List ℕ) };

    ghost view = { λ s. s.names.now };

    ghost invariant = { λ s. IsNameSet s.names.now s.set };
}

impl<'a> NameSet<'a> {
    /// Returns the set of these names.
    fn of(alloc: Global, names: &'a [Bytes]) -> Result<NameSet<'a>, NoMemory>
        ensures { IfOk result (λ made. made ≡ names.now) }
    {
        let set = set_of(alloc, names)?;
        Ok(NameSet { names, set })
    }

    /// Returns whether a name is one of these, in any case.
    fn has(&self, alloc: Global, name: &[u8]) -> Result<bool, NoMemory>
        ensures { IfOk result (λ found. found ≡ is_one_of self.now name.now) }
    {
        let lower = lower(alloc, name)?.into_vec();
        Ok(self.set.contains(&lower))
    }
}

/// Returns the set of names in lower case.
fn set_of(alloc: Global, names: &[Bytes]) -> Result<BTreeSet<Vec<u8>>, NoMemory>
    ensures { IfOk result (λ set. IsNameSet names.now set) }
{
    let mut set = BTreeSet::new(alloc);
    for name in names {
        let lower = lower(alloc, name.as_slice())?.into_vec();
        set.insert(lower)?;
    }
    Ok(set)
}
