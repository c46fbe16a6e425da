//! The flat values of the fields with a name: that of the first, and all of them as one list.
//! Allocates.
ghost use Rattle.std.specs.Prelude.{◌≡◌, ◌++◌, IfOk, OnOk};
ghost use Rattle.mail_reader.specs.Fields.{fields_of};
ghost use Rattle.mail_reader.specs.Values.{flat_of};
ghost use Rattle.mail_forms.specs.NamedValues.{flat_first, values_of, listed, separated};

use arch_base::{Bytes, NoMemory};
use mail_reader::{fields, first_value, flat, is_same_name};
use std::alloc::Global;

/// Returns the flat value of the first field with a name, or an empty one without such a field.
///
/// `NoMemory` if an allocation fails.
pub fn flat_first(alloc: Global, text: &[u8], name: &[u8]) -> Result<Bytes, NoMemory>
    ensures { IfOk result (λ made. made ≡ flat_first name.now text.now) }
{
    match first_value(text, name) {
        Some(value) => flat(alloc, value),
        None => Ok(Bytes::new(alloc)),
    }
}

/// Returns the flat values of all fields with a name as one list, in order, with a comma and a space
/// between them. Names are compared ignoring case.
///
/// Several fields with addresses are read so as one list of addresses. `NoMemory` if an allocation
/// fails.
pub fn listed_values(alloc: Global, text: &[u8], name: &[u8]) -> Result<Bytes, NoMemory>
    ensures { IfOk result (λ made. made ≡ listed (values_of name.now (fields_of text.now))) }
{
    let mut made = Bytes::new(alloc);
    let mut is_first = true;
    for field in fields(text) {
        if is_same_name(field.name, name) {
            push_value(alloc, is_first, field.value, &mut made)?;
            is_first = false;
        }
    }
    Ok(made)
}

/// Appends the flat value of a field, after a comma and a space unless it is the first.
fn push_value(alloc: Global, is_first: bool, value: &[u8], into: &mut Bytes) -> Result<(), NoMemory>
    ensures { OnOk result (into.new ≡ into.old ++ separated is_first (flat_of value.now)) }
{
    let value = flat(alloc, value)?;
    if !is_first {
        into.push_slice(b", ")?;
    }
    into.push_slice(value.as_slice())
}
