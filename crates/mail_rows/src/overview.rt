//! The overview line of a text.
//! Allocates.
ghost use Rattle.std.specs.Prelude.{◌≡◌, ◌++◌, ◌∷◌, [], length, IfOk, OnOk, decimal};
ghost use Rattle.mail_forms.specs.NamedValues.{flat_first as flat_of_first};
ghost use Rattle.mail_forms.specs.WireForms.{wire_of, feeds_of};
ghost use Rattle.mail_reader.specs.Bodies.{body_of};
ghost use Rattle.arch_model.specs.Overviews.{id_fact, over_of};

use arch_base::{Bytes, NoMemory};
use itoa::Buffer;
use mail_forms::flat_first;
use std::alloc::Global;

/// Returns the overview line of a text (RFC 3977, section 8.3), without a number at its front.
///
/// `id` is the own id of the text, `wire` the length of its wire form, and `lines` the number of
/// line feeds in its body. `NoMemory` if an allocation fails.
pub(crate) fn overview_line(
    alloc: Global,
    text: &[u8],
    id: &[u8],
    wire: u64,
    lines: u64,
) -> Result<Bytes, NoMemory>
    requires id { id.now ≡ id_fact text.now }
    requires wire { wire ≡ length (wire_of text.now) }
    requires lines { lines ≡ feeds_of (body_of text.now) }
    ensures { IfOk result (λ made. made ≡ over_of text.now) }
{
    let mut over = Bytes::new(alloc);
    push_first(alloc, text, b"Subject", &mut over)?;
    push_first(alloc, text, b"From", &mut over)?;
    push_first(alloc, text, b"Date", &mut over)?;
    over.push_slice(id)?;
    over.push(b'\t')?;
    push_first(alloc, text, b"References", &mut over)?;
    push_decimal(wire, &mut over)?;
    over.push(b'\t')?;
    push_decimal(lines, &mut over)?;
    Ok(over)
}

/// Appends the flat value of the first field with a name, and a tab.
///
/// `NoMemory` may leave the value appended without the tab.
fn push_first(alloc: Global, text: &[u8], name: &[u8], into: &mut Bytes) -> Result<(), NoMemory>
    ensures { OnOk result (into.new
        ≡ into.old ++ (flat_of_first name.now text.now ++ 9 ∷ [])) }
{
    let value = flat_first(alloc, text, name)?;
    into.push_slice(value.as_slice())?;
    into.push(b'\t')
}

/// Appends the decimal digits of a number.
///
/// `NoMemory` leaves the bytes unchanged.
fn push_decimal(value: u64, into: &mut Bytes) -> Result<(), NoMemory>
    ensures { OnOk result (into.new ≡ into.old ++ decimal value) }
{
    let mut digits = Buffer::new();
    into.push_slice(digits.format(value).as_bytes())
}
