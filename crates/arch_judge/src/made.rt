//! Made ids, and texts with a made id at the front.
//! Allocates.
ghost use Rattle.std.specs.Prelude.{◌≡◌, ◌++◌, IfOk};
ghost use Rattle.mail_reader.specs.Laws.{id_line};
ghost use Rattle.arch_model.specs.Candidates.{id_with};
ghost use Rattle.arch_model.specs.declared.choice.Choice.TheVariants.{Take};

use arch_base::{Bytes, NoMemory};
use arch_model::Choice;
use itoa::Buffer;
use std::alloc::Global;

/// Returns the made id `<DIGITS.COUNT@NAME.invalid>` (RFC 2606, section 2).
#[tactic(auto, unfolding(arch_model::specs::Candidates::id_with))]
pub(crate) fn made_id(
    alloc: Global,
    digits: &[u8],
    count: u64,
    name: &[u8],
) -> Result<Bytes, NoMemory>
    ensures { IfOk result (λ id. id ≡ id_with digits.now count name.now) }
{
    let mut id = Bytes::new(alloc);
    let mut buffer = Buffer::new();
    id.push(b'<')?;
    id.push_slice(digits)?;
    id.push(b'.')?;
    id.push_slice(buffer.format(count).as_bytes())?;
    id.push(b'@')?;
    id.push_slice(name)?;
    id.push_slice(b".invalid>")?;
    Ok(id)
}

/// Returns the choice to keep a text with a Message-ID field of this id at the front (RFC 5322,
/// section 3.6.4).
pub(crate) fn with_id(id: &[u8], text: &[u8], alloc: Global) -> Result<Choice, NoMemory>
    ensures { IfOk result (λ choice. choice ≡ Take (id_line id.now ++ text.now)) }
{
    let mut bytes = Bytes::new(alloc);
    bytes.push_slice(b"Message-ID: ")?;
    bytes.push_slice(id)?;
    bytes.push(b'\n')?;
    bytes.push_slice(text)?;
    Ok(Choice::Take(bytes))
}
