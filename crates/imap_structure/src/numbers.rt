//! Numbers in replies (RFC 3501, section 9, number).
//! Allocates.
ghost use Rattle.std.specs.Prelude.{◌≡◌, ◌++◌, OnOk};
ghost use Rattle.std.specs.Fmt.{decimal};

use arch_base::{Bytes, NoMemory, decimal};
use std::alloc::Global;

/// Appends a number in decimal, without leading zeros.
///
/// `NoMemory` if an allocation fails, and the bytes are unchanged.
pub fn push_number(alloc: Global, number: u64, into: &mut Bytes) -> Result<(), NoMemory>
    ensures { OnOk result (into.new ≡ into.old ++ decimal number) }
{
    let digits = decimal(alloc, number)?;
    into.push_slice(digits.as_slice())
}
