//! Texts in texts, without regard to the case of ASCII letters.
//! Allocates.
ghost use Rattle.std.specs.Prelude.{◌≡◌, IfOk};
ghost use Rattle.std.specs.Str.{str_to_ascii_lowercase};
ghost use Rattle.imap_items.specs.Searching.{has_piece};

use arch_base::{Bytes, NoMemory};
use memchr::memmem;
use std::alloc::Global;

/// Returns a copy of bytes with ASCII letters in lower case.
pub(crate) fn lower(alloc: Global, bytes: &[u8]) -> Result<Bytes, NoMemory>
    ensures { IfOk result (λ made. made ≡ str_to_ascii_lowercase bytes.now) }
{
    let mut made = Bytes::new(alloc);
    made.push_slice(bytes)?;
    Ok(into_lower(made))
}

/// Returns the bytes with ASCII letters in lower case. Allocates nothing.
pub(crate) fn into_lower(bytes: Bytes) -> Bytes
    ensures { result ≡ str_to_ascii_lowercase bytes }
{
    let mut items = bytes.into_vec();
    make_lower(items.as_mut_slice());
    Bytes::from_vec(items)
}

/// Puts ASCII letters in lower case.
fn make_lower(bytes: &mut [u8])
    ensures { bytes.new ≡ str_to_ascii_lowercase bytes.old }
{
    for byte in bytes.iter_mut() {
        byte.make_ascii_lowercase();
    }
}

/// Returns whether a text has another in it.
pub(crate) fn has_piece(piece: &[u8], text: &[u8]) -> bool
    ensures { result ≡ has_piece piece.now text.now }
{
    memmem::find(text, piece).is_some()
}
