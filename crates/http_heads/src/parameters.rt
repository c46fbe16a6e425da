//! The path and the parameters of a target.
//! Allocates.
ghost use Rattle.std.specs.Prelude.{◌≡◌, ◌≤◌, IfOk, length, option_copied};
ghost use Rattle.std.specs.List.{prefix_len};
ghost use Rattle.http_heads.specs.Parameters.{is_of_path, path_of, query_of, parameter as parameter_of, skipped};

use arch_base::{Bytes, NoMemory, read_decimal};
use form_urlencoded::{decode, raw_pairs};
use std::alloc::Global;

/// Returns the path of a target and its parameters: what stands before and after the first `?`.
pub fn split_target(target: &[u8]) -> (&[u8], &[u8])
    ensures path { result.0.now ≡ path_of target.now }
    ensures query { result.1.now ≡ query_of target.now }
{
    let (path, rest) = target.split_at(path_len(target));
    match rest {
        [_, query @ ..] => (path, query),
        [] => (path, rest),
    }
}

/// Returns the number of bytes before the first `?`.
fn path_len(target: &[u8]) -> usize
    ensures value { result ≡ prefix_len is_of_path target.now }
    ensures within { result ≤ length target.now }
{
    target.iter().take_while(|byte| **byte != b'?').count()
}

/// Returns the value of the first parameter with a name, or `None` if there is none.
///
/// Names and values are decoded, with U+FFFD for bytes that aren't UTF-8. `NoMemory` if an allocation
/// fails.
#[tactic(auto, unfolding(crate::specs::Parameters::parameter))]
pub fn parameter(alloc: Global, query: &[u8], name: &[u8]) -> Result<Option<Bytes>, NoMemory>
    ensures { IfOk result (λ found. found ≡ parameter_of name.now query.now) }
{
    for (encoded, value) in raw_pairs(query) {
        if decode(alloc, encoded)?.as_bytes() == name {
            let mut found = Bytes::new(alloc);
            found.push_slice(decode(alloc, value)?.as_bytes())?;
            return Ok(Some(found));
        }
    }
    Ok(None)
}

/// Returns how many rows are skipped by the value of a parameter: the number that it spells, or 0.
pub fn skip_of(value: Option<&[u8]>) -> u64
    ensures { result ≡ skipped (option_copied value.entry) }
{
    match value {
        Some(text) => read_decimal(text).unwrap_or(0),
        None => 0,
    }
}
