//! Unfolds the value of a field.
//! Allocates.
ghost use Rattle.std.specs.Prelude.{◌≡◌, ◌||◌, ◌==◌, IfOk};
ghost use Rattle.mail_reader.specs.Stored.{without_end};
ghost use Rattle.mail_reader.specs.Values.{flat_of, space_for, unfolded, without_front};

use arch_base::{Bytes, NoMemory};
use std::alloc::{AllocError, Global};

/// Returns the flat value of a field's value (RFC 5322, section 2.2.3).
///
/// It has no line feeds, has a space for each tab, carriage return and NUL, and has no spaces at
/// its ends. The only error is `NoMemory`.
pub fn flat(alloc: Global, value: &[u8]) -> Result<Bytes, NoMemory>
    ensures { IfOk result (λ made. made ≡ flat_of value.now) }
{
    let made = unfold(alloc, trim(value))?;
    Ok(Bytes::from_vec(made))
}

/// Returns a value without its line feeds, in which a space replaces each tab, carriage return and
/// NUL.
fn unfold(alloc: Global, value: &[u8]) -> Result<Vec<u8>, AllocError>
    ensures { IfOk result (λ made. made.items ≡ unfolded value.now) }
{
    value
        .iter()
        .filter(|byte| **byte != b'\n')
        .map(|byte| space_for(*byte))
        .collect(alloc)
}

/// Returns a space for a tab, a carriage return and a NUL, and any other byte unchanged.
pub(crate) fn space_for(byte: u8) -> u8
    ensures { result ≡ space_for byte }
{
    match byte {
        b'\t' | b'\r' | 0 => b' ',
        _ => byte,
    }
}

/// Returns a value without the bytes at its ends that become nothing or a space.
pub(crate) fn trim(value: &[u8]) -> &[u8]
    ensures { unfolded result.now ≡ flat_of value.now }
{
    trim_end(trim_start(value))
}

/// Returns a value without the bytes at its front that become nothing or a space.
fn trim_start(value: &[u8]) -> &[u8]
    ensures { unfolded result.now ≡ without_front (unfolded value.now) }
{
    let mut rest = value;
    while let [first, others @ ..] = rest {
        if !is_blank(*first) {
            return rest;
        }
        rest = others;
    }
    rest
}

/// Returns a value without the bytes at its end that become nothing or a space.
fn trim_end(value: &[u8]) -> &[u8]
    ensures { unfolded result.now ≡ without_end 32 (unfolded value.now) }
{
    let mut rest = value;
    while let [others @ .., last] = rest {
        if !is_blank(*last) {
            return rest;
        }
        rest = others;
    }
    rest
}

/// Returns whether a byte becomes nothing or a space.
fn is_blank(byte: u8) -> bool
    ensures { result ≡ (byte == 10 || space_for byte == 32) }
{
    byte == b'\n' || space_for(byte) == b' '
}
