//! Writes and reads unsigned decimals.
//! Allocates.
ghost use Rattle.std.specs.Prelude.{◌≡◌, ◌≢◌, ◌<◌, ◌≤◌, ◌^◌, ◌+◌, ◌-◌, ◌*◌, ℕ, IfOk, IfSome, IfNone, MatchOption};
ghost use Rattle.std.specs.Fmt.{decimal as printed};
ghost use Rattle.arch_base.specs.Decimals.{IsPadded, IsDecimalValue, decimal_of};

use crate::sequence::{Bytes, NoMemory};
use std::alloc::Global;

/// Returns the decimal digits of a number, without leading zeros.
///
/// `NoMemory` if an allocation fails.
pub fn decimal(alloc: Global, value: u64) -> Result<Bytes, NoMemory>
    ensures { IfOk result (λ text. text ≡ printed value) }
{
    let text = value.to_string(alloc)?;
    Ok(Bytes::from_vec(text.into_bytes()))
}

/// Returns the number that a text spells, or `None` if it spells none.
///
/// A text spells a number if it is `0`, or digits without a leading zero, and the value is below
/// 2^64.
pub fn read_decimal(text: &[u8]) -> Option<u64>
    ensures value { result ≡ decimal_of text.now }
    ensures found { IfSome result (λ value. text.now ≡ printed value) }
    ensures none { IfNone result ((value : ℕ) → value < 2 ^ 64 → text.now ≢ printed value) }
{
    if is_padded(text) {
        return None;
    }
    value_of(text)
}

/// Returns whether a text is empty, or starts with a zero and has more bytes.
fn is_padded(text: &[u8]) -> bool
    ensures { IsPadded text.now result }
{
    text.is_empty() || (text[0] == b'0' && text.len() > 1)
}

/// Returns the value of a text of digits.
///
/// `None` if a byte is not a digit, or if the value does not fit in a `u64`.
fn value_of(text: &[u8]) -> Option<u64>
    ensures { IsDecimalValue text.now result }
{
    let mut value: u64 = 0;
    for byte in text {
        if !byte.is_ascii_digit() {
            return None;
        }
        match with_digit(value, *byte) {
            None => return None,
            Some(next) => value = next,
        }
    }
    Some(value)
}

/// Appends a decimal digit to a value.
///
/// `None` if the result does not fit in a `u64`.
fn with_digit(value: u64, digit: u8) -> Option<u64>
    requires { 48 ≤ digit }
    ensures { MatchOption result (2 ^ 64 ≤ 10 * value + (digit - 48)) (λ next.
        next ≡ 10 * value + (digit - 48)) }
{
    match value.checked_mul(10) {
        None => None,
        Some(tens) => tens.checked_add(u64::from(digit - b'0')),
    }
}
