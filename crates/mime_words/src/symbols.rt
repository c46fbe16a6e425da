//! Base64 that may have other bytes in it.
//! Allocates.
ghost use Rattle.std.specs.Prelude.{◌≡◌, ◌≢◌, ◌++◌, ◌∷◌, [], ◌%◌, length, IfOk, OnOk, true, if◌then◌else◌};
ghost use Rattle.std.specs.List.{list_all};
ghost use Rattle.mime_words.specs.Base64.{is_symbol, sextets, packed, unbase64};
ghost use Rattle.mime_words.specs.Engine.{IsLenient};

use arch_base::{Bytes, NoMemory};
use base64::engine::DecodePaddingMode;
use base64::engine::general_purpose::{GeneralPurpose, GeneralPurposeConfig};
use base64::{DecodeAllocError, alphabet};
use std::alloc::Global;

/// Returns the bytes that a base64 text encodes (RFC 2045, section 6.8).
///
/// Bytes outside of the alphabet are skipped, the first `=` ends the text, and bits at its end that
/// make no whole byte are dropped. The only error is `NoMemory`.
#[tactic(auto, unfolding(crate::specs::Base64::unbase64))]
pub fn unbase64(alloc: Global, text: &[u8]) -> Result<Bytes, NoMemory>
    ensures { IfOk result (λ bytes. bytes ≡ unbase64 text.now) }
{
    let symbols = symbols_of(alloc, text)?;
    decode_symbols(alloc, without_lone(symbols.as_slice()))
}

/// Appends the bytes that a base64 text encodes.
pub fn push_unbase64(alloc: Global, text: &[u8], into: &mut Bytes) -> Result<(), NoMemory>
    ensures { OnOk result (into.new ≡ into.old ++ unbase64 text.now) }
{
    let bytes = unbase64(alloc, text)?;
    into.push_slice(bytes.as_slice())
}

/// Returns the symbols of a base64 text: its bytes of the alphabet before the first `=`.
fn symbols_of(alloc: Global, text: &[u8]) -> Result<Bytes, NoMemory>
    ensures value { IfOk result (λ symbols. sextets symbols ≡ sextets text.now) }
    ensures symbols { IfOk result (λ symbols. list_all is_symbol symbols ≡ true) }
{
    let mut symbols = Bytes::new(alloc);
    for byte in text {
        if *byte == b'=' {
            return Ok(symbols);
        }
        push_symbol(&mut symbols, *byte)?;
    }
    Ok(symbols)
}

/// Appends a byte to symbols if it is one.
fn push_symbol(symbols: &mut Bytes, byte: u8) -> Result<(), NoMemory>
    ensures { OnOk result (symbols.new
        ≡ (if is_symbol byte then symbols.old ++ byte ∷ [] else symbols.old)) }
{
    if is_symbol(byte) {
        symbols.push(byte)
    } else {
        Ok(())
    }
}

/// Returns whether a byte is in the alphabet.
fn is_symbol(byte: u8) -> bool
    ensures { result ≡ is_symbol byte }
{
    matches!(byte, b'A'..=b'Z' | b'a'..=b'z' | b'0'..=b'9' | b'+' | b'/')
}

/// Returns symbols without a single one after groups of four, since it makes no whole byte.
fn without_lone(symbols: &[u8]) -> &[u8]
    requires { list_all is_symbol symbols.now ≡ true }
    ensures value { packed (sextets result.now) ≡ packed (sextets symbols.now) }
    ensures symbols { list_all is_symbol result.now ≡ true }
    ensures len { length result.now % 4 ≢ 1 }
{
    if symbols.len() % 4 == 1 {
        &symbols[..symbols.len() - 1]
    } else {
        symbols
    }
}

/// Returns the bytes that symbols encode.
fn decode_symbols(alloc: Global, symbols: &[u8]) -> Result<Bytes, NoMemory>
    requires symbols { list_all is_symbol symbols.now ≡ true }
    requires len { length symbols.now % 4 ≢ 1 }
    ensures { IfOk result (λ bytes. bytes ≡ packed (sextets symbols.now)) }
{
    match lenient().decode(alloc, symbols) {
        Ok(bytes) => Ok(Bytes::from_vec(bytes)),
        Err(DecodeAllocError::OutOfMemory) => Err(NoMemory),
        Err(DecodeAllocError::DecodeError(_)) => unreachable!(),
    }
}

/// Returns the engine that takes texts without padding, whatever bits follow the last whole byte.
fn lenient() -> GeneralPurpose
    ensures { IsLenient result }
{
    let config = GeneralPurposeConfig::new()
        .with_decode_allow_trailing_bits(true)
        .with_decode_padding_mode(DecodePaddingMode::Indifferent);
    GeneralPurpose::new(&alphabet::STANDARD, config)
}
