//! Reads the parameters of a type.
//! Allocates.
ghost use Rattle.std.specs.Prelude.{◌≡◌, [], IfOk, if◌then◌else◌};
ghost use Rattle.mime_parts.specs.Lexemes.{lexemes_of};
ghost use Rattle.mime_parts.specs.ContentTypes.{params_of, step_of, end_at, param};
ghost use Rattle.mime_parts.specs.Reading.{shown, TakesLexeme};
ghost use Rattle.std.specs.Str.{str_to_ascii_lowercase, str_eq_ignore_ascii_case};

use crate::lexemes::{Lexeme, Mark, first_lexeme, unescape};
use arch_base::{Bytes, NoMemory, Texts};
use std::alloc::Global;

/// What is expected next in a list of parameters.
#[derive(Clone, Copy, Drop)]
pub(crate) enum Expected {
    /// The semicolon before a parameter.
    Semicolon,
    /// The name of a parameter, or another semicolon.
    Name,
    /// The `=` after a name.
    Equals,
    /// The value after `=`.
    Value,
}

/// Returns the parameters that follow a type in a flat value: name, value, name, value (RFC 2045,
/// section 5.1). Names are in lower case.
///
/// `None` if anything else follows. The only error is `NoMemory`.
pub(crate) fn read_params(alloc: Global, value: &[u8]) -> Result<Option<Texts>, NoMemory>
    ensures { IfOk result (λ found.
        found ≡ params_of Expected.Semicolon (lexemes_of value.now)) }
{
    let mut params = Texts::new(alloc);
    let mut expected = Expected::Semicolon;
    let mut rest = value;
    while let Some((lexeme, after)) = first_lexeme(rest) {
        match push_lexeme(alloc, &mut params, expected, lexeme)? {
            None => return Ok(None),
            Some(next) => expected = next,
        }
        rest = after;
    }
    if may_end(expected) {
        Ok(Some(params))
    } else {
        Ok(None)
    }
}

/// Returns whether a value may end where this is expected.
fn may_end(expected: Expected) -> bool
    ensures { end_at expected ≡ (if result then Some [] else None) }
{
    match expected {
        Expected::Semicolon | Expected::Name => true,
        Expected::Equals | Expected::Value => false,
    }
}

/// Appends what a lexeme adds to parameters, and returns what is expected after it.
///
/// `None` if the lexeme isn't what is expected.
fn push_lexeme(
    alloc: Global,
    params: &mut Texts,
    expected: Expected,
    lexeme: Lexeme<'_>,
) -> Result<Option<Expected>, NoMemory>
    ensures { IfOk result (λ next.
        TakesLexeme (step_of expected (shown lexeme.entry)) params.old params.new next) }
{
    match (expected, lexeme) {
        (Expected::Semicolon | Expected::Name, Lexeme::Mark(Mark::Semicolon)) => {
            Ok(Some(Expected::Name))
        }
        (Expected::Name, Lexeme::Token(name)) => {
            params.push(lower(alloc, name)?)?;
            Ok(Some(Expected::Equals))
        }
        (Expected::Equals, Lexeme::Mark(Mark::Equals)) => Ok(Some(Expected::Value)),
        (Expected::Value, Lexeme::Token(value)) => {
            params.push(copied(alloc, value)?)?;
            Ok(Some(Expected::Semicolon))
        }
        (Expected::Value, Lexeme::Quoted(inside)) => {
            params.push(unescape(alloc, inside)?)?;
            Ok(Some(Expected::Semicolon))
        }
        _ => Ok(None),
    }
}

/// Returns the value of the first parameter with a name, or nothing if there is none.
pub(crate) fn param<'a>(params: &'a [Bytes], name: &[u8]) -> &'a [u8]
    ensures { result.now ≡ param name.now params.now }
{
    let mut at = 0;
    while at + 1 < params.len() {
        if is_same_name(params[at].as_slice(), name) {
            return params[at + 1].as_slice();
        }
        at += 2;
    }
    &[]
}

/// Returns whether two names are equal, ignoring case.
pub(crate) fn is_same_name(name: &[u8], other: &[u8]) -> bool
    ensures { result ≡ str_eq_ignore_ascii_case name.now other.now }
{
    name.eq_ignore_ascii_case(other)
}

/// Copies bytes in lower case.
pub(crate) fn lower(alloc: Global, bytes: &[u8]) -> Result<Bytes, NoMemory>
    ensures { IfOk result (λ made. made ≡ str_to_ascii_lowercase bytes.now) }
{
    let mut made = Bytes::new(alloc);
    for byte in bytes {
        made.push(byte.to_ascii_lowercase())?;
    }
    Ok(made)
}

/// Copies bytes.
pub(crate) fn copied(alloc: Global, bytes: &[u8]) -> Result<Bytes, NoMemory>
    ensures { IfOk result (λ made. made ≡ bytes.now) }
{
    let mut made = Bytes::new(alloc);
    made.push_slice(bytes)?;
    Ok(made)
}
