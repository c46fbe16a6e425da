//! What the fields of a head say of a body and of the connection.
//! Pure.
ghost use Rattle.std.specs.Prelude.{◌≡◌, reverse};
ghost use Rattle.std.specs.List.{list_any};
ghost use Rattle.httparse.specs.Grammar.{skip_ows, trim_ows as trimmed};
ghost use Rattle.http_heads.specs.Pieces.{pieces_of};
ghost use Rattle.http_heads.specs.Heads.{announces_body as announces, is_close as closing, asks_close as asks};

use crate::pieces::Pieces;
use httparse::is_space_or_tab;

/// Returns whether a field says that a body follows the head.
pub(crate) fn announces_body(name: &[u8], value: &[u8]) -> bool
    ensures { result ≡ announces (name.now, value.now) }
{
    name.eq_ignore_ascii_case(b"Transfer-Encoding")
        || (name.eq_ignore_ascii_case(b"Content-Length") && value != b"0".as_slice())
}

/// Returns whether a field asks that the connection is closed.
pub(crate) fn asks_close(name: &[u8], value: &[u8]) -> bool
    ensures { result ≡ asks (name.now, value.now) }
{
    name.eq_ignore_ascii_case(b"Connection") && has_close(value)
}

/// Returns whether a piece of a value between commas is the option `close`.
fn has_close(value: &[u8]) -> bool
    ensures { result ≡ list_any closing (pieces_of 44 value.now) }
{
    for piece in Pieces::of(value, b',') {
        if is_close(piece) {
            return true;
        }
    }
    false
}

/// Returns whether a piece is the option `close`, with spaces and tabs around it or not.
#[tactic(auto, unfolding(httparse::specs::Grammar::trim_ows))]
fn is_close(piece: &[u8]) -> bool
    ensures { result ≡ closing piece.now }
{
    trim_end(trim_start(piece)).eq_ignore_ascii_case(b"close")
}

/// Returns bytes without the spaces and tabs at their front.
fn trim_start(mut bytes: &[u8]) -> &[u8]
    ensures { result.now ≡ skip_ows bytes.now }
{
    while let [first, rest @ ..] = bytes
        && is_space_or_tab(*first)
    {
        bytes = rest;
    }
    bytes
}

/// Returns bytes without the spaces and tabs at their end.
fn trim_end(mut bytes: &[u8]) -> &[u8]
    ensures { result.now ≡ reverse (skip_ows (reverse bytes.now)) }
{
    while let [rest @ .., last] = bytes
        && is_space_or_tab(*last)
    {
        bytes = rest;
    }
    bytes
}
