//! Reads the head of a request.
//! Pure.
ghost use Rattle.std.specs.Prelude.{◌≡◌, IfSome, Some, option_map, length, map};
ghost use Rattle.std.specs.List.{All, list_any};
ghost use Rattle.httparse.specs.Grammar.{RequestHead};
ghost use Rattle.httparse.specs.Spans.{IsHeaderWithin, header_bytes};
ghost use Rattle.http_heads.specs.Heads.{IsHead, announces_body as announces, asks_close as asks, shown, asked_of};

use crate::fields::{announces_body, asks_close};
use httparse::Status;
use httparse::spans::{EMPTY_HEADER_SPAN, HeaderSpan, parse_request};

/// The greatest number of fields in a head.
const MAX_FIELDS: usize = 128;

/// What a head asks.
#[derive(Clone, Copy, Drop)]
pub struct Request<'a> {
    /// The method, as it is written.
    pub method: &'a [u8],
    /// The target, as it is written.
    pub target: &'a [u8],
    /// Whether a field says that a body follows.
    pub has_body: bool,
    /// Whether the connection ends with the reply.
    pub closes: bool,
}

/// Returns what bytes ask, or `None` if they aren't a whole head with at most 128 fields and nothing
/// after it.
pub fn read_head(bytes: &[u8]) -> Option<Request<'_>>
    ensures some { IfSome result (λ request. (head : RequestHead)
        × IsHead bytes.now head × (shown request ≡ asked_of head)) }
    ensures found { (head : RequestHead) → IsHead bytes.now head
        → option_map shown result ≡ Some (asked_of head) }
{
    let mut headers = [EMPTY_HEADER_SPAN; MAX_FIELDS];
    match parse_request(bytes, &mut headers) {
        Ok(Status::Complete(spans)) => {
            if spans.len != bytes.len() {
                return None;
            }
            let fields = &headers[..spans.headers];
            Some(Request {
                method: spans.method.of(bytes),
                target: spans.path.of(bytes),
                has_body: has_body(bytes, fields),
                closes: spans.version == 0 || has_close(bytes, fields),
            })
        }
        _ => None,
    }
}

/// Returns whether one of these fields says that a body follows the head.
fn has_body(bytes: &[u8], fields: &[HeaderSpan]) -> bool
    requires { All (IsHeaderWithin (length bytes.now)) fields.now }
    ensures { result ≡ list_any announces (map (header_bytes bytes.now) fields.now) }
{
    for field in fields {
        if announces_body(field.name.of(bytes), field.value.of(bytes)) {
            return true;
        }
    }
    false
}

/// Returns whether one of these fields asks that the connection is closed.
fn has_close(bytes: &[u8], fields: &[HeaderSpan]) -> bool
    requires { All (IsHeaderWithin (length bytes.now)) fields.now }
    ensures { result ≡ list_any asks (map (header_bytes bytes.now) fields.now) }
{
    for field in fields {
        if asks_close(field.name.of(bytes), field.value.of(bytes)) {
            return true;
        }
    }
    false
}
