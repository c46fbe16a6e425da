//! The bytes of a request.
//! Allocates.
ghost use Rattle.std.specs.Prelude.{◌≡◌, IfOk};
ghost use Rattle.std.specs.Char.{is_ascii_graphic};
ghost use Rattle.std.specs.List.{list_all};
ghost use Rattle.peer_replies.specs.Requests.{is_target as target, request_text, AsksTarget};

use arch_base::{Bytes, NoMemory};
use std::alloc::Global;

/// Returns whether a path may stand in a request: it starts with a slash, and each byte is a visible
/// one of ASCII.
pub fn is_target(path: &[u8]) -> bool
    ensures { result ≡ target path.now }
{
    path.first() == Some(&b'/') && is_visible(path)
}

/// Returns whether each byte is a visible one of ASCII.
fn is_visible(path: &[u8]) -> bool
    ensures { result ≡ list_all is_ascii_graphic path.now }
{
    path.iter().all(|byte| byte.is_ascii_graphic())
}

/// Returns the bytes of a request for a path, of the server that an authority names. The connection
/// is to stay open.
///
/// `NoMemory` if an allocation fails.
pub fn request_bytes(alloc: Global, authority: &[u8], path: &[u8]) -> Result<Bytes, NoMemory>
    ensures { IfOk result (λ made. made ≡ request_text authority.now path.now) }
{
    let mut made = Bytes::new(alloc);
    made.push_slice(b"GET ")?;
    made.push_slice(path)?;
    made.push_slice(b" HTTP/1.1\r\nHost: ")?;
    made.push_slice(authority)?;
    made.push_slice(b"\r\nAccept-Encoding: identity\r\nConnection: keep-alive\r\n\r\n")?;
    Ok(made)
}

/// Shows that a request asks for its path: its bytes are those of a head with the method `GET` and
/// this target.
pub fn law_of_requests()
    ensures { AsksTarget }
{}
