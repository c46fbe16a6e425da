//! The address of a web server.
//! Pure.
ghost use Rattle.std.specs.Prelude.{◌≡◌, ◌≢◌, ◌++◌, ◌∷◌, ℕ, List, false, IfSome, IfNone, MatchOption};
ghost use Rattle.std.specs.Fmt.{decimal};
ghost use Rattle.std.specs.List.{list_all};
ghost use Rattle.edge_io.specs.Parsing.{LacksByte, Spells};
ghost use Rattle.peer_replies.specs.PeerAddresses.{IsPeerAddress, IsPort, ReadsAddress, address_text, are_host_bytes as host_bytes, is_host_byte as name_byte, is_v6_byte as v6_byte};
ghost use Rattle.peer_replies.specs.declared.address.PeerAddress.{PeerAddress};

use arch_base::read_decimal;
use memchr::memchr;

/// The address of a web server.
#[derive(Clone, Copy, Debug, Drop, PartialEq, Eq)]
pub struct PeerAddress<'a> {
    /// The name of the host, or its address without brackets.
    pub host: &'a [u8],
    /// Whether the host stands in brackets.
    pub bracketed: bool,
    /// The port.
    pub port: u16,
}

/// Reads an address: `HOST:PORT`, or `[V6]:PORT`.
pub fn read_address(text: &[u8]) -> Option<PeerAddress<'_>>
    ensures { ReadsAddress text.now result }
{
    match after(b'[', text) {
        Some(rest) => read_bracketed(rest),
        None => read_plain(text),
    }
}

/// Reads an address whose host stands in brackets, after the first of them.
fn read_bracketed(rest: &[u8]) -> Option<PeerAddress<'_>>
    ensures { Spells IsPeerAddress address_text (91 ∷ rest.now) result }
{
    let (host, rest) = divide(b']', rest)?;
    address_of(host, true, after(b':', rest)?)
}

/// Reads an address that doesn't start with a bracket.
fn read_plain(text: &[u8]) -> Option<PeerAddress<'_>>
    ensures some { IfSome result (λ a. IsPeerAddress a × (text.now ≡ address_text a)) }
    ensures none { IfNone result ((a : PeerAddress) → IsPeerAddress a → a.bracketed ≡ false
        → text.now ≢ address_text a) }
{
    let (host, port) = divide(b':', text)?;
    address_of(host, false, port)
}

/// Returns the address of a host and of a port that a text spells.
fn address_of<'a>(host: &'a [u8], bracketed: bool, port: &[u8]) -> Option<PeerAddress<'a>>
    ensures some { IfSome result (λ a. IsPeerAddress a × (a.host.now ≡ host.now)
        × (a.bracketed ≡ bracketed) × (port.now ≡ decimal a.port)) }
    ensures none { IfNone result ((a : PeerAddress) → IsPeerAddress a → a.bracketed ≡ bracketed
        → a.host.now ≡ host.now → port.now ≢ decimal a.port) }
{
    if host.is_empty() || !are_host_bytes(host, bracketed) {
        return None;
    }
    let port = read_port(port)?;
    Some(PeerAddress {
        host,
        bracketed,
        port,
    })
}

/// Returns whether the bytes of a host are of its kind.
fn are_host_bytes(host: &[u8], bracketed: bool) -> bool
    ensures { result ≡ host_bytes bracketed host.now }
{
    if bracketed {
        are_v6_bytes(host)
    } else {
        are_name_bytes(host)
    }
}

/// Returns whether each of the bytes may stand in the name of a host.
fn are_name_bytes(host: &[u8]) -> bool
    ensures { result ≡ list_all name_byte host.now }
{
    host.iter().all(|byte| is_host_byte(*byte))
}

/// Returns whether each of the bytes may stand in an IPv6 address.
fn are_v6_bytes(host: &[u8]) -> bool
    ensures { result ≡ list_all v6_byte host.now }
{
    host.iter().all(|byte| is_v6_byte(*byte))
}

/// Returns whether a byte may stand in the name of a host.
fn is_host_byte(byte: u8) -> bool
    ensures { result ≡ name_byte byte }
{
    byte.is_ascii_alphanumeric() || byte == b'-' || byte == b'.' || byte == b'_'
}

/// Returns whether a byte may stand in an IPv6 address.
fn is_v6_byte(byte: u8) -> bool
    ensures { result ≡ v6_byte byte }
{
    byte.is_ascii_hexdigit() || byte == b':' || byte == b'.'
}

/// Reads a port, from 1 to 65,535.
fn read_port(text: &[u8]) -> Option<u16>
    ensures { Spells IsPort decimal text.now result }
{
    let value = read_decimal(text)?;
    if value == 0 {
        return None;
    }
    if value > 65_535 {
        return None;
    }
    Some(value as u16)
}

/// Splits a text at the first such byte, or returns `None` if it has none.
fn divide(byte: u8, text: &[u8]) -> Option<(&[u8], &[u8])>
    ensures { MatchOption result (LacksByte byte text.now) (λ parts. LacksByte byte parts.0.now
        × (text.now ≡ parts.0.now ++ byte ∷ parts.1.now)) }
{
    let offset = memchr(byte, text)?;
    Some((&text[..offset], &text[offset + 1..]))
}

/// Returns what follows a byte at the front of a text, or `None` if it isn't there.
fn after(byte: u8, text: &[u8]) -> Option<&[u8]>
    ensures { MatchOption result ((rest : List ℕ) → text.now ≢ byte ∷ rest)
        (λ rest. text.now ≡ byte ∷ rest.now) }
{
    match text {
        [first, rest @ ..] if *first == byte => Some(rest),
        _ => None,
    }
}
