//! Readers beside one who delivers and removes.
use crate::served::{ACCEPTED, DELIVERED, joined, served_plain};
use edge_io::MemHost;
use std::alloc::Global;

/// A reader selects the group; then its only message is removed, and the reader goes on.
const REMOVED: &[u8] =
    b"1706781700 o 2 nntp\n1706781700 b 2 18\nGROUP list\r\nSTAT\r\n\n1706781700 b 1 9\nremove 1\n\n1706781700 b 2 12\nSTAT\r\nNEXT\r\n\n1706781701 s\n";

/// What the reader gets.
const READ: &[u8] =
    b"201 piv2 reader\r\n211 1 1 1 list\r\n223 1 <a@x>\r\n420 no current article\r\n421 no next article\r\n";

/// Serves texts of a script in order over an archive in memory, and returns the host.
fn host_after(alloc: Global, texts: &[&[u8]]) -> Option<MemHost> {
    let text = joined(alloc, texts)?;
    let (_end, host) = served_plain(alloc, text.as_slice(), &[])?;
    Some(host)
}

/// Returns whether the reader gets what it should, and the one who delivers the first line.
fn is_read(alloc: Global) -> bool {
    match host_after(alloc, &[DELIVERED, REMOVED]) {
        None => false,
        Some(host) => host.taken(2) == READ && host.taken(1).starts_with(ACCEPTED),
    }
}

#[test]
fn a_message_is_removed_under_a_readers_feet(rt: HostRuntime) {
    assert!(rt; is_read(rt.alloc()));
}

/// A connection opens again while it is open: its session is a new one.
const AGAIN: &[u8] =
    b"1706781700 o 2 nntp\n1706781700 b 2 12\nGROUP list\r\n\n1706781700 o 2 nntp\n1706781700 b 2 6\nNEXT\r\n\n";

/// What it gets.
const TWICE: &[u8] =
    b"201 piv2 reader\r\n211 1 1 1 list\r\n201 piv2 reader\r\n412 no group selected\r\n";

/// Bytes and ends of connections that have no session.
const NOBODY: &[u8] =
    b"1706781700 b 7 6\nDATE\r\n\n1706781700 e 7\n1706781700 e 2\n1706781700 b 2 6\nDATE\r\n\n";

/// Returns whether a connection that opens again has a new session, and one without a session gets
/// nothing and stays open.
fn is_new(alloc: Global) -> bool {
    match host_after(alloc, &[DELIVERED, AGAIN, NOBODY]) {
        None => false,
        Some(host) => {
            host.taken(2) == TWICE
                && host.taken(7).is_empty()
                && !host.is_closed(7)
                && !host.is_closed(2)
        }
    }
}

#[test]
fn a_connection_that_opens_again_has_a_new_session(rt: HostRuntime) {
    assert!(rt; is_new(rt.alloc()));
}
