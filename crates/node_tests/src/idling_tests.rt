//! Sessions that idle at the door of IMAP, and what they are told of what others do.
use crate::fault_tests::{ends_one, made_over_failing};
use crate::served::{DELIVERED, host, joined, served_on, served_plain};
use edge_io::MemHost;
use node_serve::update_law;
use std::alloc::Global;

/// Two clients that idle in the mailbox, and one that selected it and doesn't.
const READERS: &[u8] =
    b"1706781700 o 2 imap\n1706781700 b 2 38\na LOGIN u p\r\nb SELECT list.0\r\nc IDLE\r\n\n1706781700 o 3 imap\n1706781700 b 3 38\na LOGIN u p\r\nb SELECT list.0\r\nc IDLE\r\n\n1706781700 o 5 imap\n1706781700 b 5 30\na LOGIN u p\r\nb SELECT list.0\r\n\n";

/// Another connection removes the message.
const REMOVED: &[u8] = b"1706781800 o 4 control\n1706781800 b 4 9\nremove 1\n\n";

/// Nothing happens twice.
const QUIET: &[u8] = b"1706781800 q\n1706781800 q\n";

/// The first client ends its idling.
const ENDED: &[u8] = b"1706781800 b 2 6\nDONE\r\n\n";

/// Serves texts of a script in order over an archive in memory, and returns the host.
fn host_after(alloc: Global, texts: &[&[u8]]) -> Option<MemHost> {
    let text = joined(alloc, texts)?;
    let (_end, host) = served_plain(alloc, text.as_slice(), &[])?;
    Some(host)
}

/// Returns whether a client was told of the removal once, as the last thing.
fn is_told(host: &MemHost, conn: u32) -> bool {
    host.taken(conn)
        .ends_with(b"\r\n+ idling\r\n* 1 EXPUNGE\r\n".as_slice())
}

/// Returns whether those that idle are told of the removal, and the one that doesn't is not.
fn are_told(alloc: Global) -> bool {
    match host_after(alloc, &[DELIVERED, READERS, REMOVED, QUIET]) {
        None => false,
        Some(host) => {
            is_told(&host, 2)
                && is_told(&host, 3)
                && host.taken(5).ends_with(b"SELECT done\r\n".as_slice())
        }
    }
}

#[test]
fn sessions_that_idle_are_told_of_a_removal(rt: HostRuntime) {
    update_law();
    assert!(rt; are_told(rt.alloc()));
}

/// Returns whether each lost send ends one connection alone, updates among them.
fn each_ends_one(alloc: Global) -> Option<bool> {
    let text = joined(alloc, &[DELIVERED, READERS, REMOVED])?;
    let (_end, whole) = served_plain(alloc, text.as_slice(), &[])?;
    for ordinal in 1..80 {
        if !ends_one(alloc, text.as_slice(), &whole, ordinal) {
            return Some(false);
        }
    }
    Some(is_told(&whole, 2) && is_told(&whole, 3))
}

#[test]
fn a_lost_update_ends_its_connection_alone(rt: HostRuntime) {
    assert!(rt; each_ends_one(rt.alloc()) == Some(true));
}

/// Returns whether a client that idled knows at its end what another one was answered: the removal,
/// if it was carried out. It may have been refused because the disk failed.
fn agrees(host: &MemHost) -> bool {
    let got = host.taken(2);
    if host.is_closed(2) {
        return got.ends_with(b"* BYE disk fault\r\n".as_slice());
    }
    if host.taken(4).starts_with(b"1 ok 1 ".as_slice()) {
        return got.ends_with(b"* 1 EXPUNGE\r\nc OK IDLE done\r\n".as_slice());
    }
    got.ends_with(b"c OK IDLE done\r\n".as_slice())
}

/// Returns whether that is so where one call of the disk fails.
fn agrees_over(alloc: Global, ordinal: u64) -> Option<bool> {
    let Some(engine) = made_over_failing(alloc, ordinal) else {
        return Some(true);
    };
    let text = joined(alloc, &[DELIVERED, READERS, REMOVED, QUIET, ENDED])?;
    let mut host = host(alloc, text.as_slice(), &[])?;
    let (_end, _engine) = served_on(alloc, engine, &mut host);
    Some(agrees(&host))
}

#[test]
fn after_a_failed_reopening_sessions_are_told_later(rt: HostRuntime) {
    for ordinal in 1..80 {
        assert!(rt; agrees_over(rt.alloc(), ordinal) == Some(true));
    }
}
