//! Sends that are lost, and disks that fail.
use crate::served::{ACCEPTED, DELIVERED, host, joined, served_on, served_plain};
use arch_base::Numbers;
use archive_core::Engine;
use disk_model::MemDisk;
use edge_io::MemHost;
use fixtures::{LIMIT, MAX, settings};
use node_serve::ServeEnd;
use std::alloc::Global;

/// Two readers, of which each asks for the message.
const READERS: &[u8] =
    b"1706781700 o 2 nntp\n1706781700 b 2 21\nGROUP list\r\nARTICLE\r\n\n1706781700 o 3 nntp\n1706781700 b 3 21\nGROUP list\r\nARTICLE\r\n\n";

/// Returns whether a connection took what it takes where no call fails.
fn is_same(host: &MemHost, whole: &MemHost, conn: u32) -> bool {
    host.taken(conn) == whole.taken(conn) && host.is_closed(conn) == whole.is_closed(conn)
}

/// Returns whether a connection took a part of that and was closed.
fn is_cut(host: &MemHost, whole: &MemHost, conn: u32) -> bool {
    whole.taken(conn).starts_with(host.taken(conn)) && host.is_closed(conn)
}

/// Returns how many connections lost something, if each that did was closed.
fn count_cut(host: &MemHost, whole: &MemHost) -> Option<u64> {
    let mut cut: u64 = 0;
    for conn in 1..4 {
        if !is_same(host, whole, conn) {
            if !is_cut(host, whole, conn) {
                return None;
            }
            cut = cut.saturating_add(1);
        }
    }
    Some(cut)
}

/// Returns whether the call with this ordinal either was no send that is made, or its loss ended one
/// connection alone.
pub(crate) fn ends_one(alloc: Global, text: &[u8], whole: &MemHost, ordinal: u64) -> bool {
    match served_plain(alloc, text, &[ordinal]) {
        None => false,
        Some((ServeEnd::HostFault, _host)) => true,
        Some((_end, host)) => match count_cut(&host, whole) {
            None => false,
            Some(cut) => cut <= 1,
        },
    }
}

/// Returns whether each lost send ends one connection alone.
fn each_ends_one(alloc: Global) -> Option<bool> {
    let text = joined(alloc, &[DELIVERED, READERS])?;
    let (_end, whole) = served_plain(alloc, text.as_slice(), &[])?;
    for ordinal in 1..60 {
        if !ends_one(alloc, text.as_slice(), &whole, ordinal) {
            return Some(false);
        }
    }
    Some(whole.taken(1) == ACCEPTED && whole.taken(2) == whole.taken(3))
}

#[test]
fn a_lost_send_ends_its_connection_alone(rt: HostRuntime) {
    assert!(rt; each_ends_one(rt.alloc()) == Some(true));
}

/// A reader who asks for the message by its number.
const ASKED: &[u8] =
    b"1706781700 o 2 nntp\n1706781700 b 2 23\nGROUP list\r\nARTICLE 1\r\n\n1706781701 s\n";

/// What the reader gets of the archive with the message, and of the one before.
const NEW: &[u8] =
    b"201 piv2 reader\r\n211 1 1 1 list\r\n220 1 <a@x>\r\nFrom: Ann <ann@example.org>\r\nDate: Thu, 1 Feb 2024 10:00:00 +0000\r\nSubject: first\r\nMessage-ID: <a@x>\r\n\r\none\r\n.\r\n";

const OLD: &[u8] = b"201 piv2 reader\r\n211 0 1 0 list\r\n423 no such number\r\n";

/// What the reader gets if the disk fails as the text is read.
const UNREAD: &[u8] = b"201 piv2 reader\r\n211 1 1 1 list\r\n403 disk fault\r\n";

/// Makes an archive on a disk of which one call fails.
pub(crate) fn made_over_failing(alloc: Global, ordinal: u64) -> Option<Engine<MemDisk>> {
    let config = settings(LIMIT, MAX, false)?;
    let mut listed = Numbers::new(alloc);
    listed.push(ordinal).ok()?;
    let disk = MemDisk::new(alloc, listed);
    Engine::make(alloc, disk, &config).ok()
}

/// Serves the delivery and then the reader over an archive, and returns the host and the disk.
fn served_disk(alloc: Global, engine: Engine<MemDisk>) -> Option<(MemHost, MemDisk)> {
    let text = joined(alloc, &[DELIVERED, ASKED])?;
    let mut host = host(alloc, text.as_slice(), &[])?;
    let (_end, engine) = served_on(alloc, engine, &mut host);
    Some((host, engine.into_disk()))
}

/// Returns whether the message is in: the reader gets it, unless the disk fails as it is read.
fn is_in(host: &MemHost) -> bool {
    host.taken(1) == ACCEPTED && (host.taken(2) == NEW || host.taken(2) == UNREAD)
}

/// Returns whether the delivery was told of a fault, and the reader gets one of the two archives.
fn is_in_doubt(host: &MemHost) -> bool {
    let told = host.taken(1) == b"10 disk fault\n".as_slice();
    told && (host.taken(2) == NEW || host.taken(2) == OLD)
}

/// Returns whether the reader gets the same of the disk that was left, opened anew.
fn is_left(alloc: Global, disk: MemDisk, served: &MemHost) -> Option<bool> {
    let engine = Engine::open(alloc, disk).ok()?;
    let mut later = host(alloc, ASKED, &[])?;
    let (_end, _engine) = served_on(alloc, engine, &mut later);
    Some(later.taken(2) == served.taken(2))
}

/// Returns whether replies agree where one call of the disk fails.
fn agree_after(alloc: Global, ordinal: u64) -> Option<bool> {
    let Some(engine) = made_over_failing(alloc, ordinal) else {
        return Some(true);
    };
    let (host, disk) = served_disk(alloc, engine)?;
    if is_in(&host) {
        return Some(true);
    }
    Some(is_in_doubt(&host) && is_left(alloc, disk, &host)?)
}

#[test]
fn after_a_failed_commit_the_archive_is_reopened_first(rt: HostRuntime) {
    for ordinal in 1..80 {
        assert!(rt; agree_after(rt.alloc(), ordinal) == Some(true));
    }
}
