//! Nodes that serve the events of scripts.
use arch_base::{Bytes, Numbers};
use arch_model::Keep;
use archive_fixtures::in_memory;
use edge_io::{MemHost, script};
use fixtures::{LIMIT, MAX};
use mem_archive::MemArchive;
use node_serve::{Node, ServeEnd, serve};
use std::alloc::Global;

/// A script's text in which the first connection delivers a message to the archive.
pub(crate) const DELIVERED: &[u8] =
    b"1706781700 o 1 control\n1706781700 b 1 115\ndeliver 103\nFrom: Ann <ann@example.org>\nDate: Thu, 1 Feb 2024 10:00:00 +0000\nSubject: first\nMessage-ID: <a@x>\n\none\n\n";

/// What that connection gets.
pub(crate) const ACCEPTED: &[u8] = b"1 ok 1 1d023c572ccd6f3cc82ae855343346b043adaba5\n";

/// More events than any of these scripts has.
pub(crate) const MANY: u64 = 1000;

/// Returns an archive in memory without messages.
pub(crate) fn plain(alloc: Global) -> Option<MemArchive> {
    in_memory(alloc, LIMIT, MAX, false)
}

/// Returns texts in order as one.
pub(crate) fn joined(alloc: Global, texts: &[&[u8]]) -> Option<Bytes> {
    let mut bytes = Bytes::new(alloc);
    for text in texts {
        bytes.push_slice(text).ok()?;
    }
    Some(bytes)
}

/// Returns a host of a script that fails the listed calls.
pub(crate) fn host(alloc: Global, text: &[u8], listed: &[u64]) -> Option<MemHost> {
    let mut faults = Numbers::new(alloc);
    for ordinal in listed {
        faults.push(*ordinal).ok()?;
    }
    MemHost::new(alloc, script(alloc, text).ok()?, faults).ok()
}

/// Serves a script over a keeper, and returns how that ended, and the host.
pub(crate) fn served<K: Keep + Drop>(
    alloc: Global,
    keep: K,
    text: &[u8],
    listed: &[u64],
) -> Option<(ServeEnd, MemHost)> {
    let mut host = host(alloc, text, listed)?;
    let (end, _keep) = served_on(alloc, keep, &mut host);
    Some((end, host))
}

/// Serves the events of a host over a keeper, and returns how that ended, and the keeper.
pub(crate) fn served_on<K: Keep + Drop>(
    alloc: Global,
    keep: K,
    host: &mut MemHost,
) -> (ServeEnd, K) {
    let mut node = Node::new(alloc, keep);
    let end = serve(alloc, &mut node, host, MANY);
    (end, node.into_keep())
}

/// Serves a script over an archive in memory without messages.
pub(crate) fn served_plain(
    alloc: Global,
    text: &[u8],
    listed: &[u64],
) -> Option<(ServeEnd, MemHost)> {
    served(alloc, plain(alloc)?, text, listed)
}

/// Returns how serving a script ended that may take so many events.
fn end_after(alloc: Global, text: &[u8], turns: u64) -> Option<ServeEnd> {
    let mut host = host(alloc, text, &[])?;
    let mut node = Node::new(alloc, plain(alloc)?);
    Some(serve(alloc, &mut node, &mut host, turns))
}

#[test]
fn serving_ends_when_its_events_are_spent(rt: HostRuntime) {
    let quiet = b"1 q\n2 q\n3 q\n4 q\n";
    assert!(rt; end_after(rt.alloc(), quiet, 3) == Some(ServeEnd::Spent(3)));
    assert!(rt; end_after(rt.alloc(), quiet, 4) == Some(ServeEnd::Spent(4)));
    assert!(rt; end_after(rt.alloc(), quiet, 5) == Some(ServeEnd::Stopped));
    assert!(rt; end_after(rt.alloc(), b"1 q\n2 s\n3 q\n", 2) == Some(ServeEnd::Stopped));
}
