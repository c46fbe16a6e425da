//! Tests of a reader's streamed reply, over disks that fail.
use crate::connection::archive;
use crate::say_texts;
use arch_base::Numbers;
use arch_model::{Command, Keep};
use archive_fixtures::{Failing, FailingKeep, Unread};
use edge_io::MemSink;
use mem_archive::MemArchive;
use std::alloc::Global;

/// A request for numbers 1 to 3 of an archive with two messages.
struct Request {
    /// The number that was removed, if one was.
    removed: Option<u32>,
    /// The call that fails.
    failing: Failing,
    words: &'static [u8],
    /// Whether the session then continues.
    goes_on: bool,
}

/// Requests to disks that fail. Those of the first two don't, since no epoch is read.
///
/// A text ends with the empty line after its header, and each text has a line feed after it.
const REQUESTS: [Request; 5] = [
    Request {
        removed: None,
        failing: Failing::Epoch(Unread::Fault),
        words: b"Message-ID: <a@x>\n\n\nMessage-ID: <b@x>\n\n\nend\n",
        goes_on: true,
    },
    Request {
        removed: Some(1),
        failing: Failing::Epoch(Unread::Fault),
        words: b"Message-ID: <b@x>\n\n\nend\n",
        goes_on: true,
    },
    Request {
        removed: None,
        failing: Failing::Text(Unread::Fault, 1),
        words: b"10 disk fault\n",
        goes_on: true,
    },
    Request {
        removed: None,
        failing: Failing::Text(Unread::Damage, 1),
        words: b"11 damaged df7a16e6b23ee491f39d84e89298f10b0d4ae4e0 1d023c572ccd6f3cc82ae855343346b043adaba5\n",
        goes_on: true,
    },
    Request {
        removed: None,
        failing: Failing::Text(Unread::Fault, 2),
        words: b"Message-ID: <a@x>\n\n\n",
        goes_on: false,
    },
];

/// Returns an archive with two messages, one of which may be removed.
fn with_two(alloc: Global, removed: Option<u32>) -> Option<MemArchive> {
    let mut archive = archive(alloc)?;
    let _ = Keep::command(&mut archive, &Command::Deliver(b"Message-ID: <a@x>\n"), 1);
    let _ = Keep::command(&mut archive, &Command::Deliver(b"Message-ID: <b@x>\n"), 1);
    if let Some(number) = removed {
        let _ = Keep::command(&mut archive, &Command::Remove(number), 2);
    }
    Some(archive)
}

/// Returns whether a request is answered as its row says.
fn is_answered(alloc: Global, request: &Request) -> bool {
    let Some(archive) = with_two(alloc, request.removed) else {
        return false;
    };
    let mut keep = FailingKeep::new(archive, request.failing);
    let mut out = MemSink::new(alloc, Numbers::new(alloc));
    let goes_on = say_texts(alloc, 1, 3, &mut keep, &mut out);
    out.taken() == request.words && goes_on == request.goes_on
}

#[test]
fn a_streamed_reply_ends_or_stops(rt: HostRuntime) {
    for request in &REQUESTS {
        assert!(rt; is_answered(rt.alloc(), request), "{:?}", request.words);
    }
}
