//! What is said where texts can't be read, or a send is lost.
use crate::mails::{
    A, AFTER_ONE, ENTRIES, LISTING, LONE_A, MOMENT, THREAD_A, archive_of_three, empty_archive,
};
use arch_base::Numbers;
use arch_model::{Command, Keep, Next};
use archive_fixtures::{Failing, FailingKeep, Unread};
use edge_io::MemSink;
use http_front::HttpSession;
use mem_archive::MemArchive;
use std::alloc::Global;

/// A request to the archive with three mails, whose texts from a number on can't be read.
#[derive(Drop)]
struct Failure {
    from: u32,
    why: Unread,
    request: &'static [u8],
    reply: &'static [u8],
}

/// Requests that read such a text before a part of the reply is written.
static FAILURES: [Failure; 17] = [
    Failure {
        from: 1,
        why: Unread::Fault,
        request: b"GET /list/a@x/ HTTP/1.1\r\n\r\n",
        reply: b"HTTP/1.1 500 Internal Server Error\r\nDate: Thu, 01 Feb 2024 10:03:20 GMT\r\nContent-Type: text/plain; charset=utf-8\r\nContent-Length: 11\r\nConnection: close\r\n\r\ndisk fault\n",
    },
    Failure {
        from: 1,
        why: Unread::Fault,
        request: b"HEAD /list/a@x/raw HTTP/1.1\r\n\r\n",
        reply: b"HTTP/1.1 500 Internal Server Error\r\nDate: Thu, 01 Feb 2024 10:03:20 GMT\r\nContent-Type: text/plain; charset=utf-8\r\nContent-Length: 11\r\nConnection: close\r\n\r\n",
    },
    Failure {
        from: 1,
        why: Unread::NoMemory,
        request: b"GET /list/a@x/raw HTTP/1.1\r\n\r\n",
        reply: b"HTTP/1.1 503 Service Unavailable\r\nDate: Thu, 01 Feb 2024 10:03:20 GMT\r\nContent-Type: text/plain; charset=utf-8\r\nContent-Length: 14\r\nConnection: close\r\n\r\nout of memory\n",
    },
    Failure {
        from: 2,
        why: Unread::Fault,
        request: b"GET /list/new.atom HTTP/1.1\r\n\r\n",
        reply: b"HTTP/1.1 500 Internal Server Error\r\nDate: Thu, 01 Feb 2024 10:03:20 GMT\r\nContent-Type: text/plain; charset=utf-8\r\nContent-Length: 11\r\nConnection: close\r\n\r\ndisk fault\n",
    },
    Failure {
        from: 2,
        why: Unread::NoMemory,
        request: b"GET /list/a@x/t.atom HTTP/1.1\r\n\r\n",
        reply: b"HTTP/1.1 503 Service Unavailable\r\nDate: Thu, 01 Feb 2024 10:03:20 GMT\r\nContent-Type: text/plain; charset=utf-8\r\nContent-Length: 14\r\nConnection: close\r\n\r\nout of memory\n",
    },
    Failure {
        from: 2,
        why: Unread::Fault,
        request: b"GET /list/all.mbox HTTP/1.1\r\n\r\n",
        reply: b"HTTP/1.1 500 Internal Server Error\r\nDate: Thu, 01 Feb 2024 10:03:20 GMT\r\nContent-Type: text/plain; charset=utf-8\r\nContent-Length: 11\r\nConnection: close\r\n\r\ndisk fault\n",
    },
    Failure {
        from: 2,
        why: Unread::NoMemory,
        request: b"GET /list/b%2F2@x/t.mbox HTTP/1.1\r\n\r\n",
        reply: b"HTTP/1.1 503 Service Unavailable\r\nDate: Thu, 01 Feb 2024 10:03:20 GMT\r\nContent-Type: text/plain; charset=utf-8\r\nContent-Length: 14\r\nConnection: close\r\n\r\nout of memory\n",
    },
    Failure {
        from: 1,
        why: Unread::Damage,
        request: b"GET /list/a@x/ HTTP/1.1\r\n\r\n",
        reply: b"HTTP/1.1 500 Internal Server Error\r\nDate: Thu, 01 Feb 2024 10:03:20 GMT\r\nContent-Type: text/plain; charset=utf-8\r\nContent-Length: 90\r\nConnection: close\r\n\r\ndamaged df7a16e6b23ee491f39d84e89298f10b0d4ae4e0 1d023c572ccd6f3cc82ae855343346b043adaba5\n",
    },
    Failure {
        from: 1,
        why: Unread::Damage,
        request: b"HEAD /list/a@x/raw HTTP/1.1\r\n\r\n",
        reply: b"HTTP/1.1 500 Internal Server Error\r\nDate: Thu, 01 Feb 2024 10:03:20 GMT\r\nContent-Type: text/plain; charset=utf-8\r\nContent-Length: 90\r\nConnection: close\r\n\r\n",
    },
    Failure {
        from: 1,
        why: Unread::Damage,
        request: b"GET /list/a@x/raw HTTP/1.1\r\n\r\n",
        reply: b"HTTP/1.1 500 Internal Server Error\r\nDate: Thu, 01 Feb 2024 10:03:20 GMT\r\nContent-Type: text/plain; charset=utf-8\r\nContent-Length: 90\r\nConnection: close\r\n\r\ndamaged df7a16e6b23ee491f39d84e89298f10b0d4ae4e0 1d023c572ccd6f3cc82ae855343346b043adaba5\n",
    },
    Failure {
        from: 2,
        why: Unread::Damage,
        request: b"GET /list/new.atom HTTP/1.1\r\n\r\n",
        reply: b"HTTP/1.1 500 Internal Server Error\r\nDate: Thu, 01 Feb 2024 10:03:20 GMT\r\nContent-Type: text/plain; charset=utf-8\r\nContent-Length: 90\r\nConnection: close\r\n\r\ndamaged df7a16e6b23ee491f39d84e89298f10b0d4ae4e0 1d023c572ccd6f3cc82ae855343346b043adaba5\n",
    },
    Failure {
        from: 2,
        why: Unread::Damage,
        request: b"GET /list/a@x/t.atom HTTP/1.1\r\n\r\n",
        reply: b"HTTP/1.1 500 Internal Server Error\r\nDate: Thu, 01 Feb 2024 10:03:20 GMT\r\nContent-Type: text/plain; charset=utf-8\r\nContent-Length: 90\r\nConnection: close\r\n\r\ndamaged df7a16e6b23ee491f39d84e89298f10b0d4ae4e0 1d023c572ccd6f3cc82ae855343346b043adaba5\n",
    },
    Failure {
        from: 2,
        why: Unread::Damage,
        request: b"GET /list/all.mbox HTTP/1.1\r\n\r\n",
        reply: b"HTTP/1.1 500 Internal Server Error\r\nDate: Thu, 01 Feb 2024 10:03:20 GMT\r\nContent-Type: text/plain; charset=utf-8\r\nContent-Length: 90\r\nConnection: close\r\n\r\ndamaged df7a16e6b23ee491f39d84e89298f10b0d4ae4e0 1d023c572ccd6f3cc82ae855343346b043adaba5\n",
    },
    Failure {
        from: 1,
        why: Unread::Fault,
        request: b"GET /list/_/blob/1d023c572ccd6f3cc82ae855343346b043adaba5 HTTP/1.1\r\n\r\n",
        reply: b"HTTP/1.1 500 Internal Server Error\r\nDate: Thu, 01 Feb 2024 10:03:20 GMT\r\nContent-Type: text/plain; charset=utf-8\r\nContent-Length: 11\r\nConnection: close\r\n\r\ndisk fault\n",
    },
    Failure {
        from: 1,
        why: Unread::Fault,
        request: b"HEAD /list/_/blob/1d023c572ccd6f3cc82ae855343346b043adaba5 HTTP/1.1\r\n\r\n",
        reply: b"HTTP/1.1 500 Internal Server Error\r\nDate: Thu, 01 Feb 2024 10:03:20 GMT\r\nContent-Type: text/plain; charset=utf-8\r\nContent-Length: 11\r\nConnection: close\r\n\r\n",
    },
    Failure {
        from: 1,
        why: Unread::NoMemory,
        request: b"GET /list/_/blob/1d023c572ccd6f3cc82ae855343346b043adaba5 HTTP/1.1\r\n\r\n",
        reply: b"HTTP/1.1 503 Service Unavailable\r\nDate: Thu, 01 Feb 2024 10:03:20 GMT\r\nContent-Type: text/plain; charset=utf-8\r\nContent-Length: 14\r\nConnection: close\r\n\r\nout of memory\n",
    },
    Failure {
        from: 1,
        why: Unread::Damage,
        request: b"GET /list/_/blob/1d023c572ccd6f3cc82ae855343346b043adaba5 HTTP/1.1\r\n\r\n",
        reply: b"HTTP/1.1 500 Internal Server Error\r\nDate: Thu, 01 Feb 2024 10:03:20 GMT\r\nContent-Type: text/plain; charset=utf-8\r\nContent-Length: 90\r\nConnection: close\r\n\r\ndamaged df7a16e6b23ee491f39d84e89298f10b0d4ae4e0 1d023c572ccd6f3cc82ae855343346b043adaba5\n",
    },
];

/// Returns whether a failure is told, and the connection closed.
fn is_told(alloc: Global, failure: &Failure) -> bool {
    let Some(archive) = archive_of_three(alloc) else {
        return false;
    };
    let mut shelf = FailingKeep::new(archive, Failing::Text(failure.why, failure.from));
    let mut out = MemSink::new(alloc, Numbers::new(alloc));
    let mut session = HttpSession::open(alloc);
    let next = session.feed(failure.request, MOMENT, &mut shelf, &mut out);
    out.taken() == failure.reply && next == Next::Close
}

#[test]
fn a_text_that_is_not_read_is_told(rt: HostRuntime) {
    for failure in &FAILURES {
        assert!(rt; is_told(rt.alloc(), failure), "{:?}", failure.request);
    }
}

/// Requests that need no text: a listing, the page of a thread, searches, the list of entries, and a
/// blob whose digits are of another width.
const WITHOUT_TEXTS: [(&[u8], &[u8]); 6] = [
    (b"GET /list/ HTTP/1.1\r\n\r\n", LISTING),
    (b"GET /list/a@x/t/ HTTP/1.1\r\n\r\n", THREAD_A),
    (b"GET /list/?q=first HTTP/1.1\r\n\r\n", AFTER_ONE),
    (b"GET /list/?q=b:one HTTP/1.1\r\n\r\n", LONE_A),
    (b"GET /list/_/list HTTP/1.1\r\n\r\n", ENTRIES),
    (
        b"GET /list/_/blob/70b16dd75f8e20a6ef189426d439d7b42c747bf41f86ce4d7127c6e6fe19cd8f HTTP/1.1\r\n\r\n",
        b"not found\n",
    ),
];

/// Returns whether a reply to a request ends with a page, though no text can be read, and the
/// connection then continues.
fn is_shown(alloc: Global, request: &[u8], page: &[u8]) -> bool {
    let Some(archive) = archive_of_three(alloc) else {
        return false;
    };
    let mut shelf = FailingKeep::new(archive, Failing::Text(Unread::Fault, 1));
    let mut out = MemSink::new(alloc, Numbers::new(alloc));
    let mut session = HttpSession::open(alloc);
    let next = session.feed(request, MOMENT, &mut shelf, &mut out);
    out.taken().ends_with(page) && next == Next::Go
}

#[test]
fn listings_threads_searches_and_the_list_read_no_text(rt: HostRuntime) {
    for (request, page) in &WITHOUT_TEXTS {
        assert!(rt; is_shown(rt.alloc(), request, page), "{:?}", request);
    }
}

/// Creates an archive with a mail of 70022 bytes, and a small one.
fn big_archive(alloc: Global) -> Option<MemArchive> {
    let mut archive = empty_archive(alloc)?;
    let mut big = Vec::new(alloc);
    big.extend_from_slice(b"Message-ID: <big@x>\n\n").ok()?;
    big.resize(70021, b'x').ok()?;
    big.push(b'\n').ok()?;
    archive.command(&Command::Deliver(big.as_slice()), MOMENT);
    archive.command(&Command::Deliver(A), MOMENT);
    Some(archive)
}

/// Returns whether the mailbox file of the big archive, whose texts from a number on can't be read,
/// has this many bytes with its head, and the connection then continues or is closed.
fn mailbox_has(alloc: Global, why: Unread, from: u32, len: usize, wanted: Next) -> bool {
    let Some(archive) = big_archive(alloc) else {
        return false;
    };
    let mut shelf = FailingKeep::new(archive, Failing::Text(why, from));
    let mut out = MemSink::new(alloc, Numbers::new(alloc));
    let mut session = HttpSession::open(alloc);
    let request = b"GET /list/all.mbox HTTP/1.1\r\n\r\n";
    let next = session.feed(request, MOMENT, &mut shelf, &mut out);
    out.taken().len() == len && next == wanted
}

#[test]
fn a_mailbox_file_stops_where_a_text_is_not_read(rt: HostRuntime) {
    assert!(rt; mailbox_has(rt.alloc(), Unread::Fault, 3, 70316, Next::Go));
    assert!(rt; mailbox_has(rt.alloc(), Unread::Fault, 2, 70173, Next::Close));
    assert!(rt; mailbox_has(rt.alloc(), Unread::NoMemory, 2, 70173, Next::Close));
    assert!(rt; mailbox_has(rt.alloc(), Unread::Damage, 2, 70173, Next::Close));
}

/// Returns whether, of the reply with the text of the big mail, this many bytes are taken before a
/// write fails, the head included. The connection is then closed.
fn part_is_taken(alloc: Global, write: u64, len: usize) -> Option<bool> {
    let mut archive = big_archive(alloc)?;
    let mut faults = Numbers::new(alloc);
    faults.push(write).ok()?;
    let mut out = MemSink::new(alloc, faults);
    let mut session = HttpSession::open(alloc);
    let request = b"GET /list/big@x/raw HTTP/1.1\r\n\r\n";
    let next = session.feed(request, MOMENT, &mut archive, &mut out);
    Some(out.taken().len() == len && next == Next::Close)
}

#[test]
fn a_long_text_is_written_in_parts(rt: HostRuntime) {
    assert!(rt; part_is_taken(rt.alloc(), 1, 0) == Some(true));
    assert!(rt; part_is_taken(rt.alloc(), 2, 65641) == Some(true));
}

/// Returns whether a request whose reply is lost, and another one, end the connection.
fn is_lost(alloc: Global, request: &[u8]) -> Option<bool> {
    let mut archive = archive_of_three(alloc)?;
    let mut faults = Numbers::new(alloc);
    faults.push(1).ok()?;
    let mut out = MemSink::new(alloc, faults);
    let mut session = HttpSession::open(alloc);
    let next = session.feed(request, MOMENT, &mut archive, &mut out);
    Some(next == Next::Close)
}

/// Requests of each kind.
const REQUESTS: [&[u8]; 7] = [
    b"GET /list/ HTTP/1.1\r\n\r\n",
    b"GET /list/zz/ HTTP/1.1\r\n\r\n",
    b"GET /list/?q=d:x HTTP/1.1\r\n\r\n",
    b"GET /list/all.mbox HTTP/1.1\r\n\r\n",
    b"GET /list/_/list HTTP/1.1\r\n\r\n",
    b"GET /list/_/blob/1d023c572ccd6f3cc82ae855343346b043adaba5 HTTP/1.1\r\n\r\n",
    b"x\r\n\r\n",
];

#[test]
fn a_lost_reply_ends_the_connection(rt: HostRuntime) {
    for request in &REQUESTS {
        assert!(rt; is_lost(rt.alloc(), request) == Some(true), "{:?}", request);
    }
}
