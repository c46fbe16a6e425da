//! Clients of the door of pages beside one who delivers and removes.
use crate::fault_tests::made_over_failing;
use crate::served::{ACCEPTED, DELIVERED, host, joined, served_on, served_plain};
use edge_io::MemHost;
use node_serve::plain_law;
use std::alloc::Global;

/// A client asks for the text of the message, which comes in two pieces of the request.
const ASKED: &[u8] =
    b"1706781700 o 2 http\n1706781700 b 2 20\nGET /list/a@x/raw HT\n1706781800 b 2 10\nTP/1.1\r\n\r\n\n";

/// The message is removed, and the client asks again, and then for what no archive has.
const AGAIN: &[u8] =
    b"1706781800 b 1 9\nremove 1\n\n1706781800 b 2 30\nGET /list/a@x/raw HTTP/1.1\r\n\r\n\n1706781800 b 2 16\nGET / HTTP/1.0\r\n\n1706781800 b 2 2\n\r\n\n";

/// What the client gets. Each reply has the date of the piece that ended its request.
const GOT: &[u8] =
    b"HTTP/1.1 200 OK\r\nDate: Thu, 01 Feb 2024 10:03:20 GMT\r\nContent-Type: text/plain\r\nContent-Length: 103\r\n\r\nFrom: Ann <ann@example.org>\nDate: Thu, 1 Feb 2024 10:00:00 +0000\nSubject: first\nMessage-ID: <a@x>\n\none\nHTTP/1.1 404 Not Found\r\nDate: Thu, 01 Feb 2024 10:03:20 GMT\r\nContent-Type: text/plain; charset=utf-8\r\nContent-Length: 10\r\n\r\nnot found\nHTTP/1.1 404 Not Found\r\nDate: Thu, 01 Feb 2024 10:03:20 GMT\r\nContent-Type: text/plain; charset=utf-8\r\nContent-Length: 10\r\nConnection: close\r\n\r\nnot found\n";

/// Serves texts of a script in order over an archive in memory, and returns the host.
fn host_after(alloc: Global, texts: &[&[u8]]) -> Option<MemHost> {
    let text = joined(alloc, texts)?;
    let (_end, host) = served_plain(alloc, text.as_slice(), &[])?;
    Some(host)
}

/// Returns whether the client gets what it should and is closed, and the one who delivers is not.
fn is_shown(alloc: Global) -> bool {
    match host_after(alloc, &[DELIVERED, ASKED, AGAIN]) {
        None => false,
        Some(host) => {
            host.taken(2) == GOT
                && host.is_closed(2)
                && host.taken(1).starts_with(ACCEPTED)
                && !host.is_closed(1)
        }
    }
}

#[test]
fn a_page_is_gone_once_its_message_is_removed(rt: HostRuntime) {
    assert!(rt; is_shown(rt.alloc()));
}

/// What a client sends once the message is there, and what it gets: the page of the listing, that of a
/// search, and twice what no archive has.
static PAGES: [(&[u8], &[u8]); 3] = [
    (
        b"1706781800 o 2 http\n1706781800 b 2 23\nGET /list/ HTTP/1.1\r\n\r\n\n",
        b"HTTP/1.1 200 OK\r\nDate: Thu, 01 Feb 2024 10:03:20 GMT\r\nContent-Type: text/html; charset=utf-8\r\nContent-Length: 122\r\n\r\n<html><head><title>list</title></head><body><pre>2024-02-01 10:00 <a href=\"/list/a@x/\">first</a> Ann\n</pre></body></html>\n",
    ),
    (
        b"1706781800 o 2 http\n1706781800 b 2 31\nGET /list/?q=s:one HTTP/1.1\r\n\r\n\n",
        b"HTTP/1.1 200 OK\r\nDate: Thu, 01 Feb 2024 10:03:20 GMT\r\nContent-Type: text/html; charset=utf-8\r\nContent-Length: 70\r\n\r\n<html><head><title>list</title></head><body><pre></pre></body></html>\n",
    ),
    (
        b"1706781800 o 2 http\n1706781800 b 2 52\nGET /list/zz/ HTTP/1.1\r\n\r\nGET /list/zz/ HTTP/1.1\r\n\r\n\n",
        b"HTTP/1.1 404 Not Found\r\nDate: Thu, 01 Feb 2024 10:03:20 GMT\r\nContent-Type: text/plain; charset=utf-8\r\nContent-Length: 10\r\n\r\nnot found\nHTTP/1.1 404 Not Found\r\nDate: Thu, 01 Feb 2024 10:03:20 GMT\r\nContent-Type: text/plain; charset=utf-8\r\nContent-Length: 10\r\n\r\nnot found\n",
    ),
];

/// Returns whether a client that sends this gets that, and stays open.
fn gets(alloc: Global, sent: &[u8], wanted: &[u8]) -> bool {
    match host_after(alloc, &[DELIVERED, sent]) {
        None => false,
        Some(host) => host.taken(2) == wanted && !host.is_closed(2),
    }
}

#[test]
fn pages_are_answered_over_a_node(rt: HostRuntime) {
    plain_law();
    for (sent, wanted) in &PAGES {
        assert!(rt; gets(rt.alloc(), sent, wanted), "{sent:?}");
    }
}

/// A client asks for the text of the message.
const ONCE: &[u8] = b"1706781700 o 2 http\n1706781800 b 2 30\nGET /list/a@x/raw HTTP/1.1\r\n\r\n\n";

/// What it gets of the archive with the message, of the one before, and if the disk fails.
const NEW: &[u8] =
    b"HTTP/1.1 200 OK\r\nDate: Thu, 01 Feb 2024 10:03:20 GMT\r\nContent-Type: text/plain\r\nContent-Length: 103\r\n\r\nFrom: Ann <ann@example.org>\nDate: Thu, 1 Feb 2024 10:00:00 +0000\nSubject: first\nMessage-ID: <a@x>\n\none\n";

const OLD: &[u8] =
    b"HTTP/1.1 404 Not Found\r\nDate: Thu, 01 Feb 2024 10:03:20 GMT\r\nContent-Type: text/plain; charset=utf-8\r\nContent-Length: 10\r\n\r\nnot found\n";

const FAULT: &[u8] =
    b"HTTP/1.1 500 Internal Server Error\r\nDate: Thu, 01 Feb 2024 10:03:20 GMT\r\nContent-Type: text/plain; charset=utf-8\r\nContent-Length: 11\r\nConnection: close\r\n\r\ndisk fault\n";

/// Returns whether the client got the reply of an archive, or that of a fault and was closed.
fn is_answered(host: &MemHost) -> bool {
    if host.taken(2) == FAULT {
        return host.is_closed(2);
    }
    (host.taken(2) == NEW || host.taken(2) == OLD) && !host.is_closed(2)
}

/// Returns whether that is so where one call of the disk fails.
fn is_answered_over(alloc: Global, ordinal: u64) -> Option<bool> {
    let Some(engine) = made_over_failing(alloc, ordinal) else {
        return Some(true);
    };
    let text = joined(alloc, &[DELIVERED, ONCE])?;
    let mut host = host(alloc, text.as_slice(), &[])?;
    let (_end, _engine) = served_on(alloc, engine, &mut host);
    Some(is_answered(&host))
}

#[test]
fn a_failing_disk_is_told_at_the_door_of_pages(rt: HostRuntime) {
    for ordinal in 1..80 {
        assert!(rt; is_answered_over(rt.alloc(), ordinal) == Some(true));
    }
}
