//! Streams worked out by hand from the formats, each fed in every way that its length allows.
use crate::mails::Connection;
use arch_model::Next;
use http_front::{heads_are_read, http_laws};
use std::alloc::Global;

/// A stream to an archive without mails, and its replies.
#[derive(Drop)]
struct Stream {
    bytes: &'static [u8],
    replies: &'static [u8],
    /// Whether the connection then continues.
    next: Next,
}

/// Whole heads, parts of heads, and what is no head.
static STREAMS: [Stream; 28] = [
    Stream {
        bytes: b"",
        replies: b"",
        next: Next::Go,
    },
    Stream {
        bytes: b"\r",
        replies: b"",
        next: Next::Go,
    },
    Stream {
        bytes: b"\r\n\r",
        replies: b"",
        next: Next::Go,
    },
    Stream {
        bytes: b"GET /list/zz/ HTTP/1.1\r\n",
        replies: b"",
        next: Next::Go,
    },
    Stream {
        bytes: b"GET /list/zz/ HTTP/1.1\r\n\r",
        replies: b"",
        next: Next::Go,
    },
    Stream {
        bytes: b"GET /list/zz/ HTTP/1.1\r\n\r\n",
        replies: b"HTTP/1.1 404 Not Found\r\nDate: Thu, 01 Feb 2024 10:03:20 GMT\r\nContent-Type: text/plain; charset=utf-8\r\nContent-Length: 10\r\n\r\nnot found\n",
        next: Next::Go,
    },
    Stream {
        bytes: b"GET /list/zz/ HTTP/1.1\r\n\r\nGET /list/zz/ HTTP/1.1\r\n\r\n",
        replies: b"HTTP/1.1 404 Not Found\r\nDate: Thu, 01 Feb 2024 10:03:20 GMT\r\nContent-Type: text/plain; charset=utf-8\r\nContent-Length: 10\r\n\r\nnot found\nHTTP/1.1 404 Not Found\r\nDate: Thu, 01 Feb 2024 10:03:20 GMT\r\nContent-Type: text/plain; charset=utf-8\r\nContent-Length: 10\r\n\r\nnot found\n",
        next: Next::Go,
    },
    Stream {
        bytes: b"GET /list/zz/ HTTP/1.1\n\n",
        replies: b"",
        next: Next::Go,
    },
    Stream {
        bytes: b"GET /list/zz/ HTTP/1.1\r\n\n",
        replies: b"",
        next: Next::Go,
    },
    Stream {
        bytes: b"GET /list/zz/ HTTP/1.1\n\r\n",
        replies: b"",
        next: Next::Go,
    },
    Stream {
        bytes: b"GET /list/zz/ HTTP/1.1\r\r\n\r\n",
        replies: b"HTTP/1.1 400 Bad Request\r\nDate: Thu, 01 Feb 2024 10:03:20 GMT\r\nContent-Type: text/plain; charset=utf-8\r\nContent-Length: 12\r\nConnection: close\r\n\r\nbad request\n",
        next: Next::Close,
    },
    Stream {
        bytes: b"GET /list/zz/ HTTP/1.1\nA: b\r\n\r\n",
        replies: b"HTTP/1.1 404 Not Found\r\nDate: Thu, 01 Feb 2024 10:03:20 GMT\r\nContent-Type: text/plain; charset=utf-8\r\nContent-Length: 10\r\n\r\nnot found\n",
        next: Next::Go,
    },
    Stream {
        bytes: b"\r\nGET /list/zz/ HTTP/1.1\r\n\r\n",
        replies: b"HTTP/1.1 404 Not Found\r\nDate: Thu, 01 Feb 2024 10:03:20 GMT\r\nContent-Type: text/plain; charset=utf-8\r\nContent-Length: 10\r\n\r\nnot found\n",
        next: Next::Go,
    },
    Stream {
        bytes: b"\nGET /list/zz/ HTTP/1.1\r\n\r\n\r\nGET /list/zz/ HTTP/1.1\r\n\r\n",
        replies: b"HTTP/1.1 404 Not Found\r\nDate: Thu, 01 Feb 2024 10:03:20 GMT\r\nContent-Type: text/plain; charset=utf-8\r\nContent-Length: 10\r\n\r\nnot found\nHTTP/1.1 404 Not Found\r\nDate: Thu, 01 Feb 2024 10:03:20 GMT\r\nContent-Type: text/plain; charset=utf-8\r\nContent-Length: 10\r\n\r\nnot found\n",
        next: Next::Go,
    },
    Stream {
        bytes: b"\r\n\r\nGET /list/zz/ HTTP/1.1\r\n\r\n",
        replies: b"HTTP/1.1 400 Bad Request\r\nDate: Thu, 01 Feb 2024 10:03:20 GMT\r\nContent-Type: text/plain; charset=utf-8\r\nContent-Length: 12\r\nConnection: close\r\n\r\nbad request\n",
        next: Next::Close,
    },
    Stream {
        bytes: b"GET /list/zz/ HTTP/1.0\r\n\r\nGET /list/zz/ HTTP/1.1\r\n\r\n",
        replies: b"HTTP/1.1 404 Not Found\r\nDate: Thu, 01 Feb 2024 10:03:20 GMT\r\nContent-Type: text/plain; charset=utf-8\r\nContent-Length: 10\r\nConnection: close\r\n\r\nnot found\n",
        next: Next::Close,
    },
    Stream {
        bytes: b"GET /list/zz/ HTTP/1.1\r\nConnection: close\r\n\r\n\r\n\r\n",
        replies: b"HTTP/1.1 404 Not Found\r\nDate: Thu, 01 Feb 2024 10:03:20 GMT\r\nContent-Type: text/plain; charset=utf-8\r\nContent-Length: 10\r\nConnection: close\r\n\r\nnot found\n",
        next: Next::Close,
    },
    Stream {
        bytes: b"HEAD /list/zz/ HTTP/1.1\r\n\r\nGET /list/zz/ HTTP/1.1\r\n\r\n",
        replies: b"HTTP/1.1 404 Not Found\r\nDate: Thu, 01 Feb 2024 10:03:20 GMT\r\nContent-Type: text/plain; charset=utf-8\r\nContent-Length: 10\r\n\r\nHTTP/1.1 404 Not Found\r\nDate: Thu, 01 Feb 2024 10:03:20 GMT\r\nContent-Type: text/plain; charset=utf-8\r\nContent-Length: 10\r\n\r\nnot found\n",
        next: Next::Go,
    },
    Stream {
        bytes: b"GET /list/zz/ HTTP/1.1\r\n\r\nGET /list/zz/ HTTP/1.1\r\nA: b",
        replies: b"HTTP/1.1 404 Not Found\r\nDate: Thu, 01 Feb 2024 10:03:20 GMT\r\nContent-Type: text/plain; charset=utf-8\r\nContent-Length: 10\r\n\r\nnot found\n",
        next: Next::Go,
    },
    Stream {
        bytes: b"POST /list/ HTTP/1.1\r\n\r\nGET /list/zz/ HTTP/1.1\r\n\r\n",
        replies: b"HTTP/1.1 405 Method Not Allowed\r\nDate: Thu, 01 Feb 2024 10:03:20 GMT\r\nContent-Type: text/plain; charset=utf-8\r\nContent-Length: 19\r\nAllow: GET, HEAD\r\nConnection: close\r\n\r\nmethod not allowed\n",
        next: Next::Close,
    },
    Stream {
        bytes: b"GET /list/zz/ HTTP/1.1\r\n\r\nPUT / HTTP/1.1\r\nContent-Length: 3\r\n\r\nabc",
        replies: b"HTTP/1.1 404 Not Found\r\nDate: Thu, 01 Feb 2024 10:03:20 GMT\r\nContent-Type: text/plain; charset=utf-8\r\nContent-Length: 10\r\n\r\nnot found\nHTTP/1.1 400 Bad Request\r\nDate: Thu, 01 Feb 2024 10:03:20 GMT\r\nContent-Type: text/plain; charset=utf-8\r\nContent-Length: 12\r\nConnection: close\r\n\r\nbad request\n",
        next: Next::Close,
    },
    Stream {
        bytes: b"HEAD / HTTP/1.1\r\nContent-Length: 3\r\n\r\nabc",
        replies: b"HTTP/1.1 400 Bad Request\r\nDate: Thu, 01 Feb 2024 10:03:20 GMT\r\nContent-Type: text/plain; charset=utf-8\r\nContent-Length: 12\r\nConnection: close\r\n\r\n",
        next: Next::Close,
    },
    Stream {
        bytes: b"GET /list/ HTTP/1.1\r\n\r\n",
        replies: b"HTTP/1.1 200 OK\r\nDate: Thu, 01 Feb 2024 10:03:20 GMT\r\nContent-Type: text/html; charset=utf-8\r\nContent-Length: 70\r\n\r\n<html><head><title>list</title></head><body><pre></pre></body></html>\n",
        next: Next::Go,
    },
    Stream {
        bytes: b"GET /list/new.atom HTTP/1.1\r\n\r\n",
        replies: b"HTTP/1.1 200 OK\r\nDate: Thu, 01 Feb 2024 10:03:20 GMT\r\nContent-Type: application/atom+xml; charset=utf-8\r\nContent-Length: 181\r\n\r\n<?xml version=\"1.0\" encoding=\"utf-8\"?>\n<feed xmlns=\"http://www.w3.org/2005/Atom\">\n<title>list</title>\n<id>mid:list@piv2.invalid</id>\n<updated>1970-01-01T00:00:01Z</updated>\n</feed>\n",
        next: Next::Go,
    },
    Stream {
        bytes: b"GET /list/all.mbox HTTP/1.1\r\n\r\nGET /list/zz/ HTTP/1.1\r\n\r\n",
        replies: b"HTTP/1.1 200 OK\r\nDate: Thu, 01 Feb 2024 10:03:20 GMT\r\nContent-Type: application/mbox\r\nContent-Length: 0\r\n\r\nHTTP/1.1 404 Not Found\r\nDate: Thu, 01 Feb 2024 10:03:20 GMT\r\nContent-Type: text/plain; charset=utf-8\r\nContent-Length: 10\r\n\r\nnot found\n",
        next: Next::Go,
    },
    Stream {
        bytes: b"GET /list/zz/ HTTP/1.1\r\n\r\nHEAD /list/ HTTP/1.1\r\n\r\nGET /list/zz/ HTTP/1.1\r\n\r\n",
        replies: b"HTTP/1.1 404 Not Found\r\nDate: Thu, 01 Feb 2024 10:03:20 GMT\r\nContent-Type: text/plain; charset=utf-8\r\nContent-Length: 10\r\n\r\nnot found\nHTTP/1.1 200 OK\r\nDate: Thu, 01 Feb 2024 10:03:20 GMT\r\nContent-Type: text/html; charset=utf-8\r\nContent-Length: 70\r\n\r\nHTTP/1.1 404 Not Found\r\nDate: Thu, 01 Feb 2024 10:03:20 GMT\r\nContent-Type: text/plain; charset=utf-8\r\nContent-Length: 10\r\n\r\nnot found\n",
        next: Next::Go,
    },
    Stream {
        bytes: b"GET / HTTP/1.1\n\nx\r\n\r\n",
        replies: b"HTTP/1.1 400 Bad Request\r\nDate: Thu, 01 Feb 2024 10:03:20 GMT\r\nContent-Type: text/plain; charset=utf-8\r\nContent-Length: 12\r\nConnection: close\r\n\r\nbad request\n",
        next: Next::Close,
    },
    Stream {
        bytes: b"HEAD x\r\n\r\n",
        replies: b"HTTP/1.1 400 Bad Request\r\nDate: Thu, 01 Feb 2024 10:03:20 GMT\r\nContent-Type: text/plain; charset=utf-8\r\nContent-Length: 12\r\nConnection: close\r\n\r\nbad request\n",
        next: Next::Close,
    },
];

/// Returns whether a stream cut in two at an offset gets its replies.
fn is_answered_cut(alloc: Global, stream: &Stream, at: usize) -> bool {
    let (front, back) = stream.bytes.split_at(at.min(stream.bytes.len()));
    match Connection::to_nothing(alloc) {
        Some(mut connection) => {
            connection.hear(front);
            connection.hear(back);
            connection.was_answered(stream.replies, stream.next)
        }
        None => false,
    }
}

/// Returns whether a stream in pieces of this length gets these replies.
fn is_answered_in(alloc: Global, bytes: &[u8], len: usize, replies: &[u8], next: Next) -> bool {
    match Connection::to_nothing(alloc) {
        Some(mut connection) => {
            for piece in bytes.chunks(len.max(1)) {
                connection.hear(piece);
            }
            connection.was_answered(replies, next)
        }
        None => false,
    }
}

/// Returns whether a stream gets its replies whole, byte by byte and cut in two at every offset.
fn is_answered(alloc: Global, stream: &Stream) -> bool {
    for at in 0..stream.bytes.len() + 1 {
        if !is_answered_cut(alloc, stream, at) {
            return false;
        }
    }
    is_answered_in(alloc, stream.bytes, 1, stream.replies, stream.next)
}

#[test]
fn streams_are_answered_however_cut(rt: HostRuntime) {
    heads_are_read();
    http_laws();
    for stream in &STREAMS {
        assert!(rt; is_answered(rt.alloc(), stream), "{:?}", stream.bytes);
    }
}

/// The reply to a head that is too long.
const TOO_LONG: &[u8] =
    b"HTTP/1.1 431 Request Header Fields Too Large\r\nDate: Thu, 01 Feb 2024 10:03:20 GMT\r\nContent-Type: text/plain; charset=utf-8\r\nContent-Length: 15\r\nConnection: close\r\n\r\nhead too large\n";

/// The reply to a request for what is not there.
const NOT_FOUND: &[u8] =
    b"HTTP/1.1 404 Not Found\r\nDate: Thu, 01 Feb 2024 10:03:20 GMT\r\nContent-Type: text/plain; charset=utf-8\r\nContent-Length: 10\r\n\r\nnot found\n";

/// Returns a request for what is not there, with a head of this many bytes.
fn head_of(alloc: Global, len: usize) -> Option<Vec<u8>> {
    let front = b"GET /zz HTTP/1.1\r\nA: ";
    let mut head = Vec::new(alloc);
    head.extend_from_slice(front).ok()?;
    head.resize(len.saturating_sub(4), b'x').ok()?;
    head.extend_from_slice(b"\r\n\r\n").ok()?;
    Some(head)
}

/// Returns whether a head of this many bytes, in pieces of this length, gets this reply.
fn long_is_answered(alloc: Global, len: usize, piece: usize, reply: &[u8], next: Next) -> bool {
    match head_of(alloc, len) {
        Some(head) => is_answered_in(alloc, head.as_slice(), piece, reply, next),
        None => false,
    }
}

/// The lengths of pieces.
const PIECES: [usize; 6] = [1, 7, 1_000, 16_383, 16_384, 20_000];

#[test]
fn a_head_of_16384_bytes_is_read(rt: HostRuntime) {
    for piece in &PIECES {
        let alloc = rt.alloc();
        assert!(rt; long_is_answered(alloc, 16_384, *piece, NOT_FOUND, Next::Go));
    }
}

#[test]
fn a_head_of_16385_bytes_is_too_long(rt: HostRuntime) {
    for piece in &PIECES {
        let alloc = rt.alloc();
        assert!(rt; long_is_answered(alloc, 16_385, *piece, TOO_LONG, Next::Close));
    }
}

/// Returns whether this many bytes without an empty line get this reply.
fn endless_is_answered(alloc: Global, len: usize, reply: &[u8], next: Next) -> bool {
    match head_of(alloc, 20_000) {
        Some(head) => {
            let whole = head.as_slice();
            let front = whole.split_at(len.min(whole.len())).0;
            is_answered_in(alloc, front, 1_000, reply, next)
        }
        None => false,
    }
}

#[test]
fn a_head_is_too_long_at_its_16384th_byte(rt: HostRuntime) {
    assert!(rt; endless_is_answered(rt.alloc(), 16_383, b"", Next::Go));
    assert!(rt; endless_is_answered(rt.alloc(), 16_384, TOO_LONG, Next::Close));
}
