//! Heads of requests, and heads of replies.
use crate::rows::is;
use arch_base::Bytes;
use http_heads::{Body, Status, Verdict, judge, push_reply_head, read_head};
use std::alloc::Global;

/// Heads of all kinds: their methods and targets, whether a body follows, and whether the connection
/// ends.
const ASKED: [(&[u8], &[u8], &[u8], bool, bool); 18] = [
    (b"GET / HTTP/1.1\r\n\r\n", b"GET", b"/", false, false),
    (
        b"GET /l/?o=2 HTTP/1.0\r\n\r\n",
        b"GET",
        b"/l/?o=2",
        false,
        true,
    ),
    (
        b"HEAD / HTTP/1.1\r\nConnection: close\r\n\r\n",
        b"HEAD",
        b"/",
        false,
        true,
    ),
    (
        b"GET / HTTP/1.1\r\nconnection: x,\tCLOSE ,y\r\n\r\n",
        b"GET",
        b"/",
        false,
        true,
    ),
    (
        b"GET / HTTP/1.1\r\nConnection: x\r\nConnection:close\r\n\r\n",
        b"GET",
        b"/",
        false,
        true,
    ),
    (
        b"GET / HTTP/1.1\r\nConnection: close;x, \"close\", x close\r\n\r\n",
        b"GET",
        b"/",
        false,
        false,
    ),
    (
        b"GET / HTTP/1.1\r\nConnections: close\r\n\r\n",
        b"GET",
        b"/",
        false,
        false,
    ),
    (
        b"GET / HTTP/1.0\r\nConnection: keep-alive\r\n\r\n",
        b"GET",
        b"/",
        false,
        true,
    ),
    (
        b"PUT / HTTP/1.1\r\nContent-Length: 4\r\n\r\n",
        b"PUT",
        b"/",
        true,
        false,
    ),
    (
        b"PUT / HTTP/1.1\r\nContent-Length: \t0 \t\r\ncontent-length:0\r\n\r\n",
        b"PUT",
        b"/",
        false,
        false,
    ),
    (
        b"GET / HTTP/1.1\r\nContent-Length: 00\r\n\r\n",
        b"GET",
        b"/",
        true,
        false,
    ),
    (
        b"GET / HTTP/1.1\r\nContent-Length:\r\n\r\n",
        b"GET",
        b"/",
        true,
        false,
    ),
    (
        b"GET / HTTP/1.1\r\nContent-Length: 0, 0\r\n\r\n",
        b"GET",
        b"/",
        true,
        false,
    ),
    (
        b"GET / HTTP/1.1\r\ntransfer-encoding:\r\n\r\n",
        b"GET",
        b"/",
        true,
        false,
    ),
    (
        b"\r\nGET /a?b#c HTTP/1.1\r\n\r\n",
        b"GET",
        b"/a?b#c",
        false,
        false,
    ),
    (
        b"\n\nGET / HTTP/1.1\nA: b\r\n\r\n",
        b"GET",
        b"/",
        false,
        false,
    ),
    (
        b"get http://h/ HTTP/1.1\r\nHost: a\r\nHost: b\r\n\r\n",
        b"get",
        b"http://h/",
        false,
        false,
    ),
    (
        b"OPTIONS * HTTP/1.1\r\n\r\n",
        b"OPTIONS",
        b"*",
        false,
        false,
    ),
];

/// Returns whether a head asks this.
fn asks(head: &[u8], method: &[u8], target: &[u8], has_body: bool, closes: bool) -> bool {
    match read_head(head) {
        Some(request) => {
            request.method == method
                && request.target == target
                && request.has_body == has_body
                && request.closes == closes
        }
        None => false,
    }
}

#[test]
fn a_head_asks_what_was_worked_out(rt: HostRuntime) {
    for (head, method, target, has_body, closes) in &ASKED {
        assert!(rt; asks(head, method, target, *has_body, *closes));
    }
}

/// Bytes that are no heads.
const REFUSED: [&[u8]; 14] = [
    b"",
    b"\r\n\r\n",
    b"GET /\r\n\r\n",
    b"GET / HTTP/1.1\r\n",
    b"GET / http/1.1\r\n\r\n",
    b"GET / HTTP/2.0\r\n\r\n",
    b"GET  / HTTP/1.1\r\n\r\n",
    b"GET /\xff HTTP/1.1\r\n\r\n",
    b"GET / HTTP/1.1\r\n\r\nx",
    b"GET / HTTP/1.1\n\nx\r\n\r\n",
    b"GET / HTTP/1.1\r\n\n\r\n\r\n",
    b"GET / HTTP/1.1\r\nA b: c\r\n\r\n",
    b"GET / HTTP/1.1\r\nA: b\r\n c: d\r\n\r\n",
    b"GET / HTTP/1.1\r\nA: \x01\r\n\r\n",
];

#[test]
fn other_bytes_are_no_heads(rt: HostRuntime) {
    for bytes in &REFUSED {
        assert!(rt; read_head(bytes).is_none());
    }
}

/// Returns a head with so many fields.
fn with_fields(alloc: Global, count: usize) -> Option<Bytes> {
    let mut made = Bytes::new(alloc);
    made.push_slice(b"GET / HTTP/1.1\r\n").ok()?;
    for _ in 0..count {
        made.push_slice(b"A: b\r\n").ok()?;
    }
    made.push_slice(b"\r\n").ok()?;
    Some(made)
}

/// Returns whether a head with so many fields is read.
fn reads_fields(alloc: Global, count: usize) -> bool {
    match with_fields(alloc, count) {
        Some(head) => read_head(head.as_slice()).is_some(),
        None => false,
    }
}

#[test]
fn a_head_has_at_most_128_fields(rt: HostRuntime) {
    assert!(rt; reads_fields(rt.alloc(), 128));
    assert!(rt; !reads_fields(rt.alloc(), 129));
}

/// Heads, and what becomes of them.
const JUDGED: [(&[u8], Verdict); 8] = [
    (b"GET / HTTP/1.1\r\n\r\n", Verdict::Serve(true)),
    (b"HEAD / HTTP/1.1\r\n\r\n", Verdict::Serve(false)),
    (
        b"get / HTTP/1.1\r\n\r\n",
        Verdict::Refuse(Status::MethodNotAllowed, true),
    ),
    (
        b"POST / HTTP/1.1\r\n\r\n",
        Verdict::Refuse(Status::MethodNotAllowed, true),
    ),
    (
        b"POST / HTTP/1.1\r\nContent-Length: 4\r\n\r\n",
        Verdict::Refuse(Status::BadRequest, true),
    ),
    (
        b"HEAD / HTTP/1.1\r\nContent-Length: 4\r\n\r\n",
        Verdict::Refuse(Status::BadRequest, false),
    ),
    (b"HEAD /\r\n\r\n", Verdict::Refuse(Status::BadRequest, true)),
    (b"\r\n\r\n", Verdict::Refuse(Status::BadRequest, true)),
];

#[test]
fn a_head_is_served_or_refused(rt: HostRuntime) {
    for (head, verdict) in &JUDGED {
        assert!(rt; judge(read_head(head)) == *verdict);
    }
}

/// Returns the head of a reply.
fn reply(
    alloc: Global,
    status: Status,
    moment: u64,
    body: Body,
    len: u128,
    closes: bool,
) -> Option<Bytes> {
    let mut made = Bytes::new(alloc);
    push_reply_head(
        status,
        moment.min(253_402_300_799),
        body,
        len,
        closes,
        &mut made,
    )
    .ok()?;
    Some(made)
}

/// The heads of replies.
const REPLIES: [(Status, u64, Body, u128, bool, &[u8]); 11] = [
    (
        Status::Done,
        1_706_781_700,
        Body::Page,
        122,
        false,
        b"HTTP/1.1 200 OK\r\nDate: Thu, 01 Feb 2024 10:01:40 GMT\r\nContent-Type: text/html; charset=utf-8\r\nContent-Length: 122\r\n\r\n",
    ),
    (
        Status::Done,
        1_709_251_199,
        Body::Text,
        103,
        true,
        b"HTTP/1.1 200 OK\r\nDate: Thu, 29 Feb 2024 23:59:59 GMT\r\nContent-Type: text/plain\r\nContent-Length: 103\r\nConnection: close\r\n\r\n",
    ),
    (
        Status::Done,
        1_706_781_700,
        Body::Entries,
        126,
        false,
        b"HTTP/1.1 200 OK\r\nDate: Thu, 01 Feb 2024 10:01:40 GMT\r\nContent-Type: text/plain\r\nContent-Length: 126\r\n\r\n",
    ),
    (
        Status::Done,
        0,
        Body::Blob,
        0,
        true,
        b"HTTP/1.1 200 OK\r\nDate: Thu, 01 Jan 1970 00:00:00 GMT\r\nContent-Type: application/octet-stream\r\nContent-Length: 0\r\nConnection: close\r\n\r\n",
    ),
    (
        Status::MethodNotAllowed,
        0,
        Body::Words,
        19,
        true,
        b"HTTP/1.1 405 Method Not Allowed\r\nDate: Thu, 01 Jan 1970 00:00:00 GMT\r\nContent-Type: text/plain; charset=utf-8\r\nContent-Length: 19\r\nAllow: GET, HEAD\r\nConnection: close\r\n\r\n",
    ),
    (
        Status::BadRequest,
        253_402_300_799,
        Body::Words,
        12,
        true,
        b"HTTP/1.1 400 Bad Request\r\nDate: Fri, 31 Dec 9999 23:59:59 GMT\r\nContent-Type: text/plain; charset=utf-8\r\nContent-Length: 12\r\nConnection: close\r\n\r\n",
    ),
    (
        Status::NotFound,
        951_782_400,
        Body::Words,
        10,
        false,
        b"HTTP/1.1 404 Not Found\r\nDate: Tue, 29 Feb 2000 00:00:00 GMT\r\nContent-Type: text/plain; charset=utf-8\r\nContent-Length: 10\r\n\r\n",
    ),
    (
        Status::TooManyRequests,
        0,
        Body::Words,
        5,
        true,
        b"HTTP/1.1 429 Too Many Requests\r\nDate: Thu, 01 Jan 1970 00:00:00 GMT\r\nContent-Type: text/plain; charset=utf-8\r\nContent-Length: 5\r\nConnection: close\r\n\r\n",
    ),
    (
        Status::HeadTooLarge,
        0,
        Body::Words,
        15,
        true,
        b"HTTP/1.1 431 Request Header Fields Too Large\r\nDate: Thu, 01 Jan 1970 00:00:00 GMT\r\nContent-Type: text/plain; charset=utf-8\r\nContent-Length: 15\r\nConnection: close\r\n\r\n",
    ),
    (
        Status::ServerError,
        0,
        Body::Words,
        18_446_744_073_709_551_615,
        true,
        b"HTTP/1.1 500 Internal Server Error\r\nDate: Thu, 01 Jan 1970 00:00:00 GMT\r\nContent-Type: text/plain; charset=utf-8\r\nContent-Length: 18446744073709551615\r\nConnection: close\r\n\r\n",
    ),
    (
        Status::Unavailable,
        0,
        Body::Words,
        0,
        true,
        b"HTTP/1.1 503 Service Unavailable\r\nDate: Thu, 01 Jan 1970 00:00:00 GMT\r\nContent-Type: text/plain; charset=utf-8\r\nContent-Length: 0\r\nConnection: close\r\n\r\n",
    ),
];

#[test]
fn a_reply_has_the_head_that_was_worked_out(rt: HostRuntime) {
    for (status, moment, body, len, closes, head) in &REPLIES {
        assert!(rt;
            is(
                reply(rt.alloc(), *status, *moment, *body, *len, *closes),
                head
            )
        );
    }
}
