//! Heads and targets, and their replies, which were worked out by hand from the formats.
use crate::mails::{
    A, AFTER_ALL, AFTER_ONE, ALL_MBOX, B, Connection, FEED, LISTING, LONE_A, LONE_FEED, LONE_MBOX,
    MESSAGE_A, MESSAGE_B, MESSAGE_C, THREAD_A, THREAD_B, THREAD_C, THREAD_FEED, THREAD_MBOX,
};
use arch_base::{Bytes, NoMemory};
use arch_model::Next;
use itoa::Buffer;
use std::alloc::Global;

/// A request and its reply.
#[derive(Drop)]
pub(crate) struct Case {
    pub(crate) request: &'static [u8],
    /// The status and its reason.
    pub(crate) status: &'static [u8],
    /// The media type of the body.
    pub(crate) kind: &'static [u8],
    pub(crate) body: &'static [u8],
    /// The lines of the head after those on the body.
    pub(crate) more: &'static [u8],
    /// Whether the body is sent.
    pub(crate) sends: bool,
    /// Whether the connection then continues.
    pub(crate) next: Next,
}

/// The media type of a page.
const PAGE: &[u8] = b"text/html; charset=utf-8";

/// The media type of a text.
pub(crate) const TEXT: &[u8] = b"text/plain";

/// The media type of words.
pub(crate) const WORDS: &[u8] = b"text/plain; charset=utf-8";

/// The media type of a feed.
const ATOM: &[u8] = b"application/atom+xml; charset=utf-8";

/// The media type of a mailbox file.
const MBOX: &[u8] = b"application/mbox";

/// The line that closes a connection.
pub(crate) const CLOSE: &[u8] = b"Connection: close\r\n";

/// The lines that refuse a method.
const ALLOW: &[u8] = b"Allow: GET, HEAD\r\nConnection: close\r\n";

/// Requests for the listing.
static LISTED: [Case; 16] = [
    Case {
        request: b"GET /list/ HTTP/1.1\r\n\r\n",
        status: b"200 OK",
        kind: PAGE,
        body: LISTING,
        more: b"",
        sends: true,
        next: Next::Go,
    },
    Case {
        request: b"GET /list/?o=0 HTTP/1.1\r\n\r\n",
        status: b"200 OK",
        kind: PAGE,
        body: LISTING,
        more: b"",
        sends: true,
        next: Next::Go,
    },
    Case {
        request: b"GET /list/?o=1 HTTP/1.1\r\n\r\n",
        status: b"200 OK",
        kind: PAGE,
        body: AFTER_ONE,
        more: b"",
        sends: true,
        next: Next::Go,
    },
    Case {
        request: b"GET /list/?o=2 HTTP/1.1\r\n\r\n",
        status: b"200 OK",
        kind: PAGE,
        body: LONE_A,
        more: b"",
        sends: true,
        next: Next::Go,
    },
    Case {
        request: b"GET /list/?%6f=%31&o=2 HTTP/1.1\r\n\r\n",
        status: b"200 OK",
        kind: PAGE,
        body: AFTER_ONE,
        more: b"",
        sends: true,
        next: Next::Go,
    },
    Case {
        request: b"GET /list/?o=01 HTTP/1.1\r\n\r\n",
        status: b"200 OK",
        kind: PAGE,
        body: LISTING,
        more: b"",
        sends: true,
        next: Next::Go,
    },
    Case {
        request: b"GET /list/?o=x&o=1 HTTP/1.1\r\n\r\n",
        status: b"200 OK",
        kind: PAGE,
        body: LISTING,
        more: b"",
        sends: true,
        next: Next::Go,
    },
    Case {
        request: b"GET /list/?o=3 HTTP/1.1\r\n\r\n",
        status: b"200 OK",
        kind: PAGE,
        body: AFTER_ALL,
        more: b"",
        sends: true,
        next: Next::Go,
    },
    Case {
        request: b"GET /list/?o=18446744073709551615 HTTP/1.1\r\n\r\n",
        status: b"200 OK",
        kind: PAGE,
        body: AFTER_ALL,
        more: b"",
        sends: true,
        next: Next::Go,
    },
    Case {
        request: b"GET /list/?o=18446744073709551616 HTTP/1.1\r\n\r\n",
        status: b"200 OK",
        kind: PAGE,
        body: LISTING,
        more: b"",
        sends: true,
        next: Next::Go,
    },
    Case {
        request: b"GET /l%69st/ HTTP/1.1\r\n\r\n",
        status: b"200 OK",
        kind: PAGE,
        body: LISTING,
        more: b"",
        sends: true,
        next: Next::Go,
    },
    Case {
        request: b"GET /list/ HTTP/1.1\r\nConnection: close;x\r\n\r\n",
        status: b"200 OK",
        kind: PAGE,
        body: LISTING,
        more: b"",
        sends: true,
        next: Next::Go,
    },
    Case {
        request: b"GET /list/ HTTP/1.1\r\nHost: a\r\nHost: b\r\n\r\n",
        status: b"200 OK",
        kind: PAGE,
        body: LISTING,
        more: b"",
        sends: true,
        next: Next::Go,
    },
    Case {
        request: b"\r\nGET /list/ HTTP/1.1\r\n\r\n",
        status: b"200 OK",
        kind: PAGE,
        body: LISTING,
        more: b"",
        sends: true,
        next: Next::Go,
    },
    Case {
        request: b"\n\nGET /list/ HTTP/1.1\nA: b\r\n\r\n",
        status: b"200 OK",
        kind: PAGE,
        body: LISTING,
        more: b"",
        sends: true,
        next: Next::Go,
    },
    Case {
        request: b"GET /list/ HTTP/1.1\r\nContent-Length: 0\r\ncontent-length: \t0\r\n\r\n",
        status: b"200 OK",
        kind: PAGE,
        body: LISTING,
        more: b"",
        sends: true,
        next: Next::Go,
    },
];

/// Requests for messages and their texts.
static MESSAGES: [Case; 9] = [
    Case {
        request: b"GET /list/a@x/ HTTP/1.1\r\n\r\n",
        status: b"200 OK",
        kind: PAGE,
        body: MESSAGE_A,
        more: b"",
        sends: true,
        next: Next::Go,
    },
    Case {
        request: b"GET /list/a@x HTTP/1.1\r\n\r\n",
        status: b"200 OK",
        kind: PAGE,
        body: MESSAGE_A,
        more: b"",
        sends: true,
        next: Next::Go,
    },
    Case {
        request: b"GET /list/a%40x?q=d:x HTTP/1.1\r\n\r\n",
        status: b"200 OK",
        kind: PAGE,
        body: MESSAGE_A,
        more: b"",
        sends: true,
        next: Next::Go,
    },
    Case {
        request: b"GET /list/b%2F2@x/ HTTP/1.1\r\n\r\n",
        status: b"200 OK",
        kind: PAGE,
        body: MESSAGE_B,
        more: b"",
        sends: true,
        next: Next::Go,
    },
    Case {
        request: b"GET /list/b%2f2@x HTTP/1.1\r\n\r\n",
        status: b"200 OK",
        kind: PAGE,
        body: MESSAGE_B,
        more: b"",
        sends: true,
        next: Next::Go,
    },
    Case {
        request: b"GET /list/c@x/ HTTP/1.1\r\n\r\n",
        status: b"200 OK",
        kind: PAGE,
        body: MESSAGE_C,
        more: b"",
        sends: true,
        next: Next::Go,
    },
    Case {
        request: b"GET /list/a@x/raw HTTP/1.1\r\n\r\n",
        status: b"200 OK",
        kind: TEXT,
        body: A,
        more: b"",
        sends: true,
        next: Next::Go,
    },
    Case {
        request: b"GET /list/a@x/r%61w?o=1 HTTP/1.1\r\n\r\n",
        status: b"200 OK",
        kind: TEXT,
        body: A,
        more: b"",
        sends: true,
        next: Next::Go,
    },
    Case {
        request: b"GET /list/b%2F2@x/raw HTTP/1.1\r\n\r\n",
        status: b"200 OK",
        kind: TEXT,
        body: B,
        more: b"",
        sends: true,
        next: Next::Go,
    },
];

/// Requests for threads.
static THREADS: [Case; 3] = [
    Case {
        request: b"GET /list/a@x/t/ HTTP/1.1\r\n\r\n",
        status: b"200 OK",
        kind: PAGE,
        body: THREAD_A,
        more: b"",
        sends: true,
        next: Next::Go,
    },
    Case {
        request: b"GET /list/b%2F2%40x/t/ HTTP/1.1\r\n\r\n",
        status: b"200 OK",
        kind: PAGE,
        body: THREAD_B,
        more: b"",
        sends: true,
        next: Next::Go,
    },
    Case {
        request: b"GET /list/c@x/%74/ HTTP/1.1\r\n\r\n",
        status: b"200 OK",
        kind: PAGE,
        body: THREAD_C,
        more: b"",
        sends: true,
        next: Next::Go,
    },
];

/// Requests for feeds.
static FEEDS: [Case; 5] = [
    Case {
        request: b"GET /list/new.atom HTTP/1.1\r\n\r\n",
        status: b"200 OK",
        kind: ATOM,
        body: FEED,
        more: b"",
        sends: true,
        next: Next::Go,
    },
    Case {
        request: b"GET /list/new.atom?q=d:x HTTP/1.1\r\n\r\n",
        status: b"200 OK",
        kind: ATOM,
        body: FEED,
        more: b"",
        sends: true,
        next: Next::Go,
    },
    Case {
        request: b"GET /list/a@x/t.atom HTTP/1.1\r\n\r\n",
        status: b"200 OK",
        kind: ATOM,
        body: THREAD_FEED,
        more: b"",
        sends: true,
        next: Next::Go,
    },
    Case {
        request: b"GET /list/b%2F2@x/t.atom HTTP/1.1\r\n\r\n",
        status: b"200 OK",
        kind: ATOM,
        body: THREAD_FEED,
        more: b"",
        sends: true,
        next: Next::Go,
    },
    Case {
        request: b"GET /list/c@x/t.atom HTTP/1.1\r\n\r\n",
        status: b"200 OK",
        kind: ATOM,
        body: LONE_FEED,
        more: b"",
        sends: true,
        next: Next::Go,
    },
];

/// Requests for mailbox files.
static MAILBOXES: [Case; 5] = [
    Case {
        request: b"GET /list/all.mbox HTTP/1.1\r\n\r\n",
        status: b"200 OK",
        kind: MBOX,
        body: ALL_MBOX,
        more: b"",
        sends: true,
        next: Next::Go,
    },
    Case {
        request: b"GET /list/%61ll.mbox HTTP/1.1\r\n\r\n",
        status: b"200 OK",
        kind: MBOX,
        body: ALL_MBOX,
        more: b"",
        sends: true,
        next: Next::Go,
    },
    Case {
        request: b"GET /list/b%2F2@x/t.mbox HTTP/1.1\r\n\r\n",
        status: b"200 OK",
        kind: MBOX,
        body: THREAD_MBOX,
        more: b"",
        sends: true,
        next: Next::Go,
    },
    Case {
        request: b"GET /list/a@x/t.mbox HTTP/1.1\r\n\r\n",
        status: b"200 OK",
        kind: MBOX,
        body: THREAD_MBOX,
        more: b"",
        sends: true,
        next: Next::Go,
    },
    Case {
        request: b"GET /list/c@x/t.mbox HTTP/1.1\r\n\r\n",
        status: b"200 OK",
        kind: MBOX,
        body: LONE_MBOX,
        more: b"",
        sends: true,
        next: Next::Go,
    },
];

/// Requests for what is not there.
static ABSENT: [Case; 22] = [
    Case {
        request: b"GET /list/zz/ HTTP/1.1\r\n\r\n",
        status: b"404 Not Found",
        kind: WORDS,
        body: b"not found\n",
        more: b"",
        sends: true,
        next: Next::Go,
    },
    Case {
        request: b"GET /list/zz/raw HTTP/1.1\r\n\r\n",
        status: b"404 Not Found",
        kind: WORDS,
        body: b"not found\n",
        more: b"",
        sends: true,
        next: Next::Go,
    },
    Case {
        request: b"GET /list/zz/t/ HTTP/1.1\r\n\r\n",
        status: b"404 Not Found",
        kind: WORDS,
        body: b"not found\n",
        more: b"",
        sends: true,
        next: Next::Go,
    },
    Case {
        request: b"GET /list/zz/t.atom HTTP/1.1\r\n\r\n",
        status: b"404 Not Found",
        kind: WORDS,
        body: b"not found\n",
        more: b"",
        sends: true,
        next: Next::Go,
    },
    Case {
        request: b"GET /list/zz/t.mbox HTTP/1.1\r\n\r\n",
        status: b"404 Not Found",
        kind: WORDS,
        body: b"not found\n",
        more: b"",
        sends: true,
        next: Next::Go,
    },
    Case {
        request: b"GET /list/g@x/ HTTP/1.1\r\n\r\n",
        status: b"404 Not Found",
        kind: WORDS,
        body: b"not found\n",
        more: b"",
        sends: true,
        next: Next::Go,
    },
    Case {
        request: b"GET /list HTTP/1.1\r\n\r\n",
        status: b"404 Not Found",
        kind: WORDS,
        body: b"not found\n",
        more: b"",
        sends: true,
        next: Next::Go,
    },
    Case {
        request: b"GET / HTTP/1.1\r\n\r\n",
        status: b"404 Not Found",
        kind: WORDS,
        body: b"not found\n",
        more: b"",
        sends: true,
        next: Next::Go,
    },
    Case {
        request: b"GET /List/ HTTP/1.1\r\n\r\n",
        status: b"404 Not Found",
        kind: WORDS,
        body: b"not found\n",
        more: b"",
        sends: true,
        next: Next::Go,
    },
    Case {
        request: b"GET /lists/ HTTP/1.1\r\n\r\n",
        status: b"404 Not Found",
        kind: WORDS,
        body: b"not found\n",
        more: b"",
        sends: true,
        next: Next::Go,
    },
    Case {
        request: b"GET list/ HTTP/1.1\r\n\r\n",
        status: b"404 Not Found",
        kind: WORDS,
        body: b"not found\n",
        more: b"",
        sends: true,
        next: Next::Go,
    },
    Case {
        request: b"GET * HTTP/1.1\r\n\r\n",
        status: b"404 Not Found",
        kind: WORDS,
        body: b"not found\n",
        more: b"",
        sends: true,
        next: Next::Go,
    },
    Case {
        request: b"GET http://h/list/ HTTP/1.1\r\n\r\n",
        status: b"404 Not Found",
        kind: WORDS,
        body: b"not found\n",
        more: b"",
        sends: true,
        next: Next::Go,
    },
    Case {
        request: b"GET /list/A@x/ HTTP/1.1\r\n\r\n",
        status: b"404 Not Found",
        kind: WORDS,
        body: b"not found\n",
        more: b"",
        sends: true,
        next: Next::Go,
    },
    Case {
        request: b"GET /list/a@x/t HTTP/1.1\r\n\r\n",
        status: b"404 Not Found",
        kind: WORDS,
        body: b"not found\n",
        more: b"",
        sends: true,
        next: Next::Go,
    },
    Case {
        request: b"GET /list/a@x/raw/ HTTP/1.1\r\n\r\n",
        status: b"404 Not Found",
        kind: WORDS,
        body: b"not found\n",
        more: b"",
        sends: true,
        next: Next::Go,
    },
    Case {
        request: b"GET /list/a@x// HTTP/1.1\r\n\r\n",
        status: b"404 Not Found",
        kind: WORDS,
        body: b"not found\n",
        more: b"",
        sends: true,
        next: Next::Go,
    },
    Case {
        request: b"GET /list/_/ HTTP/1.1\r\n\r\n",
        status: b"404 Not Found",
        kind: WORDS,
        body: b"not found\n",
        more: b"",
        sends: true,
        next: Next::Go,
    },
    Case {
        request: b"GET /list/_/t/ HTTP/1.1\r\n\r\n",
        status: b"404 Not Found",
        kind: WORDS,
        body: b"not found\n",
        more: b"",
        sends: true,
        next: Next::Go,
    },
    Case {
        request: b"GET /list/new.atom/ HTTP/1.1\r\n\r\n",
        status: b"404 Not Found",
        kind: WORDS,
        body: b"not found\n",
        more: b"",
        sends: true,
        next: Next::Go,
    },
    Case {
        request: b"GET /list/b/2@x/ HTTP/1.1\r\n\r\n",
        status: b"404 Not Found",
        kind: WORDS,
        body: b"not found\n",
        more: b"",
        sends: true,
        next: Next::Go,
    },
    Case {
        request: b"GET //list/ HTTP/1.1\r\n\r\n",
        status: b"404 Not Found",
        kind: WORDS,
        body: b"not found\n",
        more: b"",
        sends: true,
        next: Next::Go,
    },
];

/// Requests for searches.
static SEARCHED: [Case; 15] = [
    Case {
        request: b"GET /list/?q= HTTP/1.1\r\n\r\n",
        status: b"200 OK",
        kind: PAGE,
        body: LISTING,
        more: b"",
        sends: true,
        next: Next::Go,
    },
    Case {
        request: b"GET /list/?q=s:first HTTP/1.1\r\n\r\n",
        status: b"200 OK",
        kind: PAGE,
        body: AFTER_ONE,
        more: b"",
        sends: true,
        next: Next::Go,
    },
    Case {
        request: b"GET /list/?q=s%3Afirst&q=lone HTTP/1.1\r\n\r\n",
        status: b"200 OK",
        kind: PAGE,
        body: AFTER_ONE,
        more: b"",
        sends: true,
        next: Next::Go,
    },
    Case {
        request: b"GET /list/?q=s:first&o=1 HTTP/1.1\r\n\r\n",
        status: b"200 OK",
        kind: PAGE,
        body: LONE_A,
        more: b"",
        sends: true,
        next: Next::Go,
    },
    Case {
        request: b"GET /list/?o=1&%71=s:first HTTP/1.1\r\n\r\n",
        status: b"200 OK",
        kind: PAGE,
        body: LONE_A,
        more: b"",
        sends: true,
        next: Next::Go,
    },
    Case {
        request: b"GET /list/?q=s:first&o=2 HTTP/1.1\r\n\r\n",
        status: b"200 OK",
        kind: PAGE,
        body: AFTER_ALL,
        more: b"",
        sends: true,
        next: Next::Go,
    },
    Case {
        request: b"GET /list/?q=s:one HTTP/1.1\r\n\r\n",
        status: b"200 OK",
        kind: PAGE,
        body: AFTER_ALL,
        more: b"",
        sends: true,
        next: Next::Go,
    },
    Case {
        request: b"GET /list/?q=one%20d:20240201..20240201 HTTP/1.1\r\n\r\n",
        status: b"200 OK",
        kind: PAGE,
        body: LONE_A,
        more: b"",
        sends: true,
        next: Next::Go,
    },
    Case {
        request: b"GET /list/?q=one+d:20240202..20240202 HTTP/1.1\r\n\r\n",
        status: b"200 OK",
        kind: PAGE,
        body: AFTER_ALL,
        more: b"",
        sends: true,
        next: Next::Go,
    },
    Case {
        request: b"GET /list/?q=d:20240201..20240201&o=1 HTTP/1.1\r\n\r\n",
        status: b"200 OK",
        kind: PAGE,
        body: AFTER_ONE,
        more: b"",
        sends: true,
        next: Next::Go,
    },
    Case {
        request: b"GET /list/?q=f:ann HTTP/1.1\r\n\r\n",
        status: b"200 OK",
        kind: PAGE,
        body: LONE_A,
        more: b"",
        sends: true,
        next: Next::Go,
    },
    Case {
        request: b"GET /list/?q=first%09one HTTP/1.1\r\n\r\n",
        status: b"200 OK",
        kind: PAGE,
        body: LONE_A,
        more: b"",
        sends: true,
        next: Next::Go,
    },
    Case {
        request: b"GET /list/?o=1&q=x HTTP/1.1\r\n\r\n",
        status: b"200 OK",
        kind: PAGE,
        body: AFTER_ALL,
        more: b"",
        sends: true,
        next: Next::Go,
    },
    Case {
        request: b"GET /list/?q=S:first HTTP/1.1\r\n\r\n",
        status: b"200 OK",
        kind: PAGE,
        body: AFTER_ALL,
        more: b"",
        sends: true,
        next: Next::Go,
    },
    Case {
        request: b"HEAD /list/?q=s:one HTTP/1.1\r\n\r\n",
        status: b"200 OK",
        kind: PAGE,
        body: AFTER_ALL,
        more: b"",
        sends: false,
        next: Next::Go,
    },
];

/// Searches for what is no query.
static NO_QUERIES: [Case; 5] = [
    Case {
        request: b"GET /list/?q=d:20240201..20240101 HTTP/1.1\r\n\r\n",
        status: b"400 Bad Request",
        kind: WORDS,
        body: b"bad range\n",
        more: b"",
        sends: true,
        next: Next::Go,
    },
    Case {
        request: b"GET /list/?q=one+d:20240230..20240301 HTTP/1.1\r\n\r\n",
        status: b"400 Bad Request",
        kind: WORDS,
        body: b"bad range\n",
        more: b"",
        sends: true,
        next: Next::Go,
    },
    Case {
        request: b"GET /list/?q=d: HTTP/1.1\r\n\r\n",
        status: b"400 Bad Request",
        kind: WORDS,
        body: b"bad range\n",
        more: b"",
        sends: true,
        next: Next::Go,
    },
    Case {
        request: b"HEAD /list/?q=d:x HTTP/1.1\r\n\r\n",
        status: b"400 Bad Request",
        kind: WORDS,
        body: b"bad range\n",
        more: b"",
        sends: false,
        next: Next::Go,
    },
    Case {
        request: b"GET /list/?q=d:x HTTP/1.0\r\n\r\n",
        status: b"400 Bad Request",
        kind: WORDS,
        body: b"bad range\n",
        more: CLOSE,
        sends: true,
        next: Next::Close,
    },
];

/// Requests with the method `HEAD`.
static HEADS_ALONE: [Case; 6] = [
    Case {
        request: b"HEAD /list/ HTTP/1.1\r\n\r\n",
        status: b"200 OK",
        kind: PAGE,
        body: LISTING,
        more: b"",
        sends: false,
        next: Next::Go,
    },
    Case {
        request: b"HEAD /list/a@x/raw HTTP/1.1\r\n\r\n",
        status: b"200 OK",
        kind: TEXT,
        body: A,
        more: b"",
        sends: false,
        next: Next::Go,
    },
    Case {
        request: b"HEAD /list/new.atom HTTP/1.1\r\n\r\n",
        status: b"200 OK",
        kind: ATOM,
        body: FEED,
        more: b"",
        sends: false,
        next: Next::Go,
    },
    Case {
        request: b"HEAD /list/all.mbox HTTP/1.1\r\n\r\n",
        status: b"200 OK",
        kind: MBOX,
        body: ALL_MBOX,
        more: b"",
        sends: false,
        next: Next::Go,
    },
    Case {
        request: b"HEAD /list/a@x/t.mbox HTTP/1.1\r\nConnection: close\r\n\r\n",
        status: b"200 OK",
        kind: MBOX,
        body: THREAD_MBOX,
        more: CLOSE,
        sends: false,
        next: Next::Close,
    },
    Case {
        request: b"HEAD /list/zz/ HTTP/1.1\r\n\r\n",
        status: b"404 Not Found",
        kind: WORDS,
        body: b"not found\n",
        more: b"",
        sends: false,
        next: Next::Go,
    },
];

/// Requests after whose replies the connection is closed.
static LAST: [Case; 3] = [
    Case {
        request: b"GET /list/ HTTP/1.0\r\n\r\n",
        status: b"200 OK",
        kind: PAGE,
        body: LISTING,
        more: CLOSE,
        sends: true,
        next: Next::Close,
    },
    Case {
        request: b"GET /list/zz/ HTTP/1.0\r\nConnection: keep-alive\r\n\r\n",
        status: b"404 Not Found",
        kind: WORDS,
        body: b"not found\n",
        more: CLOSE,
        sends: true,
        next: Next::Close,
    },
    Case {
        request: b"GET /list/c@x/t.mbox HTTP/1.1\r\nConnection: a, Close\r\n\r\n",
        status: b"200 OK",
        kind: MBOX,
        body: LONE_MBOX,
        more: CLOSE,
        sends: true,
        next: Next::Close,
    },
];

/// What is refused, and closes the connection.
static REFUSED: [Case; 20] = [
    Case {
        request: b"\r\n\r\n",
        status: b"400 Bad Request",
        kind: WORDS,
        body: b"bad request\n",
        more: CLOSE,
        sends: true,
        next: Next::Close,
    },
    Case {
        request: b"x\r\n\r\n",
        status: b"400 Bad Request",
        kind: WORDS,
        body: b"bad request\n",
        more: CLOSE,
        sends: true,
        next: Next::Close,
    },
    Case {
        request: b"GET /list/ http/1.1\r\n\r\n",
        status: b"400 Bad Request",
        kind: WORDS,
        body: b"bad request\n",
        more: CLOSE,
        sends: true,
        next: Next::Close,
    },
    Case {
        request: b"GET /list/ HTTP/2.0\r\n\r\n",
        status: b"400 Bad Request",
        kind: WORDS,
        body: b"bad request\n",
        more: CLOSE,
        sends: true,
        next: Next::Close,
    },
    Case {
        request: b"GET /list/\r\n\r\n",
        status: b"400 Bad Request",
        kind: WORDS,
        body: b"bad request\n",
        more: CLOSE,
        sends: true,
        next: Next::Close,
    },
    Case {
        request: b"HEAD /list/ HTTP/1.1\r\nA\r\n\r\n",
        status: b"400 Bad Request",
        kind: WORDS,
        body: b"bad request\n",
        more: CLOSE,
        sends: true,
        next: Next::Close,
    },
    Case {
        request: b"GET / HTTP/1.1\n\nx\r\n\r\n",
        status: b"400 Bad Request",
        kind: WORDS,
        body: b"bad request\n",
        more: CLOSE,
        sends: true,
        next: Next::Close,
    },
    Case {
        request: b"GET /list/ HTTP/1.1\r\nContent-Length: 4\r\n\r\n",
        status: b"400 Bad Request",
        kind: WORDS,
        body: b"bad request\n",
        more: CLOSE,
        sends: true,
        next: Next::Close,
    },
    Case {
        request: b"GET /list/ HTTP/1.1\r\nContent-Length: 00\r\n\r\n",
        status: b"400 Bad Request",
        kind: WORDS,
        body: b"bad request\n",
        more: CLOSE,
        sends: true,
        next: Next::Close,
    },
    Case {
        request: b"GET /list/ HTTP/1.1\r\nContent-Length:\r\n\r\n",
        status: b"400 Bad Request",
        kind: WORDS,
        body: b"bad request\n",
        more: CLOSE,
        sends: true,
        next: Next::Close,
    },
    Case {
        request: b"GET /list/ HTTP/1.1\r\nTransfer-Encoding: chunked\r\n\r\n",
        status: b"400 Bad Request",
        kind: WORDS,
        body: b"bad request\n",
        more: CLOSE,
        sends: true,
        next: Next::Close,
    },
    Case {
        request: b"GET /list/ HTTP/1.1\r\ntransfer-encoding:\r\n\r\n",
        status: b"400 Bad Request",
        kind: WORDS,
        body: b"bad request\n",
        more: CLOSE,
        sends: true,
        next: Next::Close,
    },
    Case {
        request: b"POST /list/ HTTP/1.1\r\nContent-Length: 4\r\n\r\n",
        status: b"400 Bad Request",
        kind: WORDS,
        body: b"bad request\n",
        more: CLOSE,
        sends: true,
        next: Next::Close,
    },
    Case {
        request: b"HEAD /list/ HTTP/1.1\r\nContent-Length: 4\r\n\r\n",
        status: b"400 Bad Request",
        kind: WORDS,
        body: b"bad request\n",
        more: CLOSE,
        sends: false,
        next: Next::Close,
    },
    Case {
        request: b"POST /list/ HTTP/1.1\r\n\r\n",
        status: b"405 Method Not Allowed",
        kind: WORDS,
        body: b"method not allowed\n",
        more: ALLOW,
        sends: true,
        next: Next::Close,
    },
    Case {
        request: b"get /list/ HTTP/1.1\r\n\r\n",
        status: b"405 Method Not Allowed",
        kind: WORDS,
        body: b"method not allowed\n",
        more: ALLOW,
        sends: true,
        next: Next::Close,
    },
    Case {
        request: b"Head /list/ HTTP/1.1\r\n\r\n",
        status: b"405 Method Not Allowed",
        kind: WORDS,
        body: b"method not allowed\n",
        more: ALLOW,
        sends: true,
        next: Next::Close,
    },
    Case {
        request: b"OPTIONS * HTTP/1.1\r\n\r\n",
        status: b"405 Method Not Allowed",
        kind: WORDS,
        body: b"method not allowed\n",
        more: ALLOW,
        sends: true,
        next: Next::Close,
    },
    Case {
        request: b"DELETE /list/a@x/ HTTP/1.1\r\n\r\n",
        status: b"405 Method Not Allowed",
        kind: WORDS,
        body: b"method not allowed\n",
        more: ALLOW,
        sends: true,
        next: Next::Close,
    },
    Case {
        request: b"PUT /zz HTTP/1.1\r\n\r\n",
        status: b"405 Method Not Allowed",
        kind: WORDS,
        body: b"method not allowed\n",
        more: ALLOW,
        sends: true,
        next: Next::Close,
    },
];

/// Returns the reply of a case.
fn reply(alloc: Global, case: &Case) -> Result<Bytes, NoMemory> {
    let mut made = Bytes::new(alloc);
    let mut digits = Buffer::new();
    made.push_slice(b"HTTP/1.1 ")?;
    made.push_slice(case.status)?;
    made.push_slice(b"\r\nDate: Thu, 01 Feb 2024 10:03:20 GMT\r\nContent-Type: ")?;
    made.push_slice(case.kind)?;
    made.push_slice(b"\r\nContent-Length: ")?;
    made.push_slice(digits.format(case.body.len()).as_bytes())?;
    made.push_slice(b"\r\n")?;
    made.push_slice(case.more)?;
    made.push_slice(b"\r\n")?;
    if case.sends {
        made.push_slice(case.body)?;
    }
    Ok(made)
}

/// Returns whether a request to the archive with three mails gets its reply.
pub(crate) fn is_answered(alloc: Global, case: &Case) -> bool {
    let Ok(wanted) = reply(alloc, case) else {
        return false;
    };
    match Connection::to_three(alloc) {
        Some(mut connection) => {
            connection.hear(case.request);
            connection.was_answered(wanted.as_slice(), case.next)
        }
        None => false,
    }
}

#[test]
fn the_listing_is_shown(rt: HostRuntime) {
    for case in &LISTED {
        assert!(rt; is_answered(rt.alloc(), case), "{:?}", case.request);
    }
}

#[test]
fn searches_are_shown(rt: HostRuntime) {
    for case in &SEARCHED {
        assert!(rt; is_answered(rt.alloc(), case), "{:?}", case.request);
    }
}

#[test]
fn other_ranges_are_bad(rt: HostRuntime) {
    for case in &NO_QUERIES {
        assert!(rt; is_answered(rt.alloc(), case), "{:?}", case.request);
    }
}

#[test]
fn messages_are_shown(rt: HostRuntime) {
    for case in &MESSAGES {
        assert!(rt; is_answered(rt.alloc(), case), "{:?}", case.request);
    }
}

#[test]
fn threads_are_shown(rt: HostRuntime) {
    for case in &THREADS {
        assert!(rt; is_answered(rt.alloc(), case), "{:?}", case.request);
    }
}

#[test]
fn feeds_are_shown(rt: HostRuntime) {
    for case in &FEEDS {
        assert!(rt; is_answered(rt.alloc(), case), "{:?}", case.request);
    }
}

#[test]
fn mailbox_files_are_shown(rt: HostRuntime) {
    for case in &MAILBOXES {
        assert!(rt; is_answered(rt.alloc(), case), "{:?}", case.request);
    }
}

#[test]
fn what_is_not_there_is_not_found(rt: HostRuntime) {
    for case in &ABSENT {
        assert!(rt; is_answered(rt.alloc(), case), "{:?}", case.request);
    }
}

#[test]
fn a_head_request_gets_the_head_alone(rt: HostRuntime) {
    for case in &HEADS_ALONE {
        assert!(rt; is_answered(rt.alloc(), case), "{:?}", case.request);
    }
}

#[test]
fn a_last_reply_says_that_it_closes(rt: HostRuntime) {
    for case in &LAST {
        assert!(rt; is_answered(rt.alloc(), case), "{:?}", case.request);
    }
}

#[test]
fn what_is_no_request_is_refused(rt: HostRuntime) {
    for case in &REFUSED {
        assert!(rt; is_answered(rt.alloc(), case), "{:?}", case.request);
    }
}
