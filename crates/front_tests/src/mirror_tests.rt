//! What a mirror asks for: the list of entries, and blobs. The list was worked out by hand from the
//! formats.
use crate::mails::{A, B, C, Connection, ENTRIES};
use crate::request_tests::{CLOSE, Case, TEXT, WORDS, is_answered};
use arch_model::Next;
use std::alloc::Global;

/// The media type of a blob.
const OCTETS: &[u8] = b"application/octet-stream";

/// The words for what is not there.
const NOT_FOUND: &[u8] = b"not found\n";

/// Requests for the list and for blobs that are there.
static TOLD: [Case; 9] = [
    Case {
        request: b"GET /list/_/list HTTP/1.1\r\n\r\n",
        status: b"200 OK",
        kind: TEXT,
        body: ENTRIES,
        more: b"",
        sends: true,
        next: Next::Go,
    },
    Case {
        request: b"GET /list/%5F/l%69st?o=1 HTTP/1.1\r\n\r\n",
        status: b"200 OK",
        kind: TEXT,
        body: ENTRIES,
        more: b"",
        sends: true,
        next: Next::Go,
    },
    Case {
        request: b"HEAD /list/_/list HTTP/1.1\r\n\r\n",
        status: b"200 OK",
        kind: TEXT,
        body: ENTRIES,
        more: b"",
        sends: false,
        next: Next::Go,
    },
    Case {
        request: b"GET /list/_/list HTTP/1.1\r\nConnection: close\r\n\r\n",
        status: b"200 OK",
        kind: TEXT,
        body: ENTRIES,
        more: CLOSE,
        sends: true,
        next: Next::Close,
    },
    Case {
        request: b"GET /list/_/blob/1d023c572ccd6f3cc82ae855343346b043adaba5 HTTP/1.1\r\n\r\n",
        status: b"200 OK",
        kind: OCTETS,
        body: A,
        more: b"",
        sends: true,
        next: Next::Go,
    },
    Case {
        request: b"GET /list/_/bl%6Fb/%61c5059345d50ef7ae4d77e2e3ba0e01b2db1aeb9 HTTP/1.1\r\n\r\n",
        status: b"200 OK",
        kind: OCTETS,
        body: B,
        more: b"",
        sends: true,
        next: Next::Go,
    },
    Case {
        request: b"GET /list/_/blob/cb07c39997994ff0909d92122107547598f01831 HTTP/1.1\r\n\r\n",
        status: b"200 OK",
        kind: OCTETS,
        body: C,
        more: b"",
        sends: true,
        next: Next::Go,
    },
    Case {
        request: b"HEAD /list/_/blob/ac5059345d50ef7ae4d77e2e3ba0e01b2db1aeb9 HTTP/1.1\r\n\r\n",
        status: b"200 OK",
        kind: OCTETS,
        body: B,
        more: b"",
        sends: false,
        next: Next::Go,
    },
    Case {
        request: b"GET /list/_/blob/1d023c572ccd6f3cc82ae855343346b043adaba5 HTTP/1.0\r\n\r\n",
        status: b"200 OK",
        kind: OCTETS,
        body: A,
        more: CLOSE,
        sends: true,
        next: Next::Close,
    },
];

/// Requests for blobs that aren't there, and for what is no address. Digits are those of another
/// width, of the other case, of no object, and of a tree and a commit.
static UNTOLD: [Case; 18] = [
    Case {
        request: b"GET /list/_/blob/1D023C572CCD6F3CC82AE855343346B043ADABA5 HTTP/1.1\r\n\r\n",
        status: b"404 Not Found",
        kind: WORDS,
        body: NOT_FOUND,
        more: b"",
        sends: true,
        next: Next::Go,
    },
    Case {
        request: b"GET /list/_/blob/1D023c572ccD6f3cc82ae855343346b043aDaba5 HTTP/1.1\r\n\r\n",
        status: b"404 Not Found",
        kind: WORDS,
        body: NOT_FOUND,
        more: b"",
        sends: true,
        next: Next::Go,
    },
    Case {
        request: b"GET /list/_/blob/1d023c572ccd6f3cc82ae855343346b043adaba HTTP/1.1\r\n\r\n",
        status: b"404 Not Found",
        kind: WORDS,
        body: NOT_FOUND,
        more: b"",
        sends: true,
        next: Next::Go,
    },
    Case {
        request: b"GET /list/_/blob/1d023c572ccd6f3cc82ae855343346b043adaba50 HTTP/1.1\r\n\r\n",
        status: b"404 Not Found",
        kind: WORDS,
        body: NOT_FOUND,
        more: b"",
        sends: true,
        next: Next::Go,
    },
    Case {
        request: b"GET /list/_/blob/70b16dd75f8e20a6ef189426d439d7b42c747bf41f86ce4d7127c6e6fe19cd8f HTTP/1.1\r\n\r\n",
        status: b"404 Not Found",
        kind: WORDS,
        body: NOT_FOUND,
        more: b"",
        sends: true,
        next: Next::Go,
    },
    Case {
        request: b"GET /list/_/blob/0000000000000000000000000000000000000000 HTTP/1.1\r\n\r\n",
        status: b"404 Not Found",
        kind: WORDS,
        body: NOT_FOUND,
        more: b"",
        sends: true,
        next: Next::Go,
    },
    Case {
        request: b"GET /list/_/blob/gd023c572ccd6f3cc82ae855343346b043adaba5 HTTP/1.1\r\n\r\n",
        status: b"404 Not Found",
        kind: WORDS,
        body: NOT_FOUND,
        more: b"",
        sends: true,
        next: Next::Go,
    },
    Case {
        request: b"GET /list/_/blob/5214d05ba78091eb28444448a3d1b97787e080f5 HTTP/1.1\r\n\r\n",
        status: b"404 Not Found",
        kind: WORDS,
        body: NOT_FOUND,
        more: b"",
        sends: true,
        next: Next::Go,
    },
    Case {
        request: b"GET /list/_/blob/d621b450ae1fbf27a31c9879d84eb9de5473a8b9 HTTP/1.1\r\n\r\n",
        status: b"404 Not Found",
        kind: WORDS,
        body: NOT_FOUND,
        more: b"",
        sends: true,
        next: Next::Go,
    },
    Case {
        request: b"GET /list/_/blob/ HTTP/1.1\r\n\r\n",
        status: b"404 Not Found",
        kind: WORDS,
        body: NOT_FOUND,
        more: b"",
        sends: true,
        next: Next::Go,
    },
    Case {
        request: b"GET /list/_/blob HTTP/1.1\r\n\r\n",
        status: b"404 Not Found",
        kind: WORDS,
        body: NOT_FOUND,
        more: b"",
        sends: true,
        next: Next::Go,
    },
    Case {
        request: b"GET /list/_/blob/1d023c572ccd6f3cc82ae855343346b043adaba5/ HTTP/1.1\r\n\r\n",
        status: b"404 Not Found",
        kind: WORDS,
        body: NOT_FOUND,
        more: b"",
        sends: true,
        next: Next::Go,
    },
    Case {
        request: b"GET /list/_/list/ HTTP/1.1\r\n\r\n",
        status: b"404 Not Found",
        kind: WORDS,
        body: NOT_FOUND,
        more: b"",
        sends: true,
        next: Next::Go,
    },
    Case {
        request: b"GET /list/_/LIST HTTP/1.1\r\n\r\n",
        status: b"404 Not Found",
        kind: WORDS,
        body: NOT_FOUND,
        more: b"",
        sends: true,
        next: Next::Go,
    },
    Case {
        request: b"GET /list/_ HTTP/1.1\r\n\r\n",
        status: b"404 Not Found",
        kind: WORDS,
        body: NOT_FOUND,
        more: b"",
        sends: true,
        next: Next::Go,
    },
    Case {
        request: b"GET /list/blob/1d023c572ccd6f3cc82ae855343346b043adaba5 HTTP/1.1\r\n\r\n",
        status: b"404 Not Found",
        kind: WORDS,
        body: NOT_FOUND,
        more: b"",
        sends: true,
        next: Next::Go,
    },
    Case {
        request: b"GET /lisp/_/list HTTP/1.1\r\n\r\n",
        status: b"404 Not Found",
        kind: WORDS,
        body: NOT_FOUND,
        more: b"",
        sends: true,
        next: Next::Go,
    },
    Case {
        request: b"HEAD /list/_/blob/1D023C572CCD6F3CC82AE855343346B043ADABA5 HTTP/1.1\r\n\r\n",
        status: b"404 Not Found",
        kind: WORDS,
        body: NOT_FOUND,
        more: b"",
        sends: false,
        next: Next::Go,
    },
];

#[test]
fn the_list_and_blobs_are_told(rt: HostRuntime) {
    for case in &TOLD {
        assert!(rt; is_answered(rt.alloc(), case), "{:?}", case.request);
    }
}

#[test]
fn what_has_no_digits_of_a_blob_is_not_found(rt: HostRuntime) {
    for case in &UNTOLD {
        assert!(rt; is_answered(rt.alloc(), case), "{:?}", case.request);
    }
}

/// The requests for the list and for the second mail's blob.
const BOTH: &[u8] =
    b"GET /list/_/list HTTP/1.1\r\n\r\nGET /list/_/blob/ac5059345d50ef7ae4d77e2e3ba0e01b2db1aeb9 HTTP/1.1\r\n\r\n";

/// The replies to them after the second mail was removed: the list names the removal, and the blob
/// stays.
const REMOVED: &[u8] =
    b"HTTP/1.1 200 OK\r\nDate: Thu, 01 Feb 2024 10:03:20 GMT\r\nContent-Type: text/plain\r\nContent-Length: 434\r\n\r\npiv2 list 1\nlist\n4\nm 1 0 1706781700 1d023c572ccd6f3cc82ae855343346b043adaba5 103 d621b450ae1fbf27a31c9879d84eb9de5473a8b9\nm 2 0 1706785300 ac5059345d50ef7ae4d77e2e3ba0e01b2db1aeb9 160 7f0cf9761f145005eb1023b63f1d5532674303b0\nm 3 0 1706788900 cb07c39997994ff0909d92122107547598f01831 39 cefe08e5ad30ebdd2167497eacea142ea6be50e1\nd 2 0 1706781800 ac5059345d50ef7ae4d77e2e3ba0e01b2db1aeb9 160 de33230d03c12619e702e26adb1af39726455276\nend\nHTTP/1.1 200 OK\r\nDate: Thu, 01 Feb 2024 10:03:20 GMT\r\nContent-Type: application/octet-stream\r\nContent-Length: 160\r\n\r\nFrom: Bob <bob@example.org>\nDate: Thu, 1 Feb 2024 11:00:00 +0000\nSubject: Re: <first> & more\nMessage-ID: <b/2@x>\nReferences: <g@x> <a@x>\n\nFrom here\n>From there\n";

/// The replies after it was purged: the third mail's commit follows the first one's.
const PURGED: &[u8] =
    b"HTTP/1.1 200 OK\r\nDate: Thu, 01 Feb 2024 10:03:20 GMT\r\nContent-Type: text/plain\r\nContent-Length: 228\r\n\r\npiv2 list 1\nlist\n4\nm 1 0 1706781700 1d023c572ccd6f3cc82ae855343346b043adaba5 103 d621b450ae1fbf27a31c9879d84eb9de5473a8b9\nm 3 0 1706788900 cb07c39997994ff0909d92122107547598f01831 39 5453e89b8c4c014ee86458fe9a9b54e97d7a5849\nend\nHTTP/1.1 404 Not Found\r\nDate: Thu, 01 Feb 2024 10:03:20 GMT\r\nContent-Type: text/plain; charset=utf-8\r\nContent-Length: 10\r\n\r\nnot found\n";

/// The replies of an archive without mails.
const EMPTY: &[u8] =
    b"HTTP/1.1 200 OK\r\nDate: Thu, 01 Feb 2024 10:03:20 GMT\r\nContent-Type: text/plain\r\nContent-Length: 23\r\n\r\npiv2 list 1\nlist\n1\nend\nHTTP/1.1 404 Not Found\r\nDate: Thu, 01 Feb 2024 10:03:20 GMT\r\nContent-Type: text/plain; charset=utf-8\r\nContent-Length: 10\r\n\r\nnot found\n";

/// Returns whether the replies to both requests are these.
fn both_are(connection: Option<Connection>, replies: &[u8]) -> bool {
    match connection {
        Some(mut connection) => {
            connection.hear(BOTH);
            connection.was_answered(replies, Next::Go)
        }
        None => false,
    }
}

/// Opens a connection to the three mails, of which the second was removed.
fn with_a_removal(alloc: Global) -> Option<Connection> {
    let mut connection = Connection::to_three(alloc)?;
    connection.remove(2);
    Some(connection)
}

/// Opens a connection to the three mails, of which the second was removed and then purged.
fn with_a_purge(alloc: Global) -> Option<Connection> {
    let mut connection = with_a_removal(alloc)?;
    connection.purge(2);
    Some(connection)
}

#[test]
fn a_removal_is_listed_and_its_blob_stays(rt: HostRuntime) {
    assert!(rt; both_are(with_a_removal(rt.alloc()), REMOVED));
}

#[test]
fn what_was_purged_is_neither_listed_nor_found(rt: HostRuntime) {
    assert!(rt; both_are(with_a_purge(rt.alloc()), PURGED));
}

#[test]
fn an_archive_without_mails_has_a_list(rt: HostRuntime) {
    assert!(rt; both_are(Connection::to_nothing(rt.alloc()), EMPTY));
}

/// Requests to an archive of the form SHA-256: for its list, for the blob by its id, and by its digits
/// of SHA-1.
const WIDE: &[u8] =
    b"GET /list/_/list HTTP/1.1\r\n\r\nGET /list/_/blob/70b16dd75f8e20a6ef189426d439d7b42c747bf41f86ce4d7127c6e6fe19cd8f HTTP/1.1\r\n\r\nGET /list/_/blob/1d023c572ccd6f3cc82ae855343346b043adaba5 HTTP/1.1\r\n\r\n";

/// The replies to them.
const WIDE_REPLIES: &[u8] =
    b"HTTP/1.1 200 OK\r\nDate: Thu, 01 Feb 2024 10:03:20 GMT\r\nContent-Type: text/plain\r\nContent-Length: 174\r\n\r\npiv2 list 2\nlist\n2\nm 1 0 1706781700 70b16dd75f8e20a6ef189426d439d7b42c747bf41f86ce4d7127c6e6fe19cd8f 103 d19879bb23cab42831fe17e24121a2dafff4923380bb817515cd88dce7c2f63d\nend\nHTTP/1.1 200 OK\r\nDate: Thu, 01 Feb 2024 10:03:20 GMT\r\nContent-Type: application/octet-stream\r\nContent-Length: 103\r\n\r\nFrom: Ann <ann@example.org>\nDate: Thu, 1 Feb 2024 10:00:00 +0000\nSubject: first\nMessage-ID: <a@x>\n\none\nHTTP/1.1 404 Not Found\r\nDate: Thu, 01 Feb 2024 10:03:20 GMT\r\nContent-Type: text/plain; charset=utf-8\r\nContent-Length: 10\r\n\r\nnot found\n";

/// Returns whether an archive of the form SHA-256 tells ids of 64 digits, and finds blobs by them
/// alone.
fn wide_is_told(alloc: Global) -> bool {
    match Connection::to_sha_256(alloc) {
        Some(mut connection) => {
            connection.hear(WIDE);
            connection.was_answered(WIDE_REPLIES, Next::Go)
        }
        None => false,
    }
}

#[test]
fn ids_have_the_digits_of_the_archives_form(rt: HostRuntime) {
    assert!(rt; wide_is_told(rt.alloc()));
}
