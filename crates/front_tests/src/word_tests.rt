//! What is shown after a removal, and the words for what no session answers.
use crate::mails::Connection;
use arch_base::Numbers;
use arch_model::{Next, OpenRefusal};
use disk_model::{FileKind, FileName};
use edge_io::MemSink;
use http_front::say_refusal;
use keep_course::Refusal;
use std::alloc::Global;

/// Requests after the removal of the first mail, and their replies.
static AFTER_REMOVAL: [(&[u8], &[u8]); 4] = [
    (
        b"GET /list/a@x/ HTTP/1.1\r\n\r\n",
        b"HTTP/1.1 404 Not Found\r\nDate: Thu, 01 Feb 2024 10:03:20 GMT\r\nContent-Type: text/plain; charset=utf-8\r\nContent-Length: 10\r\n\r\nnot found\n",
    ),
    (
        b"GET /list/a@x/t.mbox HTTP/1.1\r\n\r\n",
        b"HTTP/1.1 404 Not Found\r\nDate: Thu, 01 Feb 2024 10:03:20 GMT\r\nContent-Type: text/plain; charset=utf-8\r\nContent-Length: 10\r\n\r\nnot found\n",
    ),
    (
        b"GET /list/ HTTP/1.1\r\n\r\n",
        b"HTTP/1.1 200 OK\r\nDate: Thu, 01 Feb 2024 10:03:20 GMT\r\nContent-Type: text/html; charset=utf-8\r\nContent-Length: 204\r\n\r\n<html><head><title>list</title></head><body><pre>2024-02-01 12:01 <a href=\"/list/c@x/\">lone</a> unknown\n2024-02-01 11:00 <a href=\"/list/b%2F2@x/\">Re: &lt;first&gt; &amp; more</a> Bob\n</pre></body></html>\n",
    ),
    (
        b"GET /list/all.mbox HTTP/1.1\r\n\r\n",
        b"HTTP/1.1 200 OK\r\nDate: Thu, 01 Feb 2024 10:03:20 GMT\r\nContent-Type: application/mbox\r\nContent-Length: 281\r\n\r\nFrom mboxrd@z Thu Jan  1 00:00:00 1970\nFrom: Bob <bob@example.org>\nDate: Thu, 1 Feb 2024 11:00:00 +0000\nSubject: Re: <first> & more\nMessage-ID: <b/2@x>\nReferences: <g@x> <a@x>\n\n>From here\n>>From there\n\nFrom mboxrd@z Thu Jan  1 00:00:00 1970\nSubject: lone\nMessage-ID: <c@x>\n\nthree\n\n",
    ),
];

/// Returns whether a request after the removal gets its reply.
fn is_answered_after(alloc: Global, request: &[u8], reply: &[u8]) -> bool {
    match Connection::to_three(alloc) {
        Some(mut connection) => {
            connection.remove(1);
            connection.hear(request);
            connection.was_answered(reply, Next::Go)
        }
        None => false,
    }
}

#[test]
fn a_removed_mail_is_not_shown(rt: HostRuntime) {
    for (request, reply) in &AFTER_REMOVAL {
        assert!(rt;
            is_answered_after(rt.alloc(), request, reply),
            "{:?}",
            request
        );
    }
}

/// The moment of the words, 2024-02-01 10:03:20.
const MOMENT: u64 = 1_706_781_800;

/// Returns whether the reply to a refusal is this.
fn refusal_is(alloc: Global, refusal: Refusal, reply: &[u8]) -> bool {
    let mut out = MemSink::new(alloc, Numbers::new(alloc));
    say_refusal(refusal, MOMENT, &mut out).is_ok() && out.taken() == reply
}

/// Returns whether the reply for an archive that is not opened is this.
fn unopened_is(alloc: Global, refusal: OpenRefusal, reply: &[u8]) -> bool {
    refusal_is(alloc, Refusal::Unopened(refusal), reply)
}

/// Returns the refusal of an archive with a damaged file of a kind.
fn damage(kind: FileKind, number: u32, at: u64) -> OpenRefusal {
    OpenRefusal::Damaged {
        file: FileName {
            kind,
            number,
            generation: 5,
        },
        at,
    }
}

#[test]
fn the_node_has_words_of_the_door(rt: HostRuntime) {
    assert!(rt;
        refusal_is(
            rt.alloc(),
            Refusal::Busy,
            b"HTTP/1.1 429 Too Many Requests\r\nDate: Thu, 01 Feb 2024 10:03:20 GMT\r\nContent-Type: text/plain; charset=utf-8\r\nContent-Length: 5\r\nConnection: close\r\n\r\nbusy\n"
        )
    );
    assert!(rt;
        refusal_is(
            rt.alloc(),
            Refusal::NoMemory,
            b"HTTP/1.1 503 Service Unavailable\r\nDate: Thu, 01 Feb 2024 10:03:20 GMT\r\nContent-Type: text/plain; charset=utf-8\r\nContent-Length: 14\r\nConnection: close\r\n\r\nout of memory\n"
        )
    );
}

#[test]
fn an_archive_that_does_not_open_is_told(rt: HostRuntime) {
    let fault =
        b"HTTP/1.1 500 Internal Server Error\r\nDate: Thu, 01 Feb 2024 10:03:20 GMT\r\nContent-Type: text/plain; charset=utf-8\r\nContent-Length: 11\r\nConnection: close\r\n\r\ndisk fault\n";
    let root =
        b"HTTP/1.1 500 Internal Server Error\r\nDate: Thu, 01 Feb 2024 10:03:20 GMT\r\nContent-Type: text/plain; charset=utf-8\r\nContent-Length: 15\r\nConnection: close\r\n\r\ndamaged root 0\n";
    assert!(rt; unopened_is(rt.alloc(), OpenRefusal::DiskFault, fault));
    assert!(rt; unopened_is(rt.alloc(), OpenRefusal::NoArchive, root));
    assert!(rt; unopened_is(rt.alloc(), damage(FileKind::Root, 0, 0), root));
}

#[test]
fn a_damaged_file_is_named(rt: HostRuntime) {
    let epoch =
        b"HTTP/1.1 500 Internal Server Error\r\nDate: Thu, 01 Feb 2024 10:03:20 GMT\r\nContent-Type: text/plain; charset=utf-8\r\nContent-Length: 18\r\nConnection: close\r\n\r\ndamaged epoch 3 8\n";
    let map =
        b"HTTP/1.1 500 Internal Server Error\r\nDate: Thu, 01 Feb 2024 10:03:20 GMT\r\nContent-Type: text/plain; charset=utf-8\r\nContent-Length: 15\r\nConnection: close\r\n\r\ndamaged map 48\n";
    let cache =
        b"HTTP/1.1 500 Internal Server Error\r\nDate: Thu, 01 Feb 2024 10:03:20 GMT\r\nContent-Type: text/plain; charset=utf-8\r\nContent-Length: 35\r\nConnection: close\r\n\r\ndamaged cache 18446744073709551615\n";
    assert!(rt; unopened_is(rt.alloc(), damage(FileKind::Epoch, 3, 8), epoch));
    assert!(rt; unopened_is(rt.alloc(), damage(FileKind::Map, 0, 48), map));
    assert!(rt; unopened_is(rt.alloc(), damage(FileKind::Cache, 0, u64::MAX), cache));
}
