//! Pages of searches that find more than a page shows.
use crate::mails::{MOMENT, empty_archive};
use arch_base::{Bytes, NoMemory, Numbers, decimal};
use arch_model::{Command, Keep, Next};
use edge_io::MemSink;
use http_front::HttpSession;
use mem_archive::MemArchive;
use std::alloc::Global;

/// Returns a mail whose subject and body have one word each, by its number.
fn mail(alloc: Global, number: u64) -> Result<Bytes, NoMemory> {
    let mut text = Bytes::new(alloc);
    text.push_slice(b"Subject: many\nMessage-ID: <")?;
    text.push_slice(decimal(alloc, number)?.as_slice())?;
    text.push_slice(b"@x>\n\nb")?;
    text.push_slice(decimal(alloc, number % 3)?.as_slice())?;
    text.push_slice(b"\n")?;
    Ok(text)
}

/// Creates an archive with 603 mails of one moment, each with one of three words in its body.
fn archive_of_many(alloc: Global) -> Option<MemArchive> {
    let mut archive = empty_archive(alloc)?;
    for number in 1..604 {
        let text = mail(alloc, number).ok()?;
        archive.command(&Command::Deliver(text.as_slice()), MOMENT);
    }
    Some(archive)
}

/// Returns whether the reply to a request ends so, and the connection then continues.
fn ends(alloc: Global, archive: &mut MemArchive, request: &[u8], end: &[u8]) -> bool {
    let mut out = MemSink::new(alloc, Numbers::new(alloc));
    let mut session = HttpSession::open(alloc);
    let next = session.feed(request, MOMENT, archive, &mut out);
    out.taken().ends_with(end) && next == Next::Go
}

/// Requests, and the ends of their replies: 603 mails have the word of the subject, and 201 each that
/// of a body.
const ENDS: [(&[u8], &[u8]); 7] = [
    (
        b"GET /list/?q=s:many HTTP/1.1\r\n\r\n",
        b"<a href=\"/list/404@x/\">many</a> unknown\n<a href=\"?q=s%3Amany&amp;o=200\">older</a>\n</pre></body></html>\n",
    ),
    (
        b"GET /list/?q=s%3Amany&o=400 HTTP/1.1\r\n\r\n",
        b"<a href=\"/list/4@x/\">many</a> unknown\n<a href=\"?q=s%3Amany&amp;o=600\">older</a>\n</pre></body></html>\n",
    ),
    (
        b"GET /list/?q=s%3Amany&o=403 HTTP/1.1\r\n\r\n",
        b"<a href=\"/list/1@x/\">many</a> unknown\n</pre></body></html>\n",
    ),
    (
        b"GET /list/?q=b1+many HTTP/1.1\r\n\r\n",
        b"<a href=\"/list/4@x/\">many</a> unknown\n<a href=\"?q=b1+many&amp;o=200\">older</a>\n</pre></body></html>\n",
    ),
    (
        b"GET /list/?q=b1+many&o=200 HTTP/1.1\r\n\r\n",
        b"<pre>2024-02-01 10:03 <a href=\"/list/1@x/\">many</a> unknown\n</pre></body></html>\n",
    ),
    (
        b"GET /list/?q=b1+b2 HTTP/1.1\r\n\r\n",
        b"<pre></pre></body></html>\n",
    ),
    (
        b"GET /list/?q= HTTP/1.1\r\n\r\n",
        b"<a href=\"?q=&amp;o=200\">older</a>\n</pre></body></html>\n",
    ),
];

/// Returns whether each reply has its end.
fn all_end(alloc: Global) -> Option<bool> {
    let mut archive = archive_of_many(alloc)?;
    let mut all = true;
    for (request, end) in &ENDS {
        all = ends(alloc, &mut archive, request, end) && all;
    }
    Some(all)
}

#[test]
fn a_search_is_shown_in_pages(rt: HostRuntime) {
    assert!(rt; all_end(rt.alloc()) == Some(true));
}
