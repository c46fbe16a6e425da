//! Pages of mails that try to bring tags and attributes of their own.
use crate::rows::{list, row};
use arch_base::Bytes;
use html_pages::{ThreadEntry, ThreadLine, listing_page, message_page, thread_page};
use std::alloc::Global;

/// Mails whose fields have what begins and ends tags and attributes.
const HOSTILE: [&[u8]; 5] = [
    b"From: \"</pre><script>\" <x@y>\nSubject: </title><script>alert(1)</script>\nMessage-ID: <\"onload=\"x&y@z>\n\n",
    b"From: =?utf-8?B?PGI+IiY=?= <x@y>\nSubject: =?utf-8?B?PGI+IiY=?=\nMessage-ID: <a'b@x>\n\n",
    b"From: \"><img src=x> <x@y>\nSubject: \"><img src=x>\nCc: <a href=\"x\">\nMessage-ID: <%22%3E@x>\n\n",
    b"Subject: <!--\nTo: -->\nDate: <![CDATA[\nMessage-ID: <&lt;@x>\n\n",
    b"Subject: \xf0\x9f\x98\x80<\xc3\xa9>\xff<\nMessage-ID: <{}|^`@x>\n\n",
];

/// A body that has them too.
const BODY: &[u8] = b"</pre></body></html><script src=\"x\">\n<a href='y'>&\n";

/// Returns how many times a byte is in a text.
fn count(text: &[u8], byte: u8) -> usize {
    text.iter().filter(|each| **each == byte).count()
}

/// Returns whether a page has so many tags and so many quotation marks.
fn has_tags(page: Option<Bytes>, tags: usize, quotes: usize) -> bool {
    match page {
        Some(made) => {
            count(made.as_slice(), b'<') == tags
                && count(made.as_slice(), b'>') == tags
                && count(made.as_slice(), b'"') == quotes
        }
        None => false,
    }
}

/// Returns the page of a listing of one mail.
fn listed(alloc: Global, text: &[u8]) -> Option<Bytes> {
    let row = row(alloc, text)?;
    let name = list()?;
    listing_page(alloc, &name, &[&row], 0).ok()
}

/// Returns the page of a mail.
fn shown(alloc: Global, text: &[u8]) -> Option<Bytes> {
    let row = row(alloc, text)?;
    let name = list()?;
    message_page(alloc, &name, &row, text, BODY).ok()
}

/// Returns the page of a thread that has a mail, and an id that the list doesn't have.
fn threaded(alloc: Global, text: &[u8]) -> Option<Bytes> {
    let row = row(alloc, text)?;
    let name = list()?;
    let lines = [
        ThreadLine {
            depth: 0,
            entry: ThreadEntry::Mail(&row),
        },
        ThreadLine {
            depth: 1,
            entry: ThreadEntry::Missing(b"<\"&'@x>"),
        },
    ];
    thread_page(alloc, &name, &row, &lines).ok()
}

#[test]
fn no_tag_of_a_listing_comes_from_a_mail(rt: HostRuntime) {
    for text in &HOSTILE {
        assert!(rt; has_tags(listed(rt.alloc(), text), 12, 2));
    }
}

#[test]
fn no_tag_of_a_message_comes_from_a_mail(rt: HostRuntime) {
    for text in &HOSTILE {
        assert!(rt; has_tags(shown(rt.alloc(), text), 14, 4));
    }
}

#[test]
fn no_tag_of_a_thread_comes_from_a_mail(rt: HostRuntime) {
    for text in &HOSTILE {
        assert!(rt; has_tags(threaded(rt.alloc(), text), 12, 2));
    }
}
