//! Pages of listings.
use crate::rows::{is, length, list, row};
use arch_base::Bytes;
use fixtures::FIRST;
use html_pages::listing_page;
use std::alloc::Global;

/// Returns the page of a listing of one mail.
fn listed(alloc: Global, text: &[u8]) -> Option<Bytes> {
    let row = row(alloc, text)?;
    let name = list()?;
    listing_page(alloc, &name, &[&row], 0).ok()
}

/// A mail, and the page of a listing that has it alone.
#[derive(Drop)]
struct ListedMail {
    text: &'static [u8],
    page: &'static [u8],
}

/// Mails with subjects, names and ids of all kinds.
static LISTED: [ListedMail; 7] = [
    ListedMail {
        text: FIRST,
        page: b"<html><head><title>list</title></head><body><pre>2024-02-01 10:00 <a href=\"/list/a@x/\">first</a> Ann\n</pre></body></html>\n",
    },
    ListedMail {
        text: b"From: Ann <ann@example.org>\nSubject: <b>&\nMessage-ID: <a@x>\n\n",
        page: b"<html><head><title>list</title></head><body><pre>2024-02-01 10:01 <a href=\"/list/a@x/\">&lt;b&gt;&amp;</a> Ann\n</pre></body></html>\n",
    },
    ListedMail {
        text: b"Message-ID: <n@x>\n\n",
        page: b"<html><head><title>list</title></head><body><pre>2024-02-01 10:01 <a href=\"/list/n@x/\">(no subject)</a> unknown\n</pre></body></html>\n",
    },
    ListedMail {
        text: b"From: Ann\nDate: Fri, 31 Dec 9999 23:59:59 +0000\nSubject: late\nMessage-ID: <l@x>\n\n",
        page: b"<html><head><title>list</title></head><body><pre>9999-12-31 23:59 <a href=\"/list/l@x/\">late</a> Ann@\n</pre></body></html>\n",
    },
    ListedMail {
        text: b"From: Ann <a@x>\nDate: Thu, 29 Feb 2024 00:30:00 +0100\nSubject: =?utf-8?Q?Gr=C3=BC=C3=9Fe?=\nMessage-ID: <z@x>\n\n",
        page: b"<html><head><title>list</title></head><body><pre>2024-02-28 23:30 <a href=\"/list/z@x/\">Gr\xc3\xbc\xc3\x9fe</a> Ann\n</pre></body></html>\n",
    },
    ListedMail {
        text: b"From: Tom & \"Q\" <t@x>\nSubject: it's\nMessage-ID: <a/b?c#d%e+f-g.h_i~j@x>\n\n",
        page: b"<html><head><title>list</title></head><body><pre>2024-02-01 10:01 <a href=\"/list/a%2Fb%3Fc%23d%25e%2Bf-g.h_i~j@x/\">it's</a> Tom &amp; Q\n</pre></body></html>\n",
    },
    ListedMail {
        text: b"Subject: =?utf-8?Q?a=01b=09c=0Ad=7Fe=EF=BF=BEf?=\nMessage-ID: <c@x>\n\n",
        page: b"<html><head><title>list</title></head><body><pre>2024-02-01 10:01 <a href=\"/list/c@x/\">a\xef\xbf\xbdb\tc\nd\xef\xbf\xbde\xef\xbf\xbdf</a> unknown\n</pre></body></html>\n",
    },
];

#[test]
fn a_listing_has_the_lines_that_were_worked_out(rt: HostRuntime) {
    for case in &LISTED {
        assert!(rt; is(listed(rt.alloc(), case.text), case.page));
    }
}

#[test]
fn the_listing_of_the_first_mail_has_122_bytes(rt: HostRuntime) {
    assert!(rt; length(listed(rt.alloc(), FIRST)) == 122);
}

#[test]
fn an_empty_listing_has_no_line(rt: HostRuntime) {
    assert!(rt; is(nothing(rt.alloc()), EMPTY));
}

/// The page of a listing without mails.
const EMPTY: &[u8] = b"<html><head><title>list</title></head><body><pre></pre></body></html>\n";

/// Returns the page of a listing without mails.
fn nothing(alloc: Global) -> Option<Bytes> {
    let name = list()?;
    listing_page(alloc, &name, &[], 7).ok()
}

/// Returns the page of a listing that has the first mail so many times.
fn many(alloc: Global, count: usize, skip: u64) -> Option<Bytes> {
    let row = row(alloc, FIRST)?;
    let name = list()?;
    let rows = [&row; 202];
    listing_page(alloc, &name, &rows[..count.min(202)], skip).ok()
}

/// Returns whether a page has a length and an end.
fn ends(page: Option<Bytes>, len: usize, end: &[u8]) -> bool {
    match page {
        Some(made) => made.as_slice().len() == len && made.as_slice().ends_with(end),
        None => false,
    }
}

/// How many mails are listed after how many, and the length and the end of the page. The line of a
/// mail has 52 bytes, what is around the lines 70, and the link to older mails 27 or more.
const LENGTHS: [(usize, u64, usize, &[u8]); 7] = [
    (199, 0, 10_418, b"first</a> Ann\n</pre></body></html>\n"),
    (200, 0, 10_470, b"first</a> Ann\n</pre></body></html>\n"),
    (
        201,
        0,
        10_497,
        b"first</a> Ann\n<a href=\"?o=200\">older</a>\n</pre></body></html>\n",
    ),
    (
        202,
        0,
        10_497,
        b"first</a> Ann\n<a href=\"?o=200\">older</a>\n</pre></body></html>\n",
    ),
    (
        201,
        400,
        10_497,
        b"first</a> Ann\n<a href=\"?o=600\">older</a>\n</pre></body></html>\n",
    ),
    (200, 400, 10_470, b"first</a> Ann\n</pre></body></html>\n"),
    (
        201,
        18_446_744_073_709_551_615,
        10_514,
        b"first</a> Ann\n<a href=\"?o=18446744073709551815\">older</a>\n</pre></body></html>\n",
    ),
];

#[test]
fn a_listing_links_to_older_mails_from_201_on(rt: HostRuntime) {
    for (count, skip, len, end) in &LENGTHS {
        assert!(rt; ends(many(rt.alloc(), *count, *skip), *len, end));
    }
}
