//! Pages of searches.
use crate::rows::{is, list, row};
use arch_base::Bytes;
use fixtures::FIRST;
use html_pages::search_page;
use std::alloc::Global;

/// Returns the page of a search that found the first mail so many times.
fn many(alloc: Global, text: &[u8], count: usize, skip: u64) -> Option<Bytes> {
    let row = row(alloc, FIRST)?;
    let name = list()?;
    let rows = [&row; 202];
    search_page(alloc, &name, text, &rows[..count.min(202)], skip).ok()
}

/// The page of a search that found the first mail alone.
const ONE: &[u8] =
    b"<html><head><title>list</title></head><body><pre>2024-02-01 10:00 <a href=\"/list/a@x/\">first</a> Ann\n</pre></body></html>\n";

/// The page of a search that found nothing.
const NONE: &[u8] = b"<html><head><title>list</title></head><body><pre></pre></body></html>\n";

#[test]
fn a_search_has_the_lines_that_were_worked_out(rt: HostRuntime) {
    assert!(rt; is(many(rt.alloc(), b"s:first", 1, 0), ONE));
    assert!(rt; is(many(rt.alloc(), b"", 1, 7), ONE));
    assert!(rt; is(many(rt.alloc(), b"s:one", 0, 0), NONE));
}

/// What is searched for, how many mails are skipped, and the end of the page if there are more.
const ENDS: [(&[u8], u64, &[u8]); 5] = [
    (
        b"",
        0,
        b"<a href=\"?q=&amp;o=200\">older</a>\n</pre></body></html>\n",
    ),
    (
        b"s:first",
        0,
        b"<a href=\"?q=s%3Afirst&amp;o=200\">older</a>\n</pre></body></html>\n",
    ),
    (
        b"a b+c",
        200,
        b"<a href=\"?q=a+b%2Bc&amp;o=400\">older</a>\n</pre></body></html>\n",
    ),
    (
        b"\"<&>*-._~",
        0,
        b"<a href=\"?q=%22%3C%26%3E*-._%7E&amp;o=200\">older</a>\n</pre></body></html>\n",
    ),
    (
        b"\xC3\xB6",
        0,
        b"<a href=\"?q=%C3%B6&amp;o=200\">older</a>\n</pre></body></html>\n",
    ),
];

/// Returns whether a page ends so.
fn ends(page: Option<Bytes>, end: &[u8]) -> bool {
    match page {
        Some(made) => made.as_slice().ends_with(end),
        None => false,
    }
}

#[test]
fn a_search_links_to_older_mails_from_201_on(rt: HostRuntime) {
    for (text, skip, end) in &ENDS {
        assert!(rt; ends(many(rt.alloc(), text, 201, *skip), end));
        assert!(rt;
            ends(
                many(rt.alloc(), text, 200, *skip),
                b"first</a> Ann\n</pre></body></html>\n"
            )
        );
    }
}
