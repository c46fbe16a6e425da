//! Pages of threads.
use crate::rows::{is, length, list, row};
use arch_base::Bytes;
use fixtures::FIRST;
use html_pages::{ThreadEntry, ThreadLine, thread_page};
use std::alloc::Global;

/// A mail without a subject.
const PLAIN: &[u8] = b"Message-ID: <n@x>\n\n";

/// Returns the page of a thread whose title is a mail's subject: that mail, below it an id that the
/// list doesn't have, and below that another mail.
fn three(alloc: Global) -> Option<Bytes> {
    let first = row(alloc, FIRST)?;
    let plain = row(alloc, PLAIN)?;
    let name = list()?;
    let lines = [
        ThreadLine {
            depth: 0,
            entry: ThreadEntry::Mail(&first),
        },
        ThreadLine {
            depth: 1,
            entry: ThreadEntry::Missing(b"<g\"&@x>"),
        },
        ThreadLine {
            depth: 2,
            entry: ThreadEntry::Mail(&plain),
        },
    ];
    thread_page(alloc, &name, &plain, &lines).ok()
}

#[test]
fn a_thread_has_the_page_that_was_worked_out(rt: HostRuntime) {
    assert!(rt; is(three(rt.alloc()), THREE));
}

/// The page of the three lines.
const THREE: &[u8] =
    b"<html><head><title>(no subject)</title></head><body><pre>2024-02-01 10:00 <a href=\"/list/a@x/\">first</a> Ann\n  [not found] &lt;g&quot;&amp;@x&gt;\n    2024-02-01 10:01 <a href=\"/list/n@x/\">(no subject)</a> unknown\n</pre></body></html>\n";

/// Returns the page of a thread that has one line, of an id that the list doesn't have.
fn missing(alloc: Global, depth: u64) -> Option<Bytes> {
    let plain = row(alloc, PLAIN)?;
    let name = list()?;
    let lines = [ThreadLine {
        depth,
        entry: ThreadEntry::Missing(b"<g@x>"),
    }];
    thread_page(alloc, &name, &plain, &lines).ok()
}

/// Depths, and the lengths of pages with a line at them. Without an indent the page has 102 bytes.
const DEPTHS: [(u64, usize); 6] = [
    (0, 102),
    (1, 104),
    (39, 180),
    (40, 182),
    (41, 182),
    (18_446_744_073_709_551_615, 182),
];

#[test]
fn an_indent_has_at_most_80_spaces(rt: HostRuntime) {
    for (depth, len) in &DEPTHS {
        assert!(rt; length(missing(rt.alloc(), *depth)) == *len);
    }
}

/// The page of a thread without lines.
const EMPTY: &[u8] = b"<html><head><title>first</title></head><body><pre></pre></body></html>\n";

/// Returns the page of a thread without lines.
fn empty(alloc: Global) -> Option<Bytes> {
    let first = row(alloc, FIRST)?;
    let name = list()?;
    thread_page(alloc, &name, &first, &[]).ok()
}

#[test]
fn a_thread_without_lines_has_a_title(rt: HostRuntime) {
    assert!(rt; is(empty(rt.alloc()), EMPTY));
}
