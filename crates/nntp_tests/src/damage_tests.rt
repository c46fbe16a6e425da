//! A reader of an archive whose texts are damaged, and the words for what no session answers.
use crate::connection::two;
use arch_base::Numbers;
use arch_model::{Next, OpenRefusal};
use archive_fixtures::{Failing, FailingKeep, Unread, damage};
use disk_model::FileKind;
use edge_io::MemSink;
use fixtures::{MOMENT, are_lines};
use keep_course::Refusal;
use nntp_reader::{NntpSession, say_refusal};
use std::alloc::Global;

/// A stream, the number from which on texts are damaged, the lines that answer it, and whether the
/// connection then continues.
type Case = (&'static [u8], u32, &'static [&'static [u8]], Next);

/// The line that names the two ids.
const DAMAGED: &[u8] =
    b"403 damaged df7a16e6b23ee491f39d84e89298f10b0d4ae4e0 1d023c572ccd6f3cc82ae855343346b043adaba5";

/// Streams to damaged texts.
static CASES: [Case; 4] = [
    // Rows are read as they are.
    (
        b"GROUP list\nSTAT 3\nHDR :lines 1-\n",
        1,
        &[
            b"211 2 1 3 list",
            b"223 3 <c@x>",
            b"225 headers follow",
            b"1 2",
            b"3 2",
            b".",
        ],
        Next::Go,
    ),
    // A damaged text is told, and the current article stays.
    (
        b"GROUP list\nARTICLE 3\nHEAD 3\nBODY <c@x>\nHDR Subject\nHDR Subject <c@x>\nSTAT\n",
        1,
        &[
            b"211 2 1 3 list",
            DAMAGED,
            DAMAGED,
            DAMAGED,
            DAMAGED,
            DAMAGED,
            b"223 1 <a@x>",
        ],
        Next::Go,
    ),
    // So is the first one of a range.
    (
        b"GROUP list\nHDR Subject 1-\nDATE\n",
        1,
        &[b"211 2 1 3 list", DAMAGED, b"111 20240201100140"],
        Next::Go,
    ),
    // After a value the reply stops, and the connection is closed.
    (
        b"GROUP list\nHDR Subject 1-\nDATE\n",
        2,
        &[b"211 2 1 3 list", b"225 headers follow", b"1 first"],
        Next::Close,
    ),
];

/// Returns whether a reader hears what a case says.
fn is_answered(alloc: Global, case: &Case) -> Option<bool> {
    let mut shelf = FailingKeep::new(two(alloc)?, Failing::Text(Unread::Damage, case.1));
    let mut out = MemSink::new(alloc, Numbers::new(alloc));
    let (mut session, _) = NntpSession::open(alloc, &mut out);
    out.clear();
    let next = session.feed(case.0, MOMENT, &mut shelf, &mut out);
    Some(next == case.3 && are_lines(out.taken(), case.2))
}

#[test]
fn a_damaged_text_is_told(rt: HostRuntime) {
    for case in &CASES {
        assert!(rt;
            is_answered(rt.alloc(), case) == Some(true),
            "{:?} {}",
            case.0,
            case.1
        );
    }
}

/// Returns whether the line for a refusal is this.
fn unopened_is(alloc: Global, refusal: OpenRefusal, line: &[u8]) -> bool {
    let mut out = MemSink::new(alloc, Numbers::new(alloc));
    say_refusal(Refusal::Unopened(refusal), &mut out).is_ok() && are_lines(out.taken(), &[line])
}

#[test]
fn an_archive_that_does_not_open_is_told(rt: HostRuntime) {
    assert!(rt; unopened_is(rt.alloc(), OpenRefusal::NoArchive, b"403 damaged root 0"));
    assert!(rt; unopened_is(rt.alloc(), OpenRefusal::DiskFault, b"403 disk fault"));
    assert!(rt; unopened_is(rt.alloc(), OpenRefusal::NoMemory, b"403 out of memory"));
}

#[test]
fn a_damaged_file_is_named(rt: HostRuntime) {
    let cache = b"403 damaged cache 18446744073709551615";
    assert!(rt;
        unopened_is(
            rt.alloc(),
            damage(FileKind::Root, 0, 2560),
            b"403 damaged root 2560"
        )
    );
    assert!(rt;
        unopened_is(
            rt.alloc(),
            damage(FileKind::Map, 0, 0),
            b"403 damaged map 0"
        )
    );
    assert!(rt;
        unopened_is(
            rt.alloc(),
            damage(FileKind::Epoch, 63, 8),
            b"403 damaged epoch 63 8"
        )
    );
    assert!(rt; unopened_is(rt.alloc(), damage(FileKind::Cache, 0, u64::MAX), cache));
}

/// Returns whether the lines for a full server and for want of memory are the door's.
fn are_said(alloc: Global) -> bool {
    let mut out = MemSink::new(alloc, Numbers::new(alloc));
    let busy = say_refusal(Refusal::Busy, &mut out);
    let starved = say_refusal(Refusal::NoMemory, &mut out);
    let lines: [&[u8]; 2] = [b"400 busy", b"403 out of memory"];
    busy.is_ok() && starved.is_ok() && are_lines(out.taken(), &lines)
}

#[test]
fn the_node_has_words_of_the_door(rt: HostRuntime) {
    assert!(rt; are_said(rt.alloc()));
}
