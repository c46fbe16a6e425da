//! The words for what no session answers, and for texts that are damaged.
use crate::connection::three;
use arch_base::Numbers;
use arch_model::{Next, OpenRefusal};
use archive_fixtures::{Failing, FailingKeep, Unread, damage};
use disk_model::FileKind;
use edge_io::MemSink;
use fixtures::{MOMENT, are_lines};
use keep_course::Refusal;
use pop3_reader::{Pop3Session, say_refusal};
use std::alloc::Global;

/// The line that names the two ids.
const DAMAGED: &[u8] =
    b"-ERR damaged df7a16e6b23ee491f39d84e89298f10b0d4ae4e0 1d023c572ccd6f3cc82ae855343346b043adaba5";

/// A stream to damaged texts.
const STREAM: &[u8] = b"USER list.1\nPASS x\nSTAT\nRETR 1\nTOP 2 0\nRETR 3\nLIST 2\n";

/// The lines that answer it. Rows are read as they are.
static LINES: [&[u8]; 7] = [
    b"+OK",
    b"+OK 2 messages",
    b"+OK 2 172",
    DAMAGED,
    DAMAGED,
    b"-ERR no such message",
    b"+OK 2 48",
];

/// Returns whether a client hears of damaged texts, and the session goes on.
fn is_told(alloc: Global) -> Option<bool> {
    let mut shelf = FailingKeep::new(three(alloc)?, Failing::Text(Unread::Damage, 1));
    let mut out = MemSink::new(alloc, Numbers::new(alloc));
    let (mut session, _) = Pop3Session::open(alloc, &mut out);
    out.clear();
    let next = session.feed(STREAM, MOMENT, &mut shelf, &mut out);
    Some(next == Next::Go && are_lines(out.taken(), &LINES))
}

#[test]
fn a_damaged_text_is_told(rt: HostRuntime) {
    assert!(rt; is_told(rt.alloc()) == Some(true));
}

/// Returns whether the line for a refusal is this.
fn unopened_is(alloc: Global, refusal: OpenRefusal, line: &[u8]) -> bool {
    let mut out = MemSink::new(alloc, Numbers::new(alloc));
    say_refusal(Refusal::Unopened(refusal), &mut out).is_ok() && are_lines(out.taken(), &[line])
}

#[test]
fn an_archive_that_does_not_open_is_told(rt: HostRuntime) {
    assert!(rt; unopened_is(rt.alloc(), OpenRefusal::NoArchive, b"-ERR damaged root 0"));
    assert!(rt; unopened_is(rt.alloc(), OpenRefusal::DiskFault, b"-ERR disk fault"));
    assert!(rt; unopened_is(rt.alloc(), OpenRefusal::NoMemory, b"-ERR out of memory"));
}

#[test]
fn a_damaged_file_is_named(rt: HostRuntime) {
    let root = damage(FileKind::Root, 0, 2560);
    let map = damage(FileKind::Map, 0, 0);
    let epoch = damage(FileKind::Epoch, 63, 8);
    let cache = damage(FileKind::Cache, 0, u64::MAX);
    assert!(rt; unopened_is(rt.alloc(), root, b"-ERR damaged root 2560"));
    assert!(rt; unopened_is(rt.alloc(), map, b"-ERR damaged map 0"));
    assert!(rt; unopened_is(rt.alloc(), epoch, b"-ERR damaged epoch 63 8"));
    assert!(rt;
        unopened_is(
            rt.alloc(),
            cache,
            b"-ERR damaged cache 18446744073709551615"
        )
    );
}

/// Returns whether the lines for a full server and for want of memory are the door's.
fn are_said(alloc: Global) -> bool {
    let mut out = MemSink::new(alloc, Numbers::new(alloc));
    let busy = say_refusal(Refusal::Busy, &mut out);
    let starved = say_refusal(Refusal::NoMemory, &mut out);
    let lines: [&[u8]; 2] = [b"-ERR busy", b"-ERR out of memory"];
    busy.is_ok() && starved.is_ok() && are_lines(out.taken(), &lines)
}

#[test]
fn the_node_has_words_of_the_door(rt: HostRuntime) {
    assert!(rt; are_said(rt.alloc()));
}
