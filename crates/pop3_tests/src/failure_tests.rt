//! A client of an archive on a disk that fails, and of a connection that loses what is sent.
use crate::connection::{fill, three};
use arch_base::Numbers;
use arch_model::{Keep, Next};
use archive_core::Engine;
use disk_model::{FuseDisk, MemDisk};
use edge_io::MemSink;
use fixtures::{MOMENT, are_lines, list_config};
use pop3_reader::Pop3Session;
use std::alloc::Global;
use std::test::Fail;

/// An archive on a disk that fails every call after some.
type Kept = Engine<FuseDisk<MemDisk>>;

/// How many calls the disk passes while the stream is answered, and the lines that answer it.
type Case = (u64, &'static [&'static [u8]]);

/// More calls of a disk than the archive of these tests needs.
const MOST_CALLS: u64 = 400;

/// A stream to disks that fail.
const STREAM: &[u8] =
    b"USER list.1\nPASS x\nSTAT\nLIST 1\nUIDL 2\nTOP 2 1\nRETR 3\nDELE 1\nTOP 2 0\nNOOP\n";

/// The lines that answer it. Only texts need the disk, each one call, and the session goes on.
static CASES: [Case; 2] = [
    (
        0,
        &[
            b"+OK",
            b"+OK 2 messages",
            b"+OK 2 172",
            b"+OK 1 124",
            b"+OK 2 1706780000.4",
            b"-ERR disk fault",
            b"-ERR no such message",
            b"-ERR read only",
            b"-ERR disk fault",
            b"+OK",
        ],
    ),
    (
        1,
        &[
            b"+OK",
            b"+OK 2 messages",
            b"+OK 2 172",
            b"+OK 1 124",
            b"+OK 2 1706780000.4",
            b"+OK",
            b"Subject: four",
            b"Message-ID: <d@x>",
            b"",
            b"a",
            b".",
            b"-ERR no such message",
            b"-ERR read only",
            b"-ERR disk fault",
            b"+OK",
        ],
    ),
];

/// Returns an archive of four messages, of which the second is removed, on a disk that passes so many
/// calls, or `None` if these are too few.
fn kept(alloc: Global, passes: u64) -> Option<Kept> {
    let disk = FuseDisk::new(MemDisk::new(alloc, Numbers::new(alloc)), passes);
    let Ok(mut engine) = Engine::make(alloc, disk, &list_config(2)?) else {
        return None;
    };
    if !fill(&mut engine) {
        return None;
    }
    Some(engine)
}

/// Returns such an archive on a disk that passes so many calls more than it needs.
fn kept_with(alloc: Global, more: u64) -> Option<Kept> {
    for passes in 0..MOST_CALLS {
        if kept(alloc, passes).is_some() {
            return kept(alloc, passes.saturating_add(more));
        }
    }
    None
}

/// Returns whether a client hears what a case says.
fn is_answered(alloc: Global, case: &Case) -> Option<bool> {
    let mut keep = kept_with(alloc, case.0)?;
    if keep.is_stale() {
        return None;
    }
    let mut out = MemSink::new(alloc, Numbers::new(alloc));
    let (mut session, _) = Pop3Session::open(alloc, &mut out);
    out.clear();
    let next = session.feed(STREAM, MOMENT, &mut keep, &mut out);
    Some(next == Next::Go && are_lines(out.taken(), case.1))
}

#[test]
fn only_texts_need_the_disk(rt: HostRuntime) {
    for case in &CASES {
        assert!(rt; is_answered(rt.alloc(), case) == Some(true), "{}", case.0);
    }
}

/// The lines of a greeting and four replies, of which each is sent as one.
static SENT: [&[u8]; 5] = [
    b"+OK piv2 ready",
    b"+OK",
    b"+OK 2 messages",
    b"+OK 2 172",
    b"+OK bye",
];

/// Returns whether a connection that loses one of five lines has the lines before it, and is closed.
fn is_closed(alloc: Global, lost: usize) -> Result<bool, Fail> {
    let mut faults = Numbers::new(alloc);
    faults.push((lost as u64).saturating_add(1))?;
    let mut out = MemSink::new(alloc, faults);
    let mut archive = three(alloc).ok_or("no archive")?;
    let (mut session, greeted) = Pop3Session::open(alloc, &mut out);
    let stream = b"USER list.1\nPASS x\nSTAT\nQUIT\n";
    let next = match greeted {
        Next::Close => Next::Close,
        Next::Go => session.feed(stream, MOMENT, &mut archive, &mut out),
    };
    Ok(next == Next::Close && are_lines(out.taken(), &SENT[..lost.min(5)]))
}

#[test]
fn a_lost_line_closes_the_connection(rt: HostRuntime) -> Result<(), Fail> {
    for lost in 0..5 {
        assert!(rt; is_closed(rt.alloc(), lost)?);
    }
    Ok(())
}
