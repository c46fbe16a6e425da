//! A reader of an archive on a disk that fails, and of a connection that loses what is sent.
use crate::connection::{fill, two};
use arch_base::Numbers;
use arch_model::{Keep, Next};
use archive_core::Engine;
use disk_model::{FuseDisk, MemDisk};
use edge_io::MemSink;
use fixtures::{MOMENT, are_lines, list_config};
use nntp_reader::NntpSession;
use std::alloc::Global;
use std::test::Fail;

/// An archive on a disk that fails every call after some.
type Kept = Engine<FuseDisk<MemDisk>>;

/// A stream, how many calls the disk passes while it is answered, the lines that answer it, and
/// whether the connection then continues.
type Case = (&'static [u8], u64, &'static [&'static [u8]], Next);

/// More calls of a disk than the archive of these tests needs.
const MOST_CALLS: u64 = 400;

/// Streams to disks that fail.
static CASES: [Case; 5] = [
    // Rows need no disk.
    (
        b"GROUP list\nSTAT 3\nLAST\nHDR :lines 1-\nSTAT <c@x>\nLISTGROUP\nNEWNEWS * 20240201 000000\n",
        0,
        &[
            b"211 2 1 3 list",
            b"223 3 <c@x>",
            b"223 1 <a@x>",
            b"225 headers follow",
            b"1 2",
            b"3 2",
            b".",
            b"223 0 <c@x>",
            b"211 2 1 3 list list follows",
            b"1",
            b"3",
            b".",
            b"230 list follows",
            b"<a@x>",
            b"<c@x>",
            b".",
        ],
        Next::Go,
    ),
    // A text that isn't read is told, and the current article stays.
    (
        b"GROUP list\nARTICLE 3\nHEAD 3\nBODY <c@x>\nHDR Subject\nHDR Subject <c@x>\nSTAT\n",
        0,
        &[
            b"211 2 1 3 list",
            b"403 disk fault",
            b"403 disk fault",
            b"403 disk fault",
            b"403 disk fault",
            b"403 disk fault",
            b"223 1 <a@x>",
        ],
        Next::Go,
    ),
    // A range whose first text isn't read is told, too.
    (
        b"GROUP list\nHDR Subject 1-\nDATE\n",
        0,
        &[b"211 2 1 3 list", b"403 disk fault", b"111 20240201100140"],
        Next::Go,
    ),
    // After a value the reply stops, and the connection is closed.
    (
        b"GROUP list\nHDR Subject 1-\nDATE\n",
        1,
        &[b"211 2 1 3 list", b"225 headers follow", b"1 first"],
        Next::Close,
    ),
    // Each text is read by one call.
    (
        b"GROUP list\nHDR Subject 1-\nDATE\n",
        2,
        &[
            b"211 2 1 3 list",
            b"225 headers follow",
            b"1 first",
            b"3 [PATCH 1/2] fix the build",
            b".",
            b"111 20240201100140",
        ],
        Next::Go,
    ),
];

/// Returns an archive of three messages, of which the second is removed, on a disk that passes so
/// many calls, or `None` if these are too few.
fn kept(alloc: Global, passes: u64) -> Option<Kept> {
    let disk = FuseDisk::new(MemDisk::new(alloc, Numbers::new(alloc)), passes);
    let Ok(mut engine) = Engine::make(alloc, disk, &list_config(50_000)?) else {
        return None;
    };
    if !fill(&mut engine) {
        return None;
    }
    Some(engine)
}

/// Returns such an archive on a disk that passes so many calls more than it needs.
fn kept_with(alloc: Global, more: u64) -> Option<Kept> {
    for passes in 0..MOST_CALLS {
        if kept(alloc, passes).is_some() {
            return kept(alloc, passes.saturating_add(more));
        }
    }
    None
}

/// Returns whether a reader hears what a case says.
fn is_answered(alloc: Global, case: &Case) -> Option<bool> {
    let mut keep = kept_with(alloc, case.1)?;
    if keep.is_stale() {
        return None;
    }
    let mut out = MemSink::new(alloc, Numbers::new(alloc));
    let (mut session, _) = NntpSession::open(alloc, &mut out);
    out.clear();
    let next = session.feed(case.0, MOMENT, &mut keep, &mut out);
    Some(next == case.3 && are_lines(out.taken(), case.2))
}

#[test]
fn only_texts_need_the_disk(rt: HostRuntime) {
    for case in &CASES {
        assert!(rt;
            is_answered(rt.alloc(), case) == Some(true),
            "{:?} {}",
            case.0,
            case.1
        );
    }
}

/// The lines of a greeting and three replies, of which each is sent as one.
static SENT: [&[u8]; 4] = [
    b"201 piv2 reader",
    b"211 2 1 3 list",
    b"223 1 <a@x>",
    b"205 bye",
];

/// Returns whether a connection that loses one of four lines has the lines before it, and is closed.
fn is_closed(alloc: Global, lost: usize) -> Result<bool, Fail> {
    let mut faults = Numbers::new(alloc);
    faults.push((lost as u64).saturating_add(1))?;
    let mut out = MemSink::new(alloc, faults);
    let mut archive = two(alloc).ok_or("no archive")?;
    let (mut session, greeted) = NntpSession::open(alloc, &mut out);
    let next = match greeted {
        Next::Close => Next::Close,
        Next::Go => session.feed(b"GROUP list\nSTAT\nQUIT\n", MOMENT, &mut archive, &mut out),
    };
    Ok(next == Next::Close && are_lines(out.taken(), &SENT[..lost.min(4)]))
}

#[test]
fn a_lost_line_closes_the_connection(rt: HostRuntime) -> Result<(), Fail> {
    for lost in 0..4 {
        assert!(rt; is_closed(rt.alloc(), lost)?);
    }
    Ok(())
}
