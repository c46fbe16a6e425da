//! A client of an archive on a disk that fails, of a connection that loses what is sent, and the words
//! for a connection without a session.
use crate::connection::{fill, three};
use arch_base::Numbers;
use arch_model::{Keep, Next, OpenRefusal};
use archive_core::Engine;
use disk_model::{FuseDisk, MemDisk};
use edge_io::{MemSink, SinkFault};
use fixtures::{MOMENT, are_lines, list_config};
use imap_session::{ImapSession, say_refusal};
use keep_course::Refusal;
use std::alloc::Global;
use std::test::Fail;

/// An archive on a disk that fails every call after some.
type Kept = Engine<FuseDisk<MemDisk>>;

/// How many calls the disk passes while the stream is answered, the lines that answer it, and whether the
/// session then continues.
type Case = (u64, &'static [&'static [u8]], Next);

/// More calls of a disk than the archive of these tests needs.
const MOST_CALLS: u64 = 400;

/// A stream to disks that fail, after the login and SELECT.
const STREAM: &[u8] =
    b"a FETCH 1:3 (UID)\nb SEARCH LARGER 1\nc FETCH 1:3 BODY[TEXT]\nd FETCH 1 BODY[TEXT]\n";

/// The lines that answer it. Only FETCH of texts needs the disk, each text one call. After its first
/// line a FETCH can't be refused any more, and stops.
static CASES: [Case; 2] = [
    (
        0,
        &[
            b"* 1 FETCH (UID 1)",
            b"* 2 FETCH (UID 2)",
            b"* 3 FETCH (UID 3)",
            b"a OK FETCH done",
            b"* SEARCH 1 2 3",
            b"b OK SEARCH done",
            b"c NO disk fault",
            b"d NO disk fault",
        ],
        Next::Go,
    ),
    (
        1,
        &[
            b"* 1 FETCH (UID 1)",
            b"* 2 FETCH (UID 2)",
            b"* 3 FETCH (UID 3)",
            b"a OK FETCH done",
            b"* SEARCH 1 2 3",
            b"b OK SEARCH done",
            b"* 1 FETCH (BODY[TEXT] {5}",
            b"one",
            b")",
        ],
        Next::Close,
    ),
];

/// Returns an archive of three messages on a disk that passes so many calls, or `None` if these are too
/// few.
fn kept(alloc: Global, passes: u64) -> Option<Kept> {
    let disk = FuseDisk::new(MemDisk::new(alloc, Numbers::new(alloc)), passes);
    let Ok(mut engine) = Engine::make(alloc, disk, &list_config(1000)?) else {
        return None;
    };
    if !fill(&mut engine) {
        return None;
    }
    Some(engine)
}

/// Returns such an archive on a disk that passes so many calls more than it needs.
fn kept_with(alloc: Global, more: u64) -> Option<Kept> {
    for passes in 0..MOST_CALLS {
        if kept(alloc, passes).is_some() {
            return kept(alloc, passes.saturating_add(more));
        }
    }
    None
}

/// Returns whether a client hears what a case says.
fn is_answered(alloc: Global, case: &Case) -> Option<bool> {
    let mut keep = kept_with(alloc, case.0)?;
    if keep.is_stale() {
        return None;
    }
    let mut out = MemSink::new(alloc, Numbers::new(alloc));
    let (mut session, _) = ImapSession::open(alloc, &mut out);
    let _ = session.feed(
        b"l LOGIN u p\ns SELECT list.0\n",
        MOMENT,
        &mut keep,
        &mut out,
    );
    out.clear();
    let next = session.feed(STREAM, MOMENT, &mut keep, &mut out);
    Some(next == case.2 && are_lines(out.taken(), case.1))
}

#[test]
fn only_texts_need_the_disk(rt: HostRuntime) {
    for case in &CASES {
        assert!(rt; is_answered(rt.alloc(), case) == Some(true), "{}", case.0);
    }
}

/// The lines of a greeting and four replies, of which each is sent as one.
static SENT: [&[u8]; 5] = [
    b"* OK [CAPABILITY IMAP4rev1 IDLE] piv2 ready",
    b"a OK NOOP done",
    b"+ go",
    b"b OK LOGIN done",
    b"+ idling",
];

/// Returns whether a connection that loses one of five lines has the lines before it, and is closed.
fn is_closed(alloc: Global, lost: usize) -> Result<bool, Fail> {
    let mut faults = Numbers::new(alloc);
    faults.push((lost as u64).saturating_add(1))?;
    let mut out = MemSink::new(alloc, faults);
    let mut archive = three(alloc, 1000).ok_or("no archive")?;
    let (mut session, greeted) = ImapSession::open(alloc, &mut out);
    let stream = b"a NOOP\nb LOGIN {1}\nu p\nc IDLE\n";
    let next = match greeted {
        Next::Close => Next::Close,
        Next::Go => session.feed(stream, MOMENT, &mut archive, &mut out),
    };
    Ok(next == Next::Close && are_lines(out.taken(), &SENT[..lost.min(5)]))
}

#[test]
fn a_lost_line_closes_the_connection(rt: HostRuntime) -> Result<(), Fail> {
    for lost in 0..5 {
        assert!(rt; is_closed(rt.alloc(), lost)?);
    }
    Ok(())
}

/// Says the words for connections without a session.
fn say_refusals(out: &mut MemSink) -> Result<(), SinkFault> {
    say_refusal(Refusal::Busy, out)?;
    say_refusal(Refusal::NoMemory, out)?;
    say_refusal(Refusal::Unopened(OpenRefusal::DiskFault), out)?;
    say_refusal(Refusal::Unopened(OpenRefusal::NoArchive), out)
}

#[test]
fn connections_without_a_session_are_refused(rt: HostRuntime) {
    let mut out = MemSink::new(rt.alloc(), Numbers::new(rt.alloc()));
    let said = say_refusals(&mut out).is_ok();
    let words: &[&[u8]] = &[
        b"* BYE busy",
        b"* BYE out of memory",
        b"* BYE disk fault",
        b"* BYE damaged root 0",
    ];
    assert!(rt; said && are_lines(out.taken(), words));
}
