//! Mail for an archive on a disk that fails, and on connections that lose what is sent.
use crate::connection::empty;
use arch_base::Numbers;
use arch_model::{Keep, Next, OpenRefusal};
use archive_core::Engine;
use archive_fixtures::{Failing, FailingKeep};
use disk_model::{FuseDisk, MemDisk};
use edge_io::MemSink;
use fixtures::{LIMIT, MAX, MOMENT, are_lines, settings};
use keep_course::Refusal;
use lmtp_door::{LmtpSession, say_refusal};
use std::alloc::Global;
use std::test::Fail;

/// An archive on a disk that fails every call after some.
type Kept = Engine<FuseDisk<MemDisk>>;

/// A transaction for two recipients up to its data.
const TO_TWO: &[u8] =
    b"LHLO c\r\nMAIL FROM:<x@y>\r\nRCPT TO:<list@h>\r\nRCPT TO:<LIST>\r\nDATA\r\n";

/// Its data, and a command of the next transaction.
const DATA: &[u8] = b"Message-ID: <a@x>\r\n.\r\nRCPT TO:<list>\r\n";

/// What the call that fails makes of a transaction for two recipients.
struct Failed {
    failing: Failing,
    lines: &'static [&'static [u8]],
}

/// Keepers that fail. After the data the transaction is dropped, whatever was answered.
const FAILED: [Failed; 6] = [
    Failed {
        failing: Failing::Command(false),
        lines: &[b"451 disk fault", b"451 disk fault", b"503 bad sequence"],
    },
    Failed {
        failing: Failing::Command(true),
        lines: &[b"451 disk fault", b"451 disk fault", b"503 bad sequence"],
    },
    Failed {
        failing: Failing::Opening,
        lines: &[b"451 disk fault", b"451 disk fault", b"503 bad sequence"],
    },
    Failed {
        failing: Failing::OpeningWithoutMemory,
        lines: &[b"451 disk fault", b"451 no memory", b"503 bad sequence"],
    },
    Failed {
        failing: Failing::OpeningWithoutArchive,
        lines: &[
            b"451 disk fault",
            b"451 damaged root 0",
            b"503 bad sequence",
        ],
    },
    Failed {
        failing: Failing::OpeningOfDamage,
        lines: &[
            b"451 damaged epoch 2 5",
            b"451 damaged epoch 2 5",
            b"503 bad sequence",
        ],
    },
];

/// Returns whether a keeper that fails is told so to each recipient.
fn is_told(alloc: Global, failed: &Failed) -> Option<bool> {
    let mut keep = FailingKeep::new(empty(alloc)?, failed.failing);
    let mut out = MemSink::new(alloc, Numbers::new(alloc));
    let (mut session, _) = LmtpSession::open(alloc, &mut out);
    let _ = session.feed(TO_TWO, MOMENT, &mut keep, &mut out);
    out.clear();
    if keep.stale {
        return None;
    }
    let next = session.feed(DATA, MOMENT, &mut keep, &mut out);
    Some(next == Next::Go && are_lines(out.taken(), failed.lines))
}

#[test]
fn a_keeper_that_fails_is_told_to_each_recipient(rt: HostRuntime) {
    for failed in &FAILED {
        assert!(rt; is_told(rt.alloc(), failed) == Some(true));
    }
}

/// The most calls of a disk that two deliveries need.
const MOST_CALLS: u64 = 60;

/// Returns an archive without messages on a disk that passes so many calls more than it needs.
fn kept_with(alloc: Global, more: u64) -> Option<Kept> {
    for passes in 0..MOST_CALLS {
        if kept(alloc, passes).is_some() {
            return kept(alloc, passes.saturating_add(more));
        }
    }
    None
}

/// Returns an archive without messages on a disk that passes so many calls, or `None` if these are too
/// few.
fn kept(alloc: Global, passes: u64) -> Option<Kept> {
    let disk = FuseDisk::new(MemDisk::new(alloc, Numbers::new(alloc)), passes);
    match Engine::make(alloc, disk, &settings(LIMIT, MAX, false)?) {
        Ok(engine) => Some(engine),
        Err(_) => None,
    }
}

/// The replies to two recipients: both failed, the second one failed, or both are kept.
static REPLIES: [&[&[u8]]; 3] = [
    &[b"451 disk fault", b"451 disk fault", b"503 bad sequence"],
    &[b"250 ok 1", b"451 disk fault", b"503 bad sequence"],
    &[b"250 ok 1", b"250 duplicate 1", b"503 bad sequence"],
];

/// Returns which of the replies a disk that fails after so many calls makes.
fn reply_at(alloc: Global, passes: u64) -> Option<usize> {
    let mut keep = kept_with(alloc, passes)?;
    let mut out = MemSink::new(alloc, Numbers::new(alloc));
    let (mut session, _) = LmtpSession::open(alloc, &mut out);
    if keep.is_stale() {
        return None;
    }
    let _ = session.feed(TO_TWO, MOMENT, &mut keep, &mut out);
    out.clear();
    if keep.is_stale() {
        return None;
    }
    let next = session.feed(DATA, MOMENT, &mut keep, &mut out);
    if next != Next::Go {
        return None;
    }
    for index in 0..3 {
        if are_lines(out.taken(), REPLIES[index]) {
            return Some(index);
        }
    }
    None
}

/// Returns whether the replies at a disk that fails at each call in turn never fall back, and end with
/// both recipients kept.
fn replies_rise(alloc: Global) -> bool {
    let mut last = 0;
    for passes in 0..MOST_CALLS {
        match reply_at(alloc, passes) {
            Some(reply) if reply >= last => last = reply,
            _ => return false,
        }
    }
    last == 2
}

#[test]
fn a_disk_that_fails_at_each_call_is_told(rt: HostRuntime) {
    assert!(rt; replies_rise(rt.alloc()));
}

/// The lines of a greeting and six replies, of which each is sent as one.
static SENT: [&[u8]; 7] = [
    b"220 piv2 LMTP",
    b"250 ok",
    b"501 syntax",
    b"252 cannot verify",
    b"500 unknown",
    b"503 no recipients",
    b"221 bye",
];

/// Returns whether a connection that loses one of its lines has the lines before it, and is closed.
fn is_closed(alloc: Global, lost: usize) -> Result<bool, Fail> {
    let mut faults = Numbers::new(alloc);
    faults.push((lost as u64).saturating_add(1))?;
    let mut out = MemSink::new(alloc, faults);
    let mut archive = empty(alloc).ok_or("no archive")?;
    let (mut session, greeted) = LmtpSession::open(alloc, &mut out);
    let stream = b"NOOP\r\nNOOP x\r\nVRFY x\r\nx\r\nDATA\r\nQUIT\r\n";
    let next = match greeted {
        Next::Close => Next::Close,
        Next::Go => session.feed(stream, MOMENT, &mut archive, &mut out),
    };
    Ok(next == Next::Close && are_lines(out.taken(), &SENT[..lost.min(7)]))
}

#[test]
fn a_lost_line_closes_the_connection(rt: HostRuntime) -> Result<(), Fail> {
    for lost in 0..7 {
        assert!(rt; is_closed(rt.alloc(), lost)?);
    }
    Ok(())
}

/// Returns whether a message is kept though the reply to it was lost.
fn is_kept_without_a_reply(alloc: Global) -> Result<bool, Fail> {
    let mut faults = Numbers::new(alloc);
    faults.push(7)?;
    let mut out = MemSink::new(alloc, faults);
    let mut archive = empty(alloc).ok_or("no archive")?;
    let (mut session, _) = LmtpSession::open(alloc, &mut out);
    let _ = session.feed(TO_TWO, MOMENT, &mut archive, &mut out);
    let next = session.feed(DATA, MOMENT, &mut archive, &mut out);
    Ok(next == Next::Close && archive.text(1) == Some(b"Message-ID: <a@x>\n\n"))
}

#[test]
fn a_lost_reply_leaves_the_message(rt: HostRuntime) -> Result<(), Fail> {
    assert!(rt; is_kept_without_a_reply(rt.alloc())?);
    Ok(())
}

/// Returns whether the line for a refusal is this.
fn refusal_is(alloc: Global, refusal: Refusal, line: &[u8]) -> bool {
    let mut out = MemSink::new(alloc, Numbers::new(alloc));
    say_refusal(refusal, &mut out).is_ok() && are_lines(out.taken(), &[line])
}

#[test]
fn a_refusal_is_told(rt: HostRuntime) {
    let alloc = rt.alloc();
    assert!(rt; refusal_is(alloc, Refusal::Busy, b"421 busy"));
    assert!(rt; refusal_is(alloc, Refusal::NoMemory, b"451 no memory"));
    assert!(rt;
        refusal_is(
            alloc,
            Refusal::Unopened(OpenRefusal::NoArchive),
            b"451 damaged root 0"
        )
    );
    assert!(rt;
        refusal_is(
            alloc,
            Refusal::Unopened(OpenRefusal::DiskFault),
            b"451 disk fault"
        )
    );
    assert!(rt;
        refusal_is(
            alloc,
            Refusal::Unopened(OpenRefusal::NoMemory),
            b"451 no memory"
        )
    );
}
