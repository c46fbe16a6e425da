//! A client of an archive of which texts aren't read, and one whose connection loses what is sent.
//! Allocates.
use crate::client::{Case, answer, hears_told, three, told_of};
use arch_base::Numbers;
use arch_model::Next;
use archive_fixtures::{Failing, FailingKeep, Unread};
use edge_io::MemSink;
use known_uids::KnownUids;
use mem_archive::MemArchive;
use std::alloc::Global;

/// Returns whether a client hears the lines of a case where the texts of numbers from 2 on aren't
/// read.
fn hears_unread(alloc: Global, why: Unread, case: &Case, next: Next) -> Option<bool> {
    let mut keep = FailingKeep::new(three(alloc)?, Failing::Text(why, 2));
    hears_told(alloc, case, &mut keep, next)
}

/// What needs no text that isn't read.
static READ: [Case; 5] = [
    (
        b"a FETCH 2:3 (FLAGS UID)\r\n",
        &[
            b"* 2 FETCH (FLAGS () UID 2)",
            b"* 3 FETCH (FLAGS () UID 3)",
            b"a OK FETCH done",
        ],
    ),
    (
        b"a FETCH 1 RFC822.TEXT\r\n",
        &[
            b"* 1 FETCH (RFC822.TEXT {5}",
            b"one",
            b")",
            b"a OK FETCH done",
        ],
    ),
    (
        b"a SEARCH ALL\r\n",
        &[b"* SEARCH 1 2 3", b"a OK SEARCH done"],
    ),
    (
        b"a SEARCH UID 1 TEXT one\r\n",
        &[b"* SEARCH 1", b"a OK SEARCH done"],
    ),
    (
        b"a SEARCH TEXT one SMALLER 5\r\n",
        &[b"* SEARCH", b"a OK SEARCH done"],
    ),
];

#[test]
fn texts_that_are_not_needed_are_not_read(rt: HostRuntime) {
    for case in &READ {
        assert!(rt; hears_unread(rt.alloc(), Unread::Fault, case, Next::Go) == Some(true));
    }
}

/// Why the first text isn't read.
static REASONS: [(Unread, Case); 5] = [
    (
        Unread::Fault,
        (b"a FETCH 2 BODY[]\r\n", &[b"a NO disk fault"]),
    ),
    (
        Unread::NoMemory,
        (b"a UID FETCH 2:3 BODY[]\r\n", &[b"a NO out of memory"]),
    ),
    (
        Unread::Damage,
        (
            b"a FETCH 3 BODY\r\n",
            &[
                b"a NO damaged df7a16e6b23ee491f39d84e89298f10b0d4ae4e0 1d023c572ccd6f3cc82ae855343346b043adaba5",
            ],
        ),
    ),
    (
        Unread::Fault,
        (b"a SEARCH TEXT one\r\n", &[b"a NO disk fault"]),
    ),
    (
        Unread::NoMemory,
        (b"a SEARCH NOT FROM a\r\n", &[b"a NO out of memory"]),
    ),
];

#[test]
fn reasons_stand_after_the_tag(rt: HostRuntime) {
    for (why, case) in &REASONS {
        assert!(rt; hears_unread(rt.alloc(), *why, case, Next::Go) == Some(true));
    }
}

/// Returns whether a reply stops in the midst, and the session is closed.
fn stops(alloc: Global, why: Unread) -> Option<bool> {
    let case: Case = (
        b"a FETCH 1:3 (UID BODY[TEXT])\r\n",
        &[b"* 1 FETCH (UID 1 BODY[TEXT] {5}", b"one", b")"],
    );
    hears_unread(alloc, why, &case, Next::Close)
}

#[test]
fn a_reply_stops_where_a_later_text_is_not_read(rt: HostRuntime) {
    for why in [Unread::Fault, Unread::NoMemory, Unread::Damage] {
        assert!(rt; stops(rt.alloc(), why) == Some(true));
    }
}

/// Returns a sink whose only write is lost.
fn losing(alloc: Global) -> Option<MemSink> {
    let mut faults = Numbers::new(alloc);
    faults.push(1).ok()?;
    Some(MemSink::new(alloc, faults))
}

/// Returns whether a session is closed where its only write is lost, and nothing was taken.
fn loses(
    alloc: Global,
    command: &[u8],
    told: &KnownUids,
    archive: &mut MemArchive,
) -> Option<bool> {
    let mut out = losing(alloc)?;
    let next = answer(alloc, command, told, archive, &mut out);
    Some(next == Next::Close && out.taken().is_empty())
}

/// Returns the same of a client that was told the messages of an archive.
fn loses_told(alloc: Global, command: &[u8], archive: &mut MemArchive) -> Option<bool> {
    let told = told_of(alloc, archive)?;
    loses(alloc, command, &told, archive)
}

/// Returns the same of a client that was told three messages.
fn is_lost(alloc: Global, command: &[u8]) -> Option<bool> {
    let mut archive = three(alloc)?;
    loses_told(alloc, command, &mut archive)
}

/// Commands whose reply is lost.
static LOST: [&[u8]; 4] = [
    b"a FETCH 1:3 UID\r\n",
    b"a FETCH 4 UID\r\n",
    b"a SEARCH ALL\r\n",
    b"a SEARCH 4\r\n",
];

#[test]
fn a_lost_write_closes_the_session(rt: HostRuntime) {
    for command in &LOST {
        assert!(rt; is_lost(rt.alloc(), command) == Some(true));
    }
}
