//! A client of an archive of which texts aren't read, and one whose connection loses what is sent.
//! Allocates.
use crate::client::{Case, archive_of, hears, hears_all, new_state};
use arch_base::Numbers;
use arch_model::Next;
use archive_fixtures::{Failing, FailingKeep, Unread};
use edge_io::MemSink;
use imap_commands::answer;
use std::alloc::Global;
use std::test::Fail;

/// The messages of the archive.
const MESSAGES: [&[u8]; 2] = [
    b"Subject: a\nMessage-ID: <a@x>\n\none\n",
    b"Subject: b\nMessage-ID: <b@x>\n\ntwo\n",
];

/// The mailbox of all messages is selected.
static CHOSEN: [Case; 2] = [
    (b"a1 LOGIN u p\r\n", &[b"a1 OK LOGIN done"]),
    (
        b"a2 SELECT list.0\r\n",
        &[
            b"* FLAGS ()",
            b"* 2 EXISTS",
            b"* 0 RECENT",
            b"* OK [UIDVALIDITY 1] uidvalidity",
            b"* OK [UIDNEXT 3] uidnext",
            b"* OK [PERMANENTFLAGS ()] no flags",
            b"a2 OK [READ-ONLY] SELECT done",
        ],
    ),
];

/// Returns whether a client with a mailbox hears the lines of these cases, and then those of a last
/// one, after which the session continues or not. The texts of numbers from 2 on aren't read.
fn hears_unread(
    alloc: Global,
    why: Unread,
    cases: &[Case],
    last: &Case,
    next: Next,
) -> Option<bool> {
    let mut archive = archive_of(alloc, 50_000, &MESSAGES)?;
    let mut state = new_state();
    let chosen = hears_all(alloc, &CHOSEN, &mut state, &mut archive);
    let mut keep = FailingKeep::new(archive, Failing::Text(why, 2));
    let told = hears_all(alloc, cases, &mut state, &mut keep);
    Some(chosen && told && hears(alloc, last, next, &mut state, &mut keep))
}

/// Why the second text isn't read, and what is said then.
static FAULTS: [Case; 4] = [
    (b"b FETCH 2 BODY[]\r\n", &[b"b NO disk fault"]),
    (b"b SEARCH TEXT two\r\n", &[b"b NO disk fault"]),
    (
        b"b FETCH 2 UID\r\n",
        &[b"* 2 FETCH (UID 2)", b"b OK FETCH done"],
    ),
    (b"b NOOP\r\n", &[b"b OK NOOP done"]),
];

#[test]
fn a_fault_leaves_the_session(rt: HostRuntime) {
    let last: Case = (b"b CHECK\r\n", &[b"b OK CHECK done"]);
    assert!(rt; hears_unread(rt.alloc(), Unread::Fault, &FAULTS, &last, Next::Go) == Some(true));
}

/// Memory runs out for a text.
static STARVED: [Case; 2] = [
    (b"b UID FETCH 2 BODY[]\r\n", &[b"b NO out of memory"]),
    (b"b UID SEARCH TEXT two\r\n", &[b"b NO out of memory"]),
];

#[test]
fn a_reply_stops_in_its_midst(rt: HostRuntime) {
    let last: Case = (
        b"b FETCH 1:2 BODY[TEXT]\r\n",
        &[b"* 1 FETCH (BODY[TEXT] {5}", b"one", b")"],
    );
    assert!(rt;
        hears_unread(rt.alloc(), Unread::NoMemory, &STARVED, &last, Next::Close) == Some(true)
    );
}

/// Returns whether a session is closed where its only write is lost, and nothing was taken.
fn is_lost(alloc: Global, octets: &[u8]) -> Result<bool, Fail> {
    let mut faults = Numbers::new(alloc);
    faults.push(1)?;
    let mut out = MemSink::new(alloc, faults);
    let mut archive = archive_of(alloc, 50_000, &MESSAGES).ok_or("no archive")?;
    let mut state = new_state();
    let next = answer(octets, alloc, &mut state, &mut archive, &mut out);
    Ok(next == Next::Close && out.taken().is_empty())
}

#[test]
fn a_lost_write_closes_the_session(rt: HostRuntime) -> Result<(), Fail> {
    for octets in [
        &b"\r\n"[..],
        b"a\r\n",
        b"a NOOP\r\n",
        b"a FETCH 1 UID\r\n",
        b"a SEARCH ALL\r\n",
    ] {
        assert!(rt; is_lost(rt.alloc(), octets)?);
    }
    Ok(())
}
