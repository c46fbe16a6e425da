//! The time in which the longest commands are read.
//! Calls the system.
use arch_base::{Bytes, NoMemory};
use imap_syntax::{AskRefusal, read};
use std::alloc::Global;
use std::test::Fail;
use std::time::{Duration, Instant};

/// The start of a command, what is repeated as often as the command has room for it, and the end.
type Long = (&'static [u8], &'static [u8], &'static [u8]);

/// Commands of up to 16,384 octets whose keys, sets, sections, texts or tags are the longest.
static LONGEST: [Long; 18] = [
    (b"a SEARCH 1", b" UNKEYWORD x", b"\r\n"),
    (b"a SEARCH 1", b" UNSEEN", b"\r\n"),
    (b"a SEARCH 1", b" 1", b"\r\n"),
    (b"a SEARCH 1", b" OR 1 NOT 2", b"\r\n"),
    (b"a SEARCH 1", b" (((((((((1)))))))))", b"\r\n"),
    (b"a SEARCH 1", b" (", b"\r\n"),
    (b"a SEARCH 1", b" SENTSINCE 1-Dec-2024", b"\r\n"),
    (b"a SEARCH LARGER ", b"0", b"1\r\n"),
    (b"a SEARCH HEADER x ", b"x", b"\r\n"),
    (b"a COPY 1", b",1", b" x\r\n"),
    (b"a COPY 1", b",4294967295:*", b" x\r\n"),
    (b"a FETCH 1 BODY[1", b".1", b"]\r\n"),
    (b"a FETCH 1 (UID", b" BODY.PEEK[1.MIME]<0.1>", b")\r\n"),
    (b"a FETCH 1 BODY[HEADER.FIELDS (x", b" y", b")]\r\n"),
    (b"a FETCH 1 (UID", b" BODYSTRUCTURE", b")\r\n"),
    (b"a LOGIN x \"", b"\\\"", b"\"\r\n"),
    (b"a STORE 1 FLAGS (x", b" \\y", b")\r\n"),
    (b"a", b"a", b" NOOP\r\n"),
];

/// The greatest time for a command, in milliseconds.
const MOST_MILLIS: u64 = 5;

/// The greatest time of a walk over the octets of a command in code that is compiled, in microseconds.
const MOST_WALK: u64 = 200;

/// So many times as long as such a walk a command may take in other code, as `rt try` runs it.
const MOST_WALKS: u32 = 2_000;

/// Returns a command of up to 16,384 octets.
fn longest(alloc: Global, parts: &Long) -> Result<Bytes, NoMemory> {
    let mut command = Bytes::new(alloc);
    command.push_slice(parts.0)?;
    for _index in 0..16_384 {
        let len = command.as_slice().len();
        if 16_384 - len.min(16_384) < parts.1.len().max(parts.2.len()).saturating_mul(2) {
            break;
        }
        command.push_slice(parts.1)?;
    }
    command.push_slice(parts.2)?;
    Ok(command)
}

/// Reads a command, and returns whether there was memory.
fn is_answered(alloc: Global, command: &[u8]) -> bool {
    !matches!(read(alloc, command), Err(AskRefusal::NoMemory))
}

/// Returns the least time of three readings: other work of the machine only adds to it.
fn least_time(rt: &HostRuntime, command: &[u8]) -> Result<Duration, Fail> {
    let mut least = Duration::from_millis(10_000);
    for _index in 0..3 {
        let began = Instant::now(rt)?;
        let is_answered = is_answered(rt.alloc(), command);
        let time = began.elapsed(rt)?;
        if is_answered && time < least {
            least = time;
        }
    }
    Ok(least)
}

/// Returns the sum of the octets.
fn walked(octets: &[u8]) -> u64 {
    let mut sum: u64 = 0;
    for octet in octets {
        sum = sum.wrapping_add(u64::from(*octet));
    }
    sum
}

/// Returns the time that a command may take.
fn most_time(rt: &HostRuntime, command: &[u8]) -> Result<Duration, Fail> {
    let began = Instant::now(rt)?;
    let sum = walked(command);
    let time = began.elapsed(rt)?;
    if sum > 0 && time > Duration::from_micros(MOST_WALK) {
        Ok(time.saturating_mul(MOST_WALKS))
    } else {
        Ok(Duration::from_millis(MOST_MILLIS))
    }
}

/// Returns whether the longest command of a form is read in time.
fn is_in_time(rt: &HostRuntime, parts: &Long) -> Result<bool, Fail> {
    let command = longest(rt.alloc(), parts)?;
    let most = most_time(rt, command.as_slice())?;
    let time = least_time(rt, command.as_slice())?;
    Ok(time <= most)
}

#[test]
fn the_longest_commands_are_read_in_time(rt: HostRuntime) -> Result<(), Fail> {
    for parts in &LONGEST {
        assert!(rt; is_in_time(&rt, parts)?);
    }
    Ok(())
}
