//! Answers FETCH or SEARCH over one mail, as a session of IMAP would: `tests/structures` reads what it
//! prints with other readers, and `tests/bench` times the program.
//! Calls the system.
//!
//! The first line of the standard input is a command, as `a FETCH 1 (ENVELOPE BODYSTRUCTURE)` or
//! `a SEARCH TEXT word`. After it comes the mail. FETCH prints one reply with its items, and SEARCH
//! prints `* SEARCH 1` if the mail matches its keys, or else `* SEARCH`. Of any other line it prints
//! nothing.
#![tactic(auto)]

ghost use Rattle.std.specs.Prelude.{◌<◌, ◌≤◌, length};

use arch_base::{Bytes, NoMemory, ObjectId, Texts};
use imap_items::{item, matches};
use imap_syntax::{Ask, AskRefusal, Item, Key, read};
use mail_date::Moment;
use mail_forms::Row;
use memchr::{memchr, memchr_iter};
use std::alloc::Global;
use std::io::{self, Input, Read, Write};

/// Reads a command and a mail from the standard input, and prints the reply.
fn main(rt: HostRuntime) -> anyhow::Result<()> {
    let alloc = rt.alloc();
    let mut input = Vec::new(alloc);
    rt.reader().read_to_end(&mut input)?;
    let shown = reply(alloc, input.as_slice())?;
    io::writer(&rt).write_all(shown.as_slice())?;
    Ok(())
}

/// Returns the reply to the command that an input begins with, over the mail after its line.
fn reply(alloc: Global, input: &[u8]) -> Result<Bytes, NoMemory> {
    let (line, text) = input.split_at(line_len(input));
    let row = row(alloc, text);
    match read(alloc, line) {
        Ok(Ask::Fetch(_, _, items)) => fetched(alloc, text, &row, items.as_slice()),
        Ok(Ask::Search(_, _, keys)) => searched(alloc, text, &row, &Key::Each(keys)),
        Err(AskRefusal::NoMemory) => Err(NoMemory),
        _ => Ok(Bytes::new(alloc)),
    }
}

/// Returns the length of the first line, with its line feed.
fn line_len(input: &[u8]) -> usize
    ensures { result ≤ length input.now }
{
    match memchr(b'\n', input) {
        Some(end) => end + 1,
        None => input.len(),
    }
}

/// Returns the row of a mail that arrived at 10:01:40 on the first of February 2024. No item but its
/// size and no key of a text looks at more of it.
fn row(alloc: Global, text: &[u8]) -> Row {
    Row {
        number: 1,
        blob: ObjectId::Sha1([0; 20]),
        id: Bytes::new(alloc),
        refs: Texts::new(alloc),
        subject: Bytes::new(alloc),
        from: Bytes::new(alloc),
        date: Moment {
            secs: 1_706_781_600,
            zone: 0,
        },
        arrived: 1_706_781_700,
        size: text.len() as u64,
        wire: sent_len(text),
        mbox: 0,
        lines: 0,
        over: Bytes::new(alloc),
        content: [0; 32],
    }
}

/// Returns how many octets are sent for a mail. A session has that in the row, so it is counted here as
/// fast as it can be.
fn sent_len(text: &[u8]) -> u64 {
    let feeds = memchr_iter(b'\n', text).count();
    text.len() as u64 + feeds as u64
}

/// Returns the reply of FETCH.
fn fetched(alloc: Global, text: &[u8], row: &Row, items: &[Item]) -> Result<Bytes, NoMemory> {
    let mut shown = Bytes::new(alloc);
    let mut before: &[u8] = b"* 1 FETCH (";
    for asked in items {
        shown.push_slice(before)?;
        item(alloc, text, row, asked, &mut shown)?;
        before = b" ";
    }
    shown.push_slice(b")\r\n")?;
    Ok(shown)
}

/// Returns the reply of SEARCH.
fn searched(alloc: Global, text: &[u8], row: &Row, key: &Key) -> Result<Bytes, NoMemory> {
    let mut shown = Bytes::new(alloc);
    shown.push_slice(b"* SEARCH")?;
    if matches(alloc, text, row, 1, 1, 1, key)? {
        shown.push_slice(b" 1")?;
    }
    shown.push_slice(b"\r\n")?;
    Ok(shown)
}
