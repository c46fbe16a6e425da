//! Carries out deliveries, removals, purges and edits, and prints the answers and the epochs: `tests/git`
//! and `tests/epochs` have git judge what it prints. Or it prints the list of the archive, which
//! `tests/lists` compares with that of a plain writer.
//!
//! The first line of the standard input is the limit of an epoch, in bytes, with ` sha256` after it
//! where the SHA-256 is to name the objects, in place of the SHA-1. After it come lines
//! `deliver MOMENT LENGTH` and `edit MOMENT NUMBER LENGTH`, each before a message of LENGTH bytes, and
//! lines `remove MOMENT NUMBER` and `purge MOMENT NUMBER`.
//! Printed are the line of each answer and then, for each epoch that has an entry, the line
//! `epoch NUMBER LENGTH`, its bytes, and a line feed. What can't be read ends the input. If that is the
//! line `list` alone, the list of the archive is printed in place of the epochs.
#![tactic(auto)]

ghost use Rattle.std.specs.Prelude.{◌<◌, ◌≤◌, length, IfSome};

use answer_lines::say_answer;
use arch_base::{Bytes, Config, Form, Name, NoMemory, Numbers, decimal, read_decimal};
use arch_model::Command;
use disk_model::EPOCHS;
use edge_io::MemSink;
use mem_archive::MemArchive;
use memchr::memchr;
use mirror_wire::write;
use std::alloc::Global;
use std::io::{self, Input, Read, Write};

/// Reads commands from the standard input, carries them out, and prints the answers and the epochs.
fn main(rt: HostRuntime) -> anyhow::Result<()> {
    let alloc = rt.alloc();
    let mut input = Vec::new(alloc);
    rt.reader().read_to_end(&mut input)?;
    if let Some((archive, rest)) = begun(alloc, input.as_slice()) {
        let printed = walk(alloc, archive, rest)?;
        io::writer(&rt).write_all(printed.as_slice())?;
    }
    Ok(())
}

/// Returns an archive without entries whose limit and form are the first line of an input, and the rest.
fn begun(alloc: Global, input: &[u8]) -> Option<(MemArchive, &[u8])> {
    let (line, rest) = next_line(input)?;
    let (limit, form) = match line.strip_suffix(b" sha256") {
        Some(limit) => (limit, Form::Sha256),
        None => (line, Form::Sha1),
    };
    let limit = read_decimal(limit)?;
    if limit == 0 || limit > 1_099_511_627_776 {
        return None;
    }
    let config = Config {
        name: Name::read(b"list")?,
        limit,
        slice: 50_000,
        max: 2_147_483_647,
        mirror: false,
        born: 1,
        form,
    };
    Some((MemArchive::new(alloc, config), rest))
}

/// A command, and when it comes, in seconds since 1970 UTC.
#[derive(Clone, Copy, Drop)]
struct Event<'a> {
    moment: u64,
    command: Command<'a>,
}

/// Carries out the commands of an input, and returns what is printed.
fn walk(alloc: Global, archive: MemArchive, input: &[u8]) -> Result<Bytes, NoMemory> {
    let mut archive = archive;
    let mut sink = MemSink::new(alloc, Numbers::new(alloc));
    let mut left = input;
    while let Some((event, rest)) = next_event(left) {
        let answer = archive.command(&event.command, event.moment);
        if say_answer(answer, &mut sink).is_err() {
            return Err(NoMemory);
        }
        left = rest;
    }
    let mut printed = Bytes::new(alloc);
    printed.push_slice(sink.taken())?;
    push_end(alloc, &archive, left, &mut printed)?;
    Ok(printed)
}

/// Appends what is printed after the answers, by what ends the input.
fn push_end(
    alloc: Global,
    archive: &MemArchive,
    left: &[u8],
    into: &mut Bytes,
) -> Result<(), NoMemory> {
    match left {
        b"list\n" => into.push_slice(write(alloc, archive)?.as_slice()),
        _ => push_epochs(alloc, archive, into),
    }
}

/// Returns the command at the front of an input and the rest, or `None` if there is none.
fn next_event(input: &[u8]) -> Option<(Event<'_>, &[u8])>
    ensures { IfSome result (λ found. length found.1.now < length input.now) }
{
    let (line, rest) = next_line(input)?;
    let (word, numbers) = split_word(line)?;
    let (moment, after) = split_word(numbers)?;
    let moment = read_decimal(moment)?;
    match word {
        b"deliver" => delivery(moment, read_decimal(after)?, rest),
        b"remove" => removal(moment, read_decimal(after)?, rest),
        b"purge" => purge(moment, read_decimal(after)?, rest),
        b"edit" => edit(moment, after, rest),
        _ => None,
    }
}

/// Returns the delivery of the first bytes, and the rest, or `None` if there aren't so many.
fn delivery(moment: u64, count: u64, bytes: &[u8]) -> Option<(Event<'_>, &[u8])>
    ensures { IfSome result (λ found. length found.1.now ≤ length bytes.now) }
{
    if count > bytes.len() as u64 {
        return None;
    }
    let (message, rest) = bytes.split_at(count as usize);
    let command = Command::Deliver(message);
    Some((Event { moment, command }, rest))
}

/// Returns the removal of a number, and the rest, or `None` if no message has such a number.
fn removal(moment: u64, number: u64, rest: &[u8]) -> Option<(Event<'_>, &[u8])>
    ensures { IfSome result (λ found. length found.1.now ≤ length rest.now) }
{
    let number = u32::try_from(number).ok()?;
    let command = Command::Remove(number);
    Some((Event { moment, command }, rest))
}

/// Returns the purge of a number, and the rest, or `None` if no message has such a number.
fn purge(moment: u64, number: u64, rest: &[u8]) -> Option<(Event<'_>, &[u8])>
    ensures { IfSome result (λ found. length found.1.now ≤ length rest.now) }
{
    let number = u32::try_from(number).ok()?;
    let command = Command::Purge(number);
    Some((Event { moment, command }, rest))
}

/// Returns the edit of a number with the first bytes, and the rest, or `None` if there aren't so many.
///
/// The words are the number and the count of bytes.
fn edit<'a>(moment: u64, words: &[u8], bytes: &'a [u8]) -> Option<(Event<'a>, &'a [u8])>
    ensures { IfSome result (λ found. length found.1.now ≤ length bytes.now) }
{
    let (number, count) = split_word(words)?;
    let number = u32::try_from(read_decimal(number)?).ok()?;
    let count = read_decimal(count)?;
    if count > bytes.len() as u64 {
        return None;
    }
    let (message, rest) = bytes.split_at(count as usize);
    let command = Command::Edit(number, message);
    Some((Event { moment, command }, rest))
}

/// Returns the line at the front of an input and what is after its line feed, or `None` if no line
/// feed is there.
fn next_line(input: &[u8]) -> Option<(&[u8], &[u8])>
    ensures { IfSome result (λ found. length found.1.now < length input.now) }
{
    let end = memchr(b'\n', input)?;
    Some((&input[..end], &input[end + 1..]))
}

/// Returns what is before and after the first space, or `None` if no space is there.
fn split_word(line: &[u8]) -> Option<(&[u8], &[u8])> {
    let end = memchr(b' ', line)?;
    Some((&line[..end], &line[end + 1..]))
}

/// Appends the line and the bytes of each epoch that has an entry.
fn push_epochs(alloc: Global, archive: &MemArchive, into: &mut Bytes) -> Result<(), NoMemory> {
    for epoch in 0..EPOCHS {
        push_epoch(alloc, archive, epoch, into)?;
    }
    Ok(())
}

/// Appends the line and the bytes of an epoch, if it has an entry.
fn push_epoch(
    alloc: Global,
    archive: &MemArchive,
    epoch: u32,
    into: &mut Bytes,
) -> Result<(), NoMemory> {
    let mut bytes = Bytes::new(alloc);
    if !archive.push_epoch(epoch, &mut bytes)? {
        return Ok(());
    }
    into.push_slice(b"epoch ")?;
    into.push_slice(decimal(alloc, u64::from(epoch))?.as_slice())?;
    into.push(b' ')?;
    into.push_slice(decimal(alloc, bytes.as_slice().len() as u64)?.as_slice())?;
    into.push(b'\n')?;
    into.push_slice(bytes.as_slice())?;
    into.push(b'\n')
}
