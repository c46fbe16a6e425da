//! Reads lists of mirrors, and prints what each is: `tests/lists` compares that with a plain reader.
//! Calls the system.
//!
//! The first line of the standard input is the form of the ids, `sha1` or `sha256`. After it come
//! lists, each after a line with its length in bytes. Of each a line is printed: `list NAME NEXT
//! COUNT`, where COUNT is the number of its entries, or `bad LINE`. What can't be read ends the input.
#![tactic(auto)]

ghost use Rattle.std.specs.Prelude.{◌<◌, length, IfSome};

use arch_base::{Bytes, Form, NoMemory, decimal, read_decimal};
use memchr::memchr;
use mirror_wire::{ListRefusal, MirrorList, read};
use std::alloc::Global;
use std::io::{self, Input, Read, Write};

/// Reads lists from the standard input, and prints a line of each.
fn main(rt: HostRuntime) -> anyhow::Result<()> {
    let alloc = rt.alloc();
    let mut input = Vec::new(alloc);
    rt.reader().read_to_end(&mut input)?;
    if let Some((form, rest)) = next_form(input.as_slice()) {
        let printed = walk(alloc, form, rest)?;
        io::writer(&rt).write_all(printed.as_slice())?;
    }
    Ok(())
}

/// Reads the lists of an input, and returns what is printed.
fn walk(alloc: Global, form: Form, input: &[u8]) -> Result<Bytes, NoMemory> {
    let mut printed = Bytes::new(alloc);
    let mut left = input;
    while let Some((list, rest)) = next_list(left) {
        match read(alloc, list, form) {
            Ok(list) => push_list(alloc, &list, &mut printed)?,
            Err(ListRefusal::BadList(line)) => push_word(alloc, b"bad", line, &mut printed)?,
            Err(ListRefusal::NoMemory) => return Err(NoMemory),
        }
        printed.push(b'\n')?;
        left = rest;
    }
    Ok(printed)
}

/// Returns the form that the first line of an input names, and the rest.
fn next_form(input: &[u8]) -> Option<(Form, &[u8])> {
    let (line, rest) = next_line(input)?;
    match line {
        b"sha1" => Some((Form::Sha1, rest)),
        b"sha256" => Some((Form::Sha256, rest)),
        _ => None,
    }
}

/// Returns the list at the front of an input, after the line with its length, and the rest.
fn next_list(input: &[u8]) -> Option<(&[u8], &[u8])>
    ensures { IfSome result (λ found. length found.1.now < length input.now) }
{
    let (line, rest) = next_line(input)?;
    let count = read_decimal(line)?;
    if count > rest.len() as u64 {
        return None;
    }
    Some(rest.split_at(count as usize))
}

/// Returns the line at the front of an input and what is after its line feed, or `None` if no line
/// feed is there.
fn next_line(input: &[u8]) -> Option<(&[u8], &[u8])>
    ensures { IfSome result (λ found. length found.1.now < length input.now) }
{
    let end = memchr(b'\n', input)?;
    Some((&input[..end], &input[end + 1..]))
}

/// Appends what a list has: its name, its next number and the number of its entries.
fn push_list(alloc: Global, list: &MirrorList, into: &mut Bytes) -> Result<(), NoMemory> {
    into.push_slice(b"list ")?;
    into.push_slice(list.name.as_slice())?;
    push_word(alloc, b"", u64::from(list.next), into)?;
    push_word(alloc, b"", list.lines.as_slice().len() as u64, into)
}

/// Appends a word, a space and a number.
fn push_word(alloc: Global, word: &[u8], number: u64, into: &mut Bytes) -> Result<(), NoMemory> {
    into.push_slice(word)?;
    into.push(b' ')?;
    into.push_slice(decimal(alloc, number)?.as_slice())
}
