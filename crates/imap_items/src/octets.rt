//! The octets of a section as a literal, of which a part may be asked for (RFC 3501, section 6.4.5).
//! Allocates.
ghost use Rattle.std.specs.Prelude.{◌≡◌, ◌++◌, ◌-◌, ◌<◌, length, take, drop, OnOk, true};
ghost use Rattle.memchr.specs.Find.{is_byte3, IsFirstByte};
ghost use Rattle.mail_forms.specs.WireForms.{sent, wire_of};
ghost use Rattle.imap_structure.specs.Strings.{literal};
ghost use Rattle.imap_items.specs.Sections.{cut};

use arch_base::{Bytes, NoMemory};
use imap_structure::literal_head;
use imap_syntax::Partial;
use memchr::{memchr_iter, memchr3_iter};
use std::alloc::Global;

/// Appends the octets of bytes as they are sent, or a part of these octets, as a literal.
///
/// `NoMemory` may leave a part of the literal appended, after what stood there.
pub(crate) fn push_octets(
    alloc: Global,
    source: &[u8],
    partial: Option<Partial>,
    into: &mut Bytes,
) -> Result<(), NoMemory>
    ensures ok { OnOk result (into.new ≡ into.old ++ literal (cut partial (wire_of source.now))) }
    ensures kept { take (length into.old) into.new ≡ into.old }
{
    match partial {
        None => push_all(alloc, source, into),
        Some(partial) => push_cut(alloc, source, partial, into),
    }
}

/// Appends the octets of bytes as they are sent, as a literal.
#[tactic(auto, unfolding(imap_structure::specs::Strings::literal))]
fn push_all(alloc: Global, source: &[u8], into: &mut Bytes) -> Result<(), NoMemory>
    ensures ok { OnOk result (into.new ≡ into.old ++ literal (wire_of source.now)) }
    ensures kept { take (length into.old) into.new ≡ into.old }
{
    let len = sent_len(source);
    let head = literal_head(alloc, len)?;
    into.push_slice(head.as_slice())?;
    push_window(source, 0, len, into)
}

/// Appends a part of these octets, as a literal.
#[tactic(auto, unfolding(imap_structure::specs::Strings::literal))]
fn push_cut(
    alloc: Global,
    source: &[u8],
    partial: Partial,
    into: &mut Bytes,
) -> Result<(), NoMemory>
    ensures ok { OnOk result (into.new ≡ into.old
        ++ literal (take partial.count (drop partial.offset (wire_of source.now)))) }
    ensures kept { take (length into.old) into.new ≡ into.old }
{
    let head = literal_head(alloc, cut_len(source, partial))?;
    into.push_slice(head.as_slice())?;
    push_window(source, partial.offset as u64, partial.count as u64, into)
}

/// Returns the number of these octets.
fn cut_len(source: &[u8], partial: Partial) -> u64
    ensures { result ≡ length (take partial.count (drop partial.offset (wire_of source.now))) }
{
    sent_len(source)
        .saturating_sub(partial.offset as u64)
        .min(partial.count as u64)
}

/// Returns how many octets are sent for bytes.
fn sent_len(source: &[u8]) -> u64
    ensures { result ≡ length (wire_of source.now) }
{
    let feeds = memchr_iter(b'\n', source).count();
    source.len() as u64 + feeds as u64
}

/// Appends at most `room` of the octets of bytes as they are sent, after the first `skip` of them.
///
/// What is left out isn't made, and what comes after it isn't looked at.
fn push_window(source: &[u8], skip: u64, room: u64, into: &mut Bytes) -> Result<(), NoMemory>
    ensures ok { OnOk result (into.new ≡ into.old ++ take room (drop skip (wire_of source.now))) }
    ensures kept { take (length into.old) into.new ≡ into.old }
{
    let mut window = Window { skip, room };
    let mut rest = source;
    while !rest.is_empty() && window.room > 0 {
        let run = first_run(rest);
        window.push_slice(run.unchanged, into)?;
        window.push_slice(run.sent, into)?;
        rest = run.rest;
    }
    Ok(())
}

/// Bytes at the front that are sent as they are, with the byte after them.
#[derive(Clone, Copy, Drop)]
struct Run<'a> {
    unchanged: &'a [u8],
    /// What is sent for the byte after them, if there is one.
    sent: &'a [u8],
    rest: &'a [u8],
}

/// Splits bytes after the first one that isn't sent as it is, or at their end.
fn first_run<'a>(bytes: &'a [u8]) -> Run<'a>
    ensures sent { wire_of bytes.now ≡ result.unchanged.now
        ++ (result.sent.now ++ wire_of result.rest.now) }
    ensures shorter { 0 < length bytes.now → length result.rest.now < length bytes.now }
{
    match first_changed(bytes) {
        Some(end) => Run {
            unchanged: bytes.split_at(end).0,
            sent: sent_for(bytes[end]),
            rest: bytes.split_at(end + 1).1,
        },
        None => Run {
            unchanged: bytes,
            sent: b"",
            rest: b"",
        },
    }
}

/// Returns the index of the first byte that isn't sent as it is, which is likely to be near.
fn first_changed(bytes: &[u8]) -> Option<usize>
    ensures { IsFirstByte (is_byte3 10 13 0) bytes.now result }
{
    memchr3_iter(b'\n', b'\r', 0, bytes).next()
}

/// Returns what is sent for a line feed, or for another carriage return or a NUL.
fn sent_for(byte: u8) -> &'static [u8]
    requires { is_byte3 10 13 0 byte ≡ true }
    ensures { result.now ≡ sent byte }
{
    match byte {
        b'\n' => b"\r\n",
        _ => b" ",
    }
}

/// The octets that are still to be left out, and those that may be appended after that.
#[derive(Clone, Copy, Drop)]
struct Window {
    skip: u64,
    room: u64,
}

impl Window {
    /// Appends what the window shows of octets.
    fn push_slice(&mut self, octets: &[u8], into: &mut Bytes) -> Result<(), NoMemory>
        ensures ok { OnOk result
            (into.new ≡ into.old ++ take self.old.room (drop self.old.skip octets.now)) }
        ensures kept { take (length into.old) into.new ≡ into.old }
        ensures skip { self.new.skip ≡ self.old.skip - length octets.now }
        ensures room { self.new.room ≡ self.old.room - (length octets.now - self.old.skip) }
    {
        let start = self.skip.min(octets.len() as u64);
        let rest = octets.split_at(start as usize).1;
        let len = self.room.min(rest.len() as u64);
        self.skip -= start;
        self.room -= len;
        into.push_slice(rest.split_at(len as usize).0)
    }
}
