//! A client of an archive in memory, which sends whole commands as octets.
//! Allocates.
ghost use Rattle.std.specs.Prelude.{◌≡◌, ◌≤◌, true};
ghost use Rattle.arch_base.specs.Configs.{IsConfig};

use arch_base::{Config, Form, Name, Numbers};
use arch_model::{Answer, Command, Keep, Next, Shelf};
use edge_io::MemSink;
use imap_commands::answer;
use imap_states::{ImapPlace, ImapState};
use mem_archive::MemArchive;
use std::alloc::Global;

/// When the tests change the archive: 2024-02-01 10:01:40 UTC.
const MOMENT: u64 = 1_706_781_700;

/// The octets of a command, and the lines that answer it.
pub type Case = (&'static [u8], &'static [&'static [u8]]);

/// Returns the settings of an archive of this name, whose mailboxes have so many numbers each.
fn config(name: Name, slice: u32) -> Config
    requires low { 1 ≤ slice }
    requires high { slice ≤ 1_000_000 }
    ensures { IsConfig result }
{
    Config {
        name,
        limit: 1_073_741_824,
        slice,
        max: 2_147_483_647,
        mirror: false,
        born: 1,
        form: Form::Sha1,
    }
}

/// Returns an archive of these messages, whose mailboxes have so many numbers each.
pub fn archive_of(alloc: Global, slice: u32, messages: &[&[u8]]) -> Option<MemArchive>
    requires low { 1 ≤ slice }
    requires high { slice ≤ 1_000_000 }
{
    let mut archive = MemArchive::new(alloc, config(Name::read(b"list")?, slice));
    for message in messages {
        if !is_ok(Keep::command(&mut archive, &Command::Deliver(message), MOMENT)) {
            return None;
        }
    }
    Some(archive)
}

/// Removes the message with a number, and returns whether that was carried out.
pub fn remove(archive: &mut MemArchive, number: u32) -> bool {
    is_ok(Keep::command(archive, &Command::Remove(number), MOMENT))
}

/// Returns whether a command was carried out.
fn is_ok(answer: Answer) -> bool {
    matches!(answer, Answer::Ok { .. })
}

/// Returns the state of a new session.
pub fn new_state() -> ImapState {
    ImapState {
        place: ImapPlace::LoggedOut,
        idle: None,
    }
}

/// Returns whether a command is answered by the lines of its case, and the session then continues or
/// is closed, as `next` says.
pub fn hears<S: Shelf>(
    alloc: Global,
    case: &Case,
    next: Next,
    state: &mut ImapState,
    shelf: &mut S,
) -> bool
    requires { S.ready shelf.old ≡ true }
    ensures { S.ready shelf.new ≡ true }
{
    let mut out = MemSink::new(alloc, Numbers::new(alloc));
    let went = answer(case.0, alloc, state, shelf, &mut out);
    are_lines(out.taken(), case.1) && went == next
}

/// Returns whether each command is answered by the lines of its case, and the session continues.
pub fn hears_all<S: Shelf>(
    alloc: Global,
    cases: &[Case],
    state: &mut ImapState,
    shelf: &mut S,
) -> bool
    requires { S.ready shelf.old ≡ true }
    ensures { S.ready shelf.new ≡ true }
{
    for case in cases {
        if !hears(alloc, case, Next::Go, state, shelf) {
            return false;
        }
    }
    true
}

/// Returns whether bytes are these lines, each with a carriage return and a line feed.
fn are_lines(bytes: &[u8], lines: &[&[u8]]) -> bool {
    let mut rest = bytes;
    for line in lines {
        match after_line(rest, line) {
            Some(after) => rest = after,
            None => return false,
        }
    }
    rest.is_empty()
}

/// Returns the bytes after a line, if they start with it.
fn after_line<'a>(bytes: &'a [u8], line: &[u8]) -> Option<&'a [u8]> {
    bytes.strip_prefix(line)?.strip_prefix(b"\r\n")
}
