//! A client that was told the messages of an archive in memory.
//! Allocates.
ghost use Rattle.std.specs.Prelude.{◌≡◌, ◌≤◌, ◌<◌, ◌+◌, IfSome, true};
ghost use Rattle.arch_base.specs.Configs.{IsConfig};

use arch_base::{Bytes, Config, Form, Name, Numbers};
use arch_model::{Answer, Command, Keep, Next, Shelf};
use edge_io::MemSink;
use imap_messages::{FetchCommand, Numbering, SearchCommand, say_fetch, say_search};
use imap_syntax::{Ask, Item, Key, SeqSet, read};
use known_uids::KnownUids;
use mem_archive::MemArchive;
use std::alloc::Global;

/// When the tests change the archive: 2024-02-01 10:01:40 UTC.
const MOMENT: u64 = 1_706_781_700;

/// The messages of the archive.
const MESSAGES: [&[u8]; 3] = [
    b"From: Ann <ann@example.org>\nDate: Thu, 1 Feb 2024 10:00:00 +0000\nSubject: first\nMessage-ID: <a@x>\n\none\n",
    b"Subject: second\nMessage-ID: <b@x>\n\ntwo\n",
    b"Subject: w\nMessage-ID: <w@x>\nContent-Type: multipart/mixed; boundary=B\n\n--B\nContent-Type: text/plain\n\nhi\n--B--\n",
];

/// A command, and the lines that answer it.
pub type Case = (&'static [u8], &'static [&'static [u8]]);

/// Returns the settings of an archive of this name.
fn config(name: Name) -> Config
    ensures { IsConfig result }
{
    Config {
        name,
        limit: 1_073_741_824,
        slice: 50_000,
        max: 2_147_483_647,
        mirror: false,
        born: 1_706_780_000,
        form: Form::Sha1,
    }
}

/// Returns an archive without messages.
pub fn empty(alloc: Global) -> Option<MemArchive> {
    Some(MemArchive::new(alloc, config(Name::read(b"list")?)))
}

/// Returns an archive of three messages.
pub fn three(alloc: Global) -> Option<MemArchive> {
    let mut archive = empty(alloc)?;
    if deliver_all(&mut archive) {
        Some(archive)
    } else {
        None
    }
}

/// Delivers the messages, and returns whether that was carried out.
fn deliver_all(archive: &mut MemArchive) -> bool {
    for message in &MESSAGES {
        if !is_ok(Keep::command(archive, &Command::Deliver(message), MOMENT)) {
            return false;
        }
    }
    true
}

/// Returns what a client is told of the messages of an archive.
pub fn told_of<S: Shelf>(alloc: Global, shelf: &S) -> Option<KnownUids>
    requires { S.ready shelf.now ≡ true }
{
    KnownUids::select(alloc, 1, 50_000, shelf).ok()
}

/// Removes the messages with these numbers, and returns whether that was carried out.
fn remove_all(archive: &mut MemArchive, numbers: &[u32]) -> bool {
    for number in numbers {
        if !is_ok(Keep::command(archive, &Command::Remove(*number), MOMENT)) {
            return false;
        }
    }
    true
}

/// Returns whether a command was carried out.
fn is_ok(answer: Answer) -> bool {
    matches!(answer, Answer::Ok { .. })
}

/// Answers a command of a client that was told these messages.
pub fn answer<S: Shelf>(
    alloc: Global,
    command: &[u8],
    told: &KnownUids,
    shelf: &mut S,
    out: &mut MemSink,
) -> Next
    requires { S.ready shelf.old ≡ true }
    ensures { S.ready shelf.new ≡ true }
{
    match read(alloc, command) {
        Ok(ask) => answer_asked(alloc, &ask, told, shelf, out),
        Err(_) => Next::Close,
    }
}

/// Answers a command that was read.
fn answer_asked<S: Shelf>(
    alloc: Global,
    ask: &Ask,
    told: &KnownUids,
    shelf: &mut S,
    out: &mut MemSink,
) -> Next
    requires { S.ready shelf.old ≡ true }
    ensures { S.ready shelf.new ≡ true }
{
    match ask {
        Ask::Fetch(tag, set, items) => {
            fetch(
                alloc,
                Numbering::Sequence,
                tag,
                set,
                items.as_slice(),
                told,
                shelf,
                out,
            )
        }
        Ask::UidFetch(tag, set, items) => {
            fetch(
                alloc,
                Numbering::Uid,
                tag,
                set,
                items.as_slice(),
                told,
                shelf,
                out,
            )
        }
        Ask::Search(tag, charset, keys) => search(
            alloc,
            Numbering::Sequence,
            tag,
            name_of(charset),
            keys.as_slice(),
            told,
            shelf,
            out,
        ),
        Ask::UidSearch(tag, charset, keys) => search(
            alloc,
            Numbering::Uid,
            tag,
            name_of(charset),
            keys.as_slice(),
            told,
            shelf,
            out,
        ),
        _ => Next::Close,
    }
}

/// Returns the bytes of a charset's name, if it is told.
fn name_of(charset: &Option<Bytes>) -> Option<&[u8]> {
    match charset {
        Some(name) => Some(name.as_slice()),
        None => None,
    }
}

/// Answers a FETCH.
fn fetch<S: Shelf>(
    alloc: Global,
    numbering: Numbering,
    tag: &Bytes,
    set: &SeqSet,
    items: &[Item],
    told: &KnownUids,
    shelf: &mut S,
    out: &mut MemSink,
) -> Next
    requires { S.ready shelf.old ≡ true }
    ensures { S.ready shelf.new ≡ true }
{
    let command = FetchCommand {
        tag: tag.as_slice(),
        numbering,
        set,
        items,
    };
    say_fetch(&command, told, alloc, shelf, out)
}

/// Answers a SEARCH.
fn search<S: Shelf>(
    alloc: Global,
    numbering: Numbering,
    tag: &Bytes,
    charset: Option<&[u8]>,
    keys: &[Key],
    told: &KnownUids,
    shelf: &mut S,
    out: &mut MemSink,
) -> Next
    requires { S.ready shelf.old ≡ true }
    ensures { S.ready shelf.new ≡ true }
{
    let command = SearchCommand {
        tag: tag.as_slice(),
        numbering,
        charset,
        keys,
    };
    say_search(&command, told, alloc, shelf, out)
}

/// Returns whether a client that was told these messages hears the lines of a case, and the session
/// then continues or is closed, as `next` says.
pub fn hears<S: Shelf>(
    alloc: Global,
    case: &Case,
    told: &KnownUids,
    shelf: &mut S,
    next: Next,
) -> bool
    requires { S.ready shelf.old ≡ true }
    ensures { S.ready shelf.new ≡ true }
{
    let mut out = MemSink::new(alloc, Numbers::new(alloc));
    let went = answer(alloc, case.0, told, shelf, &mut out);
    are_lines(out.taken(), case.1) && went == next
}

/// Returns whether bytes are these lines, each with a carriage return and a line feed.
fn are_lines(bytes: &[u8], lines: &[&[u8]]) -> bool {
    let mut rest = bytes;
    for line in lines {
        match after_line(rest, line) {
            Some(after) => rest = after,
            None => return false,
        }
    }
    rest.is_empty()
}

/// Returns the bytes after a line, if they start with it.
fn after_line<'a>(bytes: &'a [u8], line: &[u8]) -> Option<&'a [u8]> {
    bytes.strip_prefix(line)?.strip_prefix(b"\r\n")
}

/// Returns whether a client that was told the messages of an archive hears the lines of a case.
pub fn hears_told<S: Shelf>(alloc: Global, case: &Case, shelf: &mut S, next: Next) -> Option<bool>
    requires { S.ready shelf.old ≡ true }
{
    let told = told_of(alloc, shelf)?;
    Some(hears(alloc, case, &told, shelf, next))
}

/// Returns whether a client that was told the messages of an archive hears the lines of a case, after
/// those with these numbers were removed.
fn hears_left(
    alloc: Global,
    removed: &[u32],
    case: &Case,
    archive: &mut MemArchive,
) -> Option<bool> {
    let told = told_of(alloc, archive)?;
    let went = remove_all(archive, removed);
    Some(hears(alloc, case, &told, archive, Next::Go) && went)
}

/// Returns whether a client that was told three messages hears the lines of a case, after those with
/// these numbers were removed.
pub fn hears_after(alloc: Global, removed: &[u32], case: &Case) -> Option<bool> {
    let mut archive = three(alloc)?;
    hears_left(alloc, removed, case, &mut archive)
}

/// Returns whether a client of an archive without messages hears the lines of a case.
pub fn hears_empty(alloc: Global, case: &Case) -> Option<bool> {
    let mut archive = empty(alloc)?;
    hears_told(alloc, case, &mut archive, Next::Go)
}
