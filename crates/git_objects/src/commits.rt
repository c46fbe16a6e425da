//! Commits and their spelling.
//! Allocates.
ghost use Rattle.std.specs.Prelude.{◌≡◌, ◌++◌, ℕ, List, [], IfOk, OnOk};
ghost use Rattle.git_objects.specs.CleanText.{IsCleanText};
ghost use Rattle.git_objects.specs.Fronts.{AppendsPiece};
ghost use Rattle.git_objects.specs.Commits.{IsCommitZone, hex_line, parent_line, number_part, zone_text as zone_digits, author_line, committed_part, commit_spelling, commit_content as content_of_commit};

use arch_base::{Bytes, NoMemory, ObjectId, hex_of};
use itoa::Buffer;
use std::alloc::Global;

/// A commit.
#[derive(Debug, Drop)]
pub struct Commit {
    /// The id of its tree.
    pub tree: ObjectId,
    /// The id of the commit before it, if there is one.
    pub parent: Option<ObjectId>,
    /// The author's name, clean; it may be empty.
    pub author: Bytes,
    /// The author's address, clean; it may be empty.
    pub email: Bytes,
    /// The time at which the author wrote, in seconds since 1970.
    pub secs: u64,
    /// The author's time zone, in minutes east of UTC: -1439 to 1439.
    pub zone: i16,
    /// The time of the commit, in seconds since 1970.
    pub committed: u64,
    /// The subject, clean; it may be empty.
    pub subject: Bytes,
}

/// Returns the spelling of a commit: `commit SIZE`, NUL and its content.
pub fn commit_bytes(alloc: Global, commit: &Commit) -> Result<Bytes, NoMemory>
    requires author { IsCleanText commit.now.author }
    requires email { IsCleanText commit.now.email }
    requires subject { IsCleanText commit.now.subject }
    requires zone { IsCommitZone commit.now.zone }
    ensures { IfOk result (λ made. made ≡ commit_spelling commit.now) }
{
    let content = commit_content(alloc, commit)?;
    let mut bytes = with_room(alloc, content.as_slice().len().saturating_add(HEAD_ROOM))?;
    bytes.push_slice(b"commit ")?;
    push_number(&mut bytes, content.as_slice().len() as u64, 0)?;
    bytes.push_slice(content.as_slice())?;
    Ok(bytes)
}

/// The room that the content of most commits needs, in bytes.
const CONTENT_ROOM: usize = 320;

/// The most bytes that a commit's spelling has before its content.
const HEAD_ROOM: usize = 28;

/// Returns an empty list with room for so many bytes.
fn with_room(alloc: Global, len: usize) -> Result<Bytes, NoMemory>
    ensures { IfOk result (λ made. made ≡ []) }
{
    Ok(Bytes::from_vec(Vec::with_capacity(alloc, len)?))
}

/// Returns the content of a commit.
fn commit_content(alloc: Global, commit: &Commit) -> Result<Bytes, NoMemory>
    requires { IsCommitZone commit.now.zone }
    ensures { IfOk result (λ made. made ≡ content_of_commit commit.now) }
{
    let mut content = with_room(alloc, CONTENT_ROOM)?;
    push_id(&mut content, b"tree ", &commit.tree)?;
    push_parent(&mut content, &commit.parent)?;
    push_author(&mut content, commit)?;
    push_committed(&mut content, commit.committed)?;
    push_text(&mut content, commit.subject.as_slice(), b"\n")?;
    Ok(content)
}

/// Appends a word, the digits of an id and a line feed.
fn push_id(into: &mut Bytes, word: &[u8], id: &ObjectId) -> Result<(), NoMemory>
    ensures { OnOk result (AppendsPiece into.old into.new (λ rest. word.now ++ hex_line id.now rest)) }
{
    into.push_slice(word)?;
    into.push_slice(hex_of(id).as_slice())?;
    into.push(b'\n')
}

/// Appends the line that names the parent, if there is one.
fn push_parent(into: &mut Bytes, parent: &Option<ObjectId>) -> Result<(), NoMemory>
    ensures { OnOk result (AppendsPiece into.old into.new (parent_line parent.now)) }
{
    match parent {
        Some(id) => push_id(into, b"parent ", id),
        None => Ok(()),
    }
}

/// Appends the line that names the author, without its line feed.
fn push_author(into: &mut Bytes, commit: &Commit) -> Result<(), NoMemory>
    requires { IsCommitZone commit.now.zone }
    ensures { OnOk result (AppendsPiece into.old into.new
        (author_line commit.now.author commit.now.email commit.now.secs commit.now.zone)) }
{
    into.push_slice(b"author ")?;
    push_text(into, commit.author.as_slice(), b" <")?;
    push_text(into, commit.email.as_slice(), b"> ")?;
    push_number(into, commit.secs, b' ')?;
    into.push_slice(&zone_text(commit.zone))
}

/// Appends the bytes between the author's time zone and the subject.
fn push_committed(into: &mut Bytes, moment: u64) -> Result<(), NoMemory>
    ensures { OnOk result (AppendsPiece into.old into.new (committed_part moment)) }
{
    into.push_slice(b"\ncommitter piv2 <piv2@localhost> ")?;
    push_number(into, moment, b' ')?;
    into.push_slice(b"+0000\n\n")
}

/// Appends a text, then a word.
fn push_text(into: &mut Bytes, text: &[u8], word: &[u8]) -> Result<(), NoMemory>
    ensures { OnOk result (AppendsPiece into.old into.new (λ rest. text.now ++ (word.now ++ rest))) }
{
    into.push_slice(text)?;
    into.push_slice(word)
}

/// Appends the digits of a number, then a byte.
fn push_number(into: &mut Bytes, number: u64, end: u8) -> Result<(), NoMemory>
    ensures { OnOk result (AppendsPiece into.old into.new (number_part end number)) }
{
    let mut digits = Buffer::new();
    into.push_slice(digits.format(number).as_bytes())?;
    into.push(end)
}

/// Returns a time zone as `+hhmm` or `-hhmm`.
fn zone_text(zone: i16) -> [u8; 5]
    requires { IsCommitZone zone }
    ensures { (rest : List ℕ) → result ++ rest ≡ zone_digits zone rest }
{
    let sign = if zone < 0 { b'-' } else { b'+' };
    let minutes = zone.unsigned_abs();
    let hour = (minutes / 60) as u8;
    let minute = (minutes % 60) as u8;
    [
        sign,
        b'0' + hour / 10,
        b'0' + hour % 10,
        b'0' + minute / 10,
        b'0' + minute % 10,
    ]
}
