//! Reads commits.
//! Allocates.
ghost use Rattle.std.specs.Prelude.{◌≡◌, IfOk, ◌++◌, ◌∷◌, ℕ, List, Option, codes, Some, MatchOption, false};
ghost use Rattle.arch_base.specs.declared.ids.Form.{Form as IdForm};
ghost use Rattle.arch_base.specs.declared.ids.ObjectId.{ObjectId as Id};
ghost use Rattle.arch_base.specs.Ids.{IsObjectId};
ghost use Rattle.git_objects.specs.declared.commits.Commit.{Commit as CommitRecord};
ghost use Rattle.git_objects.specs.CleanText.{IsCleanText, is_clean_byte};
ghost use Rattle.git_objects.specs.Fronts.{Lacks, Begins, Both, NoByte, in_turn, led};
ghost use Rattle.git_objects.specs.Commits.{IsCommit, IsContentOf, HoldsNoCommit, IsParent, IsNumber, IsCommitZone, commit_content, hex_line, tree_line, parent_line, parent_part, text_part, name_part, email_part, number_part, two_digits, zone_text, committed_part, IsBelow100};
ghost use Rattle.git_objects.specs.Reading.{ReadsCommit, commit_of};

use crate::clean_text::is_clean;
use crate::commits::Commit;
use crate::fronts::{after, before, parted_at, read_id, read_number};
use arch_base::{Bytes, Form, NoMemory, ObjectId};
use std::alloc::Global;

/// Returns the commit of a form that a commit's content spells, or `None` for any other content.
///
/// A commit that was spelled is read back.
pub fn read_commit(alloc: Global, content: &[u8], form: Form) -> Result<Option<Commit>, NoMemory>
    ensures exact { ReadsCommit form content.now result }
    ensures again { (c : CommitRecord) → IsCommit form c → content.now ≡ commit_content c
        → IfOk result (λ found. found ≡ Some c) }
{
    let Some(parts) = read_parts(content, form) else {
        return Ok(None);
    };
    Ok(Some(Commit {
        tree: parts.tree,
        parent: parts.parent,
        author: copied(alloc, parts.author)?,
        email: copied(alloc, parts.email)?,
        secs: parts.secs,
        zone: parts.zone,
        committed: parts.committed,
        subject: copied(alloc, parts.subject)?,
    }))
}

/// Returns when a commit of any form was made, by its content, in seconds since 1970.
///
/// Skips the lines of tree, parent and author. So the result may be anything for bytes that are no
/// commit's content.
pub fn committed_at(content: &[u8]) -> Option<u64>
    ensures { (of : IdForm) (c : CommitRecord) → IsCommit of c → content.now ≡ commit_content c
        → result ≡ Some c.committed }
{
    let unread = after_line(content)?;
    let author = after_parent(unread)?;
    let committer = after_line(author)?;
    let number = after(b"committer piv2 <piv2@localhost> ", committer)?;
    let (committed, _rest) = read_number(b' ', number)?;
    Some(committed)
}

/// Returns the bytes after the first line.
fn after_line(bytes: &[u8]) -> Option<&[u8]>
    ensures { (line rest : List ℕ) → NoByte 10 line → bytes.now ≡ line ++ 10 ∷ rest
        → MatchOption result ⊥ (λ found. found.now ≡ rest) }
{
    let parted = parted_at(b'\n', bytes)?;
    Some(parted.1)
}

/// Returns the bytes after the line of the parent, if they start with one.
fn after_parent(bytes: &[u8]) -> Option<&[u8]>
    ensures { (parent : Option Id) (rest : List ℕ)
        → bytes.now ≡ parent_line parent (codes "author " ++ rest)
        → MatchOption result ⊥ (λ found. found.now ≡ codes "author " ++ rest) }
{
    match after(b"parent ", bytes) {
        Some(id) => after_line(id),
        None => Some(bytes),
    }
}

/// Returns a copy of the bytes.
fn copied(alloc: Global, bytes: &[u8]) -> Result<Bytes, NoMemory>
    ensures { IfOk result (λ made. made ≡ bytes.now) }
{
    Ok(Bytes::from_vec(Vec::from_slice(alloc, bytes)?))
}

/// The parts of a commit as they are read; its texts are borrowed from the content.
#[derive(Clone, Copy, Drop)]
struct Parts<'a> {
    tree: ObjectId,
    parent: Option<ObjectId>,
    author: &'a [u8],
    email: &'a [u8],
    secs: u64,
    zone: i16,
    committed: u64,
    subject: &'a [u8],
}

/// Reads the parts of the content of a commit of a form.
fn read_parts(content: &[u8], form: Form) -> Option<Parts<'_>>
    ensures { MatchOption result (HoldsNoCommit form content.now) (λ parts.
        IsContentOf form content.now (commit_of parts)) }
{
    let (tree, parent, rest) = read_ids(content, form)?;
    let (author, email, rest) = read_person(rest)?;
    let (secs, zone, rest) = read_time(rest)?;
    let (committed, subject, rest) = read_end(rest)?;
    if !rest.is_empty() {
        return None;
    }
    Some(Parts {
        tree,
        parent,
        author,
        email,
        secs,
        zone,
        committed,
        subject,
    })
}

/// Reads the ids of tree and parent, up to the author's name.
fn read_ids(bytes: &[u8], form: Form) -> Option<(ObjectId, Option<ObjectId>, &[u8])>
    ensures { MatchOption result
        (Lacks (Both (IsObjectId form) (IsParent form)) (in_turn tree_line parent_part) bytes.now)
        (λ found. Begins (Both (IsObjectId form) (IsParent form)) (in_turn tree_line parent_part) bytes.now
        (found.0, found.1) found.2.now) }
{
    let (tree, rest) = read_id_line(b"tree ", bytes, form)?;
    let (parent, rest) = read_parent(rest, form)?;
    Some((tree, parent, rest))
}

/// Reads the parent, up to the author's name.
fn read_parent(bytes: &[u8], form: Form) -> Option<(Option<ObjectId>, &[u8])>
    ensures { MatchOption result (Lacks (IsParent form) parent_part bytes.now)
        (λ found. Begins (IsParent form) parent_part bytes.now found.0 found.1.now) }
{
    if let Some(rest) = after(b"author ", bytes) {
        return Some((None, rest));
    }
    let (id, rest) = read_id_line(b"parent ", bytes, form)?;
    Some((Some(id), after(b"author ", rest)?))
}

/// Reads the id of a form on the line that starts with a word.
fn read_id_line<'a>(word: &[u8], bytes: &'a [u8], form: Form) -> Option<(ObjectId, &'a [u8])>
    ensures { MatchOption result (Lacks (IsObjectId form) (led word.now hex_line) bytes.now)
        (λ found. Begins (IsObjectId form) (led word.now hex_line) bytes.now found.0 found.1.now) }
{
    let digits = after(word, bytes)?;
    read_id(b'\n', digits, form)
}

/// Reads the author's name and address, up to the seconds.
fn read_person(bytes: &[u8]) -> Option<(&[u8], &[u8], &[u8])>
    ensures { MatchOption result
        (Lacks (Both IsCleanText IsCleanText) (in_turn name_part email_part) bytes.now)
        (λ found. Begins (Both IsCleanText IsCleanText) (in_turn name_part email_part) bytes.now
        (found.0.now, found.1.now) found.2.now) }
{
    let (name, rest) = read_name(bytes)?;
    let (email, rest) = read_text(b'>', rest)?;
    Some((name, email, after(b" ", rest)?))
}

/// Reads a clean name, up to the address.
fn read_name(bytes: &[u8]) -> Option<(&[u8], &[u8])>
    ensures { MatchOption result (Lacks IsCleanText name_part bytes.now)
        (λ found. Begins IsCleanText name_part bytes.now found.0.now found.1.now) }
{
    let (front, rest) = parted_at(b'<', bytes)?;
    let name = before(b" ", front)?;
    if !is_clean(name) {
        return None;
    }
    Some((name, rest))
}

/// Reads clean text, up to a byte that clean text can't hold.
fn read_text(end: u8, bytes: &[u8]) -> Option<(&[u8], &[u8])>
    requires { is_clean_byte end ≡ false }
    ensures { MatchOption result (Lacks IsCleanText (text_part end) bytes.now)
        (λ found. Begins IsCleanText (text_part end) bytes.now found.0.now found.1.now) }
{
    let (text, rest) = parted_at(end, bytes)?;
    if !is_clean(text) {
        return None;
    }
    Some((text, rest))
}

/// Reads the author's seconds and time zone.
fn read_time(bytes: &[u8]) -> Option<(u64, i16, &[u8])>
    ensures { MatchOption result
        (Lacks (Both IsNumber IsCommitZone) (in_turn (number_part 32) zone_text) bytes.now)
        (λ found. Begins (Both IsNumber IsCommitZone) (in_turn (number_part 32) zone_text) bytes.now
        (found.0, found.1) found.2.now) }
{
    let (secs, rest) = read_number(b' ', bytes)?;
    let (zone, rest) = read_zone(rest)?;
    Some((secs, zone, rest))
}

/// Reads a time zone of the form `+hhmm` or `-hhmm`, other than `-0000`.
fn read_zone(bytes: &[u8]) -> Option<(i16, &[u8])>
    ensures { MatchOption result (Lacks IsCommitZone zone_text bytes.now)
        (λ found. Begins IsCommitZone zone_text bytes.now found.0 found.1.now) }
{
    let (sign, rest) = bytes.split_first()?;
    let (hour, rest) = read_two_digits(rest)?;
    let (minute, rest) = read_two_digits(rest)?;
    if hour > 23 || minute > 59 {
        return None;
    }
    let minutes = i16::from(hour) * 60 + i16::from(minute);
    match *sign {
        b'+' => Some((minutes, rest)),
        b'-' if minutes > 0 => Some((-minutes, rest)),
        _ => None,
    }
}

/// Reads a number of two digits.
fn read_two_digits(bytes: &[u8]) -> Option<(u8, &[u8])>
    ensures { MatchOption result (Lacks IsBelow100 two_digits bytes.now)
        (λ found. Begins IsBelow100 two_digits bytes.now found.0 found.1.now) }
{
    if bytes.len() < 2 || !bytes[0].is_ascii_digit() || !bytes[1].is_ascii_digit() {
        return None;
    }
    Some((10 * (bytes[0] - b'0') + (bytes[1] - b'0'), &bytes[2..]))
}

/// Reads the moment of the commit, and the subject, which ends the content.
fn read_end(bytes: &[u8]) -> Option<(u64, &[u8], &[u8])>
    ensures { MatchOption result
        (Lacks (Both IsNumber IsCleanText) (in_turn committed_part (text_part 10)) bytes.now)
        (λ found. Begins (Both IsNumber IsCleanText) (in_turn committed_part (text_part 10)) bytes.now
        (found.0, found.1.now) found.2.now) }
{
    let (committed, rest) = read_committed(bytes)?;
    let (subject, rest) = read_subject(rest)?;
    Some((committed, subject, rest))
}

/// Reads the subject, up to the line feed that ends its line.
fn read_subject(bytes: &[u8]) -> Option<(&[u8], &[u8])>
    ensures { MatchOption result (Lacks IsCleanText (text_part 10) bytes.now)
        (λ found. Begins IsCleanText (text_part 10) bytes.now found.0.now found.1.now) }
{
    read_text(b'\n', bytes)
}

/// Reads the moment of the commit, up to the subject.
fn read_committed(bytes: &[u8]) -> Option<(u64, &[u8])>
    ensures { MatchOption result (Lacks IsNumber committed_part bytes.now)
        (λ found. Begins IsNumber committed_part bytes.now found.0 found.1.now) }
{
    let rest = after(b"\ncommitter piv2 <piv2@localhost> ", bytes)?;
    let (committed, rest) = read_number(b' ', rest)?;
    Some((committed, after(b"+0000\n\n", rest)?))
}
