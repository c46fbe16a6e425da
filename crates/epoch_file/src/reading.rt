//! Reads an entry from the front of bytes.
//! Allocates.
ghost use Rattle.std.specs.Prelude.{◌≡◌, ◌+◌, ◌-◌, ◌<◌, ◌≤◌, ◌^◌, ◌++◌, ℕ, List, Some, None, length, take, IfSome, IfOk, IsTrue, ◌↔◌, MatchOption};
ghost use Rattle.arch_base.specs.Ids.{IsObjectId};
ghost use Rattle.arch_base.specs.declared.ids.Form.{Form as IdForm};
ghost use Rattle.arch_base.specs.declared.ids.ObjectId.{ObjectId};
ghost use Rattle.git_objects.specs.declared.commits.Commit.{Commit as CommitRecord};
ghost use Rattle.git_objects.specs.declared.entry_kind.EntryKind.{EntryKind};
ghost use Rattle.git_objects.specs.Commits.{IsCommit, commit_content};
ghost use Rattle.git_objects.specs.Objects.{CommitOf, HasSize, blob_spelling, spelling, tree_spelling};
ghost use Rattle.mail_reader.specs.Ids.{own_id as own_id_of};
ghost use Rattle.mail_reader.specs.StorageTexts.{IsStorageText};
ghost use Rattle.arch_base.specs.Moments.{last_moment};
ghost use Rattle.epoch_file.specs.Reading.{IsParted, HasParts, PartsAgain, Respells, ReadsEntry, ReadsWhere, seen_by};

use crate::entry::Seen;
use crate::sight::after;
use arch_base::{Bytes, Form, LAST_MOMENT, NoMemory, ObjectId};
use git_objects::{EntryKind, Object, blob_id, committed_at, read_object};
use mail_commits::{EntryIds, EntryText, entry_objects};
use mail_reader::{content_id, stored_id};
use std::alloc::Global;

/// The three objects at the front of bytes.
#[derive(Clone, Copy, Drop)]
pub(crate) struct Parts<'a> {
    /// The kind of entry that the tree's file names.
    kind: EntryKind,
    /// The blob's content.
    text: &'a [u8],
    /// The number of bytes before it.
    front: usize,
    /// The number of bytes of the blob.
    blob: usize,
    /// The commit's content.
    commit: &'a [u8],
    /// The number of bytes of the three objects.
    size: usize,
    /// The form of their ids.
    form: Form,
}

/// Reads the blob, tree and commit of a form that bytes start with.
fn read_parts(bytes: &[u8], form: Form) -> Option<Parts<'_>>
    ensures found { IfSome result (IsParted bytes.now) }
    ensures form { IfSome result (λ parts. parts.form ≡ form) }
    ensures again { PartsAgain form bytes.now result }
{
    let (text, blob) = blob_ahead(bytes, form)?;
    let (kind, tree) = tree_ahead(bytes.split_at(blob).1, form)?;
    let at = blob + tree;
    let (commit, len) = commit_ahead(bytes.split_at(at).1, form)?;
    Some(Parts {
        kind,
        text,
        front: blob - text.len(),
        blob,
        commit,
        size: at + len,
        form,
    })
}

/// Reads the content of the blob that bytes start with, and the blob's length.
fn blob_ahead(bytes: &[u8], form: Form) -> Option<(&[u8], usize)>
    ensures inside { IfSome result (λ found. (length found.0.now ≤ found.1)
        × (found.1 ≤ length bytes.now)) }
    ensures spelled { IfSome result (λ found.
        take found.1 bytes.now ≡ blob_spelling found.0.now) }
    ensures again { (content rest : List ℕ) → HasSize content
        → bytes.now ≡ blob_spelling content ++ rest
        → MatchOption result ⊥ (λ found. (found.0.now ≡ content)
        × (found.1 ≡ length (blob_spelling content))) }
{
    match read_object(bytes, form)? {
        (Object::Blob(content), len) => Some((content, len)),
        _ => None,
    }
}

/// Reads the kind of entry in the tree of a form that bytes start with, and the tree's length.
fn tree_ahead(bytes: &[u8], form: Form) -> Option<(EntryKind, usize)>
    ensures inside { IfSome result (λ found. found.1 ≤ length bytes.now) }
    ensures again { (kind : EntryKind) (id : ObjectId) (rest : List ℕ) → IsObjectId form id
        → bytes.now ≡ tree_spelling kind id ++ rest
        → MatchOption result ⊥ (λ found. (found.0 ≡ kind)
        × (found.1 ≡ length (tree_spelling kind id))) }
{
    match read_object(bytes, form)? {
        (Object::Tree { kind, id: _ }, len) => Some((kind, len)),
        _ => None,
    }
}

/// Reads the content of the commit that bytes start with, and the commit's length.
fn commit_ahead(bytes: &[u8], form: Form) -> Option<(&[u8], usize)>
    ensures inside { IfSome result (λ found. found.1 ≤ length bytes.now) }
    ensures again { (content rest : List ℕ) → HasSize content
        → bytes.now ≡ spelling (CommitOf content) ++ rest
        → MatchOption result ⊥ (λ found. (found.0.now ≡ content)
        × (found.1 ≡ length (spelling (CommitOf content)))) }
{
    match read_object(bytes, form)? {
        (Object::Commit(content), len) => Some((content, len)),
        _ => None,
    }
}

/// Returns the moment in a commit's content.
///
/// The result is `None` if the content is no commit's, or the moment is after the last.
fn moment_of(content: &[u8]) -> Option<u64>
    ensures bound { IfSome result (λ moment. moment ≤ last_moment) }
    ensures again { (of : IdForm) (c : CommitRecord) → IsCommit of c → content.now ≡ commit_content c
        → c.committed ≤ last_moment → result ≡ Some c.committed }
{
    let moment = committed_at(content)?;
    if moment > LAST_MOMENT {
        return None;
    }
    Some(moment)
}

/// Returns the ids of an entry's blob and commit if the bytes are its tree and its commit.
fn respell(
    alloc: Global,
    bytes: &[u8],
    entry: &EntryText<'_>,
    parent: Option<ObjectId>,
) -> Result<Option<EntryIds>, NoMemory>
    ensures { Respells entry.now.form bytes.now entry.now.kind entry.now.text.now entry.now.moment parent
        result }
{
    let objects = entry_objects(alloc, entry, &blob_id(entry.text, entry.form), parent)?;
    if !is_joined(bytes, objects.tree.as_slice(), objects.commit.as_slice()) {
        return Ok(None);
    }
    Ok(Some(objects.ids))
}

/// Returns whether bytes are two others, one after the other.
fn is_joined(bytes: &[u8], first: &[u8], second: &[u8]) -> bool
    ensures { IsTrue result ↔ bytes.now ≡ first.now ++ second.now }
{
    match after(first, bytes) {
        Some(rest) => rest == second,
        None => false,
    }
}

/// Reads the entry of a form after a parent that bytes start with, and returns it and its length.
///
/// The bytes are at `offset` in their file. The result is `None` if they don't start with
/// such an entry.
pub(crate) fn read_entry(
    alloc: Global,
    offset: u64,
    bytes: &[u8],
    parent: Option<ObjectId>,
    form: Form,
) -> Result<Option<(Seen, usize)>, NoMemory>
    requires { offset + length bytes.now < 2 ^ 64 }
    ensures { ReadsEntry form offset parent bytes.now result }
{
    match read_parts(bytes, form) {
        Some(parts) => read_in_parts(alloc, offset, bytes, parent, &parts),
        None => Ok(None),
    }
}

/// Reads the entry, given the three objects at the front of the bytes.
fn read_in_parts(
    alloc: Global,
    offset: u64,
    bytes: &[u8],
    parent: Option<ObjectId>,
    parts: &Parts<'_>,
) -> Result<Option<(Seen, usize)>, NoMemory>
    requires room { offset + length bytes.now < 2 ^ 64 }
    requires parted { IsParted bytes.now parts.now }
    requires again { PartsAgain parts.now.form bytes.now (Some parts.now) }
    ensures { ReadsWhere parts.now.form (λ e. HasParts parts.now.form parent e parts.now)
        offset parent bytes.now result }
{
    match moment_of(parts.commit) {
        Some(moment) => read_at_moment(alloc, offset, bytes, parent, parts, moment),
        None => Ok(None),
    }
}

/// Reads the entry, given its objects and the moment of its commit.
fn read_at_moment(
    alloc: Global,
    offset: u64,
    bytes: &[u8],
    parent: Option<ObjectId>,
    parts: &Parts<'_>,
    moment: u64,
) -> Result<Option<(Seen, usize)>, NoMemory>
    requires room { offset + length bytes.now < 2 ^ 64 }
    requires parted { IsParted bytes.now parts.now }
    requires again { PartsAgain parts.now.form bytes.now (Some parts.now) }
    requires moment { moment ≤ last_moment }
    ensures { ReadsWhere parts.now.form (λ e. HasParts parts.now.form parent e parts.now
        × (moment ≡ e.moment)) offset parent bytes.now result }
{
    match stored_id(parts.text) {
        Some(id) => read_with_id(alloc, offset, bytes, parent, parts, moment, id),
        None => Ok(None),
    }
}

/// Reads the entry, given its objects, its moment and its text's own id.
fn read_with_id(
    alloc: Global,
    offset: u64,
    bytes: &[u8],
    parent: Option<ObjectId>,
    parts: &Parts<'_>,
    moment: u64,
    id: &[u8],
) -> Result<Option<(Seen, usize)>, NoMemory>
    requires room { offset + length bytes.now < 2 ^ 64 }
    requires parted { IsParted bytes.now parts.now }
    requires again { PartsAgain parts.now.form bytes.now (Some parts.now) }
    requires moment { moment ≤ last_moment }
    requires stored { IsStorageText parts.now.text.now }
    requires id { own_id_of parts.now.text.now ≡ Some id.now }
    ensures { ReadsWhere parts.now.form (λ e. HasParts parts.now.form parent e parts.now
        × (moment ≡ e.moment)) offset parent bytes.now result }
{
    let objects = bytes.split_at(parts.size).0.split_at(parts.blob).1;
    let entry = EntryText {
        form: parts.form,
        kind: parts.kind,
        text: parts.text,
        moment,
    };
    match respell(alloc, objects, &entry, parent)? {
        Some(ids) => Ok(Some((seen_of(alloc, offset, parts, moment, &ids, id)?, parts.size))),
        None => Ok(None),
    }
}

/// Returns what is recorded of an entry.
fn seen_of(
    alloc: Global,
    offset: u64,
    parts: &Parts<'_>,
    moment: u64,
    ids: &EntryIds,
    id: &[u8],
) -> Result<Seen, NoMemory>
    requires room { offset + parts.now.front < 2 ^ 64 }
    requires id { own_id_of parts.now.text.now ≡ Some id.now }
    ensures { IfOk result (λ seen. seen ≡ seen_by offset parts.now moment ids.now) }
{
    Ok(Seen {
        kind: parts.kind,
        at: offset,
        text_at: offset + parts.front as u64,
        size: parts.text.len() as u64,
        blob: ids.blob,
        commit: ids.commit,
        moment,
        id: Bytes::from_vec(Vec::from_slice(alloc, id)?),
        content: content_id(parts.text),
    })
}
