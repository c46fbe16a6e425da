//! The commit that keeps a text, and the objects of an entry.
//! Allocates.
ghost use Rattle.std.specs.Prelude.{◌≡◌, ◌++◌, ◌∷◌, [], length, take, decimal, codes, IfOk, OnOk, OnErr, is_ok, if◌then◌else◌};
ghost use Rattle.git_objects.specs.CleanText.{IsCleanText};
ghost use Rattle.git_objects.specs.Commits.{IsCommitZone};
ghost use Rattle.git_objects.specs.Objects.{blob_id_of};
ghost use Rattle.mail_commits.specs.Commits.{commit_of};
ghost use Rattle.mail_commits.specs.Entries.{commit_text as commit_text_of, commit_id, entry_bytes, magic as magic_of, tree_of};

use crate::facts::{author, subject, written_at};
use arch_base::{Bytes, Form, NoMemory, ObjectId};
use git_objects::{Commit, EntryKind, TreeBytes, commit_bytes, object_id, tree_bytes};
use itoa::Buffer;
use std::alloc::Global;

/// Returns the commit that keeps a text.
///
/// `tree` is the id of the tree that has the text, and `parent` that of the commit before it.
/// `moment` is when the text was taken, in seconds since 1970 UTC. `commit_bytes` accepts the
/// result.
///
/// `NoMemory` if an allocation fails.
pub fn entry_commit(
    alloc: Global,
    text: &[u8],
    tree: &ObjectId,
    parent: Option<ObjectId>,
    moment: u64,
) -> Result<Commit, NoMemory>
    ensures value { IfOk result (λ made. made ≡ commit_of text.now tree.now parent moment) }
    ensures author { IfOk result (λ made. IsCleanText made.author) }
    ensures email { IfOk result (λ made. IsCleanText made.email) }
    ensures subject { IfOk result (λ made. IsCleanText made.subject) }
    ensures zone { IfOk result (λ made. IsCommitZone made.zone) }
{
    let author = author(alloc, text)?;
    let subject = subject(alloc, text)?;
    let written = written_at(text, moment);
    Ok(Commit {
        tree: *tree,
        parent,
        author: author.name,
        email: author.email,
        secs: written.secs,
        zone: written.zone,
        committed: moment,
        subject,
    })
}

/// Returns the first bytes of an epoch whose objects have ids of a form.
pub fn magic(form: Form) -> [u8; 8]
    ensures { result ≡ magic_of form }
{
    match form {
        Form::Sha1 => *b"PIV2EP1\n",
        Form::Sha256 => *b"PIV2EP2\n",
    }
}

/// A text that an entry keeps.
#[derive(Clone, Copy, Debug, Drop)]
pub struct EntryText<'a> {
    /// The form of the entry's ids.
    pub form: Form,
    /// A message or a deletion.
    pub kind: EntryKind,
    /// The text.
    pub text: &'a [u8],
    /// When the text was taken, in seconds since 1970 UTC.
    pub moment: u64,
}

/// The ids of an entry's blob and commit.
#[derive(Clone, Copy, Debug, Drop)]
pub struct EntryIds {
    /// The id of the blob that is the text.
    pub blob: ObjectId,
    /// The id of the commit that keeps it.
    pub commit: ObjectId,
}

/// Appends the objects of an entry to the bytes of an epoch, and returns the ids of its blob and
/// commit.
///
/// The objects are the blob of the text, its tree, in which the text is the file that the kind names
/// (`m` for a message, `d` for a deletion), and the commit that keeps it after `parent`. `blob` is
/// the id of that blob.
///
/// `NoMemory` if an allocation fails, and the bytes are unchanged.
pub fn push_entry(
    alloc: Global,
    entry: &EntryText<'_>,
    blob: &ObjectId,
    parent: Option<ObjectId>,
    into: &mut Bytes,
) -> Result<EntryIds, NoMemory>
    requires blob { blob.now ≡ blob_id_of entry.now.form entry.now.text.now }
    ensures blob { IfOk result (λ ids. ids.blob ≡ blob_id_of entry.now.form entry.now.text.now) }
    ensures commit { IfOk result (λ ids. ids.commit
        ≡ commit_id entry.now.form entry.now.kind entry.now.text.now entry.now.moment parent) }
    ensures ok { OnOk result (into.new ≡ into.old
        ++ entry_bytes entry.now.form entry.now.kind entry.now.text.now entry.now.moment parent) }
    ensures err { OnErr result (into.new ≡ into.old) }
{
    let objects = entry_objects(alloc, entry, blob, parent)?;
    let head = blob_head(alloc, entry.text.len())?;
    push_all(
        into,
        head.as_slice(),
        entry.text,
        objects.tree.as_slice(),
        objects.commit.as_slice(),
    )?;
    Ok(objects.ids)
}

/// The objects of an entry after its blob, as they are spelled.
#[derive(Debug, Drop)]
pub struct EntryObjects {
    /// The ids of its blob and its commit.
    pub ids: EntryIds,
    /// Its tree.
    pub tree: TreeBytes,
    /// Its commit.
    pub commit: Bytes,
}

/// Returns the tree and the commit of an entry, and the ids of its blob and its commit.
///
/// They are those that `push_entry` appends after the blob. `blob` is the id of that blob.
///
/// `NoMemory` if an allocation fails.
pub fn entry_objects(
    alloc: Global,
    entry: &EntryText<'_>,
    blob: &ObjectId,
    parent: Option<ObjectId>,
) -> Result<EntryObjects, NoMemory>
    requires blob { blob.now ≡ blob_id_of entry.now.form entry.now.text.now }
    ensures blob { IfOk result (λ made.
        made.ids.blob ≡ blob_id_of entry.now.form entry.now.text.now) }
    ensures commit { IfOk result (λ made. made.ids.commit
        ≡ commit_id entry.now.form entry.now.kind entry.now.text.now entry.now.moment parent) }
    ensures tree { IfOk result (λ made.
        made.tree ≡ tree_of entry.now.form entry.now.kind entry.now.text.now) }
    ensures spelled { IfOk result (λ made. made.commit
        ≡ commit_text_of entry.now.form entry.now.kind entry.now.text.now entry.now.moment parent) }
{
    let tree = tree_bytes(entry.kind, blob);
    let commit = commit_text(alloc, entry, tree.as_slice(), parent)?;
    let ids = EntryIds {
        blob: *blob,
        commit: object_id(commit.as_slice(), entry.form),
    };
    Ok(EntryObjects { ids, tree, commit })
}

/// Returns the commit of an entry as it is spelled. `tree` is its tree as it is spelled.
fn commit_text(
    alloc: Global,
    entry: &EntryText<'_>,
    tree: &[u8],
    parent: Option<ObjectId>,
) -> Result<Bytes, NoMemory>
    requires { tree.now ≡ tree_of entry.now.form entry.now.kind entry.now.text.now }
    ensures { IfOk result (λ made. made
        ≡ commit_text_of entry.now.form entry.now.kind entry.now.text.now entry.now.moment parent) }
{
    let tree = object_id(tree, entry.form);
    let commit = entry_commit(alloc, entry.text, &tree, parent, entry.moment)?;
    commit_bytes(alloc, &commit)
}

/// Returns the bytes before the content of a blob of this length.
fn blob_head(alloc: Global, len: usize) -> Result<Bytes, NoMemory>
    ensures { IfOk result (λ made. made ≡ codes "blob " ++ (decimal len ++ 0 ∷ [])) }
{
    let mut size = Buffer::new();
    let mut head = Bytes::new(alloc);
    head.push_slice(b"blob ")?;
    head.push_slice(size.format(len).as_bytes())?;
    head.push(0)?;
    Ok(head)
}

/// Appends four slices.
///
/// `NoMemory` leaves the bytes unchanged.
fn push_all(
    into: &mut Bytes,
    head: &[u8],
    text: &[u8],
    tree: &[u8],
    commit: &[u8],
) -> Result<(), NoMemory>
    ensures { into.new ≡ (if is_ok result
        then into.old ++ (head.now ++ (text.now ++ (tree.now ++ commit.now))) else into.old) }
{
    let len = into.as_slice().len();
    let pushed = push_each(into, head, text, tree, commit);
    if pushed.is_err() {
        into.truncate(len);
    }
    pushed
}

/// Appends four slices.
///
/// `NoMemory` may leave some of them appended.
fn push_each(
    into: &mut Bytes,
    head: &[u8],
    text: &[u8],
    tree: &[u8],
    commit: &[u8],
) -> Result<(), NoMemory>
    ensures ok { OnOk result (into.new
        ≡ into.old ++ (head.now ++ (text.now ++ (tree.now ++ commit.now)))) }
    ensures err { take (length into.old) into.new ≡ into.old }
{
    into.push_slice(head)?;
    into.push_slice(text)?;
    into.push_slice(tree)?;
    into.push_slice(commit)
}
