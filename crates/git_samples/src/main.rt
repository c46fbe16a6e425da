//! Prints sample objects as `git_objects` writes and names them, for git itself to judge:
//! `tests/git` puts each into a repository.
//!
//! The same objects are printed for each form of ids, after a line with git's name of the form. Each
//! object is a line `TYPE ID SIZE SPELLING`, with the size of the spelling in bytes and its bytes in
//! hex. The last commits of a form are a chain.
#![tactic(auto)]

ghost use Rattle.std.specs.Prelude.{◌≡◌, IsTrue};
ghost use Rattle.std.specs.List.{list_all};
ghost use Rattle.git_objects.specs.CleanText.{IsCleanText, is_clean_byte as clean_byte};
ghost use Rattle.git_objects.specs.Commits.{IsCommitZone};

mod samples;

use anyhow::anyhow;
use arch_base::{Bytes, Form, NoMemory, ObjectId, decimal};
use git_objects::{Commit, EntryKind, blob_id, commit_bytes, object_id, tree_bytes};
use samples::{ALONE, BLOBS, CHAIN, Sample};
use std::alloc::Global;

/// Prints the objects in each form of ids.
fn main(rt: HostRuntime) -> anyhow::Result<()> {
    let alloc = rt.alloc();
    println!(&rt; "sha1")?;
    print_objects(&rt, alloc, Form::Sha1)?;
    println!(&rt; "sha256")?;
    print_objects(&rt, alloc, Form::Sha256)
}

/// Prints blobs, trees of one file, commits without a parent, and a chain of commits.
fn print_objects(rt: &impl Print, alloc: Global, form: Form) -> anyhow::Result<()> {
    print_blobs(rt, alloc, form)?;
    let kept = print_tree(rt, alloc, EntryKind::Message, &blob_id(b"hello\n", form))?;
    let dropped = print_tree(rt, alloc, EntryKind::Deletion, &blob_id(b"", form))?;
    print_alone(rt, alloc, &dropped)?;
    print_chain(rt, alloc, &kept)
}

/// Prints the blobs.
fn print_blobs(rt: &impl Print, alloc: Global, form: Form) -> anyhow::Result<()> {
    for content in &BLOBS {
        print_blob(rt, alloc, content, form)?;
    }
    print_blob(rt, alloc, every_byte(alloc)?.as_slice(), form)
}

/// Prints the commits without a parent, each with this tree.
fn print_alone(rt: &impl Print, alloc: Global, tree: &ObjectId) -> anyhow::Result<()> {
    for sample in &ALONE {
        print_commit(rt, alloc, tree, None, sample)?;
    }
    Ok(())
}

/// Prints the chain of commits, each with this tree.
fn print_chain(rt: &impl Print, alloc: Global, tree: &ObjectId) -> anyhow::Result<()> {
    let mut parent = None;
    for sample in &CHAIN {
        parent = Some(print_commit(rt, alloc, tree, parent, sample)?);
    }
    Ok(())
}

/// Returns every byte, sixteen times over: 4,096 bytes.
fn every_byte(alloc: Global) -> Result<Bytes, NoMemory> {
    let mut bytes = Bytes::new(alloc);
    for at in 0..4096u16 {
        bytes.push((at % 256) as u8)?;
    }
    Ok(bytes)
}

/// Prints the blob of a content.
fn print_blob(rt: &impl Print, alloc: Global, content: &[u8], form: Form) -> anyhow::Result<()> {
    let spelling = blob_spelling(alloc, content)?;
    print_object(
        rt,
        alloc,
        "blob",
        &blob_id(content, form),
        spelling.as_slice(),
    )
}

/// Returns the spelling of the blob of a content.
fn blob_spelling(alloc: Global, content: &[u8]) -> Result<Bytes, NoMemory> {
    let mut spelling = Bytes::new(alloc);
    spelling.push_slice(b"blob ")?;
    spelling.push_slice(decimal(alloc, content.len() as u64)?.as_slice())?;
    spelling.push(0)?;
    spelling.push_slice(content)?;
    Ok(spelling)
}

/// Prints the tree of an entry with this blob, and returns its id.
fn print_tree(
    rt: &impl Print,
    alloc: Global,
    kind: EntryKind,
    blob: &ObjectId,
) -> anyhow::Result<ObjectId> {
    let spelling = tree_bytes(kind, blob);
    print_named(rt, alloc, "tree", spelling.as_slice(), blob.form())
}

/// Prints a commit, and returns its id.
fn print_commit(
    rt: &impl Print,
    alloc: Global,
    tree: &ObjectId,
    parent: Option<ObjectId>,
    sample: &Sample,
) -> anyhow::Result<ObjectId> {
    let commit = commit_of(alloc, tree, parent, sample)?;
    match spelled(alloc, &commit)? {
        Some(spelling) => print_named(rt, alloc, "commit", spelling.as_slice(), tree.form()),
        None => Err(anyhow!("a sample is not clean")),
    }
}

/// Returns the commit of a sample.
fn commit_of(
    alloc: Global,
    tree: &ObjectId,
    parent: Option<ObjectId>,
    sample: &Sample,
) -> Result<Commit, NoMemory> {
    Ok(Commit {
        tree: *tree,
        parent,
        author: text(alloc, sample.author)?,
        email: text(alloc, sample.email)?,
        secs: sample.secs,
        zone: sample.zone,
        committed: sample.committed,
        subject: text(alloc, sample.subject)?,
    })
}

/// Returns the bytes of a text.
fn text(alloc: Global, text: &str) -> Result<Bytes, NoMemory> {
    let mut bytes = Bytes::new(alloc);
    bytes.push_slice(text.as_bytes())?;
    Ok(bytes)
}

/// Returns the spelling of a commit, or `None` if a text isn't clean or the zone isn't less than a
/// day from UTC.
fn spelled(alloc: Global, commit: &Commit) -> Result<Option<Bytes>, NoMemory> {
    let clean = is_clean(commit.author.as_slice())
        && is_clean(commit.email.as_slice())
        && is_clean(commit.subject.as_slice());
    if !clean || !is_zone(commit.zone) {
        return Ok(None);
    }
    Ok(Some(commit_bytes(alloc, commit)?))
}

/// Returns whether a time zone is less than a day from UTC.
fn is_zone(zone: i16) -> bool
    ensures { IsTrue result → IsCommitZone zone }
{
    zone > -1440 && zone < 1440
}

/// Returns whether a text is clean: it may be a text of a commit.
fn is_clean(text: &[u8]) -> bool
    ensures { IsTrue result → IsCleanText text.now }
{
    if text.is_empty() {
        return true;
    }
    if text[0] == b' ' || text[text.len() - 1] == b' ' {
        return false;
    }
    are_clean_bytes(text)
}

/// Returns whether clean text may have each of the bytes.
fn are_clean_bytes(bytes: &[u8]) -> bool
    ensures { result ≡ list_all clean_byte bytes.now }
{
    bytes.iter().all(|byte| is_clean_byte(*byte))
}

/// Returns whether clean text may have a byte.
fn is_clean_byte(byte: u8) -> bool
    ensures { result ≡ clean_byte byte }
{
    byte >= 32 && byte != 127 && byte != b'<' && byte != b'>'
}

/// Prints an object, and returns its id.
fn print_named(
    rt: &impl Print,
    alloc: Global,
    kind: &str,
    spelling: &[u8],
    form: Form,
) -> anyhow::Result<ObjectId> {
    let id = object_id(spelling, form);
    print_object(rt, alloc, kind, &id, spelling)?;
    Ok(id)
}

/// Prints the line of an object.
fn print_object(
    rt: &impl Print,
    alloc: Global,
    kind: &str,
    id: &ObjectId,
    spelling: &[u8],
) -> anyhow::Result<()> {
    let id = hex::encode(alloc, id.as_slice())?;
    let size = spelling.len();
    let spelling = hex::encode(alloc, spelling)?;
    println!(rt; "{kind} {id} {size} {spelling}")?;
    Ok(())
}
