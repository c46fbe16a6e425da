//! Tests of ids and spellings against git, and of bytes that spell nothing.
use arch_base::{Bytes, Form, NoMemory, ObjectId, id_of_hex};
use git_objects::{
    Commit, EntryKind, Object, blob_id, commit_bytes, committed_at, object_id, read_commit,
    read_object, tree_bytes,
};
use std::alloc::Global;

const BLOB: &[u8] = b"ce013625030ba8dba906f756967f9e9ca394464a";

const TREE: &[u8] = b"ff904aaaf3647f5d5e49c759a67194e6c0ea3fa7";

const FIRST: &[u8] = b"76063a3a91ab738c9e5856b47d2659e12609e101";

/// Returns whether an id has these hexadecimal digits.
fn has_digits(id: &ObjectId, digits: &[u8]) -> bool {
    Some(*id) == id_of_hex(digits, id.form())
}

#[test]
fn blobs_have_the_ids_of_git(rt: HostRuntime) {
    let empty = b"e69de29bb2d1d6434b8b29ae775ad8c2e48c5391";
    assert!(rt; has_digits(&blob_id(b"hello\n", Form::Sha1), BLOB));
    assert!(rt; has_digits(&blob_id(b"", Form::Sha1), empty));
}

#[test]
fn blobs_have_the_ids_of_git_in_sha_256(rt: HostRuntime) {
    let empty = b"473a0f4c3be8a93681a267e3b1e9a7dcda1185436fe141f7749120a303721813";
    let hello = b"2cf8d83d9ee29543b34a87727421fdecb7e3f3a183d337639025de576db9ebb4";
    assert!(rt; has_digits(&blob_id(b"hello\n", Form::Sha256), hello));
    assert!(rt; has_digits(&blob_id(b"", Form::Sha256), empty));
}

/// Returns the id of the tree of an entry with a blob.
fn tree_id(kind: EntryKind, blob: &ObjectId) -> ObjectId {
    object_id(tree_bytes(kind, blob).as_slice(), blob.form())
}

#[test]
fn trees_have_the_ids_of_git(rt: HostRuntime) {
    let deletion = b"087bd2d5b1a1d0198d0588d026926acab77d3921";
    let blob = blob_id(b"hello\n", Form::Sha1);
    assert!(rt; has_digits(&tree_id(EntryKind::Message, &blob), TREE));
    assert!(rt; has_digits(&tree_id(EntryKind::Deletion, &blob), deletion));
}

/// Returns whether bytes start with the blob of a content whose spelling has `taken` bytes.
fn begins_with_blob(bytes: &[u8], wanted: &[u8], taken: usize) -> bool {
    match read_object(bytes, Form::Sha1) {
        Some((Object::Blob(content), len)) => content == wanted && len == taken,
        _ => false,
    }
}

/// Returns whether the spelling of a deletion's tree, of so many bytes, is read as that tree.
fn reads_deletion_again(blob: &ObjectId, size: usize) -> bool {
    let tree = tree_bytes(EntryKind::Deletion, blob);
    match read_object(tree.as_slice(), blob.form()) {
        Some((Object::Tree { kind, id }, len)) => {
            len == size && kind == EntryKind::Deletion && id == *blob
        }
        _ => false,
    }
}

#[test]
fn objects_are_read(rt: HostRuntime) {
    assert!(rt; begins_with_blob(b"blob 6\0hello\ntree", b"hello\n", 13));
    assert!(rt; reads_deletion_again(&blob_id(b"hello\n", Form::Sha1), 37));
    assert!(rt; reads_deletion_again(&blob_id(b"hello\n", Form::Sha256), 49));
}

/// Bytes that spell no object.
const OTHER_OBJECTS: [&[u8]; 10] = [
    b"",
    b"blob 06\0hello\n",
    b"blob 7\0hello\n",
    b"blob 6hello\n",
    b"blob \0",
    b"blob 18446744073709551616\0",
    b"tag 0\0",
    b"tree 29\0100755 m\0....................",
    b"tree 29\0100644 x\0....................",
    b"tree 30\0100644 m\0.....................",
];

#[test]
fn other_bytes_are_no_object(rt: HostRuntime) {
    for bytes in &OTHER_OBJECTS {
        assert!(rt; read_object(bytes, Form::Sha1).is_none());
    }
}

/// A commit's content and id, as git gives them, and the commit's fields.
#[derive(Drop)]
struct Row<'a> {
    content: &'a [u8],
    id: &'a [u8],
    parent: Option<&'a [u8]>,
    author: &'a [u8],
    email: &'a [u8],
    secs: u64,
    zone: i16,
    committed: u64,
    subject: &'a [u8],
}

/// Returns whether a content is read as the row's fields, and their spelling has the id of git.
fn agrees(alloc: Global, row: &Row<'_>) -> Result<bool, NoMemory> {
    let Some(commit) = read_commit(alloc, row.content, Form::Sha1)? else {
        return Ok(false);
    };
    if !has_fields(&commit, row) {
        return Ok(false);
    }
    let spelling = commit_bytes(alloc, &commit)?;
    let id = object_id(spelling.as_slice(), Form::Sha1);
    Ok(has_digits(&id, row.id))
}

/// Returns the id of the parent of a row's commit.
fn parent_of(row: &Row<'_>) -> Option<ObjectId> {
    id_of_hex(row.parent?, Form::Sha1)
}

/// Returns whether a commit has the fields of a row.
fn has_fields(commit: &Commit, row: &Row<'_>) -> bool {
    has_digits(&commit.tree, TREE)
        && commit.parent == parent_of(row)
        && commit.author.as_slice() == row.author
        && commit.email.as_slice() == row.email
        && commit.secs == row.secs
        && commit.zone == row.zone
        && commit.committed == row.committed
        && committed_at(row.content) == Some(row.committed)
        && commit.subject.as_slice() == row.subject
}

/// Commits as git gives them.
static COMMITS: [Row<'static>; 4] = [
    Row {
        content: b"tree ff904aaaf3647f5d5e49c759a67194e6c0ea3fa7\n\
            author Ann B <ann@x.y> 1700000000 +0130\n\
            committer piv2 <piv2@localhost> 1700000001 +0000\n\n\
            First subject\n",
        id: FIRST,
        parent: None,
        author: b"Ann B",
        email: b"ann@x.y",
        secs: 1700000000,
        zone: 90,
        committed: 1700000001,
        subject: b"First subject",
    },
    Row {
        content: b"tree ff904aaaf3647f5d5e49c759a67194e6c0ea3fa7\n\
            parent 76063a3a91ab738c9e5856b47d2659e12609e101\n\
            author Bob <bob@x.y> 1234567890 -0959\n\
            committer piv2 <piv2@localhost> 1700000002 +0000\n\n\
            Second\n",
        id: b"1814820f07c1b26474fe0c8d1be8733d53664ef6",
        parent: Some(FIRST),
        author: b"Bob",
        email: b"bob@x.y",
        secs: 1234567890,
        zone: -599,
        committed: 1700000002,
        subject: b"Second",
    },
    Row {
        content: b"tree ff904aaaf3647f5d5e49c759a67194e6c0ea3fa7\n\
            author  <e@f> 0 +0000\n\
            committer piv2 <piv2@localhost> 1700000003 +0000\n\n\n",
        id: b"8e188e56c361aa08b5a45cbc5cb5032fe0df5cf2",
        parent: None,
        author: b"",
        email: b"e@f",
        secs: 0,
        zone: 0,
        committed: 1700000003,
        subject: b"",
    },
    Row {
        content: b"tree ff904aaaf3647f5d5e49c759a67194e6c0ea3fa7\n\
            parent 76063a3a91ab738c9e5856b47d2659e12609e101\n\
            author A <> 5 -2359\n\
            committer piv2 <piv2@localhost> 0 +0000\n\n\
            s\n",
        id: b"cec6f00ad12b81397e9198a973d63c4e654dd955",
        parent: Some(FIRST),
        author: b"A",
        email: b"",
        secs: 5,
        zone: -1439,
        committed: 0,
        subject: b"s",
    },
];

#[test]
fn commits_have_the_ids_of_git(rt: HostRuntime) {
    for row in &COMMITS {
        assert!(rt; matches!(agrees(rt.alloc(), row), Ok(true)));
    }
}

/// The bytes of a commit after the line of the tree.
const REST: &[u8] = b"author A <e> 5 +0000\ncommitter piv2 <piv2@localhost> 0 +0000\n\ns\n";

/// Bytes that follow the line of the tree in no commit.
const OTHER_RESTS: [&[u8]; 12] = [
    b"author A <e> 5 -0000\ncommitter piv2 <piv2@localhost> 0 +0000\n\ns\n",
    b"author A <e> 5 +2400\ncommitter piv2 <piv2@localhost> 0 +0000\n\ns\n",
    b"author A <e> 5 +0060\ncommitter piv2 <piv2@localhost> 0 +0000\n\ns\n",
    b"author A <e> 05 +0000\ncommitter piv2 <piv2@localhost> 0 +0000\n\ns\n",
    b"author A <e> 5 +0000\ncommitter piv2 <piv2@localhost> 0 +0100\n\ns\n",
    b"author A <e> 5 +0000\ncommitter piv3 <piv2@localhost> 0 +0000\n\ns\n",
    b"author A <e> 5 +0000\ncommitter piv2 <piv2@localhost> 0 +0000\n\ns",
    b"author A <e> 5 +0000\ncommitter piv2 <piv2@localhost> 0 +0000\n\ns\n\n",
    b"author A <e> 5 +0000\ncommitter piv2 <piv2@localhost> 0 +0000\n\n s\n",
    b"author A<e> 5 +0000\ncommitter piv2 <piv2@localhost> 0 +0000\n\ns\n",
    b"author A  <e> 5 +0000\ncommitter piv2 <piv2@localhost> 0 +0000\n\ns\n",
    b"parent ff904\nauthor A <e> 5 +0000\ncommitter piv2 <piv2@localhost> 0 +0000\n\ns\n",
];

#[test]
fn other_contents_are_no_commit(rt: HostRuntime) {
    assert!(rt; is_commit(rt.alloc(), REST) == Some(true));
    for rest in &OTHER_RESTS {
        assert!(rt; is_commit(rt.alloc(), rest) == Some(false));
    }
}

/// Returns whether the line of a tree and these bytes are a commit, or `None` out of memory.
fn is_commit(alloc: Global, rest: &[u8]) -> Option<bool> {
    let mut content = Bytes::new(alloc);
    content
        .push_slice(b"tree ff904aaaf3647f5d5e49c759a67194e6c0ea3fa7\n")
        .ok()?;
    content.push_slice(rest).ok()?;
    Some(
        read_commit(alloc, content.as_slice(), Form::Sha1)
            .ok()?
            .is_some(),
    )
}
