//! The trees of entries: one file each, `m` or `d`.
//! Pure.
ghost use Rattle.std.specs.Prelude.{◌≡◌};
ghost use Rattle.git_objects.specs.Objects.{tree_spelling, IsTreeContent};
ghost use Rattle.git_objects.specs.Trees.{tree_front};

use crate::entry_kind::EntryKind;
use crate::fronts::after;
use arch_base::{Form, ObjectId};
use std::marker::Model;

/// The spelling of an entry's tree: 37 bytes with a SHA-1, 49 with a SHA-256.
///
/// Contracts see its bytes.
#[derive(Debug, Drop)]
pub struct TreeBytes {
    bytes: [u8; 49],
    len: u8,
}

impl Model for TreeBytes {
    ghost use Rattle.std.specs.Prelude.{◌≤◌, ℕ, List, take};

    ghost Value = { List ℕ };

    ghost view = { λ tree. take tree.len tree.bytes };

    ghost invariant = { λ tree. tree.len ≤ 49 };
}

impl TreeBytes {
    /// Returns the bytes.
    pub fn as_slice(&self) -> &[u8]
        ensures { result.now ≡ self.now }
    {
        &self.bytes[..self.len as usize]
    }
}

/// Returns the spelling of the tree of an entry: one file, `m` or `d`, of mode 100644.
pub fn tree_bytes(kind: EntryKind, id: &ObjectId) -> TreeBytes
    ensures { result ≡ tree_spelling kind id.now }
{
    let digest = id.as_slice();
    let len = 17 + digest.len();
    let mut bytes = [0u8; 49];
    bytes[..15].copy_from_slice(&front(id.form()));
    bytes[15] = kind.name();
    bytes[17..len].copy_from_slice(digest);
    TreeBytes {
        bytes,
        len: len as u8,
    }
}

/// Returns the bytes of a tree's spelling before the name of its file.
fn front(form: Form) -> [u8; 15]
    ensures { result ≡ tree_front form }
{
    match form {
        Form::Sha1 => *b"tree 29\x00100644 ",
        Form::Sha256 => *b"tree 41\x00100644 ",
    }
}

/// Reads the kind of entry and the id of a form in a tree's content.
pub(crate) fn read_tree(content: &[u8], form: Form) -> Option<(EntryKind, ObjectId)>
    ensures { IsTreeContent form content.now result }
{
    let file = after(b"100644 ", content)?;
    if file.len() != form.id_size() + 2 || file[1] != 0 {
        return None;
    }
    let kind = EntryKind::of_name(file[0])?;
    Some((kind, ObjectId::from_slice(&file[2..], form)))
}
