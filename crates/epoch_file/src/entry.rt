//! The entries of an epoch's file, as they are written and as they are read.
//! Pure.
use arch_base::{Bytes, Form, ObjectId, Sequence};
use git_objects::EntryKind;
use mail_commits::TextIds;

/// An entry that is to be appended to an epoch's file.
#[derive(Debug, Clone, Copy, Drop)]
pub struct NewEntry<'a> {
    /// A message or a deletion.
    pub kind: EntryKind,
    /// The text of that file.
    pub text: &'a [u8],
    /// The ids of the text.
    pub ids: TextIds,
    /// The time of its commit, in seconds since 1970.
    pub moment: u64,
    /// The epoch's commit before it, none for the first.
    pub parent: Option<ObjectId>,
    /// The form of its ids.
    pub form: Form,
}

/// An entry as it was read from an epoch's file.
#[derive(Debug, Drop)]
pub struct Seen {
    /// A message or a deletion.
    pub kind: EntryKind,
    /// The offset of the entry in the epoch's file.
    pub at: u64,
    /// The offset of its text in the epoch's file.
    pub text_at: u64,
    /// The size of its text in bytes.
    pub size: u64,
    /// The id of its blob.
    pub blob: ObjectId,
    /// The id of its commit.
    pub commit: ObjectId,
    /// The time of its commit, in seconds since 1970.
    pub moment: u64,
    /// The own id of the text, empty if it has none.
    pub id: Bytes,
    /// The content id of the text.
    pub content: [u8; 32],
}

/// The entries of an epoch's file, in order.
pub type SeenList = Sequence<Seen>;

/// The result of an append.
#[derive(Debug, Clone, Copy, PartialEq, Eq, Drop)]
pub struct Written {
    /// The offset after its last byte.
    pub end: u64,
    /// The id of the entry's blob.
    pub blob: ObjectId,
    /// The id of the entry's commit.
    pub commit: ObjectId,
}
