//! An entry of an archive without its text.
//! Pure.
use arch_base::ObjectId;
use git_objects::EntryKind;

/// An entry of an archive without its text.
#[derive(Clone, Copy, Debug, Drop, PartialEq, Eq)]
pub struct EntryLine {
    /// What it is: a message, or the deletion of one.
    pub kind: EntryKind,
    /// The number of the message that it is or ends.
    pub number: u32,
    /// The number of its epoch.
    pub epoch: u32,
    /// The moment of the commit, in seconds since 1970 UTC.
    pub secs: u64,
    /// The id of the blob that holds the text.
    pub blob: ObjectId,
    /// The size of the text, in bytes.
    pub size: u64,
    /// The id of the commit.
    pub commit: ObjectId,
}
