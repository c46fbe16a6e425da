//! The entries of an archive as they are kept in memory.
//! Pure.
use epoch_file::Seen;

/// An entry without its text.
#[derive(Debug, Drop)]
pub struct StoredEntry {
    /// The number of its message.
    pub number: u32,
    /// The epoch that it is in.
    pub epoch: u32,
    /// What was recorded of it when the epoch's file was read or written.
    pub seen: Seen,
}
