//! The changes that a disk in memory records.
//! Pure.
use crate::FileName;

/// A call that changed a disk, or a sync.
#[derive(Drop)]
pub enum Change {
    /// Bytes were written to a file.
    Write {
        /// The file.
        name: FileName,
        /// The offset of the bytes in the file.
        offset: u64,
        /// The bytes.
        bytes: Vec<u8>,
    },
    /// A file was cut.
    Cut {
        /// The file.
        name: FileName,
        /// Its new length in bytes.
        length: u64,
    },
    /// A file was removed.
    Remove {
        /// The file.
        name: FileName,
    },
    /// Every change so far was synced.
    Sync,
}
