//! Where the next entry is written.
//! Pure.
use arch_base::ObjectId;

/// The last epoch that has an entry, and its last commit.
#[derive(Clone, Copy, Drop)]
pub struct End {
    /// The epoch, or 0 if there is no entry.
    pub epoch: u32,
    /// The last commit, or `None` if there is no entry.
    pub parent: Option<ObjectId>,
}

/// Where an entry is written.
#[derive(Clone, Copy, Drop)]
pub struct NextPlace {
    /// The epoch.
    pub epoch: u32,
    /// The generation of its file.
    pub generation: u64,
    /// The number of bytes of the file that count, 0 for a new one.
    pub length: u64,
    /// The epoch's last commit.
    pub parent: Option<ObjectId>,
}
