//! The names of files.
//! Pure.

/// What a file is for. Kinds are ordered as declared here, and file names by kind first.
#[derive(Clone, Copy, Debug, PartialEq, Eq, PartialOrd, Ord)]
pub enum FileKind {
    /// The file with the archive's root.
    Root,
    /// The file with one record for each number of the archive.
    Map,
    /// A file with the objects of an epoch.
    Epoch,
    /// A file from which views are read again.
    Cache,
}

/// The name of a file, ordered by kind, then number, then generation.
#[derive(Clone, Copy, Debug, PartialEq, Eq, PartialOrd, Ord)]
pub struct FileName {
    /// What the file is for.
    pub kind: FileKind,
    /// The number among the files of its kind, such as the number of an epoch.
    pub number: u32,
    /// The generation: a file that is rewritten gets another one.
    pub generation: u64,
}
