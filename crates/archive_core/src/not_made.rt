//! A disk that is handed back because no archive was created or opened on it.
//! Pure.
use arch_model::OpenRefusal;
use epoch_store::InitRefusal;

/// A disk on which no archive was created, and why.
#[derive(Drop)]
pub struct NotMade<D> {
    /// The disk.
    pub disk: D,
    /// Why no archive was created.
    pub why: InitRefusal,
}

/// A disk whose archive was not opened, and why.
#[derive(Drop)]
pub struct NotOpened<D> {
    /// The disk.
    pub disk: D,
    /// Why the archive was not opened.
    pub why: OpenRefusal,
}
