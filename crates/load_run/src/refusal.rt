//! Why a load run ended early.
//! Pure.
use thiserror::Error;

/// The reason why a load run ended early.
#[derive(Debug, Drop, PartialEq, Eq, Error)]
pub enum LoadRefusal {
    /// An allocation failed.
    #[error("out of memory")]
    NoMemory,
    /// A call of the disk failed.
    #[error("the disk failed")]
    DiskFault,
    /// A file of the archive is malformed or missing.
    #[error("the archive is damaged")]
    Damaged,
}
