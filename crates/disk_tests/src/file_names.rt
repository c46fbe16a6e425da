//! Names of files that several tests use.
use disk_model::{FileKind, FileName};

/// A map.
pub const M: FileName = FileName {
    kind: FileKind::Map,
    number: 0,
    generation: 3,
};

/// An epoch.
pub const A: FileName = FileName {
    kind: FileKind::Epoch,
    number: 0,
    generation: 2,
};

/// Another epoch.
pub const B: FileName = FileName {
    kind: FileKind::Epoch,
    number: 1,
    generation: 1,
};
