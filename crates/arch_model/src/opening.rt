//! Why an archive on a disk could not be opened.
//! Pure.
use crate::answer::Answer;
use arch_base::NoMemory;
use disk_model::{DiskFault, FileKind, FileName};
use thiserror::Error;

/// The reason why an archive on a disk could not be opened.
#[derive(Debug, Drop, PartialEq, Eq, Error)]
pub enum OpenRefusal {
    /// There is no archive: no slot of the root is open.
    #[error("no archive")]
    NoArchive,
    /// A file of the archive is malformed.
    #[error("a file is damaged at {at}")]
    Damaged {
        /// The file.
        file: FileName,
        /// The offset of the first malformed part, in bytes.
        at: u64,
    },
    /// A call of the disk failed.
    #[error("the disk failed")]
    DiskFault,
    /// An allocation failed.
    #[error("out of memory")]
    NoMemory,
}

impl OpenRefusal {
    ghost use Rattle.std.specs.Prelude.{◌≡◌};
    ghost use Rattle.arch_model.specs.Keeping.{opening_answer};

    /// Returns the answer to a command whose archive could not be reopened. Without an archive the
    /// root is damaged, at its start.
    pub fn answer(&self) -> Answer
        ensures { result ≡ opening_answer self.now }
    {
        match self {
            OpenRefusal::NoArchive => Answer::Damaged {
                file: FileName {
                    kind: FileKind::Root,
                    number: 0,
                    generation: 0,
                },
                at: 0,
            },
            OpenRefusal::Damaged { file, at } => Answer::Damaged {
                file: *file,
                at: *at,
            },
            OpenRefusal::DiskFault => Answer::DiskFault,
            OpenRefusal::NoMemory => Answer::NoMemory,
        }
    }
}

impl From<DiskFault> for OpenRefusal {
    ghost use Rattle.std.specs.Prelude.{◌≡◌};
    ghost use Rattle.arch_model.specs.declared.opening.OpenRefusal.{OpenRefusal};

    ghost from_gives = { λ _ e. e ≡ OpenRefusal.DiskFault };

    fn from(_fault: DiskFault) -> OpenRefusal {
        OpenRefusal::DiskFault
    }
}

impl From<NoMemory> for OpenRefusal {
    ghost use Rattle.std.specs.Prelude.{◌≡◌};
    ghost use Rattle.arch_model.specs.declared.opening.OpenRefusal.{OpenRefusal};

    ghost from_gives = { λ _ e. e ≡ OpenRefusal.NoMemory };

    fn from(_refused: NoMemory) -> OpenRefusal {
        OpenRefusal::NoMemory
    }
}
