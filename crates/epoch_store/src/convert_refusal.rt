//! The errors of converting an archive.
//! Pure.
use arch_base::NoMemory;
use arch_model::OpenRefusal;
use disk_model::FileName;
use epoch_file::StoreRefusal;
use thiserror::Error;

/// Why an archive was not converted to SHA-256 ids.
#[derive(Debug, Drop, PartialEq, Eq, Error)]
pub enum ConvertRefusal {
    /// The archive is a mirror, whose form is its own.
    #[error("the archive is a mirror")]
    IsMirror,
    /// Its ids are SHA-256 already.
    #[error("the archive is converted already")]
    Already,
    /// The message with this number has the SHA-256 id of an earlier one, and another text.
    #[error("message {0} has the id of an earlier one")]
    Collision(u32),
    /// A call of the disk failed.
    #[error("the disk failed")]
    DiskFault,
    /// A call ran out of memory.
    #[error("out of memory")]
    NoMemory,
    /// A file isn't in its form.
    #[error("a file is damaged at {at}")]
    Damaged {
        /// The name of the file.
        file: FileName,
        /// The offset of the first part that isn't in form, in bytes.
        at: u64,
    },
    /// The archive had to be reopened, and could not be. A store, which is open, never tells this.
    #[error("the archive is not opened")]
    Open(OpenRefusal),
}

impl From<StoreRefusal> for ConvertRefusal {
    ghost use Rattle.std.specs.Prelude.{◌≡◌};
    ghost use Rattle.epoch_store.specs.Converting.{refused_by};

    ghost from_gives = { λ why e. e ≡ refused_by why };

    fn from(why: StoreRefusal) -> ConvertRefusal {
        match why {
            StoreRefusal::DiskFault => ConvertRefusal::DiskFault,
            StoreRefusal::NoMemory => ConvertRefusal::NoMemory,
            StoreRefusal::Damaged { file, at } => ConvertRefusal::Damaged { file, at },
        }
    }
}

impl From<NoMemory> for ConvertRefusal {
    ghost use Rattle.std.specs.Prelude.{◌≡◌};
    ghost use Rattle.epoch_store.specs.declared.convert_refusal.ConvertRefusal.{ConvertRefusal};

    ghost from_gives = { λ _ e. e ≡ ConvertRefusal.NoMemory };

    fn from(_refused: NoMemory) -> ConvertRefusal {
        ConvertRefusal::NoMemory
    }
}
