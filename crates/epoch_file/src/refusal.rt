//! The errors of calls on stored files.
//! Pure.
use arch_base::NoMemory;
use disk_model::{DiskFault, FileName};
use thiserror::Error;

/// Why a call on stored files failed.
#[derive(Debug, Drop, PartialEq, Eq, Error)]
pub enum StoreRefusal {
    /// A call of the disk failed.
    #[error("the disk failed")]
    DiskFault,
    /// A call ran out of memory.
    #[error("out of memory")]
    NoMemory,
    /// A file isn't in its form.
    #[error("a file is damaged at {at}")]
    Damaged {
        /// The name of the file.
        file: FileName,
        /// The offset of the first part that isn't in form, in bytes.
        at: u64,
    },
}

impl From<DiskFault> for StoreRefusal {
    ghost use Rattle.std.specs.Prelude.{◌≡◌};
    ghost use Rattle.epoch_file.specs.declared.refusal.StoreRefusal.{StoreRefusal};

    ghost from_gives = { λ _ e. e ≡ StoreRefusal.DiskFault };

    fn from(_fault: DiskFault) -> StoreRefusal {
        StoreRefusal::DiskFault
    }
}

impl From<NoMemory> for StoreRefusal {
    ghost use Rattle.std.specs.Prelude.{◌≡◌};
    ghost use Rattle.epoch_file.specs.declared.refusal.StoreRefusal.{StoreRefusal};

    ghost from_gives = { λ _ e. e ≡ StoreRefusal.NoMemory };

    fn from(_refused: NoMemory) -> StoreRefusal {
        StoreRefusal::NoMemory
    }
}
