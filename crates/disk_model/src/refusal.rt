//! The errors of reading a file through.
//! Pure.
use crate::DiskFault;
use arch_base::NoMemory;
use thiserror::Error;

/// Why a file was not read to its end.
#[derive(Debug, Drop, PartialEq, Eq, Error)]
pub enum WalkRefusal {
    /// A call of the disk failed.
    #[error("the disk failed")]
    DiskFault,
    /// The file isn't in its form.
    #[error("damaged at {at}")]
    Damaged {
        /// The offset of the first part that isn't in form, in bytes.
        at: u64,
    },
    /// A call ran out of memory.
    #[error("out of memory")]
    NoMemory,
}

impl From<DiskFault> for WalkRefusal {
    ghost use Rattle.std.specs.Prelude.{◌≡◌};
    ghost use Rattle.disk_model.specs.declared.refusal.WalkRefusal.{WalkRefusal};

    ghost from_gives = { λ _ e. e ≡ WalkRefusal.DiskFault };

    fn from(_fault: DiskFault) -> WalkRefusal {
        WalkRefusal::DiskFault
    }
}

impl From<NoMemory> for WalkRefusal {
    ghost use Rattle.std.specs.Prelude.{◌≡◌};
    ghost use Rattle.disk_model.specs.declared.refusal.WalkRefusal.{WalkRefusal};

    ghost from_gives = { λ _ e. e ≡ WalkRefusal.NoMemory };

    fn from(_refused: NoMemory) -> WalkRefusal {
        WalkRefusal::NoMemory
    }
}
