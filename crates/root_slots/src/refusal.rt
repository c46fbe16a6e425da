//! The errors of reading the root.
//! Pure.
use disk_model::DiskFault;
use thiserror::Error;

/// Why the root file was not read.
#[derive(Clone, Copy, Debug, PartialEq, Eq, Error)]
pub enum RootRefusal {
    /// A call of the disk failed.
    #[error("the disk failed")]
    DiskFault,
    /// The body of the current slot spells no root.
    #[error("damaged root at {at}")]
    Damaged {
        /// The offset of the slot's body, 1024 or 2560.
        at: u64,
    },
}

impl From<DiskFault> for RootRefusal {
    ghost use Rattle.std.specs.Prelude.{◌≡◌};
    ghost use Rattle.root_slots.specs.declared.refusal.RootRefusal.{RootRefusal};

    ghost from_gives = { λ _ e. e ≡ RootRefusal.DiskFault };

    fn from(_fault: DiskFault) -> RootRefusal {
        RootRefusal::DiskFault
    }
}
