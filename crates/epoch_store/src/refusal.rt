//! The errors of creating an archive.
//! Pure.
use arch_base::NoMemory;
use disk_model::DiskFault;
use thiserror::Error;

/// Why an archive was not created.
#[derive(Debug, Drop, PartialEq, Eq, Error)]
pub enum InitRefusal {
    /// There is one already: a slot of its root is open.
    #[error("exists")]
    Exists,
    /// A call of the disk failed.
    #[error("the disk failed")]
    DiskFault,
    /// A call ran out of memory.
    #[error("out of memory")]
    NoMemory,
}

impl From<DiskFault> for InitRefusal {
    ghost use Rattle.std.specs.Prelude.{◌≡◌};
    ghost use Rattle.epoch_store.specs.declared.refusal.InitRefusal.{InitRefusal};

    ghost from_gives = { λ _ e. e ≡ InitRefusal.DiskFault };

    fn from(_fault: DiskFault) -> InitRefusal {
        InitRefusal::DiskFault
    }
}
