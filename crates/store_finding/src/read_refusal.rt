//! The errors of reading names and bytes.
//! Pure.
use arch_base::NoMemory;
use disk_model::DiskFault;
use thiserror::Error;

/// Why names or bytes of files weren't read. They aren't checked, so nothing is damaged.
#[derive(Debug, Drop, PartialEq, Eq, Error)]
pub enum ReadRefusal {
    /// A call of the disk failed.
    #[error("the disk failed")]
    DiskFault,
    /// A call ran out of memory.
    #[error("out of memory")]
    NoMemory,
}

impl From<DiskFault> for ReadRefusal {
    ghost use Rattle.std.specs.Prelude.{◌≡◌};
    ghost use Rattle.store_finding.specs.declared.read_refusal.ReadRefusal.{ReadRefusal};

    ghost from_gives = { λ _ e. e ≡ ReadRefusal.DiskFault };

    fn from(_fault: DiskFault) -> ReadRefusal {
        ReadRefusal::DiskFault
    }
}

impl From<NoMemory> for ReadRefusal {
    ghost use Rattle.std.specs.Prelude.{◌≡◌};
    ghost use Rattle.store_finding.specs.declared.read_refusal.ReadRefusal.{ReadRefusal};

    ghost from_gives = { λ _ e. e ≡ ReadRefusal.NoMemory };

    fn from(_refused: NoMemory) -> ReadRefusal {
        ReadRefusal::NoMemory
    }
}
