//! Why the entries of the epochs aren't joined to the records of the map.
//! Pure.
use arch_base::NoMemory;
use thiserror::Error;

/// Why the entries of an epoch weren't joined to the records of the map.
#[derive(Debug, Drop, PartialEq, Eq, Error)]
pub(crate) enum JoinRefusal {
    /// A call ran out of memory.
    #[error("out of memory")]
    NoMemory,
    /// The disk failed while a text was read.
    #[error("the disk failed")]
    DiskFault,
    /// An entry can't be the next one.
    #[error("the entry at {at} does not belong there")]
    Damaged {
        /// The offset of the entry in its epoch's file, in bytes.
        at: u64,
    },
}

impl From<NoMemory> for JoinRefusal {
    ghost use Rattle.std.specs.Prelude.{◌≡◌};
    ghost use Rattle.store_finding.specs.declared.join_refusal.JoinRefusal.{JoinRefusal};

    ghost from_gives = { λ _ e. e ≡ JoinRefusal.NoMemory };

    fn from(_refused: NoMemory) -> JoinRefusal {
        JoinRefusal::NoMemory
    }
}

/// The map has a message that is in no epoch.
#[derive(Clone, Copy, Debug, Drop, PartialEq, Eq, Error)]
#[error("a message is not in epoch {epoch}")]
pub(crate) struct Unmatched {
    /// The epoch of the first such message, by the map.
    pub epoch: u32,
}
