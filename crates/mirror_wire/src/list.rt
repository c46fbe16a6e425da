//! Lists of mirrors, and why a text is none.
//! Pure.
use arch_base::{Name, NoMemory, Sequence};
use arch_model::EntryLine;
use thiserror::Error;

/// Entries without their texts, in the order of an archive.
pub type EntryLines = Sequence<EntryLine>;

/// The list of an archive, which a mirror reads: all of the archive but its settings and its texts.
#[derive(Debug, Drop)]
pub struct MirrorList {
    /// The name of the archive.
    pub name: Name,
    /// The number of its next message.
    pub next: u32,
    /// Its entries without their texts, in order.
    pub lines: EntryLines,
}

/// Why a text was not read as a list.
#[derive(Debug, Drop, PartialEq, Eq, Error)]
pub enum ListRefusal {
    /// The text is no list, and this is its first bad line, counted from 1.
    #[error("line {0} is bad")]
    BadList(u64),
    /// Out of memory.
    #[error("out of memory")]
    NoMemory,
}

impl From<NoMemory> for ListRefusal {
    ghost use Rattle.std.specs.Prelude.{◌≡◌};
    ghost use Rattle.mirror_wire.specs.declared.list.ListRefusal.TheVariants.{NoMemory};

    ghost from_gives = { λ _ e. e ≡ NoMemory };

    fn from(_refused: NoMemory) -> ListRefusal {
        ListRefusal::NoMemory
    }
}
