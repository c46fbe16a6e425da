//! Why the text of an entry could not be read.
//! Pure.
use arch_base::{NoMemory, ObjectId};
use disk_model::DiskFault;
use thiserror::Error;

/// The reason why the text of an entry could not be read.
#[derive(Debug, Drop, PartialEq, Eq, Error)]
pub enum TextRefusal {
    /// A call of the disk failed.
    #[error("the disk failed")]
    DiskFault,
    /// The bytes in the text's place are not the text.
    #[error("the text is damaged")]
    Damaged {
        /// The id of the entry's blob.
        named: ObjectId,
        /// The id of a blob with the bytes that were found.
        found: ObjectId,
    },
    /// An allocation failed.
    #[error("out of memory")]
    NoMemory,
}

impl From<DiskFault> for TextRefusal {
    ghost use Rattle.std.specs.Prelude.{◌≡◌};
    ghost use Rattle.arch_model.specs.declared.text_refusal.TextRefusal.{TextRefusal};

    ghost from_gives = { λ _ e. e ≡ TextRefusal.DiskFault };

    fn from(_fault: DiskFault) -> TextRefusal {
        TextRefusal::DiskFault
    }
}

impl From<NoMemory> for TextRefusal {
    ghost use Rattle.std.specs.Prelude.{◌≡◌};
    ghost use Rattle.arch_model.specs.declared.text_refusal.TextRefusal.{TextRefusal};

    ghost from_gives = { λ _ e. e ≡ TextRefusal.NoMemory };

    fn from(_refused: NoMemory) -> TextRefusal {
        TextRefusal::NoMemory
    }
}
