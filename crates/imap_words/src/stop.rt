//! Why nothing is read.
//! Pure.
use arch_base::NoMemory;
use std::alloc::AllocFailed;
use thiserror::Error;

/// Why nothing is read from some octets.
#[derive(Debug, Drop, PartialEq, Eq, Error)]
pub enum Stop {
    /// The octets aren't of the grammar.
    #[error("bad syntax")]
    Bad,
    /// An allocation failed.
    #[error("out of memory")]
    NoMemory,
}

impl From<NoMemory> for Stop {
    ghost use Rattle.std.specs.Prelude.{◌≡◌};
    ghost use Rattle.imap_words.specs.declared.stop.Stop.TheVariants.{NoMemory};

    ghost from_gives = { λ _ e. e ≡ NoMemory };

    fn from(_refused: NoMemory) -> Stop {
        Stop::NoMemory
    }
}

impl<T: Drop> From<AllocFailed<T>> for Stop {
    ghost use Rattle.std.specs.Prelude.{◌≡◌};
    ghost use Rattle.imap_words.specs.declared.stop.Stop.TheVariants.{NoMemory};

    ghost from_gives = { λ _ e. e ≡ NoMemory };

    fn from(_refused: AllocFailed<T>) -> Stop {
        Stop::NoMemory
    }
}
