//! The sink trait.
//! Pure.
ghost use Rattle.std.specs.Prelude.{ℕ, List, Option};
ghost use Rattle.arch_base.specs.Counts.{HasCause};
ghost use Rattle.edge_io.specs.Taken.{TookBytes};

use thiserror::Error;

/// A failed write. The sink's count of faults rose.
#[derive(Clone, Copy, Debug, PartialEq, Eq, Error)]
#[error("the sink failed")]
pub struct SinkFault;

/// A sink that takes bytes in order.
pub trait Sink {
    /// The bytes that were taken, if the sink is told.
    ghost taken: { Self → Option (List ℕ) };

    /// The count of failed writes.
    ghost faults: { Self → ℕ };

    /// A relation of two states that holds if a write may lead from one to the other. It says what
    /// a write leaves unchanged.
    ghost alike: { Self → Self → Type 0 };

    /// Writes all bytes.
    ///
    /// `SinkFault` if a prefix of the bytes, which may be empty or whole, was taken. The count of
    /// faults rose.
    fn write(&mut self, bytes: &[u8]) -> Result<(), SinkFault>
        ensures took { TookBytes result bytes.now (taken self.old) (taken self.new) }
        ensures cause { HasCause (faults self.old) (faults self.new) result }
        ensures alike { alike self.old self.new };

    /// The relation leads from each state to itself.
    ghost alike_same: { (s : Self) → alike s s };

    /// Two steps of the relation in order are one.
    ghost alike_joined: { (s t u : Self) → alike s t → alike t u → alike s u };
}
