//! The source trait.
//! Pure.
ghost use Rattle.std.specs.Prelude.{◌≡◌, ◌≤◌, ◌<◌, ℕ, List, Option, length, IfOk, OnErr};
ghost use Rattle.arch_base.specs.Counts.{HasCause};
ghost use Rattle.edge_io.specs.Left.{GaveBytes};

use thiserror::Error;

/// A failed read. The source's count of faults rose.
#[derive(Clone, Copy, Debug, PartialEq, Eq, Error)]
#[error("the source failed")]
pub struct SourceFault;

/// A source that gives bytes in order.
pub trait Source {
    /// The remaining bytes, if the source is told.
    ghost left: { Self → Option (List ℕ) };

    /// The count of failed reads.
    ghost faults: { Self → ℕ };

    /// Reads into the front of a buffer, and returns the number of bytes read.
    ///
    /// Reads at least one byte, and returns 0 only if no bytes remain. The rest of `into` may have
    /// any content. `SourceFault` leaves the remaining bytes unchanged, if the source is told, and
    /// the count of faults rose.
    fn read(&mut self, into: &mut [u8]) -> Result<usize, SourceFault>
        requires { 0 < length into.old }
        ensures within { IfOk result (λ count. count ≤ length into.new) }
        ensures gave { IfOk result (λ count. GaveBytes count into.new (left self.old) (left self.new)) }
        ensures failed { OnErr result (left self.new ≡ left self.old) }
        ensures cause { HasCause (faults self.old) (faults self.new) result };
}
