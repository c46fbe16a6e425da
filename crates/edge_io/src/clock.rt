//! The clock trait.
//! Pure.
ghost use Rattle.std.specs.Prelude.{◌≡◌, ℕ, Option, IfOk, OnOk, OnErr};
ghost use Rattle.arch_base.specs.Counts.{HasCause};
ghost use Rattle.arch_base.specs.Moments.{IsMoment};
ghost use Rattle.edge_io.specs.Coming.{Moments, IsFirstMoment, after_first};

use thiserror::Error;

/// A failed read of the clock. The clock's count of faults rose.
#[derive(Clone, Copy, Debug, PartialEq, Eq, Error)]
#[error("the clock failed")]
pub struct ClockFault;

/// A clock that gives moments in seconds since 1970 UTC.
pub trait Clock {
    /// The moments that the clock will still give, at least one, if the clock is told.
    ghost coming: { Self → Option Moments };

    /// The count of failed reads.
    ghost faults: { Self → ℕ };

    /// Returns the next moment, in seconds since 1970 UTC, up to the end of the year 9999.
    ///
    /// The moment is removed from those to come, unless it is the last. `ClockFault` leaves the
    /// moments to come unchanged, and the count of faults rose.
    fn now(&mut self) -> Result<u64, ClockFault>
        ensures moment { IfOk result IsMoment }
        ensures first { IfOk result (λ moment. IsFirstMoment moment (coming self.old)) }
        ensures rest { OnOk result (coming self.new ≡ after_first (coming self.old)) }
        ensures failed { OnErr result (coming self.new ≡ coming self.old) }
        ensures cause { HasCause (faults self.old) (faults self.new) result };
}
