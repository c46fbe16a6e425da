//! A clock in memory.
//! Allocates.
ghost use Rattle.std.specs.Prelude.{◌≡◌, ◌<◌, ◌+◌, ◌-◌, Some, length, min, All, IfOk, OnOk, OnErr};
ghost use Rattle.arch_base.specs.Counts.{HasCause};
ghost use Rattle.arch_base.specs.Moments.{IsMoment};
ghost use Rattle.edge_io.specs.Coming.{IsFirstMoment, after_first, moments_of};
ghost use Rattle.edge_io.specs.Listed.{is_listed};
ghost use Rattle.edge_io.specs.MemClocks.{Ticking, Ticks};

use crate::mem_source::is_listed;
use crate::{Clock, ClockFault};
use arch_base::Numbers;
use std::alloc::Global;
use std::marker::Model;

/// A clock in memory that fails the listed calls. It allocates nothing.
#[derive(Drop)]
pub struct MemClock {
    moments: Numbers,
    at: usize,
    listed: Numbers,
    calls: u64,
    faults: u64,
}

// A contract sees the moments to come, the listed ordinals, and the counts of calls and faults.
impl Model for MemClock {
    ghost use Rattle.std.specs.Prelude.{◌<◌, length, drop, All};
    ghost use Rattle.arch_base.specs.Moments.{IsMoment};
    ghost use Rattle.edge_io.specs.Coming.{moments_of};
    ghost use Rattle.edge_io.specs.MemClocks.{Ticking};

    ghost Value = { Ticking };

    ghost view = { λ s. record {
      coming = moments_of (drop s.at s.moments);
      listed = s.listed;
      calls = s.calls;
      faults = s.faults;
    } };

    ghost invariant = { λ s. (s.at < length s.moments) × All IsMoment s.moments };
}

impl MemClock {
    /// Returns a clock of these moments.
    ///
    /// Calls whose ordinals, from 1, are among `faults` fail. After its last moment, the clock
    /// repeats that moment.
    pub fn new(_alloc: Global, moments: Numbers, faults: Numbers) -> Self
        requires some { 0 < length moments }
        requires each { All IsMoment moments }
        ensures { result
            ≡ record { coming = moments_of moments; listed = faults; calls = 0; faults = 0 } }
    {
        MemClock {
            moments,
            at: 0,
            listed: faults,
            calls: 0,
            faults: 0,
        }
    }

    /// Returns the count of calls that ran out of memory, which is 0: the clock allocates nothing.
    pub fn starved(&self) -> u64
        ensures { result ≡ 0 }
    {
        0
    }
}

impl Clock for MemClock {
    ghost coming = { λ s. Some s.coming };

    ghost faults = { λ s. s.faults };

    fn now(&mut self) -> Result<u64, ClockFault>
        ensures moment { IfOk result IsMoment }
        ensures first { IfOk result (λ moment. IsFirstMoment moment (Some self.old.coming)) }
        ensures rest { OnOk result (Some self.new.coming ≡ after_first (Some self.old.coming)) }
        ensures failed { OnErr result (Some self.new.coming ≡ Some self.old.coming) }
        ensures cause { HasCause self.old.faults self.new.faults result }
        ensures ticks { Ticks result self.old self.new }
    {
        let fails = is_listed(&self.listed, self.calls);
        self.calls = self.calls.saturating_add(1);
        if fails {
            self.faults = self.faults.saturating_add(1);
            return Err(ClockFault);
        }
        let moments = self.moments.as_slice();
        let moment = moments[self.at];
        self.at = (self.at + 1).min(moments.len() - 1);
        Ok(moment)
    }
}
