//! The plan of a disk in memory: which of its calls fail.
//! Pure.
ghost use Rattle.std.specs.Prelude.{◌≡◌, ◌≤◌, true};
ghost use Rattle.arch_base.specs.Counts.{Rose};

use arch_base::Numbers;

/// The calls that are to fail, and counts of the calls so far.
#[derive(Drop)]
pub struct Plan {
    /// The ordinals of the calls that are to fail, from 1.
    pub listed: Numbers,
    /// The number of calls.
    pub calls: u64,
    /// The number of failed calls.
    pub faults: u64,
    /// The number of calls that failed because they ran out of memory.
    pub starved: u64,
}

impl Plan {
    ghost use Rattle.disk_model.specs.Plan.{PlanStarts, Counts, Starves};

    /// Creates a plan by which the calls with the listed ordinals fail.
    pub fn new(listed: Numbers) -> Plan
        ensures { PlanStarts listed result }
    {
        Plan {
            listed,
            calls: 0,
            faults: 0,
            starved: 0,
        }
    }

    /// Counts a call, and returns whether it is to fail.
    ///
    /// A call that is to fail counts as a fault too.
    pub fn fails(&mut self) -> bool
        ensures counts { Counts self.old result self.new }
        ensures later { self.old.faults ≤ self.new.faults }
        ensures rose { result ≡ true → Rose self.old.faults self.new.faults }
    {
        self.calls = self.calls.saturating_add(1);
        if self.listed.as_slice().contains(&self.calls) {
            self.faults = self.faults.saturating_add(1);
            return true;
        }
        false
    }

    /// Counts a fault of a call that ran out of memory.
    pub fn starve(&mut self)
        ensures starves { Starves self.old self.new }
        ensures later { self.old.faults ≤ self.new.faults }
        ensures rose { Rose self.old.faults self.new.faults }
    {
        self.faults = self.faults.saturating_add(1);
        self.starved = self.starved.saturating_add(1);
    }
}
