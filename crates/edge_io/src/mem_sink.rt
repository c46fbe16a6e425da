//! A sink in memory.
//! Allocates.
ghost use Rattle.std.specs.Prelude.{◌≡◌, ◌-◌, [], Some, refl};
ghost use Rattle.arch_base.specs.Counts.{HasCause};
ghost use Rattle.edge_io.specs.Taken.{TookBytes};
ghost use Rattle.edge_io.specs.MemSinks.{SinkState, SinkWrites};

use crate::mem_source::is_listed;
use crate::{Sink, SinkFault};
use arch_base::{Bytes, Numbers};
use std::alloc::Global;
use std::marker::Model;

/// A sink in memory that fails the listed writes.
///
/// A write that runs out of memory fails too, and is counted separately.
#[derive(Drop)]
pub struct MemSink {
    bytes: Bytes,
    listed: Numbers,
    calls: u64,
    faults: u64,
    starved: u64,
}

// A contract sees the bytes, the listed ordinals, and the counts of calls, faults and failed
// allocations. If no ordinal is listed, every fault is a failed allocation.
impl Model for MemSink {
    ghost use Rattle.std.specs.Prelude.{◌≡◌, []};
    ghost use Rattle.edge_io.specs.MemSinks.{SinkState};

    ghost Value = { SinkState };

    ghost view = { λ s. record {
      taken = s.bytes;
      listed = s.listed;
      calls = s.calls;
      faults = s.faults;
      starved = s.starved;
    } };

    ghost invariant = { λ s. s.listed ≡ [] → s.starved ≡ s.faults };
}

impl MemSink {
    /// Returns an empty sink that fails the writes whose ordinals, from 1, are among `faults`.
    pub fn new(alloc: Global, faults: Numbers) -> Self
        ensures { result
            ≡ record { taken = []; listed = faults; calls = 0; faults = 0; starved = 0 } }
    {
        MemSink {
            bytes: Bytes::new(alloc),
            listed: faults,
            calls: 0,
            faults: 0,
            starved: 0,
        }
    }

    /// Returns the bytes that were taken.
    pub fn taken(&self) -> &[u8]
        ensures { result.now ≡ self.now.taken }
    {
        self.bytes.as_slice()
    }

    /// Returns the count of writes that ran out of memory.
    ///
    /// If no ordinal is listed, this is the count of all failed writes.
    pub fn starved(&self) -> u64
        ensures value { result ≡ self.now.starved }
        ensures only { self.now.listed ≡ [] → result ≡ self.now.faults }
    {
        self.starved
    }

    /// Removes the bytes that were taken, and keeps the counts.
    pub fn clear(&mut self)
        ensures { self.new ≡ record self.old { taken = [] } }
    {
        self.bytes.truncate(0);
    }
}

impl Sink for MemSink {
    ghost taken = { λ s. Some s.taken };

    ghost faults = { λ s. s.faults };

    ghost alike = { λ s t. t.listed ≡ s.listed };

    ghost alike_same = { λ s. refl };

    fn write(&mut self, bytes: &[u8]) -> Result<(), SinkFault>
        ensures took { TookBytes result bytes.now (Some self.old.taken) (Some self.new.taken) }
        ensures cause { HasCause self.old.faults self.new.faults result }
        ensures alike { self.new.listed ≡ self.old.listed }
        ensures writes { SinkWrites result bytes.now self.old self.new }
    {
        let fails = is_listed(&self.listed, self.calls);
        self.calls = self.calls.saturating_add(1);
        if fails {
            self.faults = self.faults.saturating_add(1);
            return Err(SinkFault);
        }
        if self.bytes.push_slice(bytes).is_err() {
            self.faults = self.faults.saturating_add(1);
            self.starved = self.starved.saturating_add(1);
            return Err(SinkFault);
        }
        Ok(())
    }

    ghost use Rattle.std.proofs.Common.{◌∙◌};

    ghost alike_joined = { λ s t u p q. q ∙ p };
}
