//! A source in memory.
//! Allocates.
ghost use Rattle.std.specs.Prelude.{◌≡◌, ◌≤◌, ◌<◌, ◌+◌, ◌-◌, Some, length, IfOk, OnErr};
ghost use Rattle.arch_base.specs.Counts.{HasCause};
ghost use Rattle.edge_io.specs.Left.{GaveBytes};
ghost use Rattle.edge_io.specs.Listed.{is_listed};
ghost use Rattle.edge_io.specs.MemSources.{SourceState, SourceReads};

use crate::{Source, SourceFault};
use arch_base::{Bytes, Numbers};
use std::alloc::Global;
use std::marker::Model;

/// A source in memory that fails the listed reads. It allocates nothing.
#[derive(Drop)]
pub struct MemSource {
    bytes: Bytes,
    at: usize,
    listed: Numbers,
    calls: u64,
    faults: u64,
}

// A contract sees the remaining bytes, the listed ordinals, and the counts of calls and faults.
impl Model for MemSource {
    ghost use Rattle.std.specs.Prelude.{◌≤◌, length, drop};
    ghost use Rattle.edge_io.specs.MemSources.{SourceState};

    ghost Value = { SourceState };

    ghost view = { λ s. record {
      left = drop s.at s.bytes;
      listed = s.listed;
      calls = s.calls;
      faults = s.faults;
    } };

    ghost invariant = { λ s. s.at ≤ length s.bytes };
}

impl MemSource {
    /// Returns a source of these bytes that fails the reads whose ordinals, from 1, are among
    /// `faults`.
    pub fn new(_alloc: Global, bytes: Bytes, faults: Numbers) -> Self
        ensures { result ≡ record { left = bytes; listed = faults; calls = 0; faults = 0 } }
    {
        MemSource {
            bytes,
            at: 0,
            listed: faults,
            calls: 0,
            faults: 0,
        }
    }

    /// Returns the count of calls that ran out of memory, which is 0: the source allocates nothing.
    pub fn starved(&self) -> u64
        ensures { result ≡ 0 }
    {
        0
    }
}

impl Source for MemSource {
    ghost left = { λ s. Some s.left };

    ghost faults = { λ s. s.faults };

    fn read(&mut self, into: &mut [u8]) -> Result<usize, SourceFault>
        requires { 0 < length into.old }
        ensures within { IfOk result (λ count. count ≤ length into.new) }
        ensures gave { IfOk result (λ count.
            GaveBytes count into.new (Some self.old.left) (Some self.new.left)) }
        ensures failed { OnErr result (Some self.new.left ≡ Some self.old.left) }
        ensures cause { HasCause self.old.faults self.new.faults result }
        ensures reads { SourceReads result into.old into.new self.old self.new }
    {
        let fails = is_listed(&self.listed, self.calls);
        self.calls = self.calls.saturating_add(1);
        if fails {
            self.faults = self.faults.saturating_add(1);
            return Err(SourceFault);
        }
        let left = &self.bytes.as_slice()[self.at..];
        let count = left.len().min(into.len());
        into[..count].copy_from_slice(&left[..count]);
        self.at += count;
        Ok(count)
    }
}

/// Returns whether the call after `calls` earlier calls is listed, by its ordinal from 1.
pub(crate) fn is_listed(listed: &Numbers, calls: u64) -> bool
    ensures { result ≡ is_listed listed.now calls }
{
    let ordinals = listed.as_slice();
    match calls.checked_add(1) {
        Some(ordinal) => ordinals.contains(&ordinal),
        None => false,
    }
}
