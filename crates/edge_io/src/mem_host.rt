//! A host in memory.
//! Allocates.
ghost use Rattle.std.specs.Prelude.{◌≡◌, ◌≤◌, ◌++◌, ◌∷◌, [], ℕ, Some, List, All, length, IfOk, OnOk, OnErr};
ghost use Rattle.arch_base.specs.Counts.{HasCause};
ghost use Rattle.edge_io.specs.Taken.{TookBytes};
ghost use Rattle.edge_io.specs.Passing.{given_of, left_of};
ghost use Rattle.edge_io.specs.Hosts.{GaveEvent, SameEvents, OthersKept, untold};
ghost use Rattle.edge_io.specs.Frames.{Outputs};
ghost use Rattle.edge_io.specs.Listed.{raised, is_listed};
ghost use Rattle.edge_io.specs.MemHosts.{Hosting, outputs_in, IsNewHost, CountsCall, NextFails, SendFails, is_closed};
ghost use Rattle.edge_io.specs.Scripts.{IsArrival};

use crate::arrivals::Arrivals;
use crate::mem_source::is_listed;
use crate::outlets::Outlets;
use crate::{Event, Host, HostFault, Script};
use arch_base::{NoMemory, Numbers};
use std::alloc::Global;
use std::marker::Model;

/// A host in memory that gives the events of a script and fails the listed calls. It keeps what
/// each connection takes.
///
/// A `send` that runs out of memory fails too, and is counted separately.
#[derive(Drop)]
pub struct MemHost {
    arrivals: Arrivals,
    outlets: Outlets,
    listed: Numbers,
    calls: u64,
    faults: u64,
    starved: u64,
}

// A contract sees the events, the outputs, the listed ordinals, and the counts of calls, faults and
// failed allocations.
impl Model for MemHost {
    ghost use Rattle.edge_io.specs.MemHosts.{Hosting};

    ghost Value = { Hosting };

    ghost view = { λ s. record {
      events = s.arrivals;
      outgoing = s.outlets;
      listed = s.listed;
      calls = s.calls;
      faults = s.faults;
      starved = s.starved;
    } };
}

impl MemHost {
    /// Returns a host of a script's events.
    ///
    /// The calls of `next` and `send` whose ordinals, from 1 and over both, are among `faults`
    /// fail. A failed `send` takes nothing.
    pub fn new(alloc: Global, script: Script, faults: Numbers) -> Result<MemHost, NoMemory>
        requires { All IsArrival script }
        ensures { IfOk result (λ host. IsNewHost script faults host) }
    {
        let outlets = Outlets::new(alloc)?;
        Ok(MemHost {
            arrivals: Arrivals::new(script),
            outlets,
            listed: faults,
            calls: 0,
            faults: 0,
            starved: 0,
        })
    }

    /// Returns the bytes that a connection took. Allocates nothing.
    pub fn taken(&self, conn: u32) -> &[u8]
        ensures { Some result.now ≡ (outputs_in self.now.outgoing).taken conn }
    {
        self.outlets.taken(conn)
    }

    /// Returns whether a connection was closed, or `false` from connection 65,536 on. Allocates
    /// nothing.
    pub fn is_closed(&self, conn: u32) -> bool
        ensures { result ≡ is_closed ((outputs_in self.now.outgoing).closings conn) }
    {
        self.outlets.closings(conn) > 0
    }

    /// Returns the count of calls that ran out of memory.
    pub fn starved(&self) -> u64
        ensures { result ≡ self.now.starved }
    {
        self.starved
    }

    /// Counts a call, and returns whether it is listed.
    fn fails(&mut self) -> bool
        ensures listed { result ≡ is_listed self.old.listed self.old.calls }
        ensures counted { self.new ≡ record self.old { calls = raised self.old.calls } }
    {
        let fails = is_listed(&self.listed, self.calls);
        self.calls = self.calls.saturating_add(1);
        fails
    }
}

impl Host for MemHost {
    ghost left = { λ s. Some (left_of s.events) };

    ghost given = { λ s. Some (given_of s.events) };

    ghost taken = { λ s. (outputs_in s.outgoing).taken };

    ghost closings = { λ s. (outputs_in s.outgoing).closings };

    ghost recorded = { λ s past. Unit {0} };

    ghost faults = { λ s. s.faults };

    ghost lost = { λ s. s.outgoing.lost };

    ghost closed_at = { untold };

    fn next(&mut self, into: &mut [u8]) -> Result<Option<Event>, HostFault>
        requires { 1048576 ≤ length into.old }
        ensures gave { IfOk result (λ event. GaveEvent event into.new (Some (left_of self.old.events))
            (Some (left_of self.new.events)) (Some (given_of self.old.events))
            (Some (given_of self.new.events))) }
        ensures noted { (past : List Outputs) → Unit {0} → OnOk result (Unit {0}) }
        ensures failed_left { OnErr result
            (Some (left_of self.new.events) ≡ Some (left_of self.old.events)) }
        ensures failed_given { OnErr result
            (Some (given_of self.new.events) ≡ Some (given_of self.old.events)) }
        ensures failed_noted { (past : List Outputs) → Unit {0} → OnErr result (Unit {0}) }
        ensures taken { (conn : ℕ) → (outputs_in self.new.outgoing).taken conn
            ≡ (outputs_in self.old.outgoing).taken conn }
        ensures closings { (conn : ℕ) → (outputs_in self.new.outgoing).closings conn
            ≡ (outputs_in self.old.outgoing).closings conn }
        ensures cause { HasCause self.old.faults self.new.faults result }
        ensures lost { self.new.outgoing.lost ≡ self.old.outgoing.lost }
        ensures closed_at { (conn : ℕ) → untold self.new conn ≡ untold self.old conn }
        ensures fails { NextFails result self.old self.new }
        ensures counted { CountsCall self.old self.new }
    {
        if self.fails() {
            self.faults = self.faults.saturating_add(1);
            return Err(HostFault);
        }
        Ok(self.arrivals.next(into))
    }

    fn send(&mut self, conn: u32, bytes: &[u8]) -> Result<(), HostFault>
        ensures took { TookBytes result bytes.now ((outputs_in self.old.outgoing).taken conn)
            ((outputs_in self.new.outgoing).taken conn) }
        ensures others { OthersKept conn (outputs_in self.old.outgoing).taken
            (outputs_in self.new.outgoing).taken }
        ensures closings { (other : ℕ) → (outputs_in self.new.outgoing).closings other
            ≡ (outputs_in self.old.outgoing).closings other }
        ensures events { SameEvents (λ (s : Hosting). Some (left_of s.events))
            (λ (s : Hosting). Some (given_of s.events)) (λ (s : Hosting) past. Unit {0})
            (λ (s : Hosting). s.faults) self.old self.new }
        ensures cause { HasCause self.old.outgoing.lost self.new.outgoing.lost result }
        ensures closed_at { (other : ℕ) → untold self.new other ≡ untold self.old other }
        ensures untaken { OnErr result ((outputs_in self.new.outgoing).taken conn
            ≡ (outputs_in self.old.outgoing).taken conn) }
        ensures fails { SendFails result self.old self.new }
        ensures counted { CountsCall self.old self.new }
    {
        if self.fails() {
            self.outlets.lose();
            return Err(HostFault);
        }
        match self.outlets.send(conn, bytes) {
            Ok(()) => Ok(()),
            Err(NoMemory) => {
                self.starved = self.starved.saturating_add(1);
                Err(HostFault)
            }
        }
    }

    fn close(&mut self, conn: u32) {
        self.outlets.close(conn);
    }
}
