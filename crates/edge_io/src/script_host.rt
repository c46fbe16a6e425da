//! A host over a script, which collects frames.
//! Allocates.
ghost use Rattle.std.specs.Prelude.{◌≡◌, ◌≤◌, ◌<◌, ◌++◌, ◌∷◌, [], ℕ, Some, List, All, length, IfOk, OnOk, OnErr, IsOk};
ghost use Rattle.arch_base.specs.Counts.{HasCause};
ghost use Rattle.edge_io.specs.Taken.{TookBytes};
ghost use Rattle.edge_io.specs.Frames.{Outputs, event_frame, frames_of, FirstFrames};
ghost use Rattle.edge_io.specs.Listed.{raised};
ghost use Rattle.edge_io.specs.MemHosts.{outputs_in};
ghost use Rattle.edge_io.specs.Passing.{given_of, left_of};
ghost use Rattle.edge_io.specs.Hosts.{GaveEvent, SameEvents, OthersKept, untold};
ghost use Rattle.edge_io.specs.ScriptHosts.{Scripting, Recorded, IsNewScriptHost, AgreeOn, Collected, begun_of};
ghost use Rattle.edge_io.specs.Scripts.{IsArrival};

use crate::arrivals::Arrivals;
use crate::frames::{push_all_closings, push_all_written};
use crate::marks::{Mark, Touched, mark_all, new_marks};
use crate::outlets::Outlets;
use crate::{Event, Host, HostFault, Script};
use arch_base::{Bytes, NoMemory};
use std::alloc::Global;
use std::marker::Model;

/// A host that gives the events of a script, and collects the frames of what they write.
#[derive(Drop)]
pub struct ScriptHost {
    alloc: Global,
    arrivals: Arrivals,
    outlets: Outlets,
    marks: Vec<Mark>,
    touched: Touched,
    frames: Bytes,
    starved: u64,
}

// A contract sees the events, the outputs now and when the last event was given, the frames, and
// the count of calls that ran out of memory.
impl Model for ScriptHost {
    ghost use Rattle.std.specs.Prelude.{◌≤◌};
    ghost use Rattle.edge_io.specs.MemHosts.{outputs_in};
    ghost use Rattle.edge_io.specs.ScriptHosts.{Scripting, AreMarked};

    ghost Value = { Scripting };

    ghost view = { λ s. record {
      events = s.arrivals;
      outgoing = s.outlets;
      marks = s.marks.items;
      frames = s.frames;
      starved = s.starved;
    } };

    ghost invariant = { λ s. AreMarked (outputs_in s.outlets) s.marks.items s.touched
        × (s.outlets.lost ≤ s.starved) };
}

impl ScriptHost {
    /// Returns a host of a script's events.
    pub fn new(alloc: Global, script: Script) -> Result<ScriptHost, NoMemory>
        requires { All IsArrival script }
        ensures { IfOk result (λ host. IsNewScriptHost script host) }
    {
        let outlets = Outlets::new(alloc)?;
        let marks = new_marks(alloc)?;
        Ok(ScriptHost {
            alloc,
            arrivals: Arrivals::new(script),
            outlets,
            marks,
            touched: Touched::none(),
            frames: Bytes::new(alloc),
            starved: 0,
        })
    }

    /// Returns the count of calls that ran out of memory. Every lost call is one of them.
    pub fn starved(&self) -> u64
        ensures value { result ≡ self.now.starved }
        ensures lost { self.now.outgoing.lost ≤ result }
    {
        self.starved
    }

    /// Returns the frames of all events before the last one that `next` gave, or of all events if
    /// the last call of `next` returned `None`.
    ///
    /// If a call ran out of memory, these are the frames of the first few events, and end before
    /// the event in which that happened. Allocates nothing.
    pub fn into_frames(self) -> Bytes
        ensures whole { (past : List Outputs) → Recorded self past → self.starved ≡ 0
            → result ≡ frames_of past }
        ensures first { (past : List Outputs) → Recorded self past → FirstFrames past result }
    {
        let ScriptHost { frames, .. } = self;
        frames
    }

    /// Appends the frames of the current event, and begins the next one. None of them is appended if
    /// memory runs out, or did before.
    fn end_event(&mut self)
        ensures events { self.new.events ≡ self.old.events }
        ensures outgoing { self.new.outgoing ≡ self.old.outgoing }
        ensures begun { (conn : ℕ) → conn < 65536
            → AgreeOn (begun_of self.new) (outputs_in self.old.outgoing) conn }
        ensures collected { Collected self.old self.new }
    {
        self.collect();
        mark_all(&mut self.marks, &self.outlets, self.touched);
        self.touched = Touched::none();
    }

    /// Appends the frames of the current event, or none of them if memory runs out, or did before.
    fn collect(&mut self)
        ensures events { self.new.events ≡ self.old.events }
        ensures outgoing { self.new.outgoing ≡ self.old.outgoing }
        ensures marks { self.new.marks ≡ self.old.marks }
        ensures collected { Collected self.old self.new }
    {
        if self.starved == 0 && self.push_frame().is_err() {
            self.starved = 1;
        }
    }

    /// Appends the frames of the current event.
    ///
    /// `NoMemory` leaves the frames unchanged.
    fn push_frame(&mut self) -> Result<(), NoMemory>
        ensures ok { OnOk result (self.new ≡ record self.old {
          frames = self.old.frames ++ event_frame (begun_of self.old) (outputs_in self.old.outgoing);
        }) }
        ensures err { OnErr result (self.new ≡ self.old) }
    {
        let frame = self.frame()?;
        self.frames.push_slice(frame.as_slice())
    }

    /// Returns the frames of the current event.
    fn frame(&self) -> Result<Bytes, NoMemory>
        ensures { IfOk result (λ frame.
            frame ≡ event_frame (begun_of self.now) (outputs_in self.now.outgoing)) }
    {
        let mut frame = Bytes::new(self.alloc);
        push_all_written(
            self.alloc,
            &mut frame,
            &self.outlets,
            self.marks.as_slice(),
            self.touched,
        )?;
        push_all_closings(
            self.alloc,
            &mut frame,
            &self.outlets,
            self.marks.as_slice(),
            self.touched,
        )?;
        Ok(frame)
    }
}

impl Host for ScriptHost {
    ghost left = { λ s. Some (left_of s.events) };

    ghost given = { λ s. Some (given_of s.events) };

    ghost taken = { λ s. (outputs_in s.outgoing).taken };

    ghost closings = { λ s. (outputs_in s.outgoing).closings };

    ghost recorded = { Recorded };

    ghost faults = { λ s. 0 };

    ghost lost = { λ s. s.outgoing.lost };

    ghost closed_at = { untold };

    fn next(&mut self, into: &mut [u8]) -> Result<Option<Event>, HostFault>
        requires { 1048576 ≤ length into.old }
        ensures gave { IfOk result (λ event. GaveEvent event into.new (Some (left_of self.old.events))
            (Some (left_of self.new.events)) (Some (given_of self.old.events))
            (Some (given_of self.new.events))) }
        ensures noted { (past : List Outputs) → Recorded self.old past
            → OnOk result (Recorded self.new (past ++ outputs_in self.old.outgoing ∷ [])) }
        ensures failed_left { OnErr result
            (Some (left_of self.new.events) ≡ Some (left_of self.old.events)) }
        ensures failed_given { OnErr result
            (Some (given_of self.new.events) ≡ Some (given_of self.old.events)) }
        ensures failed_noted { (past : List Outputs) → Recorded self.old past
            → OnErr result (Recorded self.new past) }
        ensures taken { (conn : ℕ) → (outputs_in self.new.outgoing).taken conn
            ≡ (outputs_in self.old.outgoing).taken conn }
        ensures closings { (conn : ℕ) → (outputs_in self.new.outgoing).closings conn
            ≡ (outputs_in self.old.outgoing).closings conn }
        ensures cause { HasCause 0 0 result }
        ensures lost { self.new.outgoing.lost ≡ self.old.outgoing.lost }
        ensures closed_at { (conn : ℕ) → untold self.new conn ≡ untold self.old conn }
        ensures never_fails { IsOk result }
    {
        self.end_event();
        Ok(self.arrivals.next(into))
    }

    fn send(&mut self, conn: u32, bytes: &[u8]) -> Result<(), HostFault>
        ensures took { TookBytes result bytes.now ((outputs_in self.old.outgoing).taken conn)
            ((outputs_in self.new.outgoing).taken conn) }
        ensures others { OthersKept conn (outputs_in self.old.outgoing).taken
            (outputs_in self.new.outgoing).taken }
        ensures closings { (other : ℕ) → (outputs_in self.new.outgoing).closings other
            ≡ (outputs_in self.old.outgoing).closings other }
        ensures events { SameEvents (λ (s : Scripting). Some (left_of s.events))
            (λ (s : Scripting). Some (given_of s.events)) Recorded (λ (s : Scripting). 0) self.old
            self.new }
        ensures cause { HasCause self.old.outgoing.lost self.new.outgoing.lost result }
        ensures closed_at { (other : ℕ) → untold self.new other ≡ untold self.old other }
        ensures untaken { OnErr result ((outputs_in self.new.outgoing).taken conn
            ≡ (outputs_in self.old.outgoing).taken conn) }
        ensures starved { OnErr result (self.new.starved ≡ raised self.old.starved) }
    {
        self.touched.add(conn);
        match self.outlets.send(conn, bytes) {
            Ok(()) => Ok(()),
            Err(NoMemory) => {
                self.starved = self.starved.saturating_add(1);
                Err(HostFault)
            }
        }
    }

    fn close(&mut self, conn: u32) {
        self.touched.add(conn);
        self.outlets.close(conn);
    }
}
