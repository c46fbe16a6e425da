//! What the connections of a host in memory take.
//! Allocates.
ghost use Rattle.std.specs.Prelude.{◌≡◌, ◌≤◌, ◌<◌, ℕ, Some, Option, OnOk, OnErr, IfOk, if◌then◌else◌, nat_lt, None, slice_get};
ghost use Rattle.arch_base.specs.Counts.{HasCause};
ghost use Rattle.edge_io.specs.Taken.{plus};
ghost use Rattle.edge_io.specs.Frames.{count_or_0};
ghost use Rattle.edge_io.specs.Hosts.{OthersKept, one_more};
ghost use Rattle.edge_io.specs.Listed.{raised};
ghost use Rattle.edge_io.specs.MemHosts.{IsUnused, outputs_in, taken_of};

use arch_base::NoMemory;
use std::alloc::Global;
use std::collections::BTreeMap;
use std::marker::Model;

/// The number of connections whose closings are counted: those from 0 to 65,535.
pub(crate) const CONNECTIONS: usize = 65536;

/// What each connection took, how often each was closed, and the count of lost calls.
#[derive(Drop)]
pub(crate) struct Outlets {
    alloc: Global,
    taken: BTreeMap<u32, Vec<u8>>,
    closings: Vec<u64>,
    lost: u64,
}

// A contract sees the bytes and the closings of each connection, and the count of lost calls.
impl Model for Outlets {
    ghost use Rattle.edge_io.specs.MemHosts.{Outgoing};

    ghost Value = { Outgoing };

    ghost view = { λ s. record {
      bytes = s.taken.entries;
      closed = s.closings.items;
      lost = s.lost;
    } };
}

impl Outlets {
    /// Returns the outlets of which no connection took anything, and none was closed.
    pub(crate) fn new(alloc: Global) -> Result<Outlets, NoMemory>
        ensures { IfOk result (λ made. IsUnused (outputs_in made)) }
    {
        let closings = zeros(alloc, CONNECTIONS)?;
        Ok(Outlets {
            alloc,
            taken: BTreeMap::new(alloc),
            closings,
            lost: 0,
        })
    }

    /// Appends bytes to those that a connection took.
    ///
    /// `NoMemory` leaves them unchanged, and the call is counted as lost.
    pub(crate) fn send(&mut self, conn: u32, bytes: &[u8]) -> Result<(), NoMemory>
        ensures ok { OnOk result ((outputs_in self.new).taken conn ≡ plus
            ((outputs_in self.old).taken conn) bytes.now) }
        ensures err { OnErr result ((outputs_in self.new).taken conn
            ≡ (outputs_in self.old).taken conn) }
        ensures others { OthersKept conn (outputs_in self.old).taken (outputs_in self.new).taken }
        ensures closings { (other : ℕ) → (outputs_in self.new).closings other
            ≡ (outputs_in self.old).closings other }
        ensures cause { HasCause self.old.lost self.new.lost result }
        ensures rose { OnErr result (self.new.lost ≡ raised self.old.lost) }
    {
        match push_to(&mut self.taken, self.alloc, conn, bytes) {
            Ok(()) => Ok(()),
            Err(NoMemory) => {
                self.lost = self.lost.saturating_add(1);
                Err(NoMemory)
            }
        }
    }

    /// Counts a lost call.
    pub(crate) fn lose(&mut self)
        ensures later { self.old.lost ≤ self.new.lost }
        ensures rose { self.new.lost ≡ raised self.old.lost }
        ensures bytes { self.new.bytes ≡ self.old.bytes }
        ensures closed { self.new.closed ≡ self.old.closed }
    {
        self.lost = self.lost.saturating_add(1);
    }

    /// Counts a closing of a connection. Allocates nothing.
    pub(crate) fn close(&mut self, conn: u32)
        ensures closed { (outputs_in self.new).closings conn
            ≡ one_more ((outputs_in self.old).closings conn) }
        ensures others { OthersKept conn (outputs_in self.old).closings
            (outputs_in self.new).closings }
        ensures taken { (other : ℕ) → (outputs_in self.new).taken other
            ≡ (outputs_in self.old).taken other }
        ensures lost { self.new.lost ≡ self.old.lost }
    {
        let place = conn as usize;
        if place < self.closings.len() {
            let count = self.closings[place];
            self.closings[place] = count.saturating_add(1);
        }
    }

    /// Returns the bytes that a connection took.
    pub(crate) fn taken(&self, conn: u32) -> &[u8]
        ensures { Some result.now ≡ (outputs_in self.now).taken conn }
    {
        match self.taken.get(&conn) {
            Some(bytes) => bytes.as_slice(),
            None => &[],
        }
    }

    /// Returns how often a connection was closed, or 0 if that isn't counted.
    pub(crate) fn closings(&self, conn: u32) -> u64
        ensures { result ≡ count_or_0 ((outputs_in self.now).closings conn) }
    {
        match self.closings.get(conn as usize) {
            Some(count) => *count,
            None => 0,
        }
    }
}

/// Returns `len` zeros.
fn zeros(alloc: Global, len: usize) -> Result<Vec<u64>, NoMemory>
    ensures { IfOk result (λ made. (i : ℕ)
        → slice_get made.items i ≡ (if nat_lt i len then Some 0 else None)) }
{
    Ok(vec![in alloc; 0u64; len]?)
}

/// Appends bytes to those that a map has for a connection.
///
/// `NoMemory` leaves them unchanged.
fn push_to(
    taken: &mut BTreeMap<u32, Vec<u8>>,
    alloc: Global,
    conn: u32,
    bytes: &[u8],
) -> Result<(), NoMemory>
    ensures ok { OnOk result (taken_of taken.new.entries conn
        ≡ plus (taken_of taken.old.entries conn) bytes.now) }
    ensures err { OnErr result (taken_of taken.new.entries conn ≡ taken_of taken.old.entries conn) }
    ensures others { OthersKept conn (taken_of taken.old.entries) (taken_of taken.new.entries) }
{
    if let Some(held) = taken.get_mut(&conn) {
        return match held.extend_from_slice(bytes) {
            Ok(()) => Ok(()),
            Err(_) => Err(NoMemory),
        };
    }
    let Ok(first) = Vec::from_slice(alloc, bytes) else {
        return Err(NoMemory);
    };
    match taken.insert(conn, first) {
        Ok(_) => Ok(()),
        Err(_) => Err(NoMemory),
    }
}
