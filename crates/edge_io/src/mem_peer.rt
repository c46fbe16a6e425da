//! A peer in memory.
//! Allocates.
ghost use Rattle.std.specs.Prelude.{◌≡◌, ◌++◌, ◌∷◌, [], Some, Err, IfOk, OnErr, if◌then◌else◌, is_ok};
ghost use Rattle.arch_base.specs.Counts.{RoseIf};
ghost use Rattle.edge_io.specs.Peers.{reply_before, AsksPath};
ghost use Rattle.edge_io.specs.MemPeers.{Peering, PeerGets, replies_of};
ghost use Rattle.edge_io.specs.declared.peer.PeerRefusal.{PeerRefusal};

use crate::{Peer, PeerRefusal, Reply};
use arch_base::{Bytes, NoMemory, Texts};
use std::alloc::{AllocFailed, Global};
use std::collections::VecDeque;
use std::marker::Model;

/// A peer in memory that gives its answers in order, whatever path it is asked for.
///
/// It keeps the paths, after a fault too. A call that runs out of memory asks for nothing, and is
/// counted separately.
#[derive(Drop)]
pub struct MemPeer {
    alloc: Global,
    coming: VecDeque<Option<Reply>>,
    asked: Texts,
    faults: u64,
    starved: u64,
}

// A contract sees the answers to come, the paths, and the counts of faults and of failed allocations.
impl Model for MemPeer {
    ghost use Rattle.edge_io.specs.MemPeers.{Peering};

    ghost Value = { Peering };

    ghost view = { λ s. record {
      coming = s.coming.items;
      asked = s.asked;
      faults = s.faults;
      starved = s.starved;
    } };
}

impl MemPeer {
    /// Returns a peer without answers, whose every call fails.
    pub fn new(alloc: Global) -> MemPeer
        ensures { result ≡ record { coming = []; asked = []; faults = 0; starved = 0 } }
    {
        MemPeer {
            alloc,
            coming: VecDeque::new(alloc),
            asked: Texts::new(alloc),
            faults: 0,
            starved: 0,
        }
    }

    /// Appends an answer to those to come: a reply, or `None` for a fault.
    ///
    /// `NoMemory` leaves the peer unchanged.
    pub fn push(&mut self, reply: Option<Reply>) -> Result<(), NoMemory>
        ensures { self.new ≡ (if is_ok result then record self.old {
          coming = self.old.coming ++ reply ∷ [];
        } else self.old) }
    {
        self.coming.push_back(reply)?;
        Ok(())
    }

    /// Returns the paths that the peer was asked for, in order.
    pub fn asked(&self) -> &[Bytes]
        ensures { result.now ≡ self.now.asked }
    {
        self.asked.as_slice()
    }

    /// Returns the count of calls of `get` that ran out of memory.
    pub fn starved(&self) -> u64
        ensures { result ≡ self.now.starved }
    {
        self.starved
    }

    /// Appends a path to those that were asked for.
    ///
    /// `NoMemory` leaves the peer unchanged.
    fn note(&mut self, path: &[u8]) -> Result<(), NoMemory>
        ensures { self.new ≡ (if is_ok result then record self.old {
          asked = self.old.asked ++ path.now ∷ [];
        } else self.old) }
    {
        let mut copy = Bytes::new(self.alloc);
        copy.push_slice(path)?;
        self.asked.push(copy)
    }
}

impl Peer for MemPeer {
    ghost left = { λ s. Some (replies_of s.coming) };

    ghost asked = { λ s. Some s.asked };

    ghost faults = { λ s. s.faults };

    fn get(&mut self, path: &[u8]) -> Result<Reply, PeerRefusal>
        ensures gave { IfOk result (λ reply.
            Some (replies_of self.old.coming) ≡ reply_before reply (Some (replies_of self.new.coming))) }
        ensures failed { OnErr result
            (Some (replies_of self.new.coming) ≡ Some (replies_of self.old.coming)) }
        ensures asks { AsksPath result path.now (Some self.old.asked) (Some self.new.asked) }
        ensures cause { RoseIf (result ≡ Err PeerRefusal.Fault) self.old.faults self.new.faults }
        ensures gets { PeerGets result path.now self.old self.new }
    {
        if let Err(refused) = self.note(path) {
            self.starved = self.starved.saturating_add(1);
            return Err(refused.into());
        }
        match self.coming.pop_front().flatten() {
            Some(reply) => Ok(reply),
            None => {
                self.faults = self.faults.saturating_add(1);
                Err(PeerRefusal::Fault)
            }
        }
    }
}
