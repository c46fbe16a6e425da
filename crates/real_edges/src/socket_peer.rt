//! A web server as a peer.
//! Calls the system.
ghost use Rattle.std.specs.Prelude.{◌≡◌, None, IfOk};

use crate::faults::Faults;
use crate::peer_failure::{PeerFailure, Unanswered};
use crate::peer_wire::PeerWire;
use arch_base::NoMemory;
use edge_io::{Peer, PeerRefusal, Reply};
use std::alloc::Global;
use std::marker::Model;

/// A web server at an address, as a peer. It doesn't tell what it will give or what it was asked.
///
/// The address is `HOST:PORT`, or `[V6]:PORT`. A connection is made by the first call, stays open
/// where the server keeps it open, and is made anew where the server closed it. These are faults: an
/// address that can't be read; a connection that isn't made in 10 s, that fails, or that is silent
/// for 60 s; a reply that can't be read; a body that is longer than 268,435,456 bytes or in a
/// transfer coding; a path that can't stand in a request.
#[derive(Drop)]
pub struct SocketPeer {
    wire: PeerWire,
    faults: Faults<PeerFailure>,
}

// Contracts see the number of failed calls.
impl Model for SocketPeer {
    ghost use Rattle.std.specs.Prelude.{ℕ};

    ghost Value = { ℕ };

    ghost view = { λ s. s.faults };
}

impl SocketPeer {
    /// Returns the server at an address as a peer. No call has failed yet.
    pub fn new(rt: &HostRuntime, alloc: Global, address: &str) -> Result<SocketPeer, NoMemory>
        ensures { IfOk result (λ peer. peer ≡ 0) }
    {
        let address = String::from_str(alloc, address)?;
        Ok(SocketPeer {
            wire: PeerWire::new(rt, alloc, address),
            faults: Faults::new(),
        })
    }

    /// Returns the address and the words for the first call that failed, or `None` if no call has
    /// failed.
    pub fn cause(&self, alloc: Global) -> Result<Option<String>, NoMemory> {
        match self.faults.first() {
            Some(failure) => Ok(Some(failure.words(alloc, self.wire.address())?)),
            None => Ok(None),
        }
    }
}

impl Peer for SocketPeer {
    ghost left = { λ s. None };

    ghost asked = { λ s. None };

    ghost faults = { λ s. s };

    fn get(&mut self, path: &[u8]) -> Result<Reply, PeerRefusal> {
        match self.wire.ask(path) {
            Ok(reply) => Ok(reply),
            Err(Unanswered::NoMemory) => Err(PeerRefusal::NoMemory),
            Err(Unanswered::Failed(failure) | Unanswered::Stale(failure)) => {
                self.faults.add(failure);
                Err(PeerRefusal::Fault)
            }
        }
    }
}
