//! The peer trait.
//! Pure.
ghost use Rattle.std.specs.Prelude.{◌≡◌, ℕ, List, Option, Err, IfOk, OnErr};
ghost use Rattle.arch_base.specs.Counts.{RoseIf};
ghost use Rattle.edge_io.specs.Peers.{reply_before, AsksPath};
ghost use Rattle.edge_io.specs.declared.peer.PeerRefusal.{PeerRefusal};
ghost use Rattle.edge_io.specs.declared.peer.Reply.{Reply};

use arch_base::{Bytes, NoMemory};
use thiserror::Error;

/// What a peer answers to a path: a status of HTTP, and a body.
#[derive(Debug, Drop)]
pub struct Reply {
    /// The status code (RFC 9110, section 15), such as 200.
    pub status: u16,
    /// The bytes of the body.
    pub body: Bytes,
}

/// The reason why a peer gave no reply.
#[derive(Debug, Drop, PartialEq, Eq, Error)]
pub enum PeerRefusal {
    /// The peer failed. Its count of faults rose.
    #[error("the peer failed")]
    Fault,
    /// An allocation failed.
    #[error("out of memory")]
    NoMemory,
}

impl From<NoMemory> for PeerRefusal {
    ghost use Rattle.std.specs.Prelude.{◌≡◌};
    ghost use Rattle.edge_io.specs.declared.peer.PeerRefusal.TheVariants.{NoMemory};

    ghost from_gives = { λ _ e. e ≡ NoMemory };

    fn from(_refused: NoMemory) -> PeerRefusal {
        PeerRefusal::NoMemory
    }
}

/// A server that is asked for one path after another, and gives a reply to each.
pub trait Peer {
    /// The replies that the peer will still give, in order, if the peer is told.
    ghost left: { Self → Option (List Reply) };

    /// The paths that the peer was asked for, in order, if the peer is told.
    ghost asked: { Self → Option (List (List ℕ)) };

    /// The count of faults.
    ghost faults: { Self → ℕ };

    /// Asks for a path once, and returns the next reply, which is removed from those to come.
    ///
    /// A refusal leaves the replies to come unchanged, and the path was asked for or wasn't. After
    /// `Fault` the count of faults rose. `NoMemory` leaves it.
    fn get(&mut self, path: &[u8]) -> Result<Reply, PeerRefusal>
        ensures gave { IfOk result (λ reply. left self.old ≡ reply_before reply (left self.new)) }
        ensures failed { OnErr result (left self.new ≡ left self.old) }
        ensures asks { AsksPath result path.now (asked self.old) (asked self.new) }
        ensures cause { RoseIf (result ≡ Err PeerRefusal.Fault) (faults self.old) (faults self.new) };
}
