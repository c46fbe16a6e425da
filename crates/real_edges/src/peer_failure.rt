//! The reasons why a peer gives no reply, and their words.
//! Allocates.
use crate::cause::system_words;
use arch_base::NoMemory;
use peer_replies::Unreadable;
use std::alloc::{AllocError, AllocFailed, Global};
use std::io;

/// The reason why a peer gave no reply.
#[derive(Clone, Copy)]
pub(crate) enum PeerFailure {
    /// The address is not `HOST:PORT` or `[V6]:PORT`.
    BadAddress,
    /// The path can't stand in a request.
    BadPath,
    /// The host has no address, or none that took a connection.
    NotMade(io::Error),
    /// No connection was made in time.
    MadeLate,
    /// The connection failed.
    Broken(io::Error),
    /// Nothing came in time.
    Silent,
    /// What came can't be read.
    Unreadable(Unreadable),
    /// Too many interim replies came before the reply.
    Interim,
}

impl PeerFailure {
    /// Returns the address of the peer and the words of the failure, as they are printed after the
    /// program's name.
    pub(crate) fn words(&self, alloc: Global, address: &str) -> Result<String, AllocError> {
        match self {
            PeerFailure::BadAddress => {
                format!(in alloc; "{address} is no address: HOST:PORT or [V6]:PORT")
            }
            PeerFailure::BadPath => format!(in alloc; "{address}: the path can't be asked for"),
            PeerFailure::NotMade(error) => {
                let words = system_words(alloc, error)?;
                format!(in alloc; "{address}: no connection: {words}")
            }
            PeerFailure::MadeLate => format!(in alloc; "{address}: no connection within 10 s"),
            PeerFailure::Broken(error) => {
                let words = system_words(alloc, error)?;
                format!(in alloc; "{address}: the connection failed: {words}")
            }
            PeerFailure::Silent => format!(in alloc; "{address}: nothing came within 60 s"),
            PeerFailure::Unreadable(why) => format!(in alloc; "{address}: {why}"),
            PeerFailure::Interim => format!(in alloc; "{address}: too many interim replies"),
        }
    }
}

/// The reason why a call gave no reply.
pub(crate) enum Unanswered {
    /// The connection ended or failed before anything came over it.
    Stale(PeerFailure),
    /// The peer failed.
    Failed(PeerFailure),
    /// An allocation failed.
    NoMemory,
}

impl From<NoMemory> for Unanswered {
    fn from(_refused: NoMemory) -> Unanswered {
        Unanswered::NoMemory
    }
}

impl From<AllocError> for Unanswered {
    fn from(_refused: AllocError) -> Unanswered {
        Unanswered::NoMemory
    }
}

impl<T: Drop> From<AllocFailed<T>> for Unanswered {
    fn from(_refused: AllocFailed<T>) -> Unanswered {
        Unanswered::NoMemory
    }
}

impl From<PeerFailure> for Unanswered {
    fn from(failure: PeerFailure) -> Unanswered {
        Unanswered::Failed(failure)
    }
}
