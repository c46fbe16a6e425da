//! A client at a socket.
//! Calls the system.
ghost use Rattle.std.specs.Prelude.{ℕ, List};
ghost use Rattle.real_edges.specs.Sockets.{IsHeard};

use crate::sending::send_all;
use mio::net::TcpStream;
use mio::{Events, Poll};
use std::io::{self, ErrorKind, Read};
use std::net::Shutdown;
use std::time::Clock;

/// The greatest length of a piece, in bytes.
const MAX_PIECE_LEN: usize = 1_048_576;

/// How many reads are left to a client that is closed, and how many of them a quiet time costs.
const LINGERING: u32 = 2_000;

const QUIET_COST: u32 = 100;

/// What a read of a client found.
#[derive(Clone, Copy, Debug, Drop)]
pub enum Heard {
    /// Nothing is there yet, or the client was closed.
    Nothing,
    /// So many bytes, at least one.
    Bytes(usize),
    /// The end, or a failure.
    Ended,
    /// The end of a client that was closed.
    Gone,
}

/// A client.
#[derive(Drop)]
pub(crate) struct Client {
    stream: TcpStream,
    // Whether there may be something to read.
    ready: bool,
    // Whether the system has reported that its end is near, after which it reports no more of it.
    ending: bool,
    // Whether it was read from since it was last quiet.
    heard: bool,
    // How many reads are left, if it was closed.
    closing: Option<u32>,
}

impl Client {
    /// Returns a new client.
    pub(crate) fn new(stream: TcpStream) -> Client {
        Client {
            stream,
            ready: true,
            ending: false,
            heard: false,
            closing: None,
        }
    }

    /// Returns whether there may be something to read.
    pub(crate) fn is_ready(&self) -> bool {
        self.ready
    }

    /// Returns whether the client was closed.
    pub(crate) fn is_closed(&self) -> bool {
        self.closing.is_some()
    }

    /// Sends bytes to the client, which has to take each part of them in time. One that was closed
    /// takes none.
    pub(crate) fn send(
        &mut self,
        clock: &impl Clock,
        writing: &mut Poll,
        writable: &mut Events,
        bytes: &[u8],
    ) -> io::Result<()> {
        if self.closing.is_some() {
            return Err(ErrorKind::NotConnected.into());
        }
        send_all(clock, writing, writable, &mut self.stream, bytes)
    }

    /// Notes a report of the system.
    pub(crate) fn note(&mut self, ending: bool) {
        self.ready = true;
        self.ending = self.ending || ending;
    }

    /// Ends what is sent to the client.
    pub(crate) fn close(&mut self) -> io::Result<()> {
        if self.closing.is_some() {
            return Ok(());
        }
        self.closing = Some(LINGERING);
        self.ready = true;
        self.stream.shutdown(Shutdown::Write)
    }

    /// Reads to the front of a buffer, if something may be there. What a closed client sent is
    /// dropped.
    pub(crate) fn read(&mut self, into: &mut [u8]) -> Heard
        ensures { IsHeard into.new result }
    {
        if !self.ready {
            return Heard::Nothing;
        }
        let room = into.len().min(MAX_PIECE_LEN);
        match self.stream.read(&mut into[..room]) {
            Ok(0) => self.ended(),
            Ok(len) => {
                // Fewer bytes than there was room for are all that there are. What comes later is
                // reported.
                self.ready = len == room || self.ending;
                self.heard = true;
                if self.closing.is_none() {
                    return Heard::Bytes(len);
                }
                self.drained()
            }
            Err(refused) if refused.kind() == ErrorKind::WouldBlock => {
                self.ready = false;
                Heard::Nothing
            }
            Err(refused) if refused.kind() == ErrorKind::Interrupted => Heard::Nothing,
            Err(_) => self.ended(),
        }
    }

    /// Returns what the end of the client is.
    fn ended(&self) -> Heard
        ensures { (into : List ℕ) → IsHeard into result }
    {
        if self.closing.is_some() {
            Heard::Gone
        } else {
            Heard::Ended
        }
    }

    /// Counts a read of a closed client.
    fn drained(&mut self) -> Heard
        ensures { (into : List ℕ) → IsHeard into result }
    {
        if self.spend(1) {
            Heard::Nothing
        } else {
            Heard::Gone
        }
    }

    /// Notes that it is quiet, and returns whether the client stays.
    pub(crate) fn age(&mut self) -> bool {
        if self.heard {
            self.ready = true;
            self.heard = false;
        }
        self.spend(QUIET_COST)
    }

    /// Takes so many reads from a closed client, and returns whether some are left. A client that
    /// is open has them without end.
    fn spend(&mut self, cost: u32) -> bool {
        let Some(left) = self.closing else {
            return true;
        };
        self.closing = Some(left.saturating_sub(cost));
        left > cost
    }
}
