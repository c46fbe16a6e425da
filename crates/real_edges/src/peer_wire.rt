//! A web server, and the connection over which it is asked for paths.
//! Calls the system.
ghost use Rattle.std.specs.Prelude.{◌≡◌, ◌≤◌, ◌<◌, ◌+◌, ◌^◌, IfOk, IfSome, length};
ghost use Rattle.real_edges.specs.PeerWires.{LiesIn};

use crate::peer_failure::{PeerFailure, Unanswered};
use arch_base::Bytes;
use edge_io::Reply;
use peer_replies::{
    Reading, Unreadable, WholeReply, is_target, read_address, read_reply, request_bytes,
};
use std::alloc::Global;
use std::io::{self, ErrorKind, Read, Write};
use std::net::{Ipv6Addr, SocketAddr, TcpStream, ToSocketAddrs};
use std::str;
use std::time::{Duration, Instant};

/// The number of bytes that are asked of a connection at once.
const PART: usize = 65_536;

/// The greatest number of interim replies before a reply.
const MAX_INTERIM: usize = 16;

/// The time in which a connection has to be made.
fn patience() -> Duration {
    Duration::from_secs(10)
}

/// The time for which a connection may be silent.
fn silence() -> Duration {
    Duration::from_secs(60)
}

/// A web server at an address, and the connection to it that is open, if one is.
#[derive(Drop)]
pub(crate) struct PeerWire {
    rt: HostRuntime,
    alloc: Global,
    address: String,
    stream: Option<TcpStream>,
}

impl PeerWire {
    /// Returns the server at an address. No connection is made yet.
    pub(crate) fn new(rt: &HostRuntime, alloc: Global, address: String) -> PeerWire {
        PeerWire {
            rt: *rt,
            alloc,
            address,
            stream: None,
        }
    }

    /// Returns the address.
    pub(crate) fn address(&self) -> &str {
        self.address.as_str()
    }

    /// Asks for a path, over the connection that is open or over a new one.
    ///
    /// A server may close a connection between two replies. Then the path is asked for once more,
    /// over a new one.
    pub(crate) fn ask(&mut self, path: &[u8]) -> Result<Reply, Unanswered> {
        if !is_target(path) {
            return Err(PeerFailure::BadPath.into());
        }
        let request = request_bytes(self.alloc, self.address.as_bytes(), path)?;
        if let Some(stream) = self.idle_stream() {
            match self.exchange(stream, request.as_slice()) {
                Err(Unanswered::Stale(_)) => {}
                answered => return answered,
            }
        }
        let stream = connect(&self.rt, self.address.as_str())?;
        match self.exchange(stream, request.as_slice()) {
            Err(Unanswered::Stale(failure)) => Err(failure.into()),
            answered => answered,
        }
    }

    /// Takes the connection that is open, if there is one over which nothing came since the last
    /// reply.
    fn idle_stream(&mut self) -> Option<TcpStream> {
        let stream = self.stream.take()?;
        if is_idle(&stream) { Some(stream) } else { None }
    }

    /// Sends a request, and reads the reply. Keeps the connection if it stays open.
    fn exchange(&mut self, stream: TcpStream, request: &[u8]) -> Result<Reply, Unanswered> {
        let mut stream = stream;
        send(&mut stream, request)?;
        let mut bytes = Vec::new(self.alloc);
        for _ in 0..u64::MAX {
            let ended = read_more(&mut stream, &mut bytes)?;
            if let Some(reply) = final_reply(bytes.as_slice(), ended)? {
                return self.take_reply(stream, bytes.as_slice(), reply);
            }
        }
        Err(PeerFailure::Silent.into())
    }

    /// Returns a reply, which lies in the bytes that came. Keeps the connection if it stays open and
    /// nothing came after the reply.
    fn take_reply(
        &mut self,
        stream: TcpStream,
        bytes: &[u8],
        reply: WholeReply,
    ) -> Result<Reply, Unanswered>
        requires { LiesIn (length bytes.now) reply }
    {
        let mut body = Bytes::new(self.alloc);
        body.push_slice(&bytes[reply.start..reply.end])?;
        if reply.stays && reply.end == bytes.len() {
            self.stream = Some(stream);
        }
        Ok(Reply {
            status: reply.status,
            body,
        })
    }
}

/// Returns whether a connection is open and nothing came over it.
fn is_idle(stream: &TcpStream) -> bool {
    if stream.set_nonblocking(true).is_err() {
        return false;
    }
    let idle = match stream.peek(&mut [0; 1]) {
        Ok(_) => false,
        Err(refused) => refused.kind() == ErrorKind::WouldBlock,
    };
    stream.set_nonblocking(false).is_ok() && idle
}

/// Makes a connection to a server, within bounded time for all addresses of its host together.
fn connect(rt: &HostRuntime, address: &str) -> Result<TcpStream, PeerFailure> {
    let Some(parts) = read_address(address.as_bytes()) else {
        return Err(PeerFailure::BadAddress);
    };
    let Ok(host) = str::from_utf8(parts.host) else {
        return Err(PeerFailure::BadAddress);
    };
    if parts.bracketed && host.parse::<Ipv6Addr>().is_err() {
        return Err(PeerFailure::BadAddress);
    }
    let began = now(rt)?;
    let found = (host, parts.port).to_socket_addrs(rt);
    let mut failure = PeerFailure::NotMade(ErrorKind::NotFound.into());
    for socket in found.map_err(PeerFailure::NotMade)? {
        match connect_to(rt, socket, began) {
            Ok(stream) => return Ok(stream),
            Err(refused) => failure = refused,
        }
    }
    Err(failure)
}

/// Makes a connection to one address, if there is time left.
fn connect_to(
    rt: &HostRuntime,
    socket: SocketAddr,
    began: Instant,
) -> Result<TcpStream, PeerFailure> {
    let left = patience().saturating_sub(now(rt)?.saturating_duration_since(began));
    if left.is_zero() {
        return Err(PeerFailure::MadeLate);
    }
    match TcpStream::connect_timeout(rt, &socket, left) {
        Ok(stream) => {
            bound(&stream).map_err(PeerFailure::NotMade)?;
            Ok(stream)
        }
        Err(refused) if refused.kind() == ErrorKind::TimedOut => Err(PeerFailure::MadeLate),
        Err(refused) => Err(PeerFailure::NotMade(refused)),
    }
}

/// Bounds the time that a read or a write of a connection waits.
fn bound(stream: &TcpStream) -> io::Result<()> {
    stream.set_nodelay(true)?;
    stream.set_read_timeout(Some(silence()))?;
    stream.set_write_timeout(Some(silence()))
}

/// Returns the time now.
fn now(rt: &HostRuntime) -> Result<Instant, PeerFailure> {
    Instant::now(rt).map_err(PeerFailure::NotMade)
}

/// Sends a request.
fn send(stream: &mut TcpStream, request: &[u8]) -> Result<(), Unanswered> {
    match stream.write_all(request) {
        Ok(()) => Ok(()),
        Err(refused) => Err(unanswered(refused, true)),
    }
}

/// Appends what comes over a connection, and returns whether it has ended.
fn read_more(stream: &mut TcpStream, bytes: &mut Vec<u8>) -> Result<bool, Unanswered> {
    let len = bytes.len();
    bytes.resize(len + PART, 0)?;
    match stream.read(&mut bytes[len..]) {
        Ok(count) => {
            bytes.truncate(len + count);
            if count == 0 && len == 0 {
                let ended = PeerFailure::Unreadable(Unreadable::CutOff);
                return Err(Unanswered::Stale(ended));
            }
            Ok(count == 0)
        }
        Err(refused) => {
            bytes.truncate(len);
            if refused.kind() == ErrorKind::Interrupted {
                return Ok(false);
            }
            Err(unanswered(refused, len == 0))
        }
    }
}

/// Returns what a failure of a connection means, by whether nothing came over it.
fn unanswered(refused: io::Error, nothing_came: bool) -> Unanswered {
    let failure = match refused.kind() {
        ErrorKind::WouldBlock | ErrorKind::TimedOut => {
            return Unanswered::Failed(PeerFailure::Silent);
        }
        _ => PeerFailure::Broken(refused),
    };
    if nothing_came {
        Unanswered::Stale(failure)
    } else {
        Unanswered::Failed(failure)
    }
}

/// Returns the first reply that isn't interim, or `None` if it isn't whole yet.
fn final_reply(bytes: &[u8], ended: bool) -> Result<Option<WholeReply>, Unanswered>
    ensures { IfOk result (λ found. IfSome found (LiesIn (length bytes.now))) }
{
    let mut start = 0;
    for _ in 0..MAX_INTERIM {
        match read_reply(&bytes[start..], ended) {
            Ok(Reading::More) => return Ok(None),
            Ok(Reading::Whole(reply)) if is_interim(reply.status) => start += reply.end,
            Ok(Reading::Whole(reply)) => return Ok(Some(moved(reply, start))),
            Err(why) => return Err(PeerFailure::Unreadable(why).into()),
        }
    }
    Err(PeerFailure::Interim.into())
}

/// Returns whether a status is that of a reply that another one follows (RFC 9110, section 15.2).
fn is_interim(status: u16) -> bool {
    (100..200).contains(&status)
}

/// Returns a reply whose offsets count from so many bytes earlier.
fn moved(reply: WholeReply, start: usize) -> WholeReply
    requires fits { start + reply.end < 2 ^ 63 }
    requires ordered { reply.start ≤ reply.end }
    ensures { result ≡ record reply { start = start + reply.start; end = start + reply.end } }
{
    WholeReply {
        start: start + reply.start,
        end: start + reply.end,
        ..reply
    }
}
