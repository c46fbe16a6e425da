//! Sends bytes to a socket within a bounded time.
//! Calls the system.
use mio::net::TcpStream;
use mio::{Events, Interest, Poll, Token};
use std::io::{self, ErrorKind, Write};
use std::time::{Clock, Duration, Instant};

/// The number of bytes that have to be taken in time.
const PART: usize = 65_536;

/// The time that a client has to take a part.
fn patience() -> Duration {
    Duration::from_secs(10)
}

/// The time after which a write is tried again, since the system reports room late.
fn again() -> Duration {
    Duration::from_millis(250)
}

/// Sends bytes to a socket, which has to take each part of them in time.
pub(crate) fn send_all(
    clock: &impl Clock,
    writing: &mut Poll,
    writable: &mut Events,
    stream: &mut TcpStream,
    bytes: &[u8],
) -> io::Result<()> {
    for part in bytes.chunks(PART) {
        send_part(clock, writing, writable, stream, part)?;
    }
    Ok(())
}

/// Sends a part, or returns `TimedOut` if the socket doesn't take it in time.
fn send_part(
    clock: &impl Clock,
    writing: &mut Poll,
    writable: &mut Events,
    stream: &mut TcpStream,
    part: &[u8],
) -> io::Result<()> {
    let mut rest = part;
    let mut begun = None;
    for _ in 0..u64::MAX {
        if rest.is_empty() {
            return Ok(());
        }
        match stream.write(rest) {
            Ok(0) => return Err(ErrorKind::WriteZero.into()),
            Ok(count) => rest = &rest[count..],
            Err(refused) if refused.kind() == ErrorKind::WouldBlock => {
                let now = Instant::now(clock)?;
                let first = begun.unwrap_or(now);
                begun = Some(first);
                let left = patience().saturating_sub(now.saturating_duration_since(first));
                if left.is_zero() {
                    return Err(ErrorKind::TimedOut.into());
                }
                wait_writable(writing, writable, stream, left.min(again()))?;
            }
            Err(refused) if refused.kind() == ErrorKind::Interrupted => {}
            Err(refused) => return Err(refused),
        }
    }
    Err(ErrorKind::TimedOut.into())
}

/// Waits for so long until a socket takes bytes. The others are not asked meanwhile, so that none
/// of their reports is lost.
fn wait_writable(
    writing: &mut Poll,
    writable: &mut Events,
    stream: &mut TcpStream,
    time: Duration,
) -> io::Result<()> {
    writing
        .registry()
        .register(stream, Token(0), Interest::WRITABLE)?;
    let waited = writing.poll(writable, Some(time));
    writing.registry().deregister(stream)?;
    waited
}
