//! Tests of the host over sockets, with clients in the same process. Each test has ports of its own.
ghost use Rattle.std.specs.Prelude.{◌≡◌, ◌≤◌, length};

use crate::host_tests::room;
use arch_base::NoMemory;
use edge_io::{Door, Event, Host, HostFault, What};
use real_edges::{Progress, SocketHost};
use std::io::{self, Read, Write};
use std::net::{Ipv4Addr, Shutdown, SocketAddr, TcpStream};
use std::test::Fail;

/// The most events that are asked for until one is found.
const MOST: usize = 100;

/// Connects to a port.
fn connect(rt: &HostRuntime, port: u16) -> io::Result<TcpStream> {
    TcpStream::connect(rt, SocketAddr::from((Ipv4Addr::LOCALHOST, port)))
}

/// Returns the next event that isn't quiet.
fn next_event(host: &mut SocketHost, into: &mut [u8]) -> Result<Option<What>, HostFault>
    requires { 1048576 ≤ length into.old }
    ensures { length into.new ≡ length into.old }
{
    for _ in 0..MOST {
        match host.next(into)? {
            Some(
                Event {
                    what: What::Quiet,
                    ..
                },
            ) => {}
            Some(event) => return Ok(Some(event.what)),
            None => return Ok(None),
        }
    }
    Ok(None)
}

/// Returns whether the next event is this one.
fn is_next(host: &mut SocketHost, into: &mut [u8], wanted: What) -> Result<bool, HostFault>
    requires { 1048576 ≤ length into.old }
    ensures { length into.new ≡ length into.old }
{
    Ok(next_event(host, into)? == Some(wanted))
}

/// Returns whether the first event is quiet, which makes the listeners.
fn is_quiet(host: &mut SocketHost, into: &mut [u8]) -> Result<bool, HostFault>
    requires { 1048576 ≤ length into.old }
    ensures { length into.new ≡ length into.old }
{
    match host.next(into)? {
        Some(event) => Ok(event.what == What::Quiet && event.moment > 1_700_000_000),
        None => Ok(false),
    }
}

/// Returns whether a client's bytes come, and what is sent to it is what it reads.
fn talks(host: &mut SocketHost, into: &mut [u8], client: &mut TcpStream) -> Result<bool, Fail>
    requires { 1048576 ≤ length into.old }
{
    client.write_all(b"hello\n")?;
    let came = is_next(host, into, What::Bytes { conn: 0, len: 6 })?;
    let whole = into.starts_with(b"hello\n");
    let sent = host.send(0, b"good day\n") == Ok(());
    let mut reply = [0; 9];
    client.read_exact(&mut reply)?;
    Ok(came && whole && sent && reply.as_slice() == b"good day\n".as_slice())
}

#[test]
fn a_client_is_heard_and_answered(rt: HostRuntime) -> Result<(), Fail> {
    let mut into = room(rt.alloc())?;
    let mut host = SocketHost::listen(&rt, rt.alloc(), 17_310)?;
    assert!(rt; is_quiet(&mut host, &mut into)?);
    let mut client = connect(&rt, 17_310)?;
    let door = Door::Control;
    assert!(rt; is_next(&mut host, &mut into, What::Opened { conn: 0, door })?);
    assert!(rt; talks(&mut host, &mut into, &mut client)?);
    Ok(())
}

/// Returns whether a client's last piece comes before its end, and sends to it fail after that.
fn ends(host: &mut SocketHost, into: &mut [u8], client: &mut TcpStream) -> Result<bool, Fail>
    requires { 1048576 ≤ length into.old }
{
    client.write_all(b"last")?;
    client.shutdown(Shutdown::Write)?;
    let came = is_next(host, into, What::Bytes { conn: 0, len: 4 })?;
    let ended = is_next(host, into, What::Ended { conn: 0 })?;
    Ok(came && ended && host.send(0, b"x") == Err(HostFault))
}

#[test]
fn the_last_piece_comes_before_the_end(rt: HostRuntime) -> Result<(), Fail> {
    let mut into = room(rt.alloc())?;
    let mut host = SocketHost::listen(&rt, rt.alloc(), 17_320)?;
    assert!(rt; is_quiet(&mut host, &mut into)?);
    let mut client = connect(&rt, 17_322)?;
    let door = Door::Nntp;
    assert!(rt; is_next(&mut host, &mut into, What::Opened { conn: 0, door })?);
    assert!(rt; ends(&mut host, &mut into, &mut client)?);
    Ok(())
}

/// Returns whether a client that is closed reads what was sent to it and then the end, though it had
/// sent bytes that nobody read.
fn reads_to_end(host: &mut SocketHost, client: &mut TcpStream) -> Result<bool, Fail> {
    client.write_all(b"nobody reads this")?;
    let sent = host.send(0, b"bye\n") == Ok(());
    host.close(0);
    let refused = host.send(0, b"x") == Err(HostFault);
    let mut reply = [0; 4];
    client.read_exact(&mut reply)?;
    let ended = client.read(&mut [0; 1])? == 0;
    Ok(sent && refused && ended && reply.as_slice() == b"bye\n".as_slice())
}

#[test]
fn a_closed_client_reads_what_was_sent(rt: HostRuntime) -> Result<(), Fail> {
    let mut into = room(rt.alloc())?;
    let progress = Progress::new(&rt);
    let mut host = SocketHost::listen_telling(&rt, rt.alloc(), 17_330, &progress)?;
    assert!(rt; is_quiet(&mut host, &mut into)?);
    let mut client = connect(&rt, 17_331)?;
    let door = Door::Http;
    assert!(rt; is_next(&mut host, &mut into, What::Opened { conn: 0, door })?);
    assert!(rt; reads_to_end(&mut host, &mut client)?);
    Ok(())
}

/// Returns whether a second host can't listen where one does, and tells why.
fn is_refused(rt: &HostRuntime, into: &mut [u8], port: u16) -> Result<bool, NoMemory>
    requires { 1048576 ≤ length into.old }
{
    let mut host = SocketHost::listen(rt, rt.alloc(), port)?;
    let before = host.cause(rt.alloc())?.is_none();
    let failed = host.next(into) == Err(HostFault);
    Ok(before && failed && host.cause(rt.alloc())?.is_some())
}

#[test]
fn a_port_that_is_taken_is_a_fault(rt: HostRuntime) -> Result<(), Fail> {
    let mut into = room(rt.alloc())?;
    let mut host = SocketHost::listen(&rt, rt.alloc(), 17_340)?;
    assert!(rt; is_quiet(&mut host, &mut into)?);
    assert!(rt; is_refused(&rt, &mut into, 17_340)?);
    Ok(())
}
