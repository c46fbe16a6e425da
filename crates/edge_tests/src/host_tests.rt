//! Tests of the hosts in memory: what they give, what connections take, listed faults, and frames.
ghost use Rattle.std.specs.Prelude.{◌≡◌, ◌≤◌, length, All, IfOk};
ghost use Rattle.edge_io.specs.Scripts.{IsArrival};

use arch_base::{NoMemory, Numbers};
use edge_io::{
    ConnSink, Door, Event, Host, HostFault, MemHost, Script, ScriptHost, ScriptRefusal, Sink,
    SinkFault, What, script,
};
use std::alloc::Global;
use std::test::Fail;

/// The events of three connections, one after another.
const SCRIPT: &[u8] =
    b"5 o 1 control\n5 o 65535 nntp\n6 b 1 3\na\nb\n7 b 65535 1\nc\n8 q\n9 e 1\n10 s\n11 q\n";

/// An event, and its piece.
#[derive(Clone, Copy)]
struct Given {
    moment: u64,
    what: What,
    piece: &'static [u8],
}

/// The events of the script, in order.
const GIVEN: [Given; 8] = [
    Given {
        moment: 5,
        what: What::Opened {
            conn: 1,
            door: Door::Control,
        },
        piece: b"",
    },
    Given {
        moment: 5,
        what: What::Opened {
            conn: 65535,
            door: Door::Nntp,
        },
        piece: b"",
    },
    Given {
        moment: 6,
        what: What::Bytes { conn: 1, len: 3 },
        piece: b"a\nb",
    },
    Given {
        moment: 7,
        what: What::Bytes {
            conn: 65535,
            len: 1,
        },
        piece: b"c",
    },
    Given {
        moment: 8,
        what: What::Quiet,
        piece: b"",
    },
    Given {
        moment: 9,
        what: What::Ended { conn: 1 },
        piece: b"",
    },
    Given {
        moment: 10,
        what: What::Stop,
        piece: b"",
    },
    Given {
        moment: 11,
        what: What::Quiet,
        piece: b"",
    },
];

/// Returns a buffer that has room for each piece.
pub(crate) fn room(alloc: Global) -> Result<Vec<u8>, NoMemory>
    ensures { IfOk result (λ made. length made.items ≡ 1048576) }
{
    Ok(vec![in alloc; b'.'; 1_048_576]?)
}

/// Returns the script.
fn events(alloc: Global) -> Result<Script, ScriptRefusal>
    ensures { IfOk result (λ made. All IsArrival made) }
{
    script(alloc, SCRIPT)
}

/// Returns whether a host gives an event with its piece.
fn gives<H: Host>(host: &mut H, into: &mut [u8], wanted: &Given) -> bool
    requires { 1048576 ≤ length into.old }
    ensures { length into.new ≡ length into.old }
{
    let event = Event {
        moment: wanted.moment,
        what: wanted.what,
    };
    let found = host.next(into);
    found == Ok(Some(event)) && into.starts_with(wanted.piece)
}

/// Returns whether a host gives the events of the script, and then none, as often as it is asked.
fn gives_all<H: Host>(host: &mut H, into: &mut [u8]) -> bool
    requires { 1048576 ≤ length into.old }
{
    for wanted in &GIVEN {
        if !gives(host, into, wanted) {
            return false;
        }
    }
    let ended = host.next(into) == Ok(None);
    ended && host.next(into) == Ok(None)
}

/// Returns a host in memory that fails the listed calls.
fn host_failing(alloc: Global, ordinals: &[u64]) -> Result<MemHost, Fail> {
    let mut faults = Numbers::new(alloc);
    for ordinal in ordinals {
        faults.push(*ordinal)?;
    }
    Ok(MemHost::new(alloc, events(alloc)?, faults)?)
}

#[test]
fn a_host_in_memory_gives_the_events_of_its_script(rt: HostRuntime) -> Result<(), Fail> {
    let mut into = room(rt.alloc())?;
    let mut host = host_failing(rt.alloc(), &[])?;
    assert!(rt; gives_all(&mut host, &mut into));
    assert!(rt; host.starved() == 0);
    Ok(())
}

#[test]
fn a_host_over_a_script_gives_its_events(rt: HostRuntime) -> Result<(), Fail> {
    let mut into = room(rt.alloc())?;
    let mut host = ScriptHost::new(rt.alloc(), events(rt.alloc())?)?;
    assert!(rt; gives_all(&mut host, &mut into));
    assert!(rt; host.into_frames().as_slice().is_empty());
    Ok(())
}

/// Returns whether what a host's connections took is kept for each, beside the others.
fn keeps_each(host: &mut MemHost) -> bool {
    let first = host.send(1, b"ab") == Ok(());
    let far = host.send(70_000, b"x") == Ok(());
    let second = host.send(1, b"c") == Ok(());
    let taken = host.taken(1) == b"abc".as_slice() && host.taken(70_000) == b"x".as_slice();
    first && far && second && taken && host.taken(2).is_empty()
}

/// Returns whether closings are told of connections below 65,536 alone.
fn tells_closings(host: &mut MemHost) -> bool {
    let before = host.is_closed(65_535) || host.is_closed(65_536);
    host.close(65_535);
    host.close(65_535);
    host.close(65_536);
    let after = host.is_closed(65_535) && !host.is_closed(65_536);
    !before && after && !host.is_closed(1)
}

#[test]
fn a_host_in_memory_keeps_what_connections_take(rt: HostRuntime) -> Result<(), Fail> {
    let mut host = host_failing(rt.alloc(), &[])?;
    assert!(rt; keeps_each(&mut host));
    assert!(rt; tells_closings(&mut host));
    Ok(())
}

/// Returns whether the second and the third of a host's calls fail, with nothing given or taken.
fn fails_in_order(host: &mut MemHost, into: &mut [u8]) -> bool
    requires { 1048576 ≤ length into.old }
{
    let (first, second) = (&GIVEN[0], &GIVEN[1]);
    let given = gives(host, into, first);
    let failed = host.next(into) == Err(HostFault);
    let lost = host.send(1, b"a") == Err(HostFault) && host.taken(1).is_empty();
    let sent = host.send(1, b"b") == Ok(()) && host.taken(1) == b"b".as_slice();
    given && failed && lost && sent && gives(host, into, second)
}

#[test]
fn listed_calls_fail(rt: HostRuntime) -> Result<(), Fail> {
    let mut into = room(rt.alloc())?;
    let mut host = host_failing(rt.alloc(), &[2, 3])?;
    assert!(rt; fails_in_order(&mut host, &mut into));
    assert!(rt; host.starved() == 0);
    Ok(())
}

/// Returns whether a write to a connection's sink is taken, and a listed one is a fault.
fn writes_to_sink(host: &mut MemHost) -> bool {
    let mut sink = ConnSink { host, conn: 9 };
    let first = sink.write(b"ab") == Ok(());
    first && sink.write(b"c") == Err(SinkFault)
}

#[test]
fn a_connection_is_a_sink(rt: HostRuntime) -> Result<(), Fail> {
    let mut host = host_failing(rt.alloc(), &[2])?;
    assert!(rt; writes_to_sink(&mut host));
    assert!(rt; host.taken(9) == b"ab".as_slice());
    Ok(())
}

/// Sends a text and returns whether it was taken.
fn sends(host: &mut ScriptHost, conn: u32, bytes: &[u8]) -> bool {
    host.send(conn, bytes) == Ok(())
}

/// Returns whether a host goes through three events, at which connections are written to and closed.
fn writes_at_events(host: &mut ScriptHost, into: &mut [u8]) -> bool
    requires { 1048576 ≤ length into.old }
{
    let (first, second, third) = (&GIVEN[0], &GIVEN[1], &GIVEN[2]);
    let begun = gives(host, into, first) && sends(host, 7, b"bb") && sends(host, 1, b"a\n");
    host.close(9);
    let more = sends(host, 7, b"c") && sends(host, 8, b"");
    host.close(1);
    let next = gives(host, into, second) && sends(host, 65_535, b"z") && sends(host, 7, b"d");
    let last = gives(host, into, third) && sends(host, 7, b"not framed yet");
    begun && more && next && last && host.starved() == 0
}

/// The frames of the first two events.
const FRAMES: &[u8] = b"1 2\na\n\n7 3\nbbc\n1 closed\n9 closed\n7 1\nd\n65535 1\nz\n";

#[test]
fn frames_are_those_of_the_events_before_the_last(rt: HostRuntime) -> Result<(), Fail> {
    let mut into = room(rt.alloc())?;
    let mut host = ScriptHost::new(rt.alloc(), events(rt.alloc())?)?;
    assert!(rt; writes_at_events(&mut host, &mut into));
    assert!(rt; host.into_frames().as_slice() == FRAMES);
    Ok(())
}
