//! A host over sockets.
//! Calls the system.
ghost use Rattle.std.specs.Prelude.{◌≡◌, ◌≤◌, None, IfOk, length};
ghost use Rattle.arch_base.specs.Moments.{IsMoment};
ghost use Rattle.real_edges.specs.Sockets.{MayHappen};

use crate::faults::Faults;
use crate::progress::Progress;
use crate::sockets::{NotHeard, Ports, Sockets};
use crate::system_clock::moment_of;
use arch_base::NoMemory;
use edge_io::{Event, Host, HostFault};
use std::alloc::Global;
use std::fmt::Display;
use std::io::{self, ErrorKind};
use std::marker::Model;
use std::time::SystemTime;

/// A host over sockets on the loopback interface. It doesn't tell what it gives or what its
/// connections take.
///
/// It listens at the ports of the doors that the server has: control at its port, HTTP at the next,
/// NNTP at the one after that, POP3 at its port plus 4, and LMTP at its port plus 5. It waits in the
/// system until something happens, and gives `Quiet` if nothing did for about 100 ms. The end of a
/// standard input that is a pipe gives `Stop`. Up to 512 clients are there at once, and others wait.
///
/// A client that doesn't take 65,536 bytes within 10 s makes its `send` fail. All others wait
/// meanwhile.
#[derive(Drop)]
pub struct SocketHost<'a> {
    rt: HostRuntime,
    alloc: Global,
    port: u16,
    // Where it says that it listens, or can't.
    progress: Option<&'a Progress>,
    sockets: Option<Sockets>,
    faults: Faults<io::Error>,
    lost: u64,
}

// Contracts see the numbers of failed calls.
impl<'a> Model for SocketHost<'a> {
    ghost use Rattle.real_edges.specs.Sockets.{HostCounts};

    ghost Value = { HostCounts };

    ghost view = { λ s. record { faults = s.faults; lost = s.lost } };
}

impl<'a> SocketHost<'a> {
    /// Returns a host at a port. It listens from its first `next` on, and no call has failed yet.
    pub fn listen(rt: &HostRuntime, alloc: Global, port: u16) -> Result<SocketHost<'a>, NoMemory>
        ensures { IfOk result (λ host. host ≡ record { faults = 0; lost = 0 }) }
    {
        SocketHost::new(rt, alloc, port, None)
    }

    /// Returns a host at a port, as `listen` does, of a run with this standard error. It says there
    /// where it listens, once it does, or where it can't.
    pub fn listen_telling(
        rt: &HostRuntime,
        alloc: Global,
        port: u16,
        progress: &'a Progress,
    ) -> Result<SocketHost<'a>, NoMemory>
        ensures { IfOk result (λ host. host ≡ record { faults = 0; lost = 0 }) }
    {
        SocketHost::new(rt, alloc, port, Some(progress))
    }

    /// Returns a host at a port.
    fn new(
        rt: &HostRuntime,
        alloc: Global,
        port: u16,
        progress: Option<&'a Progress>,
    ) -> Result<SocketHost<'a>, NoMemory>
        ensures { IfOk result (λ host. host ≡ record { faults = 0; lost = 0 }) }
    {
        Ok(SocketHost {
            rt: *rt,
            alloc,
            port,
            progress,
            sockets: None,
            faults: Faults::new(),
            lost: 0,
        })
    }

    /// Returns the system's words for the first failed call of `next`, or `None` if none has failed.
    pub fn cause(&self, alloc: Global) -> Result<Option<String>, NoMemory> {
        self.faults.words(alloc)
    }
}

impl<'a> Host for SocketHost<'a> {
    ghost left = { λ s. None };

    ghost given = { λ s. None };

    ghost taken = { λ s conn. None };

    ghost closings = { λ s conn. None };

    ghost recorded = { λ s past. Unit {0} };

    ghost faults = { λ s. s.faults };

    ghost lost = { λ s. s.lost };

    ghost closed_at = { λ s conn. None };

    fn next(&mut self, into: &mut [u8]) -> Result<Option<Event>, HostFault> {
        let (port, progress) = (self.port, self.progress);
        match event_of(
            &self.rt,
            self.alloc,
            port,
            progress,
            &mut self.sockets,
            into,
        ) {
            Ok(event) => Ok(Some(event)),
            Err(refused) => {
                self.faults.add(refused);
                Err(HostFault)
            }
        }
    }

    fn send(&mut self, conn: u32, bytes: &[u8]) -> Result<(), HostFault> {
        let sent = match &mut self.sockets {
            Some(open) => open.send(&self.rt, conn, bytes).is_ok(),
            None => false,
        };
        if sent {
            return Ok(());
        }
        self.lost = self.lost.saturating_add(1);
        Err(HostFault)
    }

    fn close(&mut self, conn: u32) {
        if let Some(open) = &mut self.sockets {
            open.close(conn);
        }
    }
}

/// Returns what happened next at sockets, and when. Makes the listeners if they aren't there, and says
/// then where they listen, or where they can't.
fn event_of(
    rt: &HostRuntime,
    alloc: Global,
    port: u16,
    progress: Option<&Progress>,
    sockets: &mut Option<Sockets>,
    into: &mut [u8],
) -> io::Result<Event>
    ensures moment { IfOk result (λ event. IsMoment event.moment) }
    ensures what { IfOk result (λ event. MayHappen into.new event.what) }
{
    if sockets.is_none() {
        match Sockets::open(rt, alloc, port) {
            Ok(open) => *sockets = Some(open),
            Err(refused) => {
                tell(progress, NotHeard(port));
                return Err(refused);
            }
        }
        tell(progress, Ports(port));
    }
    let Some(open) = sockets else {
        return Err(ErrorKind::NotConnected.into());
    };
    let what = open.next(into)?;
    let moment = moment_of(SystemTime::now(rt))?;
    Ok(Event { moment, what })
}

/// Says something on the standard error of a run, after its line of progress.
fn tell<T: Display + Drop>(progress: Option<&Progress>, words: T) {
    if let Some(progress) = progress {
        progress.end();
        progress.say(words);
    }
}
