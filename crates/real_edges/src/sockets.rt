//! Sockets of clients on the loopback interface, and what happens at them.
//! Calls the system.
ghost use Rattle.std.specs.Prelude.{ℕ, List, IfOk, IfSome};
ghost use Rattle.real_edges.specs.Sockets.{MayHappen};

use crate::client::{Client, Heard};
use edge_io::{Door, What};
use mio::net::{TcpListener, TcpStream};
use mio::unix::SourceFd;
use mio::{Events, Interest, Poll, Token};
use std::alloc::Global;
use std::fmt::{self, Display};
use std::io::{self, ErrorKind};
use std::net::{Ipv4Addr, SocketAddr};
use std::time::{Clock, Duration};

/// A door of the server, and how far its port is from the base port.
#[derive(Clone, Copy)]
struct Port {
    door: Door,
    offset: u16,
}

/// The doors of the server.
const PORTS: [Port; LISTENERS] = [
    Port {
        door: Door::Control,
        offset: 0,
    },
    Port {
        door: Door::Http,
        offset: 1,
    },
    Port {
        door: Door::Nntp,
        offset: 2,
    },
    Port {
        door: Door::Imap,
        offset: 3,
    },
    Port {
        door: Door::Pop3,
        offset: 4,
    },
    Port {
        door: Door::Lmtp,
        offset: 5,
    },
];

/// The ports of the doors of the server, by the first, in the words in which it says where it
/// listens.
#[derive(Clone, Copy, Drop)]
pub(crate) struct Ports(pub(crate) u16);

impl Display for Ports {
    fn fmt<W: fmt::Write>(&self, f: &mut fmt::Formatter<W>) -> fmt::Result {
        let control = u32::from(self.0);
        let (http, nntp, imap) = (control + 1, control + 2, control + 3);
        let (pop3, lmtp) = (control + 4, control + 5);
        write!(
            f,
            "listening at 127.0.0.1: port {control} for commands, {http} for pages (HTTP), {nntp} for news (NNTP), {imap} for mailboxes (IMAP), {pop3} for mail (POP3), {lmtp} for deliveries (LMTP)"
        )
    }
}

/// The ports of the doors of the server, by the first, in the words in which it says that it
/// can't listen there.
#[derive(Clone, Copy, Drop)]
pub(crate) struct NotHeard(pub(crate) u16);

impl Display for NotHeard {
    fn fmt<W: fmt::Write>(&self, f: &mut fmt::Formatter<W>) -> fmt::Result {
        let control = u32::from(self.0);
        let last = control + 5;
        write!(
            f,
            "can't listen at ports {control} to {last} of 127.0.0.1; port=N asks for others"
        )
    }
}

/// The number of listeners. Their places in a circle come first.
const LISTENERS: usize = 6;

/// The number of clients. Their places in a circle come after those of the listeners.
const CLIENTS: usize = 512;

/// The number of places in a circle. The standard input is registered under this token.
const PLACES: usize = LISTENERS + CLIENTS;

/// The most events that one wait reports.
const EVENTS: usize = 1024;

/// The descriptor of the standard input.
const INPUT: i32 = 0;

/// A socket that listens at a door.
#[derive(Drop)]
struct Listener {
    socket: TcpListener,
    door: Door,
    // Whether a client may be waiting.
    ready: bool,
}

/// The listeners and the clients. A client's number is its place among the clients.
#[derive(Drop)]
pub(crate) struct Sockets {
    waiting: Poll,
    events: Events,
    writing: Poll,
    writable: Events,
    listeners: Vec<Listener>,
    clients: Vec<Option<Client>>,
    // The next place of the current circle.
    at: usize,
    // Whether the standard input, a pipe, is at its end.
    stop: bool,
}

impl Sockets {
    /// Listens at the ports of the doors of the server.
    pub(crate) fn open(rt: &HostRuntime, alloc: Global, port: u16) -> io::Result<Sockets> {
        let waiting = Poll::new(rt)?;
        watch_input(&waiting);
        let listeners = listen_all(rt, alloc, port, &waiting)?;
        Ok(Sockets {
            waiting,
            events: Events::with_capacity(alloc, EVENTS)?,
            writing: Poll::new(rt)?,
            writable: Events::with_capacity(alloc, 1)?,
            listeners,
            clients: no_clients(alloc)?,
            at: PLACES,
            stop: false,
        })
    }

    /// Returns what happened next, with the bytes of a client at the front of a buffer.
    ///
    /// `Quiet` if nothing happened for about 100 ms.
    pub(crate) fn next(&mut self, into: &mut [u8]) -> io::Result<What>
        ensures { IfOk result (λ what. MayHappen into.new what) }
    {
        if self.stop {
            return Ok(What::Stop);
        }
        if let Some(what) = self.scan(into) {
            return Ok(what);
        }
        if self.any_ready() {
            self.wait(Duration::ZERO)?;
            if let Some(what) = self.scan(into) {
                return Ok(what);
            }
        }
        self.wait(quiet())?;
        if let Some(what) = self.scan(into) {
            return Ok(what);
        }
        if self.stop {
            return Ok(What::Stop);
        }
        self.age();
        Ok(What::Quiet)
    }

    /// Sends bytes to a client, which has to take each part of them in time.
    pub(crate) fn send(&mut self, clock: &impl Clock, conn: u32, bytes: &[u8]) -> io::Result<()> {
        let Some(Some(client)) = self.clients.get_mut(conn as usize) else {
            return Err(ErrorKind::NotConnected.into());
        };
        client.send(clock, &mut self.writing, &mut self.writable, bytes)
    }

    /// Ends what is sent to a client. What it still sends is read and dropped for a while, so that
    /// the system doesn't drop what was sent to it.
    pub(crate) fn close(&mut self, conn: u32) {
        let Some(slot) = self.clients.get_mut(conn as usize) else {
            return;
        };
        let Some(client) = slot else {
            return;
        };
        if client.close().is_err() {
            *slot = None;
        }
    }

    /// Returns what is found from the current place on to the end of the circle.
    fn scan(&mut self, into: &mut [u8]) -> Option<What>
        ensures { IfSome result (λ what. MayHappen into.new what) }
    {
        for place in self.at..PLACES {
            self.at = place + 1;
            if place < LISTENERS {
                if let Some(what) = self.accept(place) {
                    return Some(what);
                }
            } else if let Some(what) = self.read(place - LISTENERS, into) {
                return Some(what);
            }
        }
        None
    }

    /// Begins a new circle: waits for so long until something is ready, and notes what is.
    fn wait(&mut self, time: Duration) -> io::Result<()> {
        self.at = 0;
        self.waiting.poll(&mut self.events, Some(time))?;
        for event in self.events.iter() {
            let place = event.token().0;
            if place == PLACES {
                // Only the end of a pipe is asked for, not what is written to it.
                self.stop = self.stop || event.is_read_closed();
            } else if place < LISTENERS {
                if let Some(listener) = self.listeners.get_mut(place) {
                    listener.ready = true;
                }
            } else if let Some(Some(client)) = self.clients.get_mut(place - LISTENERS) {
                client.note(event.is_read_closed() || event.is_error());
            }
        }
        Ok(())
    }

    /// Returns whether something was ready that no circle has used up.
    fn any_ready(&self) -> bool {
        self.listeners.iter().any(|listener| listener.ready)
            || self
                .clients
                .iter()
                .flatten()
                .any(|client| client.is_ready())
    }

    /// Takes the next client of a listener, if one may be waiting and there is a place for it.
    fn accept(&mut self, place: usize) -> Option<What>
        ensures { (into : List ℕ) → IfSome result (λ what. MayHappen into what) }
    {
        if !self.listeners.get(place)?.ready {
            return None;
        }
        let free = self.free_place()?;
        let listener = self.listeners.get_mut(place)?;
        match listener.socket.accept() {
            Ok((stream, _)) => {
                let door = listener.door;
                self.add(free, stream, door)
            }
            Err(refused) if refused.kind() == ErrorKind::WouldBlock => {
                listener.ready = false;
                None
            }
            // As where no descriptor is left. The client waits, and is asked for again.
            Err(_) => None,
        }
    }

    /// Returns a place without a client, or that of a client that was closed, or `None` if there
    /// are neither.
    fn free_place(&self) -> Option<usize> {
        let clients = &self.clients;
        if let Some(place) = clients.iter().position(|client| client.is_none()) {
            return Some(place);
        }
        clients.iter().position(|client| client.as_ref().is_some_and(|client| client.is_closed()))
    }

    /// Gives a new client its place.
    fn add(&mut self, place: usize, stream: TcpStream, door: Door) -> Option<What>
        ensures { (into : List ℕ) → IfSome result (λ what. MayHappen into what) }
    {
        if place >= CLIENTS {
            return None;
        }
        let mut stream = stream;
        let token = Token(LISTENERS + place);
        let registry = self.waiting.registry();
        registry
            .register(&mut stream, token, Interest::READABLE)
            .ok()?;
        // Without it replies are late, but whole.
        let _ = stream.set_nodelay(true);
        let slot = self.clients.get_mut(place)?;
        *slot = Some(Client::new(stream));
        Some(What::Opened {
            conn: place as u32,
            door,
        })
    }

    /// Reads from a client, if something may be there.
    fn read(&mut self, place: usize, into: &mut [u8]) -> Option<What>
        ensures { IfSome result (λ what. MayHappen into.new what) }
    {
        if place >= CLIENTS {
            return None;
        }
        let conn = place as u32;
        let slot = self.clients.get_mut(place)?;
        let Some(client) = slot else {
            return None;
        };
        match client.read(into) {
            Heard::Nothing => None,
            Heard::Bytes(len) => Some(What::Bytes { conn, len }),
            Heard::Ended => {
                *slot = None;
                Some(What::Ended { conn })
            }
            Heard::Gone => {
                *slot = None;
                None
            }
        }
    }

    /// Notes that it is quiet: clients that were heard are asked once more, since the system doesn't
    /// report what follows urgent data, and clients that were closed have less time.
    fn age(&mut self) {
        for slot in self.clients.iter_mut() {
            if let Some(client) = slot {
                if !client.age() {
                    *slot = None;
                }
            }
        }
    }
}

/// The time without a report after which it is quiet.
fn quiet() -> Duration {
    Duration::from_millis(100)
}

/// Has the end of the standard input reported. Only a pipe or a socket has one that can be.
fn watch_input(waiting: &Poll) {
    let registry = waiting.registry();
    let _ = registry.register(&mut SourceFd(&INPUT), Token(PLACES), Interest::READABLE);
}

/// Listens at the ports of all doors of the server.
fn listen_all(
    rt: &HostRuntime,
    alloc: Global,
    port: u16,
    waiting: &Poll,
) -> io::Result<Vec<Listener>> {
    let mut listeners = Vec::with_capacity(alloc, LISTENERS)?;
    for place in 0..LISTENERS {
        let wanted = PORTS[place];
        let Some(port) = port.checked_add(wanted.offset) else {
            return Err(ErrorKind::InvalidInput.into());
        };
        let address = SocketAddr::from((Ipv4Addr::LOCALHOST, port));
        let mut socket = TcpListener::bind(rt, address)?;
        let registry = waiting.registry();
        registry.register(&mut socket, Token(place), Interest::READABLE)?;
        let listener = Listener {
            socket,
            door: wanted.door,
            ready: true,
        };
        if listeners.push(listener).is_err() {
            return Err(ErrorKind::OutOfMemory.into());
        }
    }
    Ok(listeners)
}

/// Returns the places of all clients, of which none is there.
fn no_clients(alloc: Global) -> io::Result<Vec<Option<Client>>> {
    let mut clients = Vec::with_capacity(alloc, CLIENTS)?;
    for _ in 0..CLIENTS {
        if clients.push(None).is_err() {
            return Err(ErrorKind::OutOfMemory.into());
        }
    }
    Ok(clients)
}
