//! The sessions of connections: how each is made, answers its pieces, and ends.
//! Writes the disk; syncs.
ghost use Rattle.std.specs.Prelude.{◌≡◌, ◌≤◌, ◌<◌, ℕ, None};
ghost use Rattle.arch_base.specs.Moments.{last_moment};
ghost use Rattle.arch_model.specs.Standing.{LastKnown};
ghost use Rattle.edge_io.specs.declared.events.What.TheVariants.{Bytes};
ghost use Rattle.node_serve.specs.Hosted.{EventsStay, ActsAt, ActsAnywayAt};
ghost use Rattle.node_serve.specs.Doors.{session_limit};
ghost use Rattle.node_serve.specs.Nodes.{OpenSessions, MakesSession, SessionEnds, GotSession, IsPut, ReadsCame, places_of, serving};
ghost use Rattle.node_serve.specs.World.{at_host};
ghost use Rattle.node_serve.specs.declared.updates.Idling.{Idling};

use crate::session::{Session, feed_one};
use crate::welcome::{greet_client, refuse};
use arch_model::{Keep, Next};
use control_door::Session as ControlSession;
use edge_io::{Door, Host};
use keep_course::Refusal;
use std::alloc::Global;
use std::collections::BTreeMap;

/// The greatest number of open sessions.
const SESSION_LIMIT: usize = 256;

/// The session of each connection that has one.
pub(crate) type Sessions = BTreeMap<u32, Session>;

/// Ends the session of a connection without a word, if it has one.
pub(crate) fn end(conn: u32, sessions: &mut Sessions)
    ensures { SessionEnds conn (places_of sessions.old.entries) (places_of sessions.new.entries) }
{
    let _ = sessions.remove(&conn);
}

/// Ends the session of a connection, and makes a new one of a door, or refuses it.
pub(crate) fn admit<H: Host>(
    alloc: Global,
    conn: u32,
    door: Door,
    moment: u64,
    sessions: &mut Sessions,
    host: &mut H,
)
    requires moment { moment ≤ last_moment }
    ensures made { (disk : ℕ) → MakesSession moment door conn (places_of sessions.old.entries)
        (at_host H.Host host.old disk)
        (places_of sessions.new.entries)
        (at_host H.Host host.new disk) }
    ensures events { EventsStay H.Host host.old host.new }
{
    end(conn, sessions);
    if sessions.len() >= SESSION_LIMIT {
        refuse(door, Refusal::Busy, conn, moment, host);
        return;
    }
    make_session(door, alloc, conn, moment, sessions, host)
}

/// Makes a session of a door at a connection without one, or refuses it if memory runs out.
///
/// Its place is found first, by a session that takes no memory. So none greets that has no place.
fn make_session<H: Host>(
    door: Door,
    alloc: Global,
    conn: u32,
    moment: u64,
    sessions: &mut Sessions,
    host: &mut H,
)
    requires moment { moment ≤ last_moment }
    requires none { (places_of sessions.old.entries).session conn ≡ None }
    requires few { (places_of sessions.old.entries).count < session_limit }
    ensures made { (disk : ℕ) → MakesSession moment door conn (places_of sessions.old.entries)
        (at_host H.Host host.old disk)
        (places_of sessions.new.entries)
        (at_host H.Host host.new disk) }
    ensures events { EventsStay H.Host host.old host.new }
{
    match sessions.insert(conn, Session::Control(ControlSession::open(alloc))) {
        Ok(_) => greet(door, alloc, conn, sessions, host),
        Err(_) => refuse(door, Refusal::NoMemory, conn, moment, host),
    }
}

/// Opens a session in the place of the one that a connection has, and greets. If the greeting is lost, the
/// connection is closed and has no session.
fn greet<H: Host>(door: Door, alloc: Global, conn: u32, sessions: &mut Sessions, host: &mut H)
    ensures made { (disk moment : ℕ) (p : OpenSessions) → GotSession conn p (places_of sessions.old.entries)
        → p.count < session_limit → MakesSession moment door conn p
        (at_host H.Host host.old disk)
        (places_of sessions.new.entries)
        (at_host H.Host host.new disk) }
    ensures events { EventsStay H.Host host.old host.new }
{
    let (session, next) = greet_client(door, alloc, conn, host);
    match next {
        Next::Go => put(conn, session, sessions),
        Next::Close => {
            host.close(conn);
            end(conn, sessions);
        }
    }
}

/// Puts a session in the place of the one that a connection has.
fn put(conn: u32, session: Session, sessions: &mut Sessions)
    ensures { (p : OpenSessions) → GotSession conn p (places_of sessions.old.entries)
        → IsPut conn session (places_of sessions.old.entries) (places_of sessions.new.entries) }
{
    if let Some(place) = sessions.get_mut(&conn) {
        *place = session;
    }
}

/// Answers a piece of a connection that has a session, and closes the connection if none is left.
pub(crate) fn feed<K: Keep, H: Host>(
    conn: u32,
    moment: u64,
    piece: &[u8],
    keep: &mut K,
    sessions: &mut Sessions,
    host: &mut H,
)
    requires moment { moment ≤ last_moment }
    ensures acted { (len : ℕ) (before after : Idling) → ActsAt K.Keep H.Host
        (record { moment = moment; what = Bytes conn len }, piece.now)
        (serving keep.old sessions.old.entries before) host.old
        (serving keep.new sessions.new.entries after) host.new }
    ensures anyway { (len : ℕ) (before after : Idling) → ActsAnywayAt K.Keep H.Host
        (record { moment = moment; what = Bytes conn len }, piece.now)
        (serving keep.old sessions.old.entries before) host.old
        (serving keep.new sessions.new.entries after) host.new }
    ensures reads { ReadsCame K.Keep moment
        ((places_of sessions.old.entries).session conn) piece.now keep.old keep.new }
    ensures later { K.faults keep.old ≤ K.faults keep.new }
    ensures events { EventsStay H.Host host.old host.new }
{
    match sessions.get_mut(&conn) {
        None => {}
        Some(session) => match feed_one(session, piece, moment, keep, conn, host) {
            Next::Go => {}
            Next::Close => {
                host.close(conn);
                end(conn, sessions);
            }
        },
    }
}
