//! What sessions that idle are told after each event (RFC 2177).
//! Writes the disk; syncs.
ghost use Rattle.std.specs.Prelude.{◌≡◌, ◌≤◌, ℕ, true, false, None};
ghost use Rattle.arch_model.specs.Archives.{Archive};
ghost use Rattle.arch_model.specs.Standing.{LastKnown, standing};
ghost use Rattle.node_serve.specs.Hosted.{EventsStay, UpdatesAt, UpdatesAnywayAt};
ghost use Rattle.node_serve.specs.Nodes.{AroundAt, IsLeastIdle, LeftAlone, places_of, serving, world_of};
ghost use Rattle.node_serve.specs.Notes.{NoteStays, note_through, reads_only_if};
ghost use Rattle.node_serve.specs.Suiting.{SessionSuitsIf};
ghost use Rattle.node_serve.specs.Updates.{EachBelow, UpdateAt, connection_limit, idles_if};
ghost use Rattle.node_serve.specs.World.{at_host};

use crate::laws::update_law;
use crate::places::{Sessions, end};
use crate::session::update_one;
use arch_model::{Keep, Next, Shelf};
use edge_io::Host;

/// What is noted of the sessions that idle.
#[derive(Clone, Copy, Drop)]
pub enum Idling {
    /// No session idles.
    Nobody,
    /// Those that idle have nothing more to be told.
    Told,
    /// They may have more to be told.
    Untold,
}

/// Returns what is noted after the session of a connection changed, and nothing else did.
pub(crate) fn noted(idling: Idling, conn: u32, sessions: &Sessions) -> Idling
    ensures { NoteStays idling ((places_of sessions.now.entries).session conn) result }
{
    if idles_at(conn, sessions) {
        return Idling::Untold;
    }
    idling
}

/// Returns what is noted of others after a piece that comes to a connection. It may change what they are
/// to be told, unless the door only reads.
pub(crate) fn noted_through(idling: Idling, conn: u32, sessions: &Sessions) -> Idling
    ensures { result ≡ note_through idling
        (reads_only_if ((places_of sessions.now.entries).session conn)) }
{
    match idling {
        Idling::Nobody => Idling::Nobody,
        Idling::Told => {
            if only_reads_at(conn, sessions) {
                return Idling::Told;
            }
            Idling::Untold
        }
        Idling::Untold => Idling::Untold,
    }
}

/// Returns whether a piece that comes to a connection at most reads.
fn only_reads_at(conn: u32, sessions: &Sessions) -> bool
    ensures { result ≡ reads_only_if ((places_of sessions.now.entries).session conn) }
{
    match sessions.get(&conn) {
        None => true,
        Some(session) => session.only_reads(),
    }
}

/// Returns whether a connection has a session that idles.
fn idles_at(conn: u32, sessions: &Sessions) -> bool
    ensures { result ≡ idles_if ((places_of sessions.now.entries).session conn) }
{
    match sessions.get(&conn) {
        None => false,
        Some(session) => session.is_idle(),
    }
}

/// Gives each session that idles its update, in rising order of connections, once the archive was
/// reopened. If that is refused, none is given one. Returns what is noted then.
///
/// Does nothing where it is noted that no session idles, or that all were told.
pub(crate) fn update_all<K: Keep, H: Host>(
    idling: Idling,
    keep: &mut K,
    sessions: &mut Sessions,
    host: &mut H,
) -> Idling
    ensures updated { UpdatesAt K.Keep H.Host false
        (serving keep.old sessions.old.entries idling) host.old
        (serving keep.new sessions.new.entries result) host.new }
    ensures anyway { UpdatesAnywayAt K.Keep H.Host false
        (serving keep.old sessions.old.entries idling) host.old
        (serving keep.new sessions.new.entries result) host.new }
    ensures alone { LeftAlone K.Keep false (serving keep.old sessions.old.entries idling) keep.new }
    ensures shut { K.ready keep.new ≡ false → UpdatesAnywayAt K.Keep H.Host true
        (serving keep.old sessions.old.entries idling) host.old
        (serving keep.new sessions.new.entries result) host.new }
    ensures later { K.faults keep.old ≤ K.faults keep.new }
    ensures events { EventsStay H.Host host.old host.new }
{
    update_law();
    match idling {
        Idling::Nobody => Idling::Nobody,
        Idling::Told => Idling::Told,
        Idling::Untold => update_untold(keep, sessions, host),
    }
}

/// Does what `update_all` does where nothing is noted.
fn update_untold<K: Keep, H: Host>(keep: &mut K, sessions: &mut Sessions, host: &mut H) -> Idling
    ensures updated { UpdatesAt K.Keep H.Host false
        (serving keep.old sessions.old.entries Idling.Untold) host.old
        (serving keep.new sessions.new.entries result) host.new }
    ensures anyway { UpdatesAnywayAt K.Keep H.Host false
        (serving keep.old sessions.old.entries Idling.Untold) host.old
        (serving keep.new sessions.new.entries result) host.new }
    ensures alone { LeftAlone K.Keep false (serving keep.old sessions.old.entries Idling.Untold)
        keep.new }
    ensures shut { K.ready keep.new ≡ false → UpdatesAnywayAt K.Keep H.Host true
        (serving keep.old sessions.old.entries Idling.Untold) host.old
        (serving keep.new sessions.new.entries result) host.new }
    ensures later { K.faults keep.old ≤ K.faults keep.new }
    ensures events { EventsStay H.Host host.old host.new }
{
    update_law();
    match next_idle(sessions, 0) {
        None => Idling::Nobody,
        Some(_) => match keep.fresh() {
            Ok(()) => {
                update_each(keep, sessions, host);
                Idling::Told
            }
            Err(_) => Idling::Untold,
        },
    }
}

/// Gives each session that idles its update over an open archive, in rising order of connections.
fn update_each<S: Shelf, H: Host>(shelf: &S, sessions: &mut Sessions, host: &mut H)
    requires ready { S.ready shelf.now ≡ true }
    ensures updated { (a : Archive) (disk : ℕ) → S.holds shelf.now a
        → ((c : ℕ) → SessionSuitsIf a ((places_of sessions.old.entries).session c))
        → EachBelow UpdateAt connection_limit
        (world_of (standing a None) (places_of sessions.old.entries) (at_host H.Host host.old disk))
        (world_of (standing a None) (places_of sessions.new.entries) (at_host H.Host host.new disk)) }
    ensures anyway { (s : LastKnown) (disk : ℕ) → EachBelow AroundAt connection_limit
        (world_of s (places_of sessions.old.entries) (at_host H.Host host.old disk))
        (world_of s (places_of sessions.new.entries) (at_host H.Host host.new disk)) }
    ensures events { EventsStay H.Host host.old host.new }
{
    let mut from = 0;
    loop {
        match next_idle(sessions, from) {
            None => return,
            Some(conn) => {
                update_at(conn, shelf, sessions, host);
                from = u64::from(conn) + 1;
            }
        }
    }
}

/// Returns the least connection with a number from the given one on whose session idles.
#[tactic(auto, unfolding(crate::specs::Updates::connection_limit))]
fn next_idle(sessions: &Sessions, from: u64) -> Option<u32>
    requires { from ≤ connection_limit }
    ensures { IsLeastIdle (places_of sessions.now.entries) from result }
{
    let mut next = u32::try_from(from).ok()?;
    loop {
        let (conn, session) = sessions.range(next..).next()?;
        if session.is_idle() {
            return Some(*conn);
        }
        next = conn.checked_add(1)?;
    }
}

/// Gives the session of a connection, which idles, its update, and closes the connection if no session is
/// left.
fn update_at<S: Shelf, H: Host>(conn: u32, shelf: &S, sessions: &mut Sessions, host: &mut H)
    requires ready { S.ready shelf.now ≡ true }
    requires idles { idles_if ((places_of sessions.old.entries).session conn) ≡ true }
    ensures updated { (a : Archive) (disk : ℕ) → S.holds shelf.now a
        → SessionSuitsIf a ((places_of sessions.old.entries).session conn) → UpdateAt conn
        (world_of (standing a None) (places_of sessions.old.entries) (at_host H.Host host.old disk))
        (world_of (standing a None) (places_of sessions.new.entries) (at_host H.Host host.new disk)) }
    ensures anyway { (s : LastKnown) (disk : ℕ) → AroundAt conn
        (world_of s (places_of sessions.old.entries) (at_host H.Host host.old disk))
        (world_of s (places_of sessions.new.entries) (at_host H.Host host.new disk)) }
    ensures events { EventsStay H.Host host.old host.new }
{
    match sessions.get_mut(&conn) {
        None => {}
        Some(session) => match update_one(session, shelf, conn, host) {
            Next::Go => {}
            Next::Close => {
                host.close(conn);
                end(conn, sessions);
            }
        },
    }
}
