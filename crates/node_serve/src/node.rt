//! A node: a keeper, and the sessions of all connections over it.
//! Writes the disk; syncs.
ghost use Rattle.std.specs.Prelude.{◌≡◌, ◌≤◌, ℕ, true, false, length, None};
ghost use Rattle.arch_base.specs.Moments.{last_moment};
ghost use Rattle.edge_io.specs.Events.{piece_len};
ghost use Rattle.node_serve.specs.Ends.{is_stop as stops};
ghost use Rattle.node_serve.specs.Hosted.{EventsStay, TurnsAt, ActsAt, ActsAnywayAt, UpdatesAt, UpdatesAnywayAt};
ghost use Rattle.node_serve.specs.Nodes.{LeftAlone, ReadsForEvent, places_in};
ghost use Rattle.node_serve.specs.Notes.{NotesAfter};

use crate::laws::suiting_law;
use crate::places::{Sessions, admit, end, feed};
use crate::updates::{Idling, noted, noted_through, update_all};
use arch_model::Keep;
use edge_io::{Event, Host, What};
use std::alloc::Global;
use std::collections::BTreeMap;
use std::marker::Model;

/// A node: a keeper of an archive, and the sessions of all connections over it.
///
/// A contract sees it as its keeper, the session of each connection that has one, and what is noted of
/// those that idle.
#[derive(Drop)]
pub struct Node<K> {
    alloc: Global,
    keep: K,
    sessions: Sessions,
    idling: Idling,
}

impl<K> Model for Node<K> {
    ghost use Rattle.node_serve.specs.Nodes.{Serving, serving};

    ghost Value = { Serving K };

    ghost view = { λ n. serving n.keep n.sessions.entries n.idling };
}

impl<K: Keep> Node<K> {
    /// Returns a node without sessions.
    pub fn new(alloc: Global, keep: K) -> Node<K>
        ensures keep { result.keep ≡ keep }
        ensures none { (c : ℕ) → (places_in result).session c ≡ None }
        ensures count { (places_in result).count ≡ 0 }
        ensures idling { result.idling ≡ Idling.Nobody }
    {
        Node {
            alloc,
            keep,
            sessions: BTreeMap::new(alloc),
            idling: Idling::Nobody,
        }
    }

    /// Returns the keeper. All sessions end without a word.
    pub fn into_keep(self) -> K
        ensures { result ≡ self.keep }
    {
        let Node {
            alloc: _,
            keep,
            sessions: _,
            idling: _,
        } = self;
        keep
    }

    /// Takes an event to its end. `piece` has the bytes of a `Bytes` event, and is empty for any
    /// other.
    ///
    /// * A connection that opens ends its open session without a word, if it has one. Then its door
    ///   greets, or refuses it with its word if 256 others are open, or if memory runs out.
    /// * Bytes are answered by the session of their connection, once the archive was reopened. Without
    ///   a session they are skipped.
    /// * A connection that ends ends its session.
    ///
    /// Then, unless the event is a stop, each session that idles is told what changed, in rising order of
    /// connections, once the archive was reopened. If that is refused, none is told. Nothing is done where
    /// no session idles, or where all were told and nothing changed since.
    ///
    /// A failed send ends the session of that connection alone, and closes the connection. One that
    /// the event closes is closed after all that is written to it. A crash since the call began
    /// leaves an archive that stood before it or after one of its acts, or one that was in doubt
    /// there.
    ///
    /// After each act of a piece, before the next request is answered, the keeper matches what stands
    /// then: its files are exactly those of the archive, where nothing is in doubt. Its count of faults
    /// is the one that the act leaves. A reopening of a ready keeper says nothing, and is not refused. So
    /// it is after the reopening before updates, which leave the keeper.
    ///
    /// A ready keeper isn't reopened: a piece reads no more texts than the requests ask for that it makes
    /// whole, at each door but that of LMTP, and an event that is no piece reads none. The keeper stays
    /// ready, unless a request at the control door may change the archive. Updates read nothing, unless the
    /// keeper has to be reopened for them.
    ///
    /// All this is so where what clients of IMAP know suits the archive, as it does after `new` over a valid
    /// archive, and after each call.
    ///
    /// Where the keeper holds no archive, as after a file was found damaged, nothing is said of what is
    /// written to the connection. Nothing changes all the same of other connections, but of those whose
    /// sessions idle, and of these only where the keeper is ready after the call.
    pub fn turn<H: Host>(&mut self, event: &Event, piece: &[u8], host: &mut H)
        requires moment { event.now.moment ≤ last_moment }
        requires whole { length piece.now ≡ piece_len event.now.what }
        ensures turned { TurnsAt K.Keep H.Host (event.now, piece.now) self.old host.old self.new
            host.new }
        ensures later { K.faults self.old.keep ≤ K.faults self.new.keep }
        ensures events { EventsStay H.Host host.old host.new }
    {
        suiting_law();
        self.act(event, piece, host);
        self.update(event.what, host);
    }

    /// Takes the acts of an event.
    fn act<H: Host>(&mut self, event: &Event, piece: &[u8], host: &mut H)
        requires moment { event.now.moment ≤ last_moment }
        requires whole { length piece.now ≡ piece_len event.now.what }
        ensures acted { ActsAt K.Keep H.Host (event.now, piece.now) self.old host.old self.new
            host.new }
        ensures anyway { ActsAnywayAt K.Keep H.Host (event.now, piece.now) self.old host.old self.new
            host.new }
        ensures reads { ReadsForEvent K.Keep event.now.moment event.now.what piece.now
            self.old self.new }
        ensures noted { NotesAfter event.now.what self.old self.new }
        ensures later { K.faults self.old.keep ≤ K.faults self.new.keep }
        ensures events { EventsStay H.Host host.old host.new }
    {
        match event.what {
            What::Opened { conn, door } => {
                let moment = event.moment;
                admit(self.alloc, conn, door, moment, &mut self.sessions, host);
                self.idling = noted(self.idling, conn, &self.sessions);
            }
            What::Bytes { conn, .. } => {
                let moment = event.moment;
                let through = noted_through(self.idling, conn, &self.sessions);
                feed(
                    conn,
                    moment,
                    piece,
                    &mut self.keep,
                    &mut self.sessions,
                    host,
                );
                self.idling = noted(through, conn, &self.sessions);
            }
            What::Ended { conn } => {
                end(conn, &mut self.sessions);
                self.idling = noted(self.idling, conn, &self.sessions);
            }
            What::Quiet => {}
            What::Stop => {}
        }
    }

    /// Gives the updates after what happened, unless that is a stop.
    fn update<H: Host>(&mut self, happened: What, host: &mut H)
        ensures updated { UpdatesAt K.Keep H.Host (stops happened) self.old host.old self.new host.new }
        ensures anyway { UpdatesAnywayAt K.Keep H.Host (stops happened) self.old host.old self.new
            host.new }
        ensures alone { LeftAlone K.Keep (stops happened) self.old self.new.keep }
        ensures shut { K.ready self.new.keep ≡ false
            → UpdatesAnywayAt K.Keep H.Host true self.old host.old self.new host.new }
        ensures later { K.faults self.old.keep ≤ K.faults self.new.keep }
        ensures events { EventsStay H.Host host.old host.new }
    {
        if is_stop(happened) {
            return;
        }
        self.idling = update_all(self.idling, &mut self.keep, &mut self.sessions, host);
    }
}

/// Returns whether an event is a stop.
pub(crate) fn is_stop(what: What) -> bool
    ensures { result ≡ stops what }
{
    match what {
        What::Stop => true,
        _ => false,
    }
}
