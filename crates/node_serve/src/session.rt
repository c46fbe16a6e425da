//! A session of one connection, and the answer to a piece.
//! Writes the disk; syncs.
ghost use Rattle.std.specs.Prelude.{◌≡◌, ◌≤◌, ℕ, List, true, None, Result};
ghost use Rattle.arch_base.specs.Moments.{last_moment};
ghost use Rattle.arch_model.specs.Keeping.{MatchesKnown};
ghost use Rattle.arch_model.specs.Next.{continues};
ghost use Rattle.arch_model.specs.Archives.{Archive};
ghost use Rattle.arch_model.specs.Standing.{LastKnown, standing};
ghost use Rattle.edge_io.specs.Phrases.{SaysTo};
ghost use Rattle.line_door.specs.Acts.{Acts, at_sink, held_if};
ghost use Rattle.node_serve.specs.Hosted.{ElsewhereStays};
ghost use Rattle.node_serve.specs.World.{at_host, outside_at};
ghost use Rattle.node_serve.specs.Doors.{door_of as door_of_session, unopened_words, with_piece};
ghost use Rattle.node_serve.specs.Nodes.{ReopensForPiece, AnswersPiece, FedFrom, ReadsAt};
ghost use Rattle.node_serve.specs.Notes.{reads_only};
ghost use Rattle.node_serve.specs.Suiting.{SessionSuits};
ghost use Rattle.node_serve.specs.Updates.{idles, said_update};

use crate::welcome::say_refusal;
use arch_model::{Keep, Next, OpenRefusal, Shelf};
use control_door::Session as ControlSession;
use edge_io::{ConnSink, Door, Host, Sink, SinkFault};
use http_front::HttpSession;
use imap_session::ImapSession;
use keep_course::Refusal;
use lmtp_door::LmtpSession;
use nntp_reader::NntpSession;
use pop3_reader::Pop3Session;

/// A session of a connection, by its door.
#[derive(Drop)]
pub enum Session {
    /// At the control door.
    Control(ControlSession),
    /// At the door of readers of news.
    News(NntpSession),
    /// At the door of clients that fetch mail.
    Pop(Pop3Session),
    /// At the door of pages.
    Http(HttpSession),
    /// At the door of mail systems that hand over mail.
    Lmtp(LmtpSession),
    /// At the door of clients that read mail in place.
    Imap(ImapSession),
}

impl Session {
    /// Returns whether the session idles.
    pub(crate) fn is_idle(&self) -> bool
        ensures { result ≡ idles self.now }
    {
        match self {
            Session::Imap(client) => client.is_idle(),
            _ => false,
        }
    }

    /// Returns whether the session's door only reads, so that no piece changes the archive.
    pub(crate) fn only_reads(&self) -> bool
        ensures { result ≡ reads_only self.now }
    {
        match self {
            Session::Control(_) => false,
            Session::News(_) => true,
            Session::Pop(_) => true,
            Session::Http(_) => true,
            Session::Lmtp(_) => false,
            Session::Imap(_) => true,
        }
    }
}

/// Answers a piece that came to a session of a connection. Returns whether the session continues.
///
/// The archive is reopened first. If that is refused, the door's word for it is written and the
/// session is closed. A failed send closes the session, too.
pub(crate) fn feed_one<K: Keep, H: Host>(
    session: &mut Session,
    piece: &[u8],
    moment: u64,
    keep: &mut K,
    conn: u32,
    host: &mut H,
) -> Next
    requires moment { moment ≤ last_moment }
    ensures fed { AnswersPiece K.Keep moment session.old piece.now keep.old
        (outside_at conn (at_host H.Host host.old (K.faults keep.old)))
        (continues result) session.new keep.new
        (outside_at conn (at_host H.Host host.new (K.faults keep.new))) }
    ensures reads { K.ready keep.old ≡ true → ReadsAt K.Keep moment session.old
        piece.now keep.old keep.new }
    ensures later { K.faults keep.old ≤ K.faults keep.new }
    ensures host { ElsewhereStays H.Host conn
        host.old host.new }
{
    let mut sink = ConnSink {
        host: &mut *host,
        conn,
    };
    take(session, piece, moment, keep, &mut sink)
}

/// Reopens the archive, and then feeds a piece. Returns whether the session continues.
fn take<K: Keep, O: Sink>(
    session: &mut Session,
    piece: &[u8],
    moment: u64,
    keep: &mut K,
    out: &mut O,
) -> Next
    requires moment { moment ≤ last_moment }
    ensures fed { AnswersPiece K.Keep moment session.old piece.now keep.old
        (at_sink O.Sink out.old (K.faults keep.old))
        (continues result) session.new keep.new
        (at_sink O.Sink out.new (K.faults keep.new)) }
    ensures reads { K.ready keep.old ≡ true → ReadsAt K.Keep moment session.old
        piece.now keep.old keep.new }
    ensures later { K.faults keep.old ≤ K.faults keep.new }
    ensures sink { O.alike out.old out.new }
{
    match reopen(session, moment, keep, out) {
        Next::Go => feed(session, piece, moment, keep, out),
        Next::Close => Next::Close,
    }
}

/// Reopens the archive before a piece. Returns whether it is open.
///
/// Does nothing if no command is in doubt. If reopening is refused, writes the door's word for it.
fn reopen<K: Keep, O: Sink>(session: &Session, moment: u64, keep: &mut K, out: &mut O) -> Next
    requires moment { moment ≤ last_moment }
    ensures acts { ReopensForPiece K.Keep moment session.now keep.old
        (at_sink O.Sink out.old (K.faults keep.old))
        (continues result) keep.new
        (at_sink O.Sink out.new (K.faults keep.new)) }
    ensures ready { continues result ≡ true → K.ready keep.new ≡ true }
    ensures nothing { K.ready keep.old ≡ true
        → (continues result ≡ true) × (keep.new ≡ keep.old) }
    ensures later { K.faults keep.old ≤ K.faults keep.new }
    ensures sink { O.alike out.old out.new }
{
    match keep.fresh() {
        Ok(()) => Next::Go,
        Err(refusal) => {
            let _ = say_shut(session, refusal, moment, out);
            Next::Close
        }
    }
}

/// Writes a door's word for an archive that was not reopened.
fn say_shut<O: Sink>(
    session: &Session,
    refusal: OpenRefusal,
    moment: u64,
    out: &mut O,
) -> Result<(), SinkFault>
    requires { moment ≤ last_moment }
    ensures said { SaysTo O.Sink (unopened_words moment session.now refusal) out.old out.new result }
    ensures sink { O.alike out.old out.new }
{
    say_refusal(door_of(session), Refusal::Unopened(refusal), moment, out)
}

/// Returns the door of a session.
fn door_of(session: &Session) -> Door
    ensures { result ≡ door_of_session session.now }
{
    match session {
        Session::Control(_) => Door::Control,
        Session::News(_) => Door::Nntp,
        Session::Pop(_) => Door::Pop3,
        Session::Http(_) => Door::Http,
        Session::Lmtp(_) => Door::Lmtp,
        Session::Imap(_) => Door::Imap,
    }
}

/// Answers the whole requests of a piece in order, and keeps the rest. Returns whether the session
/// continues.
fn feed<K: Keep, O: Sink>(
    session: &mut Session,
    piece: &[u8],
    moment: u64,
    keep: &mut K,
    out: &mut O,
) -> Next
    requires ready { K.ready keep.old ≡ true }
    requires moment { moment ≤ last_moment }
    ensures fed { (s : LastKnown) → MatchesKnown K.Keep keep.old s
        → SessionSuits s.archive session.old
        → FedFrom K.Keep moment (with_piece session.old piece.now) s keep.old
        (at_sink O.Sink out.old (K.faults keep.old))
        (continues result) session.new keep.new
        (at_sink O.Sink out.new (K.faults keep.new)) }
    ensures reads { ReadsAt K.Keep moment session.old piece.now keep.old keep.new }
    ensures later { K.faults keep.old ≤ K.faults keep.new }
    ensures sink { O.alike out.old out.new }
{
    match session {
        Session::Control(control) => control.feed(piece, moment, keep, out),
        Session::News(reader) => reader.feed(piece, moment, keep, out),
        Session::Pop(client) => client.feed(piece, moment, keep, out),
        Session::Http(pages) => pages.feed(piece, moment, keep, out),
        Session::Lmtp(mail) => mail.feed(piece, moment, keep, out),
        Session::Imap(client) => client.feed(piece, moment, keep, out),
    }
}

/// Tells the client of a session that idles what changed, through its connection. Returns whether the
/// session continues.
///
/// A session that doesn't idle is left alone.
pub(crate) fn update_one<S: Shelf, H: Host>(
    session: &mut Session,
    shelf: &S,
    conn: u32,
    host: &mut H,
) -> Next
    requires ready { S.ready shelf.now ≡ true }
    ensures told { (a : Archive) (disk : ℕ) → S.holds shelf.now a → SessionSuits a session.old
        → Acts (said_update (standing a None) session.old)
        (outside_at conn (at_host H.Host host.old disk))
        (held_if (continues result) session.new) (standing a None)
        (outside_at conn (at_host H.Host host.new disk)) }
    ensures host { ElsewhereStays H.Host conn host.old host.new }
{
    let mut sink = ConnSink {
        host: &mut *host,
        conn,
    };
    tell_session(session, shelf, &mut sink)
}

/// Tells the client of a session that idles what changed. Returns whether the session continues.
fn tell_session<S: Shelf, O: Sink>(session: &mut Session, shelf: &S, out: &mut O) -> Next
    requires ready { S.ready shelf.now ≡ true }
    ensures told { (a : Archive) (disk : ℕ) → S.holds shelf.now a → SessionSuits a session.old
        → Acts (said_update (standing a None) session.old) (at_sink O.Sink out.old disk)
        (held_if (continues result) session.new) (standing a None) (at_sink O.Sink out.new disk) }
    ensures sink { O.alike out.old out.new }
{
    match session {
        Session::Imap(client) => client.update(shelf, out),
        _ => Next::Go,
    }
}
