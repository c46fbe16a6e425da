//! What a connection gets before it has a session.
//! Allocates.
ghost use Rattle.std.specs.Prelude.{◌≡◌, ◌≤◌, ℕ};
ghost use Rattle.arch_base.specs.Moments.{last_moment};
ghost use Rattle.arch_model.specs.Standing.{LastKnown};
ghost use Rattle.arch_model.specs.Next.{continues};
ghost use Rattle.edge_io.specs.Phrases.{Says, SaysTo};
ghost use Rattle.line_door.specs.Acts.{Acts, held_if, at_sink};
ghost use Rattle.node_serve.specs.Hosted.{EventsStay, ElsewhereStays};
ghost use Rattle.node_serve.specs.Doors.{refusal_words, greets};
ghost use Rattle.node_serve.specs.Nodes.{Refused};
ghost use Rattle.node_serve.specs.World.{at_host, outside_at};

use crate::session::Session;
use arch_model::Next;
use control_door::Session as ControlSession;
use edge_io::{ConnSink, Door, Host, Sink, SinkFault};
use http_front::HttpSession;
use imap_session::ImapSession;
use keep_course::Refusal;
use lmtp_door::LmtpSession;
use nntp_reader::NntpSession;
use pop3_reader::Pop3Session;
use std::alloc::Global;

/// Writes a door's word for why it refuses a connection.
pub(crate) fn say_refusal<O: Sink>(
    door: Door,
    refusal: Refusal,
    moment: u64,
    out: &mut O,
) -> Result<(), SinkFault>
    requires { moment ≤ last_moment }
    ensures said { SaysTo O.Sink (refusal_words moment door refusal) out.old out.new result }
    ensures sink { O.alike out.old out.new }
{
    match door {
        Door::Control => control_door::say_refusal(refusal, out),
        Door::Nntp => nntp_reader::say_refusal(refusal, out),
        Door::Pop3 => pop3_reader::say_refusal(refusal, out),
        Door::Http => http_front::say_refusal(refusal, moment, out),
        Door::Lmtp => lmtp_door::say_refusal(refusal, out),
        Door::Imap => imap_session::say_refusal(refusal, out),
    }
}

/// Refuses a connection with its door's word for that, and closes it.
pub(crate) fn refuse<H: Host>(door: Door, refusal: Refusal, conn: u32, moment: u64, host: &mut H)
    requires { moment ≤ last_moment }
    ensures refused { (disk : ℕ) → Refused conn (refusal_words moment door refusal)
        (at_host H.Host host.old disk)
        (at_host H.Host host.new disk) }
    ensures events { EventsStay H.Host host.old host.new }
{
    let _ = write_refusal(door, refusal, conn, moment, host);
    host.close(conn);
}

/// Writes a door's word for a refusal to a connection.
fn write_refusal<H: Host>(
    door: Door,
    refusal: Refusal,
    conn: u32,
    moment: u64,
    host: &mut H,
) -> Result<(), SinkFault>
    requires { moment ≤ last_moment }
    ensures said { Says (refusal_words moment door refusal) (H.taken host.old conn)
        (H.lost host.old)
        (H.taken host.new conn) (H.lost host.new) result }
    ensures host { ElsewhereStays H.Host conn
        host.old host.new }
{
    let mut sink = ConnSink {
        host: &mut *host,
        conn,
    };
    say_refusal(door, refusal, moment, &mut sink)
}

/// Opens a session of a door, which greets its connection if its door does. Returns whether there is
/// one.
pub(crate) fn greet_client<H: Host>(
    door: Door,
    alloc: Global,
    conn: u32,
    host: &mut H,
) -> (Session, Next)
    ensures greeted { (s : LastKnown) (disk : ℕ) → Acts (λ way. greets door s)
        (outside_at conn (at_host H.Host host.old disk))
        (held_if (continues result.1) result.0) s
        (outside_at conn (at_host H.Host host.new disk)) }
    ensures host { ElsewhereStays H.Host conn
        host.old host.new }
{
    let mut sink = ConnSink {
        host: &mut *host,
        conn,
    };
    greet_at(door, alloc, &mut sink)
}

/// Opens a session of a door, which greets through a sink if its door does.
fn greet_at<O: Sink>(door: Door, alloc: Global, out: &mut O) -> (Session, Next)
    ensures greeted { (s : LastKnown) (disk : ℕ) → Acts (λ way. greets door s)
        (at_sink O.Sink out.old disk)
        (held_if (continues result.1) result.0) s
        (at_sink O.Sink out.new disk) }
    ensures sink { O.alike out.old out.new }
{
    match door {
        Door::Control => (Session::Control(ControlSession::open(alloc)), Next::Go),
        Door::Nntp => {
            let (session, next) = NntpSession::open(alloc, out);
            (Session::News(session), next)
        }
        Door::Pop3 => {
            let (session, next) = Pop3Session::open(alloc, out);
            (Session::Pop(session), next)
        }
        Door::Http => (Session::Http(HttpSession::open(alloc)), Next::Go),
        Door::Lmtp => {
            let (session, next) = LmtpSession::open(alloc, out);
            (Session::Lmtp(session), next)
        }
        Door::Imap => {
            let (session, next) = ImapSession::open(alloc, out);
            (Session::Imap(session), next)
        }
    }
}
