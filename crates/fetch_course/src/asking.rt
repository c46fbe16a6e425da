//! Asks a peer, and checks what it answers.
//! Pure.
ghost use Rattle.std.specs.Prelude.{◌≡◌, Err, IfOk, OnErr};
ghost use Rattle.arch_base.specs.Counts.{RoseIf};
ghost use Rattle.edge_io.specs.Peers.{reply_before, AsksPath};
ghost use Rattle.fetch_course.specs.Courses.{wrong_reply};
ghost use Rattle.fetch_course.specs.Asking.{AsksText, AsksReply};
ghost use Rattle.fetch_course.specs.declared.answer.FetchAnswer.{FetchAnswer as Answer};

use crate::answer::FetchAnswer;
use arch_base::{Bytes, Form, ObjectId};
use edge_io::{Peer, PeerRefusal, Reply};
use git_objects::blob_id;

/// Asks for a path once, and returns the reply.
///
/// `PeerFault` if the peer failed, and its count of faults rose. `NoMemory` if an allocation fails.
pub fn ask<P: Peer>(peer: &mut P, path: &[u8]) -> Result<Reply, FetchAnswer>
    ensures gave { AsksReply P.Peer peer.old peer.new path.now result }
    ensures cause { RoseIf (result ≡ Err Answer.PeerFault) (P.faults peer.old) (P.faults peer.new) }
{
    match peer.get(path) {
        Ok(reply) => Ok(reply),
        Err(PeerRefusal::Fault) => Err(FetchAnswer::PeerFault),
        Err(PeerRefusal::NoMemory) => Err(FetchAnswer::NoMemory),
    }
}

/// Returns what is wrong with the reply for a blob, if anything.
///
/// `Changed` if the peer has no such blob, `BadReply` with a status other than 200 and 404, and `WrongId`
/// if the body has another blob id.
pub fn reply_refused(blob: &ObjectId, form: Form, reply: &Reply) -> Option<FetchAnswer>
    ensures { result ≡ wrong_reply form blob.now reply.now }
{
    if reply.status == 404 {
        return Some(FetchAnswer::Changed { id: *blob });
    }
    if reply.status != 200 {
        return Some(FetchAnswer::BadReply(reply.status));
    }
    let found = blob_id(reply.body.as_slice(), form);
    if *blob == found {
        return None;
    }
    Some(FetchAnswer::WrongId {
        listed: *blob,
        found,
    })
}

/// Asks for the text with a blob id, and returns it.
///
/// Errors are those of `ask` and of `reply_refused`.
pub fn ask_text<P: Peer>(
    peer: &mut P,
    path: &[u8],
    blob: &ObjectId,
    form: Form,
) -> Result<Bytes, FetchAnswer>
    ensures gave { AsksText P.Peer form blob.now peer.old peer.new path.now result }
    ensures cause { RoseIf (result ≡ Err Answer.PeerFault) (P.faults peer.old) (P.faults peer.new) }
{
    let reply = ask(peer, path)?;
    match reply_refused(blob, form, &reply) {
        Some(why) => Err(why),
        None => {
            let Reply { body, .. } = reply;
            Ok(body)
        }
    }
}
