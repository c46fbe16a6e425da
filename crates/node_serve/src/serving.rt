//! Serves the events of a host, one by one.
//! Writes the disk; syncs.
ghost use Rattle.std.specs.Prelude.{◌≡◌, ◌≤◌, length, IfOk, if◌then◌else◌};
ghost use Rattle.edge_io.specs.Events.{piece_len as len_of};
ghost use Rattle.node_serve.specs.Hosted.{ServesAt, TakesAt};
ghost use Rattle.node_serve.specs.Ends.{is_stop as stops};

use crate::node::{Node, is_stop};
use arch_model::Keep;
use edge_io::{Host, What};
use std::alloc::{AllocError, Global};

/// The greatest length of a piece, in bytes.
const PIECE_LIMIT: usize = 1_048_576;

/// How serving ended.
#[derive(Clone, Copy, Debug, PartialEq, Eq, Drop)]
pub enum ServeEnd {
    /// A stop came, or no event was left.
    Stopped,
    /// This many events were taken, as many as were allowed, and none was a stop.
    Spent(u64),
    /// The host failed to give an event.
    HostFault,
    /// An allocation failed before the first event was taken.
    NoMemory,
}

/// What became of asking a host for an event.
#[derive(Clone, Copy, Drop)]
pub(crate) enum Taken {
    /// An event was taken to its end, and is no stop.
    Went,
    /// A stop was taken.
    Stops,
    /// No event is left.
    Nothing,
    /// The host failed.
    Fault,
}

/// Takes events from a host and turns each, until a stop comes or none is left, or as many were taken
/// as are allowed, or the host fails. It isn't asked again after it failed.
///
/// Each event does what `Node::turn` says. Also where the keeper holds no archive, as after a file was
/// found damaged, it changes nothing of other connections, but of those whose sessions idle.
///
/// A crash since the call began leaves an archive that stood before it or after one of the acts, or
/// one that was in doubt there. Between two events the disk's count of faults is the keeper's own.
pub fn serve<K: Keep, H: Host>(
    alloc: Global,
    node: &mut Node<K>,
    host: &mut H,
    turns: u64,
) -> ServeEnd
    ensures served { ServesAt K.Keep H.Host result turns node.old host.old node.new host.new }
    ensures later { H.faults host.old ≤ H.faults host.new }
    ensures disk_later { K.faults node.old.keep ≤ K.faults node.new.keep }
{
    match new_buffer(alloc) {
        Ok(mut buffer) => serve_with(node, host, turns, &mut buffer),
        Err(_) => ServeEnd::NoMemory,
    }
}

/// Serves with a buffer for the piece of an event.
fn serve_with<K: Keep, H: Host>(
    node: &mut Node<K>,
    host: &mut H,
    turns: u64,
    buffer: &mut [u8],
) -> ServeEnd
    requires { 1048576 ≤ length buffer.old }
    ensures served { ServesAt K.Keep H.Host result turns node.old host.old node.new host.new }
    ensures later { H.faults host.old ≤ H.faults host.new }
    ensures disk_later { K.faults node.old.keep ≤ K.faults node.new.keep }
{
    for _turn in 0..turns {
        match take_one(node, host, buffer) {
            Taken::Went => {}
            Taken::Stops => return ServeEnd::Stopped,
            Taken::Nothing => return ServeEnd::Stopped,
            Taken::Fault => return ServeEnd::HostFault,
        }
    }
    ServeEnd::Spent(turns)
}

/// Returns a buffer for the piece of an event.
fn new_buffer(alloc: Global) -> Result<Vec<u8>, AllocError>
    ensures { IfOk result (λ buffer. length buffer.items ≡ PIECE_LIMIT) }
{
    vec![in alloc; 0u8; PIECE_LIMIT]
}

/// Takes one event and turns it. The host fails only where that is the result.
fn take_one<K: Keep, H: Host>(node: &mut Node<K>, host: &mut H, buffer: &mut [u8]) -> Taken
    requires { 1048576 ≤ length buffer.old }
    ensures taken { TakesAt K.Keep H.Host result node.old host.old node.new host.new }
    ensures later { H.faults host.old ≤ H.faults host.new }
    ensures kept { (result ≡ Taken.Fault → ⊥) → H.faults host.new ≡ H.faults host.old }
    ensures disk_later { K.faults node.old.keep ≤ K.faults node.new.keep }
{
    match host.next(buffer) {
        Err(_) => Taken::Fault,
        Ok(None) => Taken::Nothing,
        Ok(Some(event)) => {
            let len = piece_len(event.what);
            node.turn(&event, &buffer[..len], host);
            after(event.what)
        }
    }
}

/// Returns what became of asking for an event that was taken.
fn after(what: What) -> Taken
    ensures { result ≡ (if stops what then Taken.Stops else Taken.Went) }
{
    if is_stop(what) {
        return Taken::Stops;
    }
    Taken::Went
}

/// Returns the length of the piece that comes with an event.
fn piece_len(what: What) -> usize
    ensures { result ≡ len_of what }
{
    match what {
        What::Bytes { len, .. } => len,
        _ => 0,
    }
}
