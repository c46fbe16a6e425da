//! Serves the archive on a disk.
//! Writes the disk; syncs.
ghost use Rattle.std.specs.Prelude.{◌≡◌, ◌≤◌};
ghost use Rattle.archive_cli.specs.Printing.{Exactly, PrintedTo};
ghost use Rattle.archive_cli.specs.Serving.{ServeRun, end_line, end_status, run_line, run_status, ServesDiskAt};

use crate::outcome::Outcome;
use crate::program::{print_no_memory, print_outcome};
use crate::status::Status;
use arch_model::{law_of_commands, law_of_numbers};
use archive_core::{Engine, NotOpened};
use disk_model::Disk;
use edge_io::{Host, Sink};
use epoch_store::law_of_recovery;
use node_serve::{Node, ServeEnd, serve};
use std::alloc::Global;

/// Opens the archive on a disk and serves it, at most so many events. Hands the disk back.
///
/// A fault of the disk ends nothing once the archive is open: the session that meets it says so, and
/// the archive is reopened before the next piece, or before updates of sessions that idle. A fault in the
/// latter is said by nobody, and no update is given then.
pub(crate) fn serve_disk<D: Disk, H: Host, O: Sink>(
    alloc: Global,
    turns: u64,
    disk: D,
    host: &mut H,
    out: &mut O,
) -> (Status, D)
    ensures serves { (run : ServeRun) × ServesDiskAt D.Disk H.Host turns run disk host.old result.1
        host.new
        × PrintedTo O.Sink (Exactly (run_line run) (run_status run)) result.0 out.old out.new }
    ensures later { D.faults disk ≤ D.faults result.1 }
    ensures sink { O.alike out.old out.new }
{
    match Engine::open(alloc, disk) {
        Ok(engine) => {
            law_of_recovery();
            law_of_commands();
            law_of_numbers();
            let mut node = Node::new(alloc, engine);
            let end = serve(alloc, &mut node, host, turns);
            (print_end(end, out), node.into_keep().into_disk())
        }
        Err(NotOpened { disk, why }) => (print_outcome(&Outcome::Unopened(why), out), disk),
    }
}

/// Prints how serving ended, and returns its status.
fn print_end<O: Sink>(end: ServeEnd, out: &mut O) -> Status
    ensures printed { PrintedTo O.Sink (Exactly (end_line end) (end_status end)) result out.old
        out.new }
    ensures sink { O.alike out.old out.new }
{
    match end {
        ServeEnd::Stopped => Status::Done,
        ServeEnd::Spent(_) => Status::Spent,
        ServeEnd::HostFault => Status::Edges,
        ServeEnd::NoMemory => print_no_memory(out),
    }
}
