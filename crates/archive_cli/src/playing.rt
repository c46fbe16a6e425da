//! Plays the events of a script over a keeper.
//! Writes the disk; syncs.
ghost use Rattle.std.specs.Prelude.{◌≡◌, ◌≤◌, ◌++◌, ℕ, List, All, true, length, codes};
ghost use Rattle.arch_base.specs.declared.config.Config.{Config};
ghost use Rattle.arch_model.specs.Archives.{empty_archive};
ghost use Rattle.arch_model.specs.Validity.{IsArchive};
ghost use Rattle.answer_lines.specs.Lines.{whole_line};
ghost use Rattle.edge_io.specs.Phrases.{SaysTo};
ghost use Rattle.edge_io.specs.Scripts.{Arrival, IsArrival, IsScript};
ghost use Rattle.edge_io.specs.ScriptHosts.{IsNewScriptHost};
ghost use Rattle.archive_cli.specs.Printing.{IsPlayedAs, IsReplayDue, PrintedTo};
ghost use Rattle.archive_cli.specs.Program.{input_limit};

use crate::program::{print, print_no_memory};
use crate::status::Status;
use answer_lines::say_memory;
use arch_base::{Bytes, NoMemory};
use arch_model::Keep;
use archive_core::Engine;
use disk_model::MemDisk;
use edge_io::{Script, ScriptHost, Sink, SinkFault, say};
use mem_archive::MemArchive;
use node_serve::{Node, ServeEnd, serve};
use std::alloc::Global;

/// The greatest count of events that are played. No script has as many.
const ALL_EVENTS: u64 = 1 << 63;

/// A keeper that tells its disk's count of faults.
pub trait CountedKeep: Keep {
    /// Returns the disk's count of faults.
    fn failed(&self) -> u64
        ensures { result ≡ Self.faults self.now };
}

impl CountedKeep for Engine<MemDisk> {
    fn failed(&self) -> u64 {
        self.disk().failed()
    }
}

impl CountedKeep for MemArchive {
    fn failed(&self) -> u64 {
        0
    }
}

/// Plays a script over a keeper of an empty archive, up to its first stop, and prints what its events
/// write.
///
/// If an allocation fails, or a call of the keeper's disk, the events are played on, and a line after
/// the first frames tells that memory ran out. Over a keeper of another archive, or of one that isn't
/// valid, nothing is promised of what is printed.
pub fn play_script<K: CountedKeep + Drop, O: Sink>(
    alloc: Global,
    keep: K,
    events: Script,
    out: &mut O,
) -> Status
    requires script { All IsArrival events }
    ensures printed { (config : Config) → K.holds keep (empty_archive config)
        → IsArchive (empty_archive config)
        → (text : List ℕ) → IsScript events text → length text ≤ input_limit
        → PrintedTo O.Sink (IsReplayDue config text) result out.old out.new }
    ensures sink { O.alike out.old out.new }
{
    if keep.failed() > 0 {
        return print_no_memory(out);
    }
    match ScriptHost::new(alloc, events) {
        Ok(host) => print_played(play_over(alloc, keep, host), out),
        Err(NoMemory) => print_no_memory(out),
    }
}

/// What was played of a script.
#[derive(Drop)]
enum Played {
    /// All of it. These are its frames.
    Whole(Bytes),
    /// Memory ran out. These are the frames of the first events, or none.
    Cut(Bytes),
}

/// Plays the events of a new host over a keeper.
fn play_over<K: CountedKeep + Drop>(alloc: Global, keep: K, host: ScriptHost) -> Played
    requires unfailed { K.faults keep ≡ 0 }
    ensures { (arrivals : List Arrival) → IsNewScriptHost arrivals host
        → (config : Config) → K.holds keep (empty_archive config)
        → IsArchive (empty_archive config)
        → (text : List ℕ) → IsScript arrivals text → length text ≤ input_limit
        → IsPlayedAs config text arrivals result }
{
    let mut host = host;
    let mut node = Node::new(alloc, keep);
    let end = serve(alloc, &mut node, &mut host, ALL_EVENTS);
    let starved = host.starved();
    let failed = node.into_keep().failed();
    let frames = host.into_frames();
    if is_whole(end, starved, failed) {
        return Played::Whole(frames);
    }
    Played::Cut(frames)
}

/// Returns whether all events were played, and no memory ran out at the host or the disk.
fn is_whole(end: ServeEnd, starved: u64, failed: u64) -> bool
    ensures { result ≡ true → (end ≡ ServeEnd.Stopped) × (starved ≡ 0) × (failed ≡ 0) }
{
    match end {
        ServeEnd::Stopped => starved == 0 && failed == 0,
        _ => false,
    }
}

/// Prints the frames of a script, and a line after them if memory ran out.
fn print_played<O: Sink>(played: Played, out: &mut O) -> Status
    ensures printed { (config : Config) (text : List ℕ) (arrivals : List Arrival)
        → IsPlayedAs config text arrivals played → IsScript arrivals text
        → length text ≤ input_limit
        → PrintedTo O.Sink (IsReplayDue config text) result out.old out.new }
    ensures sink { O.alike out.old out.new }
{
    match played {
        Played::Whole(frames) => print(frames.as_slice(), Status::Done, out),
        Played::Cut(frames) => Status::Memory.if_taken(say_cut(frames.as_slice(), out)),
    }
}

/// Writes frames, and that memory ran out.
fn say_cut<O: Sink>(frames: &[u8], out: &mut O) -> Result<(), SinkFault>
    ensures said { SaysTo O.Sink (frames.now ++ whole_line (codes "12 no memory")) out.old out.new
        result }
    ensures sink { O.alike out.old out.new }
{
    say(frames, out)?;
    say_memory(out)
}
