//! Fills an archive in memory, and prints what it has then.
//! Writes the disk; syncs.
ghost use Rattle.std.specs.Prelude.{◌≡◌, ◌≤◌, IfOk};
ghost use Rattle.answer_lines.specs.Lines.{whole_line};
ghost use Rattle.arch_model.specs.Archives.{Archive};
ghost use Rattle.arch_model.specs.Validity.{IsArchive};
ghost use Rattle.load_run.specs.Counted.{counts_of};
ghost use Rattle.load_run.specs.Loads.{greatest_load, loaded};
ghost use Rattle.archive_cli.specs.Loading.{load_archive, load_config, loaded_line};
ghost use Rattle.archive_cli.specs.Printing.{IsLoadDue, PrintedTo};
ghost use Rattle.archive_cli.specs.Words.{config_of};

use crate::program::{print, print_no_memory};
use crate::status::Status;
use crate::words::default_config;
use arch_base::{Bytes, Config, Name, NoMemory, Numbers};
use arch_model::Keep;
use archive_core::Engine;
use disk_model::MemDisk;
use edge_io::Sink;
use load_run::{LoadCounts, load};
use std::alloc::Global;

/// Fills an empty archive named `load`, on a disk in memory, with so many messages made from a seed,
/// and prints the line of what it has then.
///
/// If an allocation fails, also one of the disk, prints that instead.
pub(crate) fn load_and_print<O: Sink>(alloc: Global, count: u32, seed: u64, out: &mut O) -> Status
    requires { count ≤ greatest_load }
    ensures printed { PrintedTo O.Sink (IsLoadDue count seed) result out.old out.new }
    ensures sink { O.alike out.old out.new }
{
    match line_of_load(alloc, count, seed) {
        Ok(line) => print(line.as_slice(), Status::Done, out),
        Err(NoMemory) => print_no_memory(out),
    }
}

/// Returns the line of a load, with its line feed.
fn line_of_load(alloc: Global, count: u32, seed: u64) -> Result<Bytes, NoMemory>
    requires { count ≤ greatest_load }
    ensures { IfOk result (λ line. line ≡ whole_line (loaded_line count seed)) }
{
    let counts = counts_of_load(alloc, count, seed)?;
    let mut line = counts.line(alloc)?;
    line.push(b'\n')?;
    Ok(line)
}

/// Fills an empty archive on a disk in memory, and returns what it has then.
///
/// `NoMemory` if an allocation fails, also one of the disk.
fn counts_of_load(alloc: Global, count: u32, seed: u64) -> Result<LoadCounts, NoMemory>
    requires { count ≤ greatest_load }
    ensures { IfOk result (λ counts. counts ≡ counts_of (load_archive count seed)) }
{
    let disk = MemDisk::new(alloc, Numbers::new(alloc));
    match Engine::make(alloc, disk, &config()) {
        Ok(engine) => counts_over(alloc, engine, count, seed),
        Err(_not_made) => Err(NoMemory),
    }
}

/// Returns the settings of the archive of a load.
fn config() -> Config
    ensures { result ≡ load_config }
{
    let name = Name::read(b"load").unwrap();
    default_config(name)
}

/// Fills the archive of a keeper, and returns what it has then.
fn counts_over<K: Keep + Drop>(
    alloc: Global,
    keep: K,
    count: u32,
    seed: u64,
) -> Result<LoadCounts, NoMemory>
    requires { count ≤ greatest_load }
    ensures { (a : Archive) → IsArchive a → K.holds keep a
        → IfOk result (λ counts. counts ≡ counts_of (loaded a count seed)) }
{
    let mut keep = keep;
    match load(alloc, &mut keep, count, seed) {
        Ok(counts) => Ok(counts),
        // A disk in memory fails only where an allocation does.
        Err(_refused) => Err(NoMemory),
    }
}
