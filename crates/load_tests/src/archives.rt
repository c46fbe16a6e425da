//! New archives of default settings, and load runs over them.
ghost use Rattle.std.specs.Prelude.{◌≤◌};

use arch_model::Keep;
use archive_core::{Engine, NotMade};
use disk_model::MemDisk;
use epoch_store::InitRefusal;
use fixtures::{LIMIT, MAX, settings};
use load_run::{GREATEST_LOAD, LoadCounts, LoadRefusal, load};
use std::alloc::Global;

/// A load run: how many messages of which seed.
#[derive(Clone, Copy, Drop)]
pub(crate) struct Run {
    pub(crate) count: u32,
    pub(crate) seed: u64,
}

/// Makes an archive on a disk.
pub(crate) fn made(alloc: Global, disk: MemDisk) -> Result<Engine<MemDisk>, InitRefusal> {
    match settings(LIMIT, MAX, false) {
        None => Err(InitRefusal::NoMemory),
        Some(config) => match Engine::make(alloc, disk, &config) {
            Ok(engine) => Ok(engine),
            Err(NotMade { disk: _, why }) => Err(why),
        },
    }
}

/// Fills an archive by a load run.
pub(crate) fn fill<K: Keep>(
    alloc: Global,
    keep: &mut K,
    run: Run,
) -> Result<LoadCounts, LoadRefusal> {
    load(alloc, keep, run.count.min(GREATEST_LOAD), run.seed)
}
