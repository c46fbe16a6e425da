//! Load runs over disks of which one call fails.
use crate::archives::{Run, fill, made};
use epoch_store::InitRefusal;
use fixtures::failing;
use load_run::{LoadCounts, LoadRefusal};
use std::alloc::Global;
use std::test::Fail;

/// A run that delivers, removes, purges and reads the files again, in fewer calls of the disk than
/// `MOST`.
const RUN: Run = Run { count: 25, seed: 7 };

const MOST: u64 = 2000;

/// Returns how the run ends over a new archive on a disk of which one call fails.
fn ends(alloc: Global, ordinal: u64) -> Result<Result<LoadCounts, LoadRefusal>, Fail> {
    match made(alloc, failing(alloc, &[ordinal])?) {
        Ok(engine) => {
            let mut engine = engine;
            Ok(fill(alloc, &mut engine, RUN))
        }
        Err(InitRefusal::DiskFault) => Ok(Err(LoadRefusal::DiskFault)),
        Err(why) => Err(why.into()),
    }
}

/// Returns whether each call that fails ends the run with a fault, up to a run that makes no such call.
fn each_fault_ends(alloc: Global) -> Result<bool, Fail> {
    for ordinal in 1..MOST {
        match ends(alloc, ordinal)? {
            Err(LoadRefusal::DiskFault) => {}
            Err(_other) => return Ok(false),
            Ok(counts) => return Ok(counts.entries == 26),
        }
    }
    Ok(false)
}

#[test]
fn each_failed_call_of_the_disk_ends_the_run(rt: HostRuntime) -> Result<(), Fail> {
    assert!(rt; each_fault_ends(rt.alloc())?);
    Ok(())
}
