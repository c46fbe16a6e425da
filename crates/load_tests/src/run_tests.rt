//! The counts of load runs over archives in memory and on disks. Those that are expected were worked
//! out with plain lists outside of this program.
use crate::archives::{Run, fill, made};
use arch_base::Bytes;
use archive_fixtures::in_memory;
use fixtures::{LIMIT, MAX, empty_disk};
use std::alloc::Global;
use std::process::Abort;
use std::test::Fail;

/// A load run, and the line of its counts.
struct Counted {
    run: Run,
    line: &'static [u8],
}

static SMALL: [Counted; 4] = [
    Counted {
        run: Run { count: 1, seed: 0 },
        line: b"live 1 next 2 entries 1 threads 1",
    },
    Counted {
        run: Run {
            count: 100,
            seed: 0,
        },
        line: b"live 88 next 101 entries 104 threads 24",
    },
    Counted {
        run: Run {
            count: 100,
            seed: 7,
        },
        line: b"live 88 next 101 entries 104 threads 32",
    },
    Counted {
        run: Run {
            count: 100,
            seed: 9_223_372_036_854_775_809,
        },
        line: b"live 88 next 101 entries 104 threads 18",
    },
];

static MANY: Counted = Counted {
    run: Run {
        count: 2000,
        seed: 7,
    },
    line: b"live 1760 next 2001 entries 2080 threads 494",
};

/// Returns the line of a load run over an archive in memory.
fn line_in_memory(alloc: Global, run: Run) -> Result<Bytes, Fail> {
    let mut memory = in_memory(alloc, LIMIT, MAX, false).ok_or("settings")?;
    let counts = fill(alloc, &mut memory, run)?;
    Ok(counts.line(alloc)?)
}

/// Returns the line of a load run over an archive on a disk.
fn line_on_disk(alloc: Global, run: Run) -> Result<Bytes, Fail> {
    let mut engine = made(alloc, empty_disk(alloc))?;
    let counts = fill(alloc, &mut engine, run)?;
    Ok(counts.line(alloc)?)
}

#[test]
fn small_runs_are_counted(rt: HostRuntime) -> Result<(), Fail> {
    for counted in &SMALL {
        let memory = line_in_memory(rt.alloc(), counted.run)?;
        let disk = line_on_disk(rt.alloc(), counted.run)?;
        assert_eq!(rt; memory.as_slice(), counted.line);
        assert_eq!(rt; disk.as_slice(), counted.line);
    }
    Ok(())
}

#[test]
fn a_run_of_two_thousand_is_counted(rt: HostRuntime) -> Result<(), Fail> {
    let line = line_on_disk(rt.alloc(), MANY.run)?;
    assert_eq!(rt; line.as_slice(), MANY.line);
    Ok(())
}
