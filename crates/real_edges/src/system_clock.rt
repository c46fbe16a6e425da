//! The system's clock as a clock of moments.
//! Calls the system.
ghost use Rattle.std.specs.Prelude.{◌≡◌, None, IfOk};
ghost use Rattle.arch_base.specs.Moments.{IsMoment};

use crate::faults::Faults;
use arch_base::{LAST_MOMENT, NoMemory};
use edge_io::ClockFault;
use std::alloc::Global;
use std::io::{self, ErrorKind};
use std::marker::Model;
use std::time::{Clock, SystemTime, UNIX_EPOCH};

/// The system's clock. It doesn't tell which moments are to come.
#[derive(Drop)]
pub struct SystemClock<C> {
    clock: C,
    faults: Faults<io::Error>,
}

// Contracts see the number of calls that failed.
impl<C> Model for SystemClock<C> {
    ghost use Rattle.std.specs.Prelude.{ℕ};

    ghost Value = { ℕ };

    ghost view = { λ s. s.faults };
}

impl<C: Clock> SystemClock<C> {
    /// Creates the clock over that of a runtime. No call has failed yet.
    pub fn new(rt: C, _alloc: Global) -> Result<Self, NoMemory>
        ensures { IfOk result (λ clock. clock ≡ 0) }
    {
        Ok(SystemClock {
            clock: rt,
            faults: Faults::new(),
        })
    }
}

impl<C> SystemClock<C> {
    /// Returns the words for the first call that failed, or `None` if no call has failed.
    pub fn cause(&self, alloc: Global) -> Result<Option<String>, NoMemory> {
        self.faults.words(alloc)
    }
}

impl<C: Clock> edge_io::Clock for SystemClock<C> {
    ghost coming = { λ s. None };

    ghost faults = { λ s. s };

    fn now(&mut self) -> Result<u64, ClockFault> {
        match moment_of(SystemTime::now(&self.clock)) {
            Ok(moment) => Ok(moment),
            Err(refused) => {
                self.faults.add(refused);
                Err(ClockFault)
            }
        }
    }
}

/// Returns the moment of a time, or an error if the time couldn't be read or is no moment.
pub(crate) fn moment_of(time: io::Result<SystemTime>) -> io::Result<u64>
    ensures { IfOk result IsMoment }
{
    let Ok(since) = time?.duration_since(UNIX_EPOCH) else {
        return Err(no_moment());
    };
    let moment = since.as_secs();
    if moment > LAST_MOMENT {
        return Err(no_moment());
    }
    Ok(moment)
}

/// Returns the error for a time that is no moment.
fn no_moment() -> io::Error {
    io::Error::new(
        ErrorKind::InvalidData,
        "the time isn't between 1970 and 9999",
    )
}
