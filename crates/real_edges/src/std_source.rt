//! The standard input as a source.
//! Calls the system.
ghost use Rattle.std.specs.Prelude.{◌≡◌, None, IfOk};

use crate::faults::Faults;
use arch_base::NoMemory;
use edge_io::{Source, SourceFault};
use std::alloc::Global;
use std::io::{self, Input, Read, StdinLock};
use std::marker::Model;

/// The standard input. It doesn't tell what it has left.
#[derive(Drop)]
pub struct StdSource<R = StdinLock<'static>> {
    reader: R,
    faults: Faults<io::Error>,
}

// Contracts see the number of reads that failed.
impl<R> Model for StdSource<R> {
    ghost use Rattle.std.specs.Prelude.{ℕ};

    ghost Value = { ℕ };

    ghost view = { λ s. s.faults };
}

impl<R: Read> StdSource<R> {
    /// Creates the source for the standard input of a runtime. No read has failed yet.
    pub fn new(rt: &impl Input<Reader = R>, _alloc: Global) -> Result<Self, NoMemory>
        ensures { IfOk result (λ source. source ≡ 0) }
    {
        Ok(StdSource {
            reader: rt.reader(),
            faults: Faults::new(),
        })
    }
}

impl<R> StdSource<R> {
    /// Returns the system's words for the first read that failed, or `None` if no read has failed.
    pub fn cause(&self, alloc: Global) -> Result<Option<String>, NoMemory> {
        self.faults.words(alloc)
    }
}

impl<R: Read> Source for StdSource<R> {
    ghost left = { λ s. None };

    ghost faults = { λ s. s };

    fn read(&mut self, into: &mut [u8]) -> Result<usize, SourceFault> {
        match self.reader.read(into) {
            Ok(count) => Ok(count),
            Err(refused) => {
                self.faults.add(refused);
                Err(SourceFault)
            }
        }
    }
}
