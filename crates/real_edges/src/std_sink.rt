//! The standard output as a sink.
//! Calls the system.
ghost use Rattle.std.specs.Prelude.{◌≡◌, None, IfOk};

use crate::faults::Faults;
use arch_base::NoMemory;
use edge_io::{Sink, SinkFault};
use std::alloc::Global;
use std::io::{self, Print};
use std::marker::Model;

/// The standard output. It doesn't tell what it took.
#[derive(Drop)]
pub struct StdSink<P> {
    printer: P,
    faults: Faults<io::Error>,
}

// Contracts see the number of writes that failed.
impl<P> Model for StdSink<P> {
    ghost use Rattle.std.specs.Prelude.{ℕ};

    ghost Value = { ℕ };

    ghost view = { λ s. s.faults };
}

impl<P: Print> StdSink<P> {
    /// Creates the sink for the standard output of a runtime. No write has failed yet.
    pub fn new(rt: P, _alloc: Global) -> Result<Self, NoMemory>
        ensures { IfOk result (λ sink. sink ≡ 0) }
    {
        Ok(StdSink {
            printer: rt,
            faults: Faults::new(),
        })
    }
}

impl<P> StdSink<P> {
    /// Returns the system's words for the first write that failed, or `None` if no write has
    /// failed.
    pub fn cause(&self, alloc: Global) -> Result<Option<String>, NoMemory> {
        self.faults.words(alloc)
    }
}

impl<P: Print> Sink for StdSink<P> {
    ghost taken = { λ s. None };

    ghost faults = { λ s. s };

    ghost alike = { λ s t. Unit {0} };

    ghost alike_same = { λ s. tt };

    fn write(&mut self, bytes: &[u8]) -> Result<(), SinkFault> {
        match self.printer.write_all(bytes) {
            Ok(()) => Ok(()),
            Err(refused) => {
                self.faults.add(refused);
                Err(SinkFault)
            }
        }
    }

    ghost alike_joined = { λ s t u p q. tt };
}
