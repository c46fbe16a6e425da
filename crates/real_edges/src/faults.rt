//! The failed calls of an edge.
//! Allocates.
ghost use Rattle.std.specs.Prelude.{◌≡◌, ◌≤◌};
ghost use Rattle.arch_base.specs.Counts.{Rose};

use crate::cause::system_words;
use arch_base::NoMemory;
use std::alloc::Global;
use std::io;
use std::marker::Model;

/// The count of failed calls, and the reason of the first.
#[derive(Drop)]
pub(crate) struct Faults<E> {
    count: u64,
    first: Option<E>,
}

// Contracts see the count.
impl<E> Model for Faults<E> {
    ghost use Rattle.std.specs.Prelude.{ℕ};

    ghost Value = { ℕ };

    ghost view = { λ f. f.count };
}

impl<E: Copy> Faults<E> {
    /// Returns the value of an edge of which no call has failed.
    pub(crate) fn new() -> Faults<E>
        ensures { result ≡ 0 }
    {
        Faults {
            count: 0,
            first: None,
        }
    }

    /// Returns the reason of the first call that failed, or `None` if no call has failed.
    pub(crate) fn first(&self) -> Option<E> {
        self.first
    }

    /// Counts a failed call. Keeps its reason if it is the first.
    pub(crate) fn add(&mut self, reason: E)
        ensures rose { Rose self.old self.new }
        ensures later { self.old ≤ self.new }
    {
        self.first = self.first.or(Some(reason));
        self.count = self.count.saturating_add(1);
    }
}

impl Faults<io::Error> {
    /// Returns the system's words for the first call that failed, or `None` if no call has failed.
    pub(crate) fn words(&self, alloc: Global) -> Result<Option<String>, NoMemory> {
        match &self.first {
            Some(error) => Ok(Some(system_words(alloc, error)?)),
            None => Ok(None),
        }
    }
}
