//! What a load run counts, and its line.
//! Allocates.
use crate::mails::push_around;
use arch_base::{Bytes, NoMemory};
use std::alloc::Global;

/// What a load run counts of an archive.
#[derive(Clone, Copy, Debug, PartialEq, Eq, Drop)]
pub struct LoadCounts {
    /// The number of live messages.
    pub live: u32,
    /// The number of the next message.
    pub next: u32,
    /// The number of entries.
    pub entries: u64,
    /// The number of threads of live messages.
    pub threads: u32,
}

impl LoadCounts {
    ghost use Rattle.std.specs.Prelude.{◌≡◌, IfOk};
    ghost use Rattle.load_run.specs.Counted.{load_line};

    /// Returns the line of the counts, without its line feed.
    ///
    /// `NoMemory` if an allocation fails.
    pub fn line(&self, alloc: Global) -> Result<Bytes, NoMemory>
        ensures { IfOk result (λ line. line ≡ load_line self.now) }
    {
        let mut line = Bytes::new(alloc);
        push_around(b"live ", u64::from(self.live), b"", &mut line)?;
        push_around(b" next ", u64::from(self.next), b"", &mut line)?;
        push_around(b" entries ", self.entries, b"", &mut line)?;
        push_around(b" threads ", u64::from(self.threads), b"", &mut line)?;
        Ok(line)
    }
}
