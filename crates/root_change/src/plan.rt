//! What a command writes of a part of an archive.
//! Allocates.
ghost use Rattle.std.specs.Prelude.{◌≡◌, ◌+◌, ◌^◌, ◌<◌, IfOk, OnOk, OnErr};
ghost use Rattle.root_change.specs.Rewriting.{IsPlan, no_plan, plan_count, with_bytes, with_range};

use crate::copying::FileRange;
use crate::sources::Source;
use arch_base::{Bytes, NoMemory, Sequence};
use disk_model::{FileKind, FileName};
use std::alloc::Global;
use std::marker::Model;

/// The number of bytes from which on a plan takes no more.
const MOST: u64 = 1 << 62;

/// Where the bytes of a part go.
#[derive(Clone, Copy, Debug, PartialEq, Eq, Drop)]
pub enum Target {
    /// To a file of a new generation, in place of the part's bytes.
    Anew,
    /// To the end of the part's bytes.
    Behind,
}

/// What a command writes of a part of an archive: bytes, and ranges of the old files, one after the
/// other.
///
/// A plan is made before the first write, and carrying it out needs no memory. Contracts see it as
/// its part, its target, and its sources.
#[derive(Drop)]
pub struct PartPlan {
    kind: FileKind,
    number: u32,
    target: Target,
    bytes: Bytes,
    sources: Sequence<Source>,
    count: u64,
}

impl Model for PartPlan {
    ghost use Rattle.std.specs.Prelude.{◌≡◌};
    ghost use Rattle.root_change.specs.Rewriting.{Plan, IsPlan, plan_count};

    ghost Value = { Plan };

    ghost view = { λ p. record {
      kind = p.kind;
      number = p.number;
      target = p.target;
      bytes = p.bytes;
      sources = p.sources;
    } };

    ghost invariant = { λ p. IsPlan (record {
      kind = p.kind;
      number = p.number;
      target = p.target;
      bytes = p.bytes;
      sources = p.sources;
    }) × (p.count ≡ plan_count (record {
      kind = p.kind;
      number = p.number;
      target = p.target;
      bytes = p.bytes;
      sources = p.sources;
    })) };
}

impl PartPlan {
    /// Returns a plan that writes nothing. Allocates nothing.
    pub fn new(alloc: Global, kind: FileKind, number: u32, target: Target) -> PartPlan
        ensures plan { result ≡ no_plan kind number target }
        ensures valid { IsPlan result }
    {
        PartPlan {
            kind,
            number,
            target,
            bytes: Bytes::new(alloc),
            sources: Sequence::new(alloc),
            count: 0,
        }
    }

    /// Returns the kind of the part.
    pub fn kind(&self) -> FileKind
        ensures { result ≡ self.now.kind }
    {
        self.kind
    }

    /// Returns the number of the part.
    pub fn number(&self) -> u32
        ensures { result ≡ self.now.number }
    {
        self.number
    }

    /// Returns where the bytes go.
    pub fn target(&self) -> Target
        ensures { result ≡ self.now.target }
    {
        self.target
    }

    /// Returns the bytes of which sources are ranges.
    pub fn bytes(&self) -> &[u8]
        ensures { result.now ≡ self.now.bytes }
    {
        self.bytes.as_slice()
    }

    /// Returns the sources.
    pub fn sources(&self) -> &[Source]
        ensures { result.now ≡ self.now.sources }
    {
        self.sources.as_slice()
    }

    /// Returns the number of bytes of all sources.
    pub fn count(&self) -> u64
        ensures count { result ≡ plan_count self.now }
        ensures short { result < 2 ^ 62 }
        ensures valid { IsPlan self.now }
    {
        self.count
    }

    /// Appends bytes.
    ///
    /// `NoMemory` if an allocation fails, or if the plan would have 2^62 bytes or more. The plan is
    /// then unchanged.
    pub fn push_bytes(&mut self, bytes: &[u8]) -> Result<(), NoMemory>
        ensures ok { OnOk result (self.new ≡ with_bytes self.old bytes.now) }
        ensures valid { OnOk result (IsPlan self.new) }
        ensures err { OnErr result (self.new ≡ self.old) }
    {
        let offset = self.bytes.as_slice().len();
        let count = bytes.len();
        let all = more(self.count, count as u64)?;
        let before = self.sources.as_slice().len();
        self.sources.push(Source::Bytes { offset, count })?;
        if let Err(refused) = self.bytes.push_slice(bytes) {
            self.sources.truncate(before);
            return Err(refused);
        }
        self.count = all;
        Ok(())
    }

    /// Appends a range of an old file.
    ///
    /// `NoMemory` if an allocation fails, or if the plan would have 2^62 bytes or more, or the range
    /// ends so far. The plan is then unchanged.
    pub fn push_range(&mut self, file: FileName, offset: u64, count: u64) -> Result<(), NoMemory>
        ensures ok { OnOk result (self.new ≡ with_range self.old file offset count) }
        ensures valid { OnOk result (IsPlan self.new) }
        ensures err { OnErr result (self.new ≡ self.old) }
    {
        more(offset, count)?;
        let all = more(self.count, count)?;
        self.sources.push(Source::Range(FileRange {
            file,
            offset,
            count,
        }))?;
        self.count = all;
        Ok(())
    }
}

/// Returns a sum below 2^62.
///
/// `NoMemory` if it isn't: no memory holds so many bytes.
fn more(count: u64, added: u64) -> Result<u64, NoMemory>
    ensures sum { IfOk result (λ sum. sum ≡ count + added) }
    ensures short { IfOk result (λ sum. sum < 2 ^ 62) }
{
    if count >= MOST || added >= MOST - count {
        return Err(NoMemory);
    }
    Ok(count + added)
}
