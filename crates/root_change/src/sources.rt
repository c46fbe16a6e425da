//! Puts bytes and ranges of files after one another into a file, without memory.
//! Writes the disk; syncs.
ghost use Rattle.std.specs.Prelude.{◌≡◌, ◌+◌, ◌^◌, ◌<◌, ◌≤◌, true, length, IfOk};
ghost use Rattle.std.specs.List.{sum_by};
ghost use Rattle.arch_base.specs.Counts.{HasCause};
ghost use Rattle.disk_model.specs.Beside.{Bounds, RespectsBound, RunsBeside};
ghost use Rattle.disk_model.specs.Disk.{BothTold, WhereTold, IsAtMostLength};
ghost use Rattle.root_change.specs.Copying.{range_of, OtherFilesStay, Put};
ghost use Rattle.root_change.specs.Gathering.{source_count, IsSourceFor, AreSources, HasSource, HasSources, PutSource, PutSources};

use crate::copying::{FileRange, copy_range};
use disk_model::{Disk, DiskFault, FileName};

/// Where bytes come from.
#[derive(Clone, Copy, Debug, PartialEq, Eq, Drop)]
pub enum Source {
    /// A range of the bytes that are passed beside the sources.
    Bytes {
        /// The offset of the first byte.
        offset: usize,
        /// The number of bytes.
        count: usize,
    },
    /// A range of a file.
    Range(FileRange),
}

/// Returns the number of bytes of a source.
fn count_of(source: Source) -> u64
    ensures { result ≡ source_count source }
{
    match source {
        Source::Bytes { count, .. } => count as u64,
        Source::Range(range) => range.count,
    }
}

/// Writes a range of bytes to an offset of a file.
///
/// Returns `false`, and does nothing, if the range isn't whole.
fn put_bytes<D: Disk>(
    disk: &mut D,
    bytes: &[u8],
    offset: usize,
    count: usize,
    to: FileName,
    end: u64,
) -> Result<bool, DiskFault>
    requires inside { WhereTold (IsAtMostLength to end) (D.content disk.old) }
    requires end { end + count < 2 ^ 63 }
    ensures crash_beside { (bounds : Bounds) → RespectsBound (bounds to) end
        → RunsBeside D.Disk bounds disk.old disk.new }
    ensures put { IfOk result (λ whole. whole ≡ true → BothTold (Put (range_of bytes.now offset count)
        count to end) (D.content disk.old) (D.content disk.new)) }
    ensures whole { offset + count ≤ length bytes.now → IfOk result (λ whole. whole ≡ true) }
    ensures others { BothTold (OtherFilesStay to) (D.content disk.old) (D.content disk.new) }
    ensures fewest { D.reads disk.old ≤ D.reads disk.new }
    ensures cause { HasCause (D.faults disk.old) (D.faults disk.new) result }
{
    if offset > bytes.len() {
        return Ok(false);
    }
    let rest = bytes.split_at(offset).1;
    if count > rest.len() {
        return Ok(false);
    }
    if count == 0 {
        return Ok(true);
    }
    disk.write_at(to, end, rest.split_at(count).0)?;
    Ok(true)
}

/// Puts a source at an offset of a file.
fn put_source<D: Disk>(
    disk: &mut D,
    bytes: &[u8],
    source: Source,
    to: FileName,
    end: u64,
) -> Result<bool, DiskFault>
    requires source { IsSourceFor to source }
    requires inside { WhereTold (IsAtMostLength to end) (D.content disk.old) }
    requires end { end + source_count source < 2 ^ 63 }
    ensures crash_beside { (bounds : Bounds) → RespectsBound (bounds to) end
        → RunsBeside D.Disk bounds disk.old disk.new }
    ensures put { IfOk result (λ whole. whole ≡ true → BothTold (PutSource bytes.now source to end)
        (D.content disk.old) (D.content disk.new)) }
    ensures whole { HasSource bytes.now (D.content disk.old) source
        → IfOk result (λ whole. whole ≡ true) }
    ensures others { BothTold (OtherFilesStay to) (D.content disk.old) (D.content disk.new) }
    ensures fewest { D.reads disk.old ≤ D.reads disk.new }
    ensures cause { HasCause (D.faults disk.old) (D.faults disk.new) result }
{
    match source {
        Source::Bytes { offset, count } => put_bytes(disk, bytes, offset, count, to, end),
        Source::Range(range) => copy_range(disk, range, to, end),
    }
}

/// Puts sources after one another at an offset of a file.
///
/// Returns `false` if a source isn't whole; bytes after the offset may then have been written.
/// Creates a missing file, unless there is no byte to be put. Allocates nothing.
pub fn put_sources<D: Disk>(
    disk: &mut D,
    bytes: &[u8],
    sources: &[Source],
    to: FileName,
    end: u64,
) -> Result<bool, DiskFault>
    requires sources { AreSources to sources.now }
    requires inside { WhereTold (IsAtMostLength to end) (D.content disk.old) }
    requires end { end + sum_by source_count sources.now < 2 ^ 63 }
    // All that is before the offset stays at each moment, whatever the call returns.
    ensures crash_beside { (bounds : Bounds) → RespectsBound (bounds to) end
        → RunsBeside D.Disk bounds disk.old disk.new }
    ensures put { IfOk result (λ whole. whole ≡ true
        → BothTold (PutSources bytes.now sources.now to end) (D.content disk.old)
        (D.content disk.new)) }
    ensures whole { HasSources bytes.now (D.content disk.old) sources.now
        → IfOk result (λ whole. whole ≡ true) }
    ensures others { BothTold (OtherFilesStay to) (D.content disk.old) (D.content disk.new) }
    ensures fewest { D.reads disk.old ≤ D.reads disk.new }
    ensures cause { HasCause (D.faults disk.old) (D.faults disk.new) result }
{
    let mut next = end;
    for source in sources {
        let whole = put_source(disk, bytes, *source, to, next)?;
        if !whole {
            return Ok(false);
        }
        next += count_of(*source);
    }
    Ok(true)
}
