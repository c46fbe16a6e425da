//! Copies ranges of files into another file, without memory.
//! Writes the disk; syncs.
ghost use Rattle.std.specs.Prelude.{◌≡◌, ◌≢◌, ◌+◌, ◌-◌, ◌^◌, ◌<◌, ◌≤◌, min, true, length, IfOk};
ghost use Rattle.arch_base.specs.Counts.{HasCause};
ghost use Rattle.disk_model.specs.Beside.{Bounds, RespectsBound, RunsBeside};
ghost use Rattle.disk_model.specs.Disk.{BothTold, WhereTold, IsAtMostLength};
ghost use Rattle.root_change.specs.Copying.{Copied, HasRange, OtherFilesStay};

use disk_model::{Disk, DiskFault, FileName};

/// The most bytes that are copied at once.
const WINDOW: u64 = 4096;

/// A range of a file's bytes.
#[derive(Clone, Copy, Debug, PartialEq, Eq, Drop)]
pub struct FileRange {
    /// The file.
    pub file: FileName,
    /// The offset of the first byte.
    pub offset: u64,
    /// The number of bytes.
    pub count: u64,
}

/// Returns the next bytes of a range that are copied at once, after so many.
fn next_window(range: FileRange, done: u64) -> FileRange
    requires done { done < range.count }
    requires end { range.offset + range.count < 2 ^ 64 }
    ensures file { result.file ≡ range.file }
    ensures offset { result.offset ≡ range.offset + done }
    ensures count { result.count ≡ min 4096 (range.count - done) }
    ensures some { 0 < result.count }
{
    FileRange {
        file: range.file,
        offset: range.offset + done,
        count: WINDOW.min(range.count - done),
    }
}

/// Copies a range that fills a window to an offset of a file.
///
/// Returns `false`, and writes nothing, if the range isn't whole in its file.
fn copy_window<D: Disk>(
    disk: &mut D,
    range: FileRange,
    to: FileName,
    end: u64,
    window: &mut [u8],
) -> Result<bool, DiskFault>
    requires some { 0 < range.count }
    requires window { length window.old ≡ range.count }
    requires inside { WhereTold (IsAtMostLength to end) (D.content disk.old) }
    requires end { end + range.count < 2 ^ 63 }
    ensures crash_beside { (bounds : Bounds) → RespectsBound (bounds to) end
        → RunsBeside D.Disk bounds disk.old disk.new }
    ensures copied { IfOk result (λ whole. whole ≡ true
        → BothTold (Copied range.file range.offset range.count to end) (D.content disk.old)
        (D.content disk.new)) }
    ensures whole { HasRange range.file range.offset range.count (D.content disk.old)
        → IfOk result (λ whole. whole ≡ true) }
    ensures others { BothTold (OtherFilesStay to) (D.content disk.old) (D.content disk.new) }
    ensures fewest { D.reads disk.old ≤ D.reads disk.new }
    ensures cause { HasCause (D.faults disk.old) (D.faults disk.new) result }
{
    let count = disk.read(range.file, range.offset, window)?;
    if count < window.len() {
        return Ok(false);
    }
    disk.write_at(to, end, window)?;
    Ok(true)
}

/// Copies a range of a file to an offset of another one, by pieces of up to 4,096 bytes.
///
/// Returns `false` if the range isn't whole in its file; bytes after the offset may then have been
/// written. Allocates nothing.
pub fn copy_range<D: Disk>(
    disk: &mut D,
    range: FileRange,
    to: FileName,
    end: u64,
) -> Result<bool, DiskFault>
    requires apart { range.file ≢ to }
    requires range { range.offset + range.count < 2 ^ 64 }
    requires inside { WhereTold (IsAtMostLength to end) (D.content disk.old) }
    requires end { end + range.count < 2 ^ 63 }
    // All that is before the offset stays at each moment, whatever the call returns.
    ensures crash_beside { (bounds : Bounds) → RespectsBound (bounds to) end
        → RunsBeside D.Disk bounds disk.old disk.new }
    ensures copied { IfOk result (λ whole. whole ≡ true
        → BothTold (Copied range.file range.offset range.count to end) (D.content disk.old)
        (D.content disk.new)) }
    ensures whole { HasRange range.file range.offset range.count (D.content disk.old)
        → IfOk result (λ whole. whole ≡ true) }
    ensures others { BothTold (OtherFilesStay to) (D.content disk.old) (D.content disk.new) }
    ensures fewest { D.reads disk.old ≤ D.reads disk.new }
    ensures cause { HasCause (D.faults disk.old) (D.faults disk.new) result }
{
    let mut window = [0; WINDOW as usize];
    let mut done = 0;
    while done < range.count {
        let next = next_window(range, done);
        let into = &mut window[..next.count as usize];
        let whole = copy_window(disk, next, to, end + done, into)?;
        if !whole {
            return Ok(false);
        }
        done += next.count;
    }
    Ok(true)
}
