//! A window over a part of a file: bytes that were read and are still in use.
//! Reads the disk.
ghost use Rattle.std.specs.Prelude.{◌≡◌, ◌+◌, ◌-◌, ◌<◌, ◌≤◌, ◌++◌, ℕ, List, [], length, drop, vec_len, IfOk, OnOk, OnErr};
ghost use Rattle.disk_model.specs.Disk.{WhereTold};
ghost use Rattle.epoch_file.specs.Windows.{BytesCome, WindowGrows, IsInsidePart};
ghost use Rattle.epoch_file.specs.Runs.{OnlyReads, StopRose};

use arch_base::{Bytes, NoMemory};
use disk_model::{Disk, FileName, WalkRefusal};
use std::alloc::Global;
use std::marker::Model;

/// The most bytes that are read at once.
const PIECE: u64 = 1 << 20;

/// Allocates room for the bytes that are read at once, for a file of `length` bytes.
pub(crate) fn piece_room(alloc: Global, length: u64) -> Result<Vec<u8>, NoMemory>
    ensures { IfOk result (λ room. 8 ≤ vec_len room) }
{
    let count = length.max(8).min(PIECE) as usize;
    Ok(vec![in alloc; 0; count]?)
}

/// A part of a file, from an offset up to an end.
#[derive(Clone, Copy)]
pub(crate) struct Part {
    /// The name of the file.
    pub(crate) file: FileName,
    /// The offset at which the window starts.
    pub(crate) offset: u64,
    /// The end of what counts of the file.
    pub(crate) end: u64,
}

/// Bytes of a file from an offset on. Its contract view is a list.
#[derive(Drop)]
pub(crate) struct Window {
    held: Bytes,
    start: usize,
}

impl Model for Window {
    ghost use Rattle.std.specs.Prelude.{List, ℕ, ◌≤◌, length, drop};

    ghost Value = { List ℕ };

    ghost view = { λ w. drop w.start w.held };

    ghost invariant = { λ w. w.start ≤ length w.held };
}

impl Window {
    /// Creates a window without bytes.
    pub(crate) fn new(alloc: Global) -> Window
        ensures { result ≡ [] }
    {
        Window {
            held: Bytes::new(alloc),
            start: 0,
        }
    }

    /// Returns the bytes.
    pub(crate) fn as_slice(&self) -> &[u8]
        ensures { result.now ≡ self.now }
    {
        self.held.as_slice().split_at(self.start).1
    }

    /// Skips the first bytes.
    pub(crate) fn skip(&mut self, count: usize)
        requires { count ≤ length self.old }
        ensures { self.new ≡ drop count self.old }
    {
        let _len = self.held.as_slice().len(); // its range bounds the sum
        self.start += count;
    }

    /// Frees the room of bytes that were skipped.
    fn settle(&mut self, alloc: Global) -> Result<(), NoMemory>
        ensures { self.new ≡ self.old }
    {
        if self.start > 0 {
            let mut held = Bytes::new(alloc);
            held.push_slice(self.as_slice())?;
            self.held = held;
            self.start = 0;
        }
        Ok(())
    }

    /// Appends bytes to the window.
    fn push(&mut self, alloc: Global, bytes: &[u8]) -> Result<(), NoMemory>
        ensures ok { OnOk result (self.new ≡ self.old ++ bytes.now) }
        ensures err { OnErr result (self.new ≡ self.old) }
    {
        self.settle(alloc)?;
        self.held.push_slice(bytes)
    }
}

/// Reads more bytes of a part into its window.
///
/// Returns `false` if none came, although some were left.
pub(crate) fn read_on<D: Disk>(
    alloc: Global,
    disk: &mut D,
    part: &Part,
    window: &mut Window,
    piece: &mut [u8],
) -> Result<bool, WalkRefusal>
    requires room { 0 < length piece.old }
    requires wanted { part.now.offset + length window.old < part.now.end }
    ensures came { WhereTold (BytesCome part.now (length piece.old) window.old window.new result)
        (D.content disk.old) }
    ensures grows { WindowGrows window.old window.new result }
    ensures inside { IsInsidePart part.now window.new }
    ensures reads { OnlyReads D.Disk disk.old disk.new }
    ensures fault { StopRose (D.faults disk.old) (D.faults disk.new) result }
{
    let left = part.end - part.offset - window.as_slice().len() as u64;
    let wanted = left.min(piece.len() as u64) as usize;
    read_into(alloc, disk, part, window, &mut piece[..wanted])
}

/// Reads more bytes of a part into its window, with room for at most the bytes that are left.
fn read_into<D: Disk>(
    alloc: Global,
    disk: &mut D,
    part: &Part,
    window: &mut Window,
    room: &mut [u8],
) -> Result<bool, WalkRefusal>
    requires some { 0 < length room.old }
    requires fits { part.now.offset + length window.old + length room.old ≤ part.now.end }
    ensures came { WhereTold (BytesCome part.now (length room.old) window.old window.new result)
        (D.content disk.old) }
    ensures grows { WindowGrows window.old window.new result }
    ensures inside { IsInsidePart part.now window.new }
    ensures reads { OnlyReads D.Disk disk.old disk.new }
    ensures fault { StopRose (D.faults disk.old) (D.faults disk.new) result }
{
    let offset = part.offset + window.as_slice().len() as u64;
    let count = disk.read(part.file, offset, room)?;
    if count == 0 {
        return Ok(false);
    }
    window.push(alloc, room.split_at(count).0)?;
    Ok(true)
}
