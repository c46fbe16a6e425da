//! The `Disk` trait: what reads give, and what a crash may leave.
//! Writes the disk; syncs.
ghost use Rattle.std.specs.Prelude.{◌≡◌, ◌≤◌, Some, ◌<◌, ◌+◌, ◌^◌, ℕ, Bool, Option, length, is_ok, IfOk, OnOk, OnErr};
ghost use Rattle.arch_base.specs.Counts.{HasCause};
ghost use Rattle.disk_model.specs.declared.name.FileName.{FileName};
ghost use Rattle.disk_model.specs.Disk.{Files, Content, Image, BothTold, WhereTold, OneFile, Unchanged, Wrote, Tore, CutTo, TornCut, Removed, TornRemoval, Synced, NotSynced, HasRead, IsLength, IsAtMostLength, IsNameAt, Elapses, MaySurvive};

use crate::FileName;
use thiserror::Error;

/// A failed call of a disk.
#[derive(Clone, Copy, Debug, PartialEq, Eq, Error)]
#[error("the disk failed")]
pub struct DiskFault;

/// A disk of named files, and what a crash may leave of them.
///
/// Between two syncs a file that isn't removed may have any length from its least to its greatest
/// since the last sync, with any bytes past the least. Every range that was written, and every part
/// past the old end, may hold any bytes. Bytes outside stay. A file that was created or removed may
/// be there or not.
///
/// After a sync that returns `Ok` a crash leaves what reads give. A call that fails leaves its own
/// range as a crash in it may. The files as they read are one of the images that a crash may leave.
///
/// Each change has a moment. An image since a moment is one that a crash at that moment or a later
/// one may leave. A call fails only if the count of faults rose.
pub trait Disk {
    /// The files as they read and what of them survives a crash, if the disk tells it.
    ghost content: { Self → Option Content };

    /// The number of calls that have failed.
    ghost faults: { Self → ℕ };

    /// The number of calls of `read`.
    ghost reads: { Self → ℕ };

    /// The current moment, a number that never falls.
    ghost moment: { Self → ℕ };

    /// The images that a crash at that moment or a later one may have left.
    ghost left_since: { Self → ℕ → Files → Type 0 };

    /// The plan by which calls fail.
    ///
    /// A relation of the disk before a call, whether the call returns `Ok`, and the disk after it.
    /// A disk without a plan allows everything here.
    ghost fails_by: { Self → Bool → Self → Type 0 };

    /// Reads from an offset into the front of a buffer, and returns the number of bytes read.
    ///
    /// Fills the buffer, or reads fewer bytes at the file's end, and none of a missing file. An
    /// adapter over files reads again after a short read. After a fault the buffer may hold
    /// anything.
    fn read(&mut self, name: FileName, place: u64, into: &mut [u8]) -> Result<usize, DiskFault>
        ensures bound { IfOk result (λ n. n ≤ length into.new) }
        ensures bytes { IfOk result (λ n.
            WhereTold (HasRead name place n into.old into.new) (content self.old)) }
        ensures same { BothTold Unchanged (content self.old) (content self.new) }
        ensures time { Elapses (moment self.old) (moment self.new) (left_since self.old)
            (left_since self.new) (content self.new) }
        ensures cause { HasCause (faults self.old) (faults self.new) result }
        ensures plan { fails_by self.old (is_ok result) self.new }
        ensures fewest { reads self.old ≤ reads self.new }
        ensures count { reads self.new ≤ reads self.old + 1 };

    /// Returns a file's length in bytes, 0 for a missing file.
    fn length(&mut self, name: FileName) -> Result<u64, DiskFault>
        ensures length { IfOk result (λ n. WhereTold (IsLength name n) (content self.old)) }
        ensures same { BothTold Unchanged (content self.old) (content self.new) }
        ensures time { Elapses (moment self.old) (moment self.new) (left_since self.old)
            (left_since self.new) (content self.new) }
        ensures cause { HasCause (faults self.old) (faults self.new) result }
        ensures plan { fails_by self.old (is_ok result) self.new }
        ensures count { reads self.new ≡ reads self.old };

    /// Writes bytes at an offset, over the old ones and past the end.
    ///
    /// Creates a missing file. The offset is at most the file's length. After a fault the file's
    /// range may hold anything.
    fn write_at(&mut self, name: FileName, place: u64, bytes: &[u8]) -> Result<(), DiskFault>
        requires inside { WhereTold (IsAtMostLength name place) (content self.old) }
        requires end { place + length bytes.now < 2 ^ 63 }
        ensures written { OnOk result (BothTold (OneFile name (Wrote place bytes.now))
            (content self.old) (content self.new)) }
        ensures torn { OnErr result (BothTold (OneFile name (Tore place (length bytes.now)))
            (content self.old) (content self.new)) }
        ensures time { Elapses (moment self.old) (moment self.new) (left_since self.old)
            (left_since self.new) (content self.new) }
        ensures cause { HasCause (faults self.old) (faults self.new) result }
        ensures plan { fails_by self.old (is_ok result) self.new }
        ensures count { reads self.new ≡ reads self.old };

    /// Cuts a file to a length of at most its own. A missing file stays missing.
    fn cut(&mut self, name: FileName, length: u64) -> Result<(), DiskFault>
        requires inside { WhereTold (IsAtMostLength name length) (content self.old) }
        ensures cut { OnOk result
            (BothTold (OneFile name (CutTo length)) (content self.old) (content self.new)) }
        ensures torn { OnErr result
            (BothTold (OneFile name (TornCut length)) (content self.old) (content self.new)) }
        ensures time { Elapses (moment self.old) (moment self.new) (left_since self.old)
            (left_since self.new) (content self.new) }
        ensures cause { HasCause (faults self.old) (faults self.new) result }
        ensures plan { fails_by self.old (is_ok result) self.new }
        ensures count { reads self.new ≡ reads self.old };

    /// Removes a file. A missing file stays missing.
    fn remove(&mut self, name: FileName) -> Result<(), DiskFault>
        ensures removed { OnOk result
            (BothTold (OneFile name Removed) (content self.old) (content self.new)) }
        ensures torn { OnErr result
            (BothTold (OneFile name TornRemoval) (content self.old) (content self.new)) }
        ensures time { Elapses (moment self.old) (moment self.new) (left_since self.old)
            (left_since self.new) (content self.new) }
        ensures cause { HasCause (faults self.old) (faults self.new) result }
        ensures plan { fails_by self.old (is_ok result) self.new }
        ensures count { reads self.new ≡ reads self.old };

    /// Returns the name at an index, from 0, in the order of names.
    ///
    /// The result is `None` if there are not so many files.
    fn name_at(&mut self, index: u64) -> Result<Option<FileName>, DiskFault>
        ensures name { IfOk result (λ name. WhereTold (IsNameAt index name) (content self.old)) }
        ensures same { BothTold Unchanged (content self.old) (content self.new) }
        ensures time { Elapses (moment self.old) (moment self.new) (left_since self.old)
            (left_since self.new) (content self.new) }
        ensures cause { HasCause (faults self.old) (faults self.new) result }
        ensures plan { fails_by self.old (is_ok result) self.new }
        ensures count { reads self.new ≡ reads self.old };

    /// Syncs every change.
    ///
    /// After `Ok` a crash leaves what reads give. After a fault reads may give whatever a crash
    /// might have left, and a crash may leave no more than before.
    fn sync(&mut self) -> Result<(), DiskFault>
        ensures durable { OnOk result (BothTold Synced (content self.old) (content self.new)) }
        ensures torn { OnErr result (BothTold NotSynced (content self.old) (content self.new)) }
        ensures time { Elapses (moment self.old) (moment self.new) (left_since self.old)
            (left_since self.new) (content self.new) }
        ensures cause { HasCause (faults self.old) (faults self.new) result }
        ensures plan { fails_by self.old (is_ok result) self.new }
        ensures count { reads self.new ≡ reads self.old };

    /// An image that a crash may leave now is one of those since each earlier moment.
    ghost counts_now: { (disk : Self) (t : ℕ) (image : Files) → t ≤ moment disk
        → Image (content disk) image → left_since disk t image };

    /// An image since this moment is one that a crash may leave now.
    ghost only_now: { (disk : Self) (image : Files) → left_since disk (moment disk) image
        → Image (content disk) image };

    /// The files as they read are one of the images that a crash may leave.
    ghost reads_fit: { (disk : Self) (k : Content) → content disk ≡ Some k → (name : FileName)
        → MaySurvive (k name).sure (k name).seen };
}
