//! Reads the epochs of an archive on a disk.
//! Reads the disk.
ghost use Rattle.std.specs.Prelude.{◌≡◌, ◌<◌, ◌≤◌, ◌+◌, ℕ, List, get_or, Err};
ghost use Rattle.arch_base.specs.Counts.{RoseIf};
ghost use Rattle.arch_model.specs.Archives.{Archive, in_epoch};
ghost use Rattle.arch_model.specs.Standing.{GivesEpochIn, KeepsUnlessFound};
ghost use Rattle.disk_model.specs.Disk.{Image, BothTold, WhereTold, Unchanged};
ghost use Rattle.disk_model.specs.Moments.{LeavesOnly};
ghost use Rattle.disk_model.specs.Sizes.{greatest_epoch};
ghost use Rattle.arch_model.specs.declared.text_refusal.TextRefusal.{TextRefusal};
ghost use Rattle.root_slots.specs.Valid.{no_place};
ghost use Rattle.store_finding.specs.Kept.{IsStoreWith};
ghost use Rattle.epoch_store.specs.Reads.{AnswersQuietly, IsEpochFound, FindsEpoch};

use crate::store::Store;
use arch_base::Bytes;
use arch_model::TextRefusal;
use disk_model::Disk;
use store_finding::{ReadRefusal, read_text};

impl Store {
    /// Returns the sequence of the current root.
    pub fn sequence(&self) -> u64
        ensures { result ≡ self.now.root.sequence }
    {
        self.root.sequence
    }

    /// Returns the number of bytes of an epoch that the root names, 0 if there is no such epoch.
    fn named_length(&self, epoch: u32) -> u64
        ensures length { result ≡ (get_or self.now.root.epochs epoch no_place).length }
        ensures there { 0 < result → epoch ≤ greatest_epoch }
    {
        match self.root.epochs.get(epoch as usize) {
            None => 0,
            Some(place) => place.length,
        }
    }

    /// Appends the bytes of an epoch to `into`, and returns whether the epoch has an entry.
    ///
    /// Reads the disk at most once. `false` comes exactly if the root names no bytes of the epoch,
    /// and leaves the bytes unchanged. Nothing changes on the disk.
    ///
    /// `DiskFault` comes only if the disk's count of faults rose, and `NoMemory` only if memory
    /// runs out; `Damaged` never comes. An error leaves the bytes unchanged.
    pub fn epoch<D: Disk>(
        &self,
        disk: &mut D,
        epoch: u32,
        into: &mut Bytes,
    ) -> Result<bool, TextRefusal>
        ensures bytes { (a : Archive) (cache : List ℕ)
            → IsStoreWith self.now cache a (D.content disk.old)
            → GivesEpochIn a.config.form (in_epoch a.entries epoch) into.old into.new result }
        ensures named { IsEpochFound self.now.root epoch into.old into.new result }
        ensures found { WhereTold (FindsEpoch self.now.root epoch into.old into.new result)
            (D.content disk.old) }
        ensures kept { KeepsUnlessFound into.old into.new result }
        ensures undamaged { AnswersQuietly result }
        ensures same { BothTold Unchanged (D.content disk.old) (D.content disk.new) }
        ensures crash { LeavesOnly D.Disk disk.old disk.new (Image (D.content disk.old)) }
        ensures cause { RoseIf (result ≡ Err TextRefusal.DiskFault) (D.faults disk.old)
            (D.faults disk.new) }
        ensures fewest { D.reads disk.old ≤ D.reads disk.new }
        ensures count { D.reads disk.new ≤ D.reads disk.old + 1 }
    {
        let named = self.named_length(epoch);
        if named == 0 {
            return Ok(false);
        }
        let file = self.file_of(epoch);
        let alloc = *self.entries.allocator();
        let bytes = match read_text(alloc, disk, file, 0, named) {
            Ok(bytes) => bytes,
            Err(ReadRefusal::DiskFault) => return Err(TextRefusal::DiskFault),
            Err(ReadRefusal::NoMemory) => return Err(TextRefusal::NoMemory),
        };
        into.push_slice(bytes.as_slice())?;
        Ok(true)
    }
}
