//! Reads the entries of an archive on a disk.
//! Reads the disk.
ghost use Rattle.std.specs.Prelude.{◌≡◌, ◌≤◌, ◌<◌, ◌+◌, ℕ, List, Err, Some, length, slice_get};
ghost use Rattle.arch_base.specs.Counts.{RoseIf};
ghost use Rattle.arch_model.specs.Archives.{Archive};
ghost use Rattle.disk_model.specs.Disk.{Image, BothTold, WhereTold, Unchanged};
ghost use Rattle.disk_model.specs.Moments.{LeavesOnly};
ghost use Rattle.arch_model.specs.declared.text_refusal.TextRefusal.{TextRefusal};
ghost use Rattle.disk_model.specs.Sizes.{greatest_epoch};
ghost use Rattle.store_finding.specs.declared.entries.StoredEntry.{StoredEntry};
ghost use Rattle.store_finding.specs.Files.{epoch_file_of};
ghost use Rattle.store_finding.specs.Kept.{IsStoreWith};
ghost use Rattle.epoch_store.specs.Reads.{line_of, line_if, place_if, GivesText, FindsText, GivesTextOf};

use crate::store::Store;
use arch_base::{Bytes, Config};
use arch_model::{EntryLine, TextRefusal};
use disk_model::{Disk, FileName};
use git_objects::blob_id;
use root_change::epoch_file;
use store_finding::{ReadRefusal, StoredEntry, read_text};

impl Store {
    /// Returns the settings of the archive.
    pub fn config(&self) -> &Config
        ensures { result.now ≡ self.now.root.config }
    {
        &self.root.config
    }

    /// Returns the number of the next message.
    pub fn next_number(&self) -> u32
        ensures { result ≡ self.now.root.next }
    {
        self.root.next
    }

    /// Returns the entries without their texts, deletions among them, in the order in which they came.
    pub fn stored(&self) -> &[StoredEntry]
        ensures { result.now ≡ self.now.entries }
    {
        self.entries.as_slice()
    }

    /// Returns the entry at an index, from 0.
    ///
    /// The result is `None` exactly if there are not so many.
    pub fn entry(&self, index: u64) -> Option<EntryLine>
        ensures { result ≡ line_if (slice_get self.now.entries index) }
    {
        match self.entries.get(index as usize) {
            None => None,
            Some(entry) => Some(entry_line(entry)),
        }
    }

    /// Returns the file of an entry, and the entry's offset there.
    ///
    /// The result is `None` exactly if there are not so many entries.
    pub fn place(&self, index: u64) -> Option<(FileName, u64)>
        ensures { result ≡ place_if self.now.root (slice_get self.now.entries index) }
    {
        match self.entries.get(index as usize) {
            None => None,
            Some(entry) => Some((self.file_of(entry.epoch), entry.seen.at)),
        }
    }

    /// Returns the name of the file of an epoch.
    pub(crate) fn file_of(&self, epoch: u32) -> FileName
        requires { epoch ≤ greatest_epoch }
        ensures { result ≡ epoch_file_of self.now.root epoch }
    {
        epoch_file(epoch, self.root.epochs[epoch as usize].generation)
    }

    /// Appends the text of an entry to `into`.
    ///
    /// Reads the disk at most once, and changes nothing on it.
    ///
    /// `Damaged` comes if the bytes there have another blob id than the entry, which never happens
    /// on the disk of an archive: `named` is the entry's blob id, and `found` that of the bytes.
    /// `DiskFault` comes only if the disk's count of faults rose, and `NoMemory` only if memory runs
    /// out. An error leaves the bytes unchanged.
    pub fn text<D: Disk>(
        &self,
        disk: &mut D,
        index: u64,
        into: &mut Bytes,
    ) -> Result<(), TextRefusal>
        requires there { index < length self.now.entries }
        ensures text { (s : StoredEntry) → slice_get self.now.entries index ≡ Some s
            → GivesText s into.old into.new result }
        ensures found { (s : StoredEntry) → slice_get self.now.entries index ≡ Some s
            → WhereTold (FindsText self.now.root s into.old into.new result) (D.content disk.old) }
        ensures archive { (a : Archive) (cache : List ℕ)
            → IsStoreWith self.now cache a (D.content disk.old)
            → GivesTextOf a index into.old into.new result }
        ensures same { BothTold Unchanged (D.content disk.old) (D.content disk.new) }
        ensures crash { LeavesOnly D.Disk disk.old disk.new (Image (D.content disk.old)) }
        ensures cause { RoseIf (result ≡ Err TextRefusal.DiskFault) (D.faults disk.old)
            (D.faults disk.new) }
        ensures fewest { D.reads disk.old ≤ D.reads disk.new }
        ensures count { D.reads disk.new ≤ D.reads disk.old + 1 }
    {
        let entry = &self.entries[index as usize];
        let file = self.file_of(entry.epoch);
        let alloc = *self.entries.allocator();
        let text = match read_text(alloc, disk, file, entry.seen.text_at, entry.seen.size) {
            Ok(text) => text,
            Err(ReadRefusal::DiskFault) => return Err(TextRefusal::DiskFault),
            Err(ReadRefusal::NoMemory) => return Err(TextRefusal::NoMemory),
        };
        let found = blob_id(text.as_slice(), entry.seen.blob.form());
        if found != entry.seen.blob {
            return Err(TextRefusal::Damaged {
                named: entry.seen.blob,
                found,
            });
        }
        into.push_slice(text.as_slice())?;
        Ok(())
    }
}

/// Returns an entry without its text.
fn entry_line(entry: &StoredEntry) -> EntryLine
    ensures { result ≡ line_of entry.now }
{
    EntryLine {
        kind: entry.seen.kind,
        number: entry.number,
        epoch: entry.epoch,
        secs: entry.seen.moment,
        blob: entry.seen.blob,
        size: entry.seen.size,
        commit: entry.seen.commit,
    }
}
