//! An archive that was opened on a disk, with the rows, threads and words of its live messages.
//! Writes the disk; syncs.
ghost use Rattle.std.specs.Prelude.{◌≡◌, ◌<◌, ℕ, List, Err, IfOk, length, slice_get};
ghost use Rattle.arch_base.specs.Counts.{RoseIf};
ghost use Rattle.arch_model.specs.Archives.{Archive, live};
ghost use Rattle.arch_model.specs.declared.opening.OpenRefusal.{OpenRefusal};
ghost use Rattle.epoch_store.specs.Opens.{ReadsWith, OpensWell};
ghost use Rattle.epoch_store.specs.Promises.{OpensArchive};
ghost use Rattle.store_finding.specs.Kept.{IsStoreWith};
ghost use Rattle.archive_core.specs.Commands.{OnlyLooks};
ghost use Rattle.archive_core.specs.HandedBack.{view_opened};
ghost use Rattle.archive_core.specs.Openings.{RefusesKindly};
ghost use Rattle.archive_core.specs.Walks.{IsSound, unread_opening};
ghost use Rattle.view_set.specs.Viewed.{views_of};

use crate::archive::DiskArchive;
use crate::walk::Walk;
use arch_model::{OpenRefusal, TextRefusal};
use disk_model::Disk;
use epoch_store::law_of_stores;
use std::alloc::Global;
use view_set::{Unread, Views, rebuild};

/// An archive that was opened on a disk, and the rows, threads and words of its live
/// messages.
#[derive(Drop)]
pub(crate) struct Opened {
    pub(crate) archive: DiskArchive,
    pub(crate) views: Views,
}

impl Opened {
    /// Opens the archive on a disk, and reads the text of each message once, for its row,
    /// its threads and its words.
    ///
    /// The promises and the refusals are those of `DiskArchive::open`. `Damaged` may also have the
    /// offset of an entry whose text had another id when it was read again, which never happens on a
    /// disk that tells its content.
    pub(crate) fn open<D: Disk>(alloc: Global, disk: &mut D) -> Result<Opened, OpenRefusal>
        ensures opened { OpensArchive D.Disk disk.old disk.new (view_opened result) }
        ensures refused { RefusesKindly result (D.content disk.old) (D.content disk.new) }
        ensures rows { (a : Archive) (cache : List ℕ) → ReadsWith cache a (D.content disk.old)
            → IfOk result (λ opened. opened.views ≡ views_of a.config.form (live a.entries)) }
    {
        law_of_stores();
        let archive = match DiskArchive::open(alloc, disk) {
            Ok(archive) => archive,
            Err(refusal) => return Err(refusal),
        };
        match archive.rows(alloc, disk) {
            Ok(views) => Ok(Opened { archive, views }),
            Err(refusal) => Err(refusal),
        }
    }
}

impl DiskArchive {
    /// Returns the rows, threads and words of the live messages, as `rebuild` does.
    ///
    /// `DiskFault` comes only if the disk's count of faults rose, and `NoMemory` only if memory runs
    /// out. `Damaged` comes if a text has another id than its entry, with the entry's file and offset,
    /// which never happens where the texts of all entries are in their places.
    pub(crate) fn rows<D: Disk>(&self, alloc: Global, disk: &mut D) -> Result<Views, OpenRefusal>
        ensures rows { (a : Archive) (cache : List ℕ)
            → IsStoreWith self.now cache a (D.content disk.old)
            → IfOk result (λ views. views ≡ views_of a.config.form (live a.entries)) }
        ensures well { (a : Archive) (cache : List ℕ)
            → IsStoreWith self.now cache a (D.content disk.old) → OpensWell result }
        ensures sound { IsSound self.now (D.content disk.old) → OpensWell result }
        ensures looks { OnlyLooks D.Disk disk.old disk.new }
        ensures cause { RoseIf (result ≡ Err OpenRefusal.DiskFault) (D.faults disk.old)
            (D.faults disk.new) }
    {
        let mut walk = Walk {
            store: &self.store,
            disk: &mut *disk,
        };
        match rebuild(alloc, &mut walk) {
            Ok(views) => Ok(views),
            Err(unread) => Err(self.unopened(&unread)),
        }
    }

    /// Returns why an archive wasn't opened, a text of which wasn't read.
    fn unopened(&self, unread: &Unread) -> OpenRefusal
        requires there { unread.now.index < length self.now.entries }
        ensures { result ≡ unread_opening self.now (slice_get self.now.entries unread.now.index)
            unread.now.why }
    {
        match unread.why {
            TextRefusal::DiskFault => OpenRefusal::DiskFault,
            TextRefusal::NoMemory => OpenRefusal::NoMemory,
            TextRefusal::Damaged { .. } => match self.store.place(unread.index) {
                None => unreachable!(),
                Some((file, at)) => OpenRefusal::Damaged { file, at },
            },
        }
    }
}
