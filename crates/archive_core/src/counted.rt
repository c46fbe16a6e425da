//! An archive on a disk that is opened to be counted or converted.
//! Writes the disk; syncs.
ghost use Rattle.std.specs.Prelude.{◌≡◌, ◌↔◌, true, false, ℕ, List, Err, count_by, length};
ghost use Rattle.arch_base.specs.declared.ids.Form.TheVariants as form_;
ghost use Rattle.disk_model.specs.Disk.{WhereTold};
ghost use Rattle.arch_model.specs.Archives.{Archive, live};
ghost use Rattle.archive_core.specs.Openings.{RefusesKindly};
ghost use Rattle.archive_core.specs.declared.placing.MessagePlace.{MessagePlace};
ghost use Rattle.epoch_store.specs.Promises.{OpensArchive};
ghost use Rattle.epoch_store.specs.Commands.{StoreHasSizes};
ghost use Rattle.epoch_store.specs.Converting.{CollidesAs, ConvertsAny};
ghost use Rattle.store_finding.specs.Kept.{IsStoreWith, KeepsArchive, StoreState};

use crate::placing::{MessagePlace, places_of};
use arch_model::OpenRefusal;
use disk_model::Disk;
use epoch_store::{ConvertRefusal, Store, law_of_stores};
use std::alloc::Global;
use std::marker::Model;

/// An archive that was opened on a disk to be counted or converted: its store, and how many messages
/// are live.
///
/// It has neither rows nor threads nor an index, and takes no command. Its contract view is what the
/// store keeps.
#[derive(Drop)]
pub struct CountedArchive {
    store: Store,
    live: u64,
}

impl Model for CountedArchive {
    ghost use Rattle.store_finding.specs.Kept.{StoreState};
    ghost use Rattle.epoch_store.specs.Commands.{live_kept};
    ghost use Rattle.std.specs.Prelude.{◌≡◌, length};

    ghost Value = { StoreState };

    ghost view = { λ c. c.store };

    ghost invariant = { λ c. c.live ≡ length (live_kept c.store.entries) };
}

impl CountedArchive {
    /// Opens the archive on a disk, and counts its live messages.
    ///
    /// The promises and the refusals are those of `DiskArchive::open`.
    pub fn open<D: Disk>(alloc: Global, disk: &mut D) -> Result<CountedArchive, OpenRefusal>
        ensures opened { OpensArchive D.Disk disk.old disk.new
            result }
        ensures refused { RefusesKindly result (D.content disk.old) (D.content disk.new) }
    {
        law_of_stores();
        let store = match Store::open(alloc, disk) {
            Ok((store, _index)) => store,
            Err(refusal) => return Err(refusal),
        };
        let Ok(places) = places_of(alloc, store.stored()) else {
            return Err(OpenRefusal::NoMemory);
        };
        let live = live_count(places.as_slice());
        Ok(CountedArchive { store, live })
    }

    /// Converts the archive to SHA-256 ids, and drops what is kept of it.
    ///
    /// The promises and the errors are those of `Store::convert`, which it calls.
    pub fn convert<D: Disk>(self, alloc: Global, disk: &mut D) -> Result<(), ConvertRefusal>
        requires sizes { WhereTold (StoreHasSizes self) (D.content disk.old) }
        ensures mirror { (result ≡ Err ConvertRefusal.IsMirror)
            ↔ (self.root.config.mirror ≡ true) }
        ensures already { (result ≡ Err ConvertRefusal.Already)
            ↔ ((self.root.config.mirror ≡ false) × (self.root.config.form ≡ form_.Sha256)) }
        ensures collision { (a : Archive) (cache : List ℕ)
            → IsStoreWith self cache a (D.content disk.old) → CollidesAs form_.Sha256 a result }
        ensures changes { (made : StoreState)
            × ConvertsAny D.Disk disk.old disk.new self made form_.Sha256 result }
    {
        let mut store = self.store;
        store.convert(alloc, disk)
    }

    /// Returns the number of entries.
    pub fn entry_count(&self) -> u64
        ensures { result ≡ length self.now.entries }
    {
        self.store.stored().len() as u64
    }

    /// Returns the number of live messages.
    pub fn message_count(&self) -> u32
        ensures { (a : Archive) → KeepsArchive self.now a → result ≡ length (live a.entries) }
    {
        // There are no more messages than numbers.
        self.live.min(u64::from(u32::MAX)) as u32
    }

    /// Returns the number of the next message, as the current root has it.
    pub fn next_of_root(&self) -> u32
        ensures { result ≡ self.now.root.next }
    {
        self.store.next_number()
    }
}

/// Returns how many places are those of live messages.
fn live_count(places: &[MessagePlace]) -> u64
    ensures { result ≡ count_by (λ (p : MessagePlace). p.live) places.now }
{
    places.iter().filter(|place| place.live).count() as u64
}
