//! The entries of an archive on a disk and their texts, one after another.
//! Reads the disk.
ghost use Rattle.std.specs.Prelude.{◌≡◌, ℕ, List, refl};
ghost use Rattle.std.proofs.Common.{◌∙◌};
ghost use Rattle.archive_core.specs.Commands.{OnlyLooks};
ghost use Rattle.archive_core.specs.Walks.{lines_kept, IsSound, store-valid, looks-same, looks-joined};
ghost use Rattle.store_finding.specs.Kept.{IsStoreWith};

use arch_base::Bytes;
use arch_model::{EntryLine, TextRefusal, Walked};
use disk_model::Disk;
use epoch_store::Store;

/// A store and its disk, both borrowed, as what is walked through.
#[derive(Drop)]
pub struct Walk<'a, D: Disk> {
    /// The store.
    pub store: &'a Store,
    /// The disk of the store.
    pub disk: &'a mut D,
}

impl<'a, D: Disk> Walked for Walk<'a, D> {
    ghost holds = { λ w a. (cache : List ℕ) × IsStoreWith w.store.now cache a (D.content w.disk.now) };

    ghost sound = { λ w. IsSound w.store.now (D.content w.disk.now) };

    ghost lines = { λ w. lines_kept w.store.now.entries };

    ghost reads = { λ w. D.reads w.disk.now };

    ghost faults = { λ w. D.faults w.disk.now };

    // The disk is the same one, and was only read.
    ghost alike = { λ w x. (x.disk.ghost_name ≡ w.disk.ghost_name) × (x.store ≡ w.store)
        × OnlyLooks D.Disk w.disk.now x.disk.now };

    fn entry(&self, index: u64) -> Option<EntryLine> {
        self.store.entry(index)
    }

    fn text(&mut self, index: u64, into: &mut Bytes) -> Result<(), TextRefusal> {
        self.store.text(&mut *self.disk, index, into)
    }

    ghost holds_valid = { λ w a store. store-valid w.store.now store.0 a (D.content w.disk.now) store.1 };

    ghost alike_same = { λ w.
        (refl, refl, looks-same D.Disk.own D.only_now w.disk.now) };

    ghost alike_joined = { λ w x y p q. (
      q.0 ∙ p.0,
      q.1 ∙ p.1,
      looks-joined D.Disk.own D.only_now w.disk.now x.disk.now y.disk.now
          p.2 q.2,
    ) };
}
