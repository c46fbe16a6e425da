//! Converts an archive on a disk to SHA-256 ids.
//! Writes the disk; syncs.
ghost use Rattle.std.specs.Prelude.{◌≡◌, ◌↔◌, true, false, ℕ, List, Err};
ghost use Rattle.arch_base.specs.declared.ids.Form.TheVariants as form_;
ghost use Rattle.disk_model.specs.Disk.{WhereTold};
ghost use Rattle.arch_model.specs.Archives.{Archive};
ghost use Rattle.store_finding.specs.Kept.{IsStoreWith, StoreState};
ghost use Rattle.epoch_store.specs.Commands.{StoreHasSizes};
ghost use Rattle.epoch_store.specs.Converting.{CollidesAs, ConvertsAny};
ghost use Rattle.archive_core.specs.Converting.{IsForgotten};

use crate::archive::DiskArchive;
use arch_judge::Index;
use disk_model::Disk;
use epoch_store::ConvertRefusal;

impl DiskArchive {
    /// Converts the archive to SHA-256 ids.
    ///
    /// The promises and the errors are those of `Store::convert`, which it calls. After `Ok` nothing is
    /// kept of the entries, whose ids are others now: the archive has to be opened again.
    pub fn convert<D: Disk>(&mut self, disk: &mut D) -> Result<(), ConvertRefusal>
        requires sizes { WhereTold (StoreHasSizes self.old) (D.content disk.old) }
        ensures mirror { (result ≡ Err ConvertRefusal.IsMirror)
            ↔ (self.old.root.config.mirror ≡ true) }
        ensures already { (result ≡ Err ConvertRefusal.Already)
            ↔ ((self.old.root.config.mirror ≡ false) × (self.old.root.config.form ≡ form_.Sha256)) }
        ensures collision { (a : Archive) (cache : List ℕ)
            → IsStoreWith self.old cache a (D.content disk.old) → CollidesAs form_.Sha256 a result }
        ensures changes { (made : StoreState)
            × ConvertsAny D.Disk disk.old disk.new self.old made form_.Sha256 result
            × IsForgotten self.old made self.new result }
    {
        match self.store.convert(self.alloc, disk) {
            Ok(()) => {
                self.store.forget();
                self.index = Index::new(self.alloc);
                self.places = Vec::new(self.alloc);
                Ok(())
            }
            Err(why) => Err(why),
        }
    }
}
