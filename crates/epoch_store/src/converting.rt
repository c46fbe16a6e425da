//! Converts the archive on a disk to SHA-256 ids.
//! Writes the disk; syncs.
ghost use Rattle.std.specs.Prelude.{◌≡◌, ◌≢◌, ◌↔◌, true, false, [], List, ℕ, Err, OnOk};
ghost use Rattle.arch_base.specs.declared.ids.Form.TheVariants as form_;
ghost use Rattle.disk_model.specs.Disk.{WhereTold};
ghost use Rattle.arch_model.specs.Archives.{Archive};
ghost use Rattle.arch_model.specs.Validity.{IsArchive};
ghost use Rattle.store_finding.specs.Kept.{InEpochs, IsStoreWith};
ghost use Rattle.convert_planning.specs.Collisions.{NoneCollides};
ghost use Rattle.convert_planning.specs.Converting.{ConvertsParts, PlansConversion, converted, kept_store};
ghost use Rattle.epoch_store.specs.Commands.{StoreHasSizes};
ghost use Rattle.epoch_store.specs.Converting.{CollidesAs, ConvertsAny, ConvertsEntries, ConvertsStore, IsOfOpened};

use crate::convert_refusal::ConvertRefusal;
use crate::store::Store;
use arch_base::Form;
use convert_planning::{Converter, collision, law_of_collisions, plan_conversion};
use disk_model::Disk;
use root_change::{RewriteRefusal, rewrite};
use std::alloc::Global;

impl Store {
    /// Converts the archive to SHA-256 ids.
    ///
    /// Numbers, epochs, moments and the next number stay. All epochs and the map are written anew, to
    /// files of a new generation, and the root is replaced by the one that names them and no cache.
    /// After `Ok` the old files are gone, so that no object with a SHA-1 id is left.
    ///
    /// Plans all that is written first, with some 800 bytes of memory for each entry, and for one text at
    /// a time: texts are ranges of the old files. At each moment a crash leaves the archive before or the
    /// converted one, and after `Ok` the latter.
    ///
    /// `IsMirror` and `Already` come exactly if the settings say so, in this order. On the disk of an
    /// archive `Collision` comes exactly if two messages with different texts have one SHA-256 blob id,
    /// unless the disk fails or memory runs out before: it has the least number of a message whose id an
    /// earlier one with another text has. `DiskFault`, `NoMemory` and `Damaged` come as in `purge_text`.
    /// All but `DiskFault` come before the first write, except `Damaged` of a file that is shorter than
    /// the root says.
    pub fn convert<D: Disk>(&mut self, alloc: Global, disk: &mut D) -> Result<(), ConvertRefusal>
        requires sizes { WhereTold (StoreHasSizes self.old) (D.content disk.old) }
        // The refusals by the settings, exactly.
        ensures mirror { (result ≡ Err ConvertRefusal.IsMirror)
            ↔ (self.old.root.config.mirror ≡ true) }
        ensures already { (result ≡ Err ConvertRefusal.Already)
            ↔ ((self.old.root.config.mirror ≡ false) × (self.old.root.config.form ≡ form_.Sha256)) }
        // The number of a collision, exactly.
        ensures collision { (a : Archive) (cache : List ℕ)
            → IsStoreWith self.old cache a (D.content disk.old) → CollidesAs form_.Sha256 a result }
        ensures opened { IsOfOpened result }
        ensures changes { ConvertsAny D.Disk disk.old disk.new self.old self.new form_.Sha256 result }
        ensures kept { OnOk result (ConvertsEntries form_.Sha256 self.old self.new) }
    {
        if self.root.config.mirror {
            return Err(ConvertRefusal::IsMirror);
        }
        match self.root.config.form {
            Form::Sha256 => Err(ConvertRefusal::Already),
            Form::Sha1 => self.convert_to(alloc, disk, Form::Sha256),
        }
    }

    /// Converts the archive to ids of a form, whatever its own is and whether it is a mirror.
    fn convert_to<D: Disk>(
        &mut self,
        alloc: Global,
        disk: &mut D,
        form: Form,
    ) -> Result<(), ConvertRefusal>
        requires sizes { WhereTold (StoreHasSizes self.old) (D.content disk.old) }
        ensures settings { (result ≢ Err ConvertRefusal.IsMirror)
            × (result ≢ Err ConvertRefusal.Already) }
        ensures collision { (a : Archive) (cache : List ℕ)
            → IsStoreWith self.old cache a (D.content disk.old) → CollidesAs form a result }
        ensures changes { ConvertsAny D.Disk disk.old disk.new self.old self.new form result }
        ensures kept { OnOk result (ConvertsEntries form self.old self.new) }
    {
        law_of_collisions();
        let entries = self.entries.as_slice();
        let planned = match plan_conversion(alloc, disk, &self.root, entries, form) {
            Ok(planned) => planned,
            Err(refusal) => return Err(refusal.into()),
        };
        match collision(alloc, entries, planned.entries()) {
            Ok(None) => self.carry_conversion(disk, planned, form),
            Ok(Some(number)) => Err(ConvertRefusal::Collision(number)),
            Err(refused) => Err(refused.into()),
        }
    }

    /// Carries out what is planned of a conversion, and keeps what it leaves. Allocates nothing.
    fn carry_conversion<D: Disk>(
        &mut self,
        disk: &mut D,
        planned: Converter,
        form: Form,
    ) -> Result<(), ConvertRefusal>
        requires planned { PlansConversion self.old.root form self.old.entries planned }
        requires sizes { WhereTold (StoreHasSizes self.old) (D.content disk.old) }
        ensures settings { (result ≢ Err ConvertRefusal.IsMirror)
            × (result ≢ Err ConvertRefusal.Already) }
        ensures never { (number : ℕ) → result ≢ Err (ConvertRefusal.Collision number) }
        ensures changes { ConvertsStore D.Disk disk.old disk.new self.old self.new form
            (λ cache a. ConvertsParts self.old.root cache a form planned
            × IsArchive (converted form a)) result }
        ensures kept { OnOk result (ConvertsEntries form self.old self.new) }
    {
        // After the last sequence of 64 bits nothing is done. No archive takes so many commands.
        if self.root.sequence == u64::MAX {
            return Err(ConvertRefusal::NoMemory);
        }
        let slot = self.slot.other();
        let next = self.root.next;
        match rewrite(disk, slot, &self.root, planned.plans(), next, form) {
            Ok(root) => {
                self.root = root;
                self.slot = slot;
                self.entries = planned.into_entries();
                Ok(())
            }
            Err(RewriteRefusal::DiskFault) => Err(ConvertRefusal::DiskFault),
            Err(RewriteRefusal::Short { file, at }) => Err(ConvertRefusal::Damaged { file, at }),
        }
    }

    /// Drops what is kept of the entries, and frees their memory. The root and its slot stay.
    ///
    /// The store is then of no archive with entries: the archive has to be opened again.
    pub fn forget(&mut self)
        ensures { self.new ≡ kept_store self.old.root self.old.slot [] }
    {
        let alloc = *self.entries.allocator();
        self.entries = Vec::new(alloc);
    }
}
