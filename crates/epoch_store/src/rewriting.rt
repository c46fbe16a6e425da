//! Purges and edits of the archive on a disk.
//! Writes the disk; syncs.
ghost use Rattle.std.specs.Prelude.{◌≡◌, ◌+◌, ◌-◌, ◌<◌, ◌≤◌, ℕ, List, Err, Some, None, IfOk, OnOk, OnErr, length};
ghost use Rattle.std.specs.List.{AllZip, Contains};
ghost use Rattle.arch_base.specs.Counts.{RoseIf};
ghost use Rattle.arch_base.specs.Moments.{last_moment};
ghost use Rattle.disk_model.specs.Disk.{WhereTold};
ghost use Rattle.disk_model.specs.Sizes.{greatest_epoch};
ghost use Rattle.mail_reader.specs.StorageTexts.{IsStorageText};
ghost use Rattle.mail_commits.specs.Ids.{text_ids_of};
ghost use Rattle.store_finding.specs.declared.entries.StoredEntry.{StoredEntry};
ghost use Rattle.store_finding.specs.Extents.{AreNamedAfter, AreUpToEpoch, LieFrom};
ghost use Rattle.disk_model.specs.declared.name.FileKind.TheVariants as kind;
ghost use Rattle.root_change.specs.Rewriting.{Plan, plan_of};
ghost use Rattle.store_planning.specs.Planning.{ArePlansIn, IsPlaceAfter, IsReadyPlan, IsTakenToOffset, KeepsPlanned, PlansArchive, PlansEdit, PlansFirst, PlansOwn, PlansPurge, PlansUndamaged, is_anew, length_after, loses, no_planning};
ghost use Rattle.epoch_file.specs.Runs.{OnlyReads};
ghost use Rattle.store_planning.specs.DamagedTexts.{IfDamaged, IsDamagedEntry};
ghost use Rattle.epoch_store.specs.Promises.{ChangesStore, Drops, Renews, Replaces};
ghost use Rattle.epoch_store.specs.Commands.{DropsEntries, EditsEntries, EditsFiles, StoreHasSizes, KeepsFiles, MayEdit, MayPurge};
ghost use Rattle.store_finding.specs.Kept.{InEpochs, IsStoreWith};
ghost use Rattle.store_planning.specs.Dropping.{KeptOf, without_blob};

use crate::store::{MOST, Store, own_id_of};
use arch_base::ObjectId;
use disk_model::{Disk, FileKind, LAST_EPOCH};
use epoch_file::{NewEntry, StoreRefusal, Written, entry_piece};
use git_objects::EntryKind;
use mail_commits::TextIds;
use number_map::Record;
use root_change::{RewriteRefusal, map_file, rewrite};
use std::alloc::Global;
use store_planning::{NextPlace, Planner};

impl Store {
    /// Drops each entry with the blob id of a message, in all epochs.
    ///
    /// Plans all that is written first, with memory for the entries and one text at a time. Then each
    /// epoch that loses an entry, and the map, go to files of a new generation, and the root is
    /// replaced by the one that names them. After `Ok` the old files are gone, and no file has an entry
    /// with the text.
    ///
    /// The root file then has the new root in the other slot and is otherwise as it was, so no text
    /// stays there: each slot has a root, and the bytes between the gates and the bodies, which `init`
    /// makes zeros, aren't changed by any call.
    ///
    /// At each moment a crash leaves the archive before or the one without the text, and after `Ok` the
    /// latter. `DiskFault` comes only if the disk's count of faults rose: one of the two archives is
    /// then there, and the store has to be reopened. `NoMemory` comes before the first write: if memory
    /// runs out, if a file would have 2^62 bytes or more, or if what is kept isn't of an archive.
    /// `Damaged` comes if a text that is read isn't that of its entry, before the first write, with the
    /// entry's file and offset; or if a file is shorter than the root says, with the number of bytes that
    /// should be there. That is found while bytes are copied, and all that the root names stays. `Damaged`
    /// never comes on the disk of an archive.
    pub fn purge_text<D: Disk>(
        &mut self,
        alloc: Global,
        disk: &mut D,
        blob: &ObjectId,
    ) -> Result<(), StoreRefusal>
        requires may { (number : ℕ) × MayPurge self.old number blob.now }
        requires sizes { WhereTold (StoreHasSizes self.old) (D.content disk.old) }
        ensures changes { ChangesStore D.Disk disk.old disk.new
            self.old self.new Renews (Drops blob.now) result }
        ensures dropped { OnOk result (DropsEntries self.old self.new blob.now) }
        ensures kept_files { OnOk result (KeepsFiles self.old self.new blob.now) }
    {
        let next = self.root.next;
        let planned = match self.plan_without(alloc, disk, blob) {
            Ok(planned) => planned,
            Err(refusal) => return Err(refusal),
        };
        self.carry_out(disk, planned, next)
    }

    /// Drops each entry with the blob id of a live message, and appends a message in the same step: its
    /// text, which has these ids, takes the next number, at a moment in seconds since 1970 UTC. What is
    /// said of archives here holds if no entry that stays has another text with its blob id.
    ///
    /// All is as at a purge. At each moment a crash leaves the archive before or the one after both.
    pub fn edit_text<D: Disk>(
        &mut self,
        alloc: Global,
        disk: &mut D,
        old: &ObjectId,
        text: &[u8],
        ids: &TextIds,
        moment: u64,
    ) -> Result<(), StoreRefusal>
        requires may { (number : ℕ) × MayEdit self.old number old.now text.now }
        requires ids { ids.now ≡ text_ids_of self.old.root.config.form text.now }
        requires moment { moment ≤ last_moment }
        requires sizes { WhereTold (StoreHasSizes self.old) (D.content disk.old) }
        ensures changes { ChangesStore D.Disk disk.old disk.new
            self.old self.new Renews (Replaces old.now text.now moment) result }
        ensures edited { OnOk result (EditsEntries self.old self.new old.now text.now) }
        ensures kept_files { OnOk result (EditsFiles self.old self.new old.now) }
    {
        let next = self.root.next + 1;
        let mut planned = self.plan_without(alloc, disk, old)?;
        self.plan_message(alloc, &mut planned, text, ids, moment)?;
        self.carry_out(disk, planned, next)
    }

    /// Plans the archive without the entries with a blob id.
    fn plan_without<D: Disk>(
        &self,
        alloc: Global,
        disk: &mut D,
        blob: &ObjectId,
    ) -> Result<Planner, StoreRefusal>
        requires there { (e : StoredEntry) × Contains self.now.entries e × (e.seen.blob ≡ blob.now) }
        ensures planned { IfOk result (λ p. PlansPurge self.now blob.now p.entries p.plans) }
        ensures own { IfOk result (λ p.
            PlansOwn self.now blob.now p.entries p.plans (D.content disk.old)) }
        ensures undamaged { PlansUndamaged self.now result (D.content disk.old) }
        ensures damage { IfDamaged result (λ file at.
            IsDamagedEntry self.now file at (D.content disk.old)) }
        ensures reads { OnlyReads D.Disk disk.old disk.new }
        ensures fewest { D.reads disk.old ≤ D.reads disk.new }
        ensures cause { RoseIf (result ≡ Err StoreRefusal.DiskFault) (D.faults disk.old)
            (D.faults disk.new) }
    {
        let mut planned = Planner::new(alloc, self.root.config.form);
        match self.plan_entries(disk, &mut planned, blob) {
            Ok(()) => {}
            Err(refusal) => return Err(refusal),
        }
        planned.finish(map_file(self.root.map.generation), self.root.next - 1)?;
        Ok(planned)
    }

    /// Lets a planner take each entry.
    fn plan_entries<D: Disk>(
        &self,
        disk: &mut D,
        planned: &mut Planner,
        blob: &ObjectId,
    ) -> Result<(), StoreRefusal>
        requires none { planned.old ≡ no_planning self.now.root.config.form }
        requires there { (e : StoredEntry) × Contains self.now.entries e × (e.seen.blob ≡ blob.now) }
        ensures kept { OnOk result (AllZip KeptOf (without_blob self.now.entries blob.now)
            planned.new.entries) }
        ensures plans { OnOk result (ArePlansIn self.now.root planned.new) }
        ensures taken { OnOk result (IsTakenToOffset self.now.root planned.new) }
        ensures changes { OnOk result ((e : ℕ)
            → is_anew planned.new e ≡ loses self.now.entries blob.now e) }
        ensures all { OnOk result (WhereTold
            (PlansFirst self.now blob.now (length self.now.entries) planned.new) (D.content disk.old)) }
        ensures undamaged { PlansUndamaged self.now result (D.content disk.old) }
        ensures damage { IfDamaged result (λ file at.
            IsDamagedEntry self.now file at (D.content disk.old)) }
        ensures reads { OnlyReads D.Disk disk.old disk.new }
        ensures fewest { D.reads disk.old ≤ D.reads disk.new }
        ensures cause { RoseIf (result ≡ Err StoreRefusal.DiskFault) (D.faults disk.old)
            (D.faults disk.new) }
    {
        for entry in self.entries.as_slice() {
            match planned.take(disk, self.file_of(entry.epoch), entry, blob) {
                Ok(()) => {}
                Err(refusal) => return Err(refusal),
            }
        }
        Ok(())
    }

    /// Returns the number of bytes of an epoch after what is planned.
    fn planned_length(&self, planned: &Planner, epoch: u32) -> u64
        requires { epoch ≤ greatest_epoch }
        ensures { result ≡ length_after self.now.root planned.now.plans epoch }
    {
        match planned.find(FileKind::Epoch, epoch) {
            Some(at) => planned.plans()[at].count(),
            None => self.root.epochs[epoch as usize].length,
        }
    }

    /// Returns where the next entry after what is planned is written.
    fn place_after(&self, planned: &Planner) -> NextPlace
        requires { InEpochs planned.now.entries }
        ensures small { result.epoch ≤ greatest_epoch }
        ensures length { result.length
            ≡ length_after self.now.root planned.now.plans result.epoch }
        ensures last { LieFrom 0 0 planned.now.entries
            → AreUpToEpoch result.epoch planned.now.entries }
        ensures place { IsPlaceAfter self.now.root planned.now result }
    {
        let end = planned.end();
        let length = self.planned_length(planned, end.epoch);
        if end.epoch == LAST_EPOCH || length < self.root.config.limit {
            return NextPlace {
                epoch: end.epoch,
                generation: 0,
                length,
                parent: end.parent,
            };
        }
        let epoch = end.epoch + 1;
        NextPlace {
            epoch,
            generation: 0,
            length: self.planned_length(planned, epoch),
            parent: None,
        }
    }

    /// Plans one more message, with the next number. Its text has these ids.
    fn plan_message(
        &self,
        alloc: Global,
        planned: &mut Planner,
        text: &[u8],
        ids: &TextIds,
        moment: u64,
    ) -> Result<(), StoreRefusal>
        requires ids { ids.now ≡ text_ids_of self.now.root.config.form text.now }
        requires epochs { InEpochs planned.old.entries }
        requires storage { IsStorageText text.now }
        requires moment { moment ≤ last_moment }
        requires left { self.now.root.next ≤ self.now.root.config.max }
        requires map { (plan : Plan) × (plan_of planned.old.plans kind.Map 0 ≡ Some plan) }
        ensures planned { OnOk result (PlansEdit self.now planned.old text.now moment planned.new) }
        ensures refused { OnErr result (result ≡ Err StoreRefusal.NoMemory) }
    {
        let place = self.place_after(planned);
        if place.length >= MOST {
            // No disk has so many bytes.
            return Err(StoreRefusal::NoMemory);
        }
        let id = own_id_of(alloc, text)?;
        let entry = NewEntry {
            kind: EntryKind::Message,
            text,
            ids: *ids,
            moment,
            parent: place.parent,
            form: self.root.config.form,
        };
        let (piece, made) = entry_piece(alloc, place.length, &entry)?;
        planned.append(place.epoch, piece.as_slice())?;
        let line = Record {
            number: self.root.next,
            epoch: place.epoch,
            blob: made.blob,
        };
        planned.append_record(&line)?;
        let written = Written {
            end: place.length + piece.as_slice().len() as u64,
            blob: made.blob,
            commit: made.commit,
        };
        let stored = self.new_entry(&place, self.root.next, &entry, &written, id);
        planned.push_entry(stored)?;
        Ok(())
    }

    /// Carries out what is planned, and keeps what it leaves. Allocates nothing.
    pub(crate) fn carry_out<D: Disk>(
        &mut self,
        disk: &mut D,
        planned: Planner,
        next: u32,
    ) -> Result<(), StoreRefusal>
        requires ready { IsReadyPlan self.old.root planned.plans next }
        requires next { (1 ≤ next) × (next ≤ 2147483648) }
        requires epochs { InEpochs planned.entries }
        requires named { AreNamedAfter self.old.root planned.plans planned.entries }
        requires sizes { WhereTold (StoreHasSizes self.old) (D.content disk.old) }
        ensures changes { ChangesStore D.Disk disk.old disk.new
            self.old self.new Renews (λ a b. (cache : List ℕ)
            → IsStoreWith self.old cache a (D.content disk.old)
            → PlansArchive self.old.root cache a b planned next) result }
        ensures kept { OnOk result (KeepsPlanned self.old planned next self.new) }
    {
        // After the last sequence of 64 bits nothing is done. No archive takes so many commands.
        if self.root.sequence == u64::MAX {
            return Err(StoreRefusal::NoMemory);
        }
        let slot = self.slot.other();
        let form = self.root.config.form;
        match rewrite(disk, slot, &self.root, planned.plans(), next, form) {
            Ok(root) => {
                self.root = root;
                self.slot = slot;
                self.entries = planned.into_entries();
                Ok(())
            }
            Err(RewriteRefusal::DiskFault) => Err(StoreRefusal::DiskFault),
            Err(RewriteRefusal::Short { file, at }) => Err(StoreRefusal::Damaged { file, at }),
        }
    }
}
