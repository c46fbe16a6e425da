//! Plans an archive without the entries of a text.
//! Reads the disk.
ghost use Rattle.std.specs.Prelude.{◌≡◌, ◌+◌, ◌-◌, ◌*◌, ◌≤◌, ◌++◌, [], ◌∷◌, true, false, Some, None, Err, IfErr, IfOk, OnOk, length, slice_get};
ghost use Rattle.arch_base.specs.Counts.{RoseIf};
ghost use Rattle.arch_base.specs.Ids.{id_eq};
ghost use Rattle.disk_model.specs.Sizes.{greatest_epoch, record_size};
ghost use Rattle.root_slots.specs.declared.root.Root.{Root};
ghost use Rattle.root_slots.specs.Valid.{IsRoot};
ghost use Rattle.store_finding.specs.declared.entries.StoredEntry.{StoredEntry};
ghost use Rattle.disk_model.specs.declared.name.FileKind.TheVariants as kind;
ghost use Rattle.root_change.specs.Rewriting.{AreApart, IsPlan, Plan, plan_of};
ghost use Rattle.arch_model.specs.Archives.{Archive};
ghost use Rattle.arch_model.specs.Validity.{IsArchive};
ghost use Rattle.epoch_file.specs.Planning.{TellsLack};
ghost use Rattle.epoch_file.specs.Runs.{OnlyReads};
ghost use Rattle.store_planning.specs.DamagedTexts.{IfDamaged, IsDamageOf};
ghost use Rattle.store_finding.specs.Extents.{AreNamedAfter, AreUpToEpoch, LieFrom};
ghost use Rattle.store_finding.specs.Files.{epoch_file_of, map_file_of};
ghost use Rattle.store_planning.specs.Planning.{AppendsRecord, AreAnew, AreFrom, PlansApart, ArePlansIn, AreValid, ChangesNext, ClosesEpoch, ClosesLast, DropsStored, FinishesPlans, IsPlanIndex, IsReadyPlan, IsTakenToOffset, KeepsBut, KeepsStored, PlansEntry, LeavesOut, OpensPlan, Pushes, RefusesPlanned, PlansNext, PlanTakes, gone_with, no_planning, plans_with, refusal_in, with_gone};
ghost use Rattle.store_finding.specs.Kept.{InEpochs, stored_after};
ghost use Rattle.store_planning.specs.Dropping.{IsStoreEnd, KeptOf};
ghost use Rattle.store_planning.specs.Epochs.{IsParentIn, commit_if};

use crate::next::End;
use arch_base::{Form, MessageNumbers, NoMemory, ObjectId};
use disk_model::{Disk, FileKind, FileName, WalkRefusal};
use epoch_file::{EpochPlan, StoreRefusal};
use git_objects::EntryKind;
use number_map::{Record, plan_without, push_record};
use root_change::{PartPlan, Target};
use std::alloc::Global;
use std::marker::Model;
use store_finding::StoredEntry;

/// What is planned of the entries of an archive so far, without those of a text.
///
/// Its contract view is the plans, what is kept of the entries that stay, the numbers of the messages that
/// don't, the plan of the current epoch, and the form of the archive.
#[derive(Drop)]
pub struct Planner {
    alloc: Global,
    /// The plans of the epochs that lose an entry, up to the one before the current, and at the end
    /// the plan of the map.
    plans: Vec<PartPlan>,
    /// What is kept of the entries that stay.
    entries: Vec<StoredEntry>,
    /// The numbers of the messages that don't stay, which rise.
    gone: MessageNumbers,
    /// The last of these numbers, or 0.
    top: u32,
    /// The plan of the current epoch.
    current: Option<EpochPlan>,
    /// The form of the archive, which each plan of an epoch and that of the map have.
    form: Form,
}

impl Model for Planner {
    ghost use Rattle.std.specs.Prelude.{◌≡◌};
    ghost use Rattle.store_planning.specs.Planning.{Planning, IsPlanning};

    ghost Value = { Planning };

    ghost view = { λ p. record {
      plans = p.plans.items;
      entries = p.entries.items;
      gone = p.gone;
      current = p.current;
      form = p.form;
    } };

    ghost invariant = { λ p. IsPlanning p.top (record {
      plans = p.plans.items;
      entries = p.entries.items;
      gone = p.gone;
      current = p.current;
      form = p.form;
    }) };
}

impl Planner {
    /// Returns the plan of no entries, for an archive of a form.
    pub fn new(alloc: Global, form: Form) -> Planner
        ensures { result ≡ no_planning form }
    {
        Planner {
            alloc,
            plans: Vec::new(alloc),
            entries: Vec::new(alloc),
            gone: MessageNumbers::new(alloc),
            top: 0,
            current: None,
            form,
        }
    }

    /// Takes the next entry, which stays unless it has this blob id. `file` is that of its epoch.
    ///
    /// `Damaged`, at the offset of the entry, if the text of one that gets another commit has another
    /// blob id. The plan is of no more use after an error.
    pub fn take<D: Disk>(
        &mut self,
        disk: &mut D,
        file: FileName,
        entry: &StoredEntry,
        blob: &ObjectId,
    ) -> Result<(), StoreRefusal>
        requires epoch { entry.now.epoch ≤ greatest_epoch }
        requires apart { PlansApart self.old.plans self.old.current }
        ensures taken { PlansNext self.old file entry.now blob.now (D.content disk.old) self.new
            result }
        ensures damage { IfDamaged result (IsDamageOf self.old.form file entry.now
            (D.content disk.old)) }
        // Whatever the disk holds.
        ensures kept { OnOk result (KeepsBut (id_eq blob.now entry.now.seen.blob)
            self.old.entries entry.now self.new.entries) }
        ensures plans { (root : Root) → file ≡ epoch_file_of root entry.now.epoch
            → ArePlansIn root self.old → OnOk result (ArePlansIn root self.new) }
        ensures changes { OnOk result (ChangesNext self.old file.number
            (id_eq blob.now entry.now.seen.blob) self.new) }
        ensures lies { OnOk result (PlanTakes self.old file entry.now self.new) }
        ensures reads { OnlyReads D.Disk disk.old disk.new }
        ensures fewest { D.reads disk.old ≤ D.reads disk.new }
        ensures cause { RoseIf (result ≡ Err StoreRefusal.DiskFault) (D.faults disk.old)
            (D.faults disk.new) }
    {
        if *blob == entry.seen.blob {
            self.drop_entry(file, entry)?;
            return Ok(());
        }
        self.keep_entry(disk, file, entry)
    }

    /// Takes the next entry, which is left out. `file` is that of its epoch.
    ///
    /// The plan is of no more use after `NoMemory`.
    pub fn drop_entry(&mut self, file: FileName, entry: &StoredEntry) -> Result<(), NoMemory>
        requires epoch { entry.now.epoch ≤ greatest_epoch }
        requires apart { PlansApart self.old.plans self.old.current }
        ensures dropped { OnOk result (DropsStored self.old file entry.now self.new) }
        // Whatever the disk holds.
        ensures same { OnOk result (self.new.entries ≡ self.old.entries) }
        ensures gone { OnOk result (self.new.gone
            ≡ gone_with entry.now.seen.kind self.old.gone entry.now.number) }
        ensures plans { (root : Root) → file ≡ epoch_file_of root entry.now.epoch
            → ArePlansIn root self.old → OnOk result (ArePlansIn root self.new) }
        ensures changes { OnOk result (ChangesNext self.old file.number true self.new) }
        ensures lies { OnOk result (PlanTakes self.old file entry.now self.new) }
    {
        let plan = self.open(file)?;
        self.leave_out(plan, entry)
    }

    /// Takes the next entry, which stays. `file` is that of its epoch.
    ///
    /// Reads the text of an entry that gets another commit. `Damaged`, at the offset of the entry, if it
    /// has another blob id. The plan is of no more use after an error.
    pub fn keep_entry<D: Disk>(
        &mut self,
        disk: &mut D,
        file: FileName,
        entry: &StoredEntry,
    ) -> Result<(), StoreRefusal>
        requires epoch { entry.now.epoch ≤ greatest_epoch }
        requires apart { PlansApart self.old.plans self.old.current }
        ensures kept { KeepsStored self.old file entry.now (D.content disk.old) self.new result }
        ensures damage { IfDamaged result (IsDamageOf self.old.form file entry.now
            (D.content disk.old)) }
        // Whatever the disk holds.
        ensures made { OnOk result ((made : StoredEntry) × KeptOf entry.now made
            × (self.new.entries ≡ self.old.entries ++ made ∷ [])) }
        ensures gone { OnOk result (self.new.gone ≡ self.old.gone) }
        ensures plans { (root : Root) → file ≡ epoch_file_of root entry.now.epoch
            → ArePlansIn root self.old → OnOk result (ArePlansIn root self.new) }
        ensures changes { OnOk result (ChangesNext self.old file.number false self.new) }
        ensures lies { OnOk result (PlanTakes self.old file entry.now self.new) }
        ensures reads { OnlyReads D.Disk disk.old disk.new }
        ensures fewest { D.reads disk.old ≤ D.reads disk.new }
        ensures cause { RoseIf (result ≡ Err StoreRefusal.DiskFault) (D.faults disk.old)
            (D.faults disk.new) }
    {
        let plan = self.open(file)?;
        match self.keep(disk, plan, entry) {
            Ok(()) => Ok(()),
            Err(refusal) => Err(damaged_in(file, &refusal)),
        }
    }

    /// Leaves an entry out of the current epoch, which is planned so far.
    fn leave_out(&mut self, plan: EpochPlan, entry: &StoredEntry) -> Result<(), NoMemory>
        requires { plan.form ≡ self.old.form }
        ensures { OnOk result (LeavesOut self.old plan entry.now self.new) }
    {
        let mut plan = plan;
        plan.leave_out(self.alloc, &entry.seen)?;
        self.drop_number(entry)?;
        self.current = Some(plan);
        Ok(())
    }

    /// Keeps an entry of the current epoch, which is planned so far.
    fn keep<D: Disk>(
        &mut self,
        disk: &mut D,
        plan: EpochPlan,
        entry: &StoredEntry,
    ) -> Result<(), WalkRefusal>
        requires form { plan.form ≡ self.old.form }
        ensures kept { OnOk result (PlansEntry self.old plan entry.now (D.content disk.old) self.new) }
        ensures refused { IfErr result (λ refusal.
            RefusesPlanned plan entry.now (D.content disk.old) refusal) }
        ensures damage { IfErr result (TellsLack plan.form plan.file entry.now.seen (D.content disk.old)) }
        ensures reads { OnlyReads D.Disk disk.old disk.new }
        ensures fewest { D.reads disk.old ≤ D.reads disk.new }
        ensures cause { RoseIf (result ≡ Err WalkRefusal.DiskFault) (D.faults disk.old)
            (D.faults disk.new) }
    {
        let mut plan = plan;
        let seen = match plan.keep(self.alloc, disk, &entry.seen) {
            Ok(seen) => seen,
            Err(refusal) => return Err(refusal),
        };
        let kept = StoredEntry {
            number: entry.number,
            epoch: entry.epoch,
            seen,
        };
        let Ok(()) = self.entries.push(kept) else {
            return Err(WalkRefusal::NoMemory);
        };
        self.current = Some(plan);
        Ok(())
    }

    /// Returns the plan of a file, which is the current one or a new one. Closes the current one if it
    /// is of another file.
    fn open(&mut self, file: FileName) -> Result<EpochPlan, NoMemory>
        requires { PlansApart self.old.plans self.old.current }
        ensures opened { IfOk result (OpensPlan self.old file self.new) }
        ensures form { IfOk result (λ plan. plan.form ≡ self.new.form) }
    {
        let Some(plan) = self.current.take() else {
            return Ok(EpochPlan::new(file, self.form));
        };
        if plan.file() == file {
            return Ok(plan);
        }
        self.close(plan)?;
        Ok(EpochPlan::new(file, self.form))
    }

    /// Keeps the plan of an epoch whose entries have all been taken, if it loses one.
    fn close(&mut self, plan: EpochPlan) -> Result<(), NoMemory>
        requires { plan_of self.old.plans kind.Epoch plan.file.number ≡ None }
        ensures { OnOk result (ClosesEpoch self.old plan self.new) }
    {
        match plan.finish(self.alloc) {
            Some(plan) => self.push(plan),
            None => Ok(()),
        }
    }

    /// Keeps a plan of a part that isn't planned yet.
    pub fn push(&mut self, plan: PartPlan) -> Result<(), NoMemory>
        requires valid { IsPlan plan }
        requires apart { plan_of self.old.plans plan.kind plan.number ≡ None }
        ensures { OnOk result (Pushes self.old plan self.new) }
    {
        let Ok(()) = self.plans.push(plan) else {
            return Err(NoMemory);
        };
        Ok(())
    }

    /// Returns the index of the plan of a part, if there is one.
    pub fn find(&self, kind: FileKind, number: u32) -> Option<usize>
        ensures { IsPlanIndex self.now.plans kind number result }
    {
        for at in 0..self.plans.len() {
            let plan = &self.plans[at];
            if plan.kind() == kind && plan.number() == number {
                return Some(at);
            }
        }
        None
    }

    /// Returns the epoch of the last entry that stays, and its commit.
    pub fn end(&self) -> End
        requires { InEpochs self.now.entries }
        ensures small { result.epoch ≤ greatest_epoch }
        ensures last { LieFrom 0 0 self.now.entries → AreUpToEpoch result.epoch self.now.entries }
        ensures end { (b : Archive) → IsArchive b
            → self.now.entries ≡ stored_after b.config.form [] b.entries → IsStoreEnd b result }
    {
        match self.entries.last() {
            None => End {
                epoch: 0,
                parent: None,
            },
            Some(entry) => End {
                epoch: entry.epoch,
                parent: Some(entry.seen.commit),
            },
        }
    }

    /// Returns the commit of the last entry that stays.
    pub fn last_commit(&self) -> Option<ObjectId>
        ensures { result ≡ commit_if (slice_get self.now.entries (length self.now.entries - 1)) }
    {
        match self.entries.last() {
            None => None,
            Some(entry) => Some(entry.seen.commit),
        }
    }

    /// Returns the commit after which the next entry of an epoch comes: that of the last entry that stays,
    /// if it is in the epoch. No later epoch has one.
    pub fn parent_in(&self, epoch: u32) -> Option<ObjectId>
        ensures { IsParentIn self.now.entries epoch result }
    {
        match self.entries.last() {
            None => None,
            Some(entry) => {
                if entry.epoch == epoch {
                    Some(entry.seen.commit)
                } else {
                    None
                }
            }
        }
    }

    /// Closes the current epoch, if there is one, after the last entry.
    pub fn close_epochs(&mut self) -> Result<(), NoMemory>
        requires { PlansApart self.old.plans self.old.current }
        ensures closed { OnOk result (ClosesLast self.old self.old.current self.new) }
        ensures none { OnOk result (self.new.current ≡ None) }
        ensures apart { OnOk result (AreApart self.new.plans) }
    {
        self.close_last()?;
        let _plans = &self.plans; // brings what holds of them into the proof
        Ok(())
    }

    /// Keeps the number of an entry that is left out, if that is a message.
    ///
    /// The numbers of an archive's messages rise. `NoMemory` also stands for one that doesn't, since no
    /// clause of a store says that what it keeps is of an archive.
    fn drop_number(&mut self, entry: &StoredEntry) -> Result<(), NoMemory>
        ensures { OnOk result (self.new ≡ with_gone self.old entry.now) }
    {
        match entry.seen.kind {
            EntryKind::Deletion => Ok(()),
            EntryKind::Message => {
                if entry.number <= self.top {
                    // Not of an archive.
                    return Err(NoMemory);
                }
                self.gone.push(entry.number)?;
                self.top = entry.number;
                Ok(())
            }
        }
    }

    /// Closes the current epoch, and plans the map of `count` records without the messages that are
    /// gone.
    ///
    /// `NoMemory` also stands for a number that has no record, since no clause of a store says that what
    /// it keeps is of an archive.
    pub fn finish(&mut self, map: FileName, count: u32) -> Result<(), NoMemory>
        requires apart { PlansApart self.old.plans self.old.current }
        requires map { plan_of self.old.plans kind.Map 0 ≡ None }
        ensures finished { OnOk result (FinishesPlans self.old map count self.new) }
        // Whatever the disk holds.
        ensures ready { (root : Root) → IsRoot root → map ≡ map_file_of root
            → root.map.length ≡ record_size root.config.form * count → ArePlansIn root self.old
            → IsTakenToOffset root self.old → OnOk result
            (AreFrom root self.new.plans × AreAnew self.new.plans
            × IsReadyPlan root self.new.plans (count + 1)
            × AreNamedAfter root self.new.plans self.new.entries) }
    {
        self.close_last()?;
        if self.top > count {
            // Not of an archive.
            return Err(NoMemory);
        }
        let plan = plan_without(self.alloc, map, count, &self.gone, self.form)?;
        self.push(plan)?;
        Ok(())
    }

    /// Closes the current epoch, if there is one.
    fn close_last(&mut self) -> Result<(), NoMemory>
        requires { PlansApart self.old.plans self.old.current }
        ensures { OnOk result (ClosesLast self.old self.old.current self.new) }
    {
        match self.current.take() {
            Some(plan) => self.close(plan),
            None => Ok(()),
        }
    }

    /// Appends bytes to those of an epoch, after what is planned of it.
    pub fn append(&mut self, epoch: u32, bytes: &[u8]) -> Result<(), NoMemory>
        ensures appended { OnOk result (self.new ≡ record {
          plans = plans_with self.old.plans epoch bytes.now;
          entries = self.old.entries;
          gone = self.old.gone;
          current = self.old.current;
          form = self.old.form;
        }) }
        ensures valid { OnOk result (AreValid self.old.plans × AreValid self.new.plans) }
    {
        match self.find(FileKind::Epoch, epoch) {
            Some(at) => self.plans[at].push_bytes(bytes),
            None => {
                let mut plan = PartPlan::new(self.alloc, FileKind::Epoch, epoch, Target::Behind);
                plan.push_bytes(bytes)?;
                self.push(plan)
            }
        }
    }

    /// Appends a record to the plan of the map.
    pub fn append_record(&mut self, line: &Record) -> Result<(), NoMemory>
        requires map { (plan : Plan) × (plan_of self.old.plans kind.Map 0 ≡ Some plan) }
        ensures appended { OnOk result (AppendsRecord self.old line.now self.new) }
        ensures valid { OnOk result (AreValid self.old.plans × AreValid self.new.plans) }
    {
        match self.find(FileKind::Map, 0) {
            Some(at) => push_record(&mut self.plans[at], line),
            None => unreachable!(),
        }
    }

    /// Appends an entry to those that are kept.
    pub fn push_entry(&mut self, entry: StoredEntry) -> Result<(), NoMemory>
        ensures { OnOk result (self.new ≡ record {
          plans = self.old.plans;
          entries = self.old.entries ++ entry ∷ [];
          gone = self.old.gone;
          current = self.old.current;
          form = self.old.form;
        }) }
    {
        self.entries.push(entry)?;
        Ok(())
    }

    /// Returns the plans.
    pub fn plans(&self) -> &[PartPlan]
        ensures { result.now ≡ self.now.plans }
    {
        self.plans.as_slice()
    }

    /// Returns what is kept of the entries that stay, in order.
    pub fn entries(&self) -> &[StoredEntry]
        ensures { result.now ≡ self.now.entries }
    {
        self.entries.as_slice()
    }

    /// Returns what is kept of the entries that stay.
    pub fn into_entries(self) -> Vec<StoredEntry>
        ensures { result.items ≡ self.entries }
    {
        let Planner {
            alloc: _,
            plans: _,
            entries,
            gone: _,
            top: _,
            current: _,
            form: _,
        } = self;
        entries
    }
}

/// Returns the error of a file's reading.
fn damaged_in(file: FileName, refusal: &WalkRefusal) -> StoreRefusal
    ensures { result ≡ refusal_in file refusal.now }
{
    match refusal {
        WalkRefusal::DiskFault => StoreRefusal::DiskFault,
        WalkRefusal::NoMemory => StoreRefusal::NoMemory,
        WalkRefusal::Damaged { at } => StoreRefusal::Damaged { file, at: *at },
    }
}
