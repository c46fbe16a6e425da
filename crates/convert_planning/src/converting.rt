//! Plans entries in another form, one after the other.
//! Reads the disk.
ghost use Rattle.std.specs.Prelude.{◌≡◌, ◌+◌, ◌≤◌, ◌++◌, [], ◌∷◌, Err, IfOk, OnOk, length};
ghost use Rattle.arch_base.specs.Counts.{RoseIf};
ghost use Rattle.arch_base.specs.Ids.{form_of};
ghost use Rattle.disk_model.specs.Sizes.{greatest_epoch};
ghost use Rattle.epoch_file.specs.Runs.{OnlyReads};
ghost use Rattle.root_change.specs.Rewriting.{IsPlan, Plan};
ghost use Rattle.store_planning.specs.DamagedTexts.{IfDamaged};
ghost use Rattle.convert_planning.specs.Converting.{Conversion};
ghost use Rattle.convert_planning.specs.ConvertSteps.{IsMade, IsTextLack, StartsPlans, TakesStored, TakesText, parent_in};

use crate::extending::extend;
use arch_base::{Bytes, Form, NoMemory, ObjectId};
use disk_model::{Disk, EPOCHS, FileKind, FileName};
use epoch_file::{Seen, StoreRefusal};
use git_objects::blob_id;
use mail_commits::{EntryIds, EntryObjects, EntryText, entry_objects};
use root_change::{PartPlan, Target};
use std::alloc::Global;
use std::marker::Model;
use store_finding::{ReadRefusal, StoredEntry, read_text};

/// What is planned of an archive in another form.
///
/// Its contract view is the plans of parts, what is kept of the entries in the new form, and that form.
#[derive(Drop)]
pub struct Converter {
    alloc: Global,
    /// A plan for each epoch, and at the end that of the map.
    plans: Vec<PartPlan>,
    /// What is kept of the entries in the new form.
    entries: Vec<StoredEntry>,
    /// The new form.
    form: Form,
}

impl Model for Converter {
    ghost use Rattle.convert_planning.specs.Converting.{Conversion, HasPlans};

    ghost Value = { Conversion };

    ghost view = { λ p.
        record { plans = p.plans.items; entries = p.entries.items; form = p.form } };

    ghost invariant = { λ p. HasPlans p.plans.items };
}

impl Converter {
    /// Returns a plan of no entries: each epoch is to have no bytes.
    pub(crate) fn new(alloc: Global, form: Form) -> Result<Converter, NoMemory>
        ensures plans { IfOk result (λ p. StartsPlans p.plans) }
        ensures none { IfOk result (λ p. p.entries ≡ []) }
        ensures form { IfOk result (λ p. p.form ≡ form) }
    {
        let plans = epoch_plans(alloc)?;
        Ok(Converter {
            alloc,
            plans,
            entries: Vec::new(alloc),
            form,
        })
    }

    /// Takes the next entry. `file` is that of its epoch.
    ///
    /// `Damaged`, at the offset of the entry, if the bytes there have another blob id. The plan is of no
    /// more use after an error.
    pub(crate) fn take<D: Disk>(
        &mut self,
        disk: &mut D,
        file: FileName,
        entry: &StoredEntry,
    ) -> Result<(), StoreRefusal>
        requires epoch { entry.now.epoch ≤ greatest_epoch }
        ensures taken { OnOk result (TakesStored self.old file entry.now (D.content disk.old) self.new) }
        ensures damage { IfDamaged result (IsTextLack file entry.now (D.content disk.old)) }
        ensures reads { OnlyReads D.Disk disk.old disk.new }
        ensures fewest { D.reads disk.old ≤ D.reads disk.new }
        ensures cause { RoseIf (result ≡ Err StoreRefusal.DiskFault) (D.faults disk.old)
            (D.faults disk.new) }
    {
        let text = match read_text(self.alloc, disk, file, entry.seen.text_at, entry.seen.size) {
            Ok(text) => text,
            Err(ReadRefusal::DiskFault) => return Err(StoreRefusal::DiskFault),
            Err(ReadRefusal::NoMemory) => return Err(StoreRefusal::NoMemory),
        };
        if blob_id(text.as_slice(), entry.seen.blob.form()) != entry.seen.blob {
            return Err(StoreRefusal::Damaged {
                file,
                at: entry.seen.at,
            });
        }
        self.take_text(file, entry, text.as_slice())?;
        Ok(())
    }

    /// Takes the next entry, which has this text.
    fn take_text(
        &mut self,
        file: FileName,
        entry: &StoredEntry,
        text: &[u8],
    ) -> Result<(), NoMemory>
        requires { entry.now.epoch ≤ greatest_epoch }
        ensures { OnOk result (TakesText self.old file entry.now text.now self.new) }
    {
        let parent = self.parent_in(entry.epoch);
        let blob = blob_id(text, self.form);
        let object = EntryText {
            form: self.form,
            kind: entry.seen.kind,
            text,
            moment: entry.seen.moment,
        };
        let objects = entry_objects(self.alloc, &object, &blob, parent)?;
        let bytes = after_blob(self.alloc, &objects)?;
        let at = extend(
            &mut self.plans[entry.epoch as usize],
            file,
            &entry.seen,
            self.form,
            bytes.as_slice(),
        )?;
        let made = made_at(entry, at, &objects.ids)?;
        self.entries.push(made)?;
        Ok(())
    }

    /// Returns the last commit of an epoch, which no entry so far is after.
    fn parent_in(&self, epoch: u32) -> Option<ObjectId>
        ensures { result ≡ parent_in self.now.entries epoch }
    {
        match self.entries.last() {
            Some(entry) if entry.epoch == epoch => Some(entry.seen.commit),
            _ => None,
        }
    }

    /// Appends a plan after those of the epochs.
    pub(crate) fn push(&mut self, plan: PartPlan) -> Result<(), NoMemory>
        requires { IsPlan plan }
        ensures { OnOk result (self.new ≡ record {
          plans = self.old.plans ++ plan ∷ [];
          entries = self.old.entries;
          form = self.old.form;
        }) }
    {
        let Ok(()) = self.plans.push(plan) else {
            return Err(NoMemory);
        };
        Ok(())
    }

    /// Returns the plans.
    pub fn plans(&self) -> &[PartPlan]
        ensures { result.now ≡ self.now.plans }
    {
        self.plans.as_slice()
    }

    /// Returns what is kept of the entries in the new form.
    pub fn entries(&self) -> &[StoredEntry]
        ensures { result.now ≡ self.now.entries }
    {
        self.entries.as_slice()
    }

    /// Returns the same as a list of their owner's.
    pub fn into_entries(self) -> Vec<StoredEntry>
        ensures { result.items ≡ self.entries }
    {
        let Converter {
            alloc: _,
            plans: _,
            entries,
            form: _,
        } = self;
        entries
    }
}

/// Returns a plan of each epoch, which writes nothing.
fn epoch_plans(alloc: Global) -> Result<Vec<PartPlan>, NoMemory>
    ensures { IfOk result (λ plans. StartsPlans plans.items) }
{
    let mut plans = Vec::new(alloc);
    for epoch in 0..EPOCHS {
        let plan = PartPlan::new(alloc, FileKind::Epoch, epoch, Target::Anew);
        let Ok(()) = plans.push(plan) else {
            return Err(NoMemory);
        };
    }
    Ok(plans)
}

/// Returns the bytes of an entry after its blob: those of its tree and of its commit.
fn after_blob(alloc: Global, objects: &EntryObjects) -> Result<Bytes, NoMemory>
    ensures { IfOk result (λ bytes. bytes ≡ objects.now.tree ++ objects.now.commit) }
{
    let mut bytes = Bytes::new(alloc);
    bytes.push_slice(objects.tree.as_slice())?;
    bytes.push_slice(objects.commit.as_slice())?;
    Ok(bytes)
}

/// Returns what is kept of an entry with other ids at another offset.
///
/// `NoMemory` if an allocation fails, or the offsets are no numbers of 64 bits, which those of an entry
/// are.
fn made_at(entry: &StoredEntry, at: u64, ids: &EntryIds) -> Result<StoredEntry, NoMemory>
    ensures { IfOk result (λ made. IsMade entry.now at ids.now.blob ids.now.commit made) }
{
    let seen = &entry.seen;
    let Some(front) = seen.text_at.checked_sub(seen.at) else {
        return Err(NoMemory);
    };
    let Some(text_at) = at.checked_add(front) else {
        return Err(NoMemory);
    };
    Ok(StoredEntry {
        number: entry.number,
        epoch: entry.epoch,
        seen: Seen {
            kind: seen.kind,
            at,
            text_at,
            size: seen.size,
            blob: ids.blob,
            commit: ids.commit,
            moment: seen.moment,
            id: seen.id.copy()?,
            content: seen.content,
        },
    })
}
