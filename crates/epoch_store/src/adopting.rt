//! Plans an archive that a store becomes, and adopts it.
//! Writes the disk; syncs.
//!
//! The archive is that of a list of lines. Lines that name the store's own entries, in their order, keep
//! them; from the first other line on each brings a text.
ghost use Rattle.std.specs.Prelude.{◌≡◌, ◌+◌, ◌-◌, ◌≤◌, ◌<◌, ◌++◌, ◌^◌, [], ◌∷◌, Err, Some, None, IsSome, IfOk, OnOk, IsTrue, get_or, length, slice_get};
ghost use Rattle.arch_base.specs.Counts.{RoseIf};
ghost use Rattle.disk_model.specs.Disk.{WhereTold};
ghost use Rattle.disk_model.specs.Sizes.{greatest_epoch};
ghost use Rattle.epoch_file.specs.Runs.{OnlyReads};
ghost use Rattle.disk_model.specs.declared.name.FileKind.TheVariants as kind;
ghost use Rattle.mail_commits.specs.Ids.{text_ids_of};
ghost use Rattle.mail_reader.specs.Ids.{own_id as own_id_in};
ghost use Rattle.root_change.specs.Rewriting.{plan_of};
ghost use Rattle.root_slots.specs.Valid.{no_place};
ghost use Rattle.store_finding.specs.Extents.{AreNamed, AreUpToEpoch};
ghost use Rattle.store_finding.specs.Kept.{InEpochs};
ghost use Rattle.store_finding.specs.declared.entries.StoredEntry.{StoredEntry};
ghost use Rattle.store_planning.specs.DamagedTexts.{IfDamaged, IsDamagedEntry};
ghost use Rattle.store_planning.specs.Epochs.{AreEpochsReady};
ghost use Rattle.store_planning.specs.Planning.{no_planning};
ghost use Rattle.epoch_store.specs.AdoptedLines.{ClosesAdoption, PlansLine, end_by, end_if};
ghost use Rattle.epoch_store.specs.Adopting.{AddsLine, Adopts, IsAdoptionOf, IsKeptOn, IsOnLine, KeepsLine, NoneOnLine, PlansMore, PlansSame, TakesFirst};
ghost use Rattle.epoch_store.specs.Commands.{StoreHasSizes};
ghost use Rattle.epoch_store.specs.Promises.{ChangesStore, Renews};

use crate::store::{MOST, Store, own_id_of};
use arch_base::{NoMemory, ObjectId};
use arch_model::EntryLine;
use disk_model::{Disk, FileKind};
use epoch_file::{NewEntry, StoreRefusal, Written, entry_piece};
use mail_commits::TextIds;
use root_change::{PartPlan, Target};
use std::alloc::Global;
use std::marker::Model;
use store_finding::StoredEntry;
use store_planning::{NextPlace, Planner, plan_map};

/// How many numbers without a line an archive may have that is adopted, beyond those that the store has
/// given. The map has a record for each, so a list with a higher next number would fill memory and disk.
const MOST_GAPS: u64 = 1 << 24;

/// What is planned of an archive that a store becomes: which of its own entries stay, and which follow.
///
/// Holds each new text once, in the bytes that are written. Of an own entry it holds the text only if the
/// entry gets another commit, and then not for longer than it takes to make that. It serves one store:
/// each call gets the same one, and the disk that is the store's own. Of no more use after an error.
#[derive(Drop)]
pub struct Adoption {
    planned: Planner,
    taken: usize,
}

impl Model for Adoption {
    ghost use Rattle.epoch_store.specs.Adopting.{AdoptionState};

    ghost Value = { AdoptionState };

    ghost view = { λ s. record { planned = s.planned; taken = s.taken } };
}

impl Adoption {
    /// Returns the adoption of an archive without entries.
    pub fn new(alloc: Global, store: &Store) -> Adoption
        ensures of { IsAdoptionOf store.now result }
        ensures none { result ≡ record { planned = no_planning store.now.root.config.form; taken = 0 } }
    {
        store.law_of_named();
        Adoption {
            planned: Planner::new(alloc, store.config().form),
            taken: 0,
        }
    }

    /// Returns what is kept of the entries so far, in order.
    pub fn entries(&self) -> &[StoredEntry]
        ensures { result.now ≡ self.now.planned.entries }
    {
        self.planned.entries()
    }

    /// Keeps the next own entry that is on a line, leaves out the own entries before it, and returns its
    /// commit in the archive so far. If none is on the line, returns `None`; all own entries are then
    /// left out, and this line and each one after it is that of a new entry.
    ///
    /// Reads the entry's text only if an own entry of its epoch was left out before. `Damaged` if that
    /// has another blob id, with the entry's file and offset, which never happens on an archive's own
    /// disk. `DiskFault` only if the disk's count of faults rose.
    pub fn keep<D: Disk>(
        &mut self,
        store: &Store,
        disk: &mut D,
        line: &EntryLine,
    ) -> Result<Option<ObjectId>, StoreRefusal>
        requires of { IsAdoptionOf store.now self.old }
        ensures of { OnOk result (IsAdoptionOf store.now self.new) }
        ensures kept { IfOk result (λ commit.
            IsKeptOn line.now commit self.old.planned.entries self.new.planned.entries) }
        ensures first { IfOk result (λ commit.
            TakesFirst store.now.entries self.old.taken line.now commit self.new.taken) }
        ensures plans { KeepsLine store.now line.now self.old self.new result (D.content disk.old) }
        ensures damage { IfDamaged result (λ file at.
            IsDamagedEntry store.now file at (D.content disk.old)) }
        ensures reads { OnlyReads D.Disk disk.old disk.new }
        ensures fewest { D.reads disk.old ≤ D.reads disk.new }
        ensures cause { RoseIf (result ≡ Err StoreRefusal.DiskFault) (D.faults disk.old)
            (D.faults disk.new) }
    {
        store.law_of_named();
        let at = store.next_on_line(self.taken, line);
        store.drop_to(&mut self.planned, self.taken, at)?;
        self.taken = at;
        let Some(entry) = store.stored().get(at) else {
            return Ok(None);
        };
        match self
            .planned
            .keep_entry(disk, store.file_of(entry.epoch), entry)
        {
            Ok(()) => {}
            Err(refusal) => return Err(refusal),
        }
        self.taken = at + 1;
        Ok(self.planned.last_commit())
    }

    /// Adds the entry of a line with its text, which has these ids. Own entries that weren't taken before
    /// are left out.
    ///
    /// `NoMemory` if memory runs out, or if the epoch's file would have 2^62 bytes or more.
    pub fn add(
        &mut self,
        alloc: Global,
        store: &Store,
        line: &EntryLine,
        text: &[u8],
        ids: &TextIds,
    ) -> Result<(), NoMemory>
        requires of { IsAdoptionOf store.now self.old }
        requires ids { ids.now ≡ text_ids_of store.now.root.config.form text.now }
        requires id { IsSome (own_id_in text.now) }
        requires epoch { line.now.epoch ≤ greatest_epoch }
        requires later { AreUpToEpoch line.now.epoch self.old.planned.entries }
        ensures of { OnOk result (IsAdoptionOf store.now self.new) }
        ensures added { OnOk result (AddsLine store.now.root.config.form line.now text.now
            self.old.planned.entries self.new.planned.entries) }
        ensures plans { OnOk result (PlansMore store.now line.now text.now self.old self.new) }
    {
        store.close_rest(&mut self.planned, self.taken)?;
        self.taken = store.stored().len();
        store.plan_line(alloc, &mut self.planned, line, text, ids)
    }
}

/// Returns whether an entry that is kept has the facts and the blob id of a line.
fn is_on_line(entry: &StoredEntry, line: &EntryLine) -> bool
    ensures on { IsTrue result → IsOnLine entry.now line.now }
    ensures off { IsOnLine entry.now line.now → IsTrue result }
{
    entry.seen.kind == line.kind
        && entry.number == line.number
        && entry.epoch == line.epoch
        && entry.seen.moment == line.secs
        && entry.seen.blob == line.blob
}

/// Returns the number of bytes of an epoch after its plan, where it has so many now.
fn planned_end(plan: &PartPlan, own: u64) -> u64
    requires { own < 2 ^ 62 }
    ensures { result ≡ end_by own plan.now }
{
    match plan.target() {
        Target::Anew => plan.count(),
        Target::Behind => own + plan.count(),
    }
}

impl Store {
    /// Becomes the archive that an adoption plans, with this next number and the store's own settings.
    ///
    /// Epochs that lose an entry go to files of a new generation, others get bytes at their end, the map
    /// goes to a file of a new generation, and the root is replaced by the one that names them, all in
    /// one step. Memory is taken before the first write only. At each moment a crash leaves the archive
    /// before or the adopted one, and after `Ok` the latter: its files are exact, and all that reads give
    /// is on the disk. There is no cache then.
    ///
    /// `DiskFault` comes only if the disk's count of faults rose: one of the two archives is then there,
    /// and the store has to be reopened. `NoMemory` comes before the first write: if memory runs out, if
    /// a file would have 2^62 bytes or more, if the next number is more than 2^24 above the store's own
    /// and the number of entries together, or if what is planned isn't of an archive. `Damaged` comes if
    /// a file is shorter than the root says, as at a purge, and never on the disk of an archive.
    pub fn adopt<D: Disk>(
        &mut self,
        alloc: Global,
        disk: &mut D,
        adoption: Adoption,
        next: u32,
    ) -> Result<(), StoreRefusal>
        requires of { IsAdoptionOf self.old adoption }
        requires next { (1 ≤ next) × (next ≤ 2147483648) }
        requires sizes { WhereTold (StoreHasSizes self.old) (D.content disk.old) }
        ensures changes { ChangesStore D.Disk disk.old disk.new self.old self.new
            Renews (Adopts self.old adoption next (D.content disk.old)) result }
        ensures adopted { OnOk result (self.new.entries ≡ adoption.planned.entries) }
        ensures next { OnOk result (self.new.root.next ≡ next) }
    {
        let Adoption { mut planned, taken } = adoption;
        self.close_rest(&mut planned, taken)?;
        let count = planned.entries().len() as u64;
        let most = count
            .saturating_add(u64::from(self.root.next))
            .saturating_add(MOST_GAPS);
        if u64::from(next) > most {
            // More records than any list that isn't made up asks for.
            return Err(StoreRefusal::NoMemory);
        }
        let map = plan_map(alloc, planned.entries(), next, self.root.config.form)?;
        planned.push(map)?;
        self.carry_out(disk, planned, next)
    }

    /// Returns the index of the next own entry that is on a line, from an index on, or the number of
    /// entries.
    fn next_on_line(&self, from: usize, line: &EntryLine) -> usize
        requires { from ≤ length self.now.entries }
        ensures least { from ≤ result }
        ensures most { result ≤ length self.now.entries }
        ensures on { (s : StoredEntry) → slice_get self.now.entries result ≡ Some s → IsOnLine s line.now }
        ensures passed { NoneOnLine self.now.entries from result line.now }
    {
        for at in from..self.entries.len() {
            if is_on_line(&self.entries[at], line) {
                return at;
            }
        }
        self.entries.len()
    }

    /// Lets a planner leave out the own entries from one index up to another.
    fn drop_to(&self, planned: &mut Planner, from: usize, to: usize) -> Result<(), NoMemory>
        requires of { IsAdoptionOf self.now (record { planned = planned.old; taken = from }) }
        requires least { from ≤ to }
        requires most { to ≤ length self.now.entries }
        ensures of { OnOk result (IsAdoptionOf self.now (record { planned = planned.new; taken = to })) }
        ensures same { OnOk result (planned.new.entries ≡ planned.old.entries) }
        ensures plans { OnOk result (PlansSame self.now (record { planned = planned.old; taken = from })
            (record { planned = planned.new; taken = to })) }
    {
        for at in from..to {
            let entry = &self.entries[at];
            planned.drop_entry(self.file_of(entry.epoch), entry)?;
        }
        Ok(())
    }

    /// Lets a planner leave out the own entries from an index on, and closes the last epoch.
    fn close_rest(&self, planned: &mut Planner, taken: usize) -> Result<(), NoMemory>
        requires { IsAdoptionOf self.now (record { planned = planned.old; taken = taken }) }
        ensures { OnOk result (ClosesAdoption self.now (record { planned = planned.old; taken = taken })
            (record { planned = planned.new; taken = length self.now.entries })) }
    {
        self.drop_to(planned, taken, self.entries.len())?;
        planned.close_epochs()?;
        Ok(())
    }

    /// Says where the entries that are kept lie: in the bytes that the root names, in epochs 0 to 63.
    fn law_of_named(&self)
        ensures named { AreNamed self.now.root self.now.entries }
        ensures low { InEpochs self.now.entries }
    {
        let _entries = &self.entries; // brings what holds of them into the proof
    }

    /// Returns the number of bytes of an epoch after what is planned, which is below 2^62.
    fn end_planned(&self, planned: &Planner, epoch: u32) -> Result<u64, NoMemory>
        requires { epoch ≤ greatest_epoch }
        ensures end { IfOk result (λ end_. end_ ≡ end_if (get_or self.now.root.epochs epoch no_place).length
            (plan_of planned.now.plans kind.Epoch epoch)) }
        ensures short { IfOk result (λ end_. end_ < 2 ^ 62) }
    {
        let own = self.root.epochs[epoch as usize].length;
        if own >= MOST {
            return Err(NoMemory);
        }
        match planned.find(FileKind::Epoch, epoch) {
            None => Ok(own),
            Some(at) => {
                let end = planned_end(&planned.plans()[at], own);
                if end >= MOST {
                    return Err(NoMemory);
                }
                Ok(end)
            }
        }
    }

    /// Plans the entry of a line with its text, which has these ids.
    fn plan_line(
        &self,
        alloc: Global,
        planned: &mut Planner,
        line: &EntryLine,
        text: &[u8],
        ids: &TextIds,
    ) -> Result<(), NoMemory>
        requires ids { ids.now ≡ text_ids_of self.now.root.config.form text.now }
        requires id { IsSome (own_id_in text.now) }
        requires epoch { line.now.epoch ≤ greatest_epoch }
        requires later { AreUpToEpoch line.now.epoch planned.old.entries }
        requires ready { AreEpochsReady self.now.root planned.old }
        ensures { OnOk result (PlansLine self.now.root planned.old line.now text.now planned.new) }
    {
        let length = self.end_planned(planned, line.epoch)?;
        let parent = planned.parent_in(line.epoch);
        let place = NextPlace {
            epoch: line.epoch,
            generation: 0,
            length,
            parent,
        };
        let id = own_id_of(alloc, text)?;
        let entry = NewEntry {
            kind: line.kind,
            text,
            ids: *ids,
            moment: line.secs,
            parent,
            form: self.root.config.form,
        };
        let (piece, made) = entry_piece(alloc, length, &entry)?;
        planned.append(place.epoch, piece.as_slice())?;
        let written = Written {
            end: length + piece.as_slice().len() as u64,
            blob: made.blob,
            commit: made.commit,
        };
        let stored = self.new_entry(&place, line.number, &entry, &written, id);
        planned.push_entry(stored)
    }
}
