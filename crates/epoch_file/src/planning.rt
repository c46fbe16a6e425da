//! Plans how an epoch's file is written anew without some of its entries.
//! Reads the disk.
ghost use Rattle.std.specs.Prelude.{◌≡◌, ◌≤◌, ◌+◌, ℕ, true, None, Err, is_some, length, IfOk, IfErr, OnOk, OnErr};
ghost use Rattle.arch_base.specs.declared.ids.ObjectId.{ObjectId};
ghost use Rattle.arch_base.specs.Ids.{form_of};
ghost use Rattle.arch_base.specs.Counts.{RoseIf};
ghost use Rattle.disk_model.specs.Disk.{Image, BothTold, WhereTold, Unchanged};
ghost use Rattle.disk_model.specs.Moments.{LeavesOnly};
ghost use Rattle.epoch_file.specs.Lying.{EntryLiesIn};
ghost use Rattle.epoch_file.specs.Planning.{Checks, CommitsAnew, CopiesEntry, FinishesPlan, FinishesIn, IsAnewOf, IsMoved, IsOfEpoch, IsPlannedIn, KeepsIn, KeepsNext, LeftOutIn, LeavesNext, TellsLack};
ghost use Rattle.git_objects.specs.Trees.{tree_size};

use crate::entry::Seen;
use crate::sight::tree_len;
use arch_base::{Bytes, Form, NoMemory, ObjectId};
use disk_model::{Disk, FileKind, FileName, WalkRefusal};
use git_objects::blob_id;
use mail_commits::{EntryText, entry_objects};
use root_change::{PartPlan, Target};
use std::alloc::Global;
use std::marker::Model;

/// How an epoch's file is written anew: what is planned of its entries so far.
///
/// While no entry is left out, the file stays. From the first one on that is, each entry that stays
/// keeps its blob and its tree, which are copied, and gets a commit after the one that now comes
/// before it. Contracts see the plan as its state.
#[derive(Drop)]
pub struct EpochPlan {
    file: FileName,
    changed: Option<PartPlan>,
    end: u64,
    parent: Option<ObjectId>,
    form: Form,
}

impl Model for EpochPlan {
    ghost use Rattle.epoch_file.specs.Planning.{Planned, IsOfEpoch};

    ghost Value = { Planned };

    ghost view = { λ p. record {
      file = p.file;
      changed = p.changed;
      end_ = p.end;
      parent = p.parent;
      form = p.form;
    } };

    ghost invariant = { λ p. IsOfEpoch p.file p.changed };
}

impl EpochPlan {
    /// Returns the plan of the file of an epoch of a form before its first entry. Allocates nothing.
    pub fn new(file: FileName, form: Form) -> EpochPlan
        ensures { result ≡ record { file = file; changed = None; end_ = 8; parent = None; form = form } }
    {
        EpochPlan {
            file,
            changed: None,
            end: 8,
            parent: None,
            form,
        }
    }

    /// Returns the file.
    pub fn file(&self) -> FileName
        ensures { result ≡ self.now.file }
    {
        self.file
    }

    /// Keeps the next entry, and returns what is recorded of it in the new file.
    ///
    /// After an entry that was left out, reads its text, one at a time. `Damaged` if the bytes there
    /// have another blob id, at the offset of the entry, which never happens where the file has it.
    /// `DiskFault` if the disk failed, and the count of faults rose; `NoMemory` if an allocation
    /// fails, or the new file would have 2^62 bytes or more. Nothing changes on the disk.
    pub fn keep<D: Disk>(
        &mut self,
        alloc: Global,
        disk: &mut D,
        seen: &Seen,
    ) -> Result<Seen, WalkRefusal>
        ensures kept { WhereTold (KeepsNext self.old seen.now self.new result) (D.content disk.old) }
        ensures checked { WhereTold (Checks self.old seen.now result) (D.content disk.old) }
        // Also where the disk doesn't tell its content, and before an entry is left out.
        ensures damage { IfErr result (TellsLack self.old.form self.old.file seen.now (D.content disk.old)) }
        ensures file { self.new.file ≡ self.old.file }
        ensures form { self.new.form ≡ self.old.form }
        ensures moved { IfOk result (λ made. (at : ℕ) × (commit : ObjectId)
            × IsMoved seen.now at commit made) }
        ensures going { OnOk result (is_some self.new.changed ≡ is_some self.old.changed) }
        ensures some { OnOk result (is_some self.new.parent ≡ true) }
        ensures lies { IfOk result (λ made. (from : ℕ) (most : ℕ) → EntryLiesIn from most seen.now
            → IsPlannedIn most self.old → KeepsIn from most self.old seen.now self.new made) }
        ensures same { BothTold Unchanged (D.content disk.old) (D.content disk.new) }
        ensures crash { LeavesOnly D.Disk disk.old disk.new (Image (D.content disk.old)) }
        ensures fewest { D.reads disk.old ≤ D.reads disk.new }
        ensures cause { RoseIf (result ≡ Err WalkRefusal.DiskFault) (D.faults disk.old)
            (D.faults disk.new) }
    {
        match &mut self.changed {
            None => {
                self.parent = Some(seen.commit);
                Ok(moved(seen, seen.at, seen.commit)?)
            }
            Some(plan) => {
                let commit = new_commit(alloc, disk, self.file, seen, self.parent, self.form)?;
                copy_entry(plan, self.file, seen, commit.bytes.as_slice())?;
                let made = moved(seen, self.end, commit.id)?;
                self.end = plan.count();
                self.parent = Some(commit.id);
                Ok(made)
            }
        }
    }

    /// Leaves the next entry out.
    ///
    /// `NoMemory` if an allocation fails, or the entry's offset is 2^62 or more.
    pub fn leave_out(&mut self, alloc: Global, seen: &Seen) -> Result<(), NoMemory>
        ensures left { OnOk result (LeavesNext self.old seen.now self.new) }
        ensures file { self.new.file ≡ self.old.file }
        ensures form { self.new.form ≡ self.old.form }
        ensures changes { OnOk result (is_some self.new.changed ≡ true) }
        ensures lies { OnOk result ((from : ℕ) (most : ℕ) → EntryLiesIn from most seen.now
            → IsPlannedIn most self.old → LeftOutIn from most self.old seen.now self.new) }
        ensures same { OnErr result (self.new ≡ self.old) }
    {
        if self.changed.is_some() {
            return Ok(());
        }
        let mut plan = PartPlan::new(alloc, FileKind::Epoch, self.file.number, Target::Anew);
        plan.push_range(self.file, 0, seen.at)?;
        self.end = seen.at;
        self.changed = Some(plan);
        Ok(())
    }

    /// Returns the plan of the new file after the last entry, or `None` if all entries stay.
    ///
    /// If none stays, it writes nothing. Allocates nothing.
    pub fn finish(self, alloc: Global) -> Option<PartPlan>
        ensures finished { FinishesPlan self result }
        ensures epoch { IsOfEpoch self.file result }
        ensures only { is_some result ≡ is_some self.changed }
        ensures within { (most : ℕ) → IsPlannedIn most self → FinishesIn most self result }
    {
        let EpochPlan {
            file,
            changed,
            end: _,
            parent,
            form: _,
        } = self;
        if parent.is_some() {
            return changed;
        }
        match changed {
            None => None,
            Some(_front) => Some(PartPlan::new(alloc, FileKind::Epoch, file.number, Target::Anew)),
        }
    }
}

/// Appends the blob and the tree of an entry of a file to a plan, and then these bytes.
///
/// `NoMemory` if an allocation fails, or the plan would have 2^62 bytes or more.
fn copy_entry(
    plan: &mut PartPlan,
    file: FileName,
    seen: &Seen,
    bytes: &[u8],
) -> Result<(), NoMemory>
    ensures copied { OnOk result (CopiesEntry file seen.now bytes.now plan.old plan.new) }
    ensures anew { IsAnewOf file plan.old → IsAnewOf file plan.new }
{
    let kept = copied_size(seen)?;
    plan.push_range(file, seen.at, kept)?;
    plan.push_bytes(bytes)
}

/// The commit of an entry after another one.
#[derive(Drop)]
struct NewCommit {
    /// Its bytes.
    bytes: Bytes,
    /// Its id.
    id: ObjectId,
}

/// Returns the commit that an entry of a file gets in a form after a parent.
///
/// `Damaged` at the entry's offset if the bytes of its text have another blob id.
fn new_commit<D: Disk>(
    alloc: Global,
    disk: &mut D,
    file: FileName,
    seen: &Seen,
    parent: Option<ObjectId>,
    form: Form,
) -> Result<NewCommit, WalkRefusal>
    ensures commit { WhereTold (CommitsAnew form file seen.now parent result) (D.content disk.old) }
    ensures damage { IfErr result (TellsLack form file seen.now (D.content disk.old)) }
    ensures same { BothTold Unchanged (D.content disk.old) (D.content disk.new) }
    ensures crash { LeavesOnly D.Disk disk.old disk.new (Image (D.content disk.old)) }
    ensures fewest { D.reads disk.old ≤ D.reads disk.new }
    ensures cause { RoseIf (result ≡ Err WalkRefusal.DiskFault) (D.faults disk.old)
        (D.faults disk.new) }
{
    let mut room = room_for(alloc, seen.size)?;
    commit_read(alloc, disk, file, seen, parent, form, &mut room)
}

/// Returns that commit. Reads the text into `room`, which has its size.
fn commit_read<D: Disk>(
    alloc: Global,
    disk: &mut D,
    file: FileName,
    seen: &Seen,
    parent: Option<ObjectId>,
    form: Form,
    room: &mut [u8],
) -> Result<NewCommit, WalkRefusal>
    requires room { length room.old ≡ seen.now.size }
    ensures commit { WhereTold (CommitsAnew form file seen.now parent result) (D.content disk.old) }
    ensures damage { IfErr result (TellsLack form file seen.now (D.content disk.old)) }
    ensures same { BothTold Unchanged (D.content disk.old) (D.content disk.new) }
    ensures crash { LeavesOnly D.Disk disk.old disk.new (Image (D.content disk.old)) }
    ensures fewest { D.reads disk.old ≤ D.reads disk.new }
    ensures cause { RoseIf (result ≡ Err WalkRefusal.DiskFault) (D.faults disk.old)
        (D.faults disk.new) }
{
    let count = disk.read(file, seen.text_at, room)?;
    if count < room.len() || blob_id(room, form) != seen.blob {
        return Err(WalkRefusal::Damaged { at: seen.at });
    }
    let text = EntryText {
        form,
        kind: seen.kind,
        text: room,
        moment: seen.moment,
    };
    let objects = entry_objects(alloc, &text, &seen.blob, parent)?;
    Ok(NewCommit {
        bytes: objects.commit,
        id: objects.ids.commit,
    })
}

/// Allocates room for a text.
fn room_for(alloc: Global, size: u64) -> Result<Vec<u8>, NoMemory>
    ensures { IfOk result (λ room. length room.items ≡ size) }
{
    Ok(vec![in alloc; 0; size as usize]?)
}

/// Returns the number of bytes of an entry's blob and tree.
///
/// `NoMemory` if that is no number of 64 bits, which no entry has.
fn copied_size(seen: &Seen) -> Result<u64, NoMemory>
    ensures { IfOk result (λ count.
        seen.now.at + count ≡ seen.now.text_at + seen.now.size + tree_size (form_of seen.now.blob)) }
{
    let Some(front) = seen.text_at.checked_sub(seen.at) else {
        return Err(NoMemory);
    };
    let Some(blob) = front.checked_add(seen.size) else {
        return Err(NoMemory);
    };
    match blob.checked_add(tree_len(seen.blob.form()) as u64) {
        Some(count) => Ok(count),
        None => Err(NoMemory),
    }
}

/// Returns what is recorded of an entry at another offset, with another commit.
///
/// `NoMemory` if an allocation fails, or the offsets are no numbers of 64 bits, which those of an
/// entry are.
fn moved(seen: &Seen, at: u64, commit: ObjectId) -> Result<Seen, NoMemory>
    ensures { IfOk result (λ made. IsMoved seen.now at commit made) }
{
    let Some(front) = seen.text_at.checked_sub(seen.at) else {
        return Err(NoMemory);
    };
    let Some(text_at) = at.checked_add(front) else {
        return Err(NoMemory);
    };
    Ok(Seen {
        kind: seen.kind,
        at,
        text_at,
        size: seen.size,
        blob: seen.blob,
        commit,
        moment: seen.moment,
        id: seen.id.copy()?,
        content: seen.content,
    })
}
