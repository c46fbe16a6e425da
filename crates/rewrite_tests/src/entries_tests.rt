//! An epoch of two messages that is written without the first one, in either form.
use arch_base::{Form, NoMemory, Numbers, ObjectId, id_of_hex};
use disk_model::{Disk, DiskFault, FileKind, FileName, WalkRefusal};
use epoch_file::{EpochPlan, NewEntry, Seen, SeenList, StoreRefusal, entry_piece, rewrite, walk};
use fixtures::{FIRST, MOMENT, SECOND, SECOND_ID, add_entry, empty_disk};
use git_objects::EntryKind;
use mail_commits::text_ids;
use root_change::{PartPlan, Target};
use std::alloc::Global;
use std::test::Fail;

/// The file of the epoch.
const EPOCH: FileName = FileName {
    kind: FileKind::Epoch,
    number: 0,
    generation: 2,
};

/// The file to which it is written anew.
const ANEW: FileName = FileName {
    kind: FileKind::Epoch,
    number: 0,
    generation: 4,
};

/// The bytes of an epoch that has the second mail alone, whose commit then has no parent.
const ALONE: &[u8] =
    b"PIV2EP1\nblob 103\0From: Ann <ann@example.org>\nDate: Thu, 1 Feb 2024 10:00:00 +0000\nSubject: first\nMessage-ID: <b@x>\n\none\ntree 29\0100644 m\0q\xba\xd9^\x97V@(\x1d\xa1|\xb5ah\x125\xcaL\x1fBcommit 148\0tree d7ac61fd9609fdcc5f73f55f952a8ff4db1cd412\nauthor Ann <ann@example.org> 1706781600 +0000\ncommitter piv2 <piv2@localhost> 1706781700 +0000\n\nfirst\n";

/// Returns the id in a form of the second mail's blob, as git gives it.
pub(crate) fn second_blob(form: Form) -> Option<ObjectId> {
    match form {
        Form::Sha1 => id_of_hex(SECOND_ID, form),
        Form::Sha256 => id_of_hex(
            b"f656a0fc95d9c1eed5be5c178e0c92706c55b94331cd6750c8e82c7ac171039e",
            form,
        ),
    }
}

/// Returns the id in a form of the second mail's commit without a parent, as git gives it.
pub(crate) fn alone_commit(form: Form) -> Option<ObjectId> {
    match form {
        Form::Sha1 => id_of_hex(b"89244c18db83e15cb0acd3c02abbc10048cf2321", form),
        Form::Sha256 => id_of_hex(
            b"2e7ad4967075f7c082a703377539b7a9715d780a1c497fafcf5acb0e6a3f801d",
            form,
        ),
    }
}

/// Returns the length of the epoch of a form that has one of the mails alone.
pub(crate) fn alone_length(form: Form) -> u64 {
    match form {
        Form::Sha1 => 316,
        Form::Sha256 => 352,
    }
}

/// Returns the length of the epoch of a form that has two of the mails.
pub(crate) fn both_length(form: Form) -> u64 {
    match form {
        Form::Sha1 => 672,
        Form::Sha256 => 768,
    }
}

/// Writes the entries of a form of both mails to the epoch.
pub(crate) fn put_two<D: Disk>(
    alloc: Global,
    disk: &mut D,
    form: Form,
) -> Result<(), StoreRefusal> {
    let mut new = NewEntry {
        kind: EntryKind::Message,
        text: FIRST,
        ids: text_ids(FIRST, form),
        moment: MOMENT,
        parent: None,
        form,
    };
    let first = add_entry(alloc, disk, EPOCH, 0, &new)?;
    new.text = SECOND;
    new.ids = text_ids(SECOND, form);
    new.parent = Some(first.commit);
    add_entry(alloc, disk, EPOCH, first.end, &new)?;
    Ok(())
}

/// Returns whether the other file has the second mail alone.
fn has_second_alone<D: Disk>(disk: &mut D) -> Result<bool, DiskFault> {
    let mut bytes = [0; 317];
    let count = disk.read(ANEW, 0, &mut bytes)?;
    Ok(count == 316 && bytes.split_at(316).0 == ALONE)
}

/// Writes the epoch of both mails anew, without the first one, and returns whether that has the bytes
/// that are due.
fn is_rewritten<D: Disk>(alloc: Global, disk: &mut D) -> Result<bool, Fail> {
    let mut gone = Numbers::new(alloc);
    gone.push(0)?;
    put_two(alloc, disk, Form::Sha1)?;
    let count = rewrite(alloc, disk, EPOCH, 672, ANEW, &gone, Form::Sha1)?;
    let alone = has_second_alone(disk)?;
    Ok(count == 316 && alone)
}

#[test]
fn an_epoch_is_written_without_an_entry(rt: HostRuntime) -> Result<(), Fail> {
    let mut disk = empty_disk(rt.alloc());
    assert!(rt; is_rewritten(rt.alloc(), &mut disk)?);
    Ok(())
}

/// Returns whether what is seen is the second mail, with ids of a form, at the front of its epoch.
fn is_second_alone(seen: &Seen, form: Form) -> bool {
    let placed = seen.at == 8 && seen.text_at == 17 && seen.size == 103 && seen.moment == MOMENT;
    let blob = Some(seen.blob) == second_blob(form);
    placed && blob && Some(seen.commit) == alone_commit(form)
}

/// Writes the epoch of both mails, with SHA-256 ids, anew without the first one, and returns whether the
/// second one is seen alone there.
fn is_longer_rewritten<D: Disk>(alloc: Global, disk: &mut D) -> Result<bool, Fail> {
    let mut gone = Numbers::new(alloc);
    gone.push(0)?;
    put_two(alloc, disk, Form::Sha256)?;
    let count = rewrite(alloc, disk, EPOCH, 768, ANEW, &gone, Form::Sha256)?;
    let seen = walk(alloc, disk, ANEW, 352, Form::Sha256)?;
    match seen.as_slice() {
        [one] => Ok(count == 352 && is_second_alone(one, Form::Sha256)),
        _ => Ok(false),
    }
}

#[test]
fn an_epoch_of_sha256_ids_is_written_without_an_entry(rt: HostRuntime) -> Result<(), Fail> {
    let mut disk = empty_disk(rt.alloc());
    assert!(rt; is_longer_rewritten(rt.alloc(), &mut disk)?);
    Ok(())
}

/// Leaves the first of two entries out and keeps the second, and returns whether that moves to the
/// front.
fn keeps_second<D: Disk>(
    alloc: Global,
    disk: &mut D,
    form: Form,
    plan: &mut EpochPlan,
    seen: &SeenList,
) -> Result<bool, WalkRefusal> {
    let [first, second] = seen.as_slice() else {
        return Ok(false);
    };
    plan.leave_out(alloc, first)?;
    let kept = plan.keep(alloc, disk, second)?;
    Ok(is_second_alone(&kept, form))
}

/// Returns whether the plan of an epoch of a form that was gone through is that of a new file with the
/// second mail alone.
fn is_finished(alloc: Global, form: Form, plan: EpochPlan) -> bool {
    let named = plan.file() == EPOCH;
    match plan.finish(alloc) {
        None => false,
        Some(plan) => named && is_anew(&plan, alone_length(form)),
    }
}

/// Returns whether a plan is that of so many bytes of a new file of the first epoch.
fn is_anew(plan: &PartPlan, count: u64) -> bool {
    let part = plan.kind() == FileKind::Epoch && plan.number() == 0;
    part && plan.target() == Target::Anew && plan.count() == count
}

/// Plans the epoch of a form of both mails without the first one, and returns whether all is as is due.
fn is_planned<D: Disk>(alloc: Global, disk: &mut D, form: Form) -> Result<bool, Fail> {
    put_two(alloc, disk, form)?;
    let seen = walk(alloc, disk, EPOCH, both_length(form), form)?;
    let mut plan = EpochPlan::new(EPOCH, form);
    let kept = keeps_second(alloc, disk, form, &mut plan, &seen)?;
    Ok(kept && is_finished(alloc, form, plan))
}

#[test]
fn an_epoch_is_planned_without_an_entry(rt: HostRuntime) -> Result<(), Fail> {
    for form in [Form::Sha1, Form::Sha256] {
        let mut disk = empty_disk(rt.alloc());
        assert!(rt; is_planned(rt.alloc(), &mut disk, form)?, "{form:?}");
    }
    Ok(())
}

/// Returns whether the bytes of the second mail's entry at the front of an epoch, and its ids, are those
/// that are due.
fn has_piece(alloc: Global) -> Result<bool, NoMemory> {
    let new = NewEntry {
        kind: EntryKind::Message,
        text: SECOND,
        ids: text_ids(SECOND, Form::Sha1),
        moment: MOMENT,
        parent: None,
        form: Form::Sha1,
    };
    let (piece, ids) = entry_piece(alloc, 0, &new)?;
    let blob = Some(ids.blob) == second_blob(Form::Sha1);
    let commit = Some(ids.commit) == alone_commit(Form::Sha1);
    Ok(blob && commit && piece.as_slice() == ALONE)
}

#[test]
fn an_entry_has_the_bytes_of_git(rt: HostRuntime) -> Result<(), Fail> {
    assert!(rt; has_piece(rt.alloc())?);
    Ok(())
}
