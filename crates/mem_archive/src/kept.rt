//! What the archive in memory keeps of each entry, and of its last epoch.
//! Allocates.
ghost use Rattle.std.specs.Prelude.{◌≡◌, ◌++◌, ◌≤◌, IfOk, OnOk, OnErr, is_ok, if◌then◌else◌};
ghost use Rattle.disk_model.specs.Sizes.{greatest_epoch};
ghost use Rattle.git_objects.specs.Objects.{blob_id_of};
ghost use Rattle.mail_commits.specs.Entries.{commit_id, entry_bytes};
ghost use Rattle.mem_archive.specs.Memory.{entry_of, line_of, front_bytes, end_for_new, end_by_room, end_in_epoch, end_after, BytesGrow};

use arch_base::{Bytes, Form, NoMemory, ObjectId};
use arch_model::EntryLine;
use disk_model::LAST_EPOCH;
use git_objects::{EntryKind, blob_id};
use mail_commits::{EntryText, magic, push_entry};
use std::alloc::Global;

/// An entry as the archive in memory keeps it.
#[derive(Drop)]
pub(crate) struct Kept {
    /// What it is.
    pub(crate) kind: EntryKind,
    /// The number of the message that it is or ends.
    pub(crate) number: u32,
    /// The number of its epoch.
    pub(crate) epoch: u32,
    /// Its text.
    pub(crate) text: Bytes,
    /// The moment of the delivery or of the removal, in seconds since 1970 UTC.
    pub(crate) moment: u64,
    /// The id of its commit.
    pub(crate) commit: ObjectId,
}

impl Kept {
    /// Returns the entry without its text, with the blob id in a form.
    pub(crate) fn line(&self, form: Form) -> EntryLine
        ensures { result ≡ line_of form self.now }
    {
        EntryLine {
            kind: self.kind,
            number: self.number,
            epoch: self.epoch,
            secs: self.moment,
            blob: blob_id(self.text.as_slice(), form),
            size: self.text.as_slice().len() as u64,
            commit: self.commit,
        }
    }
}

impl Kept {
    /// Returns the same entry with another commit.
    pub(crate) fn copy(&self, alloc: Global, commit: ObjectId) -> Result<Kept, NoMemory>
        ensures entry { IfOk result (λ made. entry_of made ≡ entry_of self.now) }
        ensures commit { IfOk result (λ made. made.commit ≡ commit) }
    {
        let mut text = Bytes::new(alloc);
        text.push_slice(self.text.as_slice())?;
        Ok(Kept {
            kind: self.kind,
            number: self.number,
            epoch: self.epoch,
            text,
            moment: self.moment,
            commit,
        })
    }
}

/// Where the message of a number is kept. A number whose message was purged has none.
#[derive(Clone, Copy, Drop)]
pub(crate) struct KeptPlace {
    /// The index of its entry.
    pub(crate) entry: usize,
    /// Whether it is live.
    pub(crate) live: bool,
}

/// The end of an archive, to which the next entry is appended.
#[derive(Clone, Copy, Drop)]
pub(crate) struct End {
    /// The number of the last epoch.
    pub(crate) epoch: u32,
    /// Bytes left before the epoch is full.
    pub(crate) room: u64,
    /// The id of the epoch's last commit, or `None` if it has none.
    pub(crate) parent: Option<ObjectId>,
}

impl End {
    /// Returns the end after one more entry, which goes to the last epoch, or to a new one if that
    /// is full. `blob` is the blob id of its text.
    pub(crate) fn with(
        self,
        alloc: Global,
        limit: u64,
        entry: &EntryText<'_>,
        blob: &ObjectId,
    ) -> Result<End, NoMemory>
        requires epoch { self.epoch ≤ greatest_epoch }
        requires blob { blob.now ≡ blob_id_of entry.now.form entry.now.text.now }
        ensures { IfOk result (λ made. made ≡ end_after entry.now.form (end_for_new limit self)
            entry.now.kind entry.now.text.now entry.now.moment) }
    {
        let room = self.room;
        self.for_new(room, limit).after(alloc, entry, blob)
    }

    /// Returns the end to which a new entry is appended, if the last epoch has `room` bytes left.
    ///
    /// It is the end of the last epoch, or that of a new one if the last is full. Epoch 63 is never
    /// full.
    fn for_new(self, room: u64, limit: u64) -> End
        requires { self.epoch ≤ greatest_epoch }
        ensures { result ≡ end_by_room room limit self }
    {
        if self.epoch == LAST_EPOCH || room > 0 {
            self
        } else {
            End {
                epoch: self.epoch + 1,
                room: limit,
                parent: None,
            }
        }
    }

    /// Returns the end to which an entry of an epoch from the last one on is appended.
    pub(crate) fn in_epoch(self, epoch: u32, limit: u64) -> End
        requires { self.epoch ≤ epoch }
        ensures { result ≡ end_in_epoch epoch limit self }
    {
        if self.epoch == epoch {
            self
        } else {
            End {
                epoch,
                room: limit,
                parent: None,
            }
        }
    }

    /// Returns the end after one more entry, whose text has this blob id.
    pub(crate) fn after(
        self,
        alloc: Global,
        entry: &EntryText<'_>,
        blob: &ObjectId,
    ) -> Result<End, NoMemory>
        requires { blob.now ≡ blob_id_of entry.now.form entry.now.text.now }
        ensures { IfOk result (λ made. made
            ≡ end_after entry.now.form self entry.now.kind entry.now.text.now entry.now.moment) }
    {
        let mut bytes = Bytes::new(alloc);
        let commit = push_after(alloc, entry, blob, self.parent, &mut bytes)?;
        Ok(End {
            epoch: self.epoch,
            room: self.room.saturating_sub(bytes.as_slice().len() as u64),
            parent: Some(commit),
        })
    }
}

/// Appends the bytes of an entry, whose text has this blob id, and returns the id of its commit.
///
/// The first bytes of an epoch come before them if the entry has no parent. `NoMemory` may leave a
/// part appended.
pub(crate) fn push_after(
    alloc: Global,
    entry: &EntryText<'_>,
    blob: &ObjectId,
    parent: Option<ObjectId>,
    into: &mut Bytes,
) -> Result<ObjectId, NoMemory>
    requires { blob.now ≡ blob_id_of entry.now.form entry.now.text.now }
    ensures id { IfOk result (λ id. id
        ≡ commit_id entry.now.form entry.now.kind entry.now.text.now entry.now.moment parent) }
    ensures ok { OnOk result (into.new ≡ into.old ++ (front_bytes entry.now.form parent
        ++ entry_bytes entry.now.form entry.now.kind entry.now.text.now entry.now.moment parent)) }
    ensures err { OnErr result (BytesGrow into.old into.new) }
{
    push_front(entry.form, parent, into)?;
    let ids = push_entry(alloc, entry, blob, parent, into)?;
    Ok(ids.commit)
}

/// Appends the first bytes of an epoch of a form if an entry has no parent.
///
/// `NoMemory` leaves the bytes unchanged.
fn push_front(form: Form, parent: Option<ObjectId>, into: &mut Bytes) -> Result<(), NoMemory>
    ensures { into.new ≡ (if is_ok result then into.old ++ front_bytes form parent else into.old) }
{
    match parent {
        None => into.push_slice(&magic(form)),
        Some(_) => Ok(()),
    }
}
