//! Appends an entry to an epoch's file.
//! Writes the disk; syncs.
ghost use Rattle.std.specs.Prelude.{◌≡◌, ◌<◌, ◌≤◌, ◌^◌, Err, IfOk};
ghost use Rattle.arch_base.specs.Counts.{RoseIf};
ghost use Rattle.disk_model.specs.Beside.{Bounds, RespectsBound, RunsBeside};
ghost use Rattle.disk_model.specs.Disk.{WhereTold, IsAtMostLength, Elapses};
ghost use Rattle.git_objects.specs.Objects.{blob_id_of};
ghost use Rattle.mail_commits.specs.Ids.{text_ids_of};
ghost use Rattle.epoch_file.specs.Entries.{commit_after};
ghost use Rattle.arch_base.specs.Moments.{last_moment};
ghost use Rattle.epoch_file.specs.Appending.{appended, entry_of, front_at, written_of, AppendLeaves};

use crate::entry::{NewEntry, Written};
use crate::refusal::StoreRefusal;
use arch_base::{Bytes, Form, NoMemory};
use disk_model::{Disk, FileName};
use mail_commits::{EntryIds, EntryText, magic, push_entry};
use std::alloc::Global;

/// The greatest number of bytes that one write takes. More bytes find no room in memory.
const MOST: usize = 1 << 62;

/// Writes the bytes of an entry to an epoch's file at an offset, in one write.
///
/// The bytes are its blob, its tree and its commit. At offset 0 the magic comes before them.
/// Returns the offset after the last byte, and the ids of the blob and the commit.
///
/// `DiskFault` comes only from that write; the range of the bytes may then hold anything.
/// `NoMemory` comes only if memory runs out, and then nothing was done.
pub fn append_entry<D: Disk>(
    alloc: Global,
    disk: &mut D,
    file: FileName,
    at: u64,
    entry: &NewEntry<'_>,
) -> Result<Written, StoreRefusal>
    requires ids { entry.now.ids ≡ text_ids_of entry.now.form entry.now.text.now }
    requires moment { entry.now.moment ≤ last_moment }
    requires inside { WhereTold (IsAtMostLength file at) (D.content disk.old) }
    requires offset { at < 2 ^ 62 }
    ensures written { IfOk result (λ written. written ≡ written_of at entry.now) }
    ensures left { AppendLeaves file at (appended at entry.now) D.content disk.old disk.new result }
    // All that is before the offset stays at each moment.
    ensures crash_beside { (bounds : Bounds) → RespectsBound (bounds file) at
        → RunsBeside D.Disk bounds disk.old disk.new }
    ensures time { Elapses (D.moment disk.old) (D.moment disk.new) (D.left_since disk.old)
        (D.left_since disk.new) (D.content disk.new) }
    ensures cause { RoseIf (result ≡ Err StoreRefusal.DiskFault) (D.faults disk.old) (D.faults disk.new) }
    ensures count { D.reads disk.new ≡ D.reads disk.old }
{
    let (piece, ids) = entry_piece(alloc, at, entry)?;
    let bytes = piece.as_slice();
    // No memory holds so many bytes.
    if bytes.len() > MOST {
        return Err(StoreRefusal::NoMemory);
    }
    disk.write_at(file, at, bytes)?;
    Ok(Written {
        end: at + bytes.len() as u64,
        blob: ids.blob,
        commit: ids.commit,
    })
}

/// Returns the bytes of an entry at an offset, and the ids of its blob and its commit.
///
/// At offset 0 the magic comes before them.
pub fn entry_piece(
    alloc: Global,
    at: u64,
    entry: &NewEntry<'_>,
) -> Result<(Bytes, EntryIds), NoMemory>
    requires ids { entry.now.ids ≡ text_ids_of entry.now.form entry.now.text.now }
    ensures piece { IfOk result (λ made. made.0 ≡ appended at entry.now) }
    ensures blob { IfOk result (λ made. made.1.blob ≡ blob_id_of entry.now.form entry.now.text.now) }
    ensures commit { IfOk result (λ made.
        made.1.commit ≡ commit_after entry.now.form entry.now.parent (entry_of entry.now)) }
{
    let mut piece = front(alloc, at, entry.form)?;
    let text = EntryText {
        form: entry.form,
        kind: entry.kind,
        text: entry.text,
        moment: entry.moment,
    };
    let ids = push_entry(alloc, &text, &entry.ids.blob, entry.parent, &mut piece)?;
    Ok((piece, ids))
}

/// Returns the bytes before an entry of a form at an offset: the magic at offset 0, and otherwise none.
fn front(alloc: Global, at: u64, form: Form) -> Result<Bytes, NoMemory>
    ensures { IfOk result (λ made. made ≡ front_at form at) }
{
    let mut front = Bytes::new(alloc);
    if at == 0 {
        front.push_slice(&magic(form))?;
    }
    Ok(front)
}
