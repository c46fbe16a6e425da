//! The index of the entries that are kept.
//! Allocates.
ghost use Rattle.std.specs.Prelude.{OnOk, OnErr};
ghost use Rattle.arch_judge.specs.Indexes.{HasSame, IndexPuts};
ghost use Rattle.store_finding.specs.Indexes.{IndexTakes, owner_kept};

use crate::entries::StoredEntry;
use arch_base::NoMemory;
use arch_judge::{Index, Owner};
use git_objects::EntryKind;
use std::alloc::Global;
use std::marker::Model;

/// Entries, and the index of their messages.
///
/// Its contract view is the entries.
#[derive(Drop)]
pub(crate) struct IndexedEntries {
    pub(crate) entries: Vec<StoredEntry>,
    pub(crate) index: Index,
}

impl Model for IndexedEntries {
    ghost use Rattle.std.specs.Prelude.{List};
    ghost use Rattle.store_finding.specs.declared.entries.StoredEntry.{StoredEntry};
    ghost use Rattle.store_finding.specs.Indexes.{IndexesStored};

    ghost Value = { List StoredEntry };

    ghost view = { λ i. i.entries.items };

    ghost invariant = { λ i. IndexesStored i.entries.items i.index };
}

/// Adds a message to an index, or removes the own id of a message that an entry ends.
///
/// `NoMemory` leaves what the index has.
pub fn take_entry(alloc: Global, index: &mut Index, entry: &StoredEntry) -> Result<(), NoMemory>
    ensures ok { OnOk result (IndexTakes index.old index.new entry.now) }
    ensures err { OnErr result (HasSame index.old index.new) }
{
    match entry.seen.kind {
        EntryKind::Message => put_entry(alloc, index, entry),
        EntryKind::Deletion => {
            index.remove(entry.seen.id.as_slice());
            Ok(())
        }
    }
}

/// Adds a message to an index. An older entry with its blob id stays.
fn put_entry(alloc: Global, index: &mut Index, entry: &StoredEntry) -> Result<(), NoMemory>
    ensures ok { OnOk result (IndexPuts index.old index.new entry.now.seen.id entry.now.seen.blob
        (owner_kept entry.now)) }
    ensures err { OnErr result (HasSame index.old index.new) }
{
    let id = Vec::from_slice(alloc, entry.seen.id.as_slice())?;
    let owner = Owner {
        number: entry.number,
        content: entry.seen.content,
    };
    index.insert(id, entry.seen.blob, owner)
}
