//! The index of the entries that a store keeps after a purge or an edit.
//! Allocates.
ghost use Rattle.std.specs.Prelude.{IfOk};
ghost use Rattle.archive_core.specs.Kept.{IndexesKept};
ghost use Rattle.store_planning.specs.Dropping.{without_blob};

use arch_base::{NoMemory, ObjectId};
use arch_judge::Index;
use std::alloc::Global;
use store_finding::{StoredEntry, take_entry};

/// Returns the index of the entries but those with a blob id, wherever they are kept.
pub(crate) fn index_without(
    alloc: Global,
    entries: &[StoredEntry],
    blob: &ObjectId,
) -> Result<Index, NoMemory>
    ensures { IfOk result (λ index. IndexesKept (without_blob entries.now blob.now) index) }
{
    let mut index = Index::new(alloc);
    for entry in entries {
        if entry.seen.blob != *blob {
            take_entry(alloc, &mut index, entry)?;
        }
    }
    Ok(index)
}
