//! The keys of a row.
//! Allocates.
ghost use Rattle.std.specs.Prelude.{◌≡◌, IfOk};
ghost use Rattle.view_set.specs.Threads.{keys_of as keys_of_row};

use arch_base::{NoMemory, Texts};
use mail_forms::Row;
use std::alloc::Global;

/// Returns the keys of a row: its own id, and then the ids of the messages that it answers.
pub(crate) fn keys_of(alloc: Global, row: &Row) -> Result<Texts, NoMemory>
    ensures { IfOk result (λ keys. keys ≡ keys_of_row row.now) }
{
    let mut keys = Texts::new(alloc);
    keys.push(row.id.copy()?)?;
    let refs = row.refs.as_slice();
    for id in refs {
        keys.push(id.copy()?)?;
    }
    Ok(keys)
}
