//! Numbers in rising order.
//! Allocates.
ghost use Rattle.std.specs.Prelude.{◌≡◌, IfOk};
ghost use Rattle.thread_index.specs.Index.{OrdersNumbers};

use arch_base::{MessageNumbers, NoMemory};
use std::alloc::Global;
use std::collections::BTreeSet;

/// Returns the numbers of a set.
fn numbers_of(alloc: Global, mut set: BTreeSet<u32>) -> Result<MessageNumbers, NoMemory>
    ensures { IfOk result (λ numbers. numbers ≡ set.keys) }
{
    let mut numbers = MessageNumbers::new(alloc);
    while let Some(n) = set.pop_first() {
        numbers.push(n)?;
    }
    Ok(numbers)
}

/// Returns numbers in rising order, each once.
pub(crate) fn in_order(alloc: Global, ns: &[u32]) -> Result<MessageNumbers, NoMemory>
    ensures { IfOk result (λ ordered. OrdersNumbers ns.now ordered) }
{
    let mut set = BTreeSet::new(alloc);
    for n in ns {
        set.insert(*n)?;
    }
    numbers_of(alloc, set)
}
