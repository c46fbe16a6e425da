//! The load run.
//! Writes the disk; syncs.
ghost use Rattle.std.specs.Prelude.{◌≡◌, ◌≤◌, None, true, OnOk};
ghost use Rattle.arch_model.specs.Archives.{Archive};
ghost use Rattle.arch_model.specs.Keeping.{MatchesKnown};
ghost use Rattle.arch_model.specs.Standing.{standing};
ghost use Rattle.arch_model.specs.Validity.{IsArchive};
ghost use Rattle.load_run.specs.Counted.{counts_of};
ghost use Rattle.load_run.specs.Given.{GivesUndamaged, LoadCause};
ghost use Rattle.load_run.specs.Loads.{greatest_load, loaded};

use crate::commanding::{FIRST_MOMENT, deliver_all, purge_all, reindex, remove_all};
use crate::counting::counts;
use crate::counts::LoadCounts;
use crate::refusal::LoadRefusal;
use arch_base::NoMemory;
use arch_model::{Keep, law_of_commands};
use std::alloc::Global;

/// The greatest number of messages of a load run.
pub const GREATEST_LOAD: u32 = 20_000;

/// Shows that `GREATEST_LOAD` is the greatest number of messages of the definitions.
pub fn greatest_load_is_defined()
    ensures { GREATEST_LOAD ≡ greatest_load }
{}

/// Delivers messages 1 to `count` that a seed determines, removes each number divisible by 10, purges
/// each divisible by 25, rebuilds what is kept beside the files, and returns the counts of the
/// archive then.
///
/// What the rules refuse is skipped, as in the definition. `NoMemory` if an allocation fails,
/// `DiskFault` if the disk failed, and the count of faults rose; any other result leaves the count.
/// `Damaged` never comes while an archive is held.
///
/// A refusal ends the run where it came. No clause says what the keeper stands for then: by the code it
/// is what the commands before left, the last one perhaps in doubt. Nor does a clause say that what is
/// kept beside the files is rebuilt before it is counted.
pub fn load<K: Keep>(
    alloc: Global,
    keep: &mut K,
    count: u32,
    seed: u64,
) -> Result<LoadCounts, LoadRefusal>
    requires { count ≤ greatest_load }
    ensures counts { (a : Archive) → IsArchive a
        → MatchesKnown K.Keep keep.old (standing a None)
        → GivesUndamaged result (λ counts. counts ≡ counts_of (loaded a count seed)) }
    ensures kept { (a : Archive) → MatchesKnown K.Keep keep.old (standing a None)
        → GivesUndamaged result (λ counts.
        MatchesKnown K.Keep keep.new (standing (loaded a count seed) None)) }
    ensures ready { OnOk result (K.ready keep.new ≡ true) }
    ensures later { K.faults keep.old ≤ K.faults keep.new }
    ensures cause { LoadCause (K.faults keep.old) (K.faults keep.new) result }
{
    law_of_commands();
    deliver_all(alloc, keep, count, seed)?;
    let moment = FIRST_MOMENT + u64::from(count);
    remove_all(keep, count, moment)?;
    purge_all(keep, count, moment)?;
    let live = reindex(keep)?;
    match counts(keep, live) {
        Ok(counts) => Ok(counts),
        Err(NoMemory) => Err(LoadRefusal::NoMemory),
    }
}
