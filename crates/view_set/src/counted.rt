//! Changes of threads whose steps nobody asks for.
//! Allocates.
ghost use Rattle.std.specs.Prelude.{◌≡◌, ◌<◌, true, false, OnErr};
ghost use Rattle.std.specs.BTreeMap.{insert_entry, is_at};
ghost use Rattle.std.specs.Map.{remove_entry};
ghost use Rattle.std.specs.Ordering.{nat_cmp};
ghost use Rattle.thread_index.specs.Index.{IsNew};
ghost use Rattle.view_set.specs.Threads.{ThreadsBecome};

use arch_base::{NoMemory, Texts};
use std::marker::Brand;
use std::sync::ledger::{Blank, Ledger};
use thread_index::ThreadIndex;
use thread_model::Steps;

/// Adds a row of a new number to threads, unless they aren't whole.
///
/// `NoMemory` leaves threads that aren't whole.
pub(crate) fn add_thread(threads: &mut ThreadIndex, n: u32, keys: &Texts) -> Result<(), NoMemory>
    requires { threads.old.whole ≡ true → IsNew threads.old.rows n }
    ensures whole { ThreadsBecome threads.old threads.new
        (insert_entry nat_cmp threads.old.rows n keys.now) }
    ensures err { OnErr result (threads.new.whole ≡ false) }
{
    if !threads.is_whole() {
        return Ok(());
    }
    add_counted::<Brand>(threads, n, keys, Blank::new(1))
}

/// Adds a row of a new number to threads, and counts its steps on a ledger.
fn add_counted<L: Ledger>(
    threads: &mut ThreadIndex,
    n: u32,
    keys: &Texts,
    blank: Blank,
) -> Result<(), NoMemory>
    requires name { blank.name ≡ L.name }
    requires parts { blank.parts ≡ L.parts }
    requires some { 0 < L.parts }
    requires whole { threads.old.whole ≡ true }
    requires new { IsNew threads.old.rows n }
    ensures whole { ThreadsBecome threads.old threads.new
        (insert_entry nat_cmp threads.old.rows n keys.now) }
    ensures err { OnErr result (threads.new.whole ≡ false) }
{
    let mut steps = Steps::<L>::new(blank);
    threads.add(n, keys, &mut steps)
}

/// Takes the row of a number from threads, unless they aren't whole.
///
/// `NoMemory` leaves threads that aren't whole.
pub(crate) fn take_thread(threads: &mut ThreadIndex, n: u32) -> Result<(), NoMemory>
    ensures { ThreadsBecome threads.old threads.new
        (remove_entry (is_at (nat_cmp n)) threads.old.rows) }
{
    if !threads.is_whole() {
        return Ok(());
    }
    take_counted::<Brand>(threads, n, Blank::new(1))
}

/// Takes the row of a number from threads, and counts its steps on a ledger.
fn take_counted<L: Ledger>(threads: &mut ThreadIndex, n: u32, blank: Blank) -> Result<(), NoMemory>
    requires name { blank.name ≡ L.name }
    requires parts { blank.parts ≡ L.parts }
    requires some { 0 < L.parts }
    requires whole { threads.old.whole ≡ true }
    ensures { ThreadsBecome threads.old threads.new
        (remove_entry (is_at (nat_cmp n)) threads.old.rows) }
{
    let mut steps = Steps::<L>::new(blank);
    threads.take(n, &mut steps)
}
