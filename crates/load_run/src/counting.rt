//! The counts of an archive.
//! Allocates.
ghost use Rattle.std.specs.Prelude.{◌≡◌, ◌<◌, ◌^◌, true, length, IfOk};
ghost use Rattle.arch_model.specs.Archives.{Archive, live as live_of};
ghost use Rattle.arch_model.specs.Threading.{thread_in};
ghost use Rattle.arch_model.specs.Validity.{IsArchive};
ghost use Rattle.load_run.specs.Counted.{counts_of, is_first as first_is, thread_count as threads_of};

use crate::counts::LoadCounts;
use arch_base::NoMemory;
use arch_model::Shelf;

/// Returns the counts of an archive with so many live messages.
///
/// `NoMemory` if an allocation fails.
pub(crate) fn counts<S: Shelf>(shelf: &S, live: u32) -> Result<LoadCounts, NoMemory>
    requires { S.ready shelf.now ≡ true }
    ensures { (a : Archive) → IsArchive a → S.holds shelf.now a → live ≡ length (live_of a.entries)
        → IfOk result (λ counts. counts ≡ counts_of a) }
{
    Ok(LoadCounts {
        live,
        next: shelf.next_number(),
        entries: entry_count(shelf),
        threads: thread_count(shelf)?,
    })
}

/// Returns the number of entries, or `u64::MAX` if there are more.
fn entry_count<S: Shelf>(shelf: &S) -> u64
    requires { S.ready shelf.now ≡ true }
    ensures { (a : Archive) → S.holds shelf.now a → length a.entries < 2 ^ 64
        → result ≡ length a.entries }
{
    for index in 0..u64::MAX {
        if shelf.entry(index).is_none() {
            return index;
        }
    }
    u64::MAX
}

/// Returns the number of threads of live messages.
///
/// `NoMemory` if an allocation fails.
fn thread_count<S: Shelf>(shelf: &S) -> Result<u32, NoMemory>
    requires { S.ready shelf.now ≡ true }
    ensures { (a : Archive) → IsArchive a → S.holds shelf.now a
        → IfOk result (λ count. count ≡ threads_of (live_of a.entries)) }
{
    let mut count = 0;
    for n in 0..shelf.next_number() {
        count += u32::from(leads(n, shelf)?);
    }
    Ok(count)
}

/// Returns whether a live message with a number is the first of its thread.
///
/// `NoMemory` if an allocation fails.
fn leads<S: Shelf>(n: u32, shelf: &S) -> Result<bool, NoMemory>
    requires { S.ready shelf.now ≡ true }
    ensures { (a : Archive) → S.holds shelf.now a
        → IfOk result (λ leads. leads ≡ first_is n (thread_in (live_of a.entries) n)) }
{
    let thread = shelf.thread_of(n)?;
    Ok(is_first(n, thread.as_slice()))
}

/// Returns whether the first of some numbers is this one.
fn is_first(n: u32, numbers: &[u32]) -> bool
    ensures { result ≡ first_is n numbers.now }
{
    match numbers.first() {
        Some(first) => *first == n,
        None => false,
    }
}
