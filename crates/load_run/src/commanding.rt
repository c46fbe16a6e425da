//! The commands of a load run.
//! Writes the disk; syncs.
ghost use Rattle.std.specs.Prelude.{◌≡◌, ◌≤◌, ◌/◌, None, true, OnOk, length};
ghost use Rattle.arch_base.specs.Moments.{last_moment};
ghost use Rattle.arch_model.specs.Archives.{Archive, live};
ghost use Rattle.arch_model.specs.Delivery.{applied, delivered};
ghost use Rattle.arch_model.specs.Keeping.{MatchesKnown};
ghost use Rattle.arch_model.specs.Standing.{standing};
ghost use Rattle.load_run.specs.Given.{GivesUndamaged, LoadCause};
ghost use Rattle.load_run.specs.Mails.{mail as mail_with};
ghost use Rattle.load_run.specs.Loads.{greatest_load, moment_of, delivered_to, removed_to, purged_to};

use crate::mails::{drawn, next_state, push_mail};
use crate::refusal::LoadRefusal;
use arch_base::{Bytes, NoMemory};
use arch_model::{Answer, Command, Keep, OpenRefusal};
use std::alloc::Global;

/// The moment before the first message, in seconds since 1970 UTC.
pub(crate) const FIRST_MOMENT: u64 = 1_700_000_000;

/// Carries out a command, whatever the rules answer.
fn obey<K: Keep>(keep: &mut K, command: &Command<'_>, moment: u64) -> Result<(), LoadRefusal>
    requires { moment ≤ last_moment }
    ensures kept { (a : Archive) → MatchesKnown K.Keep keep.old (standing a None)
        → GivesUndamaged result (λ done. MatchesKnown K.Keep keep.new
        (standing (applied a command.now moment).archive None)) }
    ensures later { K.faults keep.old ≤ K.faults keep.new }
    ensures cause { LoadCause (K.faults keep.old) (K.faults keep.new) result }
{
    match keep.command(command, moment) {
        Answer::NoMemory => Err(LoadRefusal::NoMemory),
        Answer::DiskFault => Err(LoadRefusal::DiskFault),
        Answer::Damaged { .. } => Err(LoadRefusal::Damaged),
        _ => Ok(()),
    }
}

/// Delivers messages 1 to `count`.
pub(crate) fn deliver_all<K: Keep>(
    alloc: Global,
    keep: &mut K,
    count: u32,
    seed: u64,
) -> Result<(), LoadRefusal>
    requires { count ≤ greatest_load }
    ensures kept { (a : Archive) → MatchesKnown K.Keep keep.old (standing a None)
        → GivesUndamaged result (λ done. MatchesKnown K.Keep keep.new
        (standing (delivered_to a seed count) None)) }
    ensures later { K.faults keep.old ≤ K.faults keep.new }
    ensures cause { LoadCause (K.faults keep.old) (K.faults keep.new) result }
{
    let mut mail = Bytes::new(alloc);
    let mut state = seed;
    for index in 0..count {
        state = next_state(state);
        match deliver(u64::from(index) + 1, drawn(state), &mut mail, keep) {
            Ok(()) => {}
            Err(refusal) => return Err(refusal),
        }
    }
    Ok(())
}

/// Delivers message `i` with a number that was drawn for it. Writes it in place of the bytes in a
/// buffer.
fn deliver<K: Keep>(i: u64, r: u64, mail: &mut Bytes, keep: &mut K) -> Result<(), LoadRefusal>
    requires { i ≤ greatest_load }
    ensures kept { (a : Archive) → MatchesKnown K.Keep keep.old (standing a None)
        → GivesUndamaged result (λ done. MatchesKnown K.Keep keep.new
        (standing (delivered a (mail_with i r) (moment_of i)).archive None)) }
    ensures later { K.faults keep.old ≤ K.faults keep.new }
    ensures cause { LoadCause (K.faults keep.old) (K.faults keep.new) result }
{
    mail.truncate(0);
    match push_mail(i, r, mail) {
        Ok(()) => obey(keep, &Command::Deliver(mail.as_slice()), FIRST_MOMENT + i),
        Err(NoMemory) => Err(LoadRefusal::NoMemory),
    }
}

/// Removes each number up to `count` that is divisible by 10, at a moment.
pub(crate) fn remove_all<K: Keep>(keep: &mut K, count: u32, moment: u64) -> Result<(), LoadRefusal>
    requires few { count ≤ greatest_load }
    requires moment { moment ≤ last_moment }
    ensures kept { (a : Archive) → MatchesKnown K.Keep keep.old (standing a None)
        → GivesUndamaged result (λ done. MatchesKnown K.Keep keep.new
        (standing (removed_to a moment (count / 10)) None)) }
    ensures later { K.faults keep.old ≤ K.faults keep.new }
    ensures cause { LoadCause (K.faults keep.old) (K.faults keep.new) result }
{
    for index in 0..count / 10 {
        match obey(keep, &Command::Remove(10 * (index + 1)), moment) {
            Ok(()) => {}
            Err(refusal) => return Err(refusal),
        }
    }
    Ok(())
}

/// Purges each number up to `count` that is divisible by 25, at a moment.
pub(crate) fn purge_all<K: Keep>(keep: &mut K, count: u32, moment: u64) -> Result<(), LoadRefusal>
    requires few { count ≤ greatest_load }
    requires moment { moment ≤ last_moment }
    ensures kept { (a : Archive) → MatchesKnown K.Keep keep.old (standing a None)
        → GivesUndamaged result (λ done. MatchesKnown K.Keep keep.new
        (standing (purged_to a (count / 25)) None)) }
    ensures later { K.faults keep.old ≤ K.faults keep.new }
    ensures cause { LoadCause (K.faults keep.old) (K.faults keep.new) result }
{
    for index in 0..count / 25 {
        match obey(keep, &Command::Purge(25 * (index + 1)), moment) {
            Ok(()) => {}
            Err(refusal) => return Err(refusal),
        }
    }
    Ok(())
}

/// Rebuilds what is kept beside the files, and returns the number of live messages.
pub(crate) fn reindex<K: Keep>(keep: &mut K) -> Result<u32, LoadRefusal>
    ensures live { (a : Archive) → MatchesKnown K.Keep keep.old (standing a None)
        → GivesUndamaged result (λ count. count ≡ length (live a.entries)) }
    ensures kept { (a : Archive) → MatchesKnown K.Keep keep.old (standing a None)
        → GivesUndamaged result (λ count. MatchesKnown K.Keep keep.new
        (standing a None)) }
    ensures ready { OnOk result (K.ready keep.new ≡ true) }
    ensures later { K.faults keep.old ≤ K.faults keep.new }
    ensures cause { LoadCause (K.faults keep.old) (K.faults keep.new) result }
{
    match keep.reindex() {
        Ok(count) => Ok(count),
        Err(OpenRefusal::NoMemory) => Err(LoadRefusal::NoMemory),
        Err(OpenRefusal::DiskFault) => Err(LoadRefusal::DiskFault),
        Err(OpenRefusal::NoArchive) | Err(OpenRefusal::Damaged { .. }) => Err(LoadRefusal::Damaged),
    }
}
