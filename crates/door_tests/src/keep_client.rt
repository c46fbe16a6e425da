//! Three commands in order over any keeper, with one sentence on a crash since the first one's start.
ghost use Rattle.std.specs.Prelude.{◌≤◌};
ghost use Rattle.arch_base.specs.Moments.{last_moment};
ghost use Rattle.arch_model.specs.Keeping.{MatchesKnown};
ghost use Rattle.arch_model.specs.Standing.{LastKnown};
ghost use Rattle.door_tests.specs.Chains.{Chain};

use crate::connection::archive;
use arch_model::{Answer, Command, Keep, OpenRefusal};
use archive_fixtures::{Failing, FailingKeep};
use std::alloc::Global;

/// Delivers three messages at a moment, and returns the answers.
///
/// A crash since the start leaves the archive before or after one of the deliveries, or one in doubt
/// there.
fn deliver_three<K: Keep>(
    messages: &[&[u8]; 3],
    moment: u64,
    keep: &mut K,
) -> (Answer, Answer, Answer)
    requires { moment ≤ last_moment }
    ensures { (s : LastKnown) → MatchesKnown K.Keep keep.old s → Chain K.Keep keep.old keep.new s }
{
    let first = keep.command(&Command::Deliver(messages[0]), moment);
    let second = keep.command(&Command::Deliver(messages[1]), moment);
    let third = keep.command(&Command::Deliver(messages[2]), moment);
    (first, second, third)
}

/// Messages of which the last is the first one again.
const MESSAGES: [&[u8]; 3] = [
    b"Message-ID: <a@x>\n",
    b"Message-ID: <b@x>\n",
    b"Message-ID: <a@x>\n",
];

#[test]
fn each_delivery_goes_on_from_the_one_before(rt: HostRuntime) {
    let Some(mut archive) = archive(rt.alloc()) else {
        return assert!(rt; false);
    };
    let (first, second, third) = deliver_three(&MESSAGES, 1, &mut archive);
    let numbers = (number_of(first), number_of(second));
    assert!(rt; numbers == (Some(1), Some(2)) && third == Answer::Duplicate(1));
}

#[test]
fn a_delivery_after_a_fault_reopens_first(rt: HostRuntime) {
    let Some(archive) = archive(rt.alloc()) else {
        return assert!(rt; false);
    };
    let mut keep = FailingKeep::new(archive, Failing::Opening);
    let (first, second, third) = deliver_three(&MESSAGES, 1, &mut keep);
    let failed = Answer::DiskFault;
    assert!(rt; first == failed && second == failed && third == failed);
}

#[test]
fn a_rebuilding_counts_what_is_live(rt: HostRuntime) {
    let Some(mut archive) = archive(rt.alloc()) else {
        return assert!(rt; false);
    };
    let _ = deliver_three(&MESSAGES, 1, &mut archive);
    let before = archive.reindex();
    let _ = archive.command(&Command::Remove(1), 2);
    assert!(rt; before == Ok(2) && archive.reindex() == Ok(1));
}

#[test]
fn a_refused_rebuilding_leaves_the_keeper_stale(rt: HostRuntime) {
    assert!(rt; is_refused(rt.alloc(), Failing::Opening, OpenRefusal::DiskFault));
    assert!(rt;
        is_refused(
            rt.alloc(),
            Failing::OpeningWithoutMemory,
            OpenRefusal::NoMemory
        )
    );
    assert!(rt;
        is_refused(
            rt.alloc(),
            Failing::OpeningWithoutArchive,
            OpenRefusal::NoArchive
        )
    );
}

/// Returns whether a rebuilding is refused so, and leaves the keeper stale.
fn is_refused(alloc: Global, failing: Failing, refusal: OpenRefusal) -> bool {
    let Some(archive) = archive(alloc) else {
        return false;
    };
    let mut keep = FailingKeep::new(archive, failing);
    keep.reindex() == Err(refusal) && keep.is_stale()
}

/// Returns the number of a message that was taken.
fn number_of(answer: Answer) -> Option<u32> {
    match answer {
        Answer::Ok { number, id: _ } => Some(number),
        _other => None,
    }
}
