//! Deliveries, a removal, a purge and an edit on disks that stop after each number of calls.
use crate::course::{Counts, Reply, Step, answers_last, stopped, stops_are_whole};
use arch_model::{Answer, Command};
use archive_fixtures::UNCHANGED_ID;
use disk_model::Disk;
use fixtures::{FIRST, FIRST_ID, OTHER, SECOND, SECOND_ID};
use std::test::Fail;

/// Two messages.
pub(crate) static DELIVERIES: [Step; 2] = [
    Step {
        command: Command::Deliver(FIRST),
        reply: Reply::Done(1, FIRST_ID),
        counts: Counts(1, 1, 2),
    },
    Step {
        command: Command::Deliver(SECOND),
        reply: Reply::Done(2, SECOND_ID),
        counts: Counts(2, 2, 3),
    },
];

#[test]
fn a_stop_leaves_deliveries_whole(rt: HostRuntime) -> Result<(), Fail> {
    assert!(rt; stops_are_whole(rt.alloc(), 40, 316, &DELIVERIES)?);
    Ok(())
}

#[test]
fn deliveries_last_once_they_are_answered(rt: HostRuntime) -> Result<(), Fail> {
    assert!(rt; answers_last(rt.alloc(), 316, &DELIVERIES)?);
    Ok(())
}

/// A message that comes, goes and comes again, under another number.
static REMOVAL: [Step; 5] = [
    Step {
        command: Command::Deliver(FIRST),
        reply: Reply::Done(1, FIRST_ID),
        counts: Counts(1, 1, 2),
    },
    Step {
        command: Command::Remove(1),
        reply: Reply::Done(1, FIRST_ID),
        counts: Counts(2, 0, 2),
    },
    Step {
        command: Command::Remove(1),
        reply: Reply::Refused(Answer::NotLive(1)),
        counts: Counts(2, 0, 2),
    },
    Step {
        command: Command::Deliver(FIRST),
        reply: Reply::Done(2, FIRST_ID),
        counts: Counts(3, 1, 3),
    },
    Step {
        command: Command::Deliver(FIRST),
        reply: Reply::Refused(Answer::Duplicate(2)),
        counts: Counts(3, 1, 3),
    },
];

#[test]
fn a_stop_leaves_a_removal_whole(rt: HostRuntime) -> Result<(), Fail> {
    assert!(rt; stops_are_whole(rt.alloc(), 60, 2000, &REMOVAL)?);
    Ok(())
}

#[test]
fn a_removal_lasts_once_it_is_answered(rt: HostRuntime) -> Result<(), Fail> {
    assert!(rt; answers_last(rt.alloc(), 2000, &REMOVAL)?);
    Ok(())
}

/// A text that is purged from three epochs, of one entry each.
static PURGE: [Step; 4] = [
    Step {
        command: Command::Deliver(FIRST),
        reply: Reply::Done(1, FIRST_ID),
        counts: Counts(1, 1, 2),
    },
    Step {
        command: Command::Remove(1),
        reply: Reply::Done(1, FIRST_ID),
        counts: Counts(2, 0, 2),
    },
    Step {
        command: Command::Deliver(FIRST),
        reply: Reply::Done(2, FIRST_ID),
        counts: Counts(3, 1, 3),
    },
    Step {
        command: Command::Purge(2),
        reply: Reply::Done(2, FIRST_ID),
        counts: Counts(0, 0, 3),
    },
];

#[test]
fn a_stop_leaves_a_purge_whole(rt: HostRuntime) -> Result<(), Fail> {
    assert!(rt; stops_are_whole(rt.alloc(), 120, 1, &PURGE)?);
    Ok(())
}

#[test]
fn a_purge_lasts_once_it_is_answered(rt: HostRuntime) -> Result<(), Fail> {
    assert!(rt; answers_last(rt.alloc(), 1, &PURGE)?);
    Ok(())
}

#[test]
fn nothing_of_a_purged_text_is_on_the_disk(rt: HostRuntime) -> Result<(), Fail> {
    let (_reached, mut disk) = stopped(rt.alloc(), u64::MAX, 1, &PURGE);
    // A root and a map of two numbers are all.
    assert!(rt; disk.name_at(1)?.is_some() && disk.name_at(2)?.is_none());
    Ok(())
}

/// The first of two messages of one epoch, edited to another one.
static EDIT: [Step; 3] = [
    Step {
        command: Command::Deliver(FIRST),
        reply: Reply::Done(1, FIRST_ID),
        counts: Counts(1, 1, 2),
    },
    Step {
        command: Command::Deliver(SECOND),
        reply: Reply::Done(2, SECOND_ID),
        counts: Counts(2, 2, 3),
    },
    Step {
        command: Command::Edit(1, OTHER),
        reply: Reply::Done(3, UNCHANGED_ID),
        counts: Counts(2, 2, 4),
    },
];

#[test]
fn a_stop_leaves_an_edit_whole(rt: HostRuntime) -> Result<(), Fail> {
    assert!(rt; stops_are_whole(rt.alloc(), 120, 2000, &EDIT)?);
    Ok(())
}

#[test]
fn an_edit_lasts_once_it_is_answered(rt: HostRuntime) -> Result<(), Fail> {
    assert!(rt; answers_last(rt.alloc(), 2000, &EDIT)?);
    Ok(())
}
