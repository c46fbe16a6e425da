//! What a client is told of changes in its mailbox.
use crate::client::Client;
use std::alloc::Global;

/// Returns whether a client is told of nothing, of a removal, and then of nothing again.
fn is_told_once(alloc: Global) -> Option<bool> {
    let mut client = Client::to_five(alloc, 1, 50)?;
    let selected = client.knows(&[1, 2, 3, 4, 5]) && client.is_told(&[], None, &[1, 2, 3, 4, 5]);
    let removed = client.remove(2) && client.is_told(&[2], None, &[1, 3, 4, 5]);
    Some(selected && removed && client.is_told(&[], None, &[1, 3, 4, 5]))
}

#[test]
fn a_removal_is_told_once(rt: HostRuntime) {
    assert!(rt; is_told_once(rt.alloc()) == Some(true));
}

/// Returns whether the greatest is told first, by the sequence numbers before any of the changes, and
/// the count after all of them.
fn tells_greatest_first(alloc: Global) -> Option<bool> {
    let mut client = Client::to_five(alloc, 1, 50)?;
    let changed = client.remove(1)
        && client.purge(4)
        && client.remove(5)
        && client.deliver(b"Message-ID: <f@x>\n\n6\n");
    Some(changed && client.is_told(&[5, 4, 1], Some(3), &[2, 3, 6]))
}

#[test]
fn the_greatest_is_told_first(rt: HostRuntime) {
    assert!(rt; tells_greatest_first(rt.alloc()) == Some(true));
}

/// Returns whether a message that came and went isn't told of.
fn passes_over_what_went(alloc: Global) -> Option<bool> {
    let mut client = Client::to_five(alloc, 1, 50)?;
    let changed = client.deliver(b"Message-ID: <f@x>\n\n6\n") && client.remove(6);
    Some(changed && client.is_told(&[], None, &[1, 2, 3, 4, 5]))
}

#[test]
fn what_came_and_went_is_not_told(rt: HostRuntime) {
    assert!(rt; passes_over_what_went(rt.alloc()) == Some(true));
}

/// Returns whether a mailbox of two numbers has these alone, and none of what comes after it.
fn keeps_to_its_slice(alloc: Global) -> Option<bool> {
    let mut client = Client::to_five(alloc, 3, 4)?;
    let selected = client.knows(&[3, 4]);
    let changed = client.remove(3)
        && client.remove(1)
        && client.deliver(b"Message-ID: <f@x>\n\n6\n");
    Some(selected && changed && client.is_told(&[1], None, &[4]))
}

#[test]
fn a_mailbox_keeps_to_its_slice(rt: HostRuntime) {
    assert!(rt; keeps_to_its_slice(rt.alloc()) == Some(true));
}

/// Returns whether a mailbox that has no message yet gets its first one.
fn fills_an_empty_mailbox(alloc: Global) -> Option<bool> {
    let mut client = Client::to_five(alloc, 6, 10)?;
    let empty = client.is_told(&[], None, &[]);
    let filled = client.deliver(b"Message-ID: <f@x>\n\n6\n") && client.is_told(&[], Some(1), &[6]);
    Some(empty && filled && client.remove(6) && client.is_told(&[1], None, &[]))
}

#[test]
fn an_empty_mailbox_is_filled_and_emptied(rt: HostRuntime) {
    assert!(rt; fills_an_empty_mailbox(rt.alloc()) == Some(true));
}

/// Returns whether sequence numbers and UIDs lead to each other.
fn finds_both_ways(alloc: Global) -> Option<bool> {
    let mut client = Client::to_five(alloc, 1, 50)?;
    let told = client.remove(2) && client.is_told(&[2], None, &[1, 3, 4, 5]);
    let uids = client.uid(0).is_none()
        && client.uid(1) == Some(1)
        && client.uid(2) == Some(3)
        && client.uid(4) == Some(5)
        && client.uid(5).is_none();
    let sequences = client.sequence(1) == Some(1)
        && client.sequence(2).is_none()
        && client.sequence(3) == Some(2)
        && client.sequence(5) == Some(4)
        && client.sequence(6).is_none();
    Some(told && uids && sequences)
}

#[test]
fn sequence_numbers_and_uids_lead_to_each_other(rt: HostRuntime) {
    assert!(rt; finds_both_ways(rt.alloc()) == Some(true));
}
