//! Removals in memory and on a disk, answer by answer, against entries whose ids git worked out.
use arch_model::{Answer, Command, Keep, OpenRefusal};
use archive_fixtures::{
    Check, LAST, UNCHANGED_ID, accepted, answer, are_alike, blob_is, both_pass, epoch_len,
    has_both, in_memory, is_entry, line, live_from, on_disk, text_is,
};
use fixtures::{FIRST, FIRST_ID, LATER, MOMENT, OTHER, SECOND, SECOND_ID};
use git_objects::EntryKind;
use std::alloc::Global;
use std::test::Fail;

/// The commit of the first mail at `LAST`, after that of its removal.
const AGAIN_COMMIT: &[u8] = b"935153bbca041d2b9730dbb3b5a3c993a9b6b46c";

/// Delivers the first mail and removes it, and returns whether both answers are those of its number
/// and blob.
fn comes_and_goes<K: Keep>(keep: &mut K) -> Result<bool, OpenRefusal> {
    let first = accepted(1, FIRST_ID);
    let came = answer(keep, &Command::Deliver(FIRST), MOMENT)?;
    let went = answer(keep, &Command::Remove(1), LATER)?;
    Ok(Some(came) == first && Some(went) == first)
}

/// Delivers the first mail and removes it, and returns whether the removal is the second entry.
struct Goes;

impl Check for Goes {
    fn passes<K: Keep>(alloc: Global, keep: &mut K) -> Result<bool, Fail> {
        let gone = comes_and_goes(keep)?;
        let both = has_both(alloc, keep)?;
        Ok(gone && both)
    }
}

#[test]
fn a_removal_is_an_entry_of_its_own(rt: HostRuntime) -> Result<(), Fail> {
    assert!(rt; both_pass::<Goes>(rt.alloc(), 1000)?);
    Ok(())
}

/// Delivers the first mail, removes it and delivers it again, and returns whether it is the third
/// entry, in an epoch of 1,028 bytes, under a number of its own.
struct ComesAgain;

impl Check for ComesAgain {
    fn passes<K: Keep>(alloc: Global, keep: &mut K) -> Result<bool, Fail> {
        let gone = comes_and_goes(keep)?;
        let again = Some(answer(keep, &Command::Deliver(FIRST), LAST)?) == accepted(2, FIRST_ID);
        let twice = answer(keep, &Command::Deliver(FIRST), LAST)? == Answer::Duplicate(2);
        let third = is_entry(line(keep, 2)?, EntryKind::Message, 2, AGAIN_COMMIT);
        let is_long = epoch_len(alloc, keep, 0)? == Some(1028);
        Ok(gone && again && twice && third && is_long)
    }
}

#[test]
fn a_removed_text_comes_again(rt: HostRuntime) -> Result<(), Fail> {
    assert!(rt; both_pass::<ComesAgain>(rt.alloc(), 2000)?);
    Ok(())
}

/// Returns whether a mail with the id of the removed one is kept unchanged, and then removed.
struct GivesTheId;

impl Check for GivesTheId {
    fn passes<K: Keep>(alloc: Global, keep: &mut K) -> Result<bool, Fail> {
        let gone = comes_and_goes(keep)?;
        let other = accepted(2, UNCHANGED_ID);
        let came = Some(answer(keep, &Command::Deliver(OTHER), LAST)?) == other;
        let shown = text_is(alloc, keep, 2, OTHER)?;
        let went = Some(answer(keep, &Command::Remove(2), LAST)?) == other;
        Ok(gone && came && shown && went)
    }
}

#[test]
fn the_id_of_a_removed_mail_is_free(rt: HostRuntime) -> Result<(), Fail> {
    assert!(rt; both_pass::<GivesTheId>(rt.alloc(), 2000)?);
    Ok(())
}

/// Returns whether each of these numbers is not live.
fn refuses_each<K: Keep>(keep: &mut K, numbers: &[u32]) -> Result<bool, OpenRefusal> {
    let mut all = true;
    for number in numbers {
        let found = answer(keep, &Command::Remove(*number), LAST)?;
        all = all && found == Answer::NotLive(*number);
    }
    Ok(all)
}

/// Delivers the first mail and removes it, and returns whether no number can be removed then, and
/// nothing changes.
struct RemovesOnce;

impl Check for RemovesOnce {
    fn passes<K: Keep>(alloc: Global, keep: &mut K) -> Result<bool, Fail> {
        let none = refuses_each(keep, &[0, 1])?;
        let gone = comes_and_goes(keep)?;
        let each = refuses_each(keep, &[0, 1, 2, u32::MAX])?;
        let both = has_both(alloc, keep)?;
        Ok(none && gone && each && both)
    }
}

#[test]
fn what_is_not_live_is_not_removed(rt: HostRuntime) -> Result<(), Fail> {
    assert!(rt; both_pass::<RemovesOnce>(rt.alloc(), 1000)?);
    Ok(())
}

#[test]
fn a_mirror_in_memory_removes_nothing(rt: HostRuntime) -> Result<(), Fail> {
    let mut memory = in_memory(rt.alloc(), 1000, 10, true).ok_or("settings")?;
    assert!(rt; answer(&mut memory, &Command::Remove(1), MOMENT)? == Answer::IsMirror);
    Ok(())
}

#[test]
fn a_mirror_on_a_disk_removes_nothing(rt: HostRuntime) -> Result<(), Fail> {
    let mut engine = on_disk(rt.alloc(), 1000, true)?;
    assert!(rt; answer(&mut engine, &Command::Remove(1), MOMENT)? == Answer::IsMirror);
    Ok(())
}

/// Returns whether 2 is the only live number, by each way of asking.
fn has_second_alone<K: Keep>(keep: &mut K) -> Result<bool, OpenRefusal> {
    let least = live_from(keep, 0)? == Some(2) && live_from(keep, 3)?.is_none();
    keep.fresh()?;
    let greatest = keep.live_to(9) == Some(2) && keep.live_to(1).is_none();
    let count = keep.live_count(0, 9) == 1 && keep.live_count(1, 1) == 0;
    Ok(least && greatest && count && keep.next_number() == 3)
}

/// Removes the first of two mails, and returns whether the second one alone is shown, and the first
/// is given by its blob id.
struct ShowsSecondAlone;

impl Check for ShowsSecondAlone {
    fn passes<K: Keep>(alloc: Global, keep: &mut K) -> Result<bool, Fail> {
        let gone = comes_and_goes(keep)?;
        let second = Some(answer(keep, &Command::Deliver(SECOND), LAST)?) == accepted(2, SECOND_ID);
        let alone = has_second_alone(keep)?;
        let text = text_is(alloc, keep, 1, SECOND)?;
        let blob = blob_is(alloc, keep, FIRST_ID, FIRST)?;
        Ok(gone && second && alone && text && blob)
    }
}

#[test]
fn a_removed_number_is_not_shown(rt: HostRuntime) -> Result<(), Fail> {
    assert!(rt; both_pass::<ShowsSecondAlone>(rt.alloc(), 2000)?);
    Ok(())
}

/// Delivers the first mail and removes it, and returns whether each is an epoch by itself.
struct FillsTwoEpochs;

impl Check for FillsTwoEpochs {
    fn passes<K: Keep>(alloc: Global, keep: &mut K) -> Result<bool, Fail> {
        let gone = comes_and_goes(keep)?;
        let zero = epoch_len(alloc, keep, 0)? == Some(316);
        let one = epoch_len(alloc, keep, 1)? == Some(316);
        let two = epoch_len(alloc, keep, 2)?.is_none();
        Ok(gone && zero && one && two)
    }
}

#[test]
fn a_removal_goes_to_the_epoch_that_has_room(rt: HostRuntime) -> Result<(), Fail> {
    assert!(rt; both_pass::<FillsTwoEpochs>(rt.alloc(), 316)?);
    Ok(())
}

/// Commands at successive moments: mails come, go, come again, and are refused.
static COMMANDS: [Command<'static>; 11] = [
    Command::Deliver(FIRST),
    Command::Deliver(SECOND),
    Command::Deliver(OTHER),
    Command::Remove(1),
    Command::Remove(1),
    Command::Deliver(FIRST),
    Command::Deliver(OTHER),
    Command::Remove(3),
    Command::Remove(9),
    Command::Remove(4),
    Command::Deliver(OTHER),
];

#[test]
fn an_engine_removes_as_the_archive_in_memory_does(rt: HostRuntime) -> Result<(), Fail> {
    assert!(rt; are_alike(rt.alloc(), 316, &COMMANDS, 8)?);
    assert!(rt; are_alike(rt.alloc(), 700, &COMMANDS, 8)?);
    assert!(rt; are_alike(rt.alloc(), 5000, &COMMANDS, 8)?);
    Ok(())
}
