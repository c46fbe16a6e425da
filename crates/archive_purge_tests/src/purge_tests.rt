//! Purges and edits in memory and on a disk, answer by answer.
ghost use Rattle.std.specs.Prelude.{◌≤◌};

use arch_base::Bytes;
use arch_model::{Answer, Command, EntryLine, Keep, OpenRefusal};
use archive_fixtures::{
    Check, accepted, answer, blob_is, both_pass, epoch_len, give_alike, in_memory, line, on_disk,
    opened, put_epoch, put_text,
};
use disk_model::MemDisk;
use fixtures::{FIRST, FIRST_ID, LATER, MOMENT, OTHER, SECOND, SECOND_ID};
use git_objects::EntryKind;
use std::alloc::Global;
use std::test::Fail;

/// The moment of a command after the others.
const LAST: u64 = MOMENT + 200;

/// The blob id of the mail with another body, as it is kept where its id is free.
const UNCHANGED_ID: &[u8] = b"939be2d6981fbe2900b8283be5936e32bb962cef";

/// Delivers the first mail, removes it and delivers it again, and returns whether all was accepted.
fn stands_in_three<K: Keep>(keep: &mut K) -> Result<bool, OpenRefusal> {
    let came = answer(keep, &Command::Deliver(FIRST), MOMENT)?;
    let went = answer(keep, &Command::Remove(1), LATER)?;
    let again = answer(keep, &Command::Deliver(FIRST), LAST)?;
    let first = accepted(1, FIRST_ID);
    Ok(Some(came) == first && Some(went) == first && Some(again) == accepted(2, FIRST_ID))
}

/// Returns whether an archive has no live number, and gives no text.
fn shows_nothing<K: Keep>(alloc: Global, keep: &mut K) -> Result<bool, Fail> {
    let mut bytes = Bytes::new(alloc);
    let shown = put_text(keep, 0, &mut bytes)?;
    keep.fresh()?;
    let dead = keep.live_from(0).is_none() && keep.live_count(0, 9) == 0;
    Ok(dead && !shown && keep.next_number() == 3)
}

/// Returns whether an archive has no entry, no live number, no text and no blob of the first mail.
fn has_nothing<K: Keep>(alloc: Global, keep: &mut K) -> Result<bool, Fail> {
    let none = line(keep, 0)?.is_none();
    let first = epoch_len(alloc, keep, 0)?.is_none();
    let last = epoch_len(alloc, keep, 2)?.is_none();
    let blob = blob_is(alloc, keep, FIRST_ID, FIRST)?;
    let nothing = shows_nothing(alloc, keep)?;
    Ok(none && first && last && !blob && nothing)
}

/// Purges a text that stands in three epochs, and returns whether nothing of it is left, and the next
/// message gets a number of its own in the first epoch.
fn purges_three<K: Keep>(alloc: Global, keep: &mut K, number: u32) -> Result<bool, Fail> {
    let there = stands_in_three(keep)?;
    let gone = answer(keep, &Command::Purge(number), LAST)?;
    let nothing = has_nothing(alloc, keep)?;
    let refused = answer(keep, &Command::Remove(2), LAST)? == Answer::NotLive(2);
    let none = answer(keep, &Command::Purge(1), LAST)? == Answer::NoText(1);
    let again = answer(keep, &Command::Deliver(FIRST), MOMENT)?;
    let third = Some(again) == accepted(3, FIRST_ID);
    let first = epoch_len(alloc, keep, 0)? == Some(316);
    let named = Some(gone) == accepted(number, FIRST_ID);
    Ok(there && named && nothing && refused && none && third && first)
}

/// The text is purged by its first number.
struct PurgesByFirst;

impl Check for PurgesByFirst {
    fn passes<K: Keep>(alloc: Global, keep: &mut K) -> Result<bool, Fail> {
        purges_three(alloc, keep, 1)
    }
}

/// The text is purged by its second number.
struct PurgesBySecond;

impl Check for PurgesBySecond {
    fn passes<K: Keep>(alloc: Global, keep: &mut K) -> Result<bool, Fail> {
        purges_three(alloc, keep, 2)
    }
}

#[test]
fn a_purge_takes_a_text_from_all_epochs(rt: HostRuntime) -> Result<(), Fail> {
    assert!(rt; both_pass::<PurgesByFirst>(rt.alloc(), 1)?);
    assert!(rt; both_pass::<PurgesBySecond>(rt.alloc(), 1)?);
    Ok(())
}

/// Delivers two messages to one epoch and purges the first, and returns whether all was accepted.
fn purges_first<K: Keep>(keep: &mut K) -> Result<bool, OpenRefusal> {
    let first = answer(keep, &Command::Deliver(FIRST), MOMENT)?;
    let second = answer(keep, &Command::Deliver(SECOND), LATER)?;
    let gone = answer(keep, &Command::Purge(1), LAST)?;
    let one = accepted(1, FIRST_ID);
    Ok(Some(first) == one && Some(second) == accepted(2, SECOND_ID) && Some(gone) == one)
}

/// Returns whether an entry is the message with a number.
fn is_message(entry: Option<EntryLine>, number: u32) -> bool {
    match entry {
        None => false,
        Some(line) => line.kind == EntryKind::Message && line.number == number,
    }
}

/// Appends the first epoch of an archive in memory to which the second message alone was delivered.
fn put_second_alone(alloc: Global, into: &mut Bytes) -> Result<bool, Fail> {
    let mut memory = in_memory(alloc, 5000, 10, false).ok_or("settings")?;
    let kept = answer(&mut memory, &Command::Deliver(SECOND), LATER)?;
    let there = put_epoch(&mut memory, 0, into)?;
    Ok(there && Some(kept) == accepted(1, SECOND_ID))
}

/// Returns whether the first epoch of an archive is that of the second message alone.
fn has_second_alone<K: Keep>(alloc: Global, keep: &mut K) -> Result<bool, Fail> {
    let mut found = Bytes::new(alloc);
    let mut wanted = Bytes::new(alloc);
    let there = put_epoch(keep, 0, &mut found)? && put_second_alone(alloc, &mut wanted)?;
    Ok(there && found.as_slice() == wanted.as_slice())
}

/// After the purge of the first of two messages the second is left alone in an epoch of its own length,
/// in which its commit has no parent.
struct LeavesSecond;

impl Check for LeavesSecond {
    fn passes<K: Keep>(alloc: Global, keep: &mut K) -> Result<bool, Fail> {
        let gone = purges_first(keep)?;
        let alone = line(keep, 1)?.is_none() && is_message(line(keep, 0)?, 2);
        let text = blob_is(alloc, keep, SECOND_ID, SECOND)?;
        let same = has_second_alone(alloc, keep)?;
        Ok(gone && alone && text && same)
    }
}

#[test]
fn commits_after_a_purged_message_are_made_anew(rt: HostRuntime) -> Result<(), Fail> {
    assert!(rt; both_pass::<LeavesSecond>(rt.alloc(), 5000)?);
    Ok(())
}

/// Edits the first message: unchanged, with no field, and one that isn't there; and returns whether each
/// is refused, and the message stays.
fn refuses_edits<K: Keep>(alloc: Global, keep: &mut K) -> Result<bool, Fail> {
    let same = answer(keep, &Command::Edit(1, FIRST), LATER)? == Answer::Duplicate(1);
    let empty = answer(keep, &Command::Edit(1, b""), LATER)? == Answer::NoFields;
    let absent = answer(keep, &Command::Edit(2, OTHER), LATER)? == Answer::NotLive(2);
    let kept = blob_is(alloc, keep, FIRST_ID, FIRST)?;
    Ok(same && empty && absent && kept)
}

/// Edits the first message to one with another body, and returns whether that gets a number of its own,
/// and the first one is gone.
fn edits_first<K: Keep>(keep: &mut K) -> Result<bool, OpenRefusal> {
    let other = Some(answer(keep, &Command::Edit(1, OTHER), LAST)?) == accepted(2, UNCHANGED_ID);
    let gone = answer(keep, &Command::Remove(1), LAST)? == Answer::NotLive(1);
    let alone = line(keep, 1)?.is_none() && is_message(line(keep, 0)?, 2);
    Ok(other && gone && alone)
}

/// A message is edited, after edits that are refused.
struct Edits;

impl Check for Edits {
    fn passes<K: Keep>(alloc: Global, keep: &mut K) -> Result<bool, Fail> {
        let first = Some(answer(keep, &Command::Deliver(FIRST), MOMENT)?) == accepted(1, FIRST_ID);
        let refused = refuses_edits(alloc, keep)?;
        let edited = edits_first(keep)?;
        Ok(first && refused && edited)
    }
}

#[test]
fn an_edit_is_one_command(rt: HostRuntime) -> Result<(), Fail> {
    assert!(rt; both_pass::<Edits>(rt.alloc(), 316)?);
    Ok(())
}

/// Fills an archive to its greatest number, and returns whether an edit is refused, and leaves all.
fn refuses_when_full<K: Keep>(alloc: Global, keep: &mut K) -> Result<bool, Fail> {
    let first = Some(answer(keep, &Command::Deliver(FIRST), MOMENT)?) == accepted(1, FIRST_ID);
    let second = Some(answer(keep, &Command::Deliver(SECOND), MOMENT)?) == accepted(2, SECOND_ID);
    let full = answer(keep, &Command::Edit(1, OTHER), LAST)? == Answer::Full(2);
    let taken = answer(keep, &Command::Edit(1, SECOND), LAST)? == Answer::Duplicate(2);
    let kept = blob_is(alloc, keep, FIRST_ID, FIRST)? && is_message(line(keep, 1)?, 2);
    Ok(first && second && full && taken && kept)
}

#[test]
fn a_refused_edit_leaves_the_archive(rt: HostRuntime) -> Result<(), Fail> {
    let mut memory = in_memory(rt.alloc(), 5000, 2, false).ok_or("settings")?;
    assert!(rt; refuses_when_full(rt.alloc(), &mut memory)?);
    Ok(())
}

/// Returns whether a mirror refuses to purge and to edit.
fn refuses_both<K: Keep>(keep: &mut K) -> Result<bool, OpenRefusal> {
    let purge = answer(keep, &Command::Purge(1), MOMENT)? == Answer::IsMirror;
    let edit = answer(keep, &Command::Edit(1, FIRST), MOMENT)? == Answer::IsMirror;
    Ok(purge && edit)
}

#[test]
fn a_mirror_purges_and_edits_nothing(rt: HostRuntime) -> Result<(), Fail> {
    let mut engine = on_disk(rt.alloc(), 1000, true)?;
    assert!(rt; refuses_both(&mut engine)?);
    Ok(())
}

/// Commands at successive moments: mails come, go, come again, are purged and edited, and are refused.
static COMMANDS: [Command<'static>; 15] = [
    Command::Deliver(FIRST),
    Command::Deliver(SECOND),
    Command::Deliver(OTHER),
    Command::Remove(1),
    Command::Deliver(FIRST),
    Command::Purge(4),
    Command::Purge(1),
    Command::Deliver(FIRST),
    Command::Edit(2, FIRST),
    Command::Edit(2, OTHER),
    Command::Edit(3, SECOND),
    Command::Remove(5),
    Command::Purge(5),
    Command::Purge(9),
    Command::Deliver(SECOND),
];

/// Returns whether two archives have the same entries, live texts and epochs.
fn are_same<K: Keep, L: Keep>(alloc: Global, keep: &mut K, other: &mut L) -> Result<bool, Fail> {
    let mut alike = true;
    for index in 0..9 {
        alike = line(keep, index)? == line(other, index)? && alike;
    }
    Ok(give_alike(alloc, keep, other)? && alike)
}

/// Returns whether two archives answer these commands alike, and have the same entries, texts and
/// epochs after each.
fn answer_alike<K: Keep, L: Keep>(
    alloc: Global,
    keep: &mut K,
    other: &mut L,
) -> Result<bool, Fail> {
    let mut alike = true;
    let mut moment = MOMENT;
    for command in &COMMANDS {
        let found = answer(keep, command, moment)?;
        alike = found == answer(other, command, moment)? && alike;
        alike = are_same(alloc, keep, other)? && alike;
        moment = moment.saturating_add(100);
    }
    Ok(alike)
}

/// Makes an archive on a disk that answers the commands as another one does, and returns the disk, or
/// `None` if it answers or gives something else.
fn alike_on_disk<K: Keep>(alloc: Global, limit: u64, other: &mut K) -> Result<Option<MemDisk>, Fail>
    requires low { 1 ≤ limit }
    requires high { limit ≤ 1099511627776 }
{
    let mut engine = on_disk(alloc, limit, false)?;
    let alike = answer_alike(alloc, &mut engine, other)?;
    Ok(alike.then_some(engine.into_disk()))
}

/// Opens an archive on a disk, and returns whether it is the other one.
fn is_opened_alike<K: Keep>(alloc: Global, disk: MemDisk, other: &mut K) -> Result<bool, Fail> {
    let mut engine = opened(alloc, disk)?;
    are_same(alloc, &mut engine, other)
}

/// Returns whether an archive on a disk does as one in memory, and then is that, also when it is
/// reopened, with epochs of this least length.
fn are_alike(alloc: Global, limit: u64) -> Result<bool, Fail>
    requires low { 1 ≤ limit }
    requires high { limit ≤ 1099511627776 }
{
    let mut memory = in_memory(alloc, limit, 10, false).ok_or("settings")?;
    let disk = alike_on_disk(alloc, limit, &mut memory)?.ok_or("not alike")?;
    is_opened_alike(alloc, disk, &mut memory)
}

#[test]
fn an_engine_purges_as_the_archive_in_memory_does(rt: HostRuntime) -> Result<(), Fail> {
    assert!(rt; are_alike(rt.alloc(), 1)?);
    assert!(rt; are_alike(rt.alloc(), 700)?);
    assert!(rt; are_alike(rt.alloc(), 5000)?);
    Ok(())
}
