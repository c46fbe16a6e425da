//! Deliveries in memory, answer by answer, against texts and ids worked out by hand and by git.
use arch_base::{Bytes, Config, Form, NoMemory};
use arch_judge::{Index, Judgement, Owner, Verdict, compared, judge};
use arch_model::{Answer, Command};
use archive_fixtures::{accepted, in_memory, two_in_memory};
use fixtures::{FIRST, FIRST_ID, MOMENT, OTHER, OTHER_ID, SECOND, settings};
use git_objects::blob_id;
use mail_reader::content_id;
use mem_archive::MemArchive;
use std::alloc::Global;
use std::test::Fail;

/// Delivers a message, and returns the answer.
fn deliver(archive: &mut MemArchive, bytes: &[u8]) -> Answer {
    archive.command(&Command::Deliver(bytes), MOMENT)
}

/// Returns whether the delivery of a message gets this answer.
fn answers_so(archive: &mut MemArchive, bytes: &[u8], wanted: Option<Answer>) -> bool {
    Some(deliver(archive, bytes)) == wanted
}

/// Returns whether another mail with a taken id is kept under a made id, and both are then
/// duplicates.
fn takes_two_of_an_id(archive: &mut MemArchive) -> bool {
    let first = accepted(1, FIRST_ID);
    let other = accepted(2, OTHER_ID);
    let one = answers_so(archive, FIRST, first);
    let one_again = answers_so(archive, FIRST, Some(Answer::Duplicate(1)));
    let two = answers_so(archive, OTHER, other);
    let two_again = answers_so(archive, OTHER, Some(Answer::Duplicate(2)));
    one && one_again && two && two_again
}

#[test]
fn a_taken_id_gives_way_to_a_made_one(rt: HostRuntime) -> Result<(), Fail> {
    let mut archive = in_memory(rt.alloc(), 1000, 10, false).ok_or("settings")?;
    assert!(rt; takes_two_of_an_id(&mut archive));
    Ok(())
}

/// A mail whose id is the first id made for another mail.
const TAKEN: &[u8] =
    b"Subject: v\nMessage-ID: <a8f4aef97c4217e79c7ac7c8d9fa4cba3317bffd.0@list.invalid>\n\nx\n";

/// The text of that other mail, with the second id made for it.
const MADE: &[u8] =
    b"Message-ID: <a8f4aef97c4217e79c7ac7c8d9fa4cba3317bffd.1@list.invalid>\nSubject: u\n\nx\n";

/// Returns whether a mail without an id, whose first made id is taken, is kept under the next one.
fn takes_the_next_made_id(archive: &mut MemArchive) -> bool {
    let taken = accepted(1, b"2fd7988ae8d54e85a7b575f5ccd453aec2207364");
    let made = accepted(2, b"e30b50cddbd8790b5f73f4eb6fe526a4c7f12274");
    let one = answers_so(archive, TAKEN, taken);
    let two = answers_so(archive, b"Subject: u\n\nx\n", made);
    one && two && archive.text(2) == Some(MADE)
}

#[test]
fn a_taken_made_id_gives_way_to_the_next(rt: HostRuntime) -> Result<(), Fail> {
    let mut archive = in_memory(rt.alloc(), 1000, 10, false).ok_or("settings")?;
    assert!(rt; takes_the_next_made_id(&mut archive));
    Ok(())
}

/// Creates an index of one message, `FIRST`, under the number 1.
fn index_of_first(alloc: Global) -> Option<Index> {
    let mut index = Index::new(alloc);
    let id = Vec::from_slice(alloc, b"<a@x>").ok()?;
    let owner = Owner {
        number: 1,
        content: content_id(FIRST),
    };
    index.insert(id, blob_id(FIRST, Form::Sha1), owner).ok()?;
    Some(index)
}

/// Returns whether an index finds `FIRST`, and not `SECOND`.
fn finds_first_alone(index: &Index) -> bool {
    let by_id = matches!(index.owner(b"<a@x>"), Some(Owner { number: 1, .. }));
    let other_id = index.owner(b"<b@x>").is_none();
    let by_blob = index.number(&blob_id(FIRST, Form::Sha1)) == Some(1);
    let other_blob = index.number(&blob_id(SECOND, Form::Sha1)).is_none();
    by_id && other_id && by_blob && other_blob
}

/// Returns the refusal of a message, or `None` if it is to be kept or compared.
fn refusal(
    alloc: Global,
    config: &Config,
    index: &Index,
    next: u32,
    bytes: &[u8],
) -> Option<Answer> {
    match judge(alloc, config, index, next, bytes) {
        Judgement::Final(Verdict::Refuse(answer)) => Some(answer),
        Judgement::Final(Verdict::Take { .. }) | Judgement::Compare { .. } => None,
    }
}

/// Returns whether `SECOND` is to be kept unchanged under the number 2.
fn takes_second(alloc: Global, config: &Config, index: &Index) -> bool {
    match judge(alloc, config, index, 2, SECOND) {
        Judgement::Final(Verdict::Refuse(_)) | Judgement::Compare { .. } => false,
        Judgement::Final(Verdict::Take { text, ids, number }) => {
            let known = ids.blob == blob_id(SECOND, Form::Sha1)
                && ids.content == content_id(SECOND);
            text.as_slice() == SECOND && known && number == 2
        }
    }
}

/// Returns whether messages are judged by an index of `FIRST`.
fn judges_by(alloc: Global, config: &Config, index: &Index) -> bool {
    let again = refusal(alloc, config, index, 2, FIRST) == Some(Answer::Duplicate(1));
    let full = refusal(alloc, config, index, 3, SECOND) == Some(Answer::Full(2));
    let taken = takes_second(alloc, config, index);
    again && full && taken
}

/// Returns whether an index of `FIRST` finds that alone, and messages are judged by it.
fn finds_and_judges(alloc: Global) -> Option<bool> {
    let settings = settings(1000, 2, false)?;
    let index = index_of_first(alloc)?;
    Some(finds_first_alone(&index) && judges_by(alloc, &settings, &index))
}

#[test]
fn a_delivery_is_judged_by_an_index(rt: HostRuntime) {
    assert!(rt; finds_and_judges(rt.alloc()) == Some(true));
}

/// Returns the verdict on `FIRST` after it was compared with a text that was kept under the number of
/// its blob id, or `None` if it is not to be compared.
fn verdict_beside(
    alloc: Global,
    config: &Config,
    index: &Index,
    next: u32,
    kept: &[u8],
) -> Option<Verdict> {
    match judge(alloc, config, index, next, FIRST) {
        Judgement::Final(_) => None,
        Judgement::Compare { text, ids, number } => {
            Some(compared(config, next, text, ids, number, kept))
        }
    }
}

/// Returns whether `FIRST`, whose blob id an index has and whose own id it lost, is to be kept beside
/// the same text, and collides with another.
fn compares(alloc: Global, config: &Config, index: &Index) -> bool {
    let same = matches!(
        verdict_beside(alloc, config, index, 2, FIRST),
        Some(Verdict::Take { number: 2, .. })
    );
    let other = matches!(
        verdict_beside(alloc, config, index, 2, SECOND),
        Some(Verdict::Refuse(Answer::Collision(1)))
    );
    let full = matches!(
        verdict_beside(alloc, config, index, 3, FIRST),
        Some(Verdict::Refuse(Answer::Full(2)))
    );
    same && other && full
}

/// Returns whether an index of `FIRST` that lost its own id compares so.
fn compares_removed(alloc: Global) -> Option<bool> {
    let settings = settings(1000, 2, false)?;
    let mut index = index_of_first(alloc)?;
    index.remove(b"<a@x>");
    Some(compares(alloc, &settings, &index))
}

#[test]
fn a_removed_text_is_compared_before_it_is_judged(rt: HostRuntime) {
    assert!(rt; compares_removed(rt.alloc()) == Some(true));
}

/// Returns whether an archive with room for one message refuses others, each for its first cause,
/// and keeps the one.
fn refuses_in_order(archive: &mut MemArchive) -> bool {
    let _ = deliver(archive, FIRST);
    let empty = answers_so(archive, b"", Some(Answer::NoFields));
    let again = answers_so(archive, FIRST, Some(Answer::Duplicate(1)));
    let full = answers_so(archive, SECOND, Some(Answer::Full(1)));
    let kept = archive.text(1) == Some(FIRST) && archive.text(2).is_none();
    empty && again && full && kept
}

#[test]
fn refusals_come_in_their_order(rt: HostRuntime) -> Result<(), Fail> {
    let mut archive = in_memory(rt.alloc(), 1000, 1, false).ok_or("settings")?;
    assert!(rt; refuses_in_order(&mut archive));
    Ok(())
}

#[test]
fn a_mirror_takes_no_delivery(rt: HostRuntime) -> Result<(), Fail> {
    let mut archive = in_memory(rt.alloc(), 1000, 1, true).ok_or("settings")?;
    assert!(rt; answers_so(&mut archive, FIRST, Some(Answer::IsMirror)));
    Ok(())
}

/// Returns the length of an epoch in bytes, or `None` if it has no entry.
fn epoch_len(alloc: Global, archive: &MemArchive, epoch: u32) -> Result<Option<usize>, NoMemory> {
    let mut bytes = Bytes::new(alloc);
    let found = archive.push_epoch(epoch, &mut bytes)?;
    Ok(found.then_some(bytes.as_slice().len()))
}

/// Returns whether the first three epochs have these lengths.
fn has_epochs(
    alloc: Global,
    archive: &MemArchive,
    lengths: &[Option<usize>; 3],
) -> Result<bool, NoMemory> {
    let zero = epoch_len(alloc, archive, 0)?;
    let one = epoch_len(alloc, archive, 1)?;
    let two = epoch_len(alloc, archive, 2)?;
    Ok([zero, one, two] == *lengths)
}

#[test]
fn an_epoch_of_the_limit_takes_no_more(rt: HostRuntime) -> Result<(), Fail> {
    let archive = two_in_memory(rt.alloc(), 316).ok_or("settings")?;
    assert!(rt; has_epochs(rt.alloc(), &archive, &[Some(316), Some(316), None])?);
    Ok(())
}

#[test]
fn an_epoch_below_the_limit_takes_one_more(rt: HostRuntime) -> Result<(), Fail> {
    let archive = two_in_memory(rt.alloc(), 317).ok_or("settings")?;
    assert!(rt; has_epochs(rt.alloc(), &archive, &[Some(672), None, None])?);
    Ok(())
}
