//! Archives on disks in memory: what commands are answered, and what is reopened. The ids were worked
//! out by git.
ghost use Rattle.std.specs.Prelude.{◌≤◌, IfOk, OnOk};
ghost use Rattle.disk_model.specs.Disk.{WhereTold};
ghost use Rattle.epoch_store.specs.Commands.{StoreHasSizes};

use arch_model::{Answer, Command};
use archive_core::DiskArchive;
use archive_fixtures::{accepted, in_memory};
use disk_model::{Disk, DiskFault};
use epoch_store::InitRefusal;
use fixtures::{FIRST, FIRST_ID, MOMENT, OTHER, OTHER_ID, SECOND, SECOND_ID, empty_disk, settings};
use mem_archive::MemArchive;
use std::alloc::Global;
use std::test::Fail;

/// Makes an archive on a disk, whose epochs take one message each.
fn made<D: Disk>(
    alloc: Global,
    disk: &mut D,
    max: u32,
    mirror: bool,
) -> Result<DiskArchive, InitRefusal>
    requires some { 1 ≤ max }
    requires few { max ≤ 2147483647 }
    ensures { IfOk result (λ archive. WhereTold (StoreHasSizes archive) (D.content disk.new)) }
{
    match settings(316, max, mirror) {
        None => Err(InitRefusal::NoMemory),
        Some(config) => DiskArchive::init(alloc, disk, &config),
    }
}

/// Returns the answer to the delivery of a message, or that the disk failed.
fn deliver<D: Disk>(
    archive: &mut DiskArchive,
    disk: &mut D,
    bytes: &[u8],
) -> Result<Answer, DiskFault>
    requires sizes { WhereTold (StoreHasSizes archive.old) (D.content disk.old) }
    ensures sizes { OnOk result (WhereTold (StoreHasSizes archive.new) (D.content disk.new)) }
{
    match archive.command(disk, &Command::Deliver(bytes), MOMENT) {
        Answer::DiskFault => Err(DiskFault),
        answer => Ok(answer),
    }
}

/// Returns whether the delivery of a message is answered so.
fn answers<D: Disk>(
    archive: &mut DiskArchive,
    disk: &mut D,
    bytes: &[u8],
    wanted: Option<Answer>,
) -> Result<bool, DiskFault>
    requires sizes { WhereTold (StoreHasSizes archive.old) (D.content disk.old) }
    ensures sizes { OnOk result (WhereTold (StoreHasSizes archive.new) (D.content disk.new)) }
{
    let answer = deliver(archive, disk, bytes)?;
    Ok(Some(answer) == wanted)
}

/// Returns whether an archive has this many messages by each of its counts.
fn has_count(archive: &DiskArchive, count: u32) -> bool {
    let entries = archive.entry_count() == count as u64;
    let live = count == 0 || archive.has_text(1) && archive.has_text(count);
    let next = archive.next_number() == count.saturating_add(1);
    entries && live && next
}

/// Delivers three messages to an empty archive, the first one twice, and returns whether each is
/// answered as it should be.
fn takes_each_once<D: Disk>(archive: &mut DiskArchive, disk: &mut D) -> Result<bool, DiskFault>
    requires sizes { WhereTold (StoreHasSizes archive.old) (D.content disk.old) }
{
    let first = answers(archive, disk, FIRST, accepted(1, FIRST_ID))?;
    let again = answers(archive, disk, FIRST, Some(Answer::Duplicate(1)))?;
    let second = answers(archive, disk, SECOND, accepted(2, SECOND_ID))?;
    let other = answers(archive, disk, OTHER, accepted(3, OTHER_ID))?;
    Ok(first && again && second && other)
}

/// Makes an archive, and returns whether it takes three messages so, and counts them.
fn new_takes_each_once<D: Disk>(alloc: Global, disk: &mut D) -> Result<bool, InitRefusal> {
    let mut archive = made(alloc, disk, 10, false)?;
    let none = has_count(&archive, 0);
    let taken = takes_each_once(&mut archive, disk)?;
    let three = has_count(&archive, 3);
    Ok(none && taken && three && archive.config().max == 10)
}

#[test]
fn a_message_is_taken_once(rt: HostRuntime) -> Result<(), Fail> {
    let alloc = rt.alloc();
    let mut disk = empty_disk(alloc);
    assert!(rt; new_takes_each_once(alloc, &mut disk)?);
    Ok(())
}

/// Makes a mirror, and returns whether it takes no message.
fn mirror_takes_nothing<D: Disk>(alloc: Global, disk: &mut D) -> Result<bool, InitRefusal> {
    let mut mirror = made(alloc, disk, 10, true)?;
    let refused = answers(&mut mirror, disk, FIRST, Some(Answer::IsMirror))?;
    Ok(refused && mirror.entry_count() == 0)
}

#[test]
fn a_mirror_takes_nothing(rt: HostRuntime) -> Result<(), Fail> {
    let alloc = rt.alloc();
    let mut disk = empty_disk(alloc);
    assert!(rt; mirror_takes_nothing(alloc, &mut disk)?);
    Ok(())
}

/// Delivers three messages to an empty archive for one message, and returns whether the second and
/// the third are refused for their causes.
fn takes_one_only<D: Disk>(archive: &mut DiskArchive, disk: &mut D) -> Result<bool, DiskFault>
    requires sizes { WhereTold (StoreHasSizes archive.old) (D.content disk.old) }
{
    let first = answers(archive, disk, FIRST, accepted(1, FIRST_ID))?;
    let second = answers(archive, disk, SECOND, Some(Answer::Full(1)))?;
    let one = archive.entry_count() == 1;
    let empty = answers(archive, disk, b"", Some(Answer::NoFields))?;
    Ok(first && second && one && empty)
}

/// Makes an archive for one message, and returns whether it takes just one.
fn new_takes_one_only<D: Disk>(alloc: Global, disk: &mut D) -> Result<bool, InitRefusal> {
    let mut archive = made(alloc, disk, 1, false)?;
    let one = takes_one_only(&mut archive, disk)?;
    Ok(one)
}

#[test]
fn a_full_archive_takes_nothing(rt: HostRuntime) -> Result<(), Fail> {
    let alloc = rt.alloc();
    let mut disk = empty_disk(alloc);
    assert!(rt; new_takes_one_only(alloc, &mut disk)?);
    Ok(())
}

/// Returns whether messages are answered on a disk as in memory.
fn answers_alike<D: Disk>(
    archive: &mut DiskArchive,
    disk: &mut D,
    memory: &mut MemArchive,
    messages: &[&[u8]],
) -> Result<bool, DiskFault>
    requires sizes { WhereTold (StoreHasSizes archive.old) (D.content disk.old) }
{
    let mut alike = true;
    for bytes in messages {
        match deliver(archive, disk, bytes) {
            Ok(answer) => alike &= answer == memory.command(&Command::Deliver(bytes), MOMENT),
            Err(DiskFault) => return Err(DiskFault),
        }
    }
    Ok(alike)
}

/// Returns whether messages are answered on a disk as by an empty archive in memory for four.
fn answers_as_memory<D: Disk>(
    alloc: Global,
    archive: &mut DiskArchive,
    disk: &mut D,
    messages: &[&[u8]],
) -> Result<bool, DiskFault>
    requires sizes { WhereTold (StoreHasSizes archive.old) (D.content disk.old) }
{
    match in_memory(alloc, 316, 4, false) {
        None => Ok(false),
        Some(mut memory) => answers_alike(archive, disk, &mut memory, messages),
    }
}

/// Messages of which an archive for four takes four.
const MESSAGES: [&[u8]; 8] = [
    OTHER,
    b"",
    FIRST,
    SECOND,
    b"Subject: u\n\nx\n",
    OTHER,
    b"Subject: u\n\nx\n",
    b"Subject: w\n\nx\n",
];

/// Makes an archive for four messages, and returns whether it answers messages as memory does, and
/// takes four of them.
fn new_answers_as_memory<D: Disk>(alloc: Global, disk: &mut D) -> Result<bool, InitRefusal> {
    let mut archive = made(alloc, disk, 4, false)?;
    let alike = answers_as_memory(alloc, &mut archive, disk, &MESSAGES)?;
    Ok(alike && archive.entry_count() == 4)
}

#[test]
fn a_disk_answers_as_memory_does(rt: HostRuntime) -> Result<(), Fail> {
    let alloc = rt.alloc();
    let mut disk = empty_disk(alloc);
    assert!(rt; new_answers_as_memory(alloc, &mut disk)?);
    Ok(())
}

/// Makes an archive of two messages, each in an epoch of its own.
pub(crate) fn filled<D: Disk>(alloc: Global, disk: &mut D) -> Result<DiskArchive, InitRefusal> {
    let mut archive = made(alloc, disk, 10, false)?;
    put(&mut archive, disk, FIRST)?;
    put(&mut archive, disk, SECOND)?;
    Ok(archive)
}

/// Makes an archive of two messages, and returns how many it has.
fn filled_count<D: Disk>(alloc: Global, disk: &mut D) -> Result<u64, InitRefusal> {
    let archive = filled(alloc, disk)?;
    Ok(archive.entry_count())
}

/// Appends a new message to an archive.
fn put<D: Disk>(archive: &mut DiskArchive, disk: &mut D, bytes: &[u8]) -> Result<(), InitRefusal>
    requires sizes { WhereTold (StoreHasSizes archive.old) (D.content disk.old) }
    ensures sizes { OnOk result (WhereTold (StoreHasSizes archive.new) (D.content disk.new)) }
{
    match deliver(archive, disk, bytes) {
        Ok(Answer::Ok { number: _, id: _ }) => Ok(()),
        Ok(_other) => Err(InitRefusal::Exists),
        Err(DiskFault) => Err(InitRefusal::DiskFault),
    }
}

/// Returns whether an archive of two messages that was opened knows them, and takes a third.
fn knows_two<D: Disk>(archive: &mut DiskArchive, disk: &mut D) -> Result<bool, DiskFault>
    requires sizes { WhereTold (StoreHasSizes archive.old) (D.content disk.old) }
{
    let two = has_count(archive, 2);
    let again = answers(archive, disk, SECOND, Some(Answer::Duplicate(2)))?;
    let other = answers(archive, disk, OTHER, accepted(3, OTHER_ID))?;
    Ok(two && again && other)
}

/// Opens the archive of two messages on a disk, and returns whether it knows them.
fn opened_knows_two<D: Disk>(alloc: Global, disk: &mut D) -> Result<bool, Fail> {
    let mut archive = DiskArchive::open(alloc, disk)?;
    let two = knows_two(&mut archive, disk)?;
    Ok(two)
}

#[test]
fn an_archive_that_is_opened_knows_its_messages(rt: HostRuntime) -> Result<(), Fail> {
    let alloc = rt.alloc();
    let mut disk = empty_disk(alloc);
    assert!(rt; filled_count(alloc, &mut disk)? == 2);
    assert!(rt; opened_knows_two(alloc, &mut disk)?);
    Ok(())
}
