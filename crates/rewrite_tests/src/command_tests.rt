//! Plans that are carried out on a disk in memory: what is left at each moment, and after a fault of each
//! call.
ghost use Rattle.std.specs.Prelude.{◌≡◌, ◌-◌, ◌*◌, ◌<◌, ◌^◌, IfOk};
ghost use Rattle.disk_model.specs.declared.name.FileKind.TheVariants as kind;
ghost use Rattle.disk_model.specs.Disk.{WhereTold};
ghost use Rattle.disk_model.specs.Sizes.{epoch_count};
ghost use Rattle.root_slots.specs.Valid.{IsRoot};
ghost use Rattle.root_change.specs.Names.{place_of};
ghost use Rattle.root_change.specs.Texts.{HasSizes};
ghost use Rattle.root_change.specs.Rewriting.{IsPlan, no_plan, with_bytes};
ghost use Rattle.rewrite_tests.specs.Bare.{IsBare};

use crate::plan_tests::{bare, carry_out};
use arch_base::Form;
use disk_model::{Disk, DiskFault, FileKind, FileName, FuseDisk, MemDisk, records_size};
use fixtures::empty_disk;
use root_change::{PartPlan, RewriteRefusal, Target, epoch_file, epoch_place, map_file, rewrite};
use root_slots::{Root, Slot, begin, read};
use std::alloc::Global;
use std::process::Abort;
use std::test::Fail;

/// A command on the archive.
#[derive(Clone, Copy, Debug, PartialEq, Eq)]
enum Command {
    /// Appends to the first epoch and to the map.
    Grow,
    /// Appends to an epoch without a file, and to the map.
    Begin,
    /// Writes the first epoch anew, and drops the second.
    Remake,
    /// Writes the first epoch and the map anew, the latter with a record of a SHA-256 id.
    Turn,
}

/// Plans bytes of a part. `DiskFault` if memory runs out.
fn planned(
    alloc: Global,
    kind: FileKind,
    number: u32,
    target: Target,
    bytes: &[u8],
) -> Result<PartPlan, RewriteRefusal>
    ensures plan { IfOk result (λ plan. plan ≡ with_bytes (no_plan kind number target) bytes.now) }
    ensures valid { IfOk result IsPlan }
{
    let mut plan = PartPlan::new(alloc, kind, number, target);
    match plan.push_bytes(bytes) {
        Ok(()) => Ok(plan),
        Err(_) => Err(RewriteRefusal::DiskFault),
    }
}

/// Writes a record and the first two epochs of an archive without messages.
fn fill_bare<D: Disk>(alloc: Global, disk: &mut D, old: &Root) -> Result<Root, RewriteRefusal>
    requires root { IsBare old.now }
    ensures root { IfOk result IsRoot }
    ensures sizes { IfOk result (λ root. WhereTold (HasSizes root) (D.content disk.new)) }
{
    let line = planned(alloc, FileKind::Map, 0, Target::Anew, &[1; 28])?;
    let first = planned(alloc, FileKind::Epoch, 0, Target::Anew, b"abc")?;
    let second = planned(alloc, FileKind::Epoch, 1, Target::Anew, b"de")?;
    carry_out(disk, old, &[line, first, second], 2, Form::Sha1)
}

/// Writes the archive that each command finds, and returns its root.
fn fill<D: Disk>(alloc: Global, disk: &mut D) -> Result<Root, RewriteRefusal>
    ensures root { IfOk result IsRoot }
    ensures sizes { IfOk result (λ root. WhereTold (HasSizes root) (D.content disk.new)) }
{
    let Some(root) = bare() else {
        return Err(RewriteRefusal::DiskFault);
    };
    begin(disk)?;
    fill_bare(alloc, disk, &root)
}

/// Appends bytes to an epoch, and a record to the map.
fn grow<D: Disk>(
    alloc: Global,
    disk: &mut D,
    old: &Root,
    epoch: u32,
    bytes: &[u8],
) -> Result<Root, RewriteRefusal>
    requires root { IsRoot old.now }
    requires later { old.now.sequence < 10 }
    requires number { old.now.next < 10 }
    requires map { old.now.map.length ≡ 28 * (old.now.next - 1) }
    requires epoch { epoch < epoch_count }
    requires room { (place_of old.now kind.Epoch epoch).length < 2 ^ 62 }
    requires sizes { WhereTold (HasSizes old.now) (D.content disk.old) }
{
    let entry = planned(alloc, FileKind::Epoch, epoch, Target::Behind, bytes)?;
    let line = planned(alloc, FileKind::Map, 0, Target::Behind, &[7; 28])?;
    rewrite(
        disk,
        Slot::First,
        old,
        &[entry, line],
        old.next + 1,
        Form::Sha1,
    )
}

/// Writes the first epoch anew, and drops the second.
fn remake<D: Disk>(alloc: Global, disk: &mut D, old: &Root) -> Result<Root, RewriteRefusal>
    requires root { IsRoot old.now }
    requires later { old.now.sequence < 10 }
    requires map { old.now.map.length ≡ 28 * (old.now.next - 1) }
    requires sizes { WhereTold (HasSizes old.now) (D.content disk.old) }
{
    let first = planned(alloc, FileKind::Epoch, 0, Target::Anew, b"new")?;
    let second = PartPlan::new(alloc, FileKind::Epoch, 1, Target::Anew);
    rewrite(
        disk,
        Slot::First,
        old,
        &[first, second],
        old.next,
        Form::Sha1,
    )
}

/// Writes the map anew with one record of a SHA-256 id, and the first epoch, and turns the archive into
/// one of such ids.
fn turn<D: Disk>(alloc: Global, disk: &mut D, old: &Root) -> Result<Root, RewriteRefusal>
    requires root { IsRoot old.now }
    requires later { old.now.sequence < 10 }
    requires number { old.now.next ≡ 2 }
    requires sizes { WhereTold (HasSizes old.now) (D.content disk.old) }
{
    let line = planned(alloc, FileKind::Map, 0, Target::Anew, &[9; 40])?;
    let first = planned(alloc, FileKind::Epoch, 0, Target::Anew, b"turned")?;
    rewrite(
        disk,
        Slot::First,
        old,
        &[line, first],
        old.next,
        Form::Sha256,
    )
}

/// Runs a command.
fn run<D: Disk>(
    alloc: Global,
    disk: &mut D,
    root: &Root,
    command: Command,
) -> Result<Root, RewriteRefusal>
    requires root { IsRoot root.now }
    requires sizes { WhereTold (HasSizes root.now) (D.content disk.old) }
{
    if root.sequence > 9 || root.next > 9 {
        return Err(RewriteRefusal::DiskFault);
    }
    if root.map.length != records_size(root.next - 1, Form::Sha1) {
        return Err(RewriteRefusal::DiskFault);
    }
    if epoch_place(root, 0).length > 9 || epoch_place(root, 2).length > 9 {
        return Err(RewriteRefusal::DiskFault);
    }
    match command {
        Command::Grow => grow(alloc, disk, root, 0, b"fgh"),
        Command::Begin => grow(alloc, disk, root, 2, b"first"),
        Command::Remake => remake(alloc, disk, root),
        Command::Turn if root.next == 2 => turn(alloc, disk, root),
        Command::Turn => Err(RewriteRefusal::DiskFault),
    }
}

/// Returns the sequence and the form of the current root.
fn current<D: Disk>(disk: &mut D) -> Result<(u64, Form), DiskFault> {
    match read(disk) {
        Ok(Some((_, root))) => Ok((root.sequence, root.config.form)),
        _ => Err(DiskFault),
    }
}

/// Returns whether a file starts with these bytes, and ends after them if that is asked.
fn starts(disk: &mut MemDisk, name: FileName, bytes: &[u8], ends: bool) -> Result<bool, DiskFault> {
    let mut buffer = [0; 64];
    let count = disk.read(name, 0, &mut buffer)?;
    Ok(buffer[..count].starts_with(bytes) && (!ends || count == bytes.len()))
}

/// Returns whether the map starts with the first record, and the second one if that is asked.
fn has_map(disk: &mut MemDisk, second: bool, ends: bool) -> Result<bool, DiskFault> {
    let mut records = [1; 56];
    records[28..].copy_from_slice(&[7; 28]);
    let count = if second { 56 } else { 28 };
    starts(disk, map_file(2), &records[..count], ends)
}

/// Returns whether files stand for the archive before a command.
fn is_old(disk: &mut MemDisk) -> Result<bool, DiskFault> {
    let map = has_map(disk, false, false)?;
    let first = starts(disk, epoch_file(0, 2), b"abc", false)?;
    let second = starts(disk, epoch_file(1, 2), b"de", false)?;
    Ok(map && first && second)
}

/// Returns whether the map is that after a command, and ends there if that is asked.
fn has_next_map(disk: &mut MemDisk, command: Command, ends: bool) -> Result<bool, DiskFault> {
    match command {
        Command::Grow | Command::Begin => has_map(disk, true, ends),
        Command::Remake => has_map(disk, false, ends),
        Command::Turn => starts(disk, map_file(3), &[9; 40], ends),
    }
}

/// Returns whether files stand for the archive after a command, and end there if that is asked.
fn is_next(disk: &mut MemDisk, command: Command, ends: bool) -> Result<bool, DiskFault> {
    let map = has_next_map(disk, command, ends)?;
    let first = match command {
        Command::Grow => starts(disk, epoch_file(0, 2), b"abcfgh", ends)?,
        Command::Begin => starts(disk, epoch_file(2, 3), b"first", ends)?,
        Command::Remake => starts(disk, epoch_file(0, 3), b"new", ends)?,
        Command::Turn => starts(disk, epoch_file(0, 3), b"turned", ends)?,
    };
    let second = match command {
        Command::Remake => starts(disk, epoch_file(1, 2), b"", ends)?,
        _ => starts(disk, epoch_file(1, 2), b"de", ends)?,
    };
    Ok(map && first && second)
}

/// Returns the form of the archive after a command.
fn form_after(command: Command) -> Form {
    match command {
        Command::Grow | Command::Begin | Command::Remake => Form::Sha1,
        Command::Turn => Form::Sha256,
    }
}

/// Returns whether files stand for the archive after a command, or before it if it isn't done.
fn is_either(disk: &mut MemDisk, command: Command, done: bool) -> Result<bool, DiskFault> {
    let (sequence, form) = current(disk)?;
    match sequence {
        2 => Ok(!done && form == Form::Sha1 && is_old(disk)?),
        3 => Ok(form == form_after(command) && is_next(disk, command, false)?),
        _ => Ok(false),
    }
}

/// Returns the number of files.
fn count_files<D: Disk>(disk: &mut D) -> Result<u64, DiskFault> {
    for index in 0..9 {
        if disk.name_at(index)?.is_none() {
            return Ok(index);
        }
    }
    Err(DiskFault)
}

/// Returns whether a disk is exactly that of the archive after a command.
fn is_exact(disk: &mut MemDisk, command: Command) -> Result<bool, DiskFault> {
    let files = match command {
        Command::Grow | Command::Turn => 4,
        Command::Begin => 5,
        Command::Remake => 3,
    };
    Ok(is_next(disk, command, true)? && count_files(disk)? == files)
}

/// A disk on which a command was stopped, its number of moments before the command, and whether the
/// command finished.
#[derive(Drop)]
struct Stopped {
    disk: MemDisk,
    start: u64,
    done: bool,
}

/// Runs a command that is stopped after so many calls.
fn stop(alloc: Global, command: Command, passes: u64) -> Result<Stopped, RewriteRefusal> {
    let mut disk = empty_disk(alloc);
    let root = fill(alloc, &mut disk)?;
    let start = disk.moments();
    let mut fuse = FuseDisk::new(disk, passes);
    let done = run(alloc, &mut fuse, &root, command).is_ok();
    Ok(Stopped {
        disk: fuse.into_inner(),
        start,
        done,
    })
}

/// Returns whether a crash at a moment leaves the archive before a command or after it.
fn leaves_either(
    disk: &MemDisk,
    (at, pick): (u64, u64),
    command: Command,
    done: bool,
) -> Result<bool, Fail> {
    if at > disk.moments() || pick > 3 {
        return Ok(false);
    }
    let mut image = disk.image(at, pick)?;
    Ok(is_either(&mut image, command, done)?)
}

/// Checks each image since a command began. At the last moment the command may be done.
fn look(rt: &impl Abort, stopped: &Stopped, command: Command) -> Result<(), Fail> {
    let end = stopped.disk.moments();
    for at in stopped.start..=end {
        let done = stopped.done && at == end;
        for pick in 0..4 {
            assert!(rt;
                leaves_either(&stopped.disk, (at, pick), command, done)?,
                "{command:?}, moment {at}, pick {pick}"
            );
        }
    }
    Ok(())
}

/// Stops a command after each number of calls, and checks that it takes `last` calls.
fn stop_each(rt: &impl Abort, alloc: Global, command: Command, last: u64) -> Result<(), Fail> {
    for passes in 0..=last {
        let mut stopped = stop(alloc, command, passes)?;
        assert_eq!(rt; stopped.done, passes == last);
        look(rt, &stopped, command)?;
        assert!(rt; !stopped.done || is_exact(&mut stopped.disk, command)?);
    }
    Ok(())
}

#[test]
fn an_epoch_grows_or_stays(rt: HostRuntime) -> Result<(), Fail> {
    // The calls are two writes, a sync, the six calls of a commit, and a sync.
    stop_each(&rt, rt.alloc(), Command::Grow, 10)
}

#[test]
fn an_epoch_gets_its_first_file_or_none(rt: HostRuntime) -> Result<(), Fail> {
    stop_each(&rt, rt.alloc(), Command::Begin, 10)
}

#[test]
fn an_epoch_is_written_anew_and_another_one_dropped(rt: HostRuntime) -> Result<(), Fail> {
    // The calls are a write, a sync, the six calls of a commit, two removals, and a sync.
    stop_each(&rt, rt.alloc(), Command::Remake, 11)
}

#[test]
fn an_archive_is_turned_into_one_of_the_other_form_or_stays(rt: HostRuntime) -> Result<(), Fail> {
    // The calls are two writes, a sync, the six calls of a commit, two removals, and a sync.
    stop_each(&rt, rt.alloc(), Command::Turn, 12)
}
