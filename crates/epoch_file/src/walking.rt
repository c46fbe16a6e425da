//! Walks over an epoch's file.
//! Reads the disk.
ghost use Rattle.std.specs.Prelude.{◌≡◌, ◌+◌, ◌<◌, ◌≤◌, length, min, Err, IfOk};
ghost use Rattle.arch_base.specs.Counts.{RoseIf};
ghost use Rattle.disk_model.specs.Disk.{Image, BothTold, WhereTold, Unchanged, bytes_of};
ghost use Rattle.disk_model.specs.Moments.{LeavesOnly};
ghost use Rattle.epoch_file.specs.Forms.{HaveIdsOf};
ghost use Rattle.epoch_file.specs.Lying.{LieIn};
ghost use Rattle.epoch_file.specs.Walking.{WalksEpoch};
ghost use Rattle.epoch_file.specs.Runs.{OnlyReads, FaultRose, StopRose};
ghost use Rattle.epoch_file.specs.Windows.{IsInsidePart};
ghost use Rattle.epoch_file.specs.Steps.{Brings, BeginsWalk, BeginsAt, BeginsIn, BeginsAfterMagic, HasMagic, WalkGoesOn, WalkMoves, SamePart, TakesEntry, WalkTurns, WantsEntry};

use crate::entry::SeenList;
use crate::reading::read_entry;
use crate::sight::{Sight, after, look};
use crate::state::State;
use crate::window::{Part, Window, piece_room, read_on};
use arch_base::{Form, NoMemory};
use disk_model::{Disk, FileName, WalkRefusal};
use mail_commits::magic;
use std::alloc::Global;

/// Returns the entries in the first `length` bytes of the file of an epoch of a form.
///
/// Each entry has been read, and its bytes are exactly those that its blob's text, its name, its
/// moment and the commit before it make. The bytes after the first `length` don't count.
///
/// The result is `Damaged` exactly if the first `length` bytes are no epoch of this form, of at least
/// one entry. Its offset is that of the first part that isn't there: 0 for the magic, as in a file of
/// the other form, and otherwise that of the first entry. `DiskFault` comes only if a call of the disk
/// failed, and `NoMemory` only if memory runs out.
pub fn walk<D: Disk>(
    alloc: Global,
    disk: &mut D,
    file: FileName,
    length: u64,
    form: Form,
) -> Result<SeenList, WalkRefusal>
    ensures walked { WhereTold (λ k.
        WalksEpoch form length (bytes_of (k file).seen) result) (D.content disk.old) }
    // Also where the disk doesn't tell its content.
    ensures lie { IfOk result (LieIn 0 length) }
    ensures ids { IfOk result (HaveIdsOf form) }
    ensures same { BothTold Unchanged (D.content disk.old) (D.content disk.new) }
    ensures crash { LeavesOnly D.Disk disk.old disk.new (Image (D.content disk.old)) }
    ensures cause { RoseIf (result ≡ Err WalkRefusal.DiskFault) (D.faults disk.old) (D.faults disk.new) }
{
    let mut piece = piece_room(alloc, length)?;
    match begin(alloc, disk, file, length, form, &mut piece) {
        Ok(Some(state)) => go_on(alloc, disk, length, state, &mut piece),
        Ok(None) => Err(WalkRefusal::Damaged { at: 0 }),
        Err(refusal) => Err(refusal),
    }
}

/// Starts a walk after the magic of a form. Returns `None` if the first `count` bytes don't start with
/// it.
fn begin<D: Disk>(
    alloc: Global,
    disk: &mut D,
    file: FileName,
    count: u64,
    form: Form,
    piece: &mut [u8],
) -> Result<Option<State>, WalkRefusal>
    requires room { 8 ≤ length piece.old }
    ensures begins { WhereTold (λ k.
        BeginsWalk form count (bytes_of (k file).seen) result) (D.content disk.old) }
    ensures inside { BeginsIn form file count result }
    ensures reads { OnlyReads D.Disk disk.old disk.new }
    ensures fault { StopRose (D.faults disk.old) (D.faults disk.new) result }
{
    let size = disk.length(file)?;
    let end = size.min(count);
    if end < 8 {
        return Ok(None);
    }
    let part = Part {
        file,
        offset: 0,
        end,
    };
    begin_in(alloc, disk, &part, form, piece)
}

/// Starts a walk over a part at the front of a file.
fn begin_in<D: Disk>(
    alloc: Global,
    disk: &mut D,
    part: &Part,
    form: Form,
    piece: &mut [u8],
) -> Result<Option<State>, WalkRefusal>
    requires room { 8 ≤ length piece.old }
    requires front { part.now.offset ≡ 0 }
    requires some { 8 ≤ part.now.end }
    ensures begins { WhereTold (λ k.
        BeginsAt form part.now.end (bytes_of (k part.now.file).seen) result) (D.content disk.old) }
    ensures inside { BeginsIn form part.now.file part.now.end result }
    ensures reads { OnlyReads D.Disk disk.old disk.new }
    ensures fault { StopRose (D.faults disk.old) (D.faults disk.new) result }
{
    let mut window = Window::new(alloc);
    read_on(alloc, disk, part, &mut window, piece)?;
    Ok(begin_with(alloc, part, window, form))
}

/// Starts a walk with the bytes read from the front of a file.
///
/// Returns `None` if they don't start with the magic.
fn begin_with(alloc: Global, part: &Part, window: Window, form: Form) -> Option<State>
    ensures { BeginsAfterMagic form part.now window result }
{
    let mut window = window;
    if !has_magic(&window, form) {
        return None;
    }
    window.skip(8);
    Some(State {
        part: Part {
            file: part.file,
            offset: 8,
            end: part.end,
        },
        window,
        parent: None,
        seen: SeenList::new(alloc),
        form,
    })
}

/// Returns whether a window starts with the magic of a form.
fn has_magic(window: &Window, form: Form) -> bool
    ensures { HasMagic form window.now result }
{
    after(&magic(form), window.as_slice()).is_some()
}

/// Continues a walk up to the offset `count`.
fn go_on<D: Disk>(
    alloc: Global,
    disk: &mut D,
    count: u64,
    start: State,
    piece: &mut [u8],
) -> Result<SeenList, WalkRefusal>
    requires room { 8 ≤ length piece.old }
    requires inside { IsInsidePart start.part start.window }
    requires end { start.part.end ≤ count }
    requires lie { LieIn 0 start.part.offset start.seen }
    requires ids { HaveIdsOf start.form start.seen }
    ensures lie { IfOk result (LieIn 0 count) }
    ensures ids { IfOk result (HaveIdsOf start.form) }
    ensures walked { WhereTold (λ k.
        WalkGoesOn count (bytes_of (k start.part.file).seen) start result) (D.content disk.old) }
    ensures reads { OnlyReads D.Disk disk.old disk.new }
    ensures fault { FaultRose (D.faults disk.old) (D.faults disk.new) result }
{
    let mut state = start;
    while is_wanted(&state, count) {
        match turn(alloc, disk, &mut state, piece) {
            Ok(true) => {}
            Ok(false) => {
                return Err(WalkRefusal::Damaged {
                    at: state.part.offset,
                });
            }
            Err(refusal) => return Err(refusal),
        }
    }
    Ok(state.seen)
}

/// Returns whether another entry is needed: there is none yet, or more bytes count.
fn is_wanted(state: &State, count: u64) -> bool
    ensures { WantsEntry state.now count result }
{
    state.part.offset != count || state.seen.as_slice().is_empty()
}

/// Takes the next entry of the walk. Returns `false` if there is none.
fn turn<D: Disk>(
    alloc: Global,
    disk: &mut D,
    state: &mut State,
    piece: &mut [u8],
) -> Result<bool, WalkRefusal>
    requires room { 8 ≤ length piece.old }
    requires inside { IsInsidePart state.old.part state.old.window }
    ensures turns { WhereTold (WalkTurns state.old state.new result) (D.content disk.old) }
    ensures moves { WalkMoves state.old state.new result }
    ensures part { SamePart state.old.part state.new.part }
    ensures form { state.new.form ≡ state.old.form }
    ensures reads { OnlyReads D.Disk disk.old disk.new }
    ensures fault { StopRose (D.faults disk.old) (D.faults disk.new) result }
{
    let part = state.part;
    let form = state.form;
    if !bring(alloc, disk, &part, &mut state.window, form, piece)? {
        return Ok(false);
    }
    Ok(take_one(alloc, state)?)
}

/// Takes the entry at the front of the window. Returns `false` if there is none.
fn take_one(alloc: Global, state: &mut State) -> Result<bool, NoMemory>
    requires inside { IsInsidePart state.old.part state.old.window }
    ensures takes { TakesEntry state.old state.new result }
    ensures part { SamePart state.old.part state.new.part }
    ensures form { state.new.form ≡ state.old.form }
{
    let _end = state.part.end; // its range bounds the places
    let found = read_entry(
        alloc,
        state.part.offset,
        state.window.as_slice(),
        state.parent,
        state.form,
    )?;
    match found {
        Some((seen, size)) => {
            state.window.skip(size);
            state.part.offset += size as u64;
            state.parent = Some(seen.commit);
            state.seen.push(seen)?;
            Ok(true)
        }
        None => Ok(false),
    }
}

/// Reads all of the next entry of a form into the window. Returns `false` if there is none.
fn bring<D: Disk>(
    alloc: Global,
    disk: &mut D,
    part: &Part,
    window: &mut Window,
    form: Form,
    piece: &mut [u8],
) -> Result<bool, WalkRefusal>
    requires room { 8 ≤ length piece.old }
    requires inside { IsInsidePart part.now window.old }
    ensures brings { WhereTold (Brings form part.now window.old window.new result) (D.content disk.old) }
    ensures inside { IsInsidePart part.now window.new }
    ensures reads { OnlyReads D.Disk disk.old disk.new }
    ensures fault { StopRose (D.faults disk.old) (D.faults disk.new) result }
{
    loop {
        match look(window.as_slice(), part.end - part.offset, form) {
            Sight::Lacks => return Ok(false),
            Sight::Whole => return Ok(true),
            Sight::Short => {
                if !read_on(alloc, disk, part, window, piece)? {
                    return Ok(false);
                }
            }
        }
    }
}
