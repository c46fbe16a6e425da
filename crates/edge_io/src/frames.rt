//! The frames in which a replay prints what the events of a script wrote.
//! Allocates.
ghost use Rattle.std.specs.Prelude.{◌≡◌, ◌≤◌, ◌<◌, ◌-◌, ◌++◌, length, true, OnOk, IfOk};
ghost use Rattle.edge_io.specs.Frames.{written, closing, head as head_of, each_from, written_between, closing_between};
ghost use Rattle.edge_io.specs.MemHosts.{outputs_in};
ghost use Rattle.edge_io.specs.ScriptHosts.{marked};

use crate::marks::{Mark, Touched};
use crate::outlets::Outlets;
use arch_base::{Bytes, NoMemory};
use itoa::Buffer;
use std::alloc::Global;

/// Appends what each of some connections took since its mark.
///
/// `NoMemory` may leave a part of it appended.
pub(crate) fn push_all_written(
    alloc: Global,
    frames: &mut Bytes,
    outlets: &Outlets,
    marks: &[Mark],
    touched: Touched,
) -> Result<(), NoMemory>
    requires all { length marks.now ≡ 65536 }
    requires bounded { touched.after ≤ 65536 }
    ensures { OnOk result (frames.new ≡ frames.old
        ++ each_from
        (written_between (marked (outputs_in outlets.now) marks.now) (outputs_in outlets.now))
        touched.first (touched.after - touched.first)) }
{
    for conn in touched.first..touched.after {
        push_taken(alloc, frames, outlets, marks, conn)?;
    }
    Ok(())
}

/// Appends what a connection took since its mark.
///
/// `NoMemory` may leave a part of it appended.
fn push_taken(
    alloc: Global,
    frames: &mut Bytes,
    outlets: &Outlets,
    marks: &[Mark],
    conn: u32,
) -> Result<(), NoMemory>
    requires { conn < length marks.now }
    ensures { OnOk result (frames.new ≡ frames.old
        ++ written_between (marked (outputs_in outlets.now) marks.now) (outputs_in outlets.now) conn) }
{
    let taken = outlets.taken(conn);
    let start = marks[conn as usize].len.min(taken.len());
    push_written(alloc, frames, conn, &taken[start..])
}

/// Appends the lines of those of some connections that were closed since their marks.
///
/// `NoMemory` may leave a part of them appended.
pub(crate) fn push_all_closings(
    alloc: Global,
    frames: &mut Bytes,
    outlets: &Outlets,
    marks: &[Mark],
    touched: Touched,
) -> Result<(), NoMemory>
    requires all { length marks.now ≡ 65536 }
    requires bounded { touched.after ≤ 65536 }
    ensures { OnOk result (frames.new ≡ frames.old
        ++ each_from
        (closing_between (marked (outputs_in outlets.now) marks.now) (outputs_in outlets.now))
        touched.first (touched.after - touched.first)) }
{
    for conn in touched.first..touched.after {
        push_closed(alloc, frames, outlets, marks, conn)?;
    }
    Ok(())
}

/// Appends the line of a connection that was closed since its mark.
///
/// `NoMemory` leaves the frames unchanged.
fn push_closed(
    alloc: Global,
    frames: &mut Bytes,
    outlets: &Outlets,
    marks: &[Mark],
    conn: u32,
) -> Result<(), NoMemory>
    requires { conn < length marks.now }
    ensures { OnOk result (frames.new ≡ frames.old ++ closing_between
        (marked (outputs_in outlets.now) marks.now) (outputs_in outlets.now) conn) }
{
    let closed = marks[conn as usize].closings < outlets.closings(conn);
    push_closing(alloc, frames, conn, closed)
}

/// Appends the bytes that a connection took, after a line with its number and their length.
///
/// `NoMemory` may leave a part of them appended.
pub(crate) fn push_written(
    alloc: Global,
    frames: &mut Bytes,
    conn: u32,
    bytes: &[u8],
) -> Result<(), NoMemory>
    ensures { OnOk result (frames.new ≡ frames.old ++ written conn bytes.now) }
{
    if bytes.is_empty() {
        return Ok(());
    }
    let head = head(alloc, conn, bytes.len())?;
    frames.push_slice(head.as_slice())?;
    frames.push_slice(bytes)?;
    frames.push(b'\n')
}

/// Returns the line before the bytes that a connection took.
fn head(alloc: Global, conn: u32, len: usize) -> Result<Bytes, NoMemory>
    ensures { IfOk result (λ line. line ≡ head_of conn len) }
{
    let mut buffer = Buffer::new();
    let mut line = Bytes::new(alloc);
    line.push_slice(buffer.format(conn).as_bytes())?;
    line.push(b' ')?;
    line.push_slice(buffer.format(len).as_bytes())?;
    line.push(b'\n')?;
    Ok(line)
}

/// Appends the line of a connection that was closed.
///
/// `NoMemory` leaves the frames unchanged.
pub(crate) fn push_closing(
    alloc: Global,
    frames: &mut Bytes,
    conn: u32,
    closed: bool,
) -> Result<(), NoMemory>
    ensures { OnOk result (frames.new ≡ frames.old ++ closing conn closed) }
{
    if !closed {
        return Ok(());
    }
    let line = closed_line(alloc, conn)?;
    frames.push_slice(line.as_slice())
}

/// Returns the line of a connection that was closed.
fn closed_line(alloc: Global, conn: u32) -> Result<Bytes, NoMemory>
    ensures { IfOk result (λ line. line ≡ closing conn true) }
{
    let mut buffer = Buffer::new();
    let mut line = Bytes::new(alloc);
    line.push_slice(buffer.format(conn).as_bytes())?;
    line.push_slice(b" closed\n")?;
    Ok(line)
}
