//! The page of a thread.
//! Allocates.
ghost use Rattle.std.specs.Prelude.{◌≡◌, ◌++◌, OnOk, IfOk, codes};
ghost use Rattle.std.specs.List.{flat_map};
ghost use Rattle.web_text.specs.Escapes.{escaped};
ghost use Rattle.html_pages.specs.Lines.{indent, thread_line};
ghost use Rattle.html_pages.specs.Pages.{thread_of};

use crate::lines::{end_page, end_title, open_page, push_row};
use crate::thread_line::{ThreadEntry, ThreadLine};
use arch_base::{Bytes, Name, NoMemory};
use mail_forms::Row;
use std::alloc::Global;
use web_text::{push_escaped, push_title};

/// The levels of a thread that are shown by an indent.
const LEVELS: u64 = 40;

/// The indent of the deepest of these levels.
const SPACES: &[u8] =
    b"                                                                                ";

/// Returns the page of a thread.
///
/// `row` is the row of the mail whose subject is the title, and `lines` are the lines of the thread's
/// tree. `NoMemory` if an allocation fails.
#[tactic(auto, unfolding(crate::specs::Pages::thread_of))]
pub fn thread_page(
    alloc: Global,
    name: &Name,
    row: &Row,
    lines: &[ThreadLine<'_>],
) -> Result<Bytes, NoMemory>
    ensures { IfOk result (λ made. made ≡ thread_of name.now row.now lines.now) }
{
    let mut made = Bytes::new(alloc);
    open_page(&mut made)?;
    push_title(alloc, row.subject.as_slice(), &mut made)?;
    end_title(&mut made)?;
    push_lines(alloc, name, lines, &mut made)?;
    end_page(&mut made)?;
    Ok(made)
}

/// Appends the lines of a thread.
fn push_lines(
    alloc: Global,
    name: &Name,
    lines: &[ThreadLine<'_>],
    into: &mut Bytes,
) -> Result<(), NoMemory>
    ensures { OnOk result (into.new
        ≡ into.old ++ flat_map (thread_line name.now) lines.now) }
{
    for line in lines {
        push_line(alloc, name, line, into)?;
    }
    Ok(())
}

/// Appends a line of a thread.
fn push_line(
    alloc: Global,
    name: &Name,
    line: &ThreadLine<'_>,
    into: &mut Bytes,
) -> Result<(), NoMemory>
    ensures { OnOk result (into.new ≡ into.old ++ thread_line name.now line.now) }
{
    push_indent(line.depth, into)?;
    match line.entry {
        ThreadEntry::Mail(row) => push_row(alloc, name, row, into),
        ThreadEntry::Missing(id) => push_missing(alloc, id, into),
    }
}

/// Appends the indent of a line, two spaces for each level, of which 40 are shown.
fn push_indent(depth: u64, into: &mut Bytes) -> Result<(), NoMemory>
    ensures { OnOk result (into.new ≡ into.old ++ indent depth) }
{
    let len = 2 * depth.min(LEVELS) as usize;
    into.push_slice(SPACES.split_at(len).0)
}

/// Appends the line of a mail that the list doesn't have.
fn push_missing(alloc: Global, id: &[u8], into: &mut Bytes) -> Result<(), NoMemory>
    ensures { OnOk result (into.new
        ≡ into.old ++ codes "[not found] " ++ escaped id.now ++ codes "\n") }
{
    into.push_slice(b"[not found] ")?;
    push_escaped(alloc, id, into)?;
    into.push_slice(b"\n")
}
