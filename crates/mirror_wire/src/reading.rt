//! Reads lists.
//! Allocates.
ghost use Rattle.mirror_wire.specs.Rules.{IsNext};
ghost use Rattle.mirror_wire.specs.Reading.{ReadsList};
ghost use Rattle.mirror_wire.specs.Checking.{ReadsEntries};

use crate::checking::Checked;
use crate::line_reading::{first_line, read_name, read_next};
use crate::list::{EntryLines, ListRefusal, MirrorList};
use arch_base::Form;
use git_objects::after;
use std::alloc::Global;

/// Returns the list that a text with ids of a form spells.
///
/// `BadList` names the first line, counted from 1, that isn't of the form of lists or may not follow
/// the lines before it. A line without its line feed is bad, and so is the line after the last one
/// if `end` is missing, or if there are bytes after it.
///
/// Takes a number of steps that grows with the length of the text, and with the number of entries
/// times its logarithm: a million lines take about three seconds, and some 200 MB beside their text.
///
/// `NoMemory` if an allocation fails.
pub fn read(alloc: Global, text: &[u8], form: Form) -> Result<MirrorList, ListRefusal>
    ensures exact { ReadsList form text.now result }
{
    let Some(rest) = after(first_line(form), text) else {
        return Err(ListRefusal::BadList(1));
    };
    let Some((name, rest)) = read_name(rest) else {
        return Err(ListRefusal::BadList(2));
    };
    let Some((next, rest)) = read_next(rest) else {
        return Err(ListRefusal::BadList(3));
    };
    let lines = read_entries(alloc, rest, form, next)?;
    Ok(MirrorList { name, next, lines })
}

/// Reads the lines of the entries of a list with a next number, and its line `end`, which end the
/// text.
fn read_entries(
    alloc: Global,
    text: &[u8],
    form: Form,
    next: u32,
) -> Result<EntryLines, ListRefusal>
    requires { IsNext next }
    ensures { ReadsEntries form next text.now result }
{
    let mut checked = Checked::new(alloc, form, next);
    let mut rest = text;
    while let Some((line, more)) = checked.read_next(rest) {
        checked.push(line)?;
        rest = more;
    }
    match after(b"end\n", rest) {
        Some([]) => Ok(checked.into_lines()),
        Some(_) => Err(ListRefusal::BadList(checked.count() + 5)),
        None => Err(ListRefusal::BadList(checked.count() + 4)),
    }
}
