//! The group of a session, and what GROUP and LISTGROUP say.
//! Pure.
ghost use Rattle.std.specs.Prelude.{◌≡◌, ◌++◌, true, [], Some, None};
ghost use Rattle.arch_model.specs.Archives.{Archive, live};
ghost use Rattle.edge_io.specs.Phrases.{Says, SaysTo};
ghost use Rattle.wire_replies.specs.Phrases.{words_of};
ghost use Rattle.nntp_reader.specs.Groups.{low, high, group_head, group_line, selected as selected_of, is_group as is_group_of, group_words, group_after, group_list, list_group_words, list_group_after};
ghost use Rattle.shelf_doors.specs.Numbers.{least_live};

use crate::fact::Fact;
use crate::notice::{Notice, say_notice};
use crate::ranges::say_lines;
use arch_model::Shelf;
use edge_io::{Sink, SinkFault};
use nntp_words::Range;
use shelf_doors::live_within;
use wire_replies::{Phrase, send};

/// The greatest number that an article may have.
const GREATEST: u32 = 2_147_483_647;

/// The group of a session.
#[derive(Clone, Copy, Debug, PartialEq, Eq, Drop)]
pub enum Group {
    /// None is selected.
    Unselected,
    /// The archive's group, with the number of the current article or none.
    Selected(Option<u32>),
}

/// Says what GROUP says of a name, and selects the group if it has that name.
pub(crate) fn say_group<S: Shelf, O: Sink>(
    name: &[u8],
    group: &mut Group,
    shelf: &S,
    out: &mut O,
) -> Result<(), SinkFault>
    requires { S.ready shelf.now ≡ true }
    ensures said { (a : Archive) → S.holds shelf.now a
        → SaysTo O.Sink (group_words a name.now) out.old out.new result }
    ensures group { (a : Archive) → S.holds shelf.now a
        → group.new ≡ group_after a group.old name.now }
    ensures sink { O.alike out.old out.new }
{
    if !is_group(name, shelf) {
        return say_notice(Notice::NoSuchGroup, out);
    }
    *group = selected(shelf);
    say_selected(shelf, out)
}

/// Says the group's count and its least and greatest numbers.
fn say_selected<S: Shelf, O: Sink>(shelf: &S, out: &mut O) -> Result<(), SinkFault>
    requires { S.ready shelf.now ≡ true }
    ensures said { (a : Archive) → S.holds shelf.now a
        → SaysTo O.Sink (group_line a []) out.old out.new result }
    ensures sink { O.alike out.old out.new }
{
    send(&head(shelf, b"\r\n"), out)
}

/// Says what LISTGROUP says of a name and a range, and selects the group if it has that name.
pub(crate) fn say_named_list<S: Shelf, O: Sink>(
    name: &[u8],
    range: Range,
    group: &mut Group,
    shelf: &S,
    out: &mut O,
) -> Result<(), SinkFault>
    requires { S.ready shelf.now ≡ true }
    ensures said { (a : Archive) → S.holds shelf.now a
        → SaysTo O.Sink (list_group_words a group.old (Some name.now) range) out.old out.new result }
    ensures group { (a : Archive) → S.holds shelf.now a
        → group.new ≡ list_group_after a group.old (Some name.now) }
    ensures sink { O.alike out.old out.new }
{
    if !is_group(name, shelf) {
        return say_notice(Notice::NoSuchGroup, out);
    }
    *group = selected(shelf);
    say_list(range, shelf, out)
}

/// Says what LISTGROUP says of a range, and selects the selected group again.
pub(crate) fn say_selected_list<S: Shelf, O: Sink>(
    range: Range,
    group: &mut Group,
    shelf: &S,
    out: &mut O,
) -> Result<(), SinkFault>
    requires { S.ready shelf.now ≡ true }
    ensures said { (a : Archive) → S.holds shelf.now a
        → SaysTo O.Sink (list_group_words a group.old None range) out.old out.new result }
    ensures group { (a : Archive) → S.holds shelf.now a
        → group.new ≡ list_group_after a group.old None }
    ensures sink { O.alike out.old out.new }
{
    match *group {
        Group::Unselected => say_notice(Notice::NoGroup, out),
        Group::Selected(_) => {
            *group = selected(shelf);
            say_list(range, shelf, out)
        }
    }
}

/// Says the group's line, and its live numbers in a range.
fn say_list<S: Shelf, O: Sink>(range: Range, shelf: &S, out: &mut O) -> Result<(), SinkFault>
    requires { S.ready shelf.now ≡ true }
    ensures said { (a : Archive) → S.holds shelf.now a
        → SaysTo O.Sink (group_list a range) out.old out.new result }
    ensures sink { O.alike out.old out.new }
{
    let start = head(shelf, b" list follows\r\n");
    say_lines(&start, Fact::Number, range, shelf, out)
}

/// Returns the group's count, its least and greatest numbers and its name, and then the end of the
/// line.
fn head<'a, S: Shelf>(shelf: &'a S, end: &'a [u8]) -> [Phrase<'a>; 9]
    requires { S.ready shelf.now ≡ true }
    ensures { (a : Archive) → S.holds shelf.now a → words_of result ≡ group_head a ++ end.now }
{
    [
        Phrase::Words(b"211 "),
        Phrase::Number(shelf.live_count(1, GREATEST)),
        Phrase::Words(b" "),
        Phrase::Number(u64::from(low_number(shelf))),
        Phrase::Words(b" "),
        Phrase::Number(u64::from(high_number(shelf))),
        Phrase::Words(b" "),
        Phrase::Words(shelf.config().name.as_slice()),
        Phrase::Words(end),
    ]
}

/// Returns the least live number, or the next number if none is live.
pub(crate) fn low_number<S: Shelf>(shelf: &S) -> u32
    requires { S.ready shelf.now ≡ true }
    ensures { (a : Archive) → S.holds shelf.now a → result ≡ low a }
{
    match least(shelf) {
        Some(n) => n,
        None => shelf.next_number(),
    }
}

/// Returns the greatest number so far.
pub(crate) fn high_number<S: Shelf>(shelf: &S) -> u32
    requires { S.ready shelf.now ≡ true }
    ensures { (a : Archive) → S.holds shelf.now a → result ≡ high a }
{
    shelf.next_number().saturating_sub(1)
}

/// Returns the group with its least live number as the current one.
fn selected<S: Shelf>(shelf: &S) -> Group
    requires { S.ready shelf.now ≡ true }
    ensures { (a : Archive) → S.holds shelf.now a → result ≡ selected_of a }
{
    Group::Selected(least(shelf))
}

/// Returns the least live number.
fn least<S: Shelf>(shelf: &S) -> Option<u32>
    requires { S.ready shelf.now ≡ true }
    ensures { (a : Archive) → S.holds shelf.now a → result ≡ least_live (live a.entries) 1 }
{
    live_within(1, u32::MAX, shelf)
}

/// Returns whether the group has this name. Names are compared by their bytes.
fn is_group<S: Shelf>(name: &[u8], shelf: &S) -> bool
    requires { S.ready shelf.now ≡ true }
    ensures { (a : Archive) → S.holds shelf.now a → result ≡ is_group_of a name.now }
{
    name == shelf.config().name.as_slice()
}
