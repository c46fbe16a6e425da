//! What ARTICLE, HEAD, BODY, STAT, NEXT and LAST say.
//! Reads the disk.
ghost use Rattle.std.specs.Prelude.{◌≡◌, ◌≤◌, ℕ, List, length, true, false, is_ok, is_some, option_copied};
ghost use Rattle.line_door.specs.Acts.{Acts, held_if, at_sink};
ghost use Rattle.line_door.specs.Readers.{as_said, line_reader};
ghost use Rattle.arch_model.specs.OverShelf.{ShelfKept};
ghost use Rattle.arch_model.specs.Archives.{Archive, live, text_of};
ghost use Rattle.arch_model.specs.Overviews.{id_fact};
ghost use Rattle.arch_model.specs.Shelves.{ReadsOnce};
ghost use Rattle.edge_io.specs.Phrases.{Says, SaysTo};
ghost use Rattle.nntp_reader.specs.Articles.{header_of, part_code, part_of as bytes_of_part, part_words, text_words, row_id, stat_words, chosen_words, group_chosen, step_words, step_after};
ghost use Rattle.nntp_reader.specs.Choices.{choice_of, next_of, previous_of};
ghost use Rattle.nntp_reader.specs.Commands as commands;
ghost use Rattle.nntp_reader.specs.Replies.{in_way};
ghost use Rattle.nntp_reader.specs.Sessions.{article_of, SaysOrNot};

use crate::choice::{Chosen, choose, next, previous};
use crate::group::Group;
use crate::notice::{Notice, say_notice};
use crate::order::Named;
use crate::refusals::REFUSED;
use crate::verb::Part;
use arch_base::Bytes;
use arch_model::{Row, Shelf};
use edge_io::{Sink, SinkFault};
use mail_reader::{body, fields, fields_are_front, own_id};
use shelf_doors::say_unread;
use std::alloc::Global;
use wire_replies::{Phrase, send};

/// Says a part of the named article, or why there is none, or why its text was not read.
///
/// Reads one text at most. The article named by its number, or the current one, is then the current
/// one.
pub(crate) fn say_part<S: Shelf, O: Sink>(
    part: Part,
    article: Named<'_>,
    alloc: Global,
    group: &mut Group,
    shelf: &mut S,
    out: &mut O,
) -> Result<(), SinkFault>
    requires { S.ready shelf.old ≡ true }
    ensures acts { (moment : ℕ) (a : Archive) (rest : List ℕ) → S.holds shelf.old a
        → Acts (λ way. as_said rest
        (in_way moment a group.old (commands.Reads part (article_of article.entry)) way))
        (at_sink O.Sink out.old (S.faults shelf.old))
        (held_if (is_ok result) (line_reader group.new rest)) a
        (at_sink O.Sink out.new (S.faults shelf.new)) }
    ensures unused { (a : Archive) → S.holds shelf.old a
        → is_ok (choice_of a group.old (article_of article.entry)) ≡ false
        → S.faults shelf.new ≡ S.faults shelf.old }
    ensures shelf { ShelfKept S.Shelf shelf.old shelf.new }
    ensures reads { ReadsOnce (S.reads shelf.old) (S.reads shelf.new) }
    ensures sink { O.alike out.old out.new }
{
    match choose(*group, article, shelf) {
        Ok(chosen) => say_chosen(part, chosen, alloc, group, shelf, out),
        Err(refusal) => say_notice(refusal, out),
    }
}

/// Says a part of a live message, or why its text was not read.
fn say_chosen<S: Shelf, O: Sink>(
    part: Part,
    chosen: Chosen,
    alloc: Global,
    group: &mut Group,
    shelf: &mut S,
    out: &mut O,
) -> Result<(), SinkFault>
    requires ready { S.ready shelf.old ≡ true }
    requires live { (a : Archive) → S.holds shelf.old a
        → is_some (text_of (live a.entries) chosen.number) ≡ true }
    ensures said { (a : Archive) → S.holds shelf.old a → SaysOrNot
        (text_words part chosen.shown (text_of (live a.entries) chosen.number)) chosen.after group.old
        (at_sink O.Sink out.old (S.faults shelf.old)) result group.new
        (at_sink O.Sink out.new (S.faults shelf.new)) }
    ensures shelf { ShelfKept S.Shelf shelf.old shelf.new }
    ensures reads { ReadsOnce (S.reads shelf.old) (S.reads shelf.new) }
    ensures sink { O.alike out.old out.new }
{
    let mut text = Bytes::new(alloc);
    match shelf.text(chosen.number, &mut text) {
        Ok(()) => {
            *group = chosen.after;
            say_text(part, chosen.shown, text.as_slice(), out)
        }
        Err(refusal) => say_unread(REFUSED, refusal, out),
    }
}

/// Says a part of a text, for which a number is shown.
fn say_text<O: Sink>(part: Part, shown: u32, text: &[u8], out: &mut O) -> Result<(), SinkFault>
    ensures said { SaysTo O.Sink (part_words part shown text.now) out.old out.new result }
    ensures sink { O.alike out.old out.new }
{
    send(
        &[
            Phrase::Words(code(part)),
            Phrase::Number(u64::from(shown)),
            Phrase::Words(b" "),
            Phrase::Words(id_of(text)),
            Phrase::Words(b"\r\n"),
            Phrase::Block(part_of(part, text)),
            Phrase::Words(b".\r\n"),
        ],
        out,
    )
}

/// Returns the code of a part.
fn code(part: Part) -> &'static [u8]
    ensures { result.now ≡ part_code part }
{
    match part {
        Part::Article => b"220 ",
        Part::Head => b"221 ",
        Part::Body => b"222 ",
    }
}

/// Returns the own id of a text, or nothing if it has none.
#[tactic(auto, unfolding(arch_model::specs::Overviews::id_fact))]
fn id_of(text: &[u8]) -> &[u8]
    ensures { result.now ≡ id_fact text.now }
{
    match own_id(text) {
        Some(id) => id,
        None => b"",
    }
}

/// Returns the bytes of a part of a text.
fn part_of(part: Part, text: &[u8]) -> &[u8]
    ensures { result.now ≡ bytes_of_part part text.now }
{
    match part {
        Part::Article => text,
        Part::Head => header(text),
        Part::Body => body(text),
    }
}

/// Returns the header of a text, without the empty line after it.
fn header(text: &[u8]) -> &[u8]
    ensures { result.now ≡ header_of text.now }
{
    fields_are_front();
    text.split_at(header_len(text)).0
}

/// Returns the length of a text's header, in bytes.
fn header_len(text: &[u8]) -> usize
    ensures value { result ≡ length (header_of text.now) }
    ensures within { result ≤ length text.now }
{
    fields_are_front();
    let mut len: usize = 0;
    for field in fields(text) {
        len += field.whole.len();
    }
    len
}

/// Says the number and the id of the named article, or why there is none.
///
/// The article named by its number, or the current one, is then the current one. Reads no text.
pub(crate) fn say_stat<S: Shelf, O: Sink>(
    article: Named<'_>,
    group: &mut Group,
    shelf: &S,
    out: &mut O,
) -> Result<(), SinkFault>
    requires { S.ready shelf.now ≡ true }
    ensures said { (a : Archive) → S.holds shelf.now a
        → SaysTo O.Sink (chosen_words a (choice_of a group.old (article_of article.entry))) out.old
        out.new result }
    ensures group { (a : Archive) → S.holds shelf.now a
        → group.new ≡ group_chosen group.old (choice_of a group.old (article_of article.entry)) }
    ensures sink { O.alike out.old out.new }
{
    match choose(*group, article, shelf) {
        Ok(chosen) => {
            *group = chosen.after;
            say_number_and_id(chosen.shown, chosen.number, shelf, out)
        }
        Err(refusal) => say_notice(refusal, out),
    }
}

/// Selects the next article and says its number and id, or why there is none.
pub(crate) fn say_next<S: Shelf, O: Sink>(
    group: &mut Group,
    shelf: &S,
    out: &mut O,
) -> Result<(), SinkFault>
    requires { S.ready shelf.now ≡ true }
    ensures said { (a : Archive) → S.holds shelf.now a
        → SaysTo O.Sink (step_words a (next_of a group.old)) out.old out.new result }
    ensures group { (a : Archive) → S.holds shelf.now a
        → group.new ≡ step_after group.old (next_of a group.old) }
    ensures sink { O.alike out.old out.new }
{
    let found = next(*group, shelf);
    say_step(found, group, shelf, out)
}

/// Selects the previous article and says its number and id, or why there is none.
pub(crate) fn say_last<S: Shelf, O: Sink>(
    group: &mut Group,
    shelf: &S,
    out: &mut O,
) -> Result<(), SinkFault>
    requires { S.ready shelf.now ≡ true }
    ensures said { (a : Archive) → S.holds shelf.now a
        → SaysTo O.Sink (step_words a (previous_of a group.old)) out.old out.new result }
    ensures group { (a : Archive) → S.holds shelf.now a
        → group.new ≡ step_after group.old (previous_of a group.old) }
    ensures sink { O.alike out.old out.new }
{
    let found = previous(*group, shelf);
    say_step(found, group, shelf, out)
}

/// Selects a number and says it with its id, or says why there is none.
fn say_step<S: Shelf, O: Sink>(
    found: Result<u32, Notice>,
    group: &mut Group,
    shelf: &S,
    out: &mut O,
) -> Result<(), SinkFault>
    requires { S.ready shelf.now ≡ true }
    ensures said { (a : Archive) → S.holds shelf.now a
        → SaysTo O.Sink (step_words a found) out.old out.new result }
    ensures group { group.new ≡ step_after group.old found }
    ensures sink { O.alike out.old out.new }
{
    match found {
        Ok(n) => {
            *group = Group::Selected(Some(n));
            say_number_and_id(n, n, shelf, out)
        }
        Err(refusal) => say_notice(refusal, out),
    }
}

/// Says a number that is shown, and the id of a message.
fn say_number_and_id<S: Shelf, O: Sink>(
    shown: u32,
    number: u32,
    shelf: &S,
    out: &mut O,
) -> Result<(), SinkFault>
    requires { S.ready shelf.now ≡ true }
    ensures said { (a : Archive) → S.holds shelf.now a
        → SaysTo O.Sink (stat_words a shown number) out.old out.new result }
    ensures sink { O.alike out.old out.new }
{
    send(
        &[
            Phrase::Words(b"223 "),
            Phrase::Number(u64::from(shown)),
            Phrase::Words(b" "),
            Phrase::Words(id_of_row(shelf.row(number))),
            Phrase::Words(b"\r\n"),
        ],
        out,
    )
}

/// Returns the id of a row, or nothing without one.
fn id_of_row(row: Option<&Row>) -> &[u8]
    ensures { result.now ≡ row_id (option_copied row.entry) }
{
    match row {
        Some(row) => row.id.as_slice(),
        None => b"",
    }
}
