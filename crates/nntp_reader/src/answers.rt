//! Answers a command.
//! Reads the disk.
ghost use Rattle.std.specs.Prelude.{◌≡◌, ◌≤◌, ℕ, List, true, false};
ghost use Rattle.arch_base.specs.Moments.{last_moment};
ghost use Rattle.line_door.specs.Acts.{Acts, held_if, at_sink};
ghost use Rattle.line_door.specs.Readers.{as_said, line_reader};
ghost use Rattle.arch_model.specs.OverShelf.{ShelfKept};
ghost use Rattle.arch_model.specs.Archives.{Archive};
ghost use Rattle.arch_model.specs.Next.{continues};
ghost use Rattle.arch_model.specs.Shelves.{ReadsIn};
ghost use Rattle.nntp_reader.specs.Replies.{in_way, reads_text, header_reads};
ghost use Rattle.nntp_reader.specs.Commands as commands;
ghost use Rattle.nntp_reader.specs.Counting.{command_texts, header_texts};
ghost use Rattle.nntp_reader.specs.Sessions.{articles_of, header_of, meant};

use crate::articles::{say_last, say_next, say_part, say_stat};
use crate::fact::Fact;
use crate::field::say_field;
use crate::group::{Group, say_group, say_named_list, say_selected_list};
use crate::header::say_facts;
use crate::lists::{say_capabilities, say_help, say_list, say_new_groups, say_new_news};
use crate::moments::say_date;
use crate::notice::{Notice, say_notice};
use crate::order::{Asked, Order, Span};
use arch_model::{Next, Shelf};
use edge_io::Sink;
use std::alloc::Global;
use wire_replies::Phrase;

/// The line before overview lines.
const OVER_START: &[Phrase<'static>] = &[Phrase::Words(b"224 overview follows\r\n")];

/// The line before the values of HDR.
const HEADER_START: &[Phrase<'static>] = &[Phrase::Words(b"225 headers follow\r\n")];

/// Answers a command at a moment, and returns whether the session continues.
///
/// It closes after QUIT, if a send is lost, and if a streamed reply stops.
pub(crate) fn say_order<S: Shelf, O: Sink>(
    order: Order<'_>,
    moment: u64,
    alloc: Global,
    group: &mut Group,
    shelf: &mut S,
    out: &mut O,
) -> Next
    requires ready { S.ready shelf.old ≡ true }
    requires moment { moment ≤ last_moment }
    ensures acts { (a : Archive) (rest : List ℕ) → S.holds shelf.old a
        → Acts (λ way. as_said rest (in_way moment a group.old (meant order.entry) way))
        (at_sink O.Sink out.old (S.faults shelf.old))
        (held_if (continues result) (line_reader group.new rest)) a
        (at_sink O.Sink out.new (S.faults shelf.new)) }
    ensures unused { (a : Archive) → S.holds shelf.old a
        → reads_text a group.old (meant order.entry) ≡ false
        → S.faults shelf.new ≡ S.faults shelf.old }
    ensures shelf { ShelfKept S.Shelf shelf.old shelf.new }
    ensures reads { ReadsIn S.holds (λ a. command_texts a (meant order.entry)) shelf.old
        (S.reads shelf.old) (S.reads shelf.new) }
    ensures sink { O.alike out.old out.new }
{
    match order {
        Order::Quit => {
            let _ = say_notice(Notice::Bye, out);
            Next::Close
        }
        Order::Read(part, article) => {
            Next::after(say_part(part, article, alloc, group, shelf, out))
        }
        Order::Header(header, articles) => {
            say_header(header, articles, alloc, *group, shelf, out)
        }
        Order::Capabilities => Next::after(say_capabilities(out)),
        Order::ModeReader => Next::after(say_notice(Notice::ReadOnly, out)),
        Order::Date => Next::after(say_date(moment, out)),
        Order::Help => Next::after(say_help(out)),
        Order::Post => Next::after(say_notice(Notice::NoPosting, out)),
        Order::Next => Next::after(say_next(group, shelf, out)),
        Order::Last => Next::after(say_last(group, shelf, out)),
        Order::Group(name) => Next::after(say_group(name, group, shelf, out)),
        Order::ListSelected(range) => Next::after(say_selected_list(range, group, shelf, out)),
        Order::ListGroup(name, range) => {
            Next::after(say_named_list(name, range, group, shelf, out))
        }
        Order::Stat(article) => Next::after(say_stat(article, group, shelf, out)),
        Order::Over(articles) => {
            Next::after(say_facts(OVER_START, Fact::Overview, articles, *group, shelf, out))
        }
        Order::List(listing) => Next::after(say_list(listing, None, shelf, out)),
        Order::ListMatching(listing, wildmat) => {
            Next::after(say_list(listing, Some(wildmat), shelf, out))
        }
        Order::NewGroups(since) => Next::after(say_new_groups(since, shelf, out)),
        Order::NewNews(wildmat, since) => Next::after(say_new_news(wildmat, since, shelf, out)),
        Order::Mistaken => Next::after(say_notice(Notice::Syntax, out)),
        Order::Unknown => Next::after(say_notice(Notice::Unknown, out)),
    }
}

/// Says a header of the named articles, or why there are none, and returns whether the session
/// continues.
fn say_header<S: Shelf, O: Sink>(
    header: Asked<'_>,
    articles: Span<'_>,
    alloc: Global,
    group: Group,
    shelf: &mut S,
    out: &mut O,
) -> Next
    requires { S.ready shelf.old ≡ true }
    ensures acts { (moment : ℕ) (a : Archive) (rest : List ℕ) → S.holds shelf.old a
        → Acts (λ way. as_said rest (in_way moment a group
        (commands.Headers (header_of header.entry) (articles_of articles.entry)) way))
        (at_sink O.Sink out.old (S.faults shelf.old))
        (held_if (continues result) (line_reader group rest)) a
        (at_sink O.Sink out.new (S.faults shelf.new)) }
    ensures unused { (a : Archive) → S.holds shelf.old a
        → header_reads a group (header_of header.entry) (articles_of articles.entry) ≡ false
        → S.faults shelf.new ≡ S.faults shelf.old }
    ensures shelf { ShelfKept S.Shelf shelf.old shelf.new }
    ensures reads { ReadsIn S.holds
        (λ a. header_texts a (header_of header.entry) (articles_of articles.entry)) shelf.old
        (S.reads shelf.old) (S.reads shelf.new) }
    ensures sink { O.alike out.old out.new }
{
    match header {
        Asked::Bytes => {
            Next::after(say_facts(HEADER_START, Fact::Bytes, articles, group, shelf, out))
        }
        Asked::Lines => {
            Next::after(say_facts(HEADER_START, Fact::Lines, articles, group, shelf, out))
        }
        Asked::Field(name) => say_field(name, articles, alloc, group, shelf, out),
    }
}
