//! What OVER says, and HDR of what rows have.
//! Pure.
ghost use Rattle.std.specs.Prelude.{◌≡◌, ◌++◌, true};
ghost use Rattle.arch_model.specs.Archives.{Archive, live};
ghost use Rattle.arch_model.specs.Listings.{row_in};
ghost use Rattle.edge_io.specs.Phrases.{Says, SaysTo};
ghost use Rattle.wire_replies.specs.Blocks.{block_end};
ghost use Rattle.wire_replies.specs.Phrases.{words_of};
ghost use Rattle.nntp_reader.specs.Facts.{fact_line};
ghost use Rattle.nntp_reader.specs.Headers.{facts_words};
ghost use Rattle.nntp_reader.specs.Sessions.{articles_of};

use crate::choice::{Chosen, choose, range_start};
use crate::fact::{Fact, push_fact};
use crate::group::Group;
use crate::notice::say_notice;
use crate::order::Span;
use crate::ranges::say_lines;
use arch_model::Shelf;
use edge_io::{Sink, SinkFault};
use wire_replies::{Phrase, Waiting};

/// Says a first line and what rows give of the named articles, or why there are none.
///
/// Reads no text.
pub(crate) fn say_facts<S: Shelf, O: Sink>(
    start: &[Phrase<'_>],
    fact: Fact,
    articles: Span<'_>,
    group: Group,
    shelf: &S,
    out: &mut O,
) -> Result<(), SinkFault>
    requires { S.ready shelf.now ≡ true }
    ensures said { (a : Archive) → S.holds shelf.now a
        → SaysTo O.Sink (facts_words (words_of start.now) fact a group (articles_of articles.entry))
        out.old out.new result }
    ensures sink { O.alike out.old out.new }
{
    match articles {
        Span::Single(article) => match choose(group, article, shelf) {
            Ok(chosen) => say_single(start, fact, chosen, shelf, out),
            Err(refusal) => say_notice(refusal, out),
        },
        Span::Within(range) => match range_start(group, range, shelf) {
            Ok(_) => say_lines(start, fact, range, shelf, out),
            Err(refusal) => say_notice(refusal, out),
        },
    }
}

/// Says a first line and what the row of a message gives.
fn say_single<S: Shelf, O: Sink>(
    start: &[Phrase<'_>],
    fact: Fact,
    chosen: Chosen,
    shelf: &S,
    out: &mut O,
) -> Result<(), SinkFault>
    requires { S.ready shelf.now ≡ true }
    ensures said { (a : Archive) → S.holds shelf.now a → SaysTo O.Sink (words_of start.now
        ++ (fact_line fact chosen.shown (row_in a.config.form (live a.entries) chosen.number) ++ block_end))
        out.old out.new result }
    ensures sink { O.alike out.old out.new }
{
    let mut reply = Waiting::new();
    reply.push(start, out)?;
    push_fact(fact, chosen.shown, chosen.number, shelf, &mut reply, out)?;
    reply.finish(&[Phrase::Words(b".\r\n")], out)
}
