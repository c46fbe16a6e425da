//! What CAPABILITIES, HELP, LIST, NEWGROUPS and NEWNEWS say.
//! Pure.
ghost use Rattle.std.specs.Prelude.{◌≡◌, ◌++◌, [], true, option_copied, if◌then◌else◌};
ghost use Rattle.arch_model.specs.Archives.{Archive};
ghost use Rattle.edge_io.specs.Phrases.{Says, SaysTo};
ghost use Rattle.wire_replies.specs.Blocks.{block_end};
ghost use Rattle.nntp_reader.specs.Lists.{capabilities_words, help_words, overview_format_words, header_names_words, active_line, times_line, description_line, groups_block, is_listed as is_listed_of, list_words, new_groups_words, new_news_words};

use crate::fact::Fact;
use crate::group::{high_number, low_number};
use crate::ranges::say_lines;
use crate::verb::Listing;
use arch_model::Shelf;
use edge_io::{Sink, SinkFault, say};
use nntp_words::{Range, matches};
use wire_replies::{Phrase, send};

/// The greatest number that an article may have.
const GREATEST: u32 = 2_147_483_647;

/// The line before a list of groups.
const LIST_START: &[u8] = b"215 list follows\r\n";

/// Says what the door can do.
pub(crate) fn say_capabilities<O: Sink>(out: &mut O) -> Result<(), SinkFault>
    ensures said { SaysTo O.Sink capabilities_words out.old out.new result }
    ensures sink { O.alike out.old out.new }
{
    send(
        &[
            Phrase::Words(b"101 capabilities\r\nVERSION 2\r\nREADER\r\n"),
            Phrase::Words(b"LIST ACTIVE ACTIVE.TIMES HEADERS NEWSGROUPS OVERVIEW.FMT\r\n"),
            Phrase::Words(b"OVER MSGID\r\nHDR\r\nNEWNEWS\r\n.\r\n"),
        ],
        out,
    )
}

/// Says where the commands are described.
pub(crate) fn say_help<O: Sink>(out: &mut O) -> Result<(), SinkFault>
    ensures said { SaysTo O.Sink help_words out.old out.new result }
    ensures sink { O.alike out.old out.new }
{
    say(b"100 help\r\nsee RFC 3977\r\n.\r\n", out)
}

/// Says a list of groups that a wildmat matches, or of all groups without one; or a list of fields.
pub(crate) fn say_list<S: Shelf, O: Sink>(
    listing: Listing,
    wildmat: Option<&[u8]>,
    shelf: &S,
    out: &mut O,
) -> Result<(), SinkFault>
    requires { S.ready shelf.now ≡ true }
    ensures said { (a : Archive) → S.holds shelf.now a
        → SaysTo O.Sink (list_words listing (option_copied wildmat.entry) a) out.old out.new result }
    ensures sink { O.alike out.old out.new }
{
    let listed = is_listed(wildmat, shelf);
    match listing {
        Listing::Active => say_active(LIST_START, listed, shelf, out),
        Listing::ActiveTimes => say_times(listed, shelf, out),
        Listing::Newsgroups => say_descriptions(listed, shelf, out),
        Listing::OverviewFormat => say_overview_format(out),
        Listing::Headers => say_header_names(out),
    }
}

/// Returns whether the wildmat matches the name of the group. Without one all names match.
fn is_listed<S: Shelf>(wildmat: Option<&[u8]>, shelf: &S) -> bool
    requires { S.ready shelf.now ≡ true }
    ensures { (a : Archive) → S.holds shelf.now a
        → result ≡ is_listed_of (option_copied wildmat.entry) a.config.name }
{
    match wildmat {
        None => true,
        Some(wildmat) => matches(wildmat, shelf.config().name.as_slice()).unwrap_or(false),
    }
}

/// Says a first line and the group with the numbers of its articles, if it is listed.
fn say_active<'a, S: Shelf, O: Sink>(
    start: &'a [u8],
    listed: bool,
    shelf: &'a S,
    out: &mut O,
) -> Result<(), SinkFault>
    requires { S.ready shelf.now ≡ true }
    ensures said { (a : Archive) → S.holds shelf.now a
        → SaysTo O.Sink (start.now ++ ((if listed then active_line a else []) ++ block_end)) out.old
        out.new result }
    ensures sink { O.alike out.old out.new }
{
    if !listed {
        return send(&[Phrase::Words(start), Phrase::Words(b".\r\n")], out);
    }
    send(
        &[
            Phrase::Words(start),
            Phrase::Words(shelf.config().name.as_slice()),
            Phrase::Words(b" "),
            Phrase::Number(u64::from(high_number(shelf))),
            Phrase::Words(b" "),
            Phrase::Number(u64::from(low_number(shelf))),
            Phrase::Words(b" n\r\n.\r\n"),
        ],
        out,
    )
}

/// Says the list of groups with when they were created.
fn say_times<S: Shelf, O: Sink>(listed: bool, shelf: &S, out: &mut O) -> Result<(), SinkFault>
    requires { S.ready shelf.now ≡ true }
    ensures said { (a : Archive) → S.holds shelf.now a
        → SaysTo O.Sink (groups_block listed (times_line a)) out.old out.new result }
    ensures sink { O.alike out.old out.new }
{
    if !listed {
        return say(b"215 list follows\r\n.\r\n", out);
    }
    send(
        &[
            Phrase::Words(LIST_START),
            Phrase::Words(shelf.config().name.as_slice()),
            Phrase::Words(b" "),
            Phrase::Number(u64::from(shelf.config().born)),
            Phrase::Words(b" piv2\r\n.\r\n"),
        ],
        out,
    )
}

/// Says the list of groups with what they are for.
fn say_descriptions<S: Shelf, O: Sink>(
    listed: bool,
    shelf: &S,
    out: &mut O,
) -> Result<(), SinkFault>
    requires { S.ready shelf.now ≡ true }
    ensures said { (a : Archive) → S.holds shelf.now a
        → SaysTo O.Sink (groups_block listed (description_line a)) out.old out.new result }
    ensures sink { O.alike out.old out.new }
{
    if !listed {
        return say(b"215 list follows\r\n.\r\n", out);
    }
    send(
        &[
            Phrase::Words(LIST_START),
            Phrase::Words(shelf.config().name.as_slice()),
            Phrase::Words(b"\tpublic-inbox archive\r\n.\r\n"),
        ],
        out,
    )
}

/// Says the fields of an overview line, in order.
fn say_overview_format<O: Sink>(out: &mut O) -> Result<(), SinkFault>
    ensures said { SaysTo O.Sink overview_format_words out.old out.new result }
    ensures sink { O.alike out.old out.new }
{
    send(
        &[
            Phrase::Words(b"215 list follows\r\nSubject:\r\nFrom:\r\nDate:\r\n"),
            Phrase::Words(b"Message-ID:\r\nReferences:\r\n:bytes\r\n:lines\r\n.\r\n"),
        ],
        out,
    )
}

/// Says what HDR takes.
fn say_header_names<O: Sink>(out: &mut O) -> Result<(), SinkFault>
    ensures said { SaysTo O.Sink header_names_words out.old out.new result }
    ensures sink { O.alike out.old out.new }
{
    say(b"215 list follows\r\n:\r\n:bytes\r\n:lines\r\n.\r\n", out)
}

/// Says the group if it wasn't created before a moment, in seconds since 1970 UTC.
pub(crate) fn say_new_groups<S: Shelf, O: Sink>(
    moment: u64,
    shelf: &S,
    out: &mut O,
) -> Result<(), SinkFault>
    requires { S.ready shelf.now ≡ true }
    ensures said { (a : Archive) → S.holds shelf.now a
        → SaysTo O.Sink (new_groups_words moment a) out.old out.new result }
    ensures sink { O.alike out.old out.new }
{
    let is_new = moment <= u64::from(shelf.config().born);
    say_active(b"231 list follows\r\n", is_new, shelf, out)
}

/// Says the ids of live messages that arrived at a moment or later, if a wildmat matches the group.
pub(crate) fn say_new_news<S: Shelf, O: Sink>(
    wildmat: &[u8],
    moment: u64,
    shelf: &S,
    out: &mut O,
) -> Result<(), SinkFault>
    requires { S.ready shelf.now ≡ true }
    ensures said { (a : Archive) → S.holds shelf.now a
        → SaysTo O.Sink (new_news_words wildmat.now moment a) out.old out.new result }
    ensures sink { O.alike out.old out.new }
{
    if !is_listed(Some(wildmat), shelf) {
        return say(b"230 list follows\r\n.\r\n", out);
    }
    let all = Range {
        first: 1,
        last: GREATEST,
    };
    let start = [Phrase::Words(b"230 list follows\r\n")];
    say_lines(&start, Fact::ArrivedSince(moment), all, shelf, out)
}
