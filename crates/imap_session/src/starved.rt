//! What is said where no memory is left for the last octets of a command.
//! Allocates.
ghost use Rattle.std.specs.Prelude.{◌≡◌, ◌++◌, ℕ};
ghost use Rattle.arch_model.specs.Archives.{Archive};
ghost use Rattle.arch_model.specs.Next.{continues};
ghost use Rattle.line_door.specs.Acts.{Acts, held_if, at_sink};
ghost use Rattle.imap_states.specs.declared.state.ImapState.{ImapState};
ghost use Rattle.imap_commands.specs.Laws as laws;
ghost use Rattle.imap_commands.specs.Replies.{command_said};
ghost use Rattle.imap_session.specs.Tags as tags;

use arch_model::Next;
use edge_io::Sink;
use imap_states::say_bye_memory;
use imap_words::{Cursor, Kind};
use std::alloc::Global;
use wire_replies::{Phrase, send};

/// The front of a command in two slices: its tag, and what follows it. Either may stand in both.
#[derive(Clone, Copy, Drop)]
struct TagParts<'a> {
    tag: &'a [u8],
    more: &'a [u8],
    behind: &'a [u8],
    rest: &'a [u8],
}

/// Says that memory ran out for a whole command, of which the first octets are held. Returns whether the
/// session continues.
///
/// It is said after the tag, if that is readable. Else it closes the session. Needs no memory.
pub(crate) fn say_starved<O: Sink>(alloc: Global, held: &[u8], last: &[u8], out: &mut O) -> Next
    ensures acts { (a : Archive) (s : ImapState) (disk : ℕ)
        → Acts (command_said a s (held.now ++ last.now)) (at_sink O.Sink out.old disk)
        (held_if (continues result) s) a (at_sink O.Sink out.new disk) }
    ensures sink { O.alike out.old out.new }
{
    let parts = tag_parts(alloc, held, last);
    if !is_readable(parts) {
        let _ = say_bye_memory(out);
        return Next::Close;
    }
    Next::after(send(
        &[
            Phrase::Words(parts.tag),
            Phrase::Words(parts.more),
            Phrase::Words(b" NO out of memory\r\n"),
        ],
        out,
    ))
}

/// Divides octets in two slices after the tag at their front.
fn tag_parts<'a>(alloc: Global, held: &'a [u8], last: &'a [u8]) -> TagParts<'a>
    ensures { tags.DividesTag (held.now ++ last.now) (result.tag.now ++ result.more.now)
        (result.behind.now ++ result.rest.now) }
{
    let len = Cursor::new(alloc, held).run_len(Kind::Tag);
    if len < held.len() {
        let (tag, behind) = held.split_at(len);
        return TagParts {
            tag,
            more: &[],
            behind,
            rest: last,
        };
    }
    let more_len = Cursor::new(alloc, last).run_len(Kind::Tag);
    let (more, behind) = last.split_at(more_len);
    TagParts {
        tag: held,
        more,
        behind,
        rest: &[],
    }
}

/// Returns whether a tag is readable: it has an octet, and a space or a line end follows it.
fn is_readable(parts: TagParts<'_>) -> bool
    ensures { result ≡ tags.is_readable (parts.entry.tag.now ++ parts.entry.more.now)
        (parts.entry.behind.now ++ parts.entry.rest.now) }
{
    has_octet(parts.tag, parts.more) && ends_tag(parts.behind, parts.rest)
}

/// Returns whether one of two slices has an octet.
fn has_octet(tag: &[u8], more: &[u8]) -> bool
    ensures { result ≡ tags.has_octet (tag.now ++ more.now) }
{
    match tag {
        [] => is_filled(more),
        [_, ..] => true,
    }
}

/// Returns whether a slice has an octet.
fn is_filled(octets: &[u8]) -> bool
    ensures { result ≡ tags.has_octet octets.now }
{
    match octets {
        [] => false,
        [_, ..] => true,
    }
}

/// Returns whether two slices in order start with a space or a line end.
fn ends_tag(behind: &[u8], rest: &[u8]) -> bool
    ensures { result ≡ laws.ends_tag (behind.now ++ rest.now) }
{
    match behind {
        [] => ends_in(rest),
        [b'\r'] => is_feed_first(rest),
        _ => ends_in(behind),
    }
}

/// Returns whether octets start with a space or a line end.
fn ends_in(octets: &[u8]) -> bool
    ensures { result ≡ laws.ends_tag octets.now }
{
    match octets {
        [b' ', ..] => true,
        [b'\n', ..] => true,
        [b'\r', rest @ ..] => is_feed_first(rest),
        _ => false,
    }
}

/// Returns whether the first octet is a line feed.
fn is_feed_first(octets: &[u8]) -> bool
    ensures { result ≡ tags.starts_with_feed octets.now }
{
    match octets {
        [first, ..] => *first == b'\n',
        [] => false,
    }
}
