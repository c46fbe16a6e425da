//! Divides the body of a multipart at its delimiter lines (RFC 2046, section 5.1.1).
//! Allocates.
ghost use Rattle.std.specs.Prelude.{◌≡◌, ◌+◌, ◌<◌, ◌^◌, ◌∷◌, ◌++◌, ℕ, length, IfOk, OnOk};
ghost use Rattle.std.specs.List.{list_all};
ghost use Rattle.mail_reader.specs.Lines.{lines_of};
ghost use Rattle.mail_reader.specs.Fields.{without_feed};
ghost use Rattle.mime_parts.specs.Delimiters.{kind_of, kind_by, kind_after, is_blank, cuts_from};
ghost use Rattle.mime_parts.specs.Dividing.{at_most, ended};

use crate::part::Span;
use arch_base::{NoMemory, Sequence};
use memchr::memchr;
use std::alloc::Global;

/// Spans, in order.
pub(crate) type Spans = Sequence<Span>;

/// What a line is in the body of a multipart.
#[derive(Clone, Copy, Drop)]
pub(crate) enum LineKind {
    /// A line of a part, or of what is before or after the parts.
    Plain,
    /// A delimiter line, after which a part starts.
    Delimiter,
    /// The delimiter line after the last part.
    Closing,
}

/// Returns the parts of a body that starts at an offset, or none if there are more than `room`.
pub(crate) fn divide(
    alloc: Global,
    boundary: &[u8],
    body: &[u8],
    start: u64,
    room: usize,
) -> Result<Spans, NoMemory>
    requires { start + length body.now < 2 ^ 64 }
    ensures { IfOk result (λ spans.
        spans ≡ at_most room (cuts_from boundary.now start (lines_of body.now)).parts) }
{
    let mut spans = Spans::new(alloc);
    let mut begun = None;
    let mut rest = body;
    let mut at = start;
    while !rest.is_empty() {
        let (line, after) = split_line(rest);
        let next = at + line.len() as u64;
        let stop = at.saturating_sub(1);
        match line_kind(boundary, line) {
            LineKind::Plain => {}
            LineKind::Delimiter => {
                push_ended(&mut spans, begun, stop)?;
                if spans.as_slice().len() >= room {
                    return Ok(Spans::new(alloc));
                }
                begun = Some(next);
            }
            LineKind::Closing => {
                push_ended(&mut spans, begun, stop)?;
                return Ok(spans);
            }
        }
        rest = after;
        at = next;
    }
    push_ended(&mut spans, begun, at)?;
    Ok(spans)
}

/// Appends the part that began at an offset and ends at another. A part that would end before it
/// begins is empty.
fn push_ended(spans: &mut Spans, begun: Option<u64>, end: u64) -> Result<(), NoMemory>
    ensures { OnOk result (spans.new ≡ spans.old ++ ended begun end) }
{
    match begun {
        Some(start) => spans.push(Span {
            start,
            end: start.max(end),
        }),
        None => Ok(()),
    }
}

/// Returns the first line of a text that isn't empty, with its line feed, and the bytes after it.
pub(crate) fn split_line(text: &[u8]) -> (&[u8], &[u8])
    requires { 0 < length text.now }
    ensures lines { lines_of text.now ≡ result.0.now ∷ lines_of result.1.now }
    ensures len { length result.0.now + length result.1.now ≡ length text.now }
    ensures shorter { length result.1.now < length text.now }
{
    match memchr(b'\n', text) {
        Some(feed) => text.split_at(feed + 1),
        None => text.split_at(text.len()),
    }
}

/// Returns what a line is, by the boundary of its multipart.
#[tactic(auto, unfolding(crate::specs::Delimiters::kind_of))]
fn line_kind(boundary: &[u8], line: &[u8]) -> LineKind
    ensures { result ≡ kind_of boundary.now line.now }
{
    match content(line).strip_prefix(b"--") {
        Some(tail) => kind_by(boundary, tail),
        None => LineKind::Plain,
    }
}

/// Returns what a line is, by its bytes after two dashes.
fn kind_by(boundary: &[u8], tail: &[u8]) -> LineKind
    ensures { result ≡ kind_by boundary.now tail.now }
{
    match tail.strip_prefix(boundary) {
        Some(rest) => kind_after(rest),
        None => LineKind::Plain,
    }
}

/// Returns what a line is, by its bytes after the boundary.
fn kind_after(tail: &[u8]) -> LineKind
    ensures { result ≡ kind_after tail.now }
{
    if are_blank(tail) {
        return LineKind::Delimiter;
    }
    match tail.strip_prefix(b"--") {
        Some(rest) if are_blank(rest) => LineKind::Closing,
        _ => LineKind::Plain,
    }
}

/// Returns whether all bytes are spaces or tabs.
fn are_blank(bytes: &[u8]) -> bool
    ensures { result ≡ list_all is_blank bytes.now }
{
    bytes.iter().all(|byte| *byte == b' ' || *byte == b'\t')
}

/// Returns a line without the line feed at its end.
pub(crate) fn content(line: &[u8]) -> &[u8]
    ensures { result.now ≡ without_feed line.now }
{
    match line {
        [front @ .., b'\n'] => front,
        _ => line,
    }
}
