//! The keys by which SEARCH finds messages (RFC 3501, section 6.4.4).
//! Allocates.
ghost use Rattle.std.specs.Prelude.{◌≡◌, IfOk, OnOk, map};
ghost use Rattle.imap_syntax.specs.Trees.{tree_of, trees};
ghost use Rattle.imap_items.specs.Keys.{message_of, tree_matches, trees_match, tree_reads, trees_read};
ghost use Rattle.imap_items.specs.Kept.{shown_message, IsKeptText};

use crate::days::{arrival_day, day_shown, is_day, is_day_before};
use crate::kept::Kept;
use arch_base::NoMemory;
use imap_syntax::Key;
use mail_date::CivilDate;
use mail_forms::Row;
use std::alloc::Global;

/// A message, as keys are asked of it.
#[derive(Clone, Copy, Drop)]
pub(crate) struct Message<'a> {
    text: &'a [u8],
    row: &'a Row,
    sequence: u32,
    greatest: u32,
    uids: u32,
    arrived: CivilDate,
    sent: CivilDate,
}

/// Returns whether a message matches a key. `row` is the row of the text, `sequence` its sequence
/// number, `greatest` the greatest sequence number and `uids` the greatest UID.
///
/// Keys of fields look at each field of their name, unfolded and decoded. BODY looks at the text of
/// the body, and TEXT also at the header as it is sent. Texts are found in any case of ASCII letters.
/// Each text of the message that keys ask for is made once. A key that reads no text may be asked
/// with any. The only error is `NoMemory`.
pub fn matches<'a>(
    alloc: Global,
    text: &'a [u8],
    row: &'a Row,
    sequence: u32,
    greatest: u32,
    uids: u32,
    key: &Key,
) -> Result<bool, NoMemory>
    ensures { IfOk result (λ found.
        found ≡ tree_matches (message_of text.now row.now sequence greatest uids) (tree_of key.now)) }
{
    let message = message_of(text, row, sequence, greatest, uids);
    let mut kept = Kept::new(alloc, text);
    matches_key(alloc, &message, key, &mut kept)
}

/// Returns a message with a text and a row, and these numbers.
fn message_of<'a>(
    text: &'a [u8],
    row: &'a Row,
    sequence: u32,
    greatest: u32,
    uids: u32,
) -> Message<'a>
    ensures message { shown_message result ≡ message_of text.now row.now sequence greatest uids }
    ensures text { result.text.now ≡ text.now }
{
    Message {
        text,
        row,
        sequence,
        greatest,
        uids,
        arrived: arrival_day(row.arrived),
        sent: day_shown(&row.date),
    }
}

/// Returns whether a message matches a key.
#[cycle(keys)]
#[tactic(auto, unfolding(crate::specs::Keys::tree_matches))]
fn matches_key(
    alloc: Global,
    message: &Message<'_>,
    key: &Key,
    kept: &mut Kept,
) -> Result<bool, NoMemory>
    requires { IsKeptText message.now.text.now kept.old }
    ensures found { IfOk result (λ found.
        found ≡ tree_matches (shown_message message.now) (tree_of key.now)) }
    ensures kept { OnOk result (IsKeptText message.now.text.now kept.new) }
{
    match key {
        Key::All => Ok(true),
        Key::Answered => Ok(false),
        Key::Deleted => Ok(false),
        Key::Draft => Ok(false),
        Key::Flagged => Ok(false),
        Key::New => Ok(false),
        Key::Old => Ok(true),
        Key::Recent => Ok(false),
        Key::Seen => Ok(false),
        Key::Unanswered => Ok(true),
        Key::Undeleted => Ok(true),
        Key::Undraft => Ok(true),
        Key::Unflagged => Ok(true),
        Key::Unseen => Ok(true),
        Key::Bcc(piece) => kept.in_field(alloc, message.text, b"Bcc", piece.as_slice()),
        Key::Body(piece) => kept.in_body(alloc, message.text, piece.as_slice()),
        Key::Cc(piece) => kept.in_field(alloc, message.text, b"Cc", piece.as_slice()),
        Key::From(piece) => kept.in_field(alloc, message.text, b"From", piece.as_slice()),
        Key::Subject(piece) => kept.in_field(alloc, message.text, b"Subject", piece.as_slice()),
        Key::Text(piece) => kept.in_text(alloc, message.text, piece.as_slice()),
        Key::To(piece) => kept.in_field(alloc, message.text, b"To", piece.as_slice()),
        Key::Header(name, piece) => {
            kept.in_field(alloc, message.text, name.as_slice(), piece.as_slice())
        }
        Key::Keyword(_) => Ok(false),
        Key::Unkeyword(_) => Ok(true),
        Key::Before(day) => Ok(is_day_before(&message.arrived, *day)),
        Key::On(day) => Ok(is_day(&message.arrived, *day)),
        Key::Since(day) => Ok(!is_day_before(&message.arrived, *day)),
        Key::SentBefore(day) => Ok(is_day_before(&message.sent, *day)),
        Key::SentOn(day) => Ok(is_day(&message.sent, *day)),
        Key::SentSince(day) => Ok(!is_day_before(&message.sent, *day)),
        Key::Larger(size) => Ok((*size as u64) < message.row.wire),
        Key::Smaller(size) => Ok(message.row.wire < *size as u64),
        Key::Uid(set) => Ok(set.contains(message.row.number, message.uids)),
        Key::Numbers(set) => Ok(set.contains(message.sequence, message.greatest)),
        Key::Not(key) => Ok(!matches_key(alloc, message, key, kept)?),
        Key::Or(first, second) => {
            if matches_key(alloc, message, first, kept)? {
                return Ok(true);
            }
            matches_key(alloc, message, second, kept)
        }
        Key::Each(keys) => matches_each(alloc, message, keys.as_slice(), kept),
    }
}

/// Returns whether a message matches each of these keys.
#[cycle(keys)]
#[tactic(auto, unfolding(crate::specs::Keys::tree_matches))]
fn matches_each(
    alloc: Global,
    message: &Message<'_>,
    keys: &[Key],
    kept: &mut Kept,
) -> Result<bool, NoMemory>
    requires { IsKeptText message.now.text.now kept.old }
    ensures found { IfOk result (λ found.
        found ≡ trees_match (shown_message message.now) (trees (map tree_of keys.now))) }
    ensures kept { OnOk result (IsKeptText message.now.text.now kept.new) }
{
    for key in keys {
        if !matches_key(alloc, message, key, kept)? {
            return Ok(false);
        }
    }
    Ok(true)
}

/// Returns whether a key reads the text of a message. Any other key asks only of its row and its
/// numbers, so that a search by it needs no text.
#[cycle(readings)]
#[tactic(auto, unfolding(crate::specs::Keys::tree_reads))]
pub fn reads_text(key: &Key) -> bool
    ensures { result ≡ tree_reads (tree_of key.now) }
{
    match key {
        Key::Bcc(_)
        | Key::Body(_)
        | Key::Cc(_)
        | Key::From(_)
        | Key::Subject(_)
        | Key::Text(_)
        | Key::To(_)
        | Key::Header(_, _) => true,
        Key::Not(key) => reads_text(key),
        Key::Or(first, second) => reads_text(first) || reads_text(second),
        Key::Each(keys) => one_reads_text(keys.as_slice()),
        Key::All
        | Key::Answered
        | Key::Deleted
        | Key::Draft
        | Key::Flagged
        | Key::New
        | Key::Old
        | Key::Recent
        | Key::Seen
        | Key::Unanswered
        | Key::Undeleted
        | Key::Undraft
        | Key::Unflagged
        | Key::Unseen
        | Key::Keyword(_)
        | Key::Unkeyword(_)
        | Key::Before(_)
        | Key::On(_)
        | Key::Since(_)
        | Key::SentBefore(_)
        | Key::SentOn(_)
        | Key::SentSince(_)
        | Key::Larger(_)
        | Key::Smaller(_)
        | Key::Uid(_)
        | Key::Numbers(_) => false,
    }
}

/// Returns whether one of these keys reads the text of a message.
#[cycle(readings)]
#[tactic(auto, unfolding(crate::specs::Keys::tree_reads))]
fn one_reads_text(keys: &[Key]) -> bool
    ensures { result ≡ trees_read (trees (map tree_of keys.now)) }
{
    for key in keys {
        if reads_text(key) {
            return true;
        }
    }
    false
}
