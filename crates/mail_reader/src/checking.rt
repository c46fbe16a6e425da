//! Checks whether a text is a storage text, without allocating.
//! Pure.
ghost use Rattle.std.specs.Prelude.{◌≡◌, ◌↔◌, ◌++◌, ◌∷◌, [], Some, IsTrue, MatchOption};
ghost use Rattle.std.specs.List.{concat};
ghost use Rattle.mail_reader.specs.Stored.{storage_form, clean_lines};
ghost use Rattle.mail_reader.specs.StorageTexts.{IsStorageText};
ghost use Rattle.mail_reader.specs.Ids.{own_id as own_id_of};
ghost use Rattle.mail_reader.specs.Checking.{IsRestAfter, FollowsFields, piece_at};

use crate::lines::first_line;
use crate::reading::own_id;
use crate::storing::{Place, after_empty_line, after_mailbox_line};

/// The greatest length of a storage text, in bytes.
const MAX_TEXT_LEN: usize = 8_388_800;

/// Returns whether a text is a storage text: at most 8,388,800 bytes that are their own storage
/// form, with an own id.
pub fn is_stored(text: &[u8]) -> bool
    ensures { IsTrue result ↔ IsStorageText text.now }
{
    stored_id(text).is_some()
}

/// Returns the own id of a storage text, in its brackets, or `None` for any other text.
pub fn stored_id(text: &[u8]) -> Option<&[u8]>
    ensures { MatchOption result (IsStorageText text.now → ⊥)
        (λ id. IsStorageText text.now × (own_id_of text.now ≡ Some id.now)) }
{
    if text.len() > MAX_TEXT_LEN {
        return None;
    }
    if !is_form_of(text, text) {
        return None;
    }
    own_id(text)
}

/// Returns whether a text is the storage form of some bytes.
fn is_form_of(text: &[u8], bytes: &[u8]) -> bool
    ensures { IsTrue result ↔ storage_form bytes.now ≡ Some text.now }
{
    match after_fields(text, after_mailbox_line(bytes)) {
        Some((left, rest)) => left.len() < text.len() && is_body_of(left, after_empty_line(rest)),
        None => false,
    }
}

/// Returns the rest of a text after the kept fields of some bytes, and the rest of the bytes after
/// their header.
///
/// `None` if the text doesn't start with these fields.
fn after_fields<'a, 'b>(text: &'a [u8], bytes: &'b [u8]) -> Option<(&'a [u8], &'b [u8])>
    ensures { FollowsFields text.now bytes.now result }
{
    let mut left = text;
    let mut rest = bytes;
    let mut place = Place::Start;
    while !rest.is_empty() {
        let line = first_line(rest);
        match place.next(line.content) {
            None => return Some((left, rest)),
            Some(next) => place = next,
        }
        match after_piece(left, place, line.content) {
            None => return None,
            Some(after) => left = after,
        }
        rest = line.rest;
    }
    Some((left, rest))
}

/// Returns the rest of a text after what is kept of a line at its place.
fn after_piece<'a>(text: &'a [u8], place: Place, content: &[u8]) -> Option<&'a [u8]>
    ensures { IsRestAfter text.now (piece_at place (content.now ++ 10 ∷ [])) result }
{
    match place {
        Place::Start | Place::Dropped => Some(text),
        Place::Kept => after_line(text, content),
    }
}

/// Returns the rest of a text after a line at its front.
fn after_line<'a>(text: &'a [u8], content: &[u8]) -> Option<&'a [u8]>
    ensures { IsRestAfter text.now (content.now ++ 10 ∷ []) result }
{
    match text.strip_prefix(content) {
        Some(rest) => after_feed(rest),
        None => None,
    }
}

/// Returns the rest of a text after a line feed at its front.
fn after_feed(text: &[u8]) -> Option<&[u8]>
    ensures { IsRestAfter text.now (10 ∷ []) result }
{
    match text {
        [b'\n', rest @ ..] => Some(rest),
        _ => None,
    }
}

/// Returns whether a text is an empty line and then the lines of some bytes.
fn is_body_of(text: &[u8], bytes: &[u8]) -> bool
    ensures { IsTrue result ↔ text.now ≡ 10 ∷ concat (clean_lines bytes.now) }
{
    match after_feed(text) {
        Some(rest) => is_lines_of(rest, bytes),
        None => false,
    }
}

/// Returns whether a text is the lines of some bytes.
fn is_lines_of(text: &[u8], bytes: &[u8]) -> bool
    ensures { IsTrue result ↔ text.now ≡ concat (clean_lines bytes.now) }
{
    let mut left = text;
    let mut rest = bytes;
    while !rest.is_empty() {
        let line = first_line(rest);
        match after_line(left, line.content) {
            None => return false,
            Some(after) => left = after,
        }
        rest = line.rest;
    }
    left.is_empty()
}
