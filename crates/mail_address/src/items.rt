//! Splits an address list into items, and an item into its parts.
//! Pure.
ghost use Rattle.std.specs.Prelude.{◌≡◌, ◌∷◌, [], MatchOption};
ghost use Rattle.mail_address.specs.Items.{items_of, ends_item, ending_of, is_grouped_after, is_bracketed_after, after_comment_start, last_comment as inside_of_last, name_bytes, address_bytes, IsFirstItem};
ghost use Rattle.mail_address.specs.Places.{next_place, marked, marked_by};

use crate::place::{Place, Sought, len_before};

/// The end of an item.
#[derive(Clone, Copy, Drop)]
pub(crate) enum Ending {
    /// A comma.
    Comma,
    /// The colon that makes the item the name of a group.
    Colon,
    /// A semicolon or the end of the value. Either also ends an open group.
    Semicolon,
}

impl Ending {
    /// Returns whether a group is open after this end. `grouped` says whether one was open before.
    pub(crate) fn is_grouped_after(self, grouped: bool) -> bool
        ensures { result ≡ is_grouped_after grouped self }
    {
        match self {
            Ending::Comma => grouped,
            Ending::Colon => true,
            Ending::Semicolon => false,
        }
    }
}

/// An item of an address list.
#[derive(Clone, Copy, Drop)]
pub(crate) struct Item<'a> {
    /// The bytes before its end.
    pub(crate) bytes: &'a [u8],
    /// Its end.
    pub(crate) ending: Ending,
    /// The bytes after its end.
    pub(crate) rest: &'a [u8],
}

/// Returns the first item of a value and its end. `grouped` says whether a group is open.
///
/// `None` if the whole value is the last item.
pub(crate) fn first_item(value: &[u8], grouped: bool) -> Option<Item<'_>>
    ensures { MatchOption result (items_of grouped value.now ≡ (value.now, Ending.Semicolon) ∷ [])
        (λ item. IsFirstItem grouped value.now item.bytes.now item.ending item.rest.now) }
{
    let mut place = Place::Outside;
    let mut bracketed = false;
    for (at, byte) in value.iter().enumerate() {
        if ends_item_at(grouped, bracketed, place, *byte) {
            return Some(Item {
                bytes: &value[..at],
                ending: ending_at(*byte),
                rest: &value[at + 1..],
            });
        }
        bracketed = is_bracketed(bracketed, place, *byte);
        place = place.next(*byte);
    }
    None
}

/// Returns whether a byte ends an item.
///
/// `grouped` says whether a group is open, and `bracketed` whether the byte is between `<` and `>`.
fn ends_item_at(grouped: bool, bracketed: bool, place: Place, byte: u8) -> bool
    ensures { result ≡ ends_item grouped bracketed (byte, place) }
{
    !bracketed && place.is_outside() && (byte == b',' || byte == b';' || (byte == b':' && !grouped))
}

/// Returns the kind of end that a byte is.
fn ending_at(byte: u8) -> Ending
    ensures { result ≡ ending_of byte }
{
    match byte {
        b',' => Ending::Comma,
        b':' => Ending::Colon,
        _ => Ending::Semicolon,
    }
}

/// Returns whether the byte after this one is between `<` and `>`. `bracketed` says whether this
/// one is.
fn is_bracketed(bracketed: bool, place: Place, byte: u8) -> bool
    ensures { result ≡ is_bracketed_after bracketed (byte, place) }
{
    if bracketed {
        !Sought::CloseBracket.is_at(place, byte)
    } else {
        Sought::OpenBracket.is_at(place, byte)
    }
}

/// The bytes of an item from which its name and its address are read.
#[derive(Clone, Copy, Drop)]
pub(crate) struct ItemParts<'a> {
    /// The bytes before the `<`, or the inside of the last comment if there is no `<`.
    pub(crate) name: &'a [u8],
    /// The bytes between `<` and `>`, or the whole item if there is no `<`.
    pub(crate) address: &'a [u8],
}

/// Returns the parts of an item.
pub(crate) fn parts_of(item: &[u8]) -> ItemParts<'_>
    ensures name { result.name.now ≡ name_bytes item.now }
    ensures address { result.address.now ≡ address_bytes item.now }
{
    let open = len_before(Sought::OpenBracket, Place::Outside, item);
    if open < item.len() {
        let after = &item[open + 1..];
        let close = len_before(Sought::CloseBracket, Place::Outside, after);
        ItemParts {
            name: &item[..open],
            address: &after[..close],
        }
    } else {
        ItemParts {
            name: last_comment(item),
            address: item,
        }
    }
}

/// Returns the inside of an item's last comment, or nothing if it has no comment.
fn last_comment(item: &[u8]) -> &[u8]
    ensures { result.now ≡ inside_of_last item.now }
{
    let inside = after_last_start(item);
    let end = len_before(Sought::CommentEnd, Place::Comment(1), inside);
    &inside[..end]
}

/// Returns the bytes after the `(` of an item's last comment, or nothing if it has no comment.
fn after_last_start(item: &[u8]) -> &[u8]
    ensures { marked_by next_place (Place.Comment 1) result.now
        ≡ after_comment_start (marked item.now) }
{
    let mut inside: &[u8] = &[];
    let mut place = Place::Outside;
    for (at, byte) in item.iter().enumerate() {
        if place.starts_comment(*byte) {
            inside = &item[at + 1..];
        }
        place = place.next(*byte);
    }
    inside
}
