//! Finds the part of a mail to which numbers lead (RFC 3501, section 6.4.5).
//! Pure.
ghost use Rattle.std.specs.Prelude.{◌≡◌, ◌≤◌, length, option_map, IfSome};
ghost use Rattle.std.specs.List.{All};
ghost use Rattle.mime_parts.specs.Trees.{IsIn, IsPartOf, bytes_at};
ghost use Rattle.imap_structure.specs.Forests.{forest_of, split_at};
ghost use Rattle.imap_items.specs.Sections.{place_of, nth_tree, part_of, part_of_message, part_at, place_at};
ghost use Rattle.imap_items.specs.Finding.{after_deeper, shown_place};

use mime_parts::{Part, Shape, Span};

/// What the numbers of a part lead to.
#[derive(Clone, Copy, Drop)]
pub(crate) struct Place<'a> {
    /// What it is made of.
    pub(crate) shape: Shape,
    /// The header that tells of it.
    pub(crate) header: &'a [u8],
    /// Its body.
    pub(crate) body: &'a [u8],
    /// How deep it is. The parts below it are deeper.
    pub(crate) depth: u8,
    /// The parts of the mail after it, of which those below it are the first.
    pub(crate) after: &'a [Part],
}

/// Returns what numbers lead to from a place.
///
/// `None` if there is no such part.
pub(crate) fn place_at<'a>(text: &'a [u8], numbers: &[u32], from: Place<'a>) -> Option<Place<'a>>
    requires { All (IsPartOf text.now) from.after.now }
    ensures { option_map shown_place result
        ≡ place_at text.now numbers.now (shown_place from.entry) }
{
    let mut place = from;
    for number in numbers {
        place = part_at(text, *number, place)?;
    }
    Some(place)
}

/// Returns the part with a number at a place.
fn part_at<'a>(text: &'a [u8], number: u32, place: Place<'a>) -> Option<Place<'a>>
    requires { All (IsPartOf text.now) place.after.now }
    ensures place { option_map shown_place result ≡ part_at text.now number (shown_place place.entry) }
    ensures within { IfSome result (λ found. All (IsPartOf text.now) found.after.now) }
{
    match place.shape {
        Shape::Leaf => None,
        Shape::Message => part_of_message(text, number, place.depth, place.after),
        Shape::Multipart => nth_tree(text, number, place.depth, place.after),
    }
}

/// Returns the part with a number of the message that the parts start with, if they are deeper.
fn part_of_message<'a>(
    text: &'a [u8],
    number: u32,
    depth: u8,
    parts: &'a [Part],
) -> Option<Place<'a>>
    requires { All (IsPartOf text.now) parts.now }
    ensures place { option_map shown_place result
        ≡ part_of_message text.now number (split_at depth (forest_of parts.now)).deeper }
    ensures within { IfSome result (λ found. All (IsPartOf text.now) found.after.now) }
{
    let [first, ..] = parts else {
        return None;
    };
    if first.depth <= depth {
        return None;
    }
    part_of(text, number, first, parts.split_at(1).1)
}

/// Returns the part with a number of a message, with the parts after it.
fn part_of<'a>(
    text: &'a [u8],
    number: u32,
    message: &'a Part,
    after: &'a [Part],
) -> Option<Place<'a>>
    requires message { IsPartOf text.now message.now }
    requires after { All (IsPartOf text.now) after.now }
    ensures place { option_map shown_place result ≡ part_of text.now number message.now.shape
        message.now (split_at message.now.depth (forest_of after.now)).deeper }
    ensures within { IfSome result (λ found. All (IsPartOf text.now) found.after.now) }
{
    match message.shape {
        Shape::Leaf | Shape::Message => {
            if number == 1 {
                return Some(place_of(text, message, after));
            }
            None
        }
        Shape::Multipart => nth_tree(text, number, message.depth, after),
    }
}

/// Returns the tree with a number, of those deeper than a depth at the front of the parts.
fn nth_tree<'a>(text: &'a [u8], number: u32, depth: u8, parts: &'a [Part]) -> Option<Place<'a>>
    requires { All (IsPartOf text.now) parts.now }
    ensures place { option_map shown_place result
        ≡ nth_tree text.now number (split_at depth (forest_of parts.now)).deeper }
    ensures within { IfSome result (λ found. All (IsPartOf text.now) found.after.now) }
{
    let mut rest = parts;
    let mut left = number;
    while let [first, ..] = rest {
        let later = rest.split_at(1).1;
        if first.depth <= depth {
            return None;
        }
        if left == 1 {
            return Some(place_of(text, first, later));
        }
        left = left.saturating_sub(1);
        rest = after_deeper(first.depth, later);
    }
    None
}

/// Returns the parts after those at the front that are deeper than a depth.
fn after_deeper(depth: u8, parts: &[Part]) -> &[Part]
    ensures parts { result.now ≡ after_deeper depth parts.now }
    ensures len { length result.now ≤ length parts.now }
{
    let mut rest = parts;
    while let [first, ..] = rest {
        let later = rest.split_at(1).1;
        if first.depth <= depth {
            return rest;
        }
        rest = later;
    }
    rest
}

/// Returns a part as a place, with the parts after it.
fn place_of<'a>(text: &'a [u8], part: &'a Part, after: &'a [Part]) -> Place<'a>
    requires { IsPartOf text.now part.now }
    ensures place { shown_place result
        ≡ place_of text.now part.now (split_at part.now.depth (forest_of after.now)).deeper }
    ensures after { result.after.now ≡ after.now }
{
    Place {
        shape: part.shape,
        header: bytes_at(text, part.header),
        body: bytes_at(text, part.body),
        depth: part.depth,
        after,
    }
}

/// Returns the bytes of a span.
fn bytes_at(text: &[u8], span: Span) -> &[u8]
    requires { IsIn text.now span }
    ensures { result.now ≡ bytes_at text.now span }
{
    &text[span.start as usize..span.end as usize]
}
