//! Tracks where bytes of a structured field are: in a quoted string, in a comment, or in neither.
//! Pure.
ghost use Rattle.std.specs.Prelude.{◌≡◌, ◌≤◌, ◌<◌, ◌+◌, length};
ghost use Rattle.mail_address.specs.Places.{depth_of, next_place, next_name_place, is_outside as stands_outside, is_in_one_comment as in_one_comment, is_sought, is_comment_start};
ghost use Rattle.mail_address.specs.Items.{len_before as count_before};

/// Where a byte of a structured field is (RFC 5322, sections 3.2.1, 3.2.2 and 3.2.4).
#[derive(Clone, Copy, Drop)]
pub enum Place {
    /// Outside of quoted strings and comments.
    Outside,
    /// Outside, directly after a backslash that quotes the byte, which only a name has.
    Pair,
    /// In a quoted string.
    Quoted,
    /// In a quoted string, directly after a backslash.
    QuotedPair,
    /// In nested comments, to this depth.
    Comment(usize),
    /// In nested comments, to this depth, directly after a backslash.
    CommentPair(usize),
}

impl Place {
    /// Returns the place of the byte after this one.
    ///
    /// A quoted string extends from `"` to the next `"`, and a comment from `(` to the matching `)`.
    /// Comments nest, and in both a backslash quotes the next byte.
    pub fn next(self, byte: u8) -> Place
        requires { depth_of self < usize.MAX }
        ensures value { result ≡ next_place self byte }
        ensures depth { depth_of result ≤ depth_of self + 1 }
    {
        match self {
            Place::Outside => Place::after_plain(byte),
            Place::Pair => Place::Outside,
            Place::Quoted => Place::after_quoted(byte),
            Place::QuotedPair => Place::Quoted,
            Place::Comment(depth) => Place::after_comment(depth, byte),
            Place::CommentPair(depth) => Place::Comment(depth),
        }
    }

    /// Returns the place of the byte after this one, in a name.
    pub(crate) fn next_in_name(self, byte: u8) -> Place
        requires { depth_of self < usize.MAX }
        ensures value { result ≡ next_name_place self byte }
        ensures depth { depth_of result ≤ depth_of self + 1 }
    {
        match self {
            Place::Outside if byte == b'\\' => Place::Pair,
            _ => self.next(byte),
        }
    }

    /// Returns the place after a byte that is outside of quoted strings and comments.
    fn after_plain(byte: u8) -> Place
        ensures { result ≡ next_place Place.Outside byte }
    {
        match byte {
            b'"' => Place::Quoted,
            b'(' => Place::Comment(1),
            _ => Place::Outside,
        }
    }

    /// Returns the place after a byte that is in a quoted string.
    fn after_quoted(byte: u8) -> Place
        ensures { result ≡ next_place Place.Quoted byte }
    {
        match byte {
            b'\\' => Place::QuotedPair,
            b'"' => Place::Outside,
            _ => Place::Quoted,
        }
    }

    /// Returns the place after a byte that is in comments to this depth.
    fn after_comment(depth: usize, byte: u8) -> Place
        requires { depth < usize.MAX }
        ensures value { result ≡ next_place (Place.Comment depth) byte }
        ensures depth { depth_of result ≤ depth + 1 }
    {
        match byte {
            b'\\' => Place::CommentPair(depth),
            b'(' => Place::Comment(depth + 1),
            b')' if depth <= 1 => Place::Outside,
            b')' => Place::Comment(depth - 1),
            _ => Place::Comment(depth),
        }
    }

    /// Returns whether the place is outside of quoted strings and comments.
    pub(crate) fn is_outside(self) -> bool
        ensures { result ≡ stands_outside self }
    {
        matches!(self, Place::Outside)
    }

    /// Returns whether the place is in an outermost comment, and not after a backslash.
    fn is_in_one_comment(self) -> bool
        ensures { result ≡ in_one_comment self }
    {
        match self {
            Place::Comment(depth) => depth <= 1,
            _ => false,
        }
    }

    /// Returns whether a byte here starts an outermost comment.
    pub(crate) fn starts_comment(self, byte: u8) -> bool
        ensures { result ≡ is_comment_start (byte, self) }
    {
        matches!(self, Place::Outside) && byte == b'('
    }
}

/// A byte that is searched for in an item.
#[derive(Clone, Copy, Drop)]
pub(crate) enum Sought {
    /// A `<` outside of quoted strings and comments.
    OpenBracket,
    /// A `>` outside of quoted strings and comments.
    CloseBracket,
    /// The `)` that ends an outermost comment.
    CommentEnd,
}

impl Sought {
    /// Returns whether a byte at a place is the one searched for.
    pub(crate) fn is_at(self, place: Place, byte: u8) -> bool
        ensures { result ≡ is_sought self (byte, place) }
    {
        match self {
            Sought::OpenBracket => place.is_outside() && byte == b'<',
            Sought::CloseBracket => place.is_outside() && byte == b'>',
            Sought::CommentEnd => place.is_in_one_comment() && byte == b')',
        }
    }
}

/// Returns the number of bytes before the first byte that is searched for, or the length if there
/// is none. The first byte is at the place `start`.
pub(crate) fn len_before(sought: Sought, start: Place, bytes: &[u8]) -> usize
    requires { depth_of start ≤ 1 }
    ensures value { result ≡ count_before sought start bytes.now }
    ensures within { result ≤ length bytes.now }
{
    let mut place = start;
    for (at, byte) in bytes.iter().enumerate() {
        if sought.is_at(place, *byte) {
            return at;
        }
        place = place.next(*byte);
    }
    bytes.len()
}
