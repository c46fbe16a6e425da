//! The end of a head, searched byte by byte.
//! Pure.
ghost use Rattle.std.specs.Prelude.{◌≡◌, ℕ, Some, None};
ghost use Rattle.http_front.specs.Fronts.{head_limit};
ghost use Rattle.http_front.specs.Scans.{next_seen, started as started_by, scan, seen_after, IsHeldHead, IsHeadAhead};

/// What is seen of a head's end, CR LF CR LF, at the end of a part of it.
#[derive(Clone, Copy, Debug, PartialEq, Eq, Drop)]
pub(crate) enum Seen {
    /// Nothing of it.
    Nothing,
    /// CR.
    Return,
    /// CR LF.
    Line,
    /// CR LF CR.
    LineReturn,
}

/// How a piece continues a part of a head.
#[derive(Clone, Copy, Debug, PartialEq, Eq, Drop)]
pub(crate) enum Ahead {
    /// The head ends with this many bytes of the piece.
    Head(usize),
    /// The head is longer than the limit.
    Long,
    /// The head does not end in the piece. This is seen of its end.
    More(Seen),
}

/// How bytes continue the end of a head.
#[derive(Clone, Copy, Debug, PartialEq, Eq, Drop)]
pub(crate) enum Scanned {
    /// It is whole with this many of them.
    Whole(usize),
    /// This is seen of it after them.
    Open(Seen),
}

/// The greatest length of a head with its empty line, in bytes.
pub(crate) const HEAD_LIMIT: usize = 16_384;

/// Finds out how a piece continues a part of a head that has `held` bytes, of whose end this is
/// seen.
///
/// A head has at most 16,384 bytes with its empty line. Looks at each byte of the piece at most once.
pub(crate) fn head_in(held: &[u8], seen: Seen, piece: &[u8]) -> Ahead
    requires { IsHeldHead head_limit held.now seen }
    ensures { IsHeadAhead head_limit held.now piece.now result }
{
    let room = HEAD_LIMIT - held.len();
    let near = piece.split_at(piece.len().min(room)).0;
    match scan_bytes(seen, near) {
        Scanned::Whole(len) => Ahead::Head(len),
        Scanned::Open(_) if piece.len() >= room => Ahead::Long,
        Scanned::Open(seen) => Ahead::More(seen),
    }
}

/// Finds out how bytes continue the end of a head.
fn scan_bytes(seen: Seen, bytes: &[u8]) -> Scanned
    ensures whole { (n : ℕ) → result ≡ Scanned.Whole n → scan seen bytes.now ≡ Some n }
    ensures more { (after : Seen) → result ≡ Scanned.Open after → (scan seen bytes.now ≡ None)
        × (after ≡ seen_after seen bytes.now) }
{
    let mut seen = seen;
    let mut len = 0;
    for byte in bytes {
        len += 1;
        match seen.next(*byte) {
            Some(after) => seen = after,
            None => return Scanned::Whole(len),
        }
    }
    Scanned::Open(seen)
}

impl Seen {
    /// Returns what is seen after one more byte, or `None` if the end is whole.
    fn next(self, byte: u8) -> Option<Seen>
        ensures { result ≡ next_seen self byte }
    {
        match (self, byte) {
            (Seen::Return, b'\n') => Some(Seen::Line),
            (Seen::Line, b'\r') => Some(Seen::LineReturn),
            (Seen::Line, _) => Some(Seen::Nothing),
            (Seen::LineReturn, b'\n') => None,
            _ => Some(started(byte)),
        }
    }
}

/// Returns what is seen after a byte that starts a head's end, or doesn't.
fn started(byte: u8) -> Seen
    ensures { result ≡ started_by byte }
{
    if byte == b'\r' {
        Seen::Return
    } else {
        Seen::Nothing
    }
}
