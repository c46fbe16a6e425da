//! The charsets of encoded words that are decoded.
//! Pure.
ghost use Rattle.std.specs.Prelude.{◌≡◌};
ghost use Rattle.mime_words.specs.Words.{charset_of};
ghost use Rattle.mime_words.specs.Decoding.{same_charset};

/// A charset that is decoded.
#[derive(Clone, Copy, PartialEq, Eq, Drop)]
pub enum Charset {
    Utf8,
    UsAscii,
    Latin1,
}

/// Returns the charset with a name, in any case.
///
/// `None` for a charset that isn't decoded.
pub fn charset_of(name: &[u8]) -> Option<Charset>
    ensures { result ≡ charset_of name.now }
{
    if name.eq_ignore_ascii_case(b"utf-8") {
        Some(Charset::Utf8)
    } else if name.eq_ignore_ascii_case(b"us-ascii") {
        Some(Charset::UsAscii)
    } else if name.eq_ignore_ascii_case(b"iso-8859-1") {
        Some(Charset::Latin1)
    } else {
        None
    }
}

/// Returns whether both are the same charset, or both are `None`.
pub fn is_same(a: Option<Charset>, b: Option<Charset>) -> bool
    ensures { result ≡ same_charset a b }
{
    a == b
}
