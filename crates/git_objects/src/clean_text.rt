//! Clean text: the names, addresses and subjects of commits.
//! Pure.
ghost use Rattle.std.specs.Prelude.{◌≡◌, ◌↔◌, IsTrue};
ghost use Rattle.std.specs.List.{list_all};
ghost use Rattle.git_objects.specs.CleanText.{IsCleanText, is_clean_byte as clean_byte};

/// Returns whether a text is clean.
pub(crate) fn is_clean(text: &[u8]) -> bool
    ensures { IsTrue result ↔ IsCleanText text.now }
{
    if text.is_empty() {
        return true;
    }
    if text[0] == b' ' {
        return false;
    }
    if text[text.len() - 1] == b' ' {
        return false;
    }
    are_clean_bytes(text)
}

/// Returns whether clean text may hold each of the bytes.
fn are_clean_bytes(bytes: &[u8]) -> bool
    ensures { result ≡ list_all clean_byte bytes.now }
{
    bytes.iter().all(|byte| is_clean_byte(*byte))
}

/// Returns whether clean text may hold a byte.
fn is_clean_byte(byte: u8) -> bool
    ensures { result ≡ clean_byte byte }
{
    byte >= 32 && byte != 127 && byte != b'<' && byte != b'>'
}
