//! Words within a text.
//! Pure.
ghost use Rattle.std.specs.Prelude.{◌≡◌, ◌≤◌, length};
ghost use Rattle.std.specs.List.{prefix_len};
ghost use Rattle.imap_words.specs.Words.{is_keyword as keyword_is, is_other, Splits};

/// Returns whether a word is a keyword, in any case.
pub fn is_keyword(keyword: &[u8], word: &[u8]) -> bool
    ensures { result ≡ keyword_is keyword.now word.now }
{
    word.eq_ignore_ascii_case(keyword)
}

/// Cuts a text at the first octet of a value: returns the text before it, and the text after it, if
/// there is such an octet.
pub fn split(byte: u8, text: &[u8]) -> (&[u8], Option<&[u8]>)
    ensures { Splits byte text.now result.0.now result.1 }
{
    let len = len_before(byte, text);
    if len == text.len() {
        return (text, None);
    }
    let first = text.split_at(len).0;
    let rest = text.split_at(len + 1).1;
    (first, Some(rest))
}

/// Returns the number of octets before the first one of a value.
fn len_before(byte: u8, text: &[u8]) -> usize
    ensures value { result ≡ prefix_len (is_other byte) text.now }
    ensures within { result ≤ length text.now }
{
    text.iter().take_while(|next| **next != byte).count()
}
