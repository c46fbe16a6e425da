//! Splits a line into words.
//! Pure.
ghost use Rattle.std.specs.Prelude.{◌≡◌, ◌≤◌, [], ◌∷◌, length, MatchOption};
ghost use Rattle.std.specs.List.{prefix_len};
ghost use Rattle.nntp_reader.specs.Words.{is_blank as blank, is_word_byte, without_blanks, words_of, is_keyword as keyword_is};

/// Returns whether a byte separates words: a space or a tab (RFC 3977, section 3.1).
fn is_blank(byte: u8) -> bool
    ensures { result ≡ blank byte }
{
    byte == b' ' || byte == b'\t'
}

/// Returns the line from its first byte that is no blank.
fn without_blanks(line: &[u8]) -> &[u8]
    ensures { result.now ≡ without_blanks line.now }
{
    line.split_at(blank_len(line)).1
}

/// Returns the number of blanks at the front of a line.
fn blank_len(line: &[u8]) -> usize
    ensures value { result ≡ prefix_len blank line.now }
    ensures bound { result ≤ length line.now }
{
    line.iter().take_while(|byte| is_blank(**byte)).count()
}

/// Returns the number of bytes before the first blank of a line.
fn word_len(line: &[u8]) -> usize
    ensures value { result ≡ prefix_len is_word_byte line.now }
    ensures bound { result ≤ length line.now }
{
    line.iter().take_while(|byte| !is_blank(**byte)).count()
}

/// Returns the first word of a line, and the line after it.
///
/// `None` if the line has no word.
pub(crate) fn next_word(line: &[u8]) -> Option<(&[u8], &[u8])>
    ensures { MatchOption result (words_of line.now ≡ [])
        (λ found. words_of line.now ≡ found.0.now ∷ words_of found.1.now) }
{
    let body = without_blanks(line);
    let len = word_len(body);
    if len == 0 {
        return None;
    }
    Some(body.split_at(len))
}

/// Returns whether a word is a keyword, in any case.
pub(crate) fn is_keyword(keyword: &[u8], word: &[u8]) -> bool
    ensures { result ≡ keyword_is keyword.now word.now }
{
    word.eq_ignore_ascii_case(keyword)
}
