//! Splits a text into words.
//! Pure.
ghost use Rattle.std.specs.Prelude.{◌≡◌, ◌≤◌, [], ◌∷◌, length, IsTrue, MatchOption};
ghost use Rattle.std.specs.List.{prefix_len, position};
ghost use Rattle.std.specs.Str.{str_eq_ignore_ascii_case};
ghost use Rattle.mail_date.specs.Words.{is_white, is_word_byte, without_white, words_of, is_day_name, begins_with_day, without_day};

/// Returns whether a byte is white space: space, tab, carriage return or line feed (RFC 5322,
/// 3.2.2).
fn is_white(byte: u8) -> bool
    ensures { result ≡ is_white byte }
{
    byte == b' ' || byte == b'\t' || byte == b'\r' || byte == b'\n'
}

/// Returns the text from its first byte that isn't white space.
fn without_white(text: &[u8]) -> &[u8]
    ensures { result.now ≡ without_white text.now }
{
    text.split_at(white_len(text)).1
}

/// Returns the number of bytes of white space at the front of a text.
fn white_len(text: &[u8]) -> usize
    ensures value { result ≡ prefix_len is_white text.now }
    ensures bound { result ≤ length text.now }
{
    text.iter().take_while(|byte| is_white(**byte)).count()
}

/// Returns the number of bytes before the first white space of a text.
fn word_len(text: &[u8]) -> usize
    ensures value { result ≡ prefix_len is_word_byte text.now }
    ensures bound { result ≤ length text.now }
{
    text.iter().take_while(|byte| !is_white(**byte)).count()
}

/// Returns the first word of a text, and the text after it.
pub fn first_word(text: &[u8]) -> Option<(&[u8], &[u8])>
    ensures { MatchOption result (words_of text.now ≡ [])
        (λ found. words_of text.now ≡ found.0.now ∷ words_of found.1.now) }
{
    let body = without_white(text);
    let len = word_len(body);
    if len == 0 {
        return None;
    }
    Some(body.split_at(len))
}

/// The names of the days.
const DAYS: [[u8; 3]; 7] = [
    *b"Mon", *b"Tue", *b"Wed", *b"Thu", *b"Fri", *b"Sat", *b"Sun",
];

/// Returns whether a word is a name, in any case.
pub fn is_name(word: &[u8], name: &[u8]) -> bool
    ensures { result ≡ str_eq_ignore_ascii_case word.now name.now }
{
    word.eq_ignore_ascii_case(name)
}

/// Returns the index of a name in a list of names, in any case.
pub fn name_index(names: &[[u8; 3]], word: &[u8]) -> Option<usize>
    ensures { result ≡ position (λ name. str_eq_ignore_ascii_case word.now name) names.now }
{
    names.iter().position(|name| is_name(word, name.as_slice()))
}

/// Returns whether a word is the name of a day, in any case.
fn is_day_name(word: &[u8]) -> bool
    ensures { result ≡ is_day_name word.now }
{
    DAYS.iter().any(|name| is_name(word, name.as_slice()))
}

/// Returns whether a text starts with the name of a day and a comma.
fn begins_with_day(text: &[u8]) -> bool
    ensures value { result ≡ begins_with_day text.now }
    ensures len { IsTrue result → 4 ≤ length text.now }
{
    match text {
        [a, b, c, b',', ..] => is_day_name(&[*a, *b, *c]),
        _ => false,
    }
}

/// Skips white space at the front, and after it a day's name and its comma if they are there.
pub fn without_day(text: &[u8]) -> &[u8]
    ensures { result.now ≡ without_day text.now }
{
    let body = without_white(text);
    if begins_with_day(body) {
        return body.split_at(4).1;
    }
    body
}
