//! The terms of a query, and their prefixes.
//! Pure.
ghost use Rattle.std.specs.Prelude.{◌≡◌, ◌<◌, ◌≤◌, [], ◌∷◌, length, IsTrue, IfSome, MatchOption};
ghost use Rattle.std.specs.List.{prefix_len};
ghost use Rattle.std.specs.Option.{option_copied};
ghost use Rattle.text_words.specs.Runs.{fails};
ghost use Rattle.query_lang.specs.Terms.{is_term_byte, terms_of, starts, after};

/// Returns the first term of a query, and the text after it.
pub fn first_term(text: &[u8]) -> Option<(&[u8], &[u8])>
    ensures terms { MatchOption result (terms_of text.now ≡ []) (λ found.
        terms_of text.now ≡ found.0.now ∷ terms_of found.1.now) }
    ensures shorter { IfSome result (λ found. length found.1.now < length text.now) }
{
    let body = text.split_at(space_len(text)).1;
    let len = term_len(body);
    if len == 0 {
        return None;
    }
    Some(body.split_at(len))
}

/// Returns the number of spaces at the front of a text.
fn space_len(text: &[u8]) -> usize
    ensures value { result ≡ prefix_len (fails is_term_byte) text.now }
    ensures bound { result ≤ length text.now }
{
    text.iter().take_while(|byte| !is_term_byte(**byte)).count()
}

/// Returns the number of bytes before the first space of a text.
fn term_len(text: &[u8]) -> usize
    ensures value { result ≡ prefix_len is_term_byte text.now }
    ensures bound { result ≤ length text.now }
{
    text.iter().take_while(|byte| is_term_byte(**byte)).count()
}

/// Returns whether terms consist of a byte: any but a space.
fn is_term_byte(byte: u8) -> bool
    ensures { result ≡ is_term_byte byte }
{
    byte != b' '
}

/// Returns the rest of a term that starts with a letter and a colon.
pub fn after(letter: u8, term: &[u8]) -> Option<&[u8]>
    ensures { option_copied result ≡ after letter term.now }
{
    if starts(letter, term) {
        Some(term.split_at(2).1)
    } else {
        None
    }
}

/// Returns whether a term starts with a letter and a colon.
fn starts(letter: u8, term: &[u8]) -> bool
    ensures value { result ≡ starts letter term.now }
    ensures len { IsTrue result → 2 ≤ length term.now }
{
    match term {
        [first, b':', ..] => *first == letter,
        _ => false,
    }
}
