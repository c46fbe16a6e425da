//! Laws of decoding, for every value. Each function does nothing: its contract is the law.
//! Pure.
ghost use Rattle.mime_words.specs.Laws.{ValueWithoutWords, EncodedBytes, LooseBase64, WordsAreSpelled};
ghost use Rattle.mime_words.specs.Spelled.{LoneEqualsStays, SpelledIsSaid};

/// Shows that a value without `=?` decodes to its own UTF-8, with U+FFFD for bytes that aren't
/// UTF-8.
pub fn value_without_words()
    ensures { ValueWithoutWords }
{}

/// Shows that base64 as RFC 4648, section 4, writes it encodes the bytes that it was made of.
pub fn encoded_bytes()
    ensures { EncodedBytes }
{}

/// Shows that a base64 text encodes the whole bytes in its symbols.
///
/// Other bytes between the symbols, missing padding, what follows the first `=`, and bits at the
/// end that make no whole byte change nothing.
pub fn loose_base64()
    ensures { LooseBase64 }
{}

/// Shows that an encoded word is found at the front of bytes exactly if they start with a word as
/// RFC 2047, section 2, spells it.
pub fn words_are_spelled()
    ensures { WordsAreSpelled }
{}

/// Shows that a value that is spelled from encoded words and text decodes to what these say.
///
/// Underscores are spaces, spaces between two words are removed, and neighbours of one charset are
/// joined before they are read. Words of other charsets stay as text, and so does a `=?` that
/// begins no word.
pub fn spelled_is_said()
    ensures { SpelledIsSaid }
{}

/// Shows that in a text in Q each `=` stays if none has two hexadecimal digits after it.
pub fn lone_equals_stays()
    ensures { LoneEqualsStays }
{}
