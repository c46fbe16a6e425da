//! The encodings of encoded words.
//! Pure.
ghost use Rattle.std.specs.Prelude.{◌≡◌};
ghost use Rattle.mime_words.specs.Words.{encoding_of};

/// The encoding of a word's bytes.
#[derive(Clone, Copy, PartialEq, Eq, Drop)]
pub enum Encoding {
    Base64,
    Quoted,
}

/// Returns the encoding with a letter, in either case.
pub fn encoding_of(letter: u8) -> Option<Encoding>
    ensures { result ≡ encoding_of letter }
{
    match letter {
        b'B' | b'b' => Some(Encoding::Base64),
        b'Q' | b'q' => Some(Encoding::Quoted),
        _ => None,
    }
}
