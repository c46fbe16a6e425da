//! A law above the grammar of search keys: reading is the inverse of spelling.
//! Pure.
ghost use Rattle.imap_syntax.specs.SpellingKeys.{KeysAreRead};

/// A law: a search key is read exactly where the octets start with what spells it, by its structure,
/// and its keys are nested at most as deep as is allowed; and one spelling has one reading (RFC 3501,
/// section 9, search-key).
pub fn keys_are_read()
    ensures { KeysAreRead }
{}
