//! Laws above the grammar of IMAP's commands: reading is the inverse of spelling.
//! Pure.
#![tactic(auto)]

ghost use Rattle.imap_laws.specs.Spelling.{BareTextsAreRead, LiteralTextsAreRead, QuotedTextsAreRead};

/// A law: a text in quotes is read exactly where the octets begin with one (RFC 3501, section 9,
/// quoted).
pub fn quoted_texts_are_read()
    ensures { QuotedTextsAreRead }
{}

/// A law: a bare text is read exactly where the octets begin with it, and no further octet of its
/// kind follows (RFC 3501, section 9, atom and astring).
pub fn bare_texts_are_read()
    ensures { BareTextsAreRead }
{}

/// A law: a literal is read exactly where the octets begin with one: the number of the text's octets
/// in braces, a line end, and the text (RFC 3501, section 9, literal).
pub fn literal_texts_are_read()
    ensures { LiteralTextsAreRead }
{}
