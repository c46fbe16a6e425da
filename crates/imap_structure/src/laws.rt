//! Laws of strings and of the trees of parts. Each function does nothing: its contract is the law.
//! Pure.
ghost use Rattle.imap_structure.specs.Laws.{StringsAreRead, ForestsAreParts, ParenthesesBalance};

/// Shows that a string is read back: it says where it ends, and which bytes it is.
pub fn strings_are_read()
    ensures { StringsAreRead }
{}

/// Shows that the parts of trees are those of which the trees were made, in order.
pub fn forests_are_parts()
    ensures { ForestsAreParts }
{}

/// Shows that the parentheses of each structure and of each envelope balance, outside of strings.
pub fn parentheses_balance()
    ensures { ParenthesesBalance }
{}
