//! Laws of the wire form. Each function does nothing: its contract is the law.
//! Pure.
ghost use Rattle.mail_forms.specs.Laws.{WireLenIsSum, WireLinesEndAsSent};

/// Shows that the wire form is longer than its text by the number of line feeds.
pub fn wire_len_is_sum()
    ensures { WireLenIsSum }
{}

/// Shows that a wire form has no NUL, a line feed only after a carriage return, and a carriage
/// return only before a line feed.
pub fn wire_lines_end_as_sent()
    ensures { WireLinesEndAsSent }
{}
