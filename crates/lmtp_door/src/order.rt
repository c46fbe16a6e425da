//! The commands, as they are read from lines.
//! Pure.

/// A command of a client that hands over mail.
#[derive(Clone, Copy, Debug, PartialEq, Eq, Drop)]
pub(crate) enum LmtpOrder {
    /// `LHLO`, with a word.
    Hello,
    /// `MAIL`, with a path.
    Mail,
    /// `RCPT`, with a path, and whether that names the list.
    Recipient(bool),
    /// `DATA`.
    Data,
    /// `RSET`.
    Reset,
    /// `NOOP`.
    Noop,
    /// `VRFY`, with a word.
    Verify,
    /// `QUIT`.
    Quit,
    /// A known word with another argument.
    Mistaken,
    /// Any other word.
    Unknown,
}
