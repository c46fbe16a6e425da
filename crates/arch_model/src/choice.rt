//! What the candidate ids of a message decide.
//! Pure.
use arch_base::Bytes;

/// How a candidate id meets the messages that are there.
#[derive(Clone, Copy, Debug, PartialEq, Eq, Drop)]
pub enum Meeting {
    /// No message has the id.
    Free,
    /// The message with this number has the id and the same content.
    Same(u32),
    /// A message with another content has the id.
    Other,
}

/// What the candidate ids of a message decide.
#[derive(Debug, Drop)]
pub enum Choice {
    /// The message is kept with this text.
    Take(Bytes),
    /// The message with this number is the same.
    Repeat(u32),
}
