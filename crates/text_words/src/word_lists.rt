//! The words of a message, by field.
//! Pure.
use crate::packed_words::PackedWords;

/// The words of a message.
#[derive(Debug, Drop)]
pub struct WordLists {
    /// The words of its subject.
    pub subject: PackedWords,
    /// The words of its first From field.
    pub from: PackedWords,
    /// The words of its text leaves.
    pub body: PackedWords,
}
