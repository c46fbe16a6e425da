//! The words of texts, by which messages are searched.
//! Allocates.
#![tactic(auto)]

mod packed_words;
mod sets;
mod word_lists;
mod words;

pub use packed_words::PackedWords;
pub use sets::word_set;
pub use word_lists::WordLists;
pub use words::{MAX_WORD_LEN, push_words};
