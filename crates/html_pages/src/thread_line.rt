//! The lines of a thread.
//! Pure.
use mail_forms::Row;

/// What a line of a thread stands for.
#[derive(Clone, Copy, Drop)]
pub enum ThreadEntry<'a> {
    /// A mail of the list, by its row.
    Mail(&'a Row),
    /// A mail that other mails answer and that the list doesn't have, by its id in brackets.
    Missing(&'a [u8]),
}

/// A line of a thread.
#[derive(Clone, Copy, Drop)]
pub struct ThreadLine<'a> {
    /// The number of mails above it in the tree.
    pub depth: u64,
    /// What the line stands for.
    pub entry: ThreadEntry<'a>,
}
