//! The phrases of a reply.
//! Pure.

/// A phrase of a reply.
#[derive(Clone, Copy, Debug, Drop)]
pub enum Phrase<'a> {
    /// These words.
    Words(&'a [u8]),
    /// A number in decimal.
    Number(u64),
    /// The lines of a text as a block has them: in their wire form, and with one more dot before each
    /// that starts with one.
    Block(&'a [u8]),
}
