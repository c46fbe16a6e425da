//! The lines of a printed tree.
//! Pure.
use arch_base::{Bytes, Sequence};

/// Who a line is of: a message by its number, or a ghost by its id.
#[derive(Debug, Drop)]
pub enum Who {
    Live(u32),
    Ghost(Bytes),
}

/// A line of a tree.
#[derive(Debug, Drop)]
pub struct Line {
    /// How many nodes stand above it.
    pub depth: u64,
    pub who: Who,
}

/// The lines of a tree, in order.
pub type Lines = Sequence<Line>;
