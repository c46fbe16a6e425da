//! Replies of mail protocols: lines, and blocks of lines with their dots doubled.
//! Pure.
//!
//! A line ends with a carriage return and a line feed. A fact of the code, of which no clause
//! speaks: they are written in pieces of at most 4,096 bytes.
#![tactic(auto)]

mod phrase;
mod waiting;

pub use phrase::Phrase;
pub use waiting::{Waiting, send};
