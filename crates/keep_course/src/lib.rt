//! What the doors over a keeper share: courses, what a command and a reopening say, and refusals.
//! Pure.
//!
//! A course says what a crash in it leaves.
#![tactic(auto)]

mod laws;
mod refusal;

pub use laws::{chain_law, course_law};
pub use refusal::Refusal;
