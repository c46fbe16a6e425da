//! Finds texts that differ and have one id in another form.
//! Allocates.
#![tactic(auto)]

mod clashes;
#[cfg(test)]
mod tests;

pub use clashes::{TwoIds, first_clash, law_of_clashes};
