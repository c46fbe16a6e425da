//! An ordered set that knows the rank of each key.
//! Allocates.
#![tactic(auto)]

mod set;
mod tree;
mod window;

pub use set::RankedSet;
