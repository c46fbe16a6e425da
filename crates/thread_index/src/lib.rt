//! An index of rows by the threads that they make, kept under added and taken rows.
//! Allocates.
#![tactic(auto)]

mod adding;
mod dividing;
mod index;
mod lists;
mod rising;
mod tables;
mod taking;

pub use index::ThreadIndex;
