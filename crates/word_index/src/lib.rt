//! An index of messages by their words and the days of their dates.
//! Allocates.
#![tactic(auto)]

mod asking;
mod finding;
mod index;
mod marks;
mod number_sets;
mod postings;
mod reading;
mod rows;
mod sources;
mod tables;
mod vocabulary;

pub use index::WordIndex;
