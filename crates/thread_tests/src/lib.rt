//! Threads by rounds over all rows, as they are defined: a plain program, which tests run beside the
//! index of threads; and tests of the index and of the trees, by public calls alone.
#![tactic(auto)]

mod plain;
mod sixth;

pub use plain::PlainThreads;
pub use sixth::{add_sixth, sixth_row_costs, take_sixth};

#[cfg(test)]
mod index_tests;
#[cfg(test)]
mod random;
#[cfg(test)]
mod random_tests;
#[cfg(test)]
mod rows;
#[cfg(test)]
mod tree_tests;
