//! Threads of rows as they are defined, with their laws.
//! Allocates.
//!
//! Here are also the steps that contracts count, and labels of numbers.
#![tactic(auto)]

mod labels;
mod laws;
mod steps;

pub use labels::LabelTable;
pub use laws::{
    first_are_reached, reached_is_least, rounds_suffice, threads_are_linked, threads_go_back,
    threads_go_on,
};
pub use steps::Steps;
