//! Tests of inputs, outputs, clocks and scripts, of the doors of lines, of the lines of answers and
//! of the control door, by public calls alone; and a client of shelves, outside of the crates.
#![tactic(auto)]

mod shelf_client;

pub use shelf_client::say_texts;

#[cfg(test)]
mod answer_tests;
#[cfg(test)]
mod connection;
#[cfg(test)]
mod control_tests;
#[cfg(test)]
mod edge_tests;
#[cfg(test)]
mod failure_tests;
#[cfg(test)]
mod keep_client;
#[cfg(test)]
mod line_tests;
#[cfg(test)]
mod streaming_tests;
