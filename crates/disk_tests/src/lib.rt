//! Tests of the disk in memory, and of the files, the map and the root on it, by public calls
//! alone; and a first user of the disk, which they try.
#![tactic(auto)]

mod client;

pub use client::change_text;

#[cfg(test)]
mod client_tests;
#[cfg(test)]
mod commit_tests;
#[cfg(test)]
mod crashes;
#[cfg(test)]
mod file_names;
#[cfg(test)]
mod files_tests;
#[cfg(test)]
mod map_tests;
#[cfg(test)]
mod memory_tests;
#[cfg(test)]
mod root_tests;
#[cfg(test)]
mod roots;
