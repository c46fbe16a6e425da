//! Tests of the file of an epoch and of the commits in it, by public calls alone.
#![tactic(auto)]

#[cfg(test)]
mod commit_tests;
#[cfg(test)]
mod epoch_file_tests;
