//! Tests of the door of readers and of its words, by their public calls alone.
#![tactic(auto)]

#[cfg(test)]
mod connection;
#[cfg(test)]
mod damage_tests;
#[cfg(test)]
mod empty_tests;
#[cfg(test)]
mod failure_tests;
#[cfg(test)]
mod moment_tests;
#[cfg(test)]
mod number_tests;
#[cfg(test)]
mod reply_tests;
#[cfg(test)]
mod stream_tests;
#[cfg(test)]
mod wildmat_tests;
