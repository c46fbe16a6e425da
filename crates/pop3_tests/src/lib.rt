//! Tests of the door of clients that fetch mail, by its public calls alone.
#![tactic(auto)]

#[cfg(test)]
mod connection;
#[cfg(test)]
mod failure_tests;
#[cfg(test)]
mod gone_tests;
#[cfg(test)]
mod reply_tests;
#[cfg(test)]
mod stream_tests;
#[cfg(test)]
mod word_tests;
