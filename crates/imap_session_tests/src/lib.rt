//! Tests of the session of the door of IMAP, by its public calls alone.
#![tactic(auto)]

#[cfg(test)]
mod change_tests;
#[cfg(test)]
mod connection;
#[cfg(test)]
mod failure_tests;
#[cfg(test)]
mod limit_tests;
#[cfg(test)]
mod stream_tests;
