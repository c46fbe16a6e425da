//! Tests of what FETCH and SEARCH of IMAP say of the messages that a client was told.
//! Allocates.
#![tactic(auto)]

#[cfg(test)]
mod client;
#[cfg(test)]
mod failure_tests;
#[cfg(test)]
mod fetch_tests;
#[cfg(test)]
mod search_tests;
#[cfg(test)]
mod set_tests;
