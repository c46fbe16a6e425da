//! Tests of whole commands of IMAP, over archives in memory, by public calls alone.
#![tactic(auto)]

#[cfg(test)]
mod client;
#[cfg(test)]
mod failure_tests;
#[cfg(test)]
mod message_tests;
#[cfg(test)]
mod state_tests;
