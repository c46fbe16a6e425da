//! Tests of the states of a session of IMAP, over an archive in memory, by public calls alone.
#![tactic(auto)]

#[cfg(test)]
mod client;
#[cfg(test)]
mod idle_tests;
#[cfg(test)]
mod reply_tests;
