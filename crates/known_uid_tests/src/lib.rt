//! Tests of the list of UIDs that a client was told, over an archive in memory, by its public calls
//! alone.
#![tactic(auto)]

#[cfg(test)]
mod client;
#[cfg(test)]
mod telling_tests;
