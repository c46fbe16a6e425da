//! Tests of purges and edits in archives in memory and on disks, by their public calls alone.
#![tactic(auto)]

#[cfg(test)]
mod purge_tests;
