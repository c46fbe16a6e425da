//! Tests of what archives in memory and on disks show of their live messages, by their public calls
//! alone: listings, threads, searches, and the same after what is kept beside the files was built
//! anew.
#![tactic(auto)]

#[cfg(test)]
mod listing_tests;
#[cfg(test)]
mod reindex_tests;
#[cfg(test)]
mod search_tests;
#[cfg(test)]
mod thread_tests;
