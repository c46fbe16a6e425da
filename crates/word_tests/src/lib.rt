//! Tests of words, queries and the index of words, by their public calls alone.
#![tactic(auto)]

#[cfg(test)]
mod many_tests;
#[cfg(test)]
mod query_tests;
#[cfg(test)]
mod rows;
#[cfg(test)]
mod word_tests;
