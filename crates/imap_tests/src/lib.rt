//! Tests of `imap_framer` and `imap_syntax`, by their public calls alone.
//! Allocates.
#![tactic(auto)]

#[cfg(test)]
mod framer_tests;
#[cfg(test)]
mod limit_tests;
#[cfg(test)]
mod random_tests;
#[cfg(test)]
mod reading_tests;
#[cfg(test)]
mod speed_tests;
#[cfg(test)]
mod spelling;
