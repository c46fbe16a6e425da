//! Tests of the items and keys of IMAP, by public calls alone.
//! Allocates.
#![tactic(auto)]

#[cfg(test)]
mod item_tests;
#[cfg(test)]
mod key_tests;
#[cfg(test)]
mod mails;
#[cfg(test)]
mod section_tests;
