//! Tests of the door of pages, by its public calls alone. Requests, streams and their replies were
//! worked out by hand from the formats.
#![tactic(auto)]

#[cfg(test)]
mod failure_tests;
#[cfg(test)]
mod mails;
#[cfg(test)]
mod mirror_tests;
#[cfg(test)]
mod request_tests;
#[cfg(test)]
mod search_tests;
#[cfg(test)]
mod stream_tests;
#[cfg(test)]
mod word_tests;
