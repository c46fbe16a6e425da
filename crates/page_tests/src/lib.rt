//! Tests of pages, feeds, mailbox files and heads, by their public calls alone. What they have was
//! worked out by hand from the formats.
#![tactic(auto)]

#[cfg(test)]
mod escape_tests;
#[cfg(test)]
mod feed_tests;
#[cfg(test)]
mod head_tests;
#[cfg(test)]
mod hostile_tests;
#[cfg(test)]
mod listing_tests;
#[cfg(test)]
mod mailbox_tests;
#[cfg(test)]
mod message_tests;
#[cfg(test)]
mod rows;
#[cfg(test)]
mod search_tests;
#[cfg(test)]
mod target_tests;
#[cfg(test)]
mod thread_tests;
