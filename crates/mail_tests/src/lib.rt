//! Tests of the base types, the readers of mail and of its parts, and git objects, by their public
//! calls alone.
#![tactic(auto)]

#[cfg(test)]
mod arch_base_tests;
#[cfg(test)]
mod body_text_tests;
#[cfg(test)]
mod decoding_tests;
#[cfg(test)]
mod git_objects_tests;
#[cfg(test)]
mod heading_tests;
#[cfg(test)]
mod mail_address_tests;
#[cfg(test)]
mod mail_date_tests;
#[cfg(test)]
mod mail_reader_tests;
#[cfg(test)]
mod mime_words_tests;
#[cfg(test)]
mod part_limit_tests;
#[cfg(test)]
mod part_tree_tests;
#[cfg(test)]
mod part_word_tests;
#[cfg(test)]
mod shown_parts;
