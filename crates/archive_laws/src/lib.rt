//! Laws of archives in the words of their readers.
//! Pure.
//!
//! They say what a command changes of the entries, the numbers and the messages that are shown, and
//! what it leaves.
#![tactic(auto)]

mod laws;

pub use laws::{edit_exchanges_one_text, kept_numbers_follow, purge_drops_one_text};
