//! The rows of live messages, the threads that they make and their words, behind one value.
//! Reads the disk.
#![tactic(auto)]

mod counted;
mod keys;
mod laws;
mod posting;
mod rebuilding;
mod rows;
mod views;

pub use laws::{search_filters_the_listing, search_is_the_archives, threads_are_the_archives};
pub use rebuilding::{Unread, rebuild};
pub use rows::{add_if_stored, add_row};
pub use views::Views;
