//! What FETCH and SEARCH of IMAP, and their UID forms, say of the messages that a client was told.
//! Reads the disk.
#![tactic(auto)]

mod fetch;
mod found;
mod items;
mod lines;
mod numbering;
mod refusals;
mod search;

pub use fetch::{FetchCommand, say_fetch};
pub use numbering::Numbering;
pub use search::{SearchCommand, say_search};
