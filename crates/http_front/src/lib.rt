//! The door of pages, feeds and mailbox files: a connection over HTTP/1.1 that reads an archive.
//! Reads the disk.
#![tactic(auto)]

mod answer;
mod feed;
mod found;
mod held;
mod laws;
mod listing;
mod mailbox;
mod message;
mod mirrors;
mod numbers;
mod replies;
mod scan;
mod search;
mod session;
mod thread;
mod words;

pub use laws::{heads_are_read, http_laws, listing_is_whole};
pub use session::HttpSession;
pub use words::say_refusal;
