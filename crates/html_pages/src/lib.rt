//! The pages of a list for browsers.
//! Allocates.
#![tactic(auto)]

mod laws;
mod lines;
mod listing;
mod message;
mod pieces;
mod search;
mod thread;
mod thread_line;

pub use laws::{
    address_makes_no_tag, listing_has_its_tags, message_has_its_tags, search_has_its_tags,
    text_makes_no_tag, thread_has_its_tags,
};
pub use listing::listing_page;
pub use message::message_page;
pub use search::search_page;
pub use thread::thread_page;
pub use thread_line::{ThreadEntry, ThreadLine};
