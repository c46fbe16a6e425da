//! Feeds of mails, and mailbox files of them.
//! Allocates.
#![tactic(auto)]

mod entries;
mod feeds;
mod laws;
mod mailbox;

pub use entries::{push_feed_end, push_feed_entry, push_feed_start};
pub use feeds::{Shown, feed, updated};
pub use laws::feed_has_its_tags;
pub use mailbox::{mbox_len, mbox_piece};
