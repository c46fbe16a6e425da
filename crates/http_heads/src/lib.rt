//! Heads of requests and their targets, as a door of pages reads them.
//! Allocates.
#![tactic(auto)]

mod address;
mod dates;
mod fields;
mod head;
mod parameters;
mod pieces;
mod reply;

pub use address::{Address, address_of, segments};
pub use dates::date_at;
pub use head::{Request, read_head};
pub use parameters::{parameter, skip_of, split_target};
pub use pieces::{Pieces, split_piece};
pub use reply::{Body, Status, Verdict, judge, push_reply_head};
