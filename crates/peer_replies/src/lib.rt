//! What is asked of a web server, and what its replies are, as a mirror reads them.
//! Allocates.
#![tactic(auto)]

mod address;
mod fields;
mod reading;
mod request;

pub use address::{PeerAddress, read_address};
pub use reading::{Reading, Unreadable, WholeReply, law_of_replies, read_reply};
pub use request::{is_target, law_of_requests, request_bytes};
