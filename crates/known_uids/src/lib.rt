//! The list of UIDs that a client of IMAP was told, over any shelf, and what it is told of changes.
//! Allocates.
//!
//! A shelf that reads the disk isn't read: no call here asks for a text.
#![tactic(auto)]

mod changes;
mod gone;
mod known;
mod laws;
mod live;

pub use changes::Changes;
pub use known::KnownUids;
pub use laws::{gone_stay, told_is_followed, told_twice};
