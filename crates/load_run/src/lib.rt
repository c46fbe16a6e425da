//! Fills an archive with messages that a seed determines, and counts what is there then.
//! Writes the disk; syncs.
//!
//! Some of the messages are removed or purged before they are counted.
#![tactic(auto)]

mod commanding;
mod counting;
mod counts;
mod loading;
mod mails;
mod refusal;

pub use counts::LoadCounts;
pub use loading::{GREATEST_LOAD, greatest_load_is_defined, load};
pub use mails::{drawn, next_state, push_mail};
pub use refusal::LoadRefusal;
