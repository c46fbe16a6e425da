//! The list of a mirror: what an archive tells another one of its entries, without their texts.
//! Allocates.
//!
//! `write` spells the list of an archive, and `read` reads it back, in either form of ids.
#![tactic(auto)]

mod checking;
mod laws;
mod line_reading;
mod list;
mod reading;
mod writing;

pub use laws::law_of_lists;
pub use list::{EntryLines, ListRefusal, MirrorList};
pub use reading::read;
pub use writing::write;
