//! An archive on a disk that takes commands.
//! Writes the disk; syncs.
//!
//! It has its store, an index of its messages by their ids, and the rows and threads of its live
//! messages.
#![tactic(auto)]

mod archive;
mod converting;
mod counted;
mod engine;
mod entries;
mod not_made;
mod opened;
mod placing;
mod reading;
mod rewriting;
mod rows;
mod texts;
mod walk;

pub use archive::DiskArchive;
pub use counted::CountedArchive;
pub use engine::Engine;
pub use not_made::{NotMade, NotOpened};
pub use texts::KeptText;
pub use walk::Walk;
