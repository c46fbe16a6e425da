//! Finds the archive on a disk: reads its root, its map and its epochs, and joins their entries.
//! Writes the disk; syncs.
#![tactic(auto)]

mod entries;
mod finding;
mod indexing;
mod join_refusal;
mod joining;
mod listing;
mod opening_laws;
mod read_refusal;
mod reading;
mod removing;

pub use entries::StoredEntry;
pub use finding::{Found, find};
pub use indexing::take_entry;
pub use listing::{FileNames, file_names};
pub use opening_laws::{law_of_opening, law_of_undamaged_files};
pub use read_refusal::ReadRefusal;
pub use reading::read_text;
pub use removing::remove_files;
