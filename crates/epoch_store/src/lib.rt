//! The archive on a disk: a root, a map of numbers, and the files of the epochs.
//! Writes the disk; syncs.
//!
//! No crash leaves a change half done.
#![tactic(auto)]

mod adopting;
mod convert_refusal;
mod converting;
mod epochs;
mod first;
mod laws;
mod reads;
mod refusal;
mod rewriting;
mod settling;
mod store;
mod store_opening;
mod writing;

pub use adopting::Adoption;
pub use convert_refusal::ConvertRefusal;
pub use laws::{law_of_opened_files, law_of_recovery, law_of_stores};
pub use refusal::InitRefusal;
pub use store::Store;
