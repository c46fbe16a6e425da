//! The file of an epoch: the git objects of its entries, one after the other.
//! Writes the disk; syncs.
//!
//! Appends an entry, reads all of them, and writes an epoch anew without some of them.
#![tactic(auto)]

mod appending;
mod entry;
mod laws;
mod planning;
mod reading;
mod refusal;
mod rewriting;
mod sight;
mod state;
mod walking;
mod window;

pub use appending::{append_entry, entry_piece};
pub use entry::{NewEntry, Seen, SeenList, Written};
pub use laws::{law_of_entries, law_of_epochs};
pub use planning::EpochPlan;
pub use refusal::StoreRefusal;
pub use rewriting::rewrite;
pub use walking::walk;
