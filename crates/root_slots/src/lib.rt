//! The root of an archive: one file with two slots.
//! Writes the disk; syncs.
//!
//! A commit writes the slot that isn't current.
#![tactic(auto)]

mod body;
mod find;
mod laws;
mod parts;
mod refusal;
mod root;
mod slot;
mod slots;
mod start;

pub use find::read;
pub use laws::law_of_spellings;
pub use refusal::RootRefusal;
pub use root::{Place, Root, root_fits};
pub use slot::Slot;
pub use slots::{commit, fill, is_open, raise, shut};
pub use start::begin;
