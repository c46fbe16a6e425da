//! What a text says of itself, what it is known by, and the commit and the objects that keep it.
//! Allocates.
#![tactic(auto)]

mod commits;
mod facts;
mod ids;

pub use commits::{
    EntryIds, EntryObjects, EntryText, entry_commit, entry_objects, magic, push_entry,
};
pub use ids::{TextIds, text_ids};
