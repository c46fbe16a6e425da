//! Git objects (git, "Git Objects"): blobs, trees of one file, and commits.
//! Allocates.
//!
//! Spells objects, reads them back, and computes their ids.
#![tactic(auto)]

mod clean_text;
mod commit_reading;
mod commits;
mod entry_kind;
mod fronts;
mod kinds;
mod objects;
mod trees;

pub use commit_reading::{committed_at, read_commit};
pub use commits::{Commit, commit_bytes};
pub use entry_kind::EntryKind;
pub use fronts::{after, parted_at, read_id, read_number};
pub use objects::{Object, blob_id, object_id, read_object, spellings_stand_apart};
pub use trees::{TreeBytes, tree_bytes};
