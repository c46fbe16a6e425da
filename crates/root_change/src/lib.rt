//! Replaces the root of an archive and its files in one step.
//! Writes the disk; syncs.
//!
//! A crash leaves the old root with its files, or the new one with its own.
#![tactic(auto)]

mod appending;
mod copying;
mod names;
mod plan;
mod replacing;
mod rewriting;
mod sources;
mod tidying;

pub use appending::append;
pub use copying::{FileRange, copy_range};
pub use names::{cache_file, epoch_file, epoch_place, is_named, map_file, place_at};
pub use plan::{PartPlan, Target};
pub use replacing::replace_root;
pub use rewriting::{RewriteRefusal, rewrite};
pub use sources::{Source, put_sources};
pub use tidying::tidy;

#[cfg(test)]
mod file_tests;
#[cfg(test)]
mod tests;
