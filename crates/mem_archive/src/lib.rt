//! A plain archive in memory that does exactly what the definitions say.
//! Allocates.
#![tactic(auto)]

mod kept;
mod memory;
mod memory_keep;
mod placing;

pub use memory::MemArchive;
