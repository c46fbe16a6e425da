//! A disk of named files that says what a crash may leave.
//! Writes the disk; syncs.
//!
//! One such disk is in memory, and another one fails from a call on.
#![tactic(auto)]

mod again;
mod change;
mod disk;
mod files;
mod fuse;
mod memory;
mod name;
mod plan;
mod refusal;
mod settle;
mod sizes;

pub use disk::{Disk, DiskFault};
pub use fuse::FuseDisk;
pub use memory::MemDisk;
pub use name::{FileKind, FileName};
pub use refusal::WalkRefusal;
pub use settle::write_and_sync;
pub use sizes::{EPOCHS, LAST_EPOCH, record_size, records_size};
