//! Plans how an archive is written anew without the entries of a text.
//! Reads the disk.
#![tactic(auto)]

mod mapping;
mod next;
mod planning;

pub use mapping::plan_map;
pub use next::{End, NextPlace};
pub use planning::Planner;
