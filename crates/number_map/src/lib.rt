//! The map of an archive: a file with one record for each number.
//! Writes the disk; syncs.
//!
//! Appends a record, reads all of them, and writes a map anew without the messages of some numbers.
#![tactic(auto)]

mod laws;
mod line;
mod pieces;
mod reading;
mod rewriting;
mod whole;
mod writing;

pub use laws::law_of_records;
pub use line::{Record, Records};
pub use rewriting::{plan_without, push_record, push_records, rewrite, without_message};
pub use whole::walk;
pub use writing::append;
