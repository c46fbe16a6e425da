//! The words of a reader's commands (RFC 3977): numbers, ranges, ids, wildmats, dates and times.
//! Pure.
#![tactic(auto)]

mod moments;
mod numbers;
mod wildmats;

pub use moments::read_moment;
pub use numbers::{Range, is_id, read_number, read_range};
pub use wildmats::matches;
