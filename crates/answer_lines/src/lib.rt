//! The lines that a door or the program writes: answers to commands, refusals, damaged files.
//! Pure.
//!
//! Each line ends with a line feed. A call answers `SinkFault` if a prefix of its line was taken.
//! The sink's count of faults then rose.
#![tactic(auto)]

mod answers;
mod damage;
mod numbers;
mod refusals;

pub use answers::say_answer;
pub use damage::say_damage;
pub use numbers::say_number;
pub use refusals::{say_memory, say_unopened, say_unread};
