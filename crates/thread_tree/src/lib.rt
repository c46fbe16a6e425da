//! Trees of messages by their references, with ghosts for references that no message answers.
//! Allocates.
#![tactic(auto)]

mod above;
mod facts;
mod forest;
mod lines;
mod loops;
mod nodes;
mod twigs;

pub use lines::{Line, Lines, Who};
pub use twigs::{Twig, Twigs};
