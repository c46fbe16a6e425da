//! Serves many connections from one archive.
//! Writes the disk; syncs.
//!
//! A node takes events one by one, each to its end, and keeps the sessions of all doors. After each event
//! the sessions that idle are told what changed.
#![tactic(auto)]

mod laws;
mod node;
mod places;
mod serving;
mod session;
mod updates;
mod welcome;

pub use laws::{count_law, plain_law, suiting_law, update_law};
pub use node::Node;
pub use serving::{ServeEnd, serve};
pub use session::Session;
pub use updates::Idling;
