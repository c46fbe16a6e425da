//! The control door: a connection by which an archive is commanded.
//! Writes the disk; syncs.
//!
//! It delivers, shows, removes, purges and edits messages, shows threads and lists epochs.
#![tactic(auto)]

mod answers;
mod epochs;
mod front;
mod laws;
mod order;
mod replies;
mod session;
mod thread;

pub use laws::cut_laws;
pub use order::{Order, read_order};
pub use replies::say_refusal;
pub use session::Session;
