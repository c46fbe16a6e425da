//! The answer to one whole command of a session of IMAP, whichever it is.
//! Reads the disk.
#![tactic(auto)]

mod answers;
mod laws;
mod messages;
mod orders;
mod starving;

pub use answers::answer;
pub use laws::command_laws;
