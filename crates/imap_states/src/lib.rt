//! The states of a session of IMAP, and the commands that read no messages.
//! Allocates.
//!
//! A shelf that reads the disk isn't read: no call here asks for a text.
#![tactic(auto)]

mod answers;
mod boxes;
mod commands;
mod idling;
mod laws;
mod lists;
mod login;
mod notice;
mod patterns;
mod refusals;
mod selecting;
mod state;
mod status;
mod telling;

pub use answers::answer;
pub use commands::StateCommand;
pub use idling::{end_idling, say_too_long, tell};
pub use laws::reply_laws;
pub use notice::{say_bad, say_bye_memory, say_go, say_no_memory, say_untagged, say_welcome};
pub use refusals::say_refusal;
pub use state::{ImapPlace, ImapState};
