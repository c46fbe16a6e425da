//! The door of mail systems that hand over mail (RFC 2033): a session delivers it to an archive.
//! Writes the disk; syncs.
#![tactic(auto)]

mod grammar;
mod laws;
mod notice;
mod order;
mod refusals;
mod replies;
mod session;
mod stage;

pub use laws::door_laws;
pub use refusals::say_refusal;
pub use session::LmtpSession;
