//! The door of clients that read mail by IMAP (RFC 3501, and RFC 2177): a session and its updates.
//! Reads the disk.
#![tactic(auto)]

mod answers;
mod laws;
mod session;
mod starved;

pub use imap_states::say_refusal;
pub use laws::door_laws;
pub use session::ImapSession;
