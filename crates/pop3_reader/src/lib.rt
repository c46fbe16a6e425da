//! The door of clients that fetch mail (RFC 1939): a session shows the messages of one mailbox.
//! Reads the disk.
#![tactic(auto)]

mod answers;
mod grammar;
mod laws;
mod listing;
mod login;
mod maildrop;
mod notice;
mod order;
mod refusals;
mod session;
mod texts;

pub use laws::door_laws;
pub use maildrop::{MailSize, Maildrop, PopState};
pub use refusals::say_refusal;
pub use session::Pop3Session;
