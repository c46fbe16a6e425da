//! The door of readers of news (RFC 3977): a session reads one archive, as one group.
//! Reads the disk.
#![tactic(auto)]

mod answers;
mod articles;
mod choice;
mod fact;
mod field;
mod grammar;
mod group;
mod header;
mod laws;
mod lists;
mod moments;
mod notice;
mod order;
mod ranges;
mod refusals;
mod session;
mod verb;
mod words;

pub use group::Group;
pub use laws::cut_laws;
pub use refusals::say_refusal;
pub use session::NntpSession;
