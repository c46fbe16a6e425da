//! The end of each command of IMAP: its lines, and the literals that they announce.
//! Allocates.
#![tactic(auto)]

mod framer;
mod joined;
mod laws;
mod parts;

pub use framer::{Found, Framed, Framer};
pub use laws::{framed_law, front_law};
pub use parts::NextPart;
