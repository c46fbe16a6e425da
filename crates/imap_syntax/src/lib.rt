//! The commands of IMAP (RFC 3501, section 9, and RFC 2177), and their reader.
//! Allocates.
//!
//! The framer of `imap_framer` is passed on.
#![tactic(auto)]

mod asks;
mod command_names;
mod commands;
mod dates;
mod flags;
mod item_reading;
mod items;
mod key_names;
mod key_reading;
mod keys;
mod laws;
mod reading;
mod sections;
mod set_reading;
mod sets;

pub use asks::{Ask, AskRefusal, StatusItem};
pub use command_names::{ListCommand, MailboxCommand, PlainCommand};
pub use dates::{DateTime, Time, Zone};
pub use flags::{FlagChange, StoreItem};
pub use imap_framer::{Found, Framed, Framer};
pub use items::{Item, Partial, Section, SectionText};
pub use key_names::{DayKey, FlagKey, PlainKey, SizeKey, TextKey};
pub use keys::{Date, Key};
pub use laws::keys_are_read;
pub use reading::read;
pub use sets::{SeqSet, SetEnd, SetRange};
