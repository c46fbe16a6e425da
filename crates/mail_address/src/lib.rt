//! Reads the address lists of mail fields such as From and To (RFC 5322, section 3.4).
//! Allocates.
//!
//! Every value is read: from a value that isn't an address list, what can be found is returned.
#![tactic(auto)]

mod address;
mod items;
mod laws;
mod place;
mod reading;
mod words;

pub use address::{Address, AddressKind, Addresses};
pub use laws::{
    address_text_is_said, bare_reads, empty_value, every_value_is_front, group_reads, item_reads,
    mailbox_is_split, members_read_back, name_text_is_said, outside_is_between, plain_read_back,
    words_are_joined,
};
pub use place::Place;
pub use reading::list;
