//! Strings, envelopes and structures of messages in replies (RFC 3501, sections 4 and 7.4.2).
//! Allocates.
//!
//! Allocates.
#![tactic(auto)]

mod envelopes;
mod laws;
mod numbers;
mod strings;
mod structures;

pub use envelopes::push_envelope;
pub use laws::{forests_are_parts, parentheses_balance, strings_are_read};
pub use numbers::push_number;
pub use strings::{literal_head, push_string};
pub use structures::push_structure;
