//! The forms in which a text is sent, their lengths, its fields' values, and the row of a mail.
//! Allocates.
#![tactic(auto)]

mod header_bytes;
mod laws;
mod mailbox;
mod named_values;
mod row;
mod wire_form;

pub use header_bytes::header;
pub use laws::{wire_len_is_sum, wire_lines_end_as_sent};
pub use mailbox::{is_from_line, mbox_len};
pub use named_values::{flat_first, listed_values};
pub use row::Row;
pub use wire_form::{line_feeds, wire, wire_len};
