//! The items that FETCH asks for, and the keys by which SEARCH finds messages (RFC 3501).
//! Allocates.
//!
//! They stand in its sections 6.4.4, 6.4.5 and 7.4.2. Allocates.
#![tactic(auto)]

mod days;
mod header_fields;
mod items;
mod kept;
mod keys;
mod labels;
mod laws;
mod octets;
mod places;
mod searching;
mod sections;

pub use items::{divides, item, item_of_parts};
pub use keys::{matches, reads_text};
pub use laws::{inner_mails_agree, pieces_are_found, sections_are_spans, unread_texts_are_alike};
