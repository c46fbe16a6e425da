//! Divides a mail into its parts, and decodes them (RFC 2045 and RFC 2046).
//! Allocates.
//!
//! It shows a mail's body as text, and gives its words.
#![tactic(auto)]

mod content_type;
mod decoding;
mod delimiters;
mod heading;
mod laws;
mod lexemes;
mod mail_words;
mod params;
mod part;
mod quoted;
mod visiting;

pub use decoding::{body_text, decode_part};
pub use laws::{bodies_are_divided, parts_are_a_tree};
pub use mail_words::words;
pub use part::{Encoding, Part, Parts, Shape, Span};
pub use visiting::tree;
