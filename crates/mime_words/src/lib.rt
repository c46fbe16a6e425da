//! Decodes encoded words in header fields (RFC 2047), and base64 (RFC 2045, section 6.8).
//! Allocates.
//!
//! The base64 may have other bytes in it.
#![tactic(auto)]

mod charset;
mod decoding;
mod encoding;
mod laws;
mod quoted;
mod symbols;
mod words;

pub use decoding::decode;
pub use laws::{
    encoded_bytes, lone_equals_stays, loose_base64, spelled_is_said, value_without_words,
    words_are_spelled,
};
pub use quoted::escaped_byte;
pub use symbols::unbase64;
