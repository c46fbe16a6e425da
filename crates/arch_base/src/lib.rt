//! The base types of the archive: lists, names, decimals, object ids, settings and moments.
//! Allocates.
#![tactic(auto)]

mod config;
mod decimals;
mod hex_text;
mod ids;
mod moments;
mod name;
mod sequence;

pub use config::Config;
pub use decimals::{decimal, read_decimal};
pub use hex_text::{Hex, hex_of};
pub use ids::{Form, ObjectId, id_of_hex};
pub use moments::{LAST_MOMENT, last_moment_is_defined};
pub use name::Name;
pub use sequence::{Bytes, Duplicate, MessageNumbers, NoMemory, Numbers, Sequence, Texts};
