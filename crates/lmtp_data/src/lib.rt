//! The data of a mail that a client sends over LMTP, read as it comes.
//! Allocates.
#![tactic(auto)]

mod laws;
mod place;
mod reader;

pub use laws::data_laws;
pub use place::Place;
pub use reader::DataReader;
