//! The row of a mail: what a list of mails says of it.
//! Allocates.
#![tactic(auto)]

mod overview;
mod rows;

pub use rows::row_of;
