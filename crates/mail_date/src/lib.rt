//! Dates of mail: reads the value of a Date field, and prints moments.
//! Pure.
#![tactic(auto)]

mod laws;
mod moment;
mod pieces;
mod printing;
mod reading;
mod words;

pub use laws::{
    moment_is_spelled, printed_date_is_one, spelled_moment_is_one, written_date_is_spelled,
};
pub use moment::{CivilDate, Moment, utc_date};
pub use pieces::{Clock, read_two_digits};
pub use printing::{print_imap, print_page, print_rfc3339};
pub use reading::read;
