//! The rows of mails by number, by id, and by date and number.
//! Allocates.
#![tactic(auto)]

mod held;
mod laws;
mod newest;
mod overview;
mod spot;
mod views;

pub use laws::{listing_is_the_archives, spots_are_in_order};
pub use overview::Overview;
