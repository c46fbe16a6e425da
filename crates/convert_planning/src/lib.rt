//! Plans how an archive is written anew with objects of another form.
//! Reads the disk.
#![tactic(auto)]

mod clashing;
mod converting;
mod extending;
mod laws;
mod whole;

pub use clashing::{collision, law_of_collisions};
pub use converting::Converter;
pub use laws::law_of_conversions;
pub use whole::plan_conversion;
