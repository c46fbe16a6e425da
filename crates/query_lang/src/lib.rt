//! Queries: reads what a search asks, and says which messages match.
//! Allocates.
#![tactic(auto)]

mod dates;
mod matching;
mod query;
mod reading;
mod terms;

pub use dates::utc_day;
pub use matching::{Field, in_ranges, matches};
pub use query::{Query, QueryRefusal};
pub use reading::read;
